//! Names: where the first byte stands that none has, and their text.

use gd_units::{Name, NameFault};
use std::test::Fail;

/// Places are counted from 0, which no answer of the program tells.
#[test]
fn names(rt: HostRuntime) -> Result<(), Fail> {
    assert_eq!(rt; Name::read("A-9b"), Err(NameFault::BadByte(3)));
    let name = Name::read("ABCDEFGHIJKLM-09")
        .ok()
        .ok_or("16 bytes are a name")?;
    assert_eq!(rt; name.to_string(rt.alloc())?.as_str(), "ABCDEFGHIJKLM-09");
    Ok(())
}
