//! What a dekatherm is worth by the tariff.

use gd_cost::{ByClass, Lex, Tariff};
use gd_units::Class;
use std::test::Fail;

/// A dekatherm of class 4 is worth 1 at the word of class 4, and minus its tenth there; by the class alone it is worth the
/// same in each tenth.
#[test]
fn worth_of_a_dekatherm(rt: HostRuntime) -> Result<(), Fail> {
    let class = Class::new(4).ok_or("no class")?;
    let worth = Tariff::unit_at(class, 10);
    assert_eq!(rt; worth.first().word(3), Some(1));
    assert_eq!(rt; worth.first().word(4), Some(0));
    assert_eq!(rt; worth.second().word(3), Some(-10));
    assert_eq!(rt; Tariff::unit(class).second().word(3), Some(0));
    assert_eq!(rt; Lex::<8>::unit_at(class, 2), Lex::unit(class));
    Ok(())
}
