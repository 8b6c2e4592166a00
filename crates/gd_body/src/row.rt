//! Fields of rows.

ghost use Rattle.std.specs.Prelude.{Some};
ghost use Rattle.std.specs.Prelude.{[], unwrap_or};
ghost use Rattle.gd_body.specs.Rows.{spread_field};

use gd_units::Name;
use std::fmt;

/// A word of the spread as a field, which is empty where the word is 0.
#[derive(Clone, Copy)]
pub(crate) struct SpreadField(pub i128);

impl fmt::Display for SpreadField {
    ghost output = { λ s. Some (spread_field s.0) };

    fn fmt<W: fmt::Write>(&self, f: &mut fmt::Formatter<W>) -> fmt::Result {
        let spread = self.0;
        if spread == 0 {
            f.write_str("")
        } else {
            write!(f, "{spread}")
        }
    }
}

/// An operator as a field, which is empty where there is none.
#[derive(Clone, Copy)]
pub(crate) struct OperatorField(pub Option<Name>);

impl fmt::Display for OperatorField {
    ghost output = { λ o. Some (unwrap_or o.0 []) };

    fn fmt<W: fmt::Write>(&self, f: &mut fmt::Formatter<W>) -> fmt::Result {
        match self.0 {
            Some(name) => write!(f, "{name}"),
            None => f.write_str(""),
        }
    }
}
