//! The text of a time zone.

ghost use Rattle.std.specs.Prelude.{◌≡◌, IfOk};

use std::alloc::{AllocError, Global};
use std::marker::Model;

/// What a text gives as a time zone: any text that isn't empty. Whether it is a POSIX rule is found when the calendar is made.
///
/// A contract sees its bytes.
#[derive(Drop)]
pub struct ZoneText {
    text: String,
}

impl Model for ZoneText {
    ghost use Rattle.std.specs.Prelude.{ℕ, List};
    ghost use Rattle.std.specs.String.{string_bytes};

    ghost Value = { List ℕ };

    ghost view = { λ z. string_bytes z.text };
}

impl ZoneText {
    /// A copy of the text.
    pub fn of(alloc: Global, text: &str) -> Result<ZoneText, AllocError>
        ensures { IfOk result (λ zone. zone ≡ text.now) }
    {
        let text = String::from_str(alloc, text)?;
        Ok(ZoneText { text })
    }

    /// The text.
    pub fn as_str(&self) -> &str
        ensures { result.now ≡ self.now }
    {
        self.text.as_str()
    }
}
