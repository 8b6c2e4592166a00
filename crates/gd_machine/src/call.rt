//! The calls of a book, as rows name them.

ghost use Rattle.std.specs.Prelude.{Some};
ghost use Rattle.gd_machine.specs.Names.{call_name};

use std::fmt;

/// A call of a book. It is printed by the name of its row.
#[derive(Clone, Copy, Debug, PartialEq, Eq)]
pub enum Call {
    Nominate,
    Respond,
    Post,
    Freeze,
    /// Solves the frozen question, and publishes or declares what it finds.
    Settle,
    Publish,
    Declare,
    Waive,
    Skip,
}

impl fmt::Display for Call {
    ghost output = { λ c. Some (call_name c) };

    fn fmt<W: fmt::Write>(&self, f: &mut fmt::Formatter<W>) -> fmt::Result {
        match self {
            Call::Nominate => f.write_str("nominate"),
            Call::Respond => f.write_str("respond"),
            Call::Post => f.write_str("post"),
            Call::Freeze => f.write_str("freeze"),
            Call::Settle => f.write_str("settle"),
            Call::Publish => f.write_str("publish"),
            Call::Declare => f.write_str("declare"),
            Call::Waive => f.write_str("waive"),
            Call::Skip => f.write_str("skip"),
        }
    }
}
