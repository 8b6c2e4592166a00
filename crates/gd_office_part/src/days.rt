//! With which opening values the books of an office are opened.

use std::marker::Brand;

/// The opening values of the books of an office, in the order of its slots. Only proofs see them, and each call that passes
/// [`Brand`] may pick them. Where it doesn't, nothing is known of them.
pub trait Days {
    ghost use Rattle.std.specs.Prelude.{List};
    ghost use Rattle.gd_machine.specs.Day.{Day};

    ghost days: { List Day };
}

impl Days for Brand {
    ghost use Rattle.std.specs.Prelude.{[]};

    ghost days = { [] };
}
