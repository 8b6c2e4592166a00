//! Faults of a block as faults of the whole text.

ghost use Rattle.std.specs.Prelude.{◌≡◌, ◌⊎◌};
ghost use Rattle.gd_text_part.specs.declared.fault.TextFault.TheVariants.{OutOfMemory};
ghost use Rattle.gasday_office.specs.Days as spec;

use gd_system::BuildFault;
use gd_text_part::{Cause, TextFault};

/// A fault of a block behind `before` rows of a text that has `last` rows. A number that doesn't fit, which no row has, is
/// told as want of memory.
pub(crate) fn block_fault(last: u64, before: u64, fault: TextFault) -> TextFault
    ensures { (result ≡ OutOfMemory) ⊎ (result ≡ spec.block_fault last before fault) }
{
    let TextFault::Row { row, cause } = fault else {
        return fault;
    };
    let lacks = matches!(cause, Cause::Missing | Cause::Build(BuildFault::NoSegment));
    let (from, number) = if lacks { (last, 1) } else { (before, row) };
    match from.checked_add(number) {
        Some(row) => TextFault::at(row, cause),
        None => TextFault::OutOfMemory,
    }
}
