//! What a session's thread hands back.

ghost use Rattle.std.specs.Prelude.{◌≡◌};
ghost use Rattle.gd_office_part.specs.Counting.{counted_all};

use crate::kept::Receipt;
use crate::numbers::Numbers;

/// The receipts of a session's calls to the book of a slot, with its numbers before them, and after them as they tell.
#[derive(Drop)]
pub(crate) struct Sent {
    pub(crate) slot: u32,
    pub(crate) start: Numbers,
    pub(crate) receipts: Vec<Receipt>,
    pub(crate) numbers: Numbers,
    ghost counted: { numbers ≡ counted_all start receipts.items },
}

impl Sent {
    /// Receipts with the numbers before and after them.
    pub(crate) fn of(slot: u32, start: Numbers, receipts: Vec<Receipt>, numbers: Numbers) -> Sent
        requires { numbers ≡ counted_all start receipts.items }
        ensures { (result.slot ≡ slot) × (result.start ≡ start) × (result.receipts ≡ receipts) }
    {
        Sent {
            slot,
            start,
            receipts,
            numbers,
        }
    }
}
