//! Receipts against the one history behind the lock of a slot.

ghost use Rattle.std.specs.Prelude.{◌≡◌, ◌≢◌, Some, None, length as len_of, IfOk, IfErr, OnOk};
ghost use Rattle.gd_machine.specs.Headline.{IsHistoryOf};
ghost use Rattle.gd_reconcile.specs.Fitting.{lists_of, Fit};
ghost use Rattle.gd_reconcile.specs.Explaining.{Explains};
ghost use Rattle.gd_office.specs.Slots.{slot_of};
ghost use Rattle.gd_office.specs.Reconciling.{FitAsMany, ExplainsMisfit, ExplainsReconcile, reconcile_fault_name};

use crate::office::Office;
use gd_book::Book;
use gd_office_part::{Days, Kept, Receipt};
use gd_reconcile::{Mismatch, ReceiptsFault, reconcile};
use std::alloc::Global;
use std::fmt;
use std::sync::Wait;

/// Why receipts don't pass for a slot. It is printed by its name.
#[derive(Clone, Copy, Debug, PartialEq, Eq, Drop)]
pub enum ReconcileFault {
    /// There is no slot of this number.
    UnknownSlot,
    /// The receipt at this place is the first that does not fit together with those before it.
    Mismatch(Mismatch),
    /// Memory was refused.
    OutOfMemory,
}

impl fmt::Display for ReconcileFault {
    ghost output = { λ f. Some (reconcile_fault_name f) };

    fn fmt<W: fmt::Write>(&self, f: &mut fmt::Formatter<W>) -> fmt::Result {
        match self {
            ReconcileFault::UnknownSlot => f.write_str("UnknownSlot"),
            ReconcileFault::Mismatch(_) => f.write_str("Mismatch"),
            ReconcileFault::OutOfMemory => f.write_str("OutOfMemory"),
        }
    }
}

/// The length of a book's history, which all receipts fit.
fn fitted_by(alloc: Global, book: &Book, lists: &[Vec<Receipt>]) -> Result<u64, ReceiptsFault>
    ensures history { IsHistoryOf book.now.day book.now.history }
    ensures length { IfOk result (λ n. len_of book.now.history ≡ n) }
    ensures ok { OnOk result (Fit book.now.day book.now.history (lists_of lists.now)) }
    ensures err { IfErr result (Explains book.now.day book.now.history (lists_of lists.now)) }
{
    let length = book.history().len() as u64;
    reconcile(alloc, book, lists)?;
    Ok(length)
}

/// The length of the legal history of a slot's book, which all receipts fit.
fn fitted<J: Days>(
    alloc: Global,
    kept: &Kept<J>,
    lists: &[Vec<Receipt>],
) -> Result<u64, ReceiptsFault>
    ensures ok { IfOk result (FitAsMany J.days kept.now.slot (lists_of lists.now)) }
    ensures err { IfErr result (ExplainsMisfit J.days kept.now.slot (lists_of lists.now)) }
{
    fitted_by(alloc, kept.book(), lists)
}

impl<J: Days> Office<J> {
    /// Passes exactly where all receipts fit the one history of a slot's book, and tells its length. It waits for the lock,
    /// under which it looks at all of them. Slots of receipts are not compared.
    ///
    /// # Errors
    ///
    /// `UnknownSlot`; `Mismatch` with the first receipt, by list and then by place, that does not fit together with those
    /// before it; and else `OutOfMemory`.
    pub fn reconcile<R: Wait>(
        &self,
        rt: &R,
        alloc: Global,
        slot: u32,
        lists: &[Vec<Receipt>],
    ) -> Result<u64, ReconcileFault>
        ensures there { OnOk result (slot_of self.now.slots.items slot ≢ None) }
        ensures ok { IfOk result (FitAsMany J.days slot (lists_of lists.now)) }
        ensures err { IfErr result (ExplainsReconcile J.days self.now.slots.items slot (lists_of lists.now)) }
    {
        let Some(found) = self.slot(slot) else {
            return Err(ReconcileFault::UnknownSlot);
        };
        match fitted(alloc, &found.lock(rt), lists) {
            Ok(length) => Ok(length),
            Err(ReceiptsFault::Mismatch(place)) => Err(ReconcileFault::Mismatch(place)),
            Err(ReceiptsFault::OutOfMemory) => Err(ReconcileFault::OutOfMemory),
        }
    }
}
