//! Receipts against the one history that they came from.

ghost use Rattle.std.specs.Prelude.{IfOk, IfErr, OnOk};
ghost use Rattle.std.specs.Option.{MatchOption};
ghost use Rattle.gd_reconcile.specs.Fitting.{lists_of, Fit, IsFirstMisfit};
ghost use Rattle.gd_reconcile.specs.Explaining.{Explains};

use crate::disorder::first_disorder;
use crate::mismatch::{Mismatch, ReceiptsFault, first_of};
use crate::refusals::first_unanswered;
use gd_book::Book;
use gd_office_part::Receipt;
use std::alloc::{AllocError, Global};

/// The first receipt that does not fit together with those before it, if there is one.
fn misfit_of(
    alloc: Global,
    book: &Book,
    lists: &[Vec<Receipt>],
) -> Result<Option<Mismatch>, AllocError>
    ensures { IfOk result (λ found. MatchOption found
        (Fit book.now.day book.now.history (lists_of lists.now))
        (λ m. IsFirstMisfit book.now.day book.now.history (lists_of lists.now) m.list m.index)) }
{
    let disorder = first_disorder(alloc, book.history(), lists)?;
    let unanswered = first_unanswered(alloc, book, lists)?;
    Ok(first_of(disorder, unanswered))
}

/// Passes exactly where all receipts of the lists fit the book's history: each accepted one stands at its number with its event
/// and reply, and no number is given twice; each refusal is a possible one after the first events, as many as its length tells;
/// and in each list numbers rise, lengths don't fall, and no length is below a number before it or at or above a number after
/// it. Slots are not compared.
///
/// The history is walked once, however many refusals there are.
///
/// # Errors
///
/// `Mismatch` with the first receipt, by list and then by place, that does not fit together with those before it, and else
/// `OutOfMemory`.
pub fn reconcile(alloc: Global, book: &Book, lists: &[Vec<Receipt>]) -> Result<(), ReceiptsFault>
    ensures ok { OnOk result (Fit book.now.day book.now.history (lists_of lists.now)) }
    ensures err { IfErr result (Explains book.now.day book.now.history (lists_of lists.now)) }
{
    match misfit_of(alloc, book, lists)? {
        None => Ok(()),
        Some(place) => Err(ReceiptsFault::Mismatch(place)),
    }
}
