//! How a slot ends: its sessions are closed, and all its receipts are held against its book.

ghost use Rattle.std.specs.Prelude.{◌≡◌, ◌+◌, ◌∷◌, IfOk, IfSome, map};
ghost use Rattle.gd_machine.specs.Headline.{IsHistoryOf};
ghost use Rattle.gd_office_part.specs.Days.{IsDayOf};
ghost use Rattle.gd_office_part.specs.Sending.{lists_of};
ghost use Rattle.gd_office_run.specs.Ends as spec;

use gd_book::Book;
use gd_office_part::{Days, Kept, Receipt, Session, Slot};
use gd_reconcile::{Mismatch, ReceiptsFault, reconcile};
use std::alloc::{AllocError, Global};
use std::sync::Wait;

/// How a slot ends.
#[derive(Clone, Copy, Debug, PartialEq, Eq, Drop)]
pub(crate) enum End {
    /// All receipts fit its one history of so many events, in which so many nominations are accepted, of so many dekatherms
    /// a gas day together: what its sessions counted.
    Reconciled {
        events: u64,
        nominations: u64,
        dekatherms: u64,
    },
    /// The first receipt that does not fit: its list, which is 0 for the desk's and else the number of the session, and its
    /// place there, from 1.
    Misfit {
        list: u64,
        index: u64,
    },
    /// So many sessions are not there to be closed. 0 stands for sums that differ from what the book accepted.
    Missing(u64),
}

/// The lists of a slot, the desk's first.
fn all_lists(
    alloc: Global,
    desk: Vec<Receipt>,
    lists: Vec<Vec<Receipt>>,
) -> Result<Vec<Vec<Receipt>>, AllocError>
    ensures { IfOk result
        (λ all. lists_of all.items ≡ desk.items ∷ lists_of lists.items) }
{
    let mut lists = lists;
    let mut all = Vec::new(alloc);
    all.push(desk)?;
    all.append(&mut lists)?;
    Ok(all)
}

/// The number of a list: 0 for the desk's, and else its session's.
fn list_number(numbers: &[u64], list: usize) -> u64
    ensures { result ≡ spec.list_number numbers.now list }
{
    if list == 0 {
        return 0;
    }
    match numbers.get(list - 1) {
        Some(number) => *number,
        None => 0,
    }
}

/// The end by the first receipt that does not fit. No list is so long that its place has no number.
fn misfit(numbers: &[u64], at: Mismatch) -> Option<End>
    ensures { IfSome result (λ e. e ≡ End.Misfit (spec.list_number numbers.now at.list) (at.index + 1)) }
{
    let index = (at.index as u64).checked_add(1)?;
    let list = list_number(numbers, at.list);
    Some(End::Misfit { list, index })
}

/// Holds all receipts of a slot, whose sessions are closed with these sums, against its book.
fn held(
    alloc: Global,
    book: &Book,
    lists: &[Vec<Receipt>],
    numbers: &[u64],
    sums: (u64, u64),
) -> Result<End, AllocError>
    ensures { IfOk result (spec.Holds book.now.day book.now.history (lists_of lists.now) numbers.now sums) }
{
    let events = book.history().len() as u64;
    let (nominations, dekatherms) = book.accepted();
    if sums.0 != nominations || sums.1 != dekatherms {
        return Ok(End::Missing(0));
    }
    match reconcile(alloc, book, lists) {
        Ok(()) => Ok(End::Reconciled {
            events,
            nominations,
            dekatherms,
        }),
        Err(ReceiptsFault::Mismatch(at)) => misfit(numbers, at).ok_or(AllocError),
        Err(ReceiptsFault::OutOfMemory) => Err(AllocError),
    }
}

/// Ends a slot, whose lock is held.
fn end_kept<J: Days>(
    alloc: Global,
    kept: &mut Kept<J>,
    sessions: &[Session<'_, J>],
    lists: &[Vec<Receipt>],
    numbers: &[u64],
) -> Result<End, AllocError>
    ensures own { IsDayOf J.days kept.old.slot kept.old.book.day }
    ensures history { IsHistoryOf kept.old.book.day kept.old.book.history }
    ensures ends { IfOk result (spec.EndsOver kept.old.book.day kept.old.book.history
        (lists_of lists.now) numbers.now (map (λ s. s.numbers) sessions.now)) }
{
    let _ = kept.book().history();
    match kept.close_in(sessions) {
        Ok(sums) => held(alloc, kept.book(), lists, numbers, sums),
        Err(count) => Ok(End::Missing(count)),
    }
}

/// Closes the sessions of a slot, and holds the receipts of its desk and of its sessions, whose numbers these are, against
/// its book, both under one taking of the lock, for which it waits. The only error is want of memory.
pub(crate) fn end_slot<R: Wait, J: Days>(
    rt: &R,
    alloc: Global,
    slot: &Slot<J>,
    sessions: Vec<Session<'_, J>>,
    desk: Vec<Receipt>,
    lists: Vec<Vec<Receipt>>,
    numbers: &[u64],
) -> Result<End, AllocError>
    ensures { IfOk result (spec.EndsWith J.days slot.now.number desk.items (lists_of lists.items) numbers.now
        (map (λ s. s.numbers) sessions.entry.items)) }
{
    let all = all_lists(alloc, desk, lists)?;
    end_kept(
        alloc,
        &mut slot.lock(rt),
        sessions.as_slice(),
        all.as_slice(),
        numbers,
    )
}
