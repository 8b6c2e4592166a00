//! A walk along lists of receipts, which finds the first that is out of order: not at its number, with a number that was
//! given before, or against the order of its list. What a refusal answers is left aside.

ghost use Rattle.std.specs.Prelude.{◌≡◌, ◌↔◌, ◌+◌, ◌-◌, ◌<◌, ◌≤◌, IsTrue, IfOk, IfSome, length as len_of};
ghost use Rattle.std.specs.Option.{MatchOption};
ghost use Rattle.gd_reconcile.specs.Fitting.{lists_of, event_number};
ghost use Rattle.gd_reconcile.specs.Walking.{StandTo, IsFirstDisorder, StandsNew, MayFollow, Walked, given_after, number_after, length_after};

use crate::mismatch::Mismatch;
use gd_machine::{Event, Reply};
use gd_office_part::{Receipt, Told};
use std::alloc::{AllocError, Global};

/// The last number and the last length of a list, 0 where it has none yet.
#[derive(Clone, Copy)]
struct Last {
    number: u64,
    length: u64,
}

impl Last {
    /// After one receipt more.
    fn after(self, told: &Told) -> Last
        ensures number { result.number ≡ number_after self.number told.now }
        ensures length { result.length ≡ length_after self.length told.now }
    {
        match told {
            Told::Accepted(number, _) => Last {
                number: *number,
                length: self.length,
            },
            Told::Refused(length, _) => Last {
                number: self.number,
                length: *length,
            },
        }
    }
}

fn is_pair(pair: &(Event, Reply), event: &Event, reply: &Reply) -> bool
    ensures { IsTrue result ↔ (pair.now ≡ (event.now, reply.now)) }
{
    pair.0.same(event) && pair.1.same(reply)
}

/// Whether the event stands at the number with the reply, and the number was not given before.
fn stands_new(
    history: &[(Event, Reply)],
    given: &[bool],
    event: &Event,
    number: u64,
    reply: &Reply,
) -> bool
    requires { len_of given.now ≡ len_of history.now }
    ensures { IsTrue result ↔ StandsNew history.now given.now event.now number reply.now }
{
    if number < 1 {
        return false;
    }
    let at = (number - 1) as usize;
    match history.get(at) {
        Some(pair) => !given[at] && is_pair(pair, event, reply),
        None => false,
    }
}

/// Whether a receipt may come next in its list.
fn may_follow(
    history: &[(Event, Reply)],
    given: &[bool],
    last: Last,
    event: &Event,
    told: &Told,
) -> bool
    requires { len_of given.now ≡ len_of history.now }
    ensures { IsTrue result
        ↔ MayFollow history.now given.now last.number last.length event.now told.now }
{
    match told {
        Told::Accepted(number, reply) => {
            last.number < *number
                && last.length < *number
                && stands_new(history, given, event, *number, reply)
        }
        Told::Refused(length, _) => {
            last.number <= *length && last.length <= *length && *length <= history.len() as u64
        }
    }
}

/// Marks the number of an accepted receipt as given.
fn mark(given: &mut Vec<bool>, told: &Told)
    requires { IfSome (event_number told.now) (λ n. (1 ≤ n) × (n - 1 < len_of given.old.items)) }
    ensures { given.new.items ≡ given_after given.old.items told.now }
{
    if let Told::Accepted(number, _) = told {
        given[(*number - 1) as usize] = true;
    }
}

/// The place of the first receipt of a list that is out of order, where none of the lists before it has one.
fn walk_list(
    history: &[(Event, Reply)],
    given: &mut Vec<bool>,
    lists: &[Vec<Receipt>],
    at: usize,
) -> Option<usize>
    requires within { at < len_of lists.now }
    requires walked { Walked history.now (lists_of lists.now) at 0 given.old.items 0 0 }
    ensures { MatchOption result
        (Walked history.now (lists_of lists.now) (at + 1) 0 given.new.items 0 0)
        (IsFirstDisorder history.now (lists_of lists.now) at) }
{
    let list = &lists[at];
    let mut last = Last {
        number: 0,
        length: 0,
    };
    for index in 0..list.len() {
        let receipt = &list[index];
        let told = receipt.told();
        if !may_follow(history, given.as_slice(), last, receipt.event(), told) {
            return Some(index);
        }
        mark(given, told);
        last = last.after(told);
    }
    None
}

/// The first receipt that is out of order. It takes one byte for each event of the history.
pub(crate) fn first_disorder(
    alloc: Global,
    history: &[(Event, Reply)],
    lists: &[Vec<Receipt>],
) -> Result<Option<Mismatch>, AllocError>
    ensures { IfOk result (λ found. MatchOption found
        (StandTo history.now (lists_of lists.now) (len_of (lists_of lists.now)) 0)
        (λ m. IsFirstDisorder history.now (lists_of lists.now) m.list m.index)) }
{
    let mut given = vec![in alloc; false; history.len()]?;
    for list in 0..lists.len() {
        if let Some(index) = walk_list(history, &mut given, lists, list) {
            return Ok(Some(Mismatch { list, index }));
        }
    }
    Ok(None)
}
