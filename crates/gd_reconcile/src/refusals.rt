//! The first refusal of lists that the machine could not answer, found by one walk along the history for all of them.

ghost use Rattle.std.specs.Prelude.{◌≡◌, ◌↔◌, ◌⊎◌, ◌+◌, ◌<◌, ◌≤◌, Some, None, All, IsTrue, IfOk, OnOk, length as len_of};
ghost use Rattle.std.specs.Option.{MatchOption};
ghost use Rattle.std.specs.List.Sorted.{IsNonDecreasingBy};
ghost use Rattle.gd_machine.specs.declared.refusal.Refusal.TheVariants.{OutOfMemory, BoardTaken};
ghost use Rattle.gd_machine.specs.Steps.{IsPublish};
ghost use Rattle.gd_reconcile.specs.Fitting.{lists_of};
ghost use Rattle.gd_reconcile.specs.Answering.{AnswerTo, IsFirstWrong, AnswersAt, IsQuery, AreQueries, LeastWrong};

use crate::mismatch::{Mismatch, earlier};
use gd_book::{Book, Replay};
use gd_machine::{Event, Refusal};
use gd_office_part::{Receipt, Told};
use std::alloc::{AllocError, Global};

/// Where a refusal stands in the lists, and the length that it tells.
#[derive(Clone, Copy, PartialEq, Eq, Debug)]
struct Query {
    length: usize,
    list: usize,
    index: usize,
}

/// Adds the queries of one list more.
fn more_queries(
    queries: &mut Vec<Query>,
    most: usize,
    lists: &[Vec<Receipt>],
    at: usize,
) -> Result<(), AllocError>
    requires within { at < len_of lists.now }
    requires before { AreQueries most (lists_of lists.now) at 0 queries.old.items }
    ensures { OnOk result (AreQueries most (lists_of lists.now) (at + 1) 0 queries.new.items) }
{
    let list = &lists[at];
    for index in 0..list.len() {
        let receipt = &list[index];
        if let Told::Refused(length, _) = receipt.told()
            && *length <= most as u64
        {
            queries.push(Query {
                length: *length as usize,
                list: at,
                index,
            })?;
        }
    }
    Ok(())
}

/// A query for each refusal whose length is at most this, in the order of the lengths.
fn queries_of(alloc: Global, most: usize, lists: &[Vec<Receipt>]) -> Result<Vec<Query>, AllocError>
    ensures all { IfOk result (λ queries. AreQueries most (lists_of lists.now)
        (len_of (lists_of lists.now)) 0 queries.items) }
    ensures sorted { IfOk result (λ queries. IsNonDecreasingBy (λ q. q.length) queries.items) }
{
    let mut queries = Vec::new(alloc);
    for list in 0..lists.len() {
        more_queries(&mut queries, most, lists, list)?;
    }
    queries.sort_unstable_by_key(|query| query.length);
    Ok(queries)
}

/// Whether an event may be refused so, where this is the first refusal that applies.
fn may_refuse(first: Option<Refusal>, event: &Event, refusal: Refusal) -> bool
    ensures { IsTrue result ↔ ((first ≡ Some refusal) ⊎ (refusal ≡ OutOfMemory)
        ⊎ ((refusal ≡ BoardTaken) × IsPublish event.now × (first ≡ None))) }
{
    if refusal == Refusal::OutOfMemory {
        return true;
    }
    match first {
        Some(first) => first == refusal,
        None => refusal == Refusal::BoardTaken && matches!(event, Event::Publish { .. }),
    }
}

/// Whether the refusal of a query is a possible answer. The walk goes on to its length.
fn answers(
    replay: &mut Replay<'_>,
    lists: &[Vec<Receipt>],
    query: Query,
) -> Result<bool, AllocError>
    requires ahead { replay.old.at ≤ query.length }
    requires query { IsQuery (len_of replay.old.history) (lists_of lists.now) query }
    ensures day { replay.new.day ≡ replay.old.day }
    ensures history { replay.new.history ≡ replay.old.history }
    ensures at { OnOk result (replay.new.at ≡ query.length) }
    ensures answers { IfOk result (λ answer. IsTrue answer ↔ AnswersAt replay.old.day
        replay.old.history (lists_of lists.now) query.list query.index) }
{
    replay.go_to(query.length)?;
    let receipt = &lists[query.list][query.index];
    Ok(match receipt.told() {
        Told::Refused(_, refusal) => {
            may_refuse(replay.refusal(receipt.event()), receipt.event(), *refusal)
        }
        Told::Accepted(_, _) => true,
    })
}

/// The first place of a query whose refusal is no possible answer, by a walk from the beginning of a history.
fn least_wrong(
    replay: &mut Replay<'_>,
    lists: &[Vec<Receipt>],
    queries: &[Query],
) -> Result<Option<Mismatch>, AllocError>
    requires begins { replay.old.at ≡ 0 }
    requires real { All (IsQuery (len_of replay.old.history) (lists_of lists.now)) queries.now }
    requires sorted { IsNonDecreasingBy (λ q. q.length) queries.now }
    ensures { IfOk result (λ least. LeastWrong replay.old.day replay.old.history
        (lists_of lists.now) queries.now (len_of queries.now) least) }
{
    let mut least = None;
    for query in queries {
        if !answers(replay, lists, *query)? {
            let place = Mismatch {
                list: query.list,
                index: query.index,
            };
            least = Some(earlier(least, place));
        }
    }
    Ok(least)
}

/// The first place of a query whose refusal is no possible answer.
fn first_wrong(
    book: &Book,
    lists: &[Vec<Receipt>],
    queries: &[Query],
) -> Result<Option<Mismatch>, AllocError>
    requires real { All (IsQuery (len_of book.now.history) (lists_of lists.now)) queries.now }
    requires sorted { IsNonDecreasingBy (λ q. q.length) queries.now }
    ensures { IfOk result (λ least. LeastWrong book.now.day book.now.history (lists_of lists.now)
        queries.now (len_of queries.now) least) }
{
    let mut replay = book.replay()?;
    let least = least_wrong(&mut replay, lists, queries);
    drop(replay);
    least
}

/// The first refusal that the machine could not answer after so many events as the refusal's length tells, where the history
/// has so many. It takes three words for each refusal, and the tables of one walk.
pub(crate) fn first_unanswered(
    alloc: Global,
    book: &Book,
    lists: &[Vec<Receipt>],
) -> Result<Option<Mismatch>, AllocError>
    ensures { IfOk result (λ found. MatchOption found
        (AnswerTo book.now.day book.now.history (lists_of lists.now)
        (len_of (lists_of lists.now)) 0)
        (λ m. IsFirstWrong book.now.day book.now.history (lists_of lists.now) m.list m.index)) }
{
    let queries = queries_of(alloc, book.history().len(), lists)?;
    first_wrong(book, lists, queries.as_slice())
}
