//! One call of a day's text.

ghost use Rattle.std.specs.Prelude.{◌≡◌, ◌-◌, IfOk, OnOk};
ghost use Rattle.gd_day.specs.Groups.{Passes};
ghost use Rattle.gd_day.specs.ElementNames as named;
ghost use Rattle.gd_machine.specs.declared.event.Event.TheVariants as event;
ghost use Rattle.gd_book.specs.Postings.{AllPosted};
ghost use Rattle.gd_course.specs.Course as spec;
ghost use Rattle.gd_course.specs.CallRows.{Steps};

use crate::rows::{one_row, tell};
use crate::settle::{Offer, declare_as, publish_frozen, settle};
use gd_board::{Board, BoardNote};
use gd_book::{Book, Refusal};
use gd_day::{element_named, offered_cut, offered_prices, offered_schedule};
use gd_lines::LineKey;
use gd_replies::{Call, Reply, refused_reply};
use gd_text_part::{EventRow, Row};
use gd_units::{Dth, End, Moment, Name, Round};
use std::alloc::{AllocError, Global};
use std::thread::Threads;

fn nominate(
    alloc: Global,
    book: &mut Book,
    moment: Moment,
    party: Name,
    key: LineKey,
    quantity: Dth,
) -> Result<Vec<Reply>, AllocError>
    ensures gives { IfOk result (λ rows. Steps Call.Nominate book.old.day book.old.history
        (event.Nominate moment party key quantity) rows.items book.new.history) }
    ensures day { book.new.day ≡ book.old.day }
{
    let answer = book.nominate(moment, party, key, quantity);
    tell(alloc, book, Call::Nominate, answer)
}

/// Lines count from 1.
fn respond(
    alloc: Global,
    book: &mut Book,
    moment: Moment,
    party: Name,
    line: u32,
    end: End,
    quantity: Dth,
) -> Result<Vec<Reply>, AllocError>
    ensures gives { IfOk result (λ rows. Steps Call.Respond book.old.day book.old.history
        (event.Respond moment party (line - 1) end quantity) rows.items book.new.history) }
    ensures day { book.new.day ≡ book.old.day }
{
    let answer = book.respond(moment, party, line.saturating_sub(1), end, quantity);
    tell(alloc, book, Call::Respond, answer)
}

fn post(
    alloc: Global,
    book: &mut Book,
    moment: Moment,
    element: Name,
    capacity: Dth,
) -> Result<Vec<Reply>, AllocError>
    ensures gives { IfOk result (λ rows. Steps Call.Post book.old.day book.old.history
        (event.PostCapacity moment (named.element_named book.old.day.holdings.pipeline element) capacity)
        rows.items book.new.history) }
    ensures day { book.new.day ≡ book.old.day }
{
    let element = element_named(book.system(), element);
    let answer = book.post_capacity(moment, element, capacity);
    tell(alloc, book, Call::Post, answer)
}

fn freeze(alloc: Global, book: &mut Book, moment: Moment) -> Result<Vec<Reply>, AllocError>
    ensures gives { IfOk result
        (λ rows. Steps Call.Freeze book.old.day book.old.history (event.Freeze moment)
        rows.items book.new.history) }
    ensures day { book.new.day ≡ book.old.day }
{
    let answer = book.freeze(moment);
    tell(alloc, book, Call::Freeze, answer)
}

/// Lines count from 1.
fn waive(
    alloc: Global,
    book: &mut Book,
    moment: Moment,
    line: u32,
) -> Result<Vec<Reply>, AllocError>
    ensures gives { IfOk result (λ rows. Steps Call.Waive book.old.day book.old.history
        (event.Waive moment (line - 1)) rows.items book.new.history) }
    ensures day { book.new.day ≡ book.old.day }
{
    let answer = book.waive(moment, line.saturating_sub(1));
    tell(alloc, book, Call::Waive, answer)
}

fn skip(alloc: Global, book: &mut Book, moment: Moment) -> Result<Vec<Reply>, AllocError>
    ensures gives { IfOk result
        (λ rows. Steps Call.Skip book.old.day book.old.history (event.Skip moment)
        rows.items book.new.history) }
    ensures day { book.new.day ≡ book.old.day }
{
    let answer = book.skip(moment);
    tell(alloc, book, Call::Skip, answer)
}

/// What is offered for the frozen question of a round, by the rows before a call: it is looked at only where the book is
/// frozen and the round is the current one.
fn publish(
    rt: &(impl Threads + Sync),
    alloc: Global,
    book: &mut Book,
    board: &Board,
    note: &mut BoardNote,
    moment: Moment,
    round: Round,
    group: &[Row],
) -> Result<Vec<Reply>, AllocError>
    requires board { note.old.cells ≡ board.now }
    requires passes { Passes book.old.day.holdings.pipeline group.now }
    ensures gives { IfOk result
        (λ rows. spec.Publishes book.old.day book.old.history moment round group.now
        rows.items book.new.history) }
    ensures day { book.new.day ≡ book.old.day }
    ensures board { note.new.cells ≡ note.old.cells }
    ensures posted { OnOk result (AllPosted book.old.day book.old.history note.old
        → AllPosted book.old.day book.new.history note.new) }
{
    let Some(question) = book.frozen() else {
        return one_row(alloc, refused_reply(Call::Publish, Refusal::NotFrozen));
    };
    let current = question.round();
    if round != current {
        let stale = Refusal::StaleRound(current.number());
        return one_row(alloc, refused_reply(Call::Publish, stale));
    }
    let schedule = offered_schedule(alloc, group)?;
    let prices = offered_prices(alloc, group, book.system())?;
    let offer = Offer {
        moment,
        schedule,
        prices,
    };
    publish_frozen(rt, alloc, book, board, note, offer)
}

/// Declares the frozen cycle of a round, as the set that the rows before a call name shows.
fn declare(
    alloc: Global,
    book: &mut Book,
    moment: Moment,
    round: Round,
    group: &[Row],
) -> Result<Vec<Reply>, AllocError>
    requires { Passes book.old.day.holdings.pipeline group.now }
    ensures gives { IfOk result
        (λ rows. spec.Declares book.old.day book.old.history moment round group.now
        rows.items book.new.history) }
    ensures day { book.new.day ≡ book.old.day }
{
    let cut = offered_cut(alloc, group, book.system())?;
    declare_as(alloc, book, Call::Declare, moment, round, cut)
}

/// Makes the call of a row with the rows of its group before it, and tells it: what the machine's step gave, or why it was
/// refused, after which the book is as before. Lines of a row count from 1.
///
/// It asks for a group whose prices and set can be made (`gd_day::check_call`), and for a note of the board. The only error is
/// want of memory: then the call may have been made, with its posting, and isn't told.
pub fn call(
    rt: &(impl Threads + Sync),
    alloc: Global,
    book: &mut Book,
    board: &Board,
    note: &mut BoardNote,
    group: &[Row],
    row: EventRow,
) -> Result<Vec<Reply>, AllocError>
    requires board { note.old.cells ≡ board.now }
    requires passes { Passes book.old.day.holdings.pipeline group.now }
    ensures gives { IfOk result (λ rows. spec.RowGives book.old.day book.old.history group.now row
        rows.items book.new.history) }
    ensures day { book.new.day ≡ book.old.day }
    ensures board { note.new.cells ≡ note.old.cells }
    ensures posted { OnOk result (AllPosted book.old.day book.old.history note.old
        → AllPosted book.old.day book.new.history note.new) }
{
    match row {
        EventRow::Nominate {
            moment,
            party,
            key,
            quantity,
        } => nominate(alloc, book, moment, party, key, quantity),
        EventRow::Respond {
            moment,
            party,
            line,
            end,
            quantity,
        } => respond(alloc, book, moment, party, line, end, quantity),
        EventRow::Post {
            moment,
            element,
            capacity,
        } => post(alloc, book, moment, element, capacity),
        EventRow::Freeze { moment } => freeze(alloc, book, moment),
        EventRow::Settle { moment } => settle(rt, alloc, book, board, note, moment),
        EventRow::Publish { moment, round } => {
            publish(rt, alloc, book, board, note, moment, round, group)
        }
        EventRow::Declare { moment, round } => declare(alloc, book, moment, round, group),
        EventRow::Waive { moment, line } => waive(alloc, book, moment, line),
        EventRow::Skip { moment } => skip(alloc, book, moment),
    }
}
