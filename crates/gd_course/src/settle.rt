//! A frozen question is answered: by what is offered for it, or by what is found.

ghost use Rattle.std.specs.Prelude.{◌≡◌, IfOk, OnOk, map, true};
ghost use Rattle.gd_rules.specs.Schedule.{IsAllowed};
ghost use Rattle.gd_rules.specs.Tariff.{IsPricedByTariff};
ghost use Rattle.gd_cost.specs.Parts.{class_words};
ghost use Rattle.gd_machine.specs.History.{is_frozen};
ghost use Rattle.gd_machine.specs.Asking.{question as question_of};
ghost use Rattle.gd_machine.specs.declared.event.Event.TheVariants as event;
ghost use Rattle.gd_book.specs.Postings.{AllPosted};
ghost use Rattle.gd_course.specs.Course as spec;
ghost use Rattle.gd_course.specs.CallRows.{Steps};

use crate::rows::{one_row, tell};
use gd_board::{Board, BoardNote};
use gd_book::{Book, Refusal};
use gd_certificate::{CertFault, Cut, Prices, check_par};
use gd_cost::Tariff;
use gd_question::Question;
use gd_replies::{Call, Reply, refused_reply, uncertified_reply};
use gd_schedule::Schedule;
use gd_solver::{Answer, solve};
use gd_units::{Moment, Round};
use std::alloc::{AllocError, Global};
use std::thread::Threads;

/// A copy of the frozen question. The book is frozen.
fn frozen_copy(alloc: Global, book: &Book) -> Result<Question, AllocError>
    requires { is_frozen book.now.history ≡ true }
    ensures { IfOk result (λ question. question ≡ question_of book.now.day book.now.history) }
{
    match book.frozen() {
        Some(question) => question.try_clone(alloc),
        None => unreachable!(),
    }
}

/// A schedule with its prices for the frozen question, and the moment at which it is offered.
#[derive(Drop)]
pub(crate) struct Offer {
    pub(crate) moment: Moment,
    pub(crate) schedule: Schedule,
    pub(crate) prices: Prices<Tariff>,
}

/// Publishes an offer for the frozen question, if it is right, and else tells what is first wrong with it.
pub(crate) fn publish_frozen(
    rt: &(impl Threads + Sync),
    alloc: Global,
    book: &mut Book,
    board: &Board,
    note: &mut BoardNote,
    offer: Offer,
) -> Result<Vec<Reply>, AllocError>
    requires board { note.old.cells ≡ board.now }
    requires frozen { is_frozen book.old.history ≡ true }
    ensures gives { IfOk result (λ rows. spec.PublishesFrozen book.old.day book.old.history
        offer.moment offer.schedule offer.prices
        rows.items book.new.history) }
    ensures day { book.new.day ≡ book.old.day }
    ensures board { note.new.cells ≡ note.old.cells }
    ensures posted { OnOk result (AllPosted book.old.day book.old.history note.old
        → AllPosted book.old.day book.new.history note.new) }
{
    let question = match frozen_copy(alloc, book) {
        Ok(question) => question,
        Err(fault) => {
            drop(offer);
            return Err(fault);
        }
    };
    let Offer {
        moment,
        schedule,
        prices,
    } = offer;
    match check_par(rt, alloc, question, schedule, prices) {
        Ok(certificate) => {
            let answer = book.publish(moment, certificate, board, note);
            tell(alloc, book, Call::Publish, answer)
        }
        Err((fault, question, schedule, prices)) => {
            let told = uncertified_reply(&question, &schedule, &prices, fault);
            drop(question);
            drop(schedule);
            drop(prices);
            one_row(alloc, told?)
        }
    }
}

/// Publishes the best schedule that was found for the frozen question.
fn publish_found(
    rt: &(impl Threads + Sync),
    alloc: Global,
    book: &mut Book,
    board: &Board,
    note: &mut BoardNote,
    offer: Offer,
) -> Result<Vec<Reply>, AllocError>
    requires board { note.old.cells ≡ board.now }
    requires frozen { is_frozen book.old.history ≡ true }
    requires allowed { IsAllowed (question_of book.old.day book.old.history).asked offer.schedule }
    requires priced { IsPricedByTariff
        (question_of book.old.day book.old.history).asked offer.schedule
        (map class_words offer.prices) }
    ensures gives { IfOk result (λ rows. spec.Settles book.old.day book.old.history offer.moment
        rows.items book.new.history) }
    ensures day { book.new.day ≡ book.old.day }
    ensures board { note.new.cells ≡ note.old.cells }
    ensures posted { OnOk result (AllPosted book.old.day book.old.history note.old
        → AllPosted book.old.day book.new.history note.new) }
{
    let question = match frozen_copy(alloc, book) {
        Ok(question) => question,
        Err(fault) => {
            drop(offer);
            return Err(fault);
        }
    };
    let Offer {
        moment,
        schedule,
        prices,
    } = offer;
    match check_par(rt, alloc, question, schedule, prices) {
        Ok(certificate) => {
            let answer = book.publish(moment, certificate, board, note);
            tell(alloc, book, Call::Settle, answer)
        }
        // What was found is right, so that nothing but memory can fail.
        Err(refused) => {
            drop(refused);
            Err(AllocError)
        }
    }
}

/// Declares the frozen cycle by a cut that was found or offered.
pub(crate) fn declare_as(
    alloc: Global,
    book: &mut Book,
    call: Call,
    moment: Moment,
    round: Round,
    cut: Cut,
) -> Result<Vec<Reply>, AllocError>
    ensures gives { IfOk result
        (λ rows. Steps call book.old.day book.old.history (event.Declare moment round cut)
        rows.items book.new.history) }
    ensures day { book.new.day ≡ book.old.day }
{
    let answer = book.declare(moment, round, cut);
    tell(alloc, book, call, answer)
}

/// Solves the frozen question, and publishes its best schedule or declares that it has none. The only error is want of
/// memory.
pub(crate) fn settle(
    rt: &(impl Threads + Sync),
    alloc: Global,
    book: &mut Book,
    board: &Board,
    note: &mut BoardNote,
    moment: Moment,
) -> Result<Vec<Reply>, AllocError>
    requires { note.old.cells ≡ board.now }
    ensures gives { IfOk result (λ rows. spec.Settles book.old.day book.old.history moment
        rows.items book.new.history) }
    ensures day { book.new.day ≡ book.old.day }
    ensures board { note.new.cells ≡ note.old.cells }
    ensures posted { OnOk result (AllPosted book.old.day book.old.history note.old
        → AllPosted book.old.day book.new.history note.new) }
{
    let Some(question) = book.frozen() else {
        return one_row(alloc, refused_reply(Call::Settle, Refusal::NotFrozen));
    };
    let round = question.round();
    match solve(alloc, question)? {
        Answer::Best(schedule, prices) => {
            let offer = Offer {
                moment,
                schedule,
                prices,
            };
            publish_found(rt, alloc, book, board, note, offer)
        }
        Answer::Impossible(cut) => declare_as(alloc, book, Call::Settle, moment, round, cut),
    }
}
