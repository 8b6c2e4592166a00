//! What closes a frozen question: a publish or a declare.

ghost use Rattle.std.specs.Prelude.{◌≡◌, IfOk};
ghost use Rattle.gd_certificate.specs.Checked.{IsRight};
ghost use Rattle.gd_solver.specs.Answer.{Solves};
ghost use Rattle.gd_desk.specs.Desks as spec;

use gd_board::{Board, BoardNote, Posting};
use gd_book::Event;
use gd_certificate::{Checked, Prices, check_par};
use gd_cost::Tariff;
use gd_question::Question;
use gd_schedule::Schedule;
use gd_solver::{Answer, solve, solve_from};
use gd_units::{CycleNo, Moment};
use std::alloc::{AllocError, Global};
use std::thread::Threads;

/// The posting of the last cycle that was published on a board, if there is one.
fn last_posting<'a>(board: &'a Board, note: &mut BoardNote) -> Option<&'a Posting>
    requires { note.old.cells ≡ board.now }
    ensures { note.new.cells ≡ note.old.cells }
{
    let mut last = None;
    for cycle in CycleNo::ALL {
        if let Some(posting) = board.read(cycle, note) {
            last = Some(posting);
        }
    }
    last
}

/// Solves a question, beginning from what was published last, if anything was. It waits for no lock.
pub(crate) fn answer_from(
    alloc: Global,
    board: &Board,
    note: &mut BoardNote,
    question: &Question,
) -> Result<Answer, AllocError>
    requires { note.old.cells ≡ board.now }
    ensures solves { IfOk result (Solves question.now) }
    ensures board { note.new.cells ≡ note.old.cells }
{
    match last_posting(board, note) {
        Some(posting) => solve_from(alloc, question, &posting.schedule),
        None => solve(alloc, question),
    }
}

/// Checks a schedule with its prices for a question. The only error is want of memory, since what was found is right.
fn checked(
    rt: &(impl Threads + Sync),
    alloc: Global,
    question: Question,
    schedule: Schedule,
    prices: Prices<Tariff>,
) -> Result<Checked, AllocError>
    ensures question { IfOk result (λ found. found.question ≡ question) }
    ensures right { IfOk result IsRight }
{
    match check_par(rt, alloc, question, schedule, prices) {
        Ok(found) => Ok(found),
        Err(refused) => {
            drop(refused);
            Err(AllocError)
        }
    }
}

/// The event at a moment that closes a question by its answer. It waits for no lock.
pub(crate) fn closing(
    rt: &(impl Threads + Sync),
    alloc: Global,
    moment: Moment,
    question: &Question,
    answer: Answer,
) -> Result<Event, AllocError>
    requires { Solves question.now answer }
    ensures { IfOk result (spec.ClosesFor moment question.now) }
{
    match answer {
        Answer::Best(schedule, prices) => {
            let own = question.try_clone(alloc)?;
            let certificate = checked(rt, alloc, own, schedule, prices)?;
            Ok(Event::Publish {
                moment,
                certificate,
            })
        }
        Answer::Impossible(cut) => Ok(Event::Declare {
            moment,
            round: question.round(),
            cut,
        }),
    }
}
