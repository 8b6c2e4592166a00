//! Steps of a book under the lock of its slot.

ghost use Rattle.std.specs.Prelude.{◌≡◌, true, false, IfOk};
ghost use Rattle.std.specs.Option.{MatchOption};
ghost use Rattle.gd_machine.specs.declared.event.Event.TheVariants as event;
ghost use Rattle.gd_machine.specs.Headline.{IsHistoryOf};
ghost use Rattle.gd_office_part.specs.Days.{IsDayOf};
ghost use Rattle.gd_office_part.specs.StepResults.{Tells, Stepped};
ghost use Rattle.gd_desk.specs.Desks as spec;

use gd_board::{Board, BoardNote};
use gd_book::Event;
use gd_office_part::{Days, Kept, Receipt, Slot};
use gd_question::Question;
use gd_units::Moment;
use std::alloc::AllocError;
use std::sync::Wait;

/// Freezes a book at a moment, and hands out the question that is frozen then, if there is one.
fn freeze_in<J: Days>(
    kept: &mut Kept<J>,
    moment: Moment,
    board: &Board,
    note: &mut BoardNote,
) -> Result<(Receipt, Option<Question>), AllocError>
    requires { note.old.cells ≡ board.now }
    ensures day { IsDayOf J.days kept.old.slot kept.old.book.day }
    ensures history { IsHistoryOf kept.old.book.day kept.old.book.history }
    ensures event { IfOk result (λ both. both.0.event ≡ event.Freeze moment) }
    ensures told { IfOk result (λ both. Tells kept.old.book.day kept.old.book.history
        (event.Freeze moment) both.0.told kept.new.book.history) }
    ensures asked { IfOk result
        (λ both. spec.IsAsked kept.old.book.day kept.new.book.history both.1) }
    ensures board { note.new.cells ≡ note.old.cells }
{
    kept.freeze_in(moment, board, note)
}

/// Freezes the book of a slot at a moment, and hands out the question that is frozen then, if there is one. It waits for the
/// lock. The only error is want of memory, after which the freeze may stand.
pub(crate) fn freeze<R: Wait, J: Days>(
    rt: &R,
    slot: &Slot<J>,
    moment: Moment,
    note: &mut BoardNote,
) -> Result<(Receipt, Option<Question>), AllocError>
    requires { note.old.cells ≡ slot.now.board }
    ensures froze { IfOk result (λ both. spec.Froze J.days slot.now.number moment both.0 both.1) }
    ensures board { note.new.cells ≡ note.old.cells }
{
    freeze_in(&mut slot.lock(rt), moment, slot.board(), note)
}

/// Makes one step of the book of a slot. It waits for the lock. The only error is want of memory, after which the book is as
/// before.
pub(crate) fn step<R: Wait, J: Days>(
    rt: &R,
    slot: &Slot<J>,
    event: Event,
    note: &mut BoardNote,
) -> Result<Receipt, AllocError>
    requires { note.old.cells ≡ slot.now.board }
    ensures event { IfOk result (λ receipt. receipt.event ≡ event) }
    ensures stepped { IfOk result (Stepped J.days slot.now.number) }
{
    slot.lock(rt).step_in(event, slot.board(), note)
}
