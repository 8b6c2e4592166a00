//! The desks of a phase.

ghost use Rattle.std.specs.Prelude.{List, ◌≡◌, ◌+◌, ◌≤◌, ◌^◌, ◌++◌, ◌∷◌, [], ℕ, IfOk, OnOk, vec_len, length as len_of};
ghost use Rattle.std.specs.List.{All};
ghost use Rattle.gd_desk.specs.Desks.{AreTried, AreDesks};
ghost use Rattle.gd_machine.specs.Day.{Day};
ghost use Rattle.gd_office_run.specs.Desks.{IsEndShaped};
ghost use Rattle.gd_office_run.specs.Runs as spec;
ghost use Rattle.gd_office_run.specs.RunShares as shares;
ghost use Rattle.gd_office_run.specs.Shares.{IsOf, Gains};

use crate::desk_rows::push_desk;
use crate::fault::RunFault;
use crate::holding::Holding;
use gd_desk::{Desk, DeskFault};
use gd_office_part::Days;
use gd_replies::Reply;
use std::alloc::{AllocError, Global};

/// Adds a desk, where there is memory for it.
fn keep(desks: &mut Vec<Desk>, desk: Desk) -> Result<(), AllocError>
    ensures items { OnOk result (desks.new.items ≡ desks.old.items ++ desk ∷ []) }
    ensures len { OnOk result (vec_len desks.new ≡ vec_len desks.old + 1) }
{
    desks.push(desk)?;
    Ok(())
}

/// The desks of all slots, where each slot has one.
pub(crate) fn desks_of(
    alloc: Global,
    given: Vec<Result<Desk, DeskFault>>,
) -> Result<Vec<Desk>, RunFault>
    ensures each { IfOk result (λ desks. (days : List Day) (moment : ℕ)
        → AreTried days moment given.items → AreDesks days moment desks.items) }
    ensures len { IfOk result (λ desks. vec_len desks ≡ vec_len given) }
{
    let mut desks = Vec::with_capacity(alloc, given.len())?;
    for desk in given {
        let desk = desk?;
        keep(&mut desks, desk)?;
    }
    Ok(desks)
}

/// Appends the rows of a desk of the slot of this number.
fn push_one(alloc: Global, rows: &mut Vec<Reply>, slot: u32, desk: &Desk) -> Result<(), AllocError>
    requires { IsEndShaped desk.now.question desk.now.closed }
    ensures { OnOk result (rows.new.items ≡ rows.old.items ++ spec.desk_rows_of slot desk.now) }
{
    let question = desk.question.as_ref();
    let closed = desk.closed.as_ref();
    push_desk(alloc, rows, slot, &desk.froze, question, closed)
}

/// Appends the rows of desks, one for each slot, in order.
pub(crate) fn push_desks(
    alloc: Global,
    rows: &mut Vec<Reply>,
    desks: &[Desk],
) -> Result<(), AllocError>
    requires few { len_of desks.now ≤ 2 ^ 31 }
    requires each { All (λ desk. IsEndShaped desk.question desk.closed) desks.now }
    ensures { OnOk result (rows.new.items ≡ rows.old.items ++ spec.desks_rows 1 desks.now) }
{
    for at in 0..desks.len() {
        push_one(alloc, rows, at as u32 + 1, &desks[at])?;
    }
    Ok(())
}

/// Holds the receipts of the desks, one for each slot, in order.
pub(crate) fn hold_desks<J: Days>(
    holding: &mut Holding<'_, J>,
    desks: Vec<Desk>,
) -> Result<(), AllocError>
    ensures { (slots : ℕ) → IsOf slots holding.old → OnOk result
        (IsOf slots holding.new × Gains slots holding.old holding.new (shares.of_desks 0 desks.items)) }
{
    let mut at = 0;
    for desk in desks {
        let Desk { froze, closed, .. } = desk;
        holding.take_desk(at, froze, closed)?;
        at += 1;
    }
    Ok(())
}
