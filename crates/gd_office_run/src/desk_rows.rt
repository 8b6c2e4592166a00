//! The rows that tell what a desk is told.

ghost use Rattle.std.specs.Prelude.{◌≡◌, ◌++◌, IfOk, OnOk, option_copied};
ghost use Rattle.gd_office_run.specs.Desks as spec;

use gd_machine::{Event, Reply as BookReply};
use gd_office_part::{Receipt, Told};
use gd_question::Question;
use gd_replies::{Call, Reply, declared_replies, frozen_replies, published_replies};
use std::alloc::{AllocError, Global};

/// Appends what a desk is told of its freeze: the question that is frozen, or why the freeze is refused. The only error is
/// want of memory.
fn push_froze(
    alloc: Global,
    rows: &mut Vec<Reply>,
    question: Option<&Question>,
    froze: &Receipt,
) -> Result<(), AllocError>
    ensures { OnOk result (rows.new.items
        ≡ rows.old.items ++ spec.froze_rows (option_copied question.entry) froze.now) }
{
    match (froze.told(), question) {
        (Told::Accepted(number, _), Some(question)) => {
            let mut frozen = frozen_replies(alloc, *number as usize, question)?;
            rows.append(&mut frozen)?;
        }
        (Told::Accepted(..), None) => {}
        (Told::Refused(_, refusal), _) => rows.push(Reply::Refused(Call::Freeze, *refusal))?,
    }
    Ok(())
}

/// The rows of an end that is accepted under this number: of a schedule or of a declared cut. The only error is want of
/// memory.
fn accepted_replies(
    alloc: Global,
    question: &Question,
    event: &Event,
    number: u64,
    reply: &BookReply,
) -> Result<Vec<Reply>, AllocError>
    requires { spec.HasShape question.now event.now }
    ensures { IfOk result (λ rows. rows.items
        ≡ spec.accepted_rows question.now event.now number reply.now) }
{
    let number = number as usize;
    match (event, reply) {
        (
            Event::Publish { certificate, .. },
            BookReply::Published {
                cycle,
                round,
                bumped,
                ..
            },
        ) => published_replies(alloc, number, *cycle, *round, certificate, bumped),
        (Event::Declare { cut, .. }, BookReply::Declared { cycle, round, .. }) => {
            declared_replies(alloc, number, *cycle, *round, question.system(), cut)
        }
        _ => Ok(Vec::new(alloc)),
    }
}

/// Appends what a desk is told of the end of its cycle: the schedule, the cut, or why either is refused. The only error is
/// want of memory.
fn push_closed(
    alloc: Global,
    rows: &mut Vec<Reply>,
    question: &Question,
    closed: &Receipt,
) -> Result<(), AllocError>
    requires { spec.HasShape question.now closed.now.event }
    ensures { OnOk result (rows.new.items
        ≡ rows.old.items ++ spec.closed_rows question.now closed.now) }
{
    match closed.told() {
        Told::Accepted(number, reply) => {
            let mut told = accepted_replies(alloc, question, closed.event(), *number, reply)?;
            rows.append(&mut told)?;
        }
        Told::Refused(_, refusal) => rows.push(Reply::Refused(Call::Settle, *refusal))?,
    }
    Ok(())
}

/// Appends the rows of the desk of a slot, slots counted from 1: the slot, what is told of the freeze, and, where a question
/// is frozen and an end of its cycle was asked for, what is told of that. A declared cut needs one entry for each place,
/// each point and each pool of the question. The only error is want of memory.
pub(crate) fn push_desk(
    alloc: Global,
    rows: &mut Vec<Reply>,
    slot: u32,
    froze: &Receipt,
    question: Option<&Question>,
    closed: Option<&Receipt>,
) -> Result<(), AllocError>
    requires { spec.IsEndShaped (option_copied question) (option_copied closed) }
    ensures { OnOk result (rows.new.items
        ≡ rows.old.items
        ++ spec.desk_rows slot froze.now (option_copied question.entry) (option_copied closed.entry)) }
{
    rows.push(Reply::Slot(u64::from(slot)))?;
    push_froze(alloc, rows, question, froze)?;
    if let (Some(question), Some(closed)) = (question, closed) {
        push_closed(alloc, rows, question, closed)?;
    }
    Ok(())
}
