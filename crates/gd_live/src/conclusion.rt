//! What a settled cycle comes to, as rows that publish or declare it.

ghost use Rattle.std.specs.Prelude.{◌≡◌, ◌≤◌, ◌+◌, true, Ok, IsTrue, IfOk, OnOk, length};
ghost use Rattle.gd_machine.specs.History.{is_frozen, round_of};
ghost use Rattle.gd_machine.specs.Asking.{question as question_of};
ghost use Rattle.gd_text_part.specs.Lines.{line_of};
ghost use Rattle.gd_text_part.specs.declared.order.Place.{Place};
ghost use Rattle.gd_text_part.specs.declared.row.Row.TheVariants as row;
ghost use Rattle.gd_live.specs.Stands as spec;
ghost use Rattle.gd_live.specs.Lines.{Concludes, IsConclusion, most_rows as spec_rows};

use crate::book::PostedBook;
use crate::group::Group;
use gd_day::event_of;
use gd_question::Question;
use gd_replies::{Reply, cut_replies, solved_replies};
use gd_solver::{Answer, solve};
use gd_text_part::EventRow;
use gd_units::{Class, Moment, Round};
use std::alloc::{AllocError, Global};

/// The rows of a group, and the line of a call behind it.
#[derive(Drop)]
pub(crate) struct Conclusion {
    pub(crate) group: Group,
    pub(crate) line: Vec<u8>,
    pub(crate) event: EventRow,
}

/// What answers a question, as the rows of a group in the text of a day, and whether a schedule does.
fn answer_to(alloc: Global, question: &Question) -> Result<(Vec<Reply>, bool), AllocError> {
    match solve(alloc, question)? {
        Answer::Best(schedule, prices) => {
            let rows = solved_replies(alloc, question, &schedule, &prices);
            drop(schedule);
            drop(prices);
            Ok((rows?, true))
        }
        Answer::Impossible(cut) => {
            let rows = cut_replies(alloc, question, &cut, 0);
            drop(cut);
            Ok((rows?, false))
        }
    }
}

/// A line that is printed here is read as a row of the group.
fn push_line(alloc: Global, group: &mut Group, line: &[u8]) -> Result<(), AllocError>
    requires { spec.IsGroup (length group.old.rows) group.old }
    ensures { OnOk result (spec.IsGroup (length group.new.rows) group.new) }
{
    let number = group.rows().len() as u64 + 1;
    let Ok((row, place)) = group.place().line_row(alloc, number, line) else {
        return Err(AllocError);
    };
    if event_of(&row).is_some() {
        return Err(AllocError);
    }
    group.wait(line, row, place)
}

/// The group of those rows that stand in one.
fn group_of(alloc: Global, answer: &[Reply]) -> Result<Group, AllocError>
    ensures { IfOk result (λ g. spec.IsGroup (length g.rows) g) }
{
    let mut group = Group::new(alloc);
    'rows: for reply in answer {
        if let Reply::Sched(..) | Reply::Price { .. } | Reply::Inside(..) = *reply {
            let line = reply.to_string(alloc)?;
            push_line(alloc, &mut group, line.as_bytes().trim_ascii_end())?;
        }
    }
    Ok(group)
}

/// Whether the row publishes or declares the question of this round at this moment.
fn concludes(event: &EventRow, moment: Moment, round: Round) -> bool
    ensures { IsTrue result → Concludes moment round event.now }
{
    match *event {
        EventRow::Publish {
            moment: at,
            round: n,
        }
        | EventRow::Declare {
            moment: at,
            round: n,
        } => at == moment && n == round,
        _ => false,
    }
}

/// How many rows such a call needs before it at most.
fn most_rows(question: &Question, event: &EventRow) -> usize
    ensures { result ≡ spec_rows question.now event.now }
{
    if let EventRow::Publish { .. } = *event {
        question.known();
        return question.line_count() + Class::COUNT * question.element_count();
    }
    let system = question.system();
    system.known();
    system.place_count() + (system.point_count() + system.pool_count())
}

/// The line that publishes or declares the question of this round.
fn last_line(
    alloc: Global,
    is_best: bool,
    moment: Moment,
    round: Round,
) -> Result<Vec<u8>, AllocError> {
    let name = if is_best { "publish" } else { "declare" };
    let line = format!(in alloc; "{name},{moment},{round},,,,,")?;
    Vec::from_slice(alloc, line.as_bytes())
}

/// The call that a line is behind a group, if that publishes or declares the question at this moment, and the group has no
/// more rows than are needed.
fn event_in(
    alloc: Global,
    group: &Group,
    line: &[u8],
    moment: Moment,
    question: &Question,
) -> Result<EventRow, AllocError>
    ensures few { IfOk result (λ e. length group.now.rows ≤ spec_rows question.now e) }
    ensures is { IfOk result (λ e. Concludes moment question.now.round e × ((place : Place)
        × (line_of group.now.place (length group.now.rows + 1) line.now ≡ Ok (row.Event e, place)))) }
{
    let number = group.rows().len() as u64 + 1;
    let Ok((row, _)) = group.place().line_row(alloc, number, line) else {
        return Err(AllocError);
    };
    let Some(event) = event_of(&row) else {
        return Err(AllocError);
    };
    if !concludes(&event, moment, question.round())
        || group.rows().len() > most_rows(question, &event)
    {
        return Err(AllocError);
    }
    Ok(event)
}

/// What the frozen question comes to, settled at this moment. What is printed of it is read again, and nothing else of it is
/// believed. The only error is want of memory.
pub(crate) fn conclusion_of(
    alloc: Global,
    book: &PostedBook,
    question: &Question,
    moment: Moment,
) -> Result<Conclusion, AllocError>
    requires frozen { is_frozen book.now.history ≡ true }
    requires question { question.now ≡ question_of book.now.day book.now.history }
    ensures { IfOk result (λ c. IsConclusion book.now.day book.now.history moment c.group c.line.items c.event) }
{
    let (answer, is_best) = answer_to(alloc, question)?;
    let group = group_of(alloc, answer.as_slice());
    drop(answer);
    let group = group?;
    let line = last_line(alloc, is_best, moment, question.round())?;
    let event = event_in(alloc, &group, line.as_slice(), moment, question)?;
    Ok(Conclusion { group, line, event })
}
