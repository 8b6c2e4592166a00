//! What is told of a call.

ghost use Rattle.std.specs.Prelude.{◌≡◌, ◌++◌, ◌∷◌, [], IfOk};
ghost use Rattle.gd_machine.specs.History.{History};
ghost use Rattle.gd_machine.specs.Machine.{IsAccepted};
ghost use Rattle.gd_machine.specs.Steps.{Step};
ghost use Rattle.gd_machine.specs.declared.event.Event.{Event as AnEvent};
ghost use Rattle.gd_machine.specs.declared.reply.Reply.{Reply as ABookReply};
ghost use Rattle.gd_course.specs.CallRows as spec;

use gd_book::{Book, Event, Refusal, Reply as BookReply};
use gd_replies::{Call, Reply, declared_replies, frozen_replies, published_replies, refused_reply};
use std::alloc::{AllocError, Global};

/// An answer of one row.
pub(crate) fn one_row(alloc: Global, reply: Reply) -> Result<Vec<Reply>, AllocError>
    ensures { IfOk result (λ rows. rows.items ≡ reply ∷ []) }
{
    let mut rows = Vec::new(alloc);
    rows.push(reply)?;
    Ok(rows)
}

/// What is told of the last event of a book with its reply.
fn pair_rows(
    alloc: Global,
    book: &Book,
    event: &Event,
    reply: &BookReply,
) -> Result<Vec<Reply>, AllocError>
    requires { (h : History) × (book.now.history ≡ h ++ (event.now, reply.now) ∷ [])
        × IsAccepted book.now.day h (event.now, reply.now) }
    ensures { IfOk result (λ rows. rows.items
        ≡ spec.accepted_rows book.now.day book.now.history event.now reply.now) }
{
    match (event, reply) {
        (
            _,
            BookReply::Accepted {
                number,
                cycle,
                line,
            },
        ) => one_row(
            alloc,
            Reply::Accepted {
                number: *number as u64,
                cycle: u64::from(cycle.number()),
                line: u64::from(*line) + 1,
            },
        ),
        (_, BookReply::Done { number }) => one_row(alloc, Reply::Done(*number as u64)),
        (_, BookReply::Frozen { number, .. }) => match book.frozen() {
            Some(question) => frozen_replies(alloc, *number, question),
            None => unreachable!(),
        },
        (
            Event::Publish { certificate, .. },
            BookReply::Published {
                number,
                cycle,
                round,
                bumped,
            },
        ) => published_replies(alloc, *number, *cycle, *round, certificate, bumped),
        (
            Event::Declare { cut, .. },
            BookReply::Declared {
                number,
                cycle,
                round,
            },
        ) => declared_replies(alloc, *number, *cycle, *round, book.system(), cut),
        _ => Ok(Vec::new(alloc)),
    }
}

/// What is told of the last event of a book.
fn last_rows(alloc: Global, book: &Book) -> Result<Vec<Reply>, AllocError>
    ensures { (h : History) (event : AnEvent) (reply : ABookReply)
        → book.now.history ≡ h ++ (event, reply) ∷ []
        → IfOk result (λ rows. rows.items
        ≡ spec.accepted_rows book.now.day book.now.history event reply) }
{
    let history = book.history();
    let Some(at) = history.len().checked_sub(1) else {
        return Ok(Vec::new(alloc));
    };
    let (event, reply) = &history[at];
    pair_rows(alloc, book, event, reply)
}

/// The rows that tell what a call of a book was answered, right after the call. The only error is want of memory, of the
/// call's or of the rows'.
pub fn tell(
    alloc: Global,
    book: &Book,
    call: Call,
    answer: Result<BookReply, Refusal>,
) -> Result<Vec<Reply>, AllocError>
    ensures { (h : History) (event : AnEvent) → Step book.now.day h event answer book.now.history
        → IfOk result (λ rows. spec.IsTold answer
        × (rows.items ≡ spec.answer_rows call book.now.day book.now.history event answer)) }
{
    match answer {
        Ok(_) => last_rows(alloc, book),
        Err(Refusal::OutOfMemory) => Err(AllocError),
        Err(refusal) => one_row(alloc, refused_reply(call, refusal)),
    }
}
