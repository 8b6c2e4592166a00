//! What a run tells beside what its lines give.

ghost use Rattle.std.specs.Prelude.{◌≡◌, [], ◌∷◌, IfOk, IfErr, IsTrue, IsFalse};
ghost use Rattle.std.specs.Io.KnownBytes.{Appends};
ghost use Rattle.gd_replies.specs.Lines.{lines_of};
ghost use Rattle.gasday_part.specs.Answers.{one};
ghost use Rattle.gasday_part.specs.Output as output;
ghost use Rattle.gasday_live.specs.Runs.{TellsFailure, TellsFinish};

use crate::lines::Ending;
use gasday_part::{Written, of_fault, of_one, write_answer, write_rows};
use gd_replies::Reply;
use gd_serving::{Failure, Finish};
use gd_text_part::TextFault;
use std::alloc::{AllocError, Global};
use std::io::Write;

/// Tells a row and flushes it; whether that is done.
pub(crate) fn tell<W: Write>(alloc: Global, writer: &mut W, row: Reply) -> bool
    ensures told { IsTrue result → Appends (W.contents writer.old) (W.contents writer.new)
        (lines_of (row ∷ [])) }
    ensures untold { IsFalse result → output.Written (W.contents writer.old) (W.contents writer.new) 2 (one row 2) }
{
    if write_answer(alloc, writer, &of_one(alloc, row, 0)) != 0 {
        return false;
    }
    writer.flush().is_ok()
}

/// This exit status, with no row that tells why.
pub(crate) fn told_nothing(status: u8) -> Written
    ensures { result.status ≡ status }
{
    Written { status, last: None }
}

/// Tells why a run failed. After a failed write nothing more is written.
pub(crate) fn tell_failure<W: Write>(alloc: Global, writer: &mut W, why: &Failure) -> Written
    ensures { TellsFailure (W.contents writer.old) (W.contents writer.new) why.now result.status }
{
    match why {
        Failure::WriteFailed => told_nothing(2),
        Failure::ReadFailed => { write_rows(alloc, writer, of_fault(alloc, TextFault::ReadFailed)) }
        Failure::OutOfMemory => write_rows(alloc, writer, Err(AllocError)),
        Failure::Store(_) => write_rows(alloc, writer, of_one(alloc, Reply::Store, 2)),
    }
}

/// Tells how a run came to the end of its input.
fn tell_finish<W: Write>(alloc: Global, writer: &mut W, ending: Ending) -> Written
    ensures { TellsFinish (W.contents writer.old) (W.contents writer.new) ending.has_fault ending.finish result.status }
{
    match ending.finish {
        Finish::Ended => told_nothing(u8::from(ending.has_fault)),
        Finish::Unfinished => tell_failure(alloc, writer, &Failure::ReadFailed),
    }
}

/// Tells how a run ended.
pub(crate) fn tell_end<W: Write>(
    alloc: Global,
    writer: &mut W,
    ended: &Result<Ending, Failure>,
) -> Written
    ensures ended { IfOk ended.now (λ it. TellsFinish (W.contents writer.old) (W.contents writer.new)
        it.has_fault it.finish result.status) }
    ensures failed { IfErr ended.now (λ why. TellsFailure (W.contents writer.old) (W.contents writer.new) why result.status) }
{
    match ended {
        Ok(ending) => tell_finish(alloc, writer, *ending),
        Err(why) => tell_failure(alloc, writer, why),
    }
}
