//! Orders whose text can't be read.

ghost use Rattle.std.specs.Prelude.{◌≡◌, ◌⊎◌, None, Some};
ghost use Rattle.gasday_part.specs.Answers.{fault_answer, no_memory, one};
ghost use Rattle.gasday_part.specs.Output.{WritesTold};
ghost use Rattle.gasday_files.specs.Refusals.{RefusesFor, WritesUnread};

use crate::input::{Text, Unread};
use crate::ran::{Ended, Ran};
use gasday_part::{of_fault, write_answer};
use gd_text_part::TextFault;
use sqlite::Alter;
use std::alloc::Global;
use std::io::Write;

/// Writes that a text could not be read, and answers the exit status.
fn write_fault<W: Write>(alloc: Global, fault: TextFault, writer: &mut W) -> u8
    ensures { WritesTold (λ a. (a ≡ fault_answer fault) ⊎ (a ≡ one no_memory 2))
        (W.contents writer.old) (W.contents writer.new) result }
{
    write_answer(alloc, writer, &of_fault(alloc, fault))
}

/// Writes the fault's row where standard input gave no text, and nothing of a file that can't be read.
fn write_unread<W: Write>(alloc: Global, unread: &Unread<'_>, writer: &mut W)
    ensures { WritesUnread unread.now (W.contents writer.old) (W.contents writer.new) }
{
    match unread {
        Unread::File(..) => {}
        Unread::Standard(fault, _) => {
            let _ = write_fault(alloc, *fault, writer);
        }
    }
}

/// An order that ended with status 2 before anything was opened, and why no text could be read, if it was for that.
pub fn failed<'a, S: Alter + Drop>(rt: &HostRuntime, unread: Option<Unread<'a>>) -> Ended<'a, S>
    ensures file { result.ran.file ≡ None }
    ensures status { result.ran.status ≡ 2 }
    ensures unread { result.unread ≡ unread.entry }
{
    let ran = Ran {
        status: 2,
        last: None,
        file: None,
        course: None,
    };
    Ended {
        ran,
        text: Text::empty(rt),
        unread,
    }
}

/// What comes of an order whose text was not read: of standard input the fault's row is written, and the status is 2.
pub fn refuse<'a, S: Alter + Drop, W: Write>(
    rt: &HostRuntime,
    unread: Unread<'a>,
    writer: &mut W,
) -> Ended<'a, S>
    ensures refused { RefusesFor unread.entry result.ran.file
        (W.contents writer.old) (W.contents writer.new) result.ran.status }
    ensures unread { result.unread ≡ Some unread.entry }
{
    write_unread(rt.alloc(), &unread, writer);
    failed(rt, Some(unread))
}
