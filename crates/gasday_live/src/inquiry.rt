//! What is asked of the book that a file keeps.

ghost use Rattle.std.specs.Prelude.{IfOk, IfErr, string_bytes};
ghost use Rattle.sqlite.specs.Held.{state};
ghost use Rattle.sqlite.specs.State.{HasCleanDisk};
ghost use Rattle.gd_journal_store.specs.Pieces.{LeavesNoMore};
ghost use Rattle.gd_machine.specs.Headline.{Holds};
ghost use Rattle.gd_live.specs.Seen.{at_desk};
ghost use Rattle.gasday_part.specs.Inquiries.{PrintsInquiry};
ghost use Rattle.gasday_live.specs.Asked.{AsksBook, PrintsKept};
ghost use Rattle.gasday_live.specs.Faults.{Explains};

use crate::audit::{of_replay_fault, read_all};
use crate::kept::KeptBook;
use gasday_part::{Inquiry, Printed, Written, print_inquiry, write_printed, write_rows};
use gd_serving::ReplayFault;
use sqlite::{Alter, Connection};
use std::alloc::{AllocError, Global};
use std::io::Write;
use std::thread::Threads;

impl KeptBook {
    /// What is printed where this is asked of the book.
    fn print(&self, alloc: Global, inquiry: Inquiry) -> Result<Printed, AllocError>
        ensures prints { IfOk result (λ it. PrintsInquiry (at_desk self.now.desk).day (at_desk self.now.desk).history inquiry
            (string_bytes it.text) it.status) }
        ensures holds { Holds (at_desk self.now.desk).day (at_desk self.now.desk).history }
    {
        // The headline holds of what the book is asked for.
        let _history = self.desk.history();
        print_inquiry(alloc, self.desk.replay()?, inquiry)
    }
}

/// What is printed where this is asked of the book of a file, all calls of which are made again.
fn print_kept<S: Alter>(
    rt: &(impl Threads + Sync),
    alloc: Global,
    conn: &mut Connection<S>,
    inquiry: Inquiry,
) -> Result<Printed, ReplayFault>
    ensures printed { HasCleanDisk (state S.Store conn.new) → IfOk result (λ it. PrintsKept (state S.Store conn.old) inquiry
        (string_bytes it.text) it.status) }
    ensures differs { HasCleanDisk (state S.Store conn.new) → IfErr result (Explains (state S.Store conn.old)) }
    ensures any_moment { let new = state S.Store conn.new in HasCleanDisk new
        → LeavesNoMore (state S.Store conn.old) new }
    ensures clean { HasCleanDisk (state S.Store conn.new) → HasCleanDisk (state S.Store conn.old) }
{
    let book = read_all(rt, alloc, conn)?;
    let printed = book.print(alloc, inquiry);
    drop(book);
    match printed {
        Ok(printed) => Ok(printed),
        Err(_) => Err(ReplayFault::OutOfMemory),
    }
}

/// Makes all calls of a book's file again, and writes what is asked of the book; or where the file differs from a book, with
/// status 1, or why it can't be read, with status 2. The status is else 0, or 1 where the book was never frozen in the round that
/// is asked for, and 2 where memory runs out or the writer fails.
pub fn ask_book<S: Alter, W: Write>(
    rt: &(impl Threads + Sync),
    alloc: Global,
    conn: &mut Connection<S>,
    inquiry: Inquiry,
    writer: &mut W,
) -> Written
    ensures asked { HasCleanDisk (state S.Store conn.new) → AsksBook (state S.Store conn.old) inquiry
        (W.contents writer.old) (W.contents writer.new) result.status }
    ensures any_moment { let new = state S.Store conn.new in HasCleanDisk new
        → LeavesNoMore (state S.Store conn.old) new }
    ensures clean { HasCleanDisk (state S.Store conn.new) → HasCleanDisk (state S.Store conn.old) }
{
    match print_kept(rt, alloc, conn, inquiry) {
        Ok(printed) => write_printed(alloc, writer, Ok(printed)),
        Err(why) => write_rows(alloc, writer, of_replay_fault(alloc, &why)),
    }
}
