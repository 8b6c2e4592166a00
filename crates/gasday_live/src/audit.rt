//! What is told of a book's file.

ghost use Rattle.std.specs.Prelude.{List, IfOk, IfErr};
ghost use Rattle.sqlite.specs.Held.{state};
ghost use Rattle.sqlite.specs.State.{HasCleanDisk};
ghost use Rattle.gd_journal_store.specs.Pieces.{Piece as APiece, Keeps, LeavesNoMore};
ghost use Rattle.gd_live.specs.Seen.{at_desk};
ghost use Rattle.gasday_part.specs.AnswerSeen.{answer_seen};
ghost use Rattle.gasday_live.specs.Books.{Stands};
ghost use Rattle.gasday_live.specs.Audits.{Audits};
ghost use Rattle.gasday_live.specs.Faults.{Explains, TellsFault};

use crate::kept::KeptBook;
use crate::laws::kept_book_is_day;
use crate::reading::read_book;
use gasday_part::{Answer, of_one};
use gd_journal_store::count;
use gd_replies::Reply;
use gd_serving::ReplayFault;
use sqlite::{Alter, Connection};
use std::alloc::{AllocError, Global};
use std::thread::Threads;

/// The answer where a file's book isn't made again. Want of memory is handed on as such.
pub(crate) fn of_replay_fault(alloc: Global, why: &ReplayFault) -> Result<Answer, AllocError>
    ensures { IfOk result (λ a. TellsFault why.now (answer_seen a)) }
{
    match why {
        ReplayFault::Differs { piece, call } => of_one(
            alloc,
            Reply::Differs {
                piece: *piece,
                call: *call,
            },
            1,
        ),
        ReplayFault::OutOfMemory => Err(AllocError),
        ReplayFault::Store(_) => of_one(alloc, Reply::Store, 2),
    }
}

/// The book of a file; where it keeps no piece, it differs at its opening.
pub(crate) fn read_all<S: Alter>(
    rt: &(impl Threads + Sync),
    alloc: Global,
    conn: &mut Connection<S>,
) -> Result<KeptBook, ReplayFault>
    ensures book { HasCleanDisk (state S.Store conn.new) → IfOk result (λ b. (ps : List APiece)
        × Keeps ps (state S.Store conn.old).now × Stands ps b.calls (at_desk b.desk)) }
    ensures differs { HasCleanDisk (state S.Store conn.new) → IfErr result (Explains (state S.Store conn.old)) }
    ensures any_moment { let new = state S.Store conn.new in HasCleanDisk new
        → LeavesNoMore (state S.Store conn.old) new }
    ensures clean { HasCleanDisk (state S.Store conn.new) → HasCleanDisk (state S.Store conn.old) }
{
    let count = count(conn)?;
    if count == 0 {
        return Err(ReplayFault::Differs { piece: 1, call: 0 });
    }
    read_book(rt, alloc, conn, count)
}

/// Makes all calls of a book's file again, and tells whether each reply is what the file says was told: `replayed`, with status
/// 0; or `differs`, with status 1, or why the file can't be read, with status 2. The only error is want of memory.
pub fn audit_book<S: Alter>(
    rt: &(impl Threads + Sync),
    alloc: Global,
    conn: &mut Connection<S>,
) -> Result<Answer, AllocError>
    ensures audited { HasCleanDisk (state S.Store conn.new)
        → IfOk result (λ a. Audits (state S.Store conn.old) (answer_seen a)) }
    ensures any_moment { let new = state S.Store conn.new in HasCleanDisk new
        → LeavesNoMore (state S.Store conn.old) new }
    ensures clean { HasCleanDisk (state S.Store conn.new) → HasCleanDisk (state S.Store conn.old) }
{
    match read_all(rt, alloc, conn) {
        Ok(book) => {
            let row = book.replayed();
            kept_book_is_day();
            drop(book);
            of_one(alloc, row, 0)
        }
        Err(why) => of_replay_fault(alloc, &why),
    }
}
