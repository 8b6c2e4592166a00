//! Where a run begins: the book of a file, or one that the head of the input opens.

ghost use Rattle.std.specs.Prelude.{◌≡◌, ◌++◌, ◌∷◌, [], List, Option, ℕ, length, IfSome, IfOk, IfErr, OnOk};
ghost use Rattle.std.specs.Io.KnownBytes.{Consumes};
ghost use Rattle.sqlite.specs.Effect.{Database};
ghost use Rattle.sqlite.specs.Held.{state};
ghost use Rattle.sqlite.specs.State.{HasCleanDisk};
ghost use Rattle.gd_journal_store.specs.Pieces.{Piece as APiece, Keeps, IsSettled, LeavesNoMore};
ghost use Rattle.gd_live.specs.Seen.{at_desk};
ghost use Rattle.gd_live.specs.Openings.{HasLongOpening};
ghost use Rattle.gd_text_part.specs.Texts.{BlamesNoRow};
ghost use Rattle.gasday_part.specs.AnswerSeen.{answer_seen};
ghost use Rattle.gasday_live.specs.Beginnings.{ExplainsNoRun, TellsNoRun};
ghost use Rattle.gasday_live.specs.Runs.{Begins, IsHead, KeptNone, LeavesFront, LosesNone};

use crate::audit::of_replay_fault;
use crate::kept::KeptBook;
use crate::opening::open_opening;
use crate::reading::read_book;
use gasday_part::{Answer, NoBook, of_no_book};
use gd_journal_store::{StoreFault, append, count, make, pieces_are_one};
use gd_live::{Opening, read_opening};
use gd_serving::ReplayFault;
use gd_text_part::TextFault;
use sqlite::{Alter, Connection, Error, ErrorCode};
use std::alloc::{AllocError, Global};
use std::io::Read;
use std::thread::Threads;

/// Why a run takes no line.
#[derive(Drop)]
pub(crate) enum NoRun {
    /// The head of its input opens no book.
    Opening(NoBook),
    /// The file's book isn't made again, or the file can't be read or written.
    File(ReplayFault),
}

impl From<StoreFault> for NoRun {
    ghost use Rattle.std.specs.Prelude.{◌≡◌};
    ghost use Rattle.gd_serving.specs.declared.replaying.ReplayFault.TheVariants.{Store};
    ghost use Rattle.gasday_live.specs.declared.beginning.NoRun.TheVariants.{File};

    ghost from_gives = { λ fault why. why ≡ File (Store fault) };

    fn from(fault: StoreFault) -> NoRun {
        NoRun::File(ReplayFault::Store(fault))
    }
}

impl From<ReplayFault> for NoRun {
    ghost use Rattle.std.specs.Prelude.{◌≡◌};
    ghost use Rattle.gasday_live.specs.declared.beginning.NoRun.TheVariants.{File};

    ghost from_gives = { λ fault why. why ≡ File fault };

    fn from(fault: ReplayFault) -> NoRun {
        NoRun::File(fault)
    }
}

impl From<NoBook> for NoRun {
    ghost use Rattle.std.specs.Prelude.{◌≡◌};
    ghost use Rattle.gasday_live.specs.declared.beginning.NoRun.TheVariants.{Opening};

    ghost from_gives = { λ fault why. why ≡ Opening fault };

    fn from(fault: NoBook) -> NoRun {
        NoRun::Opening(fault)
    }
}

impl From<TextFault> for NoRun {
    ghost use Rattle.std.specs.Prelude.{◌≡◌};
    ghost use Rattle.gasday_part.specs.declared.opened.NoBook.TheVariants.{Fault};
    ghost use Rattle.gasday_live.specs.declared.beginning.NoRun.TheVariants.{Opening};

    ghost from_gives = { λ fault why. why ≡ Opening (Fault fault) };

    fn from(fault: TextFault) -> NoRun {
        NoRun::Opening(NoBook::Fault(fault))
    }
}

/// The book that a run takes lines on, the number of the next piece, and what was read of the lines already.
#[derive(Drop)]
pub(crate) struct Begun {
    pub(crate) book: KeptBook,
    pub(crate) next: u32,
    pub(crate) bytes: Vec<u8>,
}

/// The opening at the head of the input, and what was read behind it. A line that the end leaves unfinished is none.
fn read_head<R: Read>(alloc: Global, reader: &mut R) -> Result<(Vec<u8>, Vec<u8>), TextFault>
    ensures head { IfOk result (λ p. IsHead p.0.items p.1.items) }
    ensures bytes { IfOk result (λ p. Consumes (R.remaining reader.old) (R.remaining reader.new)
        (p.0.items ++ p.1.items)) }
    ensures fault { IfErr result (BlamesNoRow (IfSome (R.remaining reader.old) HasLongOpening)) }
{
    let Opening {
        text,
        begun,
        has_ended,
    } = read_opening(alloc, reader)?;
    let is_whole = begun.is_empty();
    if has_ended && !is_whole {
        return Err(TextFault::ReadFailed);
    }
    Ok((text, begun))
}

/// Keeps an opening, of which nothing was told, as the first piece of a file that keeps none.
fn keep_opening<S: Alter>(conn: &mut Connection<S>, text: &[u8]) -> Result<(), StoreFault>
    ensures kept { HasCleanDisk (state S.Store conn.new) → IsSettled [] (state S.Store conn.old)
        → OnOk result (IsSettled ((text.now, []) ∷ []) (state S.Store conn.new)) }
    ensures any_moment { HasCleanDisk (state S.Store conn.new) → IsSettled [] (state S.Store conn.old)
        → LeavesFront [] (state S.Store conn.new) }
    ensures clean { HasCleanDisk (state S.Store conn.new) → HasCleanDisk (state S.Store conn.old) }
{
    append(conn, 1, text, &[])
}

/// Makes a book of the opening at the head of the input, which is kept.
fn begin_new<S: Alter, R: Read>(
    alloc: Global,
    conn: &mut Connection<S>,
    reader: &mut R,
) -> Result<Begun, NoRun>
    ensures begun { let new = state S.Store conn.new in (had : Database)
        → (HasCleanDisk new → KeptNone had × IsSettled [] (state S.Store conn.old))
        → IfOk result (λ b. Begins had (R.remaining reader.old) (R.remaining reader.new) b.bytes.items
        b.book.calls b.next (at_desk b.book.desk) new) }
    ensures unbegun { let new = state S.Store conn.new in (had : Database)
        → (HasCleanDisk new → KeptNone had)
        → IfErr result (ExplainsNoRun (R.remaining reader.old) had new) }
    ensures any_moment { HasCleanDisk (state S.Store conn.new) → IsSettled [] (state S.Store conn.old)
        → LeavesFront [] (state S.Store conn.new) }
    ensures clean { HasCleanDisk (state S.Store conn.new) → HasCleanDisk (state S.Store conn.old) }
{
    let (text, bytes) = read_head(alloc, reader)?;
    let opened = open_opening(alloc, text.as_slice())?;
    match keep_opening(conn, text.as_slice()) {
        Ok(()) => {
            let desk = opened.into_desk(alloc);
            let book = KeptBook { desk, calls: 0 };
            Ok(Begun {
                book,
                next: 2,
                bytes,
            })
        }
        Err(why) => {
            drop(opened);
            Err(NoRun::from(why))
        }
    }
}

/// Makes the book of a file again, which has so many pieces. Nothing of the input is read.
fn begin_again<S: Alter>(
    rt: &(impl Threads + Sync),
    alloc: Global,
    conn: &mut Connection<S>,
    count: u32,
) -> Result<Begun, NoRun>
    ensures begun { let new = state S.Store conn.new in (had : Database) (input : Option (List ℕ))
        → (HasCleanDisk new → (ps : List APiece) × Keeps ps had × IsSettled ps (state S.Store conn.old)
        × (count ≡ length ps))
        → IfOk result (λ b. Begins had input input b.bytes.items b.book.calls b.next (at_desk b.book.desk) new) }
    ensures unbegun { let new = state S.Store conn.new in (had : Database) (input : Option (List ℕ))
        → (HasCleanDisk new → (ps : List APiece) × Keeps ps had × IsSettled ps (state S.Store conn.old)
        × (count ≡ length ps))
        → IfErr result (ExplainsNoRun input had new) }
    ensures any_moment { let new = state S.Store conn.new in HasCleanDisk new
        → LeavesNoMore (state S.Store conn.old) new }
    ensures clean { HasCleanDisk (state S.Store conn.new) → HasCleanDisk (state S.Store conn.old) }
{
    let Some(next) = count.checked_add(1) else {
        return Err(NoRun::from(StoreFault::Store(Error::SqliteFailure(ErrorCode::TooBig))));
    };
    let book = read_book(rt, alloc, conn, count)?;
    Ok(Begun {
        book,
        next,
        bytes: Vec::new(alloc),
    })
}

/// The book that a run takes lines on: that of the file, or one that the head of the input opens.
pub(crate) fn begin<S: Alter, R: Read>(
    rt: &(impl Threads + Sync),
    alloc: Global,
    conn: &mut Connection<S>,
    reader: &mut R,
) -> Result<Begun, NoRun>
    ensures begun { IfOk result (λ b. Begins (state S.Store conn.old).now (R.remaining reader.old)
        (R.remaining reader.new) b.bytes.items b.book.calls b.next (at_desk b.book.desk) (state S.Store conn.new)) }
    ensures unbegun { IfErr result (ExplainsNoRun (R.remaining reader.old)
        (state S.Store conn.old).now (state S.Store conn.new)) }
    ensures lost { LosesNone (state S.Store conn.old) (state S.Store conn.new) }
    ensures clean { HasCleanDisk (state S.Store conn.new) → HasCleanDisk (state S.Store conn.old) }
{
    pieces_are_one();
    make(conn)?;
    let count = count(conn)?;
    let keeps_none = count == 0;
    if keeps_none {
        return begin_new(alloc, conn, reader);
    }
    begin_again(rt, alloc, conn, count)
}

/// The answer of a run that takes no line. Want of memory is handed on as such.
pub(crate) fn of_no_run(alloc: Global, why: NoRun) -> Result<Answer, AllocError>
    ensures { IfOk result (λ a. TellsNoRun why (answer_seen a)) }
{
    match why {
        NoRun::Opening(why) => of_no_book(alloc, why),
        NoRun::File(why) => of_replay_fault(alloc, &why),
    }
}
