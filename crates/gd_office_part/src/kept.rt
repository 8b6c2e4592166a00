//! A book as it stands under its lock. Receipts are made here alone, one by each step.

ghost use Rattle.std.specs.Prelude.{◌≡◌, ◌+◌, ◌-◌, ◌^◌, ◌<◌, ◌≤◌, true, false, length as len_of, Option, Err, IfOk, IfErr, OnErr, OnOk};
ghost use Rattle.std.specs.Option.{MatchOption};
ghost use Rattle.gd_board.specs.Known.{StaysKnown, known_of};
ghost use Rattle.gd_board.specs.declared.posting.Posting.{Posting as APosting};
ghost use Rattle.gd_machine.specs.declared.event.Event.TheVariants as event;
ghost use Rattle.gd_machine.specs.declared.event.Event.{Event as AnEvent};
ghost use Rattle.gd_machine.specs.declared.refusal.Refusal.TheVariants as refusal;
ghost use Rattle.gd_machine.specs.Day.{Day};
ghost use Rattle.gd_machine.specs.History.{History, cycle_of, is_frozen};
ghost use Rattle.gd_machine.specs.Asking.{question};
ghost use Rattle.gd_machine.specs.Headline.{IsHistoryOf};
ghost use Rattle.gd_machine.specs.Steps.{Step};
ghost use Rattle.gd_book.specs.Postings.{Posts};
ghost use Rattle.gd_office_part.specs.declared.kept.TheConstants.{MAX_SESSIONS};
ghost use Rattle.gd_office_part.specs.declared.session.OfficeFault.TheVariants as fault;
ghost use Rattle.gd_office_part.specs.Days.{IsDayOf};
ghost use Rattle.gd_office_part.specs.StepResults.{Tells, PostsWhere, IsFresh, IsFrozenAtMost};
ghost use Rattle.gd_office_part.specs.Counting.{none, plus, numbers_of};

use crate::days::Days;
use crate::numbers::Numbers;
use crate::session::{OfficeFault, Session};
use crate::sums::Sums;
use gd_board::{Board, BoardNote};
use gd_book::{Book, Event, Refusal, Reply};
use gd_question::Question;
use gd_units::Moment;
use std::alloc::{AllocError, Global};
use std::marker::PhantomData;

/// How many sessions of one slot may be open at a time.
pub const MAX_SESSIONS: u32 = 1_024;

/// What a step of a book told.
#[derive(Drop)]
pub enum Told {
    /// The event has this number in the history, from 1, and this reply.
    Accepted(u64, Reply),
    /// The history had so many events, and the event is refused for this reason, which is never want of memory.
    Refused(u64, Refusal),
}

/// What one step of a book was asked and told. It is made by [`Kept::step_in`] alone and can't be copied.
#[derive(Drop)]
pub struct Receipt {
    slot: u32,
    event: Event,
    told: Told,
}

impl Receipt {
    /// The number of the book's slot.
    pub fn slot(&self) -> u32
        ensures { result ≡ self.now.slot }
    {
        self.slot
    }

    /// The event that was handed in.
    pub fn event(&self) -> &Event
        ensures { result.now ≡ self.now.event }
    {
        &self.event
    }

    /// What the step told.
    pub fn told(&self) -> &Told
        ensures { result.now ≡ self.now.told }
    {
        &self.told
    }
}

/// A book and its slot, how many of its sessions are open, what the book had accepted when it was put there, and what the
/// sessions closed since then counted together. The book is the one that was opened for this slot.
#[derive(Drop)]
pub struct Kept<J: Days> {
    alloc: Global,
    slot: u32,
    book: Book,
    live: u32,
    before: Numbers,
    closed: Numbers,
    of: PhantomData<J>,
    ghost few: { live ≤ MAX_SESSIONS },
    ghost day: { IsDayOf J.days slot book.day },
}

/// Makes the book's own call for an event.
fn make_call(
    book: &mut Book,
    event: Event,
    board: &Board,
    note: &mut BoardNote,
) -> Result<Reply, Refusal>
    requires { note.old.cells ≡ board.now }
    ensures step { Step book.old.day book.old.history event result book.new.history }
    ensures day { book.new.day ≡ book.old.day }
    ensures err { OnErr result (book.new ≡ book.old) }
    ensures board { note.new.cells ≡ note.old.cells }
    ensures posted { OnOk result (Posts book.old.day book.old.history
        (known_of note.new (cycle_of book.old.history)) event) }
    ensures fresh { OnOk result (IsFresh (known_of note.old (cycle_of book.old.history)) event) }
    ensures stays { StaysKnown note.old note.new }
{
    match event {
        Event::Nominate {
            moment,
            party,
            key,
            quantity,
        } => book.nominate(moment, party, key, quantity),
        Event::Respond {
            moment,
            party,
            line,
            end,
            quantity,
        } => book.respond(moment, party, line, end, quantity),
        Event::PostCapacity {
            moment,
            element,
            capacity,
        } => book.post_capacity(moment, element, capacity),
        Event::Freeze { moment } => book.freeze(moment),
        Event::Publish {
            moment,
            certificate,
        } => book.publish(moment, certificate, board, note),
        Event::Declare { moment, round, cut } => book.declare(moment, round, cut),
        Event::Waive { moment, line } => book.waive(moment, line),
        Event::Skip { moment } => book.skip(moment),
    }
}

/// What is told of an answer to an event, before which the history had so many events. The only error is want of memory,
/// which is then what was answered.
fn told_of(length: u64, answer: Result<Reply, Refusal>) -> Result<Told, AllocError>
    requires { length < 2 ^ 63 }
    ensures tells { (day : Day) (before : History) (event : AnEvent) (after : History)
        → length ≡ len_of before → Step day before event answer after
        → IfOk result (λ told. Tells day before event told after) }
    ensures posts { (day : Day) (before : History) (former known : Option APosting) (event : AnEvent)
        → OnOk answer (Posts day before known event) → OnOk answer (IsFresh former event)
        → IfOk result (λ told. PostsWhere day before former known event told) }
    ensures err { OnErr result (answer ≡ Err refusal.OutOfMemory) }
{
    match answer {
        Ok(reply) => Ok(Told::Accepted(length + 1, reply)),
        Err(Refusal::OutOfMemory) => Err(AllocError),
        Err(refusal) => Ok(Told::Refused(length, refusal)),
    }
}

impl<J: Days> Kept<J> {
    ghost use Rattle.gd_office_part.specs.Closing.{Closes, total_of};

    /// A book that is put under the lock of this slot, with no session.
    pub fn of(alloc: Global, slot: u32, book: Book) -> Kept<J>
        requires { IsDayOf J.days slot book.day }
        ensures slot { result.slot ≡ slot }
        ensures book { result.book ≡ book }
        ensures live { result.live ≡ 0 }
        ensures before { result.before ≡ numbers_of book }
        ensures closed { result.closed ≡ none }
    {
        Kept {
            alloc,
            slot,
            before: Numbers::of_book(&book),
            closed: Numbers::none(),
            book,
            live: 0,
            of: PhantomData,
        }
    }

    /// The number of the slot.
    pub fn slot(&self) -> u32
        ensures { result ≡ self.now.slot }
    {
        self.slot
    }

    /// The book.
    pub fn book(&self) -> &Book
        ensures book { result.now ≡ self.now.book }
        ensures day { IsDayOf J.days self.now.slot self.now.book.day }
    {
        &self.book
    }

    /// Counts one open session more.
    ///
    /// # Errors
    ///
    /// `TooMany` where 1,024 are open already. Nothing is changed then.
    pub fn count_session(&mut self) -> Result<(), OfficeFault>
        ensures ok { OnOk result (self.new.live ≡ self.old.live + 1) }
        ensures err { IfErr result (λ why. (why ≡ fault.TooMany) × (self.old.live ≡ MAX_SESSIONS) × (self.new ≡ self.old)) }
        ensures kept { (self.new.slot ≡ self.old.slot) × (self.new.book ≡ self.old.book)
            × (self.new.before ≡ self.old.before) × (self.new.closed ≡ self.old.closed) }
    {
        if self.live >= MAX_SESSIONS {
            return Err(OfficeFault::TooMany);
        }
        self.live += 1;
        Ok(())
    }

    /// Closes the open sessions, where these are as many as are open and what they counted, added to what the sessions
    /// closed before counted, is what the book gained since it was put here. Tells how many of their nominations were
    /// accepted, and their dekatherms together.
    ///
    /// # Errors
    ///
    /// How many of the open sessions are not among these. 0 stands for sums that differ, or for too many sessions.
    pub fn close_in(&mut self, sessions: &[Session<'_, J>]) -> Result<(u64, u64), u64>
        ensures closes { OnOk result (Closes self.old sessions.now) }
        ensures sums { IfOk result (λ sums. (sums.0 ≡ (total_of sessions.now).nominations)
            × (sums.1 ≡ (total_of sessions.now).dekatherms)) }
        ensures closed { OnOk result ((self.new.live ≡ 0) × (self.new.closed ≡ plus self.old.closed (total_of sessions.now))) }
        ensures err { IfErr result (λ missing. (Closes self.old sessions.now → ⊥)
            × (missing ≡ self.old.live - len_of sessions.now) × (self.new ≡ self.old)) }
        ensures kept { (self.new.slot ≡ self.old.slot) × (self.new.book ≡ self.old.book)
            × (self.new.before ≡ self.old.before) }
    {
        let missing = u64::from(self.live).saturating_sub(sessions.len() as u64);
        if sessions.len() != self.live as usize {
            return Err(missing);
        }
        let sums = Sums::of(sessions);
        let (closed, now) = (self.closed, Numbers::of_book(&self.book));
        if !sums.add_up(self.before, closed, now) {
            return Err(missing);
        }
        self.closed = Numbers {
            calls: closed.calls + sums.calls as u64,
            nominations: closed.nominations + sums.nominations as u64,
            dekatherms: closed.dekatherms + sums.dekatherms as u64,
        };
        self.live = 0;
        Ok((sums.nominations as u64, sums.dekatherms as u64))
    }

    /// Makes one step of the book by an event, and the receipt of it. It asks for a note of the board, which knows the
    /// posting of an accepted publish afterwards, knew none of that cycle before, and goes on knowing what it knew.
    ///
    /// # Errors
    ///
    /// Want of memory, after which the book is as before. What the book refuses for any other reason stands in the receipt.
    pub fn step_in(
        &mut self,
        event: Event,
        board: &Board,
        note: &mut BoardNote,
    ) -> Result<Receipt, AllocError>
        requires { note.old.cells ≡ board.now }
        ensures own { IsDayOf J.days self.old.slot self.old.book.day }
        ensures history { IsHistoryOf self.old.book.day self.old.book.history }
        ensures asked { IfOk result (λ receipt. (receipt.slot ≡ self.old.slot) × (receipt.event ≡ event)) }
        ensures told { IfOk result (λ receipt. Tells self.old.book.day self.old.book.history event
            receipt.told self.new.book.history) }
        ensures err { OnErr result (self.new.book ≡ self.old.book) }
        ensures kept { (self.new.slot ≡ self.old.slot) × (self.new.live ≡ self.old.live)
            × (self.new.before ≡ self.old.before) × (self.new.closed ≡ self.old.closed) }
        ensures day { self.new.book.day ≡ self.old.book.day }
        ensures board { note.new.cells ≡ note.old.cells }
        ensures posted { IfOk result (λ receipt. PostsWhere self.old.book.day self.old.book.history
            (known_of note.old (cycle_of self.old.book.history))
            (known_of note.new (cycle_of self.old.book.history)) event receipt.told) }
        ensures stays { StaysKnown note.old note.new }
    {
        let length = self.book.history().len() as u64;
        let mine = event.try_clone(self.alloc)?;
        let answer = make_call(&mut self.book, event, board, note);
        let told = told_of(length, answer)?;
        Ok(Receipt {
            slot: self.slot,
            event: mine,
            told,
        })
    }

    /// Freezes at a moment by one step, and hands out the question that is frozen then, if there is one: that of this
    /// freeze, or of one that stood already.
    ///
    /// # Errors
    ///
    /// Want of memory. The freeze may have been accepted all the same, where the memory was wanted for the question; its
    /// receipt is lost then.
    pub fn freeze_in(
        &mut self,
        moment: Moment,
        board: &Board,
        note: &mut BoardNote,
    ) -> Result<(Receipt, Option<Question>), AllocError>
        requires { note.old.cells ≡ board.now }
        ensures own { IsDayOf J.days self.old.slot self.old.book.day }
        ensures history { IsHistoryOf self.old.book.day self.old.book.history }
        ensures asked { IfOk result (λ both. (both.0.slot ≡ self.old.slot) × (both.0.event ≡ event.Freeze moment)) }
        ensures told { IfOk result (λ both. Tells self.old.book.day self.old.book.history (event.Freeze moment)
            both.0.told self.new.book.history) }
        ensures frozen { IfOk result (λ both. MatchOption both.1 (is_frozen self.new.book.history ≡ false)
            (λ asked. (is_frozen self.new.book.history ≡ true)
            × (asked ≡ question self.new.book.day self.new.book.history))) }
        ensures err { OnErr result (IsFrozenAtMost self.old.book.day self.old.book.history moment self.new.book.history) }
        ensures kept { (self.new.slot ≡ self.old.slot) × (self.new.live ≡ self.old.live)
            × (self.new.before ≡ self.old.before) × (self.new.closed ≡ self.old.closed) }
        ensures day { self.new.book.day ≡ self.old.book.day }
        ensures board { note.new.cells ≡ note.old.cells }
        ensures stays { StaysKnown note.old note.new }
    {
        let froze = self.step_in(Event::Freeze { moment }, board, note)?;
        let asked = match self.book.frozen() {
            Some(question) => Some(question.try_clone(self.alloc)?),
            None => None,
        };
        Ok((froze, asked))
    }
}
