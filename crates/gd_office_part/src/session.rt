//! Slots, and sessions that call the book of one slot in any thread.

ghost use Rattle.std.specs.Prelude.{◌≡◌, ◌-◌, ◌≤◌, Some, length as len_of, IfOk, IfErr, OnErr};
ghost use Rattle.std.specs.Sync.Mutex.{mutex_guard_value};
ghost use Rattle.gd_machine.specs.declared.event.Event.TheVariants as event;
ghost use Rattle.gd_office_part.specs.declared.session.OfficeFault.TheVariants as fault;
ghost use Rattle.gd_office_part.specs.Calls.{event_of};
ghost use Rattle.gd_office_part.specs.Counting.{none, counted};
ghost use Rattle.gd_office_part.specs.Days.{IsDayOf};
ghost use Rattle.gd_office_part.specs.Names.{office_fault_name};
ghost use Rattle.gd_office_part.specs.StepResults.{Stepped};

use crate::call::Call;
use crate::days::Days;
use crate::kept::{Kept, Receipt, Told};
use crate::numbers::Numbers;
use gd_board::Board;
use gd_book::Book;
use gd_lines::LineKey;
use gd_system::Element;
use gd_units::{Dth, End, Moment, Name};
use std::alloc::{AllocError, Global};
use std::fmt;
use std::marker::Model;
use std::sync::{Mutex, MutexGuard, Wait};

/// Why a session can't be opened. It is printed by its name.
#[derive(Clone, Copy, Debug, PartialEq, Eq, Drop)]
pub enum OfficeFault {
    /// There is no slot of this number.
    UnknownSlot,
    /// The slot has 1,024 open sessions already.
    TooMany,
}

impl fmt::Display for OfficeFault {
    ghost output = { λ f. Some (office_fault_name f) };

    fn fmt<W: fmt::Write>(&self, f: &mut fmt::Formatter<W>) -> fmt::Result {
        match self {
            OfficeFault::UnknownSlot => f.write_str("UnknownSlot"),
            OfficeFault::TooMany => f.write_str("TooMany"),
        }
    }
}

/// A book under its lock, and the board on which it publishes.
///
/// A contract sees its number and the cells of the board.
#[derive(Drop)]
pub struct Slot<J: Days> {
    number: u32,
    kept: Mutex<Kept<J>>,
    board: Board,
}

impl<J: Days> Model for Slot<J> {
    ghost use Rattle.gd_office_part.specs.Seen.{Slot as Seen};

    ghost Value = { Seen };

    ghost view = { λ s. record { number = s.number; board = s.board } };
}

/// A party's calls to the book of one slot, and what was accepted of them.
///
/// A contract sees the slot's number, the party and what was accepted.
#[derive(Drop)]
pub struct Session<'o, J: Days> {
    slot: &'o Slot<J>,
    number: u32,
    party: Name,
    numbers: Numbers,
    ghost own: { number ≡ slot.now.number },
}

impl<'o, J: Days> Model for Session<'o, J> {
    ghost use Rattle.gd_office_part.specs.Seen.{Session as Seen};

    ghost Value = { Seen };

    ghost view = { λ s. record { number = s.number; party = s.party; numbers = s.numbers } };
}

impl<J: Days> Slot<J> {
    ghost use Rattle.gd_office_part.specs.Closing.{total_of};

    /// The slot of this number, with a board on which nothing is posted yet.
    pub fn new(alloc: Global, number: u32, book: Book) -> Slot<J>
        requires { IsDayOf J.days number book.day }
        ensures { result.number ≡ number }
    {
        Slot {
            number,
            kept: Mutex::new(Kept::of(alloc, number, book)),
            board: Board::new(alloc),
        }
    }

    /// The number of the slot.
    pub fn number(&self) -> u32
        ensures { result ≡ self.now.number }
    {
        self.number
    }

    /// The book of this slot, whose lock it waits for and holds.
    ///
    /// No contract can say what stands behind a lock, so that the number of the book's slot is compared here. It never
    /// differs; where it did, this would wait for ever.
    pub fn lock<R: Wait>(&self, rt: &R) -> MutexGuard<'_, Kept<J>>
        ensures { (mutex_guard_value result).slot ≡ self.now.number }
    {
        for _ in rt.forever() {
            let kept = self.kept.lock(rt);
            if kept.slot() == self.number {
                return kept;
            }
        }
        unreachable!()
    }

    /// The board, which is read without the lock.
    pub fn board(&self) -> &Board
        ensures { result.now ≡ self.now.board }
    {
        &self.board
    }

    /// Opens a session of this party, of which nothing is accepted yet. It waits for the lock.
    ///
    /// # Errors
    ///
    /// `TooMany` where 1,024 sessions of the slot are open.
    pub fn session<R: Wait>(&self, rt: &R, party: Name) -> Result<Session<'_, J>, OfficeFault>
        ensures slot { IfOk result (λ session. session.number ≡ self.now.number) }
        ensures party { IfOk result (λ session. session.party ≡ party) }
        ensures numbers { IfOk result (λ session. session.numbers ≡ none) }
        ensures err { IfErr result (λ why. why ≡ fault.TooMany) }
    {
        self.lock(rt).count_session()?;
        Ok(Session {
            slot: self,
            number: self.number,
            party,
            numbers: Numbers::none(),
        })
    }

    /// Closes the open sessions of the slot, as [`Kept::close_in`] does it, and tells how many of their nominations were
    /// accepted, and their dekatherms together. It waits for the lock.
    ///
    /// # Errors
    ///
    /// How many of the open sessions are not among these. 0 stands for sums that differ from what the book gained, or for
    /// sessions of another slot.
    pub fn close<R: Wait>(&self, rt: &R, sessions: &[Session<'_, J>]) -> Result<(u64, u64), u64>
        ensures sums { IfOk result (λ sums. (sums.0 ≡ (total_of sessions.now).nominations)
            × (sums.1 ≡ (total_of sessions.now).dekatherms)) }
        ensures missing { IfErr result (λ missing. missing ≤ 1024 - len_of sessions.now) }
    {
        self.lock(rt).close_in(sessions)
    }
}

/// Makes a call of this party by one step of a book, whose lock is held: its receipt, and a session's numbers after it. The
/// only error is want of memory, or numbers of 2^64; then nothing was accepted.
pub(crate) fn step_by<J: Days>(
    kept: &mut Kept<J>,
    board: &Board,
    numbers: Numbers,
    party: Name,
    call: Call,
) -> Result<(Receipt, Numbers), AllocError>
    ensures event { IfOk result (λ both. both.0.event ≡ event_of party call) }
    ensures stepped { IfOk result (λ both. Stepped J.days kept.old.slot both.0) }
    ensures numbers { IfOk result (λ both. both.1 ≡ counted numbers both.0.event both.0.told) }
    ensures slot { kept.new.slot ≡ kept.old.slot }
{
    let event = call.event(party);
    let Some(next) = numbers.checked_add(Numbers::of_event(&event)) else {
        return Err(AllocError);
    };
    let mut note = board.note();
    let receipt = kept.step_in(event, board, &mut note)?;
    let after = match receipt.told() {
        Told::Accepted(..) => next,
        Told::Refused(..) => numbers,
    };
    Ok((receipt, after))
}

impl<'o, J: Days> Session<'o, J> {
    ghost use Rattle.gd_office_part.specs.Sending.{kept_of};

    /// What was accepted of its calls.
    pub fn numbers(&self) -> Numbers
        ensures { result ≡ self.now.numbers }
    {
        self.numbers
    }

    /// The number of its slot.
    pub fn slot(&self) -> u32
        ensures { result ≡ self.now.number }
    {
        self.number
    }

    /// Who makes its calls.
    pub fn party(&self) -> Name
        ensures { result ≡ self.now.party }
    {
        self.party
    }

    /// Has counted so much from now on.
    pub(crate) fn count(&mut self, numbers: Numbers)
        ensures numbers { self.new.numbers ≡ numbers }
        ensures kept { kept_of self.new ≡ kept_of self.old }
    {
        self.numbers = numbers;
    }

    /// Makes a call, and counts it where it is accepted.
    fn call<R: Wait>(&mut self, rt: &R, call: Call) -> Result<Receipt, AllocError>
        ensures event { IfOk result (λ receipt. receipt.event ≡ event_of self.old.party call) }
        ensures stepped { IfOk result (Stepped J.days self.old.number) }
        ensures numbers { IfOk result (λ receipt. self.new.numbers
            ≡ counted self.old.numbers receipt.event receipt.told) }
        ensures err { OnErr result (self.new.numbers ≡ self.old.numbers) }
        ensures kept { (self.new.number ≡ self.old.number) × (self.new.party ≡ self.old.party) }
    {
        let slot = self.slot;
        let mut kept = slot.lock(rt);
        let (receipt, next) = step_by(&mut kept, slot.board(), self.numbers, self.party, call)?;
        self.numbers = next;
        Ok(receipt)
    }

    /// Nominates a quantity on a line. It waits for the lock.
    ///
    /// # Errors
    ///
    /// Want of memory, after which the session is as before. A refusal stands in the receipt.
    pub fn nominate<R: Wait>(
        &mut self,
        rt: &R,
        moment: Moment,
        key: LineKey,
        quantity: Dth,
    ) -> Result<Receipt, AllocError>
        ensures event { IfOk result (λ receipt. receipt.event
            ≡ event.Nominate moment self.old.party key quantity) }
        ensures stepped { IfOk result (Stepped J.days self.old.number) }
        ensures numbers { IfOk result (λ receipt. self.new.numbers
            ≡ counted self.old.numbers receipt.event receipt.told) }
        ensures err { OnErr result (self.new.numbers ≡ self.old.numbers) }
        ensures kept { (self.new.number ≡ self.old.number) × (self.new.party ≡ self.old.party) }
    {
        self.call(
            rt,
            Call::Nominate {
                moment,
                key,
                quantity,
            },
        )
    }

    /// Confirms a quantity at one end of a line. It waits for the lock.
    ///
    /// # Errors
    ///
    /// Want of memory, after which the session is as before. A refusal stands in the receipt.
    pub fn respond<R: Wait>(
        &mut self,
        rt: &R,
        moment: Moment,
        line: u32,
        end: End,
        quantity: Dth,
    ) -> Result<Receipt, AllocError>
        ensures event { IfOk result (λ receipt. receipt.event
            ≡ event.Respond moment self.old.party line end quantity) }
        ensures stepped { IfOk result (Stepped J.days self.old.number) }
        ensures numbers { IfOk result (λ receipt. self.new.numbers
            ≡ counted self.old.numbers receipt.event receipt.told) }
        ensures err { OnErr result (self.new.numbers ≡ self.old.numbers) }
        ensures kept { (self.new.number ≡ self.old.number) × (self.new.party ≡ self.old.party) }
    {
        self.call(
            rt,
            Call::Respond {
                moment,
                line,
                end,
                quantity,
            },
        )
    }

    /// Posts the most that may pass a segment or a point from now on. It waits for the lock.
    ///
    /// # Errors
    ///
    /// Want of memory, after which the session is as before. A refusal stands in the receipt.
    pub fn post_capacity<R: Wait>(
        &mut self,
        rt: &R,
        moment: Moment,
        element: Element,
        capacity: Dth,
    ) -> Result<Receipt, AllocError>
        ensures event { IfOk result (λ receipt. receipt.event ≡ event.PostCapacity moment element capacity) }
        ensures stepped { IfOk result (Stepped J.days self.old.number) }
        ensures numbers { IfOk result (λ receipt. self.new.numbers
            ≡ counted self.old.numbers receipt.event receipt.told) }
        ensures err { OnErr result (self.new.numbers ≡ self.old.numbers) }
        ensures kept { (self.new.number ≡ self.old.number) × (self.new.party ≡ self.old.party) }
    {
        self.call(
            rt,
            Call::PostCapacity {
                moment,
                element,
                capacity,
            },
        )
    }
}
