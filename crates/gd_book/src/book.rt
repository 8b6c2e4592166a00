//! The book.

ghost use Rattle.std.specs.Prelude.{◌≡◌, ℕ, [], ◌≤◌, None, true, false, length as len_of, take, IfOk, IfErr, OnOk};
ghost use Rattle.std.specs.Option.{MatchOption};
ghost use Rattle.gd_board.specs.Known.{StaysKnown, known_of};
ghost use Rattle.gd_machine.specs.History.{cycle_of, is_frozen};
ghost use Rattle.gd_machine.specs.Sessions.{session_calls};
ghost use Rattle.gd_machine.specs.Asking.{accepted, question};
ghost use Rattle.gd_machine.specs.Headline.{Holds};
ghost use Rattle.gd_machine.specs.Machine.{IsLegal, AllPass, refusal_of, reply_of, Passes};
ghost use Rattle.gd_machine.specs.Steps.{Step};
ghost use Rattle.gd_machine.specs.declared.event.Event.TheVariants as event;
ghost use Rattle.gd_book_part.specs.Names.{ExplainsOpen};
ghost use Rattle.gd_book.specs.Postings.{AllPosted, IsPosted};

use crate::ledger::Ledger;
use crate::replay::Replay;
use gd_board::{Board, BoardNote};
use gd_book_part::{OpenFault, Opening};
use gd_calendar::Calendar;
use gd_certificate::{Checked, Cut};
use gd_contracts::Contracts;
use gd_lines::LineKey;
use gd_machine::{Event, Refusal, Reply};
use gd_question::Question;
use gd_system::{Element, System};
use gd_units::{Dth, End, Moment, Name, Round};
use std::alloc::{AllocError, Global};
use std::marker::Model;

/// The book of one gas day: its opening values, and the accepted events with their replies.
///
/// A contract sees both.
#[derive(Drop)]
pub struct Book {
    alloc: Global,
    ledger: Ledger,
}

impl Model for Book {
    ghost use Rattle.gd_book.specs.Kept.{Kept, IsKept};

    ghost Value = { Kept };

    ghost view = { λ b. record { day = b.ledger.opening; history = b.ledger.history.items } };

    ghost invariant = { λ b. IsKept b.ledger };
}

impl Book {
    /// A book of this name, with no event: one pipeline, one gas day. `carry` has what lines were last scheduled the day
    /// before; a carried line that is never nominated has no effect.
    ///
    /// # Errors
    ///
    /// `Duplicate`, with the position from 0 of the first line that is carried over twice, and else `OutOfMemory`. What was
    /// handed in is dropped.
    pub fn open(
        alloc: Global,
        name: Name,
        contracts: Contracts,
        calendar: Calendar,
        carry: Vec<(LineKey, Dth)>,
    ) -> Result<Book, OpenFault>
        ensures ok { IfOk result (λ book. book ≡ record {
          day = record { name = name; holdings = contracts; moments = calendar; carry = carry.items };
          history = [];
        }) }
        ensures err { IfErr result (ExplainsOpen carry.items) }
    {
        let opening = Opening::new(alloc, name, contracts, calendar, carry)?;
        let ledger = Ledger::new(alloc, opening)?;
        Ok(Book { alloc, ledger })
    }

    /// Makes a call that takes no posting.
    fn step(&mut self, event: Event) -> Result<Reply, Refusal>
        requires { Passes event }
        ensures step { Step self.old.day self.old.history event result self.new.history }
        ensures day { self.new.day ≡ self.old.day }
    {
        self.ledger.step(self.alloc, event)
    }

    /// A shipper nominates a quantity on a line, for the first cycle whose received time is not before the stamp
    /// (NAESB WGQ 1.3.2).
    ///
    /// # Errors
    ///
    /// In this order: `DayClosed`, `UnknownContract`, `NotShipper`, those of the route, `OverContract`, `TooManyLines`,
    /// `TooManyEvents`, `OutOfMemory`. After each the book is as before.
    pub fn nominate(
        &mut self,
        moment: Moment,
        party: Name,
        key: LineKey,
        quantity: Dth,
    ) -> Result<Reply, Refusal>
        ensures step { Step self.old.day self.old.history
            (event.Nominate moment party key quantity) result self.new.history }
        ensures day { self.new.day ≡ self.old.day }
    {
        self.step(Event::Nominate {
            moment,
            party,
            key,
            quantity,
        })
    }

    /// An operator confirms a quantity at one end of a line, for the current cycle. A second response of an end replaces
    /// the first.
    ///
    /// # Errors
    ///
    /// In this order: `AllSettled`, `Frozen`, `UnknownLine`, `NotOperator`, `TooManyEvents`, `OutOfMemory`.
    pub fn respond(
        &mut self,
        moment: Moment,
        party: Name,
        line: u32,
        end: End,
        quantity: Dth,
    ) -> Result<Reply, Refusal>
        ensures step { Step self.old.day self.old.history
            (event.Respond moment party line end quantity) result self.new.history }
        ensures day { self.new.day ≡ self.old.day }
    {
        self.step(Event::Respond {
            moment,
            party,
            line,
            end,
            quantity,
        })
    }

    /// From now on this is the most that may pass a segment or a point.
    ///
    /// # Errors
    ///
    /// In this order: `AllSettled`, `Frozen`, `UnknownElement`, `IsPool`, `TooManyEvents`, `OutOfMemory`.
    pub fn post_capacity(
        &mut self,
        moment: Moment,
        element: Element,
        capacity: Dth,
    ) -> Result<Reply, Refusal>
        ensures step { Step self.old.day self.old.history
            (event.PostCapacity moment element capacity) result self.new.history }
        ensures day { self.new.day ≡ self.old.day }
    {
        self.step(Event::PostCapacity {
            moment,
            element,
            capacity,
        })
    }

    /// Closes the current cycle and asks its question.
    ///
    /// # Errors
    ///
    /// In this order: `AllSettled`, `Frozen`, `TooEarly`, `TooManyEvents`, `OutOfMemory`.
    pub fn freeze(&mut self, moment: Moment) -> Result<Reply, Refusal>
        ensures step { Step self.old.day self.old.history
            (event.Freeze moment) result self.new.history }
        ensures day { self.new.day ≡ self.old.day }
    {
        self.step(Event::Freeze { moment })
    }

    /// Publishes a best schedule of the frozen question, which ends the cycle, and posts it on the board. It takes the round
    /// from the question, and checks nothing of the certificate, whose type keeps that it passed. It asks for a note of the
    /// board, which knows the posting afterwards, knew none of that cycle before, and goes on knowing what it knew.
    ///
    /// # Errors
    ///
    /// In this order: `NotFrozen`, `StaleRound`, `OtherQuestion`, `TooManyEvents`, `OutOfMemory`, and `BoardTaken` where
    /// somebody else posted on the board for this cycle. After each the book is as before.
    pub fn publish(
        &mut self,
        moment: Moment,
        certificate: Checked,
        board: &Board,
        note: &mut BoardNote,
    ) -> Result<Reply, Refusal>
        requires { note.old.cells ≡ board.now }
        ensures step { Step self.old.day self.old.history
            (event.Publish moment certificate) result self.new.history }
        ensures day { self.new.day ≡ self.old.day }
        ensures board { note.new.cells ≡ note.old.cells }
        ensures posted { OnOk result (IsPosted self.old.day self.old.history certificate
            (known_of note.new (cycle_of self.old.history))) }
        ensures stays { StaysKnown note.old note.new }
        ensures fresh { OnOk result (known_of note.old (cycle_of self.old.history) ≡ None) }
        ensures all_posted { AllPosted self.old.day self.old.history note.old
            → AllPosted self.old.day self.new.history note.new }
    {
        certificate.known();
        let event = Event::Publish {
            moment,
            certificate,
        };
        self.ledger.publish(self.alloc, event, board, note)
    }

    /// Declares that the frozen question of this round has no allowed schedule, as the cut shows. The cycle is open again.
    ///
    /// # Errors
    ///
    /// In this order: `NotFrozen`, `StaleRound`, `NoCutProof`, `TooManyEvents`, `OutOfMemory`.
    pub fn declare(&mut self, moment: Moment, round: Round, cut: Cut) -> Result<Reply, Refusal>
        ensures step { Step self.old.day self.old.history
            (event.Declare moment round cut) result self.new.history }
        ensures day { self.new.day ≡ self.old.day }
    {
        self.step(Event::Declare { moment, round, cut })
    }

    /// A line gives up its protection in the current cycle, after a declared cut (own).
    ///
    /// # Errors
    ///
    /// In this order: `AllSettled`, `Frozen`, `NoCut`, `UnknownLine`, `TooManyEvents`, `OutOfMemory`.
    pub fn waive(&mut self, moment: Moment, line: u32) -> Result<Reply, Refusal>
        ensures step { Step self.old.day self.old.history
            (event.Waive moment line) result self.new.history }
        ensures day { self.new.day ≡ self.old.day }
    {
        self.step(Event::Waive { moment, line })
    }

    /// Ends the current cycle after a declared cut; the former schedule stays in effect (own).
    ///
    /// # Errors
    ///
    /// In this order: `AllSettled`, `Frozen`, `NoCut`, `TooManyEvents`, `OutOfMemory`.
    pub fn skip(&mut self, moment: Moment) -> Result<Reply, Refusal>
        ensures step { Step self.old.day self.old.history
            (event.Skip moment) result self.new.history }
        ensures day { self.new.day ≡ self.old.day }
    {
        self.step(Event::Skip { moment })
    }

    /// The book's name.
    pub fn name(&self) -> Name
        ensures { result ≡ self.now.day.name }
    {
        self.ledger.opening.name()
    }

    /// The pipeline of the book.
    pub fn system(&self) -> &System
        ensures { result.now ≡ self.now.day.holdings.pipeline }
    {
        self.ledger.opening.contracts().system()
    }

    /// When the marks of its gas day's cycles fall due.
    pub fn calendar(&self) -> &Calendar
        ensures { result.now ≡ self.now.day.moments }
    {
        self.ledger.opening.calendar()
    }

    /// The frozen question, if the cycle is frozen.
    pub fn frozen(&self) -> Option<&Question>
        ensures { MatchOption result (is_frozen self.now.history ≡ false)
            (λ asked. (is_frozen self.now.history ≡ true)
            × (asked.now ≡ question self.now.day self.now.history)) }
    {
        self.ledger.tables.frozen()
    }

    /// How many nominations were accepted, and their dekatherms together.
    pub fn accepted(&self) -> (u64, u64)
        ensures { result ≡ accepted self.now.day self.now.history }
    {
        self.ledger.tables.accepted()
    }

    /// How many nominations, responses and capacities were accepted: the calls of sessions.
    pub fn session_calls(&self) -> u64
        ensures { result ≡ session_calls self.now.history }
    {
        self.ledger.tables.calls()
    }

    /// The accepted events with their replies, the first one first.
    ///
    /// Each schedule that was published is allowed and best for the question of its frozen cycle; where a cycle was
    /// declared impossible no schedule is allowed, and Timely never was; each accepted nomination is counted in exactly one
    /// cycle (`holds`).
    pub fn history(&self) -> &[(Event, Reply)]
        ensures is { result.now ≡ self.now.history }
        ensures legal { IsLegal self.now.day self.now.history }
        ensures passed { AllPass self.now.history }
        ensures holds { Holds self.now.day self.now.history }
    {
        self.ledger.history.as_slice()
    }

    /// A walk along the history, from its beginning.
    pub fn replay(&self) -> Result<Replay<'_>, AllocError>
        ensures { IfOk result (λ replay. replay
            ≡ record { day = self.now.day; history = self.now.history; at = 0 }) }
    {
        Replay::of(self.alloc, &self.ledger.opening, &self.ledger.history)
    }

    /// The first refusal of an event after the first `length` events of the history, a board that is taken aside; a walk to
    /// that place. The only error is want of memory.
    pub fn refusal_at(&self, length: usize, event: &Event) -> Result<Option<Refusal>, AllocError>
        requires { length ≤ len_of self.now.history }
        ensures { IfOk result (λ refusal. refusal
            ≡ refusal_of self.now.day (take length self.now.history) event.now) }
    {
        let mut replay = self.replay()?;
        match replay.go_to(length) {
            Ok(()) => {
                let refusal = replay.refusal(event);
                drop(replay);
                Ok(refusal)
            }
            Err(fault) => {
                drop(replay);
                Err(fault)
            }
        }
    }
}
