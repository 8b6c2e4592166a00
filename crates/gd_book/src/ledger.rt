//! The history with its tables.

ghost use Rattle.std.specs.Prelude.{◌≡◌, ◌<◌, ◌++◌, ◌∷◌, [], None, IfOk, OnOk, OnErr, IfErr};
ghost use Rattle.std.specs.Vec.{vec_len, vec_capacity};
ghost use Rattle.gd_board.specs.Known.{StaysKnown, known_of};
ghost use Rattle.gd_machine.specs.History.{cycle_of};
ghost use Rattle.gd_machine.specs.Machine.{Passes, refusal_of, reply_of};
ghost use Rattle.gd_machine.specs.Steps.{Step, MayRefuse, IsPublish};
ghost use Rattle.gd_machine.specs.declared.event.Event.TheVariants as event;
ghost use Rattle.gd_book.specs.Kept.{IsKept};
ghost use Rattle.gd_book.specs.Postings.{AllPosted, Posts, Tells};

use gd_board::{Board, BoardNote, Posting};
use gd_book_part::{Opening, Tables};
use gd_certificate::Checked;
use gd_machine::{Event, Refusal, Reply};
use gd_units::{CycleNo, Moment};
use std::alloc::{AllocError, Global};

/// The accepted events of a gas day with their replies, and the tables that they make.
#[derive(Drop)]
pub(crate) struct Ledger {
    pub(crate) opening: Opening,
    pub(crate) tables: Tables,
    pub(crate) history: Vec<(Event, Reply)>,
}

impl Ledger {
    /// A ledger without events.
    pub(crate) fn new(alloc: Global, opening: Opening) -> Result<Ledger, AllocError>
        ensures kept { IfOk result (λ ledger. IsKept ledger) }
        ensures day { IfOk result (λ ledger. ledger.opening ≡ opening) }
        ensures empty { IfOk result (λ ledger. ledger.history.items ≡ []) }
    {
        opening.known();
        match Tables::new(alloc, &opening) {
            Ok(tables) => Ok(Ledger {
                opening,
                tables,
                history: Vec::new(alloc),
            }),
            Err(fault) => {
                drop(opening);
                Err(fault)
            }
        }
    }

    /// The first refusal of an event, or else room for it in the history.
    pub(crate) fn ready(&mut self, event: &Event) -> Result<(), Refusal>
        requires { IsKept self.old }
        ensures kept { IsKept self.new }
        ensures day { self.new.opening ≡ self.old.opening }
        ensures same { self.new.history.items ≡ self.old.history.items }
        ensures ok { OnOk result (refusal_of self.old.opening self.old.history.items event.now
            ≡ None) }
        ensures room { OnOk result (vec_len self.new.history < vec_capacity self.new.history) }
        ensures err { IfErr result
            (λ refusal. MayRefuse self.old.opening self.old.history.items event.now refusal) }
    {
        if let Some(refusal) = self.tables.refusal(&self.opening, &self.history, event) {
            return Err(refusal);
        }
        self.history.reserve(1)?;
        Ok(())
    }

    /// The reply to an accepted event, once for the history and once for the caller.
    pub(crate) fn replies(&self, alloc: Global, event: &Event) -> Result<(Reply, Reply), AllocError>
        requires kept { IsKept self.now }
        requires accepted { refusal_of self.now.opening self.now.history.items event.now ≡ None }
        ensures { IfOk result (λ both.
            (both.0 ≡ reply_of self.now.opening self.now.history.items event.now)
            × (both.1 ≡ reply_of self.now.opening self.now.history.items event.now)) }
    {
        let reply = self
            .tables
            .reply(alloc, &self.opening, &self.history, event)?;
        let told = reply.try_clone(alloc)?;
        Ok((reply, told))
    }

    /// One step of the machine.
    pub(crate) fn step(&mut self, alloc: Global, event: Event) -> Result<Reply, Refusal>
        requires kept { IsKept self.old }
        requires passed { Passes event }
        ensures kept { IsKept self.new }
        ensures day { self.new.opening ≡ self.old.opening }
        ensures step { Step self.old.opening self.old.history.items event result
            self.new.history.items }
    {
        self.ready(&event)?;
        let (reply, told) = self.replies(alloc, &event)?;
        self.tables
            .apply(alloc, &self.opening, &self.history, &event)?;
        self.history.push_reserved((event, reply));
        Ok(told)
    }

    /// What is posted of an accepted publish, and of which cycle.
    fn posting(
        &self,
        alloc: Global,
        moment: Moment,
        certificate: &Checked,
        reply: &Reply,
    ) -> Result<(CycleNo, Box<Posting>), AllocError>
        requires kept { IsKept self.now }
        requires accepted { refusal_of self.now.opening self.now.history.items
            (event.Publish moment certificate.now) ≡ None }
        requires reply { reply.now
            ≡ reply_of self.now.opening self.now.history.items
            (event.Publish moment certificate.now) }
        ensures cycle { IfOk result (λ posted. posted.0 ≡ cycle_of self.now.history.items) }
        ensures tells { IfOk result (λ posted. Tells self.now.opening self.now.history.items
            certificate.now posted.1.value) }
    {
        let _ = moment;
        let Reply::Published {
            cycle,
            round,
            bumped,
            ..
        } = reply
        else {
            unreachable!();
        };
        let question = certificate.question().try_clone(alloc)?;
        let Ok(schedule) = certificate.schedule().try_clone(alloc) else {
            drop(question);
            return Err(AllocError);
        };
        let Ok(prices) = certificate.prices().try_clone(alloc) else {
            drop(question);
            drop(schedule);
            return Err(AllocError);
        };
        let Ok(bumped) = bumped.try_clone(alloc) else {
            drop(question);
            drop(schedule);
            drop(prices);
            return Err(AllocError);
        };
        let posting = Posting {
            book: self.opening.name(),
            cycle: *cycle,
            round: *round,
            question,
            schedule,
            prices,
            bumped,
        };
        match Box::new(alloc, posting) {
            Ok(posting) => Ok((*cycle, posting)),
            Err(refused) => {
                drop(refused);
                Err(AllocError)
            }
        }
    }

    /// Enters an accepted publish, for which there is room. It can't fail.
    fn close(&mut self, event: Event, reply: Reply)
        requires kept { IsKept self.old }
        requires passed { Passes event }
        requires publish { IsPublish event }
        requires accepted { refusal_of self.old.opening self.old.history.items event ≡ None }
        requires reply { reply ≡ reply_of self.old.opening self.old.history.items event }
        requires room { vec_len self.old.history < vec_capacity self.old.history }
        ensures kept { IsKept self.new }
        ensures day { self.new.opening ≡ self.old.opening }
        ensures more { self.new.history.items ≡ self.old.history.items ++ (event, reply) ∷ [] }
    {
        let Event::Publish {
            moment,
            certificate,
        } = &event
        else {
            unreachable!();
        };
        self.tables
            .close_cycle(&self.opening, &self.history, *moment, certificate);
        self.history.push_reserved((event, reply));
    }

    /// All of an accepted publish that may be refused, and last the post on the board: the reply, once for the history and
    /// once for the caller.
    fn post(
        &mut self,
        alloc: Global,
        event: &Event,
        board: &Board,
        note: &mut BoardNote,
    ) -> Result<(Reply, Reply), Refusal>
        requires kept { IsKept self.old }
        requires publish { IsPublish event.now }
        requires board { note.old.cells ≡ board.now }
        ensures kept { IsKept self.new }
        ensures day { self.new.opening ≡ self.old.opening }
        ensures same { self.new.history.items ≡ self.old.history.items }
        ensures ok { OnOk result (refusal_of self.old.opening self.old.history.items event.now
            ≡ None) }
        ensures replies { IfOk result (λ both.
            (both.0 ≡ reply_of self.old.opening self.old.history.items event.now)
            × (both.1 ≡ reply_of self.old.opening self.old.history.items event.now)) }
        ensures room { OnOk result (vec_len self.new.history < vec_capacity self.new.history) }
        ensures err { IfErr result
            (λ refusal. MayRefuse self.old.opening self.old.history.items event.now refusal) }
        ensures board { note.new.cells ≡ note.old.cells }
        ensures posted { OnOk result (Posts self.old.opening self.old.history.items
            (known_of note.new (cycle_of self.old.history.items)) event.now) }
        ensures stays { StaysKnown note.old note.new }
        ensures fresh { OnOk result (known_of note.old (cycle_of self.old.history.items) ≡ None) }
    {
        self.ready(event)?;
        let (reply, told) = self.replies(alloc, event)?;
        let Event::Publish {
            moment,
            certificate,
        } = event
        else {
            unreachable!();
        };
        let (cycle, posting) = self.posting(alloc, *moment, certificate, &reply)?;
        if board.post(cycle, note, posting).is_err() {
            return Err(Refusal::BoardTaken);
        }
        Ok((reply, told))
    }

    /// One step of the machine with a certificate, which is posted on a board.
    pub(crate) fn publish(
        &mut self,
        alloc: Global,
        event: Event,
        board: &Board,
        note: &mut BoardNote,
    ) -> Result<Reply, Refusal>
        requires kept { IsKept self.old }
        requires passed { Passes event }
        requires publish { IsPublish event }
        requires board { note.old.cells ≡ board.now }
        ensures kept { IsKept self.new }
        ensures day { self.new.opening ≡ self.old.opening }
        ensures step { Step self.old.opening self.old.history.items event result
            self.new.history.items }
        ensures board { note.new.cells ≡ note.old.cells }
        ensures posted { OnOk result (Posts self.old.opening self.old.history.items
            (known_of note.new (cycle_of self.old.history.items)) event) }
        ensures stays { StaysKnown note.old note.new }
        ensures fresh { OnOk result (known_of note.old (cycle_of self.old.history.items) ≡ None) }
        ensures all_posted { AllPosted self.old.opening self.old.history.items note.old
            → AllPosted self.old.opening self.new.history.items note.new }
    {
        let (reply, told) = self.post(alloc, &event, board, note)?;
        self.close(event, reply);
        Ok(told)
    }
}
