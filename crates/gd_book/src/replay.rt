//! A walk along a history.

ghost use Rattle.std.specs.Prelude.{◌≡◌, ◌+◌, ◌<◌, ◌≤◌, true, false, length, take, IfOk, OnOk, OnErr};
ghost use Rattle.std.specs.Option.{MatchOption};
ghost use Rattle.gd_machine.specs.Asking.{question};
ghost use Rattle.gd_machine.specs.History.{is_frozen};
ghost use Rattle.gd_machine.specs.Machine.{refusal_of, IsLegal, AllPass};

use gd_book_part::{Opening, Tables};
use gd_machine::{Event, Refusal, Reply};
use gd_question::Question;
use std::alloc::{AllocError, Global};
use std::marker::Model;

/// A walk along the history of a book, with the machine's tables after its first events.
///
/// A contract sees the opening values, the history, and how many of its events are behind.
#[derive(Drop)]
pub struct Replay<'b> {
    alloc: Global,
    opening: &'b Opening,
    history: &'b [(Event, Reply)],
    tables: Tables,
    at: usize,
}

impl<'b> Model for Replay<'b> {
    ghost use Rattle.gd_book.specs.Replay.{Place, AreReplayed};

    ghost Value = { Place };

    ghost view = { λ r. record { day = r.opening.now; history = r.history.now; at = r.at } };

    ghost invariant = { λ r. AreReplayed r.opening.now r.tables r.history.now r.at };
}

impl<'b> Replay<'b> {
    /// At the beginning of a history.
    pub(crate) fn of(
        alloc: Global,
        opening: &'b Opening,
        history: &'b [(Event, Reply)],
    ) -> Result<Replay<'b>, AllocError>
        requires legal { IsLegal opening.now history.now }
        requires passed { AllPass history.now }
        ensures { IfOk result (λ replay. replay
            ≡ record { day = opening.now; history = history.now; at = 0 }) }
    {
        opening.known();
        let tables = Tables::new(alloc, opening)?;
        Ok(Replay {
            alloc,
            opening,
            history,
            tables,
            at: 0,
        })
    }

    /// Goes on by one event.
    fn go_on(&mut self) -> Result<(), AllocError>
        requires within { self.old.at < length self.old.history }
        ensures day { self.new.day ≡ self.old.day }
        ensures history { self.new.history ≡ self.old.history }
        ensures at { OnOk result (self.new.at ≡ self.old.at + 1) }
        ensures stays { OnErr result (self.new.at ≡ self.old.at) }
    {
        let (opening, history, at) = (self.opening, self.history, self.at);
        match self
            .tables
            .apply(self.alloc, opening, &history[..at], &history[at].0)
        {
            Ok(()) => {
                self.at = at + 1;
                Ok(())
            }
            Err(_) => Err(AllocError),
        }
    }

    /// Goes on to a place, which is not behind. The only error is want of memory.
    pub fn go_to(&mut self, place: usize) -> Result<(), AllocError>
        requires ahead { self.old.at ≤ place }
        requires within { place ≤ length self.old.history }
        ensures day { self.new.day ≡ self.old.day }
        ensures history { self.new.history ≡ self.old.history }
        ensures at { OnOk result (self.new.at ≡ place) }
    {
        for _ in self.at..place {
            self.go_on()?;
        }
        Ok(())
    }

    /// The history of the book, all of it: each event is the machine's accepted step, and each certificate passed the check.
    pub fn history(&self) -> &'b [(Event, Reply)]
        ensures is { result.now ≡ self.now.history }
        ensures legal { IsLegal self.now.day self.now.history }
        ensures passed { AllPass self.now.history }
    {
        self.history
    }

    /// The frozen question, if the cycle is frozen after the events behind the place.
    pub fn frozen(&self) -> Option<&Question>
        ensures { MatchOption result (is_frozen (take self.now.at self.now.history) ≡ false)
            (λ asked. (is_frozen (take self.now.at self.now.history) ≡ true)
            × (asked.now ≡ question self.now.day (take self.now.at self.now.history))) }
    {
        self.tables.frozen()
    }

    /// The first refusal of an event after the events behind the place. It needs no memory.
    pub fn refusal(&self, event: &Event) -> Option<Refusal>
        ensures { result ≡ refusal_of self.now.day (take self.now.at self.now.history) event.now }
    {
        self.tables
            .refusal(self.opening, &self.history[..self.at], event)
    }
}
