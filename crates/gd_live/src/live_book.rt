//! What a line does to a book.

ghost use Rattle.std.specs.Prelude.{◌≡◌, ◌≢◌, ◌≤◌, ◌+◌, ℕ, List, [], ◌∷◌, true, false, Ok, OnOk, Some, length, IfOk};
ghost use Rattle.gd_text_part.specs.declared.order.Place.{Place as APlace};
ghost use Rattle.gd_text_part.specs.declared.row.EventRow.TheVariants as event_row;
ghost use Rattle.gd_text_part.specs.declared.row.Row.TheVariants as row;
ghost use Rattle.gd_day.specs.Groups.{Passes};
ghost use Rattle.gd_machine.specs.Headline.{Holds};
ghost use Rattle.gd_serving.specs.Seen.{seen};
ghost use Rattle.gd_serving.specs.Yields.{Yield, Adds};
ghost use Rattle.gd_live.specs.Stands.{IsGroup, no_group};
ghost use Rattle.gd_live.specs.Lines as spec;
ghost use Rattle.gd_live.specs.Seen.{stand_of};

use crate::book::PostedBook;
use crate::calls::{keep, tell};
use crate::conclusion::{Conclusion, conclusion_of};
use crate::group::Group;
use crate::room::Room;
use gd_book::{Book, Event, Replay, Reply as BookReply};
use gd_calendar::Calendar;
use gd_day::{check_call, event_of};
use gd_replies::Reply;
use gd_serving::Given;
use gd_text_part::{EventRow, LinePlace, Row, TextFault, bare};
use gd_units::{Moment, Name};
use std::alloc::{AllocError, Global};
use std::thread::Threads;

/// A book whose rows come line by line.
#[derive(Drop)]
pub(crate) struct LiveBook {
    book: PostedBook,
    group: Group,
    number: u64,
    room: Room,
}

impl LiveBook {
    /// A book behind its opening, which has so many rows, where a text may still have so much.
    pub(crate) fn new(alloc: Global, book: Book, number: u64, room: Room) -> LiveBook
        ensures { stand_of result ≡ record {
          day = book.day;
          history = book.history;
          group = no_group;
          number = number;
          room = room;
        } }
    {
        LiveBook {
            book: PostedBook::new(alloc, book),
            group: Group::new(alloc),
            number,
            room,
        }
    }

    /// The name of the book.
    pub(crate) fn name(&self) -> Name
        ensures { result ≡ self.now.book.day.name }
    {
        self.book.name()
    }

    /// The accepted events with their replies, of which the headline holds.
    pub(crate) fn history(&self) -> &[(Event, BookReply)]
        ensures is { result.now ≡ self.now.book.history }
        ensures holds { Holds self.now.book.day self.now.book.history }
    {
        self.book.history()
    }

    /// The calendar of the gas day.
    pub(crate) fn calendar(&self) -> &Calendar
        ensures { result.now ≡ self.now.book.day.moments }
    {
        self.book.calendar()
    }

    /// A walk along the history, from its beginning.
    pub(crate) fn replay(&self) -> Result<Replay<'_>, AllocError>
        ensures { IfOk result (λ replay. replay
            ≡ record { day = self.now.book.day; history = self.now.book.history; at = 0 }) }
    {
        self.book.replay()
    }

    /// A new run begins behind so many rows.
    pub(crate) fn begin_run(&mut self, number: u64)
        ensures { stand_of self.new ≡ spec.numbered (spec.cleared (stand_of self.old)) number }
    {
        self.group.clear();
        self.number = number;
    }

    /// A faulty row is told, and drops the rows that wait.
    fn refuse(&mut self, alloc: Global, told: Reply, given: &mut Given) -> Result<(), AllocError>
        ensures stand { stand_of self.new ≡ spec.cleared (stand_of self.old) }
        ensures given { OnOk result (Adds (seen given.old) (seen given.new) (spec.only_told (told ∷ []))) }
    {
        self.group.clear();
        tell(alloc, told, given)
    }

    /// A fault of a text is told likewise, other than want of memory.
    fn refuse_as(
        &mut self,
        alloc: Global,
        fault: TextFault,
        given: &mut Given,
    ) -> Result<(), AllocError>
        ensures memory { OnOk result (fault ≢ TextFault.OutOfMemory) }
        ensures stand { OnOk result (stand_of self.new ≡ spec.cleared (stand_of self.old)) }
        ensures given { OnOk result (Adds (seen given.old) (seen given.new)
            (spec.only_told (Reply.Fault fault ∷ []))) }
    {
        if let TextFault::OutOfMemory = fault {
            return Err(AllocError);
        }
        self.refuse(alloc, Reply::Fault(fault), given)
    }

    /// Makes the call of a row as it came, behind which so much may still be kept. A settle that is accepted isn't kept so.
    fn make(
        &mut self,
        rt: &(impl Threads + Sync),
        alloc: Global,
        line: &[u8],
        event: EventRow,
        room: Room,
        given: &mut Given,
    ) -> Result<(), AllocError>
        requires passes { Passes self.old.book.day.holdings.pipeline self.old.group.rows }
        requires room { spec.IsLess self.old.group line.now self.old.room room }
        ensures made { OnOk result ((more : Yield) × spec.IsMade (stand_of self.old) self.old.group line.now event (stand_of self.new) more
            × Adds (seen given.old) (seen given.new) more) }
        ensures settle { OnOk result (spec.IsSettle event → self.new.book.history ≡ self.old.book.history) }
    {
        let settles = matches!(event, EventRow::Settle { .. });
        let before = self.book.event_count();
        let told = self.book.call(rt, alloc, self.group.rows(), event)?;
        if settles && self.book.event_count() != before {
            drop(told);
            return Err(AllocError);
        }
        keep(alloc, &self.group, line, told, given)?;
        self.group.clear();
        self.room = room;
        Ok(())
    }

    /// Makes the call to which the frozen cycle comes, and answers whether it was accepted; behind it so much may still be
    /// kept. Where it wasn't, nothing was kept or told.
    fn conclude(
        &mut self,
        rt: &(impl Threads + Sync),
        alloc: Global,
        conclusion: &Conclusion,
        room: Room,
        given: &mut Given,
    ) -> Result<bool, AllocError>
        requires conclusion { (moment : ℕ) × spec.IsConclusion self.old.book.day self.old.book.history moment
            conclusion.now.group conclusion.now.line.items conclusion.now.event }
        requires room { spec.IsLess conclusion.now.group conclusion.now.line.items self.old.room room }
        ensures made { result ≡ Ok true → (more : Yield)
            × spec.IsMade (stand_of self.old) conclusion.now.group conclusion.now.line.items conclusion.now.event (stand_of self.new) more
            × Adds (seen given.old) (seen given.new) more }
        ensures grew { result ≡ Ok true → self.new.book.history ≢ self.old.book.history }
        ensures not { result ≡ Ok false → (self.new ≡ self.old) × (given.new ≡ given.old) }
    {
        let group = conclusion.group.rows();
        if check_call(alloc, self.book.system(), 1, group).is_err() {
            return Err(AllocError);
        }
        let before = self.book.event_count();
        let told = self.book.call(rt, alloc, group, conclusion.event)?;
        if self.book.event_count() == before {
            drop(told);
            return Ok(false);
        }
        let line = conclusion.line.as_slice();
        keep(alloc, &conclusion.group, line, told, given)?;
        self.group.clear();
        self.room = room;
        Ok(true)
    }

    /// Settles the frozen cycle, where there is no room for what it comes to: that is told if the book would accept it.
    fn settle_without_room(
        &mut self,
        rt: &(impl Threads + Sync),
        alloc: Global,
        line: &[u8],
        moment: Moment,
        room: Room,
        conclusion: Conclusion,
        given: &mut Given,
    ) -> Result<(), AllocError>
        requires passes { Passes self.old.book.day.holdings.pipeline self.old.group.rows }
        requires room { spec.IsLess self.old.group line.now self.old.room room }
        requires is { (place : APlace) × spec.IsRow (stand_of self.old) line.now (row.Event (event_row.Settle moment)) place }
        requires has_room { spec.HasRoom self.old.room self.old.group line.now }
        requires conclusion { spec.IsConclusion self.old.book.day self.old.book.history moment
            conclusion.group conclusion.line.items conclusion.event }
        requires full { ¬ (spec.HasRoom self.old.room conclusion.group conclusion.line.items) }
        ensures { OnOk result ((more : Yield) × spec.RowDoes (stand_of self.old) line.now (stand_of self.new) more
            × Adds (seen given.old) (seen given.new) more) }
    {
        let accepted = self
            .book
            .accepts(alloc, conclusion.group.rows(), conclusion.event);
        drop(conclusion);
        if accepted? {
            return self.refuse(alloc, Reply::Full(self.number), given);
        }
        self.make(rt, alloc, line, EventRow::Settle { moment }, room, given)
    }

    /// Settles the frozen cycle, of which it is known what it comes to: that is kept in the place of the row.
    fn settle_as(
        &mut self,
        rt: &(impl Threads + Sync),
        alloc: Global,
        line: &[u8],
        moment: Moment,
        room: Room,
        conclusion: Conclusion,
        given: &mut Given,
    ) -> Result<(), AllocError>
        requires passes { Passes self.old.book.day.holdings.pipeline self.old.group.rows }
        requires room { spec.IsLess self.old.group line.now self.old.room room }
        requires is { (place : APlace) × spec.IsRow (stand_of self.old) line.now (row.Event (event_row.Settle moment)) place }
        requires has_room { spec.HasRoom self.old.room self.old.group line.now }
        requires conclusion { spec.IsConclusion self.old.book.day self.old.book.history moment conclusion.group
            conclusion.line.items conclusion.event }
        ensures { OnOk result ((more : Yield) × spec.RowDoes (stand_of self.old) line.now (stand_of self.new) more
            × Adds (seen given.old) (seen given.new) more) }
    {
        let Some(left) = self
            .room
            .without(&conclusion.group, conclusion.line.as_slice())
        else {
            return self.settle_without_room(rt, alloc, line, moment, room, conclusion, given);
        };
        let concluded = self.conclude(rt, alloc, &conclusion, left, given);
        drop(conclusion);
        if concluded? {
            return Ok(());
        }
        self.make(rt, alloc, line, EventRow::Settle { moment }, room, given)
    }

    /// Settles the current cycle, if it is frozen.
    fn settle(
        &mut self,
        rt: &(impl Threads + Sync),
        alloc: Global,
        line: &[u8],
        moment: Moment,
        room: Room,
        given: &mut Given,
    ) -> Result<(), AllocError>
        requires passes { Passes self.old.book.day.holdings.pipeline self.old.group.rows }
        requires room { spec.IsLess self.old.group line.now self.old.room room }
        requires is { (place : APlace) × spec.IsRow (stand_of self.old) line.now (row.Event (event_row.Settle moment)) place }
        requires has_room { spec.HasRoom self.old.room self.old.group line.now }
        ensures { OnOk result ((more : Yield) × spec.RowDoes (stand_of self.old) line.now (stand_of self.new) more
            × Adds (seen given.old) (seen given.new) more) }
    {
        let Some(question) = self.book.frozen() else {
            return self.make(rt, alloc, line, EventRow::Settle { moment }, room, given);
        };
        let conclusion = conclusion_of(alloc, &self.book, question, moment)?;
        self.settle_as(rt, alloc, line, moment, room, conclusion, given)
    }

    /// Makes the call of a row, whose group can be made.
    fn take_passed(
        &mut self,
        rt: &(impl Threads + Sync),
        alloc: Global,
        line: &[u8],
        event: EventRow,
        room: Room,
        given: &mut Given,
    ) -> Result<(), AllocError>
        requires passes { Passes self.old.book.day.holdings.pipeline self.old.group.rows }
        requires room { spec.IsLess self.old.group line.now self.old.room room }
        requires is { (place : APlace) × spec.IsRow (stand_of self.old) line.now (row.Event event) place }
        requires has_room { spec.HasRoom self.old.room self.old.group line.now }
        ensures { OnOk result ((more : Yield) × spec.RowDoes (stand_of self.old) line.now (stand_of self.new) more
            × Adds (seen given.old) (seen given.new) more) }
    {
        match event {
            EventRow::Settle { moment } => self.settle(rt, alloc, line, moment, room, given),
            _ => self.make(rt, alloc, line, event, room, given),
        }
    }

    /// Takes the call of a row, whose group is looked at first.
    fn take_call(
        &mut self,
        rt: &(impl Threads + Sync),
        alloc: Global,
        line: &[u8],
        event: EventRow,
        room: Room,
        given: &mut Given,
    ) -> Result<(), AllocError>
        requires room { spec.IsLess self.old.group line.now self.old.room room }
        requires is { (place : APlace) × spec.IsRow (stand_of self.old) line.now (row.Event event) place }
        requires has_room { spec.HasRoom self.old.room self.old.group line.now }
        ensures { OnOk result ((more : Yield) × spec.RowDoes (stand_of self.old) line.now (stand_of self.new) more
            × Adds (seen given.old) (seen given.new) more) }
    {
        // The group's rows are counted too, so that there is a first one.
        let waiting = self.group.rows().len() as u64;
        let first = self.number.saturating_sub(waiting);
        if first == 0 {
            return Err(AllocError);
        }
        match check_call(alloc, self.book.system(), first, self.group.rows()) {
            Ok(()) => self.take_passed(rt, alloc, line, event, room, given),
            Err(fault) => self.refuse_as(alloc, fault, given),
        }
    }

    /// Takes the row that a line is, behind which rows stand at this place.
    fn take_read(
        &mut self,
        rt: &(impl Threads + Sync),
        alloc: Global,
        line: &[u8],
        row: Row,
        place: LinePlace,
        given: &mut Given,
    ) -> Result<(), AllocError>
        requires is { spec.IsRow (stand_of self.old) line.now row place }
        ensures { OnOk result ((more : Yield) × spec.RowDoes (stand_of self.old) line.now (stand_of self.new) more
            × Adds (seen given.old) (seen given.new) more) }
    {
        let Some(room) = self.room.without(&self.group, line) else {
            drop(row);
            return self.refuse(alloc, Reply::Full(self.number), given);
        };
        let Some(event) = event_of(&row) else {
            return self.group.wait(line, row, place);
        };
        drop(row);
        self.take_call(rt, alloc, line, event, room, given)
    }

    /// Takes a line that isn't empty, as the row of this number.
    fn take_row(
        &mut self,
        rt: &(impl Threads + Sync),
        alloc: Global,
        line: &[u8],
        given: &mut Given,
    ) -> Result<(), AllocError>
        ensures { OnOk result ((more : Yield) × spec.RowDoes (stand_of self.old) line.now (stand_of self.new) more
            × Adds (seen given.old) (seen given.new) more) }
    {
        match self.group.place().line_row(alloc, self.number, line) {
            Ok((row, place)) => self.take_read(rt, alloc, line, row, place, given),
            Err(fault) => self.refuse_as(alloc, fault, given),
        }
    }

    /// What a line does that has no carriage return at its end. An empty one is told as it is.
    fn take_bare(
        &mut self,
        rt: &(impl Threads + Sync),
        alloc: Global,
        line: &[u8],
        given: &mut Given,
    ) -> Result<(), AllocError>
        ensures { OnOk result ((more : Yield) × spec.BareGives (stand_of self.old) line.now (stand_of self.new) more
            × Adds (seen given.old) (seen given.new) more) }
    {
        if line.is_empty() {
            given.told.push(b'\n')?;
            return Ok(());
        }
        let Some(number) = self.number.checked_add(1) else {
            return Err(AllocError);
        };
        self.number = number;
        self.take_row(rt, alloc, line, given)
    }

    /// What a line does. The only error is want of memory, behind which the book may be ahead of what is kept.
    pub(crate) fn take_line(
        &mut self,
        rt: &(impl Threads + Sync),
        alloc: Global,
        line: &[u8],
        given: &mut Given,
    ) -> Result<(), AllocError>
        ensures gives { OnOk result ((more : Yield) × spec.LineGives (stand_of self.old) line.now (stand_of self.new) more
            × Adds (seen given.old) (seen given.new) more) }
    {
        let plain = bare(line);
        self.take_bare(rt, alloc, plain, given)
    }
}
