//! A book with the board that its postings go to.

ghost use Rattle.std.specs.Prelude.{◌≡◌, ℕ, true, false, Ok, IfOk, OnOk, length};
ghost use Rattle.std.specs.Option.{MatchOption};
ghost use Rattle.gd_machine.specs.History.{is_frozen, round_of};
ghost use Rattle.gd_machine.specs.Asking.{question};
ghost use Rattle.gd_machine.specs.Headline.{Holds};
ghost use Rattle.gd_day.specs.Groups.{Passes};
ghost use Rattle.gd_course.specs.Course.{RowGives};
ghost use Rattle.gd_live.specs.Lines.{Concludes, IsAcceptable};

use crate::acceptance::{names_cut, offers_best};
use gd_board::{Board, BoardNote};
use gd_book::{Book, Event, MAX_EVENTS, Replay, Reply as BookReply};
use gd_calendar::Calendar;
use gd_course::call;
use gd_day::check_call;
use gd_question::Question;
use gd_replies::Reply;
use gd_system::System;
use gd_text_part::{EventRow, Row};
use gd_units::Name;
use std::alloc::{AllocError, Global};
use std::marker::Model;
use std::thread::Threads;

/// A book with the board that its postings go to.
///
/// A contract sees the book.
#[derive(Drop)]
pub(crate) struct PostedBook {
    book: Book,
    board: Board,
    note: BoardNote,
}

impl Model for PostedBook {
    ghost use Rattle.std.specs.Prelude.{◌≡◌};
    ghost use Rattle.gd_book.specs.Kept.{Kept};

    ghost Value = { Kept };

    ghost view = { λ b. b.book };

    ghost invariant = { λ b. b.note.cells ≡ b.board };
}

impl PostedBook {
    /// A book with a board of its own.
    pub(crate) fn new(alloc: Global, book: Book) -> PostedBook
        ensures { result ≡ book }
    {
        let board = Board::new(alloc);
        let note = board.note();
        PostedBook { book, board, note }
    }

    /// The pipeline of the book.
    pub(crate) fn system(&self) -> &System
        ensures { result.now ≡ self.now.day.holdings.pipeline }
    {
        self.book.system()
    }

    /// The name of the book.
    pub(crate) fn name(&self) -> Name
        ensures { result ≡ self.now.day.name }
    {
        self.book.name()
    }

    /// The accepted events with their replies, of which the headline holds.
    pub(crate) fn history(&self) -> &[(Event, BookReply)]
        ensures is { result.now ≡ self.now.history }
        ensures holds { Holds self.now.day self.now.history }
    {
        self.book.history()
    }

    /// A walk along the history, from its beginning.
    pub(crate) fn replay(&self) -> Result<Replay<'_>, AllocError>
        ensures { IfOk result (λ replay. replay
            ≡ record { day = self.now.day; history = self.now.history; at = 0 }) }
    {
        self.book.replay()
    }

    /// The frozen question, if the cycle is frozen.
    pub(crate) fn frozen(&self) -> Option<&Question>
        ensures { MatchOption result (is_frozen self.now.history ≡ false)
            (λ asked. (is_frozen self.now.history ≡ true)
            × (asked.now ≡ question self.now.day self.now.history)) }
    {
        self.book.frozen()
    }

    /// The calendar of the gas day.
    pub(crate) fn calendar(&self) -> &Calendar
        ensures { result.now ≡ self.now.day.moments }
    {
        self.book.calendar()
    }

    /// How many events were accepted.
    pub(crate) fn event_count(&self) -> usize
        ensures { result ≡ length self.now.history }
    {
        self.book.history().len()
    }

    /// Whether a call that publishes or declares the frozen question would be accepted, made now with these rows before it.
    pub(crate) fn accepts(
        &self,
        alloc: Global,
        group: &[Row],
        event: EventRow,
    ) -> Result<bool, AllocError>
        requires { (moment : ℕ) × Concludes moment (round_of self.now.history) event }
        ensures { result ≡ Ok true → IsAcceptable self.now.day self.now.history group.now event }
    {
        let Some(question) = self.frozen() else {
            return Ok(false);
        };
        if self.event_count() >= MAX_EVENTS
            || check_call(alloc, question.system(), 1, group).is_err()
        {
            return Ok(false);
        }
        match event {
            EventRow::Publish { .. } => offers_best(alloc, question, group),
            EventRow::Declare { .. } => names_cut(alloc, question, group),
            _ => Ok(false),
        }
    }

    /// Makes the call of a row with the rows of its group before it, and tells it. After the error, which is want of memory,
    /// the history may have grown.
    pub(crate) fn call(
        &mut self,
        rt: &(impl Threads + Sync),
        alloc: Global,
        group: &[Row],
        event: EventRow,
    ) -> Result<Vec<Reply>, AllocError>
        requires { Passes self.old.day.holdings.pipeline group.now }
        ensures gives { IfOk result
            (λ rows. RowGives self.old.day self.old.history group.now event rows.items self.new.history) }
        ensures day { self.new.day ≡ self.old.day }
        // It changed nothing if there are as many events.
        ensures stays { OnOk result (length self.new.history ≡ length self.old.history → self.new ≡ self.old) }
    {
        call(
            rt,
            alloc,
            &mut self.book,
            &self.board,
            &mut self.note,
            group,
            event,
        )
    }
}
