//! Where the lines of a live run are taken.

ghost use Rattle.std.specs.Prelude.{◌≡◌, IfOk};
ghost use Rattle.gd_machine.specs.Headline.{Holds};
ghost use Rattle.gd_live.specs.Stands.{no_group};
ghost use Rattle.gd_live.specs.Seen.{at_desk};

use crate::live_book::LiveBook;
use crate::room::Room;
use gd_book::{Book, Event, Replay, Reply};
use gd_calendar::Calendar;
use gd_serving::{Given, TakesLines};
use gd_units::Name;
use std::alloc::{AllocError, Global};
use std::thread::Threads;

/// The book of a gas day, whose rows come line by line.
#[derive(Drop)]
pub struct Desk {
    alloc: Global,
    book: LiveBook,
}

impl Desk {
    /// A desk on this book behind so many rows, where so much may still be kept.
    pub fn new(alloc: Global, book: Book, number: u64, room: Room) -> Desk
        ensures { at_desk result ≡ record {
          day = book.day;
          history = book.history;
          group = no_group;
          number = number;
          room = room;
        } }
    {
        Desk {
            alloc,
            book: LiveBook::new(alloc, book, number, room),
        }
    }

    /// The name of the book.
    pub fn name(&self) -> Name
        ensures { result ≡ (at_desk self.now).day.name }
    {
        self.book.name()
    }

    /// The accepted events with their replies, the first one first, of which the headline holds.
    pub fn history(&self) -> &[(Event, Reply)]
        ensures is { result.now ≡ (at_desk self.now).history }
        ensures holds { Holds (at_desk self.now).day (at_desk self.now).history }
    {
        self.book.history()
    }

    /// The calendar of the gas day.
    pub fn calendar(&self) -> &Calendar
        ensures { result.now ≡ (at_desk self.now).day.moments }
    {
        self.book.calendar()
    }

    /// A walk along the history, from its beginning. The only error is want of memory.
    pub fn replay(&self) -> Result<Replay<'_>, AllocError>
        ensures { IfOk result (λ replay. replay ≡ record {
          day = (at_desk self.now).day;
          history = (at_desk self.now).history;
          at = 0;
        }) }
    {
        self.book.replay()
    }

    /// A new run begins behind so many rows: rows that wait are dropped.
    pub fn begin_run(&mut self, number: u64)
        ensures { at_desk self.new ≡ record {
          day = (at_desk self.old).day;
          history = (at_desk self.old).history;
          group = no_group;
          number = number;
          room = (at_desk self.old).room;
        } }
    {
        self.book.begin_run(number);
    }
}

impl TakesLines for Desk {
    ghost use Rattle.gd_live.specs.Lines.{Gives};
    ghost use Rattle.gd_live.specs.Seen.{at_desk};

    ghost gives = { λ s line t yield. Gives (at_desk s) line (at_desk t) yield };

    fn take_line<T: Threads + Sync>(
        &mut self,
        rt: &T,
        line: &[u8],
        given: &mut Given,
    ) -> Result<(), AllocError> {
        self.book.take_line(rt, self.alloc, line, given)
    }
}
