//! What a gas day came to.

ghost use Rattle.std.specs.Prelude.{◌≡◌};
ghost use Rattle.gd_rounds.specs.Summaries as spec;

use gd_book::{Book, Event, Reply as BookReply};
use gd_calendar::{Calendar, Mark};
use gd_replies::Reply;
use gd_units::CycleNo;

/// What a gas day came to.
#[derive(Clone, Copy, Debug, PartialEq, Eq, Drop)]
pub struct Summary {
    /// The cycles of which a schedule was published.
    pub published: usize,
    /// How often a frozen question was shown to have no allowed schedule.
    pub declared: usize,
    /// The cycles that were skipped.
    pub skipped: usize,
    /// The cycles that were never frozen.
    pub unreached: usize,
    /// The freezes that came when their cycle was in effect already.
    pub late: usize,
    /// The calls that were made when the gas day was over.
    pub beyond: usize,
    /// The calls that were refused.
    pub refused: usize,
}

impl Summary {
    /// What rows tell alone: that calls were refused.
    pub fn of_rows(rows: &[Reply]) -> Summary
        ensures { result ≡ spec.of_rows rows.now }
    {
        Summary {
            published: 0,
            declared: 0,
            skipped: 0,
            unreached: 0,
            late: 0,
            beyond: 0,
            refused: refused(rows),
        }
    }

    /// What two gas days came to together. A number that would be above the greatest one is that one.
    pub fn and(self, other: Summary) -> Summary
        ensures { result ≡ spec.both self other }
    {
        Summary {
            published: self.published.saturating_add(other.published),
            declared: self.declared.saturating_add(other.declared),
            skipped: self.skipped.saturating_add(other.skipped),
            unreached: self.unreached.saturating_add(other.unreached),
            late: self.late.saturating_add(other.late),
            beyond: self.beyond.saturating_add(other.beyond),
            refused: self.refused.saturating_add(other.refused),
        }
    }

    /// Whether no call was refused, no question was shown to have no allowed schedule, and no freeze and no call came too late.
    pub fn is_in_order(&self) -> bool
        ensures { result ≡ spec.is_in_order self.now }
    {
        self.refused == 0 && self.declared == 0 && self.late == 0 && self.beyond == 0
    }
}

/// How a call that was accepted came later than it can have been meant.
#[derive(Clone, Copy, Debug, PartialEq, Eq)]
pub struct Lateness {
    /// It froze a cycle that was in effect already.
    pub is_late: bool,
    /// It was made when the gas day was over.
    pub is_beyond: bool,
}

/// How an event of a gas day's history came too late, if it did.
pub fn lateness_of(calendar: &Calendar, event: &(Event, BookReply)) -> Lateness
    ensures { result ≡ spec.lateness_of calendar.now event.now }
{
    Lateness {
        is_late: is_counted(Counted::Late, calendar, &event.0, &event.1),
        is_beyond: is_counted(Counted::Beyond, calendar, &event.0, &event.1),
    }
}

/// What is counted in a history.
#[derive(Clone, Copy)]
enum Counted {
    Published,
    Declared,
    Skipped,
    Late,
    Beyond,
}

/// Whether a freeze came when its cycle was in effect already.
fn is_late(calendar: &Calendar, event: &Event, reply: &BookReply) -> bool
    ensures { result ≡ spec.is_late calendar.now (event.now, reply.now) }
{
    match (event, reply) {
        (Event::Freeze { moment }, BookReply::Frozen { cycle, .. }) => {
            calendar.time(*cycle, Mark::Effective) <= *moment
        }
        _ => false,
    }
}

/// Whether an event is counted as this.
fn is_counted(counted: Counted, calendar: &Calendar, event: &Event, reply: &BookReply) -> bool
    ensures { result ≡ spec.is_counted counted calendar.now (event.now, reply.now) }
{
    match counted {
        Counted::Published => matches!(event, Event::Publish { .. }),
        Counted::Declared => matches!(event, Event::Declare { .. }),
        Counted::Skipped => matches!(event, Event::Skip { .. }),
        Counted::Late => is_late(calendar, event, reply),
        Counted::Beyond => calendar.finish() <= event.moment(),
    }
}

/// How many events of a history are counted as this.
fn count(counted: Counted, calendar: &Calendar, history: &[(Event, BookReply)]) -> usize
    ensures { result ≡ spec.count counted calendar.now history.now }
{
    let mut count = 0;
    'events: for event in history {
        if is_counted(counted, calendar, &event.0, &event.1) {
            count += 1;
        }
    }
    count
}

/// The cycle that was frozen, 0 where none was.
fn frozen_cycle(reply: &BookReply) -> u8
    ensures { result ≡ spec.frozen_cycle reply.now }
{
    match reply {
        BookReply::Frozen { cycle, .. } => cycle.number(),
        _ => 0,
    }
}

/// The last cycle that was frozen, 0 where none was.
fn reached(history: &[(Event, BookReply)]) -> u8
    ensures { result ≡ spec.reached history.now }
{
    let mut reached = 0;
    'events: for event in history {
        reached = reached.max(frozen_cycle(&event.1));
    }
    reached
}

/// Whether a row tells that a call was refused, a publish for its certificate among them.
fn is_refused(row: &Reply) -> bool
    ensures { result ≡ spec.is_refused row.now }
{
    match row {
        Reply::Refused(..) | Reply::ReceiptRefused { .. } => true,
        Reply::UncertifiedShape(_) => true,
        Reply::UncertifiedLine(..) => true,
        Reply::UncertifiedElement(..) => true,
        _ => false,
    }
}

/// How many rows tell that a call was refused.
fn refused(rows: &[Reply]) -> usize
    ensures { result ≡ spec.refused rows.now }
{
    let mut count = 0;
    'rows: for row in rows {
        if is_refused(row) {
            count += 1;
        }
    }
    count
}

/// What a gas day came to, by the history of its book, and by the rows that told of its calls.
pub fn summary_of(book: &Book, rows: &[Reply]) -> Summary
    ensures { result ≡ spec.summary_of book.now.day.moments book.now.history rows.now }
{
    let (calendar, history) = (book.calendar(), book.history());
    Summary {
        published: count(Counted::Published, calendar, history),
        declared: count(Counted::Declared, calendar, history),
        skipped: count(Counted::Skipped, calendar, history),
        unreached: CycleNo::COUNT.saturating_sub(reached(history) as usize),
        late: count(Counted::Late, calendar, history),
        beyond: count(Counted::Beyond, calendar, history),
        refused: refused(rows),
    }
}
