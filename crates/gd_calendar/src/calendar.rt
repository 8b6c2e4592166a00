//! Calendars: when the marks of a gas day's cycles fall due.

ghost use Rattle.std.specs.Prelude.{◌≡◌, ℕ, ◌+◌, ◌*◌, ◌<◌, ◌≤◌, ◌↔◌, IsTrue, IfOk, length};
ghost use Rattle.gd_rules.specs.GasDay as gas_day;
ghost use Rattle.gd_rules.specs.GasDay.Mark.{Received, Confirmed, Effective};
ghost use Rattle.gd_calendar.specs.Calendar as spec;
ghost use Rattle.gd_calendar.specs.Calendar.{due, received_times, IsCalendar};
ghost use Rattle.gd_calendar.specs.Mark.{mark_of};

use gd_units::{CycleNo, Moment};
use std::alloc::{AllocError, Global};
use std::marker::Model;

/// What falls due in a cycle (NAESB WGQ 1.3.2).
#[derive(Clone, Copy, Debug, PartialEq, Eq)]
pub enum Mark {
    /// Nominations leave the shipper.
    Leaves,
    /// The pipeline has received them.
    Received,
    /// It has sent its quick response.
    Quick,
    /// It has received the confirmations of both ends.
    Confirmed,
    /// Shippers and operators have received the scheduled quantities.
    Schedules,
    /// The scheduled quantities begin to flow.
    Effective,
}

/// When the marks of a gas day's five cycles fall due (NAESB WGQ 1.3.2).
///
/// A contract sees the moments of the 29 civil times, in order of the clock.
#[derive(Debug, Drop)]
pub struct Calendar {
    moments: Vec<Moment>,
}

impl Model for Calendar {
    ghost use Rattle.std.specs.Prelude.{List, ℕ};

    ghost Value = { List ℕ };

    ghost use Rattle.gd_calendar.specs.Calendar.{IsCalendar};

    ghost view = { λ c. c.moments.items };

    ghost invariant = { λ c. IsCalendar c.moments.items };
}

/// Where the marks of the cycles stand among the civil times, from 0.
const PLACES: [[usize; 6]; CycleNo::COUNT] = [
    [0, 1, 2, 3, 4, 10],
    [5, 6, 7, 8, 9, 10],
    [11, 12, 13, 14, 15, 16],
    [17, 18, 19, 20, 21, 22],
    [23, 24, 25, 26, 27, 27],
];

/// How many civil times a gas day has.
const TIMES: usize = 29;

/// Where the gas day starts.
const START: usize = 10;

/// Where it ends.
const FINISH: usize = 28;

/// Where Intraday 1 takes effect.
const INTRADAY_1: usize = 16;

/// Where Intraday 2 takes effect.
const INTRADAY_2: usize = 22;

/// Where Intraday 3 takes effect.
const INTRADAY_3: usize = 27;

/// Where the mark of the cycle stands.
fn place(cycle: CycleNo, mark: Mark) -> usize
    ensures is { result ≡ gas_day.place (gas_day.civil_time cycle (mark_of mark)) }
    ensures bound { result < 29 }
{
    let row = cycle.number() as usize - 1;
    let [leaves, received, quick, confirmed, schedules, effective] = PLACES[row];
    match mark {
        Mark::Leaves => leaves,
        Mark::Received => received,
        Mark::Quick => quick,
        Mark::Confirmed => confirmed,
        Mark::Schedules => schedules,
        Mark::Effective => effective,
    }
}

/// The seconds of the moment.
fn seconds(moment: Moment) -> u64
    ensures is { result ≡ moment }
    ensures bound { result ≤ Moment.MAX }
{
    moment.seconds() as u64
}

/// Whether the second moment lies this many hours after the first.
fn is_hours_after(first: Moment, second: Moment, hours: u8) -> bool
    ensures { IsTrue result ↔ (second ≡ first + 3600 * hours) }
{
    seconds(second) == seconds(first) + 3600 * u64::from(hours)
}

/// Whether each moment lies before the next.
fn rises(moments: &[Moment]) -> bool
    ensures { IsTrue result ↔ spec.Rises moments.now }
{
    for i in 1..moments.len() {
        if moments[i] <= moments[i - 1] {
            return false;
        }
    }
    true
}

/// Whether the Intraday cycles take effect 5, 9 and 13 hours after the start.
fn is_elapsed(moments: &[Moment]) -> bool
    requires { length moments.now ≡ 29 }
    ensures { IsTrue result ↔ spec.IsElapsed moments.now }
{
    let start = moments[START];
    if !is_hours_after(start, moments[INTRADAY_1], 5) {
        return false;
    }
    if !is_hours_after(start, moments[INTRADAY_2], 9) {
        return false;
    }
    is_hours_after(start, moments[INTRADAY_3], 13)
}

/// Whether the gas day has 23, 24 or 25 hours.
fn has_length(moments: &[Moment]) -> bool
    requires { length moments.now ≡ 29 }
    ensures { IsTrue result ↔ spec.HasLength moments.now }
{
    let start = moments[START];
    let finish = moments[FINISH];
    for hours in 23..26 {
        if is_hours_after(start, finish, hours) {
            return true;
        }
    }
    false
}

/// Whether these are the moments of a calendar.
fn is_calendar(moments: &[Moment]) -> bool
    requires { length moments.now ≡ 29 }
    ensures { IsTrue result ↔ IsCalendar moments.now }
{
    if !rises(moments) {
        return false;
    }
    if !is_elapsed(moments) {
        return false;
    }
    has_length(moments)
}

impl Calendar {
    /// Whether these are the moments of a calendar: 29 that rise, by which the Intraday cycles take effect 5, 9 and 13 whole
    /// hours after the start of the gas day, and which has 23, 24 or 25 whole hours.
    pub fn is_of(moments: &[Moment]) -> bool
        ensures { IsTrue result ↔ IsCalendar moments.now }
    {
        if moments.len() != TIMES {
            return false;
        }
        is_calendar(moments)
    }

    /// The calendar of these moments. The only error is want of memory.
    pub fn of(alloc: Global, moments: &[Moment]) -> Result<Calendar, AllocError>
        requires { IsCalendar moments.now }
        ensures { IfOk result (λ calendar. calendar ≡ moments.now) }
    {
        let moments = Vec::from_slice(alloc, moments)?;
        Ok(Calendar { moments })
    }

    /// Another calendar of the same moments. The only error is want of memory.
    pub fn try_clone(&self, alloc: Global) -> Result<Calendar, AllocError>
        ensures { IfOk result (λ copy. copy ≡ self.now) }
    {
        let moments = Vec::from_slice(alloc, &self.moments)?;
        Ok(Calendar { moments })
    }

    /// What holds of every calendar.
    pub fn known(&self)
        ensures calendar { IsCalendar self.now }
        ensures confirmed_after_received { (cycle : ℕ) → 1 ≤ cycle → cycle ≤ 5
            → due self.now cycle Received < due self.now cycle Confirmed }
        ensures received_rise { (cycle : ℕ) → 1 ≤ cycle → cycle < 5
            → due self.now cycle Received < due self.now (cycle + 1) Received }
        ensures elapsed_whole { (cycle : ℕ) → 1 ≤ cycle → cycle ≤ 5
            → due self.now cycle Effective ≡ spec.start self.now + 3600 * gas_day.hours_over cycle }
    {
        let _ = &self.moments;
    }

    /// The moment at which the mark of the cycle falls due.
    pub fn time(&self, cycle: CycleNo, mark: Mark) -> Moment
        ensures { result ≡ due self.now cycle (mark_of mark) }
    {
        self.moments[place(cycle, mark)]
    }

    /// The first cycle whose received time is not before the moment, or `None` after the last of them.
    pub fn cycle_of(&self, moment: Moment) -> Option<CycleNo>
        ensures { result ≡ gas_day.cycle_of (received_times self.now) moment }
    {
        for cycle in CycleNo::ALL {
            if moment <= self.time(cycle, Mark::Received) {
                return Some(cycle);
            }
        }
        None
    }

    /// The moment until which confirmations of the cycle are taken: its Confirmed time.
    pub fn deadline(&self, cycle: CycleNo) -> Moment
        ensures { result ≡ due self.now cycle Confirmed }
    {
        self.time(cycle, Mark::Confirmed)
    }

    /// The length of the gas day in hours: 23, 24 or 25.
    pub fn hours(&self) -> u8
        ensures is { result ≡ spec.hours self.now }
        ensures whole { spec.finish self.now ≡ spec.start self.now + 3600 * result }
        ensures bounds { (23 ≤ result) × (result ≤ 25) }
    {
        let length = seconds(self.moments[FINISH]) - seconds(self.moments[START]);
        (length / 3600) as u8
    }

    /// The moment at which the gas day ends, and the next one starts.
    pub fn finish(&self) -> Moment
        ensures { result ≡ spec.finish self.now }
    {
        self.moments[FINISH]
    }

    /// How many hours of the gas day are over when the cycle takes effect: 0, 0, 5, 9 or 13.
    pub fn elapsed(&self, cycle: CycleNo) -> u8
        ensures is { result ≡ gas_day.hours_over cycle }
        ensures whole { due self.now cycle Effective ≡ spec.start self.now + 3600 * result }
        ensures bound { result ≤ 13 }
    {
        // The elapsed hours are the same in every calendar; the read is for the proof that they are.
        let _ = &self.moments;
        match cycle.number() {
            3 => 5,
            4 => 9,
            5 => 13,
            _ => 0,
        }
    }
}
