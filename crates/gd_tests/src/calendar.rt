//! The gas day 2026-03-08 by the clock of CST and CDT, which changes on that day.

use gd_calendar::Calendar;
use gd_units::{CycleNo, Moment};
use gd_zone::GasDay;
use jiff::civil::date;
use jiff::tz::TimeZone;
use std::alloc::Global;
use std::process::Abort;
use std::test::Fail;

fn worked_day(alloc: Global) -> Result<Calendar, Fail> {
    let day = GasDay::new(date(2026, 3, 8))?;
    let zone = TimeZone::posix("CST6CDT,M3.2.0,M11.1.0")?;
    let calendar = day.calendar(alloc, &zone)?;
    Ok(calendar)
}

/// The received time of a cycle is in time for it, and a second later is not.
fn shows_cycles(rt: &impl Abort, calendar: &Calendar) {
    for (seconds, number) in [
        (1772910900, Some(1)),
        (1772910901, Some(2)),
        (1773015300, Some(5)),
        (1773015301, None),
    ] {
        let moment = Moment::new(seconds).expect(rt, "a moment");
        let cycle = calendar.cycle_of(moment);
        assert_eq!(rt; cycle.map(|cycle| cycle.number()), number);
    }
}

fn shows_deadlines(rt: &impl Abort, calendar: &Calendar) {
    for (number, deadline) in [(1, 1772922600), (4, 1773007200)] {
        let cycle = CycleNo::new(number).expect(rt, "a cycle");
        assert_eq!(rt; calendar.deadline(cycle).seconds(), deadline);
    }
}

/// The program makes no copy, and asks neither for deadlines nor for the cycle of a moment.
#[test]
fn a_copy_of_the_worked_day(rt: HostRuntime) -> Result<(), Fail> {
    let copy = worked_day(rt.alloc())?.try_clone(rt.alloc())?;
    shows_cycles(&rt, &copy);
    shows_deadlines(&rt, &copy);
    Ok(())
}
