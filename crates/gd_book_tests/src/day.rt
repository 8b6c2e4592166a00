//! A gas day on one segment S1 from A to B of 100, with a receipt point R1 at A and a delivery point D1 at B.

use gd_book::Book;
use gd_calendar::Calendar;
use gd_contracts::{Contract, Contracts, Service};
use gd_lines::LineKey;
use gd_system::{Kind, System, SystemBuilder};
use gd_units::{Band, CycleNo, Dth, Moment, Name, Round};
use gd_zone::GasDay;
use jiff::civil::date;
use jiff::tz::TimeZone;
use std::alloc::Global;
use std::process::Abort;

/// The value of a result. A fault ends the test.
pub(crate) fn made<T, E>(rt: &impl Abort, made: Result<T, E>) -> T {
    match made {
        Ok(value) => value,
        Err(_) => panic!(rt; "a fault"),
    }
}

pub(crate) fn name(rt: &impl Abort, text: &str) -> Name {
    Name::read(text).expect(rt, "a name")
}

pub(crate) fn dth(rt: &impl Abort, number: u64) -> Dth {
    Dth::new(number).expect(rt, "a quantity")
}

pub(crate) fn at(rt: &impl Abort, seconds: i64) -> Moment {
    Moment::new(seconds).expect(rt, "a moment")
}

pub(crate) fn cycle(rt: &impl Abort, number: u8) -> CycleNo {
    CycleNo::new(number).expect(rt, "a cycle")
}

pub(crate) fn round(rt: &impl Abort, number: u32) -> Round {
    Round::new(number).expect(rt, "a round")
}

/// The line of a contract in a package from R1 to D1.
pub(crate) fn line(rt: &impl Abort, contract: &str, package: &str) -> LineKey {
    LineKey {
        contract: name(rt, contract),
        package: name(rt, package),
        origin: name(rt, "R1"),
        dest: name(rt, "D1"),
    }
}

fn add_segment(rt: &impl Abort, builder: &mut SystemBuilder) {
    let (from, to) = (name(rt, "A"), name(rt, "B"));
    let added = builder.segment(name(rt, "S1"), from, to, dth(rt, 100));
    assert!(rt; added.is_ok());
}

/// Adds a point of 1000.
fn add_point(
    rt: &impl Abort,
    builder: &mut SystemBuilder,
    text: &str,
    kind: Kind,
    place: &str,
    operator: &str,
) {
    let (place, operator) = (name(rt, place), name(rt, operator));
    let added = builder.point(name(rt, text), kind, place, operator, dth(rt, 1000));
    assert!(rt; added.is_ok());
}

fn add_elements(rt: &impl Abort, builder: &mut SystemBuilder) {
    add_segment(rt, builder);
    add_point(rt, builder, "R1", Kind::Receipt, "A", "OPR");
    add_point(rt, builder, "D1", Kind::Delivery, "B", "OPD");
}

pub(crate) fn pipeline(rt: &impl Abort, alloc: Global) -> System {
    let mut builder = SystemBuilder::new(alloc);
    add_elements(rt, &mut builder);
    made(rt, builder.finish())
}

/// Adds a contract of 100.
fn add_contract(rt: &impl Abort, contracts: &mut Contracts, text: &str, service: Service) {
    let added = contracts.add(Contract {
        name: name(rt, text),
        shipper: name(rt, "SHIP"),
        quantity: dth(rt, 100),
        service,
    });
    assert!(rt; added.is_ok());
}

/// From R1 to D1.
fn firm(rt: &impl Abort) -> Service {
    Service::Firm {
        origin: name(rt, "R1"),
        dest: name(rt, "D1"),
    }
}

fn interruptible(rt: &impl Abort) -> Service {
    Service::Interruptible {
        band: Band::new(1).expect(rt, "a band"),
    }
}

/// A firm contract FIRM and an interruptible one INT.
fn contracts(rt: &impl Abort, alloc: Global) -> Contracts {
    let mut contracts = Contracts::new(alloc, pipeline(rt, alloc));
    add_contract(rt, &mut contracts, "FIRM", firm(rt));
    add_contract(rt, &mut contracts, "INT", interruptible(rt));
    contracts
}

fn gas_day(rt: &impl Abort) -> GasDay {
    made(rt, GasDay::new(date(2026, 3, 8)))
}

fn calendar(rt: &impl Abort, alloc: Global) -> Calendar {
    let zone = made(rt, TimeZone::posix("CST6CDT,M3.2.0,M11.1.0"));
    made(rt, gas_day(rt).calendar(alloc, &zone))
}

/// 80 of a line of FIRM in package C, the day before.
fn carried(rt: &impl Abort, alloc: Global) -> Vec<(LineKey, Dth)> {
    let carried = Vec::from_slice(alloc, &[(line(rt, "FIRM", "C"), dth(rt, 80))]);
    carried.expect(rt, "memory")
}

/// A book of this name with both contracts on the gas day 2026-03-08, which these lines are carried over to.
pub(crate) fn opened(
    rt: &impl Abort,
    alloc: Global,
    text: &str,
    carried: Vec<(LineKey, Dth)>,
) -> Book {
    let (contracts, calendar) = (contracts(rt, alloc), calendar(rt, alloc));
    made(
        rt,
        Book::open(alloc, name(rt, text), contracts, calendar, carried),
    )
}

/// The same, with 80 of a line of FIRM in package C.
pub(crate) fn book(rt: &impl Abort, alloc: Global, text: &str) -> Book {
    opened(rt, alloc, text, carried(rt, alloc))
}
