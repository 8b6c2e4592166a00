//! Books on one segment S1 from A to B, with a receipt point R1 at A and a delivery point D1 at B. One party is the shipper of
//! the contract and the operator of both ends, so that one session can make every call.

use gd_book::{Book, Refusal, Reply};
use gd_calendar::Calendar;
use gd_contracts::{Contract, Contracts, Service};
use gd_lines::LineKey;
use gd_system::{Kind, System, SystemBuilder};
use gd_units::{Dth, Moment, Name};
use gd_zone::GasDay;
use jiff::civil::date;
use jiff::tz::TimeZone;
use std::alloc::{AllocError, Global};
use std::io;

/// Who makes all calls.
pub(crate) const PARTY: &str = "SHIP";

/// The contract of all lines.
pub(crate) const FIRM: &str = "FIRM";

/// Why a trial comes to no end.
#[derive(Clone, Copy, Debug, PartialEq, Eq, Drop)]
pub(crate) enum Fault {
    /// A value can't be made, of its bounds or of memory.
    Unmade,
    /// A call finds no memory.
    NoMemory,
    /// A call has an answer that it has in none of the trials.
    Unforeseen,
    /// A row can't be printed, or there is no clock.
    Untold,
}

impl From<AllocError> for Fault {
    fn from(_e: AllocError) -> Fault {
        Fault::NoMemory
    }
}

impl From<Refusal> for Fault {
    fn from(refusal: Refusal) -> Fault {
        match refusal {
            Refusal::OutOfMemory => Fault::NoMemory,
            _ => Fault::Unforeseen,
        }
    }
}

impl From<io::Error> for Fault {
    fn from(_e: io::Error) -> Fault {
        Fault::Untold
    }
}

/// What is left of an answer, once the reply is dropped.
pub(crate) fn done(answer: Result<Reply, Refusal>) -> Result<(), Fault> {
    match answer {
        Ok(reply) => {
            drop(reply);
            Ok(())
        }
        Err(refusal) => Err(refusal.into()),
    }
}

pub(crate) fn name(text: &str) -> Result<Name, Fault> {
    Name::read(text).map_err(|_| Fault::Unmade)
}

pub(crate) fn dth(number: u64) -> Result<Dth, Fault> {
    Dth::new(number).map_err(|_| Fault::Unmade)
}

pub(crate) fn at(seconds: i64) -> Result<Moment, Fault> {
    Moment::new(seconds).ok_or(Fault::Unmade)
}

/// The line of a contract in this package, from R1 to D1.
pub(crate) fn line(contract: &str, package: &str) -> Result<LineKey, Fault> {
    Ok(LineKey {
        contract: name(contract)?,
        package: name(package)?,
        origin: name("R1")?,
        dest: name("D1")?,
    })
}

fn add_segment(builder: &mut SystemBuilder, capacity: u64) -> Result<(), Fault> {
    let (from, to) = (name("A")?, name("B")?);
    let added = builder.segment(name("S1")?, from, to, dth(capacity)?);
    added.map_err(|_| Fault::Unmade)
}

fn add_points(builder: &mut SystemBuilder) -> Result<(), Fault> {
    for (text, kind, place) in [("R1", Kind::Receipt, "A"), ("D1", Kind::Delivery, "B")] {
        let (place, operator) = (name(place)?, name(PARTY)?);
        let added = builder.point(name(text)?, kind, place, operator, dth(Dth::MAX)?);
        added.map_err(|_| Fault::Unmade)?;
    }
    Ok(())
}

fn add_elements(builder: &mut SystemBuilder, capacity: u64) -> Result<(), Fault> {
    add_segment(builder, capacity)?;
    add_points(builder)
}

/// The system of a builder that has all its elements.
fn finished(builder: SystemBuilder) -> Result<System, Fault> {
    match builder.finish() {
        Ok(system) => Ok(system),
        Err(refused) => {
            drop(refused);
            Err(Fault::Unmade)
        }
    }
}

fn pipeline(alloc: Global, capacity: u64) -> Result<System, Fault> {
    let mut builder = SystemBuilder::new(alloc);
    match add_elements(&mut builder, capacity) {
        Ok(()) => finished(builder),
        Err(fault) => {
            drop(builder);
            Err(fault)
        }
    }
}

fn add_contract(contracts: &mut Contracts) -> Result<(), Fault> {
    let (origin, dest) = (name("R1")?, name("D1")?);
    let added = contracts.add(Contract {
        name: name(FIRM)?,
        shipper: name(PARTY)?,
        quantity: dth(1_000_000)?,
        service: Service::Firm { origin, dest },
    });
    added.map_err(|_| Fault::Unmade)
}

fn contracts(alloc: Global, capacity: u64) -> Result<Contracts, Fault> {
    let mut contracts = Contracts::new(alloc, pipeline(alloc, capacity)?);
    match add_contract(&mut contracts) {
        Ok(()) => Ok(contracts),
        Err(fault) => {
            drop(contracts);
            Err(fault)
        }
    }
}

fn calendar(alloc: Global) -> Result<Calendar, Fault> {
    let day = GasDay::new(date(2026, 3, 8)).map_err(|_| Fault::Unmade)?;
    let zone = TimeZone::posix("CST6CDT,M3.2.0,M11.1.0").map_err(|_| Fault::Unmade)?;
    let calendar = day.calendar(alloc, &zone);
    drop(zone);
    calendar.map_err(|_| Fault::Unmade)
}

/// What a book opens with, but for the lines that are carried over.
fn opening(alloc: Global, text: &str, capacity: u64) -> Result<(Name, Contracts, Calendar), Fault> {
    let name = name(text)?;
    let calendar = calendar(alloc)?;
    match contracts(alloc, capacity) {
        Ok(contracts) => Ok((name, contracts, calendar)),
        Err(fault) => {
            drop(calendar);
            Err(fault)
        }
    }
}

/// A book of this name of the gas day 2026-03-08, with this capacity of S1 and a firm contract from R1 to D1.
pub(crate) fn book(
    alloc: Global,
    text: &str,
    capacity: u64,
    carry: Vec<(LineKey, Dth)>,
) -> Result<Book, Fault> {
    match opening(alloc, text, capacity) {
        Ok((name, contracts, calendar)) => {
            Book::open(alloc, name, contracts, calendar, carry).map_err(|_| Fault::Unmade)
        }
        Err(fault) => {
            drop(carry);
            Err(fault)
        }
    }
}
