//! What is told of a schedule, of prices or of a set that is broken.

use crate::shown::Count;
use crate::text::Source;
use gd_question::{Element, Part};
use gd_replies::Reply;
use gd_text::{Asked, asked_of};
use gd_text_part::{Row, TextFault};
use gd_units::Name;
use std::alloc::{AllocError, Global};

/// A line of a question and what the schedule gives it, in dekatherms a gas day.
#[derive(Clone, Copy)]
struct Line {
    number: u64,
    origin: Name,
    dest: Name,
    floor: u64,
    ceiling: u64,
    quantity: u64,
}

/// The name of an element, where there is one of this number.
fn name_of(asked: &Asked, element: Element) -> Option<Name> {
    if element.0 < asked.question.element_count() {
        Some(asked.question.name(element))
    } else {
        None
    }
}

/// The line with this number, counted from 1.
fn line_at(asked: &Asked, number: u64) -> Option<Line> {
    let (question, at) = (&asked.question, number.saturating_sub(1) as usize);
    if question.line_count() <= at || asked.schedule.len() <= at {
        return None;
    }
    Some(Line {
        number,
        origin: name_of(asked, question.origin(at))?,
        dest: name_of(asked, question.dest(at))?,
        floor: question.floor(at).get(),
        ceiling: question.ceiling(at).get(),
        quantity: asked.schedule.quantity(at).get(),
    })
}

/// What is wrong with the quantity of a line, as the end of a sentence.
fn ending_of(alloc: Global, reply: &Reply, line: Line) -> Result<String, AllocError> {
    let (floor, ceiling) = (line.floor, line.ceiling);
    match reply {
        Reply::BelowFloor(_) => format!(in alloc; ", below its floor of {floor}"),
        Reply::AboveCeiling(_) => format!(in alloc; ", above its ceiling of {ceiling}"),
        Reply::Underfilled(_) => format!(in alloc;
            " of at most {ceiling}, and its next dekatherm is worth more than the prices that it crosses; so they don't show the schedule best"
        ),
        _ => format!(in alloc;
            ", more than its floor of {floor}, and its last dekatherm is worth less than the prices that it crosses; so they don't show the schedule best"
        ),
    }
}

/// What is told of a line whose quantity is not what it may be.
fn told_of_line(alloc: Global, reply: &Reply, line: Line) -> Result<String, AllocError> {
    let Line {
        number,
        origin,
        dest,
        quantity,
        ..
    } = line;
    let ending = ending_of(alloc, reply, line)?;
    format!(in alloc;
        "the question's line {number}, from {origin} to {dest}, gets {quantity}{ending}"
    )
}

/// A segment, point or pool, and what the schedule brings to it, in dekatherms a gas day.
#[derive(Clone, Copy)]
struct Loaded {
    /// What it is, in words.
    word: &'static str,
    load: i64,
    /// Its capacity in force, 0 of a pool.
    capacity: i64,
}

/// The load of the element of this name.
fn load_of(asked: &Asked, name: Name) -> Option<Loaded> {
    let element = asked.question.system().element(name)?;
    let load = asked.schedule.load(&asked.question, element)?;
    if asked.question.element_count() <= element.0 {
        return None;
    }
    let (word, capacity) = match asked.question.part(element) {
        Part::Segment(_, _, capacity) => ("segment", capacity.get()),
        Part::Receipt(_, capacity) => ("receipt point", capacity.get()),
        Part::Delivery(_, capacity) => ("delivery point", capacity.get()),
        Part::Pool(_) => ("pool", 0),
    };
    Some(Loaded {
        word,
        load,
        capacity: i64::try_from(capacity).unwrap_or(i64::MAX),
    })
}

/// What is told of an element whose load or price is not what it may be.
fn told_of_element(
    alloc: Global,
    reply: &Reply,
    name: Name,
    loaded: Loaded,
) -> Result<String, AllocError> {
    let Loaded {
        word,
        load,
        capacity,
    } = loaded;
    let over = load.saturating_sub(capacity);
    match reply {
        Reply::OverCapacity(_) => format!(in alloc;
            "the schedule brings {load} to the {word} {name}, whose capacity is {capacity}: {over} too much"
        ),
        Reply::Unbalanced(_) => format!(in alloc;
            "what the schedule brings into the pool {name} less what it takes out of it is {load}; as much has to leave it as enters it"
        ),
        Reply::PriceOnSlack(_) => format!(in alloc;
            "the price of the {word} {name} doesn't fit its load of {load} and its capacity of {capacity}: it may be above zero only where the load is the capacity, and below zero only where the load is 0"
        ),
        _ => format!(in alloc;
            "a number of the price of {name} is above 2^40 = 1099511627776 in size"
        ),
    }
}

/// What is told where lines and `sched` rows are not equally many.
fn told_of_shape(alloc: Global, asked: &Asked) -> Result<String, AllocError> {
    let lines = Count(asked.question.line_count(), "line");
    let scheds = Count(asked.schedule.len(), "sched row");
    format!(in alloc;
        "the text has {lines} and {scheds}; each line has one sched row, in the order of the lines"
    )
}

/// What is told of a fault by what is asked, where that has it.
fn told_by_asked(
    alloc: Global,
    reply: &Reply,
    asked: &Asked,
) -> Result<Option<String>, AllocError> {
    let told = match *reply {
        Reply::Shape => told_of_shape(alloc, asked),
        Reply::BelowFloor(number)
        | Reply::AboveCeiling(number)
        | Reply::Underfilled(number)
        | Reply::Overfilled(number) => match line_at(asked, number) {
            Some(line) => told_of_line(alloc, reply, line),
            None => return Ok(None),
        },
        Reply::OverCapacity(name)
        | Reply::Unbalanced(name)
        | Reply::PriceTooLarge(name)
        | Reply::PriceOnSlack(name) => match load_of(asked, name) {
            Some(loaded) => told_of_element(alloc, reply, name, loaded),
            None => return Ok(None),
        },
        _ => return Ok(None),
    };
    Ok(Some(told?))
}

/// What is told of a fault by these rows.
fn told_by_rows(alloc: Global, reply: &Reply, rows: &[Row]) -> Result<Option<String>, AllocError> {
    let asked = match asked_of(alloc, rows) {
        Ok(asked) => asked,
        Err(TextFault::OutOfMemory) => return Err(AllocError),
        Err(_) => return Ok(None),
    };
    let told = told_by_asked(alloc, reply, &asked);
    drop(asked);
    told
}

/// What is told of a schedule, of prices or of a set that is broken.
pub(crate) fn told_of_broken(
    source: Source<'_>,
    reply: &Reply,
) -> Result<Option<String>, AllocError> {
    if matches!(reply, Reply::NotCut) {
        return Ok(Some(String::from_str(
            source.alloc,
            "the set is no cut: the floors of the lines that lead out of it are together no more than the ceilings of those that lead in and the capacities of what leads out",
        )?));
    }
    let rows = source.rows()?;
    let told = told_by_rows(source.alloc, reply, rows.as_slice());
    drop(rows);
    told
}
