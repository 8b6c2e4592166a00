//! What each field of a row is, and what is wanted of it.

use gd_text_part::RowKind;
use std::fmt;

/// What a field has to be.
#[derive(Clone, Copy)]
pub(crate) enum Wanted {
    Name,
    /// A name, or nothing.
    NameOrNothing,
    /// A whole number from the first to the second.
    Number(u64, u64),
    /// The same, or nothing.
    NumberOrNothing(u64, u64),
    /// A whole number that may have a `-`.
    Signed,
    /// The same, or nothing.
    SignedOrNothing,
    /// A date that the calendar has.
    Date,
    /// Any text.
    Zone,
    /// One of some words.
    Word(&'static str),
}

/// A field of a row: what it is, and what is wanted of it.
#[derive(Clone, Copy)]
pub(crate) struct Field(pub(crate) &'static str, pub(crate) Wanted);

impl fmt::Display for Wanted {
    fn fmt<W: fmt::Write>(&self, f: &mut fmt::Formatter<W>) -> fmt::Result {
        match self {
            Wanted::Name => f.write_str("a name of 1 to 16 of A to Z, 0 to 9 and - is wanted"),
            Wanted::NameOrNothing => {
                f.write_str("a name of 1 to 16 of A to Z, 0 to 9 and - is wanted, or nothing")
            }
            Wanted::Number(low, high) => write!(f, "a whole number from {low} to {high} is wanted"),
            Wanted::NumberOrNothing(low, high) => {
                write!(
                    f,
                    "a whole number from {low} to {high} is wanted, or nothing"
                )
            }
            Wanted::Signed => f.write_str("a whole number is wanted, with or without a -"),
            Wanted::SignedOrNothing => {
                f.write_str("a whole number is wanted, with or without a -, or nothing")
            }
            Wanted::Date => f.write_str("a date that the calendar has is wanted, as 2026-03-08"),
            Wanted::Zone => f.write_str("a time zone is wanted, as CST6"),
            Wanted::Word(words) => write!(f, "{words} is wanted"),
        }
    }
}

/// A quantity, in dekatherms a gas day.
const QUANTITY: Wanted = Wanted::Number(0, 1_000_000_000);

/// The number of a line that a call may have.
const LINE: Field = Field("the line's number", Wanted::Number(1, 4_294_967_295));

/// The round of a question.
const ROUND: Field = Field("the round", Wanted::Number(1, 1_000_000));

/// When a call is made.
const MOMENT: Field = Field(
    "the moment in seconds since 1970",
    Wanted::Number(0, 4_200_000_000),
);

const BOOK: Field = Field("the book", Wanted::Name);

const PLACE: Field = Field("the place", Wanted::Name);

const OPERATOR: Field = Field("the operator", Wanted::Name);

const PARTY: Field = Field("the party", Wanted::Name);

const CONTRACT: Field = Field("the contract", Wanted::Name);

const PACKAGE: Field = Field("the package", Wanted::Name);

const ORIGIN: Field = Field("the origin", Wanted::Name);

const DESTINATION: Field = Field("the destination", Wanted::Name);

const ELEMENT: Field = Field("the segment or point", Wanted::Name);

const CAPACITY: Field = Field("the capacity", QUANTITY);

const AMOUNT: Field = Field("the quantity", QUANTITY);

/// What field `k` of a row that builds the pipeline is.
fn pipeline_field(kind: RowKind, k: usize) -> Option<Field> {
    let field = match (kind, k) {
        (RowKind::Segment, 2) => Field("the segment's name", Wanted::Name),
        (RowKind::Segment, 3) => Field("the place that it leads from", Wanted::Name),
        (RowKind::Segment, 4) => Field("the place that it leads to", Wanted::Name),
        (RowKind::Point, 2) => Field("the point's name", Wanted::Name),
        (RowKind::Point, 3) => Field("the kind of point", Wanted::Word("receipt or delivery")),
        (RowKind::Pool, 2) => Field("the pool's name", Wanted::Name),
        (RowKind::Point, 4) | (RowKind::Pool, 3) => PLACE,
        (RowKind::Point, 5) | (RowKind::Pool, 4) => OPERATOR,
        (RowKind::Segment, 5) | (RowKind::Point, 6) => CAPACITY,
        _ => return None,
    };
    Some(field)
}

/// What field `k` of a contract is, firm or not.
fn contract_field(is_firm: bool, k: usize) -> Option<Field> {
    let field = match k {
        2 => Field("the contract's name", Wanted::Name),
        3 => Field("the shipper", Wanted::Name),
        4 => Field("the service", Wanted::Word("firm or interruptible")),
        5 => AMOUNT,
        6 if is_firm => Field("the primary origin", Wanted::Name),
        7 if is_firm => Field("the primary destination", Wanted::Name),
        6 => Field("the rate band", Wanted::NumberOrNothing(1, 5)),
        _ => return None,
    };
    Some(field)
}

/// What field `k` of a row that heads a question or fills it is, or of one that answers it.
fn question_field(kind: RowKind, k: usize) -> Option<Field> {
    let field = match (kind, k) {
        (RowKind::Question, 2) => BOOK,
        (RowKind::Question, 3) => Field("the cycle", Wanted::Number(1, 5)),
        (RowKind::Question, 4) => ROUND,
        (RowKind::Capacity, 2) => ELEMENT,
        (RowKind::Capacity, 3) => CAPACITY,
        (RowKind::Line, 2) => ORIGIN,
        (RowKind::Line, 3) => DESTINATION,
        (RowKind::Line, 4) => Field("the class", Wanted::Number(1, 8)),
        (RowKind::Line, 5) => Field("the floor", QUANTITY),
        (RowKind::Line, 6) => Field("the ceiling", QUANTITY),
        (RowKind::Sched, 2) => Field(
            "the line's number",
            Wanted::Word("the next of 1, 2, 3 and so on"),
        ),
        (RowKind::Sched, 3) => AMOUNT,
        (RowKind::Price, 2) => Field("the segment, point or pool", Wanted::Name),
        (RowKind::Price, 3) => Field("the level", Wanted::Number(1, 8)),
        (RowKind::Price, 4) => Field("the word of the price", Wanted::Signed),
        (RowKind::Price, 5) => Field("the spread's word", Wanted::SignedOrNothing),
        (RowKind::Inside, 2) => Field("the kind of member", Wanted::Word("place, point or pool")),
        (RowKind::Inside, 3) => Field("the member", Wanted::Name),
        _ => return None,
    };
    Some(field)
}

/// What field `k` of a row that heads a gas day or carries a line into it is. A calendar needs no book.
fn day_field(kind: RowKind, needs_book: bool, k: usize) -> Option<Field> {
    let field = match (kind, k) {
        (RowKind::Day, 2) => Field("the date", Wanted::Date),
        (RowKind::Day, 3) => Field("the time zone", Wanted::Zone),
        (RowKind::Day, 4) if needs_book => BOOK,
        (RowKind::Day, 4) => Field("the book", Wanted::NameOrNothing),
        (RowKind::Carry, 2) => CONTRACT,
        (RowKind::Carry, 3) => PACKAGE,
        (RowKind::Carry, 4) => ORIGIN,
        (RowKind::Carry, 5) => DESTINATION,
        (RowKind::Carry, 6) => AMOUNT,
        _ => return None,
    };
    Some(field)
}

/// What field `k` of a call, a session or a desk row is.
fn event_field(kind: RowKind, k: usize) -> Option<Field> {
    let field = match (kind, k) {
        (RowKind::Session, 2) => Field(
            "the slot",
            Wanted::Word("the number of a block, counted from 1,"),
        ),
        (_, 2) => MOMENT,
        (RowKind::Nominate | RowKind::Respond | RowKind::Session, 3) => PARTY,
        (RowKind::Nominate, 4) => CONTRACT,
        (RowKind::Nominate, 5) => PACKAGE,
        (RowKind::Nominate, 6) => ORIGIN,
        (RowKind::Nominate, 7) => DESTINATION,
        (RowKind::Nominate, 8) | (RowKind::Respond, 6) => AMOUNT,
        (RowKind::Respond, 4) | (RowKind::Waive, 3) => LINE,
        (RowKind::Respond, 5) => Field("the end of the line", Wanted::Word("origin or dest")),
        (RowKind::Post, 3) => ELEMENT,
        (RowKind::Post, 4) => CAPACITY,
        (RowKind::Publish | RowKind::Declare, 3) => ROUND,
        _ => return None,
    };
    Some(field)
}

/// What field `k` of a row of this kind is, where the kind is field 1; `None` where it should be empty. A contract may be
/// firm, and a day may need a book.
pub(crate) fn field_of(kind: RowKind, is_firm: bool, needs_book: bool, k: usize) -> Option<Field> {
    match kind {
        RowKind::Segment | RowKind::Point | RowKind::Pool => pipeline_field(kind, k),
        RowKind::Contract => contract_field(is_firm, k),
        RowKind::Day | RowKind::Carry => day_field(kind, needs_book, k),
        RowKind::Question
        | RowKind::Capacity
        | RowKind::Line
        | RowKind::Sched
        | RowKind::Price
        | RowKind::Inside
        | RowKind::Bumped => question_field(kind, k),
        _ => event_field(kind, k),
    }
}
