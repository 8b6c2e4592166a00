//! What is told of rows that a builder refuses.

use crate::ends::told_of_ends;
use crate::names::{Sought, are_twins, block_start, has_place, near_name, part_named, part_word};
use crate::shown::{Meant, Place};
use crate::text::Spot;
use gd_contracts::{Contract, ContractFault, Service};
use gd_question::{CapacityFault, LineFault};
use gd_system::BuildFault;
use gd_text_part::{Cause, Member, PipelineRow, QuestionRow, Row};
use gd_units::Name;
use std::alloc::{AllocError, Global};

/// Where a row stands that is refused, with the rows before it.
#[derive(Clone, Copy)]
pub(crate) struct Refused<'r> {
    pub(crate) alloc: Global,
    pub(crate) place: Place<'r>,
    /// The row of the text before it that gives the same already, where there is one.
    pub(crate) twin: Option<Place<'r>>,
    /// The rows of its block before it.
    pub(crate) before: &'r [Row],
}

impl Refused<'_> {
    /// One sentence without anything of the row in it.
    fn told(&self, words: &str) -> Result<String, AllocError> {
        let place = self.place;
        format!(in self.alloc; "{place}: {words}")
    }

    /// What is told where a former row gives already what the row gives.
    fn told_of_twin(&self) -> Result<String, AllocError> {
        let Some(first) = self.twin else {
            return self.told("what the row gives is given already");
        };
        let place = self.place;
        format!(in self.alloc; "{place}: what the row gives is given already, in {first}")
    }
}

/// What is told of a name that is not that of what is sought.
pub(crate) fn told_of_unknown(
    refused: Refused,
    name: Name,
    sought: Sought,
) -> Result<String, AllocError> {
    let Refused {
        alloc,
        place,
        before,
        ..
    } = refused;
    let words = sought.words();
    if sought != Sought::Place
        && let Some(part) = part_named(before, name)
    {
        let word = part_word(&part);
        return format!(in alloc; "{place}: {name} is a {word}, and a {words} is wanted");
    }
    let meant = Meant {
        name: near_name(alloc, before, &name, sought)?,
        otherwise: "",
    };
    format!(in alloc; "{place}: there is no {words} \"{name}\"{meant}")
}

/// What is told of a segment that doesn't join a place that is known with a new one.
fn told_of_unjoined(refused: Refused, from: Name, to: Name) -> Result<String, AllocError> {
    let Refused {
        alloc,
        place,
        before,
        ..
    } = refused;
    if from == to {
        return format!(in alloc; "{place}: the segment leads from {from} to itself");
    }
    if has_place(before, from) {
        return format!(in alloc;
            "{place}: the places {from} and {to} are joined already; a segment brings one new place, since there are no loops"
        );
    }
    format!(in alloc;
        "{place}: neither {from} nor {to} is a place of a segment before; a segment begins or ends at one"
    )
}

/// What is told of a segment, point or pool that is refused.
fn told_of_part(
    refused: Refused,
    part: &PipelineRow,
    fault: BuildFault,
) -> Result<String, AllocError> {
    match (fault, part) {
        (BuildFault::Duplicate, _) => refused.told_of_twin(),
        (BuildFault::TooMany, PipelineRow::Segment { .. }) => {
            refused.told("this place is one too many; a pipeline has at most 4096 places")
        }
        (BuildFault::TooMany, PipelineRow::Point { .. }) => {
            refused.told("this point is one too many; a pipeline has at most 4096 points")
        }
        (BuildFault::TooMany, PipelineRow::Pool { .. }) => {
            refused.told("this pool is one too many; a pipeline has at most 256 pools")
        }
        (_, PipelineRow::Segment { from, to, .. }) => told_of_unjoined(refused, *from, *to),
        (_, PipelineRow::Point { place, .. }) => told_of_unknown(refused, *place, Sought::Place),
        (_, PipelineRow::Pool { place, .. }) => told_of_unknown(refused, *place, Sought::Place),
    }
}

/// What is told of a contract that is refused.
fn told_of_contract(
    refused: Refused,
    contract: &Contract,
    fault: ContractFault,
) -> Result<String, AllocError> {
    match (fault, contract.service) {
        (ContractFault::Duplicate, _) => refused.told_of_twin(),
        (ContractFault::Route(fault), Service::Firm { origin, dest }) => {
            told_of_ends(refused, "contract's primary route", fault, origin, dest)
        }
        _ => refused.told("this contract is one too many; a pipeline has at most 4096"),
    }
}

/// What is told of a line that is refused.
fn told_of_line(
    refused: Refused,
    row: &QuestionRow,
    fault: LineFault,
) -> Result<String, AllocError> {
    let QuestionRow::Line {
        origin,
        dest,
        class,
        floor,
        ceiling,
    } = row
    else {
        return refused.told("the row is refused");
    };
    let Refused { alloc, place, .. } = refused;
    match fault {
        LineFault::Route(fault) => told_of_ends(refused, "line", fault, *origin, *dest),
        LineFault::FloorAboveCeiling => format!(in alloc;
            "{place}: the floor {floor} is above the ceiling {ceiling}; a line's floor is at most its ceiling"
        ),
        LineFault::BadClass => format!(in alloc;
            "{place}: the class is {class}; classes are 1 to 8"
        ),
        LineFault::TooMany | LineFault::OutOfMemory => {
            refused.told("this line is one too many; a question has at most 20000")
        }
    }
}

/// What is told of a row that names what isn't there.
fn told_of_stranger(refused: Refused, row: &Row) -> Result<String, AllocError> {
    match row {
        Row::Inside { member, name } => {
            let sought = match member {
                Member::Place => Sought::Place,
                Member::Point => Sought::Point,
                Member::Pool => Sought::Pool,
            };
            told_of_unknown(refused, *name, sought)
        }
        Row::Price { element, .. } => told_of_unknown(refused, *element, Sought::Element),
        Row::Question(QuestionRow::Capacity { element, .. }) => {
            told_of_unknown(refused, *element, Sought::Element)
        }
        _ => refused.told("the row names a segment, point, pool or place that is not there"),
    }
}

/// What is told of a row that is refused for this cause.
fn told_of_row(refused: Refused, row: &Row, cause: Cause) -> Result<String, AllocError> {
    match (cause, row) {
        (Cause::Build(fault), Row::Pipeline(part)) => told_of_part(refused, part, fault),
        (Cause::Contract(fault), Row::Contract(contract)) => {
            told_of_contract(refused, contract, fault)
        }
        (Cause::Line(fault), Row::Question(row)) => told_of_line(refused, row, fault),
        (Cause::Capacity(CapacityFault::IsPool), _) => {
            refused.told("the row names a pool, and a pool has no capacity")
        }
        (Cause::Duplicate, _) => refused.told_of_twin(),
        _ => told_of_stranger(refused, row),
    }
}

/// What is told of a row of these that a builder refuses for this cause.
fn told_among(spot: Spot, cause: Cause, rows: &[Row]) -> Result<String, AllocError> {
    let source = spot.source;
    let at = spot.number.saturating_sub(1) as usize;
    let (Some(row), Some(all)) = (rows.get(at), rows.get(..at)) else {
        return String::from_str(source.alloc, "a row of the text is refused");
    };
    let twin = match all.iter().rposition(|other| are_twins(row, other)) {
        Some(first) => Some(source.place((first as u64).saturating_add(1))?),
        None => None,
    };
    let refused = Refused {
        alloc: source.alloc,
        place: spot.place,
        twin,
        before: all.get(block_start(source.form, all)..).unwrap_or(all),
    };
    told_of_row(refused, row, cause)
}

/// What is told of a row that a builder refuses for this cause, where the row is found again.
pub(crate) fn told_of_refusal(spot: Spot, cause: Cause) -> Result<String, AllocError> {
    let rows = spot.source.rows()?;
    let told = told_among(spot, cause, rows.as_slice());
    drop(rows);
    told
}
