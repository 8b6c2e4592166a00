//! What the rows of a gas day's text build.

ghost use Rattle.std.specs.Prelude.{◌≡◌, IfOk, Ok};
ghost use Rattle.std.specs.List.{IsDistinct};
ghost use Rattle.gd_rules.specs.Lines.{same_key};
ghost use Rattle.gd_text.specs.Building.{Builds};
ghost use Rattle.gd_day.specs.Calls.{calls_of};
ghost use Rattle.gd_day.specs.Carrying.{keys};
ghost use Rattle.gd_day.specs.Groups.{AllPass};
ghost use Rattle.gd_day.specs.Opening as spec;

use crate::carry::carry_of;
use crate::contracts::contracts_on;
use crate::group::check_calls;
use crate::head::head_of;
use gd_contracts::Contracts;
use gd_lines::LineKey;
use gd_text::system_of;
use gd_text_part::{CivilDate, Row, TextFault, ZoneText};
use gd_units::{Dth, Name};
use std::alloc::Global;

/// What a text says of a gas day before it calls its book.
#[derive(Drop)]
pub struct DayText {
    /// The gas day.
    pub date: CivilDate,
    /// The time zone of its clock.
    pub zone: ZoneText,
    /// The name of its book.
    pub book: Name,
    /// The pipeline, and the contracts on it.
    pub contracts: Contracts,
    /// What lines carry from the day before, in dekatherms a gas day, each line once.
    pub carry: Vec<(LineKey, Dth)>,
}

/// What a text says of its gas day. Where it is told, the prices and the set that stand before each call can be made.
///
/// # Errors
///
/// The first of these: a refusal of a segment, point or pool, at its row; `NoSegment`, at one row past the last; a refusal of
/// a contract, at its row; `Missing`, at one row past the last, where the first `day` row names no book or there is none;
/// `Duplicate` for a line that is carried already, at its row; and, call by call, `UnknownElement` or `Duplicate` for a
/// price, then `UnknownElement` for a member, at its row. Else `OutOfMemory`.
pub fn day_text_of(alloc: Global, rows: &[Row]) -> Result<DayText, TextFault>
    ensures values { Builds
        (λ d. record {
          date = d.date;
          zone = d.zone;
          book = d.book;
          holdings = d.contracts;
          carry = d.carry.items;
        })
        result (spec.opened_of rows.now) }
    ensures distinct { IfOk result (λ d. IsDistinct same_key (keys d.carry.items)) }
    ensures passed { IfOk result (λ d. AllPass d.contracts.pipeline (calls_of rows.now)) }
{
    let system = system_of(alloc, rows)?;
    let contracts = contracts_on(alloc, rows, system)?;
    let head = match head_of(alloc, rows) {
        Ok(head) => head,
        Err(fault) => {
            drop(contracts);
            return Err(fault);
        }
    };
    let carry = match carry_of(alloc, rows) {
        Ok(carry) => carry,
        Err(fault) => {
            drop(contracts);
            drop(head);
            return Err(fault);
        }
    };
    match check_calls(alloc, rows, contracts.system()) {
        Ok(()) => Ok(DayText {
            date: head.date,
            zone: head.zone,
            book: head.book,
            contracts,
            carry,
        }),
        Err(fault) => {
            drop(contracts);
            drop(head);
            drop(carry);
            Err(fault)
        }
    }
}
