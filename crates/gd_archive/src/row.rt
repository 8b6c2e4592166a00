//! The rows of an archive.

ghost use Rattle.std.specs.Prelude.{◌≡◌, IfOk, IfSome};
ghost use Rattle.gd_archive.specs.Soundness as spec;

use crate::fault::{NO_ARCHIVE, Rule};
use gd_units::{CycleNo, Name};
use sqlite::types::ValueRef;
use sqlite::{Error, Row};

/// What names a row of an archive, and the rule by which its posting is checked.
#[derive(Clone, Copy, Debug)]
pub(crate) struct Label {
    pub(crate) book: Name,
    pub(crate) cycle: CycleNo,
    pub(crate) rule: Rule,
}

/// The book of a row, if it is a name.
pub(crate) fn book_in(row: &Row) -> Result<Name, Error>
    ensures { IfOk result (λ book. spec.IsBook row.now book) }
{
    let ValueRef::Text(text) = row.get_ref(0)? else {
        return Err(NO_ARCHIVE);
    };
    Name::of_bytes(text).map_err(|_| NO_ARCHIVE)
}

/// The cycle of a row, if it is one of the day.
pub(crate) fn cycle_in(row: &Row) -> Result<CycleNo, Error>
    ensures { IfOk result (λ cycle. spec.IsCycle row.now cycle) }
{
    let number: u32 = row.get(1)?;
    match u8::try_from(number) {
        Ok(number) => CycleNo::new(number).ok_or(NO_ARCHIVE),
        Err(_) => Err(NO_ARCHIVE),
    }
}

/// The rule of this number.
pub(crate) fn rule_of(number: u32) -> Option<Rule>
    ensures { IfSome result (λ rule. spec.number rule ≡ number) }
{
    if number == 1 {
        return Some(Rule::Classes);
    }
    if number == 2 {
        return Some(Rule::Spread);
    }
    None
}

impl Label {
    /// The label of a row of book, cycle, round, body and rule.
    pub(crate) fn of(row: &Row) -> Result<Label, Error>
        ensures { IfOk result (spec.IsLabel row.now) }
    {
        let book = book_in(row)?;
        let cycle = cycle_in(row)?;
        let number: u32 = row.get(4)?;
        match rule_of(number) {
            Some(rule) => Ok(Label { book, cycle, rule }),
            None => Err(NO_ARCHIVE),
        }
    }
}
