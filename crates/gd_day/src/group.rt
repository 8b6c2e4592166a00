//! Checks of the prices and sets that stand before the calls.

ghost use Rattle.std.specs.Prelude.{◌≡◌, ◌+◌, ◌*◌, ◌^◌, ◌<◌, ◌≤◌, length, OnOk};
ghost use Rattle.gd_rules.specs.Limits.{classes};
ghost use Rattle.gd_system.specs.Pipeline.{elements_of};
ghost use Rattle.gd_text.specs.Building.{Becomes, Builds, built_from};
ghost use Rattle.gd_text.specs.Members.{with_member, members_from, none_inside};
ghost use Rattle.gd_day.specs.Calls.{calls_of};
ghost use Rattle.gd_day.specs.Groups as spec;
ghost use Rattle.gd_day.specs.Marks.{mark_step, inside_step, AreBefore};

use crate::call::event_of;
use gd_system::System;
use gd_text_part::{Cause, Member, Row, TextFault};
use gd_units::{Class, Name};
use std::alloc::Global;

/// Notes the number of a row that gives a price, of a group that begins at row `first`. `last` has for each element at each
/// class the number of the row that gave its price last, 0 where none did.
fn mark_price(
    last: &mut [u64],
    system: &System,
    first: u64,
    number: u64,
    row: &Row,
) -> Result<(), TextFault>
    requires { length last.old ≡ classes * length (elements_of system.now) }
    ensures { Becomes last.new result (mark_step system.now first number last.old row.now) }
{
    let Row::Price { element, class, .. } = *row else {
        return Ok(());
    };
    let Some(element) = system.element(element) else {
        return Err(TextFault::at(number, Cause::UnknownElement));
    };
    let at = Class::COUNT * element.0 + (usize::from(class.number()) - 1);
    if first <= last[at] {
        return Err(TextFault::at(number, Cause::Duplicate));
    }
    last[at] = number;
    Ok(())
}

/// Checks the prices of a group that begins at row `first`, where `last` knows rows before it alone.
fn check_prices(
    last: &mut [u64],
    system: &System,
    first: u64,
    group: &[Row],
) -> Result<(), TextFault>
    requires sized { length last.old ≡ classes * length (elements_of system.now) }
    requires within { first + length group.now < 2 ^ 64 }
    ensures { Becomes last.new result (built_from
        (mark_step system.now first) first last.old group.now) }
{
    'rows: for (index, row) in group.iter().enumerate() {
        mark_price(last, system, first, first + index as u64, row)?;
    }
    Ok(())
}

/// Checks that there is a place, point or pool of this name, whichever is asked for.
fn check_name(system: &System, number: u64, member: Member, name: Name) -> Result<(), TextFault>
    ensures { result
        ≡ spec.checked (with_member number system.now (none_inside system.now) member name) }
{
    let unknown = TextFault::at(number, Cause::UnknownElement);
    if let Member::Place = member {
        return match system.place(name) {
            Some(_) => Ok(()),
            None => Err(unknown),
        };
    }
    let Some(element) = system.element(name) else {
        return Err(unknown);
    };
    system.known();
    let segments = system.segment_count();
    let others = segments + system.point_count();
    let known = match member {
        Member::Point => segments <= element.0 && element.0 < others,
        _ => others <= element.0,
    };
    if known { Ok(()) } else { Err(unknown) }
}

/// Checks the name of a row, if it is an `inside` row.
fn check_member(system: &System, number: u64, row: &Row) -> Result<(), TextFault>
    ensures { result ≡ inside_step system.now number tt row.now }
{
    match *row {
        Row::Inside { member, name } => check_name(system, number, member, name),
        _ => Ok(()),
    }
}

/// Checks the members of a group that begins at row `first`.
fn check_members(system: &System, first: u64, group: &[Row]) -> Result<(), TextFault>
    requires { first + length group.now < 2 ^ 64 }
    ensures { result ≡ spec.checked (members_from first group.now system.now) }
{
    'rows: for (index, row) in group.iter().enumerate() {
        check_member(system, first + index as u64, row)?;
    }
    Ok(())
}

/// Checks a group that begins at row `first`, where `last` knows rows before it alone.
fn check_group(
    last: &mut [u64],
    system: &System,
    first: u64,
    group: &[Row],
) -> Result<(), TextFault>
    requires sized { length last.old ≡ classes * length (elements_of system.now) }
    requires within { first + length group.now < 2 ^ 64 }
    requires some { 0 < first }
    requires before { AreBefore first last.old }
    ensures checked { result ≡ spec.checked_group system.now first group.now }
    ensures before { OnOk result (AreBefore (first + length group.now) last.new) }
{
    check_prices(last, system, first, group)?;
    check_members(system, first, group)
}

/// Checks the prices and the set of a call whose group begins at row `first`: `UnknownElement` for a price or a member of
/// none, `Duplicate` for an element's second price at a class, told at its row. The only other error is want of memory. An
/// empty group needs none.
pub fn check_call(
    alloc: Global,
    system: &System,
    first: u64,
    group: &[Row],
) -> Result<(), TextFault>
    requires within { first + length group.now < 2 ^ 64 }
    requires some { 0 < first }
    ensures checked { Builds (λ made. made) result (spec.checked_group system.now first group.now) }
    ensures passes { OnOk result (spec.Passes system.now group.now) }
{
    if group.is_empty() {
        return Ok(());
    }
    system.known();
    let mut last = vec![in alloc; 0u64; Class::COUNT * system.element_count()]?;
    check_group(&mut last, system, first, group)
}

/// Checks the group of each call: `UnknownElement` for a price or a member of none, `Duplicate` for an element's second
/// price at a class in one group, told at its row. One table serves all groups, so a group costs as much as it has rows.
pub(crate) fn check_calls(alloc: Global, rows: &[Row], system: &System) -> Result<(), TextFault>
    ensures { Builds (λ made. made) result (spec.checked_calls system.now (calls_of rows.now)) }
{
    system.known();
    let mut last = vec![in alloc; 0u64; Class::COUNT * system.element_count()]?;
    let mut start = 0;
    'rows: for (at, row) in rows.iter().enumerate() {
        let Some(_) = event_of(row) else {
            continue;
        };
        check_group(&mut last, system, start as u64 + 1, &rows[start..at])?;
        start = at + 1;
    }
    Ok(())
}
