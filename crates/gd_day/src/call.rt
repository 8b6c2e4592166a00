//! What a call of the book takes from the rows before it.

ghost use Rattle.std.specs.Prelude.{◌≡◌, Ok, Some, IfOk};
ghost use Rattle.std.specs.Result.{IsOk};
ghost use Rattle.gd_text.specs.Members.{members_of as set_of};
ghost use Rattle.gd_text.specs.Prices.{prices_of as table_of, ArePrices};
ghost use Rattle.gd_text.specs.Values.{quantities_of as quantities};
ghost use Rattle.gd_day.specs.Calls as spec;

use gd_certificate::{Cut, Prices};
use gd_cost::Tariff;
use gd_schedule::Schedule;
use gd_system::System;
use gd_text::{members_of, prices_of, quantities_of};
use gd_text_part::{EventRow, Row, TextFault};
use std::alloc::{AllocError, Global};

/// What a row calls, if it is a call.
pub fn event_of(row: &Row) -> Option<EventRow>
    ensures { result ≡ spec.event_of row.now }
{
    match *row {
        Row::Event(event) => Some(event),
        _ => None,
    }
}

/// The schedule that the `sched` rows of a group offer, in dekatherms a gas day. The only error is want of memory.
pub fn offered_schedule(alloc: Global, group: &[Row]) -> Result<Schedule, AllocError>
    ensures { IfOk result (λ schedule. schedule ≡ quantities group.now) }
{
    Ok(Schedule::of(quantities_of(alloc, group)?))
}

/// The prices that the `price` rows of a group offer: words that no row gives are 0. In a text that `day_text_of` passed each
/// group has them, so the only error is want of memory.
pub fn offered_prices(
    alloc: Global,
    group: &[Row],
    system: &System,
) -> Result<Prices<Tariff>, AllocError>
    requires { IsOk (table_of group.now system.now) }
    ensures { IfOk result (λ prices. IfOk (table_of group.now system.now)
        (λ table. ArePrices table prices)) }
{
    match prices_of(alloc, group, system) {
        Ok(table) => table.prices(alloc),
        Err(TextFault::OutOfMemory) => Err(AllocError),
        Err(_) => unreachable!(),
    }
}

/// The set that the `inside` rows of a group name. In a text that `day_text_of` passed each group has it, so the only error
/// is want of memory.
pub fn offered_cut(alloc: Global, group: &[Row], system: &System) -> Result<Cut, AllocError>
    requires { IsOk (set_of group.now system.now) }
    ensures { IfOk result (λ cut. set_of group.now system.now ≡ Ok cut) }
{
    match members_of(alloc, group, system) {
        Ok(table) => Ok(table.cut()),
        Err(TextFault::OutOfMemory) => Err(AllocError),
        Err(_) => unreachable!(),
    }
}
