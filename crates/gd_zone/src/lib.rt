//! Gas days and their calendars by the clock of a time zone: the moments of the 29 civil times (NAESB WGQ 1.3.1 and 1.3.2).
//!
//! Only `GasDay::calendar` takes memory.
#![tactic(auto)]

mod clock;
mod gas_day;

pub use gas_day::{CalendarFault, GasDay, GasDayFault};
