//! The bounds of a line's schedule in a cycle: what has flowed, its floor, and what is confirmed, its ceiling.
//!
//! Quantities are dekatherms a gas day. No call takes memory, and none refuses.
#![tactic(auto)]

ghost use Rattle.std.specs.Prelude.{◌≡◌, ◌≤◌, ◌+◌, ◌-◌, min, max, false};
ghost use Rattle.gd_rules.specs.Bounds as rules;

use gd_units::{Class, CycleNo, Dth};

/// What flows of a quantity in some of the hours that it has left, in whole dekatherms (own: rounded down).
fn flowed(quantity: u64, hours: u8, rest: u8) -> u64
    requires few { quantity ≤ Dth.MAX }
    requires some { 1 ≤ rest }
    requires within { hours ≤ rest }
    ensures is { result ≡ rules.flowed quantity hours rest }
    ensures bound { result ≤ quantity }
{
    quantity * u64::from(hours) / u64::from(rest)
}

/// The quantity of this number.
fn dekatherms(value: u64) -> Dth
    requires { value ≤ Dth.MAX }
    ensures { result ≡ value }
{
    match Dth::new(value) {
        Ok(quantity) => quantity,
        Err(_) => unreachable!(),
    }
}

/// The elapsed quantity when a cycle takes effect, from that of the former cycle (own formula and rounding): what the
/// schedule in effect still had to bring flows evenly over the hours `rest` that were left of the gas day, and `hours`
/// of them are over.
pub fn elapsed_step(elapsed: Dth, scheduled: Dth, hours: u8, rest: u8) -> Dth
    requires flowing { elapsed ≤ scheduled }
    requires some { 1 ≤ rest }
    requires within { hours ≤ rest }
    ensures is { result ≡ rules.elapsed_after elapsed scheduled hours rest }
    ensures rises { elapsed ≤ result }
    ensures bound { result ≤ scheduled }
{
    let left = scheduled.get() - elapsed.get();
    dekatherms(elapsed.get() + flowed(left, hours, rest))
}

/// The confirmed quantity of a line, its ceiling (own). The responses are those of this cycle at its origin and at its
/// destination. `former` is the schedule in effect before this cycle, at Timely the quantity carried over from the day
/// before.
pub fn confirmed(
    cycle: CycleNo,
    nominated: Dth,
    origin: Option<Dth>,
    dest: Option<Dth>,
    former: Dth,
    elapsed: Dth,
) -> Dth
    requires flowing { elapsed ≤ former }
    requires begun { cycle ≡ 1 → elapsed ≡ 0 }
    ensures is { result ≡ rules.confirmed cycle nominated origin dest former elapsed }
    ensures covers { elapsed ≤ result }
{
    if cycle.number() == 1 {
        let sent = origin.unwrap_or(former);
        let taken = dest.unwrap_or(former);
        return nominated.min(sent).min(taken);
    }
    match (origin, dest) {
        (Some(sent), Some(taken)) => nominated.min(sent).min(taken).max(elapsed),
        _ => former,
    }
}

/// Whether a line that is not waived is protected from being bumped: in Intraday 3 each line (NAESB WGQ 1.3.2), in
/// Intraday 1 and 2 firm lines (18 CFR 284.12), in Evening too (own), and in Timely none.
pub fn protected(cycle: CycleNo, class: Class) -> bool
    ensures { result ≡ rules.protected cycle class false }
{
    match cycle.number() {
        1 => false,
        5 => true,
        _ => class.number() <= 3,
    }
}

/// The floor of a line (own): the elapsed quantity, and for a protected line also what of the former schedule is
/// confirmed. A line that is waived is not protected.
pub fn floor(protected: bool, elapsed: Dth, former: Dth, confirmed: Dth) -> Dth
    requires { elapsed ≤ confirmed }
    ensures is { result ≡ rules.floor protected elapsed former confirmed }
    ensures covers { elapsed ≤ result }
    ensures bound { result ≤ confirmed }
{
    if protected {
        former.min(confirmed).max(elapsed)
    } else {
        elapsed
    }
}

/// By how much a line is bumped (own): what of the former schedule is confirmed, less the new schedule. In Timely nothing is.
pub fn bumped(cycle: CycleNo, former: Dth, confirmed: Dth, scheduled: Dth) -> Dth
    ensures { result ≡ rules.bumped cycle former confirmed scheduled }
{
    if cycle.number() == 1 {
        return Dth::ZERO;
    }
    dekatherms(former.min(confirmed).get().saturating_sub(scheduled.get()))
}
