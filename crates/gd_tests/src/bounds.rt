//! What has flowed of a steady schedule, on days of 24, 23 and 25 hours.

ghost use Rattle.std.specs.Prelude.{◌≡◌, ◌≤◌};

use gd_bounds::elapsed_step;
use gd_units::Dth;
use std::process::Abort;

fn dth(rt: &impl Abort, number: u64) -> Dth
    ensures { result ≡ number }
{
    Dth::new(number).expect(rt, "a quantity")
}

/// The elapsed quantities at Intraday 1 to 3, which take effect 5, 9 and 13 hours into the gas day.
fn course(scheduled: Dth, day: u8) -> (u64, u64, u64)
    requires { 23 ≤ day }
{
    let first = elapsed_step(Dth::ZERO, scheduled, 5, day);
    let second = elapsed_step(first, scheduled, 4, day - 5);
    let third = elapsed_step(second, scheduled, 4, day - 9);
    (first.get(), second.get(), third.get())
}

#[test]
fn elapsed_of_a_steady_schedule(rt: HostRuntime) {
    let hundred = dth(&rt, 100);
    assert_eq!(rt; course(hundred, 24), (20, 36, 53));
    assert_eq!(rt; course(hundred, 23), (21, 38, 55));
    assert_eq!(rt; course(hundred, 25), (20, 36, 52));
    assert_eq!(rt; course(dth(&rt, 70), 24), (14, 25, 37));
}
