//! A copy of a schedule, and tenths that end between two dekatherms.

use gd_schedule::{Schedule, tenth_of};
use gd_units::Dth;
use std::test::Fail;

#[test]
fn a_copy(rt: HostRuntime) -> Result<(), Fail> {
    let mut quantities = Vec::new(rt.alloc());
    quantities.push(Dth::ZERO)?;
    let schedule = Schedule::of(quantities);
    let copy = schedule.try_clone(rt.alloc())?;
    assert_eq!(rt; copy.quantities(), schedule.quantities());
    Ok(())
}

/// The tenths of 25 end at 2, 5, 7, 10 and so on; those of 1 at 0, but for the last.
#[test]
fn tenths(rt: HostRuntime) -> Result<(), Fail> {
    for (ceiling, dekatherm, tenth) in [
        (25, 2, 1),
        (25, 5, 2),
        (25, 6, 3),
        (25, 8, 4),
        (1, 1, 10),
    ] {
        let ceiling = Dth::new(ceiling).ok().ok_or("no quantity")?;
        assert!(rt; 1 <= dekatherm);
        assert_eq!(rt;
            tenth_of(ceiling, dekatherm),
            tenth,
            "dekatherm {dekatherm}"
        );
    }
    Ok(())
}
