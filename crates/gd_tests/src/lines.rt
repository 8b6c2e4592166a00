//! Nominations on two lines, their intake, and as many lines as there may be.

ghost use Rattle.std.specs.Prelude.{◌≡◌, ◌≤◌, All};

use gd_lines::{LineKey, Lines, LinesFault};
use gd_units::{Class, CycleNo, Dth, Name};
use std::alloc::{AllocError, Global};
use std::process::Abort;
use std::test::Fail;

fn name(rt: &impl Abort, text: &[u8]) -> Name {
    Name::of_bytes(text).expect(rt, "a name")
}

fn timely(rt: &impl Abort) -> CycleNo {
    CycleNo::new(1).expect(rt, "a cycle")
}

/// A line of the contract FIRM, by its package.
fn line(rt: &impl Abort, package: &[u8]) -> LineKey {
    LineKey {
        contract: name(rt, b"FIRM"),
        package: name(rt, package),
        origin: name(rt, b"R1"),
        dest: name(rt, b"D1"),
    }
}

/// A nomination of a line of class 1, for a cycle that no former one is after.
fn nominate(
    rt: &impl Abort,
    lines: &mut Lines,
    cycle: CycleNo,
    key: LineKey,
    quantity: u64,
) -> Result<u32, LinesFault>
    requires { All (λ former. former.cycle ≤ cycle) lines.old }
    ensures { All (λ former. former.cycle ≤ cycle) lines.new }
{
    let class = Class::new(1).expect(rt, "a class");
    let quantity = Dth::new(quantity).expect(rt, "a quantity");
    lines.accept(key, cycle, class, quantity)
}

/// 70 on one line, and 90 and then 60 on another.
fn nominate_two(rt: &impl Abort, lines: &mut Lines, cycle: CycleNo) -> Result<(), LinesFault>
    requires { All (λ former. former.cycle ≤ cycle) lines.old }
{
    assert_eq!(rt; nominate(rt, lines, cycle, line(rt, b"P"), 70)?, 0);
    assert_eq!(rt; nominate(rt, lines, cycle, line(rt, b"Q"), 90)?, 1);
    assert_eq!(rt; nominate(rt, lines, cycle, line(rt, b"Q"), 60)?, 1);
    Ok(())
}

fn shows_intake(
    rt: &impl Abort,
    alloc: Global,
    lines: &Lines,
    cycle: CycleNo,
) -> Result<(), AllocError> {
    let taken = lines.intake(alloc, cycle)?;
    let mut wanted = [(0, 70), (1, 90), (1, 60)].into_iter();
    for (line, quantity) in &taken {
        assert_eq!(rt; Some((*line, quantity.get())), wanted.next());
    }
    assert_eq!(rt; wanted.next(), None);
    Ok(())
}

#[test]
fn intake_of_timely(rt: HostRuntime) -> Result<(), Fail> {
    let mut lines = Lines::new(rt.alloc());
    let cycle = timely(&rt);
    nominate_two(&rt, &mut lines, cycle)?;
    shows_intake(&rt, rt.alloc(), &lines, cycle)?;
    Ok(())
}

/// A line of its own for each number, by a package of five digits.
fn numbered(rt: &impl Abort, number: u32) -> LineKey {
    let mut bytes = [b'0'; 5];
    let mut left = number;
    for at in 0..5 {
        bytes[4 - at] = b'0' + (left % 10) as u8;
        left /= 10;
    }
    line(rt, &bytes)
}

/// As many lines as there may be, and one more.
fn fill(rt: &impl Abort, lines: &mut Lines, cycle: CycleNo)
    requires { All (λ former. former.cycle ≤ cycle) lines.old }
{
    for at in 0..20_001 {
        let told = nominate(rt, lines, cycle, numbered(rt, at), 1);
        let wanted = if at < 20_000 {
            Ok(at)
        } else {
            Err(LinesFault::TooManyLines)
        };
        assert_eq!(rt; told, wanted);
    }
}

#[test]
fn no_more_than_20_000_lines(rt: HostRuntime) {
    let mut lines = Lines::new(rt.alloc());
    fill(&rt, &mut lines, timely(&rt));
    assert_eq!(rt; lines.len(), 20_000);
}
