//! An interruptible line before a new firm one: it is bumped in Evening, and not in Intraday 3.

use crate::calls::{Call, Row, Told, day};
use gd_book::Refusal;
use gd_units::End;

/// Timely with the interruptible line alone. In Evening the firm line takes 20 from it.
static BUMPED: [Row; 19] = [
    (
        1772910900,
        Call::Nominate("INT", "P", 70),
        Told::Accepted(1, 1, 0),
    ),
    (
        1772910901,
        Call::Nominate("FIRM", "P", 50),
        Told::Accepted(2, 2, 1),
    ),
    (1772910902, Call::Respond(0, End::Origin, 70), Told::Done(3)),
    (1772910903, Call::Respond(0, End::Dest, 70), Told::Done(4)),
    (
        1772910904,
        Call::Respond(1, End::Origin, 50),
        Told::Refused(Refusal::UnknownLine),
    ),
    (1772922599, Call::Freeze, Told::Refused(Refusal::TooEarly)),
    (1772922600, Call::Freeze, Told::Frozen(5, 1, 1, 1)),
    (1772922600, Call::Ask(0), Told::Asked(4, 0, 70)),
    (1772922600, Call::Settle, Told::Published(6, 1, 1, (0, 0))),
    (1772922600, Call::Read(1, 0), Told::Posted(70)),
    (1772930000, Call::Respond(1, End::Origin, 50), Told::Done(7)),
    (1772930000, Call::Respond(1, End::Dest, 50), Told::Done(8)),
    (1772937000, Call::Freeze, Told::Frozen(9, 2, 2, 2)),
    (1772937000, Call::Ask(0), Told::Asked(4, 0, 70)),
    (1772937000, Call::Ask(1), Told::Asked(1, 0, 50)),
    (1772937000, Call::Settle, Told::Published(10, 2, 2, (0, 20))),
    (1772937000, Call::Read(2, 0), Told::Posted(50)),
    (1772937000, Call::Read(2, 1), Told::Posted(50)),
    (1772937000, Call::Sum, Told::Sums(2, 120, 6)),
];

/// Four cycles of the interruptible line alone, with what has flowed of its 70 as its floor, and Intraday 3 with the firm
/// line.
static PROTECTED: [Row; 28] = [
    (
        1772910000,
        Call::Nominate("INT", "P", 70),
        Told::Accepted(1, 1, 0),
    ),
    (1772910000, Call::Respond(0, End::Origin, 70), Told::Done(2)),
    (1772910000, Call::Respond(0, End::Dest, 70), Told::Done(3)),
    (1772922600, Call::Freeze, Told::Frozen(4, 1, 1, 1)),
    (1772922600, Call::Ask(0), Told::Asked(4, 0, 70)),
    (1772922600, Call::Settle, Told::Published(5, 1, 1, (0, 0))),
    (1772922600, Call::Read(1, 0), Told::Posted(70)),
    (1772937000, Call::Freeze, Told::Frozen(6, 2, 2, 1)),
    (1772937000, Call::Ask(0), Told::Asked(4, 0, 70)),
    (1772937000, Call::Settle, Told::Published(7, 2, 2, (0, 0))),
    (1772937000, Call::Read(2, 0), Told::Posted(70)),
    (1772991000, Call::Freeze, Told::Frozen(8, 3, 3, 1)),
    (1772991000, Call::Ask(0), Told::Asked(4, 14, 70)),
    (1772991000, Call::Settle, Told::Published(9, 3, 3, (0, 0))),
    (1772991000, Call::Read(3, 0), Told::Posted(70)),
    (1773007200, Call::Freeze, Told::Frozen(10, 4, 4, 1)),
    (1773007200, Call::Ask(0), Told::Asked(4, 25, 70)),
    (1773007200, Call::Settle, Told::Published(11, 4, 4, (0, 0))),
    (1773007200, Call::Read(4, 0), Told::Posted(70)),
    (
        1773015300,
        Call::Nominate("FIRM", "P", 50),
        Told::Accepted(12, 5, 1),
    ),
    (
        1773015300,
        Call::Respond(1, End::Origin, 50),
        Told::Done(13),
    ),
    (1773015300, Call::Respond(1, End::Dest, 50), Told::Done(14)),
    (1773023400, Call::Freeze, Told::Frozen(15, 5, 5, 2)),
    (1773023400, Call::Ask(0), Told::Asked(4, 70, 70)),
    (1773023400, Call::Ask(1), Told::Asked(1, 0, 50)),
    (1773023400, Call::Settle, Told::Published(16, 5, 5, (0, 0))),
    (1773023400, Call::Read(5, 0), Told::Posted(70)),
    (1773023400, Call::Read(5, 1), Told::Posted(30)),
];

#[test]
fn bumped_in_evening(rt: HostRuntime) {
    day(&rt, rt.alloc(), "OTHER", BUMPED.as_slice());
}

#[test]
fn not_bumped_in_intraday_3(rt: HostRuntime) {
    day(&rt, rt.alloc(), "OTHER", PROTECTED.as_slice());
}
