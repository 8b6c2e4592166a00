//! A capacity falls below a firm floor: declared cuts, a skip, a waiver and a stale round.

use crate::calls::{Call, Row, Told};
use gd_book::Refusal;

/// 80 that are carried over flow in Timely and Evening. Then at least 80 must flow through 60: Intraday 1 is skipped, and in
/// Intraday 2 the line gives up its protection, so that all that has flowed, 29, is left of its floor.
pub(crate) static CUT_DAY: [Row; 25] = [
    (
        1772910000,
        Call::Nominate("FIRM", "C", 80),
        Told::Accepted(1, 1, 0),
    ),
    (1772922600, Call::Freeze, Told::Frozen(2, 1, 1, 1)),
    (1772922600, Call::Ask(0), Told::Asked(1, 0, 80)),
    (1772922600, Call::Settle, Told::Published(3, 1, 1, (0, 0))),
    (1772922600, Call::Read(1, 0), Told::Posted(80)),
    (1772937000, Call::Freeze, Told::Frozen(4, 2, 2, 1)),
    (1772937000, Call::Ask(0), Told::Asked(1, 80, 80)),
    (1772937000, Call::Settle, Told::Published(5, 2, 2, (0, 0))),
    (1772937000, Call::Read(2, 0), Told::Posted(80)),
    (1772985000, Call::Post(60), Told::Done(6)),
    (1772991000, Call::Freeze, Told::Frozen(7, 3, 3, 1)),
    (1772991000, Call::Ask(0), Told::Asked(1, 80, 80)),
    (1772991000, Call::Declare(3), Told::Declared(8, 3, 3)),
    (1772991100, Call::Skip, Told::Done(9)),
    (1773007200, Call::Freeze, Told::Frozen(10, 4, 4, 1)),
    (1773007200, Call::Ask(0), Told::Asked(1, 80, 80)),
    (1773007200, Call::Declare(4), Told::Declared(11, 4, 4)),
    (1773007300, Call::Waive(0), Told::Done(12)),
    (1773007300, Call::Freeze, Told::Frozen(13, 4, 5, 1)),
    (1773007300, Call::Ask(0), Told::Asked(1, 29, 80)),
    (
        1773007300,
        Call::Offer,
        Told::Refused(Refusal::StaleRound(5)),
    ),
    (1773007300, Call::Settle, Told::Published(14, 4, 5, (0, 20))),
    (1773007300, Call::Read(4, 0), Told::Posted(60)),
    (1773007400, Call::Offer, Told::Refused(Refusal::NotFrozen)),
    (1773007400, Call::Sum, Told::Sums(1, 80, 2)),
];
