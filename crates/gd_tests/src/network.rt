//! A network of one segment of 100 between two places, a receipt point, a delivery point and two lines.

use crate::texts::{asked, scheduled};
use gd_network::Network;
use gd_question::{Element, Question};
use gd_schedule::Schedule;
use std::alloc::{AllocError, Global};
use std::process::Abort;

const TWO_LINES: &str = "\
segment,S1,A,B,100,,,
point,R1,receipt,A,OP,1000,,
point,D1,delivery,B,OP,1000,,
question,DEMO,1,1,,,,
line,R1,D1,1,0,80,,
line,R1,D1,4,33,50,,
";

const FLOORS: [i64; 23] = [
    33, 33, 33, 0, 0, 0, 0, 0, 0, 0, 0, 0, 0, 5, 5, 5, 5, 5, 5, 3, 0, 0, 0,
];

/// The arcs, nodes and links of the two lines' network.
fn shows_arcs(rt: &impl Abort, network: &Network<'_>) {
    assert_eq!(rt; network.node_count(), 4);
    assert_eq!(rt; network.arc_count(), 23);
    assert!(rt; network.ends(Element(0)) == Some((0, 1)));
    assert!(rt; network.ends(Element(2)) == Some((1, 3)));
    assert!(rt; network.ends(Element(3)).is_none());
    assert_eq!(rt; network.links(0), [0, 1].as_slice());
    assert_eq!(rt; network.links(3).len(), 21);
}

/// The network of no schedule begins with the floors.
fn shows_floors(rt: &impl Abort, network: &Network<'_>) {
    assert_eq!(rt; network.first().amounts(), FLOORS.as_slice());
}

fn shows(rt: &impl Abort, alloc: Global, question: &Question) {
    let network = Network::of(alloc, question).expect(rt, "memory");
    shows_arcs(rt, &network);
    shows_floors(rt, &network);
}

#[test]
fn arcs_links_and_floors(rt: HostRuntime) {
    shows(&rt, rt.alloc(), &asked(&rt, rt.alloc(), TWO_LINES).question);
}

/// The schedule of a schedule's flow; `None` where it isn't allowed.
fn there_and_back(
    alloc: Global,
    question: &Question,
    schedule: &Schedule,
) -> Result<Option<Schedule>, AllocError> {
    let network = Network::of(alloc, question)?;
    let Ok(()) = schedule.allowed(alloc, question) else {
        return Ok(None);
    };
    let flow = network.flow_of(alloc, schedule)?;
    let back = network.schedule_of(alloc, &flow)?;
    Ok(Some(back))
}

/// A schedule's flow gives it back.
fn comes_back(rt: &impl Abort, alloc: Global, question: &Question) {
    let schedule = scheduled(rt, alloc, [63, 37].as_slice());
    let back = there_and_back(alloc, question, &schedule).expect(rt, "memory");
    assert_eq!(rt;
        back.expect(rt, "allowed").quantities(),
        schedule.quantities()
    );
}

#[test]
fn flows_come_back(rt: HostRuntime) {
    comes_back(&rt, rt.alloc(), &asked(&rt, rt.alloc(), TWO_LINES).question);
}
