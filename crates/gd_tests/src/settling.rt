//! The settling where nothing is proposed to it.

use crate::texts::asked;
use gd_cost::Lex;
use gd_flow::{Feasible, Repaired, repair};
use gd_mincost::{Best, settle, show_best};
use gd_network::Network;
use gd_question::Question;
use std::alloc::Global;
use std::process::Abort;

/// Two segments one after another, with a long line over both and short ones on each, of several classes. A pool takes gas
/// that leaves it again.
const MIXED: &str = "\
segment,S1,A,B,100,,,
segment,S2,B,C,90,,,
point,RA,receipt,A,OP,1000,,
point,RB,receipt,B,OP,1000,,
point,DB,delivery,B,OP,70,,
point,DC,delivery,C,OP,1000,,
pool,P,B,OP,,,,
question,DEMO,1,1,,,,
line,RA,DC,4,0,100,,
line,RA,DC,4,5,61,,
line,RA,DB,4,0,100,,
line,RB,DC,3,0,40,,
line,RA,P,8,0,100,,
line,P,DC,6,20,30,,
line,P,DB,2,0,7,,
";

/// The flow that the repair finds from the floors.
fn feasible<'q>(rt: &impl Abort, alloc: Global, question: &'q Question) -> Feasible<'q> {
    let network = Network::of(alloc, question).expect(rt, "memory");
    match repair(alloc, network).expect(rt, "memory") {
        Repaired::Feasible(feasible) => feasible,
        Repaired::Impossible(_) => panic!(rt; "no schedule is allowed"),
    }
}

fn is_best(best: &Best<'_, Lex<8>>) -> bool {
    let amounts = best.flow().amounts();
    amounts.len() == best.network().arc_count()
        && show_best::<Lex<8>>(best.network(), amounts, best.potentials())
}

/// Of that flow, a best one by classes alone.
fn settles(rt: &impl Abort, alloc: Global, question: &Question) {
    let best = settle::<Lex<8>>(alloc, feasible(rt, alloc, question));
    assert!(rt; is_best(&best.expect(rt, "memory")));
}

/// Where nothing is proposed, the settling finds potentials of its own.
#[test]
fn nothing_is_proposed(rt: HostRuntime) {
    settles(&rt, rt.alloc(), &asked(&rt, rt.alloc(), MIXED).question);
}
