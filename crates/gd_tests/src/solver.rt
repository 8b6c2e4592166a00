//! The solver.

use crate::texts::{asked, scheduled};
use gd_certificate::check;
use gd_question::Question;
use gd_solver::{Answer, solve_from};
use std::alloc::Global;
use std::process::Abort;

/// Two segments one after another, a long line over both, and a short one on each.
const LONG_AND_SHORT: &str = "\
segment,S1,A,B,100,,,
segment,S2,B,C,100,,,
point,RA,receipt,A,OP,1000,,
point,RB,receipt,B,OP,1000,,
point,DB,delivery,B,OP,1000,,
point,DC,delivery,C,OP,1000,,
question,DEMO,1,1,,,,
line,RA,DC,4,0,100,,
line,RA,DB,4,0,100,,
line,RB,DC,4,0,100,,
";

/// Whether the answer is these quantities, with prices that pass.
fn is_best(alloc: Global, question: &Question, answer: &Answer, numbers: &[u64]) -> bool {
    let Answer::Best(schedule, prices) = answer else {
        return false;
    };
    let given = schedule.quantities().iter().map(|quantity| quantity.get());
    check(alloc, question, schedule, prices).is_ok() && given.eq(numbers.iter().copied())
}

/// Which schedule it begins from makes no difference here.
fn solves_from(rt: &impl Abort, alloc: Global, question: &Question, numbers: &[u64]) {
    let first = scheduled(rt, alloc, numbers);
    let answer = solve_from(alloc, question, &first).expect(rt, "memory");
    assert!(rt; is_best(alloc, question, &answer, [0, 100, 100].as_slice()));
}

/// A schedule to begin with may be too short or too long, and its quantities too large.
fn solves_from_each(rt: &impl Abort, alloc: Global, question: &Question) {
    solves_from(rt, alloc, question, [100, 0].as_slice());
    solves_from(rt, alloc, question, [50, 50, 50].as_slice());
    solves_from(rt, alloc, question, [1_000_000_000; 7].as_slice());
}

#[test]
fn begins_from_any_schedule(rt: HostRuntime) {
    let asked = asked(&rt, rt.alloc(), LONG_AND_SHORT);
    solves_from_each(&rt, rt.alloc(), &asked.question);
}
