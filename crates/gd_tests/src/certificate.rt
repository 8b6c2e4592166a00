//! A certificate by classes alone, and copies. The program runs the rest.

use crate::texts::asked;
use gd_certificate::{CertFault, Checked, Cut, Prices, check_classes, check_par};
use gd_cost::{Cost, Lex, Pair};
use gd_question::Question;
use gd_schedule::Schedule;
use gd_text::Asked;
use std::alloc::{AllocError, Global};
use std::process::Abort;
use std::test::Fail;
use std::thread::Threads;

/// A line of class 1 and one of class 4 over a segment of 100.
const TWO_LINES: &str = "\
segment,S1,A,B,100,,,
point,R1,receipt,A,OP,1000,,
point,D1,delivery,B,OP,1000,,
question,DEMO,1,1,,,,
line,R1,D1,1,0,80,,
line,R1,D1,4,0,50,,
sched,1,80,,,,,
sched,2,20,,,,,
";

/// A number at the word of class 4.
fn at_class_4(number: i128) -> Lex<8> {
    Lex::of([0, 0, 0, number, 0, 0, 0, 0])
}

/// The segment's price, and none at the points.
fn priced<C: Cost + Drop>(alloc: Global, value: C) -> Result<Prices<C>, AllocError> {
    let mut values = Vec::new(alloc);
    values.push(value)?;
    values.push(C::zero())?;
    values.push(C::zero())?;
    Ok(Prices::of(values))
}

/// What the check by classes alone tells at a price of so much at class 4.
fn told(
    rt: &impl Abort,
    alloc: Global,
    question: &Question,
    schedule: &Schedule,
    number: i128,
) -> Result<(), CertFault> {
    let prices = priced(alloc, at_class_4(number)).expect(rt, "memory");
    check_classes(alloc, question, schedule, &prices)
}

/// Two prices with what the check by classes alone tells of them.
fn tells(rt: &impl Abort, alloc: Global, asked: &Asked) {
    for (number, answer) in [(1, Ok(())), (0, Err(CertFault::Underfilled(1)))] {
        assert_eq!(rt;
            told(rt, alloc, &asked.question, &asked.schedule, number),
            answer
        );
    }
}

#[test]
fn by_classes(rt: HostRuntime) {
    tells(&rt, rt.alloc(), &asked(&rt, rt.alloc(), TWO_LINES));
}

/// The schedule, checked by several threads.
fn checked(rt: &(impl Threads + Sync + Abort), alloc: Global) -> Checked {
    let Asked { question, schedule } = asked(rt, alloc, TWO_LINES);
    let prices = priced(alloc, Pair::of(at_class_4(1), at_class_4(-4))).expect(rt, "memory");
    let checked = check_par(rt, alloc, question, schedule, prices);
    checked.ok().expect(rt, "a certificate")
}

/// The last quantity of the schedule, where lines and prices are as many as in the question.
fn shown(rt: &impl Abort, checked: &Checked) -> u64 {
    checked.known();
    assert_eq!(rt; checked.question().line_count(), 2);
    assert_eq!(rt; checked.prices().values().len(), 3);
    assert_eq!(rt; checked.schedule().len(), 2);
    checked.schedule().quantity(1).get()
}

fn shown_of_a_copy(rt: &impl Abort, alloc: Global, checked: &Checked) -> u64 {
    shown(rt, &checked.try_clone(alloc).expect(rt, "memory"))
}

#[test]
fn copy_of_a_certificate(rt: HostRuntime) {
    assert_eq!(rt;
        shown_of_a_copy(&rt, rt.alloc(), &checked(&rt, rt.alloc())),
        20
    );
}

/// All but the pool is inside.
fn all_but_the_pool(alloc: Global) -> Result<Cut, AllocError> {
    Ok(Cut::of(
        vec![in alloc; true; 2]?,
        vec![in alloc; true; 2]?,
        vec![in alloc; false; 1]?,
    ))
}

#[test]
fn copy_of_a_cut(rt: HostRuntime) -> Result<(), Fail> {
    let cut = all_but_the_pool(rt.alloc())?;
    let same = cut.try_clone(rt.alloc())?;
    assert_eq!(rt;
        (same.places().len(), same.points().len(), same.pools().len()),
        (2, 2, 1)
    );
    Ok(())
}
