//! A worked day: gone on with and printed, cut anywhere, and faults that are not kept.

use crate::day::{FROZEN, OPENED, TEXT, THREE, TOLD, TWO, UNREAD, parts};
use crate::disks::{behind, new_disks};
use crate::streams::End;
use crate::works::{audits, printing, serves};
use gasday_part::{answer_of, write_answer};
use gasday_words::Command;
use std::alloc::Global;
use std::process::Abort;
use std::thread::Threads;

/// `day` answers a text with what was told of its book.
fn tells_again(rt: &(impl Threads + Sync + Abort), alloc: Global, text: &[u8]) {
    let mut told = Vec::new(alloc);
    let answer = answer_of(rt, alloc, Command::Day, text);
    assert!(rt; write_answer(alloc, &mut told, &answer) == 0);
    assert!(rt; told.as_slice() == TOLD.split_at(OPENED).1);
}

/// A book is opened and told of, gone on with in a second run, and audited; and what is printed of it runs again to what was told.
#[test]
fn what_is_printed_runs_again(rt: HostRuntime) {
    let [opening, first, later] = parts();
    let (told, more) = TOLD.split_at(FROZEN);
    let disks = new_disks(rt.alloc(), u64::MAX);
    let disks = serves(
        &rt,
        rt.alloc(),
        disks,
        ([opening, first, b""], End::Good),
        0,
        (told, b""),
    );
    let disks = audits(&rt, rt.alloc(), disks, TWO);
    let told = (b"opened,DEMO,7,5,,,,\n".as_slice(), more);
    let disks = serves(
        &rt,
        rt.alloc(),
        disks,
        ([later, b"", b""], End::Good),
        0,
        told,
    );
    let disks = audits(&rt, rt.alloc(), disks, THREE);
    let mut work = printing(rt.alloc(), 10_000);
    behind(&rt, rt.alloc(), disks, &mut work);
    assert!(rt; work.status == 0);
    tells_again(&rt, rt.alloc(), work.writer.got.as_slice());
}

/// The text comes by two reads, cut behind any of its bytes.
#[test]
fn cut_anywhere_it_is_told_the_same(rt: HostRuntime) {
    for at in 0..=TEXT.len() {
        let (first, rest) = TEXT.split_at(at);
        let disks = new_disks(rt.alloc(), u64::MAX);
        serves(
            &rt,
            rt.alloc(),
            disks,
            ([first, rest, b""], End::Good),
            0,
            (TOLD, b""),
        );
    }
}

/// A call, an empty line, rows that are none, and calls behind rows that they don't take.
const FAULTY: &[u8] = b"nominate,1772910900,SHIP,INT,P,R1,D1,70

respond,1772910902,OPR,1,orgin,70,,\r
\"skip\",1772910902,,,,,,
carry,INT,P,R1,D1,5,,
sched,1,70,,,,,
skip,1772910903,,,,,,
price,S2,4,1,,,,
publish,1772910904,1,,,,,
";

const FAULTY_TOLD: &[u8] = b"opened,DEMO,0,0,,,,
accepted,1,1,1,,,,

fault,2,BadField,5,,,,
fault,3,FieldCount,,,,,
fault,4,Order,,,,,
fault,5,Order,,,,,
fault,7,UnknownElement,,,,,
";

/// Runs one after the other, of which one opens a book and one keeps a call: a call where no book is, an opening that ends within
/// a row, the opening, faulty rows, and a call that ends within a row.
#[test]
fn faults_are_told_and_not_kept(rt: HostRuntime) {
    let [opening, first, _] = parts();
    let runs: [(&[u8], u8, (&[u8], &[u8])); 5] = [
        (first, 2, (b"fault,1,Missing,,,,,\n", b"")),
        (TEXT.split_at(30).0, 2, (UNREAD, b"")),
        (opening, 0, (b"opened,DEMO,0,0,,,,\n", b"")),
        (FAULTY, 1, (FAULTY_TOLD, b"")),
        (b"skip,1772910901", 2, (b"opened,DEMO,1,1,,,,\n", UNREAD)),
    ];
    let mut disks = new_disks(rt.alloc(), u64::MAX);
    for (input, status, told) in runs {
        disks = serves(
            &rt,
            rt.alloc(),
            disks,
            ([input, b"", b""], End::Good),
            status,
            told,
        );
    }
    audits(&rt, rt.alloc(), disks, b"replayed,DEMO,1,1,0,,,\n");
}
