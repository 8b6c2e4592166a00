//! Desks that are held at a gate until two of them are there: of two books, and of one.

use crate::day::{at, dth, name};
use crate::office::calls::{Said, nominate, reconciles, session};
use crate::office::day::{NOMINATED, line, office};
use crate::office::desks::{round, told_by};
use crate::office::types::{Office, Slot};
use gd_board::Board;
use gd_book::{Refusal, Reply};
use gd_desk::Gate;
use gd_lines::LineKey;
use gd_office_part::{Call, Receipt, SessionRows, send};
use gd_units::{CycleNo, Dth, Moment, Name};
use std::alloc::Global;
use std::process::Abort;
use std::sync::Wait;
use std::sync::atomic::{AtomicBool, AtomicU32, Ordering};
use std::thread;
use std::thread::Threads;
use std::time::{Clock, Duration};

/// How often a desk looks for the other one, a millisecond apart.
const TURNS: u32 = 10_000;

/// A gate that lets desks pass once two are in it.
#[derive(Drop)]
struct Together {
    inside: AtomicU32,
    gave_up: AtomicBool,
}

impl Together {
    fn new() -> Together {
        Together {
            inside: AtomicU32::new(0),
            gave_up: AtomicBool::new(false),
        }
    }

    /// Whether each desk that passed met the other one.
    fn met(&self) -> bool {
        self.inside.load(Ordering::SeqCst) == 2 && !self.gave_up.load(Ordering::SeqCst)
    }
}

impl Gate for Together {
    fn pass<R: Wait + Clock>(&self, rt: &R, _slot: u32) {
        self.inside.fetch_add(1, Ordering::SeqCst);
        for _ in 0..TURNS {
            if self.inside.load(Ordering::SeqCst) >= 2 {
                return;
            }
            thread::sleep(rt, Duration::from_millis(1));
        }
        self.gave_up.store(true, Ordering::SeqCst);
    }
}

/// A gate that then holds the desk of slot 1 until a nomination in its book is answered and slot 2 has its posting. So no
/// desk holds its lock there, nor waits for another one to close.
#[derive(Drop)]
struct Crossing<'o> {
    together: Together,
    office: &'o Office,
    party: Name,
    moment: Moment,
    key: LineKey,
    quantity: Dth,
}

impl Crossing<'_> {
    fn nominates<R: Wait>(&self, rt: &R) -> bool {
        match self.office.session(rt, 1, self.party) {
            Ok(session) => {
                let mut session = session;
                session
                    .nominate(rt, self.moment, self.key, self.quantity)
                    .is_ok()
            }
            Err(_) => false,
        }
    }

    fn sees_posting<R: Wait + Clock>(&self, rt: &R, board: &Board) -> bool {
        for _ in 0..TURNS {
            if board.read(CycleNo::ALL[0], &mut board.note()).is_some() {
                return true;
            }
            thread::sleep(rt, Duration::from_millis(1));
        }
        false
    }

    fn crosses<R: Wait + Clock>(&self, rt: &R) -> bool {
        match self.office.board(2) {
            Some(board) => self.nominates(rt) && self.sees_posting(rt, board),
            None => false,
        }
    }
}

impl Gate for Crossing<'_> {
    fn pass<R: Wait + Clock>(&self, rt: &R, slot: u32) {
        self.together.pass(rt, slot);
        if slot == 1 && !self.crosses(rt) {
            self.together.gave_up.store(true, Ordering::SeqCst);
        }
    }
}

/// A session of the slot at a place, which nominates a quantity.
fn rows(rt: &impl Abort, alloc: Global, slot: usize, quantity: u64) -> SessionRows {
    let call = Call::Nominate {
        moment: at(rt, NOMINATED),
        key: line(rt, "P"),
        quantity: dth(rt, quantity),
    };
    SessionRows {
        slot,
        party: name(rt, "SHIP"),
        calls: Vec::from_slice(alloc, &[call]).expect(rt, "memory"),
    }
}

/// Nominates in both books, and hands out the receipts of each session.
fn send_to_both(
    rt: &(impl Abort + Threads + Wait + Sync),
    alloc: Global,
    office: &Office,
) -> Vec<Vec<Receipt>> {
    let mut sessions = [
        session(rt, office, 1, "SHIP"),
        session(rt, office, 2, "SHIP"),
    ];
    let rows = [rows(rt, alloc, 0, 70), rows(rt, alloc, 1, 60)];
    let slots = office.slots();
    let sent = send(rt, alloc, slots, sessions.as_mut_slice(), rows.as_slice());
    sent.expect(rt, "receipts")
}

/// Shows that all receipts are of this slot.
fn shows_slot(rt: &impl Abort, receipts: &[Receipt], slot: u32) {
    for receipt in receipts {
        assert_eq!(rt; receipt.slot(), slot);
    }
}

/// Shows that a slot's desk published as this event, and that its receipts and its session's are all of its book.
fn shows_desk(
    rt: &(impl Abort + Wait),
    alloc: Global,
    office: &Office,
    slot: u32,
    lists: [Vec<Receipt>; 2],
    published: u64,
) {
    let [desk, sent] = &lists;
    let told = (Said::Frozen(2, 1, 1, 1), Said::Published(published, 1, 1));
    assert_eq!(rt; told_by(rt, desk.as_slice()), told);
    shows_slot(rt, desk.as_slice(), slot);
    shows_slot(rt, sent.as_slice(), slot);
    reconciles(rt, alloc, office, slot, lists.as_slice(), Ok(published));
}

/// The desks of two books meet at a gate. The nomination at the gate of slot 1 is its third event.
fn two_books(
    rt: &(impl Abort + Threads + Wait + Clock + Sync),
    alloc: Global,
    office: &Office,
    gate: &Crossing<'_>,
) {
    let mut sent = send_to_both(rt, alloc, office);
    let mut desks = round(rt, alloc, office, gate);
    assert!(rt; gate.together.met());
    assert_eq!(rt; (desks.len(), sent.len()), (2, 2));
    for (slot, published) in [(2, 3), (1, 4)] {
        let desk = desks.pop().expect(rt, "a desk");
        let lists = [desk, sent.pop().expect(rt, "a session")];
        shows_desk(rt, alloc, office, slot, lists, published);
    }
}

/// A gate that two desks cross, with a nomination for Evening.
fn gate_over<'o>(rt: &impl Abort, office: &'o Office) -> Crossing<'o> {
    Crossing {
        together: Together::new(),
        office,
        party: name(rt, "SHIP"),
        moment: at(rt, NOMINATED),
        key: line(rt, "P"),
        quantity: dth(rt, 10),
    }
}

#[test]
fn desks_of_two_books(rt: HostRuntime) {
    let office = office(&rt, rt.alloc(), ["BOOK1", "BOOK2"].as_slice());
    two_books(&rt, rt.alloc(), &office, &gate_over(&rt, &office));
}

/// Shows that a book has three events, of which the third is its only publish.
fn published_once(rt: &(impl Abort + Wait), slot: &Slot) {
    let kept = slot.lock(rt);
    let history = kept.book().history();
    assert_eq!(rt; history.len(), 3);
    for (at, event) in history.iter().enumerate() {
        let is_publish = matches!(event.1, Reply::Published { .. });
        assert_eq!(rt; is_publish, at == 2);
    }
}

/// The receipts of the desk of one book.
fn desk(
    rt: &(impl Abort + Threads + Wait + Clock + Sync),
    alloc: Global,
    office: &Office,
    gate: &Together,
) -> Vec<Receipt> {
    let mut desks = round(rt, alloc, office, gate);
    desks.pop().expect(rt, "a desk")
}

/// Two rounds of the desk of one book at once.
fn two_rounds(
    rt: &(impl Abort + Threads + Wait + Clock + Sync),
    alloc: Global,
    office: &Office,
    gate: &Together,
) -> [Vec<Receipt>; 2] {
    let (one, two) = thread::join(
        rt,
        || desk(rt, alloc, office, gate),
        || desk(rt, alloc, office, gate),
    );
    [one, two]
}

/// Shows what two receipts tell, whichever of both came first.
fn shows_either(rt: &impl Abort, one: Said, two: Said, wanted: (Said, Said)) {
    if one == wanted.0 {
        assert_eq!(rt; two, wanted.1);
    } else {
        assert_eq!(rt; (two, one), wanted);
    }
}

/// Shows that one desk froze and one published, and that the other one was refused each time.
fn shows_rounds(rt: &impl Abort, lists: &[Vec<Receipt>; 2]) {
    let [one, two] = lists;
    let (one, two) = (told_by(rt, one.as_slice()), told_by(rt, two.as_slice()));
    let froze = (Said::Frozen(2, 1, 1, 1), Said::Refused(2, Refusal::Frozen));
    shows_either(rt, one.0, two.0, froze);
    let closed = (
        Said::Published(3, 1, 1),
        Said::Refused(3, Refusal::NotFrozen),
    );
    shows_either(rt, one.1, two.1, closed);
}

/// Two desks of one book meet at a gate.
fn one_book(
    rt: &(impl Abort + Threads + Wait + Clock + Sync),
    alloc: Global,
    office: &Office,
    gate: &Together,
) {
    let _receipt = nominate(rt, &mut session(rt, office, 1, "SHIP"), "P", 70);
    let lists = two_rounds(rt, alloc, office, gate);
    assert!(rt; gate.met());
    shows_rounds(rt, &lists);
    let slot = office.slot(1).expect(rt, "a slot");
    published_once(rt, slot);
    reconciles(rt, alloc, office, 1, lists.as_slice(), Ok(3));
}

#[test]
fn two_desks_of_one_book(rt: HostRuntime) {
    let office = office(&rt, rt.alloc(), ["DEMO"].as_slice());
    one_book(&rt, rt.alloc(), &office, &Together::new());
}
