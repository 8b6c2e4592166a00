//! Books in numbered slots, each under a lock of its own.

ghost use Rattle.std.specs.Prelude.{◌≡◌, ◌≢◌, ◌+◌, ◌<◌, ◌≤◌, true, Some, None, [], ◌∷◌, ◌++◌, length as len_of, take, slice_get, vec_len, vec_capacity, IsSomeAnd, IfSome, IfOk, IfErr, OnOk};
ghost use Rattle.std.specs.Option.{MatchOption};
ghost use Rattle.gd_office_part.specs.Closing.{total_of};
ghost use Rattle.gd_office_part.specs.Counting.{none};
ghost use Rattle.gd_office_part.specs.Days.{IsDayOf};
ghost use Rattle.gd_office.specs.declared.fault.TheConstants.{MAX_SLOTS};
ghost use Rattle.gd_office.specs.Naming as naming;
ghost use Rattle.gd_office.specs.Slots.{AreDaysOf, AreNumbered, AreOf, slot_of};
ghost use Rattle.gd_office.specs.Faults.{ExplainsOpen, ExplainsSession, ExplainsClose};

use crate::apart::are_apart;
use crate::fault::{CloseFault, MAX_SLOTS, OpenFault};
use gd_board::Board;
use gd_book::Book;
use gd_office_part::{Days, OfficeFault, Session, Slot};
use gd_units::Name;
use std::alloc::Global;
use std::sync::Wait;

/// Books under locks, in slots that count from 1.
#[derive(Drop)]
pub struct Office<J: Days> {
    slots: Vec<Slot<J>>,
    ghost few: { len_of slots.items ≤ MAX_SLOTS },
    ghost numbered: { AreNumbered slots.items },
}

/// Puts a slot last, in room that is there.
fn put<J: Days>(slots: &mut Vec<Slot<J>>, slot: Slot<J>)
    requires { vec_len slots.old < vec_capacity slots.old }
    ensures items { slots.new.items ≡ slots.old.items ++ slot ∷ [] }
    ensures capacity { vec_capacity slots.old ≤ vec_capacity slots.new }
{
    slots.push(slot).unwrap();
}

/// Puts a book into the next slot, in room that is there.
fn put_next<J: Days>(alloc: Global, slots: &mut Vec<Slot<J>>, book: Book)
    requires room { vec_len slots.old < vec_capacity slots.old }
    requires few { vec_len slots.old < MAX_SLOTS }
    requires numbered { AreNumbered slots.old.items }
    requires day { IsDayOf J.days (vec_len slots.old + 1) book.day }
    ensures len { vec_len slots.new ≡ vec_len slots.old + 1 }
    ensures capacity { vec_capacity slots.old ≤ vec_capacity slots.new }
    ensures numbered { AreNumbered slots.new.items }
{
    let number = slots.len() as u32 + 1;
    put(slots, Slot::new(alloc, number, book));
}

/// Puts each book into a slot, in room that is there.
fn slots_of<J: Days>(alloc: Global, room: Vec<Slot<J>>, books: Vec<Book>) -> Vec<Slot<J>>
    requires few { vec_len books ≤ MAX_SLOTS }
    requires empty { room.items ≡ [] }
    requires room { vec_len books ≤ vec_capacity room }
    requires days { AreDaysOf J.days books.items }
    ensures len { vec_len result ≡ vec_len books }
    ensures numbered { AreNumbered result.items }
{
    let mut slots = room;
    for book in books {
        put_next(alloc, &mut slots, book);
    }
    slots
}

/// The place of the first session that is not of the slot of this number, if there is one.
fn first_other<J: Days>(slot: u32, sessions: &[Session<'_, J>]) -> Option<usize>
    ensures { MatchOption result (AreOf slot sessions.now)
        (λ at. IsSomeAnd (slice_get sessions.now at) (λ other. other.number ≢ slot)
        × AreOf slot (take at sessions.now)) }
{
    for at in 0..sessions.len() {
        if sessions[at].slot() != slot {
            return Some(at);
        }
    }
    None
}

impl<J: Days> Office<J> {
    /// An office of these books, in their order, with no session. Nothing is posted on a board. What is known of their opening
    /// values stays known of the slots.
    ///
    /// # Errors
    ///
    /// In this order: `TooMany` for more than 64 books, `Duplicate` where two have one name, and `OutOfMemory`. The books are
    /// handed back.
    pub fn new(alloc: Global, books: Vec<Book>) -> Result<Office<J>, (OpenFault, Vec<Book>)>
        requires { AreDaysOf J.days books.items }
        ensures few { OnOk result (len_of books.items ≤ MAX_SLOTS) }
        ensures apart { OnOk result (naming.are_apart books.items ≡ true) }
        ensures slots { IfOk result (λ office. len_of office.slots.items ≡ len_of books.items) }
        ensures fault { IfErr result (λ refused. ExplainsOpen books.items refused.0) }
        ensures kept { IfErr result (λ refused. refused.1 ≡ books) }
    {
        if books.len() > MAX_SLOTS {
            return Err((OpenFault::TooMany, books));
        }
        if !are_apart(books.as_slice()) {
            return Err((OpenFault::Duplicate, books));
        }
        match Vec::with_capacity(alloc, books.len()) {
            Ok(room) => Ok(Office {
                slots: slots_of(alloc, room, books),
            }),
            Err(_) => Err((OpenFault::OutOfMemory, books)),
        }
    }

    /// The slots, of which the first has the number 1.
    pub fn slots(&self) -> &[Slot<J>]
        ensures slots { result.now ≡ self.now.slots.items }
        ensures numbered { AreNumbered result.now }
    {
        self.slots.as_slice()
    }

    /// The slot of a number, if there is one.
    pub fn slot(&self, slot: u32) -> Option<&Slot<J>>
        ensures is { MatchOption result (slot_of self.now.slots.items slot ≡ None)
            (λ found. slot_of self.now.slots.items slot ≡ Some found.now) }
        ensures number { IfSome result (λ found. found.now.number ≡ slot) }
    {
        if slot == 0 {
            return None;
        }
        self.slots.get(slot as usize - 1)
    }

    /// The board of a slot, if there is one of this number. It is read without the lock.
    pub fn board(&self, slot: u32) -> Option<&Board>
        ensures { MatchOption result (slot_of self.now.slots.items slot ≡ None)
            (λ board. IsSomeAnd (slot_of self.now.slots.items slot) (λ found. board.now ≡ found.board)) }
    {
        match self.slot(slot) {
            Some(found) => Some(found.board()),
            None => None,
        }
    }

    /// Opens a session of this party with the book of a slot, of which nothing is accepted yet. It waits for the lock.
    ///
    /// # Errors
    ///
    /// `UnknownSlot`, and else `TooMany` where 1,024 sessions of the slot are open.
    pub fn session<R: Wait>(
        &self,
        rt: &R,
        slot: u32,
        party: Name,
    ) -> Result<Session<'_, J>, OfficeFault>
        ensures there { OnOk result (slot_of self.now.slots.items slot ≢ None) }
        ensures slot { IfOk result (λ session. session.number ≡ slot) }
        ensures party { IfOk result (λ session. session.party ≡ party) }
        ensures numbers { IfOk result (λ session. session.numbers ≡ none) }
        ensures fault { IfErr result (ExplainsSession self.now.slots.items slot) }
    {
        match self.slot(slot) {
            Some(found) => found.session(rt, party),
            None => Err(OfficeFault::UnknownSlot),
        }
    }
}

/// Closes the open sessions of a slot, where these are all of them and what they counted together is what their book gained.
/// Tells how many of their nominations were accepted, and their dekatherms together. It waits for the lock.
///
/// # Errors
///
/// In this order: `UnknownSlot`, `WrongSlot` with the place from 0 of the first session of another slot, and `Missing` with
/// how many of the open sessions are not handed in; there 0 stands for sums that differ from what the book gained. The
/// sessions are handed back.
pub fn close<'o, R: Wait, J: Days>(
    rt: &R,
    office: &'o Office<J>,
    slot: u32,
    sessions: Vec<Session<'o, J>>,
) -> Result<(u64, u64), (CloseFault, Vec<Session<'o, J>>)>
    ensures there { OnOk result (slot_of office.now.slots.items slot ≢ None) }
    ensures slot { OnOk result (AreOf slot sessions.entry.items) }
    ensures sums { IfOk result (λ sums. (sums.0 ≡ (total_of sessions.entry.items).nominations)
        × (sums.1 ≡ (total_of sessions.entry.items).dekatherms)) }
    ensures fault { IfErr result
        (λ refused. ExplainsClose office.now.slots.items slot sessions.entry.items refused.0) }
    ensures kept { IfErr result (λ refused. refused.1 ≡ sessions.entry) }
{
    let Some(found) = office.slot(slot) else {
        return Err((CloseFault::UnknownSlot, sessions));
    };
    if let Some(at) = first_other(slot, sessions.as_slice()) {
        return Err((CloseFault::WrongSlot(at), sessions));
    }
    match found.close(rt, sessions.as_slice()) {
        Ok(sums) => Ok(sums),
        Err(missing) => Err((CloseFault::Missing(missing), sessions)),
    }
}
