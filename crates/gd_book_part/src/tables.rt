//! The tables of a book.

ghost use Rattle.std.specs.Prelude.{◌≡◌, [], IfOk};
ghost use Rattle.gd_question.specs.Stored.{AreOwn};
ghost use Rattle.std.specs.Option.{option_map};
ghost use Rattle.gd_machine.specs.History.{History, cycle_of, round_of, is_frozen};
ghost use Rattle.gd_machine.specs.Sessions.{session_calls};
ghost use Rattle.gd_machine.specs.Asking.{question, accepted};
ghost use Rattle.gd_book_part.specs.Kept.{AreTablesOf};

use crate::confirmations::Confirmation;
use crate::opening::Opening;
use gd_lines::Lines;
use gd_question::Question;
use gd_system::{Element, System};
use gd_units::{CycleNo, Dth, Moment};
use std::alloc::{AllocError, Global};

/// What a book keeps beside its history, so that no call walks over it. Contracts tie each table to the history.
#[derive(Drop)]
pub struct Tables {
    // the greatest moment of the accepted events
    pub(crate) stamp: Moment,
    // 1 to 5, and 6 once all cycles are over
    pub(crate) cycle: u8,
    // how often a cycle was frozen
    pub(crate) round: u32,
    // in the current cycle
    pub(crate) has_cut: bool,
    pub(crate) frozen: Option<Question>,
    pub(crate) lines: Lines,
    // of the line of each number
    pub(crate) confirmations: Vec<Confirmation>,
    // in force, of segments and points
    pub(crate) capacities: Vec<Dth>,
    // of each cycle that is over, how many events there were once its schedule was published; 0 where none is in effect
    pub(crate) published: [usize; CycleNo::COUNT],
    pub(crate) nominations: u64,
    pub(crate) dekatherms: u64,
    pub(crate) calls: u64,
}

/// The pipeline's own capacities, of its segments and points.
fn own_capacities(alloc: Global, system: &System) -> Result<Vec<Dth>, AllocError>
    ensures { IfOk result (λ limits. AreOwn system.now limits.items) }
{
    system.known();
    let count = system.segment_count() + system.point_count();
    let mut limits = Vec::with_capacity(alloc, count)?;
    for at in 0..count {
        match system.part(Element(at)).capacity() {
            Some(limit) => limits.push(limit)?,
            None => unreachable!(),
        }
    }
    Ok(limits)
}

/// The moment before which nothing was accepted.
fn beginning() -> Moment
    ensures { result ≡ 0 }
{
    match Moment::new(0) {
        Some(moment) => moment,
        None => unreachable!(),
    }
}

impl Tables {
    /// The tables before the first event.
    pub fn new(alloc: Global, opening: &Opening) -> Result<Tables, AllocError>
        ensures { IfOk result (λ tables. AreTablesOf opening.now tables []) }
    {
        opening.known();
        let capacities = own_capacities(alloc, opening.contracts().system())?;
        Ok(Tables {
            stamp: beginning(),
            cycle: 1,
            round: 0,
            has_cut: false,
            frozen: None,
            lines: Lines::new(alloc),
            confirmations: Vec::new(alloc),
            capacities,
            published: [0; CycleNo::COUNT],
            nominations: 0,
            dekatherms: 0,
            calls: 0,
        })
    }

    /// The cycle that is open or frozen, 1 to 5, and 6 once all are over.
    pub fn cycle(&self) -> u8
        ensures { result ≡ self.now.cycle }
    {
        self.cycle
    }

    /// The frozen question.
    pub fn frozen(&self) -> Option<&Question>
        ensures { option_map (λ q. q.now) result ≡ self.now.frozen }
    {
        self.frozen.as_ref()
    }

    /// How many nominations were accepted, and their dekatherms together.
    pub fn accepted(&self) -> (u64, u64)
        ensures { result ≡ (self.now.nominations, self.now.dekatherms) }
    {
        (self.nominations, self.dekatherms)
    }

    /// How many nominations, responses and capacities were accepted.
    pub fn calls(&self) -> u64
        ensures { result ≡ self.now.calls }
    {
        self.calls
    }
}
