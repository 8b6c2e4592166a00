//! What is published of a cycle.

ghost use Rattle.std.specs.Prelude.{◌≡◌, ◌↔◌, IsTrue, ◌++◌, ◌∷◌, [], nat_lt, if◌then◌else◌, IfOk, OnOk};

use gd_certificate::Prices;
use gd_cost::Tariff;
use gd_question::Question;
use gd_schedule::Schedule;
use gd_units::{CycleNo, Dth, Name, Round};
use std::alloc::{AllocError, Global};
use std::marker::Model;

/// The lines that a schedule bumps, by number, each with the dekatherms a gas day that it takes from them (NAESB WGQ 1.3.2).
///
/// A contract sees the list.
#[derive(Debug, Drop)]
pub struct Bumped {
    // in a box, so that what a book replies is small
    lines: Box<Vec<(u32, Dth)>>,
}

impl Model for Bumped {
    ghost use Rattle.std.specs.Prelude.{ℕ, List};

    ghost Value = { List (ℕ × ℕ) };

    ghost view = { λ b. b.lines.value.items };
}

/// Whether both lists have the same lines with as much taken from each.
fn same_lines(a: &[(u32, Dth)], b: &[(u32, Dth)]) -> bool
    ensures { IsTrue result ↔ (a.now ≡ b.now) }
{
    a == b
}

impl Bumped {
    /// These lines, in this order. The only error is want of memory.
    pub fn of(alloc: Global, lines: Vec<(u32, Dth)>) -> Result<Bumped, AllocError>
        ensures { IfOk result (λ bumped. bumped ≡ lines.items) }
    {
        match Box::new(alloc, lines) {
            Ok(lines) => Ok(Bumped { lines }),
            Err(refused) => {
                drop(refused);
                Err(AllocError)
            }
        }
    }

    /// Adds a line from which so much is taken, last; one from which nothing is taken is left out.
    pub fn push(&mut self, line: u32, by: Dth) -> Result<(), AllocError>
        ensures { OnOk result (self.new ≡ self.old ++ (if nat_lt 0 by then (line, by) ∷ [] else [])) }
    {
        if by.get() > 0 {
            self.lines.push((line, by))?;
        }
        Ok(())
    }

    /// The lines with what is taken from them, in order.
    pub fn lines(&self) -> &[(u32, Dth)]
        ensures { result.now ≡ self.now }
    {
        self.lines.as_slice()
    }

    /// Whether both have the same lines in the same order, with as much taken from each. Takes no memory.
    pub fn same(&self, other: &Bumped) -> bool
        ensures { IsTrue result ↔ (self.now ≡ other.now) }
    {
        same_lines(&self.lines, &other.lines)
    }

    /// Another list of the same lines. The only error is want of memory.
    pub fn try_clone(&self, alloc: Global) -> Result<Bumped, AllocError>
        ensures { IfOk result (λ copy. copy ≡ self.now) }
    {
        Bumped::of(alloc, Vec::from_slice(alloc, &self.lines)?)
    }
}

/// What is published of a cycle: the question that was frozen, its best schedule with the prices that show it best, and the
/// lines that it bumps.
#[derive(Drop)]
pub struct Posting {
    /// The name of the book that published it.
    pub book: Name,
    pub cycle: CycleNo,
    pub round: Round,
    pub question: Question,
    pub schedule: Schedule,
    pub prices: Prices<Tariff>,
    pub bumped: Bumped,
}
