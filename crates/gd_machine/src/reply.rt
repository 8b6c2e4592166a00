//! What a book answers.

ghost use Rattle.std.specs.Prelude.{◌≡◌, ◌↔◌, IsTrue, IfOk};

use gd_board::Bumped;
use gd_units::{CycleNo, Round};
use std::alloc::{AllocError, Global};

/// What is answered to an accepted event, with its number in the history, from 1.
#[derive(Drop)]
pub enum Reply {
    /// A nomination counts for this cycle. Its line is told by number.
    Accepted {
        number: usize,
        cycle: CycleNo,
        line: u32,
    },
    /// A response, a capacity, a waiver or a skip holds from now on.
    Done {
        number: usize,
    },
    /// The question of so many lines is asked.
    Frozen {
        number: usize,
        cycle: CycleNo,
        round: Round,
        lines: usize,
    },
    /// The schedule is in effect, and bumps these lines.
    Published {
        number: usize,
        cycle: CycleNo,
        round: Round,
        bumped: Bumped,
    },
    /// The question was shown to have no allowed schedule.
    Declared {
        number: usize,
        cycle: CycleNo,
        round: Round,
    },
}

impl Reply {
    /// Whether both are the same reply. Takes no memory.
    pub fn same(&self, other: &Reply) -> bool
        ensures { IsTrue result ↔ (self.now ≡ other.now) }
    {
        match (self, other) {
            (
                Reply::Accepted {
                    number,
                    cycle,
                    line,
                },
                Reply::Accepted {
                    number: n,
                    cycle: c,
                    line: l,
                },
            ) => number == n && cycle == c && line == l,
            (Reply::Done { number }, Reply::Done { number: n }) => number == n,
            (
                Reply::Frozen {
                    number,
                    cycle,
                    round,
                    lines,
                },
                Reply::Frozen {
                    number: n,
                    cycle: c,
                    round: r,
                    lines: l,
                },
            ) => number == n && cycle == c && round == r && lines == l,
            (
                Reply::Published {
                    number,
                    cycle,
                    round,
                    bumped,
                },
                Reply::Published {
                    number: n,
                    cycle: c,
                    round: r,
                    bumped: b,
                },
            ) => number == n && cycle == c && round == r && bumped.same(b),
            (
                Reply::Declared {
                    number,
                    cycle,
                    round,
                },
                Reply::Declared {
                    number: n,
                    cycle: c,
                    round: r,
                },
            ) => number == n && cycle == c && round == r,
            _ => false,
        }
    }

    /// The same reply once more. The only error is want of memory.
    pub fn try_clone(&self, alloc: Global) -> Result<Reply, AllocError>
        ensures { IfOk result (λ copy. copy ≡ self.now) }
    {
        let copy = match self {
            Reply::Accepted {
                number,
                cycle,
                line,
            } => Reply::Accepted {
                number: *number,
                cycle: *cycle,
                line: *line,
            },
            Reply::Done { number } => Reply::Done { number: *number },
            Reply::Frozen {
                number,
                cycle,
                round,
                lines,
            } => Reply::Frozen {
                number: *number,
                cycle: *cycle,
                round: *round,
                lines: *lines,
            },
            Reply::Published {
                number,
                cycle,
                round,
                bumped,
            } => Reply::Published {
                number: *number,
                cycle: *cycle,
                round: *round,
                bumped: bumped.try_clone(alloc)?,
            },
            Reply::Declared {
                number,
                cycle,
                round,
            } => Reply::Declared {
                number: *number,
                cycle: *cycle,
                round: *round,
            },
        };
        Ok(copy)
    }
}
