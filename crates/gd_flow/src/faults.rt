//! What is wrong with a flow.

ghost use Rattle.std.specs.Prelude.{◌≡◌, ◌<◌, pos, length, MatchOption};
ghost use Rattle.gd_network.specs.Steps.{Mends, amiss_at};
ghost use Rattle.gd_flow.specs.Keeping.{IsKept, Holds};

use gd_network::{Network, Step};

/// What is wrong with an arc: a step that brings it nearer to its bounds, and by how much it is out of them.
#[derive(Clone, Copy, Debug)]
pub(crate) struct Fault {
    pub(crate) step: Step,
    pub(crate) amount: i64,
}

/// What is wrong with an arc; `None` where it is within its bounds.
pub(crate) fn fault_of(network: &Network<'_>, flow: &[i64], number: usize) -> Option<Fault>
    requires kept { IsKept network.now.arcs flow.now }
    requires arc { number < length network.now.arcs }
    ensures { MatchOption result
        (Holds network.now.arcs flow.now number)
        (λ fault. (fault.step.arc ≡ number) × Mends network.now.arcs flow.now fault.step
        × (fault.amount ≡ pos (amiss_at network.now.arcs flow.now number))) }
{
    network.known();
    let arc = network.arc(number);
    let carried = flow[number];
    if carried < arc.lower {
        let step = Step {
            arc: number,
            back: false,
        };
        Some(Fault {
            step,
            amount: arc.lower - carried,
        })
    } else if carried > arc.upper {
        let step = Step {
            arc: number,
            back: true,
        };
        Some(Fault {
            step,
            amount: carried - arc.upper,
        })
    } else {
        None
    }
}
