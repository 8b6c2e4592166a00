//! What is kept of lines and of accepted nominations.

ghost use Rattle.std.specs.Prelude.{◌≡◌, ℕ, ◌-◌, ◌<◌, ◌≤◌, nat_le, length, get_or, if◌then◌else◌};

use gd_units::{Class, CycleNo, Dth};

/// What is kept of a line.
#[derive(Clone, Copy, Debug)]
pub(crate) struct State {
    pub(crate) class: Class,
    // for each cycle, from Timely
    pub(crate) nominated: [Dth; CycleNo::COUNT],
}

/// What is kept of an accepted nomination.
#[derive(Clone, Copy, Debug)]
pub(crate) struct Accepted {
    pub(crate) line: u32,
    pub(crate) cycle: CycleNo,
    pub(crate) class: Class,
    pub(crate) quantity: Dth,
}

/// Writes a value at each place from one on.
pub(crate) fn fill_from<T: Copy>(values: &mut [T], from: usize, value: T)
    ensures { (k : ℕ) (d : T) → k < length values.old
        → get_or values.new k d ≡ (if nat_le from k then value else get_or values.old k d) }
{
    for i in from..values.len() {
        values[i] = value;
    }
}

impl State {
    ghost use Rattle.gd_lines.specs.Kept.{blank};

    /// A line of this class with no nomination.
    pub(crate) fn blank(class: Class, none: Dth) -> State
        requires { none ≡ 0 }
        ensures { result ≡ blank class }
    {
        State {
            class,
            nominated: [none; CycleNo::COUNT],
        }
    }

    /// The line after one more nomination, for this cycle and the later ones.
    pub(crate) fn renominated(self, cycle: CycleNo, quantity: Dth) -> State
        ensures class { result.class ≡ self.class }
        ensures quantities { (c : ℕ) → 1 ≤ c → c ≤ CycleNo.MAX
            → get_or result.nominated (c - 1) 0
            ≡ (if nat_le cycle c then quantity else get_or self.nominated (c - 1) 0) }
    {
        let mut nominated = self.nominated;
        fill_from(&mut nominated, usize::from(cycle.number()) - 1, quantity);
        State {
            class: self.class,
            nominated,
        }
    }
}
