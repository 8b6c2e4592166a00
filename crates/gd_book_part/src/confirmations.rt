//! What operators confirm of a line in a cycle, and whether it is waived.

ghost use Rattle.std.specs.Prelude.{◌≡◌, ◌==◌, ◌&&◌, None, Some, true, if◌then◌else◌};
ghost use Rattle.gd_units.specs.declared.service.End.TheVariants.{Origin, Dest};
ghost use Rattle.gd_machine.specs.History.{same_end};

use gd_units::{Dth, End};

/// What is confirmed and waived of a line in one cycle: it holds in no other.
#[derive(Clone, Copy, Debug)]
pub(crate) struct Confirmation {
    // 0 where nothing was confirmed yet
    pub(crate) cycle: u8,
    pub(crate) origin: Option<Dth>,
    pub(crate) dest: Option<Dth>,
    pub(crate) waived: bool,
}

impl Confirmation {
    ghost use Rattle.gd_book_part.specs.LineConfirmations.{nothing};

    /// Nothing, for no cycle.
    pub(crate) fn nothing() -> Confirmation
        ensures { result ≡ nothing }
    {
        Confirmation {
            cycle: 0,
            origin: None,
            dest: None,
            waived: false,
        }
    }

    /// What of it holds in a cycle.
    pub(crate) fn in_cycle(self, cycle: u8) -> Confirmation
        ensures { result ≡ record {
          cycle = cycle;
          origin = if self.cycle == cycle then self.origin else None;
          dest = if self.cycle == cycle then self.dest else None;
          waived = (self.cycle == cycle) && self.waived;
        } }
    {
        if self.cycle == cycle {
            return self;
        }
        Confirmation {
            cycle,
            ..Confirmation::nothing()
        }
    }

    /// With this response of an end.
    pub(crate) fn responded(self, end: End, quantity: Dth) -> Confirmation
        ensures { result ≡ record {
          cycle = self.cycle;
          origin = if same_end end Origin then Some quantity else self.origin;
          dest = if same_end end Dest then Some quantity else self.dest;
          waived = self.waived;
        } }
    {
        match end {
            End::Origin => Confirmation {
                origin: Some(quantity),
                ..self
            },
            End::Dest => Confirmation {
                dest: Some(quantity),
                ..self
            },
        }
    }

    /// The same, and the line is waived.
    pub(crate) fn waived(self) -> Confirmation
        ensures { result ≡ record {
          cycle = self.cycle;
          origin = self.origin;
          dest = self.dest;
          waived = true;
        } }
    {
        Confirmation {
            waived: true,
            ..self
        }
    }
}
