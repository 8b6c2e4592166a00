//! Places of receipts in lists, and what is told where not all receipts fit.

ghost use Rattle.std.specs.Prelude.{◌≡◌, ◌⊎◌, ℕ, Some, None, IsNone, IfSome};
ghost use Rattle.gd_reconcile.specs.declared.mismatch.ReceiptsFault.TheVariants as fault;
ghost use Rattle.gd_reconcile.specs.Fitting.{Before};
ghost use Rattle.gd_reconcile.specs.Answering.{IsBefore};
ghost use Rattle.gd_reconcile.specs.Explaining.{receipts_fault_name};

use std::alloc::AllocError;
use std::fmt;

/// The place of a receipt in lists of receipts, both counted from 0.
#[derive(Clone, Copy, Debug, PartialEq, Eq, Drop)]
pub struct Mismatch {
    /// The list.
    pub list: usize,
    /// The place in the list.
    pub index: usize,
}

/// Why receipts don't pass. It is printed by its name.
#[derive(Clone, Copy, Debug, PartialEq, Eq, Drop)]
pub enum ReceiptsFault {
    /// The receipt at this place is the first that does not fit together with those before it.
    Mismatch(Mismatch),
    /// Memory was refused.
    OutOfMemory,
}

impl From<AllocError> for ReceiptsFault {
    ghost from_gives = { λ _ f. f ≡ fault.OutOfMemory };

    fn from(_e: AllocError) -> ReceiptsFault {
        ReceiptsFault::OutOfMemory
    }
}

impl fmt::Display for ReceiptsFault {
    ghost output = { λ f. Some (receipts_fault_name f) };

    fn fmt<W: fmt::Write>(&self, f: &mut fmt::Formatter<W>) -> fmt::Result {
        match self {
            ReceiptsFault::Mismatch(_) => f.write_str("Mismatch"),
            ReceiptsFault::OutOfMemory => f.write_str("OutOfMemory"),
        }
    }
}

/// The earlier of two places.
pub(crate) fn earlier(least: Option<Mismatch>, place: Mismatch) -> Mismatch
    ensures one { (result ≡ place) ⊎ (least ≡ Some result) }
    ensures least { (a j : ℕ) → Before a j result.list result.index
        → IsBefore a j least × Before a j place.list place.index }
{
    match least {
        Some(found)
            if found.list < place.list
                || (found.list == place.list && found.index <= place.index) => { found }
        _ => place,
    }
}

/// The earlier of two places, if there is one.
pub(crate) fn first_of(one: Option<Mismatch>, other: Option<Mismatch>) -> Option<Mismatch>
    ensures none { IsNone result → (one ≡ None) × (other ≡ None) }
    ensures some { IfSome result (λ m. ((one ≡ Some m) ⊎ (other ≡ Some m))
        × ((a j : ℕ) → Before a j m.list m.index → IsBefore a j one × IsBefore a j other)) }
{
    match other {
        Some(place) => Some(earlier(one, place)),
        None => one,
    }
}
