//! Why a book refuses.

ghost use Rattle.std.specs.Prelude.{◌≡◌, Some};
ghost use Rattle.gd_machine.specs.Names.{refusal_name, refusal_number};
ghost use Rattle.gd_machine.specs.declared.refusal.Refusal.TheVariants.{OutOfMemory};

use crate::call::Call;
use gd_certificate::CutFault;
use gd_system::RouteFault;
use std::alloc::AllocError;
use std::fmt;

/// Why an event is refused: the first reason in the order of that kind of event. It is printed by its name, and the fault
/// of a route by its own.
#[derive(Clone, Copy, Debug, PartialEq, Eq, Drop)]
pub enum Refusal {
    /// Every cycle's received time lies before the stamp.
    DayClosed,
    /// There is no contract of this name.
    UnknownContract,
    /// The party is not the contract's shipper.
    NotShipper,
    /// No route leads from the origin to the destination. The reason is never `RouteFault::OutOfMemory`.
    Route(RouteFault),
    /// The contract's lines would be nominated more than its quantity.
    OverContract,
    /// The 20,001st line.
    TooManyLines,
    /// The history has 1,000,000 events.
    TooManyEvents,
    /// All five cycles are over.
    AllSettled,
    /// The cycle is frozen.
    Frozen,
    /// There is no such line, or none of its nominations is for this cycle or a former one.
    UnknownLine,
    /// The party is not the operator of that end.
    NotOperator,
    /// No element has this number.
    UnknownElement,
    /// A pool has no capacity.
    IsPool,
    /// The stamp lies before the cycle's confirmation time.
    TooEarly,
    /// The cycle is not frozen.
    NotFrozen,
    /// The round is not the current one, whose number is told.
    StaleRound(u32),
    /// The certificate is not for the frozen question.
    OtherQuestion,
    /// The set does not show that no schedule is allowed.
    NoCutProof(CutFault),
    /// No cut was declared in this cycle.
    NoCut,
    /// Memory was refused.
    OutOfMemory,
    /// Somebody else posted on the board for this cycle.
    BoardTaken,
}

impl From<AllocError> for Refusal {
    ghost from_gives = { λ _ r. r ≡ OutOfMemory };

    fn from(_e: AllocError) -> Refusal {
        Refusal::OutOfMemory
    }
}

impl fmt::Display for Refusal {
    ghost output = { λ r. Some (refusal_name r) };

    fn fmt<W: fmt::Write>(&self, f: &mut fmt::Formatter<W>) -> fmt::Result {
        match self {
            Refusal::DayClosed => f.write_str("DayClosed"),
            Refusal::UnknownContract => f.write_str("UnknownContract"),
            Refusal::NotShipper => f.write_str("NotShipper"),
            Refusal::Route(fault) => write!(f, "{fault}"),
            Refusal::OverContract => f.write_str("OverContract"),
            Refusal::TooManyLines => f.write_str("TooManyLines"),
            Refusal::TooManyEvents => f.write_str("TooManyEvents"),
            Refusal::AllSettled => f.write_str("AllSettled"),
            Refusal::Frozen => f.write_str("Frozen"),
            Refusal::UnknownLine => f.write_str("UnknownLine"),
            Refusal::NotOperator => f.write_str("NotOperator"),
            Refusal::UnknownElement => f.write_str("UnknownElement"),
            Refusal::IsPool => f.write_str("IsPool"),
            Refusal::TooEarly => f.write_str("TooEarly"),
            Refusal::NotFrozen => f.write_str("NotFrozen"),
            Refusal::StaleRound(_) => f.write_str("StaleRound"),
            Refusal::OtherQuestion => f.write_str("OtherQuestion"),
            Refusal::NoCutProof(_) => f.write_str("NoCutProof"),
            Refusal::NoCut => f.write_str("NoCut"),
            Refusal::OutOfMemory => f.write_str("OutOfMemory"),
            Refusal::BoardTaken => f.write_str("BoardTaken"),
        }
    }
}

/// The number of a refusal in the order of its call's refusals, from 1.
pub fn refusal_number(call: Call, refusal: Refusal) -> u8
    ensures { result ≡ refusal_number call refusal }
{
    match refusal {
        Refusal::DayClosed | Refusal::AllSettled | Refusal::NotFrozen => 1,
        Refusal::UnknownContract | Refusal::Frozen | Refusal::StaleRound(_) => 2,
        Refusal::NotShipper
        | Refusal::UnknownElement
        | Refusal::TooEarly
        | Refusal::OtherQuestion
        | Refusal::NoCutProof(_)
        | Refusal::NoCut => 3,
        Refusal::UnknownLine if call == Call::Waive => 4,
        Refusal::UnknownLine => 3,
        Refusal::NotOperator | Refusal::IsPool | Refusal::Route(RouteFault::UnknownEnd) => 4,
        Refusal::Route(RouteFault::WrongEnd) => 5,
        Refusal::Route(RouteFault::SameEnd) => 6,
        Refusal::Route(_) => 7,
        Refusal::OverContract => 8,
        Refusal::TooManyLines => 9,
        Refusal::TooManyEvents => match call {
            Call::Nominate => 10,
            Call::Respond | Call::Post | Call::Waive => 5,
            _ => 4,
        },
        Refusal::OutOfMemory => 5,
        Refusal::BoardTaken => 6,
    }
}
