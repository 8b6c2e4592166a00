//! What a book is opened with.

ghost use Rattle.std.specs.Prelude.{◌≡◌, ◌<◌, ◌≤◌, ◌++◌, ◌∷◌, [], None, Some, All, IfOk, IfErr, OnOk, map};
ghost use Rattle.std.specs.List.{IsDistinct};
ghost use Rattle.gd_rules.specs.Lines.{same_key};
ghost use Rattle.gd_machine.specs.Day.{IsDay, carried};
ghost use Rattle.gd_book_part.specs.Names.{open_fault_name, ExplainsOpen};
ghost use Rattle.gd_book_part.specs.declared.opening.OpenFault.TheVariants.{OutOfMemory};

use gd_calendar::Calendar;
use gd_contracts::Contracts;
use gd_lines::LineKey;
use gd_table::Table;
use gd_units::{Dth, Name};
use std::alloc::{AllocError, Global};
use std::fmt;
use std::marker::Model;

/// Why a book can't be opened. It is printed by its name.
#[derive(Clone, Copy, Debug, PartialEq, Eq, Drop)]
pub enum OpenFault {
    /// The line of this position, from 0, is carried over already.
    Duplicate(usize),
    /// Memory was refused.
    OutOfMemory,
}

impl From<AllocError> for OpenFault {
    ghost from_gives = { λ _ f. f ≡ OutOfMemory };

    fn from(_e: AllocError) -> OpenFault {
        OpenFault::OutOfMemory
    }
}

impl fmt::Display for OpenFault {
    ghost output = { λ f. Some (open_fault_name f) };

    fn fmt<W: fmt::Write>(&self, f: &mut fmt::Formatter<W>) -> fmt::Result {
        match self {
            OpenFault::Duplicate(_) => f.write_str("Duplicate"),
            OpenFault::OutOfMemory => f.write_str("OutOfMemory"),
        }
    }
}

/// The opening values of a gas day's book: its name, the pipeline with the contracts on it, the calendar, and what each
/// line was last scheduled the day before.
#[derive(Drop)]
pub struct Opening {
    name: Name,
    contracts: Contracts,
    calendar: Calendar,
    carry: Table<LineKey, Dth>,
}

impl Model for Opening {
    ghost use Rattle.gd_machine.specs.Day.{Day, IsDay};

    ghost Value = { Day };

    ghost view = { λ o. record {
      name = o.name;
      holdings = o.contracts;
      moments = o.calendar;
      carry = o.carry.entries;
    } };

    ghost invariant = { λ o. IsDay (record {
      name = o.name;
      holdings = o.contracts;
      moments = o.calendar;
      carry = o.carry.entries;
    }) };
}

/// What is carried over, by key.
fn carry_of(alloc: Global, carry: &[(LineKey, Dth)]) -> Result<Table<LineKey, Dth>, OpenFault>
    ensures entered { IfOk result (λ entries. entries.entries ≡ carry.now) }
    ensures distinct { OnOk result (IsDistinct same_key (map (λ e. e.0) carry.now)) }
    ensures small { OnOk result (All (λ e. e.1 ≤ Dth.MAX) carry.now) }
    ensures fault { IfErr result (ExplainsOpen carry.now) }
{
    let mut entries = Table::new(alloc);
    for at in 0..carry.len() {
        let entry = carry[at];
        let _small = entry.1.get();
        if entries.contains_key(entry.0) {
            return Err(OpenFault::Duplicate(at));
        }
        entries.reserve(1)?;
        entries.push(entry.0, entry.1);
    }
    Ok(entries)
}

impl Opening {
    /// The opening values of a gas day. What is carried over has each line once.
    ///
    /// # Errors
    ///
    /// `Duplicate` with the least position of what is carried over whose key stands at an earlier one, and else
    /// `OutOfMemory`.
    pub fn new(
        alloc: Global,
        name: Name,
        contracts: Contracts,
        calendar: Calendar,
        carry: Vec<(LineKey, Dth)>,
    ) -> Result<Opening, OpenFault>
        ensures values { IfOk result (λ opening. opening
            ≡ record { name = name; holdings = contracts; moments = calendar; carry = carry.items }) }
        ensures fault { IfErr result (ExplainsOpen carry.items) }
    {
        contracts.known();
        calendar.known();
        match carry_of(alloc, &carry) {
            Ok(entries) => {
                drop(carry);
                Ok(Opening {
                    name,
                    contracts,
                    calendar,
                    carry: entries,
                })
            }
            Err(fault) => {
                drop(contracts);
                drop(calendar);
                drop(carry);
                Err(fault)
            }
        }
    }

    /// What holds of all opening values: the contracts, the calendar, and no line is carried over twice.
    pub fn known(&self)
        ensures { IsDay self.now }
    {
        let _name = &self.name;
    }

    /// The book's name.
    pub fn name(&self) -> Name
        ensures { result ≡ self.now.name }
    {
        self.name
    }

    /// The contracts, with the pipeline that they are on.
    pub fn contracts(&self) -> &Contracts
        ensures { result.now ≡ self.now.holdings }
    {
        &self.contracts
    }

    /// The moments of the gas day.
    pub fn calendar(&self) -> &Calendar
        ensures { result.now ≡ self.now.moments }
    {
        &self.calendar
    }

    /// The quantity that a line is carried over with from the day before, else 0.
    pub fn carried(&self, key: &LineKey) -> Dth
        ensures { result ≡ carried self.now key.now }
    {
        self.carry.get(*key).unwrap_or(Dth::ZERO)
    }
}
