//! The contracts on the pipeline.

ghost use Rattle.std.specs.Prelude.{◌≡◌};
ghost use Rattle.gd_text.specs.Building.{Builds, MayBecome};
ghost use Rattle.gd_day.specs.ContractRows as spec;

use gd_contracts::{ContractFault, Contracts};
use gd_system::System;
use gd_text_part::{Cause, Row, TextFault};
use std::alloc::Global;

fn contract_fault(row: u64, fault: ContractFault) -> TextFault
    ensures { result ≡ spec.contract_fault_at row fault }
{
    match fault {
        ContractFault::OutOfMemory => TextFault::OutOfMemory,
        fault => TextFault::at(row, Cause::Contract(fault)),
    }
}

/// Adds the contract of a row, if it is one.
fn add_contract(contracts: &mut Contracts, number: u64, row: &Row) -> Result<(), TextFault>
    ensures { MayBecome contracts.new result (spec.contract_step number contracts.old row.now) }
{
    let Row::Contract(contract) = *row else {
        return Ok(());
    };
    match contracts.add(contract) {
        Ok(()) => Ok(()),
        Err(fault) => Err(contract_fault(number, fault)),
    }
}

/// The contracts of the rows on a system, or the first refusal, told at its row.
pub(crate) fn contracts_on(
    alloc: Global,
    rows: &[Row],
    system: System,
) -> Result<Contracts, TextFault>
    ensures { Builds (λ contracts. contracts) result (spec.contracts_on rows.now system) }
{
    let mut contracts = Contracts::new(alloc, system);
    'rows: for (index, row) in rows.iter().enumerate() {
        add_contract(&mut contracts, index as u64 + 1, row)?;
    }
    Ok(contracts)
}
