//! The contracts held on a pipeline: what is refused, and what can be read of them.

ghost use Rattle.std.specs.Prelude.{◌≡◌, ◌<◌, ◌==◌, ◌++◌, ◌∷◌, [], length, None, Some, IfErr, OnOk, OnErr, Ok, Err, ◌⊎◌};
ghost use Rattle.gd_contracts.specs.Holdings.{contract_named};
ghost use Rattle.gd_contracts.specs.Adding.{none_on, checked_contract, after_contract};
ghost use Rattle.gd_contracts.specs.Adding as adding;
ghost use Rattle.gd_contracts.specs.Known.{AreHoldings, IsBanded};
ghost use Rattle.gd_contracts.specs.Inside.{contract_of};

use crate::{Contract, ContractFault, MAX_CONTRACTS, Service};
use gd_system::{RouteFault, System};
use gd_table::Table;
use gd_units::{Dth, Name};
use std::alloc::Global;
use std::marker::Model;

/// What a contract says under its name.
#[derive(Clone, Copy, Debug)]
struct Terms {
    shipper: Name,
    quantity: Dth,
    service: Service,
}

/// What is kept of a contract under its name.
fn terms_of(contract: Contract) -> Terms
    ensures { contract_of (contract.name, result) ≡ contract }
{
    Terms {
        shipper: contract.shipper,
        quantity: contract.quantity,
        service: contract.service,
    }
}

/// Why no route leads between the primary ends of firm service, if none does.
fn primary_refusal(system: &System, service: Service) -> Option<RouteFault>
    ensures { result ≡ adding.primary_refusal system.now service }
{
    match service {
        Service::Firm { origin, dest } => system.ends(origin, dest).err(),
        Service::Interruptible { .. } => None,
    }
}

/// Reads the band of interruptible service, so that it is known to be one of the rate bands.
fn read_band(service: Service)
    ensures { IsBanded service }
{
    if let Service::Interruptible { band } = service {
        let _number = band.number();
    }
}

/// A pipeline and the contracts that shippers hold on it, by name, in order of entry. No call takes memory but `add`.
#[derive(Drop)]
pub struct Contracts {
    pub(crate) system: System,
    terms: Table<Name, Terms>,
}

impl Model for Contracts {
    ghost use Rattle.gd_contracts.specs.Holdings.{Holdings};

    ghost Value = { Holdings };

    ghost use Rattle.gd_contracts.specs.Inside.{holdings_of, AreHoldingsInside};

    ghost view = { holdings_of };

    ghost invariant = { AreHoldingsInside };
}

impl Contracts {
    /// No contract on a pipeline.
    pub fn new(alloc: Global, system: System) -> Contracts
        ensures { result ≡ none_on system }
    {
        system.known();
        Contracts {
            system,
            terms: Table::new(alloc),
        }
    }

    /// What holds of all contracts.
    pub fn known(&self)
        ensures { AreHoldings self.now }
    {
        let _ = &self.terms;
    }

    /// The pipeline.
    pub fn system(&self) -> &System
        ensures { result.now ≡ self.now.pipeline }
    {
        &self.system
    }

    /// The number of contracts, at most 4,096.
    pub fn len(&self) -> usize
        ensures { result ≡ length self.now.contracts }
    {
        self.terms.len()
    }

    /// Whether there is no contract.
    pub fn is_empty(&self) -> bool
        ensures { result ≡ (length self.now.contracts == 0) }
    {
        self.len() == 0
    }

    /// The contract of this name.
    pub fn contract(&self, name: Name) -> Option<Contract>
        ensures { result ≡ contract_named self.now.contracts name }
    {
        let terms = self.terms.get(name)?;
        Some(Contract {
            name,
            shipper: terms.shipper,
            quantity: terms.quantity,
            service: terms.service,
        })
    }

    /// The first refusal of a contract.
    fn check(&self, name: Name, service: Service) -> Result<(), ContractFault>
        ensures is { result ≡ checked_contract self.now name service }
        ensures new { OnOk result (contract_named self.now.contracts name ≡ None) }
        ensures few { OnOk result (length self.now.contracts < MAX_CONTRACTS) }
    {
        if self.terms.contains_key(name) {
            return Err(ContractFault::Duplicate);
        }
        if let Some(fault) = primary_refusal(&self.system, service) {
            return Err(ContractFault::Route(fault));
        }
        if self.terms.len() >= MAX_CONTRACTS {
            return Err(ContractFault::TooMany);
        }
        Ok(())
    }

    /// Adds a contract, last.
    ///
    /// # Errors
    ///
    /// `Duplicate`, for firm service the first refusal of the route between its primary ends, and `TooMany` (the
    /// 4,097th contract), the first of these that applies, and else `OutOfMemory`. After any of them the contracts
    /// are as they were.
    pub fn add(&mut self, contract: Contract) -> Result<(), ContractFault>
        ensures done { OnOk result (after_contract self.old contract ≡ Ok self.new) }
        ensures refused { (fault : ContractFault) → after_contract self.old contract ≡ Err fault
            → result ≡ Err fault }
        ensures memory { IfErr result
            (λ fault. (after_contract self.old contract ≡ Err fault)
            ⊎ (fault ≡ ContractFault.OutOfMemory)) }
        ensures kept { OnErr result (self.new ≡ self.old) }
    {
        let name = contract.name;
        let terms = terms_of(contract);
        self.check(name, terms.service)?;
        read_band(terms.service);
        self.terms.reserve(1)?;
        self.terms.push(name, terms);
        Ok(())
    }
}
