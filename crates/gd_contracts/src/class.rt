//! The priority class of a line under a contract, by the stated tariff (own).

ghost use Rattle.std.specs.Prelude.{◌≡◌, ℕ, ◌≤◌, ◌↔◌, List, None, IfOk, Ok, Err, IsSome};
ghost use Rattle.gd_rules.specs.Class.{lies_on, class_of as class_by};
ghost use Rattle.gd_rules.specs.Class.Service.{Firm as firm};
ghost use Rattle.gd_system.specs.Route.{ends_of};
ghost use Rattle.gd_system.specs.Ends.{AreEnds};
ghost use Rattle.gd_system.specs.declared.RouteFault.{RouteFault};
ghost use Rattle.gd_contracts.specs.Holdings.{Holdings, contract_named};
ghost use Rattle.gd_contracts.specs.Known.{AreHoldings, IsServed};
ghost use Rattle.gd_contracts.specs.Classes.{route_between, bought, class_between, class_answer};
ghost use Rattle.gd_contracts.specs.Classed.{HasClass};

use crate::{ClassFault, Contracts, Service};
use gd_system::{Ends, System};
use gd_units::{Class, Name};

/// A class that is told is that of the tariff, for the one primary route and the one route of the line.
pub fn classes_are()
    ensures { (holdings : Holdings) (contract origin dest : List ℕ) (class : ℕ) → AreHoldings holdings
        → class_answer holdings contract origin dest ≡ Ok class
        → HasClass holdings contract origin dest class }
{}

/// The class of this number.
fn numbered(number: u8) -> Class
    requires { (1 ≤ number) × (number ≤ Class.MAX) }
    ensures { result ≡ number }
{
    Class::new(number).unwrap()
}

/// Whether each segment of a line's route lies on the primary route. Gas never comes to a place twice, so that holds
/// exactly where it can flow from the primary origin to the line's, and on from the line's destination to the primary
/// one, unless the line passes no segment.
fn in_path(system: &System, primary: Ends, line: Ends) -> bool
    requires primary_ends { AreEnds system.now primary }
    requires line_ends { AreEnds system.now line }
    ensures { result ≡ lies_on (route_between system.now primary) (route_between system.now line) }
{
    system.known();
    let tree = system.tree();
    let origin = line.origin_place.0 as u32;
    let dest = line.dest_place.0 as u32;
    if origin == dest {
        return true;
    }
    tree.runs(primary.origin_place.0 as u32, origin) && tree.runs(dest, primary.dest_place.0 as u32)
}

/// The class of a line under firm service between these primary ends.
fn firm_class(system: &System, primary: Ends, line: Ends) -> Class
    requires primary_ends { AreEnds system.now primary }
    requires line_ends { AreEnds system.now line }
    ensures { result ≡ class_by
        (firm primary.origin.0 primary.dest.0 (route_between system.now primary))
        line.origin.0 line.dest.0 (route_between system.now line) }
{
    if line.origin == primary.origin && line.dest == primary.dest {
        numbered(1)
    } else if in_path(system, primary, line) {
        numbered(2)
    } else {
        numbered(3)
    }
}

/// The class of a line under the service of a contract that is held.
fn class_under(system: &System, service: Service, line: Ends) -> Class
    requires routed { IsServed system.now service }
    requires line_ends { AreEnds system.now line }
    ensures { class_between system.now line (bought system.now service) ≡ Ok result }
{
    match service {
        Service::Firm { origin, dest } => match system.ends(origin, dest) {
            Ok(primary) => firm_class(system, primary, line),
            Err(_) => unreachable!(),
        },
        Service::Interruptible { band } => numbered(3 + band.number()),
    }
}

impl Contracts {
    /// The priority class of a line between two names under the contract of a name, by the stated tariff (own): 1
    /// primary firm, 2 secondary in path, 3 secondary out of path, 4 to 8 interruptible by band. It needs no memory.
    ///
    /// # Errors
    ///
    /// `UnknownContract`, and else the first refusal of the route.
    pub fn class_of(&self, contract: Name, origin: Name, dest: Name) -> Result<Class, ClassFault>
        ensures is { result ≡ class_answer self.now contract origin dest }
        ensures classed { IfOk result (HasClass self.now contract origin dest) }
        ensures unknown { (result ≡ Err ClassFault.UnknownContract)
            ↔ (contract_named self.now.contracts contract ≡ None) }
        ensures refused { (fault : RouteFault) → (result ≡ Err (ClassFault.Route fault))
            ↔ (IsSome (contract_named self.now.contracts contract)
            × (ends_of self.now.pipeline origin dest ≡ Err fault)) }
    {
        let Some(agreed) = self.contract(contract) else {
            return Err(ClassFault::UnknownContract);
        };
        let line = self.system.ends(origin, dest)?;
        Ok(class_under(&self.system, agreed.service, line))
    }
}
