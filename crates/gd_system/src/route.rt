//! Routes between named ends.

ghost use Rattle.std.specs.Prelude.{◌≡◌, ◌<◌, ℕ, List, length, IfOk, IfErr, Ok, Err, ◌⊎◌};
ghost use Rattle.gd_tree.specs.Grown.{route_of};
ghost use Rattle.gd_system.specs.Pipeline.{Pipeline, elements_of};
ghost use Rattle.gd_system.specs.Route.{ends_between, ends_of};
ghost use Rattle.gd_system.specs.Ends.{AreEnds, AreParted, IsTheRoute};
ghost use Rattle.gd_system.specs.Known.{IsSystem};
ghost use Rattle.gd_system.specs.declared.RouteFault.{RouteFault};
ghost use Rattle.gd_system.specs.declared.part.Ends.{Ends};

use crate::{Element, Ends, RouteFault, System};
use gd_units::Name;
use std::alloc::Global;
use std::marker::Model;

/// Where two names tell the ends of a line, one list of segments leads from the one to the other, and where the
/// answer is `NoRoute` none does.
pub fn routes_are()
    ensures one { (p : Pipeline) (origin dest : List ℕ) (ends : Ends) → IsSystem p
        → ends_of p origin dest ≡ Ok ends
        → IsTheRoute p origin dest
        (route_of (elements_of p) (length p.tree) ends.origin_place.0 ends.dest_place.0) }
    ensures none { (p : Pipeline) (origin dest : List ℕ) → IsSystem p
        → ends_of p origin dest ≡ Err RouteFault.NoRoute → AreParted p origin dest }
{}

/// The segments that gas passes from one end to another, in order. A contract sees the list of their numbers.
#[derive(Drop)]
pub struct Route {
    segments: Vec<u32>,
}

impl Model for Route {
    ghost Value = { List ℕ };

    ghost view = { λ r. r.segments.items };
}

impl Route {
    /// The numbers of the segments, in order.
    pub fn segments(&self) -> &[u32]
        ensures { result.now ≡ self.now }
    {
        &self.segments
    }
}

impl System {
    /// The ends of these numbers, or the first refusal.
    fn ends_between(&self, origin: Element, dest: Element) -> Result<Ends, RouteFault>
        requires origin_known { origin.0 < length (elements_of self.now) }
        requires dest_known { dest.0 < length (elements_of self.now) }
        ensures is { result ≡ ends_between self.now origin.0 dest.0 }
        ensures known { IsSystem self.now }
    {
        let tree = &self.tree;
        let from = self.part(origin);
        let to = self.part(dest);
        if from.is_segment() || to.is_segment() {
            return Err(RouteFault::UnknownEnd);
        }
        if from.is_delivery() || to.is_receipt() {
            return Err(RouteFault::WrongEnd);
        }
        if origin.0 == dest.0 {
            return Err(RouteFault::SameEnd);
        }
        let origin_place = from.place();
        let dest_place = to.place();
        if !tree.runs(origin_place.0 as u32, dest_place.0 as u32) {
            return Err(RouteFault::NoRoute);
        }
        Ok(Ends {
            origin,
            dest,
            origin_place,
            dest_place,
        })
    }

    /// The ends of a line between two names, where a route leads from the one to the other. It needs no memory.
    ///
    /// # Errors
    ///
    /// `UnknownEnd`, `WrongEnd`, `SameEnd` and `NoRoute`, the first of these that applies.
    pub fn ends(&self, origin: Name, dest: Name) -> Result<Ends, RouteFault>
        ensures is { result ≡ ends_of self.now origin dest }
        ensures within { IfOk result (AreEnds self.now) }
    {
        match (self.element(origin), self.element(dest)) {
            (Some(origin), Some(dest)) => self.ends_between(origin, dest),
            _ => Err(RouteFault::UnknownEnd),
        }
    }

    /// The route between two names.
    ///
    /// # Errors
    ///
    /// Those of `ends`, and else `OutOfMemory`.
    pub fn route(&self, alloc: Global, origin: Name, dest: Name) -> Result<Route, RouteFault>
        ensures refused { (fault : RouteFault) → ends_of self.now origin dest ≡ Err fault
            → result ≡ Err fault }
        ensures memory { IfErr result
            (λ fault. (ends_of self.now origin dest ≡ Err fault)
            ⊎ (fault ≡ RouteFault.OutOfMemory)) }
        ensures found { IfOk result (IsTheRoute self.now origin dest) }
        ensures none { result ≡ Err RouteFault.NoRoute → AreParted self.now origin dest }
    {
        let tree = &self.tree;
        let ends = self.ends(origin, dest)?;
        let found = tree.route(alloc, ends.origin_place.0 as u32, ends.dest_place.0 as u32)?;
        match found {
            Some(segments) => Ok(Route { segments }),
            None => unreachable!(),
        }
    }
}
