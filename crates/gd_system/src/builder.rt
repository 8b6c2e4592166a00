//! Pipelines in the making: what is refused, and what is built.

ghost use Rattle.std.specs.Prelude.{◌≡◌, ℕ, ◌+◌, ◌<◌, ◌≤◌, ◌++◌, ◌∷◌, [], length, false, None, IfSome, IfOk, IfErr, OnOk, OnErr, Ok, Err, ◌⊎◌};
ghost use Rattle.gd_rules.specs.Question.Element.{Segment as segment};
ghost use Rattle.gd_tree.specs.Grown.{Joins};
ghost use Rattle.gd_system.specs.Join.{join_of};
ghost use Rattle.gd_system.specs.Pipeline.{names_of, same_name};
ghost use Rattle.gd_system.specs.Building.{empty, known, entered, checked_segment, checked_point, checked_pool, after_segment, after_point, after_pool};
ghost use Rattle.gd_table.specs.Table.{keys};

use crate::{BuildFault, Kind, MAX_POINTS, MAX_POOLS, MAX_SEGMENTS, PlaceId, Point, Pool, System};
use gd_table::Table;
use gd_tree::{Segment, Tree};
use gd_units::{Dth, Name};
use std::alloc::Global;
use std::marker::Model;

/// The places that a segment joins, of those known so far: the first segment brings both, each later one exactly one.
fn joining(
    segments: usize,
    same: bool,
    from: Option<usize>,
    to: Option<usize>,
) -> Option<(usize, usize)>
    requires few { segments ≤ MAX_SEGMENTS }
    requires from_known { IfSome from (λ f. f ≤ segments) }
    requires to_known { IfSome to (λ t. t ≤ segments) }
    ensures is { result ≡ join_of segments same from to }
    ensures joins { IfSome result
        (λ p. (capacity : ℕ) → Joins segments (segment p.0 p.1 capacity)) }
{
    if segments == 0 {
        return if same { None } else { Some((0, 1)) };
    }
    match (from, to) {
        (Some(f), None) => Some((f, segments + 1)),
        (None, Some(t)) => Some((segments + 1, t)),
        _ => None,
    }
}

/// Enters a name in room that is there: it goes last, where it is new.
fn enter(names: &mut Table<Name, ()>, name: Name)
    requires { 0 < names.old.spare }
    ensures keys { keys names.new ≡ entered (keys names.old) name }
    ensures room { names.old.spare ≤ names.new.spare + 1 }
{
    if !names.contains_key(name) {
        names.push(name, ());
    }
}

/// A pipeline in the making. After any refusal it is as it was.
#[derive(Drop)]
pub struct SystemBuilder {
    places: Table<Name, ()>,
    segments: Table<Name, ()>,
    tree: Tree,
    points: Table<Name, Point>,
    pools: Table<Name, Pool>,
}

impl Model for SystemBuilder {
    ghost use Rattle.gd_system.specs.Pipeline.{Pipeline};

    ghost Value = { Pipeline };

    ghost use Rattle.gd_system.specs.BuilderInside.{pipeline_of, IsBuiltInside};

    ghost view = { pipeline_of };

    ghost invariant = { IsBuiltInside };
}

impl SystemBuilder {
    /// A builder with nothing in it. It needs no memory.
    pub fn new(alloc: Global) -> SystemBuilder
        ensures { result ≡ empty }
    {
        SystemBuilder {
            places: Table::new(alloc),
            segments: Table::new(alloc),
            tree: Tree::new(alloc),
            points: Table::new(alloc),
            pools: Table::new(alloc),
        }
    }

    /// Whether a segment, point or pool has the name.
    fn has(&self, name: Name) -> bool
        ensures { result ≡ known (names_of self.now) name }
    {
        self.segments.contains_key(name)
            || self.points.contains_key(name)
            || self.pools.contains_key(name)
    }

    /// The first refusal of a segment, or the places that it joins.
    fn check_segment(&self, name: Name, from: Name, to: Name) -> Result<(usize, usize), BuildFault>
        ensures is { result ≡ checked_segment self.now name from to }
        ensures joins { IfOk result
            (λ p. (capacity : ℕ) → Joins (length self.now.tree) (segment p.0 p.1 capacity)) }
        ensures few { OnOk result (length self.now.tree < MAX_SEGMENTS) }
    {
        if self.has(name) {
            return Err(BuildFault::Duplicate);
        }
        let count = self.tree.len();
        let a = self.places.get_index_of(from);
        let b = self.places.get_index_of(to);
        match joining(count, from == to, a, b) {
            None => Err(BuildFault::Unjoined),
            Some(joined) => {
                if count >= MAX_SEGMENTS {
                    Err(BuildFault::TooMany)
                } else {
                    Ok(joined)
                }
            }
        }
    }

    /// Adds a segment of this capacity in dekatherms a gas day, one way between two places. The first segment brings
    /// both places, each later one exactly one.
    ///
    /// # Errors
    ///
    /// `Duplicate`, `Unjoined` and `TooMany` (the 4,097th place), the first of these that applies, and else
    /// `OutOfMemory`.
    pub fn segment(
        &mut self,
        name: Name,
        from: Name,
        to: Name,
        capacity: Dth,
    ) -> Result<(), BuildFault>
        ensures done { OnOk result (after_segment self.old name from to capacity ≡ Ok self.new) }
        ensures refused { (fault : BuildFault)
            → after_segment self.old name from to capacity ≡ Err fault → result ≡ Err fault }
        ensures memory { IfErr result
            (λ fault. (after_segment self.old name from to capacity ≡ Err fault)
            ⊎ (fault ≡ BuildFault.OutOfMemory)) }
        ensures kept { OnErr result (self.new ≡ self.old) }
    {
        let (f, t) = self.check_segment(name, from, to)?;
        self.segments.reserve(1)?;
        self.places.reserve(2)?;
        let next = Segment {
            from: f as u32,
            to: t as u32,
            capacity,
        };
        self.tree.push(next)?;
        enter(&mut self.places, from);
        enter(&mut self.places, to);
        enter(&mut self.segments, name);
        Ok(())
    }

    /// The first refusal of a point, or the number of its place.
    fn check_point(&self, name: Name, place: Name) -> Result<usize, BuildFault>
        ensures is { result ≡ checked_point self.now name place }
        ensures within { IfOk result (λ at. at < length self.now.places) }
        ensures few { OnOk result (length self.now.points < MAX_POINTS) }
        ensures new { OnOk result (known (names_of self.now) name ≡ false) }
    {
        if self.has(name) {
            return Err(BuildFault::Duplicate);
        }
        match self.places.get_index_of(place) {
            None => Err(BuildFault::UnknownPlace),
            Some(at) => {
                if self.points.len() >= MAX_POINTS {
                    Err(BuildFault::TooMany)
                } else {
                    Ok(at)
                }
            }
        }
    }

    /// The first refusal of a pool, or the number of its place.
    fn check_pool(&self, name: Name, place: Name) -> Result<usize, BuildFault>
        ensures is { result ≡ checked_pool self.now name place }
        ensures within { IfOk result (λ at. at < length self.now.places) }
        ensures few { OnOk result (length self.now.pools < MAX_POOLS) }
        ensures new { OnOk result (known (names_of self.now) name ≡ false) }
    {
        if self.has(name) {
            return Err(BuildFault::Duplicate);
        }
        match self.places.get_index_of(place) {
            None => Err(BuildFault::UnknownPlace),
            Some(at) => {
                if self.pools.len() >= MAX_POOLS {
                    Err(BuildFault::TooMany)
                } else {
                    Ok(at)
                }
            }
        }
    }

    /// Adds a point at a place that a segment joins, with the name of its operator and its capacity in dekatherms a
    /// gas day.
    ///
    /// # Errors
    ///
    /// `Duplicate`, `UnknownPlace` and `TooMany` (the 4,097th point), the first of these that applies, and else
    /// `OutOfMemory`.
    pub fn point(
        &mut self,
        name: Name,
        kind: Kind,
        place: Name,
        operator: Name,
        capacity: Dth,
    ) -> Result<(), BuildFault>
        ensures done { OnOk result
            (after_point self.old name kind place operator capacity ≡ Ok self.new) }
        ensures refused { (fault : BuildFault)
            → after_point self.old name kind place operator capacity ≡ Err fault
            → result ≡ Err fault }
        ensures memory { IfErr result
            (λ fault. (after_point self.old name kind place operator capacity ≡ Err fault)
            ⊎ (fault ≡ BuildFault.OutOfMemory)) }
        ensures kept { OnErr result (self.new ≡ self.old) }
    {
        let at = self.check_point(name, place)?;
        self.points.reserve(1)?;
        let point = Point {
            kind,
            place: PlaceId(at),
            operator,
            capacity,
        };
        self.points.push(name, point);
        Ok(())
    }

    /// Adds a pool at a place that a segment joins, with the name of its operator.
    ///
    /// # Errors
    ///
    /// `Duplicate`, `UnknownPlace` and `TooMany` (the 257th pool), the first of these that applies, and else
    /// `OutOfMemory`.
    pub fn pool(&mut self, name: Name, place: Name, operator: Name) -> Result<(), BuildFault>
        ensures done { OnOk result (after_pool self.old name place operator ≡ Ok self.new) }
        ensures refused { (fault : BuildFault) → after_pool self.old name place operator ≡ Err fault
            → result ≡ Err fault }
        ensures memory { IfErr result
            (λ fault. (after_pool self.old name place operator ≡ Err fault)
            ⊎ (fault ≡ BuildFault.OutOfMemory)) }
        ensures kept { OnErr result (self.new ≡ self.old) }
    {
        let at = self.check_pool(name, place)?;
        self.pools.reserve(1)?;
        let pool = Pool {
            place: PlaceId(at),
            operator,
        };
        self.pools.push(name, pool);
        Ok(())
    }

    /// The system that is built. It needs no memory.
    ///
    /// # Errors
    ///
    /// `NoSegment`, with the builder as it was.
    pub fn finish(self) -> Result<System, (BuildFault, SystemBuilder)>
        ensures done { IfOk result (λ system. (system ≡ self) × (0 < length self.tree)) }
        ensures refused { IfErr result
            (λ r. (r.0 ≡ BuildFault.NoSegment) × (r.1 ≡ self) × (length self.tree ≡ 0)) }
    {
        if self.tree.len() == 0 {
            return Err((BuildFault::NoSegment, self));
        }
        let SystemBuilder {
            places,
            segments,
            tree,
            points,
            pools,
        } = self;
        Ok(System {
            places,
            segments,
            tree,
            points,
            pools,
        })
    }
}
