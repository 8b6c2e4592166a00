//! Pipelines, with all that can be read of them.

ghost use Rattle.std.specs.Prelude.{◌≡◌, ◌↔◌, IsTrue, ◌<◌, length, Some, None, IfSome, IfOk, slice_get};
ghost use Rattle.std.specs.Option.{option_map};
ghost use Rattle.gd_table.specs.Table.{keys};
ghost use Rattle.gd_rules.specs.Tree.{IsTree};
ghost use Rattle.gd_system.specs.Pipeline.{elements_of, names_of, operator_at, number_of, element_number};
ghost use Rattle.gd_system.specs.Parts.{element_of};
ghost use Rattle.gd_system.specs.Route.{element_at};
ghost use Rattle.gd_system.specs.Known.{IsSystem};
ghost use Rattle.gd_system.specs.Row.{IsRow};

use crate::{Element, Kind, Part, PlaceId, Point, Pool};
use gd_table::Table;
use gd_tree::Tree;
use gd_units::Name;
use std::alloc::{AllocError, Global};
use std::marker::Model;

/// A pipeline by name: the tree of its segments, and the points and pools at its places.
///
/// Elements are numbered from 0: segments, then points, then pools, each in order of entry. Places are numbered from
/// 0 in order of first mention. Only `route` and `try_clone` take memory.
#[derive(Drop)]
pub struct System {
    pub(crate) places: Table<Name, ()>,
    pub(crate) segments: Table<Name, ()>,
    pub(crate) tree: Tree,
    pub(crate) points: Table<Name, Point>,
    pub(crate) pools: Table<Name, Pool>,
}

impl Model for System {
    ghost use Rattle.gd_system.specs.Pipeline.{Pipeline};

    ghost Value = { Pipeline };

    ghost use Rattle.gd_system.specs.SystemInside.{pipeline_of, IsSystemInside};

    ghost view = { pipeline_of };

    ghost invariant = { IsSystemInside };
}

/// What is kept of an element, with the name of a point or pool.
#[derive(Clone, Copy)]
enum Row {
    Segment,
    Point(Name, Point),
    Pool(Name, Pool),
}

fn same_names(a: &Table<Name, ()>, b: &Table<Name, ()>) -> bool
    ensures { IsTrue result ↔ (keys a.now ≡ keys b.now) }
{
    a.entries() == b.entries()
}

fn same_points(a: &Table<Name, Point>, b: &Table<Name, Point>) -> bool
    ensures { IsTrue result ↔ (a.now.entries ≡ b.now.entries) }
{
    a.entries() == b.entries()
}

fn same_pools(a: &Table<Name, Pool>, b: &Table<Name, Pool>) -> bool
    ensures { IsTrue result ↔ (a.now.entries ≡ b.now.entries) }
{
    a.entries() == b.entries()
}

impl System {
    /// What holds of every system.
    pub fn known(&self)
        ensures known { IsSystem self.now }
        ensures tree { IsTree (length self.now.places) (elements_of self.now) }
    {
        let _ = &self.tree;
    }

    /// Another system of the same places and elements. The only error is want of memory.
    pub fn try_clone(&self, alloc: Global) -> Result<System, AllocError>
        ensures { IfOk result (λ copy. copy ≡ self.now) }
    {
        let places = self.places.try_clone(alloc)?;
        let segments = self.segments.try_clone(alloc)?;
        let tree = self.tree.try_clone(alloc)?;
        let points = self.points.try_clone(alloc)?;
        let pools = self.pools.try_clone(alloc)?;
        Ok(System {
            places,
            segments,
            tree,
            points,
            pools,
        })
    }

    /// Whether both have the same places, segments, points and pools, in the same order and with the same capacities.
    pub fn same(&self, other: &System) -> bool
        ensures { IsTrue result ↔ (self.now ≡ other.now) }
    {
        same_names(&self.places, &other.places)
            && same_names(&self.segments, &other.segments)
            && self.tree.same(&other.tree)
            && same_points(&self.points, &other.points)
            && same_pools(&self.pools, &other.pools)
    }

    /// The number of places: one more than segments.
    pub fn place_count(&self) -> usize
        ensures { result ≡ length self.now.places }
    {
        self.places.len()
    }

    /// The number of segments.
    pub fn segment_count(&self) -> usize
        ensures { result ≡ length self.now.tree }
    {
        self.tree.len()
    }

    /// The number of points.
    pub fn point_count(&self) -> usize
        ensures { result ≡ length self.now.points }
    {
        self.points.len()
    }

    /// The number of pools.
    pub fn pool_count(&self) -> usize
        ensures { result ≡ length self.now.pools }
    {
        self.pools.len()
    }

    /// The number of segments, points and pools.
    pub fn element_count(&self) -> usize
        ensures { result ≡ length (elements_of self.now) }
    {
        self.tree.len() + self.points.len() + self.pools.len()
    }

    /// The tree of segments by numbers.
    pub fn tree(&self) -> &Tree
        ensures { result.now ≡ self.now.tree }
    {
        &self.tree
    }

    /// What is kept of the element.
    fn row(&self, element: Element) -> Row
        requires { element.0 < length (elements_of self.now) }
        ensures { IsRow self.now element.0 result }
    {
        let segments = self.tree.len();
        if element.0 < segments {
            return Row::Segment;
        }
        let at = element.0 - segments;
        if let Some(entry) = self.points.get_index(at) {
            return Row::Point(entry.0, entry.1);
        }
        match self.pools.get_index(at - self.points.len()) {
            Some(entry) => Row::Pool(entry.0, entry.1),
            None => unreachable!(),
        }
    }

    /// What the element is.
    pub fn part(&self, element: Element) -> Part
        requires { element.0 < length (elements_of self.now) }
        ensures { element_of result ≡ element_at self.now element.0 }
    {
        match self.row(element) {
            Row::Segment => {
                let segment = self.tree.segment(element.0);
                Part::Segment(
                    PlaceId(segment.from as usize),
                    PlaceId(segment.to as usize),
                    segment.capacity,
                )
            }
            Row::Point(_, point) => match point.kind {
                Kind::Receipt => Part::Receipt(point.place, point.capacity),
                Kind::Delivery => Part::Delivery(point.place, point.capacity),
            },
            Row::Pool(_, pool) => Part::Pool(pool.place),
        }
    }

    /// The name of the element.
    pub fn name(&self, element: Element) -> Name
        requires { element.0 < length (elements_of self.now) }
        ensures { slice_get (names_of self.now) element.0 ≡ Some result }
    {
        match self.row(element) {
            Row::Segment => self.segments.get_index(element.0).unwrap().0,
            Row::Point(name, _) => name,
            Row::Pool(name, _) => name,
        }
    }

    /// The operator of the point or pool, and none of a segment.
    pub fn operator(&self, element: Element) -> Option<Name>
        requires { element.0 < length (elements_of self.now) }
        ensures { result ≡ operator_at self.now element.0 }
    {
        match self.row(element) {
            Row::Segment => None,
            Row::Point(_, point) => Some(point.operator),
            Row::Pool(_, pool) => Some(pool.operator),
        }
    }

    /// The name of the place.
    pub fn place_name(&self, place: PlaceId) -> Name
        requires { place.0 < length self.now.places }
        ensures { slice_get self.now.places place.0 ≡ Some result }
    {
        self.places.get_index(place.0).unwrap().0
    }

    /// The place of this name.
    pub fn place(&self, name: Name) -> Option<PlaceId>
        ensures is { option_map (λ p. p.0) result ≡ number_of self.now.places name }
        ensures within { IfSome result (λ p. p.0 < length self.now.places) }
    {
        self.places.get_index_of(name).map(PlaceId)
    }

    /// The segment, point or pool of this name.
    pub fn element(&self, name: Name) -> Option<Element>
        ensures is { option_map (λ e. e.0) result ≡ element_number self.now name }
        ensures within { IfSome result (λ e. e.0 < length (elements_of self.now)) }
    {
        let segments = self.tree.len();
        if let Some(at) = self.segments.get_index_of(name) {
            return Some(Element(at));
        }
        if let Some(at) = self.points.get_index_of(name) {
            return Some(Element(segments + at));
        }
        let at = self.pools.get_index_of(name)?;
        Some(Element(segments + self.points.len() + at))
    }
}
