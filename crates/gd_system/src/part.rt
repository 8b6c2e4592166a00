//! What a pipeline is made of: places, segments, points and pools.

ghost use Rattle.std.specs.Prelude.{◌≡◌};
ghost use Rattle.gd_rules.specs.Question.{place_of};
ghost use Rattle.gd_system.specs.Pipeline.{capacity_of};
ghost use Rattle.gd_system.specs.Parts.{element_of};
ghost use Rattle.gd_system.specs.Route as spec;

use gd_units::{Dth, Kind, Name};

/// The number of a segment, point or pool, from 0: segments first, then points, then pools, each in order of entry.
#[derive(Clone, Copy, Debug, PartialEq, Eq, PartialOrd, Ord, Hash)]
pub struct Element(pub usize);

/// The number of a place, from 0, in order of first mention.
#[derive(Clone, Copy, Debug, PartialEq, Eq, PartialOrd, Ord, Hash)]
pub struct PlaceId(pub usize);

/// A point where gas is received or delivered.
#[derive(Clone, Copy, Debug, PartialEq, Eq)]
pub struct Point {
    pub kind: Kind,
    pub place: PlaceId,
    pub operator: Name,
    /// Dekatherms a gas day.
    pub capacity: Dth,
}

/// A pool: lines bring gas into it and take gas out of it.
#[derive(Clone, Copy, Debug, PartialEq, Eq)]
pub struct Pool {
    pub place: PlaceId,
    pub operator: Name,
}

/// What an element is, with its places and its capacity in dekatherms a gas day.
#[derive(Clone, Copy, Debug)]
pub enum Part {
    /// From one place to another.
    Segment(PlaceId, PlaceId, Dth),
    Receipt(PlaceId, Dth),
    Delivery(PlaceId, Dth),
    Pool(PlaceId),
}

impl Part {
    /// The place that it hangs on: of a segment the place that it leads from.
    pub fn place(&self) -> PlaceId
        ensures { result.0 ≡ place_of (element_of self.now) }
    {
        match *self {
            Part::Segment(from, _, _) => from,
            Part::Receipt(place, _) => place,
            Part::Delivery(place, _) => place,
            Part::Pool(place) => place,
        }
    }

    /// Its capacity in dekatherms a gas day; a pool has none.
    pub fn capacity(&self) -> Option<Dth>
        ensures { result ≡ capacity_of (element_of self.now) }
    {
        match *self {
            Part::Segment(_, _, capacity) => Some(capacity),
            Part::Receipt(_, capacity) => Some(capacity),
            Part::Delivery(_, capacity) => Some(capacity),
            Part::Pool(_) => None,
        }
    }

    /// Whether it is a segment.
    pub fn is_segment(&self) -> bool
        ensures { result ≡ spec.is_segment (element_of self.now) }
    {
        matches!(*self, Part::Segment(..))
    }

    /// Whether it is a receipt point.
    pub fn is_receipt(&self) -> bool
        ensures { result ≡ spec.is_receipt (element_of self.now) }
    {
        matches!(*self, Part::Receipt(..))
    }

    /// Whether it is a delivery point.
    pub fn is_delivery(&self) -> bool
        ensures { result ≡ spec.is_delivery (element_of self.now) }
    {
        matches!(*self, Part::Delivery(..))
    }
}

/// The two ends of a line, and the places that they hang on.
#[derive(Clone, Copy, Debug, PartialEq, Eq)]
pub struct Ends {
    pub origin: Element,
    pub dest: Element,
    pub origin_place: PlaceId,
    pub dest_place: PlaceId,
}
