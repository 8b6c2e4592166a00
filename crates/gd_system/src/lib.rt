//! Pipelines by name: a tree of one-way segments, with points and pools at its places.
#![tactic(auto)]

mod builder;
mod fault;
mod part;
mod route;
mod system;

pub use builder::SystemBuilder;
pub use gd_units::Kind;
pub use part::{Element, Ends, Part, PlaceId, Point, Pool};
pub use route::{Route, routes_are};
pub use system::System;

/// How many segments a pipeline may have, one fewer than places (own limit).
pub const MAX_SEGMENTS: usize = 4095;

/// How many places it may have (own limit).
pub const MAX_PLACES: usize = 4096;

/// How many points it may have (own limit).
pub const MAX_POINTS: usize = 4096;

/// How many pools it may have (own limit).
pub const MAX_POOLS: usize = 256;

/// Why a builder refuses. A refused call leaves the builder as it was. It is printed by its name.
#[derive(Clone, Copy, Debug, PartialEq, Eq, Drop)]
pub enum BuildFault {
    /// A segment, point or pool of this name is there.
    Duplicate,
    /// The first segment has equal ends, or a later one has not exactly one end that is known.
    Unjoined,
    /// No segment mentions the place.
    UnknownPlace,
    /// The 4,097th place or point, or the 257th pool.
    TooMany,
    /// There is no segment.
    NoSegment,
    /// Memory was refused.
    OutOfMemory,
}

/// Why there is no route between two ends, the first reason in this order. It is printed by its name.
#[derive(Clone, Copy, Debug, PartialEq, Eq, Drop)]
pub enum RouteFault {
    /// One of the names is that of no point or pool.
    UnknownEnd,
    /// The origin is a delivery point, or the destination a receipt point.
    WrongEnd,
    /// Both ends are the same.
    SameEnd,
    /// A segment would be passed against its direction.
    NoRoute,
    /// Memory was refused.
    OutOfMemory,
}
