//! What is told of two ends between which no line can run.

use crate::names::{Sought, part_named};
use crate::refusal::{Refused, told_of_unknown};
use gd_system::{Element, PlaceId, RouteFault, System};
use gd_text::system_of;
use gd_text_part::TextFault;
use gd_units::Name;
use std::alloc::AllocError;

/// Whether a part of this name is a point or a pool.
fn is_end(refused: Refused, name: Name) -> bool {
    match part_named(refused.before, name) {
        Some(part) => Sought::End.takes(&part),
        None => false,
    }
}

/// The place at which a point or pool hangs.
fn place_of(system: &System, end: Name) -> Option<PlaceId> {
    let element = system.element(end)?;
    Some(system.part(element).place())
}

/// The first segment that would be passed against its direction on the way between two places.
fn first_against(system: &System, origin: PlaceId, dest: PlaceId) -> Option<Name> {
    let tree = system.tree();
    let mut from = u32::try_from(origin.0).ok()?;
    let mut to = u32::try_from(dest.0).ok()?;
    for _ in 0..system.place_count() {
        if tree.len() < from as usize || tree.len() < to as usize {
            return None;
        }
        let step = tree.step(from, to)?;
        if !step.along {
            let segment = Element(step.segment as usize);
            return if segment.0 < system.element_count() {
                Some(system.name(segment))
            } else {
                None
            };
        }
        (from, to) = (step.from, step.to);
    }
    None
}

/// The first segment that would be passed against its direction on the way from one end to another, of the pipeline before
/// the row.
fn segment_against(refused: Refused, origin: Name, dest: Name) -> Result<Option<Name>, AllocError> {
    let system = match system_of(refused.alloc, refused.before) {
        Ok(system) => system,
        Err(TextFault::OutOfMemory) => return Err(AllocError),
        Err(_) => return Ok(None),
    };
    let found = match (place_of(&system, origin), place_of(&system, dest)) {
        (Some(from), Some(to)) => first_against(&system, from, to),
        _ => None,
    };
    drop(system);
    Ok(found)
}

/// What is told of two ends between which no route leads.
fn told_of_no_route(refused: Refused, origin: Name, dest: Name) -> Result<String, AllocError> {
    let Refused { alloc, place, .. } = refused;
    match segment_against(refused, origin, dest)? {
        Some(segment) => format!(in alloc;
            "{place}: no route leads from {origin} to {dest} in the direction of flow: the segment {segment} would be passed the other way"
        ),
        None => format!(in alloc;
            "{place}: no route leads from {origin} to {dest} in the direction of flow"
        ),
    }
}

/// What is told of two ends between which no line, or no contract's firm service, can run. `what` names it.
pub(crate) fn told_of_ends(
    refused: Refused,
    what: &str,
    fault: RouteFault,
    origin: Name,
    dest: Name,
) -> Result<String, AllocError> {
    let Refused { alloc, place, .. } = refused;
    match fault {
        RouteFault::UnknownEnd => {
            let unknown = if is_end(refused, origin) {
                dest
            } else {
                origin
            };
            told_of_unknown(refused, unknown, Sought::End)
        }
        RouteFault::WrongEnd => format!(in alloc;
            "{place}: the {what} leads from {origin} to {dest}; gas comes from a receipt point or a pool, and goes to a delivery point or a pool"
        ),
        RouteFault::SameEnd => format!(in alloc;
            "{place}: the {what} begins and ends at {origin}; its two ends have to differ"
        ),
        RouteFault::NoRoute | RouteFault::OutOfMemory => told_of_no_route(refused, origin, dest),
    }
}
