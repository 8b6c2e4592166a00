//! The arcs at each node, so that a search need not go over all arcs.

ghost use Rattle.std.specs.Prelude.{◌≡◌, ℕ, ◌<◌, [], ◌∷◌, ◌++◌, ◌==◌, length, get_or, if◌then◌else◌, IfOk, OnOk, replicate};
ghost use Rattle.gd_network.specs.Arcs.{from_at, to_at};
ghost use Rattle.gd_network.specs.Links.{touches, AreLinks, lists};

use crate::Arc;
use std::alloc::{AllocError, Global};

/// Counts one more at a node.
fn count(degrees: &mut [usize], node: usize) {
    if let Some(degree) = degrees.get_mut(node) {
        *degree = degree.saturating_add(1);
    }
}

/// How many arcs begin or end at each node.
fn degrees(alloc: Global, arcs: &[Arc], nodes: usize) -> Result<Vec<usize>, AllocError> {
    let mut degrees = vec![in alloc; 0usize; nodes]?;
    for arc in arcs {
        count(&mut degrees, arc.from);
        count(&mut degrees, arc.to);
    }
    Ok(degrees)
}

/// An empty list for each node, with room for its arcs.
fn no_links(alloc: Global, arcs: &[Arc], nodes: usize) -> Result<Vec<Vec<usize>>, AllocError>
    ensures { IfOk result (λ links. lists links.items ≡ replicate nodes []) }
{
    let degrees = degrees(alloc, arcs, nodes)?;
    let mut links = Vec::with_capacity(alloc, nodes)?;
    for node in 0..nodes {
        let degree = degrees.get(node).copied().unwrap_or(0);
        links.push(Vec::with_capacity(alloc, degree)?)?;
    }
    Ok(links)
}

/// Notes an arc at a node.
fn note(links: &mut Vec<Vec<usize>>, node: usize, arc: usize) -> Result<(), AllocError>
    requires { node < length links.old.items }
    ensures sized { length links.new.items ≡ length links.old.items }
    ensures noted { OnOk result ((v : ℕ) → get_or (lists links.new.items) v []
        ≡ get_or (lists links.old.items) v [] ++ (if v == node then arc ∷ [] else [])) }
{
    links[node].push(arc)?;
    Ok(())
}

/// Notes an arc at its two ends.
fn add(links: &mut Vec<Vec<usize>>, arc: Arc, number: usize) -> Result<(), AllocError>
    requires from { arc.from < length links.old.items }
    requires to { arc.to < length links.old.items }
    ensures sized { length links.new.items ≡ length links.old.items }
    ensures noted { OnOk result ((v : ℕ) → get_or (lists links.new.items) v []
        ≡ get_or (lists links.old.items) v [] ++ (if touches arc v then number ∷ [] else [])) }
{
    note(links, arc.from, number)?;
    if arc.to != arc.from {
        note(links, arc.to, number)?;
    }
    Ok(())
}

/// The arcs that begin or end at each node, in their order.
pub(crate) fn links_of(
    alloc: Global,
    arcs: &[Arc],
    nodes: usize,
) -> Result<Vec<Vec<usize>>, AllocError>
    requires from { (a : ℕ) → a < length arcs.now → from_at arcs.now a < nodes }
    requires to { (a : ℕ) → a < length arcs.now → to_at arcs.now a < nodes }
    ensures { IfOk result (λ links. AreLinks nodes arcs.now (length arcs.now) (lists links.items)) }
{
    let mut links = no_links(alloc, arcs, nodes)?;
    for number in 0..arcs.len() {
        add(&mut links, arcs[number], number)?;
    }
    Ok(links)
}
