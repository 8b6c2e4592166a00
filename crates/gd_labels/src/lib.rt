//! Labels that rise along links until none improves, or a closed walk that gains.
//!
//! Labels are of any cost, and none of this knows what nodes and links stand for.
#![tactic(auto)]

mod search;
mod sweep;

ghost use Rattle.std.specs.Prelude.{◌≡◌, ◌<◌, ◌^◌, map, IfOk};
ghost use Rattle.gd_labels.specs.Links.{AreLinks};
ghost use Rattle.gd_labels.specs.Findings.{IsFound};

use gd_cost::Cost;
use search::Search;
use std::alloc::{AllocError, Global};

/// Links from node to node, by their numbers, each with what it gains. The three lists are of one length.
#[derive(Drop)]
pub struct Links<C> {
    /// The node at which each link begins.
    pub from: Vec<usize>,
    /// The node to which it leads.
    pub to: Vec<usize>,
    /// What it gains.
    pub gain: Vec<C>,
}

/// Labels under which no link improves, or the links of a closed walk that gains.
#[derive(Drop)]
pub enum Found<C> {
    /// A label for each node.
    Labels(Vec<C>),
    /// The links of the walk, the last one first.
    Closed(Vec<usize>),
}

/// Labels for so many nodes by walks along the links, or a closed walk that gains. The only error is want of memory.
///
/// All labels start at zero and rise along the links, in sweeps over all of them (Bellman and Ford). Each gain is at
/// most 16 in size, so that a label is at most 16 times the nodes.
pub fn potentials<C: Cost>(
    alloc: Global,
    links: &Links<C>,
    nodes: usize,
) -> Result<Found<C>, AllocError>
    requires small { nodes < 2 ^ 32 }
    requires links { AreLinks C.scale C.within nodes
        links.now.from.items links.now.to.items (map C.meaning links.now.gain.items) }
    ensures { IfOk result (IsFound C.scale C.within C.meaning nodes
        links.now.from.items links.now.to.items (map C.meaning links.now.gain.items)) }
{
    let mut search = Search::start(alloc, nodes)?;
    match search.settle(alloc, links)? {
        None => Ok(Found::Labels(search.label)),
        Some(walk) => Ok(Found::Closed(walk)),
    }
}
