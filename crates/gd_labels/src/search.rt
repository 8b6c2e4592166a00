//! A search for labels, which keeps how each of them came about.

ghost use Rattle.std.specs.Prelude.{◌≡◌, ◌<◌, ◌^◌, true, false, length, IfOk, IsTrue};
ghost use Rattle.gd_labels.specs.Searches.{IsSearch, Join, Avoids, Gains, reached, improves, room};

use crate::Links;
use gd_cost::Cost;
use std::alloc::{AllocError, Global};

/// The labels of the nodes, and the events that made them.
///
/// Each node has a first event, which labels it zero. A later event labels the node to which a link leads, from an
/// earlier event of the node at which the link begins.
#[derive(Drop)]
pub(crate) struct Search<C> {
    /// The node that each event labels.
    node: Vec<usize>,
    /// The event before it.
    before: Vec<usize>,
    /// The link from there.
    link: Vec<usize>,
    /// The last event of each node.
    current: Vec<usize>,
    /// The label of each node.
    pub(crate) label: Vec<C>,
}

impl<C: Cost> Search<C> {
    /// Each node is labelled zero by its first event, which has its number. So the search may go on along any links.
    pub(crate) fn start(alloc: Global, nodes: usize) -> Result<Search<C>, AllocError>
        ensures search { IfOk result (λ search. (links : Links C)
            → IsSearch C.scale C.within C.meaning links search) }
        ensures nodes { IfOk result (λ search. length search.current.items ≡ nodes) }
    {
        let mut search = Search {
            node: Vec::with_capacity(alloc, nodes)?,
            before: Vec::with_capacity(alloc, nodes)?,
            link: Vec::with_capacity(alloc, nodes)?,
            current: Vec::with_capacity(alloc, nodes)?,
            label: Vec::with_capacity(alloc, nodes)?,
        };
        for v in 0..nodes {
            search.node.push(v)?;
            search.before.push(0)?;
            search.link.push(0)?;
            search.current.push(v)?;
            search.label.push(C::zero())?;
        }
        Ok(search)
    }

    /// What taking link i would make of the label at its end.
    fn reached(&self, links: &Links<C>, i: usize) -> C
        requires search { IsSearch C.scale C.within C.meaning links.now self.now }
        requires small { length self.now.current.items < 2 ^ 32 }
        requires links { Join C.scale C.within C.meaning (length self.now.current.items) links.now }
        requires link { i < length links.now.from.items }
        ensures { C.meaning result ≡ reached C.scale C.meaning links.now self.now i }
    {
        self.label[links.from[i]].add(links.gain[i])
    }

    /// Whether link i would raise the label of the node to which it leads.
    pub(crate) fn improves(&self, links: &Links<C>, i: usize) -> bool
        requires search { IsSearch C.scale C.within C.meaning links.now self.now }
        requires small { length self.now.current.items < 2 ^ 32 }
        requires links { Join C.scale C.within C.meaning (length self.now.current.items) links.now }
        requires link { i < length links.now.from.items }
        ensures { result ≡ improves C.scale C.meaning links.now self.now i }
    {
        let value = self.reached(links, i);
        value.cmp(self.label[links.to[i]]).is_gt()
    }

    /// Whether link i leads back to a node that the walk to its start went through. If so, `walk` becomes the closed walk,
    /// the last link first.
    pub(crate) fn closes(
        &self,
        links: &Links<C>,
        i: usize,
        walk: &mut Vec<usize>,
    ) -> Result<bool, AllocError>
        requires search { IsSearch C.scale C.within C.meaning links.now self.now }
        requires links { Join C.scale C.within C.meaning (length self.now.current.items) links.now }
        requires link { i < length links.now.from.items }
        requires improves { IsTrue (improves C.scale C.meaning links.now self.now i) }
        ensures closed { IfOk result (λ closed. closed ≡ true
            → Gains C.scale C.meaning links.now walk.new.items) }
        ensures avoids { IfOk result (λ closed. closed ≡ false → Avoids links.now self.now i) }
    {
        let end = links.to[i];
        walk.clear();
        walk.push(i)?;
        let mut event = self.current[links.from[i]];
        while event >= self.current.len() && self.node[event] != end {
            walk.push(self.link[event])?;
            event = self.before[event];
        }
        Ok(self.node[event] == end)
    }

    /// Raises the label at the end of link i.
    pub(crate) fn raise(&mut self, links: &Links<C>, i: usize) -> Result<(), AllocError>
        requires search { IsSearch C.scale C.within C.meaning links.now self.old }
        requires small { length self.old.current.items < 2 ^ 32 }
        requires links { Join C.scale C.within C.meaning (length self.old.current.items) links.now }
        requires link { i < length links.now.from.items }
        requires improves { IsTrue (improves C.scale C.meaning links.now self.old i) }
        requires avoids { Avoids links.now self.old i }
        ensures search { IfOk result (λ _. IsSearch C.scale C.within C.meaning links.now self.new) }
        ensures rises { IfOk result
            (λ _. room C.size C.rank C.meaning (length self.old.current.items) self.new
            < room C.size C.rank C.meaning (length self.old.current.items) self.old) }
        ensures nodes { length self.new.current.items ≡ length self.old.current.items }
    {
        let start = links.from[i];
        let end = links.to[i];
        let value = self.reached(links, i);
        let event = self.node.len();
        self.node.push(end)?;
        self.before.push(self.current[start])?;
        self.link.push(i)?;
        self.current[end] = event;
        self.label[end] = value;
        Ok(())
    }
}
