//! Sweeps over all links, until none improves or a walk that gains is closed.

ghost use Rattle.std.specs.Prelude.{◌≡◌, ◌<◌, ◌^◌, length, IfOk, IfSome, IfNone};
ghost use Rattle.gd_labels.specs.Searches.{IsSearch, Join, IsSettled, Gains, AfterSweep};

use crate::Links;
use crate::search::Search;
use gd_cost::Cost;
use std::alloc::{AllocError, Global};

/// What a sweep found.
#[derive(Clone, Copy)]
enum Swept {
    /// No link improves.
    Still,
    /// Some label rose.
    Raised,
    /// A closed walk that gains.
    Closed,
}

impl<C: Cost> Search<C> {
    /// Takes each link in turn, and raises the label at its end where that improves it, up to the first that closes a walk.
    fn sweep(&mut self, links: &Links<C>, walk: &mut Vec<usize>) -> Result<Swept, AllocError>
        requires search { IsSearch C.scale C.within C.meaning links.now self.old }
        requires small { length self.old.current.items < 2 ^ 32 }
        requires links { Join C.scale C.within C.meaning (length self.old.current.items) links.now }
        ensures search { IfOk result (λ _. IsSearch C.scale C.within C.meaning links.now self.new) }
        ensures nodes { IfOk result (λ _. length self.new.current.items
            ≡ length self.old.current.items) }
        ensures swept { IfOk result (AfterSweep C.scale C.size C.rank C.meaning links.now self.old
            self.new walk.new.items) }
    {
        let mut raised = false;
        for i in 0..links.from.len() {
            if self.improves(links, i) {
                if self.closes(links, i, walk)? {
                    return Ok(Swept::Closed);
                }
                self.raise(links, i)?;
                raised = true;
            }
        }
        if raised {
            Ok(Swept::Raised)
        } else {
            Ok(Swept::Still)
        }
    }

    /// Sweeps until no link improves, or there is a closed walk that gains.
    pub(crate) fn settle(
        &mut self,
        alloc: Global,
        links: &Links<C>,
    ) -> Result<Option<Vec<usize>>, AllocError>
        requires search { IsSearch C.scale C.within C.meaning links.now self.old }
        requires small { length self.old.current.items < 2 ^ 32 }
        requires links { Join C.scale C.within C.meaning (length self.old.current.items) links.now }
        ensures search { IfOk result (λ _. IsSearch C.scale C.within C.meaning links.now self.new) }
        ensures nodes { IfOk result (λ _. length self.new.current.items
            ≡ length self.old.current.items) }
        ensures still { IfOk result
            (λ found. IfNone found (IsSettled C.scale C.meaning links.now self.new)) }
        ensures closed { IfOk result (λ found. IfSome found
            (λ walk. Gains C.scale C.meaning links.now walk.items)) }
    {
        let mut walk = Vec::new(alloc);
        loop {
            match self.sweep(links, &mut walk)? {
                Swept::Still => return Ok(None),
                Swept::Raised => {}
                Swept::Closed => return Ok(Some(walk)),
            }
        }
    }
}
