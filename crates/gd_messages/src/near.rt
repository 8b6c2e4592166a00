//! Which name may have been meant in place of one that is not there.

use std::alloc::{AllocError, Global};
use strsim::osa_distance;

/// The most letters that a name may differ by from the one that was meant.
const MAX_EDITS: usize = 3;

/// How near the nearest of the names is that were offered in place of another.
#[derive(Clone, Copy)]
pub(crate) struct Nearest<'n> {
    wanted: &'n str,
    /// How many edits lead to it, or one more than any name may take.
    edits: usize,
}

impl<'n> Nearest<'n> {
    /// Nothing was offered in place of this name. A third of its letters may differ, one at least, and not all of them.
    pub(crate) fn to(wanted: &'n str) -> Nearest<'n> {
        let third = (wanted.len() / 3).clamp(1, MAX_EDITS);
        Nearest {
            wanted,
            edits: third.saturating_add(1).min(wanted.len()),
        }
    }

    /// Whether a name is nearer than all that were offered before. The only error is want of memory.
    pub(crate) fn is_nearer(&mut self, alloc: Global, name: &str) -> Result<bool, AllocError> {
        let edits = osa_distance(alloc, self.wanted, name)?;
        let nearer = edits < self.edits;
        if nearer {
            self.edits = edits;
        }
        Ok(nearer)
    }
}
