//! What lines give.

ghost use Rattle.std.specs.Prelude.{◌≡◌, []};
ghost use Rattle.gd_serving.specs.Seen.{seen};
ghost use Rattle.gd_serving.specs.Yields.{total, kept_of, is_nothing};

use std::alloc::Global;

/// What lines give: the rows that are kept of them, the replies that are kept with these, and all that is told.
///
/// Each is bytes of whole rows, with their line feeds. What is told has the replies among it, and the faults.
#[derive(Debug, Drop)]
pub struct Given {
    pub rows: Vec<u8>,
    pub replies: Vec<u8>,
    pub told: Vec<u8>,
}

impl Given {
    /// Nothing yet. It allocates nothing.
    pub fn new(alloc: Global) -> Given
        ensures { seen result ≡ total [] }
    {
        Given {
            rows: Vec::new(alloc),
            replies: Vec::new(alloc),
            told: Vec::new(alloc),
        }
    }

    /// Forgets all, and keeps the room.
    pub(crate) fn clear(&mut self)
        ensures { seen self.new ≡ total [] }
    {
        self.rows.clear();
        self.replies.clear();
        self.told.clear();
    }

    /// Whether nothing is to be kept.
    pub(crate) fn is_nothing(&self) -> bool
        ensures { result ≡ is_nothing (kept_of (seen self.now)) }
    {
        self.rows.is_empty() && self.replies.is_empty()
    }
}
