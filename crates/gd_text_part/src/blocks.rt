//! The blocks of an office's text, each of which is a slot.

ghost use Rattle.std.specs.Prelude.{◌≡◌};

use crate::fault::Cause;

/// The most blocks that the text of an office may have (own).
pub const MAX_BLOCKS: usize = 64;

/// The most sessions that a slot may have (own).
pub const MAX_SESSIONS_A_SLOT: u16 = 1_024;

/// The blocks so far.
#[derive(Clone, Copy)]
pub(crate) struct Blocks {
    /// How many have begun.
    pub(crate) begun: u32,
    /// Whether one before the last has no `day` row.
    pub(crate) headless: bool,
    /// How many sessions each slot has had.
    pub(crate) sessions: [u16; MAX_BLOCKS],
}

ghost use Rattle.gd_text_part.specs.Offices as spec;

impl Blocks {
    /// No block has begun.
    pub(crate) fn none() -> Blocks
        ensures { result ≡ spec.no_blocks }
    {
        Blocks {
            begun: 0,
            headless: false,
            sessions: [0; MAX_BLOCKS],
        }
    }

    /// One block more. Whether the one before it has its `day` row is `headed`.
    pub(crate) fn with_block(self, headed: bool) -> Result<Blocks, Cause>
        ensures { result ≡ spec.with_block self headed }
    {
        if self.begun >= MAX_BLOCKS as u32 {
            return Err(Cause::Limit);
        }
        Ok(Blocks {
            begun: self.begun + 1,
            headless: self.headless || (0 < self.begun && !headed),
            sessions: self.sessions,
        })
    }

    /// One session more of a slot, counted from 1.
    pub(crate) fn with_session(self, slot: u32) -> Result<Blocks, Cause>
        ensures { result ≡ spec.with_session self slot }
    {
        let at = slot.saturating_sub(1) as usize;
        if at >= MAX_BLOCKS || self.sessions[at] >= MAX_SESSIONS_A_SLOT {
            return Err(Cause::Limit);
        }
        let mut sessions = self.sessions;
        sessions[at] += 1;
        Ok(Blocks { sessions, ..self })
    }
}
