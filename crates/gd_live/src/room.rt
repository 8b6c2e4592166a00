//! How much a text may still have.

ghost use Rattle.std.specs.Prelude.{◌≡◌, IfSome, IfNone};
ghost use Rattle.gd_live.specs.Lines.{HasRoom, IsLess};

use crate::group::Group;
use std::marker::Model;

/// How many rows and bytes a text may still have.
///
/// A contract sees both.
#[derive(Clone, Copy, Debug)]
pub struct Room {
    rows: usize,
    bytes: usize,
}

impl Model for Room {
    ghost use Rattle.gd_live.specs.Stands.{Room as ARoom};

    ghost Value = { ARoom };

    ghost view = { λ r. record { rows = r.rows; bytes = r.bytes } };

    ghost inverse = { λ v. record { rows = v.rows; bytes = v.bytes } };
}

impl Room {
    /// So many rows and bytes.
    pub fn new(rows: usize, bytes: usize) -> Room
        ensures { result ≡ record { rows = rows; bytes = bytes } }
    {
        Room { rows, bytes }
    }

    /// What is left behind a line with the rows of its group, if there is room for them.
    pub(crate) fn without(self, group: &Group, line: &[u8]) -> Option<Room>
        ensures some { IfSome result (λ left. HasRoom self group.now line.now × IsLess group.now line.now self left) }
        ensures none { IfNone result (¬ (HasRoom self group.now line.now)) }
    {
        let rows = group.rows().len();
        let bytes = group.bytes().len() + line.len() + 1;
        if rows >= self.rows || bytes > self.bytes {
            return None;
        }
        Some(Room {
            rows: self.rows - rows - 1,
            bytes: self.bytes - bytes,
        })
    }
}
