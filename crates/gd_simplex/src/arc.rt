//! The arcs, one for each element and each line, and the pieces of what they carry.

/// More than any arc carries.
const FAR: i64 = 1 << 60;

/// The number of a node or an arc, in the 32 bits in which it is kept.
pub(crate) fn short(number: usize) -> u32 {
    u32::try_from(number).unwrap_or(0)
}

/// An arc from node to node, and the pieces along which what it carries can rise and fall while it is not in the tree.
///
/// An element's pieces are 0 below nothing, 1 up to its capacity, and 2 above it: it may leave its bounds, at a price
/// that counts more than all classes. A line's pieces are the tenths of its ceiling, 1 to 10, or one piece, 1, while tenths
/// don't count; it never leaves its bounds.
#[derive(Clone, Copy, Debug)]
pub(crate) struct Arc {
    pub from: u32,
    pub to: u32,
    /// The line's class, or 0 for an element.
    pub class: u8,
    /// Whether the spanning tree has it.
    pub in_tree: bool,
    /// The piece along which it can carry more.
    pub rise: Option<u8>,
    /// The piece along which it can carry less.
    pub fall: Option<u8>,
}

impl Arc {
    /// Where there is no such arc.
    pub(crate) const NONE: Arc = Arc {
        from: 0,
        to: 0,
        class: 0,
        in_tree: true,
        rise: None,
        fall: None,
    };
}

/// What an arc carries and may carry, and in which piece it is while it is in the tree.
#[derive(Clone, Copy, Debug)]
pub(crate) struct Amount {
    pub floor: i64,
    pub ceiling: i64,
    /// What it carries. While the tree has the arc, its lower node tells how much more and less it could.
    pub now: i64,
    /// The piece in which it is, with its ends.
    pub piece: u8,
    pub low: i64,
    pub high: i64,
}

/// The end of a tenth.
fn tenth_end(ceiling: i64, tenth: u8) -> i64 {
    ceiling.wrapping_mul(tenth as i64) / 10
}

impl Amount {
    /// Where there is no such arc.
    pub(crate) const NONE: Amount = Amount {
        floor: 0,
        ceiling: 0,
        now: 0,
        piece: 1,
        low: 0,
        high: 0,
    };

    /// What may lie between a floor and a ceiling.
    pub(crate) fn between(floor: i64, ceiling: i64, now: i64) -> Amount {
        Amount {
            floor,
            ceiling,
            now,
            ..Amount::NONE
        }
    }

    /// The piece of a line along which it can rise.
    fn tenth_above(&self, tenths: bool) -> Option<u8> {
        if self.now >= self.ceiling {
            return None;
        }
        if tenths {
            for tenth in 1..=10 {
                if tenth_end(self.ceiling, tenth) > self.now {
                    return Some(tenth);
                }
            }
        }
        Some(1)
    }

    /// The piece of a line along which it can fall.
    fn tenth_below(&self, tenths: bool) -> Option<u8> {
        if self.now <= self.floor {
            return None;
        }
        if tenths {
            for tenth in 1..=10 {
                if tenth_end(self.ceiling, tenth) >= self.now {
                    return Some(tenth);
                }
            }
        }
        Some(1)
    }

    /// The piece along which an arc of this class can rise.
    pub(crate) fn above(&self, class: u8, tenths: bool) -> Option<u8> {
        if class > 0 {
            self.tenth_above(tenths)
        } else if self.now < 0 {
            Some(0)
        } else if self.now < self.ceiling {
            Some(1)
        } else {
            Some(2)
        }
    }

    /// The piece along which it can fall.
    pub(crate) fn below(&self, class: u8, tenths: bool) -> Option<u8> {
        if class > 0 {
            self.tenth_below(tenths)
        } else if self.now <= 0 {
            Some(0)
        } else if self.now <= self.ceiling {
            Some(1)
        } else {
            Some(2)
        }
    }

    /// A piece in which it lies, within its bounds where it can.
    pub(crate) fn within(&self, class: u8, tenths: bool) -> u8 {
        if class == 0 {
            if self.now < 0 {
                0
            } else if self.now > self.ceiling {
                2
            } else {
                1
            }
        } else {
            match self.tenth_above(tenths) {
                Some(tenth) => tenth,
                None => self.tenth_below(tenths).unwrap_or(1),
            }
        }
    }

    /// The same in a piece of an arc of this class.
    pub(crate) fn in_piece(self, class: u8, tenths: bool, piece: u8) -> Amount {
        let (low, high) = match (class, piece) {
            (0, 0) => (FAR.wrapping_neg(), 0),
            (0, 1) => (0, self.ceiling),
            (0, _) => (self.ceiling, FAR),
            _ if tenths => (
                tenth_end(self.ceiling, piece.wrapping_sub(1)).max(self.floor),
                tenth_end(self.ceiling, piece).min(self.ceiling),
            ),
            _ => (self.floor, self.ceiling),
        };
        Amount {
            piece,
            low,
            high,
            ..self
        }
    }
}
