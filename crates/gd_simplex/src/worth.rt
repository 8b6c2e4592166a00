//! What a dekatherm is worth, in a form that is quick to add and to compare.

use gd_cost::{Lex, Pair, Tariff};
use gd_units::Class;
use std::alloc::{AllocError, Global};

/// How many bits a class has in `Worth::classes`.
const CLASS_BITS: u32 = 14;

/// How many bits a class has in `Worth::spread`.
const SPREAD_BITS: u32 = 16;

/// How many bits a class has in a short worth, in its upper half and in its lower one.
const SHORT_BITS: u32 = 6;

/// The bits of half a number.
const HALF: u32 = 64;

/// The eight classes, and class 0 for elements.
const CLASSES: usize = Class::COUNT + 1;

/// How many worths there are in the table for each class: more than there are pieces.
const PIECES: usize = 16;

/// A whole number for each class and, for each, one of the spread, in two numbers: each class has some bits of them, the
/// first class the highest. So two additions add all, and at most two comparisons find the first that differ.
///
/// Above the classes stands how far elements are beyond their bounds, so that this counts most. No number outgrows its
/// bits: each is a sum along a way through the tree, which comes to each of at most 4,352 points and pools once, and so
/// goes over fewer lines. Were one to do so, it would run into the next class, and the proposal would be worse; nothing
/// else would be wrong.
#[derive(Clone, Copy, Debug, PartialEq, Eq, PartialOrd, Ord)]
pub struct Worth {
    pub(crate) classes: i128,
    pub(crate) spread: i128,
}

impl Worth {
    /// Nothing.
    pub const NONE: Worth = Worth {
        classes: 0,
        spread: 0,
    };

    /// Of these parts.
    #[inline]
    pub(crate) fn of(classes: i128, spread: i128) -> Worth {
        Worth { classes, spread }
    }

    /// The sum.
    #[inline]
    pub fn plus(self, other: Worth) -> Worth {
        Worth {
            classes: self.classes.wrapping_add(other.classes),
            spread: self.spread.wrapping_add(other.spread),
        }
    }

    /// The difference.
    #[inline]
    pub fn less(self, other: Worth) -> Worth {
        Worth {
            classes: self.classes.wrapping_sub(other.classes),
            spread: self.spread.wrapping_sub(other.spread),
        }
    }

    /// Whether it is greater than another.
    #[inline]
    pub fn is_above(self, other: Worth) -> bool {
        if self.classes == other.classes {
            self.spread > other.spread
        } else {
            self.classes > other.classes
        }
    }

    /// The same as a cost.
    pub(crate) fn tariff(self) -> Tariff {
        Pair::of(
            Lex::of(numbers(self.classes, CLASS_BITS)),
            Lex::of(numbers(self.spread, SPREAD_BITS)),
        )
    }
}

/// The numbers of the eight classes, each of which has so many bits, the last class the lowest.
///
/// The first one takes what stands above it too: so how far elements are beyond their bounds counts more than any class, as
/// it has to, also where the best tree has an element at its bound in the piece beyond it.
fn numbers(together: i128, bits: u32) -> [i128; Class::COUNT] {
    let above = 128u32.wrapping_sub(bits);
    let mut numbers = [0; Class::COUNT];
    let mut rest = together;
    for later in 1..Class::COUNT {
        let number = rest.wrapping_shl(above).wrapping_shr(above);
        numbers[Class::COUNT - later] = number;
        rest = rest.wrapping_sub(number).wrapping_shr(bits);
    }
    numbers[0] = rest;
    numbers
}

/// What a dekatherm of each class is worth in each piece of its arc. Class 0 stands for elements.
#[derive(Drop)]
pub struct Gains {
    worths: Vec<Worth>,
}

/// What a dekatherm of a class gains in a piece: an element's below nothing and above its capacity bring it nearer to its
/// bounds and further away, and a line's tenths have their class and, where they count, their weight.
fn gained(class: u32, piece: i128, tenths: bool) -> Worth {
    if class == 0 {
        let bound = 1i128.wrapping_shl(u32::from(Class::MAX) * CLASS_BITS);
        return Worth {
            classes: bound.wrapping_mul(1i128.wrapping_sub(piece)),
            spread: 0,
        };
    }
    let later = u32::from(Class::MAX).wrapping_sub(class);
    let weight = if tenths { piece } else { 0 };
    Worth {
        classes: 1i128.wrapping_shl(later.wrapping_mul(CLASS_BITS)),
        spread: 1i128
            .wrapping_shl(later.wrapping_mul(SPREAD_BITS))
            .wrapping_mul(weight)
            .wrapping_neg(),
    }
}

/// The same in a number alone, `Worth::classes`: the spread stands in its lower half. A class has so few bits that 64
/// dekatherms of a later one outweigh it, which a way through the tree seldom comes to; and nothing outgrows its half.
fn short_gained(class: u32, piece: i128, tenths: bool) -> Worth {
    if class == 0 {
        let bound = 1i128.wrapping_shl(HALF + u32::from(Class::MAX) * SHORT_BITS);
        return Worth::of(bound.wrapping_mul(1i128.wrapping_sub(piece)), 0);
    }
    let later = u32::from(Class::MAX).wrapping_sub(class);
    let unit = 1i128.wrapping_shl(later.wrapping_mul(SHORT_BITS));
    let weight = if tenths { piece } else { 0 };
    let classes = unit
        .wrapping_shl(HALF)
        .wrapping_sub(unit.wrapping_mul(weight));
    Worth::of(classes, 0)
}

impl Gains {
    /// The table of what the pieces gain, in short or not.
    fn table(alloc: Global, is_short: bool, tenths: bool) -> Result<Gains, AllocError> {
        let mut worths = Vec::with_capacity(alloc, CLASSES * PIECES)?;
        for entry in 0..CLASSES * PIECES {
            let class = (entry / PIECES) as u32;
            let piece = (entry % PIECES) as i128;
            worths.push(if is_short {
                short_gained(class, piece, tenths)
            } else {
                gained(class, piece, tenths)
            })?;
        }
        Ok(Gains { worths })
    }

    /// The table of what the pieces gain in short.
    pub(crate) fn short(alloc: Global, tenths: bool) -> Result<Gains, AllocError> {
        Gains::table(alloc, true, tenths)
    }

    /// The table of what the pieces gain.
    pub fn of(alloc: Global, tenths: bool) -> Result<Gains, AllocError> {
        Gains::table(alloc, false, tenths)
    }

    /// What a dekatherm gains in a piece of an arc of this class, by classes.
    #[inline]
    pub(crate) fn classes(&self, class: u8, piece: u8) -> i128 {
        self.gain(class, piece).classes
    }

    /// What a dekatherm gains in a piece of an arc of this class.
    #[inline]
    pub fn gain(&self, class: u8, piece: u8) -> Worth {
        match self.worths.get(class as usize * PIECES + piece as usize) {
            Some(worth) => *worth,
            None => Worth::NONE,
        }
    }
}
