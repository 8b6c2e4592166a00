//! Names: of shippers, contracts, places, segments, points and pools.

ghost use Rattle.std.specs.Prelude.{◌≡◌, ◌==◌, ℕ, List, Result, Ok, Err, Some};
ghost use Rattle.std.specs.Ordering.{nat_cmp, as_partial_cmp};
ghost use Rattle.std.specs.Cmp.{partial_order_from_own_ties};
ghost use Rattle.std.specs.Cmp.Lexicographic.{slice_cmp, pointwise};
ghost use Rattle.std.specs.Cmp.Rules.{comparing, hashing};
ghost use Rattle.std.specs.Hash as fed;
ghost use Rattle.std.proofs.Common.{rules};
ghost use Rattle.gd_units.specs.Names.{name_of, name_fault_name};
ghost use Rattle.gd_units.specs.Names as spec;

use std::cmp::Ordering;
use std::fmt;
use std::hash::{Hash, Hasher};
use std::marker::Model;

/// Why bytes are no name, the first reason in this order. It is printed by its name alone.
#[derive(Clone, Copy, PartialEq, Eq, Debug)]
pub enum NameFault {
    /// There is no byte.
    Empty,
    /// There are more than 16 bytes (own limit).
    TooLong,
    /// The place of the first byte that no name has, from 0.
    BadByte(usize),
}

/// 1 to 16 bytes of `A` to `Z`, `0` to `9` and `-` (own limit).
///
/// A contract sees the bytes.
#[derive(Clone, Copy, Debug)]
pub struct Name {
    bytes: [u8; 16],
    len: u8,
}

impl Model for Name {
    ghost use Rattle.std.specs.Prelude.{List, ℕ, length};

    ghost Value = { List ℕ };

    ghost use Rattle.gd_units.specs.NameInside.{bytes_of, padded, IsPadded};

    ghost view = { bytes_of };

    ghost invariant = { IsPadded };

    ghost inverse = { λ d. record { bytes = padded d; len = length d } };

    ghost use Rattle.gd_units.specs.NameLaws.{gives_back};

    ghost inverse_ok = { gives_back };
}

impl Name {
    /// The bytes of the name.
    pub fn as_bytes(&self) -> &[u8]
        ensures bytes { result.now ≡ self.now }
        ensures named { name_of self.now ≡ Ok self.now }
    {
        &self.bytes[..self.len as usize]
    }
}

impl Name {
    /// The name as text.
    pub fn as_str(&self) -> &str
        ensures { result.now ≡ self.now }
    {
        match std::str::from_utf8(self.as_bytes()) {
            Ok(text) => text,
            Err(_) => unreachable!(),
        }
    }

    /// The name that bytes spell.
    pub fn of_bytes(text: &[u8]) -> Result<Name, NameFault>
        ensures { result ≡ name_of text.now }
    {
        if text.is_empty() {
            return Err(NameFault::Empty);
        }
        if text.len() > 16 {
            return Err(NameFault::TooLong);
        }
        if let Some(at) = bad_byte(text) {
            return Err(NameFault::BadByte(at));
        }
        let mut bytes = [0; 16];
        bytes[..text.len()].copy_from_slice(text);
        Ok(Name {
            bytes,
            len: text.len() as u8,
        })
    }

    /// The name that a text spells.
    pub fn read(text: &str) -> Result<Name, NameFault>
        ensures { result ≡ name_of text.now }
    {
        Name::of_bytes(text.as_bytes())
    }
}

/// The place of the first byte that no name has.
fn bad_byte(text: &[u8]) -> Option<usize>
    ensures { result ≡ spec.bad_byte text.now }
{
    text.iter().position(|b| !is_name_byte(*b))
}

/// Whether a name may have this byte: an upper case letter, a digit or `-`.
fn is_name_byte(b: u8) -> bool
    ensures { result ≡ spec.is_name_byte b }
{
    matches!(b, b'A'..=b'Z' | b'0'..=b'9' | b'-')
}

impl PartialEq for Name {
    ghost eq = { pointwise ◌==◌ };

    ghost laws = { Prim.search (comparing, rules) };

    fn eq(&self, other: &Name) -> bool {
        self.as_bytes() == other.as_bytes()
    }
}

impl Eq for Name {
    ghost laws = { Prim.search (comparing, rules) };
}

impl Ord for Name {
    ghost cmp = { slice_cmp nat_cmp };

    ghost total = { Prim.search (comparing, rules) };

    ghost matches_partial_cmp = { Prim.search (comparing, rules) };

    ghost matches_eq = { Prim.search (comparing, rules) };

    fn cmp(&self, other: &Name) -> Ordering {
        self.as_bytes().cmp(&other.as_bytes())
    }
}

impl PartialOrd for Name {
    ghost partial_cmp = { as_partial_cmp (slice_cmp nat_cmp) };

    ghost laws = { partial_order_from_own_ties (Prim.search (comparing, rules)) (Prim.search
        (comparing, rules)) };

    fn partial_cmp(&self, other: &Name) -> Option<Ordering> {
        Some(self.cmp(other))
    }
}

impl Hash for Name {
    ghost hash_input = { λ n. fed.slice fed.u8 n };

    ghost respects_eq = { Prim.search (hashing, rules) };

    fn hash<H: Hasher>(&self, state: &mut H) {
        self.as_bytes().hash(state);
    }
}

impl fmt::Display for NameFault {
    ghost output = { λ f. Some (name_fault_name f) };

    fn fmt<W: fmt::Write>(&self, f: &mut fmt::Formatter<W>) -> fmt::Result {
        match self {
            NameFault::Empty => f.write_str("Empty"),
            NameFault::TooLong => f.write_str("TooLong"),
            NameFault::BadByte(_) => f.write_str("BadByte"),
        }
    }
}

impl fmt::Display for Name {
    ghost output = { λ n. Some n };

    fn fmt<W: fmt::Write>(&self, f: &mut fmt::Formatter<W>) -> fmt::Result {
        f.write_str(self.as_str())
    }
}
