//! What makes a line.

use gd_units::Name;
use std::marker::Model;

/// What makes a line: a contract, a package within it, an origin and a destination.
#[derive(Clone, Copy, Debug, PartialEq, Eq, Hash)]
pub struct LineKey {
    pub contract: Name,
    pub package: Name,
    pub origin: Name,
    pub dest: Name,
}

impl Model for LineKey {
    ghost use Rattle.gd_rules.specs.Lines.{Key};

    ghost Value = { Key };

    ghost view = { λ k. record {
      contract = k.contract;
      «package» = k.«package»;
      origin = k.origin;
      dest = k.dest;
    } };

    ghost inverse = { λ k. record {
      contract = k.contract;
      «package» = k.«package»;
      origin = k.origin;
      dest = k.dest;
    } };
}
