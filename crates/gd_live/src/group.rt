//! The rows that wait for their call.

ghost use Rattle.std.specs.Prelude.{◌≡◌, [], ◌∷◌, ◌++◌, IfOk, OnOk, length};
ghost use Rattle.gd_live.specs.Stands as spec;
ghost use Rattle.gd_live.specs.Stands.{with_line};

use gd_text_part::{LinePlace, Row};
use std::alloc::{AllocError, Global};
use std::marker::Model;

/// The rows that wait for their call, and the bytes of their lines, each with a line feed.
///
/// A contract sees where rows stand behind them, the rows and the bytes.
#[derive(Drop)]
pub(crate) struct Group {
    place: LinePlace,
    rows: Vec<Row>,
    bytes: Vec<u8>,
}

impl Model for Group {
    ghost use Rattle.gd_live.specs.Stands.{Group as AGroup};

    ghost Value = { AGroup };

    ghost view = { λ g. record { place = g.place; rows = g.rows.items; bytes = g.bytes.items } };
}

impl Group {
    /// No row waits.
    pub(crate) fn new(alloc: Global) -> Group
        ensures { result ≡ spec.no_group }
    {
        Group {
            place: LinePlace::behind_opening(),
            rows: Vec::new(alloc),
            bytes: Vec::new(alloc),
        }
    }

    /// Where rows stand behind those that wait.
    pub(crate) fn place(&self) -> LinePlace
        ensures { result ≡ self.now.place }
    {
        self.place
    }

    /// The rows that wait.
    pub(crate) fn rows(&self) -> &[Row]
        ensures { result.now ≡ self.now.rows }
    {
        self.rows.as_slice()
    }

    /// The bytes of their lines.
    pub(crate) fn bytes(&self) -> &[u8]
        ensures { result.now ≡ self.now.bytes }
    {
        self.bytes.as_slice()
    }

    /// One more row waits, behind which rows stand at this place.
    pub(crate) fn wait(&mut self, line: &[u8], row: Row, place: LinePlace) -> Result<(), AllocError>
        ensures { OnOk result (self.new ≡ record {
          place = place;
          rows = self.old.rows ++ row ∷ [];
          bytes = with_line self.old line.now;
        }) }
    {
        self.rows.push(row)?;
        self.bytes.extend_from_slice(line)?;
        self.bytes.push(b'\n')?;
        self.place = place;
        Ok(())
    }

    /// The rows that wait are dropped.
    pub(crate) fn clear(&mut self)
        ensures { self.new ≡ spec.no_group }
    {
        self.place = LinePlace::behind_opening();
        self.rows.clear();
        self.bytes.clear();
    }
}
