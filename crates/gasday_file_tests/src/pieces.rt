//! Pieces of a journal, and the calls on them. None of these has a clause, so that the proof of a test carries no database from one call to
//! the next.

use gd_journal_store::{Piece, StoreFault, is_journal, pieces};
use sqlite::{Alter, Connection};
use std::alloc::Global;

/// The rows of a piece, and what was told of them.
pub(crate) type Bytes<'a> = (&'a [u8], &'a [u8]);

/// A piece of one row, with what was told of it.
pub(crate) const FIRST: Bytes<'static> = (b"cycle,2\n", b"took,1,,\n");

/// Rows of which nothing was told, and which are no text.
pub(crate) const SECOND: Bytes<'static> = (b"\xff\x00\n\r\"", b"");

/// What was told of no rows.
pub(crate) const THIRD: Bytes<'static> = (b"", b"told,,\n");

pub(crate) fn make<S: Alter>(conn: &mut Connection<S>) -> Result<(), StoreFault> {
    gd_journal_store::make(conn)
}

pub(crate) fn append<S: Alter>(
    conn: &mut Connection<S>,
    number: u32,
    piece: Bytes<'_>,
) -> Result<(), StoreFault> {
    gd_journal_store::append(conn, number, piece.0, piece.1)
}

pub(crate) fn count<S: Alter>(conn: &mut Connection<S>) -> Result<u32, StoreFault> {
    gd_journal_store::count(conn)
}

/// Whether the schema is a journal's.
pub(crate) fn is_one<S: Alter>(conn: &Connection<S>) -> bool {
    is_journal(conn)
}

/// Whether a journal of the three pieces is made.
pub(crate) fn makes_three<S: Alter>(conn: &mut Connection<S>) -> bool {
    if make(conn).is_err() {
        return false;
    }
    for (number, piece) in [(1, FIRST), (2, SECOND), (3, THIRD)] {
        if append(conn, number, piece).is_err() {
            return false;
        }
    }
    true
}

fn are_pieces(found: &[Piece], wanted: &[Bytes<'_>]) -> bool {
    if found.len() != wanted.len() {
        return false;
    }
    for (piece, bytes) in found.iter().zip(wanted) {
        if (piece.rows.as_slice(), piece.told.as_slice()) != *bytes {
            return false;
        }
    }
    true
}

/// Whether these pieces, and they alone, are read behind so many first ones.
pub(crate) fn has<S: Alter>(
    conn: &mut Connection<S>,
    alloc: Global,
    after: u32,
    wanted: &[Bytes<'_>],
) -> bool {
    let Ok(count) = u32::try_from(wanted.len()) else {
        return false;
    };
    match pieces(conn, alloc, after, count) {
        Ok(found) => are_pieces(found.as_slice(), wanted),
        Err(_) => false,
    }
}

/// Whether the journal is of the three pieces and of no other.
pub(crate) fn has_three<S: Alter>(conn: &mut Connection<S>, alloc: Global) -> bool {
    matches!(count(conn), Ok(3)) && has(conn, alloc, 0, &[FIRST, SECOND, THIRD])
}
