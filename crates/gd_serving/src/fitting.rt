//! One piece taken again.

ghost use Rattle.std.specs.Prelude.{◌≡◌, ◌≢◌, ◌⊎◌, ◌+◌, ◌++◌, ◌∷◌, ℕ, [], true, false, IfOk, MatchOption};
ghost use Rattle.gd_journal_store.specs.Seen.{seen as as_kept};
ghost use Rattle.gd_serving.specs.Seen.{seen};
ghost use Rattle.gd_serving.specs.Yields.{Yield, kept_count};
ghost use Rattle.gd_serving.specs.Replays.{BeginsWith, Replays, PieceDiffers};

use crate::block::first_line;
use crate::given::Given;
use crate::taking::TakesLines;
use gd_journal_store::Piece;
use std::alloc::{AllocError, Global};
use std::thread::Threads;

/// What comes behind this front; `None` where the bytes begin otherwise.
fn behind<'a>(bytes: &'a [u8], front: &[u8]) -> Option<&'a [u8]>
    ensures { MatchOption result (¬ BeginsWith bytes.now front.now) (λ rest. bytes.now ≡ front.now ++ rest.now) }
{
    bytes.strip_prefix(front)
}

/// Takes a line again, and answers what of these rows and replies comes behind those that it gives; `None` where they don't
/// begin with those.
fn take_again<'a, D: TakesLines>(
    rt: &(impl Threads + Sync),
    desk: &mut D,
    line: &[u8],
    given: &mut Given,
    rows: &'a [u8],
    told: &'a [u8],
) -> Result<Option<(&'a [u8], &'a [u8])>, AllocError>
    ensures { IfOk result (λ left. (y : Yield) × D.gives desk.old line.now desk.new y × (seen given.new ≡ y)
        × MatchOption left ((¬ BeginsWith rows.now y.rows) ⊎ (¬ BeginsWith told.now y.replies))
        (λ p. (rows.now ≡ y.rows ++ p.0.now) × (told.now ≡ y.replies ++ p.1.now))) }
{
    given.clear();
    desk.take_line(rt, line, given)?;
    let Some(rows) = behind(rows, given.rows.as_slice()) else {
        return Ok(None);
    };
    let Some(told) = behind(told, given.replies.as_slice()) else {
        return Ok(None);
    };
    Ok(Some((rows, told)))
}

/// The number of the next call behind a line that gave this. It fits 64 bits, or memory counts as ended.
fn next_behind(next: u64, given: &Given) -> Result<u64, AllocError>
    ensures { IfOk result (λ n. n ≡ next + kept_count (seen given.now ∷ [])) }
{
    if given.is_nothing() {
        return Ok(next);
    }
    next.checked_add(1).ok_or(AllocError)
}

/// Whether nothing of a piece is left.
fn is_used_up(bytes: &[u8], rows: &[u8], told: &[u8]) -> bool
    ensures all { result ≡ true → (bytes.now ≡ []) × (rows.now ≡ []) × (told.now ≡ []) }
    ensures some { result ≡ false → (bytes.now ≢ []) ⊎ ((rows.now ≢ []) ⊎ (told.now ≢ [])) }
{
    bytes.is_empty() && rows.is_empty() && told.is_empty()
}

/// Takes the lines of a piece again, and answers whether they give what it keeps, and nothing else. `next` is the number of
/// the next call: behind the piece, or where it differs.
pub(crate) fn fits<D: TakesLines>(
    rt: &(impl Threads + Sync),
    alloc: Global,
    desk: &mut D,
    piece: &Piece,
    next: &mut u64,
) -> Result<bool, AllocError>
    ensures fits { IfOk result (λ b. b ≡ true → (calls : ℕ)
        × Replays D.gives desk.old (as_kept piece.now ∷ []) desk.new calls × (next.new ≡ next.old + calls)) }
    ensures differs { IfOk result (λ b. b ≡ false → PieceDiffers D.gives desk.old (as_kept piece.now) next.old next.new) }
{
    let mut given = Given::new(alloc);
    let mut bytes = piece.rows.as_slice();
    let mut rows = bytes;
    let mut told = piece.told.as_slice();
    'lines: while let Some((line, rest)) = first_line(bytes) {
        let Some((rows_left, told_left)) = take_again(rt, desk, line, &mut given, rows, told)?
        else {
            return Ok(false);
        };
        *next = next_behind(*next, &given)?;
        bytes = rest;
        rows = rows_left;
        told = told_left;
    }
    Ok(is_used_up(bytes, rows, told))
}
