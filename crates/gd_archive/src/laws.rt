//! What is kept is fetched: a law of two calls together, which no program makes.

ghost use Rattle.std.specs.Prelude.{◌≡◌, IfSome, Some};
ghost use Rattle.sqlite.specs.Held.{state};
ghost use Rattle.sqlite.specs.State.{HasCleanDisk};
ghost use Rattle.gd_archive.specs.declared.fault.Rule.TheVariants.{Spread};

use crate::fault::Rule;
use crate::keeping::{fetch, keep};
use gd_board::Posting;
use sqlite::{Alter, Connection};
use std::alloc::Global;

/// Keeps a posting, and then fetches what is kept of its book and cycle; `None` where either call is refused.
///
/// What is fetched is the very posting that was kept, under the rule of the spread.
pub fn fetched_once_kept<S: Alter>(
    conn: &mut Connection<S>,
    alloc: Global,
    posting: &Posting,
) -> Option<Option<(Rule, Posting)>>
    ensures { HasCleanDisk (state S.Store conn.new)
        → IfSome result (λ found. found ≡ Some (Spread, posting.now)) }
{
    let Ok(()) = keep(conn, alloc, posting) else {
        return None;
    };
    match fetch(conn, alloc, posting.book, posting.cycle) {
        Ok(found) => Some(found),
        Err(_) => None,
    }
}
