//! What is told of rows that stand where they may not, and of rows that are missing or too many.

use crate::kind::order_of;
use crate::text::Spot;
use gd_text_part::Form;
use std::alloc::AllocError;

/// What is told of a row that the command doesn't take, or not where it stands.
pub(crate) fn told_of_order(spot: Spot) -> Result<String, AllocError> {
    let (alloc, place) = (spot.source.alloc, spot.place);
    let word = str::from_utf8(spot.record.field(1)).unwrap_or("");
    let Some(form) = spot.source.form else {
        return format!(in alloc; "{place}: this {word} row can't stand here");
    };
    let (command, order) = (spot.source.command, order_of(form));
    format!(in alloc;
        "{place}: this {word} row can't stand here; in a text of gasday {command} {order}"
    )
}

/// What is told of a text without a head, or without a segment. The rows end before the one that is blamed.
pub(crate) fn told_of_missing(spot: Spot, is_head: bool) -> Result<String, AllocError> {
    let words = match (spot.source.form, is_head) {
        _ if spot.number == 1 => "the text has no rows",
        (Some(Form::Office), true) => "a block of the text has no day row, or the text has none",
        (Some(Form::Day | Form::Calendar), true) => "the text has no day row",
        (None, true) => "the text has no question row, or the answer no row",
        (_, true) => "the text has no question row",
        (Some(Form::Office), false) => "a block of the text has no segment row",
        (_, false) => "the text has no segment row, and a pipeline has one at least",
    };
    String::from_str(spot.source.alloc, words)
}

/// What is told of a block or a session that is one too many.
pub(crate) fn told_of_limit(spot: Spot) -> Result<String, AllocError> {
    let (alloc, place) = (spot.source.alloc, spot.place);
    if spot.record.field(1) == b"session".as_slice() {
        return format!(in alloc;
            "{place}: this is one session too many; there are at most 64 between two desk rows, and 1024 of a slot"
        );
    }
    format!(in alloc; "{place}: this block is one too many; an office has at most 64")
}
