//! The kinds of rows, and the order in which they stand in the text of a command.

use gd_text_part::{Form, RowKind};

/// The kinds that a text of a command may have, each with the word by which a row names it.
const KINDS: [(RowKind, &str); 23] = [
    (RowKind::Segment, "segment"),
    (RowKind::Point, "point"),
    (RowKind::Pool, "pool"),
    (RowKind::Contract, "contract"),
    (RowKind::Question, "question"),
    (RowKind::Day, "day"),
    (RowKind::Capacity, "capacity"),
    (RowKind::Carry, "carry"),
    (RowKind::Line, "line"),
    (RowKind::Sched, "sched"),
    (RowKind::Price, "price"),
    (RowKind::Inside, "inside"),
    (RowKind::Nominate, "nominate"),
    (RowKind::Respond, "respond"),
    (RowKind::Post, "post"),
    (RowKind::Freeze, "freeze"),
    (RowKind::Settle, "settle"),
    (RowKind::Publish, "publish"),
    (RowKind::Declare, "declare"),
    (RowKind::Waive, "waive"),
    (RowKind::Skip, "skip"),
    (RowKind::Session, "session"),
    (RowKind::Desk, "desk"),
];

/// All kinds that a text of a command may have, each with its word.
pub(crate) fn kinds() -> [(RowKind, &'static str); 23] {
    KINDS
}

/// The kind that a first field names.
pub(crate) fn kind_of(field: &[u8]) -> Option<RowKind> {
    for (kind, word) in KINDS {
        if word.as_bytes() == field {
            return Some(kind);
        }
    }
    None
}

/// The order in which the rows of a command's text stand, in words.
pub(crate) fn order_of(form: Form) -> &'static str {
    match form {
        Form::CheckAllowed => {
            "segment, point and pool rows come first, then question, capacity, line and sched rows"
        }
        Form::CheckBest | Form::Body => {
            "segment, point and pool rows come first, then question, capacity, line, sched and price rows"
        }
        Form::CheckCut => {
            "segment, point and pool rows come first, then question, capacity, line and inside rows"
        }
        Form::Solve => {
            "segment, point and pool rows come first, then question, capacity and line rows"
        }
        Form::Calendar => "there is one day row",
        Form::Day => {
            "segment, point and pool rows come first, then contract, day and carry rows, then the calls, with sched rows and then price rows directly before publish, and inside rows before declare"
        }
        Form::Office => {
            "each block has segment, point and pool rows first, then contract, day and carry rows; session and desk rows with nominate, respond and post rows stand behind all blocks"
        }
    }
}
