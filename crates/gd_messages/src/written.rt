//! What is told of a row by the way it is written: its number of fields, its kind, or a field.

use crate::field::{Field, field_of};
use crate::kind::{kind_of, kinds};
use crate::near::Nearest;
use crate::records::Records;
use crate::shown::{Count, Meant, Shown};
use crate::text::Spot;
use gd_text_part::{FIELD_COUNT, Form, RowKind};
use std::alloc::{AllocError, Global};

/// Whether a field of a record goes on over several lines.
fn has_long_field(record: &Records<'_>) -> bool {
    (0..record.len()).any(|at| record.field(at.saturating_add(1)).contains(&b'\n'))
}

/// What may have led to a wrong number of fields.
fn count_hint(record: &Records<'_>) -> &'static str {
    if record.field(1) == b"day".as_slice() && record.len() > FIELD_COUNT {
        "; a zone with commas stands in double quotes"
    } else if has_long_field(record) {
        "; a field that is opened by a double quote goes on over several lines"
    } else if record.len() == 1 && record.field(1).contains(&b';') {
        "; a semicolon separates nothing"
    } else {
        ""
    }
}

/// What is told of a row that has not eight fields.
pub(crate) fn told_of_count(spot: Spot) -> Result<String, AllocError> {
    let place = spot.place;
    let count = Count(spot.record.len(), "field");
    let hint = count_hint(spot.record);
    format!(in spot.source.alloc; "{place} has {count}, and 8 are wanted (7 commas){hint}")
}

/// The most bytes of a word that may have been meant for a kind.
const MAX_WORD: usize = 32;

/// The kind that may have been meant by a word.
fn meant_kind(alloc: Global, word: &[u8]) -> Result<Option<&'static str>, AllocError> {
    let Ok(word) = str::from_utf8(word) else {
        return Ok(None);
    };
    if word.len() > MAX_WORD {
        return Ok(None);
    }
    let word = word.trim().to_ascii_lowercase(alloc)?;
    let mut nearest = Nearest::to(word.as_str());
    let mut meant = None;
    for (_, word) in kinds() {
        if nearest.is_nearer(alloc, word)? {
            meant = Some(word);
        }
    }
    Ok(meant)
}

/// What is told of a row whose first field is no kind.
pub(crate) fn told_of_kind(spot: Spot) -> Result<String, AllocError> {
    let (alloc, place, word) = (spot.source.alloc, spot.place, spot.record.field(1));
    if word.is_empty() {
        return format!(in alloc;
            "{place}: the first field is empty; the kind of the row is wanted"
        );
    }
    let meant = Meant {
        name: meant_kind(alloc, word)?,
        otherwise: "",
    };
    let word = Shown(word);
    format!(in alloc; "{place}: {word} is no kind of row{meant}")
}

/// What may have led to a field of a row of this kind that isn't what is wanted of it, or what more is wanted.
fn field_hint(form: Option<Form>, kind: RowKind, k: usize, written: &[u8]) -> &'static str {
    match (kind, k) {
        (RowKind::Day, 4) if written.contains(&b'.') => {
            "; a zone with commas stands in double quotes"
        }
        (RowKind::Nominate | RowKind::Respond, 3) if matches!(form, Some(Form::Office)) => {
            ", that of the session"
        }
        _ => "",
    }
}

/// What is told of a field that isn't what is wanted of it.
fn told_of_form(spot: Spot, field: Field, k: usize, hint: &str) -> Result<String, AllocError> {
    let (place, written) = (spot.place, Shown(spot.record.field(k)));
    let Field(what, wanted) = field;
    format!(in spot.source.alloc; "{place}: field {k}, {what}, is {written}; {wanted}{hint}")
}

/// What is told of field `k` of a row of this kind, which isn't what is wanted of it.
fn told_of_field_of(spot: Spot, kind: RowKind, k: usize) -> Result<String, AllocError> {
    let (form, written) = (spot.source.form, spot.record.field(k));
    let is_firm = spot.record.field(4) == b"firm".as_slice();
    let needs_book = !matches!(form, Some(Form::Calendar));
    if let Some(field) = field_of(kind, is_firm, needs_book, k) {
        return told_of_form(spot, field, k, field_hint(form, kind, k, written));
    }
    let (place, written) = (spot.place, Shown(written));
    format!(in spot.source.alloc;
        "{place}: field {k} is {written}; rows of this kind leave it empty"
    )
}

/// What is told of field `k` where the head of an answer isn't what the check of its rows tells.
fn told_of_head(spot: Spot, k: usize) -> Result<String, AllocError> {
    let (place, written) = (spot.place, Shown(spot.record.field(k)));
    format!(in spot.source.alloc;
        "{place}: field {k} is {written}; an answer begins with what the check of its own rows tells"
    )
}

/// What is told of field `k` of a row, which isn't what is wanted of it. Where a row is of a kind its first field is right.
pub(crate) fn told_of_field(spot: Spot, k: usize) -> Result<String, AllocError> {
    match kind_of(spot.record.field(1)) {
        Some(kind) if k != 1 => told_of_field_of(spot, kind, k),
        _ => told_of_head(spot, k),
    }
}
