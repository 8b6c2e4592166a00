//! An office of books of one gas day, to which nothing is carried over.

use crate::day::{made, opened};
use crate::office::types::Office;
use gd_lines::LineKey;
use std::alloc::Global;
use std::process::Abort;

/// A moment before Timely's nomination deadline.
pub(crate) const NOMINATED: i64 = 1772910900;

/// Timely's confirmation time.
pub(crate) const CONFIRMED: i64 = 1772922600;

/// The line of INT in a package from R1 to D1.
pub(crate) fn line(rt: &impl Abort, package: &str) -> LineKey {
    crate::day::line(rt, "INT", package)
}

/// Adds an item.
pub(crate) fn keep<T: Drop>(rt: &impl Abort, items: &mut Vec<T>, item: T) {
    assert!(rt; items.push(item).is_ok());
}

/// An office of books of these names.
pub(crate) fn office(rt: &impl Abort, alloc: Global, names: &[&'static str]) -> Office {
    let mut books = Vec::new(alloc);
    for text in names {
        keep(rt, &mut books, opened(rt, alloc, *text, Vec::new(alloc)));
    }
    made(rt, Office::new(alloc, books))
}
