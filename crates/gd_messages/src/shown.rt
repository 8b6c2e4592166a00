//! How messages show what was written, and where.

use std::fmt;

/// The most characters of a field that are shown.
const MAX_SHOWN: usize = 40;

/// A field as it was written, in quotation marks; or the word `empty`.
#[derive(Clone, Copy)]
pub(crate) struct Shown<'f>(pub(crate) &'f [u8]);

/// Writes a character so that it stays in its line.
fn write_visible<W: fmt::Write>(f: &mut fmt::Formatter<W>, c: char) -> fmt::Result {
    match c {
        '\n' => f.write_str("\\n"),
        '\r' => f.write_str("\\r"),
        '\t' => f.write_str("\\t"),
        c if c.is_control() => f.write_str("?"),
        c => f.write_char(c),
    }
}

impl fmt::Display for Shown<'_> {
    fn fmt<W: fmt::Write>(&self, f: &mut fmt::Formatter<W>) -> fmt::Result {
        if self.0.is_empty() {
            return f.write_str("empty");
        }
        let Ok(text) = str::from_utf8(self.0) else {
            return f.write_str("no UTF-8 text");
        };
        f.write_str("\"")?;
        for c in text.chars().take(MAX_SHOWN) {
            write_visible(f, c)?;
        }
        if text.chars().count() > MAX_SHOWN {
            f.write_str("...")?;
        }
        f.write_str("\"")
    }
}

/// Where something stands: the line that an editor shows, of the file that has it where files were named; or the number of
/// the row where the text isn't at hand.
#[derive(Clone, Copy)]
pub(crate) enum Place<'t> {
    Line(u64),
    LineOf(&'t str, u64),
    Row(u64),
}

impl fmt::Display for Place<'_> {
    fn fmt<W: fmt::Write>(&self, f: &mut fmt::Formatter<W>) -> fmt::Result {
        match self {
            Place::Line(number) => write!(f, "line {number}"),
            Place::LineOf(file, number) => write!(f, "{file}, line {number}"),
            Place::Row(number) => write!(f, "row {number}"),
        }
    }
}

/// A number of things, with their name in the singular or the plural.
#[derive(Clone, Copy)]
pub struct Count(pub usize, pub &'static str);

impl fmt::Display for Count {
    fn fmt<W: fmt::Write>(&self, f: &mut fmt::Formatter<W>) -> fmt::Result {
        let (count, name) = (self.0, self.1);
        if count == 1 {
            write!(f, "1 {name}")
        } else {
            write!(f, "{count} {name}s")
        }
    }
}

/// A name that may have been meant, as the end of a sentence; or other words where there is none.
#[derive(Clone, Copy)]
pub(crate) struct Meant<'n> {
    pub(crate) name: Option<&'n str>,
    pub(crate) otherwise: &'static str,
}

impl fmt::Display for Meant<'_> {
    fn fmt<W: fmt::Write>(&self, f: &mut fmt::Formatter<W>) -> fmt::Result {
        let otherwise = self.otherwise;
        match self.name {
            Some(name) => write!(f, "; did you mean {name}?"),
            None => f.write_str(otherwise),
        }
    }
}
