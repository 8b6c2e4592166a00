//! Whether books have names of their own.

ghost use Rattle.std.specs.Prelude.{◌≡◌};
ghost use Rattle.gd_office.specs.Naming as spec;

use gd_book::Book;
use gd_units::Name;

/// Whether one of these books has this name.
fn has_name(name: Name, books: &[Book]) -> bool
    ensures { result ≡ spec.has_name name books.now }
{
    for book in books {
        if book.name() == name {
            return true;
        }
    }
    false
}

/// Whether no two of these books have one name.
pub(crate) fn are_apart(books: &[Book]) -> bool
    ensures { result ≡ spec.are_apart books.now }
{
    for at in 0..books.len() {
        if has_name(books[at].name(), &books[at + 1..]) {
            return false;
        }
    }
    true
}
