//! Laws of books.

ghost use Rattle.gasday_live.specs.Books.{BooksGrow};
ghost use Rattle.gasday_live.specs.Texts.{BooksAreDays, KeptBooksAreDays, ServedBooksAreDays};

use gd_live::{
    calls_follow_their_opening, calls_go_on, lines_follow_a_text, row_lines_are_plain,
    what_is_kept_are_calls,
};

/// What is kept of lines on a book where no row waits makes it a longer one.
pub(crate) fn a_book_grows()
    ensures { BooksGrow }
{
    what_is_kept_are_calls();
    calls_go_on();
}

/// Live is batch: the pieces of a book are the text of a gas day, which `day` may answer with what was told of them, where that
/// text is no longer than one may be.
pub fn book_is_day()
    ensures { BooksAreDays }
{
    calls_follow_their_opening();
}

/// A book that was made again needs no such premise: there was room for its lines behind the opening, so its text is no longer
/// than one may be, and `day` may answer it with what was told.
pub fn kept_book_is_day()
    ensures { KeptBooksAreDays }
{
    book_is_day();
    row_lines_are_plain();
    lines_follow_a_text();
}

/// So it is with a book on which lines were served, from the one that was made again on: wherever a run stands, what the file keeps
/// is the text of a gas day, which `day` may answer with what was told.
pub fn served_book_is_day()
    ensures { ServedBooksAreDays }
{
    book_is_day();
    a_book_grows();
    row_lines_are_plain();
    lines_follow_a_text();
}
