//! What a book and its board tell.

use gd_board::Board;
use gd_book::Book;
use gd_units::CycleNo;

fn is_posted(board: &Board, number: u8) -> bool {
    let mut note = board.note();
    let Some(cycle) = CycleNo::new(number) else {
        return false;
    };
    board.read(cycle, &mut note).is_some()
}

/// For how many cycles there is a posting.
pub(crate) fn posted(board: &Board) -> usize {
    (1..=CycleNo::MAX)
        .filter(|number| is_posted(board, *number))
        .count()
}

/// The cycle that is frozen, or 0.
pub(crate) fn frozen(book: &Book) -> u8 {
    book.frozen()
        .map_or(0, |question| question.cycle().number())
}
