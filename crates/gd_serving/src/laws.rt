//! What is kept is cut into the lines that were kept: laws of definitions, which no program calls.

ghost use Rattle.std.specs.Prelude.{◌≡◌, ℕ, List, [], ◌++◌};
ghost use Rattle.std.specs.List.{AllByRecursion};
ghost use Rattle.gd_serving.specs.Lines.{cut, HasNoEnd, text_of_lines};

/// Lines without a line feed in them, put together each with its line feed, are cut into themselves.
pub fn lines_are_cut_again()
    ensures { (lines : List (List ℕ)) → AllByRecursion HasNoEnd lines → cut [] (text_of_lines lines) ≡ (lines, []) }
{}

/// Bytes that come in two parts are cut as those that come at once.
pub fn parts_are_cut_as_a_whole()
    ensures { (begun first rest : List ℕ) → cut begun (first ++ rest)
        ≡ ((cut begun first).0 ++ (cut (cut begun first).1 rest).0, (cut (cut begun first).1 rest).1) }
{}

/// The lines that bytes are cut into, each with its line feed, and the beginning of the next are these very bytes.
pub fn lines_are_the_bytes()
    ensures { (begun bytes : List ℕ) → text_of_lines (cut begun bytes).0 ++ (cut begun bytes).1 ≡ begun ++ bytes }
{}

/// No line that bytes are cut into has a line feed in it.
pub fn lines_have_no_line_feed()
    ensures { (begun bytes : List ℕ) → HasNoEnd begun
        → AllByRecursion HasNoEnd (cut begun bytes).0 × HasNoEnd (cut begun bytes).1 }
{}
