//! Texts that go on by whole lines: what is read of the lines one by one is what is read of the whole text. Nothing but laws.
//!
//! A run that takes its rows line by line, as they come, and one that reads the same text from a file have to find the same
//! rows and the same first fault. So it is where the text before the lines ends between two records, and no line has a
//! quotation mark or a line break within it: then each line is one record, cut at its commas, and the rows of the whole text
//! are those of the text before, and then those of the lines from where these leave off.
//!
//! Behind the opening of a gas day rows stand in one place, and there again behind each of its calls; so a run may go on there
//! behind a fault, and count its rows as it likes.

ghost use Rattle.std.specs.Prelude.{◌≡◌, ◌≢◌, ℕ, ◌+◌, true, List, [], ◌++◌, length, map, Ok};
ghost use Rattle.std.specs.List.{AllByRecursion};
ghost use Rattle.csv.specs.Reading.{default_config, records, strip_bom};
ghost use Rattle.csv.specs.declared.parser.State.TheVariants.{StartRecord};
ghost use Rattle.gd_text_part.specs.Csv.{records_of};
ghost use Rattle.gd_text_part.specs.Texts.{rows_from, rows_of};
ghost use Rattle.gd_text_part.specs.declared.kind.Form.{Form};
ghost use Rattle.gd_text_part.specs.declared.kind.Form.TheVariants as form;
ghost use Rattle.gd_text_part.specs.declared.row.EventRow.{EventRow};
ghost use Rattle.gd_text_part.specs.declared.row.Row.{Row};
ghost use Rattle.gd_text_part.specs.declared.row.Row.TheVariants as row;
ghost use Rattle.gd_live.specs.Calls.{IsAmongCalls, is_of_call};
ghost use Rattle.gd_text_part.specs.Lines.{IsPlain, behind_opening, cut_at_commas, line_of};
ghost use Rattle.gd_text_part.specs.Places.{row_of};
ghost use Rattle.gd_text_part.specs.declared.order.Place.{Place};
ghost use Rattle.gd_live.specs.TextLines.{IsClosed, left_by};
ghost use Rattle.gd_serving.specs.Lines.{text_of_lines};
ghost use Rattle.gd_live.specs.Fronts.{front_from, front_of, longer_front, ended_front};

/// The records of a closed text and of the bytes behind it are those of both.
pub fn closed_text_joins()
    ensures { (text more : List ℕ) → text ≢ [] → IsClosed (strip_bom text)
        → records_of (text ++ more) ≡ records_of text ++ records default_config more }
{}

/// The state of the machine alone tells whether bytes are closed.
pub fn state_tells_closed()
    ensures { (bytes : List ℕ) → (left_by StartRecord [] [] bytes).0 ≡ StartRecord → IsClosed bytes }
{}

/// Plain lines are closed, and each is one record, cut at its commas.
pub fn plain_lines_are_records()
    ensures closed { (lines : List (List ℕ)) → AllByRecursion IsPlain lines → IsClosed (text_of_lines lines) }
    ensures records { (lines : List (List ℕ)) → AllByRecursion IsPlain lines
        → records default_config (text_of_lines lines) ≡ map (cut_at_commas []) lines }
{}

/// A closed text with plain lines behind it is closed, and its records are those of the text, and then one for each line.
pub fn lines_follow_a_text()
    ensures closed { (text : List ℕ) (lines : List (List ℕ)) → text ≢ [] → IsClosed (strip_bom text)
        → AllByRecursion IsPlain lines → IsClosed (strip_bom (text ++ text_of_lines lines)) }
    ensures records { (text : List ℕ) (lines : List (List ℕ)) → text ≢ [] → IsClosed (strip_bom text)
        → AllByRecursion IsPlain lines → records_of (text ++ text_of_lines lines)
        ≡ records_of text ++ map (cut_at_commas []) lines }
{}

/// The rows of records behind others are theirs from where the others leave off, and the first fault is the others'.
pub fn rows_go_on()
    ensures front { (form : Form) (place : Place) (n : ℕ) (records more : List (List (List ℕ)))
        → front_from form place n (records ++ more)
        ≡ longer_front form (front_from form place n records) (n + length records) more }
    ensures ended { (form : Form) (place : Place) (n : ℕ) (records more : List (List (List ℕ)))
        → rows_from form place n (records ++ more)
        ≡ ended_front form (front_from form place n records) (n + length records) more }
{}

/// The rows of a closed text with plain lines behind it are those of the text, and then those of the lines, one by one.
pub fn lines_are_read_one_by_one()
    ensures front { (form : Form) (text : List ℕ) (lines : List (List ℕ)) → text ≢ [] → IsClosed (strip_bom text)
        → AllByRecursion IsPlain lines → front_of form (text ++ text_of_lines lines)
        ≡ longer_front form (front_of form text) (length (records_of text)) (map (cut_at_commas []) lines) }
    ensures ended { (form : Form) (text : List ℕ) (lines : List (List ℕ)) → text ≢ [] → IsClosed (strip_bom text)
        → AllByRecursion IsPlain lines → rows_of form (text ++ text_of_lines lines)
        ≡ ended_front form (front_of form text) (length (records_of text)) (map (cut_at_commas []) lines) }
{}

/// A line that is a row is plain, and a plain line is the row that its fields are.
pub fn row_lines_are_plain()
    ensures plain { (place : Place) (n : ℕ) (line : List ℕ) (taken : Row × Place)
        → line_of place n line ≡ Ok taken → IsPlain line }
    ensures fields { (place : Place) (n : ℕ) (line : List ℕ) → IsPlain line
        → line_of place n line ≡ row_of form.Day place n (cut_at_commas [] line) }
{}

/// Behind the opening of a gas day there are calls, and rows that wait for them; and behind each call rows stand behind the
/// opening again.
pub fn rows_begin_again_behind_a_call()
    ensures opening { IsAmongCalls behind_opening }
    ensures rows { (place : Place) (n : ℕ) (fields : List (List ℕ)) (r : Row) (next : Place) → IsAmongCalls place
        → row_of form.Day place n fields ≡ Ok (r, next) → (is_of_call r ≡ true) × IsAmongCalls next }
    ensures call { (place : Place) (n : ℕ) (fields : List (List ℕ)) (event : EventRow) (next : Place)
        → IsAmongCalls place → row_of form.Day place n fields ≡ Ok (row.Event event, next) → next ≡ behind_opening }
{}

/// Records that are rows behind the opening of a gas day, up to where nothing waits, are so whatever their numbers.
pub fn rows_are_good_at_every_number()
    ensures { (n m : ℕ) (records : List (List (List ℕ))) (rows : List Row)
        → front_from form.Day behind_opening n records ≡ Ok (rows, behind_opening)
        → front_from form.Day behind_opening m records ≡ Ok (rows, behind_opening) }
{}
