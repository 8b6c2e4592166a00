//! A book that a file keeps is the day of one text. Nothing but laws.
//!
//! A file keeps the text of an opening and, behind it, the lines of calls with what was told of them. Whoever took these lines
//! as they came read them behind the place of an opening (`behind_opening`), and made each call with the rows of its own group.
//! Who reads the whole as one text reads them from where the opening's last row leaves off, and finds the opening's rows in the
//! group of the first call. Both come to the same, so a file is a text of `day` with its answer.

ghost use Rattle.std.specs.Prelude.{◌≡◌, ℕ, true, false, List, [], ◌++◌, map, Ok};
ghost use Rattle.std.specs.List.{AllByRecursion};
ghost use Rattle.csv.specs.Reading.{strip_bom};
ghost use Rattle.gd_system.specs.Pipeline.{Pipeline};
ghost use Rattle.gd_text_part.specs.Lines.{IsPlain, behind_opening, cut_at_commas};
ghost use Rattle.gd_text_part.specs.Texts.{rows_of};
ghost use Rattle.gd_text_part.specs.declared.kind.Form.TheVariants as form;
ghost use Rattle.gd_text_part.specs.declared.row.Row.{Row};
ghost use Rattle.gd_live.specs.Calls.{is_of_call};
ghost use Rattle.gd_live.specs.Fronts.{front_from};
ghost use Rattle.gd_live.specs.TextLines.{IsClosed};
ghost use Rattle.gd_serving.specs.Lines.{text_of_lines};
ghost use Rattle.gd_day.specs.Calls.{calls_of};
ghost use Rattle.gd_day.specs.Groups.{AllPass};
ghost use Rattle.gd_day.specs.Opening.{Opened, opened_of};
ghost use Rattle.gd_machine.specs.Day.{Day};
ghost use Rattle.gd_machine.specs.History.{History};
ghost use Rattle.gd_replies.specs.declared.reply.Reply.{Reply};
ghost use Rattle.gd_course.specs.Course.{Runs};
ghost use Rattle.gd_live.specs.Kept.{AreCalls};
ghost use Rattle.gd_live.specs.OneText.{OpensAs, RunsAs};

/// A text that makes no call has no row that waits for one either: the end of the text would leave it over, which is a fault.
pub fn openings_have_no_row_of_a_call()
    ensures { (text : List ℕ) (rows : List Row)
        → rows_of form.Day text ≡ Ok rows → calls_of rows ≡ []
        → AllByRecursion (λ r. is_of_call r ≡ false) rows }
{}

/// Lines of calls are read behind an opening as behind its place: the rows of the text are those of the opening, and then
/// those of the lines.
pub fn calls_are_read_behind_an_opening()
    ensures { (opening : List ℕ) (lines : List (List ℕ)) (rows read : List Row)
        → IsClosed (strip_bom opening)
        → rows_of form.Day opening ≡ Ok rows → calls_of rows ≡ []
        → AllByRecursion IsPlain lines
        → front_from form.Day behind_opening 0 (map (cut_at_commas []) lines)
        ≡ Ok (read, behind_opening)
        → rows_of form.Day (opening ++ text_of_lines lines) ≡ Ok (rows ++ read) }
{}

/// What rows open a book with passes over rows of calls behind them, where the prices and the set of each call can be made.
pub fn openings_pass_over_calls()
    ensures { (rows read : List Row) (o : Opened) → opened_of rows ≡ Ok o
        → AllByRecursion (λ r. is_of_call r ≡ true) read
        → AllPass o.holdings.pipeline (calls_of (rows ++ read))
        → opened_of (rows ++ read) ≡ Ok o }
{}

/// Calls pass over the rows of an opening before them, which stand in the group of the first one: they offer nothing.
pub fn calls_pass_over_an_opening()
    ensures passes { (p : Pipeline) (rows read : List Row)
        → AllByRecursion (λ r. is_of_call r ≡ false) rows
        → AllPass p (calls_of read) → AllPass p (calls_of (rows ++ read)) }
    ensures runs { (day : Day) (h after : History) (rows read : List Row) (told : List Reply)
        → AllByRecursion (λ r. is_of_call r ≡ false) rows
        → Runs day h (calls_of read) told after → Runs day h (calls_of (rows ++ read)) told after }
{}

/// The text of an opening and what is kept of the lines of calls behind it are one text: `day` reads it, opens a book with the
/// same, and a run of its calls tells what was told, and leaves the same history.
pub fn calls_follow_their_opening()
    ensures { (opening kept told : List ℕ) (o : Opened) (day : Day) (after : History)
        → OpensAs opening o → day.holdings ≡ o.holdings
        → AreCalls day [] kept told after
        → RunsAs (opening ++ kept) o day told after }
{
    calls_are_read_behind_an_opening();
}
