//! What a call gave is kept and told.

ghost use Rattle.std.specs.Prelude.{◌≡◌, ◌++◌, ◌∷◌, [], OnOk, string_bytes};
ghost use Rattle.gd_replies.specs.Lines.{lines_of};
ghost use Rattle.gd_live.specs.Stands.{with_line};
ghost use Rattle.gd_live.specs.Lines.{only_told, kept_and_told};
ghost use Rattle.gd_serving.specs.Seen.{seen};
ghost use Rattle.gd_serving.specs.Yields.{Adds};

use crate::group::Group;
use gd_replies::Reply;
use gd_serving::Given;
use std::alloc::{AllocError, Global};

/// How many bytes most calls are told.
const USUAL: usize = 64;

/// Appends rows that are told.
fn print(text: &mut String, told: &[Reply]) -> Result<(), AllocError>
    ensures { OnOk result (string_bytes text.new ≡ string_bytes text.old ++ lines_of told.now) }
{
    'told: for reply in told {
        write!(text, "{reply}")?;
    }
    Ok(())
}

/// Tells a row, of which nothing is kept.
pub(crate) fn tell(alloc: Global, told: Reply, given: &mut Given) -> Result<(), AllocError>
    ensures { OnOk result (Adds (seen given.old) (seen given.new) (only_told (told ∷ []))) }
{
    let mut row = String::with_capacity(alloc, USUAL)?;
    print(&mut row, &[told])?;
    given.told.extend_from_slice(row.as_bytes())
}

/// Keeps the rows of a group and the line of the call behind it, with these bytes of replies.
fn keep_replies(
    group: &Group,
    line: &[u8],
    replies: &[u8],
    given: &mut Given,
) -> Result<(), AllocError>
    ensures { OnOk result (Adds (seen given.old) (seen given.new)
        (record { rows = with_line group.now line.now; replies = replies.now; told = [] })) }
{
    given.rows.extend_from_slice(group.bytes())?;
    given.rows.extend_from_slice(line)?;
    given.rows.push(b'\n')?;
    given.replies.extend_from_slice(replies)?;
    Ok(())
}

/// Keeps the rows of a group and the line of the call behind it, with what the call gave, which is told.
pub(crate) fn keep(
    alloc: Global,
    group: &Group,
    line: &[u8],
    told: Vec<Reply>,
    given: &mut Given,
) -> Result<(), AllocError>
    ensures { OnOk result (Adds (seen given.old) (seen given.new)
        (kept_and_told (with_line group.now line.now) told.items)) }
{
    let mut printed = String::with_capacity(alloc, USUAL)?;
    let made = print(&mut printed, told.as_slice());
    drop(told);
    made?;
    keep_replies(group, line, printed.as_bytes(), given)?;
    given.told.extend_from_slice(printed.as_bytes())?;
    Ok(())
}
