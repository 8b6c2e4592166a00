//! The lines of a block of bytes, as they join an opening.

ghost use Rattle.std.specs.Prelude.{◌≡◌, ◌++◌, ◌∷◌, [], false, IfOk, IfErr, OnOk, MatchBool};
ghost use Rattle.gd_text_part.specs.Texts.{BlamesLength};
ghost use Rattle.gd_serving.specs.Lines.{HasNoEnd};
ghost use Rattle.gd_live.specs.Openings.{GoesOn, HasLongOpening, IsOpening};

use gd_serving::first_line;
use gd_text_part::{MAX_BYTES, TextFault, is_of_calls};

/// Takes the end of the line that has begun, and its line feed with the bytes behind it. Where the line is of calls, all stays
/// behind the opening, which ends there; else the line joins it, and the bytes behind it are left to take.
fn take_line(
    text: &mut Vec<u8>,
    begun: &mut Vec<u8>,
    end: &[u8],
    behind: &[u8],
) -> Result<bool, TextFault>
    requires stand { GoesOn text.old.items begun.old.items }
    requires end { HasNoEnd end.now }
    ensures taken { IfOk result (λ is_last. MatchBool is_last
        (IsOpening text.new.items begun.new.items false × (text.new.items ++ begun.new.items
        ≡ (text.old.items ++ begun.old.items) ++ end.now ++ 10 ∷ behind.now))
        (GoesOn text.new.items begun.new.items × (text.new.items ++ begun.new.items
        ≡ (text.old.items ++ begun.old.items) ++ end.now ++ 10 ∷ []))) }
    ensures fault { IfErr result (BlamesLength (HasLongOpening ((text.old.items ++ begun.old.items)
        ++ end.now ++ 10 ∷ behind.now))) }
{
    begun.extend_from_slice(end)?;
    if is_of_calls(begun.as_slice()) {
        begun.push(b'\n')?;
        begun.extend_from_slice(behind)?;
        return Ok(true);
    }
    if MAX_BYTES - text.len() <= begun.len() {
        return Err(TextFault::TooLong);
    }
    begun.push(b'\n')?;
    text.extend_from_slice(begun.as_slice())?;
    begun.clear();
    Ok(false)
}

/// Takes bytes of a line that doesn't end in them.
fn take_rest(text: &mut Vec<u8>, begun: &mut Vec<u8>, rest: &[u8]) -> Result<(), TextFault>
    requires stand { GoesOn text.old.items begun.old.items }
    requires rest { HasNoEnd rest.now }
    ensures stand { OnOk result (GoesOn text.new.items begun.new.items) }
    ensures bytes { OnOk result (text.new.items ++ begun.new.items
        ≡ (text.old.items ++ begun.old.items) ++ rest.now) }
    ensures fault { IfErr result (BlamesLength (HasLongOpening ((text.old.items ++ begun.old.items)
        ++ rest.now))) }
{
    if MAX_BYTES - text.len() - begun.len() < rest.len() {
        return Err(TextFault::TooLong);
    }
    begun.extend_from_slice(rest)?;
    Ok(())
}

/// Takes a block of bytes; whether the opening ends in it, before a line of calls.
pub(crate) fn take_block(
    text: &mut Vec<u8>,
    begun: &mut Vec<u8>,
    block: &[u8],
) -> Result<bool, TextFault>
    requires { GoesOn text.old.items begun.old.items }
    ensures taken { IfOk result (λ is_last. MatchBool is_last
        (IsOpening text.new.items begun.new.items false)
        (GoesOn text.new.items begun.new.items)) }
    ensures bytes { OnOk result (text.new.items ++ begun.new.items
        ≡ (text.old.items ++ begun.old.items) ++ block.now) }
    ensures fault { IfErr result (BlamesLength (HasLongOpening ((text.old.items ++ begun.old.items)
        ++ block.now))) }
{
    let mut rest = block;
    'lines: while let Some((end, behind)) = first_line(rest) {
        if take_line(text, begun, end, behind)? {
            return Ok(true);
        }
        rest = behind;
    }
    take_rest(text, begun, rest)?;
    Ok(false)
}
