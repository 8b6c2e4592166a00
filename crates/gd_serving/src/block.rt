//! Bytes into lines.

ghost use Rattle.std.specs.Prelude.{◌≡◌, ◌++◌, ◌∷◌, [], List, OnOk, MatchOption};
ghost use Rattle.gd_serving.specs.Lines.{cut, HasNoEnd};
ghost use Rattle.gd_serving.specs.Seen.{seen};
ghost use Rattle.gd_serving.specs.Yields.{Yield, Adds, LinesGive, total};

use crate::given::Given;
use crate::taking::TakesLines;
use memchr::memchr;
use std::alloc::AllocError;
use std::thread::Threads;

/// The first whole line, and what comes behind its line feed; `None` where no line ends.
pub fn first_line(bytes: &[u8]) -> Option<(&[u8], &[u8])>
    ensures { MatchOption result (HasNoEnd bytes.now)
        (λ p. HasNoEnd p.0.now × (bytes.now ≡ p.0.now ++ 10 ∷ p.1.now)) }
{
    let at = memchr(b'\n', bytes)?;
    Some((&bytes[..at], &bytes[at + 1..]))
}

/// Takes the line that has come to its end. It is copied only where it began in another block.
fn take_ended<D: TakesLines>(
    rt: &(impl Threads + Sync),
    desk: &mut D,
    begun: &mut Vec<u8>,
    end: &[u8],
    given: &mut Given,
) -> Result<(), AllocError>
    ensures gives { OnOk result ((y : Yield) × D.gives desk.old (begun.old.items ++ end.now) desk.new y
        × Adds (seen given.old) (seen given.new) y) }
    ensures begun { OnOk result (begun.new.items ≡ []) }
{
    if begun.is_empty() {
        return desk.take_line(rt, end, given);
    }
    begun.extend_from_slice(end)?;
    desk.take_line(rt, begun.as_slice(), given)?;
    begun.clear();
    Ok(())
}

/// Takes all lines that a block of bytes brings to their end, behind the beginning of the first one, and leaves the
/// beginning of the next.
///
/// # Errors
///
/// Memory ended. Some lines may have been taken; nothing that was passed is to be used from then on.
pub fn take_block<D: TakesLines>(
    rt: &(impl Threads + Sync),
    desk: &mut D,
    begun: &mut Vec<u8>,
    block: &[u8],
    given: &mut Given,
) -> Result<(), AllocError>
    ensures gives { OnOk result ((ys : List Yield)
        × LinesGive D.gives desk.old (cut begun.old.items block.now).0 desk.new ys
        × Adds (seen given.old) (seen given.new) (total ys)) }
    ensures begun { OnOk result (begun.new.items ≡ (cut begun.old.items block.now).1) }
{
    let mut rest = block;
    'lines: while let Some((end, behind)) = first_line(rest) {
        take_ended(rt, desk, begun, end, given)?;
        rest = behind;
    }
    begun.extend_from_slice(rest)?;
    Ok(())
}
