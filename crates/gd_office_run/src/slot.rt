//! Lists of items by slot.

ghost use Rattle.std.specs.Prelude.{◌≡◌, ◌≢◌, ◌<◌, ℕ, [], OnOk, IfOk, length as len_of, get_or};
ghost use Rattle.std.specs.Global.{Vec as AVec};
ghost use Rattle.gd_office_run.specs.Picking as spec;

use gd_office_part::SessionRows;
use std::alloc::{AllocError, Global};
use std::mem;

/// An empty list for each slot.
pub(crate) fn lists_for<T: Drop>(alloc: Global, slots: usize) -> Result<Vec<Vec<T>>, AllocError>
    ensures len { IfOk result (λ holding. len_of holding.items ≡ slots) }
    ensures empty { IfOk result (λ holding. spec.AreEmpty holding.items) }
{
    let mut holding = Vec::with_capacity(alloc, slots)?;
    for at in 0..slots {
        let _ = at;
        holding.push(Vec::new(alloc))?;
    }
    Ok(holding)
}

/// Gives the slot at this place one item more. A slot that isn't there gets nothing.
pub(crate) fn give<T: Drop>(
    holding: &mut Vec<Vec<T>>,
    slot: usize,
    item: T,
) -> Result<(), AllocError>
    ensures { OnOk result
        (spec.Grew holding.old.items holding.new.items (λ k. spec.if_slot slot k item)) }
{
    if slot < holding.len() {
        holding[slot].push(item)?;
    }
    Ok(())
}

/// Gives each slot the items of its sessions, in order. There is an item for each session.
pub(crate) fn distribute<T: Drop>(
    holding: &mut Vec<Vec<T>>,
    rows: &[SessionRows],
    items: Vec<T>,
) -> Result<(), AllocError>
    requires { len_of items.items ≡ len_of rows.now }
    ensures { OnOk result
        (spec.Grew holding.old.items holding.new.items (λ k. spec.pick k rows.now items.items)) }
{
    let mut at = 0;
    for item in items {
        give(holding, rows[at].slot, item)?;
        at += 1;
    }
    Ok(())
}

/// Takes what a slot was given.
pub(crate) fn take_at<T: Drop>(alloc: Global, holding: &mut Vec<Vec<T>>, at: usize) -> Vec<T>
    requires { at < len_of holding.old.items }
    ensures taken { (d : AVec T) → result ≡ get_or holding.old.items at d }
    ensures others { (k : ℕ) (d : AVec T) → k ≢ at
        → get_or holding.new.items k d ≡ get_or holding.old.items k d }
    ensures len { len_of holding.new.items ≡ len_of holding.old.items }
{
    mem::replace(&mut holding[at], Vec::new(alloc))
}
