//! What lines carry from the day before.

ghost use Rattle.std.specs.Prelude.{◌≡◌, IfOk, OnOk};
ghost use Rattle.std.specs.List.{IsDistinct};
ghost use Rattle.gd_table.specs.Table.{keys as keys_in};
ghost use Rattle.gd_rules.specs.Lines.{same_key};
ghost use Rattle.gd_text.specs.Building.{Builds, MayBecome};
ghost use Rattle.gd_day.specs.Carrying as spec;

use gd_lines::LineKey;
use gd_table::Table;
use gd_text_part::{Cause, Row, TextFault};
use gd_units::Dth;
use std::alloc::Global;

/// Adds the quantity that a row carries, if it carries one. `keys` are those of `carry`.
fn add_carry(
    keys: &mut Table<LineKey, ()>,
    carry: &mut Vec<(LineKey, Dth)>,
    number: u64,
    row: &Row,
) -> Result<(), TextFault>
    requires kept { keys_in keys.old ≡ spec.keys carry.old.items }
    requires distinct { IsDistinct same_key (keys_in keys.old) }
    ensures added { MayBecome carry.new.items result
        (spec.carry_step number carry.old.items row.now) }
    ensures kept { OnOk result (keys_in keys.new ≡ spec.keys carry.new.items) }
    ensures distinct { IsDistinct same_key (keys_in keys.new) }
{
    let Row::Carry { key, quantity } = *row else {
        return Ok(());
    };
    if keys.contains_key(key) {
        return Err(TextFault::at(number, Cause::Duplicate));
    }
    keys.reserve(1)?;
    carry.push((key, quantity))?;
    keys.push(key, ());
    Ok(())
}

/// What the rows carry, in order. A line that is carried already is `Duplicate`, told at its row.
pub(crate) fn carry_of(alloc: Global, rows: &[Row]) -> Result<Vec<(LineKey, Dth)>, TextFault>
    ensures carried { Builds (λ carry. carry.items) result (spec.carry_of rows.now) }
    ensures distinct { IfOk result (λ carry. IsDistinct same_key (spec.keys carry.items)) }
{
    let mut keys = Table::new(alloc);
    let mut carry = Vec::new(alloc);
    'rows: for (index, row) in rows.iter().enumerate() {
        add_carry(&mut keys, &mut carry, index as u64 + 1, row)?;
    }
    Ok(carry)
}
