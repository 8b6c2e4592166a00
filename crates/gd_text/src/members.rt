//! The set of a cut that a text offers.

ghost use Rattle.std.specs.Prelude.{◌≡◌, IfOk, OnOk};
ghost use Rattle.gd_text.specs.Building.{Becomes, Builds};
ghost use Rattle.gd_text.specs.Members as spec;

use gd_certificate::Cut;
use gd_system::System;
use gd_text_part::{Cause, Member, Row, TextFault};
use gd_units::Name;
use std::alloc::{AllocError, Global};
use std::marker::Model;

/// Which places, points and pools are inside.
#[derive(Drop)]
pub struct MemberTable {
    places: Vec<bool>,
    points: Vec<bool>,
    pools: Vec<bool>,
}

impl Model for MemberTable {
    ghost use Rattle.gd_certificate.specs.Cutting.{Members};

    ghost Value = { Members };

    ghost view = { λ t. record {
      places = t.places.items;
      points = t.points.items;
      pools = t.pools.items;
    } };
}

fn unknown(row: u64) -> TextFault
    ensures { result ≡ TextFault.Row row Cause.UnknownElement }
{
    TextFault::at(row, Cause::UnknownElement)
}

impl MemberTable {
    /// Nothing is inside.
    fn new(alloc: Global, system: &System) -> Result<MemberTable, AllocError>
        ensures { IfOk result (λ table. table ≡ spec.none_inside system.now) }
    {
        Ok(MemberTable {
            places: vec![in alloc; false; system.place_count()]?,
            points: vec![in alloc; false; system.point_count()]?,
            pools: vec![in alloc; false; system.pool_count()]?,
        })
    }

    /// Takes a member of this name in.
    fn take(
        &mut self,
        system: &System,
        number: u64,
        member: Member,
        name: Name,
    ) -> Result<(), TextFault>
        requires { spec.IsFor system.now self.old }
        ensures taken { Becomes self.new result
            (spec.with_member number system.now self.old member name) }
        ensures shaped { OnOk result (spec.IsFor system.now self.new) }
    {
        system.known();
        match member {
            Member::Place => {
                let Some(place) = system.place(name) else {
                    return Err(unknown(number));
                };
                self.places[place.0] = true;
            }
            Member::Point => {
                let Some(element) = system.element(name) else {
                    return Err(unknown(number));
                };
                let segments = system.segment_count();
                if element.0 < segments || segments + self.points.len() <= element.0 {
                    return Err(unknown(number));
                }
                self.points[element.0 - segments] = true;
            }
            Member::Pool => {
                let Some(element) = system.element(name) else {
                    return Err(unknown(number));
                };
                let others = system.segment_count() + self.points.len();
                if element.0 < others {
                    return Err(unknown(number));
                }
                self.pools[element.0 - others] = true;
            }
        }
        Ok(())
    }

    /// The set.
    pub fn cut(self) -> Cut
        ensures { result ≡ self }
    {
        let MemberTable {
            places,
            points,
            pools,
        } = self;
        Cut::of(places, points, pools)
    }
}

/// Takes the member of a row in, if it names one.
fn add_member(
    table: &mut MemberTable,
    system: &System,
    number: u64,
    row: &Row,
) -> Result<(), TextFault>
    requires { spec.IsFor system.now table.old }
    ensures taken { Becomes table.new result
        (spec.member_step system.now number table.old row.now) }
    ensures shaped { OnOk result (spec.IsFor system.now table.new) }
{
    match *row {
        Row::Inside { member, name } => table.take(system, number, member, name),
        _ => Ok(()),
    }
}

/// The set that the rows name. `UnknownElement` is told at its row; a member may be named twice.
pub fn members_of(alloc: Global, rows: &[Row], system: &System) -> Result<MemberTable, TextFault>
    ensures { Builds (λ table. table) result (spec.members_of rows.now system.now) }
{
    let mut table = MemberTable::new(alloc, system)?;
    'rows: for (index, row) in rows.iter().enumerate() {
        add_member(&mut table, system, index as u64 + 1, row)?;
    }
    Ok(table)
}
