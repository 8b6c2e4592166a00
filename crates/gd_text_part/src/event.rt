//! What the fields of each kind of event row are, from the second on, which says when.

ghost use Rattle.std.specs.Prelude.{◌≡◌, ◌^◌, ◌<◌};
ghost use Rattle.csv.specs.Records.{fields_of};
ghost use Rattle.gd_text_part.specs.Events as spec;

use crate::fault::Cause;
use crate::fields::{
    empty_from, end_at, key_at, line_at, moment_at, name_at, number_at, quantity_at, round_at,
};
use crate::kind::RowKind;
use crate::row::{EventRow, OfficeRow, Row};
use csv::ByteRecord;
use gd_units::{Moment, Name, Round};

/// The party of field `k`, which is the session's where the row is one of a session's calls.
fn party_at(session: Option<Name>, row: &ByteRecord, k: usize) -> Result<Name, Cause>
    requires { 0 < k }
    ensures { result ≡ spec.party_at session (fields_of row.now) k }
{
    let party = name_at(row, k)?;
    match session {
        Some(own) if party != own => Err(Cause::BadField(k)),
        _ => Ok(party),
    }
}

#[tactic(auto, unfolding(crate::specs::Events::nominate_row))]
fn nominate_row(session: Option<Name>, row: &ByteRecord) -> Result<EventRow, Cause>
    ensures { result ≡ spec.nominate_row session (fields_of row.now) }
{
    let moment = moment_at(row, 2)?;
    let party = party_at(session, row, 3)?;
    let key = key_at(row, 4)?;
    let quantity = quantity_at(row, 8)?;
    Ok(EventRow::Nominate {
        moment,
        party,
        key,
        quantity,
    })
}

#[tactic(auto, unfolding(crate::specs::Events::respond_row))]
fn respond_row(session: Option<Name>, row: &ByteRecord) -> Result<EventRow, Cause>
    ensures { result ≡ spec.respond_row session (fields_of row.now) }
{
    let moment = moment_at(row, 2)?;
    let party = party_at(session, row, 3)?;
    let line = line_at(row, 4)?;
    let end = end_at(row, 5)?;
    let quantity = quantity_at(row, 6)?;
    empty_from(row, 7)?;
    Ok(EventRow::Respond {
        moment,
        party,
        line,
        end,
        quantity,
    })
}

#[tactic(auto, unfolding(crate::specs::Events::post_row))]
fn post_row(row: &ByteRecord) -> Result<EventRow, Cause>
    ensures { result ≡ spec.post_row (fields_of row.now) }
{
    let moment = moment_at(row, 2)?;
    let element = name_at(row, 3)?;
    let capacity = quantity_at(row, 4)?;
    empty_from(row, 5)?;
    Ok(EventRow::Post {
        moment,
        element,
        capacity,
    })
}

#[tactic(auto, unfolding(crate::specs::Events::waive_row))]
fn waive_row(row: &ByteRecord) -> Result<EventRow, Cause>
    ensures { result ≡ spec.waive_row (fields_of row.now) }
{
    let moment = moment_at(row, 2)?;
    let line = line_at(row, 3)?;
    empty_from(row, 4)?;
    Ok(EventRow::Waive { moment, line })
}

/// The moment of a row that says no more.
#[tactic(auto, unfolding(crate::specs::Events::only_moment))]
fn only_moment(row: &ByteRecord) -> Result<Moment, Cause>
    ensures { result ≡ spec.only_moment (fields_of row.now) }
{
    let moment = moment_at(row, 2)?;
    empty_from(row, 3)?;
    Ok(moment)
}

/// The moment and the round of a row that says no more.
#[tactic(auto, unfolding(crate::specs::Events::moment_and_round))]
fn moment_and_round(row: &ByteRecord) -> Result<(Moment, Round), Cause>
    ensures { result ≡ spec.moment_and_round (fields_of row.now) }
{
    let moment = moment_at(row, 2)?;
    let round = round_at(row, 3)?;
    empty_from(row, 4)?;
    Ok((moment, round))
}

/// The call of this kind, which has the party of its session where there is one.
fn event_at(kind: RowKind, session: Option<Name>, row: &ByteRecord) -> Result<EventRow, Cause>
    ensures { result ≡ spec.event_at kind session (fields_of row.now) }
{
    match kind {
        RowKind::Nominate => nominate_row(session, row),
        RowKind::Respond => respond_row(session, row),
        RowKind::Post => post_row(row),
        RowKind::Freeze => {
            let moment = only_moment(row)?;
            Ok(EventRow::Freeze { moment })
        }
        RowKind::Settle => {
            let moment = only_moment(row)?;
            Ok(EventRow::Settle { moment })
        }
        RowKind::Publish => {
            let (moment, round) = moment_and_round(row)?;
            Ok(EventRow::Publish { moment, round })
        }
        RowKind::Declare => {
            let (moment, round) = moment_and_round(row)?;
            Ok(EventRow::Declare { moment, round })
        }
        RowKind::Waive => waive_row(row),
        RowKind::Skip => {
            let moment = only_moment(row)?;
            Ok(EventRow::Skip { moment })
        }
        _ => Err(Cause::Order),
    }
}

pub(crate) fn event_row(
    kind: RowKind,
    session: Option<Name>,
    row: &ByteRecord,
) -> Result<Row, Cause>
    ensures { result ≡ spec.event_row kind session (fields_of row.now) }
{
    Ok(Row::Event(event_at(kind, session, row)?))
}

/// A session with the book of one of so many slots.
#[tactic(auto, unfolding(crate::specs::Events::session_row))]
pub(crate) fn session_row(slots: u32, row: &ByteRecord) -> Result<Row, Cause>
    ensures { result ≡ spec.session_row slots (fields_of row.now) }
{
    let slot = number_at(row, 2, 1, u64::from(slots))?;
    let party = name_at(row, 3)?;
    empty_from(row, 4)?;
    Ok(Row::Office(OfficeRow::Session {
        slot: slot as u32,
        party,
    }))
}

pub(crate) fn desk_row(row: &ByteRecord) -> Result<Row, Cause>
    ensures { result ≡ spec.desk_row (fields_of row.now) }
{
    let moment = only_moment(row)?;
    Ok(Row::Office(OfficeRow::Desk { moment }))
}
