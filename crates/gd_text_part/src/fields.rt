//! What single fields are.

ghost use Rattle.std.specs.Prelude.{◌≡◌, ◌<◌, ◌≤◌, ◌+◌, IfOk, MatchResult, Ok, Err};
ghost use Rattle.csv.specs.Records.{fields_of};
ghost use Rattle.gd_text_part.specs.Dates as dates;
ghost use Rattle.gd_text_part.specs.Rows as spec;

use crate::date::CivilDate;
use crate::fault::Cause;
use crate::number::{number_of, signed_of};
use crate::row::{FIELD_COUNT, Member};
use csv::ByteRecord;
use gd_lines::LineKey;
use gd_units::{Band, Class, CycleNo, Dth, End, Kind, Moment, Name, Round};

/// The greatest number of a line that a text may have. Whether there is such a line is found when the row is run.
const MAX_WRITTEN_LINE: u64 = 4_294_967_295;

/// Field `k`, where the kind is field 1. A field past the last is empty.
pub(crate) fn field(row: &ByteRecord, k: usize) -> &[u8]
    requires { 0 < k }
    ensures { result.now ≡ spec.field (fields_of row.now) k }
{
    match row.get(k - 1) {
        Some(field) => field,
        None => &[],
    }
}

pub(crate) fn name_at(row: &ByteRecord, k: usize) -> Result<Name, Cause>
    requires { 0 < k }
    ensures { result ≡ spec.name_at (fields_of row.now) k }
{
    match Name::of_bytes(field(row, k)) {
        Ok(name) => Ok(name),
        Err(_) => Err(Cause::BadField(k)),
    }
}

/// The number of field `k`, from `low` to `high`.
pub(crate) fn number_at(row: &ByteRecord, k: usize, low: u64, high: u64) -> Result<u64, Cause>
    requires { 0 < k }
    ensures number { result ≡ spec.number_at (fields_of row.now) k low high }
    ensures range { IfOk result (λ n. (low ≤ n) × (n ≤ high)) }
{
    match number_of(field(row, k)) {
        Some(number) if low <= number && number <= high => Ok(number),
        _ => Err(Cause::BadField(k)),
    }
}

pub(crate) fn quantity_at(row: &ByteRecord, k: usize) -> Result<Dth, Cause>
    requires { 0 < k }
    ensures { result ≡ spec.quantity_at (fields_of row.now) k }
{
    match Dth::new(number_at(row, k, 0, Dth::MAX)?) {
        Ok(quantity) => Ok(quantity),
        Err(_) => Err(Cause::BadField(k)),
    }
}

pub(crate) fn moment_at(row: &ByteRecord, k: usize) -> Result<Moment, Cause>
    requires { 0 < k }
    ensures { result ≡ spec.moment_at (fields_of row.now) k }
{
    let number = number_at(row, k, 0, Moment::MAX)?;
    match Moment::new(number as i64) {
        Some(moment) => Ok(moment),
        None => Err(Cause::BadField(k)),
    }
}

/// The number of a line, counted from 1.
pub(crate) fn line_at(row: &ByteRecord, k: usize) -> Result<u32, Cause>
    requires { 0 < k }
    ensures { result ≡ spec.line_at (fields_of row.now) k }
{
    Ok(number_at(row, k, 1, MAX_WRITTEN_LINE)? as u32)
}

pub(crate) fn cycle_at(row: &ByteRecord, k: usize) -> Result<CycleNo, Cause>
    requires { 0 < k }
    ensures { result ≡ spec.cycle_at (fields_of row.now) k }
{
    let number = number_at(row, k, 1, u64::from(CycleNo::MAX))?;
    match CycleNo::new(number as u8) {
        Some(cycle) => Ok(cycle),
        None => Err(Cause::BadField(k)),
    }
}

pub(crate) fn round_at(row: &ByteRecord, k: usize) -> Result<Round, Cause>
    requires { 0 < k }
    ensures { result ≡ spec.round_at (fields_of row.now) k }
{
    let number = number_at(row, k, 1, u64::from(Round::MAX))?;
    match Round::new(number as u32) {
        Some(round) => Ok(round),
        None => Err(Cause::BadField(k)),
    }
}

/// The kind of point that field `k` names: `receipt` or `delivery`.
pub(crate) fn point_kind_at(row: &ByteRecord, k: usize) -> Result<Kind, Cause>
    requires { 0 < k }
    ensures { result ≡ spec.point_kind_at (fields_of row.now) k }
{
    let word = field(row, k);
    if word == b"receipt".as_slice() {
        Ok(Kind::Receipt)
    } else if word == b"delivery".as_slice() {
        Ok(Kind::Delivery)
    } else {
        Err(Cause::BadField(k))
    }
}

pub(crate) fn class_at(row: &ByteRecord, k: usize) -> Result<Class, Cause>
    requires { 0 < k }
    ensures { result ≡ spec.class_at (fields_of row.now) k }
{
    let number = number_at(row, k, 1, u64::from(Class::MAX))?;
    match Class::new(number as u8) {
        Some(class) => Ok(class),
        None => Err(Cause::BadField(k)),
    }
}

/// The rate band of field `k`, 1 where it is empty.
pub(crate) fn band_at(row: &ByteRecord, k: usize) -> Result<Band, Cause>
    requires { 0 < k }
    ensures { result ≡ spec.band_at (fields_of row.now) k }
{
    let number = if field(row, k).is_empty() {
        1
    } else {
        number_at(row, k, 1, u64::from(Band::MAX))?
    };
    match Band::new(number as u8) {
        Some(band) => Ok(band),
        None => Err(Cause::BadField(k)),
    }
}

/// Whether field `k` says that a contract is `firm`, or `interruptible`.
pub(crate) fn is_firm_at(row: &ByteRecord, k: usize) -> Result<bool, Cause>
    requires { 0 < k }
    ensures { result ≡ spec.is_firm_at (fields_of row.now) k }
{
    let word = field(row, k);
    if word == b"firm".as_slice() {
        Ok(true)
    } else if word == b"interruptible".as_slice() {
        Ok(false)
    } else {
        Err(Cause::BadField(k))
    }
}

/// The end of a line that field `k` names: `origin` or `dest`.
pub(crate) fn end_at(row: &ByteRecord, k: usize) -> Result<End, Cause>
    requires { 0 < k }
    ensures { result ≡ spec.end_at (fields_of row.now) k }
{
    let word = field(row, k);
    if word == b"origin".as_slice() {
        Ok(End::Origin)
    } else if word == b"dest".as_slice() {
        Ok(End::Dest)
    } else {
        Err(Cause::BadField(k))
    }
}

/// The contract, package, origin and destination that the four fields from field `k` on name.
#[tactic(auto, unfolding(crate::specs::Rows::key_at))]
pub(crate) fn key_at(row: &ByteRecord, k: usize) -> Result<LineKey, Cause>
    requires some { 0 < k }
    requires few { k ≤ FIELD_COUNT }
    ensures { result ≡ spec.key_at (fields_of row.now) k }
{
    let contract = name_at(row, k)?;
    let package = name_at(row, k + 1)?;
    let origin = name_at(row, k + 2)?;
    let dest = name_at(row, k + 3)?;
    Ok(LineKey {
        contract,
        package,
        origin,
        dest,
    })
}

pub(crate) fn signed_at(row: &ByteRecord, k: usize) -> Result<i64, Cause>
    requires { 0 < k }
    ensures { result ≡ spec.signed_at (fields_of row.now) k }
{
    match signed_of(field(row, k)) {
        Some(number) => Ok(number),
        None => Err(Cause::BadField(k)),
    }
}

/// The signed number of field `k`, 0 where it is empty.
pub(crate) fn signed_or_zero_at(row: &ByteRecord, k: usize) -> Result<i64, Cause>
    requires { 0 < k }
    ensures { result ≡ spec.signed_or_zero_at (fields_of row.now) k }
{
    if field(row, k).is_empty() {
        return Ok(0);
    }
    signed_at(row, k)
}

/// The name of field `k`, or nothing where it is empty.
pub(crate) fn name_or_none_at(row: &ByteRecord, k: usize) -> Result<Option<Name>, Cause>
    requires { 0 < k }
    ensures { result ≡ spec.name_or_none_at (fields_of row.now) k }
{
    if field(row, k).is_empty() {
        return Ok(None);
    }
    Ok(Some(name_at(row, k)?))
}

/// What field `k` says that a member is: `place`, `point` or `pool`.
pub(crate) fn member_at(row: &ByteRecord, k: usize) -> Result<Member, Cause>
    requires { 0 < k }
    ensures { result ≡ spec.member_at (fields_of row.now) k }
{
    let word = field(row, k);
    if word == b"place".as_slice() {
        Ok(Member::Place)
    } else if word == b"point".as_slice() {
        Ok(Member::Point)
    } else if word == b"pool".as_slice() {
        Ok(Member::Pool)
    } else {
        Err(Cause::BadField(k))
    }
}

/// The date that a text of the form YYYY-MM-DD spells.
fn date_of(text: &[u8]) -> Option<CivilDate>
    ensures { result ≡ dates.date_of text.now }
{
    if text.len() != 10 || text[4] != b'-' || text[7] != b'-' {
        return None;
    }
    let year = number_of(&text[..4])?;
    let month = number_of(&text[5..7])?;
    let day = number_of(&text[8..])?;
    CivilDate::new(year, month, day)
}

pub(crate) fn date_at(row: &ByteRecord, k: usize) -> Result<CivilDate, Cause>
    requires { 0 < k }
    ensures { result ≡ spec.date_at (fields_of row.now) k }
{
    match date_of(field(row, k)) {
        Some(date) => Ok(date),
        None => Err(Cause::BadField(k)),
    }
}

/// The text of field `k`, which isn't empty.
pub(crate) fn text_at(row: &ByteRecord, k: usize) -> Result<&str, Cause>
    requires { 0 < k }
    ensures { MatchResult result (λ text. spec.text_at (fields_of row.now) k ≡ Ok text.now)
        (λ c. spec.text_at (fields_of row.now) k ≡ Err c) }
{
    let bytes = field(row, k);
    if bytes.is_empty() {
        return Err(Cause::BadField(k));
    }
    match str::from_utf8(bytes) {
        Ok(text) => Ok(text),
        Err(_) => Err(Cause::BadField(k)),
    }
}

/// Finds that field `k` and those after it are empty.
pub(crate) fn empty_from(row: &ByteRecord, k: usize) -> Result<(), Cause>
    requires some { 0 < k }
    requires few { k ≤ FIELD_COUNT + 1 }
    ensures { result ≡ spec.empty_from (fields_of row.now) k }
{
    'fields: for at in k..FIELD_COUNT + 1 {
        if !field(row, at).is_empty() {
            return Err(Cause::BadField(at));
        }
    }
    Ok(())
}
