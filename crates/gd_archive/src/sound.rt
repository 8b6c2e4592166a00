//! What a row of an archive keeps, and whether it passes its check.

ghost use Rattle.std.specs.Prelude.{◌≡◌, ◌≢◌, Some, None, Err, IfOk, IfErr, OnOk, map};
ghost use Rattle.sqlite.specs.declared.types.Value.TheVariants.{Int};
ghost use Rattle.sqlite_value.specs.Value.{owned};
ghost use Rattle.gd_cost.specs.Made.{first_of};
ghost use Rattle.gd_archive.specs.Soundness as spec;

use crate::fault::{AuditFault, NO_MEMORY, Rule, Unsound};
use crate::row::Label;
use gd_board::Posting;
use gd_body::{BodyFault, read_body};
use gd_certificate::{CertFault, Prices, check, check_classes};
use gd_cost::{Lex, Tariff};
use gd_units::{CycleNo, Name};
use sqlite::types::ValueRef;
use sqlite::{Error, Row};
use std::alloc::{AllocError, Global};

/// Whether a posting is of this book, cycle and round.
fn is_of(posting: &Posting, book: Name, cycle: CycleNo, round: i64) -> bool
    ensures { result ≡ spec.is_of book cycle (Int round) posting.now }
{
    posting.book == book && posting.cycle == cycle && i64::from(posting.round.number()) == round
}

/// The posting of this book, cycle and round that a body is the text of.
///
/// # Errors
///
/// `Damaged` where there is none, and else `OutOfMemory`.
pub(crate) fn posting_at(
    alloc: Global,
    book: Name,
    cycle: CycleNo,
    round: ValueRef<'_>,
    body: ValueRef<'_>,
) -> Result<Posting, BodyFault>
    ensures ok { IfOk result
        (λ posting. spec.posting_at book cycle (owned round.entry) (owned body.entry) ≡ Some posting) }
    ensures damaged { result ≡ Err BodyFault.Damaged
        → spec.posting_at book cycle (owned round.entry) (owned body.entry) ≡ None }
{
    let (ValueRef::Int(round), ValueRef::Blob(text)) = (round, body) else {
        return Err(BodyFault::Damaged);
    };
    let posting = read_body(alloc, text)?;
    if is_of(&posting, book, cycle, round) {
        Ok(posting)
    } else {
        drop(posting);
        Err(BodyFault::Damaged)
    }
}

/// Prices by class alone, without their spread.
fn class_prices(alloc: Global, prices: &Prices<Tariff>) -> Result<Prices<Lex<8>>, AllocError>
    ensures { IfOk result (λ classes. classes ≡ map first_of prices.now) }
{
    let mut words = Vec::with_capacity(alloc, prices.values().len())?;
    'prices: for price in prices.values() {
        words.push(price.first())?;
    }
    Ok(Prices::of(words))
}

/// The check of a posting by class totals alone.
fn check_by_classes(alloc: Global, posting: &Posting) -> Result<(), CertFault>
    ensures ok { OnOk result (spec.Passes Rule.Classes posting.now) }
    ensures fault { IfErr result (λ fault. fault ≢ CertFault.OutOfMemory
        → spec.ExplainsBy Rule.Classes posting.now fault) }
{
    let Ok(prices) = class_prices(alloc, &posting.prices) else {
        return Err(CertFault::OutOfMemory);
    };
    check_classes(alloc, &posting.question, &posting.schedule, &prices)
}

/// The check that a posting is best by its rule. Of want of memory it tells nothing else.
fn check_posting(alloc: Global, rule: Rule, posting: &Posting) -> Result<(), CertFault>
    ensures ok { OnOk result (spec.Passes rule posting.now) }
    ensures fault { IfErr result (λ fault. fault ≢ CertFault.OutOfMemory
        → spec.ExplainsBy rule posting.now fault) }
{
    match rule {
        Rule::Classes => check_by_classes(alloc, posting),
        Rule::Spread => check(alloc, &posting.question, &posting.schedule, &posting.prices),
    }
}

/// What is found of a row by its check.
#[derive(Drop)]
pub(crate) enum Verdict {
    /// Its posting passes.
    Sound(Label, Posting),
    Unsound(Label, Unsound),
}

/// What is found of a row whose posting failed its check. The only error is want of memory.
fn failed(label: Label, fault: CertFault) -> Result<Verdict, Error>
    ensures { IfOk result (λ verdict. (fault ≢ CertFault.OutOfMemory)
        × (verdict ≡ Verdict.Unsound label (Unsound.Uncertified fault))) }
{
    match fault {
        CertFault::OutOfMemory => Err(NO_MEMORY),
        fault => Ok(Verdict::Unsound(label, Unsound::Uncertified(fault))),
    }
}

/// What is found of a row.
///
/// # Errors
///
/// Where the row is none of an archive, or memory is wanting.
pub(crate) fn judge(alloc: Global, row: &Row) -> Result<Verdict, Error>
    ensures { IfOk result (spec.IsVerdict row.now) }
{
    let label = Label::of(row)?;
    let (round, body) = (row.get_ref(2)?, row.get_ref(3)?);
    let posting = match posting_at(alloc, label.book, label.cycle, round, body) {
        Ok(posting) => posting,
        Err(BodyFault::Damaged) => return Ok(Verdict::Unsound(label, Unsound::Damaged)),
        Err(BodyFault::OutOfMemory) => return Err(NO_MEMORY),
    };
    match check_posting(alloc, label.rule, &posting) {
        Ok(()) => Ok(Verdict::Sound(label, posting)),
        Err(fault) => {
            drop(posting);
            failed(label, fault)
        }
    }
}

/// Shows that what a row keeps passes its check.
///
/// # Errors
///
/// `Store` where the row is none of an archive or memory is wanting, and else `Unsound`.
pub(crate) fn test_row(alloc: Global, row: &Row) -> Result<(), AuditFault>
    ensures ok { OnOk result (spec.IsSound row.now) }
    ensures err { IfErr result (spec.Blames row.now) }
{
    match judge(alloc, row)? {
        Verdict::Sound(_, posting) => {
            drop(posting);
            Ok(())
        }
        Verdict::Unsound(label, what) => Err(AuditFault::Unsound(label.book, label.cycle, what)),
    }
}
