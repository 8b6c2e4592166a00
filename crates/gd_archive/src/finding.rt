//! What is found of each posting of an archive.

ghost use Rattle.std.specs.Prelude.{◌≡◌, ◌≤◌, length, option_map, IfOk};
ghost use Rattle.sqlite_value.specs.Value.{owned};
ghost use Rattle.gd_rules.specs.Limits.{most_lines};
ghost use Rattle.gd_archive.specs.Findings as spec;

use crate::bumps::{Bumps, bumps_of};
use crate::fault::{Rule, Unsound};
use crate::row::Label;
use crate::sound::{Verdict, judge};
use gd_board::Posting;
use gd_schedule::Schedule;
use gd_units::{CycleNo, Name, Round};
use sha2::{Digest, Sha256};
use sqlite::types::ValueRef;
use sqlite::{Error, Row};
use std::alloc::Global;

/// A sound posting in numbers.
#[derive(Clone, Copy, Debug)]
pub struct Summary {
    pub book: Name,
    pub cycle: CycleNo,
    pub round: Round,
    /// The rule that its prices were made for, by which it is sound.
    pub rule: Rule,
    /// How many lines its question has.
    pub lines: usize,
    /// What its schedule gives them together, in dekatherms a gas day.
    pub quantity: u64,
    /// The SHA-256 of its body (FIPS 180-4).
    pub sum: [u8; 32],
}

/// What is found of one posting.
#[derive(Clone, Copy, Debug)]
pub enum Finding {
    /// It is sound, and so much is found of its bumped lines.
    Sound(Summary, Bumps),
    /// What the archive keeps of this book and cycle does not hold what it should.
    Unsound(Name, CycleNo, Unsound),
}

/// What a schedule gives its lines together.
fn total_of(schedule: &Schedule) -> u64
    requires { length schedule.now ≤ most_lines }
    ensures { result ≡ spec.total schedule.now }
{
    schedule.known();
    let mut total = 0;
    for line in 0..schedule.len() {
        total += schedule.quantity(line).get();
    }
    total
}

/// The SHA-256 of what a row keeps as a text.
pub(crate) fn sum_of(body: ValueRef<'_>) -> [u8; 32]
    ensures { result ≡ spec.sum_of (owned body.entry) }
{
    match body {
        ValueRef::Blob(text) => Sha256::digest(text),
        _ => Sha256::digest(b"".as_slice()),
    }
}

/// A posting in numbers, by its label and its body.
fn summary_of(label: Label, posting: &Posting, body: ValueRef<'_>) -> Summary
    requires { length posting.now.schedule ≡ length posting.now.question.asked.lines }
    ensures { result ≡ spec.summary label posting.now (owned body.entry) }
{
    posting.question.known();
    Summary {
        book: label.book,
        cycle: label.cycle,
        round: posting.round,
        rule: label.rule,
        lines: posting.schedule.len(),
        quantity: total_of(&posting.schedule),
        sum: sum_of(body),
    }
}

/// What is found of a row that stands behind another one. It errs as `judge` does.
fn find_row(alloc: Global, before: Option<&Row>, row: &Row) -> Result<Finding, Error>
    ensures { IfOk result (spec.IsFinding (option_map (λ row. row.now) before.entry) row.now) }
{
    let body = row.get_ref(3)?;
    match judge(alloc, row)? {
        Verdict::Sound(label, posting) => {
            let bumps = bumps_of(alloc, before, &posting);
            let summary = summary_of(label, &posting, body);
            drop(posting);
            Ok(Finding::Sound(summary, bumps?))
        }
        Verdict::Unsound(label, what) => Ok(Finding::Unsound(label.book, label.cycle, what)),
    }
}

/// What is found of each row, in their order. It errs as `judge` does.
pub(crate) fn find_all(alloc: Global, rows: &[Row]) -> Result<Vec<Finding>, Error>
    ensures { IfOk result (λ findings. spec.AreFindings rows.now findings.items) }
{
    let mut findings = Vec::with_capacity(alloc, rows.len())?;
    let mut before = None;
    'rows: for row in rows {
        findings.push(find_row(alloc, before, row)?)?;
        before = Some(row);
    }
    Ok(findings)
}
