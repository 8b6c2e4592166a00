//! What is told of an archive's answers.

ghost use Rattle.std.specs.Prelude.{◌≡◌, ◌++◌, IfOk, OnOk};
ghost use Rattle.std.specs.List.{flat_map};
ghost use Rattle.gasday_part.specs.AnswerSeen.{answer_seen};
ghost use Rattle.gasday_archive.specs.Archives as spec;

use gasday_part::{Answer, of_one};
use gd_archive::{AuditFault, Bumps, Finding, MigrateFault, StoreFault, Summary, Unsound};
use gd_replies::{Boxed, Reply, SoundPosting};
use gd_units::{CycleNo, Name};
use std::alloc::{AllocError, Global};

/// An archive can't be opened, read or written.
pub fn of_no_store(alloc: Global) -> Result<Answer, AllocError>
    ensures { IfOk result (λ a. answer_seen a ≡ spec.no_store) }
{
    of_one(alloc, Reply::Store, 2)
}

/// An archive is of version 1.
fn of_old_version(alloc: Global) -> Result<Answer, AllocError>
    ensures { IfOk result (λ a. answer_seen a ≡ spec.old_version) }
{
    of_one(alloc, Reply::OldVersion, 2)
}

/// An archive is refused as such.
pub(crate) fn of_store_fault(alloc: Global, fault: StoreFault) -> Result<Answer, AllocError>
    ensures { IfOk result (λ a. answer_seen a ≡ spec.store_fault fault) }
{
    match fault {
        StoreFault::OldVersion => of_old_version(alloc),
        StoreFault::Store(_) => of_no_store(alloc),
    }
}

/// The row of what is wrong with what an archive keeps of a book and cycle.
fn unsound_row(book: Name, cycle: CycleNo, what: Unsound) -> Reply
    ensures { result ≡ spec.unsound_row book cycle what }
{
    let cycle = u64::from(cycle.number());
    match what {
        Unsound::Damaged => Reply::Damaged { book, cycle },
        Unsound::Uncertified(fault) => Reply::Unsound { book, cycle, fault },
    }
}

/// How many postings of an archive are sound, or the first that is not.
pub(crate) fn of_audit(alloc: Global, found: &Result<u64, AuditFault>) -> Result<Answer, AllocError>
    ensures { IfOk result (λ a. answer_seen a ≡ spec.audited found.now) }
{
    match found {
        Ok(count) => of_one(alloc, Reply::Audited(*count), 0),
        Err(AuditFault::Unsound(book, cycle, what)) => {
            of_one(alloc, unsound_row(*book, *cycle, *what), 1)
        }
        Err(AuditFault::OldVersion) => of_old_version(alloc),
        Err(AuditFault::Store(_)) => of_no_store(alloc),
    }
}

/// The row of a sound posting. The only error is want of memory.
fn sound_row(alloc: Global, summary: Summary) -> Result<Reply, AllocError>
    ensures { IfOk result (λ row. row ≡ spec.sound_row summary) }
{
    let Summary {
        book,
        cycle,
        round,
        rule,
        lines,
        quantity,
        sum,
    } = summary;
    let posting = SoundPosting {
        book,
        cycle: u64::from(cycle.number()),
        round: u64::from(round.number()),
        rule: u64::from(rule.number()),
        lines: lines as u64,
        quantity,
        sum,
    };
    Ok(Reply::Sound(Boxed::of(alloc, posting)?))
}

/// Appends the row of a sound posting, and what is found of its bumped lines.
fn push_sound(
    alloc: Global,
    rows: &mut Vec<Reply>,
    summary: Summary,
    bumps: Bumps,
) -> Result<(), AllocError>
    ensures { OnOk result (rows.new.items ≡ rows.old.items ++ spec.finding_rows (Finding.Sound summary bumps)) }
{
    let (book, cycle) = (summary.book, u64::from(summary.cycle.number()));
    match bumps {
        Bumps::Right => rows.push(sound_row(alloc, summary)?)?,
        Bumps::Wrong => rows.push(Reply::UnsoundBumps { book, cycle })?,
        Bumps::Unchecked => {
            rows.push(sound_row(alloc, summary)?)?;
            rows.push(Reply::UncheckedBumps { book, cycle })?;
        }
    }
    Ok(())
}

/// Appends the rows of what is found of a posting.
fn push_finding(alloc: Global, rows: &mut Vec<Reply>, finding: Finding) -> Result<(), AllocError>
    ensures { OnOk result (rows.new.items ≡ rows.old.items ++ spec.finding_rows finding) }
{
    match finding {
        Finding::Sound(summary, bumps) => push_sound(alloc, rows, summary, bumps)?,
        Finding::Unsound(book, cycle, what) => rows.push(unsound_row(book, cycle, what))?,
    }
    Ok(())
}

/// Whether what is found of a posting is that it is sound.
fn is_sound(finding: &Finding) -> bool
    ensures { result ≡ spec.is_sound finding.now }
{
    matches!(finding, Finding::Sound(_, Bumps::Right | Bumps::Unchecked))
}

/// The rows of what is found of postings, in their order.
fn finding_rows(alloc: Global, findings: &[Finding]) -> Result<Vec<Reply>, AllocError>
    ensures { IfOk result (λ rows. rows.items ≡ flat_map spec.finding_rows findings.now) }
{
    let mut rows = Vec::with_capacity(alloc, findings.len())?;
    'findings: for finding in findings {
        push_finding(alloc, &mut rows, *finding)?;
    }
    Ok(rows)
}

/// How many of the findings are sound.
fn sound_count(findings: &[Finding]) -> usize
    ensures { result ≡ spec.sound_count findings.now }
{
    let mut count = 0;
    'findings: for finding in findings {
        if is_sound(finding) {
            count += 1;
        }
    }
    count
}

/// What is found of each posting, and how many are sound.
pub(crate) fn of_each(alloc: Global, findings: &[Finding]) -> Result<Answer, AllocError>
    ensures { IfOk result (λ a. answer_seen a ≡ spec.each_told findings.now) }
{
    let count = sound_count(findings);
    let mut rows = finding_rows(alloc, findings)?;
    rows.push(Reply::Audited(count as u64))?;
    let status = if count == findings.len() { 0 } else { 1 };
    Ok(Answer::whole(rows, status))
}

/// How many postings were carried over, or why none was.
pub(crate) fn of_migration(
    alloc: Global,
    carried: Result<u64, MigrateFault>,
) -> Result<Answer, AllocError>
    ensures { IfOk result (λ a. answer_seen a ≡ spec.migrated carried) }
{
    match carried {
        Ok(count) => of_one(alloc, Reply::Migrated(count), 0),
        Err(MigrateFault::OtherVersion) => of_one(alloc, Reply::OtherVersion, 1),
        Err(MigrateFault::Store(_)) => of_no_store(alloc),
    }
}
