//! What a person is told of the row with which an answer ends.

use crate::broken::told_of_broken;
use crate::fault::{told_of_fault, told_of_no_calendar};
use crate::text::Source;
use gd_certificate::CertFault;
use gd_replies::Reply;
use gd_schedule::Broken;
use gd_units::Name;
use std::alloc::{AllocError, Global};

/// What a check of a posting finds wrong.
fn meaning_of(fault: CertFault) -> &'static str {
    match fault {
        CertFault::Shape | CertFault::Broken(Broken::Shape) => {
            "there is not one quantity for each line, or not one price for each element"
        }
        CertFault::Broken(Broken::BelowFloor(_)) => "a line gets less than its floor",
        CertFault::Broken(Broken::AboveCeiling(_)) => "a line gets more than its ceiling",
        CertFault::Broken(Broken::OverCapacity(_)) => {
            "a segment or point carries more than its capacity"
        }
        CertFault::Broken(Broken::Unbalanced(_)) => {
            "a pool doesn't give out as much as it takes in"
        }
        CertFault::PriceTooLarge(_) => "a number of a price is above 2^40 in size",
        CertFault::PriceOnSlack(_) => {
            "a price is above zero where the load is below the capacity, or below zero where the load is above 0"
        }
        CertFault::Underfilled(_) => {
            "a line below its ceiling would gain by one dekatherm more, so the prices don't show the schedule best"
        }
        CertFault::Overfilled(_) => {
            "a line above its floor loses by its last dekatherm, so the prices don't show the schedule best"
        }
        CertFault::OutOfMemory | CertFault::Broken(Broken::OutOfMemory) => "memory ran out",
    }
}

/// What is told of an archive's posting that doesn't pass its check.
fn told_of_unsound(
    alloc: Global,
    book: Name,
    cycle: u64,
    fault: CertFault,
) -> Result<String, AllocError> {
    let meaning = meaning_of(fault);
    format!(in alloc;
        "the posting of book {book} and cycle {cycle} doesn't pass its check: {meaning}"
    )
}

/// What is told of what an archive keeps that is no posting.
fn told_of_damaged(alloc: Global, book: Name, cycle: u64) -> Result<String, AllocError> {
    format!(in alloc;
        "what the archive keeps of book {book} and cycle {cycle} is damaged: it is no posting, or another one's"
    )
}

/// What is told of a row by itself, without a look at the text; `None` where nothing is to be said of it.
fn words_of(reply: &Reply) -> Option<&'static str> {
    match reply {
        Reply::Inside(..) | Reply::Cut(_) => Some(
            "no schedule is allowed: more has to leave the set that the inside rows name than can, by the excess in the cut row",
        ),
        // Nothing of a text leads to these.
        Reply::Reconciled { .. } | Reply::Mismatch { .. } | Reply::Missing { .. } => Some(
            "a slot is not reconciled, as the rows tell; keep the text, and tell who maintains the program",
        ),
        Reply::NoThread => Some("no thread could be started for a session"),
        Reply::TooMany => Some("a slot takes no more sessions at a time"),
        Reply::Kept => Some(
            "the archive has a posting of this book for a cycle of this day already, and it is left as it is; a day that is run anew wants an archive of its own",
        ),
        // (Where all are sound the status is 0.)
        Reply::Audited(_) => Some(
            "not all postings of the archive are sound: an unsound row names each that is not, and audited counts the others",
        ),
        Reply::OtherVersion => {
            Some("the archive is not of version 1, so there is nothing to migrate")
        }
        Reply::OldVersion => {
            Some("the archive is of version 1; gasday migrate FILE brings it to today's version")
        }
        Reply::Store => Some(
            "the file is of another kind than the command takes, or damaged, or can't be read or written",
        ),
        Reply::Busy => Some("another process has the file; it is free again once that has ended"),
        Reply::Full(_) => Some(
            "the file keeps as many rows or bytes as a text may have, and takes no more calls",
        ),
        Reply::Differs { .. } => Some(
            "the file was changed since it was written, or another program wrote it: the call that the row names gives other rows than the file says were told",
        ),
        Reply::NeverFrozen => Some(
            "the book was never frozen in this cycle, or not in this round of it: the frozen rows that were told name the rounds",
        ),
        // What is told with what the text has, or with numbers.
        Reply::Fault(_)
        | Reply::OutOfRange
        | Reply::BadZone
        | Reply::Damaged { .. }
        | Reply::Unsound { .. }
        | Reply::Shape
        | Reply::BelowFloor(_)
        | Reply::AboveCeiling(_)
        | Reply::OverCapacity(_)
        | Reply::Unbalanced(_)
        | Reply::PriceTooLarge(_)
        | Reply::PriceOnSlack(_)
        | Reply::Underfilled(_)
        | Reply::Overfilled(_)
        | Reply::NotCut => None,
        // Rows of good answers, and rows that are never the last of another one.
        Reply::Allowed
        | Reply::Best
        | Reply::Total(..)
        | Reply::Sched(..)
        | Reply::Price { .. }
        | Reply::Accepted { .. }
        | Reply::Done(_)
        | Reply::Frozen { .. }
        | Reply::Bound { .. }
        | Reply::Published { .. }
        | Reply::Bumped(..)
        | Reply::Declared { .. }
        | Reply::Refused(..)
        | Reply::UncertifiedShape(_)
        | Reply::UncertifiedLine(..)
        | Reply::UncertifiedElement(..)
        | Reply::Cycle { .. }
        | Reply::Hours { .. }
        | Reply::ReceiptAccepted { .. }
        | Reply::ReceiptDone { .. }
        | Reply::ReceiptRefused { .. }
        | Reply::Slot(_)
        | Reply::Sound(_)
        | Reply::UnsoundBumps { .. }
        | Reply::UncheckedBumps { .. }
        | Reply::Migrated(_)
        | Reply::Opened { .. }
        | Reply::Replayed { .. }
        | Reply::Carry(_) => None,
    }
}

/// What a person is told of the last row of an answer with a status that isn't 0; `None` where nothing is to be said of it.
///
/// It is one sentence without a line feed. Lines are counted as an editor does, of the file that has them where files were
/// named. The only error is want of memory.
pub fn message_of(source: Source<'_>, reply: &Reply) -> Result<Option<String>, AllocError> {
    let alloc = source.alloc;
    let told = match *reply {
        Reply::Fault(fault) => told_of_fault(source, fault),
        Reply::OutOfRange | Reply::BadZone => told_of_no_calendar(source, reply),
        Reply::Damaged { book, cycle } => told_of_damaged(alloc, book, cycle),
        Reply::Unsound { book, cycle, fault } => told_of_unsound(alloc, book, cycle, fault),
        Reply::Shape
        | Reply::BelowFloor(_)
        | Reply::AboveCeiling(_)
        | Reply::OverCapacity(_)
        | Reply::Unbalanced(_)
        | Reply::PriceTooLarge(_)
        | Reply::PriceOnSlack(_)
        | Reply::Underfilled(_)
        | Reply::Overfilled(_)
        | Reply::NotCut => return told_of_broken(source, reply),
        _ => match words_of(reply) {
            Some(words) => String::from_str(alloc, words),
            None => return Ok(None),
        },
    };
    Ok(Some(told?))
}
