//! Why words are no order.

ghost use Rattle.clap.specs.Words.{kind_of};
ghost use Rattle.gasday_words.specs.Outcomes.{IsTelling, IsUsage};

use crate::order::NoOrder;
use clap::error::ErrorKind;
use std::alloc::{AllocError, Global};
use thiserror::Error;

/// Why words are no order. The text of each ends with a line feed.
#[derive(Debug, Drop, Error)]
pub enum UsageFault {
    /// The words ask for help, which this is.
    #[error("{0}")]
    Help(String),
    /// The words ask for the version, which this is.
    #[error("{0}")]
    Version(String),
    /// The words are at fault. The text says how, and how to get help.
    #[error("{0}")]
    Usage(String),
    /// There was no memory to read the words with, or to write the text.
    #[error("error: out of memory\n")]
    OutOfMemory,
}

/// What to tell of the words that `clap` refused.
pub(crate) fn fault_of(alloc: Global, error: &clap::Error) -> UsageFault
    ensures { IsTelling (kind_of error.now) result }
{
    let kind = error.kind();
    if matches!(kind, ErrorKind::OutOfMemory) {
        return UsageFault::OutOfMemory;
    }
    match error.to_string(alloc) {
        Ok(text) if matches!(kind, ErrorKind::DisplayHelp) => UsageFault::Help(text),
        Ok(text) if matches!(kind, ErrorKind::DisplayVersion) => UsageFault::Version(text),
        Ok(text) => UsageFault::Usage(text),
        Err(_) => UsageFault::OutOfMemory,
    }
}

/// What is told of a word that is no value of this argument, as clap words it; `values` is a line that names those that are.
fn text_of_no_value(
    alloc: Global,
    word: &str,
    argument: &str,
    values: &str,
) -> Result<String, AllocError> {
    format!(in alloc;
        "error: invalid value '{word}' for '{argument}'\n{values}\n\
         For more information, try '--help'.\n"
    )
}

const CHECKS: &str = "  [possible values: allowed, best, cut; or QUESTION ANSWER, two files]\n";

const CYCLES: &str = "  [possible values: 1, 2, 3, 4, 5]\n";

/// What is told of two options that exclude each other.
const CLASH: &str = "error: '--book' can't be used with '--archive'\n\n\
     For more information, try '--help'.\n";

/// What is told of a strict gas day on a book's file.
const STRICT_BOOK: &str = "error: '--strict' can't be used with '--book'\n\n\
     For more information, try '--help'.\n";

/// What to tell of words that clap took, and that name no order.
pub(crate) fn no_order(alloc: Global, why: NoOrder<'_>) -> UsageFault
    ensures { IsUsage result }
{
    let text = match why {
        NoOrder::Check(word) => text_of_no_value(alloc, word, "<WHAT>", CHECKS),
        NoOrder::Cycle(word) => text_of_no_value(alloc, word, "<CYCLE>", CYCLES),
        NoOrder::Round(word) => text_of_no_value(alloc, word, "[ROUND]", ""),
        NoOrder::Wait(word) => text_of_no_value(alloc, word, "--wait <SECONDS>", ""),
        NoOrder::BothFiles => String::from_str(alloc, CLASH),
        NoOrder::StrictBook => String::from_str(alloc, STRICT_BOOK),
    };
    match text {
        Ok(text) => UsageFault::Usage(text),
        Err(_) => UsageFault::OutOfMemory,
    }
}
