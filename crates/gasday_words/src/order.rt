//! The orders, and which of them the matches of the command line name.

ghost use Rattle.std.specs.Prelude.{◌≡◌, ◌∷◌, List, IfOk, length, map, option_map};
ghost use Rattle.clap.specs.Words.{Text, first_of, found_of, rows_of, subcommand_rows_of};
ghost use Rattle.gasday_words.specs.Meaning as spec;
ghost use Rattle.gasday_words.specs.Ordered as ordered;
ghost use Rattle.gasday_words.specs.Ordered.{requested, seen};

use clap::ArgMatches;
use std::alloc::{AllocError, Global};

/// A command that answers a text.
#[derive(Clone, Copy, Debug, PartialEq, Eq)]
pub enum Command {
    /// Tells whether the schedule behind a question is allowed, and its total by class.
    CheckAllowed,
    /// Tells whether prices show that the schedule is best.
    CheckBest,
    /// Tells whether a set shows that no schedule is allowed.
    CheckCut,
    /// Tells a best schedule with prices that show it best, or a set that shows that no schedule is allowed.
    Solve,
    /// Tells the moments of a gas day's five cycles, and its hours.
    Calendar,
    /// Makes the calls of a gas day on its book, and tells what each gives.
    Day,
    /// The same, and the exit status is 1 where a call was refused, a cycle was declared impossible, or a freeze or a call came too
    /// late.
    StrictDay,
}

/// What the words ask for.
#[derive(Clone, Copy, Debug, PartialEq, Eq)]
pub enum Order<'a> {
    /// A command that needs no archive, no book's file and no threads of an office.
    Text(Command),
    /// `check QUESTION ANSWER`: tells whether an answer to a question is right, by the check that it asks for itself.
    CheckAnswer,
    /// `office`: runs an office of several gas days, with sessions and desks in threads, and holds all receipts against its books.
    /// A strict one ends with 1 where it didn't come to what is in order, as a strict day does.
    Office {
        is_strict: bool,
    },
    /// `day --archive FILE`: as `day`, and what is published is kept in the archive. A strict one ends with 1 as a strict day does, and
    /// where the archive has another posting already, but not where it has the same.
    ArchivedDay {
        file: &'a str,
        is_strict: bool,
    },
    /// `day --book FILE`: serves calls as they come, on the book that the file keeps.
    LiveDay(&'a str),
    /// `text FILE`: prints the text of a gas day that a book's file keeps.
    BookText(&'a str),
    /// `audit FILE`: checks each posting of an archive, or makes all calls of a book's file again.
    Audit(&'a str),
    /// `audit --all FILE`: as `audit`, and each posting of an archive is told, sound or not.
    AuditEach(&'a str),
    /// `question FILE CYCLE [ROUND]`: prints the question that a gas day's book was frozen with in a round of a cycle, the last one
    /// where no round is named, and what came of it.
    Question {
        file: &'a str,
        cycle: u8,
        round: Option<u32>,
    },
    /// `carry FILE`: prints what each line of a gas day is carried over with to the next one.
    Carry(&'a str),
    /// `migrate FILE`: brings an archive of version 1 to version 2.
    Migrate(&'a str),
}

/// An order, and the files that it reads.
#[derive(Debug, Drop)]
pub struct Request<'a> {
    pub order: Order<'a>,
    /// The files that make up the text, in order. Where there are none the text is read from standard input.
    pub texts: Vec<&'a str>,
    /// For how many seconds it waits for the file that the order names, where another process has that.
    pub wait: u32,
}

/// The check that the word after `check` names.
fn check_named(word: Option<&str>) -> Option<Command>
    ensures { result ≡ spec.check_named (option_map (λ w. w.now) word.entry) }
{
    match word {
        Some("allowed") => Some(Command::CheckAllowed),
        Some("best") => Some(Command::CheckBest),
        Some("cut") => Some(Command::CheckCut),
        _ => None,
    }
}

/// The order of `check`: the check that its word names, or that of an answer, where one text stands behind another word.
fn check_of<'a>(word: Option<&str>, texts: usize) -> Option<Order<'a>>
    ensures { (all : List Text) → length all ≡ texts → option_map seen result
        ≡ spec.check_order (spec.check_named (option_map (λ w. w.now) word.entry))
        (option_map (λ w. w.now) word.entry) all }
{
    match check_named(word) {
        Some(check) => Some(Order::Text(check)),
        None if word.is_some() && texts == 1 => Some(Order::CheckAnswer),
        None => None,
    }
}

/// Whether a flag is given, of which clap tells a word.
fn is_given(word: Option<&str>) -> bool
    ensures { result ≡ spec.is_given (option_map (λ w. w.now) word.entry) }
{
    match word {
        Some("true") => true,
        _ => false,
    }
}

/// The order that checks this archive or this book's file, and tells of each posting where that is asked for.
fn audit_of<'a>(file: Option<&'a str>, is_each: bool) -> Option<Order<'a>>
    ensures { option_map seen result ≡ option_map (spec.audit_order is_each) (option_map (λ f. f.now) file.entry) }
{
    let file = file?;
    if is_each {
        Some(Order::AuditEach(file))
    } else {
        Some(Order::Audit(file))
    }
}

/// The order that prints the text of this book's file.
fn book_text_of<'a>(file: Option<&'a str>) -> Option<Order<'a>>
    ensures { option_map seen result ≡ option_map ordered.BookText (option_map (λ f. f.now) file.entry) }
{
    match file {
        Some(file) => Some(Order::BookText(file)),
        None => None,
    }
}

/// The cycle that a word names.
fn cycle_named(word: &str) -> Option<u8>
    ensures { result ≡ spec.cycle_named word.now }
{
    match word {
        "1" => Some(1),
        "2" => Some(2),
        "3" => Some(3),
        "4" => Some(4),
        "5" => Some(5),
        _ => None,
    }
}

/// The greatest number that a word may name, since a gas day has no more rounds.
const MOST_NUMBER: u32 = 1_000_000;

/// The number that a word names.
fn number_named(word: &str) -> Option<u32>
    ensures { result ≡ spec.number_named word.now }
{
    let Ok(number) = word.parse::<u32>() else {
        return None;
    };
    if 1 <= number && number <= MOST_NUMBER {
        Some(number)
    } else {
        None
    }
}

/// The order that prints the frozen question of this file's gas day, in the cycle and the round that the words name.
fn question_of<'a>(
    file: Option<&'a str>,
    cycle: Option<&str>,
    round: Option<&str>,
) -> Option<Order<'a>>
    ensures { option_map seen result ≡ spec.question_of (option_map (λ f. f.now) file.entry)
        (option_map (λ w. w.now) cycle.entry) (option_map (λ w. w.now) round.entry) }
{
    let file = file?;
    let cycle = cycle_named(cycle?)?;
    let round = match round {
        Some(word) => Some(number_named(word)?),
        None => None,
    };
    Some(Order::Question { file, cycle, round })
}

/// The order that prints what is carried over from this file's gas day.
fn carry_of<'a>(file: Option<&'a str>) -> Option<Order<'a>>
    ensures { option_map seen result ≡ option_map ordered.Carry (option_map (λ f. f.now) file.entry) }
{
    match file {
        Some(file) => Some(Order::Carry(file)),
        None => None,
    }
}

/// The order that brings this archive to version 2.
fn migrate_of<'a>(file: Option<&'a str>) -> Option<Order<'a>>
    ensures { option_map seen result ≡ option_map ordered.Migrate (option_map (λ f. f.now) file.entry) }
{
    match file {
        Some(file) => Some(Order::Migrate(file)),
        None => None,
    }
}

/// A gas day, with the archive or on the book's file where one is named. Both together name no order, and no gas day on a book's file
/// is strict.
fn day_kept_in<'a>(
    is_strict: bool,
    archive: Option<&'a str>,
    book: Option<&'a str>,
) -> Option<Order<'a>>
    ensures { option_map seen result ≡ spec.day_kept_in is_strict
        (option_map (λ f. f.now) archive.entry) (option_map (λ f. f.now) book.entry) }
{
    match (is_strict, archive, book) {
        (false, None, None) => Some(Order::Text(Command::Day)),
        (true, None, None) => Some(Order::Text(Command::StrictDay)),
        (is_strict, Some(file), None) => Some(Order::ArchivedDay { file, is_strict }),
        (false, None, Some(book)) => Some(Order::LiveDay(book)),
        (_, Some(_), Some(_)) => None,
        (true, None, Some(_)) => None,
    }
}

/// The word that was given as this argument.
fn word_given<'a>(given: &ArgMatches<'a>, argument: &str) -> Option<&'a str>
    ensures { option_map (λ w. w.now) result ≡ first_of argument.now (rows_of (found_of given.now)) }
{
    given.get_str(argument)
}

/// How many texts were given.
fn text_count(given: &ArgMatches) -> usize
    ensures { result ≡ length (spec.texts_in (rows_of (found_of given.now))) }
{
    match given.get_strs("text") {
        Some(texts) => texts.len(),
        None => 0,
    }
}

/// The order of a subcommand's name and of what it was given.
fn order_from<'a>(name: &str, given: &ArgMatches<'a>) -> Option<Order<'a>>
    ensures { option_map seen result ≡ spec.order_from name.now (rows_of (found_of given.now)) }
{
    match name {
        "check" => check_of(word_given(given, "what"), text_count(given)),
        "solve" => Some(Order::Text(Command::Solve)),
        "calendar" => Some(Order::Text(Command::Calendar)),
        "day" => day_kept_in(
            is_given(word_given(given, "strict")),
            word_given(given, "archive"),
            word_given(given, "book"),
        ),
        "office" => Some(Order::Office {
            is_strict: is_given(word_given(given, "strict")),
        }),
        "audit" => audit_of(
            word_given(given, "file"),
            is_given(word_given(given, "all")),
        ),
        "text" => book_text_of(word_given(given, "file")),
        "question" => question_of(
            word_given(given, "file"),
            word_given(given, "cycle"),
            word_given(given, "round"),
        ),
        "carry" => carry_of(word_given(given, "file")),
        "migrate" => migrate_of(word_given(given, "file")),
        _ => None,
    }
}

/// The files that were given as texts.
fn texts_given<'a>(alloc: Global, given: &ArgMatches<'a>) -> Result<Vec<&'a str>, AllocError>
    ensures { IfOk result (λ v. map (λ t. t.now) v.items ≡ spec.texts_in (rows_of (found_of given.now))) }
{
    match given.get_strs("text") {
        Some(texts) => Vec::from_slice(alloc, texts),
        None => Ok(Vec::new(alloc)),
    }
}

/// A file, and others behind it.
fn with_first<'a>(
    alloc: Global,
    first: &'a str,
    others: &[&'a str],
) -> Result<Vec<&'a str>, AllocError>
    ensures { IfOk result (λ v. map (λ t. t.now) v.items ≡ first.now ∷ map (λ t. t.now) others.now) }
{
    let mut texts = Vec::new(alloc);
    texts.push(first)?;
    texts.extend_from_slice(others)?;
    Ok(texts)
}

/// The files that `check` reads: where its word names no check that is the first of them.
fn check_texts<'a>(
    alloc: Global,
    word: Option<&'a str>,
    texts: Vec<&'a str>,
) -> Result<Vec<&'a str>, AllocError>
    ensures { IfOk result (λ v. map (λ t. t.now) v.items ≡ spec.check_texts
        (spec.check_named (option_map (λ w. w.now) word.entry))
        (option_map (λ w. w.now) word.entry) (map (λ t. t.now) texts.entry.items)) }
{
    match (check_named(word), word) {
        (None, Some(question)) => with_first(alloc, question, texts.as_slice()),
        _ => Ok(texts),
    }
}

/// The files that the order of a subcommand reads, by its name and by what it was given.
fn texts_read<'a>(
    alloc: Global,
    name: &str,
    given: &ArgMatches<'a>,
) -> Result<Vec<&'a str>, AllocError>
    ensures { IfOk result (λ v. map (λ t. t.now) v.items ≡ spec.texts_read name.now (rows_of (found_of given.now))) }
{
    let texts = texts_given(alloc, given)?;
    match name {
        "check" => check_texts(alloc, word_given(given, "what"), texts),
        _ => Ok(texts),
    }
}

/// The seconds of which the word after `--wait` tells.
fn seconds_in(word: Option<&str>) -> Option<u32>
    ensures { result ≡ spec.seconds_in (option_map (λ w. w.now) word.entry) }
{
    match word {
        Some(word) => number_named(word),
        None => Some(0),
    }
}

/// The request of a subcommand's name and of what it was given.
fn request_from<'a>(
    alloc: Global,
    name: &str,
    given: &ArgMatches<'a>,
) -> Result<Option<Request<'a>>, AllocError>
    ensures { IfOk result
        (λ r. option_map requested r ≡ spec.request_from name.now (rows_of (found_of given.now))) }
{
    let Some(order) = order_from(name, given) else {
        return Ok(None);
    };
    let Some(wait) = seconds_in(word_given(given, "wait")) else {
        return Ok(None);
    };
    let texts = texts_read(alloc, name, given)?;
    Ok(Some(Request { order, texts, wait }))
}

/// The request that the matches name. Where they name no subcommand it is `check allowed` over standard input.
pub(crate) fn request_in<'a>(
    alloc: Global,
    matches: &ArgMatches<'a>,
) -> Result<Option<Request<'a>>, AllocError>
    ensures { IfOk result (λ r. option_map requested r ≡ spec.request_in (subcommand_rows_of matches.now)) }
{
    let Some((name, given)) = matches.subcommand() else {
        let order = Order::Text(Command::CheckAllowed);
        let texts = Vec::new(alloc);
        let wait = 0;
        return Ok(Some(Request { order, texts, wait }));
    };
    request_from(alloc, name, given)
}

/// Why words that clap takes name no order: a word is no check, and not one text stands behind it, or it is no cycle, no round or
/// no number of seconds, or a gas day is given both an archive and a book's file, or is strict on a book's file.
#[derive(Clone, Copy)]
pub(crate) enum NoOrder<'a> {
    Check(&'a str),
    Cycle(&'a str),
    Round(&'a str),
    Wait(&'a str),
    BothFiles,
    StrictBook,
}

/// Why the matches name no order.
pub(crate) fn no_order_in<'a>(matches: &ArgMatches<'a>) -> NoOrder<'a> {
    let Some((_, given)) = matches.subcommand() else {
        return NoOrder::BothFiles;
    };
    if let Some(word) = given.get_str("what") {
        return NoOrder::Check(word);
    }
    match (given.get_str("archive"), given.get_str("book")) {
        (Some(_), Some(_)) => NoOrder::BothFiles,
        (None, Some(_)) if is_given(given.get_str("strict")) => NoOrder::StrictBook,
        _ => no_number_in(given),
    }
}

/// Which word that was given is no cycle or no number, where one is.
fn no_number_in<'a>(given: &ArgMatches<'a>) -> NoOrder<'a> {
    if let Some(word) = given.get_str("cycle")
        && cycle_named(word).is_none()
    {
        return NoOrder::Cycle(word);
    }
    if let Some(word) = given.get_str("round")
        && number_named(word).is_none()
    {
        return NoOrder::Round(word);
    }
    match given.get_str("wait") {
        Some(word) => NoOrder::Wait(word),
        None => NoOrder::BothFiles,
    }
}
