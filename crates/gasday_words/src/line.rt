//! The command line as `clap` is told of it.

ghost use Rattle.std.specs.Prelude.{◌≡◌, IfOk, false};
ghost use Rattle.clap.specs.Words.{App, app_of, new_app, rule_of, with_subcommand};
ghost use Rattle.clap.specs.declared.builder.command.Command.TheViews.{out-Command};
ghost use Rattle.gasday_words.specs.Meaning as spec;

use crate::help;
use clap::{Arg, ArgAction, Command as CommandLine};
use std::alloc::{AllocError, Global};

/// The version of the program, and of the logic in which it is proved, which several kits share.
const VERSION: &str = "1.0.0 (proved in Rattle's logic dac8208d650f15bf)";

const NAME: &str = "gasday";

const ABOUT: &str = "The scheduling office of one gas pipeline.

It reads rows of eight comma-separated fields from files or from standard input, and prints
its answer to standard output as rows of the same form.";

const ABOUT_CHECK: &str =
    "Tells whether a schedule is allowed or best, or that none can be: 'check allowed', 'check best', 'check cut'; or whether an answer is right: 'check QUESTION ANSWER'";

const HELP_OF_WHAT: &str = "allowed: each line's quantity lies between its floor and its ceiling,
each load is within its capacity, and each pool is in balance;
best: prices show that no allowed schedule is better;
cut: a set of places, points and pools shows that no schedule is allowed;
or QUESTION, the file of a question, with ANSWER behind it, what solve answered to it";

const HELP_OF_TEXTS: &str =
    "the files that make up the text, in order; - or no name is standard input";

/// A command of this name, before it takes words, with the texts of its help.
fn command<'a>(
    alloc: Global,
    name: &'a str,
    about: &'a str,
    short: &'a str,
    long: &'a str,
) -> CommandLine<'a>
    ensures app { app_of result ≡ new_app name.entry.now }
    ensures local { (out-Command result).has_globals ≡ false }
{
    CommandLine::new(alloc, name)
        .about(about)
        .after_help(short)
        .after_long_help(long)
}

/// A command line with one more command, or want of memory.
fn with_command<'a>(
    line: CommandLine<'a>,
    command: Result<CommandLine<'a>, AllocError>,
) -> Result<CommandLine<'a>, AllocError>
    requires { IfOk command (λ c. (out-Command c).has_globals ≡ false) }
    ensures { IfOk result (λ r. (a : App) → IfOk command.entry (λ c. app_of c ≡ a)
        → app_of r ≡ with_subcommand (app_of line.entry) a.top) }
{
    match command {
        Ok(command) => line.subcommand(command),
        Err(fault) => {
            drop(line);
            Err(fault)
        }
    }
}

/// TEXT, any number of words.
fn texts<'a>(alloc: Global) -> Arg<'a>
    ensures rule { rule_of result ≡ spec.texts }
    ensures local { result.global ≡ false }
{
    Arg::new(alloc, "text")
        .value_name("TEXT")
        .num_args(..)
        .action(ArgAction::Append)
        .help(HELP_OF_TEXTS)
}

/// WHAT, one word that has to be there. clap takes any word: a list of possible values would put references into
/// the meaning of the line, so the program tells the words apart itself.
fn what<'a>(alloc: Global) -> Arg<'a>
    ensures rule { rule_of result ≡ spec.what }
    ensures local { result.global ≡ false }
{
    Arg::new(alloc, "what")
        .value_name("WHAT")
        .required(true)
        .help(HELP_OF_WHAT)
}

/// `check WHAT [TEXT]..`, and `check QUESTION ANSWER`.
fn check<'a>(alloc: Global) -> Result<CommandLine<'a>, AllocError>
    ensures app { IfOk result (λ c. app_of c ≡ spec.check) }
    ensures local { IfOk result (λ c. (out-Command c).has_globals ≡ false) }
{
    command(
        alloc,
        "check",
        ABOUT_CHECK,
        help::SHORT_OF_CHECK,
        help::LONG_OF_CHECK,
    )
    .arg(what(alloc))?
    .arg(texts(alloc))
}

const ABOUT_SOLVE: &str =
    "Tells a best schedule with prices that show it best, or a cut where no schedule is allowed";

/// `solve [TEXT]..`.
fn solve<'a>(alloc: Global) -> Result<CommandLine<'a>, AllocError>
    ensures app { IfOk result (λ c. app_of c ≡ spec.solve) }
    ensures local { IfOk result (λ c. (out-Command c).has_globals ≡ false) }
{
    command(
        alloc,
        "solve",
        ABOUT_SOLVE,
        help::SHORT_OF_SOLVE,
        help::LONG_OF_SOLVE,
    )
    .arg(texts(alloc))
}

const ABOUT_CALENDAR: &str = "Tells the moments of a gas day's five cycles, and its hours";

/// `calendar [TEXT]..`.
fn calendar<'a>(alloc: Global) -> Result<CommandLine<'a>, AllocError>
    ensures app { IfOk result (λ c. app_of c ≡ spec.calendar) }
    ensures local { IfOk result (λ c. (out-Command c).has_globals ≡ false) }
{
    command(
        alloc,
        "calendar",
        ABOUT_CALENDAR,
        help::SHORT_OF_CALENDAR,
        help::LONG_OF_CALENDAR,
    )
    .arg(texts(alloc))
}

/// `--NAME VALUE`, which may be left out.
fn option<'a>(alloc: Global, name: &'a str, value: &'a str, about: &'a str) -> Arg<'a>
    ensures rule { rule_of result ≡ spec.option name.entry.now }
    ensures local { result.global ≡ false }
{
    Arg::new(alloc, name)
        .long(name)
        .value_name(value)
        .help(about)
}

/// `--NAME`, which may be left out. It gives the word `true` or `false`.
fn flag<'a>(alloc: Global, name: &'a str, about: &'a str) -> Arg<'a>
    ensures rule { rule_of result ≡ spec.flag name.entry.now }
    ensures local { result.global ≡ false }
{
    Arg::new(alloc, name)
        .long(name)
        .action(ArgAction::SetTrue)
        .help(about)
}

const ABOUT_DAY: &str = "Makes the calls of a whole gas day, and tells what each gives";

const HELP_OF_ARCHIVE: &str = "keep in FILE what is published";

const HELP_OF_BOOK: &str = "serve rows as they come, on the book that FILE keeps";

const HELP_OF_WAIT: &str = "wait so long for FILE where another process has it";

/// `--wait SECONDS`, which may be left out. The program tells numbers apart itself, as it does the checks.
fn wait<'a>(alloc: Global) -> Arg<'a>
    ensures rule { rule_of result ≡ spec.wait }
    ensures local { result.global ≡ false }
{
    option(alloc, "wait", "SECONDS", HELP_OF_WAIT)
}

const HELP_OF_STRICT: &str =
    "end with 1 where a call was refused or too late, or a cycle declared impossible";

/// `--strict`, which may be left out.
fn strict<'a>(alloc: Global) -> Arg<'a>
    ensures rule { rule_of result ≡ spec.strict }
    ensures local { result.global ≡ false }
{
    flag(alloc, "strict", HELP_OF_STRICT)
}

/// `day [--archive FILE] [--book FILE] [--strict]`.
fn kept_day<'a>(alloc: Global) -> Result<CommandLine<'a>, AllocError>
    ensures app { IfOk result (λ c. app_of c ≡ spec.kept_day) }
    ensures local { IfOk result (λ c. (out-Command c).has_globals ≡ false) }
{
    command(
        alloc,
        "day",
        ABOUT_DAY,
        help::SHORT_OF_DAY,
        help::LONG_OF_DAY,
    )
    .arg(option(alloc, "archive", "FILE", HELP_OF_ARCHIVE))?
    .arg(option(alloc, "book", "FILE", HELP_OF_BOOK))?
    .arg(strict(alloc))
}

/// `day [--archive FILE] [--book FILE] [--strict] [--wait SECONDS] [TEXT]..`.
fn day<'a>(alloc: Global) -> Result<CommandLine<'a>, AllocError>
    ensures app { IfOk result (λ c. app_of c ≡ spec.day) }
    ensures local { IfOk result (λ c. (out-Command c).has_globals ≡ false) }
{
    kept_day(alloc)?.arg(wait(alloc))?.arg(texts(alloc))
}

const ABOUT_OFFICE: &str =
    "Runs an office of several gas days, with sessions and desks in threads, and reconciles all receipts";

/// `office [--strict] [TEXT]..`.
fn office<'a>(alloc: Global) -> Result<CommandLine<'a>, AllocError>
    ensures app { IfOk result (λ c. app_of c ≡ spec.office) }
    ensures local { IfOk result (λ c. (out-Command c).has_globals ≡ false) }
{
    command(
        alloc,
        "office",
        ABOUT_OFFICE,
        help::SHORT_OF_OFFICE,
        help::LONG_OF_OFFICE,
    )
    .arg(strict(alloc))?
    .arg(texts(alloc))
}

/// FILE, one word that has to be there, with its help.
fn file<'a>(alloc: Global, about: &'a str) -> Arg<'a>
    ensures rule { rule_of result ≡ spec.file }
    ensures local { result.global ≡ false }
{
    Arg::new(alloc, "file")
        .value_name("FILE")
        .required(true)
        .help(about)
}

const HELP_OF_ALL: &str = "tell of each posting of an archive, whether it is sound";

const ABOUT_AUDIT: &str =
    "Checks each posting of an archive against its own question, or makes all calls of a book's file again";

const FILE_OF_AUDIT: &str = "the archive or the book's file, a SQLite database";

/// `audit [--all] [--wait SECONDS] FILE`.
fn audit<'a>(alloc: Global) -> Result<CommandLine<'a>, AllocError>
    ensures app { IfOk result (λ c. app_of c ≡ spec.audit) }
    ensures local { IfOk result (λ c. (out-Command c).has_globals ≡ false) }
{
    command(
        alloc,
        "audit",
        ABOUT_AUDIT,
        help::SHORT_OF_AUDIT,
        help::LONG_OF_AUDIT,
    )
    .arg(flag(alloc, "all", HELP_OF_ALL))?
    .arg(wait(alloc))?
    .arg(file(alloc, FILE_OF_AUDIT))
}

const ABOUT_TEXT: &str = "Prints the text of a gas day that a book's file keeps";

const FILE_OF_TEXT: &str = "the book's file, a SQLite database";

/// `text [--wait SECONDS] FILE`.
fn book_text<'a>(alloc: Global) -> Result<CommandLine<'a>, AllocError>
    ensures app { IfOk result (λ c. app_of c ≡ spec.book_text) }
    ensures local { IfOk result (λ c. (out-Command c).has_globals ≡ false) }
{
    command(
        alloc,
        "text",
        ABOUT_TEXT,
        help::SHORT_OF_TEXT,
        help::LONG_OF_TEXT,
    )
    .arg(wait(alloc))?
    .arg(file(alloc, FILE_OF_TEXT))
}

const HELP_OF_CYCLE: &str = "the cycle: 1 Timely, 2 Evening, 3 to 5 Intraday 1 to 3";

/// CYCLE, one word that has to be there. The program tells the cycles apart itself, as it does the checks.
fn cycle<'a>(alloc: Global) -> Arg<'a>
    ensures rule { rule_of result ≡ spec.cycle }
    ensures local { result.global ≡ false }
{
    Arg::new(alloc, "cycle")
        .value_name("CYCLE")
        .required(true)
        .help(HELP_OF_CYCLE)
}

const HELP_OF_ROUND: &str =
    "the round, 1 to 1,000,000, as a frozen row tells it; without it the cycle's last one";

/// ROUND, one word that may be left out.
fn round<'a>(alloc: Global) -> Arg<'a>
    ensures rule { rule_of result ≡ spec.round }
    ensures local { result.global ≡ false }
{
    Arg::new(alloc, "round")
        .value_name("ROUND")
        .help(HELP_OF_ROUND)
}

const ABOUT_QUESTION: &str =
    "Prints the frozen question of a round of a gas day, with what came of it";

const FILE_OF_A_DAY: &str = "the text of a gas day, or a book's file, a SQLite database";

/// `question [--wait SECONDS] FILE CYCLE [ROUND]`.
fn question<'a>(alloc: Global) -> Result<CommandLine<'a>, AllocError>
    ensures app { IfOk result (λ c. app_of c ≡ spec.question) }
    ensures local { IfOk result (λ c. (out-Command c).has_globals ≡ false) }
{
    command(
        alloc,
        "question",
        ABOUT_QUESTION,
        help::SHORT_OF_QUESTION,
        help::LONG_OF_QUESTION,
    )
    .arg(wait(alloc))?
    .arg(file(alloc, FILE_OF_A_DAY))?
    .arg(cycle(alloc))?
    .arg(round(alloc))
}

const ABOUT_CARRY: &str = "Prints the carry rows of the next gas day";

/// `carry [--wait SECONDS] FILE`.
fn carry<'a>(alloc: Global) -> Result<CommandLine<'a>, AllocError>
    ensures app { IfOk result (λ c. app_of c ≡ spec.carry) }
    ensures local { IfOk result (λ c. (out-Command c).has_globals ≡ false) }
{
    command(
        alloc,
        "carry",
        ABOUT_CARRY,
        help::SHORT_OF_CARRY,
        help::LONG_OF_CARRY,
    )
    .arg(wait(alloc))?
    .arg(file(alloc, FILE_OF_A_DAY))
}

const ABOUT_MIGRATE: &str = "Brings an archive of version 1 to version 2";

const FILE_OF_MIGRATE: &str = "the archive, a SQLite database";

/// `migrate [--wait SECONDS] FILE`.
fn migrate<'a>(alloc: Global) -> Result<CommandLine<'a>, AllocError>
    ensures app { IfOk result (λ c. app_of c ≡ spec.migrate) }
    ensures local { IfOk result (λ c. (out-Command c).has_globals ≡ false) }
{
    command(
        alloc,
        "migrate",
        ABOUT_MIGRATE,
        help::SHORT_OF_MIGRATE,
        help::LONG_OF_MIGRATE,
    )
    .arg(wait(alloc))?
    .arg(file(alloc, FILE_OF_MIGRATE))
}

/// The program's name, before it has commands. Usage tells this name, whatever the first word is.
fn bare<'a>(alloc: Global) -> Result<CommandLine<'a>, AllocError>
    ensures { IfOk result (λ c. app_of c ≡ spec.bare) }
{
    command(alloc, NAME, ABOUT, help::SHORT, help::LONG)
        .version(VERSION)
        .bin_name(NAME)
}

/// The program with the commands that take a text.
fn with_texts<'a>(alloc: Global) -> Result<CommandLine<'a>, AllocError>
    ensures { IfOk result (λ c. app_of c ≡ spec.with_texts) }
{
    let Ok(bare) = bare(alloc) else {
        return Err(AllocError);
    };
    let Ok(with_check) = with_command(bare, check(alloc)) else {
        return Err(AllocError);
    };
    let Ok(with_solve) = with_command(with_check, solve(alloc)) else {
        return Err(AllocError);
    };
    let Ok(with_calendar) = with_command(with_solve, calendar(alloc)) else {
        return Err(AllocError);
    };
    let Ok(with_day) = with_command(with_calendar, day(alloc)) else {
        return Err(AllocError);
    };
    with_command(with_day, office(alloc))
}

/// The command line of the program, with the texts of its help.
pub(crate) fn gasday<'a>(alloc: Global) -> Result<CommandLine<'a>, AllocError>
    ensures { IfOk result (λ c. app_of c ≡ spec.gasday) }
{
    let Ok(texts) = with_texts(alloc) else {
        return Err(AllocError);
    };
    let Ok(with_audit) = with_command(texts, audit(alloc)) else {
        return Err(AllocError);
    };
    let Ok(with_text) = with_command(with_audit, book_text(alloc)) else {
        return Err(AllocError);
    };
    let Ok(with_question) = with_command(with_text, question(alloc)) else {
        return Err(AllocError);
    };
    let Ok(with_carry) = with_command(with_question, carry(alloc)) else {
        return Err(AllocError);
    };
    with_command(with_carry, migrate(alloc))
}
