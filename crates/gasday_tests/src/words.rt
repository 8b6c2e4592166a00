//! Which words are taken, and what the texts say.

use gasday_words::{Order, Request, UsageFault, request_of};
use std::alloc::{AllocError, Global};
use std::test::Fail;

const LINES: [(&[&str], &str); 64] = [
    (&[], "CheckAllowed"),
    (&["gasday"], "CheckAllowed"),
    (&["gasday", "check", "allowed"], "CheckAllowed"),
    (&["out/another-name", "check", "allowed"], "CheckAllowed"),
    (&["gasday", "check", "best"], "CheckBest"),
    (&["gasday", "check", "cut"], "CheckCut"),
    (&["gasday", "solve"], "Solve"),
    (&["gasday", "calendar"], "Calendar"),
    (&["gasday", "--help"], "help"),
    (&["gasday", "-h"], "help"),
    (&["gasday", "help"], "help"),
    (&["gasday", "--version"], "version"),
    (&["gasday", "-V"], "version"),
    (&["gasday", "solve", "--version"], "usage"),
    (&["gasday", "solve", "-h"], "help of solve"),
    (&["gasday", "help", "check"], "help"),
    (&["gasday", "check", "--help"], "help"),
    (&["gasday", "solve", "--help"], "help of solve"),
    (&["gasday", "calendar", "--help"], "help of calendar"),
    (&["gasday", "solve", "best"], "Solve of best"),
    (&["gasday", "solve", "--nonsense"], "usage"),
    (&["gasday", "check", "solve"], "usage"),
    (&["gasday", "Solve"], "usage"),
    (
        &["gasday", "calendar", "a.csv", "b.csv"],
        "Calendar of a.csv and b.csv",
    ),
    (&["gasday", "check", "calendar"], "usage"),
    (&["gasday", "day"], "Day"),
    (&["gasday", "day", "--help"], "help of day"),
    (&["gasday", "office"], "office"),
    (&["gasday", "office", "--help"], "help of office"),
    (
        &["gasday", "day", "a.csv", "--archive", "a.db", "b.csv"],
        "archived day of a.csv and b.csv",
    ),
    (&["gasday", "office", "--", "--a.csv"], "office of --a.csv"),
    (&["gasday", "day", "--archive", "a.db"], "archived day"),
    (&["gasday", "day", "--archive=a.db"], "archived day"),
    (&["gasday", "day", "--archive"], "usage"),
    (&["gasday", "audit", "a.db"], "audit"),
    (&["gasday", "day", "--book", "a.db"], "live day"),
    (&["gasday", "text", "a.db"], "text"),
    (&["gasday", "migrate", "a.db"], "migrate"),
    (&["gasday", "audit"], "usage"),
    (&["gasday", "audit", "a.db", "b.db"], "usage"),
    (&["gasday", "migrate"], "usage"),
    (&["gasday", "text"], "usage"),
    (
        &["gasday", "day", "--book", "a.db", "--archive", "b.db"],
        "usage",
    ),
    (&["gasday", "audit", "--help"], "help of audit"),
    (&["gasday", "migrate", "--help"], "help of migrate"),
    (&["gasday", "text", "--help"], "help of text"),
    (&["gasday", "office", "--archive", "a.db"], "usage"),
    (&["gasday", "day", "--strict"], "StrictDay"),
    (&["gasday", "day", "--strict", "--book", "a.db"], "usage"),
    (
        &["gasday", "day", "--strict", "--archive", "a.db"],
        "strict archived day",
    ),
    (&["gasday", "office", "--strict"], "strict office"),
    (&["gasday", "nonsense"], "usage"),
    (&["gasday", ""], "usage"),
    (&["gasday", "Check", "allowed"], "usage"),
    (&["gasday", "allowed"], "usage"),
    (&["gasday", "check"], "usage"),
    (&["gasday", "check", "all"], "usage"),
    (
        &["gasday", "check", "allowed", "allowed"],
        "CheckAllowed of allowed",
    ),
    (
        &["gasday", "check", "q.csv", "a.csv"],
        "answer of q.csv and a.csv",
    ),
    (&["gasday", "check", "all", "-"], "answer of all and -"),
    (&["gasday", "check", "all", "a.csv", "b.csv"], "usage"),
    (&["gasday", "--nonsense"], "usage"),
    (&["gasday", "check", "--nonsense"], "usage"),
    (&["gasday", "check", "allowed", "--nonsense"], "usage"),
];

/// The name of an order on the file a.db, and else nothing.
fn order_name(alloc: Global, order: Order<'_>) -> Result<String, AllocError> {
    let name = match order {
        Order::Text(command) => return format!(in alloc; "{command:?}"),
        Order::CheckAnswer => "answer",
        Order::Office { is_strict: false } => "office",
        Order::Office { is_strict: true } => "strict office",
        Order::ArchivedDay {
            file: "a.db",
            is_strict: false,
        } => "archived day",
        Order::ArchivedDay {
            file: "a.db",
            is_strict: true,
        } => "strict archived day",
        Order::LiveDay("a.db") => "live day",
        Order::BookText("a.db") => "text",
        Order::Question {
            file: "a.db",
            cycle: 3,
            round: Some(2),
        } => "question",
        Order::Carry("a.db") => "carry",
        Order::Audit("a.db") => "audit",
        Order::AuditEach("a.db") => "audit of each",
        Order::Migrate("a.db") => "migrate",
        _ => "another file",
    };
    String::from_str(alloc, name)
}

/// An order and the files that it reads, in words.
fn request_name(rt: &HostRuntime, request: &Request<'_>) -> Result<String, AllocError> {
    let order = order_name(rt.alloc(), request.order)?;
    match request.texts.as_slice() {
        [] => Ok(order),
        [text] => format!(in rt.alloc(); "{order} of {text}"),
        [text, another] => format!(in rt.alloc(); "{order} of {text} and {another}"),
        _ => format!(in rt.alloc(); "{order} of many"),
    }
}

/// The kind of the answer, with its text, or None where memory is short.
fn told(rt: &HostRuntime, words: &[&str]) -> Option<(String, String)> {
    let alloc = rt.alloc();
    let (kind, text) = match request_of(alloc, words) {
        Ok(request) => return Some((request_name(rt, &request).ok()?, String::new(alloc))),
        Err(UsageFault::Help(text)) => ("help", text),
        Err(UsageFault::Version(text)) => ("version", text),
        Err(UsageFault::Usage(text)) => ("usage", text),
        Err(UsageFault::OutOfMemory) => return None,
    };
    Some((String::from_str(alloc, kind).ok()?, text))
}

/// Whether an answer is the one that is wanted. Of help it is told by its text whose help it is.
fn is_wanted(wanted: &str, answer: &str) -> bool {
    answer == wanted || answer == "help" && wanted.starts_with(answer)
}

fn reads_well(answer: &str, text: &str) -> bool {
    match answer {
        "help of solve" => {
            text.contains("\n  gasday solve < examples/solve/question.csv\n")
                && text.ends_with('\n')
        }
        "help of calendar" => {
            text.contains("\n  gasday calendar < examples/gas-day.csv\n") && text.ends_with('\n')
        }
        "help of day" => {
            text.contains("\n  gasday day < examples/gas-day/two-cycles.csv\n")
                && text.ends_with('\n')
        }
        "help of office" => {
            text.contains("\n  gasday office < examples/office/two-books.csv\n")
                && text.ends_with('\n')
        }
        "help of audit" => text.contains("\n  gasday audit postings.db\n") && text.ends_with('\n'),
        "help of text" => text.contains("\n  gasday text 0308.book\n") && text.ends_with('\n'),
        "help of migrate" => {
            text.contains("\n  gasday migrate postings.db\n") && text.ends_with('\n')
        }
        "help" => {
            text.contains("'check allowed'")
                && text.contains("\n  gasday check allowed < examples/two-lines.csv\n")
                && text.ends_with('\n')
        }
        "version" => text.starts_with("gasday 1.") && text.ends_with('\n'),
        "usage" => text.starts_with("error: ") && text.ends_with(" try '--help'.\n"),
        _ => text.is_empty(),
    }
}

#[test]
fn each_line_has_its_answer(rt: HostRuntime) -> Result<(), Fail> {
    for (words, wanted) in LINES {
        let (answer, text) = told(&rt, words).ok_or("out of memory")?;
        assert!(rt; is_wanted(wanted, answer.as_str()));
        assert!(rt; reads_well(wanted, text.as_str()));
    }
    Ok(())
}

#[test]
fn a_fault_is_shown_by_its_text(rt: HostRuntime) -> Result<(), Fail> {
    let alloc = rt.alloc();
    let Err(fault) = request_of(alloc, &["gasday", "check", "all"]) else {
        return Err(Fail::from("there is no such check"));
    };
    let shown = fault.to_string(alloc)?;
    assert!(rt;
        shown
            .as_str()
            .starts_with("error: invalid value 'all' for '<WHAT>'\n"),
        "{shown}"
    );
    assert_eq!(rt;
        UsageFault::OutOfMemory.to_string(alloc)?.as_str(),
        "error: out of memory\n"
    );
    Ok(())
}
