//! Kept postings, and the calls on them. None of these has a clause, so that the proof of a test carries no database from one
//! call to the next.

use gd_archive::{
    AuditFault, Bumps, FetchFault, Finding, KeepFault, MigrateFault, Rule, StoreFault, Summary,
};
use gd_board::Posting;
use gd_body::{body_of, read_body};
use gd_units::{CycleNo, Name};
use sqlite::{Alter, Connection, Error, params};
use std::alloc::Global;
use std::test::Fail;

/// Timely of a day on which one interruptible line is asked, with no price.
pub(crate) const TIMELY: &str = "segment,S1,A,B,100,,,
point,R1,receipt,A,OPR,1000,,
point,D1,delivery,B,OPD,1000,,
question,DEMO,1,1,,,,
line,R1,D1,4,0,70,,
sched,1,70,,,,,
";

/// Evening of that day, in which a firm line bumps the first one, with a price by classes alone.
pub(crate) const EVENING: &str = "segment,S1,A,B,100,,,
point,R1,receipt,A,OPR,1000,,
point,D1,delivery,B,OPD,1000,,
question,DEMO,2,2,,,,
line,R1,D1,4,0,70,,
line,R1,D1,1,0,50,,
sched,1,50,,,,,
sched,2,50,,,,,
price,S1,4,1,,,,
bumped,1,20,,,,,
";

/// Cycle 4 of another day, at a lowered capacity, with a price whose second word spreads the shortage.
pub(crate) const INTRADAY_2: &str = "segment,S1,A,B,100,,,
point,R1,receipt,A,OPR,1000,,
point,D1,delivery,B,OPD,1000,,
question,DEMO,4,5,,,,
capacity,S1,60,,,,,
line,R1,D1,1,0,80,,
sched,1,60,,,,,
price,S1,1,1,-8,,,
bumped,1,20,,,,,
";

/// The tables of version 1, with its number.
const VERSION_1: &str =
    "CREATE TABLE archive (one INTEGER PRIMARY KEY CHECK (one = 1), version INTEGER NOT NULL);
CREATE TABLE posting (book TEXT NOT NULL, cycle INTEGER NOT NULL, round INTEGER NOT NULL, body BLOB NOT NULL, PRIMARY KEY (book, cycle));
INSERT INTO archive (one, version) VALUES (1, 1)";

/// An archive as version 1 kept the two postings.
pub(crate) fn make_version_1<S: Alter>(conn: &mut Connection<S>) -> Result<(), Error> {
    conn.execute_batch(VERSION_1)?;
    enter(conn, 1, TIMELY)?;
    enter(conn, 2, EVENING)
}

/// Enters a body in version 1's table, with its cycle as its round.
fn enter<S: Alter>(conn: &mut Connection<S>, cycle: i64, body: &str) -> Result<(), Error> {
    conn.execute(
        "INSERT INTO posting (book, cycle, round, body) VALUES ('DEMO', ?1, ?1, ?2)",
        params![cycle, body.as_bytes()],
    )?;
    Ok(())
}

/// The number that a query answers.
pub(crate) fn number<S: Alter>(conn: &mut Connection<S>, query: &str) -> Result<i64, Error> {
    conn.query_row(query, &[])?.get(0)
}

pub(crate) fn make<S: Alter>(conn: &mut Connection<S>) -> Result<(), StoreFault> {
    gd_archive::make(conn)
}

pub(crate) fn posting(alloc: Global, body: &str) -> Result<Posting, Fail> {
    read_body(alloc, body.as_bytes()).map_err(|_| "a body is damaged".into())
}

pub(crate) fn keep<S: Alter>(
    conn: &mut Connection<S>,
    alloc: Global,
    posting: &Posting,
) -> Result<(), KeepFault> {
    gd_archive::keep(conn, alloc, posting)
}

/// The rule and the body of what is kept of DEMO in a cycle.
pub(crate) fn fetched<S: Alter>(
    conn: &mut Connection<S>,
    alloc: Global,
    cycle: u8,
) -> Result<Option<(Rule, Vec<u8>)>, FetchFault> {
    let (Some(book), Some(cycle)) = (Name::read("DEMO").ok(), CycleNo::new(cycle)) else {
        return Ok(None);
    };
    match gd_archive::fetch(conn, alloc, book, cycle)? {
        Some((rule, posting)) => match body_of(alloc, &posting) {
            Ok(body) => Ok(Some((rule, body))),
            Err(_) => Err(FetchFault::Damaged),
        },
        None => Ok(None),
    }
}

pub(crate) fn audit<S: Alter>(conn: &mut Connection<S>, alloc: Global) -> Result<u64, AuditFault> {
    gd_archive::audit(conn, alloc)
}

/// Whether this is cycle 4 of the other day in numbers.
fn is_intraday_2(summary: Summary) -> bool {
    summary.cycle.number() == 4
        && summary.round.number() == 5
        && summary.rule == Rule::Spread
        && summary.lines == 1
        && summary.quantity == 60
}

/// Whether an audit of each posting finds cycle 4 of the other day alone, with nothing beside which its bumped line could be held.
pub(crate) fn finds_intraday_2<S: Alter>(conn: &mut Connection<S>, alloc: Global) -> bool {
    let Ok(findings) = gd_archive::audit_each(conn, alloc) else {
        return false;
    };
    match findings.as_slice() {
        [Finding::Sound(summary, Bumps::Unchecked)] => is_intraday_2(*summary),
        _ => false,
    }
}

pub(crate) fn migrate<S: Alter>(
    conn: &mut Connection<S>,
    alloc: Global,
) -> Result<u64, MigrateFault> {
    gd_archive::migrate(conn, alloc)
}
