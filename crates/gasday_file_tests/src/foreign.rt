//! Files of other tables, of which no call makes a journal.

use crate::changed::Changing;
use crate::disks::{Work, are_same, behind, copied, new_disks};
use crate::pieces::{FIRST, append, count, is_one, make};
use gd_journal_store::{StoreFault, pieces};
use sqlite::{Alter, Connection};
use std::alloc::Global;
use std::process::Abort;
use std::thread::Threads;

/// Tables that differ in one thing from a journal's, and a journal's with something beside it.
const OTHERS: &[&str] = &[
    "CREATE TABLE piece (number INTEGER PRIMARY KEY, rows BLOB NOT NULL, told BLOB NOT NULL, at INTEGER)",
    "CREATE TABLE piece (number INTEGER PRIMARY KEY, rows BLOB NOT NULL)",
    "CREATE TABLE piece (number INTEGER PRIMARY KEY, told BLOB NOT NULL, rows BLOB NOT NULL)",
    "CREATE TABLE piece (number INTEGER PRIMARY KEY, rows BLOB NOT NULL, says BLOB NOT NULL)",
    "CREATE TABLE pieces (number INTEGER PRIMARY KEY, rows BLOB NOT NULL, told BLOB NOT NULL)",
    "CREATE TABLE piece (number INTEGER PRIMARY KEY, rows TEXT NOT NULL, told BLOB NOT NULL)",
    "CREATE TABLE piece (number INTEGER PRIMARY KEY, rows BLOB NOT NULL, told BLOB)",
    "CREATE TABLE piece (number INTEGER PRIMARY KEY, rows BLOB NOT NULL, told BLOB NOT NULL DEFAULT '')",
    "CREATE TABLE piece (number INT PRIMARY KEY, rows BLOB NOT NULL, told BLOB NOT NULL)",
    "CREATE TABLE piece (number INTEGER PRIMARY KEY AUTOINCREMENT, rows BLOB NOT NULL, told BLOB NOT NULL)",
    "CREATE TABLE piece (number INTEGER PRIMARY KEY, rows BLOB NOT NULL UNIQUE, told BLOB NOT NULL)",
    "CREATE TABLE piece (number INTEGER PRIMARY KEY, rows BLOB NOT NULL, told BLOB NOT NULL, CHECK (number > 0))",
    "CREATE TABLE piece (number INTEGER PRIMARY KEY, rows BLOB NOT NULL, told BLOB NOT NULL) STRICT",
    "CREATE TABLE archive (one INTEGER PRIMARY KEY CHECK (one = 1), version INTEGER NOT NULL)",
    "CREATE TABLE piece (number INTEGER PRIMARY KEY, rows BLOB NOT NULL, told BLOB NOT NULL);
CREATE INDEX by_rows ON piece (rows)",
    "CREATE TABLE piece (number INTEGER PRIMARY KEY, rows BLOB NOT NULL, told BLOB NOT NULL);
CREATE VIEW numbers AS SELECT number FROM piece",
    "CREATE TABLE piece (number INTEGER PRIMARY KEY, rows BLOB NOT NULL, told BLOB NOT NULL);
CREATE TABLE note (text TEXT)",
];

/// Texts that lay out a journal's table in another way.
const SAME: [&str; 2] = [
    "create table piece(number integer primary key,rows blob not null,told blob not null);",
    "CREATE TABLE piece (\n  number INTEGER PRIMARY KEY, -- 1, 2, 3 and so on\n  rows BLOB NOT NULL,\n  told BLOB NOT NULL\n);",
];

/// Finds that the file is no journal, by each call.
#[derive(Drop)]
struct FindingOthers;

impl Work for FindingOthers {
    fn is_well<T: Threads + Sync, S: Alter>(
        &mut self,
        _rt: &T,
        alloc: Global,
        conn: &mut Connection<S>,
    ) -> bool {
        !is_one(conn)
            && matches!(make(conn), Err(StoreFault::NotAJournal))
            && matches!(append(conn, 1, FIRST), Err(StoreFault::NotAJournal))
            && matches!(count(conn), Err(StoreFault::NotAJournal))
            && matches!(pieces(conn, alloc, 0, 0), Err(StoreFault::NotAJournal))
    }
}

/// Finds a journal, and appends to it.
#[derive(Drop)]
struct FindingOne;

impl Work for FindingOne {
    fn is_well<T: Threads + Sync, S: Alter>(
        &mut self,
        _rt: &T,
        _alloc: Global,
        conn: &mut Connection<S>,
    ) -> bool {
        is_one(conn) && make(conn).is_ok() && append(conn, 1, FIRST).is_ok()
    }
}

/// The file that these texts make is refused as a journal, and left as it is.
fn is_refused(rt: &(impl Threads + Sync + Abort), alloc: Global, tables: &str) {
    let made = behind(rt, alloc, new_disks(alloc, u64::MAX), &mut Changing(tables));
    let found = behind(rt, alloc, copied(rt, alloc, &made), &mut FindingOthers);
    assert!(rt; are_same(&found, &made), "{tables}");
}

/// The file that this text makes is a journal.
fn is_taken(rt: &(impl Threads + Sync + Abort), alloc: Global, table: &str) {
    let made = behind(rt, alloc, new_disks(alloc, u64::MAX), &mut Changing(table));
    behind(rt, alloc, made, &mut FindingOne);
}

#[test]
fn other_tables_are_refused(rt: HostRuntime) {
    for tables in OTHERS {
        is_refused(&rt, rt.alloc(), tables);
    }
}

/// A file in which others made the same table is a journal.
#[test]
fn the_same_table_is_taken(rt: HostRuntime) {
    for table in SAME {
        is_taken(&rt, rt.alloc(), table);
    }
}
