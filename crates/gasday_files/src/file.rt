//! The file that an order names: an archive's, or a book's.

ghost use Rattle.std.specs.Prelude.{◌≡◌, [], true, Ok, IfOk, IfErr, IfSome, IsTrue};
ghost use Rattle.sqlite.specs.Opening.{is_open_error};
ghost use Rattle.gasday_words.specs.Ordered.{seen};
ghost use Rattle.gasday_files.specs.Closing.{Closes};
ghost use Rattle.gasday_files.specs.Opening.{FindsAs};
ghost use Rattle.gasday_files.specs.Named.{IsOn};

use crate::told::{tell_cause, tell_unopened};
use gasday_words::Order;
use gd_archive::Opener;
use sqlite::{Connection, Error, ErrorCode, FileStore, Unknown};
use sqlite_disk::{Disk, Start};
use sqlite_std_file::FileFrom;
use std::alloc::AllocError;
use std::fs::{File, canonicalize, metadata};
use std::io;
use std::io::{ErrorKind, Read};
use std::thread::sleep;
use std::time::Duration;

/// Stands for what a file and its log hold as they are opened, for the program to name. No code can read that beforehand, so what is
/// proved of files is proved of functions over any `Start`. This one's contents are empty, as those of the kit's `Unknown` are, which
/// can't be copied: at it a clause on values says nothing of a file that has something. A torn write is supposed to leave each byte
/// old or new.
#[derive(Clone, Copy, Drop)]
pub struct AsFound;

impl Start for AsFound {
    ghost log = { [] };

    ghost db = { [] };

    ghost is_mixing = { true };

    fn mixes() -> bool {
        true
    }
}

/// The file that an order names.
#[derive(Drop)]
pub struct NamedFile<'a, F: Start + Copy> {
    pub rt: &'a HostRuntime,
    pub order: Order<'a>,
    /// For how many seconds it is tried again where another process has it.
    pub wait: u32,
    /// Stands for what the file and its log hold.
    pub found: F,
}

/// How often a second a file is tried that another process has, and the milliseconds from one try to the next.
const TRIES: u64 = 10;

const PAUSE: u64 = 100;

impl<'a, F: Start + Copy> NamedFile<'a, F> {
    /// The name of a file that isn't one of another kind, or people are told that it is. Such a file isn't opened, since SQLite, which
    /// would refuse it, would leave an empty log beside it.
    fn unless_foreign(&self, file: &'a str) -> Option<&'a str>
        ensures { IfSome result (λ name. name.now ≡ file.now) }
    {
        if let Ok(true) = is_foreign(self.rt, file) {
            tell_unopened(
                self.rt,
                file,
                "it is no database, and so neither an archive nor the file of a book",
            );
            return None;
        }
        Some(file)
    }

    /// The name of a file that is there and has something, or people are told what is wrong with it.
    fn present(&self, file: &'a str) -> Option<&'a str>
        ensures { IfSome result (λ name. name.now ≡ file.now) }
    {
        match metadata(self.rt, file) {
            Ok(found) if found.is_dir() => tell_unopened(self.rt, file, "it is a folder"),
            Ok(found) if found.len() == 0 => tell_unopened(self.rt, file, "it is empty"),
            Ok(_) => return self.unless_foreign(file),
            Err(error) => tell_cause(self.rt, file, error.to_string(self.rt.alloc())),
        }
        None
    }

    /// The name of the file. A gas day makes it where there is none; who audits, migrates, prints or asks one names one that is there.
    fn name(&self) -> Option<&'a str>
        ensures { IfSome result (λ name. IsOn (seen self.now.order) name.now) }
    {
        match self.order {
            Order::Text(_)
            | Order::CheckAnswer
            | Order::Office { .. }
            | Order::ArchivedDay { file: "", .. }
            | Order::LiveDay("") => None,
            Order::ArchivedDay { file, .. } | Order::LiveDay(file) => self.unless_foreign(file),
            Order::Audit(file)
            | Order::AuditEach(file)
            | Order::Migrate(file)
            | Order::BookText(file)
            | Order::Question { file, .. }
            | Order::Carry(file) => self.present(file),
        }
    }

    /// Opens the file; `None` where another process has it, and then nothing of it is left open.
    fn tried(&self, name: &str) -> Result<Option<Connection<FileStore<FileFrom<F>>>>, Error>
        ensures ok { IfOk result (λ file. IfSome file (λ file. FindsAs F.Start (Ok file))) }
        ensures err { IfErr result (λ error. IsTrue (is_open_error error)) }
    {
        match Connection::open_from(self.rt, name, false, self.found) {
            Ok(file) => Ok(Some(file)),
            Err((Error::SqliteFailure(ErrorCode::DatabaseBusy), None)) => Ok(None),
            Err((error, left)) => {
                drop(left);
                Err(error)
            }
        }
    }

    /// Opens the file, as soon as no other process has it, if it waits so long.
    fn opened(&self, name: &str) -> Result<Connection<FileStore<FileFrom<F>>>, Error>
        ensures { FindsAs F.Start result }
    {
        'tries: for _ in 0..u64::from(self.wait) * TRIES {
            if let Some(file) = self.tried(name)? {
                return Ok(file);
            }
            sleep(self.rt, Duration::from_millis(PAUSE));
        }
        match self.tried(name)? {
            Some(file) => Ok(file),
            None => Err(Error::SqliteFailure(ErrorCode::DatabaseBusy)),
        }
    }

    /// Tells people why the file can't be opened.
    fn tell_why(&self, name: &str, error: &Error) {
        match (metadata(self.rt, name), error) {
            (_, Error::SqliteFailure(ErrorCode::DatabaseBusy)) => tell_unopened(
                self.rt,
                name,
                "another process has it; it is free again once that has ended",
            ),
            (Ok(found), _) if found.is_dir() => tell_unopened(self.rt, name, "it is a folder"),
            _ => tell_cause(self.rt, name, cause(self.rt, name, error)),
        }
    }
}

/// Why a file can't be opened as a database, which sqlite refused with this error: what the system says of it, if that refuses it.
fn cause(rt: &HostRuntime, name: &str, error: &Error) -> Result<String, AllocError> {
    match sqlite_std_file::open(rt, name, Unknown) {
        Err(refused) => refused.to_string(rt.alloc()),
        Ok(_) => error.to_string(rt.alloc()),
    }
}

impl<'a, F: Start + Copy> Opener<FileStore<FileFrom<F>>> for NamedFile<'a, F> {
    // What a file holds. Which file that is, and why it can't be opened, are left open.
    ghost opens = { λ file opened. FindsAs F.Start opened };

    fn open(self) -> Result<Connection<FileStore<FileFrom<F>>>, Error> {
        let Some(name) = self.name() else {
            return Err(Error::SqliteFailure(ErrorCode::CannotOpen));
        };
        match self.opened(name) {
            Ok(conn) => Ok(conn),
            Err(error) => {
                self.tell_why(name, &error);
                Err(error)
            }
        }
    }
}

/// The bytes with which each database of SQLite begins.
const MAGIC: [u8; 16] = *b"SQLite format 3\0";

/// Whether a file is a database of SQLite, or why it can't be read.
pub(crate) fn is_database(rt: &HostRuntime, name: &str) -> io::Result<bool> {
    let mut head = [0; 16];
    match File::open(rt, name)?.read_exact(&mut head) {
        Ok(()) => Ok(head == MAGIC),
        Err(error) if error.kind() == ErrorKind::UnexpectedEof => Ok(false),
        Err(error) => Err(error),
    }
}

/// Whether a file has something and is no database, nor made one by a log beside it. `Ok(false)` of a device or a pipe.
fn is_foreign(rt: &HostRuntime, name: &str) -> io::Result<bool> {
    if metadata(rt, name)?.len() == 0 || is_database(rt, name)? {
        return Ok(false);
    }
    let path = canonicalize(rt, name)?;
    let log = format!(in rt.alloc(); "{}-wal", path.as_str())?;
    match metadata(rt, log.as_str()) {
        Ok(_) => Ok(false),
        Err(error) => Ok(error.kind() == ErrorKind::NotFound),
    }
}

/// Closes a file that was opened, and copies its log into it. Where that fails both stay, and what was kept stands in the log.
pub(crate) fn close_file<D: Disk + Drop>(
    file: Option<Connection<FileStore<D>>>,
) -> Result<(), Error>
    ensures { Closes D.Disk file result }
{
    let Some(file) = file else {
        return Ok(());
    };
    match file.close_files() {
        Ok(files) => {
            drop(files);
            Ok(())
        }
        Err((error, store)) => {
            drop(store.close());
            Err(error)
        }
    }
}
