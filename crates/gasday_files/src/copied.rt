//! A copy in memory of a file that an order only reads, and that may not be written: one on a read-only medium, say.

ghost use Rattle.std.specs.Prelude.{IfOk, IfSome, IsTrue};
ghost use Rattle.sqlite_disk.specs.Memory.{memory_is_usable};
ghost use Rattle.sqlite.specs.Files.{Finds, file_state};
ghost use Rattle.sqlite.specs.State.{HasCleanDisk};
ghost use Rattle.gasday_words.specs.Ordered.{seen};
ghost use Rattle.gasday_files.specs.Opening.{FindsCopy};
ghost use Rattle.gasday_files.specs.Named.{OnlyReads};

use crate::file::is_database;
use crate::told::tell_cause;
use gasday_words::Order;
use gd_archive::Opener;
use sqlite::{Connection, Error, ErrorCode, FileStore, Files, Options, Unknown};
use sqlite_disk::{Disk, Memory};
use sqlite_std_file::OpenError;
use std::alloc::Global;
use std::fs::{File, canonicalize, metadata};
use std::hash::{BuildHasher, RandomState};
use std::io;
use std::io::{ErrorKind, Read};
use std::time::SystemTime;

/// Whether a database can't be opened since it, or its log beside it, may not be written.
fn may_not_be_written(rt: &HostRuntime, name: &str) -> bool {
    match sqlite_std_file::open(rt, name, Unknown) {
        Err(OpenError::Io(error)) => matches!(
            error.kind(),
            ErrorKind::PermissionDenied | ErrorKind::ReadOnlyFilesystem
        ),
        _ => false,
    }
}

/// The file that an order only reads, if it only reads one.
fn only_read(order: Order<'_>) -> Option<&str>
    ensures { IfSome result (λ name. OnlyReads (seen order.entry) name.now) }
{
    match order {
        Order::Audit(file)
        | Order::AuditEach(file)
        | Order::BookText(file)
        | Order::Question { file, .. }
        | Order::Carry(file) => Some(file),
        _ => None,
    }
}

/// The database that an order only reads, where it may not be written.
pub fn unwritable<'a>(rt: &HostRuntime, order: Order<'a>) -> Option<&'a str>
    ensures { IfSome result (λ name. OnlyReads (seen order.entry) name.now) }
{
    let file = only_read(order)?;
    match is_database(rt, file) {
        Ok(true) if may_not_be_written(rt, file) => Some(file),
        _ => None,
    }
}

/// What shows that a file was written since: its length, and when it last was. `None` of a file that isn't there.
fn stamp(rt: &HostRuntime, name: &str) -> io::Result<Option<(u64, SystemTime)>> {
    match metadata(rt, name) {
        Ok(found) => Ok(Some((found.len(), found.modified()?))),
        Err(error) if error.kind() == ErrorKind::NotFound => Ok(None),
        Err(error) => Err(error),
    }
}

/// A file in memory with these bytes.
fn in_memory(alloc: Global, bytes: &[u8]) -> io::Result<Memory>
    ensures { IfOk result (λ m. IsTrue (memory_is_usable m)) }
{
    let mut memory = Memory::new(alloc);
    if !bytes.is_empty() {
        memory.write_at(0, bytes)?;
    }
    Ok(memory)
}

/// A file in memory with what this one has, or with nothing where it isn't there.
fn copy(rt: &HostRuntime, name: &str) -> io::Result<Memory>
    ensures { IfOk result (λ m. IsTrue (memory_is_usable m)) }
{
    let mut bytes = Vec::new(rt.alloc());
    match File::open(rt, name) {
        Ok(mut file) => {
            file.read_to_end(&mut bytes)?;
        }
        Err(error) if error.kind() == ErrorKind::NotFound => {}
        Err(error) => return Err(error),
    }
    in_memory(rt.alloc(), bytes.as_slice())
}

/// A database in memory with what this one has, whose log lies where a link leads. It is refused where somebody wrote it meanwhile,
/// or where SQLite left a journal beside it, which only SQLite can play back.
fn copy_of(rt: &HostRuntime, name: &str) -> io::Result<Files<Memory>>
    ensures { IfOk result (λ f. IsTrue (memory_is_usable f.log) × IsTrue (memory_is_usable f.db)) }
{
    let path = canonicalize(rt, name)?;
    let db = path.as_str();
    let log = format!(in rt.alloc(); "{db}-wal")?;
    let journal = format!(in rt.alloc(); "{db}-journal")?;
    let before = (stamp(rt, db)?, stamp(rt, log.as_str())?);
    if stamp(rt, journal.as_str())?.is_some() {
        return Err(ErrorKind::Unsupported.into());
    }
    let files = Files {
        log: copy(rt, log.as_str())?,
        db: copy(rt, db)?,
    };
    if before != (stamp(rt, db)?, stamp(rt, log.as_str())?) {
        return Err(ErrorKind::ResourceBusy.into());
    }
    Ok(files)
}

/// Opens a database in memory.
fn opened(
    alloc: Global,
    files: Files<Memory>,
    seed: u64,
) -> Result<Connection<FileStore<Memory>>, Error>
    requires log { IsTrue (memory_is_usable files.log) }
    requires db { IsTrue (memory_is_usable files.db) }
    ensures found { IfOk result (λ file. HasCleanDisk (file_state file) → Finds files file) }
    ensures copy { FindsCopy result }
{
    match Connection::open_files(alloc, files, Options::new(seed)) {
        Ok(conn) => Ok(conn),
        Err((error, left)) => {
            drop(left);
            Err(error)
        }
    }
}

/// A number drawn at random, or 0 where none can be drawn.
fn seed(rt: &HostRuntime) -> u64 {
    match RandomState::new(rt) {
        Ok(state) => state.hash_one(&0u8),
        Err(_) => 0,
    }
}

/// The copy of a database of this name.
#[derive(Drop)]
pub struct CopiedFile<'a> {
    pub rt: &'a HostRuntime,
    pub name: &'a str,
}

impl<'a> Opener<FileStore<Memory>> for CopiedFile<'a> {
    // What the copy holds. That it is one of the file, and why there is none, are left open.
    ghost opens = { λ file opened. FindsCopy opened };

    fn open(self) -> Result<Connection<FileStore<Memory>>, Error> {
        let alloc = self.rt.alloc();
        match copy_of(self.rt, self.name) {
            Ok(files) => {
                let conn = opened(alloc, files, seed(self.rt));
                if let Err(error) = &conn {
                    tell_cause(self.rt, self.name, error.to_string(alloc));
                }
                conn
            }
            Err(error) => {
                tell_cause(self.rt, self.name, error.to_string(alloc));
                Err(Error::SqliteFailure(ErrorCode::CannotOpen))
            }
        }
    }
}
