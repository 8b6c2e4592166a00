//! Runs on a file, audits of it, and what is printed of it.

use crate::disks::{Disks, Work, behind};
use crate::streams::{End, ShortWriter, writer_of};
use gasday_live::{Witness, audit_book, print_book, serve_book};
use gasday_part::write_answer;
use gd_rounds::Lateness;
use sqlite::{Alter, Connection};
use std::alloc::Global;
use std::io::Read;
use std::process::Abort;
use std::thread::Threads;

/// Serves three parts of an input, each by a read of its own, and has what was told and the exit status.
#[derive(Drop)]
pub(crate) struct Service<'a> {
    parts: [&'a [u8]; 3],
    end: End,
    pub(crate) writer: ShortWriter,
    pub(crate) status: u8,
}

/// A witness who looks at nothing.
#[derive(Drop)]
struct Nobody;

impl Witness for Nobody {
    fn see(&mut self, _number: usize, _lateness: Lateness) {}
}

/// Serves parts and an end, to a writer that takes so many bytes.
pub(crate) fn serving(alloc: Global, parts: [&[u8]; 3], end: End, most: usize) -> Service<'_> {
    Service {
        parts,
        end,
        writer: writer_of(alloc, most),
        status: 255,
    }
}

impl<'a> Work for Service<'a> {
    fn is_well<T: Threads + Sync, S: Alter>(
        &mut self,
        rt: &T,
        alloc: Global,
        conn: &mut Connection<S>,
    ) -> bool {
        let [first, second, third] = self.parts;
        let lines = first.chain(second).chain(third).chain(self.end);
        self.status = serve_book(rt, alloc, conn, lines, &mut self.writer, Nobody).status;
        true
    }
}

/// Makes all calls of a file again, and finds one of these rows told.
#[derive(Drop)]
pub(crate) struct Auditing<'a>(pub(crate) &'a [&'a [u8]]);

/// What an audit tells.
fn audited<S: Alter>(
    rt: &(impl Threads + Sync),
    alloc: Global,
    conn: &mut Connection<S>,
) -> Vec<u8> {
    let mut row = Vec::new(alloc);
    let answer = audit_book(rt, alloc, conn);
    write_answer(alloc, &mut row, &answer);
    row
}

impl<'a> Work for Auditing<'a> {
    fn is_well<T: Threads + Sync, S: Alter>(
        &mut self,
        rt: &T,
        alloc: Global,
        conn: &mut Connection<S>,
    ) -> bool {
        let row = audited(rt, alloc, conn);
        self.0.contains(&row.as_slice())
    }
}

/// Prints the text that a file keeps, and has it and the exit status.
#[derive(Drop)]
pub(crate) struct Print {
    pub(crate) writer: ShortWriter,
    pub(crate) status: u8,
}

/// Prints to a writer that takes so many bytes.
pub(crate) fn printing(alloc: Global, most: usize) -> Print {
    Print {
        writer: writer_of(alloc, most),
        status: 255,
    }
}

impl Work for Print {
    fn is_well<T: Threads + Sync, S: Alter>(
        &mut self,
        _rt: &T,
        alloc: Global,
        conn: &mut Connection<S>,
    ) -> bool {
        self.status = print_book(alloc, conn, &mut self.writer).status;
        true
    }
}

/// Serves parts of an input that ends so, and wants this status, and told are these bytes, one behind the other.
pub(crate) fn serves(
    rt: &(impl Threads + Sync + Abort),
    alloc: Global,
    disks: Disks,
    input: ([&[u8]; 3], End),
    status: u8,
    told: (&[u8], &[u8]),
) -> Disks {
    let mut work = serving(alloc, input.0, input.1, 10_000);
    let disks = behind(rt, alloc, disks, &mut work);
    assert!(rt; work.status == status);
    assert!(rt; work.writer.got.as_slice().strip_prefix(told.0) == Some(told.1));
    disks
}

/// Audits a file, and wants this row told.
pub(crate) fn audits(
    rt: &(impl Threads + Sync + Abort),
    alloc: Global,
    disks: Disks,
    row: &[u8],
) -> Disks {
    behind(rt, alloc, disks, &mut Auditing(&[row]))
}
