//! How an order ends: its file is closed, and people are told why it didn't end well.

ghost use Rattle.std.specs.Prelude.{◌≡◌};
ghost use Rattle.gasday_words.specs.Ordered.{seen};
ghost use Rattle.gasday_files.specs.Closing.{Exits, status_closed};

use crate::file::close_file;
use crate::ran::{Ended, Ran};
use crate::told::{Course, tell_course, tell_unclosed, tell_unread, tell_unwritten, tell_why};
use gasday_words::Order;
use gd_replies::Reply;
use sqlite::{Error, FileStore};
use sqlite_disk::Disk;
use std::io;

/// The exit status of an order whose file is closed so: 2 where what it kept or migrated is not in the file, which people are told.
fn closed(rt: &HostRuntime, order: Order<'_>, closed: Result<(), Error>, status: u8) -> u8
    ensures { result ≡ status_closed (seen order.entry) closed status }
{
    match (order, closed) {
        (Order::ArchivedDay { .. } | Order::LiveDay(_) | Order::Migrate(_), Err(error)) => {
            tell_unclosed(rt, &error);
            2
        }
        _ => status,
    }
}

/// Whether all that an archive had is what was published, of which a strict gas day takes no account.
fn is_repeated(order: Order<'_>, course: &Option<Course>) -> bool {
    match (order, course) {
        (
            Order::ArchivedDay {
                is_strict: true,
                ..
            },
            Some(course),
        ) => course.is_repeated(),
        _ => false,
    }
}

/// Closes the file of an order that has ended, tells people what a gas day came to, or why the order didn't end well, and answers the
/// exit status. Why its answer could not be written is given, if it is so.
pub fn end<D: Disk + Drop>(
    rt: &HostRuntime,
    order: Order<'_>,
    ended: Ended<'_, FileStore<D>>,
    unwritten: Option<&io::Error>,
) -> u8
    ensures { Exits D.Disk (seen order.entry) ended.entry.ran.file ended.entry.ran.status result }
{
    let Ended { ran, text, unread } = ended;
    let Ran {
        status,
        last,
        file,
        course,
    } = ran;
    let is_unopened = file.is_none();
    let status = closed(rt, order, close_file(file), status);
    match (unwritten, &course) {
        (None, Some(course)) => tell_course(rt, course),
        _ => {}
    }
    match (unwritten, &unread, last) {
        (Some(error), ..) => tell_unwritten(rt, error),
        (None, Some(unread), _) => tell_unread(rt, order, unread),
        // (Whoever couldn't open the file has told why.)
        (None, None, Some(Reply::Store | Reply::Busy)) if is_unopened => {}
        // (What the course came to is told.)
        (None, None, Some(Reply::Reconciled { .. })) => {}
        (None, None, Some(Reply::Kept)) if is_repeated(order, &course) => {}
        (None, None, Some(last)) if status != 0 => tell_why(rt, order, &text, &last),
        _ => {}
    }
    status
}
