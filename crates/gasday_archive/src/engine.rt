//! What an order is answered.

ghost use Rattle.gasday_words.specs.Ordered.{seen};
ghost use Rattle.gasday_archive.specs.Orders as orders;
ghost use Rattle.gasday_archive.specs.Runs.{OrNoMemory, Tells};

use crate::opened::{Outcome, tell_day, tell_migration};
use gasday_part::answer_of;
use gasday_words::{Command, Order};
use gd_archive::Opener;
use sqlite::Alter;
use std::alloc::Global;
use std::thread::Threads;

/// A command's answer, for which nothing is opened.
fn answer_command<S: Alter + Drop>(
    rt: &(impl Threads + Sync),
    alloc: Global,
    command: Command,
    text: &[u8],
) -> Outcome<S>
    ensures { Tells (OrNoMemory (orders.AnswersCommand command text.now) result.archive) result.answer }
{
    Outcome::unopened(answer_of(rt, alloc, command, text))
}

/// What an order is answered, and the archive that it opened: its exit status is 0 where the answer is good, 1 where a schedule,
/// a price or a cut is broken, a posting was kept before, a strict gas day didn't come to what is in order or an archive is not to be
/// migrated, and 2 after a fault of the text, the archive or memory. Who migrates reads no text.
///
/// The opener gives the archive of the order's FILE. It is called once at most, and only for an order with a FILE: for a gas day
/// only once its text and its calendar are good. What it gave comes back as it is left. It asks for an order other than
/// `office`, which waits for locks, and than those that check an answer, audit a file, or are on a book's, which answer no one text.
pub fn answer_to<S: Alter + Drop, O: Opener<S>>(
    rt: &(impl Threads + Sync),
    alloc: Global,
    order: Order<'_>,
    text: &[u8],
    opener: O,
) -> Outcome<S>
    requires { orders.IsAnswered (seen order) }
    ensures { Tells (orders.Answers S.Store (O.Opener.opens opener) (seen order.entry) text.now
        result.archive) result.answer }
{
    match order {
        Order::Text(command) => answer_command(rt, alloc, command, text),
        Order::ArchivedDay { is_strict, .. } => tell_day(rt, alloc, text, is_strict, opener),
        Order::Migrate(_) => tell_migration(alloc, opener.open()),
        Order::CheckAnswer
        | Order::Office { .. }
        | Order::Audit(_)
        | Order::AuditEach(_)
        | Order::LiveDay(_)
        | Order::BookText(_)
        | Order::Question { .. }
        | Order::Carry(_) => { unreachable!() }
    }
}
