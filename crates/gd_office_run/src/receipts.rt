//! The rows that tell the receipts of sessions.

ghost use Rattle.std.specs.Prelude.{◌≡◌, ◌++◌, ◌≤◌, ◌^◌, OnOk};
ghost use Rattle.gd_office_part.specs.Sending.{lists_of};
ghost use Rattle.gd_office_run.specs.Receipts as spec;

use gd_machine::{Event, Reply as BookReply};
use gd_office_part::{Receipt, Told};
use gd_replies::{Call, Reply};
use std::alloc::AllocError;

/// The call that makes an event, as rows name it.
fn call_of(event: &Event) -> Call
    ensures { result ≡ spec.call_of event.now }
{
    match event {
        Event::Nominate { .. } => Call::Nominate,
        Event::Respond { .. } => Call::Respond,
        Event::PostCapacity { .. } => Call::Post,
        Event::Freeze { .. } => Call::Freeze,
        Event::Publish { .. } | Event::Declare { .. } => Call::Settle,
        Event::Waive { .. } => Call::Waive,
        Event::Skip { .. } => Call::Skip,
    }
}

/// The row of a receipt of the session of this number, sessions counted from 1.
fn receipt_reply(session: u64, receipt: &Receipt) -> Reply
    ensures { result ≡ spec.receipt_row session receipt.now }
{
    match receipt.told() {
        Told::Accepted(number, BookReply::Accepted { cycle, line, .. }) => Reply::ReceiptAccepted {
            session,
            number: *number,
            cycle: u64::from(cycle.number()),
            line: u64::from(*line) + 1,
        },
        Told::Accepted(number, _) => Reply::ReceiptDone {
            session,
            number: *number,
        },
        Told::Refused(length, refusal) => Reply::ReceiptRefused {
            session,
            length: *length,
            call: call_of(receipt.event()),
            refusal: *refusal,
        },
    }
}

/// Appends the rows of one session's receipts. The only error is want of memory.
fn push_session(rows: &mut Vec<Reply>, session: u64, receipts: &[Receipt]) -> Result<(), AllocError>
    ensures { OnOk result (rows.new.items
        ≡ rows.old.items ++ spec.session_rows session receipts.now) }
{
    'receipts: for receipt in receipts {
        rows.push(receipt_reply(session, receipt))?;
    }
    Ok(())
}

/// Appends the rows of the receipts of sessions, list by list. The sessions are numbered from `first` on, which is at most
/// 2^62. The only error is want of memory.
pub(crate) fn push_sessions(
    rows: &mut Vec<Reply>,
    first: u64,
    lists: &[Vec<Receipt>],
) -> Result<(), AllocError>
    requires { first ≤ 2 ^ 62 }
    ensures { OnOk result (rows.new.items
        ≡ rows.old.items ++ spec.sessions_rows first (lists_of lists.now)) }
{
    'lists: for (at, receipts) in lists.iter().enumerate() {
        push_session(rows, first + at as u64, receipts)?;
    }
    Ok(())
}
