//! A book that a file keeps.

ghost use Rattle.std.specs.Prelude.{◌≡◌, count_by};
ghost use Rattle.gd_machine.specs.Headline.{Holds};
ghost use Rattle.gd_live.specs.Seen.{at_desk};
ghost use Rattle.gasday_live.specs.Audits as spec;
ghost use Rattle.gasday_live.specs.Runs.{opened_row};

use gd_book::{Event, Reply as BookReply};
use gd_live::Desk;
use gd_replies::Reply;

/// A book that a file keeps, as it stands behind the last call of the file, and how many calls that are.
#[derive(Drop)]
pub struct KeptBook {
    pub desk: Desk,
    pub calls: u64,
}

/// Whether a schedule was published.
fn is_published(reply: &BookReply) -> bool
    ensures { result ≡ spec.is_published reply.now }
{
    matches!(reply, BookReply::Published { .. })
}

/// How many events published a schedule.
fn published_count(history: &[(Event, BookReply)]) -> usize
    ensures { result ≡ count_by (λ e. spec.is_published e.1) history.now }
{
    let mut count = 0;
    'events: for event in history {
        if is_published(&event.1) {
            count += 1;
        }
    }
    count
}

impl KeptBook {
    /// The row that tells that the book is open.
    pub fn opened(&self) -> Reply
        ensures is { result ≡ opened_row (at_desk self.now.desk) self.now.calls }
        ensures holds { Holds (at_desk self.now.desk).day (at_desk self.now.desk).history }
    {
        Reply::Opened {
            book: self.desk.name(),
            calls: self.calls,
            events: self.desk.history().len() as u64,
        }
    }

    /// The row that tells that all calls were made again.
    pub fn replayed(&self) -> Reply
        ensures is { result ≡ spec.replayed_row (at_desk self.now.desk) self.now.calls }
        ensures holds { Holds (at_desk self.now.desk).day (at_desk self.now.desk).history }
    {
        let history = self.desk.history();
        Reply::Replayed {
            book: self.desk.name(),
            calls: self.calls,
            events: history.len() as u64,
            published: published_count(history) as u64,
        }
    }
}
