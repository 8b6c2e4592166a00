//! Rows that wait for the row behind them which takes them.

ghost use Rattle.std.specs.Prelude.{◌≡◌};
ghost use Rattle.gd_text_part.specs.Offices as offices;
ghost use Rattle.gd_text_part.specs.Places as spec;

use crate::fault::Cause;
use crate::kind::{Form, RowKind};
use crate::row::{OfficeRow, Row};
use gd_units::Name;

/// The most sessions that an office may have between one `desk` row and the next (own).
pub const MAX_SESSIONS_A_PHASE: u32 = 64;

/// The rows that wait for the row which takes them, and the number of the first of them, counted from 1.
#[derive(Clone, Copy)]
pub(crate) enum Waiting {
    /// No rows wait.
    Nothing,
    /// `sched` and `price` rows, which `publish` takes.
    Certificate {
        began: u64,
    },
    /// `inside` rows, which `declare` takes.
    Cut {
        began: u64,
    },
    /// So many sessions, the last of them this party's, which `desk` runs.
    Phase {
        began: u64,
        sessions: u32,
        party: Name,
    },
}

impl Waiting {
    /// The first of the rows that wait, where a row of this kind leaves them over.
    pub(crate) fn left_over(self, kind: RowKind) -> Option<u64>
        ensures { result ≡ spec.left_over self kind }
    {
        let (began, belongs) = match self {
            Waiting::Nothing | Waiting::Phase { .. } => return None,
            Waiting::Certificate { began } => (began, kind.is_of_certificate()),
            Waiting::Cut { began } => (began, kind.is_of_cut()),
        };
        // A row of an earlier stage is out of order itself, and no row before it is blamed.
        if RowKind::Sched.stage() <= kind.stage() && !belongs {
            Some(began)
        } else {
            None
        }
    }

    /// What waits for a call of the book behind row `number` of this kind.
    fn behind(self, number: u64, kind: RowKind) -> Waiting
        ensures { result ≡ spec.waiting_behind self number kind }
    {
        match (self, kind) {
            (Waiting::Certificate { .. }, RowKind::Sched | RowKind::Price) => self,
            (Waiting::Cut { .. }, RowKind::Inside) => self,
            (_, RowKind::Sched | RowKind::Price) => Waiting::Certificate { began: number },
            (_, RowKind::Inside) => Waiting::Cut { began: number },
            _ => Waiting::Nothing,
        }
    }

    /// One session more, which begins at row `number`.
    fn joined(self, number: u64, party: Name) -> Result<Waiting, Cause>
        ensures { result ≡ offices.joined self number party }
    {
        let Waiting::Phase {
            began,
            sessions,
            ..
        } = self
        else {
            return Ok(Waiting::Phase {
                began: number,
                sessions: 1,
                party,
            });
        };
        if sessions >= MAX_SESSIONS_A_PHASE {
            return Err(Cause::Limit);
        }
        Ok(Waiting::Phase {
            began,
            sessions: sessions + 1,
            party,
        })
    }

    /// What waits for a `desk` row behind row `number`.
    fn phase_behind(self, number: u64, row: &Row) -> Result<Waiting, Cause>
        ensures { result ≡ offices.phase_behind self number row.now }
    {
        let Row::Office(row) = row else {
            return Ok(self);
        };
        match *row {
            OfficeRow::Session { party, .. } => self.joined(number, party),
            OfficeRow::Desk { .. } => Ok(Waiting::Nothing),
        }
    }

    /// What waits behind row `number`, which is of this kind.
    pub(crate) fn after(
        self,
        form: Form,
        number: u64,
        kind: RowKind,
        row: &Row,
    ) -> Result<Waiting, Cause>
        ensures { result ≡ spec.waiting_after form self number kind row.now }
    {
        match form {
            Form::Day => Ok(self.behind(number, kind)),
            Form::Office => self.phase_behind(number, row),
            _ => Ok(Waiting::Nothing),
        }
    }

    /// The party of the session that is on.
    pub(crate) fn party(self) -> Option<Name>
        ensures { result ≡ offices.party_of self }
    {
        match self {
            Waiting::Phase { party, .. } => Some(party),
            _ => None,
        }
    }

    /// Whether a row of this kind is a call of a session, and no session is on.
    pub(crate) fn lacks_session(self, form: Form, kind: RowKind) -> bool
        ensures { result ≡ offices.lacks_session form self kind }
    {
        let idle = !matches!(self, Waiting::Phase { .. });
        matches!(form, Form::Office) && kind.is_of_session() && idle
    }
}
