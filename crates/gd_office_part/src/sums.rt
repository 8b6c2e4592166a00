//! What sessions counted together.

ghost use Rattle.std.specs.Prelude.{◌≡◌, ◌+◌, ◌≤◌, ◌↔◌, length as len_of, sum_by, IsTrue};
ghost use Rattle.gd_office_part.specs.declared.kept.TheConstants.{MAX_SESSIONS};

use crate::days::Days;
use crate::numbers::Numbers;
use crate::session::Session;

/// The sums of the numbers of few sessions, which fit.
#[derive(Clone, Copy)]
pub(crate) struct Sums {
    pub(crate) calls: u128,
    pub(crate) nominations: u128,
    pub(crate) dekatherms: u128,
}

impl Sums {
    ghost use Rattle.gd_office_part.specs.Sums.{IsSmall};

    /// What these sessions counted together.
    pub(crate) fn of<J: Days>(sessions: &[Session<'_, J>]) -> Sums
        requires { len_of sessions.now ≤ MAX_SESSIONS }
        ensures calls { result.calls ≡ sum_by (λ s. s.numbers.calls) sessions.now }
        ensures nominations { result.nominations ≡ sum_by (λ s. s.numbers.nominations) sessions.now }
        ensures dekatherms { result.dekatherms ≡ sum_by (λ s. s.numbers.dekatherms) sessions.now }
        ensures small { IsSmall result }
    {
        let mut calls = 0u128;
        let mut nominations = 0u128;
        let mut dekatherms = 0u128;
        for session in sessions {
            let numbers = session.numbers();
            calls += u128::from(numbers.calls);
            nominations += u128::from(numbers.nominations);
            dekatherms += u128::from(numbers.dekatherms);
        }
        Sums {
            calls,
            nominations,
            dekatherms,
        }
    }

    /// Whether these, what closed sessions counted and what was there before make what there is now.
    pub(crate) fn add_up(self, before: Numbers, closed: Numbers, now: Numbers) -> bool
        requires { IsSmall self }
        ensures { IsTrue result ↔ ((before.calls + (closed.calls + self.calls) ≡ now.calls)
            × (before.nominations + (closed.nominations + self.nominations) ≡ now.nominations)
            × (before.dekatherms + (closed.dekatherms + self.dekatherms) ≡ now.dekatherms)) }
    {
        let calls = u128::from(closed.calls) + self.calls;
        let nominations = u128::from(closed.nominations) + self.nominations;
        let dekatherms = u128::from(closed.dekatherms) + self.dekatherms;
        u128::from(before.calls) + calls == u128::from(now.calls)
            && u128::from(before.nominations) + nominations == u128::from(now.nominations)
            && u128::from(before.dekatherms) + dekatherms == u128::from(now.dekatherms)
    }
}
