//! Whoever takes lines.

ghost use Rattle.std.specs.Thread.{IsSync};
ghost use Rattle.std.specs.Prelude.{◌≡◌, ℕ, List, OnOk};
ghost use Rattle.gd_serving.specs.Seen.{seen};
ghost use Rattle.gd_serving.specs.Yields.{Yield, Adds};

use crate::given::Given;
use std::alloc::AllocError;
use std::thread::Threads;

/// Takes lines, one after the other, and gives what is kept and told of each.
pub trait TakesLines {
    // From this stand the line, without its line feed, leads to that one, and yields this.
    ghost gives: { Self → List ℕ → Self → Yield → Type 0 };

    /// Takes one line, which has no line feed. What it checks may run in threads. What it gives is added at the end of what
    /// was given before.
    ///
    /// # Errors
    ///
    /// Memory ended. Neither `self` nor what was given is to be used from then on.
    fn take_line<T: Threads + Sync>(
        &mut self,
        rt: &T,
        line: &[u8],
        given: &mut Given,
    ) -> Result<(), AllocError>
        requires { IsSync T.row }
        ensures { OnOk result ((y : Yield) × gives self.old line.now self.new y × Adds (seen given.old) (seen given.new) y) };
}
