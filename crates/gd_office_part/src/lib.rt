//! Sessions in threads over one book, which stands under a lock.
//!
//! A step under the lock makes one receipt, and nothing else does ([`Kept::step_in`]). A session counts what its receipts
//! tell, and sessions can be closed only where all of them together are what their book gained ([`Kept::close_in`]).
//!
//! Lines and elements count from 0, slots and events from 1. Quantities are dekatherms a gas day, moments are seconds since
//! 1970-01-01T00:00:00Z.
#![tactic(auto)]

mod call;
mod days;
mod kept;
mod numbers;
mod sent;
mod session;
mod sums;
mod threads;

pub use call::Call;
pub use days::Days;
pub use kept::{Kept, MAX_SESSIONS, Receipt, Told};
pub use numbers::Numbers;
pub use session::{OfficeFault, Session, Slot};
pub use threads::{Phase, SendFault, SessionRows, send};
