//! Whether the receipts that sessions and desks hold fit the one history of their book.
//!
//! Receipts stand in lists, one list for each holder, in the order in which its holder got them. [`reconcile`] passes exactly
//! where all of them fit, and else names the first that does not fit together with those before it. Lists and receipts count
//! from 0.
#![tactic(auto)]

mod disorder;
mod mismatch;
mod reconciling;
mod refusals;

pub use mismatch::{Mismatch, ReceiptsFault};
pub use reconciling::reconcile;
