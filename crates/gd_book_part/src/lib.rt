//! The opening values of a gas day's book, and the tables that it keeps beside its history, so that no call walks over it.
//!
//! Lines and elements count from 0. Quantities are dekatherms a gas day, moments are seconds since 1970-01-01T00:00:00Z.
#![tactic(auto)]

mod answer;
mod apply;
mod asked;
mod bumped;
mod confirmations;
mod event;
mod nominate;
mod opening;
mod refuse;
mod tables;

pub use opening::{OpenFault, Opening};
pub use tables::Tables;
