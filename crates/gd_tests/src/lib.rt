//! Worked values and calls that take memory, of the crates that the question, the board and the book stand on; and worked examples by
//! calls that no command of the program makes: certificates, networks, the settling and the solver, whose questions are texts.
//!
//! There is nothing here but tests, and few: what a contract's examples or the acceptance cases show has none.
#![tactic(auto)]

#[cfg(test)]
mod bounds;
#[cfg(test)]
mod calendar;
#[cfg(test)]
mod certificate;
#[cfg(test)]
mod contracts;
#[cfg(test)]
mod cost;
#[cfg(test)]
mod labels;
#[cfg(test)]
mod lines;
#[cfg(test)]
mod network;
#[cfg(test)]
mod schedule;
#[cfg(test)]
mod settling;
#[cfg(test)]
mod solver;
#[cfg(test)]
mod texts;
#[cfg(test)]
mod tree;
#[cfg(test)]
mod units;
