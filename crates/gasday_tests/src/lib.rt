//! The program's parts by calls: words of the command line, texts from slow and failing readers, and answers to slow and failing
//! writers.
//!
//! There is nothing here but tests.
#![tactic(auto)]

#[cfg(test)]
mod reading;
#[cfg(test)]
mod running;
#[cfg(test)]
mod words;
