//! The file of a gas day's book by calls: opened, gone on with, audited and printed, served in parts, cut anywhere, with readers,
//! writers and disks that fail, and files that keep no book. The journal that it is, too: records of any bytes, changed by hand, and
//! files of other tables. And an archive, on disks that stop at each of their calls.
//!
//! There is nothing here but tests.
#![tactic(auto)]

#[cfg(test)]
mod archives;
#[cfg(test)]
mod changed;
#[cfg(test)]
mod damaged;
#[cfg(test)]
mod day;
#[cfg(test)]
mod disks;
#[cfg(test)]
mod foreign;
#[cfg(test)]
mod kept;
#[cfg(test)]
mod pieces;
#[cfg(test)]
mod postings;
#[cfg(test)]
mod runs;
#[cfg(test)]
mod stopped;
#[cfg(test)]
mod streams;
#[cfg(test)]
mod works;
