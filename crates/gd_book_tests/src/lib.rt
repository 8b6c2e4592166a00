//! Worked days of a book by calls, and offices by calls; nothing but tests.
#![tactic(auto)]

#[cfg(test)]
mod boards;
#[cfg(test)]
mod bumps;
#[cfg(test)]
mod calls;
#[cfg(test)]
mod cuts;
#[cfg(test)]
mod day;
#[cfg(test)]
mod office;
#[cfg(test)]
mod quantity;
#[cfg(test)]
mod refusals;
