//! Offices by calls: sessions and desks in threads of their own, their closing, and receipts held against the books.

mod calls;
mod closing;
mod day;
mod desks;
mod forged;
mod gates;
mod notes;
mod receipts;
mod threads;
mod types;
