//! How orders come out.

use crate::input::{Text, Unread};
use crate::told::Course;
use gd_replies::Reply;
use sqlite::{Alter, Connection};

/// How an order was carried out: its exit status, the row with which that is told where it isn't 0, if it is known, and the file
/// that it opened, as it is left, to be closed.
#[derive(Drop)]
pub struct Ran<S: Alter + Drop> {
    pub status: u8,
    pub last: Option<Reply>,
    pub file: Option<Connection<S>>,
    /// What is told beside the rows, where they were the whole course of a gas day.
    pub course: Option<Course>,
}

/// An order that has ended: how, with the text that it was about, and why no text could be read, if it is so.
#[derive(Drop)]
pub struct Ended<'a, S: Alter + Drop> {
    pub ran: Ran<S>,
    pub text: Text<'a>,
    pub unread: Option<Unread<'a>>,
}
