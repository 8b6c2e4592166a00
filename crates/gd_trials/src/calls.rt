//! Calls of sessions, each made once more where it finds no memory.

use crate::held::Receipts;
use crate::opening::{Fault, dth, line};
use crate::rows::tell;
use crate::types::{Office, Session};
use gd_book::Refusal;
use gd_office_part::{Receipt, Told};
use gd_system::Element;
use gd_units::{End, Moment};
use std::sync::Wait;

/// A call of a session, with all that it takes but the moment.
#[derive(Clone, Copy)]
pub(crate) enum Call {
    /// Nominates 80 under a contract.
    Nominate(&'static str),
    /// Confirms 80 at an end of the line of this number.
    Respond(u32, End),
    /// Posts a capacity of 60.
    Post(Element),
}

impl Call {
    fn name(self) -> &'static str {
        match self {
            Call::Nominate(_) => "nominate",
            Call::Respond(..) => "respond",
            Call::Post(_) => "post",
        }
    }
}

fn nominate(
    rt: &impl Wait,
    session: &mut Session<'_>,
    moment: Moment,
    contract: &str,
) -> Result<Receipt, Fault> {
    let (key, quantity) = (line(contract, "P")?, dth(80)?);
    Ok(session.nominate(rt, moment, key, quantity)?)
}

fn respond(
    rt: &impl Wait,
    session: &mut Session<'_>,
    moment: Moment,
    line: u32,
    end: End,
) -> Result<Receipt, Fault> {
    let quantity = dth(80)?;
    Ok(session.respond(rt, moment, line, end, quantity)?)
}

fn post(
    rt: &impl Wait,
    session: &mut Session<'_>,
    moment: Moment,
    element: Element,
) -> Result<Receipt, Fault> {
    let capacity = dth(60)?;
    Ok(session.post_capacity(rt, moment, element, capacity)?)
}

fn make(
    rt: &impl Wait,
    session: &mut Session<'_>,
    moment: Moment,
    call: Call,
) -> Result<Receipt, Fault> {
    match call {
        Call::Nominate(contract) => nominate(rt, session, moment, contract),
        Call::Respond(line, end) => respond(rt, session, moment, line, end),
        Call::Post(element) => post(rt, session, moment, element),
    }
}

/// Why the book refused, if it did.
fn refusal(receipt: &Receipt) -> Option<Refusal> {
    match receipt.told() {
        Told::Accepted(..) => None,
        Told::Refused(_, refusal) => Some(*refusal),
    }
}

/// The session of a place makes a call. Keeps the receipt, and answers why the book refused, if it did.
fn ask(
    rt: &impl Wait,
    sessions: &mut [Session<'_>],
    receipts: &mut [Receipts],
    place: usize,
    moment: Moment,
    call: Call,
) -> Result<Option<Refusal>, Fault> {
    let session = sessions.get_mut(place).ok_or(Fault::Unmade)?;
    let own = receipts.get_mut(place).ok_or(Fault::Unmade)?;
    let receipt = make(rt, session, moment, call)?;
    let refusal = refusal(&receipt);
    own.keep(receipt).map(|()| refusal)
}

/// The session of a place makes a call, once more where it finds no memory. The row of a call that is refused begins with the
/// refusal's name.
pub(crate) fn make_call(
    rt: &(impl Wait + Print),
    office: &Office,
    sessions: &mut [Session<'_>],
    receipts: &mut [Receipts],
    place: usize,
    moment: Moment,
    call: Call,
) -> Result<(), Fault> {
    let mut answer = ask(rt, sessions, receipts, place, moment, call);
    if answer == Err(Fault::NoMemory) {
        tell(rt, "OutOfMemory", office, sessions)?;
        answer = ask(rt, sessions, receipts, place, moment, call);
    }
    match answer? {
        None => tell(rt, call.name(), office, sessions),
        Some(refusal) => tell(rt, refusal, office, sessions),
    }
}
