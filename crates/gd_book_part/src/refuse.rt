//! What a book refuses: of each kind of event the first reason in order.

ghost use Rattle.std.specs.Prelude.{◌≡◌, ◌+◌, ◌<◌, ◌≤◌, max, Bool, true, false, not, nat_le, nat_lt, Some, None, List, length, MatchOption, is_some};
ghost use Rattle.gd_machine.specs.Day.{deadline};
ghost use Rattle.gd_machine.specs.History.{stamp_of, cycle_of, round_of, is_frozen, has_cut};
ghost use Rattle.std.specs.Result.{is_err};
ghost use Rattle.gd_lines.specs.Numbering.{numbered};
ghost use Rattle.gd_rules.specs.Lines.{of_line, last_quantity};
ghost use Rattle.gd_machine.specs.Same.{same_question};
ghost use Rattle.gd_machine.specs.Asking.{line_count, nominations, question};
ghost use Rattle.gd_machine.specs.Asking as asked;
ghost use Rattle.gd_machine.specs.Known.{IsSound};
ghost use Rattle.gd_machine.specs.Machine as machine;
ghost use Rattle.gd_machine.specs.Machine.{refusal_of, committed_with};
ghost use Rattle.gd_machine.specs.declared.event.Event.TheVariants as event;
ghost use Rattle.gd_book_part.specs.Kept.{AreTablesOf};

use crate::opening::Opening;
use crate::tables::Tables;
use gd_certificate::{Checked, Cut, check_cut};
use gd_lines::{LineKey, MAX_LINES};
use gd_machine::{Event, MAX_EVENTS, Refusal, Reply};
use gd_question::Question;
use gd_system::{Element, System};
use gd_units::{CycleNo, Dth, End, Moment, Name, Round};

/// Whether no event more is taken.
fn is_full(history: &[(Event, Reply)]) -> bool
    ensures { result ≡ machine.is_full history.now }
{
    history.len() >= MAX_EVENTS
}

/// The name of one end of a line.
fn end_name(key: &LineKey, end: End) -> Name
    ensures { result ≡ machine.end_name key.now end }
{
    match end {
        End::Origin => key.origin,
        End::Dest => key.dest,
    }
}

/// The operator of the point or pool of this name.
fn operator_of(system: &System, name: Name) -> Option<Name>
    ensures { result ≡ machine.operator_of system.now name }
{
    let element = system.element(name)?;
    system.operator(element)
}

/// Whether a certificate is for this question.
fn is_for(certificate: &Checked, question: &Question) -> bool
    ensures { result ≡ same_question certificate.now.question question.now }
{
    certificate.question().same(question)
}

impl Tables {
    /// The cycle that is open or frozen, and none once all are over.
    pub(crate) fn current(&self, opening: &Opening, history: &[(Event, Reply)]) -> Option<CycleNo>
        requires { AreTablesOf opening.now self.now history.now }
        ensures { MatchOption result (machine.is_settled history.now ≡ true)
            (λ cycle. (cycle ≡ cycle_of history.now) × (machine.is_settled history.now ≡ false)) }
    {
        let _ = opening;
        let _ = history;
        CycleNo::new(self.cycle)
    }

    /// How many lines count in a cycle.
    pub(crate) fn line_count(
        &self,
        opening: &Opening,
        history: &[(Event, Reply)],
        cycle: CycleNo,
    ) -> usize
        requires kept { AreTablesOf opening.now self.now history.now }
        requires current { cycle ≡ cycle_of history.now }
        ensures { result ≡ line_count opening.now history.now }
    {
        let _ = opening;
        let _ = history;
        self.lines.lines_until(cycle)
    }

    /// What makes a line that counts.
    pub(crate) fn key_of(
        &self,
        opening: &Opening,
        history: &[(Event, Reply)],
        cycle: CycleNo,
        line: u32,
    ) -> LineKey
        requires kept { AreTablesOf opening.now self.now history.now }
        requires current { cycle ≡ cycle_of history.now }
        requires known { line < line_count opening.now history.now }
        ensures { result ≡ asked.key_of opening.now history.now line }
    {
        let _ = opening;
        let _ = history;
        let _count = self.lines.lines_until(cycle);
        self.lines.key(line)
    }

    /// Whether a party operates one end of a line that counts.
    fn is_operator(
        &self,
        opening: &Opening,
        history: &[(Event, Reply)],
        cycle: CycleNo,
        line: u32,
        end: End,
        party: Name,
    ) -> bool
        requires kept { AreTablesOf opening.now self.now history.now }
        requires current { cycle ≡ cycle_of history.now }
        requires known { line < line_count opening.now history.now }
        ensures { result ≡ machine.is_operator opening.now history.now line end party }
    {
        let key = self.key_of(opening, history, cycle, line);
        match operator_of(opening.contracts().system(), end_name(&key, end)) {
            Some(operator) => party == operator,
            None => false,
        }
    }

    /// Why a response is refused.
    pub(crate) fn refuse_respond(
        &self,
        opening: &Opening,
        history: &[(Event, Reply)],
        moment: Moment,
        party: Name,
        line: u32,
        end: End,
        quantity: Dth,
    ) -> Option<Refusal>
        requires { AreTablesOf opening.now self.now history.now }
        ensures { result
            ≡ refusal_of opening.now history.now (event.Respond moment party line end quantity) }
    {
        let _ = moment;
        let _ = quantity;
        let Some(cycle) = self.current(opening, history) else {
            return Some(Refusal::AllSettled);
        };
        if self.frozen.is_some() {
            return Some(Refusal::Frozen);
        }
        if line as usize >= self.line_count(opening, history, cycle) {
            return Some(Refusal::UnknownLine);
        }
        if !self.is_operator(opening, history, cycle, line, end, party) {
            return Some(Refusal::NotOperator);
        }
        if is_full(history) {
            return Some(Refusal::TooManyEvents);
        }
        None
    }

    /// Why a capacity is refused.
    pub(crate) fn refuse_post(
        &self,
        opening: &Opening,
        history: &[(Event, Reply)],
        moment: Moment,
        element: Element,
        capacity: Dth,
    ) -> Option<Refusal>
        requires { AreTablesOf opening.now self.now history.now }
        ensures { result
            ≡ refusal_of opening.now history.now (event.PostCapacity moment element capacity) }
    {
        let _ = moment;
        let _ = capacity;
        let system = opening.contracts().system();
        if self.current(opening, history).is_none() {
            return Some(Refusal::AllSettled);
        }
        if self.frozen.is_some() {
            return Some(Refusal::Frozen);
        }
        if element.0 >= system.element_count() {
            return Some(Refusal::UnknownElement);
        }
        if system.part(element).capacity().is_none() {
            return Some(Refusal::IsPool);
        }
        if is_full(history) {
            return Some(Refusal::TooManyEvents);
        }
        None
    }

    /// Why a freeze is refused.
    pub(crate) fn refuse_freeze(
        &self,
        opening: &Opening,
        history: &[(Event, Reply)],
        moment: Moment,
    ) -> Option<Refusal>
        requires { AreTablesOf opening.now self.now history.now }
        ensures { result ≡ refusal_of opening.now history.now (event.Freeze moment) }
    {
        let Some(cycle) = self.current(opening, history) else {
            return Some(Refusal::AllSettled);
        };
        if self.frozen.is_some() {
            return Some(Refusal::Frozen);
        }
        if self.stamp.max(moment) < opening.calendar().deadline(cycle) {
            return Some(Refusal::TooEarly);
        }
        if is_full(history) {
            return Some(Refusal::TooManyEvents);
        }
        None
    }

    /// Why a waiver is refused.
    pub(crate) fn refuse_waive(
        &self,
        opening: &Opening,
        history: &[(Event, Reply)],
        moment: Moment,
        line: u32,
    ) -> Option<Refusal>
        requires { AreTablesOf opening.now self.now history.now }
        ensures { result ≡ refusal_of opening.now history.now (event.Waive moment line) }
    {
        let _ = moment;
        let Some(cycle) = self.current(opening, history) else {
            return Some(Refusal::AllSettled);
        };
        if self.frozen.is_some() {
            return Some(Refusal::Frozen);
        }
        if !self.has_cut {
            return Some(Refusal::NoCut);
        }
        if line as usize >= self.line_count(opening, history, cycle) {
            return Some(Refusal::UnknownLine);
        }
        if is_full(history) {
            return Some(Refusal::TooManyEvents);
        }
        None
    }

    /// Why a skip is refused.
    pub(crate) fn refuse_skip(
        &self,
        opening: &Opening,
        history: &[(Event, Reply)],
        moment: Moment,
    ) -> Option<Refusal>
        requires { AreTablesOf opening.now self.now history.now }
        ensures { result ≡ refusal_of opening.now history.now (event.Skip moment) }
    {
        let _ = moment;
        if self.current(opening, history).is_none() {
            return Some(Refusal::AllSettled);
        }
        if self.frozen.is_some() {
            return Some(Refusal::Frozen);
        }
        if !self.has_cut {
            return Some(Refusal::NoCut);
        }
        if is_full(history) {
            return Some(Refusal::TooManyEvents);
        }
        None
    }

    /// What is nominated last on the line of a key, else 0.
    fn nominated_last(&self, opening: &Opening, history: &[(Event, Reply)], key: &LineKey) -> u64
        requires kept { AreTablesOf opening.now self.now history.now }
        requires sound { IsSound opening.now history.now }
        ensures is { result
            ≡ last_quantity (of_line key.now (nominations opening.now history.now)) }
    {
        let _ = opening;
        let _ = history;
        match self.lines.find(key) {
            Some(line) => self
                .lines
                .nominated(line, CycleNo::ALL[CycleNo::COUNT - 1])
                .get(),
            None => 0,
        }
    }

    /// What the lines of a key's contract would be nominated last, together, with this nomination.
    fn committed_with(
        &self,
        opening: &Opening,
        history: &[(Event, Reply)],
        key: &LineKey,
        quantity: Dth,
    ) -> u64
        requires kept { AreTablesOf opening.now self.now history.now }
        requires sound { IsSound opening.now history.now }
        ensures { result ≡ committed_with opening.now history.now key.now quantity }
    {
        self.lines.known();
        let former = self.nominated_last(opening, history, key);
        self.lines.committed(key.contract) - former + quantity.get()
    }

    /// Whether the line of a key is new, and no line more may be.
    fn is_line_too_many(&self, opening: &Opening, history: &[(Event, Reply)], key: &LineKey) -> bool
        requires { AreTablesOf opening.now self.now history.now }
        ensures { result ≡ is_err (numbered (nominations opening.now history.now) key.now) }
    {
        let _ = opening;
        let _ = history;
        match self.lines.find(key) {
            Some(_) => false,
            None => self.lines.len() >= MAX_LINES,
        }
    }

    /// Why a nomination is refused.
    pub(crate) fn refuse_nominate(
        &self,
        opening: &Opening,
        history: &[(Event, Reply)],
        moment: Moment,
        party: Name,
        key: &LineKey,
        quantity: Dth,
    ) -> Option<Refusal>
        requires kept { AreTablesOf opening.now self.now history.now }
        requires sound { IsSound opening.now history.now }
        ensures { result
            ≡ refusal_of opening.now history.now (event.Nominate moment party key.now quantity) }
    {
        let stamp = self.stamp.max(moment);
        if opening.calendar().cycle_of(stamp).is_none() {
            return Some(Refusal::DayClosed);
        }
        let Some(contract) = opening.contracts().contract(key.contract) else {
            return Some(Refusal::UnknownContract);
        };
        if party != contract.shipper {
            return Some(Refusal::NotShipper);
        }
        if let Err(fault) = opening.contracts().system().ends(key.origin, key.dest) {
            return Some(Refusal::Route(fault));
        }
        if contract.quantity.get() < self.committed_with(opening, history, key, quantity) {
            return Some(Refusal::OverContract);
        }
        if self.is_line_too_many(opening, history, key) {
            return Some(Refusal::TooManyLines);
        }
        if is_full(history) {
            return Some(Refusal::TooManyEvents);
        }
        None
    }

    /// Why a publish is refused.
    pub(crate) fn refuse_publish(
        &self,
        opening: &Opening,
        history: &[(Event, Reply)],
        moment: Moment,
        certificate: &Checked,
    ) -> Option<Refusal>
        requires { AreTablesOf opening.now self.now history.now }
        ensures { result
            ≡ refusal_of opening.now history.now (event.Publish moment certificate.now) }
    {
        let _ = moment;
        let Some(question) = &self.frozen else {
            return Some(Refusal::NotFrozen);
        };
        if certificate.question().round() != question.round() {
            return Some(Refusal::StaleRound(question.round().number()));
        }
        if !is_for(certificate, question) {
            return Some(Refusal::OtherQuestion);
        }
        if is_full(history) {
            return Some(Refusal::TooManyEvents);
        }
        None
    }

    /// Why a declared cut is refused.
    pub(crate) fn refuse_declare(
        &self,
        opening: &Opening,
        history: &[(Event, Reply)],
        moment: Moment,
        round: Round,
        cut: &Cut,
    ) -> Option<Refusal>
        requires { AreTablesOf opening.now self.now history.now }
        ensures { result ≡ refusal_of opening.now history.now (event.Declare moment round cut.now) }
    {
        let _ = moment;
        let Some(question) = &self.frozen else {
            return Some(Refusal::NotFrozen);
        };
        if round != question.round() {
            return Some(Refusal::StaleRound(question.round().number()));
        }
        if let Err(fault) = check_cut(question, cut) {
            return Some(Refusal::NoCutProof(fault));
        }
        if is_full(history) {
            return Some(Refusal::TooManyEvents);
        }
        None
    }
}
