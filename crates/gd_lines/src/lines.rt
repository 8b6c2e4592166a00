//! The table of lines.

ghost use Rattle.std.specs.Prelude.{◌≡◌, ℕ, ◌+◌, ◌-◌, ◌*◌, ◌==◌, ◌≢◌, nat_le, ◌<◌, ◌≤◌, ◌⊎◌, List, [], ◌∷◌, ◌++◌, length, get_or, map, filter, unwrap_or, take, All, IfOk, IfErr, OnOk, OnErr, Ok, Err, Some, if◌then◌else◌};
ghost use Rattle.std.specs.Vec.{vec_len, vec_capacity};
ghost use Rattle.gd_table.specs.Table.{keys as keys_in, get, IsUnique};
ghost use Rattle.std.specs.List.{position_or_len};
ghost use Rattle.gd_rules.specs.Lines as rules;
ghost use Rattle.gd_rules.specs.Lists as lists;
ghost use Rattle.gd_lines.specs.Kept.{no_state, blank};
ghost use Rattle.gd_lines.specs.Numbering.{numbered, nomination};

use crate::state::{Accepted, State, fill_from};
use crate::{LineKey, LinesFault, MAX_LINES};
use gd_table::Table;
use gd_units::{Class, CycleNo, Dth, Name};
use std::alloc::{AllocError, Global};
use std::marker::Model;

/// The lines of a gas day, by the nominations that were accepted on them. A refused nomination leaves them as they were.
///
/// A contract sees the list of the accepted nominations.
#[derive(Drop)]
pub struct Lines {
    keys: Table<LineKey, ()>,
    // of the line of each number
    states: Vec<State>,
    // in the order of acceptance
    accepted: Vec<Accepted>,
    // for each contract the sum of its lines' last quantities
    sums: Table<Name, u64>,
    // how many lines are nominated until each cycle, from Timely
    counts: [u32; CycleNo::COUNT],
}

impl Model for Lines {
    ghost use Rattle.std.specs.Prelude.{List};
    ghost use Rattle.gd_rules.specs.Lines.{Nomination};

    ghost Value = { List Nomination };

    ghost use Rattle.gd_lines.specs.LinesInside.{accepted_of, IsKept};

    ghost view = { accepted_of };

    ghost invariant = { IsKept };
}

/// Makes room for one more nomination, on a line that may be new.
fn make_room(
    keys: &mut Table<LineKey, ()>,
    states: &mut Vec<State>,
    accepted: &mut Vec<Accepted>,
    sums: &mut Table<Name, u64>,
) -> Result<(), AllocError>
    ensures same_keys { keys_in keys.new ≡ keys_in keys.old }
    ensures same_states { states.new.items ≡ states.old.items }
    ensures same_accepted { accepted.new.items ≡ accepted.old.items }
    ensures same_sums { sums.new.entries ≡ sums.old.entries }
    ensures distinct { OnOk result (IsUnique rules.same_key keys.new) }
    ensures keys { OnOk result (0 < keys.new.spare) }
    ensures states { OnOk result (vec_len states.new < vec_capacity states.new) }
    ensures accepted { OnOk result (vec_len accepted.new < vec_capacity accepted.new) }
    ensures sums { OnOk result (0 < sums.new.spare) }
{
    keys.reserve(1)?;
    states.reserve(1)?;
    accepted.reserve(1)?;
    sums.reserve(1)
}

/// The number of a key's line. A new key goes last, in room that is there.
fn enter_key(keys: &mut Table<LineKey, ()>, key: LineKey) -> usize
    requires { 0 < keys.old.spare }
    ensures keys { keys_in keys.new ≡ rules.entered (keys_in keys.old) key }
    ensures distinct { IsUnique rules.same_key keys.new }
    ensures number { result ≡ position_or_len (rules.same_key key) (keys_in keys.old) }
    ensures within { result < length (keys_in keys.new) }
    ensures key { get_or (keys_in keys.new) result rules.no_key ≡ key }
{
    match keys.get_index_of(key) {
        Some(line) => line,
        None => {
            let line = keys.len();
            keys.push(key, ());
            line
        }
    }
}

/// Enters the state of a new line, in room that is there.
fn enter_state(states: &mut Vec<State>, line: usize, class: Class)
    requires { vec_len states.old < vec_capacity states.old }
    ensures { states.new.items
        ≡ (if length states.old.items == line
        then states.old.items ++ blank class ∷ []
        else states.old.items) }
{
    let none = Dth::ZERO;
    if states.len() == line {
        states.push(State::blank(class, none)).unwrap();
    }
}

/// Notes what is nominated on a line for a cycle and the later ones, and answers what was nominated on it last.
fn renominate(states: &mut Vec<State>, line: usize, cycle: CycleNo, quantity: Dth) -> Dth
    requires { line < length states.old.items }
    ensures sized { length states.new.items ≡ length states.old.items }
    ensures former { result ≡ get_or (get_or states.old.items line no_state).nominated 4 0 }
    ensures others { (i : ℕ) → i ≢ line
        → get_or states.new.items i no_state ≡ get_or states.old.items i no_state }
    ensures class { (get_or states.new.items line no_state).class
        ≡ (get_or states.old.items line no_state).class }
    ensures quantities { (c : ℕ) → 1 ≤ c → c ≤ CycleNo.MAX
        → get_or (get_or states.new.items line no_state).nominated (c - 1) 0
        ≡ (if nat_le cycle c then quantity
        else get_or (get_or states.old.items line no_state).nominated (c - 1) 0) }
{
    let former = states[line];
    states[line] = former.renominated(cycle, quantity);
    former.nominated[4]
}

/// Changes a contract's sum by a line's new quantity, in room that is there.
fn change_sum(sums: &mut Table<Name, u64>, contract: Name, former: Dth, quantity: Dth)
    requires room { 0 < sums.old.spare }
    requires counted { former ≤ unwrap_or (get rules.same_name sums.old contract) 0 }
    requires few { unwrap_or (get rules.same_name sums.old contract) 0 ≤ MAX_LINES * Dth.MAX }
    ensures small { quantity ≤ Dth.MAX }
    ensures changed { (other : List ℕ)
        → unwrap_or (get rules.same_name sums.new other) 0
        ≡ (if rules.same_name contract other
        then unwrap_or (get rules.same_name sums.old contract) 0 - former + quantity
        else unwrap_or (get rules.same_name sums.old other) 0) }
{
    let known = sums.get(contract);
    let changed = known.unwrap_or(0) - former.get() + quantity.get();
    if known.is_some() {
        sums.set(contract, changed);
    } else {
        sums.push(contract, changed);
    }
}

/// Notes how many lines are nominated until a cycle and the later ones.
fn count_until(counts: &mut [u32; CycleNo::COUNT], cycle: CycleNo, count: usize)
    requires { count ≤ MAX_LINES }
    ensures in_day { cycle ≤ CycleNo.MAX }
    ensures filled { (c : ℕ) → 1 ≤ c → c ≤ CycleNo.MAX
        → get_or counts.new (c - 1) 0
        ≡ (if nat_le cycle c then count else get_or counts.old (c - 1) 0) }
{
    fill_from(counts, usize::from(cycle.number()) - 1, count as u32);
}

/// Notes a nomination, in room that is there.
fn note(accepted: &mut Vec<Accepted>, line: u32, cycle: CycleNo, class: Class, quantity: Dth)
    requires { vec_len accepted.old < vec_capacity accepted.old }
    ensures { accepted.new.items
        ≡ accepted.old.items
        ++ (record { line = line; cycle = cycle; class = class; quantity = quantity }) ∷ [] }
{
    let nomination = Accepted {
        line,
        cycle,
        class,
        quantity,
    };
    accepted.push(nomination).unwrap();
}

/// The nominations for one cycle.
fn taken(
    alloc: Global,
    accepted: &[Accepted],
    cycle: CycleNo,
) -> Result<Vec<(u32, Dth)>, AllocError>
    ensures { IfOk result (λ taken. taken.items
        ≡ map (λ a. (a.line, a.quantity)) (filter (λ a. a.cycle == cycle) accepted.now)) }
{
    accepted
        .iter()
        .filter(|a| a.cycle == cycle)
        .map(|a| (a.line, a.quantity))
        .collect(alloc)
}

impl Lines {
    /// No line. It needs no memory.
    pub fn new(alloc: Global) -> Lines
        ensures { result ≡ [] }
    {
        Lines {
            keys: Table::new(alloc),
            states: Vec::new(alloc),
            accepted: Vec::new(alloc),
            sums: Table::new(alloc),
            counts: [0; CycleNo::COUNT],
        }
    }

    // The number that the line of this key has or gets.
    fn check_key(&self, key: LineKey) -> Result<usize, LinesFault>
        ensures { result ≡ numbered self.now key }
    {
        let count = self.keys.len();
        match self.keys.get_index_of(key) {
            Some(line) => Ok(line),
            None => {
                if count >= MAX_LINES {
                    Err(LinesFault::TooManyLines)
                } else {
                    Ok(count)
                }
            }
        }
    }

    /// Accepts a nomination of so many dekatherms on the line of this key, and answers the line's number. The class
    /// goes by contract and ends, so it is the same for all nominations of a line.
    ///
    /// # Errors
    ///
    /// `TooManyLines` for the 20,001st line, and else `OutOfMemory`.
    pub fn accept(
        &mut self,
        key: LineKey,
        cycle: CycleNo,
        class: Class,
        quantity: Dth,
    ) -> Result<u32, LinesFault>
        requires { All (λ former. former.cycle ≤ cycle) self.old }
        ensures number { IfOk result (λ line. numbered self.old key ≡ Ok line) }
        ensures done { OnOk result
            (self.new ≡ self.old ++ nomination key cycle class quantity ∷ []) }
        ensures found { IfOk result (λ line. rules.find self.new key ≡ Some line) }
        ensures refused { (fault : LinesFault) → numbered self.old key ≡ Err fault
            → result ≡ Err fault }
        ensures memory { IfErr result
            (λ fault. (numbered self.old key ≡ Err fault) ⊎ (fault ≡ LinesFault.OutOfMemory)) }
        ensures kept { OnErr result (self.new ≡ self.old) }
    {
        let line = self.check_key(key)?;
        make_room(
            &mut self.keys,
            &mut self.states,
            &mut self.accepted,
            &mut self.sums,
        )?;
        enter_key(&mut self.keys, key);
        enter_state(&mut self.states, line, class);
        let former = renominate(&mut self.states, line, cycle, quantity);
        change_sum(&mut self.sums, key.contract, former, quantity);
        count_until(&mut self.counts, cycle, self.keys.len());
        let line = line as u32;
        note(&mut self.accepted, line, cycle, class, quantity);
        Ok(line)
    }

    /// How many lines there are.
    pub fn len(&self) -> usize
        ensures { result ≡ length (rules.lines_of self.now) }
    {
        self.keys.len()
    }

    /// The number of the line of this key.
    pub fn find(&self, key: &LineKey) -> Option<u32>
        ensures { result ≡ rules.find self.now key.now }
    {
        self.keys.get_index_of(*key).map(|line| line as u32)
    }

    /// What makes the line of this number.
    pub fn key(&self, line: u32) -> LineKey
        requires { line < length (rules.lines_of self.now) }
        ensures { result ≡ rules.line_key self.now line }
    {
        self.keys.get_index(line as usize).unwrap().0
    }

    /// The class of a line.
    pub fn class(&self, line: u32) -> Class
        requires { line < length (rules.lines_of self.now) }
        ensures { result ≡ lists.class_of_line self.now (rules.line_key self.now line) }
    {
        self.states[line as usize].class
    }

    /// What is nominated on a line for a cycle: the last quantity accepted for it or for a former cycle, else 0.
    pub fn nominated(&self, line: u32, cycle: CycleNo) -> Dth
        requires { line < length (rules.lines_of self.now) }
        ensures { result ≡ lists.nominated self.now (rules.line_key self.now line) cycle }
    {
        self.states[line as usize].nominated[usize::from(cycle.number()) - 1]
    }

    /// The sum of the last quantities of a contract's lines, in dekatherms a gas day.
    pub fn committed(&self, contract: Name) -> u64
        ensures is { result ≡ rules.committed self.now contract }
        ensures small { result ≤ MAX_LINES * Dth.MAX }
    {
        self.sums.get(contract).unwrap_or(0)
    }

    /// How many lines are nominated for this cycle or a former one. They are the first ones.
    pub fn lines_until(&self, cycle: CycleNo) -> usize
        ensures count { result ≡ length (lists.lines_until self.now cycle) }
        ensures first { lists.lines_until self.now cycle ≡ take result (rules.lines_of self.now) }
    {
        self.counts[usize::from(cycle.number()) - 1] as usize
    }

    /// The accepted nominations for one cycle, each with its line's number and its quantity, in order of acceptance.
    pub fn intake(&self, alloc: Global, cycle: CycleNo) -> Result<Vec<(u32, Dth)>, AllocError>
        ensures { IfOk result (λ taken.
            map (λ e. (Some e.0, e.1)) taken.items ≡ lists.numbered_intake self.now cycle) }
    {
        taken(alloc, &self.accepted, cycle)
    }

    /// What holds of all lines: the cycles of their nominations never fall, there are at most 20,000, the key of each
    /// finds it, and what is nominated on it for the last cycle is within the sum of its contract.
    pub fn known(&self)
        ensures rising { lists.IsRising self.now }
        ensures few { length (rules.lines_of self.now) ≤ MAX_LINES }
        ensures found { (line : ℕ) → line < length (rules.lines_of self.now)
            → rules.find self.now (rules.line_key self.now line) ≡ Some line }
        ensures within { (key : rules.Key)
            → lists.nominated self.now key 5 ≤ rules.committed self.now key.contract }
    {
        let _keys = &self.keys;
    }
}
