//! The table.

ghost use Rattle.std.specs.Prelude.{◌≡◌, ◌+◌, ◌<◌, ◌≤◌, ◌++◌, ◌∷◌, [], length, is_some, slice_get, None, Some, if◌then◌else◌, IsSome, IfSome, IfOk, OnOk};
ghost use Rattle.std.specs.Map.{set_value};
ghost use Rattle.gd_table.specs.Table.{get, index_of, IsUnique};

use std::alloc::{AllocError, Global};
use std::collections::HashMap;
use std::hash::Hash;
use std::marker::Model;

/// Values by key, in order of entry.
#[derive(Drop)]
pub struct Table<K: Eq + Hash + Copy, V> {
    entries: Vec<(K, V)>,
    // of each key
    positions: HashMap<K, usize>,
}

impl<K: Eq + Hash + Copy, V> Model for Table<K, V> {
    ghost use Rattle.std.specs.Prelude.{◌-◌, min};
    ghost use Rattle.std.specs.Vec.{vec_len, vec_capacity};
    ghost use Rattle.std.specs.HashMap.{spare};
    ghost use Rattle.gd_table.specs.Table.{Table as Seen, table_code};
    ghost use Rattle.gd_table.specs.Inside.{IsIndexed};

    ghost Value = { Seen K V };

    ghost coded = { table_code K.code V.code };

    ghost view = { λ t. record { entries = t.entries.items; spare = min (spare t.positions) (vec_capacity t.entries - vec_len t.entries) } };

    ghost invariant = { λ t. IsIndexed K.eq t.entries.items t.positions };
}

impl<K: Eq + Hash + Copy, V: Copy> Table<K, V> {
    /// No entry. It needs no memory.
    pub fn new(alloc: Global) -> Table<K, V>
        ensures empty { result.entries ≡ [] }
        ensures unique { IsUnique K.eq result }
    {
        Table {
            entries: Vec::new(alloc),
            positions: HashMap::new(alloc),
        }
    }

    /// How many entries there are.
    pub fn len(&self) -> usize
        ensures is { result ≡ length self.now.entries }
        ensures unique { IsUnique K.eq self.now }
    {
        self.entries.len()
    }

    /// The entries, in their order.
    pub fn entries(&self) -> &[(K, V)]
        ensures are { result.now ≡ self.now.entries }
        ensures unique { IsUnique K.eq self.now }
    {
        &self.entries
    }

    /// The entry at a position.
    pub fn get_index(&self, index: usize) -> Option<(K, V)>
        ensures { result ≡ slice_get self.now.entries index }
    {
        if index < self.entries.len() {
            Some(self.entries[index])
        } else {
            None
        }
    }

    /// The position of a key.
    pub fn get_index_of(&self, key: K) -> Option<usize>
        ensures is { result ≡ index_of K.eq self.now key }
        ensures found { is_some result ≡ is_some (get K.eq self.now key) }
        ensures within { IfSome result (λ i. i < length self.now.entries) }
        ensures unique { IsUnique K.eq self.now }
    {
        self.positions.get(&key).copied()
    }

    /// Whether a key is there.
    pub fn contains_key(&self, key: K) -> bool
        ensures { result ≡ is_some (get K.eq self.now key) }
    {
        self.get_index_of(key).is_some()
    }

    /// The value at a key.
    pub fn get(&self, key: K) -> Option<V>
        ensures { result ≡ get K.eq self.now key }
    {
        let at = self.get_index_of(key)?;
        Some(self.entries[at].1)
    }

    /// Makes room for so many more entries. The only error is want of memory.
    pub fn reserve(&mut self, additional: usize) -> Result<(), AllocError>
        ensures entries { self.new.entries ≡ self.old.entries }
        ensures room { OnOk result (additional ≤ self.new.spare) }
        ensures kept { self.old.spare ≤ self.new.spare }
        ensures unique { IsUnique K.eq self.new }
    {
        self.entries.reserve(additional)?;
        self.positions.reserve(additional)
    }

    /// Adds a new key with its value, last, in room that is there.
    pub fn push(&mut self, key: K, value: V)
        requires room { 0 < self.old.spare }
        requires new { get K.eq self.old key ≡ None }
        ensures last { self.new.entries ≡ self.old.entries ++ (key, value) ∷ [] }
        ensures values { (other : K) → get K.eq self.new other
            ≡ (if K.eq key other then Some value else get K.eq self.old other) }
        ensures kept { self.old.spare ≤ self.new.spare + 1 }
        ensures unique { IsUnique K.eq self.new }
    {
        let at = self.entries.len();
        let entered: Result<_, _> = self.positions.insert(key, at);
        entered.unwrap();
        self.entries.push((key, value)).unwrap();
    }

    /// Changes the value of a key that is there.
    pub fn set(&mut self, key: K, value: V)
        requires { IsSome (get K.eq self.old key) }
        ensures changed { self.new.entries ≡ set_value (K.eq key) self.old.entries value }
        ensures values { (other : K) → get K.eq self.new other
            ≡ (if K.eq key other then Some value else get K.eq self.old other) }
        ensures kept { self.new.spare ≡ self.old.spare }
        ensures unique { IsUnique K.eq self.new }
    {
        let at = *self.positions.get(&key).unwrap();
        let known = self.entries[at].0;
        self.entries[at] = (known, value);
    }

    /// Another table of the same entries. The only error is want of memory.
    pub fn try_clone(&self, alloc: Global) -> Result<Table<K, V>, AllocError>
        ensures { IfOk result (λ copy. copy.entries ≡ self.now.entries) }
    {
        let entries = self.entries();
        let mut copy = Table::new(alloc);
        copy.reserve(entries.len())?;
        for at in 0..entries.len() {
            let entry = entries[at];
            copy.push(entry.0, entry.1);
        }
        Ok(copy)
    }
}
