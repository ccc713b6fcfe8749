//! Scopes: the variables of a run, the newest last.

ghost use Rattle.std.specs.Prelude.{◌≡◌, ◌==◌, ◌<◌, ◌^◌, ◌+◌, ◌++◌, ◌∷◌, [], length, IfErr, OnErr, OnOk, is_ok, is_some, if◌then◌else◌, false, slice_get, take, drop, option_map};
ghost use Rattle.std.specs.Option.{option_copied};
ghost use Rattle.std.specs.Borrow.{sem};
ghost use Rattle.grain_value.specs.Operands.{read_write, left_behind};
ghost use Rattle.grain_value.specs.Scopes.{held_of, set_held, last_of, new_entry, has_alias, add_alias, set_alias};
ghost use Rattle.grain_value.specs.declared.scopes.Entry.{Entry};
ghost use Rattle.grain_value.specs.declared.values.Dynamic.TheVariants as dynamic;

use crate::lists::List;
use crate::memory::OutOfMemory;
use crate::names::Name;
use crate::texts::Text;
use crate::values::{Dynamic, Held};
use std::alloc::Global;
use std::marker::Model;

/// A variable: its name, what it holds, and the names under which a module exports it.
#[derive(Drop)]
pub struct Entry {
    pub name: Name,
    pub held: Held,
    pub aliases: List<Text>,
}

/// The variables of a run. Clauses see the list of its entries, which are the slots below `height`.
/// A slot at or above it is spare: until it is used again it keeps the name of the entry that it
/// had, which others mostly share, a value that owns no memory, and no alias.
#[derive(Drop)]
pub struct Scope {
    slots: Vec<Entry>,
    height: usize,
}

impl Model for Scope {
    ghost use Rattle.std.specs.Prelude.{List, take};
    ghost use Rattle.grain_value.specs.declared.scopes.Entry.{Entry};
    ghost use Rattle.grain_value.specs.Spare.{IsSpareFrom};
    ghost use Rattle.std.specs.Coded.{codes};
    ghost use Rattle.grain_value.specs.laws.TreeCode.{coded_tree};

    ghost Value = { List Entry };

    ghost coded = { Prim.hlevel (codes, coded_tree) };

    ghost view = { λ s. take s.height s.slots.items };

    ghost invariant = { λ s. IsSpareFrom s.height s.slots.items };
}

impl Scope {
    /// No variables. It takes no memory.
    pub fn new(alloc: Global) -> Scope
        ensures { result ≡ [] }
    {
        Scope {
            slots: Vec::new(alloc),
            height: 0,
        }
    }

    /// How many entries there are.
    pub fn len(&self) -> usize
        ensures value { result ≡ length self.now }
        ensures small { result < 2 ^ 63 }
    {
        self.height
    }

    /// Whether there are no entries.
    pub fn is_empty(&self) -> bool
        ensures { result ≡ (length self.now == 0) }
    {
        self.height == 0
    }

    /// What the entry at the index holds, if there is one.
    pub fn get(&self, index: usize) -> Option<&Held>
        ensures { option_copied result ≡ option_map held_of (slice_get self.now index) }
    {
        if index < self.height {
            Some(&self.slots[index].held)
        } else {
            None
        }
    }

    /// The name of the entry at the index, if there is one.
    pub fn name(&self, index: usize) -> Option<&Text>
        ensures { option_copied result ≡ option_map (λ e. e.name) (slice_get self.now index) }
    {
        if index < self.height {
            Some(self.slots[index].name.as_text())
        } else {
            None
        }
    }

    /// The index of the newest entry of the name, if there is one.
    pub fn search(&self, name: &str) -> Option<usize>
        ensures { result ≡ last_of name.now self.now }
    {
        for index in (0..self.height).rev() {
            if self.slots[index].name.as_str() == name {
                return Some(index);
            }
        }
        None
    }

    /// Whether there is an entry of the name.
    pub fn contains(&self, name: &str) -> bool
        ensures { result ≡ is_some (last_of name.now self.now) }
    {
        self.search(name).is_some()
    }

    /// Puts an entry at the end. After want of memory the scope is as it was.
    pub fn push(&mut self, name: Text, held: Held) -> Result<(), OutOfMemory>
        ensures { self.new ≡ (if is_ok result
            then self.old ++ new_entry name held ∷ []
            else self.old) }
    {
        let alloc = *self.slots.allocator();
        let name = Name::new(alloc, name)?;
        let aliases = List::new(alloc);
        self.put(Entry {
            name,
            held,
            aliases,
        })
    }

    // Puts an entry at the end. After want of memory the scope is as it was.
    fn put(&mut self, entry: Entry) -> Result<(), OutOfMemory>
        ensures { self.new ≡ (if is_ok result then self.old ++ entry ∷ [] else self.old) }
    {
        match self.put_or_give_back(entry) {
            Ok(()) => Ok(()),
            Err(_) => Err(OutOfMemory),
        }
    }

    // The same, but where there is no memory the entry comes back.
    fn put_or_give_back(&mut self, entry: Entry) -> Result<(), Entry>
        ensures scope { self.new ≡ (if is_ok result then self.old ++ entry ∷ [] else self.old) }
        ensures back { IfErr result (λ e. e ≡ entry) }
    {
        let place = self.height;
        if place < self.slots.len() {
            self.slots[place] = entry;
            self.height = place + 1;
            return Ok(());
        }
        match self.slots.push(entry) {
            Ok(()) => {
                self.height = place + 1;
                Ok(())
            }
            Err(refused) => Err(refused.value),
        }
    }

    /// Puts an entry at the end, whose name is shared. After want of memory the scope is as it was.
    #[inline(never)]
    pub fn push_shared(&mut self, name: &Name, held: Held) -> Result<(), OutOfMemory>
        ensures { self.new ≡ (if is_ok result
            then self.old ++ new_entry name.now held ∷ []
            else self.old) }
    {
        let name = name.share()?;
        let aliases = List::new(*self.slots.allocator());
        self.put(Entry {
            name,
            held,
            aliases,
        })
    }

    /// Puts an entry at the end, which can be written, with the value of `held` and a shared name.
    /// Where that succeeds, the value that is left in `held` owns no memory, and the flag of `held`
    /// is as it was. After want of memory the scope and `held` are as they were.
    #[inline(always)]
    pub fn push_moved(&mut self, name: &Name, held: &mut Held) -> Result<(), OutOfMemory>
        ensures scope { self.new ≡ (if is_ok result
            then self.old ++ new_entry name.now (read_write held.old.value) ∷ []
            else self.old) }
        ensures left { OnOk result (left_behind held.new.value ≡ held.new.value) }
        ensures flag { held.new.read_only ≡ held.old.read_only }
        ensures back { OnErr result (held.new ≡ held.old) }
    {
        match &held.value {
            Dynamic::Int(integer) => self.push_int(name, *integer),
            _ => self.push_taken(name, held),
        }
    }

    // The same of an integer. A spare slot is written in place.
    #[inline(always)]
    fn push_int(&mut self, name: &Name, integer: i64) -> Result<(), OutOfMemory>
        ensures { self.new ≡ (if is_ok result
            then self.old ++ new_entry name.now (read_write (dynamic.Int integer)) ∷ []
            else self.old) }
    {
        let place = self.height;
        if place >= self.slots.len() {
            return self.push_shared(name, Held::read_write(Dynamic::Int(integer)));
        }
        let slot = &mut self.slots[place];
        slot.name = name.share()?;
        slot.held.value.set_int(integer);
        slot.held.read_only = false;
        self.height = place + 1;
        Ok(())
    }

    // The same of a value that may own memory.
    #[cold]
    #[inline(never)]
    fn push_taken(&mut self, name: &Name, held: &mut Held) -> Result<(), OutOfMemory>
        ensures scope { self.new ≡ (if is_ok result
            then self.old ++ new_entry name.now (read_write held.old.value) ∷ []
            else self.old) }
        ensures left { OnOk result (left_behind held.new.value ≡ held.new.value) }
        ensures flag { held.new.read_only ≡ held.old.read_only }
        ensures back { OnErr result (held.new ≡ held.old) }
    {
        let name = name.share()?;
        let aliases = List::new(*self.slots.allocator());
        let entry = Entry {
            name,
            held: Held::read_write(held.value.take()),
            aliases,
        };
        match self.put_or_give_back(entry) {
            Ok(()) => Ok(()),
            Err(entry) => {
                held.value = entry.held.value;
                Err(OutOfMemory)
            }
        }
    }

    /// The aliases of the entry at the index, in the order in which they were added, if there is
    /// one.
    pub fn aliases(&self, index: usize) -> Option<&List<Text>>
        ensures { option_copied result ≡ option_map (λ e. e.aliases) (slice_get self.now index) }
    {
        if index < self.height {
            Some(&self.slots[index].aliases)
        } else {
            None
        }
    }

    /// Adds an alias to the entry at the index, unless it has it. After want of memory the scope is
    /// as it was.
    pub fn add_alias_by_index(&mut self, index: usize, alias: Text) -> Result<(), OutOfMemory>
        requires { index < length self.old }
        ensures { self.new ≡ (if is_ok result then set_alias self.old index alias else self.old) }
    {
        add_alias(&mut self.slots[index].aliases, alias)
    }

    /// Keeps the first `n` entries. The values of the others own no memory from then on.
    #[inline(always)]
    pub fn rewind(&mut self, n: usize)
        ensures { self.new ≡ take n self.old }
    {
        'forget: while self.height > n {
            let last = self.height - 1;
            let slot = &mut self.slots[last];
            slot.held.value.forget();
            if !slot.aliases.is_empty() {
                slot.aliases.clear();
            }
            self.height = last;
        }
    }

    /// Takes `count` entries away from `start` on, as far as they are there.
    pub fn remove_range(&mut self, start: usize, count: usize)
        ensures { self.new ≡ take start self.old ++ drop (start + count) self.old }
    {
        let start = start.min(self.height);
        let count = count.min(self.height - start);
        self.slots.drain(start..start + count);
        self.height -= count;
    }

    /// Writes what the entry at the index holds.
    pub fn set(&mut self, index: usize, held: Held)
        requires { index < length self.old }
        ensures { self.new ≡ set_held self.old index held }
    {
        self.slots[index].held = held;
    }

    /// Writes an integer into the entry at the index, which is not read-only afterwards.
    #[inline(always)]
    pub fn set_int(&mut self, index: usize, integer: i64)
        requires { index < length self.old }
        ensures { self.new
            ≡ set_held self.old index (record { value = dynamic.Int integer; read_only = false }) }
    {
        let held = &mut self.slots[index].held;
        if held.read_only {
            held.read_only = false;
        }
        held.value.set_int(integer);
    }

    ghost use Rattle.grain_value.specs.Lending.{LendsHeld};

    /// What the entry at the index holds, to be written, if there is one.
    pub fn get_mut(&mut self, index: usize) -> Option<&mut Held>
        ensures* writes_back { sem 𝓛 (LendsHeld self.entry index result) }
        ensures value { option_map (λ h. h.now) result
            ≡ option_map held_of (slice_get self.old index) }
    {
        if index >= self.height {
            return None;
        }
        match self.slots.get_mut(index) {
            Some(slot) => Some(&mut slot.held),
            None => None,
        }
    }
}

// Adds an alias, unless it is among these. After want of memory they are as they were.
fn add_alias(aliases: &mut List<Text>, alias: Text) -> Result<(), OutOfMemory>
    ensures { aliases.new
        ≡ (if is_ok result then add_alias alias aliases.old else aliases.old) }
{
    if has_alias(aliases, &alias) {
        return Ok(());
    }
    aliases.push(alias)
}

// Whether the alias is among these.
fn has_alias(aliases: &List<Text>, alias: &Text) -> bool
    ensures { result ≡ has_alias alias.now aliases.now }
{
    for known in aliases.as_slice() {
        if known.as_str() == alias.as_str() {
            return true;
        }
    }
    false
}
