//! Entries that frames have, those of all frames in one list.

ghost use Rattle.std.specs.Prelude.{◌≡◌, ◌<◌, ◌≤◌, ◌-◌, ◌∷◌, [], ℕ, Some, length, drop, is_ok, if◌then◌else◌};
ghost use Rattle.std.specs.Option.{option_copied};
ghost use Rattle.std.specs.Borrow.{sem};
ghost use Rattle.grain_stack.specs.Entries.{entries_at, newest_of, first_of, IsOrdered, Becomes};

use grain_value::OutOfMemory;
use std::alloc::Global;
use std::marker::Model;

/// What a frame has that has this many frames around it.
#[derive(Drop)]
pub struct FrameEntry<T> {
    pub depth: usize,
    pub item: T,
}

/// Entries of frames, those of the inner frames after those of the outer ones. Clauses see the
/// newest first.
#[derive(Drop)]
pub struct FrameEntries<T: Drop> {
    entries: Vec<FrameEntry<T>>,
}

impl<T: Drop> Model for FrameEntries<T> {
    ghost use Rattle.std.specs.Prelude.{List, reverse};
    ghost use Rattle.grain_stack.specs.declared.frame_entries.FrameEntry.{FrameEntry};

    ghost Value = { List (FrameEntry T) };

    ghost view = { λ e. reverse e.entries.items };
}

impl<T: Drop> FrameEntries<T> {
    /// No entries. It takes no memory.
    pub fn new(alloc: Global) -> FrameEntries<T>
        ensures { result ≡ [] }
    {
        FrameEntries {
            entries: Vec::new(alloc),
        }
    }

    /// How many entries all frames have.
    #[inline(always)]
    pub fn len(&self) -> usize
        ensures { result ≡ length self.now }
    {
        self.entries.len()
    }

    /// One entry more, of the frame at a depth. After want of memory the entries are as they were.
    pub fn push(&mut self, depth: usize, item: T) -> Result<(), OutOfMemory>
        ensures { self.new ≡ (if is_ok result
            then record { depth = depth; item = item } ∷ self.old
            else self.old) }
    {
        self.entries.push(FrameEntry { depth, item })?;
        Ok(())
    }

    /// Takes the newest entry.
    pub fn pop(&mut self) -> T
        requires there { 0 < length self.old }
        ensures { (depth : ℕ) × (self.old ≡ record { depth = depth; item = result } ∷ self.new) }
    {
        match self.entries.pop() {
            Some(newest) => newest.item,
            None => unreachable!(),
        }
    }

    /// The newest entry of the innermost frame, which is at this depth, if it has one.
    #[inline(always)]
    pub fn innermost(&self, depth: usize) -> Option<&T>
        requires { IsOrdered depth self.now }
        ensures { option_copied result ≡ first_of (entries_at depth self.now) }
    {
        match self.entries.last() {
            Some(newest) if newest.depth == depth => Some(&newest.item),
            _ => None,
        }
    }

    /// How many entries the innermost frame has, which is at this depth. It looks at one of another
    /// frame at most.
    pub fn count(&self, depth: usize) -> usize
        requires { IsOrdered depth self.now }
        ensures { result ≡ length (entries_at depth self.now) }
    {
        let all = self.entries.len();
        'own: for count in 0..all {
            if self.entries[all - 1 - count].depth != depth {
                return count;
            }
        }
        all
    }

    /// Keeps the first `count` entries of the innermost frame, which is at this depth: those that
    /// were pushed first.
    pub fn cut(&mut self, depth: usize, count: usize)
        requires ordered { IsOrdered depth self.old }
        requires there { count ≤ length (entries_at depth self.old) }
        ensures { let own = entries_at depth self.old in
            Becomes depth self.old self.new (drop (length own - count) own) }
    {
        let more = self.count(depth) - count;
        'cut: for _ in 0..more {
            drop(self.pop());
        }
    }

    ghost use Rattle.grain_stack.specs.LentEntries.{LendsNewest};

    /// The newest entry, to be changed.
    #[inline(always)]
    pub fn newest_mut(&mut self) -> &mut T
        requires there { 0 < length self.old }
        ensures* writes_back { sem 𝓛 (LendsNewest T.row self.entry result) }
        ensures value { Some result.now ≡ newest_of self.old }
    {
        let last = self.entries.len() - 1;
        let newest = &mut self.entries[last];
        &mut newest.item
    }
}
