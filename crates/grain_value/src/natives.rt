//! The functions of the host.

ghost use Rattle.std.specs.Prelude.{◌≡◌, ◌==◌, ◌<◌, ◌++◌, ◌∷◌, [], length, Some, is_ok, if◌then◌else◌, slice_get};
ghost use Rattle.std.specs.Option.{option_copied};

use crate::memory::OutOfMemory;
use smallvec::SmallVec;
use std::alloc::Global;
use std::marker::Model;

/// A function of the host, as the host finds it by a name and by the kinds of the arguments.
#[derive(Clone, Copy, Debug, PartialEq, Eq)]
pub struct Native {
    /// What the host is called with.
    pub key: u64,
    /// Whether a call may write its first argument.
    pub writes: bool,
}

/// The kinds of arguments, the first argument's first. Up to four kinds take no memory. Clauses see
/// the list of the kinds.
#[derive(Drop)]
pub struct Kinds {
    kinds: SmallVec<u32, 4>,
}

impl Model for Kinds {
    ghost use Rattle.std.specs.Prelude.{ℕ, List};

    ghost Value = { List ℕ };

    ghost view = { λ k. k.kinds.items };
}

impl Kinds {
    /// No kinds. It takes no memory.
    pub fn new(alloc: Global) -> Kinds
        ensures { result ≡ [] }
    {
        Kinds {
            kinds: SmallVec::new(alloc),
        }
    }

    /// How many kinds there are.
    pub fn len(&self) -> usize
        ensures { result ≡ length self.now }
    {
        self.kinds.len()
    }

    /// Whether there are no kinds.
    pub fn is_empty(&self) -> bool
        ensures { result ≡ (length self.now == 0) }
    {
        self.kinds.is_empty()
    }

    /// The kind at the index, if there is one.
    pub fn get(&self, index: usize) -> Option<&u32>
        ensures { option_copied result ≡ slice_get self.now index }
    {
        self.as_slice().get(index)
    }

    /// The kind at an index of the list.
    pub fn at(&self, index: usize) -> &u32
        requires { index < length self.now }
        ensures { slice_get self.now index ≡ Some result.now }
    {
        &self.as_slice()[index]
    }

    /// The kinds as a slice.
    pub fn as_slice(&self) -> &[u32]
        ensures { result.now ≡ self.now }
    {
        self.kinds.as_slice()
    }

    /// Puts the kind of one argument more at the end. After want of memory the kinds are as they were.
    pub fn push(&mut self, kind: u32) -> Result<(), OutOfMemory>
        ensures { self.new ≡ (if is_ok result then self.old ++ kind ∷ [] else self.old) }
    {
        self.kinds.push(kind)?;
        Ok(())
    }
}
