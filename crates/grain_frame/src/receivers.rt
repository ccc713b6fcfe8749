//! The `this` of the frames that have one.

ghost use Rattle.std.specs.Prelude.{◌≡◌, ◌<◌, ◌∷◌, [], length, is_ok, Some, IfErr, if◌then◌else◌};
ghost use Rattle.std.specs.Option.{option_copied};
ghost use Rattle.grain_frame.specs.Receivers.{bound_at, newest_held, with_newest, without_newest};

use grain_value::Held;
use std::alloc::Global;
use std::marker::Model;
use std::mem;

/// The `this` of a frame, and the level of the frame.
#[derive(Drop)]
pub struct Bound {
    pub level: usize,
    pub held: Held,
}

/// The `this` of each frame that has one, the newest last. The running frame has a `this` if the newest
/// one here is of its level. So nothing changes here when a function is called without a `this`.
#[derive(Drop)]
pub struct Receivers {
    bound: Vec<Bound>,
}

// Contracts see the newest first.
impl Model for Receivers {
    ghost use Rattle.std.specs.Prelude.{List, reverse};
    ghost use Rattle.grain_frame.specs.declared.receivers.Bound.{Bound};
    ghost use Rattle.std.specs.Coded.{codes};
    ghost use Rattle.grain_value.specs.laws.TreeCode.{coded_tree};

    ghost Value = { List Bound };

    ghost coded = { Prim.hlevel (codes, coded_tree) };

    ghost view = { λ s. reverse s.bound.items };
}

impl Receivers {
    /// An empty list: no frame has a `this`. It takes no memory.
    pub fn new(alloc: Global) -> Receivers
        ensures { result ≡ [] }
    {
        Receivers {
            bound: Vec::new(alloc),
        }
    }

    /// The `this` of the running frame, if it has one. `level` is the level of this frame.
    pub fn at(&self, level: usize) -> Option<&Held>
        ensures { option_copied result ≡ bound_at level self.now }
    {
        match self.bound.last() {
            Some(bound) if bound.level == level => Some(&bound.held),
            _ => None,
        }
    }

    /// Gives a frame of this level a `this`. If memory runs out, nothing changes, and the
    /// value comes back.
    pub fn bind(&mut self, level: usize, held: Held) -> Result<(), Held>
        ensures bound { self.new ≡ (if is_ok result
            then record { level = level; held = held } ∷ self.old
            else self.old) }
        ensures back { IfErr result (λ h. h ≡ held) }
    {
        match self.bound.push(Bound { level, held }) {
            Ok(()) => Ok(()),
            Err(refused) => Err(refused.value.held),
        }
    }

    /// Takes the newest `this` away, because its frame is over, and gives what it holds.
    pub fn unbind(&mut self) -> Held
        requires there { 0 < length self.old }
        ensures value { newest_held self.old ≡ Some result }
        ensures rest { self.new ≡ without_newest self.old }
    {
        match self.bound.pop() {
            Some(bound) => bound.held,
            None => unreachable!(),
        }
    }

    /// The newest `this` holds this from now on. It gives what it held.
    pub fn replace(&mut self, held: Held) -> Held
        requires there { 0 < length self.old }
        ensures value { newest_held self.old ≡ Some result }
        ensures after { self.new ≡ with_newest held self.old }
    {
        let last = self.bound.len() - 1;
        mem::replace(&mut self.bound[last].held, held)
    }
}
