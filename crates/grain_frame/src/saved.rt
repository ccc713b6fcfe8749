//! Scopes of frames that wait for the frames that they called.

ghost use Rattle.std.specs.Prelude.{◌≡◌, ◌<◌, ◌-◌, ◌++◌, ◌∷◌, [], length, take, slice_index_or, is_ok, if◌then◌else◌};

use grain_value::{OutOfMemory, Scope};
use std::alloc::Global;
use std::marker::Model;
use std::mem;

/// The scopes of the frames that wait, the newest last. After them lie empty scopes, whose memory
/// the next frames take over.
#[derive(Drop)]
pub struct SavedScopes {
    alloc: Global,
    scopes: Vec<Scope>,
    saved: usize,
}

impl Model for SavedScopes {
    ghost use Rattle.std.specs.Prelude.{List, [], ◌≡◌, ◌≤◌, All, drop, length, take};
    ghost use Rattle.grain_value.specs.declared.scopes.Entry.{Entry};
    ghost use Rattle.std.specs.Coded.{codes};
    ghost use Rattle.grain_value.specs.laws.TreeCode.{coded_tree};

    ghost Value = { List (List Entry) };

    ghost coded = { Prim.hlevel (codes, coded_tree) };

    ghost view = { λ s. take s.saved s.scopes.items };

    // the scopes after those of the frames that wait are empty
    ghost invariant = { λ s. (s.saved ≤ length s.scopes.items)
        × All (λ (scope : List Entry). scope ≡ []) (drop s.saved s.scopes.items) };
}

impl SavedScopes {
    /// No scopes. It takes no memory.
    pub fn new(alloc: Global) -> SavedScopes
        ensures { result ≡ [] }
    {
        SavedScopes {
            alloc,
            scopes: Vec::new(alloc),
            saved: 0,
        }
    }

    /// Puts the scope aside, and gives an empty one in its place. After want of memory both are as
    /// they were.
    #[inline(always)]
    pub fn save(&mut self, scope: &mut Scope) -> Result<(), OutOfMemory>
        ensures saved { self.new ≡ (if is_ok result then self.old ++ scope.old ∷ [] else self.old) }
        ensures scope { scope.new ≡ (if is_ok result then [] else scope.old) }
    {
        if self.saved < self.scopes.len() {
            mem::swap(&mut self.scopes[self.saved], scope);
            self.saved += 1;
            return Ok(());
        }
        self.save_in_new_place(scope)
    }

    // The same where there is no place that was left.
    #[cold]
    #[inline(never)]
    fn save_in_new_place(&mut self, scope: &mut Scope) -> Result<(), OutOfMemory>
        ensures saved { self.new ≡ (if is_ok result then self.old ++ scope.old ∷ [] else self.old) }
        ensures scope { scope.new ≡ (if is_ok result then [] else scope.old) }
    {
        // This takes nothing away, since no place was left: the proof needs the line.
        self.scopes.truncate(self.saved);
        let waiting = mem::replace(scope, Scope::new(self.alloc));
        match self.scopes.push(waiting) {
            Ok(()) => {
                self.saved += 1;
                Ok(())
            }
            Err(refused) => {
                *scope = refused.value;
                Err(OutOfMemory)
            }
        }
    }

    /// Gives the newest scope back in the place of this one, whose entries go.
    #[inline(always)]
    pub fn restore(&mut self, scope: &mut Scope)
        requires there { 0 < length self.old }
        ensures saved { self.new ≡ take (length self.old - 1) self.old }
        ensures scope { scope.new ≡ slice_index_or self.old (length self.old - 1) [] }
    {
        scope.rewind(0);
        self.saved -= 1;
        mem::swap(&mut self.scopes[self.saved], scope);
    }
}
