//! Going further down in the same root, going into a new one, and missing keys.

ghost use Rattle.std.specs.Prelude.{◌≡◌, ◌+◌, ◌++◌, ◌∷◌, [], ℕ, IfOk, IfErr};
ghost use Rattle.grain_value.specs.View.{tree};
ghost use Rattle.grain_value.specs.Paths.{Leads};
ghost use Rattle.grain_value.specs.Maps.{Entries};
ghost use Rattle.grain_value.specs.declared.values.Dynamic.{Dynamic as AnyValue};
ghost use Rattle.grain_value.specs.declared.values.Dynamic.TheVariants as dynamic;
ghost use Rattle.grain_means.specs.Walks.{missing_key, assigning};
ghost use Rattle.grain_chain.specs.Standings.{Stands, key_added};
ghost use Rattle.grain_chain.specs.Walking.{place_of, role_in, origin_of};
ghost use Rattle.grain_chain.specs.Going.{Takes, NeedsOr, WentIn, setting, rest, next_step, with_value};

use crate::contexts::Context;
use crate::origins::{Origin, Role};
use crate::requests::WalkAnswer;
use crate::steps::stopping;
use crate::walks::Walk;
use grain_fault::{EvalAltResult, Position};
use grain_value::{Dynamic, Held, OutOfMemory, PathStep, Text};

impl Walk {
    // Goes one step further down in the same root, at a mark.
    pub(crate) fn deeper(&mut self, step: PathStep) -> Result<(), OutOfMemory>
        requires { Leads (self.old.trail.path ++ step ∷ []) (tree self.old.trail.here.value) }
        ensures deeper { IfOk result (λ _. self.new ≡ record self.old {
          trail = record self.old.trail { path = self.old.trail.path ++ step ∷ [] };
          marks = self.old.marks + 1;
        }) }
        ensures unchanged { IfErr result (λ _. self.new ≡ self.old) }
    {
        let marks = self.next_mark()?;
        self.trail.deepen(step)?;
        self.marks = marks;
        Ok(())
    }

    // Goes into a new root, at a mark.
    pub(crate) fn enter_root(&mut self, origin: Origin, root: Held) -> Result<(), OutOfMemory>
        ensures entered { IfOk result (λ _. WentIn self.old origin root self.new) }
        ensures unchanged { IfErr result (λ _. self.new ≡ self.old) }
    {
        let marks = self.next_mark()?;
        self.trail.enter_root(self.alloc, root, self.step, origin)?;
        self.marks = marks;
        Ok(())
    }

    // Handles a key that the map lacks: a chain that assigns here adds it; under `strict_properties` it
    // is a fault; else the walk goes on at unit. Returns None if the walk goes on at the next step.
    pub(crate) fn missing_key(
        &mut self,
        context: Context<'_>,
        role: Role,
        pos: Position,
        origin: Origin,
        key: Text,
    ) -> Result<Option<WalkAnswer>, OutOfMemory>
        requires { (entries : Entries) × Stands self.old.trail (dynamic.Map entries) }
        ensures takes { (v : AnyValue) → Stands self.old.trail v → Takes context.entry self.old
            (missing_key (setting context.entry self.old) self.old.step pos (origin_of origin)
            (role_in role self.old.value) key (with_value self.old v)
            (next_step context.entry self.old) (place_of self.old) (rest context.entry self.old))
            result self.new }
        ensures needs { (n : ℕ) → NeedsOr context.entry.program.now self.new result n }
    {
        if assigns(role) {
            self.add_key(key)?;
            return Ok(None);
        }
        if context.engine.strict_properties {
            return stopping(self.raise(EvalAltResult::ErrorPropertyNotFound(key, pos)));
        }
        let read_only = self.trail.is_read_only();
        let value = Dynamic::Unit;
        self.enter_root(origin, Held { value, read_only })?;
        Ok(None)
    }

    // Adds the key, with unit, to the map at the walk's place, and goes to it, at a mark.
    fn add_key(&mut self, key: Text) -> Result<(), OutOfMemory>
        requires { (entries : Entries) × Stands self.old.trail (dynamic.Map entries) }
        ensures added { (v : AnyValue) → Stands self.old.trail v → IfOk result (λ _.
            self.new ≡ record self.old {
              trail = key_added self.old.trail key v;
              marks = self.old.marks + 1;
            }) }
        ensures unchanged { IfErr result (λ _. self.new ≡ self.old) }
    {
        let marks = self.next_mark()?;
        self.trail.add_key(self.alloc, key)?;
        self.marks = marks;
        Ok(())
    }
}

// Whether the chain assigns at a step with this role.
fn assigns(role: Role) -> bool
    ensures { (v : AnyValue) → result ≡ assigning (role_in role v) }
{
    match role {
        Role::Passes | Role::Reads => false,
        Role::Writes | Role::Operates(_) => true,
    }
}
