//! The way back of a walk: each new root is left and set back where it came from.

ghost use Rattle.std.specs.Prelude.{◌≡◌, ◌+◌, ℕ, Bool, true, IfOk, IfErr};
ghost use Rattle.grain_value.specs.Parts.{with_part, part_type};
ghost use Rattle.grain_value.specs.Writing.{type_name_of};
ghost use Rattle.grain_value.specs.declared.values.Dynamic.{Dynamic as AnyValue};
ghost use Rattle.grain_fault.specs.Problems.{Plain, MismatchDataType};
ghost use Rattle.grain_chain.specs.Standings.{Stands};
ghost use Rattle.grain_means.specs.Tasks.{WalkEnded};
ghost use Rattle.grain_means.specs.Walks.{set_back, failing, is_change, OfPart, OfIndex, OfProperty};
ghost use Rattle.grain_chain.specs.Walking.{place_of, origin_of, backs};
ghost use Rattle.grain_program.specs.View.{View as AnyProgram};
ghost use Rattle.grain_chain.specs.Going.{Goes, GoesBack, Needs, NeedsOr, WrotePart, setting, rest};
ghost use Rattle.grain_chain.specs.declared.contexts.Context.{Context as AnyContext};

use crate::contexts::Context;
use crate::faults::wrong_part;
use crate::origins::Origin;
use crate::requests::WalkAnswer;
use crate::steps::stopping;
use crate::walks::Walk;
use grain_fault::Position;
use grain_value::{Dynamic, OutOfMemory, Spot};
use std::mem;

impl Walk {
    // Walks back: leaves each new root and sets it back, and then ends with what the walk gives.
    pub(crate) fn walk_back(
        &mut self,
        context: Context<'_>,
        changed: bool,
    ) -> Result<WalkAnswer, OutOfMemory>
        ensures goes { Goes context.entry self.old
            (rest context.entry self.old (WalkEnded self.old.gives changed)) result self.new }
        ensures needs { Needs context.entry.program.now self.new result (backs self.old) }
    {
        let mut changed = changed;
        'back: loop {
            let Some(gone) = self.trail.leave_root() else {
                let value = mem::replace(&mut self.gives, Dynamic::Unit);
                return Ok(WalkAnswer::Ended { value, changed });
            };
            self.step = gone.step;
            changed = gone.origin.counts(changed);
            match self.set_back(context, gone.origin, gone.root.value, changed)? {
                None => {}
                Some(answer) => return Ok(answer),
            }
        }
    }

    // Sets back a root that was left. Returns None if the way back goes on.
    fn set_back(
        &mut self,
        context: Context<'_>,
        origin: Origin,
        inner: Dynamic,
        changed: bool,
    ) -> Result<Option<WalkAnswer>, OutOfMemory>
        requires { is_change (origin_of origin) ≡ true → changed ≡ true }
        ensures goes { GoesBack context.entry self.old
            (set_back (setting context.entry self.old) self.old.step (origin_of origin)
            (place_of self.old) inner self.old.gives changed (rest context.entry self.old))
            changed result self.new }
        ensures needs { NeedsOr context.entry.program.now self.new result (backs self.old + 2) }
    {
        match origin {
            Origin::Part(spot) => self.put_part(spot, inner),
            Origin::Index { index, bracket } => self.index_back(bracket, index, inner, changed),
            Origin::Property {
                name,
                setter,
                pos,
                assigned,
            } => self.property_back(context, name, setter, pos, assigned, inner, changed),
            Origin::Method => Ok(None),
            Origin::Nothing => Ok(None),
        }
    }

    // Sets back what an indexer gave, if something in it changed.
    fn index_back(
        &mut self,
        bracket: Position,
        index: Dynamic,
        inner: Dynamic,
        changed: bool,
    ) -> Result<Option<WalkAnswer>, OutOfMemory>
        ensures goes { (x : AnyContext) → GoesBack x self.old
            (set_back (setting x self.old) self.old.step (OfIndex index bracket) (place_of self.old)
            inner self.old.gives changed (rest x self.old)) changed result self.new }
        ensures needs { (p : AnyProgram) → NeedsOr p self.new result (backs self.old + 2) }
    {
        if changed {
            return stopping(self.set_by_index(bracket, index, inner));
        }
        Ok(None)
    }

    // Sets back what a getter gave, if something in it changed.
    fn property_back(
        &mut self,
        context: Context<'_>,
        name: u32,
        setter: u32,
        pos: Position,
        assigned: bool,
        inner: Dynamic,
        changed: bool,
    ) -> Result<Option<WalkAnswer>, OutOfMemory>
        ensures goes { GoesBack context.entry self.old
            (set_back (setting context.entry self.old) self.old.step
            (OfProperty name setter pos assigned) (place_of self.old) inner self.old.gives changed
            (rest context.entry self.old)) changed result self.new }
        ensures needs { NeedsOr context.entry.program.now self.new result (backs self.old + 2) }
    {
        if changed {
            return stopping(self.set_property(context, name, setter, pos, assigned, inner));
        }
        Ok(None)
    }

    // Puts a byte, a character or a bit back.
    fn put_part(&mut self, spot: Spot, part: Dynamic) -> Result<Option<WalkAnswer>, OutOfMemory>
        ensures goes { (x : AnyContext) (changed : Bool) → GoesBack x self.old
            (set_back (setting x self.old) self.old.step (OfPart spot) (place_of self.old) part
            self.old.gives changed (rest x self.old)) changed result self.new }
        ensures needs { (p : AnyProgram) (n : ℕ) → NeedsOr p self.new result n }
    {
        self.pass_mark()?;
        let Ok(is_put) = self.write_part(spot, &part) else {
            return Err(OutOfMemory);
        };
        if is_put {
            return Ok(None);
        }
        self.refuse_part(spot, &part)
    }

    // Writes a byte, a character or a bit into the value at the walk's place, at a mark. If it does
    // not have the type that fits there, it says false, and nothing is done.
    fn write_part(&mut self, spot: Spot, part: &Dynamic) -> Result<bool, OutOfMemory>
        ensures wrote { IfOk result (λ is_put. (v : AnyValue) × (Stands self.old.trail v
            × WrotePart self.old (with_part v spot part.now) is_put self.new)) }
        ensures unchanged { IfErr result (λ _. self.new ≡ self.old) }
    {
        let marks = self.next_mark()?;
        if self.trail.put_part(self.alloc, spot, part)? {
            self.marks = marks;
            return Ok(true);
        }
        Ok(false)
    }

    // Raises the fault that what is put back has another type.
    fn refuse_part(&mut self, spot: Spot, part: &Dynamic) -> Result<Option<WalkAnswer>, OutOfMemory>
        ensures goes { (x : AnyContext) (changed : Bool) → GoesBack x self.old
            (failing self.old.step (Plain (MismatchDataType (part_type spot) (type_name_of part.now))
            self.old.pos) (rest x self.old)) changed result self.new }
        ensures needs { (p : AnyProgram) (n : ℕ) → NeedsOr p self.new result n }
    {
        let fault = wrong_part(self.alloc, spot, part, self.pos)?;
        stopping(self.raise(fault))
    }
}
