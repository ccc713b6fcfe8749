//! Index steps: at values that have indices of their own, and at those for which the host's
//! indexers are asked.

ghost use Rattle.std.specs.Prelude.{◌≡◌, ◌+◌, ℕ, true, false, Some, Ok, Err, IfOk};
ghost use Rattle.grain_fault.specs.declared.places.Position.{Position as AnyPosition};
ghost use Rattle.grain_value.specs.Cells.{flat};
ghost use Rattle.grain_value.specs.Locating.{locate};
ghost use Rattle.grain_value.specs.Parts.{part};
ghost use Rattle.grain_value.specs.Maps.{Entries};
ghost use Rattle.grain_value.specs.declared.values.Dynamic.{Dynamic as AnyValue};
ghost use Rattle.grain_value.specs.declared.values.Dynamic.TheVariants as dynamic;
ghost use Rattle.grain_program.specs.View.{View as AnyProgram};
ghost use Rattle.grain_means.specs.Walks.{at_mark, index_step, indexed, is_indexed, origin_of_part, rooted, key_of, missing_key, OfIndex};
ghost use Rattle.grain_chain.specs.Standings.{Stands};
ghost use Rattle.grain_chain.specs.Walking.{place_of, role_in, origin_of, operand_of, AtStep, steps_left};
ghost use Rattle.grain_chain.specs.Going.{Goes, Takes, NeedsOr, setting, rest, next_step, with_value};
ghost use Rattle.grain_chain.specs.declared.contexts.Context.{Context as AnyContext};

use crate::contexts::Context;
use crate::faults::{out_of_bounds, wrong_index};
use crate::origins::{Origin, Role};
use crate::requests::WalkAnswer;
use crate::steps::stopping;
use crate::walks::Walk;
use grain_fault::Position;
use grain_value::{Dynamic, Held, OutOfMemory, PathStep, Spot, Text, ValueFault};
use std::alloc::Global;

impl Walk {
    // Takes an index step, with the mark at its start. Returns None if the walk goes on
    // at the next step.
    pub(crate) fn index(
        &mut self,
        context: Context<'_>,
        role: Role,
        operand: u32,
        pos: Position,
        bracket: Position,
    ) -> Result<Option<WalkAnswer>, OutOfMemory>
        requires at { AtStep context.program.now self.old }
        ensures takes { Takes context.entry self.old
            (at_mark self.old.step (rest context.entry self.old)
            (index_step (setting context.entry self.old) self.old.step (operand_of self.old operand)
            pos bracket (role_in role self.old.value) (next_step context.entry self.old)
            (place_of self.old) (rest context.entry self.old))) result self.new }
        ensures needs { NeedsOr context.entry.program.now self.new result
            (steps_left context.entry.program.now self.old + 3) }
    {
        if is_indexed(self.trail.target()) {
            self.index_by_value(context, role, operand, pos, bracket)
        } else {
            self.index_by_host(context, role, operand, pos, bracket)
        }
    }

    // Takes an index step at a value that has no indices of its own, with the mark at its start.
    fn index_by_host(
        &mut self,
        context: Context<'_>,
        role: Role,
        operand: u32,
        pos: Position,
        bracket: Position,
    ) -> Result<Option<WalkAnswer>, OutOfMemory>
        requires at { AtStep context.program.now self.old }
        requires host { (v : AnyValue) × (Stands self.old.trail v × (is_indexed v ≡ false)) }
        ensures takes { Takes context.entry self.old
            (at_mark self.old.step (rest context.entry self.old)
            (index_step (setting context.entry self.old) self.old.step (operand_of self.old operand)
            pos bracket (role_in role self.old.value) (next_step context.entry self.old)
            (place_of self.old) (rest context.entry self.old))) result self.new }
        ensures needs { NeedsOr context.entry.program.now self.new result
            (steps_left context.entry.program.now self.old + 3) }
    {
        // Only the contract names it.
        let _ = context;
        let index = self.operand(operand)?;
        self.pass_mark()?;
        stopping(self.by_indexer(role, pos, bracket, index))
    }

    // Takes an index step at a value that has indices of its own, with the mark at its start.
    fn index_by_value(
        &mut self,
        context: Context<'_>,
        role: Role,
        operand: u32,
        pos: Position,
        bracket: Position,
    ) -> Result<Option<WalkAnswer>, OutOfMemory>
        requires { (v : AnyValue) × (Stands self.old.trail v × (is_indexed v ≡ true)) }
        ensures takes { Takes context.entry self.old
            (at_mark self.old.step (rest context.entry self.old)
            (index_step (setting context.entry self.old) self.old.step (operand_of self.old operand)
            pos bracket (role_in role self.old.value) (next_step context.entry self.old)
            (place_of self.old) (rest context.entry self.old))) result self.new }
        ensures needs { (n : ℕ) → NeedsOr context.entry.program.now self.new result n }
    {
        let index = self.flat_operand(context, operand)?;
        self.pass_mark()?;
        match index {
            Some(index) => self.at_index(context, role, operand, pos, bracket, index),
            None => stopping(self.raise_data_race(pos)),
        }
    }

    // A copy of the operand of this number, or unit if the chain has none.
    pub(crate) fn operand(&self, operand: u32) -> Result<Dynamic, OutOfMemory>
        ensures { IfOk result (λ value. value ≡ operand_of self.now operand) }
    {
        match self.operands.get(operand as usize) {
            Some(operand) => operand.copy(self.alloc),
            None => Ok(Dynamic::Unit),
        }
    }

    // A copy of the operand of this number, or, if it is a cell, of what it holds. Returns None
    // if that is lent.
    pub(crate) fn flat_operand(
        &self,
        context: Context<'_>,
        operand: u32,
    ) -> Result<Option<Dynamic>, OutOfMemory>
        ensures { IfOk result (λ value. value
            ≡ flat context.entry.cells.now (operand_of self.now operand)) }
    {
        match self.operands.get(operand as usize) {
            None => Ok(Some(Dynamic::Unit)),
            Some(operand) => match operand.flat(context.cells) {
                None => Ok(None),
                Some(value) => Ok(Some(value.copy(self.alloc)?)),
            },
        }
    }

    // Looks an index up in a value that has indices of its own, and goes there.
    fn at_index(
        &mut self,
        context: Context<'_>,
        role: Role,
        operand: u32,
        pos: Position,
        bracket: Position,
        index: Dynamic,
    ) -> Result<Option<WalkAnswer>, OutOfMemory>
        requires { (v : AnyValue) × (Stands self.old.trail v × (is_indexed v ≡ true)) }
        ensures takes { (v : AnyValue) → Stands self.old.trail v → Takes context.entry self.old
            (indexed (setting context.entry self.old) self.old.step pos bracket
            (role_in role self.old.value) (operand_of self.old operand) index (with_value self.old v)
            (next_step context.entry self.old) (place_of self.old) (rest context.entry self.old)
            (locate v index)) result self.new }
        ensures needs { (n : ℕ) → NeedsOr context.entry.program.now self.new result n }
    {
        match self.trail.target().locate(&index) {
            Ok(spot) => self.at_spot(role, spot, index),
            Err(fault) => self.not_there(context, role, operand, pos, bracket, index, fault),
        }
    }

    // Handles an index that names nothing there.
    fn not_there(
        &mut self,
        context: Context<'_>,
        role: Role,
        operand: u32,
        pos: Position,
        bracket: Position,
        index: Dynamic,
        fault: ValueFault,
    ) -> Result<Option<WalkAnswer>, OutOfMemory>
        requires { (v : AnyValue) × (Stands self.old.trail v × (is_indexed v ≡ true)
            × (locate v index ≡ Err fault)) }
        ensures takes { (v : AnyValue) → Stands self.old.trail v → Takes context.entry self.old
            (indexed (setting context.entry self.old) self.old.step pos bracket
            (role_in role self.old.value) (operand_of self.old operand) index (with_value self.old v)
            (next_step context.entry self.old) (place_of self.old) (rest context.entry self.old)
            (Err fault)) result self.new }
        ensures needs { (n : ℕ) → NeedsOr context.entry.program.now self.new result n }
    {
        match fault {
            ValueFault::Bounds {
                length,
                index: place,
            } => {
                let fault = out_of_bounds(self.trail.target(), length, place, pos);
                stopping(self.raise(fault))
            }
            ValueFault::NoKey => {
                let key = key_of(self.alloc, index);
                self.missing_index(context, role, operand, pos, bracket, key)
            }
            ValueFault::WrongType => {
                let fault = wrong_index(self.alloc, self.trail.target(), &index, pos)?;
                stopping(self.raise(fault))
            }
            _ => unreachable!(),
        }
    }

    // Goes to what an index names.
    fn at_spot(
        &mut self,
        role: Role,
        spot: Spot,
        index: Dynamic,
    ) -> Result<Option<WalkAnswer>, OutOfMemory>
        requires { (v : AnyValue) × (Stands self.old.trail v × (locate v index ≡ Ok spot)) }
        ensures takes { (x : AnyContext) (v i : AnyValue) (pos bracket : AnyPosition) →
            Stands self.old.trail v → Takes x self.old
            (indexed (setting x self.old) self.old.step pos bracket (role_in role self.old.value) i index
            (with_value self.old v) (next_step x self.old) (place_of self.old) (rest x self.old)
            (Ok spot)) result self.new }
        ensures needs { (p : AnyProgram) (n : ℕ) → NeedsOr p self.new result n }
    {
        match spot {
            Spot::Item(item) => {
                self.deeper(PathStep::Index(item))?;
                Ok(None)
            }
            Spot::Key => {
                let key = key_of(self.alloc, index);
                self.deeper(PathStep::Key(key))?;
                Ok(None)
            }
            Spot::Byte(_) => self.at_part(role, spot),
            Spot::Character(_) => self.at_part(role, spot),
            Spot::Bit(_) => self.at_part(role, spot),
        }
    }

    // Goes to a byte, a character or a bit, which becomes a new root.
    fn at_part(&mut self, role: Role, spot: Spot) -> Result<Option<WalkAnswer>, OutOfMemory>
        ensures takes { (x : AnyContext) (v : AnyValue) → Stands self.old.trail v → Takes x self.old
            (rooted (setting x self.old) self.old.step
            (origin_of_part (role_in role self.old.value) spot)
            (record (with_value self.old v) { value = part v spot }) (next_step x self.old)
            (place_of self.old) (rest x self.old)) result self.new }
        ensures needs { (p : AnyProgram) (n : ℕ) → NeedsOr p self.new result n }
    {
        let origin = origin_of_part(role, spot);
        let value = self.trail.target().part(spot);
        let read_only = self.trail.is_read_only();
        self.enter_root(origin, Held { value, read_only })?;
        Ok(None)
    }

    // Handles an index that is a key which the map lacks.
    fn missing_index(
        &mut self,
        context: Context<'_>,
        role: Role,
        operand: u32,
        pos: Position,
        bracket: Position,
        key: Text,
    ) -> Result<Option<WalkAnswer>, OutOfMemory>
        requires { (entries : Entries) × Stands self.old.trail (dynamic.Map entries) }
        ensures takes { (v : AnyValue) → Stands self.old.trail v → Takes context.entry self.old
            (missing_key (setting context.entry self.old) self.old.step pos
            (OfIndex (operand_of self.old operand) bracket) (role_in role self.old.value) key
            (with_value self.old v) (next_step context.entry self.old) (place_of self.old)
            (rest context.entry self.old)) result self.new }
        ensures needs { (n : ℕ) → NeedsOr context.entry.program.now self.new result n }
    {
        let index = self.operand(operand)?;
        self.missing_key(context, role, pos, Origin::Index { index, bracket }, key)
    }
}

// Where a byte, character or bit comes from as a root: it is put back unless the chain only reads it.
fn origin_of_part(role: Role, spot: Spot) -> Origin
    ensures { (v : AnyValue) → origin_of result ≡ origin_of_part (role_in role v) spot }
{
    match role {
        Role::Reads => Origin::Nothing,
        _ => Origin::Part(spot),
    }
}

// The key that an index means; empty if it is no text.
fn key_of(alloc: Global, index: Dynamic) -> Text
    ensures { result ≡ key_of index }
{
    match index {
        Dynamic::Text(key) => key,
        _ => Text::new(alloc),
    }
}

// Whether a value has indices of its own.
fn is_indexed(value: &Dynamic) -> bool
    ensures { result ≡ is_indexed value.now }
{
    matches!(
        value,
        Dynamic::Array(_) | Dynamic::Blob(_) | Dynamic::Text(_) | Dynamic::Int(_) | Dynamic::Map(_)
    )
}
