//! Property steps: at maps, and at values for which the host's getters and setters are asked.

ghost use Rattle.std.specs.Prelude.{◌≡◌, ◌+◌, ◌∷◌, [], ℕ, Some, None, true, false};
ghost use Rattle.grain_value.specs.declared.values.Dynamic.{Dynamic as AnyValue};
ghost use Rattle.grain_program.specs.View.{name_of};
ghost use Rattle.grain_chain.specs.Standings.{Stands, has_key};
ghost use Rattle.grain_value.specs.declared.values.Dynamic.TheVariants as dynamic;
ghost use Rattle.grain_fault.specs.Problems.{problem_of};
ghost use Rattle.grain_means.specs.Walks.{at_mark, asking, index_get, index_set, property_step, by_accessor, get_property, got_instead, set_instead, set_property, into_answer, OfProperty, named};
ghost use Rattle.grain_chain.specs.Walking.{place_of, role_in, gone_into, AtStep, steps_left, backs};
ghost use Rattle.grain_chain.specs.Going.{Goes, Takes, Needs, NeedsOr, setting, rest, next_step};

use crate::asking::{name_text, one_argument, two_arguments};
use crate::contexts::{Context, name_at, name_of_program};
use crate::origins::{AnswerUse, Awaited, Onward, Origin, Role};
use crate::requests::WalkAnswer;
use crate::steps::stopping;
use crate::walks::Walk;
use grain_fault::{EvalAltResult, Position};
use grain_value::{Array, Dynamic, OutOfMemory, PathStep};
use std::mem;

impl Walk {
    // Takes a property step, with the mark at its start. Returns None if the walk goes on
    // at the next step.
    pub(crate) fn property(
        &mut self,
        context: Context<'_>,
        role: Role,
        name: u32,
        getter: u32,
        setter: u32,
        pos: Position,
    ) -> Result<Option<WalkAnswer>, OutOfMemory>
        requires at { AtStep context.program.now self.old }
        ensures takes { Takes context.entry self.old
            (at_mark self.old.step (rest context.entry self.old)
            (property_step (setting context.entry self.old) self.old.step name getter setter pos
            (role_in role self.old.value) (next_step context.entry self.old) (place_of self.old)
            (rest context.entry self.old))) result self.new }
        ensures needs { NeedsOr context.entry.program.now self.new result
            (steps_left context.entry.program.now self.old + 3) }
    {
        let key = name_at(context.program, name);
        match has_key(self.trail.target(), key) {
            Some(is_there) => self.property_by_key(context, role, name, pos, is_there),
            None => self.property_by_host(context, role, name, getter, setter, pos),
        }
    }

    // Takes a property step at a map, with the mark at its start.
    fn property_by_key(
        &mut self,
        context: Context<'_>,
        role: Role,
        name: u32,
        pos: Position,
        is_there: bool,
    ) -> Result<Option<WalkAnswer>, OutOfMemory>
        requires { (v : AnyValue) × (Stands self.old.trail v
            × (has_key v (name_of context.program.now name) ≡ Some is_there)) }
        ensures takes { (getter setter : ℕ) → Takes context.entry self.old
            (at_mark self.old.step (rest context.entry self.old)
            (property_step (setting context.entry self.old) self.old.step name getter setter pos
            (role_in role self.old.value) (next_step context.entry self.old) (place_of self.old)
            (rest context.entry self.old))) result self.new }
        ensures needs { (n : ℕ) → NeedsOr context.entry.program.now self.new result n }
    {
        let key = name_of_program(self.alloc, context.program, name)?;
        self.pass_mark()?;
        if is_there {
            self.deeper(PathStep::Key(key))?;
            return Ok(None);
        }
        self.missing_key(context, role, pos, Origin::Nothing, key)
    }

    // Takes a property step at a value that is no map, with the mark at its start.
    fn property_by_host(
        &mut self,
        context: Context<'_>,
        role: Role,
        name: u32,
        getter: u32,
        setter: u32,
        pos: Position,
    ) -> Result<Option<WalkAnswer>, OutOfMemory>
        requires at { AtStep context.program.now self.old }
        requires host { (v : AnyValue) × (Stands self.old.trail v
            × (has_key v (name_of context.program.now name) ≡ None)) }
        ensures takes { Takes context.entry self.old
            (at_mark self.old.step (rest context.entry self.old)
            (property_step (setting context.entry self.old) self.old.step name getter setter pos
            (role_in role self.old.value) (next_step context.entry self.old) (place_of self.old)
            (rest context.entry self.old))) result self.new }
        ensures needs { NeedsOr context.entry.program.now self.new result
            (steps_left context.entry.program.now self.old + 3) }
    {
        self.pass_mark()?;
        stopping(self.by_accessor(context, role, name, getter, setter, pos))
    }

    // Asks the host's getters and setters, for a property of a value that is no map.
    fn by_accessor(
        &mut self,
        context: Context<'_>,
        role: Role,
        name: u32,
        getter: u32,
        setter: u32,
        pos: Position,
    ) -> Result<WalkAnswer, OutOfMemory>
        requires at { AtStep context.program.now self.old }
        ensures goes { Goes context.entry self.old
            (by_accessor (setting context.entry self.old) self.old.step name getter setter pos
            (role_in role self.old.value) (next_step context.entry self.old) (place_of self.old)
            (rest context.entry self.old)) result self.new }
        ensures needs { Needs context.entry.program.now self.new result
            (steps_left context.entry.program.now self.old + 3) }
    {
        match role {
            Role::Writes => self.set_value(context, name, setter, pos),
            Role::Operates(op) => {
                let into = AnswerUse {
                    pos,
                    own: false,
                    origin: Origin::Property {
                        name,
                        setter,
                        pos,
                        assigned: true,
                    },
                    go: Onward::Operate(pos, op),
                };
                self.get_property(context, name, getter, pos, into)
            }
            Role::Reads => self.get_own_property(context, name, getter, setter, pos, true),
            Role::Passes => self.get_own_property(context, name, getter, setter, pos, false),
        }
    }

    // Asks a getter for the value in which the walk goes on, or, if `own`, for the chain's value.
    fn get_own_property(
        &mut self,
        context: Context<'_>,
        name: u32,
        getter: u32,
        setter: u32,
        pos: Position,
        own: bool,
    ) -> Result<WalkAnswer, OutOfMemory>
        requires at { AtStep context.program.now self.old }
        ensures goes { Goes context.entry self.old
            (get_property (setting context.entry self.old) self.old.step name getter pos
            (place_of self.old) (rest context.entry self.old)
            (into_answer (setting context.entry self.old) self.old.step pos own
            (OfProperty name setter pos false) (next_step context.entry self.old) (place_of self.old)
            (rest context.entry self.old))) result self.new }
        ensures needs { Needs context.entry.program.now self.new result
            (steps_left context.entry.program.now self.old + 3) }
    {
        let into = AnswerUse {
            pos,
            own,
            origin: Origin::Property {
                name,
                setter,
                pos,
                assigned: false,
            },
            go: Onward::Further,
        };
        self.get_property(context, name, getter, pos, into)
    }

    // Asks a getter for a property.
    fn get_property(
        &mut self,
        context: Context<'_>,
        name: u32,
        getter: u32,
        pos: Position,
        into: AnswerUse,
    ) -> Result<WalkAnswer, OutOfMemory>
        requires at { AtStep context.program.now self.old }
        ensures goes { Goes context.entry self.old
            (get_property (setting context.entry self.old) self.old.step name getter pos
            (place_of self.old) (rest context.entry self.old)
            (gone_into context.entry.engine.now context.entry.program.now self.old into))
            result self.new }
        ensures needs { Needs context.entry.program.now self.new result
            (steps_left context.entry.program.now self.old + 3) }
    {
        let getter = name_at(context.program, getter);
        let values = Array::new(self.alloc);
        self.ask(
            pos,
            getter,
            values,
            Awaited::PropertyGot { name, pos, into },
        )
    }

    // Asks an indexer for a property after its getter failed.
    pub(crate) fn get_instead(
        &mut self,
        context: Context<'_>,
        name: u32,
        pos: Position,
        fault: EvalAltResult,
        into: AnswerUse,
    ) -> Result<WalkAnswer, OutOfMemory>
        requires at { AtStep context.program.now self.old }
        ensures goes { Goes context.entry self.old
            (asking self.old.step pos index_get (Some (place_of self.old))
            (named (setting context.entry self.old) name ∷ []) (rest context.entry self.old)
            (got_instead self.old.step (problem_of fault) (rest context.entry self.old)
            (gone_into context.entry.engine.now context.entry.program.now self.old into)))
            result self.new }
        ensures needs { Needs context.entry.program.now self.new result
            (steps_left context.entry.program.now self.old + 2) }
    {
        let name = name_text(self.alloc, context.program, name)?;
        let values = one_argument(self.alloc, name)?;
        self.ask(
            pos,
            "index$get$",
            values,
            Awaited::GotInstead { fault, into },
        )
    }

    // Asks a setter to set the chain's value.
    fn set_value(
        &mut self,
        context: Context<'_>,
        name: u32,
        setter: u32,
        pos: Position,
    ) -> Result<WalkAnswer, OutOfMemory>
        ensures goes { Goes context.entry self.old
            (set_property (setting context.entry self.old) self.old.step name setter pos true
            (place_of self.old) self.old.value dynamic.Unit (rest context.entry self.old))
            result self.new }
        ensures needs { Needs context.entry.program.now self.new result (backs self.old + 2) }
    {
        let value = mem::replace(&mut self.value, Dynamic::Unit);
        self.gives = Dynamic::Unit;
        self.set_property(context, name, setter, pos, true, value)
    }

    // Asks a setter to set a property.
    pub(crate) fn set_property(
        &mut self,
        context: Context<'_>,
        name: u32,
        setter: u32,
        pos: Position,
        assigned: bool,
        set: Dynamic,
    ) -> Result<WalkAnswer, OutOfMemory>
        ensures goes { Goes context.entry self.old
            (set_property (setting context.entry self.old) self.old.step name setter pos assigned
            (place_of self.old) set self.old.gives (rest context.entry self.old))
            result self.new }
        ensures needs { Needs context.entry.program.now self.new result (backs self.old + 2) }
    {
        let values = one_argument(self.alloc, set.copy(self.alloc)?)?;
        let setter = name_at(context.program, setter);
        let awaits = Awaited::PropertySet {
            name,
            pos,
            assigned,
            set,
        };
        self.ask(pos, setter, values, awaits)
    }

    // Asks an indexer to set a property after its setter failed.
    pub(crate) fn set_instead(
        &mut self,
        context: Context<'_>,
        name: u32,
        pos: Position,
        set: Dynamic,
        fault: EvalAltResult,
        assigned: bool,
    ) -> Result<WalkAnswer, OutOfMemory>
        ensures goes { Goes context.entry self.old
            (asking self.old.step pos index_set (Some (place_of self.old))
            (named (setting context.entry self.old) name ∷ set ∷ []) (rest context.entry self.old)
            (set_instead self.old.step (problem_of fault) assigned self.old.gives
            (rest context.entry self.old))) result self.new }
        ensures needs { Needs context.entry.program.now self.new result (backs self.old + 1) }
    {
        let name = name_text(self.alloc, context.program, name)?;
        let values = two_arguments(self.alloc, name, set)?;
        let awaits = Awaited::SetInstead { fault, assigned };
        self.ask(pos, "index$set$", values, awaits)
    }
}

// Whether a map has a key. Returns None if the value is no map.
fn has_key(value: &Dynamic, key: &str) -> Option<bool>
    ensures { result ≡ has_key value.now key.now }
{
    match value {
        Dynamic::Map(map) => Some(map.get(key).is_some()),
        _ => None,
    }
}
