//! Where an assignment writes: an entry of the scope, `this`, or the cell that one of them is; or why it
//! does not.

ghost use Rattle.std.specs.Prelude.{◌≡◌, ◌<◌, ◌≤◌, ◌+◌, length, is_some, true};
ghost use Rattle.grain_value.specs.declared.values.Held.{Held};
ghost use Rattle.grain_program.specs.View.{name_of};
ghost use Rattle.grain_means.specs.Rules.{flag_of_cell};
ghost use Rattle.grain_frame.specs.Abstraction.{Raises, this_of};
ghost use Rattle.grain_frame.specs.Targets.{CanBeLent, IsLentAt, HoldsAt, content_at, taken_out, target_in, put_in};
ghost use Rattle.grain_frame.specs.Refusals.{FindsAt, refusal_fault};
ghost use Rattle.grain_frame.specs.declared.targets.Target.TheVariants as to;

use crate::activations::Activation;
use crate::contexts::Context;
use crate::runs::{Progress, Run};
use grain_global::Steps;
use grain_host::Host;
use grain_value::{Dynamic, Held, OutOfMemory};
use std::mem;
use std::sync::ledger::Ledger;

/// Where an assignment writes.
#[derive(Clone, Copy, Debug, PartialEq, Eq)]
pub enum Target {
    /// The entry of the scope at this index, which is no cell.
    Entry(usize),
    /// The cell of this number.
    Cell(usize),
    /// The `this` of the running frame, which is no cell.
    This,
}

/// Why nothing is assigned.
#[derive(Clone, Copy, Debug, PartialEq, Eq)]
pub enum TargetRefusal {
    /// There is no entry at this index.
    NoEntry(usize),
    /// The operand, or the entry, is a cell that is lent.
    Lent,
    /// It can only be read.
    Constant,
    /// The frame has no `this`.
    Unbound,
}

impl Target {
    // The entry at an index, or the cell that it is.
    #[inline(always)]
    fn of_entry(index: usize, cell: Option<usize>) -> Target
        ensures { result ≡ target_in (to.Entry index) cell }
    {
        match cell {
            Some(cell) => Target::Cell(cell),
            None => Target::Entry(index),
        }
    }
}

impl<H: Host> Run<H> {
    // The frame's `this` is this value.
    fn set_this(&mut self, held: Held)
        requires { is_some (this_of self.old) ≡ true }
        ensures { self.new ≡ put_in self.old to.This held }
    {
        let _old = self.receivers.replace(held);
    }

    // Takes the frame's `this`, and leaves unit in its place.
    fn take_this(&mut self) -> Held
        requires { is_some (this_of self.old) ≡ true }
        ensures held { HoldsAt self.old to.This result }
        ensures run { self.new ≡ taken_out self.old to.This result }
    {
        self.receivers.replace(Held::read_write(Dynamic::Unit))
    }

    // Where an assignment of the last operand to the entry of a slot writes, or why it does not.
    #[inline(always)]
    pub(crate) fn target_at(&self, frame: &Activation, slot: u16) -> Result<Target, TargetRefusal>
        requires inside { frame.now.base ≤ length self.now.scope }
        requires operand { 0 < length self.now.stacks.operands }
        ensures { FindsAt self.now (frame.now.base + slot) result }
    {
        let index = self.slot_index(frame, slot);
        let Some(held) = self.scope.get(index) else {
            return Err(TargetRefusal::NoEntry(index));
        };
        let cell = held.value.as_cell();
        let free = held.value.flat(&self.cells).is_some();
        let read_only = held.read_only | self.is_constant(cell);
        if !self.is_readable() {
            return Err(TargetRefusal::Lent);
        }
        if read_only {
            return Err(TargetRefusal::Constant);
        }
        if !free {
            return Err(TargetRefusal::Lent);
        }
        Ok(Target::of_entry(index, cell))
    }

    // Raises the fault that nothing is assigned to the variable of this name.
    #[cold]
    #[inline(never)]
    pub(crate) fn refuse<L: Ledger>(
        &mut self,
        context: Context<'_>,
        steps: &mut Steps<L>,
        address: usize,
        name: u16,
        refusal: TargetRefusal,
    ) -> Result<Progress, OutOfMemory>
        requires { name < length context.program.now.names }
        ensures { Raises self.old steps.old
            (refusal_fault context.entry.program.now (length self.old.scope) address
            (name_of context.entry.program.now name) refusal)
            result self.new steps.new }
    {
        match refusal {
            TargetRefusal::NoEntry(index) => Ok(self.slot_past_scope(
                context, steps, address, index,
            )),
            TargetRefusal::Lent => self.data_race_of(context, steps, address, name),
            TargetRefusal::Constant => self.assignment_to_constant(context, steps, address, name),
            TargetRefusal::Unbound => Ok(self.unbound_this(context, steps, address)),
        }
    }

    /// Whether the content of a cell, if it is one, can only be read.
    #[inline(always)]
    pub fn is_constant(&self, cell: Option<usize>) -> bool
        ensures { result ≡ flag_of_cell cell self.now.cells }
    {
        match cell {
            Some(cell) => self.cells.is_constant(cell),
            None => false,
        }
    }

    // What the target holds.
    #[inline(always)]
    pub(crate) fn content(&self, target: Target) -> &Dynamic
        requires { CanBeLent self.now target }
        ensures { result.now ≡ content_at self.now target }
    {
        match target {
            Target::Entry(index) => match self.scope.get(index) {
                Some(held) => &held.value,
                None => unreachable!(),
            },
            Target::Cell(cell) => match self.cells.find(cell) {
                Some(value) => value,
                None => unreachable!(),
            },
            Target::This => match self.receivers.at(self.level) {
                Some(held) => &held.value,
                None => unreachable!(),
            },
        }
    }

    // Takes what the target holds. A cell is lent from then on.
    #[tactic(auto, using(grain_means::specs::lemmas::Scopes::length_set_held))]
    pub(crate) fn take_out(&mut self, target: Target) -> Held
        requires { CanBeLent self.old target }
        ensures held { HoldsAt self.old target result }
        ensures run { self.new ≡ taken_out self.old target result }
    {
        match target {
            Target::Entry(index) => match self.scope.get_mut(index) {
                Some(place) => mem::replace(place, Held::read_write(Dynamic::Unit)),
                None => unreachable!(),
            },
            Target::Cell(cell) => match self.cells.lend(cell) {
                Ok(held) => held,
                Err(_) => unreachable!(),
            },
            Target::This => self.take_this(),
        }
    }

    // Puts back what was taken out of the target, or what came of it.
    pub(crate) fn put_back(&mut self, target: Target, held: Held)
        requires { IsLentAt self.old target }
        ensures { self.new ≡ put_in self.old target held }
    {
        match target {
            Target::Entry(index) => self.scope.set(index, held),
            Target::Cell(cell) => self.cells.give_back(cell, held),
            Target::This => self.set_this(held),
        }
    }

    // Writes what the target holds.
    #[inline(always)]
    pub(crate) fn write(&mut self, target: Target, held: Held)
        requires { CanBeLent self.old target }
        ensures { self.new ≡ put_in self.old target held }
    {
        match target {
            Target::Entry(index) => self.scope.set(index, held),
            Target::Cell(cell) => self.cells.set(cell, held),
            Target::This => self.set_this(held),
        }
    }
}
