//! Op-assignments that no built-in does, so that the host does them.

ghost use Rattle.std.specs.Prelude.{◌≡◌, ◌<◌, ◌∷◌, [], ℕ, List, Option, Some, None, length, IfOk, false};
ghost use Rattle.grain_value.specs.declared.values.Dynamic.{Dynamic};
ghost use Rattle.grain_value.specs.declared.values.Held.{Held};
ghost use Rattle.grain_value.specs.Operands.{read_write};
ghost use Rattle.grain_value.specs.View.{tree};
ghost use Rattle.grain_value.specs.Writing.{kind_of};
ghost use Rattle.grain_fault.specs.Problems.{Problem};
ghost use Rattle.grain_program.specs.View.{name_of};
ghost use Rattle.grain_means.specs.Worlds.{Setup, Frame, Place, World, Act};
ghost use Rattle.grain_means.specs.Rules.{native, native_assigned_at};
ghost use Rattle.grain_means.specs.Simulation.{Simulates};
ghost use Rattle.grain_frame.specs.Abstraction.{abstraction, frame_in, is_out, native_continuation, setup_of, moment};
ghost use Rattle.grain_frame.specs.Waiting.{ImplementsOrWaits};
ghost use Rattle.grain_frame.specs.Natives.{IsAt, Seeks, ServesAt};
ghost use Rattle.grain_frame.specs.Receivers.{KeepsBound};
ghost use Rattle.grain_frame.specs.Targets.{CanAssign, CanBeLent, HoldsAt, HoldsWritable, assigned_name, content_at, home_of, kept_operand, receiver_at};
ghost use Rattle.grain_frame.specs.declared.targets.Target.{Target};

use crate::activations::Activation;
use crate::assignments::{Assignment, operand};
use crate::contexts::Context;
use crate::native_calls::{NativeEnd, Sought, served};
use crate::runs::{Progress, Run};
use crate::targets::Target;
use crate::waiting::{Performed, Rest, Waiting};
use grain_fault::Position;
use grain_global::Steps;
use grain_host::{Args, Host, not_found};
use grain_value::{Array, Dynamic, Held, Kinds, OutOfMemory, Text};
use std::alloc::Global;
use std::sync::ledger::Ledger;

// Copies of two values.
fn pair(alloc: Global, first: &Dynamic, second: &Dynamic) -> Result<Array, OutOfMemory>
    ensures { IfOk result (λ values. values ≡ tree first.now ∷ tree second.now ∷ []) }
{
    let mut values = Array::new(alloc);
    values.push(first.copy(alloc)?)?;
    values.push(second.copy(alloc)?)?;
    Ok(values)
}

// The kinds of two values.
fn kinds_of(alloc: Global, first: &Dynamic, second: &Dynamic) -> Result<Kinds, OutOfMemory>
    ensures { IfOk result (λ kinds. kinds ≡ kind_of first.now ∷ kind_of second.now ∷ []) }
{
    let mut kinds = Kinds::new(alloc);
    kinds.push(first.own_kind())?;
    kinds.push(second.own_kind())?;
    Ok(kinds)
}

// What the host has for a name, what is lent at a target and a value, where a fault has this
// position. What is lent, which can be written, is not copied for a native that is there.
fn seek_lent<H: Host>(
    alloc: Global,
    host: &H,
    name: &Text,
    lent: &Dynamic,
    operand: &Dynamic,
    position: Position,
) -> Result<Sought, OutOfMemory>
    ensures { (target : Target) (place : Option Place) (h v : Held) → h.value ≡ lent.now →
        h.read_only ≡ false → v.value ≡ operand.now → IfOk result (λ s. Seeks H.law host.now name.now
        (Some (receiver_at target place h)) (v ∷ []) position s) }
{
    let kinds = kinds_of(alloc, lent, operand)?;
    let Some(native) = host.resolve(name.as_str(), &kinds) else {
        let values = pair(alloc, lent, operand)?;
        return Ok(Sought::Fault(not_found(alloc, name, &values, position)?));
    };
    let mut values = Array::new(alloc);
    values.push(operand.copy(alloc)?)?;
    Ok(Sought::Native(native.key, values))
}

impl<H: Host> Run<H> {
    // Calls the native of a key, to which what the target holds is lent.
    #[tactic(auto, using(grain_means::specs::lemmas::Scopes::length_set_held))]
    fn lend<L: Ledger>(
        &mut self,
        host: &mut H,
        steps: &mut Steps<L>,
        key: u64,
        target: Target,
        values: Array,
        position: Position,
    ) -> Result<NativeEnd, OutOfMemory>
        requires target { CanBeLent self.old target }
        ensures same { (h : Held) → HoldsAt self.old target h →
            ServesAt H.law self.old steps.old host.old key target h
            values position result self.new steps.new host.new }
        ensures run { self.new ≡ record self.old {
          scope = self.new.scope;
          cells = self.new.cells;
          receivers = self.new.receivers;
        } }
        ensures long { length self.new.scope ≡ length self.old.scope }
        ensures this { KeepsBound self.old.level self.old.receivers self.new.receivers }
        ensures again { CanBeLent self.new target }
        ensures writable { HoldsWritable self.old target → HoldsWritable self.new target }
        ensures before { steps.new.before ≡ steps.old.before }
    {
        let held = self.take_out(target);
        let mut args = Args {
            receiver: Some(held),
            values,
        };
        let answer = host.call(self.alloc, key, &mut args);
        let Args { receiver, .. } = args;
        match receiver {
            Some(held) => self.put_back(target, held),
            None => unreachable!(),
        }
        served(steps, answer, position)
    }

    // Calls the native that was sought, to which what the target holds is lent, or gives the fault
    // that there is none. A fault of the host's without a position has this one.
    fn call_lent<L: Ledger>(
        &mut self,
        host: &mut H,
        steps: &mut Steps<L>,
        sought: Sought,
        target: Target,
        position: Position,
    ) -> Result<NativeEnd, OutOfMemory>
        requires target { CanBeLent self.old target }
        ensures same { (m : Setup H) (name : List ℕ) (h : Held) (args : List Held)
            (f : Option Place → Frame)
            (go : Setup H → Option Place → Dynamic → World H → Act H)
            (fails : Setup H → Option Place → Problem → World H → Act H) → m.law ≡ H.law →
            IsAt m f position →
            HoldsAt self.old target h → h.read_only ≡ false →
            ((place : Option Place) →
            Seeks H.law host.old name (Some (receiver_at target place h)) args position sought) →
            Simulates m (abstraction self.old steps.old host.old)
            (λ m place w. native m name (Some (receiver_at target place h)) args (f place) w
            (go m place) (fails m place))
            (is_out result) (abstraction self.new steps.new host.new)
            (native_continuation result
            (λ place. Some (receiver_at target place (read_write (content_at self.new target)))) f go
            fails) }
        ensures run { self.new ≡ record self.old {
          scope = self.new.scope;
          cells = self.new.cells;
          receivers = self.new.receivers;
        } }
        ensures long { length self.new.scope ≡ length self.old.scope }
        ensures this { KeepsBound self.old.level self.old.receivers self.new.receivers }
        ensures again { CanBeLent self.new target }
        ensures writable { HoldsWritable self.old target → HoldsWritable self.new target }
        ensures before { steps.new.before ≡ steps.old.before }
    {
        match sought {
            Sought::Fault(fault) => Ok(NativeEnd::Fault(fault)),
            Sought::Native(key, values) => self.lend(host, steps, key, target, values, position),
        }
    }

    // What the host has for an op-assignment, to which what the target holds is lent.
    fn seek_assignment(
        &self,
        context: Context<'_>,
        host: &H,
        assignment: &Assignment,
        position: Position,
    ) -> Result<Sought, OutOfMemory>
        requires first { assignment.now.operator.op_assign_name < length context.program.now.names }
        requires target { CanBeLent self.now assignment.now.target }
        requires operand { 0 < length self.now.stacks.operands }
        ensures { (place : Option Place) → IfOk result (λ s. Seeks H.law host.now
            (name_of context.entry.program.now assignment.now.operator.op_assign_name)
            (Some (receiver_at assignment.now.target place
            (read_write (content_at self.now assignment.now.target))))
            (kept_operand assignment.now.kept self.now.stacks.operands ∷ []) position s) }
    {
        let name = context.program.name(assignment.operator.op_assign_name);
        let value = operand(&self.stacks, &assignment.kept);
        let lent = self.content(assignment.target);
        seek_lent(self.alloc, host, name, lent, value, position)
    }

    // The host's op-assignment, to which what the target holds is lent; where it has none of that
    // name, the host's operator.
    #[cold]
    #[inline(never)]
    pub(crate) fn native_assigned<L: Ledger>(
        &mut self,
        context: Context<'_>,
        host: &mut H,
        steps: &mut Steps<L>,
        frame: &mut Activation,
        assignment: Assignment,
    ) -> Result<Performed, OutOfMemory>
        requires can { CanAssign context.program.now frame.old self.old assignment }
        requires writable { HoldsWritable self.old assignment.target }
        ensures implements { (h : Held) → h.read_only ≡ false →
            ImplementsOrWaits (setup_of H.law context.entry)
            (moment frame.old self.old steps.old host.old)
            (λ m place w. native_assigned_at m (home_of assignment.target place)
            (assigned_name m.program assignment.variable) assignment.operator h
            (content_at self.old assignment.target)
            (kept_operand assignment.kept self.old.stacks.operands)
            assignment.next (frame_in frame.old self.old place) w)
            (assignment.next ∷ []) 1 0 self.old.stacks.handlers result
            (moment frame.new self.new steps.new host.new) }
    {
        let target = assignment.target;
        let position = context.program.position(frame.address);
        let sought = self.seek_assignment(context, host, &assignment, position)?;
        match self.call_lent(host, steps, sought, target, position)? {
            NativeEnd::Value(_) => {
                let _value = self.stacks.pop();
                frame.address = assignment.next;
                steps.mark();
                Ok(Performed::Leads(Progress::Continues))
            }
            NativeEnd::Fault(fault) => {
                self.op_assign_failed(context, host, steps, frame, assignment, fault)
            }
            NativeEnd::Asks(asked) => {
                let lent = self.keep_lent(target);
                Ok(self.wait(Waiting {
                    asked,
                    lent,
                    rest: Rest::Assign(assignment),
                }))
            }
        }
    }
}
