//! Natives that are called on the last operands.

ghost use Rattle.std.specs.Prelude.{◌≡◌, ◌<◌, ◌≤◌, ◌-◌, ◌∷◌, [], ℕ, List, Option, None, Some, true, is_some, length};
ghost use Rattle.grain_value.specs.Operands.{arguments, under};
ghost use Rattle.grain_value.specs.Tree.{Tree};
ghost use Rattle.grain_value.specs.declared.values.Dynamic.{Dynamic};
ghost use Rattle.grain_value.specs.declared.values.Held.{Held};
ghost use Rattle.grain_host.specs.Answers.{Replies, reply_of};
ghost use Rattle.grain_host.specs.declared.host_answers.Args.{Args};
ghost use Rattle.grain_program.specs.View.{position_of};
ghost use Rattle.grain_means.specs.Worlds.{Setup, Place, World, Act};
ghost use Rattle.grain_means.specs.Rules.{native, flat_all, pushed, raised, call_function};
ghost use Rattle.grain_frame.specs.Abstraction.{frame_in, setup_of, moment};
ghost use Rattle.grain_frame.specs.Waiting.{ImplementsOrWaits};
ghost use Rattle.grain_frame.specs.Natives.{Describes, Seeks, callable};
ghost use Rattle.grain_frame.specs.declared.native_calls.Sought.TheVariants as sought;

use crate::activations::Activation;
use crate::contexts::Context;
use crate::native_calls::{Arguments, NativeEnd, Sought, seek, served};
use crate::runs::Run;
use crate::waiting::{Loan, Performed, Rest, Waiting};
use grain_global::Steps;
use grain_host::{Args, Host, HostAnswer};
use grain_value::{OutOfMemory, Text};
use std::sync::ledger::Ledger;

// The key of the native of this name that may be called with these arguments, if there is one.
#[inline(always)]
fn callable<H: Host>(host: &H, name: &Text, arguments: &Arguments) -> Option<u64>
    ensures { result
        ≡ callable H.law host.now name.now arguments.now.kinds arguments.now.read_only }
{
    match host.resolve(name.as_str(), &arguments.kinds) {
        None => None,
        Some(native) => {
            if native.writes && arguments.read_only {
                None
            } else {
                Some(native.key)
            }
        }
    }
}

impl<H: Host> Run<H> {
    // The host's native of a name on the last `count` operands, none of which is a lent cell, as they
    // are read. Its value stands in their place.
    #[cold]
    #[inline(never)]
    pub(crate) fn native_on<L: Ledger>(
        &mut self,
        context: Context<'_>,
        host: &mut H,
        steps: &mut Steps<L>,
        frame: &mut Activation,
        name: &Text,
        count: usize,
        next: usize,
    ) -> Result<Performed, OutOfMemory>
        requires inside { frame.old.base ≤ length self.old.scope }
        requires operands { count ≤ length self.old.stacks.operands }
        requires readable { is_some
            (flat_all self.old.cells (arguments count self.old.stacks.operands)) ≡ true }
        requires room { length self.old.stacks.operands - count < self.old.stacks.room }
        requires ahead { frame.old.address < next }
        ensures implements { (args : List Held) → flat_all self.old.cells
            (arguments count self.old.stacks.operands) ≡ Some args →
            ImplementsOrWaits (setup_of H.law context.entry) (moment frame.old self.old steps.old host.old)
            (λ m place w. native m name.now None args (frame_in frame.old self.old place) w
            (λ v w1. pushed m (frame_in frame.old self.old place) next
            (under count self.old.stacks.operands) v w1)
            (raised m (frame_in frame.old self.old place))) (next ∷ []) count 1
            self.old.stacks.handlers result (moment frame.new self.new steps.new host.new) }
    {
        let room = self.room.take(self.alloc);
        let operands = self.stacks.frame_operands();
        let given = &operands[operands.len() - count..];
        let arguments = Arguments::of(self.alloc, room, &self.cells, given)?;
        let Some(key) = callable(host, name, &arguments) else {
            return self.not_callable(context, host, steps, frame, name, arguments);
        };
        let Arguments { values, .. } = arguments;
        let mut args = Args {
            receiver: None,
            values,
        };
        match host.call(self.alloc, key, &mut args) {
            HostAnswer::Done(value) => {
                steps.mark();
                steps.mark();
                self.room.put(args.values);
                self.stacks.cut(self.stacks.height() - count);
                Ok(Performed::Leads(self.push_on(steps, frame, value, next)))
            }
            answer => self.native_answered(context, steps, frame, answer, count, next),
        }
    }

    // Raises the fault that no native of the name may be called with these arguments.
    #[cold]
    #[inline(never)]
    fn not_callable<L: Ledger>(
        &mut self,
        context: Context<'_>,
        host: &H,
        steps: &mut Steps<L>,
        frame: &Activation,
        name: &Text,
        arguments: Arguments,
    ) -> Result<Performed, OutOfMemory>
        requires inside { frame.now.base ≤ length self.old.scope }
        requires described { (args : List Held) × Describes arguments args }
        requires none { callable H.law host.now name.now arguments.kinds arguments.read_only ≡ None }
        ensures implements { (args : List Held) (go : Setup H → Option Place → Dynamic → World H → Act H)
            (targets : List ℕ) (takes gives : ℕ) → Describes arguments args →
            ImplementsOrWaits (setup_of H.law context.entry)
            (moment frame.now self.old steps.old host.now)
            (λ m place w. native m name.now None args (frame_in frame.now self.old place) w
            (go m place) (raised m (frame_in frame.now self.old place))) targets takes gives
            self.old.stacks.handlers result (moment frame.now self.new steps.new host.now) }
    {
        let position = context.program.position(frame.address);
        match seek(self.alloc, host, name, arguments, position)? {
            Sought::Fault(fault) => Ok(Performed::Leads(self.raise(steps, fault))),
            Sought::Native(_, _) => unreachable!(),
        }
    }

    // What follows where the host has answered to the call of a native on the last `count` operands. Its
    // value stands in their place.
    #[cold]
    #[inline(never)]
    fn native_answered<L: Ledger>(
        &mut self,
        context: Context<'_>,
        steps: &mut Steps<L>,
        frame: &mut Activation,
        answer: HostAnswer,
        count: usize,
        next: usize,
    ) -> Result<Performed, OutOfMemory>
        requires inside { frame.old.base ≤ length self.old.scope }
        requires operands { count ≤ length self.old.stacks.operands }
        requires room { length self.old.stacks.operands - count < self.old.stacks.room }
        requires ahead { frame.old.address < next }
        ensures implements { (asked host : H) (name : List ℕ) (args : List Held) (key : ℕ)
            (values : List Tree) (left : Args) →
            Seeks H.law asked name None args
            (position_of context.entry.program.now frame.old.address) (sought.Native key values) →
            Replies H.law asked key (record { receiver = None; values = values }) (reply_of answer)
            host left →
            ImplementsOrWaits (setup_of H.law context.entry) (moment frame.old self.old steps.old asked)
            (λ m place w. native m name None args (frame_in frame.old self.old place) w
            (λ v w1. pushed m (frame_in frame.old self.old place) next
            (under count self.old.stacks.operands) v w1)
            (raised m (frame_in frame.old self.old place))) (next ∷ []) count 1
            self.old.stacks.handlers result (moment frame.new self.new steps.new host) }
    {
        let position = context.program.position(frame.address);
        match served(steps, answer, position)? {
            NativeEnd::Value(value) => {
                self.stacks.cut(self.stacks.height() - count);
                Ok(Performed::Leads(self.push_on(steps, frame, value, next)))
            }
            NativeEnd::Fault(fault) => Ok(Performed::Leads(self.raise(steps, fault))),
            NativeEnd::Asks(asked) => Ok(self.wait(Waiting {
                asked,
                lent: Loan::Nothing,
                rest: Rest::Push { count, next },
            })),
        }
    }

    /// What follows where no function has the name: the native, or the fault that an operand is a lent
    /// cell.
    #[inline(always)]
    pub fn native_by_name<L: Ledger>(
        &mut self,
        context: Context<'_>,
        host: &mut H,
        steps: &mut Steps<L>,
        frame: &mut Activation,
        name: &Text,
        count: usize,
        next: usize,
    ) -> Result<Performed, OutOfMemory>
        requires inside { frame.old.base ≤ length self.old.scope }
        requires operands { count ≤ length self.old.stacks.operands }
        requires room { length self.old.stacks.operands - count < self.old.stacks.room }
        requires ahead { frame.old.address < next }
        ensures implements { ImplementsOrWaits (setup_of H.law context.entry)
            (moment frame.old self.old steps.old host.old)
            (λ m place w. call_function m None name.now count (frame_in frame.old self.old place)
            next w) (next ∷ []) count 1 self.old.stacks.handlers result
            (moment frame.new self.new steps.new host.new) }
    {
        if !self.are_readable(count) {
            return Performed::of(self.data_race(context, steps, frame.address, ""));
        }
        self.native_on(context, host, steps, frame, name, count, next)
    }
}
