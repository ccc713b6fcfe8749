//! Instructions on operands alone.

ghost use Rattle.std.specs.Prelude.{◌≡◌, ◌<◌, ◌≤◌, ◌∷◌, [], List, length, Ok, Some, is_some};
ghost use Rattle.grain_program.specs.View.{View};
ghost use Rattle.grain_value.specs.Operands.{arguments, under};
ghost use Rattle.grain_global.specs.declared.engines.Engine.{Engine};
ghost use Rattle.grain_means.specs.Rules.{pushed, operated, flat_all};
ghost use Rattle.grain_value.specs.declared.values.Held.{Held};
ghost use Rattle.grain_means.specs.Means.{setup};
ghost use Rattle.grain_frame.specs.Waiting.{PerformsOrWaits};
ghost use Rattle.grain_frame.specs.Abstraction.{frame_in, Implements, Performs, Ready, setup_of, moment};
ghost use Rattle.grain_ops.specs.Answers.{Answers};
ghost use Rattle.grain_program.specs.Indices.{InPools};
ghost use Rattle.grain_program.specs.declared.code.instruction_set.Op.TheVariants as op;

use crate::activations::Activation;
use crate::contexts::Context;
use crate::native_calls::are_readable;
use crate::operated::operate;
use crate::runs::{Progress, Run};
use crate::waiting::Performed;
use grain_global::Steps;
use grain_host::Host;
use grain_ops::OpAnswer;
use grain_value::{Dynamic, Held, OutOfMemory};
use std::sync::ledger::Ledger;

impl<H: Host> Run<H> {
    /// Gives a value, as the frame's last operand, and goes on at the next instruction.
    #[inline(always)]
    pub fn push_on<L: Ledger>(
        &mut self,
        steps: &mut Steps<L>,
        frame: &mut Activation,
        value: Dynamic,
        next: usize,
    ) -> Progress
        requires inside { frame.old.base ≤ length self.old.scope }
        requires room { length self.old.stacks.operands < self.old.stacks.room }
        requires ahead { frame.old.address < next }
        ensures implements { (program : View) (engine : Engine) (host : H) →
            Implements (setup H.law program engine) (moment frame.old self.old steps.old host)
            (λ m place w. pushed m (frame_in frame.old self.old place) next self.old.stacks.operands
            value w) (next ∷ []) 0 1 self.old.stacks.handlers (Ok result)
            (moment frame.new self.new steps.new host) }
    {
        self.stacks.push(Held::read_write(value));
        frame.address = next;
        steps.mark();
        Progress::Continues
    }

    // `load_const`: a copy of the constant.
    #[inline(always)]
    pub(crate) fn load_const<L: Ledger>(
        &mut self,
        context: Context<'_>,
        steps: &mut Steps<L>,
        frame: &mut Activation,
        constant: u16,
        next: usize,
    ) -> Result<Progress, OutOfMemory>
        requires ready { Ready frame.old self.old (op.LoadConst constant) next }
        requires pools { InPools context.program.now (op.LoadConst constant) }
        ensures performs { (host : H) →
            Performs (setup_of H.law context.entry) (moment frame.old self.old steps.old host)
            (op.LoadConst constant) next result (moment frame.new self.new steps.new host) }
    {
        self.stacks
            .push_copy(self.alloc, context.program.constant(u32::from(constant)))?;
        frame.address = next;
        steps.mark();
        Ok(Progress::Continues)
    }

    // `pop`: the last operand goes.
    pub(crate) fn pop_on<L: Ledger>(
        &mut self,
        steps: &mut Steps<L>,
        frame: &mut Activation,
        next: usize,
    ) -> Progress
        requires ready { Ready frame.old self.old op.Pop next }
        ensures performs { (program : View) (engine : Engine) (host : H) →
            Performs (setup H.law program engine) (moment frame.old self.old steps.old host) op.Pop
            next (Ok result) (moment frame.new self.new steps.new host) }
    {
        let _value = self.stacks.pop();
        frame.address = next;
        steps.mark();
        Progress::Continues
    }

    // `rotate`: the last operand goes below `under` others.
    pub(crate) fn rotate<L: Ledger>(
        &mut self,
        steps: &mut Steps<L>,
        frame: &mut Activation,
        under: u8,
        next: usize,
    ) -> Progress
        requires ready { Ready frame.old self.old (op.Rotate under) next }
        ensures performs { (program : View) (engine : Engine) (host : H) →
            Performs (setup H.law program engine) (moment frame.old self.old steps.old host)
            (op.Rotate under) next (Ok result) (moment frame.new self.new steps.new host) }
    {
        self.stacks.rotate(usize::from(under));
        frame.address = next;
        steps.mark();
        Progress::Continues
    }

    // `call_op`: an operator on the last `count` operands.
    #[inline(always)]
    pub fn call_op<L: Ledger>(
        &mut self,
        context: Context<'_>,
        host: &mut H,
        steps: &mut Steps<L>,
        frame: &mut Activation,
        name: u16,
        count: u8,
        token: u16,
        next: usize,
    ) -> Result<Performed, OutOfMemory>
        requires ready { Ready frame.old self.old (op.CallOp name count token) next }
        requires pools { InPools context.program.now (op.CallOp name count token) }
        ensures performs { PerformsOrWaits (setup_of H.law context.entry)
            (moment frame.old self.old steps.old host.old) (op.CallOp name count token) next result
            (moment frame.new self.new steps.new host.new) }
    {
        let arguments = usize::from(count);
        if !self.are_readable(arguments) {
            return Performed::of(self.data_race(context, steps, frame.address, ""));
        }
        match self.operate(context, token, arguments) {
            OpAnswer::Done(value) => {
                self.stacks.cut(self.stacks.height() - arguments);
                Ok(Performed::Leads(self.push_on(steps, frame, value, next)))
            }
            OpAnswer::Failed(fault) => {
                Performed::of(self.operator_failed(context, steps, frame.address, fault))
            }
            OpAnswer::NotBuiltIn => {
                let name = context.program.name(u32::from(name));
                self.native_on(context, host, steps, frame, name, arguments, next)
            }
        }
    }

    // Whether none of the last `count` operands is a cell that is lent.
    #[inline(always)]
    pub(crate) fn are_readable(&self, count: usize) -> bool
        requires { count ≤ length self.now.stacks.operands }
        ensures { result ≡ is_some
            (flat_all self.now.cells (arguments count self.now.stacks.operands)) }
    {
        let operands = self.stacks.frame_operands();
        are_readable(&self.cells, &operands[operands.len() - count..])
    }

    // What an operator makes of the last `count` operands, as they are read, if operators are fast.
    #[inline(never)]
    fn operate(&self, context: Context<'_>, token: u16, count: usize) -> OpAnswer
        requires operands { count ≤ length self.now.stacks.operands }
        requires pool { token < length context.program.now.tokens }
        ensures { (args : List Held) →
            flat_all self.now.cells (arguments count self.now.stacks.operands) ≡ Some args →
            Answers result (operated context.entry.program.now context.entry.engine.now token
            args) }
    {
        if !context.engine.fast_operators {
            return OpAnswer::NotBuiltIn;
        }
        let token = context.program.token(u32::from(token));
        let operands = self.stacks.frame_operands();
        operate(
            self.alloc,
            context.engine,
            token,
            &self.cells,
            &operands[operands.len() - count..],
        )
    }

    // `is_shared`: whether the last operand is a cell.
    pub(crate) fn is_shared<L: Ledger>(
        &mut self,
        steps: &mut Steps<L>,
        frame: &mut Activation,
        next: usize,
    ) -> Progress
        requires ready { Ready frame.old self.old op.IsShared next }
        ensures performs { (program : View) (engine : Engine) (host : H) →
            Performs (setup H.law program engine) (moment frame.old self.old steps.old host)
            op.IsShared next (Ok result) (moment frame.new self.new steps.new host) }
    {
        let shared = self.stacks.pop().value.as_cell().is_some();
        self.stacks.push(Held::read_write(Dynamic::Bool(shared)));
        frame.address = next;
        steps.mark();
        Progress::Continues
    }
}
