//! One instruction of a frame that calls neither a function nor a native, and walks along no place.

ghost use Rattle.grain_program.specs.Indices.{InPools};
ghost use Rattle.grain_frame.specs.Abstraction.{Runs, ReadyIn, StandsAt, Stepped, IsNoCall, RunsNoMethod, AsksNothing, setup_of, moment};

use crate::activations::Activation;
use crate::contexts::Context;
use crate::runs::{Progress, Run};
use grain_global::Steps;
use grain_host::Host;
use grain_program::Op;
use grain_value::{Dynamic, OutOfMemory};
use std::sync::ledger::Ledger;

impl<H: Host> Run<H> {
    /// Does this instruction, at which the frame stands, and after which the address `next` comes. It is
    /// none that may call a function or a native, or that walks along a place.
    #[inline(always)]
    pub fn perform<L: Ledger>(
        &mut self,
        context: Context<'_>,
        host: &mut H,
        steps: &mut Steps<L>,
        frame: &mut Activation,
        op: Op,
        next: usize,
    ) -> Result<Progress, OutOfMemory>
        requires runs { Runs context.program.now frame.old self.old }
        requires stands { StandsAt context.program.now frame.old self.old op next }
        requires ready { ReadyIn context.program.now frame.old self.old op next }
        requires pools { InPools context.program.now op }
        requires calls_nothing { IsNoCall op }
        requires runs_no_method { RunsNoMethod op }
        requires asks_nothing { AsksNothing op }
        ensures stepped { Stepped (setup_of H.law context.entry)
            (moment frame.old self.old steps.old host.old) result
            (moment frame.new self.new steps.new host.new) }
    {
        match op {
            Op::LoadConst(constant) => self.load_const(context, steps, frame, constant, next),
            Op::Unit => Ok(self.push_on(steps, frame, Dynamic::Unit, next)),
            Op::False => Ok(self.push_on(steps, frame, Dynamic::Bool(false), next)),
            Op::True => Ok(self.push_on(steps, frame, Dynamic::Bool(true), next)),
            Op::LoadLocal(slot) => self.load_local(context, steps, frame, slot, next),
            Op::StoreLocal(slot) => self.store(context, steps, frame, slot, false, next),
            Op::StoreConst(slot) => self.store(context, steps, frame, slot, true, next),
            Op::StoreShared(slot) => {
                let read_only = self.stacks.top().read_only;
                self.store(context, steps, frame, slot, read_only, next)
            }
            Op::DeclareLocal(name) => self.declare(context, steps, frame, name, false, next),
            Op::DeclareConst(name) => self.declare(context, steps, frame, name, true, next),
            Op::AssignLocal(slot, name) => {
                self.assign_local(context, steps, frame, slot, name, next)
            }
            Op::AssignLocalOp(_, _, _) => unreachable!(),
            Op::LoadThis => self.load_this(context, steps, frame, next),
            Op::LoadThisShared => self.load_this_shared(context, steps, frame, next),
            Op::RequireThis => Ok(self.require_this(context, steps, frame, next)),
            Op::AssignThis => self.assign_this(context, steps, frame, next),
            Op::AssignThisOp(_) => unreachable!(),
            Op::LoadShared(slot) => self.load_shared(context, steps, frame, slot, next),
            Op::Share(slot) => self.share(context, steps, frame, slot, next),
            Op::IsShared => Ok(self.is_shared(steps, frame, next)),
            Op::Pop => Ok(self.pop_on(steps, frame, next)),
            Op::Rotate(under) => Ok(self.rotate(steps, frame, under, next)),
            Op::Jump(target) => self.jump_to(context, host, steps, frame, target as usize),
            Op::JumpIfFalse(target) => {
                self.jump_if(context, host, steps, frame, false, target, next)
            }
            Op::JumpIfTrue(target) => self.jump_if(context, host, steps, frame, true, target, next),
            Op::SkipIfNotUnit(target) => {
                self.skip_if_not_unit(context, host, steps, frame, target, next)
            }
            Op::Switch(index) => self.switch_on(context, host, steps, frame, index, next),
            Op::Call(_, _) => unreachable!(),
            Op::CallOp(_, _, _) => unreachable!(),
            Op::MakeClosure(name) => self.make_closure(context, steps, frame, name, next),
            Op::MakeFnPtr => self.make_fn_ptr(context, steps, frame, next),
            Op::Curry(count) => self.curry(context, steps, frame, count, next),
            Op::CallFnPtr(_) => unreachable!(),
            Op::CallFnPtrMethod(_) => unreachable!(),
            Op::CallFnPtrOnLocal(_, _) => unreachable!(),
            Op::CallFnPtrOnThis(_) => unreachable!(),
            Op::MakeArray(count) => self.make_array(context, steps, frame, count, next),
            Op::MakeMap(count) => self.make_map(context, steps, frame, count, next),
            Op::CheckArraySize(index) => self.check_array_size(context, steps, frame, index, next),
            Op::CheckMapSize(index) => self.check_map_size(context, steps, frame, index, next),
            Op::InterpolateStart => self.interpolate_start(steps, frame, next),
            Op::InterpolateAppend => unreachable!(),
            Op::InterpolateEnd => self.interpolate_end(context, steps, frame, next),
            Op::Chain(_) => unreachable!(),
            Op::UnwindTo(depth) => Ok(self.unwind_to(context, steps, frame, depth, next)),
            Op::Tick => self.tick(context, host, steps, frame, next),
            Op::Checkpoint => Ok(self.checkpoint(steps, frame, next)),
            Op::Statement(_) => Ok(self.go_on(steps, frame, next)),
            Op::PushHandler(target) => self.push_handler(steps, frame, target, None, next),
            Op::PushHandlerVar(target, name) => {
                let variable = Some(u32::from(name));
                self.push_handler(steps, frame, target, variable, next)
            }
            Op::IterInit => self.iter_init(context, steps, frame, next),
            Op::IterDrop => Ok(self.iter_drop(steps, frame, next)),
            Op::IterNext(target) => {
                self.iter_next(context, host, steps, frame, target, None, next)
            }
            Op::IterNextIndexed(target, slot) => {
                self.iter_next(context, host, steps, frame, target, Some(slot), next)
            }
            Op::PopHandler => Ok(self.pop_handler(steps, frame, next)),
            Op::Throw => self.throw(context, steps, frame, next),
            Op::Return => Ok(self.return_value(steps, frame, next)),
        }
    }
}
