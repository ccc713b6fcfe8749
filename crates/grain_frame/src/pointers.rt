//! Pointers to functions: how one is made, values that are added to one, and what its call finds.

ghost use Rattle.std.specs.Prelude.{◌≡◌, ◌<◌, ◌≤◌, ◌+◌, ◌++◌, ℕ, List, length, codes, IfOk, Some, is_some, true};
ghost use Rattle.grain_value.specs.declared.values.Dynamic.{Dynamic};
ghost use Rattle.grain_value.specs.Writing.{type_name_of};
ghost use Rattle.grain_value.specs.Operands.{arguments, top};
ghost use Rattle.grain_fault.specs.Problems.{Plain, FunctionNotFound, MismatchDataType};
ghost use Rattle.grain_program.specs.Indices.{InPools};
ghost use Rattle.grain_program.specs.View.{position_of};
ghost use Rattle.grain_value.specs.Cells.{flat};
ghost use Rattle.grain_value.specs.Looking.{pointer_of};
ghost use Rattle.grain_means.specs.Rules.{operand_under, trees_in};
ghost use Rattle.grain_frame.specs.Abstraction.{Performs, Raises, Ready, setup_of, moment};
ghost use Rattle.grain_frame.specs.Pointers.{StandsUnder};
ghost use Rattle.grain_value.specs.declared.values.Dynamic.TheVariants as dynamic;
ghost use Rattle.grain_program.specs.declared.code.instruction_set.Op.TheVariants as op;

use crate::activations::Activation;
use crate::contexts::Context;
use crate::runs::{Progress, Run};
use grain_fault::{EvalAltResult, Position};
use grain_global::Steps;
use grain_host::Host;
use grain_value::{Array, Dynamic, FnPtr, Held, OutOfMemory, ValueFault};
use std::alloc::Global;
use std::sync::ledger::Ledger;

/// What stands under the operands of a pointer's instruction.
#[derive(Clone, Copy, Debug, PartialEq, Eq)]
pub enum Under {
    /// A pointer to a function, or a cell that holds one.
    Pointer,
    /// A cell that is lent.
    Lent,
    /// Any other value.
    Other,
}

// Copies of what is held go after the values of a pointer.
fn add_copies(alloc: Global, pointer: &mut FnPtr, held: &[Held]) -> Result<(), OutOfMemory>
    ensures { IfOk result (λ _. pointer.new ≡ record pointer.old {
      curry = pointer.old.curry ++ trees_in held.now;
    }) }
{
    'values: for one in held {
        pointer.add_curry(one.value.copy(alloc)?)?;
    }
    Ok(())
}

impl<H: Host> Run<H> {
    /// What stands under the last `count` operands.
    pub fn under(&self, count: usize) -> Under
        requires { count < length self.now.stacks.operands }
        ensures { StandsUnder result
            (flat self.now.cells (operand_under count self.now.stacks.operands).value) }
    {
        match self.stacks.peek(count).value.flat(&self.cells) {
            None => Under::Lent,
            Some(Dynamic::Pointer(_)) => Under::Pointer,
            Some(_) => Under::Other,
        }
    }

    /// A copy of the pointer under the last `count` operands.
    pub fn pointer_under(&self, count: usize) -> Result<FnPtr, OutOfMemory>
        requires there { count < length self.now.stacks.operands }
        requires pointer { StandsUnder Under.Pointer
            (flat self.now.cells (operand_under count self.now.stacks.operands).value) }
        ensures { IfOk result (λ p. (v : Dynamic)
            × (flat self.now.cells (operand_under count self.now.stacks.operands).value ≡ Some v)
            × (pointer_of v ≡ Some p)) }
    {
        match self.stacks.peek(count).value.flat(&self.cells) {
            Some(Dynamic::Pointer(pointer)) => pointer.copy(self.alloc),
            _ => unreachable!(),
        }
    }

    /// The fault that what stands under the last `count` operands is no pointer.
    #[cold]
    #[inline(never)]
    pub fn not_a_pointer<L: Ledger>(
        &mut self,
        context: Context<'_>,
        steps: &mut Steps<L>,
        address: usize,
        count: usize,
    ) -> Result<Progress, OutOfMemory>
        requires there { count < length self.old.stacks.operands }
        requires other { StandsUnder Under.Other
            (flat self.old.cells (operand_under count self.old.stacks.operands).value) }
        ensures { (v : Dynamic) →
            flat self.old.cells (operand_under count self.old.stacks.operands).value ≡ Some v →
            Raises self.old steps.old (Plain (MismatchDataType (codes "Fn") (type_name_of v))
            (position_of context.entry.program.now address)) result self.new steps.new }
    {
        let type_name = match self.stacks.peek(count).value.flat(&self.cells) {
            Some(value) => value.own_type_name(self.alloc)?,
            None => unreachable!(),
        };
        self.mismatch(context, steps, address, "Fn", type_name)
    }

    // `make_fn_ptr`: a pointer to the functions of the name that the last operand is.
    pub(crate) fn make_fn_ptr<L: Ledger>(
        &mut self,
        context: Context<'_>,
        steps: &mut Steps<L>,
        frame: &mut Activation,
        next: usize,
    ) -> Result<Progress, OutOfMemory>
        requires ready { Ready frame.old self.old op.MakeFnPtr next }
        ensures performs { (host : H) →
            Performs (setup_of H.law context.entry) (moment frame.old self.old steps.old host)
            op.MakeFnPtr next result (moment frame.new self.new steps.new host) }
    {
        let name = match self.stacks.top().value.flat(&self.cells) {
            None => return self.data_race(context, steps, frame.address, ""),
            Some(Dynamic::Text(name)) => name,
            Some(_) => return self.not_a_name(context, steps, frame.address),
        };
        match FnPtr::new(self.alloc, name.as_str()) {
            Ok(pointer) => {
                let _name = self.stacks.pop();
                Ok(self.push_on(steps, frame, Dynamic::Pointer(pointer), next))
            }
            Err(ValueFault::BadName) => self.no_function_named(context, steps, frame.address),
            Err(_) => Err(OutOfMemory),
        }
    }

    // The fault that the last operand, of which a pointer is to be made, is no text.
    #[cold]
    #[inline(never)]
    fn not_a_name<L: Ledger>(
        &mut self,
        context: Context<'_>,
        steps: &mut Steps<L>,
        address: usize,
    ) -> Result<Progress, OutOfMemory>
        requires there { 0 < length self.old.stacks.operands }
        requires readable { is_some (flat self.old.cells (top self.old.stacks.operands).value)
            ≡ true }
        ensures { (v : Dynamic) → flat self.old.cells (top self.old.stacks.operands).value ≡ Some v →
            Raises self.old steps.old (Plain (MismatchDataType (codes "string") (type_name_of v))
            (position_of context.entry.program.now address)) result self.new steps.new }
    {
        let type_name = match self.stacks.top().value.flat(&self.cells) {
            Some(value) => value.own_type_name(self.alloc)?,
            None => unreachable!(),
        };
        self.mismatch(context, steps, address, "string", type_name)
    }

    // The fault that no function has the name that the last operand is.
    #[cold]
    #[inline(never)]
    fn no_function_named<L: Ledger>(
        &mut self,
        context: Context<'_>,
        steps: &mut Steps<L>,
        address: usize,
    ) -> Result<Progress, OutOfMemory>
        requires there { 0 < length self.old.stacks.operands }
        requires text { (s : List ℕ)
            × (flat self.old.cells (top self.old.stacks.operands).value ≡ Some (dynamic.Text s)) }
        ensures { (s : List ℕ) →
            flat self.old.cells (top self.old.stacks.operands).value ≡ Some (dynamic.Text s) →
            Raises self.old steps.old (Plain (FunctionNotFound s)
            (position_of context.entry.program.now address)) result self.new steps.new }
    {
        let name = match self.stacks.top().value.flat(&self.cells) {
            Some(Dynamic::Text(name)) => name.copy(self.alloc)?,
            _ => unreachable!(),
        };
        let fault = EvalAltResult::ErrorFunctionNotFound(name, Position::NONE);
        Ok(self.raise_at(context, steps, address, fault))
    }

    // `curry`: the last `count` operands go after the values of the pointer under them.
    pub(crate) fn curry<L: Ledger>(
        &mut self,
        context: Context<'_>,
        steps: &mut Steps<L>,
        frame: &mut Activation,
        count: u8,
        next: usize,
    ) -> Result<Progress, OutOfMemory>
        requires ready { Ready frame.old self.old (op.Curry count) next }
        ensures performs { (host : H) →
            Performs (setup_of H.law context.entry) (moment frame.old self.old steps.old host)
            (op.Curry count) next result (moment frame.new self.new steps.new host) }
    {
        let count = usize::from(count);
        match self.under(count) {
            Under::Lent => return self.data_race(context, steps, frame.address, ""),
            Under::Other => {
                return self.not_a_pointer(context, steps, frame.address, count);
            }
            Under::Pointer => {}
        }
        let mut pointer = self.pointer_under(count)?;
        self.add_to(&mut pointer, count)?;
        self.stacks.cut(self.stacks.height() - (count + 1));
        Ok(self.push_on(steps, frame, Dynamic::Pointer(pointer), next))
    }

    // Copies of the last `count` operands go after the values of a pointer.
    fn add_to(&self, pointer: &mut FnPtr, count: usize) -> Result<(), OutOfMemory>
        requires { count ≤ length self.now.stacks.operands }
        ensures { IfOk result (λ _. pointer.new ≡ record pointer.old {
          curry = pointer.old.curry ++ trees_in (arguments count self.now.stacks.operands);
        }) }
    {
        let operands = self.stacks.frame_operands();
        add_copies(self.alloc, pointer, &operands[operands.len() - count..])
    }

    // `make_closure`: a pointer to the functions of a name, with no values.
    pub(crate) fn make_closure<L: Ledger>(
        &mut self,
        context: Context<'_>,
        steps: &mut Steps<L>,
        frame: &mut Activation,
        name: u16,
        next: usize,
    ) -> Result<Progress, OutOfMemory>
        requires ready { Ready frame.old self.old (op.MakeClosure name) next }
        requires pools { InPools context.program.now (op.MakeClosure name) }
        ensures performs { (host : H) →
            Performs (setup_of H.law context.entry) (moment frame.old self.old steps.old host)
            (op.MakeClosure name) next result (moment frame.new self.new steps.new host) }
    {
        let name = context.program.name(u32::from(name)).copy(self.alloc)?;
        let curry = Array::new(self.alloc);
        let pointer = Dynamic::Pointer(FnPtr { name, curry });
        Ok(self.push_on(steps, frame, pointer, next))
    }
}
