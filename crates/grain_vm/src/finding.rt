//! What an instruction that is not done at once comes to: it is done, or it calls a function.

ghost use Rattle.std.specs.Prelude.{◌≡◌};
ghost use Rattle.grain_frame.specs.Abstraction.{Ready, setup_of, moment};
ghost use Rattle.grain_vm.specs.Finding.{Finds, found_of};
ghost use Rattle.grain_vm.specs.Methods.{NoneAbove};
ghost use Rattle.grain_program.specs.declared.code.instruction_set.Op.TheVariants as op;

use crate::asks::native_by_name;
use grain_frame::{Activation, Context, Progress, Run, Under};
use grain_global::Steps;
use grain_host::Host;
use grain_value::{FnPtr, OutOfMemory};
use std::sync::ledger::Ledger;

/// What is found of an instruction before a function is called.
#[derive(Clone, Copy, Debug, PartialEq, Eq)]
pub enum Found {
    /// It is done, without a function.
    Done(Progress),
    /// It calls the function of this number on the last operands; afterwards the frame goes on at
    /// the address `next`.
    Function { number: usize, next: usize },
}

impl Found {
    // An instruction that was done without a function, unless memory ran out.
    #[inline(always)]
    pub(crate) fn of(done: Result<Progress, OutOfMemory>) -> Result<Found, OutOfMemory>
        ensures { result ≡ found_of done }
    {
        Ok(Found::Done(done?))
    }
}

// `call_fn_ptr`: finds the function that the pointer under the last `count` operands names, with as many
// parameters as the pointer has values and there are operands, taken together. The pointer's values take
// its place. If there is no such function, the native of that name is called on all of them.
#[cycle(run)]
#[cold]
#[inline(never)]
pub(crate) fn find_pointed<H: Host, L: Ledger>(
    run: &mut Run<H>,
    context: Context<'_>,
    host: &mut H,
    steps: &mut Steps<L>,
    frame: &mut Activation,
    count: u8,
    next: usize,
) -> Result<Found, OutOfMemory>
    requires ready { Ready frame.old run.old (op.CallFnPtr count) next }
    requires none { NoneAbove run.old.level run.old.receivers }
    ensures finds { Finds (setup_of H.law context.entry)
        (moment frame.old run.old steps.old host.old) (op.CallFnPtr count) next result
        (moment frame.new run.new steps.new host.new) }
{
    let count = usize::from(count);
    match run.under(count) {
        Under::Lent => Found::of(run.data_race(context, steps, frame.address, "")),
        Under::Other => Found::of(run.not_a_pointer(context, steps, frame.address, count)),
        Under::Pointer => {
            let FnPtr { name, curry } = run.pointer_under(count)?;
            let total = curry.len() + count;
            run.stacks.spread(run.alloc, count, curry.into_vec())?;
            match context.program.function_named(name.as_str(), total) {
                Some(number) => Ok(Found::Function { number, next }),
                None => Found::of(native_by_name(
                    run, context, host, steps, frame, &name, total, next,
                )),
            }
        }
    }
}
