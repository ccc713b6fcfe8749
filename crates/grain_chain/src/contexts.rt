//! What a walk only reads: the engine, the program and the cells.

ghost use Rattle.std.specs.Prelude.{◌≡◌, ◌<◌, IfOk, Some, slice_get};
ghost use Rattle.grain_program.specs.Chains.{HasOperands};
ghost use Rattle.grain_program.specs.View.{name_of, chain_of};
ghost use Rattle.grain_chain.specs.Walking.{steps_of, count_of, ending_in, HasOperator};

use crate::origins::Ending;
use grain_global::Engine;
use grain_program::{Program, Step, Tail};
use grain_value::{OutOfMemory, Store, Text};
use std::alloc::Global;

/// What a walk only reads: the engine, the program and the cells.
#[derive(Clone, Copy)]
pub(crate) struct Context<'a> {
    pub(crate) engine: &'a Engine,
    pub(crate) program: &'a Program,
    pub(crate) cells: &'a Store,
}

/// The name with this index; empty if there is none.
pub(crate) fn name_at(program: &Program, index: u32) -> &str
    ensures { result.now ≡ name_of program.now index }
{
    match program.names().get(index as usize) {
        Some(name) => name.as_str(),
        None => "",
    }
}

/// The name with this index, which the text shares with the program; empty if there is none.
pub(crate) fn name_of_program(
    alloc: Global,
    program: &Program,
    index: u32,
) -> Result<Text, OutOfMemory>
    ensures { IfOk result (λ text. text ≡ name_of program.now index) }
{
    match program.names().get(index as usize) {
        Some(name) => name.as_text().copy(alloc),
        None => Ok(Text::new(alloc)),
    }
}

/// How many steps the chain with this index has; 0 if there is no such chain.
pub(crate) fn count_of_steps(program: &Program, chain: u32) -> usize
    ensures { result ≡ count_of program.now chain }
{
    match program.chains().get(chain as usize) {
        Some(chain) => chain.steps.len(),
        None => 0,
    }
}

/// Step `number` of the chain with this index. Its operands are among the chain's.
pub(crate) fn step_at(program: &Program, chain: u32, number: usize) -> Step
    requires { number < count_of program.now chain }
    ensures is { slice_get (steps_of program.now chain) number ≡ Some result }
    ensures operands { HasOperands (chain_of program.now chain).operands result }
{
    // That the program obeys the rules of chains is said of its code.
    let _ = program.code();
    match program.chains().get(chain as usize) {
        Some(chain) => *chain.steps.at(number),
        None => unreachable!(),
    }
}

/// The tail of the chain with this index; `Read` if there is no such chain.
fn tail_of(program: &Program, chain: u32) -> Tail
    ensures { result ≡ (chain_of program.now chain).tail }
{
    match program.chains().get(chain as usize) {
        Some(chain) => chain.tail,
        None => Tail::Read,
    }
}

/// What the chain with this index does after its last step.
pub(crate) fn ending_of(program: &Program, chain: u32) -> Ending
    requires { HasOperator program.now ((chain_of program.now chain).tail) }
    ensures { result ≡ ending_in program.now ((chain_of program.now chain).tail) }
{
    match tail_of(program, chain) {
        Tail::Read => Ending::Read,
        Tail::Assign { op } => match op {
            None => Ending::Write,
            Some(op) => Ending::Operate(*program.assign_op(op)),
        },
    }
}
