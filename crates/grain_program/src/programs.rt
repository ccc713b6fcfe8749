//! Programs: parts that break no rule.

ghost use Rattle.std.specs.Prelude.{◌≡◌, ◌<◌, ◌^◌, ◌⊎◌, ℕ, List, [], length, slice_get, IfOk, IfErr, IfSome, Some, option_map};
ghost use Rattle.grain_program.specs.View.{View, view_of, position_in, const_of, name_of, token_of, assign_op_of, chain_of, switch_of, position_of};
ghost use Rattle.grain_program.specs.Decoding.{op_at};
ghost use Rattle.grain_program.specs.Typing.{IsProgram, IsRefusal};
ghost use Rattle.grain_program.specs.Indices.{IsNamed};
ghost use Rattle.grain_program.specs.Shapes.{TryHandler};
ghost use Rattle.grain_program.specs.TypedAt.{IsTypedAt, Provides, Verified};
ghost use Rattle.grain_program.specs.Lookups.{function_of, Called, function_by_text, CalledByText, method_of, MethodCalled, name_at};
ghost use Rattle.grain_program.specs.Recorded.{Ascends, HasOrder};
ghost use Rattle.grain_program.specs.Chains.{slot_of};
ghost use Rattle.grain_program.specs.declared.verifier.refusals.Refusal.TheVariants.{Memory};

use crate::code::bytes::read_there;
use crate::code::chains::{Chain, Chains};
use crate::code::functions::{Function, Functions};
use crate::code::instruction_set::Op;
use crate::code::parts::{AssignOp, Chunk, Parts, PositionEntry};
use crate::code::pools::Names;
use crate::code::switches::Switch;
use crate::lookups::{
    FirstFunctions, FunctionIndex, first_by_text, first_functions, first_method, first_of,
    index_functions,
};
use crate::slots::{first_slots, slot_among};
use crate::verifier::check::check;
use crate::verifier::refusals::Refusal;
use grain_fault::Position;
use grain_value::{Blob, Dynamic, OutOfMemory, Pools, Text, Token};
use std::alloc::Global;
use std::marker::Model;

/// Code that is verified, with its pools: no run of it finds a missing operand, a bad index or a
/// bad address.
#[derive(Drop)]
pub struct Program {
    parts: Parts,
    firsts: FirstFunctions,
    function_index: FunctionIndex,
    // the first slot of each chain
    slots: Vec<u32>,
}

impl Model for Program {
    ghost use Rattle.grain_program.specs.View.{View, view_of};
    ghost use Rattle.grain_program.specs.Typing.{IsProgram};
    ghost use Rattle.grain_program.specs.Recorded.{HasOrder};
    ghost use Rattle.grain_program.specs.Lookups.{IsIndex, AreFirst};
    ghost use Rattle.grain_program.specs.Chains.{first_slots};
    ghost use Rattle.std.specs.Prelude.{◌≡◌};
    ghost use Rattle.std.specs.Coded.{codes};
    ghost use Rattle.grain_value.specs.laws.TreeCode.{coded_tree};

    ghost Value = { View };

    ghost coded = { Prim.hlevel (codes, coded_tree) };

    ghost view = { λ p. view_of p.parts };

    ghost invariant = { λ p. IsProgram (view_of p.parts) × HasOrder (view_of p.parts)
        × IsIndex p.parts.functions p.function_index
        × AreFirst p.parts.functions p.firsts.items
        × (p.slots.items ≡ first_slots 0 p.parts.chains) };
}

/// The program that the parts are, or the first rule that they break. Their positions have to be in
/// ascending order of their addresses, which are below the code's length.
pub fn verify(alloc: Global, parts: Parts) -> Result<Program, Refusal>
    requires { HasOrder (view_of parts) }
    // The program is the parts.
    ensures same { IfOk result (λ p. p ≡ view_of parts) }
    // What is accepted breaks no rule.
    ensures sound { IfOk result (λ _. IsProgram (view_of parts)) }
    // What breaks no rule is accepted, unless memory is out.
    ensures complete { IsProgram (view_of parts) → IfErr result (λ r. r ≡ Memory) }
    // What is refused is the first rule that is broken, at its address, or want of memory.
    ensures first { IfErr result (λ r. (r ≡ Memory) ⊎ IsRefusal (view_of parts) r) }
{
    if let Err(refusal) = check(alloc, &parts) {
        return Err(refusal);
    }
    let functions = parts.functions.as_slice();
    let Ok(firsts) = first_functions(alloc, functions, parts.names.len()) else {
        return Err(Refusal::Memory);
    };
    let Ok(function_index) = index_functions(alloc, functions) else {
        return Err(Refusal::Memory);
    };
    let Ok(slots) = first_slots(alloc, parts.chains.as_slice()) else {
        return Err(Refusal::Memory);
    };
    Ok(Program {
        parts,
        firsts,
        function_index,
        slots,
    })
}

/// A number by value is known to be in its range, which a field behind a reference is not.
fn bounded(max_stack: u16) -> u16
    ensures same { result ≡ max_stack }
    ensures small { result < 2 ^ 16 }
{
    max_stack
}

/// The position of the address among entries in ascending order of their addresses, or none.
fn position_among(entries: &[PositionEntry], address: usize) -> Position
    requires { (end : ℕ) × Ascends 0 end entries.now }
    ensures { result ≡ position_in entries.now address }
{
    let mut low = 0;
    let mut high = entries.len();
    while low < high {
        let middle = low + (high - low) / 2;
        let entry = entries[middle];
        let at = entry.address as usize;
        if at == address {
            return entry.position;
        }
        if at < address {
            low = middle + 1;
        } else {
            high = middle;
        }
    }
    Position::NONE
}

impl Program {
    /// The code.
    pub fn code(&self) -> &Blob
        ensures value { result.now ≡ self.now.code }
        ensures valid { IsProgram self.now }
    {
        &self.parts.code
    }

    /// The main chunk.
    pub fn main(&self) -> Chunk
        ensures value { result ≡ self.now.main }
        ensures valid { IsProgram self.now }
        ensures small { result.max_stack < 2 ^ 16 }
    {
        let main = &self.parts.main;
        Chunk {
            entry: main.entry,
            end: main.end,
            max_stack: bounded(main.max_stack),
        }
    }

    /// The name of the script that the program was made from, if it has one.
    pub fn source(&self) -> Option<&Text>
        ensures { option_map (λ t. t.now) result ≡ self.now.source }
    {
        self.parts.source.as_ref()
    }

    /// The functions, by number.
    pub fn functions(&self) -> &Functions
        ensures { result.now ≡ self.now.functions }
    {
        &self.parts.functions
    }

    /// The function of that number. A frame can be entered at its chunk's entry, and its names can
    /// be looked up.
    pub fn function_at(&self, number: usize) -> &Function
        requires { number < length self.now.functions }
        ensures value { slice_get self.now.functions number ≡ Some result.now }
        ensures enters { IsTypedAt self.now result.now.chunk result.now.chunk.entry 0 0 [] }
        ensures named { IsNamed self.now result.now }
        ensures small { result.now.chunk.max_stack < 2 ^ 16 }
    {
        let function = self.parts.functions.at(number);
        let _ = bounded(function.chunk.max_stack);
        function
    }

    /// The number of the first function of this name, by its index, with this number of parameters,
    /// that is untyped.
    #[inline(always)]
    pub fn function(&self, name_index: u32, argc: usize) -> Option<usize>
        ensures exact { result ≡ function_of self.now name_index argc }
        ensures called { IfSome result (Called self.now name_index argc) }
    {
        match first_of(&self.firsts, name_index) {
            Some(first) if first.count == argc => Some(first.number),
            _ => self.indexed_function(name_index, argc),
        }
    }

    /// The same, by a search: where the first function of the name has another number of
    /// parameters, or there is none.
    #[cold]
    #[inline(never)]
    fn indexed_function(&self, name_index: u32, argc: usize) -> Option<usize>
        ensures exact { result ≡ function_of self.now name_index argc }
        ensures called { IfSome result (Called self.now name_index argc) }
    {
        self.function_index.get(&(name_index, argc)).copied()
    }

    /// The number of the first function whose name is this text, with this number of parameters, that
    /// is untyped.
    pub fn function_named(&self, name: &str, argc: usize) -> Option<usize>
        ensures exact { result ≡ function_by_text self.now name.now argc }
        ensures called { IfSome result (CalledByText self.now name.now argc) }
    {
        first_by_text(
            &self.parts.names,
            self.parts.functions.as_slice(),
            name,
            argc,
        )
    }

    /// The number of the function of this name, by its index, with this number of parameters that a
    /// value of this type has as a method: the first that is typed so, or else the first untyped one.
    /// It looks at each function that comes before the one that is typed so, or at all of them if there
    /// is none.
    pub fn method(&self, name_index: u32, argc: usize, type_name: &str) -> Option<usize>
        ensures exact { result ≡ method_of self.now name_index argc type_name.now }
        ensures called { IfSome result (MethodCalled self.now name_index argc) }
    {
        let functions = self.parts.functions.as_slice();
        match first_method(&self.parts.names, functions, name_index, argc, type_name) {
            Some(number) => Some(number),
            None => self.function(name_index, argc),
        }
    }

    /// The index of the name of the first function whose name is this text, with this number of
    /// parameters, that is untyped.
    pub fn function_name_index(&self, name: &str, argc: usize) -> Option<u32>
        ensures { result ≡ name_at self.now (function_by_text self.now name.now argc) }
    {
        match self.function_named(name, argc) {
            Some(number) => match self.parts.functions.get(number) {
                Some(function) => Some(function.name),
                None => None,
            },
            None => None,
        }
    }

    /// The constant at the index.
    pub fn constant(&self, index: u32) -> &Dynamic
        requires { index < length self.now.consts }
        ensures { result.now ≡ const_of self.now index }
    {
        self.parts.consts.at(index as usize)
    }

    /// The name at the index.
    pub fn name(&self, index: u32) -> &Text
        requires { index < length self.now.names }
        ensures { result.now ≡ name_of self.now index }
    {
        self.parts.names.at(index as usize).as_text()
    }

    /// The names, each of which the entries of scopes share.
    #[inline(always)]
    pub fn names(&self) -> &Names
        ensures { result.now ≡ self.now.names }
    {
        &self.parts.names
    }

    /// The operator token at the index.
    pub fn token(&self, index: u32) -> Token
        requires { index < length self.now.tokens }
        ensures { result ≡ token_of self.now index }
    {
        *self.parts.tokens.at(index as usize)
    }

    /// The op-assignment at the index.
    pub fn assign_op(&self, index: u32) -> &AssignOp
        requires { index < length self.now.assign_ops }
        ensures { result.now ≡ assign_op_of self.now index }
    {
        self.parts.assign_ops.at(index as usize)
    }

    /// The chains.
    pub fn chains(&self) -> &Chains
        ensures { result.now ≡ self.now.chains }
    {
        &self.parts.chains
    }

    /// The chain at the index.
    pub fn chain(&self, index: u32) -> &Chain
        requires { index < length self.now.chains }
        ensures { result.now ≡ chain_of self.now index }
    {
        self.parts.chains.at(index as usize)
    }

    /// The switch at the index.
    pub fn switch(&self, index: u32) -> &Switch
        requires { index < length self.now.switches }
        ensures { result.now ≡ switch_of self.now index }
    {
        self.parts.switches.at(index as usize)
    }

    /// The first slot of the step of this number, of the chain at the index: by it a trace names the
    /// step. Slots are numbered over all chains, one for each position that a root or a step has.
    pub fn step_slot(&self, index: u32, number: usize) -> u32
        requires { index < length self.now.chains }
        ensures { result ≡ slot_of self.now index number }
    {
        let chains = self.parts.chains.as_slice();
        slot_among(&self.slots, chains, index as usize, number)
    }

    /// The instruction at which a frame of the chunk stands with some operands, cursors and handlers,
    /// and its width in bytes.
    #[inline(always)]
    pub fn fetch(&self, chunk: Chunk, address: usize) -> (Op, usize)
        requires { (depth : ℕ) × ((cursors : ℕ) × ((handlers : List TryHandler) ×
            IsTypedAt self.now chunk address depth cursors handlers)) }
        ensures read { op_at self.now.code address ≡ Some (result.0, result.1) }
        ensures provides { (depth cursors : ℕ) (handlers : List TryHandler) →
            IsTypedAt self.now chunk address depth cursors handlers →
            Provides self.now chunk address depth result.0 result.1 }
        ensures verified { (depth cursors : ℕ) (handlers : List TryHandler) →
            IsTypedAt self.now chunk address depth cursors handlers →
            Verified self.now chunk address depth cursors handlers result.0 result.1 }
    {
        let _ = chunk;
        let mut op = Op::Return;
        let width = read_there(&self.parts.code, address, &mut op);
        (op, width)
    }

    /// The position of the instruction at the address, or none where none is recorded.
    pub fn position(&self, address: usize) -> Position
        ensures { result ≡ position_of self.now address }
    {
        position_among(self.parts.positions.as_slice(), address)
    }
}

impl Pools for Program {
    ghost names = { λ program. program.names };

    ghost constants = { λ program. program.consts };

    fn name(&self, index: u32) -> &Text {
        self.parts.names.at(index as usize).as_text()
    }

    fn constant(&self, index: u32) -> &Dynamic {
        self.parts.consts.at(index as usize)
    }
}
