//! The instruction set: what each instruction means in a line, how it is read from its bytes, and
//! its row.

ghost use Rattle.std.specs.Prelude.{◌≡◌, ◌<◌, ◌≤◌, ◌+◌, length, Some};
ghost use Rattle.grain_program.specs.InstructionSet.{word_of, tag_of, fields_of};
ghost use Rattle.grain_program.specs.Decoding.{by_tag, width_of};
ghost use Rattle.grain_program.specs.Spelling.{OpFits};
ghost use Rattle.grain_program.specs.Effects.{own_takes, gives_of, flow_of, looping_of, handling_of};
ghost use Rattle.grain_program.specs.Capabilities.{needs};

use crate::code::caps::Caps;
use crate::code::descriptors::{Descriptor, looping, needing, on_handlers, plain};
use crate::code::effects::{Flow, Handling, Looping};
use crate::code::fields::{Field, Fields};
use crate::code::numbers::{four_there, one_there, two_there};

/// One instruction. Its operands stand in the order of its bytes: C a constant, N a name, S a slot,
/// A an op-assignment, O an operator token, K a chain or a switch, T a target address and d a plain
/// number; a count or another number U is one byte.
#[derive(Clone, Copy, Debug, PartialEq, Eq)]
pub enum Op {
    /// `load_const C`: a copy of the constant.
    LoadConst(u16),
    /// `unit`: the value unit.
    Unit,
    /// `false`: that truth value.
    False,
    /// `true`: that truth value.
    True,
    /// `load_local S`: what the entry holds.
    LoadLocal(u16),
    /// `store_local S`: writes the entry, which can be written afterwards.
    StoreLocal(u16),
    /// `store_const S`: writes the entry, which can only be read afterwards.
    StoreConst(u16),
    /// `store_shared S`: writes the entry, which keeps the operand's read-only flag.
    StoreShared(u16),
    /// `declare_local N`: a new entry of that name.
    DeclareLocal(u16),
    /// `declare_const N`: a new entry of that name, which can only be read.
    DeclareConst(u16),
    /// `assign_local S N`: an assignment to the entry.
    AssignLocal(u16, u16),
    /// `assign_local_op S N A`: an op-assignment to the entry.
    AssignLocalOp(u16, u16, u16),
    /// `load_this`: what `this` is.
    LoadThis,
    /// `load_this_shared`: what `this` is; a cell stays a cell.
    LoadThisShared,
    /// `require_this`: there has to be a `this`.
    RequireThis,
    /// `assign_this`: an assignment to `this`.
    AssignThis,
    /// `assign_this_op A`: an op-assignment to `this`.
    AssignThisOp(u16),
    /// `load_shared S`: what the entry holds; a cell stays a cell.
    LoadShared(u16),
    /// `share S`: makes the entry a cell, unless it is one.
    Share(u16),
    /// `is_shared`: whether the last operand is a cell.
    IsShared,
    /// `pop`: takes the last operand away.
    Pop,
    /// `rotate U`: the last operand goes under U others.
    Rotate(u8),
    /// `jump T`.
    Jump(u32),
    /// `jump_if_false T`.
    JumpIfFalse(u32),
    /// `jump_if_true T`.
    JumpIfTrue(u32),
    /// `skip_if_not_unit T`: looks at the last operand.
    SkipIfNotUnit(u32),
    /// `switch K`: looks at the last operand, and goes on where the switch leads it.
    Switch(u16),
    /// `call N n`: the function of that name on the n last operands.
    Call(u16, u8),
    /// `call_op N n O`: the operator on the n last operands.
    CallOp(u16, u8, u16),
    /// `make_closure N`: a pointer to the functions of that name.
    MakeClosure(u16),
    /// `make_fn_ptr`: a pointer to the functions of the name that the last operand is.
    MakeFnPtr,
    /// `curry n`: the n last operands go to the values of the pointer below them.
    Curry(u8),
    /// `call_fn_ptr n`: the function of the pointer below the n last operands, on its values and
    /// on these.
    CallFnPtr(u8),
    /// `call_fn_ptr_method n`: as `call_fn_ptr n`. But if the operand below the n last is no
    /// pointer, it is the receiver, which the function has as its `this`, and the first of the n is
    /// the pointer. Afterwards the receiver is dropped.
    CallFnPtrMethod(u8),
    /// `call_fn_ptr_on_local n S`: as `call_fn_ptr_method n`. But afterwards the receiver goes to
    /// the entry of the slot.
    CallFnPtrOnLocal(u8, u16),
    /// `call_fn_ptr_on_this n`: as `call_fn_ptr_method n`. But afterwards the receiver goes to
    /// `this`.
    CallFnPtrOnThis(u8),
    /// `make_array d`: an array of the d last operands.
    MakeArray(u16),
    /// `make_map d`: the map under the d last pairs of a key and a value, and these pairs.
    MakeMap(u16),
    /// `check_array_size d`: the last operand is the element of that number of a literal, whose total
    /// it goes to.
    CheckArraySize(u16),
    /// `check_map_size d`: the last operand is the value of that number of a literal, whose total it
    /// goes to.
    CheckMapSize(u16),
    /// `interpolate_start`: a text without characters.
    InterpolateStart,
    /// `interpolate_append`: the last operand is written after the text below it.
    InterpolateAppend,
    /// `interpolate_end`: the text that the last operand is.
    InterpolateEnd,
    /// `chain K`: walks along the chain, and does there what its end says.
    Chain(u16),
    /// `unwind_to d`: cuts the scope to d entries above the base.
    UnwindTo(u16),
    /// `tick`: costs an operation.
    Tick,
    /// `checkpoint`: the scope is not cut below its present length.
    Checkpoint,
    /// `statement d`: does nothing.
    Statement(u16),
    /// `push_handler T`: a handler, which leads to the target.
    PushHandler(u32),
    /// `push_handler_var T N`: a handler with a variable of that name.
    PushHandlerVar(u32, u16),
    /// `pop_handler`: the innermost handler goes.
    PopHandler,
    /// `iter_init`: a cursor more, over the last operand.
    IterInit,
    /// `iter_drop`: the innermost cursor goes.
    IterDrop,
    /// `iter_next T`: counts, and gives the next item of the innermost cursor. At its end the cursor
    /// goes, and the machine goes to the target.
    IterNext(u32),
    /// `iter_next_indexed T S`: the same, and the count goes to the entry.
    IterNextIndexed(u32, u16),
    /// `throw`: raises the last operand.
    Throw,
    /// `return`: the last operand, or unit.
    Return,
}

// The instruction of a tag, with its operands from the bytes after it, which are there, into `op`,
// and its width, or 0 for a tag of no instruction. It is written where it is wanted, and not handed
// on as a part of larger values: so the compiler sees which instruction each tag gives, and a match
// on what was read needs no second jump.
#[inline(always)]
#[tactic(auto, unfolding(crate::specs::Decoding::by_tag, crate::specs::Decoding::width_of))]
pub(crate) fn tagged(tag: u8, rest: &[u8], op: &mut Op) -> usize
    requires { width_of tag ≤ length rest.now + 1 }
    ensures wide { result ≡ width_of tag }
    ensures read { 0 < result → by_tag tag rest.now ≡ Some (op.new, result) }
{
    match tag {
        0x01 => {
            *op = Op::LoadConst(two_there(rest));
            3
        }
        0x02 => {
            *op = Op::Unit;
            1
        }
        0x03 => {
            *op = Op::False;
            1
        }
        0x04 => {
            *op = Op::True;
            1
        }
        0x05 => {
            *op = Op::LoadLocal(two_there(rest));
            3
        }
        0x06 => {
            *op = Op::StoreLocal(two_there(rest));
            3
        }
        0x07 => {
            *op = Op::StoreConst(two_there(rest));
            3
        }
        0x08 => {
            *op = Op::StoreShared(two_there(rest));
            3
        }
        0x0d => {
            *op = Op::DeclareLocal(two_there(rest));
            3
        }
        0x0e => {
            *op = Op::DeclareConst(two_there(rest));
            3
        }
        0x10 => {
            let name = &rest[2..];
            *op = Op::AssignLocal(two_there(rest), two_there(name));
            5
        }
        0x11 => {
            let name = &rest[2..];
            let assign = &name[2..];
            *op = Op::AssignLocalOp(two_there(rest), two_there(name), two_there(assign));
            7
        }
        0x12 => {
            *op = Op::LoadThis;
            1
        }
        0x13 => {
            *op = Op::LoadThisShared;
            1
        }
        0x14 => {
            *op = Op::RequireThis;
            1
        }
        0x15 => {
            *op = Op::AssignThis;
            1
        }
        0x16 => {
            *op = Op::AssignThisOp(two_there(rest));
            3
        }
        0x17 => {
            *op = Op::LoadShared(two_there(rest));
            3
        }
        0x18 => {
            *op = Op::Share(two_there(rest));
            3
        }
        0x1a => {
            *op = Op::IsShared;
            1
        }
        0x1b => {
            *op = Op::Pop;
            1
        }
        0x1c => {
            *op = Op::Rotate(one_there(rest));
            2
        }
        0x1d => {
            *op = Op::Jump(four_there(rest));
            5
        }
        0x1e => {
            *op = Op::JumpIfFalse(four_there(rest));
            5
        }
        0x1f => {
            *op = Op::JumpIfTrue(four_there(rest));
            5
        }
        0x20 => {
            *op = Op::SkipIfNotUnit(four_there(rest));
            5
        }
        0x21 => {
            *op = Op::Switch(two_there(rest));
            3
        }
        0x22 => {
            let count = &rest[2..];
            *op = Op::Call(two_there(rest), one_there(count));
            4
        }
        0x23 => {
            let count = &rest[2..];
            let token = &count[1..];
            *op = Op::CallOp(two_there(rest), one_there(count), two_there(token));
            6
        }
        0x27 => {
            *op = Op::MakeClosure(two_there(rest));
            3
        }
        0x28 => {
            *op = Op::MakeFnPtr;
            1
        }
        0x29 => {
            *op = Op::Curry(one_there(rest));
            2
        }
        0x2a => {
            *op = Op::CallFnPtr(one_there(rest));
            2
        }
        0x2c => {
            *op = Op::CallFnPtrMethod(one_there(rest));
            2
        }
        0x2d => {
            let slot = &rest[1..];
            *op = Op::CallFnPtrOnLocal(one_there(rest), two_there(slot));
            4
        }
        0x2f => {
            *op = Op::CallFnPtrOnThis(one_there(rest));
            2
        }
        0x30 => {
            *op = Op::MakeArray(two_there(rest));
            3
        }
        0x31 => {
            *op = Op::MakeMap(two_there(rest));
            3
        }
        0x32 => {
            *op = Op::CheckArraySize(two_there(rest));
            3
        }
        0x33 => {
            *op = Op::CheckMapSize(two_there(rest));
            3
        }
        0x34 => {
            *op = Op::InterpolateStart;
            1
        }
        0x35 => {
            *op = Op::InterpolateAppend;
            1
        }
        0x36 => {
            *op = Op::InterpolateEnd;
            1
        }
        0x37 => {
            *op = Op::Chain(two_there(rest));
            3
        }
        0x38 => {
            *op = Op::UnwindTo(two_there(rest));
            3
        }
        0x39 => {
            *op = Op::Tick;
            1
        }
        0x3a => {
            *op = Op::Checkpoint;
            1
        }
        0x3b => {
            *op = Op::Statement(two_there(rest));
            3
        }
        0x3c => {
            *op = Op::PushHandler(four_there(rest));
            5
        }
        0x3d => {
            let name = &rest[4..];
            *op = Op::PushHandlerVar(four_there(rest), two_there(name));
            7
        }
        0x3e => {
            *op = Op::PopHandler;
            1
        }
        0x3f => {
            *op = Op::IterInit;
            1
        }
        0x40 => {
            *op = Op::IterDrop;
            1
        }
        0x41 => {
            *op = Op::IterNext(four_there(rest));
            5
        }
        0x42 => {
            let slot = &rest[4..];
            *op = Op::IterNextIndexed(four_there(rest), two_there(slot));
            7
        }
        0x49 => {
            *op = Op::Throw;
            1
        }
        0x4a => {
            *op = Op::Return;
            1
        }
        _ => 0,
    }
}

impl Op {
    /// The word that begins its line in a listing.
    #[inline]
    pub fn word(self) -> &'static str
        ensures { result.now ≡ word_of self }
    {
        match self {
            Op::LoadConst(_) => "load_const",
            Op::Unit => "unit",
            Op::False => "false",
            Op::True => "true",
            Op::LoadLocal(_) => "load_local",
            Op::StoreLocal(_) => "store_local",
            Op::StoreConst(_) => "store_const",
            Op::StoreShared(_) => "store_shared",
            Op::DeclareLocal(_) => "declare_local",
            Op::DeclareConst(_) => "declare_const",
            Op::AssignLocal(_, _) => "assign_local",
            Op::AssignLocalOp(_, _, _) => "assign_local_op",
            Op::LoadThis => "load_this",
            Op::LoadThisShared => "load_this_shared",
            Op::RequireThis => "require_this",
            Op::AssignThis => "assign_this",
            Op::AssignThisOp(_) => "assign_this_op",
            Op::LoadShared(_) => "load_shared",
            Op::Share(_) => "share",
            Op::IsShared => "is_shared",
            Op::Pop => "pop",
            Op::Rotate(_) => "rotate",
            Op::Jump(_) => "jump",
            Op::JumpIfFalse(_) => "jump_if_false",
            Op::JumpIfTrue(_) => "jump_if_true",
            Op::SkipIfNotUnit(_) => "skip_if_not_unit",
            Op::Switch(_) => "switch",
            Op::Call(_, _) => "call",
            Op::CallOp(_, _, _) => "call_op",
            Op::MakeClosure(_) => "make_closure",
            Op::MakeFnPtr => "make_fn_ptr",
            Op::Curry(_) => "curry",
            Op::CallFnPtr(_) => "call_fn_ptr",
            Op::CallFnPtrMethod(_) => "call_fn_ptr_method",
            Op::CallFnPtrOnLocal(_, _) => "call_fn_ptr_on_local",
            Op::CallFnPtrOnThis(_) => "call_fn_ptr_on_this",
            Op::MakeArray(_) => "make_array",
            Op::MakeMap(_) => "make_map",
            Op::CheckArraySize(_) => "check_array_size",
            Op::CheckMapSize(_) => "check_map_size",
            Op::InterpolateStart => "interpolate_start",
            Op::InterpolateAppend => "interpolate_append",
            Op::InterpolateEnd => "interpolate_end",
            Op::Chain(_) => "chain",
            Op::UnwindTo(_) => "unwind_to",
            Op::Tick => "tick",
            Op::Checkpoint => "checkpoint",
            Op::Statement(_) => "statement",
            Op::PushHandler(_) => "push_handler",
            Op::PushHandlerVar(_, _) => "push_handler_var",
            Op::PopHandler => "pop_handler",
            Op::IterInit => "iter_init",
            Op::IterDrop => "iter_drop",
            Op::IterNext(_) => "iter_next",
            Op::IterNextIndexed(_, _) => "iter_next_indexed",
            Op::Throw => "throw",
            Op::Return => "return",
        }
    }

    /// The row of the instruction.
    #[inline(always)]
    pub fn descriptor(self) -> Descriptor
        ensures tag { result.tag ≡ tag_of self }
        ensures fields { result.fields ≡ fields_of self }
        ensures takes { result.takes ≡ own_takes self }
        ensures gives { result.gives ≡ gives_of self }
        ensures flow { result.flow ≡ flow_of self }
        ensures looping { result.looping ≡ looping_of self }
        ensures handling { result.handling ≡ handling_of self }
        ensures capability { result.capability.0 ≡ needs self }
        ensures fits { OpFits self }
    {
        match self {
            Op::LoadConst(constant) => {
                let fields = Fields::one(Field::Constant(constant));
                plain(0x01, fields, 0, 1, Flow::Next)
            }
            Op::Unit => plain(0x02, Fields::none(), 0, 1, Flow::Next),
            Op::False => plain(0x03, Fields::none(), 0, 1, Flow::Next),
            Op::True => plain(0x04, Fields::none(), 0, 1, Flow::Next),
            Op::LoadLocal(slot) => {
                let fields = Fields::one(Field::Slot(slot));
                plain(0x05, fields, 0, 1, Flow::Next)
            }
            Op::StoreLocal(slot) => {
                let fields = Fields::one(Field::Slot(slot));
                plain(0x06, fields, 1, 0, Flow::Next)
            }
            Op::StoreConst(slot) => {
                let fields = Fields::one(Field::Slot(slot));
                plain(0x07, fields, 1, 0, Flow::Next)
            }
            Op::StoreShared(slot) => {
                let fields = Fields::one(Field::Slot(slot));
                plain(0x08, fields, 1, 0, Flow::Next)
            }
            Op::DeclareLocal(name) => {
                let fields = Fields::one(Field::Name(name));
                plain(0x0d, fields, 1, 0, Flow::Next)
            }
            Op::DeclareConst(name) => {
                let fields = Fields::one(Field::Name(name));
                plain(0x0e, fields, 1, 0, Flow::Next)
            }
            Op::AssignLocal(slot, name) => {
                let fields = Fields::two(Field::Slot(slot), Field::Name(name));
                plain(0x10, fields, 1, 0, Flow::Next)
            }
            Op::AssignLocalOp(slot, name, assign) => {
                let assign = Field::Assignment(assign);
                let fields = Fields::three(Field::Slot(slot), Field::Name(name), assign);
                plain(0x11, fields, 1, 0, Flow::Next)
            }
            Op::LoadThis => plain(0x12, Fields::none(), 0, 1, Flow::Next),
            Op::LoadThisShared => plain(0x13, Fields::none(), 0, 1, Flow::Next),
            Op::RequireThis => plain(0x14, Fields::none(), 0, 0, Flow::Next),
            Op::AssignThis => plain(0x15, Fields::none(), 1, 0, Flow::Next),
            Op::AssignThisOp(assign) => {
                let fields = Fields::one(Field::Assignment(assign));
                plain(0x16, fields, 1, 0, Flow::Next)
            }
            Op::LoadShared(slot) => {
                let fields = Fields::one(Field::Slot(slot));
                plain(0x17, fields, 0, 1, Flow::Next)
            }
            Op::Share(slot) => {
                let fields = Fields::one(Field::Slot(slot));
                let share = plain(0x18, fields, 0, 0, Flow::Next);
                needing(Caps::CLOSURE, share)
            }
            Op::IsShared => {
                let is_shared = plain(0x1a, Fields::none(), 1, 1, Flow::Next);
                needing(Caps::CLOSURE, is_shared)
            }
            Op::Pop => plain(0x1b, Fields::none(), 1, 0, Flow::Next),
            Op::Rotate(under) => {
                let fields = Fields::one(Field::Count(under));
                let moved = u32::from(under) + 1;
                plain(0x1c, fields, moved, moved, Flow::Next)
            }
            Op::Jump(target) => {
                let fields = Fields::one(Field::Target(target));
                plain(0x1d, fields, 0, 0, Flow::Jump(target))
            }
            Op::JumpIfFalse(target) => {
                let fields = Fields::one(Field::Target(target));
                plain(0x1e, fields, 1, 0, Flow::Branch(target))
            }
            Op::JumpIfTrue(target) => {
                let fields = Fields::one(Field::Target(target));
                plain(0x1f, fields, 1, 0, Flow::Branch(target))
            }
            Op::SkipIfNotUnit(target) => {
                let fields = Fields::one(Field::Target(target));
                plain(0x20, fields, 1, 1, Flow::Branch(target))
            }
            Op::Switch(switch) => {
                let fields = Fields::one(Field::Switch(switch));
                plain(0x21, fields, 1, 1, Flow::Switch(switch))
            }
            Op::Call(name, count) => {
                let fields = Fields::two(Field::Name(name), Field::Count(count));
                let call = plain(0x22, fields, u32::from(count), 1, Flow::Next);
                needing(Caps::FUNCTION, call)
            }
            Op::CallOp(name, count, token) => {
                let token = Field::Token(token);
                let fields = Fields::three(Field::Name(name), Field::Count(count), token);
                plain(0x23, fields, u32::from(count), 1, Flow::Next)
            }
            Op::MakeClosure(name) => {
                let fields = Fields::one(Field::Name(name));
                let closure = plain(0x27, fields, 0, 1, Flow::Next);
                needing(Caps::FUNCTION, closure)
            }
            Op::MakeFnPtr => {
                let pointer = plain(0x28, Fields::none(), 1, 1, Flow::Next);
                needing(Caps::FUNCTION, pointer)
            }
            Op::Curry(count) => {
                let fields = Fields::one(Field::Count(count));
                let curry = plain(0x29, fields, u32::from(count) + 1, 1, Flow::Next);
                needing(Caps::FUNCTION, curry)
            }
            Op::CallFnPtr(count) => {
                let fields = Fields::one(Field::Count(count));
                let taken = u32::from(count) + 1;
                let pointer = plain(0x2a, fields, taken, 1, Flow::Next);
                needing(Caps::FUNCTION, pointer)
            }
            Op::CallFnPtrMethod(count) => {
                let fields = Fields::one(Field::Count(count));
                let taken = u32::from(count) + 1;
                let pointer = plain(0x2c, fields, taken, 1, Flow::Next);
                needing(Caps::FUNCTION, pointer)
            }
            Op::CallFnPtrOnLocal(count, slot) => {
                let fields = Fields::two(Field::Count(count), Field::Slot(slot));
                let taken = u32::from(count) + 1;
                let pointer = plain(0x2d, fields, taken, 1, Flow::Next);
                needing(Caps::FUNCTION, pointer)
            }
            Op::CallFnPtrOnThis(count) => {
                let fields = Fields::one(Field::Count(count));
                let taken = u32::from(count) + 1;
                let pointer = plain(0x2f, fields, taken, 1, Flow::Next);
                needing(Caps::FUNCTION, pointer)
            }
            Op::MakeArray(count) => {
                let fields = Fields::one(Field::Number(count));
                plain(0x30, fields, u32::from(count), 1, Flow::Next)
            }
            Op::MakeMap(count) => {
                let fields = Fields::one(Field::Number(count));
                let pairs = u32::from(count);
                plain(0x31, fields, pairs + pairs + 1, 1, Flow::Next)
            }
            Op::CheckArraySize(index) => {
                let fields = Fields::one(Field::Number(index));
                plain(0x32, fields, 1, 1, Flow::Next)
            }
            Op::CheckMapSize(index) => {
                let fields = Fields::one(Field::Number(index));
                plain(0x33, fields, 1, 1, Flow::Next)
            }
            Op::InterpolateStart => plain(0x34, Fields::none(), 0, 1, Flow::Next),
            Op::InterpolateAppend => plain(0x35, Fields::none(), 2, 1, Flow::Next),
            Op::InterpolateEnd => plain(0x36, Fields::none(), 1, 1, Flow::Next),
            Op::Chain(chain) => {
                let fields = Fields::one(Field::Chain(chain));
                plain(0x37, fields, 0, 1, Flow::Next)
            }
            Op::UnwindTo(depth) => {
                let fields = Fields::one(Field::Number(depth));
                plain(0x38, fields, 0, 0, Flow::Next)
            }
            Op::Tick => plain(0x39, Fields::none(), 0, 0, Flow::Next),
            Op::Checkpoint => plain(0x3a, Fields::none(), 0, 0, Flow::Next),
            Op::Statement(depth) => {
                let fields = Fields::one(Field::Number(depth));
                plain(0x3b, fields, 0, 0, Flow::Next)
            }
            Op::PushHandler(target) => {
                let fields = Fields::one(Field::Target(target));
                let handling = Handling::Push(target, None);
                on_handlers(0x3c, fields, Flow::Branch(target), handling)
            }
            Op::PushHandlerVar(target, name) => {
                let fields = Fields::two(Field::Target(target), Field::Name(name));
                let branch = Flow::Branch(target);
                let handling = Handling::Push(target, Some(name));
                on_handlers(0x3d, fields, branch, handling)
            }
            Op::PopHandler => {
                let fields = Fields::none();
                on_handlers(0x3e, fields, Flow::Next, Handling::Pop)
            }
            Op::IterInit => {
                let init = plain(0x3f, Fields::none(), 1, 0, Flow::Next);
                looping(Looping::Begin, init)
            }
            Op::IterDrop => {
                let leave = plain(0x40, Fields::none(), 0, 0, Flow::Next);
                looping(Looping::Leave, leave)
            }
            Op::IterNext(target) => {
                let fields = Fields::one(Field::Target(target));
                let advance = plain(0x41, fields, 0, 1, Flow::Branch(target));
                looping(Looping::Advance, advance)
            }
            Op::IterNextIndexed(target, slot) => {
                let fields = Fields::two(Field::Target(target), Field::Slot(slot));
                let advance = plain(0x42, fields, 0, 1, Flow::Branch(target));
                looping(Looping::Advance, advance)
            }
            Op::Throw => plain(0x49, Fields::none(), 1, 0, Flow::End),
            Op::Return => plain(0x4a, Fields::none(), 0, 0, Flow::End),
        }
    }
}
