//! What a line of a listing gives, by its words and by whether it stands in a block.

ghost use Rattle.std.specs.Prelude.{◌≡◌, ◌≤◌};
ghost use Rattle.grain_program.specs.Fields.{present, size_of, bytes_of};
ghost use Rattle.grain_program.specs.InstructionSet.{fields_of};
ghost use Rattle.grain_literals.specs.Operands.{position_after};
ghost use Rattle.grain_addresses.specs.Kinds.{fields_width, after_fields, position_or_none, instruction_kind, step_kind, chain_kind, kind_of, line_kind, IsNarrow};

use grain_fault::Position;
use grain_listing::{Line, line_of};
use grain_literals::position_after;
use grain_program::{Field, Op};
use grain_words::{after_word, is_word, next_word};

/// What a line gives: code, of n bytes with a position if it has one; the beginning of the main
/// block or of a function; the end of a block; a chain, whose root has n slots; a step, of n slots;
/// or something that changes no address and no slot.
#[derive(Clone, Copy, Debug, PartialEq, Eq)]
pub enum LineKind {
    Code(usize, Option<Position>),
    Main,
    Function,
    End,
    Chain(usize),
    Step(usize),
    Other,
}

/// How many bytes the operand has.
fn width_of(field: Field) -> usize
    ensures { result ≡ bytes_of (size_of field) }
{
    match field {
        Field::Count(_) => 1,
        Field::Constant(_)
        | Field::Name(_)
        | Field::Assignment(_)
        | Field::Chain(_)
        | Field::Switch(_)
        | Field::Token(_)
        | Field::Slot(_)
        | Field::Number(_) => 2,
        Field::Target(_) => 4,
    }
}

/// How many bytes the operands have, and what follows their words.
fn after_operands<'a>(places: &[Option<Field>], line: &'a [char]) -> (usize, &'a [char])
    requires { fields_width (present places.now) ≤ 12 }
    ensures width { result.0 ≡ fields_width (present places.now) }
    ensures rest { result.1.now ≡ after_fields (present places.now) line.now }
{
    let mut width = 0usize;
    let mut rest = line;
    for place in places {
        if let Some(field) = place {
            width += width_of(*field);
            rest = after_word(rest);
        }
    }
    (width, rest)
}

/// The position that stands here, if there is one.
fn position_here(line: &[char]) -> Option<Position>
    ensures { result ≡ position_or_none (position_after line.now) }
{
    match position_after(line) {
        Ok(position) => position,
        Err(_) => None,
    }
}

/// What an instruction's line gives, by what stands after its word.
fn instruction_kind(op: Op, line: &[char]) -> LineKind
    ensures { result ≡ instruction_kind (fields_of op) line.now }
{
    let row = op.descriptor();
    let (width, rest) = after_operands(row.fields.as_slice(), line);
    LineKind::Code(1 + width, position_here(rest))
}

/// What a step's line gives, by what stands after `step`: a step has a slot for each of its
/// positions.
fn step_kind(line: &[char]) -> LineKind
    ensures { result ≡ step_kind line.now }
{
    match next_word(line) {
        None => LineKind::Step(1),
        Some((word, _)) => {
            if is_word(word, "index") {
                LineKind::Step(2)
            } else {
                LineKind::Step(1)
            }
        }
    }
}

/// What a chain's line gives, by what stands after the number of its operands: a root `this` has a
/// slot, and no other has one.
fn chain_kind(line: &[char]) -> LineKind
    ensures { result ≡ chain_kind line.now }
{
    match next_word(line) {
        None => LineKind::Chain(0),
        Some((word, _)) => {
            if is_word(word, "this") {
                LineKind::Chain(1)
            } else {
                LineKind::Chain(0)
            }
        }
    }
}

/// What a line gives that begins with a word of the table, by what stands after the word.
fn kind_of(line: Line, rest: &[char]) -> LineKind
    ensures { result ≡ kind_of line rest.now }
{
    match line {
        Line::Main => LineKind::Main,
        Line::Function => LineKind::Function,
        Line::Byte => LineKind::Code(1, position_here(after_word(rest))),
        Line::End => LineKind::End,
        Line::Instruction(op) => instruction_kind(op, rest),
        Line::Chain => chain_kind(after_word(rest)),
        Line::Step => step_kind(rest),
        Line::Header
        | Line::Capabilities
        | Line::Source
        | Line::Limit
        | Line::Constant
        | Line::Name
        | Line::Operator
        | Line::Assign
        | Line::Switch
        | Line::Case
        | Line::Range(_)
        | Line::Entry
        | Line::Flag
        | Line::Fail
        | Line::Stop
        | Line::Later => LineKind::Other,
    }
}

/// What a line gives, if the reader takes it, in a block or outside of one.
pub fn line_kind(in_block: bool, line: &[char]) -> LineKind
    ensures kind { result ≡ line_kind in_block line.now }
    ensures narrow { IsNarrow result }
{
    match next_word(line) {
        None => LineKind::Other,
        Some((word, rest)) => match line_of(in_block, word) {
            None => LineKind::Other,
            Some(line) => kind_of(line, rest),
        },
    }
}
