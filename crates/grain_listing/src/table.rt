//! The words that begin a line, and what may stand where.

ghost use Rattle.std.specs.Prelude.{◌≡◌, option_map, Some};
ghost use Rattle.grain_program.specs.declared.code.instruction_set.Op.{Op};
ghost use Rattle.grain_listing.specs.Instructions.{word_of, encoding_of, op_named};
ghost use Rattle.grain_listing.specs.Table.{own_line, pool_line, line_of, is_pools, is_block, is_after, stands, takes_steps, takes_cases, opened_by};

use crate::later::is_later;
use grain_program::Op;
use grain_words::is_word;

/// Where the next line of a listing stands.
#[derive(Clone, Copy, Debug, PartialEq, Eq)]
pub enum Section {
    /// Before the header.
    Start,
    /// After the header, before the first block.
    Pools,
    /// In a block.
    Block,
    /// After a block.
    After,
}

/// What may follow, besides other lines.
#[derive(Clone, Copy, Debug, PartialEq, Eq)]
pub enum Follows {
    /// Nothing.
    Nothing,
    /// Steps of a chain.
    Steps,
    /// Cases and ranges of a switch.
    Cases,
}

/// An operand of an instruction.
#[derive(Clone, Copy, Debug, PartialEq, Eq)]
pub enum OperandKind {
    /// A number of one byte.
    Byte,
    /// A number of two bytes.
    Index,
    /// An address of four bytes, or a label.
    Target,
}

/// What a line does.
#[derive(Clone, Copy)]
pub enum Line {
    Header,
    Capabilities,
    Source,
    Limit,
    Constant,
    Name,
    Operator,
    Assign,
    Chain,
    Step,
    Switch,
    Case,
    /// A range, with its last integer or without it.
    Range(bool),
    Entry,
    Flag,
    Fail,
    Stop,
    Main,
    Function,
    Byte,
    End,
    /// An instruction, whatever the numbers of its operands are.
    Instruction(Op),
    /// It is not read yet.
    Later,
}

/// The instruction with the word, whatever the numbers of its operands are.
#[tactic(auto, using(crate::proofs::Spelled::found_here, crate::proofs::Spelled::other_here, crate::proofs::Spelled::none_here))]
fn op_named(word: &[char]) -> Option<Op>
    ensures { result ≡ op_named word.now }
{
    'tags: for tag in 0..=u8::MAX {
        if let Some(op) = Op::of_tag(tag) {
            if is_word(word, op.word()) {
                return Some(op);
            }
        }
    }
    None
}

/// A line that is no instruction's.
#[tactic(auto, unfolding(crate::specs::Table::own_line))]
fn own_line(word: &[char]) -> Option<Line>
    ensures { result ≡ own_line word.now }
{
    if is_word(word, "grain") {
        Some(Line::Header)
    } else if is_word(word, "caps") {
        Some(Line::Capabilities)
    } else if is_word(word, "source") {
        Some(Line::Source)
    } else if is_word(word, "limit") {
        Some(Line::Limit)
    } else if is_word(word, "const") {
        Some(Line::Constant)
    } else if is_word(word, "name") {
        Some(Line::Name)
    } else if is_word(word, "op") {
        Some(Line::Operator)
    } else if is_word(word, "assign") {
        Some(Line::Assign)
    } else if is_word(word, "step") {
        Some(Line::Step)
    } else if is_word(word, "case") {
        Some(Line::Case)
    } else if is_word(word, "range") {
        Some(Line::Range(false))
    } else if is_word(word, "range=") {
        Some(Line::Range(true))
    } else if is_word(word, "scope") {
        Some(Line::Entry)
    } else if is_word(word, "flag") {
        Some(Line::Flag)
    } else if is_word(word, "fail") {
        Some(Line::Fail)
    } else if is_word(word, "stop") {
        Some(Line::Stop)
    } else if is_word(word, "main") {
        Some(Line::Main)
    } else if is_word(word, "fn") {
        Some(Line::Function)
    } else if is_word(word, "byte") {
        Some(Line::Byte)
    } else if is_word(word, "end") {
        Some(Line::End)
    } else {
        None
    }
}

/// A chain or a switch of its pool; in a block the word is an instruction's.
#[tactic(auto, unfolding(crate::specs::Table::pool_line))]
fn pool_line(in_block: bool, word: &[char]) -> Option<Line>
    ensures { result ≡ pool_line in_block word.now }
{
    if in_block {
        None
    } else if is_word(word, "chain") {
        Some(Line::Chain)
    } else if is_word(word, "switch") {
        Some(Line::Switch)
    } else {
        None
    }
}

/// The line that begins with the word, in a block or outside of one.
#[tactic(auto, unfolding(crate::specs::Table::line_of))]
pub fn line_of(in_block: bool, word: &[char]) -> Option<Line>
    ensures { result ≡ line_of in_block word.now }
{
    if let Some(line) = own_line(word) {
        return Some(line);
    }
    if let Some(line) = pool_line(in_block, word) {
        return Some(line);
    }
    if let Some(op) = op_named(word) {
        return Some(Line::Instruction(op));
    }
    if is_later(word) {
        Some(Line::Later)
    } else {
        None
    }
}

fn is_pools(section: Section) -> bool
    ensures { result ≡ is_pools section }
{
    match section {
        Section::Pools => true,
        Section::Start | Section::Block | Section::After => false,
    }
}

/// Whether a block is open.
pub fn is_block(section: Section) -> bool
    ensures { result ≡ is_block section }
{
    match section {
        Section::Block => true,
        Section::Start | Section::Pools | Section::After => false,
    }
}

fn is_after(section: Section) -> bool
    ensures { result ≡ is_after section }
{
    match section {
        Section::After => true,
        Section::Start | Section::Pools | Section::Block => false,
    }
}

/// Whether the line may stand in the section.
pub fn stands(line: Line, section: Section) -> bool
    ensures { result ≡ stands line section }
{
    match line {
        Line::Header => false,
        Line::Capabilities
        | Line::Source
        | Line::Limit
        | Line::Constant
        | Line::Name
        | Line::Operator
        | Line::Assign
        | Line::Chain
        | Line::Step
        | Line::Switch
        | Line::Case
        | Line::Range(_)
        | Line::Entry
        | Line::Flag
        | Line::Fail
        | Line::Stop
        | Line::Main => is_pools(section),
        Line::Function => is_after(section),
        Line::Byte | Line::End | Line::Instruction(_) => is_block(section),
        Line::Later => true,
    }
}

/// Whether steps may follow.
pub fn takes_steps(follows: Follows) -> bool
    ensures { result ≡ takes_steps follows }
{
    match follows {
        Follows::Steps => true,
        Follows::Nothing | Follows::Cases => false,
    }
}

/// Whether cases and ranges may follow.
pub fn takes_cases(follows: Follows) -> bool
    ensures { result ≡ takes_cases follows }
{
    match follows {
        Follows::Cases => true,
        Follows::Nothing | Follows::Steps => false,
    }
}

/// What may follow the line.
pub fn opened_by(line: Option<Line>) -> Follows
    ensures { result ≡ opened_by line }
{
    match line {
        Some(Line::Chain) | Some(Line::Step) => Follows::Steps,
        Some(Line::Switch) | Some(Line::Case) | Some(Line::Range(_)) => Follows::Cases,
        _ => Follows::Nothing,
    }
}

/// Each instruction is found by its word, with the tag and the operands that the code has of it.
pub fn instructions_are_in_the_table()
    ensures { (o : Op) → option_map encoding_of (op_named (word_of o)) ≡ Some (encoding_of o) }
{}
