//! What the lines of a switch say, of its cases and of its ranges.

ghost use Rattle.std.specs.Prelude.{◌≡◌, IfOk};
ghost use Rattle.grain_literals.specs.Operands.{alone};
ghost use Rattle.grain_literals.specs.Steps.{and_then};
ghost use Rattle.grain_listing.specs.SwitchWords.{aim_word, aim_of, case_value, case_of, range_of};

use grain_literals::{Reason, alone, integer_operand, value_operand, word_operand};
use grain_program::CaseValue;
use grain_value::{Dynamic, List, OutOfMemory, Text};
use grain_words::{begins_letter, number, word_text};
use std::alloc::Global;

/// Where values lead: to an address, or to that of a label, which this line names.
#[derive(Drop)]
pub enum Aim {
    Address(u32),
    Label { line: usize, label: Text },
}

impl Aim {
    /// The same aim.
    pub fn copy(&self, alloc: Global) -> Result<Aim, OutOfMemory>
        ensures { IfOk result (λ aim. aim ≡ self.now) }
    {
        match self {
            Aim::Address(address) => Ok(Aim::Address(*address)),
            Aim::Label { line, label } => {
                let label = Text::copy_of(alloc, label.as_str())?;
                Ok(Aim::Label { line: *line, label })
            }
        }
    }
}

/// A case of a switch, with its aim.
#[derive(Drop)]
pub struct AimedCase {
    pub value: CaseValue,
    pub aim: Aim,
}

/// A range of a switch, with its aim.
#[derive(Drop)]
pub struct AimedRange {
    pub from: i64,
    pub to: i64,
    pub inclusive: bool,
    pub aim: Aim,
}

/// A switch whose targets may still be labels.
#[derive(Drop)]
pub struct AimedSwitch {
    pub cases: List<AimedCase>,
    pub ranges: List<AimedRange>,
    pub default: Aim,
}

/// The aim that the word says, on the line of that number.
fn aim_word(
    alloc: Global,
    number_of_line: usize,
    word: &[char],
) -> Result<Result<Aim, Reason>, OutOfMemory>
    ensures { IfOk result (λ r. r ≡ aim_word number_of_line word.now) }
{
    if begins_letter(word) {
        let label = word_text(alloc, word)?;
        return Ok(Ok(Aim::Label {
            line: number_of_line,
            label,
        }));
    }
    match number(u32::MAX as u64, word) {
        None => Ok(Err(Reason::BadOperand)),
        Some(address) => Ok(Ok(Aim::Address(address as u32))),
    }
}

/// The aim, alone, on the line of that number.
pub fn aim_of(
    alloc: Global,
    number_of_line: usize,
    line: &[char],
) -> Result<Result<Aim, Reason>, OutOfMemory>
    ensures { IfOk result (λ r. r ≡ aim_of number_of_line line.now) }
{
    match word_operand(line) {
        Err(reason) => Ok(Err(reason)),
        Ok((word, rest)) => match aim_word(alloc, number_of_line, word)? {
            Err(reason) => Ok(Err(reason)),
            Ok(aim) => match alone(rest) {
                Err(reason) => Ok(Err(reason)),
                Ok(()) => Ok(Ok(aim)),
            },
        },
    }
}

/// The value as one that a case may have.
fn case_value(value: Dynamic) -> Result<CaseValue, Reason>
    ensures { result ≡ case_value value }
{
    match value {
        Dynamic::Unit => Ok(CaseValue::Unit),
        Dynamic::Bool(truth) => Ok(CaseValue::Bool(truth)),
        Dynamic::Int(integer) => Ok(CaseValue::Int(integer)),
        Dynamic::Char(character) => Ok(CaseValue::Char(character)),
        Dynamic::Text(text) => Ok(CaseValue::Text(text)),
        _ => Err(Reason::BadValue),
    }
}

/// The case that the words after `case` say, on the line of that number.
pub fn case_of(
    alloc: Global,
    number_of_line: usize,
    line: &[char],
) -> Result<Result<AimedCase, Reason>, OutOfMemory>
    ensures { IfOk result (λ r. r ≡ case_of number_of_line line.now) }
{
    match value_operand(alloc, line)? {
        Err(reason) => Ok(Err(reason)),
        Ok((value, rest)) => match case_value(value) {
            Err(reason) => Ok(Err(reason)),
            Ok(value) => match aim_of(alloc, number_of_line, rest)? {
                Err(reason) => Ok(Err(reason)),
                Ok(aim) => Ok(Ok(AimedCase { value, aim })),
            },
        },
    }
}

/// The range that the words after `range` or `range=` say, on the line of that number.
pub fn range_of(
    alloc: Global,
    inclusive: bool,
    number_of_line: usize,
    line: &[char],
) -> Result<Result<AimedRange, Reason>, OutOfMemory>
    ensures { IfOk result (λ r. r ≡ range_of inclusive number_of_line line.now) }
{
    match integer_operand(line) {
        Err(reason) => Ok(Err(reason)),
        Ok((from, rest)) => match integer_operand(rest) {
            Err(reason) => Ok(Err(reason)),
            Ok((to, rest)) => match aim_of(alloc, number_of_line, rest)? {
                Err(reason) => Ok(Err(reason)),
                Ok(aim) => Ok(Ok(AimedRange {
                    from,
                    to,
                    inclusive,
                    aim,
                })),
            },
        },
    }
}
