//! One more line of a listing: by its first word and by where it stands.

ghost use Rattle.std.specs.Prelude.{◌≡◌, IfOk, option_map};
ghost use Rattle.grain_words.specs.Words.{next_word};
ghost use Rattle.grain_listing.specs.LineMeanings.{before_colon, header_said};
ghost use Rattle.grain_listing.specs.views.AssemblerView.{assembler_view, result_view};
ghost use Rattle.grain_listing.specs.views.Assembling.{HasRoom, put_line, label_line, known_line, put_known, with_header, after_header, take_line, is_start};

use crate::assembler::Assembler;
use crate::table::{Follows, Line, Section, line_of, opened_by, stands};
use grain_literals::{Reason, after_name};
use grain_value::OutOfMemory;
use grain_words::{begins_letter, is_over, next_word, word_text};
use std::alloc::Global;

/// What stands before a colon at the word's end.
#[tactic(auto, using(crate::proofs::Colons::colon_last, crate::proofs::Colons::other_last, crate::proofs::Colons::none_last))]
fn before_colon(word: &[char]) -> Option<&[char]>
    ensures { option_map (λ t. t.now) result ≡ before_colon word.now }
{
    match word.split_last() {
        Some((c, front)) => { if *c == ':' { Some(front) } else { None } }
        None => None,
    }
}

fn is_start(section: Section) -> bool
    ensures { result ≡ is_start section }
{
    match section {
        Section::Start => true,
        Section::Pools | Section::Block | Section::After => false,
    }
}

impl Assembler {
    /// A line that begins with a word of the table. Nothing is known of the assembler where it is
    /// refused.
    fn put_line(
        &mut self,
        alloc: Global,
        line: Line,
        rest: &[char],
    ) -> Result<Result<(), Reason>, OutOfMemory>
        requires { HasRoom (assembler_view self.old) }
        ensures { IfOk result (λ r. result_view r (assembler_view self.new) ≡
            put_line line rest.now (assembler_view self.old)) }
    {
        match line {
            Line::Header => Ok(Err(Reason::OutOfPlace)),
            Line::Capabilities => Ok(self.put_capabilities(rest)),
            Line::Source => self.put_source(alloc, rest),
            Line::Limit => self.put_limit(rest),
            Line::Constant => self.put_constant(alloc, rest),
            Line::Name => self.put_name(alloc, rest),
            Line::Operator => self.put_operator(alloc, rest),
            Line::Assign => self.put_assign(rest),
            Line::Chain => self.put_chain(alloc, rest),
            Line::Step => self.put_step(rest),
            Line::Switch => self.put_switch(alloc, rest),
            Line::Case => self.put_case(alloc, rest),
            Line::Range(inclusive) => self.put_range(alloc, inclusive, rest),
            Line::Entry => self.put_entry(alloc, rest),
            Line::Flag => self.put_flag(rest),
            Line::Fail => self.put_fail(rest),
            Line::Stop => self.put_stop(alloc, rest),
            Line::Main => Ok(self.put_main(rest)),
            Line::Function => self.put_function(alloc, rest),
            Line::Byte => self.put_byte(rest),
            Line::End => self.put_end(rest),
            Line::Instruction(op) => self.put_instruction(alloc, op, rest),
            Line::Later => Ok(Err(Reason::NotBuilt)),
        }
    }

    fn label_line(
        &mut self,
        alloc: Global,
        word: &[char],
        rest: &[char],
    ) -> Result<Result<(), Reason>, OutOfMemory>
        requires { HasRoom (assembler_view self.old) }
        ensures { IfOk result (λ r. result_view r (assembler_view self.new) ≡
            label_line (before_colon word.now) rest.now (assembler_view self.old)) }
    {
        match before_colon(word) {
            None => Ok(Err(Reason::UnknownWord)),
            Some(label) => {
                if !begins_letter(label) {
                    return Ok(Err(Reason::UnknownWord));
                }
                let label = word_text(alloc, label)?;
                self.put_label(alloc, label.as_str(), rest)
            }
        }
    }

    fn header(&mut self, line: &[char]) -> Result<(), Reason>
        ensures { result_view result (assembler_view self.new) ≡
            with_header (header_said line.now) (assembler_view self.old) }
    {
        let Some(rest) = after_name("grain", line) else {
            return Err(Reason::MissingHeader);
        };
        let Some(rest) = after_name("1", rest) else {
            return Err(Reason::MissingHeader);
        };
        if is_over(rest) {
            self.section = Section::Pools;
            self.follows = Follows::Nothing;
            Ok(())
        } else {
            Err(Reason::MissingHeader)
        }
    }

    fn known_line(
        &mut self,
        alloc: Global,
        line: Option<Line>,
        word: &[char],
        rest: &[char],
    ) -> Result<Result<(), Reason>, OutOfMemory>
        requires { HasRoom (assembler_view self.old) }
        ensures { IfOk result (λ r. result_view r (assembler_view self.new) ≡
            known_line line word.now rest.now (assembler_view self.old)) }
    {
        match line {
            None => self.label_line(alloc, word, rest),
            Some(line) => {
                if stands(line, self.section) {
                    self.put_line(alloc, line, rest)
                } else {
                    Ok(Err(Reason::OutOfPlace))
                }
            }
        }
    }

    /// A line after the header; it says what may follow.
    fn put_known(
        &mut self,
        alloc: Global,
        line: Option<Line>,
        word: &[char],
        rest: &[char],
    ) -> Result<Result<(), Reason>, OutOfMemory>
        requires { HasRoom (assembler_view self.old) }
        ensures { IfOk result (λ r. result_view r (assembler_view self.new) ≡
            put_known line word.now rest.now (assembler_view self.old)) }
    {
        match self.known_line(alloc, line, word, rest)? {
            Err(reason) => Ok(Err(reason)),
            Ok(()) => {
                self.follows = opened_by(line);
                Ok(Ok(()))
            }
        }
    }

    fn after_header(
        &mut self,
        alloc: Global,
        line: &[char],
    ) -> Result<Result<(), Reason>, OutOfMemory>
        requires { HasRoom (assembler_view self.old) }
        ensures { IfOk result (λ r. result_view r (assembler_view self.new) ≡
            after_header (next_word line.now) (assembler_view self.old)) }
    {
        match next_word(line) {
            None => Ok(Err(Reason::UnknownWord)),
            Some((word, rest)) => {
                let line = line_of(self.block.is_some(), word);
                self.put_known(alloc, line, word, rest)
            }
        }
    }

    /// One more line, by its characters. Nothing is known of the assembler where it is refused.
    pub fn take_line(
        &mut self,
        alloc: Global,
        line: &[char],
    ) -> Result<Result<(), Reason>, OutOfMemory>
        requires { HasRoom (assembler_view self.old) }
        ensures { IfOk result (λ r. result_view r (assembler_view self.new) ≡
            take_line line.now (assembler_view self.old)) }
    {
        if is_over(line) {
            return Ok(Ok(()));
        }
        if is_start(self.section) {
            Ok(self.header(line))
        } else {
            self.after_header(alloc, line)
        }
    }
}
