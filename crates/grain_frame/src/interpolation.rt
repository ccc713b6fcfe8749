//! Texts that are made of segments.

ghost use Rattle.std.specs.Prelude.{◌≡◌, ◌<◌, ◌+◌, ◌∷◌, [], length, None, Some, IfOk, is_some, true};
ghost use Rattle.grain_value.specs.Cells.{flat};
ghost use Rattle.grain_value.specs.Looking.{text_of};
ghost use Rattle.grain_value.specs.Operands.{top};
ghost use Rattle.grain_value.specs.Sizes.{is_over};
ghost use Rattle.grain_value.specs.Writing.{plain, type_name_of};
ghost use Rattle.grain_value.specs.declared.values.Dynamic.{Dynamic};
ghost use Rattle.grain_fault.specs.Problems.{Plain, Malformed, problem_of};
ghost use Rattle.grain_fault.specs.declared.faults.MalformedKind.TheVariants as kind;
ghost use Rattle.grain_program.specs.View.{View, position_of};
ghost use Rattle.grain_global.specs.declared.engines.Engine.{Engine};
ghost use Rattle.grain_means.specs.Means.{setup};
ghost use Rattle.grain_means.specs.Rules.{answer_appended, appended, operand_under, segment_read, showing_failed, shown, type_appended};
ghost use Rattle.grain_frame.specs.Abstraction.{CanBegin, Implements, Performs, Raises, Ready, frame_in, setup_of, moment};
ghost use Rattle.grain_frame.specs.Showing.{SeeksShown};
ghost use Rattle.grain_frame.specs.Waiting.{ImplementsOrWaits, PerformsOrWaits};
ghost use Rattle.grain_program.specs.declared.code.instruction_set.Op.TheVariants as op;

use crate::activations::Activation;
use crate::contexts::Context;
use crate::native_calls::{Arguments, NativeEnd, Sought, seek};
use crate::runs::{Progress, Run};
use crate::waiting::{Loan, Performed, Rest, Waiting};
use grain_fault::{EvalAltResult, MalformedKind, Position};
use grain_global::Steps;
use grain_host::Host;
use grain_value::{Array, Dynamic, OutOfMemory, Text};
use std::alloc::Global;
use std::sync::ledger::Ledger;

impl<H: Host> Run<H> {
    // `interpolate_start`: an empty text.
    pub(crate) fn interpolate_start<L: Ledger>(
        &mut self,
        steps: &mut Steps<L>,
        frame: &mut Activation,
        next: usize,
    ) -> Result<Progress, OutOfMemory>
        requires ready { Ready frame.old self.old op.InterpolateStart next }
        ensures performs { (program : View) (engine : Engine) (host : H) →
            Performs (setup H.law program engine) (moment frame.old self.old steps.old host)
            op.InterpolateStart next result (moment frame.new self.new steps.new host) }
    {
        let empty = Dynamic::Text(Text::new(self.alloc));
        Ok(self.push_on(steps, frame, empty, next))
    }

    /// `interpolate_append`: the last operand is appended to the text below it. The host may be asked
    /// for its text.
    pub fn interpolate_append<L: Ledger>(
        &mut self,
        context: Context<'_>,
        host: &mut H,
        steps: &mut Steps<L>,
        frame: &mut Activation,
        next: usize,
    ) -> Result<Performed, OutOfMemory>
        requires ready { Ready frame.old self.old op.InterpolateAppend next }
        ensures performs { PerformsOrWaits (setup_of H.law context.entry)
            (moment frame.old self.old steps.old host.old) op.InterpolateAppend next result
            (moment frame.new self.new steps.new host.new) }
    {
        match self.stacks.top().value.flat(&self.cells) {
            None => Performed::of(self.data_race(context, steps, frame.address, "")),
            Some(Dynamic::Text(segment)) => {
                let segment = segment.copy(self.alloc)?;
                Performed::of(self.append(context, steps, frame, &segment, next))
            }
            Some(_) => self.append_shown(context, host, steps, frame, next),
        }
    }

    // The last operand, which can be read and is no text, is appended as the host's native shows it, or
    // else by its plain text.
    #[cold]
    #[inline(never)]
    fn append_shown<L: Ledger>(
        &mut self,
        context: Context<'_>,
        host: &mut H,
        steps: &mut Steps<L>,
        frame: &mut Activation,
        next: usize,
    ) -> Result<Performed, OutOfMemory>
        requires begins { CanBegin frame.old self.old 2 1 next }
        requires readable { is_some (flat self.old.cells (top self.old.stacks.operands).value)
            ≡ true }
        ensures implements { (v : Dynamic) →
            flat self.old.cells (top self.old.stacks.operands).value ≡ Some v → text_of v ≡ None →
            ImplementsOrWaits (setup_of H.law context.entry)
            (moment frame.old self.old steps.old host.old)
            (λ m place w. segment_read m None v
            (record (top self.old.stacks.operands) { value = v }) next
            (frame_in frame.old self.old place) w) (next ∷ []) 2 1 self.old.stacks.handlers result
            (moment frame.new self.new steps.new host.new) }
    {
        let position = context.program.position(frame.address);
        let found = self.seek_shown(host, position)?;
        let Some(sought) = found else {
            let text = self.plain_top()?;
            return Performed::of(self.append(context, steps, frame, &text, next));
        };
        let type_name = self.type_of_top()?;
        match self.call_native(host, steps, sought, position)? {
            NativeEnd::Value(value) => {
                Performed::of(self.append_answer(context, steps, frame, value, type_name, next))
            }
            NativeEnd::Fault(fault) => {
                Performed::of(self.showing_failed(context, steps, frame, type_name, fault, next))
            }
            NativeEnd::Asks(asked) => Ok(self.wait(Waiting {
                asked,
                lent: Loan::Nothing,
                rest: Rest::Show { type_name, next },
            })),
        }
    }

    // What the host has to show the last operand, as it is read, if it has anything.
    fn seek_shown(&self, host: &H, position: Position) -> Result<Option<Sought>, OutOfMemory>
        requires there { 0 < length self.now.stacks.operands }
        requires readable { is_some (flat self.now.cells (top self.now.stacks.operands).value)
            ≡ true }
        ensures { (v : Dynamic) → flat self.now.cells (top self.now.stacks.operands).value ≡ Some v →
            IfOk result (λ found. SeeksShown H.law host.now v
            (record (top self.now.stacks.operands) { value = v }) position found) }
    {
        let operands = self.stacks.frame_operands();
        let given = &operands[operands.len() - 1..];
        let no_room = Array::new(self.alloc);
        let arguments = Arguments::of(self.alloc, no_room, &self.cells, given)?;
        if host.resolve("to_string", &arguments.kinds).is_none() {
            return Ok(None);
        }
        let name = Text::copy_of(self.alloc, "to_string")?;
        let sought = seek(self.alloc, host, &name, arguments, position)?;
        Ok(Some(sought))
    }

    // The plain text of the last operand, as it is read.
    fn plain_top(&self) -> Result<Text, OutOfMemory>
        requires there { 0 < length self.now.stacks.operands }
        requires readable { is_some (flat self.now.cells (top self.now.stacks.operands).value)
            ≡ true }
        ensures { (v : Dynamic) → flat self.now.cells (top self.now.stacks.operands).value ≡ Some v →
            IfOk result (λ text. text ≡ plain v) }
    {
        let mut text = Text::new(self.alloc);
        match self.stacks.top().value.flat(&self.cells) {
            Some(value) => value.write_plain(&mut text)?,
            None => unreachable!(),
        }
        Ok(text)
    }

    // The name of the type of the last operand, as it is read.
    fn type_of_top(&self) -> Result<Text, OutOfMemory>
        requires there { 0 < length self.now.stacks.operands }
        requires readable { is_some (flat self.now.cells (top self.now.stacks.operands).value)
            ≡ true }
        ensures { (v : Dynamic) → flat self.now.cells (top self.now.stacks.operands).value ≡ Some v →
            IfOk result (λ name. name ≡ type_name_of v) }
    {
        match self.stacks.top().value.flat(&self.cells) {
            Some(value) => value.own_type_name(self.alloc),
            None => unreachable!(),
        }
    }

    // A text goes after the buffer, which is the operand under the segment.
    pub(crate) fn append<L: Ledger>(
        &mut self,
        context: Context<'_>,
        steps: &mut Steps<L>,
        frame: &mut Activation,
        text: &Text,
        next: usize,
    ) -> Result<Progress, OutOfMemory>
        requires begins { CanBegin frame.old self.old 2 1 next }
        ensures implements { (host : H) →
            Implements (setup_of H.law context.entry) (moment frame.old self.old steps.old host)
            (λ m place w. appended m text.now next (frame_in frame.old self.old place) w)
            (next ∷ []) 2 1 self.old.stacks.handlers result
            (moment frame.new self.new steps.new host) }
    {
        match self.stacks.peek(1).value.flat(&self.cells) {
            None => return self.data_race(context, steps, frame.address, ""),
            Some(Dynamic::Text(buffer)) => {
                if is_too_long(context.engine.limits.text, buffer.len(), text.len()) {
                    return self.data_too_large(context, steps, frame.address, "Length of string");
                }
            }
            Some(_) => return self.buffer_not_text(context, steps, frame.address, 1),
        }
        let _segment = self.stacks.pop();
        let Dynamic::Text(mut buffer) = self.take_flat()? else {
            unreachable!();
        };
        buffer.push_str(text.as_str())?;
        Ok(self.push_on(steps, frame, Dynamic::Text(buffer), next))
    }

    // A native has shown the segment: its text goes after the buffer, or the name of the type of any
    // other value. That the value is a lent cell is passed over.
    pub(crate) fn append_answer<L: Ledger>(
        &mut self,
        context: Context<'_>,
        steps: &mut Steps<L>,
        frame: &mut Activation,
        value: Dynamic,
        type_name: Text,
        next: usize,
    ) -> Result<Progress, OutOfMemory>
        requires begins { CanBegin frame.old self.old 2 1 next }
        ensures implements { (host : H) →
            Implements (setup_of H.law context.entry) (moment frame.old self.old steps.old host)
            (λ m place w. answer_appended m (flat w.cells value) type_name next
            (frame_in frame.old self.old place) w) (next ∷ []) 2 1 self.old.stacks.handlers result
            (moment frame.new self.new steps.new host) }
    {
        let Some(value) = self.read_of(value)? else {
            return self.append_type(context, steps, frame, &type_name, next);
        };
        let text = shown(self.alloc, value)?;
        self.append(context, steps, frame, &text, next)
    }

    // A native failed that was to show the segment: a fault that a script may catch is passed over.
    pub(crate) fn showing_failed<L: Ledger>(
        &mut self,
        context: Context<'_>,
        steps: &mut Steps<L>,
        frame: &mut Activation,
        type_name: Text,
        fault: EvalAltResult,
        next: usize,
    ) -> Result<Progress, OutOfMemory>
        requires begins { CanBegin frame.old self.old 2 1 next }
        ensures implements { (host : H) →
            Implements (setup_of H.law context.entry) (moment frame.old self.old steps.old host)
            (λ m place w. showing_failed m type_name next (frame_in frame.old self.old place)
            (problem_of fault) w) (next ∷ []) 2 1 self.old.stacks.handlers result
            (moment frame.new self.new steps.new host) }
    {
        if fault.is_catchable() {
            self.append_type(context, steps, frame, &type_name, next)
        } else {
            Ok(self.raise(steps, fault))
        }
    }

    // A fault is passed over, after a mark and without its trace, and the name of the segment's type goes
    // after the buffer.
    fn append_type<L: Ledger>(
        &mut self,
        context: Context<'_>,
        steps: &mut Steps<L>,
        frame: &mut Activation,
        type_name: &Text,
        next: usize,
    ) -> Result<Progress, OutOfMemory>
        requires begins { CanBegin frame.old self.old 2 1 next }
        ensures implements { (host : H) →
            Implements (setup_of H.law context.entry) (moment frame.old self.old steps.old host)
            (λ m place w. type_appended m type_name.now next (frame_in frame.old self.old place) w)
            (next ∷ []) 2 1 self.old.stacks.handlers result
            (moment frame.new self.new steps.new host) }
    {
        steps.mark();
        self.stacks.cut_trace(0);
        self.append(context, steps, frame, type_name, next)
    }

    // The fault that the buffer, which stands under `above` operands, is no text.
    #[cold]
    #[inline(never)]
    fn buffer_not_text<L: Ledger>(
        &mut self,
        context: Context<'_>,
        steps: &mut Steps<L>,
        address: usize,
        above: usize,
    ) -> Result<Progress, OutOfMemory>
        requires there { above < length self.old.stacks.operands }
        requires readable { is_some (flat self.old.cells
            (operand_under above self.old.stacks.operands).value) ≡ true }
        ensures { (v : Dynamic) → flat self.old.cells
            (operand_under above self.old.stacks.operands).value ≡ Some v →
            Raises self.old steps.old (Plain (Malformed (kind.BufferNotText (type_name_of v)))
            (position_of context.entry.program.now address)) result self.new steps.new }
    {
        let kind = match self.stacks.peek(above).value.flat(&self.cells) {
            Some(value) => value.own_type_name(self.alloc)?,
            None => unreachable!(),
        };
        let kind = MalformedKind::BufferNotText { kind };
        Ok(self.malformed(context, steps, address, kind))
    }

    // `interpolate_end`: the text that the last operand is.
    pub(crate) fn interpolate_end<L: Ledger>(
        &mut self,
        context: Context<'_>,
        steps: &mut Steps<L>,
        frame: &mut Activation,
        next: usize,
    ) -> Result<Progress, OutOfMemory>
        requires ready { Ready frame.old self.old op.InterpolateEnd next }
        ensures performs { (host : H) →
            Performs (setup_of H.law context.entry) (moment frame.old self.old steps.old host)
            op.InterpolateEnd next result (moment frame.new self.new steps.new host) }
    {
        match self.stacks.top().value.flat(&self.cells) {
            None => return self.data_race(context, steps, frame.address, ""),
            Some(Dynamic::Text(_)) => {}
            Some(_) => return self.buffer_not_text(context, steps, frame.address, 0),
        }
        let text = self.take_flat()?;
        Ok(self.push_on(steps, frame, text, next))
    }
}

// The text that a value is, or else the name of its type.
fn shown(alloc: Global, value: Dynamic) -> Result<Text, OutOfMemory>
    ensures { IfOk result (λ text. text ≡ shown value) }
{
    match value {
        Dynamic::Text(text) => Ok(text),
        other => other.own_type_name(alloc),
    }
}

// Whether a text becomes too long by what is appended to it. A limit of 0 is none.
fn is_too_long(limit: usize, text: usize, more: usize) -> bool
    ensures { result ≡ is_over limit (text + more) }
{
    limit > 0 && (more > limit || text > limit - more)
}
