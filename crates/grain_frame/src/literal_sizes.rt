//! The sizes of literals, which are checked while they are made.

ghost use Rattle.std.specs.Prelude.{◌≡◌, ◌∷◌, [], is_ok, is_some, true, if◌then◌else◌};
ghost use Rattle.grain_stack.specs.Entries.{first_of};
ghost use Rattle.grain_means.specs.Rules.{check_size};
ghost use Rattle.grain_frame.specs.Abstraction.{frame_in, Implements, Performs, Ready, setup_of, moment};
ghost use Rattle.grain_frame.specs.Literals.{around, opened};
ghost use Rattle.grain_program.specs.declared.code.instruction_set.Op.TheVariants as op;

use crate::activations::Activation;
use crate::contexts::Context;
use crate::runs::{Progress, Run};
use grain_fault::MalformedKind;
use grain_global::Steps;
use grain_host::Host;
use grain_stack::Total;
use grain_value::{OutOfMemory, calc_data_sizes};
use std::sync::ledger::Ledger;

impl<H: Host> Run<H> {
    // `check_array_size`: the last operand is the element of this number of an array. If sizes are limited,
    // its size is added to the literal's total, which is tested against the limits; if they are not,
    // the first element begins a literal, and nothing is counted.
    #[inline(always)]
    pub(crate) fn check_array_size<L: Ledger>(
        &mut self,
        context: Context<'_>,
        steps: &mut Steps<L>,
        frame: &mut Activation,
        index: u16,
        next: usize,
    ) -> Result<Progress, OutOfMemory>
        requires ready { Ready frame.old self.old (op.CheckArraySize index) next }
        ensures performs { (host : H) →
            Performs (setup_of H.law context.entry) (moment frame.old self.old steps.old host)
            (op.CheckArraySize index) next result (moment frame.new self.new steps.new host) }
    {
        self.check_size(context, steps, frame, (1, 0, 0), index, next)
    }

    // `check_map_size`: the same of a value of a map.
    #[inline(always)]
    pub(crate) fn check_map_size<L: Ledger>(
        &mut self,
        context: Context<'_>,
        steps: &mut Steps<L>,
        frame: &mut Activation,
        index: u16,
        next: usize,
    ) -> Result<Progress, OutOfMemory>
        requires ready { Ready frame.old self.old (op.CheckMapSize index) next }
        ensures performs { (host : H) →
            Performs (setup_of H.law context.entry) (moment frame.old self.old steps.old host)
            (op.CheckMapSize index) next result (moment frame.new self.new steps.new host) }
    {
        self.check_size(context, steps, frame, (0, 1, 0), index, next)
    }

    // The last operand is the element of this number of a literal, and itself counts as `one`. If sizes are
    // limited, its size is added to the literal's total, which is tested against the limits.
    fn check_size<L: Ledger>(
        &mut self,
        context: Context<'_>,
        steps: &mut Steps<L>,
        frame: &mut Activation,
        one: (usize, usize, usize),
        index: u16,
        next: usize,
    ) -> Result<Progress, OutOfMemory>
        requires ready { Ready frame.old self.old (op.CheckArraySize index) next }
        ensures implements { (host : H) →
            Implements (setup_of H.law context.entry) (moment frame.old self.old steps.old host)
            (λ m place w. check_size m one index next (frame_in frame.old self.old place) w)
            (next ∷ []) 1 1 self.old.stacks.handlers result
            (moment frame.new self.new steps.new host) }
    {
        let limits = &context.engine.limits;
        if !limits.limit_sizes() {
            self.open_literal(index)?;
            return Ok(self.go_on(steps, frame, next));
        }
        let Some(total) = self.total_for(index) else {
            let kind = MalformedKind::MissingTotal { index };
            return Ok(self.malformed(context, steps, frame.address, kind));
        };
        let value = &self.stacks.top().value;
        if value.flat(&self.cells).is_none() {
            return self.data_race(context, steps, frame.address, "");
        }
        let total = total.grown(one, calc_data_sizes(value, &self.cells));
        if let Some(what) = limits.too_large(total.sizes()) {
            return self.data_too_large(context, steps, frame.address, what);
        }
        self.keep_total(index, total)?;
        Ok(self.go_on(steps, frame, next))
    }

    // The element of this number begins a literal if it is the first.
    fn open_literal(&mut self, index: u16) -> Result<(), OutOfMemory>
        ensures { self.new ≡ (if is_ok result
            then record self.old {
              stacks = record self.old.stacks { totals = opened index self.old.stacks.totals };
            }
            else self.old) }
    {
        if index == 0 {
            self.stacks.push_total(Total::empty())?;
        }
        Ok(())
    }

    // What the literal has so far whose element has this number, if there is such a literal.
    fn total_for(&self, index: u16) -> Option<Total>
        ensures { result ≡ first_of (opened index self.now.stacks.totals) }
    {
        if index == 0 {
            return Some(Total::empty());
        }
        match self.stacks.innermost_total() {
            Some(total) => Some(*total),
            None => None,
        }
    }

    // The literal whose element has this number has so much from then on.
    fn keep_total(&mut self, index: u16, total: Total) -> Result<(), OutOfMemory>
        requires there { is_some (first_of (opened index self.old.stacks.totals)) ≡ true }
        ensures { self.new ≡ (if is_ok result
            then record self.old {
              stacks = record self.old.stacks {
                totals = total ∷ around (opened index self.old.stacks.totals);
              };
            }
            else self.old) }
    {
        if index == 0 {
            return self.stacks.push_total(total);
        }
        self.stacks.set_total(total);
        Ok(())
    }
}
