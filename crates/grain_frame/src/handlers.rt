//! Instructions on handlers.

ghost use Rattle.std.specs.Prelude.{◌<◌, ◌∷◌, [], length, Ok, cond, nat_lt};
ghost use Rattle.grain_program.specs.View.{View};
ghost use Rattle.grain_global.specs.declared.engines.Engine.{Engine};
ghost use Rattle.grain_means.specs.Rules.{instr, push_handler};
ghost use Rattle.grain_means.specs.Means.{setup};
ghost use Rattle.grain_frame.specs.Abstraction.{frame_in, Implements, Ready, moment};
ghost use Rattle.grain_frame.specs.Handling.{armed, around};
ghost use Rattle.grain_program.specs.declared.code.instruction_set.Op.TheVariants as op;

use crate::activations::Activation;
use crate::runs::{Progress, Run};
use grain_global::Steps;
use grain_host::Host;
use grain_stack::Handler;
use grain_value::OutOfMemory;
use std::sync::ledger::Ledger;

impl<H: Host> Run<H> {
    // `push_handler` and `push_handler_var`: a handler more, which leads to the target, with the
    // operands, cursors, totals and entries of the scope that there are.
    pub(crate) fn push_handler<L: Ledger>(
        &mut self,
        steps: &mut Steps<L>,
        frame: &mut Activation,
        target: u32,
        variable: Option<u32>,
        next: usize,
    ) -> Result<Progress, OutOfMemory>
        requires ready { Ready frame.old self.old (op.PushHandler target) next }
        ensures implements { (program : View) (engine : Engine) (host : H) →
            Implements (setup H.law program engine) (moment frame.old self.old steps.old host)
            (λ m place w. push_handler m target variable next (frame_in frame.old self.old place) w)
            (cond (nat_lt target next) (target ∷ next ∷ []) (next ∷ target ∷ [])) 0 0
            (armed target variable self.old ∷ self.old.stacks.handlers) result
            (moment frame.new self.new steps.new host) }
    {
        let handler = Handler {
            target,
            variable,
            operands: self.stacks.height(),
            cursors: self.stacks.cursors(),
            totals: self.stacks.totals(),
            scope: self.scope.len(),
            caught: None,
        };
        self.stacks.push_handler(handler)?;
        frame.address = next;
        steps.mark();
        Ok(Progress::Continues)
    }

    // `pop_handler`: the innermost handler goes.
    pub(crate) fn pop_handler<L: Ledger>(
        &mut self,
        steps: &mut Steps<L>,
        frame: &mut Activation,
        next: usize,
    ) -> Progress
        requires ready { Ready frame.old self.old op.PopHandler next }
        requires there { 0 < length self.old.stacks.handlers }
        ensures implements { (program : View) (engine : Engine) (host : H) →
            Implements (setup H.law program engine) (moment frame.old self.old steps.old host)
            (λ m place w. instr m op.PopHandler next (frame_in frame.old self.old place) w)
            (next ∷ []) 0 0 (around self.old.stacks.handlers) (Ok result)
            (moment frame.new self.new steps.new host) }
    {
        let _handler = self.stacks.pop_handler();
        frame.address = next;
        steps.mark();
        Progress::Continues
    }
}
