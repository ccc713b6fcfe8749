//! A host that ends runs: it has a budget of operations, from which its native takes as well.

ghost use Rattle.std.specs.Prelude.{◌≡◌, ◌==◌, Some, IfOk, is_ok, if◌then◌else◌};
ghost use Rattle.grain_value.specs.declared.values.Dynamic.TheVariants as dynamic;
ghost use Rattle.grain_host.specs.Answers.{reply_of, Hears};
ghost use Rattle.grain_host.specs.declared.host_answers.ProgressAnswer.TheVariants as progress;
ghost use Rattle.run_examples.specs.Budget.{budget_of, taken, left_text, reply, left_after, unknown, budget_law, budget_lawful};

use grain_fault::EvalAltResult;
use grain_host::{Args, Host, HostAnswer, HostFault, ProgressAnswer};
use grain_value::{Dynamic, Kinds, Native, OutOfMemory, Text};
use std::alloc::Global;

/// The key of `work`.
const WORK: u64 = 1;

/// How many operations a call of `work` counts for.
const COST: u64 = 10;

/// How many operations scripts may still take, in all runs over this host together. An operation
/// that is one too many ends its run. Scripts call `work()`, which counts for ten operations and
/// gives the text of how many are then left.
#[derive(Drop)]
pub struct Budget {
    left: u64,
}

impl Budget {
    /// Allows this many operations.
    pub fn new(operations: u64) -> Budget
        ensures { result ≡ budget_of operations }
    {
        Budget { left: operations }
    }

    /// How many operations are left.
    pub fn left(&self) -> u64
        ensures { result ≡ self.now.left }
    {
        self.left
    }

    // The native `work`. It takes all memory that it needs before it changes the budget.
    fn work(&mut self, alloc: Global) -> Result<Text, OutOfMemory>
        ensures text { IfOk result (λ text. text ≡ left_text (taken 10 self.old)) }
        ensures state { self.new ≡ (if is_ok result then taken 10 self.old else self.old) }
    {
        let left = self.left.saturating_sub(COST);
        let mut text = Text::new(alloc);
        text.push_number(left)?;
        text.push_str(" left")?;
        self.left = left;
        Ok(text)
    }

    // Does what the native of this key does. After want of memory nothing changed.
    fn perform(&mut self, alloc: Global, key: u64) -> Result<HostAnswer, OutOfMemory>
        ensures answer { IfOk result (λ answer. reply_of answer ≡ Some (reply self.old key)) }
        ensures state { self.new ≡ (if is_ok result then left_after self.old key else self.old) }
    {
        if key == WORK {
            let text = self.work(alloc)?;
            Ok(HostAnswer::Done(Dynamic::Text(text)))
        } else {
            unknown(alloc)
        }
    }
}

// The answer to a call of a key that no native has.
fn unknown(alloc: Global) -> Result<HostAnswer, OutOfMemory>
    ensures { IfOk result (λ answer. reply_of answer ≡ Some unknown) }
{
    let text = Text::copy_of(alloc, "unknown to the budget")?;
    match HostFault::new(EvalAltResult::ErrorSystem(Text::new(alloc), text)) {
        Ok(fault) => Ok(HostAnswer::Failed(fault)),
        Err(_) => unreachable!(),
    }
}

impl Host for Budget {
    ghost law = { budget_law };

    ghost lawful = { budget_lawful };

    fn resolve(&self, name: &str, kinds: &Kinds) -> Option<Native> {
        match (name, kinds.as_slice()) {
            ("work", []) => Some(Native {
                key: WORK,
                writes: false,
            }),
            _ => None,
        }
    }

    fn call(&mut self, alloc: Global, key: u64, _args: &mut Args) -> HostAnswer {
        self.perform(alloc, key).unwrap_or(HostAnswer::Memory)
    }

    fn resume(
        &mut self,
        _alloc: Global,
        _token: u64,
        outcome: Result<Dynamic, HostFault>,
        _args: &mut Args,
    ) -> HostAnswer {
        match outcome {
            Ok(value) => HostAnswer::Done(value),
            Err(fault) => HostAnswer::Failed(fault),
        }
    }

    fn forget(&mut self, _token: u64) {}

    /// One operation more. It ends the run exactly if none is left, and else takes one.
    fn progress(&mut self, _alloc: Global, count: u64) -> ProgressAnswer
        ensures hears { Hears budget_law self.old count result self.new }
        ensures ends { result
            ≡ (if self.old.left == 0 then progress.Stop dynamic.Unit else progress.GoOn) }
        ensures left { self.new ≡ taken 1 self.old }
    {
        if self.left == 0 {
            return ProgressAnswer::Stop(Dynamic::Unit);
        }
        self.left -= 1;
        ProgressAnswer::GoOn
    }

    fn vouch(&self) {}
}
