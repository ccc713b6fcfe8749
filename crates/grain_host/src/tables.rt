//! A host that lives in memory.

ghost use Rattle.std.specs.Prelude.{◌≡◌, ◌==◌, IfOk, IfErr, IfSome, Some, is_ok, is_some, false, true, if◌then◌else◌};
ghost use Rattle.grain_value.specs.Cells.{cell_bound, is_clean};
ghost use Rattle.grain_value.specs.View.{tree};
ghost use Rattle.grain_host.specs.Answers.{Answers, outcome_of, reply_of};
ghost use Rattle.grain_host.specs.Mapping.{HasRoom};
ghost use Rattle.grain_host.specs.Pending.{place_of, waiting_bound};
ghost use Rattle.grain_host.specs.Refusals.{failure};
ghost use Rattle.grain_host.specs.Tables.{table_law, blank, failing_at, map_after, map_reply, resume_after, resume_reply, stopping_at, turn, IfReady};
ghost use Rattle.grain_host.specs.Lawful.{table_lawful};

use crate::callbacks::{self, Tokens, asks_first, mapped};
use crate::host_answers::{Args, HostAnswer, ProgressAnswer};
use crate::host_faults::HostFault;
use crate::hosts::Host;
use crate::pending_calls::PendingCall;
use crate::registers::Registers;
use crate::stop_lines::StopLines;
use crate::table_natives::{self, key_of, perform};
use grain_value::{Dynamic, Kinds, List, Native, OutOfMemory, Text};
use std::alloc::Global;
use std::boxed::Box;

// What comes of a step: no further one can be counted, or no further token given; or the step of this
// number is to fail; or it is done.
enum Turn {
    Full,
    Failing(u64),
    Ready(u64),
}

/// A host that lives in memory. It has the natives `print`, `push`, `len` and `exit`, and
/// `map(array, f)`, which calls the pointer with each element in order and gives the array of what
/// came of them; a fault is passed on. It has 256 registers, which hold integers and begin at 0.
/// `register(n)` gives the register of that number as a value of kind 16, which `get$value` reads and
/// `set$value` writes. `bank(n)` gives a value of kind 17 with any number that is not negative;
/// `index$get$` reads, and `index$set$` writes, the register of an index, whatever the bank's number
/// is. `write_bank(n)` gives a value of kind 18, for which there is `index$set$` alone. Where there is
/// no register, or no such value, the call fails with `ErrorIndexNotFound`. Calls are counted, and so
/// is each time that it is resumed; of these steps those of given numbers fail, and do nothing else.
/// Tokens are numbered from 0, and none is given twice. Runs end at given numbers of operations, with
/// values that are clean and name no cell.
#[derive(Drop)]
pub struct TableHost {
    printed: Text,
    steps: u64,
    failing: List<u64>,
    stops: StopLines,
    registers: Registers,
    tokens: Tokens,
}

impl TableHost {
    /// A host with empty tables and registers of 0, that has printed nothing. It takes no memory.
    pub fn new(alloc: Global) -> TableHost
        ensures { result ≡ blank }
    {
        TableHost {
            printed: Text::new(alloc),
            steps: 0,
            failing: List::new(alloc),
            stops: StopLines::new(alloc),
            registers: Registers::new(),
            tokens: Tokens::new(alloc),
        }
    }

    /// The text that was printed.
    pub fn printed(&self) -> &Text
        ensures { result.now ≡ self.now.printed }
    {
        &self.printed
    }

    /// The step of this number, counted from 1, is to fail. After want of memory the host is as it
    /// was.
    pub fn fail(&mut self, n: u64) -> Result<(), OutOfMemory>
        ensures { self.new ≡ (if is_ok result then failing_at n self.old else self.old) }
    {
        self.failing.push(n)
    }

    /// A run that has taken this number of operations is to end, with this value as its token. The
    /// value is clean and names no cell. Of several lines for a number the first holds. After want
    /// of memory the host is as it was.
    pub fn stop(&mut self, n: u64, value: Dynamic) -> Result<(), OutOfMemory>
        requires clean { is_clean (tree value) ≡ true }
        requires cell_free { cell_bound (tree value) ≡ 0 }
        ensures { self.new ≡ (if is_ok result then stopping_at n value self.old else self.old) }
    {
        self.stops.push(n, value)
    }

    // What comes of the next step, which asks for a call or does not.
    fn turn(&self, asks: bool) -> Turn
        ensures turn { result ≡ turn asks self.now }
        ensures room { IfReady result (HasRoom asks self.now.tokens) }
    {
        if self.steps == u64::MAX || (asks && self.tokens.given == u64::MAX) {
            return Turn::Full;
        }
        let number = self.steps + 1;
        if self.failing.as_slice().contains(&number) {
            Turn::Failing(number)
        } else {
            Turn::Ready(number)
        }
    }

    // The step of this number fails. After want of memory nothing changed.
    #[cold]
    #[inline(never)]
    fn fail_step(&mut self, alloc: Global, number: u64) -> HostAnswer
        ensures reply { IfSome (reply_of result) (λ reply. reply ≡ failure number) }
        ensures state { self.new
            ≡ (if is_some (reply_of result) then record self.old { steps = number } else self.old) }
    {
        let answer = table_natives::failure(alloc, number);
        self.count(&answer, number);
        answer
    }

    // The step of this number is done, unless there was no memory for its answer.
    fn count(&mut self, answer: &HostAnswer, number: u64)
        ensures { self.new ≡ (if is_some (reply_of answer.now)
            then record self.old { steps = number } else self.old) }
    {
        if !answer.is_memory() {
            self.steps = number;
        }
    }

    // One call of a native that is not `map`. After want of memory nothing changed.
    #[inline(always)]
    fn step(&mut self, alloc: Global, key: u64, args: &mut Args) -> HostAnswer
        requires { (key == 4) ≡ false }
        ensures { Answers table_law self.old key args.old result self.new args.new }
    {
        match self.turn(false) {
            Turn::Full => table_natives::refused(alloc, "table host is full"),
            Turn::Failing(number) => self.fail_step(alloc, number),
            Turn::Ready(number) => {
                let answer = perform(alloc, key, args, &mut self.printed, &mut self.registers);
                self.count(&answer, number);
                answer
            }
        }
    }

    // A call of `map` with these arguments. After want of memory nothing changed.
    #[cold]
    #[inline(never)]
    fn call_map(&mut self, alloc: Global, args: &Args) -> HostAnswer
        ensures { Answers table_law self.old 4 args.now result self.new args.now }
    {
        match mapped(alloc, self.tokens.given, args) {
            Ok(call) => self.map(alloc, call),
            Err(OutOfMemory) => HostAnswer::Memory,
        }
    }

    // A call of `map`. After want of memory nothing changed.
    fn map(&mut self, alloc: Global, call: Option<PendingCall>) -> HostAnswer
        ensures reply { IfSome (reply_of result) (λ reply. reply ≡ map_reply self.old call) }
        ensures state { self.new
            ≡ (if is_some (reply_of result) then map_after self.old call else self.old) }
    {
        match self.turn(asks_first(&call)) {
            Turn::Full => table_natives::refused(alloc, "table host is full"),
            Turn::Failing(number) => self.fail_step(alloc, number),
            Turn::Ready(number) => {
                let answer = self.tokens.begin(alloc, call);
                self.count(&answer, number);
                answer
            }
        }
    }

    // The call with this token goes on with an outcome. After want of memory nothing changed.
    fn resume_step(
        &mut self,
        alloc: Global,
        token: u64,
        outcome: Result<Dynamic, HostFault>,
    ) -> HostAnswer
        ensures reply { IfSome (reply_of result) (λ reply. reply
            ≡ resume_reply self.old (place_of token self.old.tokens.pending) (outcome_of outcome)) }
        ensures state { self.new ≡ (if is_some (reply_of result)
            then resume_after self.old (place_of token self.old.tokens.pending) (outcome_of outcome)
            else self.old) }
    {
        let place = self.tokens.pending.place(token);
        match self.turn(self.tokens.asks_next(place, &outcome)) {
            Turn::Full => table_natives::refused(alloc, "table host is full"),
            Turn::Failing(number) => self.fail_step(alloc, number),
            Turn::Ready(number) => {
                let answer = self.tokens.go_on(alloc, place, outcome);
                self.count(&answer, number);
                answer
            }
        }
    }
}

impl Host for TableHost {
    ghost law = { table_law };

    ghost lawful = { table_lawful };

    fn resolve(&self, name: &str, kinds: &Kinds) -> Option<Native> {
        let key = key_of(name, kinds.as_slice())?;
        let writes = key == table_natives::PUSH;
        Some(Native { key, writes })
    }

    fn call(&mut self, alloc: Global, key: u64, args: &mut Args) -> HostAnswer {
        if key == callbacks::MAP {
            return self.call_map(alloc, args);
        }
        self.step(alloc, key, args)
    }

    fn resume(
        &mut self,
        alloc: Global,
        token: u64,
        outcome: Result<Dynamic, HostFault>,
        _args: &mut Args,
    ) -> HostAnswer {
        self.resume_step(alloc, token, outcome)
    }

    fn forget(&mut self, token: u64) {
        self.tokens.forget(token);
    }

    fn progress(&mut self, alloc: Global, count: u64) -> ProgressAnswer {
        match self.stops.token(count) {
            None => ProgressAnswer::GoOn,
            Some(value) => match boxed(alloc, value) {
                Ok(value) => ProgressAnswer::Stop(Box::into_inner(value)),
                Err(OutOfMemory) => ProgressAnswer::Memory,
            },
        }
    }

    /// It does nothing. Its clauses say what is so of every such host: what it hands over unasked is
    /// clean, and no cell can be handed over but those that are kept for calls that wait.
    fn vouch(&self)
        ensures clean { table_law.holds_clean self.now ≡ true }
        ensures reach { table_law.reach self.now ≡ waiting_bound self.now.tokens.pending }
    {
        self.stops.vouch();
    }
}

// A copy of the value, in a box: so that a host that ends no run there clears no room for one.
#[cold]
#[inline(never)]
fn boxed(alloc: Global, value: &Dynamic) -> Result<Box<Dynamic>, OutOfMemory>
    ensures { IfOk result (λ copy. copy.value ≡ value.now) }
{
    let copy = value.copy(alloc)?;
    Ok(Box::new(alloc, copy)?)
}
