//! Drives the walks of chains: asks the host for what a walk needs, until the walk is over or calls a
//! function of the program.

ghost use Rattle.std.specs.Prelude.{◌≡◌, ◌+◌, ◌&&◌, [], ℕ, List, length, Option, Bool};
ghost use Rattle.grain_value.specs.declared.values.Held.{Held};
ghost use Rattle.grain_value.specs.declared.scopes.Entry.{Entry};
ghost use Rattle.grain_fault.specs.Problems.{Plain, DataRace};
ghost use Rattle.grain_means.specs.Worlds.{Setup, Frame, Place};
ghost use Rattle.grain_means.specs.Simulation.{StopPersists};
ghost use Rattle.grain_means.specs.lemmas.Spreading.{Rooted};
ghost use Rattle.grain_means.specs.Rules.Homes.{Home};
ghost use Rattle.grain_means.specs.Rules.{race_text};
ghost use Rattle.grain_chain.specs.Walking.{CanCall, is_out, is_want, left_to_do, outcome_of, resumed, roots_at, roots_of, still, with_receiver, Did, Falls, Waits};
ghost use Rattle.grain_frame.specs.Abstraction.{setup_of};
ghost use Rattle.grain_means.specs.Rules.InWorld.{missed_by, trace_of};
ghost use Rattle.grain_fault.specs.declared.traces.Fault.{Fault as Entered};
ghost use Rattle.grain_vm.specs.Asks.{IsMissed, has_missed, has_no_indexer};
ghost use Rattle.grain_vm.specs.Driving.{beside, left_by, left_of, name_in, needing, is_named as named_in, Answers, DescribesAfter, IsNative, RaisesOne, AsksHost, DoesRequest, HearsHost, IsApartIn, SameFlag, IgnoresChange};
ghost use Rattle.grain_vm.specs.Methods.{ServesRequest};
ghost use Rattle.grain_vm.specs.Seats.{Rests, Seat, Seated, first_held, kept_by, walk_seated};
ghost use Rattle.grain_vm.specs.Underway.{DrivesTo, RootedTo, WaitsFor, driven_is_out};

use crate::arguments::{read_all, seek_lending};
use crate::methods::{MethodCall, Needed, Outcome, resolve_request};
use grain_chain::{Request, Walk, WalkAnswer, What};
use grain_fault::{EvalAltResult, Position};
use grain_frame::{Arguments, Asked, Context, Loan, NativeEnd, Run, Sought, served};
use grain_global::Steps;
use grain_host::{Args, Host};
use grain_value::{Array, Dynamic, Held, OutOfMemory, Text};
use std::alloc::Global;
use std::sync::ledger::Ledger;

/// A native that asks for a call first: what it asks for, what it was lent, and the position of its faults.
#[derive(Drop)]
pub struct AskingNative {
    pub asked: Asked,
    pub lent: Loan,
    pub pos: Position,
}

/// What came of the call of a native.
#[derive(Drop)]
pub enum Answered {
    /// It is over: its value or its fault, and the receiver as the call left it.
    Over(Outcome),
    /// It asks for a call first.
    Asks(AskingNative),
}

/// How a walk ended.
#[derive(Drop)]
pub enum WalkEnd {
    /// With this value.
    Value(Dynamic),
    /// With this fault, for which the step of this number is blamed. `Memory` says that memory ran out.
    Fault { fault: EvalAltResult, step: usize },
}

// The name of the native that is asked for.
pub(crate) fn name_asked(what: &What) -> &Text
    requires native { IsNative what.now }
    ensures { result.now ≡ name_in what.now }
{
    match what {
        What::Native(name) => name,
        What::Compiled(_) | What::Pointer(_) => unreachable!(),
    }
}

// Makes the fault that an argument is a lent cell.
#[cold]
#[inline(never)]
pub(crate) fn raise_race<L: Ledger>(
    alloc: Global,
    steps: &mut Steps<L>,
    position: Position,
) -> EvalAltResult
    ensures raised { RaisesOne (Plain (DataRace (race_text [])) position) result steps.old
        steps.new }
    ensures before { steps.new.before ≡ steps.old.before }
{
    match Text::copy_of(alloc, "variable ''") {
        Err(OutOfMemory) => EvalAltResult::Memory,
        Ok(text) => {
            steps.mark();
            EvalAltResult::ErrorDataRace(text, position)
        }
    }
}

// Calls the native that a walk needs. It gives the value or the fault of the call, and the receiver as
// the call left it.
pub(crate) fn perform_request<H: Host, L: Ledger>(
    run: &mut Run<H>,
    host: &mut H,
    steps: &mut Steps<L>,
    request: Request,
) -> Answered
    requires native { IsNative request.what }
    ensures same { (m : Setup H) (named : Bool) → m.law ≡ H.law →
        Answers m named (needing named (name_in request.what) request) request.receiver run.old
        steps.old host.old result run.new steps.new host.new }
    ensures does { (home : Home) → DoesRequest H.law request home run.old.cells steps.old host.old
        result steps.new host.new }
    ensures run { run.new ≡ run.old }
    ensures before { steps.new.before ≡ steps.old.before }
    ensures lent { SameFlag request.receiver (left_by result) }
    ensures apart { IsApartIn result }
{
    let Request {
        step: _,
        pos,
        what,
        receiver,
        arguments,
    } = request;
    let name = name_asked(&what);
    let arguments = match read_all(run.alloc, &run.cells, &receiver, &arguments) {
        Err(OutOfMemory) => return Answered::Over((Err(EvalAltResult::Memory), receiver)),
        Ok(read) => match read {
            None => return Answered::Over((Err(raise_race(run.alloc, steps, pos)), receiver)),
            Some(arguments) => arguments,
        },
    };
    ask_host(run, host, steps, name, receiver, arguments, pos)
}

// Asks the host for its native of a name, for a receiver, if there is one, and arguments that are
// described, and calls it. It gives the value or the fault of the call, and the receiver as the call left
// it.
pub(crate) fn ask_host<H: Host, L: Ledger>(
    run: &mut Run<H>,
    host: &mut H,
    steps: &mut Steps<L>,
    name: &Text,
    receiver: Option<Held>,
    arguments: Arguments,
    position: Position,
) -> Answered
    ensures asked { (args : List Held) (home : Home) → DescribesAfter receiver arguments args →
        AsksHost H.law host.old name.now home receiver args position steps.old result steps.new
        host.new }
    ensures run { run.new ≡ run.old }
    ensures before { steps.new.before ≡ steps.old.before }
    ensures lent { SameFlag receiver (left_by result) }
    ensures apart { IsApartIn result }
{
    match seek_lending(run.alloc, host, name, &receiver, arguments, position) {
        Err(OutOfMemory) => Answered::Over((Err(EvalAltResult::Memory), receiver)),
        Ok(sought) => match sought {
            Sought::Fault(fault) => {
                steps.mark();
                Answered::Over((Err(fault), receiver))
            }
            Sought::Native(key, values) => {
                call_lending(run, host, steps, key, values, receiver, position)
            }
        },
    }
}

// Calls the native with this key, and lends it the receiver, if there is one.
fn call_lending<H: Host, L: Ledger>(
    run: &mut Run<H>,
    host: &mut H,
    steps: &mut Steps<L>,
    key: u64,
    values: Array,
    receiver: Option<Held>,
    position: Position,
) -> Answered
    ensures heard { HearsHost H.law host.old key receiver values position steps.old result
        steps.new host.new }
    ensures run { run.new ≡ run.old }
    ensures before { steps.new.before ≡ steps.old.before }
{
    let mut args = Args { receiver, values };
    let answer = host.call(run.alloc, key, &mut args);
    let Args { receiver, .. } = args;
    match served(steps, answer, position) {
        Err(OutOfMemory) => Answered::Over((Err(EvalAltResult::Memory), receiver)),
        Ok(end) => match end {
            NativeEnd::Value(value) => Answered::Over((Ok(value), receiver)),
            NativeEnd::Fault(fault) => {
                steps.mark();
                Answered::Over((Err(fault), receiver))
            }
            NativeEnd::Asks(asked) => Answered::Asks(AskingNative {
                asked,
                lent: Loan::of(receiver),
                pos: position,
            }),
        },
    }
}

// Does what a request asks for, if it calls a native, or if memory runs out. It gives the value or the
// fault of the call, and the receiver as the call left it. If the request calls a function, it only
// says which.
fn serve_request<H: Host, L: Ledger>(
    run: &mut Run<H>,
    context: Context<'_>,
    host: &mut H,
    steps: &mut Steps<L>,
    request: Request,
) -> Result<Answered, MethodCall>
    requires there { CanCall context.program.now request.what (length request.arguments) }
    ensures serves { ServesRequest (setup_of H.law context.entry) request run.old steps.old host.old
        result run.new steps.new host.new }
    ensures run { run.new ≡ run.old }
    ensures before { steps.new.before ≡ steps.old.before }
{
    match resolve_request(run, context, request) {
        Ok(needed) => match needed {
            Needed::Function(call) => Err(call),
            Needed::Native(request) => Ok(perform_request(run, host, steps, request)),
        },
        Err(request) => Ok(Answered::Over((Err(EvalAltResult::Memory), request.receiver))),
    }
}

/// How far a walk was driven.
#[derive(Drop)]
pub enum Driven {
    /// To its end.
    Over(WalkEnd),
    /// To the call of a function.
    Calls(MethodCall),
    /// To the call of a native, which asks for a call first. Says whether it was called by its name.
    Asks(bool, AskingNative),
}

// Drives a walk on from an answer, to its end or to the next call of a function of the program.
pub(crate) fn drive<H: Host, L: Ledger>(
    run: &mut Run<H>,
    context: Context<'_>,
    host: &mut H,
    steps: &mut Steps<L>,
    walk: &mut Walk,
    missed: &mut bool,
    answer: WalkAnswer,
) -> Driven
    requires waits { (n : ℕ) × Falls context.program.now walk.old answer n }
    ensures same { (k : ℕ) (f : Option Place → Frame) (seat : Seat) (done : Rests H)
        (before : Option (List Entered)) (scope : List Entry) (this : Option Held) →
        Seated seat this → Rooted (first_held seat).read_only (roots_at walk.old answer) →
        IgnoresChange done → IsMissed missed.old run.old.stacks.trace before →
        (now : Option (List Entered)) × IsMissed missed.new run.new.stacks.trace now
        × DrivesTo (setup_of H.law context.entry) (beside scope this run.old steps.old host.old)
        (walk_seated k f seat done before
        (left_to_do context.entry.engine.now context.entry.program.now walk.old answer)
        (roots_at walk.old answer)) k f seat done now walk.new result
        (beside scope this run.new steps.new host.new) }
    ensures run { run.new ≡ record run.old {
      stacks = record run.old.stacks { trace = run.new.stacks.trace };
    } }
    ensures before { steps.new.before ≡ steps.old.before }
    // Want of memory is handed on.
    ensures carries { StopPersists (is_out answer) steps.old.passed (driven_is_out result)
        steps.new.passed }
    ensures rooted { (b : Bool) → Rooted b (roots_at walk.old answer) → RootedTo b walk.new result }
    ensures waits { WaitsFor context.entry.program.now walk.new result
        (left_of context.entry.program.now walk.old answer) }
{
    let mut answer = answer;
    'answers: loop {
        match answer {
            WalkAnswer::Need(request) => {
                let named = is_named(&request.what);
                match serve_request(run, context, host, steps, request) {
                    Err(call) => return Driven::Calls(call),
                    Ok(Answered::Asks(native)) => return Driven::Asks(named, native),
                    Ok(Answered::Over((outcome, receiver))) => {
                        keep_missed(run, missed, named, &outcome);
                        answer = go_on(run, context, steps, walk, outcome, receiver);
                    }
                }
            }
            WalkAnswer::Ended { value, .. } => return Driven::Over(WalkEnd::Value(value)),
            WalkAnswer::Faulted { fault, step } => {
                return Driven::Over(WalkEnd::Fault { fault, step });
            }
        }
    }
}

// Whether a request is for a native that is called by its name.
fn is_named(what: &What) -> bool
    ensures { result ≡ named_in what.now }
{
    matches!(what, What::Native(_))
}

// After the call of a native that left no frames. If a property was missed before, and there is no indexer
// either, the trace of that fault stays; else there is none. Notes whether a property is missed now. A native
// that is not called by its name asks for no property.
fn keep_missed<H: Host>(
    run: &mut Run<H>,
    missed: &mut bool,
    named: bool,
    outcome: &Result<Dynamic, EvalAltResult>,
)
    ensures kept { (before : Option (List Entered)) → IsMissed missed.old run.old.stacks.trace before →
        (run.new.stacks.trace ≡ trace_of (kept_by named before) (outcome_of outcome.now) [])
        × IsMissed missed.new run.new.stacks.trace
        (kept_by named (missed_by (outcome_of outcome.now) [])) }
    ensures run { run.new ≡ record run.old {
      stacks = record run.old.stacks { trace = run.new.stacks.trace };
    } }
{
    if !(named && *missed && lacks_indexer(outcome)) {
        run.stacks.cut_trace(0);
    }
    *missed = named && misses_property(outcome);
}

// Whether a call ended with the fault that there is no such property, if it was called by its name.
pub(crate) fn misses_named(named: bool, outcome: &Result<Dynamic, EvalAltResult>) -> bool
    ensures { result ≡ (named && has_missed (outcome_of outcome.now)) }
{
    named && misses_property(outcome)
}

// Whether a call ended with the fault that there is no such property.
fn misses_property(outcome: &Result<Dynamic, EvalAltResult>) -> bool
    ensures { result ≡ has_missed (outcome_of outcome.now) }
{
    match outcome {
        Ok(_) => false,
        Err(fault) => fault.is_dot_expr(),
    }
}

// Whether a call ended with the fault that there is no such indexer.
fn lacks_indexer(outcome: &Result<Dynamic, EvalAltResult>) -> bool
    ensures { result ≡ has_no_indexer (outcome_of outcome.now) }
{
    match outcome {
        Ok(_) => false,
        Err(fault) => fault.is_indexing_type(),
    }
}

// Goes on with a walk: with the value or the fault that its last request gave, and with the receiver
// as the call left it.
pub(crate) fn go_on<H: Host, L: Ledger>(
    run: &Run<H>,
    context: Context<'_>,
    steps: &mut Steps<L>,
    walk: &mut Walk,
    outcome: Result<Dynamic, EvalAltResult>,
    receiver: Option<Held>,
) -> WalkAnswer
    requires { Waits context.program.now walk.old receiver }
    ensures did { Did context.entry.engine.now context.entry.program.now run.now.cells
        (with_receiver walk.old receiver) 0
        (resumed context.entry.engine.now context.entry.program.now walk.old walk.old.awaits
        (outcome_of outcome)) walk.new result }
    ensures marked { steps.new ≡ record steps.old { passed = steps.old.passed + walk.new.marks } }
    ensures falls { Falls context.entry.program.now walk.new result
        (still context.entry.program.now walk.old walk.old.awaits) }
    ensures carries { StopPersists (is_want outcome) 0 (is_out result) walk.new.marks }
    ensures rooted { (b : Bool) → Rooted b (roots_of walk.old) → Rooted b (roots_at walk.new result) }
{
    let answer = walk.resume(
        context.engine,
        context.program,
        &run.cells,
        outcome,
        receiver,
    );
    steps.mark_all(walk.marks());
    answer
}
