//! Natives: what the host is asked for, and how it is called.

ghost use Rattle.std.specs.Prelude.{◌≡◌, ◌++◌, ◌∷◌, [], ℕ, List, Option, None, Some, true, is_some, IfOk};
ghost use Rattle.grain_value.specs.declared.values.Dynamic.{Dynamic};
ghost use Rattle.grain_value.specs.declared.values.Held.{Held};
ghost use Rattle.grain_means.specs.Worlds.{Setup, Frame, Place, World, Act};
ghost use Rattle.grain_means.specs.Rules.{native, flat_all};
ghost use Rattle.grain_means.specs.Simulation.{SimulatesExactly};
ghost use Rattle.grain_frame.specs.Abstraction.{abstraction, is_out, native_continuation};
ghost use Rattle.grain_frame.specs.Natives.{Describes, IsAt, Seeks, Serves, EndsBy};
ghost use Rattle.grain_fault.specs.Problems.{Problem};
ghost use Rattle.grain_host.specs.Answers.{reply_of};

use crate::runs::Run;
use grain_fault::{EvalAltResult, Position};
use grain_global::Steps;
use grain_host::{Args, Host, HostAnswer, not_found};
use grain_value::{Array, Dynamic, FnPtr, Held, Kinds, OutOfMemory, Store, Text};
use std::alloc::Global;
use std::sync::ledger::Ledger;

/// What a native asks for: the call of a function of the program.
#[derive(Drop)]
pub struct Asked {
    /// By what the host knows what it asked for.
    pub token: u64,
    /// The pointer that is called.
    pub pointer: FnPtr,
    /// What the pointer is given after its own values.
    pub values: Array,
}

/// What came of the call of a native.
#[derive(Drop)]
pub enum NativeEnd {
    /// This value.
    Value(Dynamic),
    /// This fault, which is not raised yet.
    Fault(EvalAltResult),
    /// It is not over: the host asks for this call first.
    Asks(Asked),
}

/// Arguments as a host is given them: their kinds, copies of their values, and whether the first
/// can only be read.
#[derive(Drop)]
pub struct Arguments {
    pub kinds: Kinds,
    pub values: Array,
    pub read_only: bool,
}

/// What a host has for a name and arguments.
#[derive(Drop)]
pub enum Sought {
    /// The native of this key, and the values that it is given.
    Native(u64, Array),
    /// The fault that there is none, or that it may not be called.
    Fault(EvalAltResult),
}

impl Arguments {
    /// No arguments. It takes no memory.
    pub fn new(alloc: Global) -> Arguments
        ensures { Describes result [] }
    {
        Arguments::with(alloc, Array::new(alloc))
    }

    /// No arguments, whose values are to be put into this list, which has none.
    pub fn with(alloc: Global, values: Array) -> Arguments
        requires { values ≡ [] }
        ensures { Describes result [] }
    {
        Arguments {
            kinds: Kinds::new(alloc),
            values,
            read_only: false,
        }
    }

    /// One argument more: a value that is no cell, and whether it can only be read.
    pub fn push(
        &mut self,
        alloc: Global,
        value: &Dynamic,
        read_only: bool,
    ) -> Result<(), OutOfMemory>
        ensures { IfOk result (λ _. (args : List Held) → Describes self.old args →
            Describes self.new
            (args ++ record { value = value.now; read_only = read_only } ∷ [])) }
    {
        if self.values.is_empty() {
            self.read_only = read_only;
        }
        self.kinds.push(value.own_kind())?;
        self.values.push(value.copy(alloc)?)
    }

    /// These arguments, as they are read. None of them is a cell that is lent. Their values are put into
    /// this list, which has none.
    pub fn of(
        alloc: Global,
        values: Array,
        cells: &Store,
        held: &[Held],
    ) -> Result<Arguments, OutOfMemory>
        requires empty { values ≡ [] }
        requires readable { is_some (flat_all cells.now held.now) ≡ true }
        ensures { (args : List Held) → flat_all cells.now held.now ≡ Some args →
            IfOk result (λ a. Describes a args) }
    {
        let mut arguments = Arguments::with(alloc, values);
        'arguments: for one in held {
            match one.value.flat(cells) {
                Some(value) => arguments.push(alloc, value, one.read_only)?,
                None => unreachable!(),
            }
        }
        Ok(arguments)
    }
}

/// Whether none of these is a cell that is lent.
pub fn are_readable(cells: &Store, held: &[Held]) -> bool
    ensures { result ≡ is_some (flat_all cells.now held.now) }
{
    'operands: for one in held {
        if one.value.flat(cells).is_none() {
            return false;
        }
    }
    true
}

/// What the host has for a name and arguments, where a fault has this position.
pub fn seek<H: Host>(
    alloc: Global,
    host: &H,
    name: &Text,
    arguments: Arguments,
    position: Position,
) -> Result<Sought, OutOfMemory>
    ensures { (args : List Held) → Describes arguments args →
        IfOk result (λ s. Seeks H.law host.now name.now None args position s) }
{
    let Arguments {
        kinds,
        values,
        read_only,
    } = arguments;
    match host.resolve(name.as_str(), &kinds) {
        None => Ok(Sought::Fault(not_found(alloc, name, &values, position)?)),
        Some(native) => {
            if native.writes && read_only {
                let name = name.copy(alloc)?;
                let fault = EvalAltResult::ErrorNonPureMethodCallOnConstant(name, position);
                Ok(Sought::Fault(fault))
            } else {
                Ok(Sought::Native(native.key, values))
            }
        }
    }
}

/// What came of the host's answer, with a mark before the call and one after. A fault without a
/// position has this one.
#[inline(always)]
pub fn served<L: Ledger>(
    steps: &mut Steps<L>,
    answer: HostAnswer,
    position: Position,
) -> Result<NativeEnd, OutOfMemory>
    ensures ends { EndsBy (reply_of answer) position result steps.old steps.new }
    ensures before { steps.new.before ≡ steps.old.before }
{
    match answer {
        HostAnswer::Done(value) => {
            steps.mark();
            steps.mark();
            Ok(NativeEnd::Value(value))
        }
        HostAnswer::Failed(failure) => {
            steps.mark();
            steps.mark();
            Ok(NativeEnd::Fault(failure.into_fault().fill_position(position)))
        }
        HostAnswer::Ask {
            token,
            pointer,
            arguments,
        } => {
            steps.mark();
            steps.mark();
            Ok(NativeEnd::Asks(Asked {
                token,
                pointer,
                values: arguments,
            }))
        }
        HostAnswer::Memory => Err(OutOfMemory),
    }
}

impl<H: Host> Run<H> {
    // Calls the native that was sought, or gives the fault that there is none. A fault of the
    // host's without a position has this one.
    pub(crate) fn call_native<L: Ledger>(
        &mut self,
        host: &mut H,
        steps: &mut Steps<L>,
        sought: Sought,
        position: Position,
    ) -> Result<NativeEnd, OutOfMemory>
        ensures same { (m : Setup H) (name : List ℕ) (args : List Held) (f : Option Place → Frame)
            (go : Setup H → Option Place → Dynamic → World H → Act H)
            (fails : Setup H → Option Place → Problem → World H → Act H) → m.law ≡ H.law →
            IsAt m f position →
            Seeks H.law host.old name None args position sought → SimulatesExactly m
            (abstraction self.old steps.old host.old)
            (λ m place w. native m name None args (f place) w (go m place) (fails m place))
            (is_out result) (abstraction self.new steps.new host.new)
            (native_continuation result (λ place. None) f go fails) }
        ensures run { self.new ≡ self.old }
        ensures before { steps.new.before ≡ steps.old.before }
    {
        match sought {
            Sought::Fault(fault) => Ok(NativeEnd::Fault(fault)),
            Sought::Native(key, values) => self.call_host(host, steps, key, values, position),
        }
    }

    // Calls the native of a key.
    fn call_host<L: Ledger>(
        &mut self,
        host: &mut H,
        steps: &mut Steps<L>,
        key: u64,
        values: Array,
        position: Position,
    ) -> Result<NativeEnd, OutOfMemory>
        ensures same { Serves H.law self.old steps.old host.old key None values position result
            self.new steps.new host.new }
        ensures run { self.new ≡ self.old }
        ensures before { steps.new.before ≡ steps.old.before }
    {
        let mut args = Args {
            receiver: None,
            values,
        };
        let answer = host.call(self.alloc, key, &mut args);
        served(steps, answer, position)
    }
}
