//! Instructions that wait for a native, which asked for a call first.

ghost use Rattle.std.specs.Prelude.{◌≡◌, [], Option, Some, None, is_some, slice_set, true};
ghost use Rattle.grain_value.specs.Cells.{idle};
ghost use Rattle.grain_host.specs.Answers.{Resumed as HostResumed, outcome_of as host_outcome_of, reply_of};
ghost use Rattle.grain_frame.specs.Targets.{CanBeLent};
ghost use Rattle.grain_frame.specs.Waiting.{IsKept, KeepsLent, ResumesWith, TellsHost, apart_of, given_back_run, lent_of, performed_of};

use crate::assignments::Assignment;
use crate::native_calls::{Asked, NativeEnd, served};
use crate::runs::{Progress, Run};
use crate::targets::Target;
use grain_fault::{EvalAltResult, Position};
use grain_global::Steps;
use grain_host::{Args, Host, HostAnswer, HostFault};
use grain_value::{Array, Dynamic, Held, OutOfMemory, Store, Text};
use std::alloc::Global;
use std::mem;
use std::sync::ledger::Ledger;

/// What an instruction does once the native is over that it called.
#[derive(Drop)]
pub enum Rest {
    /// The value stands in the place of the last `count` operands, and the frame goes on at `next`.
    Push { count: usize, next: usize },
    /// The native did the op-assignment. If there is none of its name, the host's operator is asked.
    Assign(Assignment),
    /// The value of the host's operator is assigned.
    Operate(Assignment),
    /// The value is shown as a text after a buffer, or the name of the segment's type is, and the frame
    /// goes on at `next`.
    Show { type_name: Text, next: usize },
}

/// What a native was lent that waits for a call.
#[derive(Drop)]
pub enum Loan {
    /// Nothing.
    Nothing,
    /// What stands at this target, which is no cell.
    Target(Target),
    /// This, which the cell of this number held. The cell stays lent.
    Cell(usize, Held),
    /// This, which stands nowhere in the run.
    Apart(Held),
}

impl Loan {
    /// What a native was lent that stands nowhere in the run, if it was lent something.
    pub fn of(receiver: Option<Held>) -> Loan
        ensures { result ≡ lent_of receiver }
    {
        match receiver {
            Some(held) => Loan::Apart(held),
            None => Loan::Nothing,
        }
    }
}

/// An instruction that waits for a native.
#[derive(Drop)]
pub struct Waiting {
    /// What the native asks for.
    pub asked: Asked,
    /// What it was lent.
    pub lent: Loan,
    /// What the instruction then does.
    pub rest: Rest,
}

/// What came of an instruction. What waits lies in the run, so that nothing large is moved.
#[derive(Clone, Copy, Debug, PartialEq, Eq)]
pub enum Performed {
    /// It is done, and leads there.
    Leads(Progress),
    /// It waits for a native. How it goes on lies in the run.
    Waits,
}

impl Performed {
    // An instruction that is done, unless memory ran out.
    #[inline(always)]
    pub(crate) fn of(done: Result<Progress, OutOfMemory>) -> Result<Performed, OutOfMemory>
        ensures { result ≡ performed_of done }
    {
        Ok(Performed::Leads(done?))
    }
}

/// How a native goes on once it has heard what came of a call.
#[derive(Drop)]
pub enum Resumed {
    /// It is over: its value, or its fault, which is not raised yet, and what it had that stands nowhere in
    /// the run, if it had something.
    Over(Result<Dynamic, EvalAltResult>, Option<Held>),
    /// It asks for this call, and has this of what it was lent.
    Asks(Asked, Loan),
}

impl<H: Host> Run<H> {
    // Puts an instruction that waits for a native into the run.
    #[cold]
    pub(crate) fn wait(&mut self, waiting: Waiting) -> Performed
        ensures waits { result ≡ Performed.Waits }
        ensures after { self.new ≡ record self.old { waiting = Some waiting } }
    {
        self.waiting = Some(waiting);
        Performed::Waits
    }

    /// Takes the instruction that waits for a native, if one does.
    pub fn take_waiting(&mut self) -> Option<Waiting>
        ensures value { result ≡ self.old.waiting }
        ensures after { self.new ≡ record self.old { waiting = None } }
    {
        mem::replace(&mut self.waiting, None)
    }

    // What a native has that was lent what the target holds, and that asks for a call. A cell is lent
    // until the native is over.
    pub(crate) fn keep_lent(&mut self, target: Target) -> Loan
        requires { CanBeLent self.old target }
        ensures { KeepsLent self.old target result self.new }
    {
        match target {
            Target::Cell(cell) => Loan::Cell(cell, self.take_out(target)),
            Target::Entry(_) => Loan::Target(target),
            Target::This => Loan::Target(target),
        }
    }

    /// Tells the host, by this token, what came of the call that it asked for, and lends it again what
    /// it was lent. A fault of the host's without a position has this one. If memory runs out, the host
    /// forgets the token.
    #[inline(always)]
    pub fn resume_native<L: Ledger>(
        &mut self,
        host: &mut H,
        steps: &mut Steps<L>,
        token: u64,
        told: Result<Dynamic, HostFault>,
        lent: Loan,
        position: Position,
    ) -> Resumed
        requires kept { IsKept self.old lent }
        ensures tells { TellsHost H.law token (host_outcome_of told) lent position self.old steps.old host.old
            result self.new steps.new host.new }
        ensures before { steps.new.before ≡ steps.old.before }
    {
        let (answer, lent) = self.resume_with(host, token, told, lent);
        match served(steps, answer, position) {
            Err(OutOfMemory) => {
                host.forget(token);
                Resumed::Over(Err(EvalAltResult::Memory), self.give_back(lent))
            }
            Ok(NativeEnd::Fault(fault)) => Resumed::Over(Err(fault), self.give_back(lent)),
            Ok(NativeEnd::Value(value)) => {
                self.stacks.cut_trace(0);
                Resumed::Over(Ok(value), self.give_back(lent))
            }
            Ok(NativeEnd::Asks(asked)) => {
                self.stacks.cut_trace(0);
                Resumed::Asks(asked, lent)
            }
        }
    }

    /// The machine goes on without a native that asked for a call by this token: `forget` is called for
    /// it, and what the native was lent goes back. What stands nowhere in the run is given.
    pub fn forget_native(&mut self, host: &mut H, token: u64, lent: Loan) -> Option<Held>
        ensures host { host.new ≡ H.law.forget_after host.old token }
        ensures run { self.new ≡ given_back_run lent self.old }
        ensures apart { result ≡ apart_of lent }
    {
        host.forget(token);
        self.give_back(lent)
    }

    // Resumes the host, and lends it what it was lent.
    #[inline(always)]
    fn resume_with(
        &mut self,
        host: &mut H,
        token: u64,
        told: Result<Dynamic, HostFault>,
        lent: Loan,
    ) -> (HostAnswer, Loan)
        requires kept { IsKept self.old lent }
        ensures resumes { ResumesWith H.law token (host_outcome_of told) lent self.old host.old result.0
            result.1 self.new host.new }
    {
        match lent {
            Loan::Nothing => {
                let (answer, _) = resume(self.alloc, host, token, told, None);
                (answer, Loan::Nothing)
            }
            Loan::Target(target) => {
                let held = self.take_out(target);
                let (answer, left) = resume(self.alloc, host, token, told, Some(held));
                self.put_back(target, held_in(left));
                (answer, Loan::Target(target))
            }
            Loan::Cell(cell, held) => {
                let (answer, left) = resume(self.alloc, host, token, told, Some(held));
                (answer, Loan::Cell(cell, held_in(left)))
            }
            Loan::Apart(held) => {
                let (answer, left) = resume(self.alloc, host, token, told, Some(held));
                (answer, Loan::Apart(held_in(left)))
            }
        }
    }

    // Puts back what a native was lent that is over. What stands nowhere in the run is given.
    #[inline(always)]
    fn give_back(&mut self, lent: Loan) -> Option<Held>
        ensures run { self.new ≡ given_back_run lent self.old }
        ensures apart { result ≡ apart_of lent }
    {
        match lent {
            Loan::Nothing => None,
            Loan::Target(_) => None,
            Loan::Cell(cell, held) => {
                put_in_cell(&mut self.cells, cell, held);
                None
            }
            Loan::Apart(held) => Some(held),
        }
    }
}

// Resumes the host with a receiver, if there is one, and gives the receiver as the host left it.
#[inline(always)]
fn resume<H: Host>(
    alloc: Global,
    host: &mut H,
    token: u64,
    told: Result<Dynamic, HostFault>,
    receiver: Option<Held>,
) -> (HostAnswer, Option<Held>)
    ensures { HostResumed H.law host.old token (host_outcome_of told)
        (record { receiver = receiver; values = [] }) (reply_of result.0) host.new
        (record { receiver = result.1; values = [] }) }
{
    let mut args = Args {
        receiver,
        values: Array::new(alloc),
    };
    let answer = host.resume(alloc, token, told, &mut args);
    let Args { receiver, .. } = args;
    (answer, receiver)
}

// What is held, which is there.
fn held_in(held: Option<Held>) -> Held
    requires { is_some held ≡ true }
    ensures { Some result ≡ held }
{
    match held {
        Some(held) => held,
        None => unreachable!(),
    }
}

/// Puts this into a cell, whose content is not lent from then on. A cell that is not there stays away.
pub fn put_in_cell(cells: &mut Store, number: usize, held: Held)
    ensures { cells.new ≡ slice_set cells.old number (idle held) }
{
    if number >= cells.len() {
        return;
    }
    if cells.is_busy(number) {
        cells.give_back(number, held);
    } else {
        cells.set(number, held);
    }
}
