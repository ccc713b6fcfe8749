//! The native `map` of the host in memory, which calls functions of the script.

ghost use Rattle.std.specs.Prelude.{◌≡◌, ◌∷◌, ◌<◌, ◌^◌, ◌-◌, [], IfOk, IfSome, Some, is_ok, is_some, length, option_and_then, slice_get, if◌then◌else◌};
ghost use Rattle.grain_value.specs.View.{tree};
ghost use Rattle.grain_host.specs.Answers.{outcome_of, reply_of};
ghost use Rattle.grain_host.specs.Law.{Ask};
ghost use Rattle.grain_host.specs.Mapping.{asks_next, call_at, first_asked, goes_on, gone, mapped, mapped_by, next_asked, next_reply, outcome_reply, start_reply, started, HasRoom};
ghost use Rattle.grain_host.specs.Pending.{answered, next_of, place_of};
ghost use Rattle.grain_host.specs.Tables.{arguments};

use crate::host_answers::{Args, HostAnswer};
use crate::host_faults::HostFault;
use crate::pending_calls::{PendingCall, PendingCalls};
use crate::register_natives::{argument, count};
use crate::table_natives::unknown;
use grain_value::{Array, Dynamic, FnPtr, OutOfMemory};
use std::alloc::Global;

/// The key of `map`.
pub(crate) const MAP: u64 = 4;

/// The tokens of a host: how many it has given, from 0 on in order, and the calls that wait.
#[derive(Drop)]
pub struct Tokens {
    pub(crate) given: u64,
    pub(crate) pending: PendingCalls,
}

/// The call of `map` with these arguments, if they are an array and a pointer.
pub(crate) fn mapped(
    alloc: Global,
    token: u64,
    args: &Args,
) -> Result<Option<PendingCall>, OutOfMemory>
    ensures { IfOk result (λ call. call
        ≡ mapped token (arguments args.now.receiver args.now.values)) }
{
    if count(args) != 2 {
        return Ok(None);
    }
    match (argument(args, 0), argument(args, 1)) {
        (Some(elements), Some(pointer)) => mapped_by(alloc, token, elements, pointer),
        _ => Ok(None),
    }
}

fn mapped_by(
    alloc: Global,
    token: u64,
    elements: &Dynamic,
    pointer: &Dynamic,
) -> Result<Option<PendingCall>, OutOfMemory>
    ensures { IfOk result (λ call. call ≡ mapped_by token elements.now pointer.now) }
{
    match (elements, pointer) {
        (Dynamic::Array(elements), Dynamic::Pointer(pointer)) => {
            Ok(Some(PendingCall::new(alloc, token, elements, pointer)?))
        }
        _ => Ok(None),
    }
}

/// Whether the call begins by asking an element.
pub(crate) fn asks_first(call: &Option<PendingCall>) -> bool
    ensures { result ≡ is_some (first_asked call.now) }
{
    match call {
        None => false,
        Some(call) => call.first().is_some(),
    }
}

// The host asks for a call with this one argument.
fn ask(alloc: Global, token: u64, pointer: &FnPtr, element: &Dynamic) -> HostAnswer
    ensures { IfSome (reply_of result)
        (λ reply. reply ≡ Ask token pointer.now (tree element.now ∷ [])) }
{
    match (pointer.copy(alloc), array_of(alloc, element)) {
        (Ok(pointer), Ok(arguments)) => HostAnswer::Ask {
            token,
            pointer,
            arguments,
        },
        _ => HostAnswer::Memory,
    }
}

// An array that has a copy of this value alone.
fn array_of(alloc: Global, value: &Dynamic) -> Result<Array, OutOfMemory>
    ensures { IfOk result (λ array. array ≡ tree value.now ∷ []) }
{
    let mut array = Array::new(alloc);
    array.push(value.copy(alloc)?)?;
    Ok(array)
}

impl Tokens {
    /// None that was given. It takes no memory.
    pub fn new(alloc: Global) -> Tokens
        ensures { result ≡ record { given = 0; pending = [] } }
    {
        Tokens {
            given: 0,
            pending: PendingCalls::new(alloc),
        }
    }

    /// Begins a call of `map`. After want of memory nothing changed.
    pub(crate) fn begin(&mut self, alloc: Global, call: Option<PendingCall>) -> HostAnswer
        requires { HasRoom (is_some (first_asked call)) self.old }
        ensures reply { IfSome (reply_of result) (λ reply. reply ≡ start_reply call) }
        ensures tokens { self.new
            ≡ (if is_some (reply_of result) then started call self.old else self.old) }
    {
        match call {
            None => unknown(alloc),
            Some(call) => self.begin_call(alloc, call),
        }
    }

    fn begin_call(&mut self, alloc: Global, call: PendingCall) -> HostAnswer
        requires { HasRoom (is_some (slice_get call.elements 0)) self.old }
        ensures reply { IfSome (reply_of result) (λ reply. reply ≡ start_reply (Some call)) }
        ensures tokens { self.new
            ≡ (if is_some (reply_of result) then started (Some call) self.old else self.old) }
    {
        let Some(element) = call.first() else {
            return HostAnswer::Done(Dynamic::Array(call.into_answers()));
        };
        let answer = ask(alloc, call.token(), call.pointer(), element);
        if answer.is_memory() || self.pending.push(call).is_err() {
            return HostAnswer::Memory;
        }
        self.given += 1;
        answer
    }

    /// Whether an element is asked after this outcome.
    pub(crate) fn asks_next(
        &self,
        place: Option<usize>,
        outcome: &Result<Dynamic, HostFault>,
    ) -> bool
        requires { IfSome place (λ i. i < length self.now.pending) }
        ensures { result
            ≡ is_some (next_asked (call_at self.now place) (outcome_of outcome.now)) }
    {
        match (place, outcome) {
            (Some(place), Ok(_)) => self.pending.at(place).next().is_some(),
            _ => false,
        }
    }

    /// The call at the place goes on with an outcome. After want of memory nothing changed.
    pub(crate) fn go_on(
        &mut self,
        alloc: Global,
        place: Option<usize>,
        outcome: Result<Dynamic, HostFault>,
    ) -> HostAnswer
        requires inside { IfSome place (λ i. i < length self.old.pending) }
        requires room { HasRoom
            (is_some (next_asked (call_at self.old place) (outcome_of outcome))) self.old }
        ensures reply { IfSome (reply_of result) (λ reply. reply
            ≡ outcome_reply self.old.given (call_at self.old place) (outcome_of outcome)) }
        ensures tokens { self.new ≡ (if is_some (reply_of result)
            then goes_on place (outcome_of outcome) self.old else self.old) }
    {
        match (place, outcome) {
            (None, _) => unknown(alloc),
            (Some(place), Ok(value)) => self.answer(alloc, place, value),
            (Some(place), Err(fault)) => {
                self.pending.remove(place);
                HostAnswer::Failed(fault)
            }
        }
    }

    // The call at the place has this answer to the element that was out.
    fn answer(&mut self, alloc: Global, place: usize, value: Dynamic) -> HostAnswer
        requires inside { place < length self.old.pending }
        requires room { HasRoom
            (is_some (option_and_then next_of (slice_get self.old.pending place))) self.old }
        ensures reply { IfSome (reply_of result) (λ reply.
            IfSome (slice_get self.old.pending place) (λ p. reply
            ≡ next_reply self.old.given (answered self.old.given value p) (next_of p))) }
        ensures tokens { let next = option_and_then next_of (slice_get self.old.pending place) in
            self.new ≡ (if is_some (reply_of result)
            then asks_next place value next self.old else self.old) }
    {
        let call = self.pending.at(place);
        let Some(element) = call.next() else {
            return match self.pending.finish(place, value) {
                Ok(answers) => HostAnswer::Done(Dynamic::Array(answers)),
                Err(OutOfMemory) => HostAnswer::Memory,
            };
        };
        let answer = ask(alloc, self.given, call.pointer(), element);
        if answer.is_memory() || self.pending.answer(place, self.given, value).is_err() {
            return HostAnswer::Memory;
        }
        self.given += 1;
        answer
    }

    /// The call with this token is gone, if there is one.
    pub(crate) fn forget(&mut self, token: u64)
        ensures { self.new ≡ gone (place_of token self.old.pending) self.old }
    {
        if let Some(place) = self.pending.place(token) {
            self.pending.remove(place);
        }
    }
}
