//! The calls of `map` that wait for what comes of an element.

ghost use Rattle.std.specs.Prelude.{◌≡◌, ◌++◌, ◌∷◌, ◌<◌, [], IfOk, IfSome, Some, length, is_ok, if◌then◌else◌, option_map, remove, slice_get};
ghost use Rattle.grain_value.specs.View.{tree};
ghost use Rattle.grain_host.specs.Pending.{begun, answered, next_of, place_of, renewed};

use grain_value::{Array, Dynamic, FnPtr, OutOfMemory};
use std::alloc::Global;
use std::marker::Model;

/// A call of `map` that asks for its elements in order. One of them is out.
#[derive(Drop)]
pub struct PendingCall {
    /// By what it is resumed.
    token: u64,
    /// The pointer of which an element is asked.
    pointer: FnPtr,
    /// The elements.
    elements: Array,
    /// What came of the elements before the one that is out.
    answers: Array,
}

/// The calls that wait, in the order in which they were begun.
#[derive(Drop)]
pub struct PendingCalls {
    calls: Vec<PendingCall>,
}

impl Model for PendingCalls {
    ghost use Rattle.std.specs.Prelude.{List};
    ghost use Rattle.std.specs.Coded.{codes};
    ghost use Rattle.grain_value.specs.laws.TreeCode.{coded_tree};
    ghost use Rattle.grain_host.specs.declared.pending_calls.PendingCall.{PendingCall};

    ghost Value = { List PendingCall };

    ghost coded = { Prim.hlevel (codes, coded_tree) };

    ghost view = { λ s. s.calls.items };
}

impl PendingCall {
    /// A call that is to ask for its first element with this token.
    pub fn new(
        alloc: Global,
        token: u64,
        elements: &Array,
        pointer: &FnPtr,
    ) -> Result<PendingCall, OutOfMemory>
        ensures { IfOk result (λ call. call ≡ begun token elements.now pointer.now) }
    {
        Ok(PendingCall {
            token,
            pointer: pointer.copy(alloc)?,
            elements: elements.copy(alloc)?,
            answers: Array::new(alloc),
        })
    }

    /// The pointer of which its elements are asked.
    pub fn pointer(&self) -> &FnPtr
        ensures { result.now ≡ self.now.pointer }
    {
        &self.pointer
    }

    /// By what it is resumed.
    pub fn token(&self) -> u64
        ensures { result ≡ self.now.token }
    {
        self.token
    }

    /// The answers.
    pub fn into_answers(self) -> Array
        ensures { result ≡ self.answers }
    {
        self.answers
    }

    /// The first element, if there is one.
    pub fn first(&self) -> Option<&Dynamic>
        ensures { option_map (λ d. tree d.now) result ≡ slice_get self.now.elements 0 }
    {
        self.elements.get(0)
    }

    /// The element after the one that is out, if there is one.
    pub fn next(&self) -> Option<&Dynamic>
        ensures { option_map (λ d. tree d.now) result ≡ next_of self.now }
    {
        self.elements.get(self.answers.len() + 1)
    }

    // Has this answer to the element that is out, and asks for the next one with this token. After
    // want of memory it is as it was.
    fn answer(&mut self, token: u64, value: Dynamic) -> Result<(), OutOfMemory>
        ensures { self.new ≡ (if is_ok result then answered token value self.old else self.old) }
    {
        self.answers.push(value)?;
        self.token = token;
        Ok(())
    }
}

impl PendingCalls {
    /// No calls. It takes no memory.
    pub fn new(alloc: Global) -> PendingCalls
        ensures { result ≡ [] }
    {
        PendingCalls {
            calls: Vec::new(alloc),
        }
    }

    /// The place of the first call with this token, if there is one.
    pub fn place(&self, token: u64) -> Option<usize>
        ensures place { result ≡ place_of token self.now }
        ensures inside { IfSome result (λ place. place < length self.now) }
    {
        'call: for (place, call) in self.calls.iter().enumerate() {
            if call.token == token {
                return Some(place);
            }
        }
        None
    }

    /// The call at this place.
    pub fn at(&self, place: usize) -> &PendingCall
        requires { place < length self.now }
        ensures { slice_get self.now place ≡ Some result.now }
    {
        &self.calls[place]
    }

    /// One more call. After want of memory the calls are as they were.
    pub fn push(&mut self, call: PendingCall) -> Result<(), OutOfMemory>
        ensures { self.new ≡ (if is_ok result then self.old ++ call ∷ [] else self.old) }
    {
        self.calls.push(call)?;
        Ok(())
    }

    /// The call at this place has this answer to the element that is out, and asks for the next one
    /// with this token. After want of memory the calls are as they were.
    pub fn answer(&mut self, place: usize, token: u64, value: Dynamic) -> Result<(), OutOfMemory>
        requires { place < length self.old }
        ensures { self.new ≡ (if is_ok result
            then renewed place (answered token value) self.old
            else self.old) }
    {
        self.calls[place].answer(token, value)
    }

    /// Takes the call at this place away.
    pub fn remove(&mut self, place: usize) -> PendingCall
        requires { place < length self.old }
        ensures call { slice_get self.old place ≡ Some result }
        ensures calls { self.new ≡ remove self.old place }
    {
        self.calls.remove(place)
    }

    /// Takes the call at this place away, of which this is the last answer, and gives all its answers.
    /// After want of memory the calls are as they were.
    pub fn finish(&mut self, place: usize, value: Dynamic) -> Result<Array, OutOfMemory>
        requires { place < length self.old }
        ensures answers { IfOk result (λ answers.
            option_map (λ call. (answered 0 value call).answers) (slice_get self.old place)
            ≡ Some answers) }
        ensures calls { self.new ≡ (if is_ok result then remove self.old place else self.old) }
    {
        self.answer(place, 0, value)?;
        let call = self.remove(place);
        Ok(call.answers)
    }
}
