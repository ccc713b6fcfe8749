//! Faults from the inside out.

ghost use Rattle.std.specs.Prelude.{◌≡◌, ◌++◌, [], Some, IfOk};
ghost use Rattle.grain_fault.specs.Wrappers.{added};
ghost use Rattle.grain_fault.specs.Problems.{problem_of};
ghost use Rattle.grain_fault.specs.Texts.{message, location_text};

use crate::fault_texts::{Location, write_message, write_wrapper};
use crate::faults::EvalAltResult;
use crate::places::Position;
use grain_value::OutOfMemory;
use std::alloc::Global;
use std::fmt;

/// The wrappers of a fault, the outermost first, and the fault inside them.
pub(crate) fn unwrap_all<'a>(
    alloc: Global,
    fault: &'a EvalAltResult,
) -> Result<(Vec<&'a EvalAltResult>, &'a EvalAltResult), OutOfMemory>
    ensures { IfOk result (λ parts. message (problem_of fault.now)
        ≡ message (problem_of parts.1.now) ++ added parts.0.items) }
{
    let mut wrappers = Vec::new(alloc);
    let mut innermost = fault;
    loop {
        match innermost {
            EvalAltResult::ErrorInFunctionCall(_, _, inner, _)
            | EvalAltResult::ErrorInModule(_, inner, _) => {
                wrappers.push(innermost)?;
                innermost = inner;
            }
            _ => return Ok((wrappers, innermost)),
        }
    }
}

/// A fault in parts: the innermost one, its wrappers, the outermost first, and where the outermost
/// is. It prints as the whole fault does, and takes no more room on the stack for more wrappers.
#[derive(Drop)]
pub(crate) struct Unwrapped<'a> {
    pub(crate) innermost: &'a EvalAltResult,
    pub(crate) wrappers: &'a [&'a EvalAltResult],
    pub(crate) position: Position,
}

impl fmt::Display for Unwrapped<'_> {
    ghost output = { λ u. Some (message (problem_of u.innermost.now) ++ added u.wrappers.now
        ++ location_text [] u.position) };

    fn fmt<W: fmt::Write>(&self, f: &mut fmt::Formatter<W>) -> fmt::Result {
        write_message(self.innermost, f)?;
        for wrapper in self.wrappers.iter().rev() {
            let wrapper: &EvalAltResult = wrapper;
            write_wrapper(wrapper, f)?;
        }
        let location = Location {
            source: "",
            position: self.position,
        };
        write!(f, "{location}")
    }
}
