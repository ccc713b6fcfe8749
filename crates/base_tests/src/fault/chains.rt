//! A fault with very many wrappers.

use crate::raised::fault_text;
use grain_fault::{EvalAltResult, Position};
use grain_value::{OutOfMemory, Text};
use std::alloc::Global;

const WRAPPERS: usize = 100_000;

fn wrapped(alloc: Global) -> Result<EvalAltResult, OutOfMemory> {
    let mut fault = EvalAltResult::ErrorTooManyOperations(Position::NONE);
    for _ in 0..WRAPPERS {
        let inner = Box::new(alloc, fault)?;
        fault = EvalAltResult::ErrorInModule(Text::new(alloc), inner, Position::NONE);
    }
    Ok(fault)
}

#[test]
fn many_wrappers(rt: HostRuntime) {
    let fault = wrapped(rt.alloc()).expect(&rt, "memory");
    let text = fault_text(&rt, rt.alloc(), &fault);
    let length = "Too many operations".len() + WRAPPERS * "\nin module".len();
    assert!(rt; text.len() == length);
}
