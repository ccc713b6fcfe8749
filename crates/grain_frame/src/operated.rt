//! What the built-in operators give for operands as they are read, and for entries of the scope.

ghost use Rattle.std.specs.Prelude.{◌≡◌, ◌<◌, List, length, IfSome, Some};
ghost use Rattle.grain_value.specs.Operands.{values_in};
ghost use Rattle.grain_value.specs.declared.values.Held.{Held};
ghost use Rattle.grain_means.specs.Rules.{flat_all, if_fast, held_at};
ghost use Rattle.grain_ops.specs.Outcomes.{Gave};
ghost use Rattle.grain_ops.specs.Operators.{operation, assignment};
ghost use Rattle.grain_ops.specs.Agreement.{AreIntegers};
ghost use Rattle.grain_ops.specs.Answers.{Answers};
ghost use Rattle.grain_frame.specs.Operated.{AssignedEntry};
ghost use Rattle.grain_value.specs.declared.values.Dynamic.TheVariants as dynamic;

use grain_global::Engine;
use grain_ops::{AssignAnswer, OpAnswer, assign, binary, unary};
use grain_value::{Dynamic, Held, Scope, Store, Token};
use std::alloc::Global;

/// What an operator gives for these arguments, as they are read.
pub fn operate(
    alloc: Global,
    engine: &Engine,
    token: Token,
    cells: &Store,
    arguments: &[Held],
) -> OpAnswer
    ensures { (args : List Held) → flat_all cells.now arguments.now ≡ Some args →
        Answers result (operation engine.now.limits token (values_in args)) }
{
    match arguments {
        [] => OpAnswer::NotBuiltIn,
        [x] => match x.value.flat(cells) {
            Some(x) => unary(alloc, token, x),
            None => OpAnswer::NotBuiltIn,
        },
        [x, y] => match x.value.flat(cells) {
            Some(x) => match y.value.flat(cells) {
                Some(y) => binary(alloc, token, x, y, &engine.limits),
                None => OpAnswer::NotBuiltIn,
            },
            None => OpAnswer::NotBuiltIn,
        },
        [_, _, _, ..] => OpAnswer::NotBuiltIn,
    }
}

/// What an op-assignment of a value to the entry at the index gives, if operators are fast. The
/// entry keeps its flag, and the scope is as it was unless the answer is `Done`.
pub fn assign_entry(
    alloc: Global,
    engine: &Engine,
    token: Token,
    scope: &mut Scope,
    index: usize,
    value: &Dynamic,
) -> AssignAnswer
    requires { index < length scope.old }
    ensures { (h : Held) → held_at scope.old index ≡ Some h →
        AssignedEntry result (if_fast engine.now.fast_operators
        (assignment engine.now.limits token h.value value.now)) scope.old scope.new index h }
{
    if !engine.fast_operators {
        return AssignAnswer::NotBuiltIn;
    }
    match scope.get_mut(index) {
        Some(held) => assign(alloc, token, &mut held.value, value, &engine.limits),
        None => unreachable!(),
    }
}

// The integer that an op-assignment makes of a target and a value that are integers, if operators
// are fast and it fits. It says nothing of all else, of which `assign` tells.
#[inline(always)]
pub(crate) fn quick_assigned(
    engine: &Engine,
    token: Token,
    target: &Dynamic,
    value: &Dynamic,
) -> Option<i64>
    ensures assigned { IfSome result
        (λ z. if_fast engine.now.fast_operators
        (assignment engine.now.limits token target.now value.now) ≡ Gave (dynamic.Int z)) }
    ensures integers { IfSome result (λ _. AreIntegers target.now value.now) }
{
    if engine.fast_operators {
        grain_ops::quick_assigned(token, target, value)
    } else {
        None
    }
}

// The same of a target and an integer.
#[inline(always)]
pub(crate) fn quick_assigned_with(
    engine: &Engine,
    token: Token,
    target: &Dynamic,
    value: i64,
) -> Option<i64>
    ensures assigned { IfSome result
        (λ z. if_fast engine.now.fast_operators
        (assignment engine.now.limits token target.now (dynamic.Int value))
        ≡ Gave (dynamic.Int z)) }
    ensures integers { IfSome result (λ _. AreIntegers target.now (dynamic.Int value)) }
{
    if engine.fast_operators {
        grain_ops::quick_assigned_with(token, target, value)
    } else {
        None
    }
}
