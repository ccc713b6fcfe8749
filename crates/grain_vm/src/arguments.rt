//! What a native is given: described, copied, and looked for by.

ghost use Rattle.std.specs.Prelude.{◌≡◌, ◌&&◌, ◌∷◌, [], List, Option, IfOk};
ghost use Rattle.grain_value.specs.View.{tree};
ghost use Rattle.grain_value.specs.declared.values.Held.{Held};
ghost use Rattle.grain_means.specs.Driving.{all_given};
ghost use Rattle.grain_means.specs.Rules.Homes.{Home};
ghost use Rattle.grain_means.specs.Rules.{trees_in};
ghost use Rattle.grain_frame.specs.Natives.{Seeks};
ghost use Rattle.grain_vm.specs.Driving.{DescribesAfter, ReadsAll, lent_from};

use grain_fault::{EvalAltResult, Position};
use grain_frame::{Arguments, Sought};
use grain_host::{Host, not_found};
use grain_value::{Array, Dynamic, Held, OutOfMemory, Store, Text};
use std::alloc::Global;

// The description of a native's arguments that holds the receiver alone, if there is one: its kind,
// and whether it is read-only.
fn begin_arguments(alloc: Global, lent: &Option<Held>) -> Result<Arguments, OutOfMemory>
    ensures { IfOk result (λ a. DescribesAfter lent.now a []) }
{
    let mut arguments = Arguments::new(alloc);
    if let Some(held) = lent {
        arguments.kinds.push(held.value.own_kind())?;
        arguments.read_only = held.read_only;
    }
    Ok(arguments)
}

// The description of the receiver, if there is one, and of the arguments after it, each as it is read.
// Returns None if one of these is a lent cell.
pub(crate) fn read_all(
    alloc: Global,
    cells: &Store,
    lent: &Option<Held>,
    values: &Array,
) -> Result<Option<Arguments>, OutOfMemory>
    ensures { IfOk result (λ o. ReadsAll cells.now lent.now values.now o) }
{
    let begun = begin_arguments(alloc, lent)?;
    read_on(alloc, cells, begun, values)
}

// A description that holds the receiver alone, if there is one, and that of the arguments after it, each
// as it is read. Returns None if one of these is a lent cell.
pub(crate) fn read_on(
    alloc: Global,
    cells: &Store,
    begun: Arguments,
    values: &Array,
) -> Result<Option<Arguments>, OutOfMemory>
    ensures { (x : Option Held) → DescribesAfter x begun [] →
        IfOk result (λ o. ReadsAll cells.now x values.now o) }
{
    let mut arguments = begun;
    'values: for index in 0..values.len() {
        match values.at(index).flat(cells) {
            None => return Ok(None),
            Some(value) => {
                arguments.kinds.push(value.own_kind())?;
                arguments.values.push(value.copy(alloc)?)?;
            }
        }
    }
    Ok(Some(arguments))
}

// A copy of a value, followed by others.
fn with_first(alloc: Global, first: &Dynamic, others: &Array) -> Result<Array, OutOfMemory>
    ensures { IfOk result (λ all. all ≡ tree first.now ∷ others.now) }
{
    let mut all = Array::new(alloc);
    all.push(first.copy(alloc)?)?;
    'others: for index in 0..others.len() {
        all.push(others.at(index).copy(alloc)?)?;
    }
    Ok(all)
}

// Copies of all that a native would be given: of the receiver, if there is one, and of the
// arguments after it.
fn all_values(alloc: Global, lent: &Option<Held>, values: Array) -> Result<Array, OutOfMemory>
    ensures { (args : List Held) → values ≡ trees_in args →
        IfOk result (λ all. all ≡ trees_in (all_given lent.now args)) }
{
    match lent {
        None => Ok(values),
        Some(held) => with_first(alloc, &held.value, &values),
    }
}

// Looks for the host's native of a name, for a receiver, if there is one, and arguments. If there is
// none that may be called, it gives the fault, with this position.
pub(crate) fn seek_lending<H: Host>(
    alloc: Global,
    host: &H,
    name: &Text,
    lent: &Option<Held>,
    arguments: Arguments,
    position: Position,
) -> Result<Sought, OutOfMemory>
    ensures { (args : List Held) (home : Home) → DescribesAfter lent.now arguments args →
        IfOk result (λ s. Seeks H.law host.now name.now (lent_from home lent.now) args position s) }
{
    let Arguments {
        kinds,
        values,
        read_only,
    } = arguments;
    match host.resolve(name.as_str(), &kinds) {
        None => {
            let all = all_values(alloc, lent, values)?;
            Ok(Sought::Fault(not_found(alloc, name, &all, position)?))
        }
        Some(native) => {
            if native.writes && read_only {
                let name = name.copy(alloc)?;
                let fault = EvalAltResult::ErrorNonPureMethodCallOnConstant(name, position);
                Ok(Sought::Fault(fault))
            } else {
                Ok(Sought::Native(native.key, values))
            }
        }
    }
}
