//! What `run` does with the bytes of its source, and `self` with those that it makes: it reads a listing,
//! verifies what that says, and runs the program.

ghost use Rattle.std.specs.Prelude.{◌<◌, ◌≤◌, ◌≡◌, ◌≢◌, ◌++◌, [], Ok, IfOk, true, false};
ghost use Rattle.grain_fault.specs.Problems.{problem_of};
ghost use Rattle.grain_fault.specs.declared.faults.EvalAltResult.TheVariants as faults;
ghost use Rattle.grain_global.specs.Engines.{with_callbacks};
ghost use Rattle.grain_vm.specs.Machines.{begin};
ghost use Rattle.grain_listing.specs.Reading.{reads};
ghost use Rattle.grain_listing.specs.ListingViews.{set_up_of, IsReady};
ghost use Rattle.grain_commands.specs.Replies.{Replies};
ghost use Rattle.grain_commands.specs.Reports.{report_fault, told_value};
ghost use Rattle.grain_commands.specs.Runs.{Reported, engine_of, start};
ghost use Rattle.grain_commands.specs.SelfListings.{self_listing};

use crate::replies::{Reply, fault_reply, no_listing, refused, told_reply};
use crate::self_listings::self_listing;
use grain_fault::EvalAltResult;
use grain_host::TableHost;
use grain_listing::{Listing, read};
use grain_program::{Program, verify};
use grain_value::{Dynamic, Limits, OutOfMemory, Scope, Store, Text};
use grain_vm::{Engine, Steps, Vm};
use std::alloc::Global;
use std::sync::ledger::Ledger;

/// The reply to a machine's run that ended in a value. The machine says how many operations there were.
fn value_end(
    alloc: Global,
    told: bool,
    printed: &Text,
    value: Dynamic,
    cells: &Store,
    vm: Vm<'_>,
) -> Result<Reply, OutOfMemory>
    ensures status { IfOk result (λ r. r.status ≡ 0) }
    ensures text { IfOk result (λ r. r.text ≡
        told_value told printed.now cells.now value vm.entry.global.num_operations) }
{
    let operations = vm.into_global_state().num_operations;
    told_reply(alloc, told, printed, &value, cells, operations)
}

/// The reply to a machine's run that ended in a fault. The machine has the trace.
fn fault_end(
    alloc: Global,
    printed: &Text,
    fault: EvalAltResult,
    vm: Vm<'_>,
) -> Result<Reply, OutOfMemory>
    ensures status { IfOk result (λ r. r.status ≡ 1) }
    ensures text { IfOk result (λ r.
        r.text ≡ printed.now ++ report_fault (problem_of fault) vm.entry.trace) }
    ensures memory { IfOk result (λ _. fault ≢ faults.Memory) }
{
    fault_reply(alloc, printed, &fault, vm.fault_trace())
}

/// Runs the program in the machine, on the scope and with the host, and reports the end.
fn run_in<L: Ledger>(
    alloc: Global,
    vm: Vm<'_>,
    program: &Program,
    host: TableHost,
    scope: Scope,
    told: bool,
    steps: &mut Steps<L>,
) -> Result<Reply, OutOfMemory>
    requires { 0 < vm.engine.limits.operations }
    ensures { IfOk result (λ r. Reported told program.now (with_callbacks true vm.entry.engine)
        (begin scope [] host vm.entry.global) r.status r.text) }
{
    let mut vm = vm;
    let mut scope = scope;
    let mut cells = Store::new(alloc);
    let mut host = host;
    match vm.eval_with_callbacks(alloc, &mut host, &mut cells, &mut scope, program, steps) {
        Ok(value) => value_end(alloc, told, host.printed(), value, &cells, vm),
        Err(fault) => fault_end(alloc, host.printed(), fault, vm),
    }
}

/// Runs the program on the scope, with the host, and reports the end. At least one operation is
/// allowed. `told` says whether a value's report tells how many operations there were.
fn run_program<L: Ledger>(
    alloc: Global,
    program: &Program,
    limits: Limits,
    fast_operators: bool,
    strict_properties: bool,
    host: TableHost,
    scope: Scope,
    told: bool,
    steps: &mut Steps<L>,
) -> Result<Reply, OutOfMemory>
    requires { 0 < limits.operations }
    ensures { IfOk result (λ r. Reported told program.now (engine_of limits fast_operators
        strict_properties) (start scope host) r.status r.text) }
{
    let mut engine = Engine::new(alloc, limits);
    engine.fast_operators = fast_operators;
    engine.strict_properties = strict_properties;
    let vm = Vm::new(alloc, &engine)?;
    run_in(alloc, vm, program, host, scope, told, steps)
}

/// The same; it takes the program.
fn run_verified<L: Ledger>(
    alloc: Global,
    program: Program,
    limits: Limits,
    fast_operators: bool,
    strict_properties: bool,
    host: TableHost,
    scope: Scope,
    told: bool,
    steps: &mut Steps<L>,
) -> Result<Reply, OutOfMemory>
    requires { 0 < limits.operations }
    ensures { IfOk result (λ r. Reported told program (engine_of limits fast_operators
        strict_properties) (start scope host) r.status r.text) }
{
    run_program(
        alloc,
        &program,
        limits,
        fast_operators,
        strict_properties,
        host,
        scope,
        told,
        steps,
    )
}

/// Verifies what a listing says and runs it.
fn run_set_up<L: Ledger>(
    alloc: Global,
    setup: Listing,
    told: bool,
    steps: &mut Steps<L>,
) -> Result<Reply, OutOfMemory>
    requires { IsReady setup }
    ensures { IfOk result (λ r. Replies told (Ok (set_up_of setup)) r.status r.text) }
{
    let Listing {
        parts,
        limits,
        fast_operators,
        strict_properties,
        host,
        scope,
    } = setup;
    match verify(alloc, parts) {
        Err(refusal) => refused(alloc, refusal),
        Ok(program) => run_verified(
            alloc,
            program,
            limits,
            fast_operators,
            strict_properties,
            host,
            scope,
            told,
            steps,
        ),
    }
}

/// Reads a listing, verifies what it says and runs it.
fn run_bytes<L: Ledger>(
    alloc: Global,
    bytes: &[u8],
    told: bool,
    steps: &mut Steps<L>,
) -> Result<Reply, OutOfMemory>
    ensures { IfOk result (λ r. Replies told (reads bytes.now) r.status r.text) }
{
    match read(alloc, bytes)? {
        Err(bad) => no_listing(alloc, bad),
        Ok(setup) => run_set_up(alloc, setup, told, steps),
    }
}

/// Reads a listing, verifies what it says and runs it. The reply's status is 3 if the bytes are no
/// listing, 4 if its parts are refused, 0 if the run ends in a value and 1 if in a fault. The error
/// is want of memory, wherever on the way it comes.
pub fn run_listing<L: Ledger>(
    alloc: Global,
    bytes: &[u8],
    steps: &mut Steps<L>,
) -> Result<Reply, OutOfMemory>
    ensures { IfOk result (λ r. Replies false (reads bytes.now) r.status r.text) }
{
    run_bytes(alloc, bytes, false, steps)
}

/// The same with the listing of that many functions. Of a value it tells how many operations there were.
pub fn run_self<L: Ledger>(
    alloc: Global,
    count: u64,
    steps: &mut Steps<L>,
) -> Result<Reply, OutOfMemory>
    requires small { count ≤ 10000 }
    ensures { IfOk result (λ r. Replies true (reads (self_listing count)) r.status r.text) }
{
    let listing = self_listing(alloc, count)?;
    run_bytes(alloc, listing.as_str().as_bytes(), true, steps)
}
