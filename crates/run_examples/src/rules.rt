//! Rules: listings that a host reads, verifies and runs.

ghost use Rattle.std.specs.Prelude.{◌≡◌, ◌<◌, Ok, IfOk, IfErr};
ghost use Rattle.grain_listing.specs.Reading.{reads};
ghost use Rattle.grain_listing.specs.ListingViews.{set_up_of, IsReady};
ghost use Rattle.run_examples.specs.Rules.{capped, engine_of, start, IsRule, IsReason, Ran};

use grain_fault::{Fault, RhaiResult};
use grain_host::{Host, TableHost};
use grain_listing::{BadLine, Listing, read};
use grain_program::{Program, Refusal, verify};
use grain_value::{Limits, OutOfMemory, Scope, Store};
use grain_vm::{Engine, Steps, Vm};
use std::alloc::Global;
use std::fmt;
use std::fmt::{Display, Formatter};
use std::sync::ledger::Ledger;

/// The most operations that the host allows a rule, whatever its listing asks for.
const MOST_OPERATIONS: u64 = 1_000_000;

/// A rule: a program with all that its run begins with.
#[derive(Drop)]
pub struct Rule {
    /// The program, which is verified.
    pub program: Program,
    /// How much its run may take.
    pub limits: Limits,
    /// Whether an operator goes to its built-in before any other function.
    pub fast_operators: bool,
    /// Whether a property that is not there is a fault.
    pub strict_properties: bool,
    /// The host in memory with which its run begins.
    pub host: TableHost,
    /// The scope in which its run begins.
    pub scope: Scope,
}

/// Why there is no rule.
#[derive(Drop)]
pub enum RuleError {
    /// The bytes are no listing: the first line that is wrong, and why.
    NoListing(BadLine),
    /// The listing's program could go wrong where it runs: the first rule that it breaks, and its
    /// address.
    Refused(Refusal),
    /// Memory is out.
    OutOfMemory,
}

impl Display for RuleError {
    fn fmt<W: fmt::Write>(&self, f: &mut Formatter<W>) -> fmt::Result {
        match self {
            RuleError::NoListing(bad) => {
                let line = bad.line;
                let reason = bad.reason.text();
                write!(f, "line {line}: {reason}")
            }
            RuleError::Refused(refusal) => {
                let address = refusal.address();
                write!(f, "refused at {address}: {refusal:?}")
            }
            RuleError::OutOfMemory => f.write_str("memory is out"),
        }
    }
}

impl From<OutOfMemory> for RuleError {
    ghost use Rattle.run_examples.specs.declared.rules.RuleError.TheVariants as errors;

    ghost from_gives = { λ _ e. e ≡ errors.OutOfMemory };

    fn from(_: OutOfMemory) -> RuleError {
        RuleError::OutOfMemory
    }
}

/// How a run ended.
#[derive(Drop)]
pub struct Outcome {
    /// The value, or the fault.
    pub result: RhaiResult,
    /// After a fault, the instruction at which each frame stopped, the innermost first.
    pub trace: Vec<Fault>,
    /// The cells that the run made. A value may be one, or a pointer's value.
    pub cells: Store,
}

/// The limits of a listing, with no more operations than the host allows.
fn capped(limits: Limits) -> Limits
    ensures { result ≡ capped limits }
{
    Limits {
        operations: limits.operations.min(MOST_OPERATIONS),
        ..limits
    }
}

/// Verifies what a listing says.
fn verified(alloc: Global, setup: Listing) -> Result<Rule, RuleError>
    requires { IsReady setup }
    ensures rule { IfOk result (IsRule (Ok (set_up_of setup))) }
    ensures reason { IfErr result (IsReason (Ok (set_up_of setup))) }
    ensures allowed { IfOk result (λ rule. 0 < rule.limits.operations) }
{
    let Listing {
        parts,
        limits,
        fast_operators,
        strict_properties,
        host,
        scope,
    } = setup;
    match verify(alloc, parts) {
        Ok(program) => Ok(Rule {
            program,
            limits: capped(limits),
            fast_operators,
            strict_properties,
            host,
            scope,
        }),
        Err(Refusal::Memory) => Err(RuleError::OutOfMemory),
        Err(refusal) => Err(RuleError::Refused(refusal)),
    }
}

/// The rule that a listing says.
pub fn load(alloc: Global, listing: &[u8]) -> Result<Rule, RuleError>
    ensures rule { IfOk result (IsRule (reads listing.now)) }
    ensures reason { IfErr result (IsReason (reads listing.now)) }
    ensures allowed { IfOk result (λ rule. 0 < rule.limits.operations) }
{
    match read(alloc, listing)? {
        Ok(setup) => verified(alloc, setup),
        Err(bad) => Err(RuleError::NoListing(bad)),
    }
}

/// Runs a program within limits, with operators that are fast or not and properties that are strict
/// or not, over a host and on a scope, which then holds what the run left. At least one operation is allowed.
pub fn run<H: Host, L: Ledger>(
    alloc: Global,
    program: &Program,
    limits: Limits,
    fast_operators: bool,
    strict_properties: bool,
    host: &mut H,
    scope: &mut Scope,
    steps: &mut Steps<L>,
) -> Result<Outcome, OutOfMemory>
    requires { 0 < limits.operations }
    ensures { IfOk result (λ o. Ran H.law program.now (engine_of limits fast_operators
        strict_properties) (start scope.old host.old) scope.new o.cells host.new o.result
        o.trace.items) }
{
    let mut engine = Engine::new(alloc, limits);
    engine.fast_operators = fast_operators;
    engine.strict_properties = strict_properties;
    let mut vm = Vm::new(alloc, &engine)?;
    let mut cells = Store::new(alloc);
    let result = vm.eval_with_callbacks(alloc, host, &mut cells, scope, program, steps);
    let trace = Vec::from_slice(alloc, vm.fault_trace())?;
    Ok(Outcome {
        result,
        trace,
        cells,
    })
}
