//! Runs the shipped examples as a host runs its rules, and compares each report with the one that
//! is expected.
#![tactic(auto)]

ghost use Rattle.std.specs.Prelude.{◌≡◌, ◌<◌, ℕ, List, bytes_eq, IfOk};
ghost use Rattle.grain_host.specs.Tables.{table_law};
ghost use Rattle.run_examples.specs.Prices.{price_law};
ghost use Rattle.run_examples.specs.Budget.{budget_law};
ghost use Rattle.run_examples.specs.Examples.{ReportedOver, shipped_list};
ghost use Rattle.run_examples.specs.Reports.{Reported, printed_by, charged_to, left_of, report};
ghost use Rattle.run_examples.specs.Rules.{engine_of, start};

mod budget;
mod prices;
mod reports;
mod rules;

use budget::Budget;
use grain_value::{OutOfMemory, Text};
use grain_vm::Steps;
use prices::PriceList;
use reports::report;
use rules::{Outcome, Rule, RuleError, load, run};
use std::alloc::Global;
use std::marker::Brand;
use std::process::ExitCode;
use std::rt::Files;
use std::sync::ledger::{Blank, Ledger};
use std::{fs, io};

/// Over which host an example runs.
#[derive(Clone, Copy)]
enum ExampleHost {
    /// The one in memory that its listing says.
    Table,
    /// A price list.
    Prices,
    /// A budget of operations.
    Budget,
}

/// The examples, with their hosts. NAME.grain is the listing, and NAME.out the report that is
/// expected.
const EXAMPLES: [(&str, ExampleHost); 13] = [
    ("sum", ExampleHost::Table),
    ("fibonacci", ExampleHost::Table),
    ("limit", ExampleHost::Table),
    ("fault", ExampleHost::Table),
    ("caught", ExampleHost::Table),
    ("closure", ExampleHost::Table),
    ("account", ExampleHost::Table),
    ("invoice", ExampleHost::Table),
    ("prices", ExampleHost::Prices),
    ("properties", ExampleHost::Prices),
    ("discounts", ExampleHost::Prices),
    ("budget", ExampleHost::Budget),
    ("work", ExampleHost::Budget),
];

/// How many operations the budget of the examples allows.
const ALLOWED_OPERATIONS: u64 = 50;

/// Into how many shares the counts of instructions and marks can be split.
const SHARES: u64 = 8;

/// The report of a rule's run over its own host: what was printed, and the end.
fn report_of<L: Ledger>(
    alloc: Global,
    rule: &mut Rule,
    steps: &mut Steps<L>,
) -> Result<Text, OutOfMemory>
    requires { 0 < rule.old.limits.operations }
    ensures { IfOk result (Reported table_law printed_by rule.old.program
        (engine_of rule.old.limits rule.old.fast_operators rule.old.strict_properties)
        (start rule.old.scope rule.old.host)) }
{
    let outcome = run(
        alloc,
        &rule.program,
        rule.limits,
        rule.fast_operators,
        rule.strict_properties,
        &mut rule.host,
        &mut rule.scope,
        steps,
    )?;
    let text = report(alloc, rule.host.printed(), &outcome);
    drop(outcome);
    text
}

/// What was charged to a price list, on a line.
fn charges(alloc: Global, list: &PriceList) -> Result<Text, OutOfMemory>
    ensures { IfOk result (λ text. text ≡ charged_to list.now) }
{
    let mut text = Text::copy_of(alloc, "charged ")?;
    text.push_integer(list.total())?;
    text.push_str("\n")?;
    Ok(text)
}

/// The report of a run over a price list: what was charged, and the end.
fn charged_report(alloc: Global, list: &PriceList, outcome: &Outcome) -> Result<Text, OutOfMemory>
    ensures { IfOk result (λ text. text
        ≡ report (charged_to list.now) outcome.now.cells outcome.now.result outcome.now.trace.items) }
{
    let said = charges(alloc, list)?;
    report(alloc, &said, outcome)
}

/// The report of a rule's run over a price list.
fn charges_of<L: Ledger>(
    alloc: Global,
    rule: &mut Rule,
    list: &mut PriceList,
    steps: &mut Steps<L>,
) -> Result<Text, OutOfMemory>
    requires { 0 < rule.old.limits.operations }
    ensures { IfOk result (Reported price_law charged_to rule.old.program
        (engine_of rule.old.limits rule.old.fast_operators rule.old.strict_properties)
        (start rule.old.scope list.old)) }
{
    let outcome = run(
        alloc,
        &rule.program,
        rule.limits,
        rule.fast_operators,
        rule.strict_properties,
        list,
        &mut rule.scope,
        steps,
    )?;
    let text = charged_report(alloc, list, &outcome);
    drop(outcome);
    text
}

/// What is left of a budget, on a line.
fn left(alloc: Global, budget: &Budget) -> Result<Text, OutOfMemory>
    ensures { IfOk result (λ text. text ≡ left_of budget.now) }
{
    let mut text = Text::copy_of(alloc, "left ")?;
    text.push_number(budget.left())?;
    text.push_str("\n")?;
    Ok(text)
}

/// The report of a run over a budget: what is left of it, and the end.
fn left_report(alloc: Global, budget: &Budget, outcome: &Outcome) -> Result<Text, OutOfMemory>
    ensures { IfOk result (λ text. text
        ≡ report (left_of budget.now) outcome.now.cells outcome.now.result outcome.now.trace.items) }
{
    let said = left(alloc, budget)?;
    report(alloc, &said, outcome)
}

/// The report of a rule's run over a budget.
fn budget_report<L: Ledger>(
    alloc: Global,
    rule: &mut Rule,
    budget: &mut Budget,
    steps: &mut Steps<L>,
) -> Result<Text, OutOfMemory>
    requires { 0 < rule.old.limits.operations }
    ensures { IfOk result (Reported budget_law left_of rule.old.program
        (engine_of rule.old.limits rule.old.fast_operators rule.old.strict_properties)
        (start rule.old.scope budget.old)) }
{
    let outcome = run(
        alloc,
        &rule.program,
        rule.limits,
        rule.fast_operators,
        rule.strict_properties,
        budget,
        &mut rule.scope,
        steps,
    )?;
    let text = left_report(alloc, budget, &outcome);
    drop(outcome);
    text
}

/// The price list of the examples.
fn price_list(alloc: Global) -> Result<PriceList, OutOfMemory>
    ensures { IfOk result (λ list. list ≡ shipped_list) }
{
    let mut list = PriceList::new(alloc);
    list.add(Text::copy_of(alloc, "pear")?, 120)?;
    list.add(Text::copy_of(alloc, "plum")?, 250)?;
    Ok(list)
}

/// The report of a rule's run over the host of an example.
fn report_over<L: Ledger>(
    alloc: Global,
    rule: &mut Rule,
    host: ExampleHost,
    steps: &mut Steps<L>,
) -> Result<Text, OutOfMemory>
    requires { 0 < rule.old.limits.operations }
    ensures { IfOk result (ReportedOver host rule.old) }
{
    match host {
        ExampleHost::Table => report_of(alloc, rule, steps),
        ExampleHost::Prices => {
            let mut list = price_list(alloc)?;
            charges_of(alloc, rule, &mut list, steps)
        }
        ExampleHost::Budget => {
            let mut budget = Budget::new(ALLOWED_OPERATIONS);
            budget_report(alloc, rule, &mut budget, steps)
        }
    }
}

/// Whether the run of a rule over the host of an example gives this report, byte by byte.
fn gives_report<L: Ledger>(
    alloc: Global,
    rule: &mut Rule,
    host: ExampleHost,
    expected: &[u8],
    steps: &mut Steps<L>,
) -> Result<bool, OutOfMemory>
    requires { 0 < rule.old.limits.operations }
    ensures { IfOk result (λ same. (text : List ℕ) × ReportedOver host rule.old text
        × (same ≡ bytes_eq text expected.now)) }
{
    let report = report_over(alloc, rule, host, steps)?;
    Ok(report.as_str().as_bytes() == expected)
}

/// The rule of an example, or why it is none.
fn rule_of<R: Files + AllocGlobal>(rt: &R, name: &str) -> io::Result<Result<Rule, RuleError>>
    ensures { IfOk result (λ found. IfOk found (λ rule. 0 < rule.limits.operations)) }
{
    let listing = fs::read(rt, format!(in rt.alloc(); "{name}.grain")?.as_str())?;
    Ok(load(rt.alloc(), listing.as_slice()))
}

/// Whether the run of a rule gives the report that is expected of an example.
fn gives_stored_report<R: Files + AllocGlobal, L: Ledger>(
    rt: &R,
    name: &str,
    rule: &mut Rule,
    host: ExampleHost,
    steps: &mut Steps<L>,
) -> io::Result<bool>
    requires { 0 < rule.old.limits.operations }
{
    let expected = fs::read(rt, format!(in rt.alloc(); "{name}.out")?.as_str())?;
    match gives_report(rt.alloc(), rule, host, expected.as_slice(), steps) {
        Ok(same) => Ok(same),
        Err(OutOfMemory) => Err(io::Error::from(io::ErrorKind::OutOfMemory)),
    }
}

/// Whether an example gives the report that is expected. An example that is no rule says why.
fn is_as_expected<R: Files + Print + AllocGlobal, L: Ledger>(
    rt: &R,
    name: &str,
    host: ExampleHost,
    steps: &mut Steps<L>,
) -> io::Result<bool> {
    match rule_of(rt, name)? {
        Ok(mut rule) => {
            let same = gives_stored_report(rt, name, &mut rule, host, steps);
            drop(rule);
            same
        }
        Err(error) => {
            println!(rt; "{name}: {error}")?;
            Ok(false)
        }
    }
}

/// Runs all examples, and says of each whether it is as expected. It gives whether all are.
fn run_all<R: Files + Print + AllocGlobal, L: Ledger>(rt: &R, blank: Blank) -> io::Result<bool>
    requires name { blank.name ≡ L.name }
    requires parts { blank.parts ≡ L.parts }
    requires enough { 6 < blank.parts }
{
    let mut steps = Steps::<L>::new(blank);
    let mut all = true;
    for (name, host) in EXAMPLES {
        if is_as_expected(rt, name, host, &mut steps)? {
            println!(rt; "{name}: as expected")?;
        } else {
            println!(rt; "{name}: not as expected")?;
            all = false;
        }
    }
    Ok(all)
}

fn main(rt: HostRuntime) -> ExitCode {
    match run_all::<HostRuntime, Brand>(&rt, Blank::new(SHARES)) {
        Ok(true) => ExitCode::SUCCESS,
        _ => ExitCode::FAILURE,
    }
}
