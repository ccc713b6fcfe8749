//! Runs the corpus: each listing in `data/corpus`, by the call that the command `run` makes with what
//! it has read, and compares the status and the report with those that are expected. That files are
//! read, and how many differ, no clause says.
#![tactic(auto)]

ghost use Rattle.std.specs.Prelude.{◌≡◌, ◌<◌};

mod cases;
mod outcomes;

use cases::{expected_of, names_below};
use grain_commands::Reply;
use grain_value::OutOfMemory;
use grain_vm::Steps;
use outcomes::{is_as_expected, reply_of};
use std::marker::Brand;
use std::process::ExitCode;
use std::rt::Files;
use std::sync::ledger::{Blank, Ledger};
use std::{fs, io};

/// The folder of the cases.
const CORPUS: &str = "corpus";

/// Into how many shares the counts of instructions and marks can be split.
const SHARES: u64 = 8;

/// The reply to a case.
fn reply_to<R: Files + AllocGlobal, L: Ledger>(
    rt: &R,
    name: &str,
    steps: &mut Steps<L>,
) -> io::Result<Reply> {
    let listing = fs::read(rt, format!(in rt.alloc(); "{name}.grain")?.as_str())?;
    match reply_of(rt.alloc(), listing.as_slice(), steps) {
        Ok(reply) => Ok(reply),
        Err(OutOfMemory) => Err(io::Error::from(io::ErrorKind::OutOfMemory)),
    }
}

/// Prints how a case ended that is not as expected.
fn print_reply<R: Print>(rt: &R, name: &str, reply: &Reply) -> io::Result<()> {
    let status = reply.status;
    let text = reply.text.as_str();
    println!(rt; "{name}: not as expected. Its status is {status}, its report:\n{text}")
}

/// Whether a case ends as expected. If it does not, its name is printed, and how it ended.
fn is_well<R: Files + Print + AllocGlobal, L: Ledger>(
    rt: &R,
    name: &str,
    steps: &mut Steps<L>,
) -> io::Result<bool> {
    let expected = expected_of(rt, name)?;
    let reply = reply_to(rt, name, steps)?;
    if is_as_expected(&reply, &expected) {
        return Ok(true);
    }
    print_reply(rt, name, &reply)?;
    Ok(false)
}

/// Runs all cases. It prints those that do not end as expected, or cannot be run, and how many they
/// are, or that there is none. It gives whether there is none.
fn run_all<R: Files + Print + AllocGlobal + Clone + Drop, L: Ledger>(
    rt: &R,
    blank: Blank,
) -> io::Result<bool>
    requires name { blank.name ≡ L.name }
    requires parts { blank.parts ≡ L.parts }
    requires enough { 5 < blank.parts }
{
    let mut steps = Steps::<L>::new(blank);
    let names = names_below(rt, CORPUS)?;
    let mut failed: usize = 0;
    for name in names.as_slice() {
        let well = match is_well(rt, name.as_str(), &mut steps) {
            Ok(well) => well,
            Err(error) => {
                println!(rt; "{name}: {error}")?;
                false
            }
        };
        if !well {
            failed = failed.saturating_add(1);
        }
    }
    let all = names.len();
    if failed == 0 && all > 0 {
        println!(rt; "all cases are as expected")?;
        return Ok(true);
    }
    println!(rt; "{failed} of {all} cases are not as expected")?;
    Ok(false)
}

fn main(rt: HostRuntime) -> ExitCode {
    match run_all::<HostRuntime, Brand>(&rt, Blank::new(SHARES)) {
        Ok(true) => ExitCode::SUCCESS,
        _ => ExitCode::FAILURE,
    }
}
