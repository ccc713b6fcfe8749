//! The machine: what a run leaves besides its report.

ghost use Rattle.std.specs.Prelude.{◌≡◌, ◌<◌};
ghost use Rattle.grain_listing.specs.ListingViews.{IsReady};

use grain_fault::RhaiResult;
use grain_global::{Engine, GlobalRuntimeState, Steps};
use grain_listing::{Listing, read};
use grain_program::verify;
use grain_value::{Dynamic, OutOfMemory, Scope, Store};
use grain_vm::Vm;
use std::alloc::Global;
use std::marker::Brand;
use std::process::Abort;
use std::sync::ledger::{Blank, Ledger};

/// What a run left.
#[derive(Drop)]
struct Ended {
    answer: RhaiResult,
    trace_len: usize,
    address: Option<usize>,
    scope: Scope,
    global: GlobalRuntimeState,
}

/// What the run of what a listing says left.
fn end_of<L: Ledger>(rt: &impl Abort, alloc: Global, blank: Blank, setup: Listing) -> Ended
    requires ready { IsReady setup }
    requires name { blank.name ≡ L.name }
    requires parts { blank.parts ≡ L.parts }
    requires enough { 5 < blank.parts }
{
    let Listing {
        parts,
        limits,
        mut host,
        mut scope,
        ..
    } = setup;
    let program = verify(alloc, parts).expect(rt, "no program");
    let engine = Engine::new(alloc, limits);
    let global = engine.new_global_runtime_state(alloc).expect(rt, "memory");
    let mut vm = Vm::with_global_state(alloc, &engine, global);
    let mut cells = Store::new(alloc);
    let mut steps = Steps::<L>::new(blank);
    let answer = vm.eval_with_callbacks(
        alloc, &mut host, &mut cells, &mut scope, &program, &mut steps,
    );
    let trace_len = vm.fault_trace().len();
    let address = vm.fault_pc();
    let global = vm.into_global_state();
    drop(cells);
    drop(program);
    drop(host);
    Ended {
        answer,
        trace_len,
        address,
        scope,
        global,
    }
}

/// What the run of a listing left. Each test lends it to what looks at it, and drops it last.
fn run_of(rt: &impl Abort, alloc: Global, listing: &str) -> Ended {
    let answer = read(alloc, listing.as_bytes()).expect(rt, "memory");
    let setup = answer.expect(rt, "refused");
    end_of::<Brand>(rt, alloc, Blank::new(6), setup)
}

/// The name of the fault with which a run ended, and that of the innermost fault in it.
fn fault_names(ended: &Ended) -> Option<(&'static str, &'static str)> {
    match &ended.answer {
        Ok(_) => None,
        Err(fault) => Some((fault.name(), fault.unwrap_inner().name())),
    }
}

#[test]
fn a_thrown_value_leaves_a_call(rt: HostRuntime) {
    let listing = "grain 1\nconst 7\nname \"f\"\nmain 1\ncall 0 0\nreturn\nend\n\
        fn 0 1\nload_const 0\nthrow\nend\n";
    let ended = run_of(&rt, rt.alloc(), listing);
    let (outer, inner) = fault_names(&ended).expect(&rt, "no fault");
    assert!(rt; outer == "ErrorInFunctionCall");
    assert!(rt; inner == "ErrorRuntime");
    assert!(rt; ended.trace_len == 2);
    assert!(rt; ended.address == Some(8));
    assert!(rt; ended.global.num_operations() == 1);
    assert!(rt; ended.global.level == 0);
    drop(ended);
}

#[test]
fn an_exit_two_calls_deep_cuts_the_scope(rt: HostRuntime) {
    let listing = "grain 1\nscope \"a\" ()\nconst 7\nname \"f\"\nname \"g\"\nname \"exit\"\n\
        main 1\nunit\ndeclare_local 0\ncall 0 0\nreturn\nend\nfn 0 1\ncall 1 0\nreturn\nend\n\
        fn 1 1\nload_const 0\ncall 2 1\npop\nreturn\nend\n";
    let ended = run_of(&rt, rt.alloc(), listing);
    assert!(rt; matches!(&ended.answer, Ok(Dynamic::Int(7))));
    assert!(rt; ended.trace_len == 0);
    assert!(rt; ended.address.is_none());
    assert!(rt; ended.scope.len() == 1);
    assert!(rt; ended.scope.contains("a"));
    assert!(rt; ended.global.num_operations() == 2);
    assert!(rt; ended.global.level == 0);
    drop(ended);
}

/// A listing whose variable becomes an array of itself 1,024 times, and which then reads what stands
/// this many steps inside it.
fn deep_listing(alloc: Global, steps: u32) -> Result<String, OutOfMemory> {
    let mut text = String::from_str(
        alloc,
        "grain 1\nconst [0]\nconst 0\nconst 1024\nconst 1\nname \"v\"\nname \"i\"\nname \"+=\"\nname \"+\"\n\
        name \"<=\"\nop \"+=\"\nop \"+\"\nop \"<=\"\nassign 0 2 1 3\n\
        chain 1 local 0 0 assign\nstep index 0\nchain 1 local 0 0 read\n",
    )?;
    for _ in 0..steps {
        text.push_str("step index 0\n")?;
    }
    text.push_str(
        "main 4\nload_const 0\ndeclare_local 0\nload_const 3\ndeclare_local 1\n\
        top:\nload_local 1\nload_const 2\ncall_op 4 2 2\njump_if_false done\n\
        load_local 0\nload_const 1\nchain 0\npop\nload_const 3\nassign_local_op 1 1 0\njump top\n\
        done:\nload_const 1\nchain 1\nreturn\nend\n",
    )?;
    Ok(text)
}

/// How long the array is with which this run of `deep_listing` ended, or the name of its fault.
fn deep_end(rt: &impl Abort, alloc: Global, steps: u32) -> Result<usize, &'static str> {
    let listing = deep_listing(alloc, steps).expect(rt, "memory");
    let ended = run_of(rt, alloc, listing.as_str());
    let end = match &ended.answer {
        Ok(Dynamic::Array(inner)) => Ok(inner.len()),
        Ok(_) => Err("no array"),
        Err(fault) => Err(fault.name()),
    };
    drop(ended);
    drop(listing);
    end
}

#[test]
fn no_place_is_deeper_than_1024_steps(rt: HostRuntime) {
    assert!(rt; deep_end(&rt, rt.alloc(), 1024) == Ok(1));
    assert!(rt; deep_end(&rt, rt.alloc(), 1025) == Err("Memory"));
}
