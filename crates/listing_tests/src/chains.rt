//! Chains: their lines, and the rules of the instruction that walks along one.

use bitflags::Flags;
use grain_fault::Position;
use grain_listing::{Listing, read};
use grain_program::{Chain, Chains, Root, Step, StepFlags, Tail};
use std::alloc::Global;
use std::process::Abort;

/// What is read of a listing with these lines before its main block. Each test lends it to what looks at
/// it, and drops it last.
fn listing_with(rt: &impl Abort, alloc: Global, lines: &str, code: &str) -> Listing {
    let text = format!(in alloc; "grain 1\n{lines}main 9\n{code}end\n").expect(rt, "memory");
    let answer = read(alloc, text.as_str().as_bytes()).expect(rt, "memory");
    answer.expect(rt, "refused")
}

/// The reason for which the last of these lines is refused, which has this number.
fn reason_of(rt: &impl Abort, alloc: Global, lines: &str, line: usize) -> &'static str {
    let text = format!(in alloc; "grain 1\n{lines}\n").expect(rt, "memory");
    let answer = read(alloc, text.as_str().as_bytes()).expect(rt, "memory");
    let refusal = answer.err();
    drop(text);
    match refusal {
        Some(bad) => {
            assert!(rt; bad.line == line, "{lines}");
            bad.reason.text()
        }
        None => "none",
    }
}

const BAD_OPERANDS: &str = "\
    chain\nchain x temporary read\nchain 0\nchain 4294967296 temporary read\nchain 0 local\n\
    chain 0 local 0 65536 read\nchain 0 local x 0 read\nchain 0 nowhere read\nchain 0 temporary\n\
    chain 0 temporary write\nchain 0 temporary read 0\nchain 0 temporary assign x\n\
    chain 0 local 0 0 assign 0 0\nchain x named 0 read\nchain 0 this\nchain 0 this 0 read\n\
    chain 0 this write\nchain 0 this @0:1 read\nchain 0 this @1:1 @1:2 read\nflag strict off\n";

const NOT_BUILT: &str = "chain 0 named\nchain 7 named x y z\n";

const BAD_STEPS: &str = "\
    step\nstep slice 0\nstep index\nstep index x\nstep index 0 ? ?\nstep index 0 @0:1\n\
    step index 0 @1:1 @2:2 @3:3\nstep index 0 @1:1 ?\nstep property 0 0\nstep property 0 0 0 0\n\
    step property 0 0 0 @1:1 @1:2\nstep property 0 0 0 ? 1\nstep method\nstep method x\n\
    step method 0 0\nstep method 0 256 0\nstep method 0 0 0 0\nstep method 0 0 0 @1:1 @1:2\n";

/// Compares the reason for which each of these lines is refused that stand after others.
fn check_lines(
    rt: &impl Abort,
    alloc: Global,
    before: &str,
    lines: &str,
    line: usize,
    reason: &str,
) {
    for last in lines.lines() {
        let both = format!(in alloc; "{before}{last}").expect(rt, "memory");
        let found = reason_of(rt, alloc, both.as_str(), line);
        drop(both);
        assert!(rt; found == reason, "{last}: {found}");
    }
}

#[test]
fn lines_that_are_refused(rt: HostRuntime) {
    let open = "chain 1 temporary read\n";
    check_lines(&rt, rt.alloc(), "", BAD_OPERANDS, 2, "bad operand");
    check_lines(&rt, rt.alloc(), "", NOT_BUILT, 2, "not built");
    check_lines(&rt, rt.alloc(), open, BAD_STEPS, 3, "bad operand");
}

#[test]
fn steps_stand_after_their_chain(rt: HostRuntime) {
    let rows = [
        ("step index 0", 2),
        ("step method", 2),
        ("chain 1 temporary read\nname \"x\"\nstep index 0", 4),
        (
            "chain 1 temporary read\nstep index 0\nlimit levels 1\nstep x",
            5,
        ),
        ("chain 1 temporary read\nmain 1\nstep index 0", 4),
        ("main 1\nend\nchain 0 temporary read", 4),
    ];
    for (lines, line) in &rows {
        let reason = reason_of(&rt, rt.alloc(), lines, *line);
        assert!(rt; reason == "out of place", "{lines}: {reason}");
    }
}

#[test]
fn steps_stand_after_lines_that_say_nothing(rt: HostRuntime) {
    let spaced = "chain 1 temporary read\n\n ; a comment\nstep index 0\n\t\nstep index 0\n";
    let setup = listing_with(&rt, rt.alloc(), spaced, "");
    let chain = setup.parts.chains.get(0).expect(&rt, "a chain");
    assert!(rt; chain.steps.len() == 2);
    drop(setup);
}

/// Chains with all that their lines can say.
const CHAINS: &str = "\
    flag strict on\n\
    chain 3 local 4294967295 65535 assign 7\nstep index 2 ? @1:2 @3:4\nstep index 1 @5:0\n\
    step property 1 2 3 ? @6:7\nstep property 4 5 6\nchain 0 temporary read\n\
    chain 0 local 1 2 assign\nstep index 0\n";

/// Looks at the first chain of `CHAINS`.
fn check_first(rt: &impl Abort, chain: &Chain) {
    let root = Root::Local {
        name: u32::MAX,
        slot: u16::MAX,
    };
    assert!(rt; chain.root == root && chain.tail == Tail::Assign { op: Some(7) });
    assert!(rt; chain.operands == 3 && chain.steps.len() == 4);
    let index = Step::Index {
        operand: 2,
        flags: StepFlags::SKIP_IF_UNIT,
        pos: Position::new(1, 2),
        bracket: Position::new(3, 4),
    };
    assert!(rt; chain.steps.get(0) == Some(&index));
    let property = Step::Property {
        name: 4,
        getter: 5,
        setter: 6,
        flags: StepFlags::empty(),
        pos: Position::NONE,
    };
    assert!(rt; chain.steps.get(3) == Some(&property));
}

/// Looks at the chains of `CHAINS`.
fn check_chains(rt: &impl Abort, chains: &Chains) {
    assert!(rt; chains.len() == 3);
    check_first(rt, chains.get(0).expect(rt, "a chain"));
    let second = chains.get(1).expect(rt, "a chain");
    assert!(rt; second.root == Root::Temporary && second.tail == Tail::Read);
    assert!(rt; second.steps.is_empty());
    let third = chains.get(2).expect(rt, "a chain");
    assert!(rt; third.tail == Tail::Assign { op: None } && third.steps.len() == 1);
}

#[test]
fn chains_of_a_listing(rt: HostRuntime) {
    let setup = listing_with(&rt, rt.alloc(), CHAINS, "chain 2\n");
    assert!(rt; setup.strict_properties);
    check_chains(&rt, &setup.parts.chains);
    drop(setup);
}

/// Looks at a chain from `this` whose first step is a method.
fn check_method(rt: &impl Abort, chain: &Chain) {
    let pos = Position::new(7, 0);
    assert!(rt; chain.root == Root::This { pos } && chain.steps.len() == 2);
    let method = Step::Method {
        name: u32::MAX,
        argc: 255,
        operand: 1,
        flags: StepFlags::SKIP_IF_UNIT,
        pos: Position::new(1, 2),
    };
    assert!(rt; chain.steps.get(0) == Some(&method));
}

#[test]
fn methods_of_a_listing(rt: HostRuntime) {
    let lines = "chain 3 this @7:0 read\nstep method 4294967295 255 1 ? @1:2\nstep method 0 0 0\n";
    let setup = listing_with(&rt, rt.alloc(), lines, "");
    check_method(&rt, setup.parts.chains.get(0).expect(&rt, "a chain"));
    drop(setup);
}

/// Writes to one of the chains of `CHAINS`, which has the number 1, and reads it.
fn check_written(rt: &impl Abort, chains: &mut Chains) {
    chains.get_mut(1).expect(rt, "a chain").operands = 9;
    assert!(rt; chains.get_mut(3).is_none());
    let chain = chains.get(1).expect(rt, "a chain");
    assert!(rt; chain.operands == 9 && chain.root == Root::Temporary);
}

#[test]
fn a_chain_is_lent_to_be_written(rt: HostRuntime) {
    let mut setup = listing_with(&rt, rt.alloc(), CHAINS, "");
    check_written(&rt, &mut setup.parts.chains);
    drop(setup);
}
