//! Programs: code and chunks that no listing has, and which function a name finds.

ghost use Rattle.grain_program.specs.View.{view_of};
ghost use Rattle.grain_program.specs.Recorded.{HasOrder};
ghost use Rattle.grain_listing.specs.ListingViews.{IsReady};

use grain_listing::{Listing, read};
use grain_program::{
    AssignOps, Caps, Chains, Chunk, Function, Functions, Indices, Names, Parts, Positions, Program,
    Refusal, Switches, Tokens, verify,
};
use grain_value::{Array, Blob, Name, Text};
use std::alloc::Global;
use std::process::Abort;

const fn chunk(entry: u32, end: u32) -> Chunk {
    Chunk {
        entry,
        end,
        max_stack: 0,
    }
}

/// One name.
fn names_of(rt: &impl Abort, alloc: Global) -> Names {
    let text = Text::copy_of(alloc, "f").expect(rt, "memory");
    let name = Name::new(alloc, text).expect(rt, "memory");
    let mut names = Names::new(alloc);
    names.push(name).expect(rt, "memory");
    names
}

/// One function, which lies here.
fn functions_of(rt: &impl Abort, alloc: Global, chunk: Chunk) -> Functions {
    let function = Function {
        name: 0,
        params: Indices::new(alloc),
        this_type: None,
        chunk,
    };
    let mut functions = Functions::new(alloc);
    functions.push(function).expect(rt, "memory");
    functions
}

/// Parts of `returns` return instructions: main has those before `main_end`, and one function the others.
fn parts_of(rt: &impl Abort, alloc: Global, returns: usize, main_end: u32, function: Chunk) -> Parts
    ensures { HasOrder (view_of result) }
{
    let code = vec![in alloc; 0x4au8; returns].expect(rt, "memory");
    Parts {
        caps: Caps::all(),
        code: Blob::from_vec(code),
        main: chunk(0, main_end),
        functions: functions_of(rt, alloc, function),
        consts: Array::new(alloc),
        names: names_of(rt, alloc),
        tokens: Tokens::new(alloc),
        assign_ops: AssignOps::new(alloc),
        chains: Chains::new(alloc),
        switches: Switches::new(alloc),
        positions: Positions::new(alloc),
        source: None,
    }
}

/// Why these are no program, if they are not.
fn refusal_of(
    rt: &impl Abort,
    alloc: Global,
    returns: usize,
    main_end: u32,
    function: Chunk,
) -> Option<Refusal> {
    let parts = parts_of(rt, alloc, returns, main_end, function);
    verify(alloc, parts).err()
}

#[test]
fn misplaced_chunks(rt: HostRuntime) {
    // how many returns there are, where main ends, where the function lies, and what is reported
    let rows = [
        (3, 1, 2, 3, 2),
        (3, 1, 1, 2, 2),
        (3, 1, 1, 0, 1),
        (3, 2, 1, 3, 1),
        (3, 1, 1, 4, 1),
        (0, 1, 1, 1, 0),
        (16_777_217, 1, 1, 16_777_217, 16_777_216),
    ];
    for (returns, main_end, entry, end, address) in &rows {
        let refusal = refusal_of(&rt, rt.alloc(), *returns, *main_end, chunk(*entry, *end));
        assert!(rt;
            refusal == Some(Refusal::Undecodable(*address)),
            "{returns} {entry} {end}"
        );
    }
    assert!(rt; refusal_of(&rt, rt.alloc(), 3, 1, chunk(1, 3)).is_none());
}

/// The program of what a listing says.
fn verified(rt: &impl Abort, alloc: Global, setup: Listing) -> Program
    requires { IsReady setup }
{
    let Listing {
        parts,
        host,
        scope,
        ..
    } = setup;
    drop(host);
    drop(scope);
    verify(alloc, parts).expect(rt, "no program")
}

/// The program of a listing.
fn program_of(rt: &impl Abort, alloc: Global, listing: &str) -> Program {
    let answer = read(alloc, listing.as_bytes()).expect(rt, "memory");
    let setup = answer.expect(rt, "refused");
    verified(rt, alloc, setup)
}

/// Four functions `f`. The name of the last one has another index.
const LOOKUPS: &str = "\
    grain 1\nname \"f\"\nname \"x\"\nname \"f\"\nmain 0\nreturn\nend\n\
    fn 0 0 1\nreturn\nend\nfn 0 0\nreturn\nend\nfn 0 0\nreturn\nend\nfn 2 0 1 1\nreturn\nend\n";

/// Looks up the functions of `LOOKUPS` by the numbers of their names.
fn check_by_number(rt: &impl Abort, program: &Program) {
    let rows = [
        (0, 1, Some(0)),
        (0, 0, Some(1)),
        (0, 2, None),
        (1, 0, None),
        (2, 2, Some(3)),
    ];
    for (name, count, found) in &rows {
        assert!(rt; program.function(*name, *count) == *found, "{name} {count}");
    }
}

/// Looks up the functions of `LOOKUPS` by the texts of their names.
fn check_by_text(rt: &impl Abort, program: &Program) {
    let rows = [
        ("f", 0, Some(1), Some(0)),
        ("f", 1, Some(0), Some(0)),
        ("f", 2, Some(3), Some(2)),
        ("f", 3, None, None),
        ("x", 0, None, None),
        ("", 0, None, None),
    ];
    for (name, count, found, index) in &rows {
        assert!(rt;
            program.function_named(name, *count) == *found,
            "{name} {count}"
        );
        assert!(rt;
            program.function_name_index(name, *count) == *index,
            "{name} {count}"
        );
    }
}

#[test]
fn lookups(rt: HostRuntime) {
    let program = program_of(&rt, rt.alloc(), LOOKUPS);
    assert!(rt; program.functions().len() == 4);
    check_by_number(&rt, &program);
    check_by_text(&rt, &program);
    drop(program);
}

/// Functions that are methods of kinds, and one that is none.
const METHODS: &str = "\
    grain 1\nname \"f\"\nname \"map\"\nname \"array\"\nname \"map\"\nmain 0\nreturn\n\
    end\nfn 0 0 on 2\nreturn\nend\nfn 0 0\nreturn\nend\nfn 0 0 on 1\nreturn\nend\n\
    fn 0 0 on 3\nreturn\nend\nfn 0 0 1 on 3\nreturn\nend\nfn 3 0 on 2\nreturn\nend\n";

/// Looks up the functions of `METHODS`.
fn check_methods(rt: &impl Abort, program: &Program) {
    let rows = [
        (0, 0, "array", Some(0)),
        (0, 0, "map", Some(2)),
        (0, 0, "i64", Some(1)),
        (0, 1, "map", Some(4)),
        (0, 1, "array", None),
        (3, 0, "array", Some(5)),
        (3, 0, "map", None),
    ];
    for (name, count, kind, found) in &rows {
        assert!(rt;
            program.method(*name, *count, kind) == *found,
            "{name} {count} {kind}"
        );
    }
    assert!(rt; program.function(0, 0) == Some(1));
    assert!(rt; program.function(0, 1).is_none());
    assert!(rt; program.function_named("map", 0).is_none());
}

#[test]
fn methods(rt: HostRuntime) {
    let program = program_of(&rt, rt.alloc(), METHODS);
    assert!(rt; program.functions().len() == 6);
    check_methods(&rt, &program);
    drop(program);
}
