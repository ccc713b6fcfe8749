//! Listings: large ones, words of later versions, and what is read that no report shows.

use bitflags::Flags;
use grain_host::{Host, ProgressAnswer, TableHost};
use grain_listing::{BadLine, Listing, MOST_BYTES, read};
use grain_program::Parts;
use grain_value::{Dynamic, Limits, OutOfMemory, Scope};
use std::alloc::Global;
use std::process::Abort;

/// The line that makes these bytes no listing, if one does, and why.
fn refusal_of(rt: &impl Abort, alloc: Global, listing: &[u8]) -> Option<BadLine> {
    read(alloc, listing).expect(rt, "memory").err()
}

/// Compares the line and the reason of the refusal of these bytes.
fn check_refused(rt: &impl Abort, alloc: Global, listing: &[u8], line: usize, reason: &str) {
    match refusal_of(rt, alloc, listing) {
        Some(bad) => {
            assert!(rt; bad.line == line, "not line {line}");
            assert!(rt; bad.reason.text() == reason, "not {reason}");
        }
        None => assert!(rt; false, "no refusal: {reason}"),
    }
}

/// What is read of a listing that is accepted. Each test lends it to what looks at it, and drops it last.
fn accepted(rt: &impl Abort, alloc: Global, listing: &str) -> Listing {
    let answer = read(alloc, listing.as_bytes()).expect(rt, "memory");
    answer.expect(rt, "refused")
}

/// A text with a part that stands many times.
fn repeated(
    alloc: Global,
    first: &str,
    part: &str,
    count: u32,
    last: &str,
) -> Result<String, OutOfMemory> {
    let mut text = String::from_str(alloc, first)?;
    for _ in 0..count {
        text.push_str(part)?;
    }
    text.push_str(last)?;
    Ok(text)
}

#[test]
fn most_bytes(rt: HostRuntime) {
    assert!(rt; MOST_BYTES == 16_777_216);
    let bytes = vec![in rt.alloc(); 0xffu8; 16_777_217].expect(&rt, "memory");
    check_refused(&rt, rt.alloc(), bytes.as_slice(), 0, "too long");
    let (most, _) = bytes.as_slice().split_at(16_777_216);
    check_refused(&rt, rt.alloc(), most, 1, "not UTF-8");
}

/// Rows of a text's front, the part that stands many times, how often, and what follows; then the
/// line and the reason that are reported.
type Row = (
    &'static str,
    &'static str,
    u32,
    &'static str,
    usize,
    &'static str,
);

/// Compares what is reported of each row.
fn check_rows(rt: &impl Abort, alloc: Global, rows: &[Row]) {
    for (first, part, count, last, line, reason) in rows {
        let listing = repeated(alloc, first, part, *count, last).expect(rt, "memory");
        check_refused(rt, alloc, listing.as_str().as_bytes(), *line, reason);
    }
}

const FULL_POOLS: [Row; 5] = [
    (
        "grain 1\n",
        "const 1\n",
        65_536,
        "name \"\"\nconst bad",
        65_539,
        "too many",
    ),
    (
        "grain 1\n",
        "name \"\"\n",
        65_536,
        "name x",
        65_538,
        "too many",
    ),
    (
        "grain 1\n",
        "op \"!\"\n",
        65_536,
        "op x",
        65_538,
        "too many",
    ),
    (
        "grain 1\n",
        "assign 0 0 0 0\n",
        65_536,
        "assign",
        65_538,
        "too many",
    ),
    (
        "grain 1\nmain 1\nend\n",
        "fn 0 1\nend\n",
        65_536,
        "fn x",
        131_076,
        "too many",
    ),
];

#[test]
fn full_pools(rt: HostRuntime) {
    check_rows(&rt, rt.alloc(), &FULL_POOLS);
}

const FULL_CHAINS: [Row; 2] = [
    (
        "grain 1\n",
        "chain 0 temporary read\n",
        65_536,
        "chain x",
        65_538,
        "too many",
    ),
    (
        "grain 1\nchain 0 temporary read\n",
        "step property 0 0 0\n",
        65_536,
        "step x",
        65_539,
        "too many",
    ),
];

#[test]
fn full_chains(rt: HostRuntime) {
    check_rows(&rt, rt.alloc(), &FULL_CHAINS);
}

const LONG_LINES: [Row; 10] = [
    (
        "grain 1\nmain 1\nend\nfn 0 1",
        " 7",
        65_536,
        " x",
        4,
        "too many",
    ),
    (
        "grain 1\nmain 1\nend\nfn 0 1",
        " 7",
        65_536,
        " \"",
        4,
        "too many",
    ),
    (
        "grain 1\nmain 1\nend\nfn x 1",
        " 0",
        65_537,
        "\n",
        4,
        "too many",
    ),
    (
        "grain 1\nmain 1\nend\nfn 0 1",
        " 7",
        65_536,
        " on 0",
        4,
        "unfinished chunk",
    ),
    (
        "grain 1\nmain 1\nend\nfn 0 1",
        " 7",
        65_536,
        " ; 7\n",
        4,
        "unfinished chunk",
    ),
    (
        "grain 1\nmain 1\nend\nfn 0 1",
        " 7",
        65_535,
        " \"a b c\"",
        4,
        "bad operand",
    ),
    (
        "grain 1\nmain 1\nend\nfn 0 1",
        " 7",
        65_535,
        " 'a' 7 7",
        4,
        "bad operand",
    ),
    ("grain 1\nconst 1", " 1", 1_000_000, "\n", 2, "bad operand"),
    (
        "grain 1\nassign 0 0 0",
        " 1",
        1_000_000,
        "\n",
        2,
        "bad operand",
    ),
    (
        "grain 1\ncaps function",
        " 1",
        1_000_000,
        "\n",
        2,
        "bad operand",
    ),
];

#[test]
fn long_lines(rt: HostRuntime) {
    check_rows(&rt, rt.alloc(), &LONG_LINES);
}

/// Lines of later versions of the format, up to the word that decides.
const LATER_LINES: &str = "\
    site\ninput\nfragment\nmodule\nitem\nvar\n\
    answer\nforbid\nchunk 1\nlimit modules 1\nflag shadowing off\n\
    load_named\nload_shared_named\nassign_named\nassign_named_op\ndeclare_global_const\n\
    share_named\n\
    call_local_ref\ncall_named_ref\ncall_this_ref\ncall_fn_ptr_capture\n\
    call_fn_ptr_on_named\n\
    export_local\nexport_named\nimport\ncustom_syntax\neval_ast\neval_ast_keep\n";

#[test]
fn lines_of_later_versions(rt: HostRuntime) {
    for line in LATER_LINES.lines() {
        let listing = repeated(rt.alloc(), "grain 1\n", line, 1, "\nmain 1\nend\n").expect(
            &rt, "memory",
        );
        check_refused(&rt, rt.alloc(), listing.as_str().as_bytes(), 2, "not built");
    }
    let rows = [
        ("grain 1\nmain 1\nchunk 1\n", 3),
        ("grain 1\nmain 1\nreturn\nend\ncall_named_ref\n", 5),
    ];
    for (listing, line) in &rows {
        check_refused(&rt, rt.alloc(), listing.as_bytes(), *line, "not built");
    }
}

/// The capabilities of a listing, as bits.
fn capability_bits(rt: &impl Abort, alloc: Global, listing: &str) -> u8 {
    let setup = accepted(rt, alloc, listing);
    let bits = setup.parts.caps.bits();
    drop(setup);
    bits
}

#[test]
fn capabilities(rt: HostRuntime) {
    let rows = [
        ("grain 1\nmain 1\nend\n", 31),
        ("grain 1\ncaps ; none\nmain 1\nend\n", 0),
        ("grain 1\ncaps function\nmain 1\nend\n", 1),
        ("grain 1\ncaps module closure fragment\nmain 1\nend\n", 22),
        ("grain 1\ncaps custom\nmain 1\nend\n", 8),
    ];
    for (listing, bits) in &rows {
        let found = capability_bits(&rt, rt.alloc(), listing);
        assert!(rt; found == *bits, "{found} and not {bits}: {listing}");
    }
}

/// Looks at what a listing has that says nothing of it.
fn check_without_lines(rt: &impl Abort, setup: &Listing) {
    let limits = Limits {
        operations: 1_000_000,
        levels: 64,
        variables: 10_000,
        modules: 1_000,
        text: 0,
        array: 0,
        map: 0,
    };
    assert!(rt; setup.limits == limits);
    assert!(rt; setup.fast_operators);
    assert!(rt; !setup.strict_properties);
    assert!(rt; setup.parts.source.is_none());
}

#[test]
fn limits_without_lines(rt: HostRuntime) {
    let setup = accepted(&rt, rt.alloc(), "grain 1\nmain 1\nend\n");
    check_without_lines(&rt, &setup);
    drop(setup);
}

const ENTRIES: &str = "\
    grain 1\nscope \"x\" 5\nlimit levels 0\nscope const \"const\" true\nstop 2 \"s\"\n\
    limit variables 18446744073709551615\nstop 3 8\nstop 3 9\nmain 65535\n\
    load_const 7 @1:0\nbyte 27 @65535:65535\nbyte 2\nreturn @2:5\nend\n";

/// Looks at the entries that the lines of `ENTRIES` make.
fn check_scope(rt: &impl Abort, scope: &Scope) {
    assert!(rt; scope.len() == 2);
    assert!(rt; scope.search("x") == Some(0));
    let first = scope.get(0).expect(rt, "an entry");
    assert!(rt; !first.read_only);
    let second = scope.get(1).expect(rt, "an entry");
    assert!(rt; second.read_only);
    assert!(rt; matches!(&second.value, Dynamic::Bool(true)));
}

/// Looks at the positions that the lines of `ENTRIES` make.
fn check_positions(rt: &impl Abort, parts: &Parts) {
    assert!(rt; parts.main.max_stack == 65_535);
    assert!(rt; parts.positions.len() == 3);
    let second = parts.positions.get(1).expect(rt, "a position");
    assert!(rt; second.address == 3);
}

/// Asks the host that the lines of `ENTRIES` make whether a run goes on.
fn check_stops(rt: &impl Abort, alloc: Global, host: &mut TableHost) {
    let answer = host.progress(alloc, 1);
    let goes_on = matches!(&answer, ProgressAnswer::GoOn);
    drop(answer);
    assert!(rt; goes_on);
    let answer = host.progress(alloc, 3);
    let stops = matches!(&answer, ProgressAnswer::Stop(Dynamic::Int(8)));
    drop(answer);
    assert!(rt; stops);
}

#[test]
fn entries_positions_and_stops(rt: HostRuntime) {
    let alloc = rt.alloc();
    let mut setup = accepted(&rt, alloc, ENTRIES);
    assert!(rt; setup.limits.levels == 0);
    assert!(rt; setup.limits.variables == usize::MAX);
    check_scope(&rt, &setup.scope);
    check_positions(&rt, &setup.parts);
    check_stops(&rt, alloc, &mut setup.host);
    drop(setup);
}
