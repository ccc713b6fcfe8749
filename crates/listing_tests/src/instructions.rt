//! Each instruction: its line, its bytes, and what is read of them.

use grain_listing::read;
use grain_program::{Op, assemble, decode};
use grain_value::Blob;
use std::alloc::Global;
use std::process::Abort;

/// All instructions. The bytes of their operands count from 1 in each.
const LINES: &str = "grain 1\nmain 1\n\
    load_const 513\nunit\nfalse\ntrue\nload_local 513\nstore_local 513\nstore_const 513\n\
    store_shared 513\ndeclare_local 513\ndeclare_const 513\nassign_local 513 1027\n\
    assign_local_op 513 1027 1541\nload_this\nload_this_shared\nrequire_this\nassign_this\n\
    assign_this_op 513\nload_shared 513\nshare 513\nis_shared\npop\nrotate 1\n\
    jump 67305985\njump_if_false 67305985\njump_if_true 67305985\nskip_if_not_unit 67305985\n\
    switch 513\ncall 513 3\ncall_op 513 3 1284\nmake_closure 513\nmake_fn_ptr\ncurry 1\ncall_fn_ptr 1\n\
    call_fn_ptr_method 1\ncall_fn_ptr_on_local 1 770\ncall_fn_ptr_on_this 1\n\
    make_array 513\nmake_map 513\ncheck_array_size 513\ncheck_map_size 513\n\
    interpolate_start\ninterpolate_append\ninterpolate_end\n\
    chain 513\nunwind_to 513\n\
    tick\ncheckpoint\nstatement 513\npush_handler 67305985\npush_handler_var 67305985 1541\n\
    pop_handler\niter_init\niter_drop\niter_next 67305985\n\
    iter_next_indexed 67305985 1541\nthrow\nreturn\nend\n";

/// The bytes of these lines.
const BYTES: &[u8] = b"\x01\x01\x02\x02\x03\x04\x05\x01\x02\x06\x01\x02\x07\x01\x02\
    \x08\x01\x02\x0d\x01\x02\x0e\x01\x02\x10\x01\x02\x03\x04\
    \x11\x01\x02\x03\x04\x05\x06\x12\x13\x14\x15\x16\x01\x02\
    \x17\x01\x02\x18\x01\x02\x1a\x1b\x1c\x01\
    \x1d\x01\x02\x03\x04\x1e\x01\x02\x03\x04\x1f\x01\x02\x03\x04\x20\x01\x02\x03\x04\
    \x21\x01\x02\x22\x01\x02\x03\x23\x01\x02\x03\x04\x05\x27\x01\x02\x28\x29\x01\x2a\x01\
    \x2c\x01\x2d\x01\x02\x03\x2f\x01\x30\x01\x02\x31\x01\x02\
    \x32\x01\x02\x33\x01\x02\x34\x35\x36\x37\x01\x02\
    \x38\x01\x02\
    \x39\x3a\x3b\x01\x02\x3c\x01\x02\x03\x04\x3d\x01\x02\x03\x04\x05\x06\
    \x3e\x3f\x40\x41\x01\x02\x03\x04\x42\x01\x02\x03\x04\x05\x06\x49\x4a";

/// The instructions of these lines, as they are written for a debugger.
const OPS: &str = "\
    LoadConst(513)\nUnit\nFalse\nTrue\nLoadLocal(513)\nStoreLocal(513)\nStoreConst(513)\n\
    StoreShared(513)\nDeclareLocal(513)\nDeclareConst(513)\nAssignLocal(513, 1027)\n\
    AssignLocalOp(513, 1027, 1541)\nLoadThis\nLoadThisShared\nRequireThis\nAssignThis\n\
    AssignThisOp(513)\nLoadShared(513)\nShare(513)\nIsShared\nPop\nRotate(1)\n\
    Jump(67305985)\nJumpIfFalse(67305985)\nJumpIfTrue(67305985)\nSkipIfNotUnit(67305985)\n\
    Switch(513)\nCall(513, 3)\nCallOp(513, 3, 1284)\nMakeClosure(513)\nMakeFnPtr\nCurry(1)\nCallFnPtr(1)\n\
    CallFnPtrMethod(1)\nCallFnPtrOnLocal(1, 770)\nCallFnPtrOnThis(1)\n\
    MakeArray(513)\nMakeMap(513)\nCheckArraySize(513)\nCheckMapSize(513)\nInterpolateStart\n\
    InterpolateAppend\nInterpolateEnd\n\
    Chain(513)\nUnwindTo(513)\nTick\nCheckpoint\nStatement(513)\nPushHandler(67305985)\n\
    PushHandlerVar(67305985, 1541)\nPopHandler\nIterInit\nIterDrop\nIterNext(67305985)\n\
    IterNextIndexed(67305985, 1541)\nThrow\nReturn\n";

/// The instructions of code that has 57 of them and ends after the last.
fn decoded(rt: &impl Abort, alloc: Global, code: &Blob) -> Vec<Op> {
    let mut ops = Vec::new(alloc);
    let mut address = 0usize;
    for _ in 0..57u32 {
        let (op, width) = decode(code, address).expect(rt, "no instruction");
        ops.push(op).expect(rt, "memory");
        address = address.saturating_add(width);
    }
    assert!(rt; decode(code, address).is_none());
    ops
}

/// These instructions as they are written for a debugger, each on a line.
fn written(rt: &impl Abort, alloc: Global, ops: &[Op]) -> String {
    let mut text = String::new(alloc);
    for op in ops {
        write_line(rt, alloc, &mut text, op);
    }
    text
}

fn write_line(rt: &impl Abort, alloc: Global, text: &mut String, op: &Op) {
    let line = format!(in alloc; "{op:?}\n").expect(rt, "memory");
    text.push_str(line.as_str()).expect(rt, "memory");
}

fn check_bytes(rt: &impl Abort, code: &Blob) {
    assert!(rt; code.as_slice() == BYTES);
}

fn check_written(rt: &impl Abort, alloc: Global, ops: &[Op]) {
    let text = written(rt, alloc, ops);
    assert!(rt; text.as_str() == OPS);
}

/// Looks at the code that the lines make.
fn check_code(rt: &impl Abort, alloc: Global, code: &Blob) {
    check_bytes(rt, code);
    let ops = decoded(rt, alloc, code);
    check_written(rt, alloc, ops.as_slice());
    let again = assemble(alloc, ops.as_slice()).expect(rt, "memory");
    check_bytes(rt, &again);
    drop(again);
    drop(ops);
}

#[test]
fn lines_and_bytes_of_instructions(rt: HostRuntime) {
    let answer = read(rt.alloc(), LINES.as_bytes()).expect(&rt, "memory");
    let setup = answer.expect(&rt, "refused");
    check_code(&rt, rt.alloc(), &setup.parts.code);
    drop(setup);
}
