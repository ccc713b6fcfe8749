//! The natives of the host in memory.

ghost use Rattle.std.specs.Prelude.{◌≡◌, ◌++◌, [], Some, IfOk, is_ok, is_some, if◌then◌else◌, codes, map, option_copied, ◌∷◌, ◌<◌, ◌^◌, IfSome};
ghost use Rattle.std.specs.Fmt.{decimal};
ghost use Rattle.grain_value.specs.View.{tree, value_of};
ghost use Rattle.grain_host.specs.Answers.{reply_of};
ghost use Rattle.grain_host.specs.Registers.{asked, left_by};
ghost use Rattle.grain_host.specs.Refusals.{failure, refused, unknown};
ghost use Rattle.grain_host.specs.Tables.{arguments, sole, first_of_two, print_reply, line_of, push_reply, pushed, pushed_receiver, len_reply, entries_in, exit_reply, register_reply, native_reply, printed_by, received, registers_after, key_of, for_one, for_array, for_map, for_entries, has_entries};

use crate::callbacks;
use crate::host_answers::{Args, HostAnswer};
use crate::host_faults::HostFault;
use crate::register_natives::{self, asked};
use crate::registers::Registers;
use grain_fault::{EvalAltResult, Position};
use grain_value::{Array, Dynamic, OutOfMemory, Text};
use std::alloc::Global;

/// The key of `print`.
pub(crate) const PRINT: u64 = 1;
/// The key of `push`.
pub(crate) const PUSH: u64 = 2;
/// The key of `len`.
pub(crate) const LEN: u64 = 3;
/// The key of `exit`.
pub(crate) const EXIT: u64 = 5;

// The kinds of values of which a native asks.
const TEXT: u32 = 4;

const ARRAY: u32 = 5;

const BLOB: u32 = 6;

const MAP: u32 = 7;

const POINTER: u32 = 8;

/// The key of the native of this name for arguments of these kinds.
pub(crate) fn key_of(name: &str, kinds: &[u32]) -> Option<u64>
    ensures { result ≡ key_of name.now kinds.now }
{
    match name {
        "print" => for_one(PRINT, kinds),
        "push" => for_array(PUSH, kinds),
        "len" => for_entries(LEN, kinds),
        "map" => for_map(callbacks::MAP, kinds),
        "exit" => for_one(EXIT, kinds),
        _ => register_natives::key_of(name, kinds),
    }
}

// The key, if there is one argument.
fn for_one(key: u64, kinds: &[u32]) -> Option<u64>
    ensures { result ≡ for_one key kinds.now }
{
    match kinds {
        [_] => Some(key),
        _ => None,
    }
}

// The key, if there are two arguments, the first an array.
fn for_array(key: u64, kinds: &[u32]) -> Option<u64>
    ensures { result ≡ for_array key kinds.now }
{
    match kinds {
        [first, _] if *first == ARRAY => Some(key),
        _ => None,
    }
}

// The key, if there are two arguments, an array and a pointer.
fn for_map(key: u64, kinds: &[u32]) -> Option<u64>
    ensures { result ≡ for_map key kinds.now }
{
    match kinds {
        [ARRAY, POINTER] => Some(key),
        _ => None,
    }
}

// The key, if there is one argument, which has entries.
fn for_entries(key: u64, kinds: &[u32]) -> Option<u64>
    ensures { result ≡ for_entries key kinds.now }
{
    match kinds {
        [kind] if has_entries(*kind) => Some(key),
        _ => None,
    }
}

// Whether values of the kind have entries.
fn has_entries(kind: u32) -> bool
    ensures { result ≡ has_entries kind }
{
    kind == TEXT || kind == ARRAY || kind == BLOB || kind == MAP
}

/// A failure of the host's own, for this reason.
#[cold]
#[inline(never)]
pub(crate) fn refused(alloc: Global, reason: &str) -> HostAnswer
    ensures { IfSome (reply_of result) (λ reply. reply ≡ refused reason.now) }
{
    match Text::copy_of(alloc, reason) {
        Ok(reason) => {
            let fault = EvalAltResult::ErrorSystem(Text::new(alloc), reason);
            HostAnswer::Failed(HostFault::passing(fault))
        }
        Err(OutOfMemory) => HostAnswer::Memory,
    }
}

/// The call of this number fails.
#[cold]
#[inline(never)]
pub(crate) fn failure(alloc: Global, number: u64) -> HostAnswer
    ensures { IfSome (reply_of result) (λ reply. reply ≡ failure number) }
{
    match failure_text(alloc, number) {
        Ok(text) => {
            let fault = EvalAltResult::ErrorRuntime(Dynamic::Text(text), Position::NONE);
            HostAnswer::Failed(HostFault::passing(fault))
        }
        Err(OutOfMemory) => HostAnswer::Memory,
    }
}

// What is thrown where the call of this number fails.
fn failure_text(alloc: Global, number: u64) -> Result<Text, OutOfMemory>
    ensures { IfOk result (λ text. text ≡ codes "host failure " ++ decimal number) }
{
    let mut text = Text::copy_of(alloc, "host failure ")?;
    text.push_number(number)?;
    Ok(text)
}

/// No native has this key, or this one has no form for these arguments; or no token is pending that
/// is resumed.
#[cold]
#[inline(never)]
pub(crate) fn unknown(alloc: Global) -> HostAnswer
    ensures { IfSome (reply_of result) (λ reply. reply ≡ unknown) }
{
    refused(alloc, "unknown to the table host")
}

/// Does what the native of this key does. After want of memory nothing changed.
pub(crate) fn perform(
    alloc: Global,
    key: u64,
    args: &mut Args,
    printed: &mut Text,
    registers: &mut Registers,
) -> HostAnswer
    ensures reply { let given = arguments args.old.receiver args.old.values in
        IfSome (reply_of result) (λ reply. reply ≡ native_reply registers.old key given) }
    ensures printed { let given = arguments args.old.receiver args.old.values in
        printed.new ≡ (if is_some (reply_of result) then printed.old ++ printed_by key given else printed.old) }
    ensures receiver { args.new.receiver
        ≡ (if is_some (reply_of result) then received key args.old.receiver args.old.values
        else args.old.receiver) }
    ensures registers { let given = arguments args.old.receiver args.old.values in
        registers.new
        ≡ (if is_some (reply_of result) then registers_after key given registers.old else registers.old) }
{
    match key {
        PRINT => print(alloc, args, printed),
        PUSH => push(alloc, args),
        LEN => len(alloc, args),
        EXIT => exit(alloc, args),
        _ => access(alloc, key, args, registers),
    }
}

// Does what the native of this key asks of the registers.
#[inline(never)]
fn access(alloc: Global, key: u64, args: &Args, registers: &mut Registers) -> HostAnswer
    ensures reply { let access = asked key (arguments args.now.receiver args.now.values) in
        IfSome (reply_of result) (λ reply. reply ≡ register_reply registers.old access) }
    ensures registers { let access = asked key (arguments args.now.receiver args.now.values) in
        registers.new
        ≡ (if is_some (reply_of result) then left_by registers.old access else registers.old) }
{
    match asked(key, args) {
        None => unknown(alloc),
        Some(access) => access.perform(registers),
    }
}

// The only one of the values.
fn sole(values: &Array) -> Option<&Dynamic>
    ensures { option_copied result ≡ sole (map value_of values.now) }
{
    if values.len() == 1 {
        values.get(0)
    } else {
        None
    }
}

// The only argument.
fn argument(args: &Args) -> Option<&Dynamic>
    ensures { option_copied result
        ≡ sole (arguments args.now.receiver args.now.values) }
{
    match &args.receiver {
        None => sole(&args.values),
        Some(held) => {
            if args.values.is_empty() {
                Some(&held.value)
            } else {
                None
            }
        }
    }
}

// Appends the plain text of the only argument, and LF.
#[inline(never)]
fn print(alloc: Global, args: &Args, printed: &mut Text) -> HostAnswer
    ensures reply { let given = sole (arguments args.now.receiver args.now.values) in
        IfSome (reply_of result) (λ reply. reply ≡ print_reply given) }
    ensures printed { let given = sole (arguments args.now.receiver args.now.values) in
        printed.new ≡ (if is_some (reply_of result) then printed.old ++ line_of given else printed.old) }
{
    match argument(args) {
        None => unknown(alloc),
        Some(value) => match print_line(alloc, value, printed) {
            Ok(()) => HostAnswer::Done(Dynamic::Unit),
            Err(OutOfMemory) => HostAnswer::Memory,
        },
    }
}

// Appends the plain text of a value, and LF. After want of memory the text is as it was.
fn print_line(alloc: Global, value: &Dynamic, printed: &mut Text) -> Result<(), OutOfMemory>
    ensures { printed.new
        ≡ (if is_ok result then printed.old ++ line_of (Some value.now) else printed.old) }
{
    let mut line = Text::new(alloc);
    value.write_plain(&mut line)?;
    line.push_str("\n")?;
    printed.push_str(line.as_str())
}

// Appends the second argument to the first, which is an array: to the receiver, if there is one.
#[inline(never)]
fn push(alloc: Global, args: &mut Args) -> HostAnswer
    ensures reply { let given = first_of_two (arguments args.old.receiver args.old.values) in
        IfSome (reply_of result) (λ reply. reply ≡ push_reply given) }
    ensures receiver { args.new.receiver
        ≡ (if is_some (reply_of result) then pushed_receiver args.old.receiver args.old.values
        else args.old.receiver) }
{
    match &mut args.receiver {
        None => push_values(alloc, &args.values),
        Some(held) => push_onto(alloc, &mut held.value, &args.values),
    }
}

// An array and a value: the array is dropped with the other arguments.
fn push_values(alloc: Global, values: &Array) -> HostAnswer
    ensures { IfSome (reply_of result)
        (λ reply. reply ≡ push_reply (first_of_two (map value_of values.now))) }
{
    match first_of_two(values) {
        Some(Dynamic::Array(_)) => HostAnswer::Done(Dynamic::Unit),
        _ => unknown(alloc),
    }
}

// The first of the values, if there are two.
fn first_of_two(values: &Array) -> Option<&Dynamic>
    ensures { option_copied result ≡ first_of_two (map value_of values.now) }
{
    if values.len() == 2 {
        values.get(0)
    } else {
        None
    }
}

// Appends the only one of the values to the target, which is an array.
fn push_onto(alloc: Global, target: &mut Dynamic, values: &Array) -> HostAnswer
    ensures reply { let given = first_of_two (target.old ∷ map value_of values.now) in
        IfSome (reply_of result) (λ reply. reply ≡ push_reply given) }
    ensures target { target.new
        ≡ (if is_some (reply_of result)
        then pushed target.old (sole (map value_of values.now))
        else target.old) }
{
    match sole(values) {
        None => unknown(alloc),
        Some(value) => push_value(alloc, target, value),
    }
}

// Appends a value to the target, which is an array.
fn push_value(alloc: Global, target: &mut Dynamic, value: &Dynamic) -> HostAnswer
    ensures reply { IfSome (reply_of result) (λ reply. reply ≡ push_reply (Some target.old)) }
    ensures target { target.new
        ≡ (if is_some (reply_of result) then pushed target.old (Some value.now) else target.old) }
{
    match target {
        Dynamic::Array(array) => match push_copy(alloc, array, value) {
            Ok(()) => HostAnswer::Done(Dynamic::Unit),
            Err(OutOfMemory) => HostAnswer::Memory,
        },
        _ => unknown(alloc),
    }
}

// Appends a copy of a value. After want of memory the array is as it was.
fn push_copy(alloc: Global, array: &mut Array, value: &Dynamic) -> Result<(), OutOfMemory>
    ensures { array.new
        ≡ (if is_ok result then array.old ++ tree value.now ∷ [] else array.old) }
{
    array.push(value.copy(alloc)?)
}

// How many entries or characters the only argument has.
fn len(alloc: Global, args: &Args) -> HostAnswer
    ensures { let given = sole (arguments args.now.receiver args.now.values) in
        IfSome (reply_of result) (λ reply. reply ≡ len_reply given) }
{
    match argument(args) {
        None => unknown(alloc),
        Some(value) => len_of(alloc, value),
    }
}

fn len_of(alloc: Global, value: &Dynamic) -> HostAnswer
    ensures { IfSome (reply_of result) (λ reply. reply ≡ len_reply (Some value.now)) }
{
    match entries_in(value) {
        None => unknown(alloc),
        Some(count) => HostAnswer::Done(Dynamic::Int(count as i64)),
    }
}

// How many characters, values, bytes or keys there are, if the value has such.
fn entries_in(value: &Dynamic) -> Option<usize>
    ensures value { result ≡ entries_in value.now }
    ensures small { IfSome result (λ count. count < 2 ^ 63) }
{
    match value {
        Dynamic::Text(text) => Some(text.char_count()),
        Dynamic::Array(array) => Some(array.len()),
        Dynamic::Blob(blob) => Some(blob.len()),
        Dynamic::Map(map) => Some(map.len()),
        _ => None,
    }
}

// Ends the script with the only argument.
#[inline(never)]
fn exit(alloc: Global, args: &Args) -> HostAnswer
    ensures { let given = sole (arguments args.now.receiver args.now.values) in
        IfSome (reply_of result) (λ reply. reply ≡ exit_reply given) }
{
    match argument(args) {
        None => unknown(alloc),
        Some(value) => match value.copy(alloc) {
            Ok(value) => {
                let fault = EvalAltResult::Exit(value, Position::NONE);
                HostAnswer::Failed(HostFault::passing(fault))
            }
            Err(OutOfMemory) => HostAnswer::Memory,
        },
    }
}
