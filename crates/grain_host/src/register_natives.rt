//! The natives of the registers of the host in memory.

ghost use Rattle.std.specs.Prelude.{◌≡◌, Some, option_copied, option_and_then, length, slice_get};
ghost use Rattle.grain_value.specs.declared.values.Dynamic.TheVariants as dynamic;
ghost use Rattle.grain_host.specs.Answers.{reply_of};
ghost use Rattle.grain_host.specs.Registers.{register_of, number_of, register_at, registers_with, named_by, no_index, own_reply, read_reply, write_reply, access_reply, access_leaves, asked, asked_by_one, asked_by_two, asked_by_three, accessor_of, register_key_of};
ghost use Rattle.grain_host.specs.Tables.{arguments};

use crate::host_answers::{Args, HostAnswer};
use crate::host_faults::HostFault;
use crate::registers::Registers;
use grain_fault::{EvalAltResult, Position};
use grain_value::Dynamic;

// The keys of the natives.
const REGISTER: u64 = 6;

const BANK: u64 = 7;

const WRITE_BANK: u64 = 8;

const GET_VALUE: u64 = 10;

const SET_VALUE: u64 = 11;

const GET_INDEX: u64 = 12;

const SET_INDEX: u64 = 13;

// The kinds of values of which they ask: integers, and the host's own values. A register is such a
// value, and so is a bank, by which all registers can be reached.
const INTEGER: u32 = 2;

const REGISTER_KIND: u32 = 16;

const BANK_KIND: u32 = 17;

const WRITE_BANK_KIND: u32 = 18;

/// How a register is named.
#[derive(Clone, Copy)]
pub(crate) enum Place {
    /// By the number of a value of the kind of registers.
    Number(u64),
    /// By an index of a bank.
    Index(i64),
}

/// What a native asks of the registers.
#[derive(Clone, Copy)]
pub(crate) enum Access {
    /// The register of this number, as a value.
    Register(i64),
    /// The bank of this number, as a value.
    Bank(i64),
    /// The bank of this number whose registers can only be written, as a value.
    WriteBank(i64),
    /// What a register holds.
    Read(Place),
    /// That a register holds this integer from now on.
    Write(Place, i64),
}

/// The key of the native of this name for arguments of these kinds, if it is one of the registers.
pub(crate) fn key_of(name: &str, kinds: &[u32]) -> Option<u64>
    ensures { result ≡ register_key_of name.now kinds.now }
{
    match (name, kinds) {
        ("register", [INTEGER]) => Some(REGISTER),
        ("bank", [INTEGER]) => Some(BANK),
        ("write_bank", [INTEGER]) => Some(WRITE_BANK),
        _ => accessor_of(name, kinds),
    }
}

// The key of the getter, the setter or the indexer of this name.
fn accessor_of(name: &str, kinds: &[u32]) -> Option<u64>
    ensures { result ≡ accessor_of name.now kinds.now }
{
    match (name, kinds) {
        ("get$value", [REGISTER_KIND]) => Some(GET_VALUE),
        ("set$value", [REGISTER_KIND, INTEGER]) => Some(SET_VALUE),
        ("index$get$", [BANK_KIND, INTEGER]) => Some(GET_INDEX),
        ("index$set$", [BANK_KIND | WRITE_BANK_KIND, INTEGER, INTEGER]) => Some(SET_INDEX),
        _ => None,
    }
}

impl Place {
    // The number of the register, if there is one.
    fn register(self) -> Option<u8>
        ensures { result ≡ register_at self }
    {
        match self {
            Place::Number(number) => u8::try_from(number).ok(),
            Place::Index(index) => register_of(index),
        }
    }

    // The value by which the script named the register.
    fn value(self) -> Dynamic
        ensures { result ≡ named_by self }
    {
        match self {
            Place::Number(number) => Dynamic::Foreign {
                kind: REGISTER_KIND,
                number,
            },
            Place::Index(index) => Dynamic::Int(index),
        }
    }
}

// The integer as the number of a register, if there is one.
fn register_of(integer: i64) -> Option<u8>
    ensures { result ≡ register_of integer }
{
    u8::try_from(integer).ok()
}

// The integer as a number, if it is not negative.
fn number_of(integer: i64) -> Option<u64>
    ensures { result ≡ number_of integer }
{
    u64::try_from(integer).ok()
}

// There is no register, or no value of the host's own, for this.
fn no_index(value: Dynamic) -> HostAnswer
    ensures { reply_of result ≡ Some (no_index value) }
{
    let fault = EvalAltResult::ErrorIndexNotFound(value, Position::NONE);
    HostAnswer::Failed(HostFault::passing(fault))
}

// The value of this kind, if the integer that was given is a number for it.
fn own(kind: u32, number: Option<u64>, given: i64) -> HostAnswer
    ensures { reply_of result ≡ Some (own_reply kind number (dynamic.Int given)) }
{
    match number {
        Some(number) => HostAnswer::Done(Dynamic::Foreign { kind, number }),
        None => no_index(Dynamic::Int(given)),
    }
}

impl Access {
    /// Does what is asked of the registers.
    pub(crate) fn perform(self, registers: &mut Registers) -> HostAnswer
        ensures reply { reply_of result ≡ Some (access_reply registers.old self) }
        ensures registers { registers.new ≡ access_leaves registers.old self }
    {
        match self {
            Access::Register(number) => {
                let register = register_of(number).map(u64::from);
                own(REGISTER_KIND, register, number)
            }
            Access::Bank(number) => own(BANK_KIND, number_of(number), number),
            Access::WriteBank(number) => own(WRITE_BANK_KIND, number_of(number), number),
            Access::Read(place) => read(place, registers),
            Access::Write(place, value) => write(place, value, registers),
        }
    }
}

// Reads a register.
fn read(place: Place, registers: &Registers) -> HostAnswer
    ensures { let held = option_and_then (slice_get registers.now) (register_at place) in
        reply_of result ≡ Some (read_reply held (named_by place)) }
{
    match place.register() {
        Some(register) => HostAnswer::Done(Dynamic::Int(registers.get(register))),
        None => no_index(place.value()),
    }
}

// Writes a register.
fn write(place: Place, value: i64, registers: &mut Registers) -> HostAnswer
    ensures reply { reply_of result
        ≡ Some (write_reply (register_at place) (named_by place)) }
    ensures registers { registers.new
        ≡ registers_with (register_at place) value registers.old }
{
    match place.register() {
        Some(register) => {
            registers.set(register, value);
            HostAnswer::Done(Dynamic::Unit)
        }
        None => no_index(place.value()),
    }
}

/// What the native of this key asks of the registers, if it is one of theirs and has a form for
/// these arguments.
pub(crate) fn asked(key: u64, args: &Args) -> Option<Access>
    ensures { result ≡ asked key (arguments args.now.receiver args.now.values) }
{
    match count(args) {
        1 => asked_by_one(key, argument(args, 0)?),
        2 => asked_by_two(key, argument(args, 0)?, argument(args, 1)?),
        3 => asked_by_three(
            key,
            argument(args, 0)?,
            argument(args, 1)?,
            argument(args, 2)?,
        ),
        _ => None,
    }
}

// What a native asks that has one argument.
fn asked_by_one(key: u64, value: &Dynamic) -> Option<Access>
    ensures { result ≡ asked_by_one key value.now }
{
    match value {
        Dynamic::Int(number) => match key {
            REGISTER => Some(Access::Register(*number)),
            BANK => Some(Access::Bank(*number)),
            WRITE_BANK => Some(Access::WriteBank(*number)),
            _ => None,
        },
        Dynamic::Foreign { kind, number } if key == GET_VALUE && *kind == REGISTER_KIND => {
            Some(Access::Read(Place::Number(*number)))
        }
        _ => None,
    }
}

// What a native asks that has two arguments.
fn asked_by_two(key: u64, first: &Dynamic, second: &Dynamic) -> Option<Access>
    ensures { result ≡ asked_by_two key first.now second.now }
{
    match (first, second) {
        (Dynamic::Foreign { kind, number }, Dynamic::Int(integer)) => match (key, *kind) {
            (SET_VALUE, REGISTER_KIND) => Some(Access::Write(Place::Number(*number), *integer)),
            (GET_INDEX, BANK_KIND) => Some(Access::Read(Place::Index(*integer))),
            _ => None,
        },
        _ => None,
    }
}

// What a native asks that has three arguments.
fn asked_by_three(key: u64, first: &Dynamic, second: &Dynamic, third: &Dynamic) -> Option<Access>
    ensures { result ≡ asked_by_three key first.now second.now third.now }
{
    match (first, second, third) {
        (Dynamic::Foreign { kind, .. }, Dynamic::Int(index), Dynamic::Int(value)) => {
            match (key, *kind) {
                (SET_INDEX, BANK_KIND | WRITE_BANK_KIND) => {
                    Some(Access::Write(Place::Index(*index), *value))
                }
                _ => None,
            }
        }
        _ => None,
    }
}

/// How many arguments there are. A receiver is one of them.
pub(crate) fn count(args: &Args) -> usize
    ensures { result ≡ length (arguments args.now.receiver args.now.values) }
{
    match args.receiver {
        None => args.values.len(),
        Some(_) => args.values.len() + 1,
    }
}

/// The argument at the index. A receiver is the first.
pub(crate) fn argument(args: &Args, index: usize) -> Option<&Dynamic>
    ensures { option_copied result
        ≡ slice_get (arguments args.now.receiver args.now.values) index }
{
    match &args.receiver {
        None => args.values.get(index),
        Some(held) if index == 0 => Some(&held.value),
        Some(_) => args.values.get(index - 1),
    }
}
