//! Natives that are called on a receiver, which they are lent. Of a receiver that is a cell they are lent
//! what the cell holds.

ghost use Rattle.std.specs.Prelude.{◌≡◌, Some, is_some, true, IfOk, slice_set};
ghost use Rattle.grain_value.specs.Cells.{idle};
ghost use Rattle.grain_value.specs.Looking.{cell_of};
ghost use Rattle.grain_value.specs.declared.values.Held.{Held};
ghost use Rattle.grain_means.specs.Worlds.{Setup};
ghost use Rattle.grain_vm.specs.Driving.{IsNative, name_in};
ghost use Rattle.grain_vm.specs.OnReceivers.{CallsNativeOn, CallsOnCell};
ghost use Rattle.grain_vm.specs.Receivers.{ReadsForCell};

use crate::arguments::read_on;
use crate::driving::{Answered, AskingNative, ask_host, name_asked, perform_request, raise_race};
use crate::methods::Outcome;
use grain_chain::{Request, What};
use grain_fault::{EvalAltResult, Position};
use grain_frame::{Arguments, Run, put_in_cell};
use grain_global::Steps;
use grain_host::Host;
use grain_value::{Array, Held, OutOfMemory, Store};
use std::alloc::Global;
use std::sync::ledger::Ledger;

/// What came of a native that is called on a receiver.
#[derive(Drop)]
pub enum OnReceiver {
    /// It is over: its value or its fault, and the receiver as the call left it.
    Over(Outcome),
    /// It asks for a call first. If the receiver is a cell, this is the receiver, the number of the cell,
    /// and whether what the cell holds can only be read: that is lent.
    Asks(AskingNative, Option<LentCell>),
}

/// A receiver that is a cell, which is lent to a native.
#[derive(Drop)]
pub struct LentCell {
    pub receiver: Held,
    pub cell: usize,
    pub read_only: bool,
}

// Calls a native on a receiver, which it is lent; if the receiver is a cell, it is lent what the cell
// holds. It gives the value or the fault of the call, and the receiver as the call left it; or what the
// native asks for first.
pub(crate) fn call_native_on<H: Host, L: Ledger>(
    run: &mut Run<H>,
    host: &mut H,
    steps: &mut Steps<L>,
    request: Request,
) -> OnReceiver
    requires native { IsNative request.what }
    requires receiver { is_some request.receiver ≡ true }
    ensures called { (m : Setup H) → m.law ≡ H.law → CallsNativeOn m request run.old steps.old host.old
        result run.new steps.new host.new }
    ensures run { run.new ≡ record run.old { cells = run.new.cells } }
    ensures before { steps.new.before ≡ steps.old.before }
{
    let Request {
        step,
        pos,
        what,
        receiver,
        arguments,
    } = request;
    let Some(held) = receiver else { unreachable!() };
    match held.value.as_cell() {
        None => {
            let request = Request {
                step,
                pos,
                what,
                receiver: Some(held),
                arguments,
            };
            match perform_request(run, host, steps, request) {
                Answered::Over(outcome) => OnReceiver::Over(outcome),
                Answered::Asks(native) => OnReceiver::Asks(native, None),
            }
        }
        Some(cell) => call_on_cell(run, host, steps, what, pos, arguments, cell, held),
    }
}

// The description of what a cell holds, with this flag, and of the arguments after it, each as it is
// read. Returns None if the cell or one of these is lent, or if the cell is not there.
fn read_for_cell(
    alloc: Global,
    cells: &Store,
    cell: usize,
    read_only: bool,
    values: &Array,
) -> Result<Option<Arguments>, OutOfMemory>
    ensures { IfOk result (λ o. ReadsForCell cells.now cell read_only values.now o) }
{
    let Some(content) = cells.find(cell) else {
        return Ok(None);
    };
    let mut arguments = Arguments::new(alloc);
    arguments.kinds.push(content.own_kind())?;
    arguments.read_only = read_only;
    read_on(alloc, cells, arguments, values)
}

// Calls a native that is lent what a cell holds, which can only be read if the receiver can.
fn call_on_cell<H: Host, L: Ledger>(
    run: &mut Run<H>,
    host: &mut H,
    steps: &mut Steps<L>,
    what: What,
    pos: Position,
    arguments: Array,
    cell: usize,
    held: Held,
) -> OnReceiver
    requires native { IsNative what }
    requires cell { cell_of held.value ≡ Some cell }
    ensures called { (m : Setup H) → m.law ≡ H.law → CallsOnCell m (name_in what) pos arguments held
        run.old steps.old host.old result run.new steps.new host.new }
    ensures run { run.new ≡ record run.old { cells = run.new.cells } }
    ensures before { steps.new.before ≡ steps.old.before }
{
    let read = read_for_cell(run.alloc, &run.cells, cell, held.read_only, &arguments);
    let arguments = match read {
        Err(OutOfMemory) => return OnReceiver::Over((Err(EvalAltResult::Memory), Some(held))),
        Ok(read) => match read {
            None => {
                let fault = raise_race(run.alloc, steps, pos);
                return OnReceiver::Over((Err(fault), Some(held)));
            }
            Some(arguments) => arguments,
        },
    };
    let Ok(content) = run.cells.lend(cell) else {
        unreachable!()
    };
    let back = LentCell {
        cell,
        read_only: content.read_only,
        receiver: held,
    };
    let receiver = Some(Held {
        value: content.value,
        read_only: back.receiver.read_only,
    });
    let name = name_asked(&what);
    match ask_host(run, host, steps, name, receiver, arguments, pos) {
        Answered::Over((outcome, left)) => {
            OnReceiver::Over((outcome, give_back_to_cell(run, back, left)))
        }
        Answered::Asks(native) => OnReceiver::Asks(native, Some(back)),
    }
}

// What a native was lent of a cell goes back to it. Gives the receiver, which is that cell.
pub(crate) fn give_back_to_cell<H: Host>(
    run: &mut Run<H>,
    back: LentCell,
    left: Option<Held>,
) -> Option<Held>
    requires { is_some left ≡ true }
    ensures receiver { result ≡ Some back.receiver }
    ensures run { (g : Held) → left ≡ Some g → run.new ≡ record run.old {
      cells = slice_set run.old.cells back.cell
          (idle (record { value = g.value; read_only = back.read_only }));
    } }
{
    let LentCell {
        receiver,
        cell,
        read_only,
    } = back;
    let Some(left) = left else { unreachable!() };
    let content = Held {
        value: left.value,
        read_only,
    };
    put_in_cell(&mut run.cells, cell, content);
    Some(receiver)
}
