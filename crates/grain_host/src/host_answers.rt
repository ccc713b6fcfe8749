//! What a host is given, and what it answers.

ghost use Rattle.std.specs.Prelude.{◌≡◌, is_some, not};
ghost use Rattle.grain_host.specs.Answers.{reply_of};

use crate::host_faults::HostFault;
use grain_value::{Array, Dynamic, FnPtr, Held};

/// The arguments of a call. The first argument is the receiver if there is one, and else the first
/// of the values.
#[derive(Drop)]
pub struct Args {
    /// The value that the call may write.
    pub receiver: Option<Held>,
    /// The other arguments.
    pub values: Array,
}

/// What a host answers to a call, or where it is resumed.
#[derive(Drop)]
pub enum HostAnswer {
    /// The call's value.
    Done(Dynamic),
    /// The call failed.
    Failed(HostFault),
    /// The host asks for a call of a function of the script. It is then resumed by the token, or
    /// `forget` is called with the token.
    Ask {
        /// By what the host knows what it asked for.
        token: u64,
        /// The pointer to the function.
        pointer: FnPtr,
        /// The arguments, which stand after the pointer's own values.
        arguments: Array,
    },
    /// There was no memory. The host and the receiver are as they were.
    Memory,
}

impl HostAnswer {
    // Whether there was no memory.
    pub(crate) fn is_memory(&self) -> bool
        ensures { result ≡ not (is_some (reply_of self.now)) }
    {
        match self {
            HostAnswer::Memory => true,
            _ => false,
        }
    }
}

/// What a host answers when it hears how many operations a run has taken.
#[derive(Drop)]
pub enum ProgressAnswer {
    /// The run goes on.
    GoOn,
    /// The run ends with this value as its token.
    Stop(Dynamic),
    /// There was no memory. The host is as it was.
    Memory,
}
