//! How a program ends.

ghost use Rattle.std.specs.Prelude.{◌≡◌};
ghost use Rattle.std.specs.Process.{exit_status};

use std::process::ExitCode;

/// The number with which a program ends: from 0 to 7, or 9.
#[derive(Clone, Copy, Debug, PartialEq, Eq)]
pub struct Status {
    pub number: u8,
}

/// The exit code of a status: its number.
pub fn exit_code(status: Status) -> ExitCode
    ensures { exit_status result ≡ status.number }
{
    ExitCode::from(status.number)
}
