//! How a program ends.
ghost use Rattle.std.specs.Prelude.{◌≡◌};
ghost use Rattle.std.specs.Process.{exit_status};
ghost use Rattle.command.specs.Endings.{status_number};

use std::process::ExitCode;

/// How a program ends. Failure: an error, or a difference where a program compares. Trouble: a wrong command line, or a
/// comparison that could not be made.
#[derive(Clone, Copy, Debug, PartialEq, Eq)]
pub enum Status {
    Success,
    Failure,
    Trouble,
}

impl Status {
    /// The exit status: 0, 1 or 2.
    pub fn code(self) -> ExitCode
        ensures numbered { exit_status result ≡ status_number self }
    {
        ExitCode::from(match self {
            Status::Success => 0,
            Status::Failure => 1,
            Status::Trouble => 2,
        })
    }
}
