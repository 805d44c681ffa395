//! The `main` of a program: reads the command line, does the work, and reports an error.
ghost use Rattle.std.specs.Prelude.{◌≡◌, ◌≤◌, vec_len};
ghost use Rattle.std.specs.Process.{exit_status};
ghost use Rattle.command.specs.Arguments.{Does, Takes};
ghost use Rattle.command.specs.Endings.{status_of};
ghost use Rattle.command.specs.declared.arguments.Options.{Options};

use crate::VERSION;
use crate::arguments::{Accepted, Arguments, Options, read_arguments};
use crate::error::Error;
use crate::status::Status;
use std::process::ExitCode;

/// A program: its name, how it is used, and what its command line may name.
#[derive(Clone, Copy)]
pub struct Program<'a> {
    pub name: &'a str,
    pub usage: &'a str,
    pub accepted: Accepted,
}

impl Program<'_> {
    /// Does what the command line asks for: prints the usage or the version, or does the work with the options.
    pub fn run<W: FnOnce(Options) -> Result<Status, Error>>(
        self,
        rt: &HostRuntime,
        arguments: Arguments,
        work: W,
    ) -> Result<Status, Error>
        requires callable { Takes (W.pre work) arguments }
        ensures done { Does (W.post work) arguments result }
    {
        match arguments {
            Arguments::Help => println!(rt; "{}", self.usage)?,
            Arguments::Version => println!(rt; "{}, {VERSION}", self.name)?,
            Arguments::Run(options) => return work(options),
        }
        Ok(Status::Success)
    }

    /// The exit status: that of the work, or the given one after an error, which is printed on standard error.
    pub fn end(self, rt: &HostRuntime, done: Result<Status, Error>, failure: Status) -> ExitCode
        ensures by_error { exit_status result ≡ status_of failure done }
    {
        match done {
            Ok(status) => status.code(),
            Err(e) => {
                // Where standard error cannot be written, the exit status is all that is left.
                let _ = eprintln!(rt; "{}: {e}", self.name);
                failure.code()
            }
        }
    }

    /// Runs the program as its command line asks. A wrong command line ends with status 2.
    pub fn main<W: FnOnce(Options) -> Result<Status, Error>>(
        self,
        rt: &HostRuntime,
        work: W,
    ) -> ExitCode
        requires callable { (options : Options) → vec_len options.files ≤ self.accepted.files → W.pre work options }
        ensures at_most_2 { exit_status result ≤ 2 }
    {
        match read_arguments(rt, self.accepted) {
            Ok(arguments) => {
                let failure = arguments.failure();
                let done = self.run(rt, arguments, work);
                self.end(rt, done, failure)
            }
            Err(e) => self.end(rt, Err(e), Status::Trouble),
        }
    }
}
