//! How a program ends.

use crate::streams::{FailedStreams, write_line};
use std::alloc::AllocError;
use std::io::{self, ErrorKind, Write};
use std::process::ExitCode;

/// How a program ends.
#[derive(Clone, Copy, Debug, PartialEq, Eq)]
pub enum Status {
    /// What was asked is done.
    Done,
    /// The words ask for nothing that the program does.
    Words,
    /// The input was refused.
    Refused,
    /// Memory ran out.
    Memory,
    /// A file or a stream failed.
    Stream,
}

impl Status {
    ghost use Rattle.std.specs.Prelude.{◌≡◌};
    ghost use Rattle.ospf_files.specs.Status.{code_of};

    /// The exit status.
    pub fn code(self) -> u8
        ensures { result ≡ code_of self }
    {
        match self {
            Status::Done => 0,
            Status::Words => 2,
            Status::Refused => 3,
            Status::Memory => 4,
            Status::Stream => 5,
        }
    }
}

/// What the program cannot go on without, whatever it was given.
#[derive(Clone, Copy, Debug, PartialEq, Eq)]
pub enum Failure {
    /// Memory ran out, or there was no place for a seat at the published table.
    Memory,
    /// Standard input was not read to its end.
    Input,
    /// Standard output was not written.
    Output,
    /// Standard error was not written.
    Error,
    /// The published table was closed.
    Closed,
}

impl Failure {
    ghost use Rattle.std.specs.Prelude.{◌≡◌, ◌≢◌};
    ghost use Rattle.std.specs.IoError.{error_kind};
    ghost use Rattle.std.specs.declared.io.ErrorKind.TheVariants as kind;
    ghost use Rattle.ospf_files.specs.Status.{failure_line, failure_status, program_failure_text};
    ghost use Rattle.ospf_files.specs.Streams.{IsTold};

    /// The failure for an error of a stream: `Memory` if memory ran out, else `stream`.
    pub fn of(error: &io::Error, stream: Failure) -> Failure
        ensures memory { error_kind error.now ≡ kind.OutOfMemory → result ≡ Failure.Memory }
        ensures stream { error_kind error.now ≢ kind.OutOfMemory → result ≡ stream }
    {
        if error.kind() == ErrorKind::OutOfMemory {
            Failure::Memory
        } else {
            stream
        }
    }

    /// The status to end with.
    pub fn status(self) -> Status
        ensures { result ≡ failure_status self }
    {
        match self {
            Failure::Memory => Status::Memory,
            Failure::Input | Failure::Output | Failure::Error | Failure::Closed => Status::Stream,
        }
    }

    /// The failure as it is printed.
    pub fn text(self) -> &'static str
        ensures { result.now ≡ program_failure_text self }
    {
        match self {
            Failure::Memory => "out of memory",
            Failure::Input => "standard input: not read",
            Failure::Output => "standard output: not written",
            Failure::Error => "standard error: not written",
            Failure::Closed => "the published table is closed",
        }
    }

    /// Prints the failure on `err`, as far as it can be written, and notes in `streams` where it
    /// cannot. Returns the status to end with.
    pub fn tell<E: Write>(self, err: &mut E, streams: &mut FailedStreams) -> Status
        ensures status { result ≡ failure_status self }
        ensures told { IsTold streams.old streams.new (E.contents err.old) (E.contents err.new)
            (failure_line self) }
    {
        if write_line(err, self.text()).is_err() {
            streams.error = true;
        }
        self.status()
    }
}

impl From<AllocError> for Failure {
    ghost use Rattle.std.specs.Prelude.{◌≡◌};
    ghost use Rattle.ospf_files.specs.declared.status.Failure.TheVariants as failure;

    ghost from_gives = { λ _ f. f ≡ failure.Memory };

    fn from(_error: AllocError) -> Failure {
        Failure::Memory
    }
}

impl From<Status> for ExitCode {
    ghost use Rattle.std.specs.Prelude.{◌≡◌};
    ghost use Rattle.std.specs.Process.{exit_status};
    ghost use Rattle.ospf_files.specs.Status.{code_of};

    ghost from_gives = { λ status code. exit_status code ≡ code_of status };

    fn from(status: Status) -> ExitCode {
        ExitCode::from(status.code())
    }
}
