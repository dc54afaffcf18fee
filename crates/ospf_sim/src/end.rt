//! How a simulation ends.

ghost use Rattle.std.specs.Prelude.{◌≡◌};
ghost use Rattle.ospf_sim.specs.Ends.{end_of_lines, is_unmet_by, sim_end_by};

use ospf_commands::Simulation;
use ospf_files::{Failure, Status};
use std::process::ExitCode;

/// How a simulation ends.
#[derive(Clone, Copy, Debug, PartialEq, Eq)]
pub enum SimStatus {
    /// As any other job ends.
    Ended(Status),
    /// All lines have run, and an expectation of a line was not met; or the simulation is strict,
    /// and a line was refused.
    Unmet,
}

impl SimStatus {
    ghost use Rattle.std.specs.Prelude.{◌≡◌};
    ghost use Rattle.ospf_sim.specs.Ends.{end_with_files, sim_exit_code};

    /// The exit status.
    pub fn code(self) -> u8
        ensures { result ≡ sim_exit_code self }
    {
        match self {
            SimStatus::Ended(status) => status.code(),
            SimStatus::Unmet => 1,
        }
    }

    /// How it ends with the files that were requested: why the journal is incomplete, if it is, and
    /// whether the drawing and the capture are complete.
    pub fn with_files(self, journal: Option<Failure>, is_recorded: bool) -> SimStatus
        ensures { result ≡ end_with_files self journal is_recorded }
    {
        match journal {
            Some(failure) => SimStatus::Ended(failure.status()),
            None if is_recorded => self,
            None => SimStatus::Ended(Status::Stream),
        }
    }
}

impl From<SimStatus> for ExitCode {
    ghost use Rattle.std.specs.Prelude.{◌≡◌};
    ghost use Rattle.std.specs.Process.{exit_status};
    ghost use Rattle.ospf_sim.specs.Ends.{sim_exit_code};

    ghost from_gives = { λ status code. exit_status code ≡ sim_exit_code status };

    fn from(status: SimStatus) -> ExitCode {
        ExitCode::from(status.code())
    }
}

/// How a simulation ends that reached this status and left this.
pub(crate) fn end_by(strict: bool, status: Status, left: &Option<Simulation>) -> SimStatus
    ensures { result ≡ sim_end_by strict status left.now }
{
    match status {
        Status::Done => end_of_lines(strict, left),
        Status::Words | Status::Refused | Status::Memory | Status::Stream => {
            SimStatus::Ended(status)
        }
    }
}

// How a simulation ends whose lines have all run.
fn end_of_lines(strict: bool, left: &Option<Simulation>) -> SimStatus
    ensures { result ≡ end_of_lines strict left.now }
{
    match left {
        Some(left) if is_unmet_by(strict, left) => SimStatus::Unmet,
        _ => SimStatus::Ended(Status::Done),
    }
}

// Whether it failed its script.
fn is_unmet_by(strict: bool, left: &Simulation) -> bool
    ensures { result ≡ is_unmet_by strict left.now }
{
    left.is_unmet || (strict && left.is_refused)
}
