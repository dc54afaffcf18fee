//! What is asked about the failures of an area at a router, and how that ends.

ghost use Rattle.std.specs.Prelude.{◌≡◌};
ghost use Rattle.ospf_harm.specs.Asked.{end_by};

use crate::carrier::Carrier;
use ospf_base::RouterId;
use ospf_files::Status;
use std::process::ExitCode;

/// How what failures change is printed.
#[derive(Clone, Copy, Debug, PartialEq, Eq)]
pub enum FailuresForm {
    /// In lines of text.
    Text,
    /// As one value of JSON, on a line.
    Json,
    /// As JSON of version 2: a line about the input, and then an object on each line, by harm.
    JsonLines,
    /// In lines of text that say how much each failure harms, by harm.
    Harm,
}

/// What is asked about the failures of an area at one of its routers.
#[derive(Clone, Copy, Debug, PartialEq, Eq)]
pub struct RouterFailures {
    /// The router whose table changes. Its own failure is left out.
    pub root: RouterId,
    /// Whether each changed prefix is printed.
    pub each: bool,
    /// Whether the status reports that a prefix is cut off, or that the root is not listed.
    pub strict: bool,
    /// How it is printed.
    pub form: FailuresForm,
    /// What carries the links: it decides what fails together. `Process` is the default.
    pub carrier: Carrier,
}

impl RouterFailures {
    ghost use Rattle.std.specs.Prelude.{◌↔◌, IsTrue};
    ghost use Rattle.ospf_harm.specs.Asked.{IsRebuiltFor};

    /// Whether router-LSAs are rebuilt.
    pub fn is_rebuilding(&self) -> bool
        ensures { IsTrue result ↔ IsRebuiltFor self.now }
    {
        self.carrier == Carrier::Direct
    }
}

/// How it ends.
#[derive(Clone, Copy, Debug, PartialEq, Eq)]
pub enum FailuresStatus {
    /// As another job does.
    Ended(Status),
    /// All is printed, and what `strict` asks for is not met.
    Unmet,
}

impl FailuresStatus {
    ghost use Rattle.std.specs.Prelude.{◌≡◌};
    ghost use Rattle.ospf_harm.specs.Asked.{exit_code_of};

    /// The exit status.
    pub fn code(self) -> u8
        ensures { result ≡ exit_code_of self }
    {
        match self {
            FailuresStatus::Ended(status) => status.code(),
            FailuresStatus::Unmet => 1,
        }
    }
}

impl From<FailuresStatus> for ExitCode {
    ghost use Rattle.std.specs.Prelude.{◌≡◌};
    ghost use Rattle.std.specs.Process.{exit_status};
    ghost use Rattle.ospf_harm.specs.Asked.{exit_code_of};

    ghost from_gives = { λ status code. exit_status code ≡ exit_code_of status };

    fn from(status: FailuresStatus) -> ExitCode {
        ExitCode::from(status.code())
    }
}

/// How it ends where all is printed: whether it is strict, whether some failure cuts a prefix off,
/// and whether what is asked about is listed.
pub fn end_of(strict: bool, has_cut: bool, is_listed: bool) -> FailuresStatus
    ensures { result ≡ end_by strict has_cut is_listed }
{
    if strict && (has_cut || !is_listed) {
        FailuresStatus::Unmet
    } else {
        FailuresStatus::Ended(Status::Done)
    }
}
