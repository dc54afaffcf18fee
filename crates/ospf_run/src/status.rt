//! The status that a run ends with.

ghost use Rattle.std.specs.List.{list_any};
ghost use Rattle.std.specs.Prelude.{◌≡◌};
ghost use Rattle.ospf_run.specs.Printed.{is_early, is_failed, status_for};

use crate::outcome::Outcome;
use ospf_drive::DriveFault;
use ospf_files::Status;

/// The status of a run.
pub(crate) fn status_of(outcomes: &[Outcome<'_>]) -> Status
    ensures { result ≡ status_for outcomes.now }
{
    if have_failed(outcomes) {
        Status::Stream
    } else if have_ended_early(outcomes) {
        Status::Memory
    } else {
        Status::Done
    }
}

// Whether a wire or a thread failed one of the routers.
fn have_failed(outcomes: &[Outcome<'_>]) -> bool
    ensures { result ≡ list_any is_failed outcomes.now }
{
    outcomes.iter().any(|outcome| has_failed(outcome))
}

// Whether a wire or a thread failed a router.
fn has_failed(outcome: &Outcome<'_>) -> bool
    ensures { result ≡ is_failed outcome.now }
{
    match outcome.came {
        Err(DriveFault::Recv | DriveFault::Send | DriveFault::Thread) => true,
        Ok(_) | Err(DriveFault::Stopped | DriveFault::Publish) => false,
    }
}

// Whether one of the drivers did not reach the end.
fn have_ended_early(outcomes: &[Outcome<'_>]) -> bool
    ensures { result ≡ list_any is_early outcomes.now }
{
    outcomes.iter().any(|outcome| has_ended_early(outcome))
}

// Whether a driver did not reach the end.
fn has_ended_early(outcome: &Outcome<'_>) -> bool
    ensures { result ≡ is_early outcome.now }
{
    outcome.came.is_err()
}
