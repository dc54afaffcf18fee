//! Laws of drivers.

ghost use Rattle.ospf_drive.specs.Chains.{ChainsAreLawful};
ghost use Rattle.ospf_drive.specs.Machines.{AreRouterRules};
ghost use Rattle.ospf_drive.specs.Whole.{AllTicksAreTaken, DrivesAreWhole};

use crate::machine::Machine;
use ospf_router::Router;
use ospf_router::step::{steps_are_lawful, steps_stay_kept};

/// What a driver does turn by turn is one list of steps: what they send goes out in order, and what
/// they publish is published in order.
pub fn drives_are_whole<M: Machine>()
    ensures { DrivesAreWhole M.rules }
{}

/// If a wire counts its ticks, a driver that reached the end has taken as many as come before the
/// end: all of them, and no more, if the wire cannot be signalled to end.
pub fn all_ticks_are_taken<M: Machine>()
    ensures { AllTicksAreTaken M.rules }
{}

/// A `Router` goes by the exact rules of a router, and by no others: its steps are those of RFC
/// 2328, and it stops at no event that is dropped.
pub fn routers_go_by_their_steps()
    ensures { AreRouterRules ⟦<Router as Machine>⟧.rules }
{}

/// Whatever happens to a router, each of its steps keeps the laws of a step (`StepLaws` and
/// `Accounts` of `ospf_router`), however many came before.
pub fn chains_are_lawful()
    ensures { ChainsAreLawful }
{
    steps_are_lawful();
    steps_stay_kept();
}
