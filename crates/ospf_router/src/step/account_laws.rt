//! Laws: each holds of all parts of a step, and of all steps.

ghost use Rattle.std.specs.Prelude.{◌≡◌, [], Bool, false, Option};
ghost use Rattle.ospf_area.specs.Outputs.{OutputsValue, then_outputs};
ghost use Rattle.ospf_area.specs.State.{AreaValue};
ghost use Rattle.ospf_router.specs.AreaStep.Packets.{Received};
ghost use Rattle.ospf_router.specs.AreaStep.Accounts.{Accounts, NoneEntersExchange};
ghost use Rattle.ospf_router.specs.AreaStep.Lawful.{StepsAreLawful, StepsStayKept};
ghost use Rattle.ospf_router.specs.AreaStep.Neighbours.{NeighboursGo};
ghost use Rattle.ospf_router.specs.AreaStep.Step.{Event, StepLaws, heard_in};
ghost use Rattle.ospf_router.specs.AreaStep.Words.{IsSoundState};

use crate::step::senders::not_dropped_is_taken;
use ospf_adjacency::{
    answers_are_quiet, description_keeps_router, elections_come_about, neighbours_stay_of_link,
    repeats_are_quiet,
};
use ospf_originate::{area_stays_sound, own_stay_sound};

/// What one part accounts for, and then the next, the two account for together.
pub fn accounts_add_up()
    ensures { (heard : Option Received) (s t u : AreaValue) (a b : OutputsValue) →
        Accounts heard s a t → Accounts heard t b u → NoneEntersExchange t u → a.ended ≡ [] →
        Accounts heard s (then_outputs a b) u }
{}

/// A part that touches only neighbours accounts for all.
pub fn quiet_parts_account()
    ensures { (heard : Option Received) (before : AreaValue) (out : OutputsValue)
        (after : AreaValue) →
        NeighboursGo heard before out after → Accounts heard before out after }
{}

/// A step accounts for all, and leaves a state as sound as it found.
pub fn steps_account()
    ensures accounts { (is_dropped : Event → AreaValue → Bool) (event : Event) (before : AreaValue)
        (out : OutputsValue) (after : AreaValue) →
        IsSoundState before → StepLaws is_dropped event before out after →
        Accounts (heard_in event) before out after }
    ensures sound { (is_dropped : Event → AreaValue → Bool) (event : Event) (before : AreaValue)
        (out : OutputsValue) (after : AreaValue) →
        IsSoundState before → StepLaws is_dropped event before out after → IsSoundState after }
{}

/// A step by the rules, from a state that is fit and sound, is the chain of its parts, each of a
/// stated kind, and the router accounts to others for all that it does.
pub fn steps_are_lawful()
    ensures { StepsAreLawful }
{
    neighbours_stay_of_link();
    elections_come_about();
    repeats_are_quiet();
    area_stays_sound();
}

/// A step by the rules leaves a state that is fit and sound as fit and as sound.
pub fn steps_stay_kept()
    ensures { StepsStayKept }
{
    not_dropped_is_taken();
    neighbours_stay_of_link();
    elections_come_about();
    description_keeps_router();
    answers_are_quiet();
    repeats_are_quiet();
    area_stays_sound();
    own_stay_sound();
}

/// There are sound states, and steps from them by which time goes on.
pub fn some_state_ticks()
    ensures { (before : AreaValue) × (out : OutputsValue) × (after : AreaValue)
        × IsSoundState before ×
        StepLaws (λ event s. false) Event.Tick before out after × (after.tick ≡ 1) × (before.tick
        ≡ 0) }
{}
