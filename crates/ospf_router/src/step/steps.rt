//! A step.

ghost use Rattle.std.specs.Prelude.{◌≡◌, ◌≢◌, None, IfOk, OnErr, OnOk, slice_get};
ghost use Rattle.ospf_area.specs.Sending.{and_sends, context_of};
ghost use Rattle.ospf_router.specs.AreaStep.Accounts.{Accounts};
ghost use Rattle.ospf_router.specs.AreaStep.Step.{StepLaws, heard_in};
ghost use Rattle.ospf_router.specs.AreaStep.Words.{IsSoundState};
ghost use Rattle.ospf_adjacency.specs.LinkSteps.Parts.{link_down, link_up};
ghost use Rattle.ospf_adjacency.specs.LinkSteps.Works.{link_changed, up_out_on};
ghost use Rattle.ospf_router.specs.AreaStep.Drops.{dropped_by, is_dropped};
ghost use Rattle.ospf_router.specs.AreaStep.Events.{happening};
ghost use Rattle.ospf_router.specs.AreaStep.Fit.{IsFitRouter};
ghost use Rattle.ospf_router.specs.AreaStep.Ready.{IsReadyFor};
ghost use Rattle.ospf_router.specs.AreaStep.Same.{IsSameRouter};
ghost use Rattle.ospf_router.specs.AreaStep.Steps.{StepsArea};
ghost use Rattle.ospf_router.specs.AreaStep.Takes.{TakesEvent};
ghost use Rattle.ospf_area.specs.Acting.{Becomes};

use crate::step::datagrams::take_datagram;
use crate::step::dropped::Dropped;
use crate::step::ends::end;
use crate::step::event::Event;
use crate::step::ticks::take_tick;
use ospf_adjacency::{elections_come_about, neighbours_stay_of_link, repeats_are_quiet};
use ospf_area::{Area, Outputs};
use ospf_originate::area_stays_sound;
use std::alloc::{AllocError, Global};

/// What a step gives: its outputs, and why its datagram is dropped, if it is.
#[derive(Drop)]
pub struct StepResult {
    pub out: Outputs,
    pub dropped: Option<Dropped>,
}

/// Takes an event. A datagram that is dropped, for the first cause that applies, changes nothing
/// and has no output; after any other event come the elections that are due, the router's own LSAs,
/// and the LSAs that leave the database. Each step keeps the laws of a step, and from a sound state
/// it accounts to other routers for all that it does.
///
/// `AllocError` where memory runs out; then the router must be stopped.
pub fn step(area: &mut Area, event: Event<'_>, alloc: Global) -> Result<StepResult, AllocError>
    requires { IsFitRouter area.old }
    // What the step does by the exact rules, and the laws of a step, which it keeps.
    ensures step { IfOk result (λ t. StepsArea (happening event.entry) area.old t.dropped t.out
        area.new) }
    ensures laws { IfOk result (λ t. StepLaws is_dropped (happening event.entry) area.old t.out
        area.new) }
    // From a sound state it accounts to other routers for what it does, and stays sound.
    ensures accounts { IsSoundState area.old →
        IfOk result (λ t. Accounts (heard_in (happening event.entry)) area.old t.out area.new) }
    ensures sound { IsSoundState area.old → OnOk result (IsSoundState area.new) }
    // It stays the same router, fit for what follows, and a dropped event needs no memory.
    ensures same { OnOk result (IsSameRouter area.old area.new) }
    ensures memory { OnErr result (dropped_by (happening event.entry) area.old ≡ None) }
    ensures fit { OnOk result (IsFitRouter area.new) }
{
    // For the proof.
    neighbours_stay_of_link();
    elections_come_about();
    repeats_are_quiet();
    area_stays_sound();
    let mut out = Outputs::new(alloc);
    let dropped = take(area, event, &mut out, alloc)?;
    if dropped.is_some() {
        return Ok(StepResult { out, dropped });
    }
    end(area, &mut out, alloc)?;
    Ok(StepResult { out, dropped })
}

// What an event does before the step ends.
fn take(
    area: &mut Area,
    event: Event<'_>,
    out: &mut Outputs,
    alloc: Global,
) -> Result<Option<Dropped>, AllocError>
    requires { IsFitRouter area.old }
    // The event is dropped for the cause that applies, if one does, or else processed by the rules.
    ensures dropped { IfOk result (λ d. d ≡ dropped_by (happening event.entry) area.old) }
    ensures sender { IfOk result (λ d. d ≡ None → IsReadyFor (happening event.entry) area.old) }
    ensures takes { IfOk result (λ d. d ≡ None →
        TakesEvent (happening event.entry) area.old out.old out.new area.new) }
    // An event that is dropped changes nothing, and has no output.
    ensures unchanged { IfOk result (λ d. d ≢ None → area.new ≡ area.old) }
    ensures silent { IfOk result (λ d. d ≢ None → out.new ≡ out.old) }
    // An event that is dropped needs no memory, and the area is fit for what follows.
    ensures memory { OnErr result (dropped_by (happening event.entry) area.old ≡ None) }
    ensures fit { OnOk result (IsFitRouter area.new) }
{
    match event {
        // (8.2)
        Event::Datagram {
            link,
            source,
            destination,
            bytes,
        } => take_datagram(area, link, source, destination, bytes, out, alloc),
        // (14)
        Event::Tick => {
            take_tick(area, out, alloc)?;
            Ok(None)
        }
        // (9.3, InterfaceUp)
        Event::LinkUp { link } => {
            take_up(area, link, out, alloc)?;
            Ok(None)
        }
        // (9.3, InterfaceDown)
        Event::LinkDown { link } => {
            take_down(area, link, alloc);
            Ok(None)
        }
    }
}

// As `ospf_adjacency::link_steps::take_up`, and the router stays fit.
fn take_up(area: &mut Area, link: usize, out: &mut Outputs, alloc: Global) -> Result<(), AllocError>
    requires { IsFitRouter area.old }
    ensures takes { OnOk result (Becomes (link_changed link_up link area.old)
        (and_sends out.old (up_out_on (slice_get area.old.links link) (context_of area.old) link))
        out.new area.new) }
    ensures fit { OnOk result (IsFitRouter area.new) }
{
    ospf_adjacency::link_steps::take_up(area, link, out, alloc)
}

// As `ospf_adjacency::link_steps::take_down`, and the router stays fit.
fn take_down(area: &mut Area, link: usize, alloc: Global)
    requires { IsFitRouter area.old }
    ensures after { area.new ≡ link_changed link_down link area.old }
    ensures fit { IsFitRouter area.new }
{
    ospf_adjacency::link_steps::take_down(area, link, alloc);
}
