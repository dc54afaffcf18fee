//! Ticks.

ghost use Rattle.std.specs.Prelude.{◌≡◌, [], OnOk, map};
ghost use Rattle.ospf_area.specs.Acting.{OnEachLink};
ghost use Rattle.ospf_area.specs.Sending.{context_of};
ghost use Rattle.ospf_adjacency.specs.Links.{hello_ticked};
ghost use Rattle.ospf_adjacency.specs.LinkSteps.Parts.{hello_out, link_timed};
ghost use Rattle.ospf_router.specs.AreaStep.Fit.{IsFitRouter};
ghost use Rattle.ospf_router.specs.AreaStep.Ticks.{RepeatsAll, TakesTick};
ghost use Rattle.ospf_area.specs.Updates.Acks.{delayed_out_on};

use ospf_adjacency::{elections_come_about, neighbours_stay_of_link, repeats_are_quiet};
use ospf_area::update::age;
use ospf_area::{Area, Outputs, context_of};
use ospf_originate::area_stays_sound;
use std::alloc::{AllocError, Global};

/// Takes a tick: ages, timers, Hellos, acknowledgements and repeats.
pub(crate) fn take_tick(area: &mut Area, out: &mut Outputs, alloc: Global) -> Result<(), AllocError>
    requires { IsFitRouter area.old }
    ensures takes { OnOk result (TakesTick area.old out.old out.new area.new) }
    ensures fit { OnOk result (IsFitRouter area.new) }
{
    // For the proof.
    neighbours_stay_of_link();
    elections_come_about();
    repeats_are_quiet();
    area_stays_sound();
    beat(area, out, alloc)
}

// Ages, timers, Hellos, acknowledgements and repeats.
fn beat(area: &mut Area, out: &mut Outputs, alloc: Global) -> Result<(), AllocError>
    ensures { OnOk result (TakesTick area.old out.old out.new area.new) }
{
    // (14)
    age(area, out, alloc)?;
    // (9.3, 10.3)
    count_timers(area, alloc);
    // (9.5)
    send_hellos(area, out, alloc)?;
    // (13.5)
    send_delayed(area, out, alloc)?;
    // (10.8, 10.9, 13.6)
    repeat_all(area, out, alloc)
}

// As `ospf_adjacency::link_steps::count_timers`, over the links of an area.
fn count_timers(area: &mut Area, alloc: Global)
    ensures { area.new ≡ record area.old { links = map link_timed area.old.links } }
{
    ospf_adjacency::link_steps::count_timers(&mut area.links, alloc);
}

// As `ospf_adjacency::link_steps::send_hellos`, over the links of an area.
fn send_hellos(area: &mut Area, out: &mut Outputs, alloc: Global) -> Result<(), AllocError>
    ensures { OnOk result (OnEachLink (λ link. record link { iface = hello_ticked link.iface })
        (hello_out (context_of area.old)) area.old out.old out.new area.new) }
{
    let own = context_of(area);
    ospf_adjacency::link_steps::send_hellos(&mut area.links, own, out, alloc)
}

// As `ospf_area::update::send_delayed`, over the links of an area.
fn send_delayed(area: &mut Area, out: &mut Outputs, alloc: Global) -> Result<(), AllocError>
    ensures { OnOk result (OnEachLink (λ link. record link { delayed = [] })
        (delayed_out_on (context_of area.old)) area.old out.old out.new area.new) }
{
    let own = context_of(area);
    ospf_area::update::send_delayed(&mut area.links, own, out, alloc)
}

// As `ospf_adjacency::link_steps::repeat_all`, over the links of an area.
fn repeat_all(area: &mut Area, out: &mut Outputs, alloc: Global) -> Result<(), AllocError>
    ensures { OnOk result (RepeatsAll area.old out.old out.new area.new) }
{
    let own = context_of(area);
    ospf_adjacency::link_steps::repeat_all(
        &mut area.links,
        &area.database,
        own,
        &mut area.sent,
        out,
        alloc,
    )
}
