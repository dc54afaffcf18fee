//! The elections that end a step.

ghost use Rattle.std.specs.Prelude.{◌≡◌, ◌++◌, true, false, List, OnOk, length};
ghost use Rattle.ospf_adjacency.specs.Elections.{AreOfLink, ElectsOn, elects_in};
ghost use Rattle.ospf_area.specs.Packets.{PendingPacket};
ghost use Rattle.ospf_area.specs.Outboxes.{posted_all};
ghost use Rattle.ospf_area.specs.Sending.{and_sends};
ghost use Rattle.ospf_adjacency.specs.LinkSteps.Elections.{ElectsIf, AreReady, ElectsAt, ElectsFrom, IsReady};

use crate::elect_on;
use crate::link_steps::link::{iface_of, put_back, take_out};
use ospf_area::{Area, AreaLink, Outbox, Outputs, RouterContext, context_of, local_of};
use ospf_exchange::Local;
use ospf_neighbour::Neighbour;
use std::alloc::{AllocError, Global};

/// The elections that are due, link by link, with AdjOK? (RFC 2328, section 9.4).
///
/// `AllocError` when memory runs out; then the router must be stopped.
pub fn elect(area: &mut Area, out: &mut Outputs, alloc: Global) -> Result<(), AllocError>
    requires { AreReady area.old.links }
    ensures { OnOk result (ElectsFrom (length area.old.links) area.old out.old out.new area.new) }
{
    let count = area.links.len();
    for number in 0..count {
        elect_at(area, number, out, alloc)?;
    }
    Ok(())
}

// The election of the link of this number, where one is due.
fn elect_at(
    area: &mut Area,
    number: usize,
    out: &mut Outputs,
    alloc: Global,
) -> Result<(), AllocError>
    requires { AreReady area.old.links }
    ensures { OnOk result (ElectsAt number area.old out.old out.new area.new) }
{
    let own = context_of(area);
    match area.links.get_mut(number) {
        Some(link) => elect_link(link, number, own, &mut area.next_dd, out, alloc),
        None => Ok(()),
    }
}

// The election of a link, where one is due, and what it sends.
fn elect_link(
    link: &mut AreaLink,
    number: usize,
    own: RouterContext,
    next: &mut u32,
    out: &mut Outputs,
    alloc: Global,
) -> Result<(), AllocError>
    requires { IsReady link.old }
    ensures { OnOk result
        ((sent : List PendingPacket)
        × ElectsIf link.old.elects own next.old link.old link.new next.new sent
        × (out.new ≡ and_sends out.old (posted_all own number link.old.iface sent))) }
{
    if !link.elects {
        return Ok(());
    }
    let local = local_of(own, link);
    let iface = iface_of(link);
    let mut outbox = Outbox::new(*next, alloc);
    link_election(link, local, &mut outbox)?;
    *next = outbox.next();
    outbox.send_all(out, own, number, &iface)
}

// The election of a link on which one is due, and AdjOK?.
fn link_election(link: &mut AreaLink, local: Local, outbox: &mut Outbox) -> Result<(), AllocError>
    requires electing { elects_in link.old.iface.state ≡ true }
    requires others { AreOfLink link.old.iface link.old.neighbours }
    ensures { OnOk result
        ((sent : List PendingPacket)
        × (ElectsOn local.mtu local.tick link.old.iface link.old.neighbours outbox.old.next sent
        link.new.iface link.new.neighbours outbox.new.next
        × (link.new ≡ record link.old {
          iface = link.new.iface;
          neighbours = link.new.neighbours;
          elects = false;
        }))
        × (outbox.new.sent ≡ outbox.old.sent ++ sent)) }
{
    let mut all = take_out(link, outbox.alloc());
    elect_over(link, &mut all, local, outbox)?;
    put_back(link, all, false);
    Ok(())
}

// The election, over neighbours that were taken out.
fn elect_over(
    link: &mut AreaLink,
    all: &mut Vec<Neighbour>,
    local: Local,
    outbox: &mut Outbox,
) -> Result<(), AllocError>
    requires electing { elects_in link.old.iface.state ≡ true }
    requires link { AreOfLink link.old.iface all.old.items }
    ensures elects { OnOk result
        ((sent : List PendingPacket)
        × ElectsOn local.mtu local.tick link.old.iface all.old.items outbox.old.next sent
        link.new.iface all.new.items outbox.new.next
        × (outbox.new.sent ≡ outbox.old.sent ++ sent)) }
    ensures rest { link.new ≡ record link.old { iface = link.new.iface } }
{
    elect_on(&mut link.iface, all, local, outbox)
}
