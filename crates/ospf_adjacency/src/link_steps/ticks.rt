//! The timers of links, and the Hellos that are due.

ghost use Rattle.std.specs.Prelude.{◌≡◌, ◌||◌, ◌-◌, OnOk, map};
ghost use Rattle.ospf_area.specs.Places.{flat_from};
ghost use Rattle.ospf_area.specs.Sending.{and_sends};
ghost use Rattle.ospf_area.specs.State.{LinkValue};
ghost use Rattle.ospf_adjacency.specs.Links.{elects_by_timers, hello_ticked, timed};
ghost use Rattle.ospf_adjacency.specs.LinkSteps.Parts.{hello_out, link_timed};

use crate::link_steps::link::{put_back, take_out};
use crate::{send_due_hello, tick_timers};
use ospf_area::{AreaLink, Outbox, Outputs, RouterContext};
use ospf_neighbour::Neighbour;
use std::alloc::{AllocError, Global};

/// A tick of the wait timers and the inactivity timers of all links (RFC 2328, sections 9.3
/// and 10.3). No memory is taken.
pub fn count_timers(links: &mut [AreaLink], alloc: Global)
    ensures { links.new ≡ map link_timed links.old }
{
    for link in links.iter_mut() {
        link_timers(link, alloc);
    }
}

/// A tick of the Hello timers of all links: the Hellos that are due are sent (RFC 2328, section
/// 9.5).
///
/// `AllocError` when memory runs out; then the router must be stopped.
pub fn send_hellos(
    links: &mut [AreaLink],
    own: RouterContext,
    out: &mut Outputs,
    alloc: Global,
) -> Result<(), AllocError>
    ensures after { OnOk result (links.new
        ≡ map (λ (link : LinkValue). record link { iface = hello_ticked link.iface }) links.old) }
    ensures sent { OnOk result (out.new ≡ and_sends out.old
        (flat_from (hello_out own) 0 links.old)) }
{
    for (number, link) in links.iter_mut().enumerate() {
        send_hello_on(link, number, own, out, alloc)?;
    }
    Ok(())
}

// A tick of a link's timers.
fn link_timers(link: &mut AreaLink, alloc: Global)
    ensures { link.new ≡ link_timed link.old }
{
    let mut all = take_out(link, alloc);
    let due = count(link, &mut all);
    put_back(link, all, due);
}

// The timers of an interface and of neighbours that were taken out.
fn count(link: &mut AreaLink, all: &mut Vec<Neighbour>) -> bool
    ensures due { result ≡ link.old.elects || elects_by_timers link.old.iface all.old.items }
    ensures link { link.new
        ≡ record link.old { iface = record link.old.iface { wait = link.old.iface.wait - 1 } } }
    ensures neighbours { all.new.items ≡ timed all.old.items }
{
    let elects = tick_timers(&mut link.iface, all);
    link.elects || elects
}

// A tick of a link's Hello timer.
fn send_hello_on(
    link: &mut AreaLink,
    number: usize,
    own: RouterContext,
    out: &mut Outputs,
    alloc: Global,
) -> Result<(), AllocError>
    ensures after { OnOk result (link.new
        ≡ record link.old { iface = hello_ticked link.old.iface }) }
    ensures sent { OnOk result (out.new ≡ and_sends out.old (hello_out own number link.old)) }
{
    let mut outbox = Outbox::new(0, alloc);
    send_due_hello(&mut link.iface, link.neighbours.all(), &mut outbox)?;
    outbox.send_all(out, own, number, &link.iface)
}
