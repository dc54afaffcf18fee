//! Links that go up and down.

ghost use Rattle.std.specs.Prelude.{◌≡◌, OnOk, slice_get};
ghost use Rattle.ospf_area.specs.Sending.{and_sends, context_of};
ghost use Rattle.ospf_neighbour.specs.Interface.Machine.{is_down};
ghost use Rattle.ospf_adjacency.specs.Links.{hello_packet};
ghost use Rattle.ospf_area.specs.Packets.{packet_if};
ghost use Rattle.ospf_adjacency.specs.LinkSteps.Parts.{link_down, link_up};
ghost use Rattle.ospf_area.specs.Outboxes.{posted_all};
ghost use Rattle.ospf_adjacency.specs.LinkSteps.Works.{link_changed, up_out_on};

use crate::link_steps::link::take_out;
use crate::{go_down, go_up, send_hello};
use ospf_area::{Area, AreaLink, Outbox, Outputs, RouterContext, context_of};
use std::alloc::{AllocError, Global};

/// A link of the router goes up (RFC 2328, section 9.3): if it was down, its first Hello
/// is sent.
///
/// `AllocError` when memory runs out; then the router must be stopped.
pub fn take_up(
    area: &mut Area,
    number: usize,
    out: &mut Outputs,
    alloc: Global,
) -> Result<(), AllocError>
    ensures after { OnOk result (area.new ≡ link_changed link_up number area.old) }
    ensures sent { OnOk result (out.new ≡ and_sends out.old
        (up_out_on (slice_get area.old.links number) (context_of area.old) number)) }
{
    let own = context_of(area);
    match area.links.get_mut(number) {
        Some(link) => link_goes_up(link, number, own, out, alloc),
        None => Ok(()),
    }
}

/// A link of the router goes down (RFC 2328, section 9.3): its
/// neighbours are removed. No memory is taken.
pub fn take_down(area: &mut Area, number: usize, alloc: Global)
    ensures { area.new ≡ link_changed link_down number area.old }
{
    if let Some(link) = area.links.get_mut(number) {
        link_down(link, alloc);
    }
}

// A link goes up; if it was down, its first Hello is sent.
fn link_goes_up(
    link: &mut AreaLink,
    number: usize,
    own: RouterContext,
    out: &mut Outputs,
    alloc: Global,
) -> Result<(), AllocError>
    ensures after { OnOk result (link.new ≡ link_up link.old) }
    ensures sent { let i = (link_up link.old).iface in
        OnOk result
        (out.new
        ≡ and_sends out.old
        (posted_all own number i
        (packet_if (is_down link.old.iface.state) (hello_packet i link.old.neighbours)))) }
{
    if !go_up(&mut link.iface) {
        return Ok(());
    }
    let mut outbox = Outbox::new(0, alloc);
    send_hello(&link.iface, link.neighbours.all(), &mut outbox)?;
    outbox.send_all(out, own, number, &link.iface)
}

// A link goes down.
fn link_down(link: &mut AreaLink, alloc: Global)
    ensures { link.new ≡ link_down link.old }
{
    let mut all = take_out(link, alloc);
    if go_down(&mut link.iface, &mut all) {
        link.delayed.clear();
        link.elects = false;
    }
    let neighbours = &mut link.neighbours;
    neighbours.all = all;
}
