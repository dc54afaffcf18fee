//! Received Hellos.

ghost use Rattle.std.specs.Prelude.{◌≡◌, ◌<◌, None, Some, OnOk, length, slice_get};
ghost use Rattle.ospf_neighbour.specs.Neighbours.{max_neighbours, neighbour_of};
ghost use Rattle.ospf_area.specs.Sending.{context_of};
ghost use Rattle.ospf_area.specs.State.{LinkValue};
ghost use Rattle.ospf_adjacency.specs.Heard.{names};
ghost use Rattle.ospf_adjacency.specs.LinkSteps.Parts.{hello_comes, hello_part, left_beside, with_neighbourhood};
ghost use Rattle.ospf_adjacency.specs.LinkSteps.Works.{WorksOn};

use crate::link_steps::link::{iface_of, is_due, put_back, take_out};
use crate::{is_named, receive_hello};
use ospf_area::{
    Area, AreaLink, LinkContext, Outbox, Outputs, PacketSource, RouterContext, context_of,
};
use ospf_packet::{Hello, Neighbours};
use std::alloc::{AllocError, Global};

/// Processes a Hello that was received on a link of the router (RFC 2328, section 10.5) and is
/// not dropped: its sender is a neighbour, or there is room for one more. If there
/// is no such link, nothing happens.
///
/// `AllocError` when memory runs out; then the router must be stopped.
pub fn take_hello(
    area: &mut Area,
    from: PacketSource,
    hello: &Hello,
    neighbours: Neighbours<'_>,
    out: &mut Outputs,
    alloc: Global,
) -> Result<(), AllocError>
    requires room { (link : LinkValue) → slice_get area.old.links from.link ≡ Some link
        → neighbour_of link.neighbours from.router ≡ None
        → length link.neighbours < max_neighbours }
    ensures { OnOk result (WorksOn
        (hello_part (context_of area.old) from hello.now (names neighbours.entry area.old.router)
        area.old.next_dd)
        from.link area.old out.old out.new area.new) }
{
    let own = context_of(area);
    let named = is_named(neighbours, area.router);
    match area.links.get_mut(from.link) {
        Some(link) => {
            let iface = iface_of(link);
            let mut outbox = Outbox::new(area.next_dd, alloc);
            hello_comes(link, from, hello, named, own, &mut outbox)?;
            area.next_dd = outbox.next();
            outbox.send_all(out, own, from.link, &iface)
        }
        None => Ok(()),
    }
}

// Processes a Hello received on a link.
fn hello_comes(
    link: &mut AreaLink,
    from: PacketSource,
    hello: &Hello,
    named: bool,
    own: RouterContext,
    outbox: &mut Outbox,
) -> Result<(), AllocError>
    requires room { neighbour_of link.old.neighbours from.router ≡ None →
        length link.old.neighbours < max_neighbours }
    ensures after { OnOk result
        (link.new
        ≡ with_neighbourhood (hello_comes own from hello.now named outbox.old link.old) link.old) }
    ensures left { OnOk result (outbox.new
        ≡ left_beside (hello_comes own from hello.now named outbox.old link.old)) }
{
    let at = LinkContext::of(own, link);
    let mut all = take_out(link, outbox.alloc());
    let elects = receive_hello(
        &mut all,
        from.router,
        from.address,
        hello,
        named,
        &at,
        outbox,
    )?;
    let due = is_due(link, elects);
    put_back(link, all, due);
    Ok(())
}
