//! Hellos that go out.

ghost use Rattle.std.specs.Prelude.{◌≡◌, ◌&&◌, ◌∷◌, [], not, nat_le, map, IfOk, OnOk};
ghost use Rattle.ospf_neighbour.specs.Interface.Machine.{is_down};
ghost use Rattle.ospf_area.specs.Packets.{packet_if};
ghost use Rattle.ospf_area.specs.Outboxes.{and_packets};
ghost use Rattle.ospf_adjacency.specs.Links.{hello_packet, hello_ticked};

use ospf_area::Outbox;
use ospf_base::{ALL_SPF_ROUTERS, RouterId};
use ospf_neighbour::Neighbour;
use ospf_neighbour::iface::Iface;
use std::alloc::{AllocError, Global};

/// Sends the Hello of a link (RFC 2328, section 9.5).
///
/// `AllocError` when memory runs out; then the router must be stopped.
pub fn send_hello(
    iface: &Iface,
    neighbours: &[Neighbour],
    outbox: &mut Outbox,
) -> Result<(), AllocError>
    ensures { OnOk result (outbox.new ≡ and_packets outbox.old
        (hello_packet iface.now neighbours.now ∷ [])) }
{
    let alloc = outbox.alloc();
    let routers = routers_of(neighbours, alloc)?;
    let body = iface.hello(alloc, &routers)?;
    outbox.put(ALL_SPF_ROUTERS, body)
}

/// A tick of a link's Hello timer: the Hello is sent where it is due (RFC 2328, section 9.5).
///
/// `AllocError` when memory runs out; then the router must be stopped.
pub fn send_due_hello(
    iface: &mut Iface,
    neighbours: &[Neighbour],
    outbox: &mut Outbox,
) -> Result<(), AllocError>
    ensures timer { iface.new ≡ hello_ticked iface.old }
    ensures sent { OnOk result
        (outbox.new
        ≡ and_packets outbox.old
        (packet_if (not (is_down iface.old.state) && nat_le iface.old.hello_in 1)
        (hello_packet iface.old neighbours.now))) }
{
    if iface.hello_tick() {
        send_hello(iface, neighbours, outbox)?;
    }
    Ok(())
}

// The Router IDs of neighbours.
fn routers_of(neighbours: &[Neighbour], alloc: Global) -> Result<Vec<RouterId>, AllocError>
    ensures { IfOk result (λ v. v.items ≡ map (λ n. n.router) neighbours.now) }
{
    neighbours.iter().map(|n| n.router()).collect(alloc)
}
