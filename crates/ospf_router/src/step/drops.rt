//! The causes that a datagram is dropped for, in their order.

ghost use Rattle.std.specs.Prelude.{◌≡◌, ◌==◌, ◌&&◌, IfErr, bit_and, IfOk, None, OnOk, Some, if◌then◌else◌, is_some, not};
ghost use Rattle.std.specs.Option.{option_copied};
ghost use Rattle.ospf_adjacency.specs.Adjacency.{is_broadcast};
ghost use Rattle.ospf_neighbour.specs.Neighbour.{is_empty};
ghost use Rattle.ospf_neighbour.specs.Neighbours.{at_address, neighbour_of};
ghost use Rattle.ospf_packet.specs.PacketOf.{packet_of};
ghost use Rattle.ospf_packet.specs.Said.{body_said, said};
ghost use Rattle.ospf_neighbour.specs.Interface.Hello.{agrees};
ghost use Rattle.ospf_router.specs.AreaStep.Receipt.{is_destination, sender_in, drop_of_hello, drop_of_description, drop_below_exchange, drop_by_body, drop_of_packet};

use crate::step::dropped::Dropped;
use ospf_adjacency::{is_broadcast, is_dropped};
use ospf_base::{ALL_D_ROUTERS, ALL_SPF_ROUTERS, Addr, AreaId, RouterId};
use ospf_exchange::Local;
use ospf_neighbour::iface::Iface;
use ospf_neighbour::{MAX_NEIGHBOURS, Neighbour};
use ospf_packet::{Body, Description, Headers, Packet};

/// The packet that a datagram is, which came from `source` on a link and is for `destination`, or
/// the first cause that it is dropped for (RFC 2328, sections 8.2, 10.5 to 10.7, 13 and 13.7).
/// Nothing changes, and no memory is allocated.
pub fn receive<'a>(
    bytes: &'a [u8],
    source: Addr,
    destination: Addr,
    iface: &Iface,
    neighbours: &[Neighbour],
    area: AreaId,
    local: Local,
) -> Result<Packet<'a>, Dropped>
    ensures packet { IfOk result (λ p. packet_of bytes.now ≡ Some (said p)) }
    ensures taken { OnOk result ((elim (packet_of bytes.now) [
      | None ↦ Some Dropped.Packet
      | Some m ↦ drop_of_packet local iface.now neighbours.now area source destination m
    ]) ≡ None) }
    ensures dropped { IfErr result (λ d. (elim (packet_of bytes.now) [
      | None ↦ Some Dropped.Packet
      | Some m ↦ drop_of_packet local iface.now neighbours.now area source destination m
    ]) ≡ Some d) }
{
    let packet = match Packet::read(bytes) {
        Ok(packet) => packet,
        Err(_) => return Err(Dropped::Packet),
    };
    match drop_of_packet(&packet, source, destination, iface, neighbours, area, local) {
        Some(dropped) => Err(dropped),
        None => Ok(packet),
    }
}

// The first cause that a packet is dropped for, if there is one.
fn drop_of_packet(
    packet: &Packet<'_>,
    source: Addr,
    destination: Addr,
    iface: &Iface,
    neighbours: &[Neighbour],
    area: AreaId,
    local: Local,
) -> Option<Dropped>
    ensures { result ≡ drop_of_packet local iface.now neighbours.now area source destination
        (said packet.now) }
{
    // (9.1, 8.2) In this order: the interface, the Area ID, the Router ID,
    // the destination and the source.
    if iface.state.is_down() {
        Some(Dropped::Packet)
    } else if packet.area.0 != area.0 {
        Some(Dropped::Area)
    } else if packet.router.0 == iface.settings.router.0 {
        Some(Dropped::OwnPacket)
    } else if !is_destination(iface, destination) {
        Some(Dropped::Destination)
    } else if is_foreign(iface, source) {
        Some(Dropped::Subnet)
    } else {
        // (8.2) Its sender is known by its address, or by its Router ID.
        let sender = sender_in(iface, neighbours, packet.router, source);
        drop_by_body(
            &packet.body,
            iface,
            neighbours,
            packet.router,
            sender,
            local,
        )
    }
}

// Whether a datagram is for the interface.
fn is_destination(iface: &Iface, destination: Addr) -> bool
    ensures { result ≡ is_destination iface.now destination }
{
    destination.0 == ALL_SPF_ROUTERS.0
        || destination.0 == iface.settings.address.0
        || (destination.0 == ALL_D_ROUTERS.0 && iface.state.is_dr_or_backup())
}

// Whether it comes from another network.
fn is_foreign(iface: &Iface, source: Addr) -> bool
    ensures { result ≡ (is_broadcast iface.now
        && not (bit_and source.0 iface.now.settings.mask
        == bit_and iface.now.settings.address.0 iface.now.settings.mask)) }
{
    let mask = iface.settings.mask;
    is_broadcast(iface) && source.0 & mask != iface.settings.address.0 & mask
}

// The sender among the neighbours.
fn sender_in<'a>(
    iface: &Iface,
    neighbours: &'a [Neighbour],
    router: RouterId,
    source: Addr,
) -> Option<&'a Neighbour>
    ensures { option_copied result ≡ sender_in iface.now neighbours.now router source }
{
    if is_broadcast(iface) {
        at_address(neighbours, source)
    } else {
        of_router(neighbours, router)
    }
}

// The neighbour at an address.
fn at_address(neighbours: &[Neighbour], address: Addr) -> Option<&Neighbour>
    ensures { option_copied result ≡ at_address neighbours.now address }
{
    neighbours.iter().find(|n| n.address().0 == address.0)
}

// The neighbour of a Router ID.
fn of_router(neighbours: &[Neighbour], router: RouterId) -> Option<&Neighbour>
    ensures { option_copied result ≡ neighbour_of neighbours.now router }
{
    neighbours.iter().find(|n| n.router().0 == router.0)
}

// By what the packet says.
fn drop_by_body(
    body: &Body<'_>,
    iface: &Iface,
    neighbours: &[Neighbour],
    router: RouterId,
    sender: Option<&Neighbour>,
    local: Local,
) -> Option<Dropped>
    ensures { result ≡ drop_by_body local (body_said body.now) iface.now neighbours.now router
        (option_copied sender.entry) }
{
    match body {
        Body::Hello(hello, _) => {
            if iface.agrees(hello) {
                drop_of_hello(iface, neighbours, router, sender)
            } else {
                Some(Dropped::HelloMismatch)
            }
        }
        Body::Description(description, headers) => {
            drop_of_description(*description, headers, router, sender, local)
        }
        Body::Request(_) | Body::Update(_) | Body::Acknowledgment(_) => {
            drop_below_exchange(router, sender)
        }
    }
}

// Why a Hello that agrees with the interface is dropped.
fn drop_of_hello(
    iface: &Iface,
    neighbours: &[Neighbour],
    router: RouterId,
    sender: Option<&Neighbour>,
) -> Option<Dropped>
    ensures { result ≡ drop_of_hello iface.now neighbours.now router (option_copied sender.entry) }
{
    match sender {
        // A router that is not known.
        None if is_elsewhere(iface, neighbours, router) => Some(Dropped::WrongRouter),
        None if neighbours.len() < MAX_NEIGHBOURS => None,
        None => Some(Dropped::State),
        Some(neighbour) => {
            if neighbour.router().0 == router.0 {
                None
            } else {
                Some(Dropped::WrongRouter)
            }
        }
    }
}

// Whether a router that was not found is a neighbour elsewhere.
fn is_elsewhere(iface: &Iface, neighbours: &[Neighbour], router: RouterId) -> bool
    ensures { result ≡ (if is_broadcast iface.now then is_some (neighbour_of neighbours.now router)
        else not (is_empty neighbours.now)) }
{
    if is_broadcast(iface) {
        matches!(of_router(neighbours, router), Some(_))
    } else {
        !neighbours.is_empty()
    }
}

// Why a Database Description is dropped.
fn drop_of_description(
    description: Description,
    headers: &Headers<'_>,
    router: RouterId,
    sender: Option<&Neighbour>,
    local: Local,
) -> Option<Dropped>
    ensures { result ≡ drop_of_description local router description headers.now
        (option_copied sender.entry) }
{
    match sender {
        None => Some(Dropped::NoNeighbour),
        Some(neighbour) => {
            if neighbour.router().0 != router.0 {
                Some(Dropped::WrongRouter)
            } else if is_dropped(neighbour, router, description, headers, local) {
                Some(Dropped::State)
            } else {
                None
            }
        }
    }
}

// Why a packet is dropped that is accepted in Exchange and above.
fn drop_below_exchange(router: RouterId, sender: Option<&Neighbour>) -> Option<Dropped>
    ensures { result ≡ drop_below_exchange router (option_copied sender.entry) }
{
    match sender {
        None => Some(Dropped::NoNeighbour),
        Some(neighbour) => {
            if neighbour.router().0 != router.0 {
                Some(Dropped::WrongRouter)
            } else if neighbour.state().is_exchanging() {
                None
            } else {
                Some(Dropped::State)
            }
        }
    }
}
