//! Where an adjacency is wanted, and how one begins.

ghost use Rattle.std.specs.Prelude.{◌≡◌, OnOk};
ghost use Rattle.ospf_adjacency.specs.Adjacency.{is_broadcast, is_chosen, wants_adjacency, begins_by, event_taken, number_by};
ghost use Rattle.ospf_adjacency.specs.Descriptions.{event_turn};
ghost use Rattle.ospf_area.specs.Turns.{turn};

use ospf_area::{LinkContext, Outbox, send_dd};
use ospf_base::{Addr, InterfaceKind};
use ospf_exchange::begin;
use ospf_neighbour::iface::Iface;
use ospf_neighbour::{Effect, NbrEvent, Neighbour};
use std::alloc::AllocError;

/// Whether a link is a broadcast link, on which a DR and a Backup are
/// elected (RFC 2328, section 9.4).
pub fn is_broadcast(iface: &Iface) -> bool
    ensures { result ≡ is_broadcast iface.now }
{
    matches!(iface.settings.kind, InterfaceKind::Broadcast)
}

/// Whether an adjacency with the neighbour of this address is wanted (RFC 2328,
/// section 10.4). No memory is taken.
pub fn wants_adjacency(iface: &Iface, address: Addr) -> bool
    ensures { result ≡ wants_adjacency iface.now address }
{
    !is_broadcast(iface) || is_chosen(iface, iface.settings.address) || is_chosen(iface, address)
}

/// Processes an event of the neighbour machine (RFC 2328, section 10.3). Where it begins an
/// adjacency, the neighbour takes the router's next Database Description number, which counts
/// up, and a first packet is sent to it.
///
/// `AllocError` when memory runs out; then the router must be stopped.
pub fn take_event(
    neighbour: &mut Neighbour,
    event: NbrEvent,
    at: &LinkContext,
    outbox: &mut Outbox,
) -> Result<(), AllocError>
    ensures neighbour { neighbour.new
        ≡ event_taken event at.now.iface.settings.dead outbox.old.next at.now.local.tick
        neighbour.old }
    ensures number { outbox.new.next ≡ number_by event neighbour.old outbox.old.next }
    ensures turn { OnOk result
        (turn neighbour.new outbox.new
        ≡ event_turn at.now.iface at.now.local event (turn neighbour.old outbox.old)) }
{
    if count_event(neighbour, event, at, outbox) {
        send_dd(neighbour, at, outbox)?;
    }
    Ok(())
}

// Whether an address is that of the Designated Router or the Backup.
fn is_chosen(iface: &Iface, address: Addr) -> bool
    ensures { result ≡ is_chosen iface.now address }
{
    address.0 == iface.dr.0 || address.0 == iface.backup.0
}

// Processes an event; whether it begins an adjacency. The neighbour then has the router's next
// Database Description number, which counts up.
fn count_event(
    neighbour: &mut Neighbour,
    event: NbrEvent,
    at: &LinkContext,
    outbox: &mut Outbox,
) -> bool
    ensures begins { result ≡ begins_by event neighbour.old }
    ensures neighbour { neighbour.new
        ≡ event_taken event at.now.iface.settings.dead outbox.old.next at.now.local.tick
        neighbour.old }
    ensures number { outbox.new ≡ record outbox.old
        { next = number_by event neighbour.old outbox.old.next } }
{
    let next = outbox.next();
    let change = neighbour.event(event, at.iface.settings.dead);
    if !matches!(change.effect, Effect::AdjacencyBegins) {
        return false;
    }
    begin(neighbour, next, at.local.tick);
    outbox.set_next(next.wrapping_add(1));
    true
}
