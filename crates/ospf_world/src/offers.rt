//! Whom a datagram is offered to.

ghost use Rattle.std.specs.Prelude.{◌≡◌, ◌++◌, IfOk, OnOk, Some};
ghost use Rattle.std.specs.List.{flat_map};
ghost use Rattle.ospf_world.specs.Offers.{address_at, is_for, is_offered, share_prefix};
ghost use Rattle.ospf_world.specs.Rounds.{is_offered_to, offer_at, offer_on};

use crate::logs::Datagram;
use crate::networks::LinkPlace;
use crate::slot::Slot;
use ospf_base::event::WorldEvent;
use ospf_base::{ALL_D_ROUTERS, ALL_SPF_ROUTERS, Addr, mask_of};
use ospf_config::{Config, InterfaceAddress};
use std::alloc::{AllocError, Global};

/// The address of the interface of a link, if the configuration has that link.
pub(crate) fn address_of(config: &Config, link: usize) -> Option<InterfaceAddress>
    ensures { result ≡ address_at config.now link }
{
    let interface = config.interfaces.get(link)?;
    Some(interface.address)
}

/// The deliveries of a datagram, which went out of an interface of this address, to the interfaces
/// at these places: to each whose router runs and is not the sender, whose prefix is that of the
/// sending interface, and which listens to the destination (RFC 2328, section 8.1).
///
/// `AllocError` where memory runs out.
pub(crate) fn offers_at(
    slots: &[Slot],
    links: &[LinkPlace],
    datagram: usize,
    from: &InterfaceAddress,
    sent: &Datagram,
    alloc: Global,
) -> Result<Vec<WorldEvent>, AllocError>
    ensures { IfOk result (λ events. events.items
        ≡ flat_map (offer_at datagram from.now sent.now slots.now) links.now) }
{
    let mut events = Vec::new(alloc);
    for at in links {
        push_offer(&mut events, slots, at, datagram, from, sent)?;
    }
    Ok(events)
}

// Adds what is offered to the interface at a place.
fn push_offer(
    events: &mut Vec<WorldEvent>,
    slots: &[Slot],
    at: &LinkPlace,
    datagram: usize,
    from: &InterfaceAddress,
    sent: &Datagram,
) -> Result<(), AllocError>
    ensures { OnOk result (events.new.items ≡ events.old.items
        ++ offer_at datagram from.now sent.now slots.now at.now) }
{
    match slots.get(at.place) {
        Some(slot) => push_on_link(events, slot, at.link, datagram, from, sent),
        None => Ok(()),
    }
}

// Adds what is offered to the interface of a link of a router, if there is that link.
fn push_on_link(
    events: &mut Vec<WorldEvent>,
    slot: &Slot,
    link: usize,
    datagram: usize,
    from: &InterfaceAddress,
    sent: &Datagram,
) -> Result<(), AllocError>
    ensures { OnOk result (events.new.items ≡ events.old.items
        ++ offer_on datagram from.now sent.now link (Some slot.now)) }
{
    let config = slot.config();
    let Some(to) = address_of(config, link) else {
        return Ok(());
    };
    if is_offered_to(slot, from, sent, &to) {
        let router = config.router_id;
        events.push(WorldEvent::Deliver {
            datagram,
            router,
            link,
        })?;
    }
    Ok(())
}

// Whether a datagram is offered to an interface of a router: another
// one sent it, and this one runs.
fn is_offered_to(
    slot: &Slot,
    from: &InterfaceAddress,
    sent: &Datagram,
    to: &InterfaceAddress,
) -> bool
    ensures { result ≡ is_offered_to from.now sent.now slot.now to.now }
{
    let is_other = slot.config().router_id.0 != sent.router.0;
    slot.runs() && is_other && takes(from, sent.sent.destination, to)
}

// Whether a datagram that goes out of one interface is offered to another.
#[tactic(auto, unfolding(crate::specs::Offers::is_offered))]
fn takes(from: &InterfaceAddress, destination: Addr, to: &InterfaceAddress) -> bool
    ensures { result ≡ is_offered from.now destination to.now }
{
    is_beside(from, to) && listens(destination, to)
}

// Whether two interfaces have one prefix.
fn is_beside(one: &InterfaceAddress, other: &InterfaceAddress) -> bool
    ensures { result ≡ share_prefix one.now other.now }
{
    one.length == other.length
        && one.address.0 & mask_of(one.length) == other.address.0 & mask_of(other.length)
}

// Whether an interface listens to a destination: all routers, those that a
// network elects, or its own address.
fn listens(destination: Addr, to: &InterfaceAddress) -> bool
    ensures { result ≡ is_for destination to.now }
{
    destination == ALL_SPF_ROUTERS || destination == ALL_D_ROUTERS || destination == to.address
}
