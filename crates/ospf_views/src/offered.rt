//! What a link waits for, what of the last datagram that was sent to it would be dropped, and what
//! does not fit between its ends.

ghost use Rattle.std.specs.Prelude.{◌≡◌, IfOk, option_map, string_bytes};
ghost use Rattle.std.specs.List.{list_any};
ghost use Rattle.ospf_views.specs.Offered.{has_kind, is_for_link, is_of_kind, is_sent_by, is_delivery_to, last_drop, last_misfit, last_words, why_lines};

use crate::drops::drop_reason;
use crate::misfit::sender_misfit;
use crate::waits::why;
use ospf_base::RouterId;
use ospf_router::Router;
use ospf_world::{Datagram, World, WorldEvent};
use std::alloc::{AllocError, Global};

// The types of a Hello and a Database Description (RFC 2328, appendix A.3.1).
const HELLO: u8 = 1;

const DESCRIPTION: u8 = 2;

/// What a link or a router on it waits for, and why it would drop the last; `None` without a link.
///
/// `AllocError` where memory runs out.
pub fn why_lines(
    world: &World,
    router: &Router,
    place: (RouterId, usize),
    from: Option<RouterId>,
    alloc: Global,
) -> Result<Option<String>, AllocError>
    ensures { IfOk result (λ said. option_map string_bytes said
        ≡ why_lines world.now place.0 place.1 from router.now.area) }
{
    match why(router, place.1, from, alloc)? {
        Some(mut lines) => {
            let words = last_words(world, router, place, from, alloc)?;
            lines.push_str(&words)?;
            Ok(Some(lines))
        }
        None => Ok(None),
    }
}

// Why it would drop the last, and what does not fit by the last Hello and Database Description.
fn last_words(
    world: &World,
    router: &Router,
    place: (RouterId, usize),
    from: Option<RouterId>,
    alloc: Global,
) -> Result<String, AllocError>
    ensures { IfOk result (λ text. string_bytes text
        ≡ last_words world.now place.0 place.1 from router.now.area) }
{
    let mut words = last_drop(world, router, place, from, alloc)?;
    let by_hello = last_misfit(world, router, place, from, HELLO, alloc)?;
    words.push_str(&by_hello)?;
    let by_description = last_misfit(world, router, place, from, DESCRIPTION, alloc)?;
    words.push_str(&by_description)?;
    Ok(words)
}

// What does not fit by the last packet of a type that a round offers to a link.
fn last_misfit(
    world: &World,
    router: &Router,
    place: (RouterId, usize),
    from: Option<RouterId>,
    kind: u8,
    alloc: Global,
) -> Result<String, AllocError>
    ensures { IfOk result (λ text. string_bytes text
        ≡ last_misfit world.now place.0 place.1 from kind router.now.area) }
{
    let mut left = world.datagrams();
    while let Some((datagram, before)) = left.split_last() {
        if is_of_kind(world, place, from, kind, before.len(), datagram, alloc)? {
            return sender_misfit(router, place.1, &datagram.sent, alloc);
        }
        left = before;
    }
    Ok(String::new(alloc))
}

// Whether a round offers a datagram to a link, and it is a packet of a type.
fn is_of_kind(
    world: &World,
    place: (RouterId, usize),
    from: Option<RouterId>,
    kind: u8,
    number: usize,
    datagram: &Datagram,
    alloc: Global,
) -> Result<bool, AllocError>
    ensures { IfOk result (λ it. it
        ≡ is_of_kind world.now place.0 place.1 from kind (number, datagram.now)) }
{
    if !has_kind(kind, datagram.sent.bytes.get(1).copied()) {
        return Ok(false);
    }
    is_for_link(world, place, from, number, datagram, alloc)
}

fn has_kind(kind: u8, there: Option<u8>) -> bool
    ensures { result ≡ has_kind kind there }
{
    match there {
        Some(there) => there == kind,
        None => false,
    }
}

// Why it would drop the last datagram that a round offers to a link, of one router if given.
fn last_drop(
    world: &World,
    router: &Router,
    place: (RouterId, usize),
    from: Option<RouterId>,
    alloc: Global,
) -> Result<String, AllocError>
    ensures { IfOk result (λ text. string_bytes text
        ≡ last_drop world.now place.0 place.1 from router.now.area) }
{
    let mut rest = world.datagrams();
    while let Some((datagram, before)) = rest.split_last() {
        if is_for_link(world, place, from, before.len(), datagram, alloc)? {
            return drop_reason(router, place.1, &datagram.sent, alloc);
        }
        rest = before;
    }
    Ok(String::new(alloc))
}

// Whether a round offers a datagram to a link.
fn is_for_link(
    world: &World,
    place: (RouterId, usize),
    from: Option<RouterId>,
    number: usize,
    datagram: &Datagram,
    alloc: Global,
) -> Result<bool, AllocError>
    ensures { IfOk result (λ it. it
        ≡ is_for_link world.now place.0 place.1 from (number, datagram.now)) }
{
    if !is_sent_by(from, datagram) {
        return Ok(false);
    }
    let offers = world.offers_of(number, datagram, alloc)?;
    Ok(has_delivery(&offers, place))
}

// Whether one of these events is a delivery to a link.
fn has_delivery(events: &[WorldEvent], place: (RouterId, usize)) -> bool
    ensures { result ≡ list_any (is_delivery_to place.0 place.1) events.now }
{
    events.iter().any(|event| is_delivery_to(place, event))
}

// Whether an event is a delivery to a link.
fn is_delivery_to(place: (RouterId, usize), event: &WorldEvent) -> bool
    ensures { result ≡ is_delivery_to place.0 place.1 event.now }
{
    match event {
        WorldEvent::Deliver { router, link, .. } => router.0 == place.0.0 && *link == place.1,
        _ => false,
    }
}

fn is_sent_by(from: Option<RouterId>, datagram: &Datagram) -> bool
    ensures { result ≡ is_sent_by from datagram.now }
{
    match from {
        Some(router) => datagram.router.0 == router.0,
        None => true,
    }
}
