//! What follows when request lists get shorter: LoadingDone, and the next Requests.

ghost use Rattle.std.specs.Prelude.{◌≡◌, IfOk, OnOk, map};
ghost use Rattle.ospf_area.specs.Places.{flat_from};
ghost use Rattle.ospf_neighbour.specs.Neighbours.{AreNeighbours};
ghost use Rattle.ospf_exchange.specs.Requests.{request_due};
ghost use Rattle.ospf_packet.specs.Said.{body_meant};
ghost use Rattle.ospf_area.specs.Asking.{turned_to_next, request_body, turned_link, turn_requests_on};
ghost use Rattle.ospf_area.specs.Outboxes.{and_packets};
ghost use Rattle.ospf_area.specs.Sending.{and_sends};
ghost use Rattle.ospf_area.specs.Turns.{all_next_packets, request_turn, turn};
ghost use Rattle.ospf_area.specs.Changes.{after_event};

use crate::outbox::{LinkContext, Outbox};
use crate::outputs::Outputs;
use crate::packets::send_request;
use crate::sending::RouterContext;
use crate::state::AreaLink;
use ospf_exchange::{is_request_due, next_request};
use ospf_lsa::LsaHeader;
use ospf_neighbour::{NbrEvent, Neighbour};
use ospf_packet::{BodyValue, RequestEntry};
use std::alloc::{AllocError, Global};

/// A neighbour's request list may have changed: LoadingDone where it is empty, and the next Request
/// goes out where one is due (RFC 2328, sections 10.3 and 10.9).
///
/// `AllocError` where memory runs out; then the router must be stopped.
pub fn request_turn(
    neighbour: &mut Neighbour,
    at: &LinkContext,
    outbox: &mut Outbox,
) -> Result<(), AllocError>
    ensures after { neighbour.new ≡ turned_to_next at.now.local.mtu at.now.local.tick
        neighbour.old }
    ensures turn { OnOk result
        (turn neighbour.new outbox.new
        ≡ request_turn at.now.iface at.now.local (turn neighbour.old outbox.old)) }
{
    if turn_one(neighbour, at.local.mtu, at.local.tick) {
        send_request(neighbour, at, outbox)?;
    }
    Ok(())
}

/// LoadingDone and the next Requests of all neighbours, where they are due (sections 10.3 and
/// 10.9).
///
/// `AllocError` where memory runs out; then the router must be stopped.
pub fn advance_requests(
    links: &mut [AreaLink],
    own: RouterContext,
    out: &mut Outputs,
    alloc: Global,
) -> Result<(), AllocError>
    ensures after { OnOk result (links.new ≡ map (turned_link own) links.old) }
    ensures sent { OnOk result (out.new ≡ and_sends out.old
        (flat_from (turn_requests_on own) 0 links.old)) }
{
    for (number, link) in links.iter_mut().enumerate() {
        turn_link(link, number, own, out, alloc)?;
    }
    Ok(())
}

// The Request that names the first entries of the request list (RFC 2328, section 10.9).
//
// `AllocError` where memory runs out.
pub(crate) fn request_body(neighbour: &Neighbour, alloc: Global) -> Result<BodyValue, AllocError>
    ensures { IfOk result (λ b. body_meant b ≡ request_body neighbour.now) }
{
    let mut entries = Vec::new(alloc);
    for header in neighbour.asked_headers() {
        entries.push(entry_for(header))?;
    }
    Ok(BodyValue::Request(entries))
}

// LoadingDone and the next Request of one neighbour, where they are due (RFC 2328, sections 10.3
// and 10.9). Returns whether that Request must be sent. No memory is allocated.
fn turn_one(neighbour: &mut Neighbour, mtu: u16, tick: u64) -> bool
    ensures after { neighbour.new ≡ turned_to_next mtu tick neighbour.old }
    ensures due { result
        ≡ request_due (after_event NbrEvent.LoadingDone 0 neighbour.old) }
{
    let _ = neighbour.event(NbrEvent::LoadingDone, 0);
    if !is_request_due(neighbour) {
        return false;
    }
    next_request(neighbour, mtu, tick);
    true
}

// LoadingDone and the next Requests of a link's neighbours.
fn turn_link(
    link: &mut AreaLink,
    number: usize,
    own: RouterContext,
    out: &mut Outputs,
    alloc: Global,
) -> Result<(), AllocError>
    ensures after { OnOk result (link.new ≡ turned_link own link.old) }
    ensures sent { OnOk result (out.new ≡ and_sends out.old
        (turn_requests_on own number link.old)) }
{
    let at = LinkContext::of(own, link);
    let mut outbox = Outbox::new(0, alloc);
    let neighbours = &mut link.neighbours;
    turn_all(&mut neighbours.all, &at, &mut outbox)?;
    outbox.send_all(out, own, number, &at.iface)
}

// LoadingDone and the next Requests of neighbours.
fn turn_all(
    neighbours: &mut [Neighbour],
    at: &LinkContext,
    outbox: &mut Outbox,
) -> Result<(), AllocError>
    requires few { AreNeighbours neighbours.old }
    ensures after { OnOk result (neighbours.new
        ≡ map (turned_to_next at.now.local.mtu at.now.local.tick) neighbours.old) }
    ensures sent { OnOk result (outbox.new
        ≡ and_packets outbox.old (all_next_packets at.now.iface at.now.local neighbours.old)) }
    ensures still { AreNeighbours neighbours.new }
{
    for neighbour in neighbours.iter_mut() {
        request_turn(neighbour, at, outbox)?;
    }
    Ok(())
}

fn entry_for(header: &LsaHeader) -> RequestEntry
    ensures { result ≡ record {
      kind = header.now.kind;
      id = header.now.id;
      router = header.now.router;
    } }
{
    RequestEntry {
        kind: u32::from(header.kind),
        id: header.id,
        router: header.router,
    }
}
