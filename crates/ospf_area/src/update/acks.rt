//! How acknowledgements are sent.

ghost use Rattle.std.specs.Prelude.{◌≡◌, ◌<◌, ◌∷◌, [], IfOk, OnOk, Some, slice_get, map, None};
ghost use Rattle.std.specs.Ordering.{is_lt};
ghost use Rattle.ospf_area.specs.Places.{flat_from};
ghost use Rattle.ospf_area.specs.Updates.Acks.{header_precedes, in_order, ack_room, ack_packet, ack_packets, packed_packets, direct_out, delayed_out_on, acks_out};
ghost use Rattle.ospf_area.specs.Outboxes.{and_packets};
ghost use Rattle.ospf_area.specs.Sending.{and_sends, context_of, to_address, way_out};
ghost use Rattle.ospf_area.specs.State.{LinkValue};

use crate::{
    Area, AreaLink, LinkSettings, Outbox, Outputs, PacketSource, RouterContext, context_of,
    to_address,
};
use ospf_base::{Addr, IP_HEADER, LSA_HEADER, PACKET_HEADER};
use ospf_flood::flooding_address;
use ospf_lsa::LsaHeader;
use ospf_packet::BodyValue;
use std::alloc::{AllocError, Global};
use std::cmp::Ordering;

/// Sends Acknowledgments of headers, in order of key, as many in each as fit.
///
/// `AllocError` when memory runs out; then the router must be stopped.
pub fn send_acks(
    headers: &[LsaHeader],
    settings: LinkSettings,
    destination: Addr,
    outbox: &mut Outbox,
) -> Result<(), AllocError>
    ensures { OnOk result (outbox.new ≡ and_packets outbox.old
        (ack_packets destination settings.mtu headers.now)) }
{
    let sorted = in_order(headers, outbox.alloc())?;
    send_packed(&sorted, ack_room(settings), destination, outbox)
}

/// Sends the direct acknowledgements of an Update to its sender (RFC 2328, section 13.5).
///
/// `AllocError` when memory runs out; then the router must be stopped.
pub fn send_direct(
    area: &mut Area,
    from: PacketSource,
    out: &mut Outputs,
    alloc: Global,
) -> Result<(), AllocError>
    ensures after { OnOk result (area.new ≡ record area.old { direct = [] }) }
    ensures sent { OnOk result (out.new ≡ and_sends out.old (direct_out from area.old)) }
{
    let own = context_of(area);
    send_direct_from(&area.links, own, from, &area.direct, out, alloc)?;
    area.direct.clear();
    Ok(())
}

/// Sends the delayed acknowledgements of all links (section 13.5).
///
/// `AllocError` when memory runs out; then the router must be stopped.
pub fn send_delayed(
    links: &mut [AreaLink],
    own: RouterContext,
    out: &mut Outputs,
    alloc: Global,
) -> Result<(), AllocError>
    ensures after { OnOk result (links.new
        ≡ map (λ (l : LinkValue). record l { delayed = [] }) links.old) }
    ensures sent { OnOk result (out.new ≡ and_sends out.old
        (flat_from (delayed_out_on own) 0 links.old)) }
{
    for (number, link) in links.iter_mut().enumerate() {
        send_delayed_on(link, number, own, out, alloc)?;
    }
    Ok(())
}

// The headers in order of key. Those of one key stay in the order in which they
// came, so the sort is a stable one.
fn in_order(headers: &[LsaHeader], alloc: Global) -> Result<Vec<LsaHeader>, AllocError>
    ensures { IfOk result (λ v. v.items ≡ in_order headers.now) }
{
    let mut sorted = Vec::from_slice(alloc, headers)?;
    sorted.sort_by(by_key)?;
    Ok(sorted)
}

// Headers compare by LS type, then by Link State ID, then by Advertising Router.
fn by_key(a: &LsaHeader, b: &LsaHeader) -> Ordering
    ensures { is_lt result ≡ header_precedes a.now b.now }
{
    (a.kind, a.id, a.router).cmp(&(b.kind, b.id, b.router))
}

// Sends headers, this many in a packet.
fn send_packed(
    headers: &[LsaHeader],
    room: usize,
    destination: Addr,
    outbox: &mut Outbox,
) -> Result<(), AllocError>
    requires { 0 < room }
    ensures { OnOk result (outbox.new ≡ and_packets outbox.old
        (packed_packets destination room headers.now)) }
{
    let mut rest = headers;
    while rest.len() > 0 {
        let (now, later) = rest.split_at(room.min(rest.len()));
        send_ack(now, destination, outbox)?;
        rest = later;
    }
    Ok(())
}

fn send_ack(headers: &[LsaHeader], destination: Addr, outbox: &mut Outbox) -> Result<(), AllocError>
    ensures { OnOk result (outbox.new ≡ and_packets outbox.old
        (ack_packet destination headers.now ∷ [])) }
{
    let headers = Vec::from_slice(outbox.alloc(), headers)?;
    outbox.put(destination, BodyValue::Acknowledgment(headers))
}

fn ack_room(settings: LinkSettings) -> usize
    ensures value { result ≡ ack_room settings.mtu }
    ensures some { 0 < result }
{
    (usize::from(settings.mtu) - IP_HEADER - PACKET_HEADER) / LSA_HEADER
}

fn send_direct_from(
    links: &[AreaLink],
    own: RouterContext,
    from: PacketSource,
    headers: &[LsaHeader],
    out: &mut Outputs,
    alloc: Global,
) -> Result<(), AllocError>
    ensures { OnOk result (out.new ≡ and_sends out.old
        (elim (slice_get links.now from.link) [
          | None ↦ []
          | Some link ↦ acks_out own (way_out from.link link.iface
              (to_address link.iface from.address)) link.settings.mtu headers.now
        ])) }
{
    match links.get(from.link) {
        Some(link) => send_direct_on(link, own, from, headers, out, alloc),
        None => Ok(()),
    }
}

fn send_direct_on(
    link: &AreaLink,
    own: RouterContext,
    from: PacketSource,
    headers: &[LsaHeader],
    out: &mut Outputs,
    alloc: Global,
) -> Result<(), AllocError>
    ensures { OnOk result (out.new ≡ and_sends out.old
        (acks_out own
        (way_out from.link link.now.iface (to_address link.now.iface from.address))
        link.now.settings.mtu headers.now)) }
{
    let mut outbox = Outbox::new(0, alloc);
    let to = to_address(&link.iface, from.address);
    send_acks(headers, link.settings, to, &mut outbox)?;
    outbox.send_all(out, own, from.link, &link.iface)
}

fn send_delayed_on(
    link: &mut AreaLink,
    number: usize,
    own: RouterContext,
    out: &mut Outputs,
    alloc: Global,
) -> Result<(), AllocError>
    ensures after { OnOk result (link.new ≡ record link.old { delayed = [] }) }
    ensures sent { OnOk result (out.new ≡ and_sends out.old (delayed_out_on own number link.old)) }
{
    let mut outbox = Outbox::new(0, alloc);
    let to = flooding_address(&link.iface);
    send_acks(&link.delayed, link.settings, to, &mut outbox)?;
    outbox.send_all(out, own, number, &link.iface)?;
    link.delayed.clear();
    Ok(())
}
