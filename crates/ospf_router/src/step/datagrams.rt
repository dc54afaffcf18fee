//! Datagrams that come in.

ghost use Rattle.std.specs.Prelude.{◌≡◌, ◌≢◌, None, Some, IfErr, IfOk, OnErr, OnOk};
ghost use Rattle.ospf_area.specs.Sending.{context_of};
ghost use Rattle.ospf_router.specs.AreaStep.Puts.{headers_met};
ghost use Rattle.ospf_packet.specs.PacketOf.{packet_of};
ghost use Rattle.ospf_packet.specs.Said.{body_said, said};
ghost use Rattle.ospf_router.specs.AreaStep.Drops.{dropped_by};
ghost use Rattle.ospf_router.specs.AreaStep.Step.Event.{Datagram};
ghost use Rattle.ospf_router.specs.AreaStep.Fit.{IsFitRouter};
ghost use Rattle.ospf_router.specs.AreaStep.Ready.{CanTakePacket, IsReadyFor};
ghost use Rattle.ospf_router.specs.AreaStep.Step.{Event};
ghost use Rattle.ospf_router.specs.AreaStep.Takes.{TakesBody, TakesDatagram};

use crate::step::dropped::Dropped;
use crate::step::drops::receive;
use crate::step::outputs_laws::{database_is_one, none_waits_below};
use crate::step::senders::not_dropped_is_taken;
use ospf_adjacency::link_steps::{take_description, take_hello, take_request};
use ospf_adjacency::{
    answers_are_quiet, description_keeps_router, elections_come_about, neighbours_stay_of_link,
};
use ospf_area::update::{on_header, on_update};
use ospf_area::{Area, Outputs, PacketSource, context_of, local_of};
use ospf_base::Addr;
use ospf_originate::area_stays_sound;
use ospf_packet::{Body, Headers, Packet};
use std::alloc::{AllocError, Global};

/// Takes a datagram that comes in on a link. Returns why it is dropped, if
/// it is; then nothing has changed.
pub(crate) fn take_datagram(
    area: &mut Area,
    link: usize,
    source: Addr,
    destination: Addr,
    bytes: &[u8],
    out: &mut Outputs,
    alloc: Global,
) -> Result<Option<Dropped>, AllocError>
    requires { IsFitRouter area.old }
    // It is dropped for the cause that applies, if one does, or else processed by the rules.
    ensures dropped { IfOk result (λ d. d
        ≡ dropped_by (Datagram link source destination bytes.now) area.old) }
    ensures sender { IfOk result (λ d. d ≡ None →
        IsReadyFor (Event.Datagram link source destination bytes.now) area.old) }
    ensures takes { IfOk result (λ d. d ≡ None →
        TakesDatagram link source (packet_of bytes.now) area.old out.old out.new area.new) }
    // A datagram that is dropped changes nothing, and has no output.
    ensures unchanged { IfOk result (λ d. d ≢ None → area.new ≡ area.old) }
    ensures silent { IfOk result (λ d. d ≢ None → out.new ≡ out.old) }
    // A datagram that is dropped needs no memory, and the area is fit for what follows.
    ensures memory { OnErr result
        (dropped_by (Datagram link source destination bytes.now) area.old ≡ None) }
    ensures fit { OnOk result (IsFitRouter area.new) }
{
    // For the proof.
    not_dropped_is_taken();
    neighbours_stay_of_link();
    elections_come_about();
    description_keeps_router();
    answers_are_quiet();
    area_stays_sound();
    // (8.2)
    let packet = match receive_on(area, link, source, destination, bytes) {
        Ok(packet) => packet,
        Err(dropped) => return Ok(Some(dropped)),
    };
    // For the proof.
    database_is_one(area);
    none_waits_below(area, link, packet.router);
    let from = PacketSource {
        link,
        router: packet.router,
        address: source,
    };
    take_body(area, from, packet.body, out, alloc)?;
    Ok(None)
}

// The packet that a datagram is, or why it is dropped.
fn receive_on<'a>(
    area: &Area,
    link: usize,
    source: Addr,
    destination: Addr,
    bytes: &'a [u8],
) -> Result<Packet<'a>, Dropped>
    ensures packet { IfOk result (λ p. packet_of bytes.now ≡ Some (said p)) }
    ensures taken { OnOk result
        (dropped_by (Datagram link source destination bytes.now) area.now ≡ None) }
    ensures dropped { IfErr result (λ d.
        dropped_by (Datagram link source destination bytes.now) area.now ≡ Some d) }
{
    let Some(there) = area.links.get(link) else {
        return Err(Dropped::Packet);
    };
    let local = local_of(context_of(area), there);
    receive(
        bytes,
        source,
        destination,
        &there.iface,
        there.neighbours.all(),
        area.area,
        local,
    )
}

// Processes what a packet says.
fn take_body(
    area: &mut Area,
    from: PacketSource,
    body: Body<'_>,
    out: &mut Outputs,
    alloc: Global,
) -> Result<(), AllocError>
    requires { CanTakePacket from (body_said body) area.old }
    ensures { OnOk result (TakesBody (body_said body.entry) from area.old out.old out.new
        area.new) }
{
    match body {
        // (10.5)
        Body::Hello(hello, neighbours) => take_hello(area, from, &hello, neighbours, out, alloc),
        // (10.6)
        Body::Description(fields, headers) => {
            take_description(area, from, fields, headers, out, alloc)
        }
        // (10.7)
        Body::Request(requests) => take_request(area, from, requests, out, alloc),
        // (13)
        Body::Update(lsas) => on_update(area, from, lsas, out, alloc),
        // (13.7)
        Body::Acknowledgment(headers) => {
            take_headers(area, from, headers);
            Ok(())
        }
    }
}

// The headers of an Acknowledgment, one after the other.
fn take_headers(area: &mut Area, from: PacketSource, headers: Headers<'_>)
    ensures { area.new ≡ headers_met from headers.entry area.old }
{
    for header in headers {
        on_header(area, from, &header);
    }
}
