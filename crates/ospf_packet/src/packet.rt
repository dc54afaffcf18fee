//! Packets that are read where they lie.

ghost use Rattle.std.specs.Prelude.{◌≡◌, ◌≤◌, ◌<◌, ◌↔◌, IsTrue, IfOk, IfErr, OnOk, OnErr, IfSome, IfNone, Some, None, length};
ghost use Rattle.ospf_base.specs.Constants.{packet_header};
ghost use Rattle.ospf_packet.specs.Packet.{IsBody, IsPacket, IsFirstPacketFault, body_at, packet_type, body_of, meaning_of};
ghost use Rattle.ospf_packet.specs.PacketOf.{packet_of};
ghost use Rattle.ospf_packet.specs.Said.{said, body_said};

use crate::body::{Body, Description, Hello};
use crate::fault::PacketFault;
use crate::headers::Headers;
use crate::layout::{
    ACKNOWLEDGMENT, AREA_AT, AUTH_AT, COUNT_SIZE, DESCRIPTION, DESCRIPTION_FIELDS, HELLO,
    HELLO_FIELDS, LENGTH_AT, REQUEST, REQUEST_SIZE, ROUTER_AT, ROUTER_SIZE, SUM_AT, TYPE_AT,
    UPDATE, VERSION, VERSION_AT,
};
use crate::lsas::Lsas;
use crate::requests::Requests;
use ospf_base::{
    AreaId, LARGEST_PACKET, LSA_HEADER, PACKET_HEADER, RouterId, packet_sum, u16_at, u32_at,
};
use ospf_lsa::Attached;

/// A packet that was read: what its header says, and its body, borrowed from the
/// datagram (RFC 2328, appendix A.3).
#[derive(Drop)]
pub struct Packet<'a> {
    /// The router that sent it.
    pub router: RouterId,
    pub area: AreaId,
    pub body: Body<'a>,
}

impl<'a> Packet<'a> {
    /// The packet that the bytes are, or their first fault (RFC 2328,
    /// section 8.2 and appendix A.3).
    ///
    /// `TooLong` is looked at first, then the other faults in the order of their numbers. The
    /// bytes of the authentication are not looked at, and an age field above `MAX_AGE` is
    /// read as that. No memory is taken.
    pub fn read(bytes: &'a [u8]) -> Result<Packet<'a>, PacketFault>
        ensures ok { IfOk result (λ p. packet_of bytes.now ≡ Some (said p)) }
        ensures valid { OnOk result (IsPacket bytes.now) }
        ensures fault { IfErr result (λ f. IsFirstPacketFault bytes.now f) }
        ensures none { OnErr result (packet_of bytes.now ≡ None) }
    {
        match first_fault(bytes) {
            Some(fault) => Err(fault),
            None => Ok(valid_packet(bytes)),
        }
    }
}

// What the body of a packet of this type says.
fn body(kind: u8, bytes: &[u8]) -> Body<'_>
    requires { IsBody kind bytes.now }
    ensures { body_said result ≡ body_at kind bytes.now }
{
    match kind {
        HELLO => Body::Hello(Hello::read(bytes), Attached::new(&bytes[HELLO_FIELDS..])),
        DESCRIPTION => Body::Description(
            Description::read(bytes),
            Headers::new(&bytes[DESCRIPTION_FIELDS..]),
        ),
        REQUEST => Body::Request(Requests::new(bytes)),
        UPDATE => Body::Update(Lsas::new(u32_at(bytes, 0), &bytes[COUNT_SIZE..])),
        _ => Body::Acknowledgment(Headers::new(bytes)),
    }
}

// The first fault of the bytes.
fn first_fault(bytes: &[u8]) -> Option<PacketFault>
    ensures fault { IfSome result (λ f. IsFirstPacketFault bytes.now f) }
    ensures none { IfNone result (IsPacket bytes.now) }
{
    if bytes.len() > LARGEST_PACKET {
        return Some(PacketFault::TooLong);
    }
    if bytes.len() < PACKET_HEADER {
        return Some(PacketFault::Short);
    }
    if bytes[VERSION_AT] != VERSION {
        return Some(PacketFault::Version);
    }
    if bytes[TYPE_AT] < HELLO || bytes[TYPE_AT] > ACKNOWLEDGMENT {
        return Some(PacketFault::Kind);
    }
    if usize::from(u16_at(bytes, LENGTH_AT)) != bytes.len() {
        return Some(PacketFault::Length);
    }
    if u16_at(bytes, SUM_AT) != packet_sum(bytes) {
        return Some(PacketFault::Sum);
    }
    if u16_at(bytes, AUTH_AT) != 0 {
        return Some(PacketFault::Auth);
    }
    if !has_body(bytes[TYPE_AT], &bytes[PACKET_HEADER..]) {
        return Some(PacketFault::Body);
    }
    None
}

// Whether a body ends with its last entry.
fn has_body(kind: u8, body: &[u8]) -> bool
    ensures { IsTrue result ↔ IsBody kind body.now }
{
    match kind {
        HELLO => body.len() >= HELLO_FIELDS && (body.len() - HELLO_FIELDS) % ROUTER_SIZE == 0,
        DESCRIPTION => body.len() >= DESCRIPTION_FIELDS
            && (body.len() - DESCRIPTION_FIELDS) % LSA_HEADER == 0,
        REQUEST => body.len() % REQUEST_SIZE == 0,
        UPDATE => body.len() >= COUNT_SIZE && Lsas::are_all(u32_at(body, 0), &body[COUNT_SIZE..]),
        ACKNOWLEDGMENT => body.len() % LSA_HEADER == 0,
        _ => true,
    }
}

// The packet that the bytes are.
fn valid_packet(bytes: &[u8]) -> Packet<'_>
    requires long { packet_header ≤ length bytes.now }
    requires body { IsBody (packet_type bytes.now) (body_of bytes.now) }
    ensures { said result ≡ meaning_of bytes.now }
{
    Packet {
        router: RouterId(u32_at(bytes, ROUTER_AT)),
        area: AreaId(u32_at(bytes, AREA_AT)),
        body: body(bytes[TYPE_AT], &bytes[PACKET_HEADER..]),
    }
}
