//! LSAs of LS types that a router refuses.

ghost use Rattle.std.specs.Prelude.{◌≡◌, map};
ghost use Rattle.ospf_lsa.specs.Lsa.{type_of};
ghost use Rattle.ospf_packet.specs.PacketOf.{packet_of};
ghost use Rattle.ospf_packet.specs.Said.{body_said};
ghost use Rattle.ospf_notes.specs.Others.{first_refused, first_unwanted, is_opaque, is_refused, is_unwanted, refused_in, untaken_of};

use crate::refused::{RefusedLsa, ToldKey, Untaken, tell_once};
use ospf_base::{NETWORK_LSA, ROUTER_LSA};
use ospf_exchange::is_other;
use ospf_lsa::TYPE_AT;
use ospf_packet::{Body, Headers, Lsas, Packet};
use ospf_run::Router;
use std::alloc::Global;
use std::collections::BTreeSet;
use std::marker::Model;

// The least and the greatest LS type of opaque LSAs (RFC 5250, section 3).
const LINK_OPAQUE: u8 = 9;

const AS_OPAQUE: u8 = 11;

/// The refused LSAs of a router that were reported, by neighbour.
#[derive(Drop)]
pub struct Others {
    passes_over: bool,
    // From the packet that arrived last.
    heard: Option<RefusedLsa>,
    // The links and neighbours that were reported.
    told: BTreeSet<ToldKey>,
}

impl Model for Others {
    ghost use Rattle.ospf_notes.specs.Others.{OthersValue};

    ghost Value = { OthersValue };

    ghost view = { λ o. record { passes_over = o.passes_over; heard = o.heard; told = o.told } };
}

impl Others {
    ghost use Rattle.std.specs.Prelude.{◌≡◌, [], None, IfNone, IfSome};
    ghost use Rattle.ospf_packet.specs.PacketOf.{packet_of};
    ghost use Rattle.ospf_notes.specs.Others.{refused_in};
    ghost use Rattle.ospf_notes.specs.Refused.{IsToldOnce, refused_due};

    /// None yet. The router passes over LSAs of LS types 3, 4 and 5, or refuses them.
    pub fn new(alloc: Global, passes_over: bool) -> Others
        ensures settings { result.passes_over ≡ passes_over }
        ensures heard { result.heard ≡ None }
        ensures told { result.told.keys ≡ [] }
    {
        Others {
            passes_over,
            heard: None,
            told: BTreeSet::new(alloc),
        }
    }

    /// A packet has arrived.
    pub fn hears(&mut self, link: usize, packet: &[u8])
        ensures { self.new ≡ record self.old {
          heard = refused_in self.old.passes_over link (packet_of packet.now);
        } }
    {
        self.heard = refused_in(self.passes_over, link, packet);
    }

    /// Returns what to report after a step: the LSA of the packet that arrived last, if a neighbour
    /// of the router described or sent it, once for each neighbour. If memory runs out it is
    /// reported again.
    pub fn due(&mut self, router: &Router) -> Option<RefusedLsa>
        ensures due { result ≡ refused_due router.now self.old.told self.old.heard }
        // What is stored.
        ensures settings { self.new.passes_over ≡ self.old.passes_over }
        ensures heard { self.new.heard ≡ None }
        ensures told { IfSome result (λ r. IsToldOnce self.old.told r self.new.told) }
        ensures kept { IfNone result (self.new.told ≡ self.old.told) }
    {
        let heard = self.heard;
        self.heard = None;
        let Some(refused) = heard else {
            return None;
        };
        tell_once(&mut self.told, router, refused).then_some(refused)
    }
}

// The LSA in a packet on a link that the router refuses, if there is one.
fn refused_in(passes_over: bool, link: usize, packet: &[u8]) -> Option<RefusedLsa>
    ensures { result ≡ refused_in passes_over link (packet_of packet.now) }
{
    let Ok(packet) = Packet::read(packet) else {
        return None;
    };
    let Packet { router, body, .. } = packet;
    let Some(untaken) = untaken_of(passes_over, body) else {
        return None;
    };
    Some(RefusedLsa {
        link,
        neighbour: router,
        untaken,
    })
}

// The first LSA of an LS type that the router refuses: in a Database Description, or in an Update
// if its sender waits for an acknowledgment.
fn untaken_of(passes_over: bool, body: Body<'_>) -> Option<Untaken>
    ensures { result ≡ untaken_of passes_over (body_said body.entry) }
{
    match body {
        Body::Description(_, headers) => {
            first_described(passes_over, headers).map(Untaken::Described)
        }
        Body::Update(lsas) => first_sent(passes_over, lsas).map(Untaken::Sent),
        Body::Hello(..) | Body::Request(_) | Body::Acknowledgment(_) => None,
    }
}

fn first_described(passes_over: bool, headers: Headers<'_>) -> Option<u8>
    ensures { result ≡ first_refused passes_over (map (λ h. h.kind) headers.entry) }
{
    for header in headers {
        if is_refused(header.kind, passes_over) {
            return Some(header.kind);
        }
    }
    None
}

fn first_sent(passes_over: bool, lsas: Lsas<'_>) -> Option<u8>
    ensures { result ≡ first_unwanted passes_over (map type_of lsas.entry) }
{
    for lsa in lsas {
        let kind = type_of(lsa);
        if is_unwanted(kind, passes_over) {
            return Some(kind);
        }
    }
    None
}

// The LS type of a slice, which is as long as an LSA header.
fn type_of(lsa: &[u8]) -> u8
    ensures { result ≡ type_of lsa.now }
{
    lsa.get(TYPE_AT).copied().unwrap_or(0)
}

// Whether a neighbour waits for the acknowledgment of a refused LSA that it sends. It does not for
// an opaque LSA: if two other routers on a network accept these, they multicast them.
fn is_unwanted(kind: u8, passes_over: bool) -> bool
    ensures { result ≡ is_unwanted passes_over kind }
{
    !is_opaque(kind) && is_refused(kind, passes_over)
}

fn is_opaque(kind: u8) -> bool
    ensures { result ≡ is_opaque kind }
{
    kind >= LINK_OPAQUE && kind <= AS_OPAQUE
}

// Whether a router refuses LSAs of an LS type: all but router-LSAs, network-LSAs and those that it
// passes over.
fn is_refused(kind: u8, passes_over: bool) -> bool
    ensures { result ≡ is_refused passes_over kind }
{
    kind != ROUTER_LSA && kind != NETWORK_LSA && !(passes_over && is_other(kind))
}
