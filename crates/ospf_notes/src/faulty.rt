//! LSAs that a router refuses because of their contents.

ghost use Rattle.std.specs.Prelude.{◌≡◌};
ghost use Rattle.ospf_packet.specs.PacketOf.{packet_of};
ghost use Rattle.ospf_packet.specs.Said.{body_said};
ghost use Rattle.ospf_notes.specs.Faulty.{FindsFault, HasContentsFault, IsFaultyIn, SendsFault, contents_fault, is_of_contents};

use crate::refused::{RefusedLsa, ToldKey, Untaken, tell_once};
use ospf_lsa::{LsaFault, LsaView};
use ospf_packet::{Body, Lsas, Packet};
use ospf_run::Router;
use std::alloc::Global;
use std::collections::BTreeSet;
use std::marker::Model;

/// The LSAs that a router refused because of their contents and that were reported, by neighbour.
#[derive(Drop)]
pub struct Faulty {
    // From the packet that arrived last.
    heard: Option<RefusedLsa>,
    // The links and neighbours that were reported.
    told: BTreeSet<ToldKey>,
}

impl Model for Faulty {
    ghost use Rattle.ospf_notes.specs.Faulty.{FaultyValue};

    ghost Value = { FaultyValue };

    ghost view = { λ u. record { heard = u.heard; told = u.told } };
}

impl Faulty {
    ghost use Rattle.std.specs.Prelude.{◌≡◌, [], None, IfNone, IfSome};
    ghost use Rattle.ospf_packet.specs.PacketOf.{packet_of};
    ghost use Rattle.ospf_notes.specs.Faulty.{IsFaultyIn};
    ghost use Rattle.ospf_notes.specs.Refused.{IsToldOnce, refused_due};

    /// None yet.
    pub fn new(alloc: Global) -> Faulty
        ensures heard { result.heard ≡ None }
        ensures told { result.told.keys ≡ [] }
    {
        Faulty {
            heard: None,
            told: BTreeSet::new(alloc),
        }
    }

    /// A packet has arrived.
    pub fn hears(&mut self, link: usize, packet: &[u8])
        ensures heard { IsFaultyIn link (packet_of packet.now) self.new.heard }
        ensures told { self.new.told ≡ self.old.told }
    {
        self.heard = faulty_in(link, packet);
    }

    /// Returns what to report after a step: the LSA of the packet that arrived last, if a neighbour
    /// of the router sent it, once for each neighbour. If memory runs out it is reported again.
    pub fn due(&mut self, router: &Router) -> Option<RefusedLsa>
        ensures due { result ≡ refused_due router.now self.old.told self.old.heard }
        ensures heard { self.new.heard ≡ None }
        ensures told { IfSome result (λ r. IsToldOnce self.old.told r self.new.told) }
        ensures kept { IfNone result (self.new.told ≡ self.old.told) }
    {
        let heard = self.heard;
        self.heard = None;
        let Some(refused) = heard else {
            return None;
        };
        tell_once(&mut self.told, router, refused).then_some(refused)
    }
}

// The LSA in a packet on a link that the router refuses because of its contents.
fn faulty_in(link: usize, packet: &[u8]) -> Option<RefusedLsa>
    ensures { IsFaultyIn link (packet_of packet.now) result }
{
    let Ok(packet) = Packet::read(packet) else {
        return None;
    };
    let Packet { router, body, .. } = packet;
    let Some(fault) = fault_in(body) else {
        return None;
    };
    Some(RefusedLsa {
        link,
        neighbour: router,
        untaken: Untaken::Invalid(fault),
    })
}

// The first such fault in an Update.
fn fault_in(body: Body<'_>) -> Option<LsaFault>
    ensures { SendsFault (body_said body.entry) result }
{
    match body {
        Body::Update(lsas) => first_fault(lsas),
        Body::Hello(..) | Body::Description(..) | Body::Request(_) | Body::Acknowledgment(_) => {
            None
        }
    }
}

fn first_fault(lsas: Lsas<'_>) -> Option<LsaFault>
    ensures { FindsFault lsas.entry result }
{
    for lsa in lsas {
        if let Some(fault) = fault_of(lsa) {
            return Some(fault);
        }
    }
    None
}

// Why bytes are refused as an LSA, if it is because of their contents.
fn fault_of(lsa: &[u8]) -> Option<LsaFault>
    ensures { HasContentsFault lsa.now result }
{
    let fault = LsaView::read(lsa).err();
    contents_fault(fault)
}

fn contents_fault(fault: Option<LsaFault>) -> Option<LsaFault>
    ensures { result ≡ contents_fault fault }
{
    let fault = fault?;
    is_of_contents(fault).then_some(fault)
}

// A fault of the length or the checksum may come from the wire, and `Others` reports LS types.
fn is_of_contents(fault: LsaFault) -> bool
    ensures { result ≡ is_of_contents fault }
{
    match fault {
        LsaFault::Links
        | LsaFault::Mask
        | LsaFault::ZeroMetric
        | LsaFault::IdMismatch
        | LsaFault::Number => true,
        LsaFault::Short | LsaFault::Length | LsaFault::Sum | LsaFault::Kind | LsaFault::Memory =>
            false,
    }
}
