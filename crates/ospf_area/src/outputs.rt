//! The outputs of a step of a router.

use ospf_base::{Addr, Instance, LsaKey};
use ospf_lsa::Lsa;
use std::alloc::Global;
use std::marker::Model;

/// A datagram that is sent: out of which link, from which address and to which, and the packet.
///
/// The packet is known to be the one that the bytes are read as.
#[derive(Drop)]
pub struct Sent {
    pub link: usize,
    pub source: Addr,
    pub destination: Addr,
    pub bytes: Vec<u8>,
}

impl Model for Sent {
    ghost use Rattle.std.specs.Prelude.{◌≡◌, Some};
    ghost use Rattle.ospf_packet.specs.Packet.{meaning_of};
    ghost use Rattle.ospf_packet.specs.PacketOf.{packet_of};
    ghost use Rattle.ospf_area.specs.Outputs.{SentValue};

    ghost Value = { SentValue };

    ghost view = { λ s. record {
      link = s.link;
      source = s.source;
      destination = s.destination;
      bytes = s.bytes.items;
      packet = meaning_of s.bytes.items;
    } };

    ghost invariant = { λ s. packet_of s.bytes.items ≡ Some (meaning_of s.bytes.items) };
}

/// The outputs of a step, or of a part of one.
#[derive(Drop)]
pub struct Outputs {
    /// The datagrams, in the order in which they go out.
    pub sent: Vec<Sent>,
    /// The instances that were installed from an Update, or acknowledged as expired without
    /// a copy (RFC 2328, section 13).
    pub taken: Vec<Instance>,
    /// The LSAs that were issued (section 12.4).
    pub issued: Vec<Lsa>,
    /// The keys whose numbering run has ended (section 12.1.6).
    pub ended: Vec<LsaKey>,
}

impl Model for Outputs {
    ghost use Rattle.ospf_area.specs.Outputs.{OutputsValue, AreReadAsSent};

    ghost Value = { OutputsValue };

    ghost view = { λ o. record {
      sent = o.sent.items;
      taken = o.taken.items;
      issued = o.issued.items;
      ended = o.ended.items;
    } };

    ghost invariant = { λ o. AreReadAsSent o.sent.items };
}

impl Outputs {
    ghost use Rattle.std.specs.Prelude.{◌≡◌};
    ghost use Rattle.ospf_area.specs.Outputs.{AreReadAsSent, no_outputs};

    /// No output.
    pub fn new(alloc: Global) -> Outputs
        ensures { result ≡ no_outputs }
    {
        Outputs {
            sent: Vec::new(alloc),
            taken: Vec::new(alloc),
            issued: Vec::new(alloc),
            ended: Vec::new(alloc),
        }
    }

    /// The datagrams, in the order in which they go out: the bytes of
    /// each are read again as its packet.
    pub fn sent(&self) -> &[Sent]
        ensures sent { result.now ≡ self.now.sent }
        ensures read { AreReadAsSent self.now.sent }
    {
        &self.sent
    }
}
