//! What a part of a step works on besides neighbours: its link, and what it leaves.

ghost use Rattle.std.specs.Prelude.{◌≡◌};
ghost use Rattle.ospf_area.specs.Outboxes.{local_by};

use crate::outputs::Outputs;
use crate::sending::{RouterContext, send, way_out};
use crate::state::{AreaLink, LinkSettings};
use ospf_base::Addr;
use ospf_exchange::Local;
use ospf_neighbour::iface::Iface;
use ospf_packet::{BodyValue, PacketValue};
use std::alloc::{AllocError, Global};
use std::marker::Model;

/// The link's side of a part of a step.
#[derive(Clone, Copy)]
pub struct LinkContext {
    /// The interface.
    pub iface: Iface,
    /// What the part needs to know of the router and the interface.
    pub local: Local,
}

impl LinkContext {
    ghost use Rattle.std.specs.Prelude.{◌≡◌};

    /// A link as its neighbours' parts of a step work on it.
    pub fn of(own: RouterContext, link: &AreaLink) -> LinkContext
        ensures { result ≡ record {
          iface = link.now.iface;
          local = local_by own link.now.settings;
        } }
    {
        LinkContext {
            iface: link.iface,
            local: local_of(own, link),
        }
    }
}

/// What a part of a step at one link leaves besides its neighbours: the router's next Database
/// Description number, and the packets that go out.
#[derive(Drop)]
pub struct Outbox {
    next: u32,
    sent: Vec<PendingPacket>,
    alloc: Global,
}

impl Model for Outbox {
    ghost use Rattle.ospf_area.specs.Outboxes.{OutboxValue};

    ghost Value = { OutboxValue };

    ghost view = { λ p. record { next = p.next; sent = p.sent.items } };
}

impl Outbox {
    ghost use Rattle.std.specs.Prelude.{◌≡◌, ◌∷◌, [], OnOk};
    ghost use Rattle.ospf_area.specs.Sending.{and_sends};
    ghost use Rattle.ospf_packet.specs.Said.{body_meant};
    ghost use Rattle.ospf_area.specs.Outboxes.{and_packets, posted_all};

    /// Nothing goes out yet; `next` is the router's next Database Description
    /// number (RFC 2328, section 10.8).
    pub fn new(next: u32, alloc: Global) -> Outbox
        ensures { result ≡ record { next = next; sent = [] } }
    {
        Outbox {
            next,
            sent: Vec::new(alloc),
            alloc,
        }
    }

    /// The router's next Database Description number.
    pub fn next(&self) -> u32
        ensures { result ≡ self.now.next }
    {
        self.next
    }

    /// Where its memory comes from.
    pub fn alloc(&self) -> Global {
        self.alloc
    }

    /// Adds a packet to be sent.
    ///
    /// `AllocError` where memory runs out; then the router must be stopped.
    pub fn put(&mut self, destination: Addr, body: BodyValue) -> Result<(), AllocError>
        ensures next { self.new.next ≡ self.old.next }
        ensures sent { OnOk result
            (self.new ≡ and_packets self.old
            (record { destination = destination; body = body_meant body } ∷ [])) }
    {
        self.sent.push(PendingPacket { destination, body })?;
        Ok(())
    }

    /// Sends all packets out of the link of this number and interface, after these outputs. A
    /// packet that is longer than `ospf_packet::LARGEST_PACKET` is not sent.
    ///
    /// `AllocError` where memory runs out; then the router must be stopped.
    pub fn send_all(
        self,
        out: &mut Outputs,
        own: RouterContext,
        link: usize,
        iface: &Iface,
    ) -> Result<(), AllocError>
        ensures { OnOk result (out.new ≡ and_sends out.old
            (posted_all own link iface.now self.sent)) }
    {
        let alloc = self.alloc;
        let sent = self.sent;
        for packet in sent {
            let way = way_out(link, iface, packet.destination);
            let packet = PacketValue {
                router: own.router,
                area: own.area,
                body: packet.body,
            };
            send(out, way, &packet, alloc)?;
        }
        Ok(())
    }

    /// This is the router's next Database Description number.
    pub fn set_next(&mut self, next: u32)
        ensures { self.new ≡ record self.old { next = next } }
    {
        self.next = next;
    }
}

/// What the parts of a step need to know of the router and this link.
pub fn local_of(own: RouterContext, link: &AreaLink) -> Local
    ensures { result ≡ local_by own link.now.settings }
{
    local_by(own, link.settings)
}

/// What the parts of a step need to know of the router and a link of these settings.
pub fn local_by(own: RouterContext, settings: LinkSettings) -> Local
    ensures { result ≡ local_by own settings }
{
    Local {
        router: own.router,
        mtu: settings.mtu,
        tick: own.tick,
        passes_over: own.passes_over,
    }
}

/// A packet that is to go out of a link: where it goes, and what it says.
#[derive(Drop)]
struct PendingPacket {
    destination: Addr,
    body: BodyValue,
}

impl Model for PendingPacket {
    ghost use Rattle.ospf_area.specs.Packets as packets;

    ghost Value = { packets.PendingPacket };

    ghost use Rattle.ospf_packet.specs.Said.{body_meant};

    ghost view = { λ p. record { destination = p.destination; body = body_meant p.body } };
}
