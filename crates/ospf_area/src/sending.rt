//! How a packet is sent, and what of the router it is sent with.

ghost use Rattle.std.specs.Prelude.{◌≡◌, IfOk, OnOk};
ghost use Rattle.ospf_packet.specs.Said.{meant};
ghost use Rattle.ospf_area.specs.Sending.{context_of, and_sends, datagrams, way_out, to_address, sent_lsa};

use crate::outputs::{Outputs, Sent};
use crate::state::{Area, LinkSettings};
use ospf_base::{ALL_SPF_ROUTERS, Addr, AreaId, InterfaceKind, RouterId};
use ospf_lsa::{Lsa, LsaView};
use ospf_neighbour::iface::Iface;
use ospf_packet::{PacketValue, WriteFault, write_packet};
use std::alloc::{AllocError, Global};

/// What a call needs to know of the router.
#[derive(Clone, Copy, Debug, PartialEq, Eq)]
pub struct RouterContext {
    pub router: RouterId,
    pub area: AreaId,
    /// The present tick.
    pub tick: u64,
    /// Whether LSAs of LS types 3, 4 and 5 are skipped.
    pub passes_over: bool,
}

/// The path of a datagram: out of which link, from which address and to which.
#[derive(Clone, Copy, Debug, PartialEq, Eq)]
pub struct Way {
    pub link: usize,
    pub source: Addr,
    pub destination: Addr,
}

/// What a call needs to know of the router.
pub fn context_of(area: &Area) -> RouterContext
    ensures { result ≡ context_of area.now }
{
    RouterContext {
        router: area.router,
        area: area.area,
        tick: area.tick,
        passes_over: area.passes_over,
    }
}

/// Where packets to a neighbour go, except flooded Updates and delayed
/// acknowledgements (RFC 2328, section 8.1).
pub fn to_address(iface: &Iface, address: Addr) -> Addr
    ensures { result ≡ to_address iface.now address }
{
    match iface.settings.kind {
        InterfaceKind::PointToPoint => ALL_SPF_ROUTERS,
        InterfaceKind::Broadcast => address,
    }
}

/// The LSA as it is sent out of a link: older by InfTransDelay (RFC 2328, section 13.3, step 5).
///
/// `AllocError` where memory runs out.
pub fn sent_lsa(settings: LinkSettings, lsa: &LsaView, alloc: Global) -> Result<Lsa, AllocError>
    ensures { IfOk result (λ l. l ≡ sent_lsa settings.transmit_delay lsa.now) }
{
    let Ok(mut copy) = Lsa::copy(alloc, lsa) else {
        return Err(AllocError);
    };
    copy.set_age(lsa.header().age.after(settings.transmit_delay));
    Ok(copy)
}

// The way out of a link, from the interface's address.
pub(crate) fn way_out(number: usize, iface: &Iface, destination: Addr) -> Way
    ensures { result ≡ way_out number iface.now destination }
{
    Way {
        link: number,
        source: iface.settings.address,
        destination,
    }
}

// Sends a packet. One that is longer than `ospf_packet::LARGEST_PACKET` is not sent.
//
// `AllocError` where memory runs out.
pub(crate) fn send(
    out: &mut Outputs,
    way: Way,
    packet: &PacketValue,
    alloc: Global,
) -> Result<(), AllocError>
    ensures { OnOk result (out.new ≡ and_sends out.old (datagrams way (meant packet.now))) }
{
    let mut bytes = Vec::new(alloc);
    match write_packet(packet, &mut bytes) {
        Ok(()) => {}
        Err(WriteFault::TooLong) => return Ok(()),
        Err(WriteFault::Memory) => return Err(AllocError),
    }
    out.sent.push(Sent {
        link: way.link,
        source: way.source,
        destination: way.destination,
        bytes,
    })?;
    Ok(())
}
