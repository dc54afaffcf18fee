//! Which field of a datagram does not fit.

ghost use Rattle.std.specs.Prelude.{◌≡◌, Some};
ghost use Rattle.ospf_packet.specs.PacketOf.{packet_of};
ghost use Rattle.ospf_packet.specs.Said.{body_said, said};
ghost use Rattle.ospf_views.specs.Details.{body_detail, detail_on, hello_detail, link_detail, mtu_detail, said_detail};

use ospf_adjacency::is_broadcast;
use ospf_area::AreaLink;
use ospf_base::{Addr, AreaId};
use ospf_neighbour::iface::{Iface, OPTIONS};
use ospf_packet::{Body, Description, Hello, Packet};
use ospf_router::Router;
use std::fmt::{self, Display, Formatter, Write};

/// A field that does not fit: what it is in the datagram, and what it is here.
#[derive(Clone, Copy, Debug, PartialEq, Eq)]
pub enum Detail {
    /// The Area ID.
    Area(AreaId, AreaId),
    /// In ticks.
    HelloInterval(u16, u16),
    /// RouterDeadInterval, in ticks.
    DeadInterval(u32, u32),
    /// Those of the datagram: the E bit is wanting.
    Options(u8),
    /// The mask of the network.
    Mask(u32, u32),
    /// The longest IP datagram, in bytes.
    Mtu(u16, u16),
}

/// As `HelloInterval 5 there, 10 here`.
impl Display for Detail {
    ghost use Rattle.std.specs.Prelude.{Some};
    ghost use Rattle.ospf_views.specs.Details.{detail_text};

    ghost output = { λ detail. Some (detail_text detail) };

    fn fmt<W: Write>(&self, f: &mut Formatter<W>) -> fmt::Result {
        match self {
            Detail::Area(there, here) => write!(f, "area {there} there, {here} here"),
            Detail::HelloInterval(there, here) => {
                write!(f, "HelloInterval {there} there, {here} here")
            }
            Detail::DeadInterval(there, here) => {
                write!(f, "RouterDeadInterval {there} there, {here} here")
            }
            Detail::Options(there) => write!(f, "Options {there} there, {OPTIONS} here"),
            Detail::Mask(there, here) => {
                let (there, here) = (Addr(*there), Addr(*here));
                write!(f, "mask {there} there, {here} here")
            }
            Detail::Mtu(there, here) => write!(f, "MTU {there} there, {here} here"),
        }
    }
}

/// The first field of a datagram that does not fit the link: of any the area (RFC 2328, section
/// 8.2), of a Hello what has to agree (10.5), of a Database Description its MTU (10.6); else
/// `None`. It takes no memory.
pub fn detail_of(router: &Router, link: usize, bytes: &[u8]) -> Option<Detail>
    ensures { result ≡ detail_on router.now.area link (packet_of bytes.now) }
{
    let area = router.area()?;
    let there = area.links.get(link)?;
    detail_at(area.area, there, bytes)
}

// On a link that is there, in this area.
fn detail_at(area: AreaId, link: &AreaLink, bytes: &[u8]) -> Option<Detail>
    ensures { result ≡ link_detail area (Some link.now) (packet_of bytes.now) }
{
    match Packet::read(bytes) {
        Ok(packet) => said_detail(area, link, &packet),
        Err(_) => None,
    }
}

// By what a packet says.
fn said_detail(area: AreaId, link: &AreaLink, packet: &Packet<'_>) -> Option<Detail>
    ensures { result ≡ said_detail area link.now (said packet.now) }
{
    if packet.area.0 == area.0 {
        body_detail(link, &packet.body)
    } else {
        Some(Detail::Area(packet.area, area))
    }
}

// By what the packet says.
fn body_detail(link: &AreaLink, body: &Body<'_>) -> Option<Detail>
    ensures { result ≡ body_detail link.now (body_said body.now) }
{
    match body {
        Body::Hello(hello, _) => hello_detail(&link.iface, hello),
        Body::Description(description, _) => mtu_detail(link.settings.mtu, description),
        Body::Request(_) | Body::Update(_) | Body::Acknowledgment(_) => None,
    }
}

// The first field in which a Hello does not agree with an interface.
fn hello_detail(iface: &Iface, hello: &Hello) -> Option<Detail>
    ensures { result ≡ hello_detail iface.now hello.now }
{
    let here = &iface.settings;
    if hello.hello_interval != here.hello {
        Some(Detail::HelloInterval(hello.hello_interval, here.hello))
    } else if hello.dead_interval != here.dead {
        Some(Detail::DeadInterval(hello.dead_interval, here.dead))
    } else if hello.options & OPTIONS != OPTIONS {
        Some(Detail::Options(hello.options))
    } else if is_broadcast(iface) && hello.mask != here.mask {
        Some(Detail::Mask(hello.mask, here.mask))
    } else {
        None
    }
}

// The MTU of a Database Description that is over the interface's.
fn mtu_detail(mtu: u16, description: &Description) -> Option<Detail>
    ensures { result ≡ mtu_detail mtu description.now }
{
    if description.mtu > mtu {
        Some(Detail::Mtu(description.mtu, mtu))
    } else {
        None
    }
}
