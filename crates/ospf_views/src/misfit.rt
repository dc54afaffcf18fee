//! What the other end of a link says of itself that keeps two routers apart.

ghost use Rattle.std.specs.Prelude.{◌≡◌, Some, IfOk, string_bytes};
ghost use Rattle.ospf_packet.specs.PacketOf.{packet_of};
ghost use Rattle.ospf_packet.specs.Said.{body_said};
ghost use Rattle.ospf_views.specs.Misfits.{body_misfit, broadcast_misfit, kind_misfit, link_misfit, misfit_line, sender_misfit, misfit_on, mtu_misfit, single_misfit};

use ospf_adjacency::is_broadcast;
use ospf_area::{AreaLink, Sent};
use ospf_base::Addr;
use ospf_neighbour::iface::Iface;
use ospf_packet::{Body, Description, Hello, Packet};
use ospf_router::Router;
use std::alloc::{AllocError, Global};
use std::fmt::{self, Display, Formatter, Write};

/// What does not fit between two ends, though this one drops nothing for it.
#[derive(Clone, Copy, Debug, PartialEq, Eq)]
pub enum Misfit {
    /// The other end names a Designated Router, and this one is point-to-point.
    NamesOne,
    /// The other end names no Designated Router, and this one, which is broadcast, has one.
    NamesNone,
    /// The MTU there, and the larger one here.
    SmallerMtu(u16, u16),
}

/// As `has MTU 1400, this end 1500: it drops this end's Database Descriptions`.
impl Display for Misfit {
    ghost use Rattle.std.specs.Prelude.{Some};
    ghost use Rattle.ospf_views.specs.Misfits.{misfit_words};

    ghost output = { λ misfit. Some (misfit_words misfit) };

    fn fmt<W: Write>(&self, f: &mut Formatter<W>) -> fmt::Result {
        match self {
            Misfit::NamesOne => f.write_str(
                "names a Designated Router: that end is broadcast, this one point-to-point",
            ),
            Misfit::NamesNone => {
                f.write_str(
                    "names no Designated Router: that end is point-to-point, or still in Waiting",
                )
            }
            Misfit::SmallerMtu(there, here) => write!(
                f,
                "has MTU {there}, this end {here}: it drops this end's Database Descriptions"
            ),
        }
    }
}

/// The line of what a datagram on a link says that does not fit; empty where there is nothing.
///
/// `AllocError` where memory runs out.
pub(crate) fn sender_misfit(
    router: &Router,
    link: usize,
    sent: &Sent,
    alloc: Global,
) -> Result<String, AllocError>
    ensures { IfOk result (λ line. string_bytes line
        ≡ sender_misfit router.now.area link sent.now) }
{
    misfit_line(alloc, sent.source, misfit_on(router, link, &sent.bytes))
}

// The line of the end of an address.
fn misfit_line(alloc: Global, source: Addr, misfit: Option<Misfit>) -> Result<String, AllocError>
    ensures { IfOk result (λ line. string_bytes line ≡ misfit_line source misfit) }
{
    match misfit {
        Some(misfit) => format!(in alloc; "  {source} {misfit}\n"),
        None => Ok(String::new(alloc)),
    }
}

// What does not fit, on a link of a router.
fn misfit_on(router: &Router, link: usize, bytes: &[u8]) -> Option<Misfit>
    ensures { result ≡ misfit_on router.now.area link (packet_of bytes.now) }
{
    let area = router.area()?;
    let there = area.links.get(link)?;
    link_misfit(there, bytes)
}

// On a link that is there.
fn link_misfit(link: &AreaLink, bytes: &[u8]) -> Option<Misfit>
    ensures { result ≡ link_misfit (Some link.now) (packet_of bytes.now) }
{
    match Packet::read(bytes) {
        Ok(packet) => body_misfit(link, &packet.body),
        Err(_) => None,
    }
}

// By what the packet says.
fn body_misfit(link: &AreaLink, body: &Body<'_>) -> Option<Misfit>
    ensures { result ≡ body_misfit link.now (body_said body.now) }
{
    match body {
        Body::Hello(hello, _) => kind_misfit(&link.iface, hello),
        Body::Description(description, _) => mtu_misfit(link.settings.mtu, description),
        Body::Request(_) | Body::Update(_) | Body::Acknowledgment(_) => None,
    }
}

// Whether a Hello is of another kind of end.
fn kind_misfit(iface: &Iface, hello: &Hello) -> Option<Misfit>
    ensures { result ≡ kind_misfit iface.now hello.now }
{
    if is_broadcast(iface) {
        broadcast_misfit(iface, hello)
    } else {
        single_misfit(hello)
    }
}

fn broadcast_misfit(iface: &Iface, hello: &Hello) -> Option<Misfit>
    ensures { result ≡ broadcast_misfit iface.now hello.now }
{
    if iface.dr.0 == Addr::NOWHERE.0 {
        None
    } else if hello.designated.0 == Addr::NOWHERE.0 {
        Some(Misfit::NamesNone)
    } else {
        None
    }
}

fn single_misfit(hello: &Hello) -> Option<Misfit>
    ensures { result ≡ single_misfit hello.now }
{
    if hello.designated.0 == Addr::NOWHERE.0 {
        None
    } else {
        Some(Misfit::NamesOne)
    }
}

// Whether the other end has a smaller MTU.
fn mtu_misfit(mtu: u16, description: &Description) -> Option<Misfit>
    ensures { result ≡ mtu_misfit mtu description.now }
{
    if description.mtu < mtu {
        Some(Misfit::SmallerMtu(description.mtu, mtu))
    } else {
        None
    }
}
