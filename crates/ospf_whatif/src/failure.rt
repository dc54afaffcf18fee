//! Failures, and which links they take out of router-LSAs.

ghost use Rattle.std.specs.Prelude.{◌≡◌};
ghost use Rattle.std.specs.List.{list_any};
ghost use Rattle.ospf_whatif.specs.Failure.{is_of_subnet, is_stub_of, is_transit_of, is_wire_end, is_wire_link};
ghost use Rattle.ospf_whatif.specs.Subnets.{is_held};

use crate::subnets::{is_held, is_link_to};
use ospf_base::{Prefix, RouterId, mask_of};
use ospf_lsa::{Link, LinkKind};

/// What fails in an area.
///
/// Failures are in the order of their variants, and those of a variant in that
/// of its fields, the first first.
#[derive(Clone, Copy, Debug, PartialEq, Eq, PartialOrd, Ord)]
pub enum AreaFailure {
    /// A point-to-point link: that of two routers in one subnet, the
    /// longest that holds its addresses. The interfaces at both ends
    /// go down. Links without addresses are named by 0.0.0.0/8, which
    /// holds their Link Data.
    Link {
        a: RouterId,
        b: RouterId,
        subnet: Prefix,
    },
    /// One end of a point-to-point link through a switch: the interface of the first router goes
    /// down, that of the other stays up, and their adjacency ends.
    End {
        router: RouterId,
        other: RouterId,
        subnet: Prefix,
    },
    /// All point-to-point links between two routers, of which no subnet
    /// is known: the adjacencies end.
    Links {
        a: RouterId,
        b: RouterId,
    },
    /// A router's interface to a transit network, by its Link State ID: the interface goes down.
    Attachment {
        router: RouterId,
        network: u32,
    },
    /// A transit network: the interfaces of all routers to it go down.
    Network(u32),
    /// A router: it stops, and its neighbours' interfaces stay up.
    Router(RouterId),
    /// A router's interface to a stub network: the interface goes down.
    Stub {
        router: RouterId,
        prefix: Prefix,
    },
}

impl AreaFailure {
    ghost use Rattle.std.specs.Prelude.{◌≡◌};
    ghost use Rattle.ospf_whatif.specs.Failure.{takes};

    /// Whether a router's router-LSA has lost a link after the failure, which takes no link of
    /// these longer subnets.
    pub(crate) fn takes(&self, inner: &[Link], router: RouterId, link: Link) -> bool
        ensures { result ≡ takes inner.now self.now router link }
    {
        match *self {
            AreaFailure::Link { a, b, subnet } => {
                (router.0 == a.0 && is_wire_end(inner, link, b, subnet))
                    || (router.0 == b.0 && is_wire_end(inner, link, a, subnet))
            }
            AreaFailure::End {
                router: down,
                other,
                subnet,
            } => {
                (router.0 == down.0 && is_wire_end(inner, link, other, subnet))
                    || (router.0 == other.0 && is_wire_link(inner, link, down, subnet))
            }
            AreaFailure::Links { a, b } => {
                (router.0 == a.0 && is_link_to(link, b)) || (router.0 == b.0 && is_link_to(link, a))
            }
            AreaFailure::Attachment {
                router: attached,
                network,
            } => router.0 == attached.0 && is_transit_of(link, network),
            AreaFailure::Network(network) => is_transit_of(link, network),
            AreaFailure::Router(gone) => router.0 == gone.0 || is_link_to(link, gone),
            AreaFailure::Stub {
                router: down,
                prefix,
            } => router.0 == down.0 && is_stub_of(link, prefix),
        }
    }
}

// Whether it is a link of the end of a point-to-point link in a subnet whose other end is a router.
fn is_wire_end(inner: &[Link], link: Link, router: RouterId, subnet: Prefix) -> bool
    ensures { result ≡ is_wire_end inner.now link router subnet }
{
    is_wire_link(inner, link, router, subnet) || is_stub_of(link, subnet)
}

// Whether it is a type 1 link to a router from an address in a subnet.
fn is_wire_link(inner: &[Link], link: Link, router: RouterId, subnet: Prefix) -> bool
    ensures { result ≡ is_wire_link inner.now link router subnet }
{
    is_link_to(link, router) && is_of_subnet(inner, subnet, link.link_data)
}

/// Whether a link's Link Data lies in a subnet, and in none of these longer ones.
pub(crate) fn is_of_subnet(inner: &[Link], subnet: Prefix, link_data: u32) -> bool
    ensures { result ≡ is_of_subnet inner.now subnet link_data }
{
    link_data & mask_of(subnet.length) == subnet.address.0 && !is_in_any(inner, link_data)
}

// Whether an address lies in the subnet of one of these type 3 links.
fn is_in_any(stubs: &[Link], address: u32) -> bool
    ensures { result ≡ list_any (λ stub. is_held stub address) stubs.now }
{
    stubs.iter().any(|stub| is_held(*stub, address))
}

// Whether it is a type 3 link to a prefix.
fn is_stub_of(link: Link, prefix: Prefix) -> bool
    ensures { result ≡ is_stub_of link prefix }
{
    match link.kind {
        LinkKind::Stub => {
            let mask = mask_of(prefix.length);
            link.link_data == mask && link.id & mask == prefix.address.0
        }
        LinkKind::PointToPoint | LinkKind::Transit | LinkKind::Virtual => false,
    }
}

// Whether it is a type 2 link to a transit network.
fn is_transit_of(link: Link, network: u32) -> bool
    ensures { result ≡ is_transit_of link network }
{
    match link.kind {
        LinkKind::Transit => link.id == network,
        LinkKind::PointToPoint | LinkKind::Stub | LinkKind::Virtual => false,
    }
}
