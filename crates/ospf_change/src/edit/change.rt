//! Changes of an area, and which links of a router get another cost.

ghost use Rattle.std.specs.Prelude.{◌≡◌};
ghost use Rattle.std.specs.List.{list_any};
ghost use Rattle.ospf_change.specs.Edit.Change.{is_interface_link, is_longer_subnet, is_own_subnet, is_router_link, is_subnet_with, with_cost};
ghost use Rattle.ospf_whatif.specs.Subnets.{is_address, is_held, is_link_to, is_stub_link};

use ospf_base::{Addr, RouterId};
use ospf_lsa::{Link, LinkKind};
use ospf_whatif::AreaFailure;

// MaxLinkMetric (RFC 6987, section 2).
const MAX_LINK_METRIC: u16 = 0xFFFF;

// The indices of interfaces are below it: they lie in 0.0.0.0/8, as no address of an interface does
// (RFC 2328, section 12.4.1.1).
const INDICES: u32 = 1 << 24;

// The mask of a single host.
const HOST: u32 = 0xFFFF_FFFF;

/// A change of an area. Costs are metrics from 1 to 65,535.
#[derive(Clone, Copy, Debug, PartialEq, Eq)]
pub enum Change {
    /// A failure, as in `ospf_whatif::without`.
    Down(AreaFailure),
    /// The output cost of a router's interface with this address, or with this interface index if
    /// it is unnumbered: the metric of its links to routers and to a transit network. A
    /// point-to-point interface advertises its subnet at the same cost (RFC 2328, section
    /// 12.4.1.1). This is the longest subnet of the router that holds the address; host routes
    /// keep their metric.
    Cost {
        router: RouterId,
        address: Addr,
        cost: u16,
    },
    /// The output cost of all point-to-point interfaces of a router to another router, and of their
    /// subnets. The other router keeps its costs.
    CostTo {
        router: RouterId,
        other: RouterId,
        cost: u16,
    },
    /// A drained router: all its links cost 65,535, except those to subnets (RFC 6987, section 2).
    Drain(RouterId),
}

impl Change {
    ghost use Rattle.std.specs.Prelude.{◌≡◌};
    ghost use Rattle.ospf_change.specs.Edit.Change.{cost_of, gets_cost, has_own_subnet, changes_costs_of, keeps_cost, picks, priced_link};

    /// Whether the change gives links of a router another cost.
    pub(crate) fn changes_costs_of(&self, router: RouterId) -> bool
        ensures { result ≡ changes_costs_of self.now router }
    {
        match *self {
            Change::Down(_) => false,
            Change::Cost { router: of, .. } => of.0 == router.0,
            Change::CostTo { router: of, .. } => of.0 == router.0,
            Change::Drain(of) => of.0 == router.0,
        }
    }

    /// A link of the router with these links after the change.
    pub(crate) fn priced(&self, links: &[Link], link: Link) -> Link
        ensures { result ≡ priced_link self.now links.now link }
    {
        if self.gets_cost(links, link) {
            with_cost(self.cost(), link)
        } else {
            link
        }
    }

    /// Whether a link of the router with these links is as it was after the change.
    pub(crate) fn keeps(&self, links: &[Link], link: Link) -> bool
        ensures { result ≡ keeps_cost self.now links.now link }
    {
        !self.gets_cost(links, link) || link.metric == self.cost()
    }

    // The new cost.
    fn cost(&self) -> u16
        ensures { result ≡ cost_of self.now }
    {
        match *self {
            Change::Down(_) => 0,
            Change::Cost { cost, .. } => cost,
            Change::CostTo { cost, .. } => cost,
            Change::Drain(_) => MAX_LINK_METRIC,
        }
    }

    // Whether a link of the router with these links gets the new cost.
    fn gets_cost(&self, links: &[Link], link: Link) -> bool
        ensures { result ≡ gets_cost self.now links.now link }
    {
        match *self {
            Change::Down(_) => false,
            Change::Cost { .. } => self.picks(link) || self.has_own_subnet(links, link),
            Change::CostTo { .. } => self.picks(link) || self.has_own_subnet(links, link),
            Change::Drain(_) => !is_stub_link(link),
        }
    }

    // Whether a link leaves by an interface whose cost changes.
    fn picks(&self, link: Link) -> bool
        ensures { result ≡ picks self.now link }
    {
        match *self {
            Change::Down(_) => false,
            Change::Cost { address, .. } => is_interface_link(link) && link.link_data == address.0,
            Change::CostTo { other, .. } => is_link_to(link, other),
            Change::Drain(_) => false,
        }
    }

    // Whether a link is to the own subnet of one of the point-to-point links whose cost changes.
    fn has_own_subnet(&self, links: &[Link], link: Link) -> bool
        ensures { result ≡ has_own_subnet self.now links.now link }
    {
        links.iter().any(|out| {
            self.picks(*out) && (is_router_link(*out) && is_own_subnet(links, out.link_data, link))
        })
    }
}

// A link at another cost.
fn with_cost(cost: u16, link: Link) -> Link
    ensures { result ≡ with_cost cost link }
{
    Link {
        id: link.id,
        link_data: link.link_data,
        kind: link.kind,
        metric: cost,
    }
}

// Whether a link leaves by an interface, to a router or a transit network.
pub(crate) fn is_interface_link(link: Link) -> bool
    ensures { result ≡ is_interface_link link }
{
    match link.kind {
        LinkKind::PointToPoint | LinkKind::Transit => true,
        LinkKind::Stub | LinkKind::Virtual => false,
    }
}

// Whether it is a type 1 link.
fn is_router_link(link: Link) -> bool
    ensures { result ≡ is_router_link link }
{
    match link.kind {
        LinkKind::PointToPoint => true,
        LinkKind::Transit | LinkKind::Stub | LinkKind::Virtual => false,
    }
}

// Whether it is a type 1 link to a router.
fn is_link_to(link: Link, router: RouterId) -> bool
    ensures { result ≡ is_link_to link router }
{
    match link.kind {
        LinkKind::PointToPoint => link.id == router.0,
        LinkKind::Transit | LinkKind::Stub | LinkKind::Virtual => false,
    }
}

// Whether it is a type 3 link.
fn is_stub_link(link: Link) -> bool
    ensures { result ≡ is_stub_link link }
{
    match link.kind {
        LinkKind::Stub => true,
        LinkKind::PointToPoint | LinkKind::Transit | LinkKind::Virtual => false,
    }
}

// Whether a link is to the subnet of an interface with this address, of a router with these links:
// the longest that holds the address.
fn is_own_subnet(links: &[Link], address: u32, link: Link) -> bool
    ensures { result ≡ is_own_subnet links.now address link }
{
    is_subnet_with(address, link) && !has_longer(links, address, link)
}

// Whether one of these links is to a longer subnet that holds the address.
fn has_longer(links: &[Link], address: u32, link: Link) -> bool
    ensures { result ≡ list_any (is_longer_subnet address link) links.now }
{
    links
        .iter()
        .any(|other| is_longer_subnet(address, link, *other))
}

// Whether the other link is to a longer subnet that holds the address.
fn is_longer_subnet(address: u32, link: Link, other: Link) -> bool
    ensures { result ≡ is_longer_subnet address link other }
{
    is_subnet_with(address, other) && link.link_data < other.link_data
}

// Whether a link is to a subnet that holds the address, and no host route. An interface index is
// no address.
fn is_subnet_with(address: u32, link: Link) -> bool
    ensures { result ≡ is_subnet_with address link }
{
    is_stub_link(link)
        && (link.link_data != HOST && (is_address(address) && is_held(link, address)))
}

// Whether it is an address, and not the index of an interface.
fn is_address(link_data: u32) -> bool
    ensures { result ≡ is_address link_data }
{
    !(link_data < INDICES)
}

// Whether an address lies in the subnet of a type 3 link.
fn is_held(stub: Link, address: u32) -> bool
    ensures { result ≡ is_held stub address }
{
    address & stub.link_data == stub.id & stub.link_data
}
