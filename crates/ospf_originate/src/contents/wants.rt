//! The LSAs of its own that a router wants.

ghost use Rattle.std.specs.Prelude.{◌≡◌, ◌++◌, ◌∷◌, [], IfOk, OnOk, map, filter, nat_lt, ◌&&◌, ◌==◌, if◌then◌else◌};
ghost use Rattle.std.specs.List.{list_any};
ghost use Rattle.ospf_neighbour.specs.Neighbour.{NeighbourValue};
ghost use Rattle.ospf_originate.specs.Wants.Wanted.{is_full, is_dr_of, is_transit, router_link, network_link, subnet_link, subnets_of, links_of_link, stub_link, interface_links, advertised_mask, own_links, attached_routers, network_of, wanted_lsas, wanted_key};
ghost use Rattle.ospf_originate.specs.Wants.Own.{wanted_value};

use ospf_area::AreaLink;
use ospf_base::{InterfaceKind, Kind, LsaKey, RouterId, StubNetwork, mask_of};
use ospf_lsa::{Link, LinkKind};
use ospf_neighbour::iface::IfaceState;
use ospf_neighbour::{Neighbour, NeighbourState};
use std::alloc::{AllocError, Global};

/// The largest metric, which a stub router gives to links that lead on (RFC 6987).
const MAX_LINK_METRIC: u16 = 0xffff;

/// An LSA that is wanted: all that it says but its number.
#[derive(Debug, Drop)]
pub enum OwnLsa {
    /// A router-LSA with these links.
    Router {
        router: RouterId,
        links: Vec<Link>,
    },
    /// A network-LSA of this Link State ID, with the attached routers.
    Network {
        id: u32,
        router: RouterId,
        mask: u32,
        routers: Vec<RouterId>,
    },
}

impl OwnLsa {
    ghost use Rattle.std.specs.Prelude.{◌≡◌};
    ghost use Rattle.ospf_originate.specs.Wants.Wanted.{wanted_key};
    ghost use Rattle.ospf_originate.specs.Wants.Own.{wanted_value};

    /// What names it.
    pub fn key(&self) -> LsaKey
        ensures { result ≡ wanted_key (wanted_value self.now) }
    {
        match self {
            OwnLsa::Router { router, .. } => LsaKey::of_router(*router),
            OwnLsa::Network { id, router, .. } => LsaKey {
                kind: Kind::Network,
                id: *id,
                router: *router,
            },
        }
    }
}

/// Whether the router is the Designated Router of a link, and fully adjacent to someone there: then
/// it wants a network-LSA of it (RFC 2328, section 12.4.2).
pub fn is_dr_of(link: &AreaLink) -> bool
    ensures { result ≡ is_dr_of link.now }
{
    matches!(link.iface.state, IfaceState::Dr) && some_full(link.neighbours.all())
}

/// The LSAs that a router wants (RFC 2328, section 12.4), over its links and its stub networks in
/// configuration order: its router-LSA, and the network-LSA of each link of which it is the
/// Designated Router and fully adjacent to someone.
///
/// `AllocError` where memory runs out.
#[tactic(auto, unfolding(crate::specs::Wants::Wanted::wanted_lsas))]
pub fn wanted(
    stub_router: bool,
    router: RouterId,
    links: &[AreaLink],
    stubs: &[StubNetwork],
    alloc: Global,
) -> Result<Vec<OwnLsa>, AllocError>
    ensures { IfOk result (λ v. map wanted_value v.items
        ≡ wanted_lsas stub_router router links.now stubs.now) }
{
    let own = own_links(stub_router, links, stubs, alloc)?;
    let mut all = Vec::new(alloc);
    all.push(OwnLsa::Router { router, links: own })?;
    for link in links {
        push_network(&mut all, router, link, alloc)?;
    }
    Ok(all)
}

// Whether a neighbour is fully adjacent.
pub(crate) fn is_full(neighbour: &Neighbour) -> bool
    ensures { result ≡ is_full neighbour.now }
{
    matches!(neighbour.state(), NeighbourState::Full)
}

// The link to a router.
pub(crate) fn router_link(stub_router: bool, link: &AreaLink, neighbour: &Neighbour) -> Link
    ensures { result ≡ router_link stub_router link.now neighbour.now }
{
    Link {
        id: neighbour.router().0,
        link_data: link.iface.settings.address.0,
        kind: LinkKind::PointToPoint,
        metric: through_metric(stub_router, link.settings.cost),
    }
}

// The link to a link's own subnet.
pub(crate) fn subnet_link(link: &AreaLink) -> Link
    ensures { result ≡ subnet_link link.now }
{
    Link {
        id: link.iface.settings.address.0 & link.iface.settings.mask,
        link_data: link.iface.settings.mask,
        kind: LinkKind::Stub,
        metric: link.settings.cost,
    }
}

// The mask of a link's network-LSA.
pub(crate) fn advertised_mask(link: &AreaLink) -> u32
    ensures { result ≡ advertised_mask link.now }
{
    if link.settings.suppressed {
        u32::MAX
    } else {
        link.iface.settings.mask
    }
}

// The link to a stub network.
pub(crate) fn stub_link(stub: &StubNetwork) -> Link
    ensures { result ≡ stub_link stub.now }
{
    Link {
        id: stub.prefix.address.0,
        link_data: mask_of(stub.prefix.length),
        kind: LinkKind::Stub,
        metric: stub.cost,
    }
}

// The link of a broadcast interface.
pub(crate) fn broadcast_link(stub_router: bool, link: &AreaLink) -> Link
    ensures { result
        ≡ (if is_transit link.now then network_link stub_router link.now
        else subnet_link link.now) }
{
    if is_transit(link) {
        network_link(stub_router, link)
    } else {
        subnet_link(link)
    }
}

// Whether some neighbour is fully adjacent.
fn some_full(neighbours: &[Neighbour]) -> bool
    ensures { result ≡ list_any is_full neighbours.now }
{
    neighbours.iter().any(is_full)
}

// The links of the router-LSA.
fn own_links(
    stub_router: bool,
    links: &[AreaLink],
    stubs: &[StubNetwork],
    alloc: Global,
) -> Result<Vec<Link>, AllocError>
    ensures { IfOk result (λ v. v.items ≡ own_links stub_router links.now stubs.now) }
{
    let mut out = interface_links(stub_router, links, alloc)?;
    let to_stubs = stub_links(stubs, alloc)?;
    out.extend_from_slice(&to_stubs)?;
    Ok(out)
}

// The links that the interfaces make.
fn interface_links(
    stub_router: bool,
    links: &[AreaLink],
    alloc: Global,
) -> Result<Vec<Link>, AllocError>
    ensures { IfOk result (λ v. v.items ≡ interface_links stub_router links.now) }
{
    let mut out = Vec::new(alloc);
    for link in links {
        push_links(&mut out, stub_router, link, alloc)?;
    }
    Ok(out)
}

// The links to stub networks.
fn stub_links(stubs: &[StubNetwork], alloc: Global) -> Result<Vec<Link>, AllocError>
    ensures { IfOk result (λ v. v.items ≡ map stub_link stubs.now) }
{
    stubs.iter().map(stub_link).collect(alloc)
}

// Puts the links of a link at the end.
#[tactic(auto, unfolding(crate::specs::Wants::Wanted::links_of_link))]
fn push_links(
    out: &mut Vec<Link>,
    stub_router: bool,
    link: &AreaLink,
    alloc: Global,
) -> Result<(), AllocError>
    ensures { OnOk result (out.new.items ≡ out.old.items ++ links_of_link stub_router link.now) }
{
    if link.iface.state.is_down() {
        return Ok(());
    }
    match link.iface.settings.kind {
        InterfaceKind::PointToPoint => {
            let routers = router_links(stub_router, link, link.neighbours.all(), alloc)?;
            out.extend_from_slice(&routers)?;
            push_subnet(out, link)?;
        }
        InterfaceKind::Broadcast => out.push(broadcast_link(stub_router, link))?,
    }
    Ok(())
}

// Puts the link to the subnet of a link at the end, unless it is suppressed.
fn push_subnet(out: &mut Vec<Link>, link: &AreaLink) -> Result<(), AllocError>
    ensures { OnOk result (out.new.items ≡ out.old.items ++ subnets_of link.now) }
{
    if !link.settings.suppressed {
        out.push(subnet_link(link))?;
    }
    Ok(())
}

// The links to the fully adjacent neighbours of a link.
fn router_links(
    stub_router: bool,
    link: &AreaLink,
    neighbours: &[Neighbour],
    alloc: Global,
) -> Result<Vec<Link>, AllocError>
    ensures { IfOk result (λ v. v.items
        ≡ map (router_link stub_router link.now) (filter is_full neighbours.now)) }
{
    neighbours
        .iter()
        .filter(|n| is_full(n))
        .map(|n| router_link(stub_router, link, n))
        .collect(alloc)
}

// Puts the network-LSA of a link at the end, where it is wanted.
#[tactic(auto, unfolding(crate::specs::Wants::Wanted::network_of))]
fn push_network(
    out: &mut Vec<OwnLsa>,
    router: RouterId,
    link: &AreaLink,
    alloc: Global,
) -> Result<(), AllocError>
    ensures { OnOk result (map wanted_value out.new.items ≡ map wanted_value out.old.items
        ++ map (network_of router) (filter is_dr_of (link.now ∷ []))) }
{
    if is_dr_of(link) {
        let routers = attached_routers(router, link.neighbours.all(), alloc)?;
        out.push(OwnLsa::Network {
            id: link.iface.settings.address.0,
            router,
            mask: advertised_mask(link),
            routers,
        })?;
    }
    Ok(())
}

// The routers attached to a network of which this router is the Designated Router.
fn attached_routers(
    router: RouterId,
    neighbours: &[Neighbour],
    alloc: Global,
) -> Result<Vec<RouterId>, AllocError>
    ensures { IfOk result (λ v. v.items ≡ attached_routers router neighbours.now) }
{
    let mut routers = full_before(router, neighbours, alloc)?;
    routers.push(router)?;
    let behind = full_behind(router, neighbours, alloc)?;
    routers.extend_from_slice(&behind)?;
    Ok(routers)
}

// The fully adjacent neighbours whose IDs come before a router's.
fn full_before(
    router: RouterId,
    neighbours: &[Neighbour],
    alloc: Global,
) -> Result<Vec<RouterId>, AllocError>
    ensures { IfOk result (λ v. v.items
        ≡ map (λ n. n.router)
        (filter (λ n. is_full n && nat_lt n.router.0 router.0) neighbours.now)) }
{
    neighbours
        .iter()
        .filter(|n| is_full(n) && n.router().0 < router.0)
        .map(|n| n.router())
        .collect(alloc)
}

// The fully adjacent neighbours of a higher Router ID.
fn full_behind(
    router: RouterId,
    neighbours: &[Neighbour],
    alloc: Global,
) -> Result<Vec<RouterId>, AllocError>
    ensures { IfOk result (λ v. v.items
        ≡ map (λ n. n.router)
        (filter (λ n. is_full n && nat_lt router.0 n.router.0) neighbours.now)) }
{
    neighbours
        .iter()
        .filter(|n| is_full(n) && router.0 < n.router().0)
        .map(|n| n.router())
        .collect(alloc)
}

// The metric of links to routers and to transit networks.
fn through_metric(stub_router: bool, cost: u16) -> u16
    ensures { result ≡ (if stub_router then 0xffff else cost) }
{
    if stub_router { MAX_LINK_METRIC } else { cost }
}

// Whether a link is one to a transit network. A Designated Router has a fully
// adjacent neighbour soon found.
#[tactic(auto, using(crate::proofs::Wants::SaidLemmas::either))]
fn is_transit(link: &AreaLink) -> bool
    ensures { result ≡ is_transit link.now }
{
    is_dr_of(link) || full_at(link.iface.dr.0, link.neighbours.all())
}

// Whether the neighbour of an address is fully adjacent.
fn full_at(address: u32, neighbours: &[Neighbour]) -> bool
    ensures { result
        ≡ list_any (λ (n : NeighbourValue). is_full n && (n.address.0 == address)) neighbours.now }
{
    neighbours
        .iter()
        .any(|n| is_full(n) && n.address().0 == address)
}

// The link to a transit network.
fn network_link(stub_router: bool, link: &AreaLink) -> Link
    ensures { result ≡ network_link stub_router link.now }
{
    Link {
        id: link.iface.dr.0,
        link_data: link.iface.settings.address.0,
        kind: LinkKind::Transit,
        metric: through_metric(stub_router, link.settings.cost),
    }
}
