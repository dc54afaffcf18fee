//! The subnets of the point-to-point links between two routers, which may lie one in another.

ghost use Rattle.std.specs.Prelude.{◌≡◌, ◌++◌, ◌∷◌, [], filter, IfOk, OnOk};
ghost use Rattle.std.specs.List.{list_any};
ghost use Rattle.ospf_graph.specs.EdgeLists.Addresses.{links_by};
ghost use Rattle.ospf_graph.specs.EdgeLists.Listed.{advertisements_of};
ghost use Rattle.ospf_whatif.specs.Failure.{inner_of};
ghost use Rattle.ospf_whatif.specs.Subnets.{HaveSame, indices, inner_between, is_address, is_end_in, is_held, is_inside, is_link_in, is_link_to, is_same_stub, is_shared_stub, is_stub_link};

use crate::failure::AreaFailure;
use ospf_base::{Prefix, RouterId, mask_of};
use ospf_lsa::{Link, LinkKind, Links, Listing};
use std::alloc::{AllocError, Global};

// The indices of interfaces are below it: they lie in 0.0.0.0/8, as no address of an interface does
// (RFC 2328, section 12.4.1.1).
const INDICES: u32 = 1 << 24;

/// The longer subnets of links between two routers inside the one that fails.
///
/// `AllocError` where memory runs out.
pub(crate) fn inner_of(
    alloc: Global,
    listing: &Listing,
    failure: &AreaFailure,
) -> Result<Vec<Link>, AllocError>
    ensures { IfOk result (λ inner. HaveSame inner.items
        (inner_of failure.now (advertisements_of listing.now))) }
{
    match *failure {
        AreaFailure::Link { a, b, subnet } => inner_between(alloc, listing, subnet, a, b),
        AreaFailure::End {
            router,
            other,
            subnet,
        } => inner_between(alloc, listing, subnet, router, other),
        AreaFailure::Links { .. } => Ok(Vec::new(alloc)),
        AreaFailure::Attachment { .. } => Ok(Vec::new(alloc)),
        AreaFailure::Network(_) => Ok(Vec::new(alloc)),
        AreaFailure::Router(_) => Ok(Vec::new(alloc)),
        AreaFailure::Stub { .. } => Ok(Vec::new(alloc)),
    }
}

// The longer subnets of links between two routers inside one.
fn inner_between(
    alloc: Global,
    listing: &Listing,
    subnet: Prefix,
    a: RouterId,
    b: RouterId,
) -> Result<Vec<Link>, AllocError>
    ensures { IfOk result (λ inner. HaveSame inner.items (inner_between subnet a b
        (links_by a (advertisements_of listing.now))
        (links_by b (advertisements_of listing.now)))) }
{
    let mine = links_at(alloc, listing, a)?;
    let theirs = links_at(alloc, listing, b)?;
    inner_among(alloc, subnet, a, b, &mine, &theirs)
}

// Those of two routers with these links.
fn inner_among(
    alloc: Global,
    subnet: Prefix,
    a: RouterId,
    b: RouterId,
    mine: &[Link],
    theirs: &[Link],
) -> Result<Vec<Link>, AllocError>
    ensures { IfOk result (λ inner. inner.items
        ≡ inner_between subnet a b mine.now theirs.now) }
{
    let mut inner = Vec::from_slice(alloc, mine)?;
    inner.retain(|link| is_inside(subnet, *link) && is_shared(a, b, mine, theirs, *link));
    push_indices(subnet, &mut inner)?;
    Ok(inner)
}

// Adds the link that represents links without addresses, if the subnet holds it and is shorter.
fn push_indices(subnet: Prefix, inner: &mut Vec<Link>) -> Result<(), AllocError>
    ensures { OnOk result (inner.new.items
        ≡ inner.old.items ++ filter (is_inside subnet) (indices ∷ [])) }
{
    let indices = indices();
    if is_inside(subnet, indices) {
        inner.push(indices)?;
    }
    Ok(())
}

// 0.0.0.0/8, which represents links without addresses.
fn indices() -> Link
    ensures { result ≡ indices }
{
    Link {
        id: 0,
        link_data: 0xFF00_0000,
        kind: LinkKind::Stub,
        metric: 0,
    }
}

// The links of a router's LSA.
fn links_at(alloc: Global, listing: &Listing, router: RouterId) -> Result<Vec<Link>, AllocError>
    ensures { IfOk result (λ links. HaveSame links.items
        (links_by router (advertisements_of listing.now))) }
{
    match listing.router(router) {
        Some(lsa) => {
            let view = lsa.view();
            listed(alloc, view.links())
        }
        None => Ok(Vec::new(alloc)),
    }
}

/// Links one by one.
pub(crate) fn listed(alloc: Global, links: Links) -> Result<Vec<Link>, AllocError>
    ensures { IfOk result (λ all. all.items ≡ links.entry) }
{
    let mut all = Vec::new(alloc);
    for link in links {
        all.push(link)?;
    }
    Ok(all)
}

// Whether a type 3 link's subnet lies in another one, and is longer.
fn is_inside(subnet: Prefix, stub: Link) -> bool
    ensures { result ≡ is_inside subnet stub }
{
    let mask = mask_of(subnet.length);
    mask < stub.link_data && stub.id & mask == subnet.address.0
}

// Whether a link is a type 3 link to a subnet of links between two routers with these links.
fn is_shared(a: RouterId, b: RouterId, mine: &[Link], theirs: &[Link], stub: Link) -> bool
    ensures { result ≡ is_shared_stub a b mine.now theirs.now stub }
{
    is_stub_link(stub) && is_end_in(stub, a, theirs) && is_end_in(stub, b, mine)
}

// Whether a router with these links advertises the subnet, and has a link in it to another router.
fn is_end_in(stub: Link, other: RouterId, links: &[Link]) -> bool
    ensures { result ≡ is_end_in stub other links.now }
{
    tells(stub, links) && has_link_in(stub, other, links)
}

// Whether one of these links is a type 3 link to the subnet.
fn tells(stub: Link, links: &[Link]) -> bool
    ensures { result ≡ list_any (is_same_stub stub) links.now }
{
    links.iter().any(|link| is_same_stub(stub, *link))
}

// Whether one of these links leads to a router out of an address in the subnet.
fn has_link_in(stub: Link, router: RouterId, links: &[Link]) -> bool
    ensures { result ≡ list_any (is_link_in stub router) links.now }
{
    links.iter().any(|link| is_link_in(stub, router, *link))
}

// Whether a type 3 link is one to the same subnet.
fn is_same_stub(stub: Link, link: Link) -> bool
    ensures { result ≡ is_same_stub stub link }
{
    is_stub_link(link) && link.link_data == stub.link_data && is_held(stub, link.id)
}

// Whether it is a type 1 link to a router, out of an address in the subnet.
fn is_link_in(stub: Link, router: RouterId, link: Link) -> bool
    ensures { result ≡ is_link_in stub router link }
{
    is_link_to(link, router) && is_address(link.link_data) && is_held(stub, link.link_data)
}

/// Whether it is an address, and not the index of an interface.
pub(crate) fn is_address(link_data: u32) -> bool
    ensures { result ≡ is_address link_data }
{
    !(link_data < INDICES)
}

/// Whether an address lies in the subnet of a type 3 link.
pub(crate) fn is_held(stub: Link, address: u32) -> bool
    ensures { result ≡ is_held stub address }
{
    address & stub.link_data == stub.id & stub.link_data
}

/// Whether it is a type 1 link to a router.
pub(crate) fn is_link_to(link: Link, router: RouterId) -> bool
    ensures { result ≡ is_link_to link router }
{
    match link.kind {
        LinkKind::PointToPoint => link.id == router.0,
        LinkKind::Transit | LinkKind::Stub | LinkKind::Virtual => false,
    }
}

/// Whether it is a type 3 link.
pub(crate) fn is_stub_link(link: Link) -> bool
    ensures { result ≡ is_stub_link link }
{
    match link.kind {
        LinkKind::Stub => true,
        LinkKind::PointToPoint | LinkKind::Transit | LinkKind::Virtual => false,
    }
}
