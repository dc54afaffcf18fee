//! What the LSAs of single routers and networks say, each looked up by its key.

ghost use Rattle.std.specs.Prelude.{◌≡◌, ◌↔◌, IsTrue, Contains, IfSome, IfNone};
ghost use Rattle.ospf_lsa.specs.Listing.{IsListing};
ghost use Rattle.ospf_graph.specs.Advertisements.{IsListed, IsAttached, is_transit_to, transit_address};
ghost use Rattle.ospf_graph.specs.EdgeLists.Listed.{advertisements_of};
ghost use Rattle.ospf_graph.specs.EdgeLists.Costs.{HasLinkTo, IsTo, NamesLinkTo};
ghost use Rattle.ospf_graph.specs.EdgeLists.Near.{AreLinksBy, AreAttachedTo, HasNoNetwork, IsFirstAddress, HasNoAddress};

use ospf_base::RouterId;
use ospf_lsa::{Attached, Link, LinkKind, Links, Listing};

/// The links of a router's LSA, if it is listed.
pub(crate) fn links_by<'a>(listing: &'a Listing, router: RouterId) -> Option<Links<'a>>
    ensures found { IfSome result (AreLinksBy (advertisements_of listing.now) router) }
    ensures none { IfNone result (IsListed (advertisements_of listing.now) router → ⊥) }
    ensures listing { IsListing listing.now }
{
    match listing.router(router) {
        Some(lsa) => {
            let view = lsa.view();
            Some(view.links())
        }
        None => None,
    }
}

/// The routers that the LSA of a transit network names, if one is listed.
pub(crate) fn attached_to<'a>(listing: &'a Listing, id: u32) -> Option<Attached<'a>>
    ensures found { IfSome result (AreAttachedTo (advertisements_of listing.now) id) }
    ensures none { IfNone result (HasNoNetwork (advertisements_of listing.now) id) }
    ensures listing { IsListing listing.now }
{
    match listing.network(id) {
        Some(lsa) => {
            let view = lsa.view();
            Some(view.attached())
        }
        None => None,
    }
}

/// Whether the router-LSA of a router has a link of this kind and Link ID.
pub(crate) fn links_to(listing: &Listing, from: RouterId, kind: LinkKind, id: u32) -> bool
    ensures { IsTrue result ↔ HasLinkTo (advertisements_of listing.now) from kind id }
{
    match links_by(listing, from) {
        Some(links) => has_link(links, kind, id),
        None => false,
    }
}

/// Whether the LSA of a transit network names a router.
pub(crate) fn is_attached(listing: &Listing, id: u32, router: RouterId) -> bool
    ensures { IsTrue result ↔ IsAttached (advertisements_of listing.now) id router }
{
    match attached_to(listing, id) {
        Some(attached) => has_member(attached, router),
        None => false,
    }
}

/// A router's address on a transit network, by its first link there.
pub(crate) fn address_on(listing: &Listing, id: u32, router: RouterId) -> Option<u32>
    ensures found { IfSome result (IsFirstAddress (advertisements_of listing.now) id router) }
    ensures none { IfNone result (HasNoAddress (advertisements_of listing.now) id router) }
{
    match links_by(listing, router) {
        Some(links) => transit_link_data(links, id),
        None => None,
    }
}

// Whether one of the links is of this kind and has this Link ID.
fn has_link(mut links: Links, kind: LinkKind, id: u32) -> bool
    ensures { IsTrue result ↔ NamesLinkTo links.entry kind id }
{
    links.any(|link| is_to(&link, kind, id))
}

// Whether a link is of this kind and has this Link ID.
fn is_to(link: &Link, kind: LinkKind, id: u32) -> bool
    ensures { IsTrue result ↔ IsTo kind id link.now }
{
    link.kind == kind && link.id == id
}

// Whether a router is among the attached ones.
fn has_member(mut attached: Attached, router: RouterId) -> bool
    ensures { IsTrue result ↔ Contains attached.entry router }
{
    attached.find(|member| *member == router).is_some()
}

// The Link Data of the first type 2 link to a transit network.
fn transit_link_data(links: Links, id: u32) -> Option<u32>
    ensures { result ≡ transit_address id links.entry }
{
    for link in links {
        if is_transit_link(&link, id) {
            return Some(link.link_data);
        }
    }
    None
}

// Whether this is a type 2 link to a transit network.
fn is_transit_link(link: &Link, id: u32) -> bool
    ensures { result ≡ is_transit_to id link.now }
{
    match link.kind {
        LinkKind::Transit => link.id == id,
        LinkKind::PointToPoint | LinkKind::Stub | LinkKind::Virtual => false,
    }
}
