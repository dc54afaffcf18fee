//! What the LSA at the other end of a link advertises.

ghost use Rattle.std.specs.List.{list_any};
ghost use Rattle.std.specs.Prelude.{◌≡◌, ◌==◌, [], IfNone, IfSome, false, find};
ghost use Rattle.ospf_lsa.specs.Lsa.{IsRouterLsa, links_of};
ghost use Rattle.ospf_graph.specs.Advertisements.{is_transit_to};
ghost use Rattle.ospf_inspect.specs.AreaDrawing.Graph.{attached_to, back_among, back_of, has_one_to, have_one_link, is_drawn_link_to, is_mate, is_one_subnet, is_subnet_at, leads_back, links_listed_by, links_to_network, mask_with, mate_of, names_router, subnet_mask};

use ospf_base::RouterId;
use ospf_lsa::{Attached, Link, LinkKind, Links, Listing, LsaView};

// Whether a router has a link of type 1 to another.
pub(crate) fn leads_back(listing: &Listing, other: RouterId, router: RouterId) -> bool
    ensures { result ≡ leads_back listing.now other.0 router.0 }
{
    match links_by(listing, other) {
        Some(links) => has_link_to(links, router),
        None => false,
    }
}

// The other end of a link of type 1 of a router, by its router-LSA, if it is known which link that
// is.
pub(crate) fn link_back(
    listing: &Listing,
    router: RouterId,
    here: &LsaView,
    link: &Link,
) -> Option<Link>
    requires { IsRouterLsa here.now }
    ensures { result ≡ back_of listing.now router.0 (links_of here.now) link.now }
{
    match lsa_by(listing, RouterId(link.id)) {
        Some(there) => back_among(router, here, &there, link),
        None => None,
    }
}

// The link there that is one with a link here, if that is known.
fn back_among(router: RouterId, here: &LsaView, there: &LsaView, link: &Link) -> Option<Link>
    requires here { IsRouterLsa here.now }
    requires there { IsRouterLsa there.now }
    ensures { result ≡ back_among router.0 (links_of here.now) (links_of there.now) link.now }
{
    if have_one_link(router, here, RouterId(link.id), there) {
        return first_to(there.links(), router);
    }
    let mask = subnet_mask(here.links(), link.link_data);
    mate_of(router, there, link, mask)
}

// Whether a router has one link to another, and this has one back.
fn have_one_link(router: RouterId, here: &LsaView, other: RouterId, there: &LsaView) -> bool
    requires here { IsRouterLsa here.now }
    requires there { IsRouterLsa there.now }
    ensures { result ≡ have_one_link router.0 (links_of here.now) other.0 (links_of there.now) }
{
    has_one_to(here.links(), other) && has_one_to(there.links(), router)
}

// The first link there that leads back to a router in the subnet of a link, of this mask.
fn mate_of(router: RouterId, there: &LsaView, link: &Link, mask: u32) -> Option<Link>
    requires { IsRouterLsa there.now }
    ensures { result ≡ mate_of router.0 (links_of there.now) link.now mask }
{
    for back in there.links() {
        if is_mate(router, there, link, mask, &back) {
            return Some(back);
        }
    }
    None
}

// Whether a link there leads back to a router in the subnet of a link, of this mask.
fn is_mate(router: RouterId, there: &LsaView, link: &Link, mask: u32, back: &Link) -> bool
    requires { IsRouterLsa there.now }
    ensures { result ≡ is_mate router.0 (links_of there.now) link.now mask back.now }
{
    if !is_link_to(back, router) {
        return false;
    }
    let other = subnet_mask(there.links(), back.link_data);
    is_one_subnet(link.link_data, mask, back.link_data, other)
}

// Whether two addresses with these masks are of one subnet.
fn is_one_subnet(address: u32, mask: u32, other: u32, other_mask: u32) -> bool
    ensures { result ≡ is_one_subnet address mask other other_mask }
{
    mask == other_mask && mask != 0 && address & mask == other & mask
}

// The mask of an address in the longest stub network among links that holds it, or 0.
fn subnet_mask(links: Links, address: u32) -> u32
    ensures { result ≡ subnet_mask links.entry address }
{
    let mut mask = 0;
    for link in links {
        mask = mask_with(address, mask, &link);
    }
    mask
}

// The longer of a mask and that of a link, if this is a stub network that holds the address.
fn mask_with(address: u32, mask: u32, link: &Link) -> u32
    ensures { result ≡ mask_with address mask link.now }
{
    if is_subnet_at(address, link) {
        mask.max(link.link_data)
    } else {
        mask
    }
}

// Whether a link is a stub network that holds an address.
fn is_subnet_at(address: u32, link: &Link) -> bool
    ensures { result ≡ is_subnet_at address link.now }
{
    match link.kind {
        LinkKind::Stub => address & link.link_data == link.id & link.link_data,
        LinkKind::PointToPoint | LinkKind::Transit | LinkKind::Virtual => false,
    }
}

// Whether a transit network names a router.
pub(crate) fn names_router(listing: &Listing, id: u32, router: RouterId) -> bool
    ensures { result ≡ names_router listing.now id router.0 }
{
    match attached_to(listing, id) {
        Some(routers) => has_router(routers, router),
        None => false,
    }
}

// Whether a router has a link to a transit network.
pub(crate) fn links_to_network(listing: &Listing, router: RouterId, id: u32) -> bool
    ensures { result ≡ links_to_network listing.now router.0 id }
{
    match links_by(listing, router) {
        Some(links) => has_transit_link(links, id),
        None => false,
    }
}

// The links of a router's LSA, if it is listed.
fn links_by<'a>(listing: &'a Listing, router: RouterId) -> Option<Links<'a>>
    ensures found { IfSome result (λ links. links ≡ links_listed_by listing.now router.0) }
    ensures none { IfNone result (links_listed_by listing.now router.0 ≡ []) }
{
    match lsa_by(listing, router) {
        Some(lsa) => Some(lsa.links()),
        None => None,
    }
}

// A router's LSA, if it is listed.
fn lsa_by<'a>(listing: &'a Listing, router: RouterId) -> Option<LsaView<'a>>
    ensures is_router { IfSome result (λ lsa. IsRouterLsa lsa) }
    ensures found { IfSome result (λ lsa. links_of lsa ≡ links_listed_by listing.now router.0) }
    ensures none { IfNone result (links_listed_by listing.now router.0 ≡ []) }
{
    match listing.router(router) {
        Some(lsa) => Some(lsa.view()),
        None => None,
    }
}

// The routers that the LSA of a transit network names, if one is listed.
fn attached_to<'a>(listing: &'a Listing, id: u32) -> Option<Attached<'a>>
    ensures found { IfSome result (λ routers. routers ≡ attached_to listing.now id) }
    ensures none { IfNone result (attached_to listing.now id ≡ []) }
{
    match listing.network(id) {
        Some(lsa) => Some(lsa.view().attached()),
        None => None,
    }
}

// Whether exactly one of those leads to a router.
fn has_one_to(links: Links, to: RouterId) -> bool
    ensures { result ≡ has_one_to to.0 false links.entry }
{
    let mut found = false;
    for link in links {
        if is_link_to(&link, to) {
            if found {
                return false;
            }
            found = true;
        }
    }
    found
}

// The first of those that leads to a router.
fn first_to(links: Links, to: RouterId) -> Option<Link>
    ensures { result ≡ find (is_drawn_link_to to.0) links.entry }
{
    for link in links {
        if is_link_to(&link, to) {
            return Some(link);
        }
    }
    None
}

// Whether one of the links leads to a router.
fn has_link_to(mut links: Links, router: RouterId) -> bool
    ensures { result ≡ list_any (is_drawn_link_to router.0) links.entry }
{
    links.any(|link| is_link_to(&link, router))
}

// Whether a router stands among those.
fn has_router(mut routers: Attached, router: RouterId) -> bool
    ensures { result ≡ list_any (λ named. named.0 == router.0) routers.entry }
{
    routers.any(|named| named.0 == router.0)
}

// Whether one of the links is of type 2 to a transit network.
fn has_transit_link(mut links: Links, id: u32) -> bool
    ensures { result ≡ list_any (is_transit_to id) links.entry }
{
    links.any(|link| is_transit_link(&link, id))
}

// Whether this is a link of type 1 to a router.
fn is_link_to(link: &Link, router: RouterId) -> bool
    ensures { result ≡ is_drawn_link_to router.0 link.now }
{
    match link.kind {
        LinkKind::PointToPoint => link.id == router.0,
        LinkKind::Transit | LinkKind::Stub | LinkKind::Virtual => false,
    }
}

// Whether this is a link of type 2 to a transit network.
fn is_transit_link(link: &Link, id: u32) -> bool
    ensures { result ≡ is_transit_to id link.now }
{
    match link.kind {
        LinkKind::Transit => link.id == id,
        LinkKind::PointToPoint | LinkKind::Stub | LinkKind::Virtual => false,
    }
}
