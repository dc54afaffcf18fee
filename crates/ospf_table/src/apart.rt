//! Why a part of an area is not reached, as far as its LSAs show.

ghost use Rattle.std.specs.Prelude.{◌≡◌, ◌==◌, IfOk, string_bytes};
ghost use Rattle.std.specs.List.{list_any};
ghost use Rattle.ospf_table.specs.Apart.{apart_text, attaches, first_router, has_mixed, has_virtual, is_mixed, is_to, is_unlike, is_virtual, mixed_line, points, virtual_line};

use ospf_base::{Kind, RouterId};
use ospf_lsa::{Attached, Link, LinkKind, Links, Listing, Lsa};
use std::alloc::{AllocError, Global};

/// What the LSAs of an area show of parts that are not reached, a line each: the first router with
/// a virtual link, over which routes are not computed; and the first with a point-to-point link to
/// a router that has no such link back, but has an interface to a network that attaches the first.
///
/// `AllocError` where memory runs out.
pub fn apart_text(alloc: Global, listing: &Listing) -> Result<String, AllocError>
    ensures { IfOk result (λ text. string_bytes text ≡ apart_text listing.now) }
{
    let mut text = virtual_line(alloc, first_virtual(listing))?;
    let more = mixed_line(alloc, first_mixed(listing))?;
    text.push_str(more.as_str())?;
    Ok(text)
}

fn virtual_line(alloc: Global, router: Option<RouterId>) -> Result<String, AllocError>
    ensures { IfOk result (λ line. string_bytes line ≡ virtual_line router) }
{
    match router {
        None => Ok(String::new(alloc)),
        Some(router) => {
            let line = format!(in alloc;
                "{router}: virtual link: routes over it are not computed\n"
            )?;
            Ok(line)
        }
    }
}

fn mixed_line(alloc: Global, router: Option<RouterId>) -> Result<String, AllocError>
    ensures { IfOk result (λ line. string_bytes line ≡ mixed_line router) }
{
    match router {
        None => Ok(String::new(alloc)),
        Some(router) => {
            let line = format!(in alloc;
                "{router}: point-to-point link to a broadcast interface: no route leads over it\n"
            )?;
            Ok(line)
        }
    }
}

fn first_virtual(listing: &Listing) -> Option<RouterId>
    ensures { result ≡ first_router has_virtual listing.now }
{
    let lsa = listing.lsas().iter().find(|it| has_virtual(it))?;
    Some(lsa.view().key().router)
}

fn first_mixed(listing: &Listing) -> Option<RouterId>
    ensures { result ≡ first_router (has_mixed listing.now) listing.now }
{
    let lsa = listing.lsas().iter().find(|it| has_mixed(listing, it))?;
    Some(lsa.view().key().router)
}

fn has_virtual(lsa: &Lsa) -> bool
    ensures { result ≡ has_virtual lsa.now }
{
    let view = lsa.view();
    match view.kind() {
        Kind::Router => is_any_virtual(view.links()),
        Kind::Network => false,
    }
}

fn is_any_virtual(links: Links<'_>) -> bool
    ensures { result ≡ list_any is_virtual links.entry }
{
    for link in links {
        if is_virtual(&link) {
            return true;
        }
    }
    false
}

fn is_virtual(link: &Link) -> bool
    ensures { result ≡ is_virtual link.now }
{
    match link.kind {
        LinkKind::Virtual => true,
        LinkKind::PointToPoint | LinkKind::Transit | LinkKind::Stub => false,
    }
}

fn has_mixed(listing: &Listing, lsa: &Lsa) -> bool
    ensures { result ≡ has_mixed listing.now lsa.now }
{
    let view = lsa.view();
    match view.kind() {
        Kind::Router => is_any_mixed(listing, view.key().router, view.links()),
        Kind::Network => false,
    }
}

fn is_any_mixed(listing: &Listing, router: RouterId, links: Links<'_>) -> bool
    ensures { result ≡ list_any (is_mixed listing.now router) links.entry }
{
    for link in links {
        if is_mixed(listing, router, &link) {
            return true;
        }
    }
    false
}

fn is_mixed(listing: &Listing, router: RouterId, link: &Link) -> bool
    ensures { result ≡ is_mixed listing.now router link.now }
{
    match link.kind {
        LinkKind::PointToPoint => is_unlike(listing, router, RouterId(link.id)),
        LinkKind::Transit | LinkKind::Stub | LinkKind::Virtual => false,
    }
}

// Whether the other end of a point-to-point link is broadcast.
fn is_unlike(listing: &Listing, router: RouterId, other: RouterId) -> bool
    ensures { result ≡ is_unlike listing.now router other }
{
    !points_back(listing, other, router) && is_attached(listing, other, router)
}

fn points_back(listing: &Listing, from: RouterId, to: RouterId) -> bool
    ensures { result ≡ list_any (points from to) listing.now }
{
    listing.lsas().iter().any(|it| points(from, to, it))
}

fn is_attached(listing: &Listing, dr: RouterId, router: RouterId) -> bool
    ensures { result ≡ list_any (attaches dr router) listing.now }
{
    listing.lsas().iter().any(|it| attaches(dr, router, it))
}

fn points(from: RouterId, to: RouterId, lsa: &Lsa) -> bool
    ensures { result ≡ points from to lsa.now }
{
    let view = lsa.view();
    match view.kind() {
        Kind::Router => view.key().router.0 == from.0 && leads_to(to, view.links()),
        Kind::Network => false,
    }
}

fn leads_to(to: RouterId, links: Links<'_>) -> bool
    ensures { result ≡ list_any (is_to to) links.entry }
{
    for link in links {
        if is_to(to, &link) {
            return true;
        }
    }
    false
}

fn is_to(router: RouterId, link: &Link) -> bool
    ensures { result ≡ is_to router link.now }
{
    match link.kind {
        LinkKind::PointToPoint => link.id == router.0,
        LinkKind::Transit | LinkKind::Stub | LinkKind::Virtual => false,
    }
}

fn attaches(dr: RouterId, router: RouterId, lsa: &Lsa) -> bool
    ensures { result ≡ attaches dr router lsa.now }
{
    let view = lsa.view();
    match view.kind() {
        Kind::Router => false,
        Kind::Network => view.key().router.0 == dr.0 && has_router(router, view.attached()),
    }
}

fn has_router(router: RouterId, attached: Attached<'_>) -> bool
    ensures { result ≡ list_any (λ r. r.0 == router.0) attached.entry }
{
    for other in attached {
        if other.0 == router.0 {
            return true;
        }
    }
    false
}
