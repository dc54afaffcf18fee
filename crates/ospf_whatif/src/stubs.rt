//! The interfaces to stub networks of an area.

ghost use Rattle.std.specs.Prelude.{◌≡◌, ◌↔◌, ◌<◌, AllPairs, Contains, IfNone, IfOk, IfSome, IsTrue, OnOk};
ghost use Rattle.std.specs.List.{list_any};
ghost use Rattle.ospf_base.specs.Prefixes.{IsPrefixOf};
ghost use Rattle.ospf_base.specs.declared.prefix.Prefix as prefixes;
ghost use Rattle.ospf_graph.specs.Adds.{Adds};
ghost use Rattle.ospf_graph.specs.EdgeLists.Listed.{advertisement_of, advertisements_of};
ghost use Rattle.ospf_lsa.specs.Lsa.{links_of};
ghost use Rattle.ospf_lsa.specs.declared.link.LinkKind.TheVariants as kind;
ghost use Rattle.ospf_whatif.specs.Single.{GivenBy, IsFailureBefore};
ghost use Rattle.ospf_whatif.specs.Stubs.{AreAllFailures, StubGiven, StubGivenBy, is_longer_at, is_numbered, is_subnet_of};

use crate::failure::AreaFailure;
use crate::failures::{put_in_order, single_failures};
use crate::subnets::{is_address, is_held, is_stub_link, listed};
use ospf_base::{Addr, Kind, Prefix, RouterId, mask_of};
use ospf_lsa::{Link, LinkKind, Listing, Lsa};
use std::alloc::{AllocError, Global};

// The mask of a host route.
const HOST: u32 = 0xffff_ffff;

/// What may fail in an area, each once, in the order of `AreaFailure`: the failures of
/// `single_failures`, and each router's interface to a stub network, by the router and the prefix.
/// A prefix of 32 bits is left out, since no interface fails with the address of a loopback or a
/// host; and so is the subnet of one of the router's links to routers and transit networks.
///
/// `AllocError` if memory runs out.
pub fn all_failures(alloc: Global, listing: &Listing) -> Result<Vec<AreaFailure>, AllocError>
    ensures all { IfOk result (λ all. AreAllFailures (advertisements_of listing.now) all.items) }
    ensures in_order { IfOk result (λ all. AllPairs IsFailureBefore all.items) }
{
    let mut failures = single_failures(alloc, listing)?;
    add_stubs(alloc, listing, &mut failures)?;
    put_in_order(&mut failures);
    Ok(failures)
}

// Adds the interfaces to stub networks of a listing.
fn add_stubs(
    alloc: Global,
    listing: &Listing,
    failures: &mut Vec<AreaFailure>,
) -> Result<(), AllocError>
    ensures { OnOk result (Adds (GivenBy (λ lsa. StubGivenBy (advertisement_of lsa)) listing.now)
        failures.old.items failures.new.items) }
{
    for lsa in listing.lsas() {
        add_stubs_of(alloc, lsa, failures)?;
    }
    Ok(())
}

// Adds those of an LSA.
fn add_stubs_of(alloc: Global, lsa: &Lsa, failures: &mut Vec<AreaFailure>) -> Result<(), AllocError>
    ensures { OnOk result (Adds (StubGivenBy (advertisement_of lsa.now)) failures.old.items
        failures.new.items) }
{
    let view = lsa.view();
    let key = view.key();
    match view.kind() {
        Kind::Router => {
            let links = listed(alloc, view.links())?;
            add_stubs_among(key.router, &links, failures)?;
            Ok(())
        }
        Kind::Network => Ok(()),
    }
}

// Adds those of a router with these links.
fn add_stubs_among(
    router: RouterId,
    links: &[Link],
    failures: &mut Vec<AreaFailure>,
) -> Result<(), AllocError>
    ensures { OnOk result (Adds (GivenBy (StubGiven router links.now) links.now)
        failures.old.items failures.new.items) }
{
    for link in links {
        add_stub(router, links, *link, failures)?;
    }
    Ok(())
}

// Adds that of a link.
fn add_stub(
    router: RouterId,
    links: &[Link],
    link: Link,
    failures: &mut Vec<AreaFailure>,
) -> Result<(), AllocError>
    ensures { OnOk result (Adds (StubGiven router links.now link) failures.old.items
        failures.new.items) }
{
    match stub_prefix(link) {
        Some(prefix) => {
            if prefix.length < 32 && !has_subnet_of(links, prefix) {
                failures.push(AreaFailure::Stub { router, prefix })?;
            }
            Ok(())
        }
        None => Ok(()),
    }
}

// The prefix of a type 3 link.
fn stub_prefix(link: Link) -> Option<Prefix>
    ensures some { IfSome result (λ prefix. (link.kind ≡ kind.Stub)
        × IsPrefixOf link.id link.link_data prefix) }
    ensures none { IfNone result ((prefix : prefixes.Prefix) → link.kind ≡ kind.Stub →
        IsPrefixOf link.id link.link_data prefix → ⊥) }
{
    match link.kind {
        LinkKind::Stub => Prefix::under(Addr(link.id), link.link_data),
        LinkKind::PointToPoint | LinkKind::Transit | LinkKind::Virtual => None,
    }
}

// Whether a prefix is the subnet of a link to a router or to a transit network, of these links.
fn has_subnet_of(links: &[Link], prefix: Prefix) -> bool
    ensures { result ≡ list_any (is_subnet_of links.now prefix) links.now }
{
    links.iter().any(|link| is_subnet_of(links, prefix, *link))
}

// Whether a prefix is the longest one in which the address of a link's interface lies.
fn is_subnet_of(links: &[Link], prefix: Prefix, link: Link) -> bool
    ensures { result ≡ is_subnet_of links.now prefix link }
{
    is_numbered(link)
        && link.link_data & mask_of(prefix.length) == prefix.address.0
        && !is_in_longer(links, prefix, link.link_data)
}

// Whether an address lies in a longer prefix of one of these links.
fn is_in_longer(links: &[Link], prefix: Prefix, address: u32) -> bool
    ensures { result ≡ list_any (is_longer_at prefix address) links.now }
{
    links
        .iter()
        .any(|link| is_longer_at(prefix, address, *link))
}

// Whether it lies in the longer prefix of a link.
fn is_longer_at(prefix: Prefix, address: u32, link: Link) -> bool
    ensures { result ≡ is_longer_at prefix address link }
{
    is_stub_link(link)
        && mask_of(prefix.length) < link.link_data
        && link.link_data < HOST
        && is_held(link, address)
}

// Whether it is a link to a router or to a transit network, from an address.
fn is_numbered(link: Link) -> bool
    ensures { result ≡ is_numbered link }
{
    match link.kind {
        LinkKind::PointToPoint => is_address(link.link_data),
        LinkKind::Transit => true,
        LinkKind::Stub | LinkKind::Virtual => false,
    }
}
