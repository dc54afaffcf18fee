//! A listing with what its routers and networks name, for the edges of its graph.

ghost use Rattle.std.specs.Prelude.{◌≡◌, ◌↔◌, ℕ, IsTrue, IfOk, IfSome, IfNone, OnOk, Contains};
ghost use Rattle.ospf_base.specs.declared.ids.RouterId.{RouterId};
ghost use Rattle.ospf_lsa.specs.declared.link.Link.{Link};
ghost use Rattle.ospf_lsa.specs.declared.link.LinkKind.TheVariants.{PointToPoint};
ghost use Rattle.ospf_graph.specs.Advertisements.{IsAttached, IsAddressOn};
ghost use Rattle.ospf_graph.specs.EdgeLists.Index.{AreBackLinks, AreMembers, LinkNames, LinksOf, MembersOf, NamedOn};
ghost use Rattle.ospf_graph.specs.Adds.{Adds};
ghost use Rattle.ospf_graph.specs.EdgeLists.Costs.{HasLinkTo};
ghost use Rattle.ospf_graph.specs.EdgeLists.Given.{StandsFor};
ghost use Rattle.ospf_graph.specs.EdgeLists.Listed.{advertisement_of, advertisements_of};

use crate::edges::addresses::{address_at, addresses_in};
use crate::edges::listed::stands_for;
use crate::{Pairs, pair_order};
use ospf_base::{Kind, RouterId};
use ospf_lsa::{Attached, Link, LinkKind, Links, Listing, Lsa};
use std::alloc::{AllocError, Global};
use std::collections::HashMap;
use std::marker::Model;

/// A listing, with the pairs of routers of which the second has a type 1 link to the first, and the
/// pairs of a router and a network that names it, and the routers' addresses.
#[derive(Drop)]
pub(crate) struct GraphIndex<'a> {
    listing: &'a Listing,
    links: Pairs,
    members: Pairs,
    addresses: HashMap<u64, u32>,
}

impl<'a> Model for GraphIndex<'a> {
    ghost use Rattle.std.specs.Prelude.{List, nat_eq};
    ghost use Rattle.std.specs.HashMap.{get};
    ghost use Rattle.ospf_graph.specs.Advertisements.{Advertisement};
    ghost use Rattle.ospf_graph.specs.EdgeLists.Index.{IsIndexed};
    ghost use Rattle.ospf_graph.specs.EdgeLists.Listed.{advertisements_of};

    ghost Value = { List Advertisement };

    ghost view = { λ a. advertisements_of a.listing.now };

    ghost invariant = { λ a. IsIndexed (advertisements_of a.listing.now) a.links a.members
        (get nat_eq a.addresses) };
}

impl<'a> GraphIndex<'a> {
    /// A listing with its pairs. `AllocError` where memory runs out.
    pub(crate) fn of(alloc: Global, listing: &'a Listing) -> Result<GraphIndex<'a>, AllocError>
        ensures { IfOk result (λ area. area ≡ advertisements_of listing.now) }
    {
        let links = links_in(alloc, listing)?;
        let members = members_in(alloc, listing)?;
        let addresses = addresses_in(alloc, listing)?;
        Ok(GraphIndex {
            listing,
            links,
            members,
            addresses,
        })
    }

    /// Whether the router-LSA of one router has a type 1 link to the other.
    pub(crate) fn links_to(&self, from: RouterId, to: RouterId) -> bool
        ensures { IsTrue result ↔ HasLinkTo self.now from PointToPoint to.0 }
    {
        self.links.has(to.0, from.0)
    }

    /// Whether the LSA of a transit network names a router.
    pub(crate) fn is_attached(&self, id: u32, router: RouterId) -> bool
        ensures { IsTrue result ↔ IsAttached self.now id router }
    {
        self.members.has(router.0, id)
    }

    /// A router's address on a transit network, by its first link there.
    pub(crate) fn address_on(&self, id: u32, router: RouterId) -> Option<u32>
        ensures found { IfSome result (λ address. IsAddressOn self.now id router address) }
        ensures only { IfSome result (λ address. (other : ℕ) →
            IsAddressOn self.now id router other → other ≡ address) }
        ensures none { IfNone result ((other : ℕ) → IsAddressOn self.now id router other → ⊥) }
    {
        address_at(&self.addresses, router, id)
    }

    /// Whether the network-LSA of a router is the one used for its Link State ID.
    pub(crate) fn stands_for(&self, id: u32, router: RouterId) -> bool
        ensures { IsTrue result ↔ StandsFor self.now id router }
    {
        stands_for(self.listing, id, router)
    }
}

// The pairs of all type 1 links.
fn links_in(alloc: Global, listing: &Listing) -> Result<Pairs, AllocError>
    ensures { IfOk result (λ pairs. AreBackLinks (advertisements_of listing.now) pairs) }
{
    let mut pairs = Vec::new(alloc);
    for lsa in listing.lsas() {
        push_linked(lsa, &mut pairs)?;
    }
    Ok(Pairs::of(pairs))
}

// Adds the pairs of an LSA's type 1 links.
fn push_linked(lsa: &Lsa, pairs: &mut Vec<u64>) -> Result<(), AllocError>
    ensures { OnOk result (Adds (LinksOf (advertisement_of lsa.now)) pairs.old.items
        pairs.new.items) }
{
    let view = lsa.view();
    match view.kind() {
        Kind::Router => {
            push_links(view.key().router, view.links(), pairs)?;
            Ok(())
        }
        Kind::Network => Ok(()),
    }
}

// Adds the pairs of type 1 links.
fn push_links(router: RouterId, links: Links, pairs: &mut Vec<u64>) -> Result<(), AllocError>
    ensures { OnOk result (Adds (λ q. (link : Link) × Contains links.entry link
        × LinkNames router link q) pairs.old.items pairs.new.items) }
{
    for link in links {
        push_link(router, link, pairs)?;
    }
    Ok(())
}

// Adds the pair of a type 1 link.
fn push_link(router: RouterId, link: Link, pairs: &mut Vec<u64>) -> Result<(), AllocError>
    ensures { OnOk result (Adds (LinkNames router link) pairs.old.items pairs.new.items) }
{
    match link.kind {
        LinkKind::PointToPoint => {
            pairs.push(pair_order(link.id, router.0))?;
            Ok(())
        }
        LinkKind::Transit | LinkKind::Stub | LinkKind::Virtual => Ok(()),
    }
}

// The pairs of all networks.
fn members_in(alloc: Global, listing: &Listing) -> Result<Pairs, AllocError>
    ensures { IfOk result (λ pairs. AreMembers (advertisements_of listing.now) pairs) }
{
    let mut pairs = Vec::new(alloc);
    for lsa in listing.lsas() {
        push_named(listing, lsa, &mut pairs)?;
    }
    Ok(Pairs::of(pairs))
}

// Adds the pairs of an LSA if it is the one used for its network.
fn push_named(listing: &Listing, lsa: &Lsa, pairs: &mut Vec<u64>) -> Result<(), AllocError>
    ensures { OnOk result (Adds (MembersOf (advertisements_of listing.now)
        (advertisement_of lsa.now)) pairs.old.items pairs.new.items) }
{
    let view = lsa.view();
    let key = view.key();
    match view.kind() {
        Kind::Router => Ok(()),
        Kind::Network => {
            if stands_for(listing, key.id, key.router) {
                push_members(key.id, view.attached(), pairs)?;
            }
            Ok(())
        }
    }
}

// Adds the pairs of attached routers.
fn push_members(id: u32, attached: Attached, pairs: &mut Vec<u64>) -> Result<(), AllocError>
    ensures { OnOk result (Adds (λ q. (member : RouterId) × Contains attached.entry member
        × NamedOn id member q) pairs.old.items pairs.new.items) }
{
    for member in attached {
        push_member(id, member, pairs)?;
    }
    Ok(())
}

// Adds the pair of an attached router.
fn push_member(id: u32, member: RouterId, pairs: &mut Vec<u64>) -> Result<(), AllocError>
    ensures { OnOk result (Adds (NamedOn id member) pairs.old.items pairs.new.items) }
{
    pairs.push(pair_order(member.0, id))?;
    Ok(())
}
