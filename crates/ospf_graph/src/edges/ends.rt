//! The ends of a listing's prefixes.

ghost use Rattle.std.specs.Prelude.{◌≡◌, ◌↔◌, MatchOption, OnOk, IfOk, Contains};
ghost use Rattle.ospf_lsa.specs.declared.link.Link.{Link};
ghost use Rattle.ospf_graph.specs.declared.graph.Vertex.TheVariants.{Router, Network};
ghost use Rattle.ospf_graph.specs.declared.edges.end.End.{End};
ghost use Rattle.ospf_graph.specs.EdgeLists.Listed.{advertisement_of, advertisements_of};
ghost use Rattle.ospf_graph.specs.Adds.{Adds};
ghost use Rattle.ospf_graph.specs.EdgeLists.Given.{StubGives, NetworkGives, EndsOf};
ghost use Rattle.ospf_graph.specs.EdgeLists.Given.{AreEndsAt, IsEndsOf};

use crate::Vertex;
use crate::edges::end::End;
use crate::edges::listed::stands_for;
use crate::edges::lookups::links_by;
use ospf_base::{Addr, Kind, Prefix, RouterId};
use ospf_lsa::{Link, LinkKind, Links, Listing, Lsa};
use std::alloc::{AllocError, Global};

/// The ends of all prefixes of a listing (RFC 2328, section 16.1).
/// `AllocError` where memory runs out.
pub fn ends_of(alloc: Global, listing: &Listing) -> Result<Vec<End>, AllocError>
    ensures { IfOk result (λ ends. IsEndsOf (advertisements_of listing.now) ends.items) }
{
    let mut ends = Vec::new(alloc);
    for lsa in listing.lsas() {
        add_ends(listing, lsa, &mut ends)?;
    }
    Ok(ends)
}

/// The ends at a vertex of a listing's graph (RFC 2328, section 16.1): a router's stub networks, or
/// the prefix of a transit network. `AllocError` where memory runs out.
pub fn ends_at(alloc: Global, listing: &Listing, vertex: Vertex) -> Result<Vec<End>, AllocError>
    ensures { IfOk result (λ ends. AreEndsAt (advertisements_of listing.now) vertex ends.items) }
{
    match vertex {
        Vertex::Router(router) => stubs_of(alloc, listing, router),
        Vertex::Network(id) => ends_on(alloc, listing, id),
    }
}

// The ends of a router's stub networks.
fn stubs_of(alloc: Global, listing: &Listing, router: RouterId) -> Result<Vec<End>, AllocError>
    ensures { IfOk result (λ ends. AreEndsAt (advertisements_of listing.now) (Router router)
        ends.items) }
{
    let mut ends = Vec::new(alloc);
    match links_by(listing, router) {
        Some(links) => {
            add_stubs(router, links, &mut ends)?;
            Ok(ends)
        }
        None => Ok(ends),
    }
}

// The end of a transit network, if an LSA describes it.
fn ends_on(alloc: Global, listing: &Listing, id: u32) -> Result<Vec<End>, AllocError>
    ensures { IfOk result (λ ends. AreEndsAt (advertisements_of listing.now) (Network id)
        ends.items) }
{
    let mut ends = Vec::new(alloc);
    match listing.network(id) {
        Some(lsa) => {
            add_network(id, lsa.view().mask(), &mut ends)?;
            Ok(ends)
        }
        None => Ok(ends),
    }
}

// Adds the ends that an LSA gives.
fn add_ends(listing: &Listing, lsa: &Lsa, ends: &mut Vec<End>) -> Result<(), AllocError>
    ensures { OnOk result (Adds (EndsOf (advertisements_of listing.now) (advertisement_of lsa.now))
        ends.old.items ends.new.items) }
{
    let view = lsa.view();
    let key = view.key();
    match view.kind() {
        Kind::Router => {
            add_stubs(key.router, view.links(), ends)?;
            Ok(())
        }
        Kind::Network => {
            if stands_for(listing, key.id, key.router) {
                add_network(key.id, view.mask(), ends)?;
            }
            Ok(())
        }
    }
}

// Adds the ends of links.
fn add_stubs(router: RouterId, links: Links, ends: &mut Vec<End>) -> Result<(), AllocError>
    ensures { OnOk result (Adds (λ e. (link : Link) × Contains links.entry link
        × StubGives router link e) ends.old.items ends.new.items) }
{
    for link in links {
        add_stub(router, link, ends)?;
    }
    Ok(())
}

// Adds the end of a link.
fn add_stub(router: RouterId, link: Link, ends: &mut Vec<End>) -> Result<(), AllocError>
    ensures { OnOk result (Adds (StubGives router link) ends.old.items ends.new.items) }
{
    match stub_of(router, link) {
        Some(end) => {
            ends.push(end)?;
            Ok(())
        }
        None => Ok(()),
    }
}

// The end of a stub link.
fn stub_of(router: RouterId, link: Link) -> Option<End>
    ensures { MatchOption result ((e : End) → StubGives router link e → ⊥)
        (λ end. (e : End) → StubGives router link e ↔ (end ≡ e)) }
{
    match link.kind {
        LinkKind::Stub => {
            let prefix = Prefix::under(Addr(link.id), link.link_data)?;
            Some(End {
                prefix,
                vertex: Vertex::Router(router),
                cost: link.metric,
            })
        }
        LinkKind::PointToPoint | LinkKind::Transit | LinkKind::Virtual => None,
    }
}

// Adds the end of a transit network.
fn add_network(id: u32, mask: u32, ends: &mut Vec<End>) -> Result<(), AllocError>
    ensures { OnOk result (Adds (NetworkGives id mask) ends.old.items ends.new.items) }
{
    match network_end(id, mask) {
        Some(end) => {
            ends.push(end)?;
            Ok(())
        }
        None => Ok(()),
    }
}

// The end of a transit network.
fn network_end(id: u32, mask: u32) -> Option<End>
    ensures { MatchOption result ((e : End) → NetworkGives id mask e → ⊥)
        (λ end. (e : End) → NetworkGives id mask e ↔ (end ≡ e)) }
{
    let prefix = Prefix::under(Addr(id), mask)?;
    Some(End {
        prefix,
        vertex: Vertex::Network(id),
        cost: 0,
    })
}
