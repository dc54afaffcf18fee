//! The edges of a listing's graph.

ghost use Rattle.std.specs.Prelude.{◌≡◌, ◌+◌, ◌≤◌, ◌↔◌, ◌∷◌, [], MatchOption, OnOk, IfOk, Contains, length};
ghost use Rattle.ospf_base.specs.declared.ids.RouterId.{RouterId};
ghost use Rattle.ospf_lsa.specs.declared.link.Link.{Link};
ghost use Rattle.ospf_graph.specs.declared.graph.Edge.{Edge};
ghost use Rattle.ospf_graph.specs.Search.{AreFitEdges};
ghost use Rattle.ospf_graph.specs.EdgeLists.Listed.{advertisement_of, advertisements_of};
ghost use Rattle.ospf_graph.specs.Adds.{Adds};
ghost use Rattle.ospf_graph.specs.EdgeLists.Given.{LinkGives, AttachedGives, EdgesOf, link_count};
ghost use Rattle.ospf_graph.specs.EdgeLists.Given.{IsEdgesOf};

use crate::edges::index::GraphIndex;
use crate::{Edge, Vertex};
use ospf_base::{Kind, RouterId};
use ospf_lsa::{Attached, Link, LinkKind, Links, Listing, Lsa};
use std::alloc::{AllocError, Global};

/// The edges of a listing's graph (RFC 2328, section 16.1), one at most for each link and each
/// attached router. `AllocError` where memory runs out.
pub fn edges_of(alloc: Global, listing: &Listing) -> Result<Vec<Edge>, AllocError>
    ensures edges { IfOk result (λ edges. IsEdgesOf (advertisements_of listing.now) edges.items) }
    ensures fit { IfOk result (λ edges. AreFitEdges edges.items) }
    ensures few { IfOk result (λ edges. length edges.items
        ≤ link_count (advertisements_of listing.now)) }
{
    let index = GraphIndex::of(alloc, listing)?;
    edges_by(alloc, listing, &index)
}

// The edges of a listing's graph, by its index.
fn edges_by(alloc: Global, listing: &Listing, index: &GraphIndex) -> Result<Vec<Edge>, AllocError>
    requires same { index.now ≡ advertisements_of listing.now }
    ensures edges { IfOk result (λ edges. IsEdgesOf (advertisements_of listing.now) edges.items) }
    ensures fit { IfOk result (λ edges. AreFitEdges edges.items) }
    ensures few { IfOk result (λ edges. length edges.items
        ≤ link_count (advertisements_of listing.now)) }
{
    let mut edges = Vec::new(alloc);
    for lsa in listing.lsas() {
        add_edges(index, lsa, &mut edges)?;
    }
    Ok(edges)
}

// Adds the edges that an LSA gives.
fn add_edges(index: &GraphIndex, lsa: &Lsa, edges: &mut Vec<Edge>) -> Result<(), AllocError>
    ensures added { OnOk result (Adds (EdgesOf index.now (advertisement_of lsa.now)) edges.old.items
        edges.new.items) }
    ensures few { OnOk result (length edges.new.items
        ≤ length edges.old.items + link_count (advertisement_of lsa.now ∷ [])) }
{
    let view = lsa.view();
    let key = view.key();
    match view.kind() {
        Kind::Router => {
            add_links(index, key.router, view.links(), edges)?;
            Ok(())
        }
        Kind::Network => {
            if index.stands_for(key.id, key.router) {
                add_members(index, key.id, view.attached(), edges)?;
            }
            Ok(())
        }
    }
}

// Adds the edges of links.
fn add_links(
    index: &GraphIndex,
    router: RouterId,
    links: Links,
    edges: &mut Vec<Edge>,
) -> Result<(), AllocError>
    ensures added { OnOk result (Adds (λ e. (link : Link) × Contains links.entry link
        × LinkGives index.now router link e) edges.old.items edges.new.items) }
    ensures few { OnOk result (length edges.new.items
        ≤ length edges.old.items + length links.entry) }
{
    for link in links {
        add_link(index, router, link, edges)?;
    }
    Ok(())
}

// Adds the edge of a link.
fn add_link(
    index: &GraphIndex,
    router: RouterId,
    link: Link,
    edges: &mut Vec<Edge>,
) -> Result<(), AllocError>
    ensures added { OnOk result (Adds (LinkGives index.now router link) edges.old.items
        edges.new.items) }
    ensures few { OnOk result (length edges.new.items ≤ length edges.old.items + 1) }
{
    match edge_of(index, router, link) {
        Some(edge) => {
            edges.push(edge)?;
            Ok(())
        }
        None => Ok(()),
    }
}

// The edge of a link: to a router that links back, or to a network that names the router.
fn edge_of(index: &GraphIndex, router: RouterId, link: Link) -> Option<Edge>
    ensures { MatchOption result ((e : Edge) → LinkGives index.now router link e → ⊥)
        (λ edge. (e : Edge) → LinkGives index.now router link e ↔ (edge ≡ e)) }
{
    let to = match link.kind {
        LinkKind::PointToPoint if index.links_to(RouterId(link.id), router) => {
            Vertex::Router(RouterId(link.id))
        }
        LinkKind::Transit if index.is_attached(link.id, router) => Vertex::Network(link.id),
        _ => return None,
    };
    Some(Edge {
        from: Vertex::Router(router),
        to,
        cost: link.metric,
        link_data: link.link_data,
    })
}

// Adds the edges from a network to its attached routers.
fn add_members(
    index: &GraphIndex,
    id: u32,
    attached: Attached,
    edges: &mut Vec<Edge>,
) -> Result<(), AllocError>
    ensures added { OnOk result (Adds (λ e. (member : RouterId) × Contains attached.entry member
        × AttachedGives index.now id member e) edges.old.items edges.new.items) }
    ensures few { OnOk result (length edges.new.items
        ≤ length edges.old.items + length attached.entry) }
{
    for member in attached {
        add_member(index, id, member, edges)?;
    }
    Ok(())
}

// Adds the edge from a network to an attached router, if the router names the network.
fn add_member(
    index: &GraphIndex,
    id: u32,
    member: RouterId,
    edges: &mut Vec<Edge>,
) -> Result<(), AllocError>
    ensures added { OnOk result (Adds (AttachedGives index.now id member) edges.old.items
        edges.new.items) }
    ensures few { OnOk result (length edges.new.items ≤ length edges.old.items + 1) }
{
    match index.address_on(id, member) {
        Some(address) => {
            edges.push(Edge {
                from: Vertex::Network(id),
                to: Vertex::Router(member),
                cost: 0,
                link_data: address,
            })?;
            Ok(())
        }
        None => Ok(()),
    }
}
