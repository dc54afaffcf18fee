//! The edges of a listing's graph that touch a vertex, without a walk over the listing.

ghost use Rattle.std.specs.Prelude.{◌≡◌, ◌↔◌, IsTrue, IfSome, IfNone, IfOk, OnOk};
ghost use Rattle.ospf_lsa.specs.Listing.{IsListing};
ghost use Rattle.ospf_graph.specs.Search.{AreFitEdges};
ghost use Rattle.ospf_graph.specs.EdgeLists.Listed.{advertisements_of};
ghost use Rattle.ospf_graph.specs.Adds.{Adds};
ghost use Rattle.ospf_graph.specs.EdgeLists.Near.{AddsAt, AreEdgesAt, EdgesNear, LinkLeadsTo, LeadsNowhere, LinkSends, LinksSend};
ghost use Rattle.ospf_graph.specs.EdgeLists.Near.{MemberGives, NamesRouter, NearLink, NearLinks, NearMember, NearMembers, Returns, SendsEdge};
ghost use Rattle.ospf_graph.specs.EdgeLists.Near.{edge_to as edge_to_spec};

use crate::edges::lookups::{address_on, attached_to, is_attached, links_by, links_to};
use crate::{Edge, Vertex};
use ospf_base::RouterId;
use ospf_lsa::{Attached, Link, LinkKind, Links, Listing};
use std::alloc::{AllocError, Global};

/// The edges of a listing's graph that leave or enter a vertex, found only from the LSAs of the
/// vertex and of its neighbours (RFC 2328, section 16.1). An edge may be listed several times.
/// `AllocError` where memory runs out.
pub fn edges_at(alloc: Global, listing: &Listing, vertex: Vertex) -> Result<Vec<Edge>, AllocError>
    ensures edges { IfOk result (λ e. AreEdgesAt (advertisements_of listing.now) vertex e.items) }
    ensures fit { IfOk result (λ edges. AreFitEdges edges.items) }
{
    let mut edges = Vec::new(alloc);
    add_near(listing, vertex, &mut edges)?;
    Ok(edges)
}

// Adds the edges that touch a vertex.
fn add_near(listing: &Listing, vertex: Vertex, edges: &mut Vec<Edge>) -> Result<(), AllocError>
    ensures added { OnOk result (AddsAt listing.now (EdgesNear vertex) edges.old edges.new) }
    ensures listing { IsListing listing.now }
{
    match vertex {
        Vertex::Router(router) => match links_by(listing, router) {
            Some(links) => add_near_links(listing, router, links, edges),
            None => Ok(()),
        },
        Vertex::Network(id) => match attached_to(listing, id) {
            Some(attached) => add_near_members(listing, id, attached, edges),
            None => Ok(()),
        },
    }
}

// Adds the edges between a router and the ends of its links.
fn add_near_links(
    listing: &Listing,
    router: RouterId,
    links: Links,
    edges: &mut Vec<Edge>,
) -> Result<(), AllocError>
    ensures { OnOk result (AddsAt listing.now (NearLinks router links.entry) edges.old edges.new) }
{
    for link in links {
        add_near_link(listing, router, link, edges)?;
    }
    Ok(())
}

// Adds the edges between a router and the end of a link of it.
fn add_near_link(
    listing: &Listing,
    router: RouterId,
    link: Link,
    edges: &mut Vec<Edge>,
) -> Result<(), AllocError>
    ensures { OnOk result (AddsAt listing.now (NearLink router link) edges.old edges.new) }
{
    let Some(to) = end_of(link) else {
        return Ok(());
    };
    if names(listing, to, router) {
        edges.push(edge_to(router, to, link))?;
        add_returns(listing, to, router, edges)?;
    }
    Ok(())
}

// The vertex that a link of type 1 or 2 leads to.
fn end_of(link: Link) -> Option<Vertex>
    ensures found { IfSome result (LinkLeadsTo link) }
    ensures none { IfNone result (LeadsNowhere link) }
{
    match link.kind {
        LinkKind::PointToPoint => Some(Vertex::Router(RouterId(link.id))),
        LinkKind::Transit => Some(Vertex::Network(link.id)),
        LinkKind::Stub | LinkKind::Virtual => None,
    }
}

// Whether the LSA of a vertex names a router.
fn names(listing: &Listing, vertex: Vertex, router: RouterId) -> bool
    ensures { IsTrue result ↔ NamesRouter (advertisements_of listing.now) vertex router }
{
    match vertex {
        Vertex::Router(other) => links_to(listing, other, LinkKind::PointToPoint, router.0),
        Vertex::Network(id) => is_attached(listing, id, router),
    }
}

// The edge of a router's link to a vertex.
fn edge_to(router: RouterId, to: Vertex, link: Link) -> Edge
    ensures { result ≡ edge_to_spec router to link }
{
    Edge {
        from: Vertex::Router(router),
        to,
        cost: link.metric,
        link_data: link.link_data,
    }
}

// Adds the edges from a vertex that names a router to it.
fn add_returns(
    listing: &Listing,
    from: Vertex,
    router: RouterId,
    edges: &mut Vec<Edge>,
) -> Result<(), AllocError>
    ensures { OnOk result (AddsAt listing.now (Returns from router) edges.old edges.new) }
{
    match from {
        Vertex::Router(other) => add_sent(listing, other, Vertex::Router(router), edges),
        Vertex::Network(id) => add_member(listing, id, router, edges),
    }
}

// Adds the edges of those links of a router's LSA.
fn add_sent(
    listing: &Listing,
    router: RouterId,
    to: Vertex,
    edges: &mut Vec<Edge>,
) -> Result<(), AllocError>
    ensures { OnOk result (AddsAt listing.now (SendsEdge router to) edges.old edges.new) }
{
    match links_by(listing, router) {
        Some(links) => add_sent_links(router, to, links, edges),
        None => Ok(()),
    }
}

// Adds the edges of the links that lead to the vertex.
fn add_sent_links(
    router: RouterId,
    to: Vertex,
    links: Links,
    edges: &mut Vec<Edge>,
) -> Result<(), AllocError>
    ensures { OnOk result (Adds (LinksSend router to links.entry) edges.old.items edges.new.items) }
{
    for link in links {
        add_sent_link(router, to, link, edges)?;
    }
    Ok(())
}

// Adds the edge of a link, if it leads to the vertex.
fn add_sent_link(
    router: RouterId,
    to: Vertex,
    link: Link,
    edges: &mut Vec<Edge>,
) -> Result<(), AllocError>
    ensures { OnOk result (Adds (LinkSends router to link) edges.old.items edges.new.items) }
{
    if leads_to(link, to) {
        edges.push(edge_to(router, to, link))?;
    }
    Ok(())
}

// Whether a link leads to a vertex.
fn leads_to(link: Link, to: Vertex) -> bool
    ensures { IsTrue result ↔ LinkLeadsTo link to }
{
    match to {
        Vertex::Router(router) => link.kind == LinkKind::PointToPoint && link.id == router.0,
        Vertex::Network(id) => link.kind == LinkKind::Transit && link.id == id,
    }
}

// Adds the edge from a network to a router that has an address there.
fn add_member(
    listing: &Listing,
    id: u32,
    member: RouterId,
    edges: &mut Vec<Edge>,
) -> Result<(), AllocError>
    ensures { OnOk result (AddsAt listing.now (MemberGives id member) edges.old edges.new) }
{
    match address_on(listing, id, member) {
        Some(address) => {
            edges.push(Edge {
                from: Vertex::Network(id),
                to: Vertex::Router(member),
                cost: 0,
                link_data: address,
            })?;
            Ok(())
        }
        None => Ok(()),
    }
}

// Adds the edges between a network and the routers that it names.
fn add_near_members(
    listing: &Listing,
    id: u32,
    attached: Attached,
    edges: &mut Vec<Edge>,
) -> Result<(), AllocError>
    ensures { OnOk result (AddsAt listing.now (NearMembers id attached.entry) edges.old edges.new) }
{
    for member in attached {
        add_near_member(listing, id, member, edges)?;
    }
    Ok(())
}

// Adds the edges between a network and a router that it names.
fn add_near_member(
    listing: &Listing,
    id: u32,
    member: RouterId,
    edges: &mut Vec<Edge>,
) -> Result<(), AllocError>
    ensures { OnOk result (AddsAt listing.now (NearMember id member) edges.old edges.new) }
{
    add_member(listing, id, member, edges)?;
    add_sent(listing, member, Vertex::Network(id), edges)?;
    Ok(())
}
