//! The graph of an area, and what a failure takes from it.

ghost use Rattle.std.specs.Prelude.{◌≡◌, ◌↔◌, ◌∷◌, [], Contains, IfOk, IsTrue, List};
ghost use Rattle.ospf_graph.specs.Advertisements.{Advertisement};
ghost use Rattle.ospf_graph.specs.EdgeLists.Given.{IsEdgesOf};
ghost use Rattle.ospf_graph.specs.EdgeLists.Near.{AreEdgesAt};
ghost use Rattle.ospf_graph.specs.Elsewhere.{Touches};
ghost use Rattle.ospf_graph.specs.EdgeLists.Listed.{advertisements_of};
ghost use Rattle.ospf_graph.specs.Search.{AreEdgesInOrder, AreFitEdges};
ghost use Rattle.ospf_graph.specs.declared.graph.Vertex.TheVariants.{Router};
ghost use Rattle.ospf_whatif.specs.Lost.{AreEdgesLost, AreEndsLost, AreStubsAt, AreStubsOf, Connects, IsOutside, IsTwoWay, IsWayBack, Stays};
ghost use Rattle.ospf_whatif.specs.Lost.{centre_of as centre_of_spec};
ghost use Rattle.ospf_spf.specs.Spared.{AreEndsInOrder};
ghost use Rattle.ospf_whatif.specs.Outage.{AreLost, AreMissing, IsAreaGraph};

use crate::area::without_more;
use crate::failure::{AreaFailure, is_of_subnet};
use crate::subnets::inner_of;
use ospf_base::{Prefix, RouterId};
use ospf_graph::edges::{End, edges_at, edges_of, ends_at};
use ospf_graph::{Edge, Vertex, edges_from, is_same, sorted_edges};
use ospf_lsa::{Link, Listing};
use ospf_spf::{ends_in_order, ends_to, is_same_prefix, prefix_order};
use std::alloc::{AllocError, Global};

/// The edges of an area and the ends of its prefixes (RFC 2328, section 16.1), in the
/// order in which they are looked for.
#[derive(Drop)]
pub struct AreaGraph {
    pub(crate) edges: Vec<Edge>,
    pub(crate) ends: Vec<End>,
}

impl AreaGraph {
    ghost use Rattle.std.specs.Prelude.{IfOk};
    ghost use Rattle.ospf_graph.specs.EdgeLists.Listed.{advertisements_of};
    ghost use Rattle.ospf_whatif.specs.Outage.{IsAreaGraph};

    /// The graph of the area of a listing.
    ///
    /// `AllocError` where memory runs out.
    pub fn of(alloc: Global, listing: &Listing) -> Result<AreaGraph, AllocError>
        ensures { IfOk result (IsAreaGraph (advertisements_of listing.now)) }
    {
        let edges = edges_in_order(alloc, listing)?;
        let ends = ends_in_order(alloc, listing)?;
        Ok(AreaGraph { edges, ends })
    }
}

/// What failures take from the graph of an area: edges, and ends of prefixes in the order of these.
#[derive(Drop)]
pub struct Outage {
    pub(crate) failures: Vec<AreaFailure>,
    pub(crate) edges: Vec<Edge>,
    pub(crate) ends: Vec<End>,
}

impl Outage {
    ghost use Rattle.std.specs.Prelude.{◌≡◌, ◌∷◌, ◌<◌, [], List, IfOk, length};
    ghost use Rattle.ospf_graph.specs.EdgeLists.Listed.{advertisements_of};
    ghost use Rattle.ospf_graph.specs.Advertisements.{Advertisement};
    ghost use Rattle.ospf_graph.specs.EdgeLists.Near.{AreEdgesAt};
    ghost use Rattle.ospf_graph.specs.Search.{AreEdgesInOrder};
    ghost use Rattle.ospf_spf.specs.Spared.{AreEndsInOrder};
    ghost use Rattle.ospf_whatif.specs.Failure.{HasLarge, without_all};
    ghost use Rattle.ospf_whatif.specs.Lost.{centre_of};
    ghost use Rattle.ospf_whatif.specs.Outage.{IsAreaGraph, IsOutage};

    /// What a failure takes from the graph of the area of a listing, as `without` leaves that. It
    /// looks at the edges of one vertex, and at the ends of two at most.
    ///
    /// `AllocError` where memory runs out.
    pub fn of(alloc: Global, listing: &Listing, failure: &AreaFailure) -> Result<Outage, AllocError>
        ensures failures { IfOk result (λ outage. outage.failures.items ≡ failure.now ∷ []) }
        ensures outage { IfOk result (IsOutage (advertisements_of listing.now)) }
    {
        let near = edges_at(alloc, listing, centre_of(failure))?;
        Outage::over(alloc, listing, failure, &near)
    }

    // What a failure takes, by the edges that touch its vertex.
    fn over(
        alloc: Global,
        listing: &Listing,
        failure: &AreaFailure,
        near: &[Edge],
    ) -> Result<Outage, AllocError>
        requires { AreEdgesAt (advertisements_of listing.now) (centre_of failure.now) near.now }
        ensures failures { IfOk result (λ outage. outage.failures.items ≡ failure.now ∷ []) }
        ensures outage { IfOk result (IsOutage (advertisements_of listing.now)) }
    {
        let edges = edges_lost(alloc, listing, failure, near)?;
        let mut ends = ends_lost(alloc, listing, failure)?;
        ends.sort_unstable_by_key(|e| prefix_order(e.prefix));
        let failures = alone(alloc, *failure)?;
        Ok(Outage {
            failures,
            edges,
            ends,
        })
    }

    /// What failures that happen together take from the graph of the area of a listing, as
    /// `without_all` leaves it. For one failure it looks at the edges of the graph. For more than
    /// one it compares the graphs before and after, and the router-LSAs of the listing must be
    /// small enough to be rebuilt.
    ///
    /// `AllocError` if memory runs out.
    pub fn of_all(
        alloc: Global,
        listing: &Listing,
        area: &AreaGraph,
        failures: &[AreaFailure],
    ) -> Result<Outage, AllocError>
        requires graph { IsAreaGraph (advertisements_of listing.now) area.now }
        requires small { 1 < length failures.now →
            HasLarge (advertisements_of listing.now) → ⊥ }
        ensures failures { IfOk result (λ outage. outage.failures.items ≡ failures.now) }
        ensures outage { IfOk result (IsOutage (advertisements_of listing.now)) }
    {
        match failures.split_first() {
            Some((first, rest)) => Outage::of_parts(alloc, listing, area, first, rest),
            None => Ok(Outage::none(alloc)),
        }
    }

    // What no failure takes: nothing.
    fn none(alloc: Global) -> Outage
        ensures failures { result.failures.items ≡ [] }
        ensures outage { (adverts : List Advertisement) → IsOutage adverts result }
    {
        Outage {
            failures: Vec::new(alloc),
            edges: Vec::new(alloc),
            ends: Vec::new(alloc),
        }
    }

    // What a failure and others take that happen with it.
    fn of_parts(
        alloc: Global,
        listing: &Listing,
        area: &AreaGraph,
        first: &AreaFailure,
        rest: &[AreaFailure],
    ) -> Result<Outage, AllocError>
        requires graph { IsAreaGraph (advertisements_of listing.now) area.now }
        requires small { 0 < length rest.now → HasLarge (advertisements_of listing.now) → ⊥ }
        ensures failures { IfOk result (λ outage. outage.failures.items ≡ first.now ∷ rest.now) }
        ensures outage { IfOk result (IsOutage (advertisements_of listing.now)) }
    {
        if rest.is_empty() {
            let near = edges_near(alloc, area, centre_of(first))?;
            return Outage::over(alloc, listing, first, &near);
        }
        let left = without_more(alloc, listing, first, rest)?;
        let after = AreaGraph::of(alloc, &left)?;
        let failures = alone_with(alloc, *first, rest)?;
        Outage::between(alloc, area, &after, failures)
    }

    // What failures take, by the graphs of before and after.
    fn between(
        alloc: Global,
        area: &AreaGraph,
        after: &AreaGraph,
        failures: Vec<AreaFailure>,
    ) -> Result<Outage, AllocError>
        requires edges { AreEdgesInOrder after.now.edges.items }
        requires ends { AreEndsInOrder after.now.ends.items }
        ensures failures { IfOk result (λ outage. outage.failures.items ≡ failures.items) }
        // Of any area whose graphs these are.
        ensures outage { IfOk result (λ outage. (adverts : List Advertisement) →
            IsAreaGraph adverts area.now →
            IsAreaGraph (without_all failures.items adverts) after.now → IsOutage adverts outage) }
    {
        let edges = edges_left(alloc, &area.edges, &after.edges)?;
        let mut ends = ends_left(alloc, &area.ends, &after.ends)?;
        ends.sort_unstable_by_key(|e| prefix_order(e.prefix));
        Ok(Outage {
            failures,
            edges,
            ends,
        })
    }
}

/// One failure alone.
pub(crate) fn alone(alloc: Global, failure: AreaFailure) -> Result<Vec<AreaFailure>, AllocError>
    ensures { IfOk result (λ failures. failures.items ≡ failure ∷ []) }
{
    let mut failures = Vec::new(alloc);
    failures.push(failure)?;
    Ok(failures)
}

/// The ends but those that go, which are in order.
pub(crate) fn ends_left(alloc: Global, ends: &[End], less: &[End]) -> Result<Vec<End>, AllocError>
    requires { AreEndsInOrder less.now }
    ensures { IfOk result (λ left. AreMissing ends.now less.now left.items) }
{
    let mut left = Vec::new(alloc);
    for end in ends {
        if !has_end_in_order(less, *end) {
            left.push(*end)?;
        }
    }
    Ok(left)
}

// Whether an end is among these, which are in order.
fn has_end_in_order(ends: &[End], end: End) -> bool
    requires { AreEndsInOrder ends.now }
    ensures { IsTrue result ↔ Contains ends.now end }
{
    ends_to(ends, end.prefix).contains(&end)
}

// A failure, followed by others.
fn alone_with(
    alloc: Global,
    first: AreaFailure,
    rest: &[AreaFailure],
) -> Result<Vec<AreaFailure>, AllocError>
    ensures { IfOk result (λ failures. failures.items ≡ first ∷ rest.now) }
{
    let mut failures = alone(alloc, first)?;
    for failure in rest {
        failures.push(*failure)?;
    }
    Ok(failures)
}

// The edges but those that are left, which are in order.
fn edges_left(alloc: Global, edges: &[Edge], left: &[Edge]) -> Result<Vec<Edge>, AllocError>
    requires { AreEdgesInOrder left.now }
    ensures { IfOk result (λ missing. AreMissing edges.now left.now missing.items) }
{
    let mut missing = Vec::new(alloc);
    for edge in edges {
        if !has_edge_in_order(left, *edge) {
            missing.push(*edge)?;
        }
    }
    Ok(missing)
}

// Whether an edge is among these, which are in order.
fn has_edge_in_order(edges: &[Edge], edge: Edge) -> bool
    requires { AreEdgesInOrder edges.now }
    ensures { IsTrue result ↔ Contains edges.now edge }
{
    edges_from(edges, edge.from).contains(&edge)
}

/// The edges of a listing, in the order of the vertices that they leave.
///
/// `AllocError` where memory runs out.
pub fn edges_in_order(alloc: Global, listing: &Listing) -> Result<Vec<Edge>, AllocError>
    ensures edges { IfOk result (λ edges. IsEdgesOf (advertisements_of listing.now) edges.items) }
    ensures fit { IfOk result (λ edges. AreFitEdges edges.items) }
    ensures in_order { IfOk result (λ edges. AreEdgesInOrder edges.items) }
{
    let edges = edges_of(alloc, listing)?;
    let sorted = sorted_edges(alloc, &edges)?;
    Ok(sorted)
}

// The edges of an area that touch a vertex.
fn edges_near(alloc: Global, area: &AreaGraph, vertex: Vertex) -> Result<Vec<Edge>, AllocError>
    ensures { IfOk result (λ near. (adverts : List Advertisement) → IsAreaGraph adverts area.now →
        AreEdgesAt adverts vertex near.items) }
{
    let mut near = Vec::from_slice(alloc, &area.edges)?;
    near.retain(|edge| touches(edge, vertex));
    Ok(near)
}

// Whether an edge leaves or enters a vertex.
fn touches(edge: &Edge, vertex: Vertex) -> bool
    ensures { IsTrue result ↔ Touches vertex edge.now }
{
    is_same(edge.from, vertex) || is_same(edge.to, vertex)
}

// The edges that a failure takes, by those that touch its vertex.
fn edges_lost(
    alloc: Global,
    listing: &Listing,
    failure: &AreaFailure,
    near: &[Edge],
) -> Result<Vec<Edge>, AllocError>
    requires { AreEdgesAt (advertisements_of listing.now) (centre_of_spec failure.now) near.now }
    ensures { IfOk result (λ lost. AreEdgesLost (advertisements_of listing.now) failure.now
        lost.items) }
{
    let inner = inner_of(alloc, listing, failure)?;
    edges_going(alloc, failure, &inner, near)
}

// The edges that a failure takes, of those at one vertex.
fn edges_going(
    alloc: Global,
    failure: &AreaFailure,
    inner: &[Link],
    near: &[Edge],
) -> Result<Vec<Edge>, AllocError>
    ensures { IfOk result (λ lost. AreLost (Contains near.now)
        (Stays failure.now inner.now near.now) lost.items) }
{
    let mut lost = Vec::new(alloc);
    for edge in near {
        if !stays(failure, inner, edge, near) {
            lost.push(*edge)?;
        }
    }
    Ok(lost)
}

// The vertex that each edge touches which a failure takes.
fn centre_of(failure: &AreaFailure) -> Vertex
    ensures { result ≡ centre_of_spec failure.now }
{
    match *failure {
        AreaFailure::Link { a, .. } => Vertex::Router(a),
        AreaFailure::End { router, .. } => Vertex::Router(router),
        AreaFailure::Links { a, .. } => Vertex::Router(a),
        AreaFailure::Attachment { router, .. } => Vertex::Router(router),
        AreaFailure::Network(network) => Vertex::Network(network),
        AreaFailure::Router(gone) => Vertex::Router(gone),
        AreaFailure::Stub { router, .. } => Vertex::Router(router),
    }
}

// Whether an edge stays, of those that touch that vertex.
fn stays(failure: &AreaFailure, inner: &[Link], edge: &Edge, near: &[Edge]) -> bool
    ensures { IsTrue result ↔ Stays failure.now inner.now near.now edge.now }
{
    match *failure {
        AreaFailure::Link { a, b, subnet } => stays_beside(edge, inner, near, a, b, subnet),
        AreaFailure::End {
            router,
            other,
            subnet,
        } => stays_beside(edge, inner, near, router, other, subnet),
        AreaFailure::Links { a, b } => !connects(edge, Vertex::Router(a), Vertex::Router(b)),
        AreaFailure::Attachment { router, network } => {
            !connects(edge, Vertex::Router(router), Vertex::Network(network))
        }
        AreaFailure::Network(_) => false,
        AreaFailure::Router(_) => false,
        AreaFailure::Stub { .. } => true,
    }
}

// Whether an edge stays when a link of two routers in a subnet fails, or an end of it.
fn stays_beside(
    edge: &Edge,
    inner: &[Link],
    near: &[Edge],
    a: RouterId,
    b: RouterId,
    subnet: Prefix,
) -> bool
    ensures { IsTrue result ↔ (Connects edge.now (Router a) (Router b) →
        IsTwoWay inner.now near.now subnet edge.now) }
{
    !connects(edge, Vertex::Router(a), Vertex::Router(b)) || is_two_way(edge, inner, near, subnet)
}

// Whether an edge leads from one of two vertices to the other.
fn connects(edge: &Edge, one: Vertex, other: Vertex) -> bool
    ensures { IsTrue result ↔ Connects edge.now one other }
{
    (is_same(edge.from, one) && is_same(edge.to, other))
        || (is_same(edge.from, other) && is_same(edge.to, one))
}

// Whether an edge lies outside a subnet, and one of these that leads back too.
fn is_two_way(edge: &Edge, inner: &[Link], near: &[Edge], subnet: Prefix) -> bool
    ensures { IsTrue result ↔ IsTwoWay inner.now near.now subnet edge.now }
{
    is_outside(edge, inner, subnet)
        && near
            .iter()
            .any(|back| is_way_back(back, edge, inner, subnet))
}

// Whether an edge leads back over another one, outside a subnet.
fn is_way_back(back: &Edge, edge: &Edge, inner: &[Link], subnet: Prefix) -> bool
    ensures { IsTrue result ↔ IsWayBack inner.now subnet edge.now back.now }
{
    is_same(back.from, edge.to) && is_same(back.to, edge.from) && is_outside(back, inner, subnet)
}

// Whether the Link Data of an edge lies outside a subnet, or in one of these longer ones.
fn is_outside(edge: &Edge, inner: &[Link], subnet: Prefix) -> bool
    ensures { IsTrue result ↔ IsOutside inner.now subnet edge.now }
{
    !is_of_subnet(inner, subnet, edge.link_data)
}

// The ends that a failure takes.
fn ends_lost(
    alloc: Global,
    listing: &Listing,
    failure: &AreaFailure,
) -> Result<Vec<End>, AllocError>
    ensures { IfOk result (λ lost. AreEndsLost (advertisements_of listing.now) failure.now
        lost.items) }
{
    match *failure {
        AreaFailure::Link { a, b, subnet } => stubs_of(alloc, listing, a, b, subnet),
        AreaFailure::End { router, subnet, .. } => stubs_at(alloc, listing, router, subnet),
        AreaFailure::Links { .. } => Ok(Vec::new(alloc)),
        AreaFailure::Attachment { .. } => Ok(Vec::new(alloc)),
        AreaFailure::Network(_) => Ok(Vec::new(alloc)),
        AreaFailure::Router(gone) => ends_at(alloc, listing, Vertex::Router(gone)),
        AreaFailure::Stub { router, prefix } => stubs_at(alloc, listing, router, prefix),
    }
}

// The ends of a prefix at a router.
fn stubs_at(
    alloc: Global,
    listing: &Listing,
    router: RouterId,
    prefix: Prefix,
) -> Result<Vec<End>, AllocError>
    ensures { IfOk result (λ ends. AreStubsAt (advertisements_of listing.now) router prefix
        ends.items) }
{
    let mut ends = ends_at(alloc, listing, Vertex::Router(router))?;
    ends.retain(|end| is_same_prefix(end.prefix, prefix));
    Ok(ends)
}

// The ends of a prefix at two routers.
fn stubs_of(
    alloc: Global,
    listing: &Listing,
    a: RouterId,
    b: RouterId,
    prefix: Prefix,
) -> Result<Vec<End>, AllocError>
    ensures { IfOk result (λ ends. AreStubsOf (advertisements_of listing.now) a b prefix
        ends.items) }
{
    let mut ends = stubs_at(alloc, listing, a, prefix)?;
    let mut others = stubs_at(alloc, listing, b, prefix)?;
    ends.append(&mut others)?;
    Ok(ends)
}
