//! The single failures of an area.

ghost use Rattle.std.specs.Prelude.{◌≡◌, ◌↔◌, ◌<◌, [], IsTrue, IfOk, MatchOption, OnOk, Contains, AllPairs};
ghost use Rattle.ospf_base.specs.Prefixes.{Holds};
ghost use Rattle.ospf_graph.specs.Search.{AreEdgesInOrder};
ghost use Rattle.ospf_graph.specs.declared.graph.Vertex.TheVariants.{Router};
ghost use Rattle.ospf_graph.specs.Adds.{Adds};
ghost use Rattle.ospf_graph.specs.EdgeLists.Given.{IsEdgesOf};
ghost use Rattle.ospf_graph.specs.EdgeLists.Listed.{advertisement_of, advertisements_of};
ghost use Rattle.ospf_whatif.specs.Single.{AreFailures, AttachmentGiven, EdgeGiven, GivenBy, HasEndFor, IsFailureBefore, IsInterfaceIndex, IsUnnumberedAt, IsLongestOf, IsOfIndices, IsPairOf, IsShared, IsSharedFar, IsSharedIn, IsWireAt, LeadsBack, LinksGiven, NetworkGiven, RouterGiven, UnnumberedGiven, WireGiven};
ghost use Rattle.ospf_whatif.specs.declared.failure.AreaFailure.{AreaFailure};

use crate::failure::AreaFailure;
use crate::outage::edges_in_order;
use ospf_base::{Addr, Kind, Prefix, RouterId};
use ospf_graph::edges::{End, ends_at};
use ospf_graph::{Edge, Pairs, Vertex, edges_from, pair_order};
use ospf_lsa::{Listing, Lsa};
use ospf_spf::is_same_prefix;
use std::alloc::{AllocError, Global};

// How many leading bits of the index of an interface are 0. The index is the Link Data of a link
// without an address (RFC 2328, section 12.4.1.1), and no address of one begins so.
const BITS_BEFORE_INDEX: u8 = 8;

// The indices of interfaces are below it.
const INDICES: u32 = 1 << (32 - BITS_BEFORE_INDEX);

/// What may fail in an area, each once, in the order of `AreaFailure`: links with a subnet, other
/// links, attachments, networks and routers, each named by its routers, its subnet or its network.
/// If two routers have links in subnets, the links between them without addresses are named by
/// 0.0.0.0/8.
///
/// `AllocError` if memory runs out.
pub fn single_failures(alloc: Global, listing: &Listing) -> Result<Vec<AreaFailure>, AllocError>
    ensures all { IfOk result (λ all. AreFailures (advertisements_of listing.now) all.items) }
    ensures in_order { IfOk result (λ all. AllPairs IsFailureBefore all.items) }
{
    let edges = edges_in_order(alloc, listing)?;
    let wires = wires_of(alloc, listing, &edges)?;
    let wired = wired_pairs(alloc, &wires)?;
    let mut failures = Vec::from_slice(alloc, &wires)?;
    add_edges(&wired, &edges, &mut failures)?;
    add_routers(listing, &mut failures)?;
    put_in_order(&mut failures);
    Ok(failures)
}

// The links between two routers in subnets that both advertise.
fn wires_of(
    alloc: Global,
    listing: &Listing,
    edges: &[Edge],
) -> Result<Vec<AreaFailure>, AllocError>
    requires edges { IsEdgesOf (advertisements_of listing.now) edges.now }
    requires in_order { AreEdgesInOrder edges.now }
    ensures { IfOk result (λ wires. Adds
        (GivenBy (WireGiven (advertisements_of listing.now)) edges.now) [] wires.items) }
{
    let mut wires = Vec::new(alloc);
    for edge in edges {
        add_edge_wire(alloc, listing, edges, edge, &mut wires)?;
    }
    Ok(wires)
}

// Adds the link of an edge from a router to one of a larger Router ID, if it has a subnet.
fn add_edge_wire(
    alloc: Global,
    listing: &Listing,
    edges: &[Edge],
    edge: &Edge,
    failures: &mut Vec<AreaFailure>,
) -> Result<(), AllocError>
    requires edges { IsEdgesOf (advertisements_of listing.now) edges.now }
    requires in_order { AreEdgesInOrder edges.now }
    ensures { OnOk result (Adds (WireGiven (advertisements_of listing.now) edge.now)
        failures.old.items failures.new.items) }
{
    match (edge.from, edge.to) {
        (Vertex::Router(a), Vertex::Router(b)) => {
            if a.0 < b.0 {
                add_wire(alloc, listing, edges, edge.link_data, a, b, failures)?;
            }
            Ok(())
        }
        (Vertex::Router(_), Vertex::Network(_)) => Ok(()),
        (Vertex::Network(_), Vertex::Router(_)) => Ok(()),
        (Vertex::Network(_), Vertex::Network(_)) => Ok(()),
    }
}

// Adds the link of two routers at an address of the first, if they share a prefix there.
fn add_wire(
    alloc: Global,
    listing: &Listing,
    edges: &[Edge],
    address: u32,
    a: RouterId,
    b: RouterId,
    failures: &mut Vec<AreaFailure>,
) -> Result<(), AllocError>
    requires edges { IsEdgesOf (advertisements_of listing.now) edges.now }
    requires in_order { AreEdgesInOrder edges.now }
    ensures { OnOk result (Adds (IsWireAt (advertisements_of listing.now) a b address)
        failures.old.items failures.new.items) }
{
    match shared_subnet(alloc, listing, edges, address, a, b)? {
        Some(subnet) => {
            add_failure(failures, AreaFailure::Link { a, b, subnet })?;
            Ok(())
        }
        None => Ok(()),
    }
}

// The longest prefix that two routers share at an address of the first: of all ends those at the
// two alone are looked at, and of all edges those that leave the second.
fn shared_subnet(
    alloc: Global,
    listing: &Listing,
    edges: &[Edge],
    address: u32,
    a: RouterId,
    b: RouterId,
) -> Result<Option<Prefix>, AllocError>
    requires edges { IsEdgesOf (advertisements_of listing.now) edges.now }
    requires in_order { AreEdgesInOrder edges.now }
    ensures { IfOk result (IsLongestOf (IsShared (advertisements_of listing.now) a b address)) }
{
    let near = ends_at(alloc, listing, Vertex::Router(a))?;
    let far = ends_at(alloc, listing, Vertex::Router(b))?;
    let back = edges_from(edges, Vertex::Router(b));
    Ok(longest_of(&near, &far, back, address, a, b))
}

// The longest prefix of the ends near that both routers share.
fn longest_of(
    near: &[End],
    far: &[End],
    back: &[Edge],
    address: u32,
    a: RouterId,
    b: RouterId,
) -> Option<Prefix>
    ensures { IsLongestOf (IsSharedIn near.now far.now back.now address a b) result }
{
    let mut longest = None;
    for end in near {
        let prefix = end.prefix;
        if is_longer(prefix, longest) && is_shared(far, back, address, a, b, prefix) {
            longest = Some(prefix);
        }
    }
    longest
}

// Whether a prefix is longer than one, if there is one.
fn is_longer(prefix: Prefix, than: Option<Prefix>) -> bool
    ensures { MatchOption than (IsTrue result)
        (λ other. IsTrue result ↔ (other.length < prefix.length)) }
{
    match than {
        Some(other) => other.length < prefix.length,
        None => true,
    }
}

// Whether a prefix holds a link's address, and the far router shares it.
fn is_shared(
    far: &[End],
    back: &[Edge],
    address: u32,
    a: RouterId,
    b: RouterId,
    prefix: Prefix,
) -> bool
    ensures { IsTrue result ↔ IsSharedFar far.now back.now address a b prefix }
{
    is_address_in(prefix, address) && is_met(far, back, a, b, prefix)
}

// Whether a link's Link Data is an address that a prefix holds.
fn is_address_in(prefix: Prefix, link_data: u32) -> bool
    ensures { IsTrue result ↔ ((IsInterfaceIndex link_data → ⊥) × Holds prefix link_data) }
{
    !is_index(link_data) && prefix.holds(Addr(link_data))
}

// Whether it is the index of an interface.
fn is_index(link_data: u32) -> bool
    ensures { IsTrue result ↔ IsInterfaceIndex link_data }
{
    link_data < INDICES
}

// Whether an end far is that of a prefix, and an edge leads back out of it.
fn is_met(far: &[End], back: &[Edge], a: RouterId, b: RouterId, prefix: Prefix) -> bool
    ensures { IsTrue result ↔ (HasEndFor far.now prefix × LeadsBack back.now b a prefix) }
{
    has_end_for(far, prefix) && leads_back(back, b, a, prefix)
}

// Whether one of some ends is that of a prefix.
fn has_end_for(ends: &[End], prefix: Prefix) -> bool
    ensures { IsTrue result ↔ HasEndFor ends.now prefix }
{
    ends.iter().any(|end| is_same_prefix(end.prefix, prefix))
}

// Whether one of some edges leads from one router to another out of an address in a subnet.
fn leads_back(edges: &[Edge], from: RouterId, to: RouterId, subnet: Prefix) -> bool
    ensures { IsTrue result ↔ LeadsBack edges.now from to subnet }
{
    edges.iter().any(|edge| is_edge_in(edge, from, to, subnet))
}

// Whether an edge does.
fn is_edge_in(edge: &Edge, from: RouterId, to: RouterId, subnet: Prefix) -> bool
    ensures { IsTrue result ↔ ((edge.now.from ≡ Router from) × (edge.now.to ≡ Router to)
        × (IsInterfaceIndex edge.now.link_data → ⊥) × Holds subnet edge.now.link_data) }
{
    edge.from == Vertex::Router(from)
        && edge.to == Vertex::Router(to)
        && is_address_in(subnet, edge.link_data)
}

/// Adds a failure.
pub(crate) fn add_failure(
    failures: &mut Vec<AreaFailure>,
    failure: AreaFailure,
) -> Result<(), AllocError>
    ensures { OnOk result (Adds (λ f. f ≡ failure) failures.old.items failures.new.items) }
{
    failures.push(failure)?;
    Ok(())
}

// The pairs of routers that have a link in a subnet.
fn wired_pairs(alloc: Global, wires: &[AreaFailure]) -> Result<Pairs, AllocError>
    ensures { IfOk result (Adds (GivenBy IsPairOf wires.now) []) }
{
    let mut pairs = Vec::new(alloc);
    for wire in wires {
        push_pair(wire, &mut pairs)?;
    }
    Ok(Pairs::of(pairs))
}

// Adds the pair of a link in a subnet.
fn push_pair(failure: &AreaFailure, pairs: &mut Vec<u64>) -> Result<(), AllocError>
    ensures { OnOk result (Adds (IsPairOf failure.now) pairs.old.items pairs.new.items) }
{
    match *failure {
        AreaFailure::Link { a, b, .. } => {
            pairs.push(pair_order(a.0, b.0))?;
            Ok(())
        }
        AreaFailure::End { .. } => Ok(()),
        AreaFailure::Links { .. } => Ok(()),
        AreaFailure::Attachment { .. } => Ok(()),
        AreaFailure::Network(_) => Ok(()),
        AreaFailure::Router(_) => Ok(()),
        AreaFailure::Stub { .. } => Ok(()),
    }
}

// Adds what edges give, apart from links in subnets.
fn add_edges(
    wired: &Pairs,
    edges: &[Edge],
    failures: &mut Vec<AreaFailure>,
) -> Result<(), AllocError>
    ensures { OnOk result (Adds (GivenBy (EdgeGiven wired.now) edges.now) failures.old.items
        failures.new.items) }
{
    for edge in edges {
        add_edge(wired, edge, failures)?;
    }
    Ok(())
}

// Adds what an edge gives, apart from links in subnets.
fn add_edge(wired: &Pairs, edge: &Edge, failures: &mut Vec<AreaFailure>) -> Result<(), AllocError>
    ensures { OnOk result (Adds (EdgeGiven wired.now edge.now) failures.old.items
        failures.new.items) }
{
    add_links(wired, edge, failures)?;
    add_unnumbered(wired, edge, failures)?;
    add_attachment(edge, failures)?;
    add_network(edge, failures)?;
    Ok(())
}

// Adds the links between two routers that have none in a subnet.
fn add_links(wired: &Pairs, edge: &Edge, failures: &mut Vec<AreaFailure>) -> Result<(), AllocError>
    ensures { OnOk result (Adds (LinksGiven wired.now edge.now) failures.old.items
        failures.new.items) }
{
    match (edge.from, edge.to) {
        (Vertex::Router(a), Vertex::Router(b)) => {
            if a.0 < b.0 && !wired.has(a.0, b.0) {
                add_failure(failures, AreaFailure::Links { a, b })?;
            }
            Ok(())
        }
        (Vertex::Router(_), Vertex::Network(_)) => Ok(()),
        (Vertex::Network(_), Vertex::Router(_)) => Ok(()),
        (Vertex::Network(_), Vertex::Network(_)) => Ok(()),
    }
}

// Adds the links without addresses between two routers that have one in a subnet.
fn add_unnumbered(
    wired: &Pairs,
    edge: &Edge,
    failures: &mut Vec<AreaFailure>,
) -> Result<(), AllocError>
    ensures { OnOk result (Adds (UnnumberedGiven wired.now edge.now) failures.old.items
        failures.new.items) }
{
    match (edge.from, edge.to) {
        (Vertex::Router(a), Vertex::Router(b)) => {
            if a.0 < b.0 && wired.has(a.0, b.0) {
                add_indexed(edge.link_data, a, b, failures)?;
            }
            Ok(())
        }
        (Vertex::Router(_), Vertex::Network(_)) => Ok(()),
        (Vertex::Network(_), Vertex::Router(_)) => Ok(()),
        (Vertex::Network(_), Vertex::Network(_)) => Ok(()),
    }
}

// Adds the links without addresses between two routers, if this is the Link Data of one.
fn add_indexed(
    link_data: u32,
    a: RouterId,
    b: RouterId,
    failures: &mut Vec<AreaFailure>,
) -> Result<(), AllocError>
    ensures { OnOk result (Adds (IsUnnumberedAt link_data a b) failures.old.items
        failures.new.items) }
{
    if is_index(link_data) {
        let subnet = prefix_of_indices();
        add_failure(failures, AreaFailure::Link { a, b, subnet })?;
    }
    Ok(())
}

// The prefix in which the indices of interfaces lie.
fn prefix_of_indices() -> Prefix
    ensures { IsOfIndices result }
{
    Prefix {
        address: Addr(0),
        length: BITS_BEFORE_INDEX,
    }
}

// Adds the attachment of an edge from a router to a network.
fn add_attachment(edge: &Edge, failures: &mut Vec<AreaFailure>) -> Result<(), AllocError>
    ensures { OnOk result (Adds (AttachmentGiven edge.now) failures.old.items failures.new.items) }
{
    match (edge.from, edge.to) {
        (Vertex::Router(router), Vertex::Network(network)) => {
            add_failure(failures, AreaFailure::Attachment { router, network })?;
            Ok(())
        }
        (Vertex::Router(_), Vertex::Router(_)) => Ok(()),
        (Vertex::Network(_), Vertex::Router(_)) => Ok(()),
        (Vertex::Network(_), Vertex::Network(_)) => Ok(()),
    }
}

// Adds the network of an edge from a router.
fn add_network(edge: &Edge, failures: &mut Vec<AreaFailure>) -> Result<(), AllocError>
    ensures { OnOk result (Adds (NetworkGiven edge.now) failures.old.items failures.new.items) }
{
    match (edge.from, edge.to) {
        (Vertex::Router(_), Vertex::Network(network)) => {
            add_failure(failures, AreaFailure::Network(network))?;
            Ok(())
        }
        (Vertex::Router(_), Vertex::Router(_)) => Ok(()),
        (Vertex::Network(_), Vertex::Router(_)) => Ok(()),
        (Vertex::Network(_), Vertex::Network(_)) => Ok(()),
    }
}

// Adds the routers of a listing.
fn add_routers(listing: &Listing, failures: &mut Vec<AreaFailure>) -> Result<(), AllocError>
    ensures { OnOk result (Adds (GivenBy (λ lsa. RouterGiven (advertisement_of lsa)) listing.now)
        failures.old.items failures.new.items) }
{
    for lsa in listing.lsas() {
        add_router(lsa, failures)?;
    }
    Ok(())
}

// Adds the router of an LSA.
fn add_router(lsa: &Lsa, failures: &mut Vec<AreaFailure>) -> Result<(), AllocError>
    ensures { OnOk result (Adds (RouterGiven (advertisement_of lsa.now)) failures.old.items
        failures.new.items) }
{
    let view = lsa.view();
    let key = view.key();
    match view.kind() {
        Kind::Router => {
            add_failure(failures, AreaFailure::Router(key.router))?;
            Ok(())
        }
        Kind::Network => Ok(()),
    }
}

/// Puts failures in order, each once.
pub fn put_in_order(failures: &mut Vec<AreaFailure>)
    ensures same { (f : AreaFailure) → Contains failures.new.items f
        ↔ Contains failures.old.items f }
    ensures in_order { AllPairs IsFailureBefore failures.new.items }
{
    failures.sort_unstable();
    failures.dedup();
}
