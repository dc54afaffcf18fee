//! Shortest paths from which edges are removed: what is reached over them is removed too,
//! and searched for again from what is left.

ghost use Rattle.std.specs.Prelude.{◌↔◌, ◌∷◌, [], All, Contains, IsFalse, IsTrue, IfOk, OnOk};
ghost use Rattle.ospf_spf.specs.IncrementalSpf.Growth.{AreNear, Extends, HasPlaces, HoldsAll};
ghost use Rattle.ospf_graph.specs.Search.{AreEdgesInOrder};
ghost use Rattle.ospf_graph.specs.declared.graph.Edge.{Edge};
ghost use Rattle.ospf_spf.specs.IncrementalSpf.Shrinking.{AreVerticesInOrder, IsSlack, LeadsTo, LeavesIn, OpensIn, TakesEdges};

use crate::incremental::grow::{FoundPaths, distance_of, offer};
use ospf_graph::{
    Candidates, Edge, Vertex, edges_from, is_same, place_of, sorted_edges, vertex_order,
};
use std::alloc::{AllocError, Global};
use std::collections::HashSet;

/// The edges without these, in their order.
pub(crate) fn left_of(alloc: Global, edges: &[Edge], less: &[Edge]) -> Result<Vec<Edge>, AllocError>
    requires { AreEdgesInOrder edges.now }
    ensures in_order { IfOk result (λ left. AreEdgesInOrder left.items) }
    ensures members { IfOk result (λ left. TakesEdges less.now edges.now left.items) }
{
    let sorted = sorted_edges(alloc, less)?;
    let left = left_of_sorted(alloc, edges, &sorted)?;
    Ok(left)
}

/// The vertices that some least path reaches over a removed edge, in their order. Only
/// the order is promised, since `is_closed` tests what is needed.
pub(crate) fn behind(
    alloc: Global,
    edges: &[Edge],
    less: &[Edge],
    found: &FoundPaths,
) -> Result<Vec<Vertex>, AllocError>
    requires in_order { AreEdgesInOrder edges.now }
    requires places { HasPlaces found.now }
    requires near { AreNear found.now.reached.items }
    ensures { IfOk result (λ gone. AreVerticesInOrder gone.items) }
{
    let mut gone = ends_behind(alloc, edges, less, found)?;
    gone.sort_unstable_by_key(|vertex| vertex_order(*vertex));
    Ok(gone)
}

/// Whether these vertices are closed: what a least path reaches over a removed edge, or from one of
/// them, is among them, and the root is not.
pub(crate) fn is_closed(
    found: &FoundPaths,
    edges: &[Edge],
    less: &[Edge],
    gone: &[Vertex],
    root: Vertex,
) -> bool
    requires edges { AreEdgesInOrder edges.now }
    requires places { HasPlaces found.now }
    requires near { AreNear found.now.reached.items }
    requires gone { AreVerticesInOrder gone.now }
    // If so, the root is not among them, and an edge that is removed or begins at one of them ends
    // at one of them, where it is the last one of a least path.
    ensures root { IsTrue result → Contains gone.now root → ⊥ }
    ensures less { IsTrue result → All (LeadsTo gone.now found.now) less.now }
    ensures from { IsTrue result → (e : Edge) → Contains edges.now e → Contains gone.now e.from →
        LeadsTo gone.now found.now e }
{
    !is_among(gone, root) && lead_to(gone, found, less) && all_lead_to(gone, found, edges)
}

/// Removes these vertices from what is found, and appends them to `changed`.
pub(crate) fn leave(
    gone: &[Vertex],
    found: &mut FoundPaths,
    changed: &mut Vec<Vertex>,
) -> Result<(), AllocError>
    requires { HasPlaces found.old }
    // They are gone, and all others are found as they were, in their places.
    ensures places { OnOk result (HasPlaces found.new) }
    ensures left { OnOk result (LeavesIn gone.now found.old found.new) }
    // They are appended to `changed`.
    ensures changed { Extends changed.old.items changed.new.items }
    ensures gone { OnOk result (HoldsAll gone.now changed.new.items) }
{
    for vertex in gone {
        take_out(*vertex, found)?;
    }
    changed.extend_from_slice(gone)
}

/// Offers those of some edges that end at one of these vertices.
pub(crate) fn offer_to(
    gone: &[Vertex],
    some: &[Edge],
    found: &FoundPaths,
    waits: &mut Candidates,
) -> Result<(), AllocError>
    requires gone { AreVerticesInOrder gone.now }
    requires places { HasPlaces found.now }
    requires near { AreNear found.now.reached.items }
    ensures { OnOk result (OpensIn gone.now some.now found.now waits.old waits.new) }
{
    for edge in some {
        offer_one_to(gone, *edge, found, waits)?;
    }
    Ok(())
}

/// Whether an edge is among these, which are in order.
pub(crate) fn has_in_order(edges: &[Edge], edge: Edge) -> bool
    requires { AreEdgesInOrder edges.now }
    ensures { IsTrue result ↔ Contains edges.now edge }
{
    edges_from(edges, edge.from).contains(&edge)
}

// The edges without these, which are in order too.
fn left_of_sorted(alloc: Global, edges: &[Edge], less: &[Edge]) -> Result<Vec<Edge>, AllocError>
    requires in_order { AreEdgesInOrder edges.now }
    requires less { AreEdgesInOrder less.now }
    ensures in_order { IfOk result (λ left. AreEdgesInOrder left.items) }
    ensures members { IfOk result (λ left. TakesEdges less.now edges.now left.items) }
{
    let mut left = Vec::with_capacity(alloc, edges.len())?;
    for edge in edges {
        if !has_in_order(less, *edge) {
            left.push(*edge)?;
        }
    }
    Ok(left)
}

// The vertices that least paths reach over removed edges, each once, direct ends of these first.
fn ends_behind(
    alloc: Global,
    edges: &[Edge],
    less: &[Edge],
    found: &FoundPaths,
) -> Result<Vec<Vertex>, AllocError>
    requires in_order { AreEdgesInOrder edges.now }
    requires places { HasPlaces found.now }
    requires near { AreNear found.now.reached.items }
{
    let mut seen = HashSet::new(alloc);
    let mut gone = Vec::new(alloc);
    add_ends(less, found, &mut seen, &mut gone)?;
    for place in 0..found.reached.len() {
        if place >= gone.len() {
            return Ok(gone);
        }
        add_ends(edges_from(edges, gone[place]), found, &mut seen, &mut gone)?;
    }
    Ok(gone)
}

// Adds the ends of those of some edges that are tight, each once.
fn add_ends(
    some: &[Edge],
    found: &FoundPaths,
    seen: &mut HashSet<u64>,
    ends: &mut Vec<Vertex>,
) -> Result<(), AllocError>
    requires places { HasPlaces found.now }
    requires near { AreNear found.now.reached.items }
{
    for edge in some {
        if is_tight(found, *edge) && seen.insert(vertex_order(edge.to))? {
            ends.push(edge.to)?;
        }
    }
    Ok(())
}

// Whether an edge is the last one of a least path.
fn is_tight(found: &FoundPaths, edge: Edge) -> bool
    requires places { HasPlaces found.now }
    requires near { AreNear found.now.reached.items }
    ensures { IsFalse result → IsSlack found.now edge }
{
    let Some(from) = distance_of(found, edge.from) else {
        return false;
    };
    let Some(to) = distance_of(found, edge.to) else {
        return false;
    };
    from + edge.cost as u64 == to
}

/// Whether a vertex is among these.
pub(crate) fn is_among(vertices: &[Vertex], vertex: Vertex) -> bool
    requires { AreVerticesInOrder vertices.now }
    ensures { IsTrue result ↔ Contains vertices.now vertex }
{
    let order = vertex_order(vertex);
    let place = vertices.partition_point(|v| vertex_order(*v) < order);
    place < vertices.len() && is_same(vertices[place], vertex)
}

// Whether each edge that leaves one of these vertices leads to one of them, or is not tight.
fn all_lead_to(gone: &[Vertex], found: &FoundPaths, edges: &[Edge]) -> bool
    requires edges { AreEdgesInOrder edges.now }
    requires places { HasPlaces found.now }
    requires near { AreNear found.now.reached.items }
    requires gone { AreVerticesInOrder gone.now }
    // An edge out of what is gone ends there too, where it is the last one of a least path.
    ensures { IsTrue result → (e : Edge) → Contains edges.now e → Contains gone.now e.from →
        LeadsTo gone.now found.now e }
{
    for vertex in gone {
        if !lead_to(gone, found, edges_from(edges, *vertex)) {
            return false;
        }
    }
    true
}

// Whether each of some edges leads to one of these vertices, or is not tight.
fn lead_to(gone: &[Vertex], found: &FoundPaths, some: &[Edge]) -> bool
    requires places { HasPlaces found.now }
    requires near { AreNear found.now.reached.items }
    requires gone { AreVerticesInOrder gone.now }
    ensures { IsTrue result → All (LeadsTo gone.now found.now) some.now }
{
    for edge in some {
        if !leads_to(gone, found, *edge) {
            return false;
        }
    }
    true
}

// Whether an edge leads to one of these vertices, or is not tight.
fn leads_to(gone: &[Vertex], found: &FoundPaths, edge: Edge) -> bool
    requires places { HasPlaces found.now }
    requires near { AreNear found.now.reached.items }
    requires gone { AreVerticesInOrder gone.now }
    ensures { IsTrue result → LeadsTo gone.now found.now edge }
{
    !is_tight(found, edge) || is_among(gone, edge.to)
}

// Takes a vertex out of what is found, if it is there. The last one takes its place.
fn take_out(vertex: Vertex, found: &mut FoundPaths) -> Result<(), AllocError>
    requires { HasPlaces found.old }
    ensures places { OnOk result (HasPlaces found.new) }
    ensures left { OnOk result (LeavesIn (vertex ∷ []) found.old found.new) }
{
    let Some(place) = place_of(&found.places, vertex) else {
        return Ok(());
    };
    found.places.remove(&vertex_order(vertex));
    found.reached.swap_remove(place);
    if place < found.reached.len() {
        let moved = vertex_order(found.reached[place].vertex);
        found.places.insert(moved, place)?;
    }
    Ok(())
}

// Offers an edge, if it ends at one of these vertices.
fn offer_one_to(
    gone: &[Vertex],
    edge: Edge,
    found: &FoundPaths,
    waits: &mut Candidates,
) -> Result<(), AllocError>
    requires gone { AreVerticesInOrder gone.now }
    requires places { HasPlaces found.now }
    requires near { AreNear found.now.reached.items }
    ensures { OnOk result (OpensIn gone.now (edge ∷ []) found.now waits.old waits.new) }
{
    if is_among(gone, edge.to) {
        offer(edge, found, waits)?;
    }
    Ok(())
}
