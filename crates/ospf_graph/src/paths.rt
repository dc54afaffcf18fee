//! The shortest paths from one vertex over a list of edges.

ghost use Rattle.std.specs.Prelude.{◌≡◌, ◌+◌, ◌*◌, ◌++◌, ◌<◌, ◌≤◌, ◌↔◌, ◌^◌, ◌∷◌, [], ℕ, All, Contains, IsTrue, IfOk, OnOk, IsPermutation, None, Some, nat_eq, length};
ghost use Rattle.std.specs.List.Sorted.{IsNonDecreasingBy};
ghost use Rattle.std.specs.HashMap.{get};
ghost use Rattle.ospf_graph.specs.declared.graph.Edge.{Edge};
ghost use Rattle.ospf_graph.specs.declared.paths.Settled.{Settled};
ghost use Rattle.ospf_graph.specs.declared.graph.Start.TheVariants.{Here};
ghost use Rattle.ospf_graph.specs.Paths.{AreSettledInOrder, AreStartsInOrder};
ghost use Rattle.ospf_graph.specs.Reached.{ArePlaces, settled_of, starts_at, starts_of};
ghost use Rattle.ospf_graph.specs.Tree.{extend, AreLeast, IsTree};
ghost use Rattle.ospf_graph.specs.Search.{AtIn, AreFitEdges, Joins, StartsIn, TakesCandidate, vertex_code, vertex_id, AreEdgesInOrder, HaveSameFrom, candidates_from, vertex_eq};

use crate::candidates::{Candidates, SpfCandidate};
use crate::graph::{Edge, Start, Vertex, vertex_order};
use crate::hop::NextHop;
use crate::reached::{Reached, bring, place_of, reach, tidy_all};
use ospf_base::Addr;
use std::alloc::{AllocError, Global};
use std::collections::HashMap;

/// A vertex that is reached, with its distance from the root.
#[derive(Clone, Copy, Debug, PartialEq, Eq)]
pub struct Settled {
    pub vertex: Vertex,
    pub distance: u64,
}

/// A vertex that is reached, with the start of one of its least paths.
#[derive(Clone, Copy, Debug, PartialEq, Eq)]
pub struct VertexStart {
    pub vertex: Vertex,
    pub start: Start,
}

/// What a search has reached, the place of each vertex there, and how
/// often it looked at the candidates.
#[derive(Drop)]
pub struct Searched {
    pub reached: Vec<Reached>,
    pub places: HashMap<u64, usize>,
    looks: u64,
}

/// The vertices that a root reaches, each with its distance, the starts of their
/// least paths, and how often the search looked at a candidate: put one among those
/// that wait, or asked for the next.
#[derive(Debug, Drop)]
pub struct ShortestPaths {
    pub settled: Vec<Settled>,
    pub starts: Vec<VertexStart>,
    pub looks: u64,
}

/// Whether two vertices are the same.
pub fn is_same(a: Vertex, b: Vertex) -> bool
    ensures value { result ≡ vertex_eq a b }
    ensures same { IsTrue result ↔ (a ≡ b) }
{
    match (a, b) {
        (Vertex::Router(x), Vertex::Router(y)) => x == y,
        (Vertex::Network(x), Vertex::Network(y)) => x == y,
        (Vertex::Router(_), Vertex::Network(_)) => false,
        (Vertex::Network(_), Vertex::Router(_)) => false,
    }
}

/// The edges from a vertex, of edges in the order of the vertices that they leave.
pub fn edges_from(edges: &[Edge], vertex: Vertex) -> &[Edge]
    requires { AreEdgesInOrder edges.now }
    ensures same { HaveSameFrom vertex edges.now result.now }
    ensures part { (e : Edge) → Contains result.now e → Contains edges.now e }
    ensures only { (e : Edge) → Contains result.now e → e.from ≡ vertex }
{
    let order = vertex_order(vertex);
    let from = edges.partition_point(|e| vertex_order(e.from) < order);
    let to = edges.partition_point(|e| vertex_order(e.from) <= order);
    if from <= to { &edges[from..to] } else { &[] }
}

/// A path's start, one edge further.
pub fn extended(start: Start, to: Vertex, link_data: u32) -> Start
    ensures { result ≡ extend start to link_data }
{
    match (start, to) {
        (Start::Here, Vertex::Router(router)) => Start::Hop(NextHop::PointToPoint {
            local: Addr(link_data),
            router,
        }),
        (Start::Here, Vertex::Network(_)) => Start::OnNetwork(Addr(link_data)),
        (Start::OnNetwork(local), Vertex::Router(router)) => Start::Hop(NextHop::Lan {
            local,
            router,
            address: Addr(link_data),
        }),
        (Start::OnNetwork(_), Vertex::Network(_)) => Start::Hop(NextHop::Attached),
        (Start::Hop(hop), _) => Start::Hop(hop),
    }
}

/// The edges in the order of the vertices that they leave, in memory of their own.
///
/// `AllocError` where memory runs out.
pub fn sorted_edges(alloc: Global, edges: &[Edge]) -> Result<Vec<Edge>, AllocError>
    ensures same { IfOk result (λ sorted. IsPermutation edges.now sorted.items) }
    ensures in_order { IfOk result (λ sorted. AreEdgesInOrder sorted.items) }
{
    let mut sorted = Vec::from_slice(alloc, edges)?;
    sorted.sort_unstable_by_key(|e| vertex_order(e.from));
    Ok(sorted)
}

/// The search from a root over edges in the order of the vertices that they leave.
///
/// `AllocError` where memory runs out.
pub fn search(alloc: Global, edges: &[Edge], root: Vertex) -> Result<Searched, AllocError>
    // The edges are those of an area, in the order of the vertices that they leave.
    requires fit { AreFitEdges edges.now }
    requires root_fits { vertex_id root < 2 ^ 32 }
    requires in_order { AreEdgesInOrder edges.now }
    // What is reached is the tree of shortest paths, with no distance past the limit.
    ensures tree { IfOk result (λ s. IsTree (Contains edges.now) root
        (AtIn (settled_of s.reached.items)) (StartsIn (starts_of s.reached.items))) }
    ensures near { IfOk result (λ s. All (λ x. x.distance < 2 ^ 63) (settled_of s.reached.items)) }
    // Each vertex is found by its place, and the looks are few.
    ensures places { IfOk result (λ s. ArePlaces (get nat_eq s.places) s.reached.items) }
    ensures looks { IfOk result (λ s. s.looks ≤ 2 * length edges.now + 1) }
{
    let mut reached = Vec::new(alloc);
    let mut places = HashMap::new(alloc);
    let mut nearest = HashMap::new(alloc);
    let mut candidates = Candidates::new(alloc);
    reach_root(alloc, &mut reached, &mut places, root)?;
    add_candidates(edges, root, 0, &mut nearest, &mut candidates)?;
    while let Some(candidate) = candidates.take_least() {
        take(
            alloc,
            edges,
            candidate,
            &mut reached,
            &mut places,
            &mut nearest,
            &mut candidates,
        )?;
    }
    tidy_all(&mut reached);
    let looks = candidates.looks();
    Ok(Searched {
        reached,
        places,
        looks,
    })
}

/// What is reached, in the order of vertices, and how often the search looked at a candidate.
///
/// `AllocError` where memory runs out.
pub fn listed(alloc: Global, reached: &[Reached], looks: u64) -> Result<ShortestPaths, AllocError>
    // All that is reached is listed, and nothing else.
    ensures settled { IfOk result (λ t. IsPermutation (settled_of reached.now) t.settled.items) }
    ensures starts { IfOk result (λ t. IsPermutation (starts_of reached.now) t.starts.items) }
    // The result is in the order of vertices, and `looks` is passed on.
    ensures settled_in_order { IfOk result (λ t. AreSettledInOrder t.settled.items) }
    ensures starts_in_order { IfOk result (λ t. AreStartsInOrder t.starts.items) }
    ensures looks { IfOk result (λ t. t.looks ≡ looks) }
{
    let mut settled = settled_list(alloc, reached)?;
    let mut starts = starts_list(alloc, reached)?;
    sort_settled(&mut settled);
    sort_starts(&mut starts);
    Ok(ShortestPaths {
        settled,
        starts,
        looks,
    })
}

/// The shortest paths from a root over a list of edges (RFC 2328, section 16.1): of each
/// vertex that some path reaches the least distance, and the starts of all paths of that
/// length, in the order of vertices.
///
/// `AllocError` where memory runs out.
pub fn shortest_paths(
    alloc: Global,
    edges: &[Edge],
    root: Vertex,
) -> Result<ShortestPaths, AllocError>
    // The edges and the root are those of an area.
    requires fit { AreFitEdges edges.now }
    requires root_fits { vertex_id root < 2 ^ 32 }
    // What is found is the tree of shortest paths, and so all that is reached, at least cost.
    ensures tree { IfOk result (λ t. IsTree (Contains edges.now) root (AtIn t.settled.items)
        (StartsIn t.starts.items)) }
    ensures least { IfOk result (λ t. AreLeast (Contains edges.now) root (AtIn t.settled.items)
        (StartsIn t.starts.items)) }
    // No distance is past the limit, and both lists are in the order of vertices.
    ensures near { IfOk result (λ t. All (λ s. s.distance < 2 ^ 63) t.settled.items) }
    ensures settled_in_order { IfOk result (λ t. IsNonDecreasingBy (λ s. vertex_code s.vertex)
        t.settled.items) }
    ensures starts_in_order { IfOk result (λ t. IsNonDecreasingBy (λ b. vertex_code b.vertex)
        t.starts.items) }
    // Each edge is looked at twice at most: when it is offered, and when it is taken.
    ensures looks { IfOk result (λ t. t.looks ≤ 2 * length edges.now + 1) }
{
    let sorted = sorted_edges(alloc, edges)?;
    let found = search(alloc, &sorted, root)?;
    let paths = listed(alloc, &found.reached, found.looks)?;
    Ok(paths)
}

// Reaches the root.
fn reach_root(
    alloc: Global,
    reached: &mut Vec<Reached>,
    places: &mut HashMap<u64, usize>,
    root: Vertex,
) -> Result<(), AllocError>
    // Nothing is reached yet.
    requires empty { reached.old.items ≡ [] }
    requires no_places { (q : ℕ) → get nat_eq places.old q ≡ None }
    // Then only the root is, at distance 0, as its own start.
    ensures settled { OnOk result (settled_of reached.new.items
        ≡ record { vertex = root; distance = 0 } ∷ []) }
    ensures starts { OnOk result (starts_of reached.new.items
        ≡ record { vertex = root; start = Here } ∷ []) }
    ensures places { OnOk result (ArePlaces (get nat_eq places.new) reached.new.items) }
{
    places.insert(vertex_order(root), 0)?;
    reached.push(Reached {
        vertex: root,
        distance: 0,
        starts: vec![in alloc; Start::Here]?,
        in_order: 1,
    })?;
    Ok(())
}

// Offers the edges from a vertex at this distance.
fn add_candidates(
    edges: &[Edge],
    vertex: Vertex,
    distance: u64,
    nearest: &mut HashMap<u64, u64>,
    candidates: &mut Candidates,
) -> Result<(), AllocError>
    requires near { distance < 2 ^ 63 }
    requires in_order { AreEdgesInOrder edges.now }
    ensures joins { OnOk result (Joins (candidates_from vertex distance edges.now)
        (get nat_eq nearest.old) (get nat_eq nearest.new) candidates.old.list candidates.new.list) }
    ensures looks { OnOk result (candidates.new.looks + length candidates.old.list
        ≤ candidates.old.looks + length candidates.new.list) }
{
    let some = edges_from(edges, vertex);
    add_each(some, vertex, distance, nearest, candidates)?;
    Ok(())
}

// Offers edges that leave a vertex at this distance.
fn add_each(
    some: &[Edge],
    vertex: Vertex,
    distance: u64,
    nearest: &mut HashMap<u64, u64>,
    candidates: &mut Candidates,
) -> Result<(), AllocError>
    requires near { distance < 2 ^ 63 }
    requires from { (e : Edge) → Contains some.now e → e.from ≡ vertex }
    ensures joins { OnOk result (Joins (candidates_from vertex distance some.now)
        (get nat_eq nearest.old) (get nat_eq nearest.new) candidates.old.list candidates.new.list) }
    ensures looks { OnOk result (candidates.new.looks + length candidates.old.list
        ≤ candidates.old.looks + length candidates.new.list) }
{
    for edge in some {
        let candidate = SpfCandidate {
            distance: distance + edge.cost as u64,
            edge: *edge,
        };
        offer(candidate, nearest, candidates)?;
    }
    Ok(())
}

// Adds a candidate and notes its distance, unless a nearer way to its end is noted.
fn offer(
    candidate: SpfCandidate,
    nearest: &mut HashMap<u64, u64>,
    candidates: &mut Candidates,
) -> Result<(), AllocError>
    ensures joins { OnOk result (Joins (candidate ∷ []) (get nat_eq nearest.old)
        (get nat_eq nearest.new) candidates.old.list candidates.new.list) }
    ensures looks { OnOk result (candidates.new.looks + length candidates.old.list
        ≤ candidates.old.looks + length candidates.new.list) }
{
    let end = vertex_order(candidate.edge.to);
    if is_undercut(nearest, end, candidate.distance) {
        return Ok(());
    }
    nearest.insert(end, candidate.distance)?;
    candidates.push(candidate)?;
    Ok(())
}

// Whether a nearer way to a vertex is noted.
fn is_undercut(nearest: &HashMap<u64, u64>, end: u64, distance: u64) -> bool
    ensures { IsTrue result ↔ ((near : ℕ) × (get nat_eq nearest.now end ≡ Some near)
        × (near < distance)) }
{
    match nearest.get(&end) {
        Some(near) => *near < distance,
        None => false,
    }
}

// Takes a candidate: its vertex is reached, if it is new, and gets the starts that come over the
// candidate's edge, if no shorter path reached it.
fn take(
    alloc: Global,
    edges: &[Edge],
    candidate: SpfCandidate,
    reached: &mut Vec<Reached>,
    places: &mut HashMap<u64, usize>,
    nearest: &mut HashMap<u64, u64>,
    candidates: &mut Candidates,
) -> Result<(), AllocError>
    // The candidate is near enough, and what is reached is found by its place.
    requires near { candidate.distance < 2 ^ 63 }
    requires in_order { AreEdgesInOrder edges.now }
    requires places { ArePlaces (get nat_eq places.old) reached.old.items }
    // Its vertex, starts and further candidates are those of a turn of the search.
    ensures taken { OnOk result (TakesCandidate candidate edges.now (settled_of reached.old.items)
        (settled_of reached.new.items) (starts_of reached.old.items) (starts_of reached.new.items)
        (get nat_eq nearest.old) (get nat_eq nearest.new) candidates.old.list candidates.new.list) }
    // Places still lead to what is reached, and each new candidate is a look.
    ensures places { OnOk result (ArePlaces (get nat_eq places.new) reached.new.items) }
    ensures looks { OnOk result (candidates.new.looks + length candidates.old.list
        ≤ candidates.old.looks + length candidates.new.list) }
{
    let edge = candidate.edge;
    match place_of(places, edge.to) {
        None => {
            let to = reached.len();
            reach(alloc, reached, places, edge.to, candidate.distance)?;
            add_candidates(edges, edge.to, candidate.distance, nearest, candidates)?;
            bring(alloc, reached, places, edge, to)?;
            Ok(())
        }
        Some(to) => {
            if reached[to].distance == candidate.distance {
                bring(alloc, reached, places, edge, to)?;
            }
            Ok(())
        }
    }
}

// What is reached, with the distances.
fn settled_list(alloc: Global, reached: &[Reached]) -> Result<Vec<Settled>, AllocError>
    ensures { IfOk result (λ settled. settled.items ≡ settled_of reached.now) }
{
    let mut settled = Vec::with_capacity(alloc, reached.len())?;
    for one in reached {
        settled.push(Settled {
            vertex: one.vertex,
            distance: one.distance,
        })?;
    }
    Ok(settled)
}

// The starts of what is reached.
fn starts_list(alloc: Global, reached: &[Reached]) -> Result<Vec<VertexStart>, AllocError>
    ensures { IfOk result (λ starts. starts.items ≡ starts_of reached.now) }
{
    let mut starts = Vec::new(alloc);
    for one in reached {
        push_starts(one.vertex, &one.starts, &mut starts)?;
    }
    Ok(starts)
}

// Adds the starts of a vertex.
fn push_starts(
    vertex: Vertex,
    some: &[Start],
    starts: &mut Vec<VertexStart>,
) -> Result<(), AllocError>
    ensures { OnOk result (starts.new.items ≡ starts.old.items ++ starts_at vertex some.now) }
{
    for start in some {
        starts.push(VertexStart {
            vertex,
            start: *start,
        })?;
    }
    Ok(())
}

// Puts what is reached into the order of vertices.
fn sort_settled(settled: &mut Vec<Settled>)
    ensures same { IsPermutation settled.old.items settled.new.items }
    ensures in_order { IsNonDecreasingBy (λ s. vertex_code s.vertex) settled.new.items }
{
    settled.sort_unstable_by_key(|s| vertex_order(s.vertex));
}

// Puts starts into the order of their vertices.
fn sort_starts(starts: &mut Vec<VertexStart>)
    ensures same { IsPermutation starts.old.items starts.new.items }
    ensures in_order { IsNonDecreasingBy (λ b. vertex_code b.vertex) starts.new.items }
{
    starts.sort_unstable_by_key(|b| vertex_order(b.vertex));
}
