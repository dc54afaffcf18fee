//! Shortest paths that grow while edges come.

ghost use Rattle.std.specs.Prelude.{◌≡◌, ◌+◌, ◌<◌, ◌↔◌, ◌^◌, ◌∷◌, [], ℕ, Contains, IsTrue, IfSome, OnOk, None, Some, length};
ghost use Rattle.ospf_spf.specs.IncrementalSpf.Growth.{AreNear, AreThere, BringsNothing, Extends, HasPlaces, HasStart, ImprovesIn, IsAt, IsRelaxedIn, OffersIn, OnOkFalse, OnOkTrue, Pays, ResetsAt, PaysAll, SparesIn, found_place};
ghost use Rattle.ospf_graph.specs.Search.{AreEdgesInOrder};
ghost use Rattle.ospf_graph.specs.Tree.{extend};
ghost use Rattle.ospf_graph.specs.declared.graph.Start.{Start};

use ospf_graph::{
    Candidates, Edge, Reached, SpfCandidate, Start, Vertex, bring, edges_from, extended, place_of,
    reach,
};
use std::alloc::{AllocError, Global};
use std::collections::HashMap;

// No distance is as far as this.
const MOST: u64 = 1 << 63;

/// What is reached, and the place of each vertex there.
#[derive(Drop)]
pub(crate) struct FoundPaths {
    pub(crate) reached: Vec<Reached>,
    pub(crate) places: HashMap<u64, usize>,
}

/// The distance of a vertex, if it is reached.
pub(crate) fn distance_of(found: &FoundPaths, vertex: Vertex) -> Option<u64>
    requires { HasPlaces found.now }
    ensures some { IfSome result (λ d. IsAt found.now.reached.items vertex d) }
    ensures none { result ≡ None → (d : ℕ) → IsAt found.now.reached.items vertex d → ⊥ }
{
    match place_of(&found.places, vertex) {
        Some(place) => Some(found.reached[place].distance),
        None => None,
    }
}

/// The starts of a vertex, some perhaps more than once.
pub(crate) fn starts_of(found: &FoundPaths, vertex: Vertex) -> &[Start]
    requires { HasPlaces found.now }
    ensures { (x : Start) → Contains result.now x ↔ HasStart found.now.reached.items vertex x }
{
    match place_of(&found.places, vertex) {
        Some(place) => &found.reached[place].starts,
        None => &[],
    }
}

/// Puts an edge among those that wait, if it begins where something is
/// reached and its end is not nearer.
pub(crate) fn offer(
    edge: Edge,
    found: &FoundPaths,
    waits: &mut Candidates,
) -> Result<(), AllocError>
    requires places { HasPlaces found.now }
    requires near { AreNear found.now.reached.items }
    ensures { OnOk result (OffersIn found.now (edge ∷ []) waits.old waits.new) }
{
    let Some(distance) = distance_of(found, edge.from) else {
        return Ok(());
    };
    let way = distance + edge.cost as u64;
    if is_nearer(found, edge.to, way) {
        return Ok(());
    }
    waits.push(SpfCandidate {
        distance: way,
        edge,
    })?;
    Ok(())
}

/// Puts those of some edges among those that wait that may bring their ends nearer, or more starts.
pub(crate) fn offer_all(
    some: &[Edge],
    found: &FoundPaths,
    waits: &mut Candidates,
) -> Result<(), AllocError>
    requires places { HasPlaces found.now }
    requires near { AreNear found.now.reached.items }
    ensures { OnOk result (OffersIn found.now some.now waits.old waits.new) }
{
    for edge in some {
        offer(*edge, found, waits)?;
    }
    Ok(())
}

/// Takes waiting edges until none is left, this many were taken, or one leads too far. Returns
/// whether none is left. Vertices that come nearer or get more starts are appended to `changed`.
pub(crate) fn settle(
    alloc: Global,
    edges: &[Edge],
    most: u64,
    found: &mut FoundPaths,
    waits: &mut Candidates,
    changed: &mut Vec<Vertex>,
) -> Result<bool, AllocError>
    // The edges are in order, and what is found is found by its place, below the limit.
    requires in_order { AreEdgesInOrder edges.now }
    requires near { AreNear found.old.reached.items }
    requires places { HasPlaces found.old }
    // Where none waits any more, the edges owe nothing.
    ensures settles { OnOkTrue result (PaysAll edges.now waits.old found.old found.new) }
    // What is found stays below the limit and in its places.
    ensures near { OnOk result (AreNear found.new.reached.items) }
    ensures places { OnOk result (HasPlaces found.new) }
    // Only vertices that are appended to `changed` are found differently than before.
    ensures spares { OnOk result (SparesIn changed.new.items found.old found.new) }
    ensures changed { Extends changed.old.items changed.new.items }
{
    for _ in 0..most {
        let Some(candidate) = waits.take_least() else {
            return Ok(true);
        };
        if !take_edge(alloc, edges, candidate.edge, found, waits, changed)? {
            return Ok(false);
        }
    }
    Ok(false)
}

// Whether a vertex is reached nearer than this.
fn is_nearer(found: &FoundPaths, vertex: Vertex, way: u64) -> bool
    requires { HasPlaces found.now }
    ensures { IsTrue result → (near : ℕ) × (near < way) × IsAt found.now.reached.items vertex near }
{
    match distance_of(found, vertex) {
        Some(near) => near < way,
        None => false,
    }
}

// Takes an edge that waited. Whether its end is not too far.
fn take_edge(
    alloc: Global,
    edges: &[Edge],
    edge: Edge,
    found: &mut FoundPaths,
    waits: &mut Candidates,
    changed: &mut Vec<Vertex>,
) -> Result<bool, AllocError>
    // The edges are in order, and what is found is found by its place, below the limit.
    requires in_order { AreEdgesInOrder edges.now }
    requires near { AreNear found.old.reached.items }
    requires places { HasPlaces found.old }
    // The edge waits no more, and what it owed is paid in what is found or by edges that wait.
    ensures pays { OnOkTrue result (Pays edges.now edge found.old found.new waits.old waits.new) }
    // What is found stays below the limit and in its places.
    ensures near { OnOk result (AreNear found.new.reached.items) }
    ensures places { OnOk result (HasPlaces found.new) }
    // Only vertices that are appended to `changed` are found differently than before.
    ensures spares { OnOk result (SparesIn changed.new.items found.old found.new) }
    ensures changed { Extends changed.old.items changed.new.items }
{
    let Some(distance) = distance_of(found, edge.from) else {
        return Ok(true);
    };
    if distance + edge.cost as u64 >= MOST {
        return Ok(false);
    }
    step(alloc, edges, edge, distance, found, waits, changed)?;
    Ok(true)
}

// Takes an edge that waited, and offers the edges from its end, if that is
// reached nearer or from more starts.
fn step(
    alloc: Global,
    edges: &[Edge],
    edge: Edge,
    distance: u64,
    found: &mut FoundPaths,
    waits: &mut Candidates,
    changed: &mut Vec<Vertex>,
) -> Result<(), AllocError>
    // The edges are in order, and the edge leaves a vertex that is found at this distance.
    requires in_order { AreEdgesInOrder edges.now }
    requires at { IsAt found.old.reached.items edge.from distance }
    requires small { distance + edge.cost < 2 ^ 63 }
    // What is found is below the limit, and in its places.
    requires near { AreNear found.old.reached.items }
    requires places { HasPlaces found.old }
    // The edge waits no more, and what it owed is paid in what is found or by edges that wait.
    ensures pays { OnOk result (Pays edges.now edge found.old found.new waits.old waits.new) }
    // What is found stays below the limit and in its places.
    ensures near { OnOk result (AreNear found.new.reached.items) }
    ensures places { OnOk result (HasPlaces found.new) }
    // Only vertices that are appended to `changed` are found differently than before.
    ensures spares { OnOk result (SparesIn changed.new.items found.old found.new) }
    ensures changed { Extends changed.old.items changed.new.items }
{
    if relax(alloc, edge, distance, found)? {
        offer_all(edges_from(edges, edge.to), found, waits)?;
        changed.push(edge.to)?;
    }
    Ok(())
}

// Takes an edge. Whether its end is reached nearer than before, or from more starts.
fn relax(
    alloc: Global,
    edge: Edge,
    distance: u64,
    found: &mut FoundPaths,
) -> Result<bool, AllocError>
    // The edge leaves a vertex that is found at this distance.
    requires at { IsAt found.old.reached.items edge.from distance }
    requires near { distance + edge.cost < 2 ^ 63 }
    requires places { HasPlaces found.old }
    // Its end is nearer, or has more starts; else nothing changes, and it is relaxed.
    ensures improves { OnOkTrue result (ImprovesIn edge distance found.old found.new) }
    ensures same { OnOkFalse result (found.new ≡ found.old) }
    ensures relaxed { OnOkFalse result (IsRelaxedIn found.old edge distance) }
    // What is found stays in its places.
    ensures places { OnOk result (HasPlaces found.new) }
{
    let way = distance + edge.cost as u64;
    let Some(to) = place_of(&found.places, edge.to) else {
        relax_new(alloc, edge, distance, found)?;
        return Ok(true);
    };
    let near = found.reached[to].distance;
    if near < way {
        return Ok(false);
    }
    if way < near {
        relax_nearer(alloc, edge, distance, to, found)?;
        return Ok(true);
    }
    relax_level(alloc, edge, distance, to, found)
}

// Takes an edge whose end is not reached.
fn relax_new(
    alloc: Global,
    edge: Edge,
    distance: u64,
    found: &mut FoundPaths,
) -> Result<(), AllocError>
    // Its end is not found yet, and its beginning is, at this distance.
    requires fresh { found_place found.old edge.to ≡ None }
    requires at { IsAt found.old.reached.items edge.from distance }
    requires near { distance + edge.cost < 2 ^ 63 }
    requires places { HasPlaces found.old }
    // Then its end is found over it.
    ensures improves { OnOk result (ImprovesIn edge distance found.old found.new) }
    ensures places { OnOk result (HasPlaces found.new) }
{
    let to = found.reached.len();
    let way = distance + edge.cost as u64;
    reach(alloc, &mut found.reached, &mut found.places, edge.to, way)?;
    bring(alloc, &mut found.reached, &found.places, edge, to)?;
    Ok(())
}

// Takes an edge that leads nearer to its end.
fn relax_nearer(
    alloc: Global,
    edge: Edge,
    distance: u64,
    to: usize,
    found: &mut FoundPaths,
) -> Result<(), AllocError>
    // Both ends are found, and the way over the edge is the shorter one.
    requires place { found_place found.old edge.to ≡ Some to }
    requires at { IsAt found.old.reached.items edge.from distance }
    requires farther { (j : ℕ) → IsAt found.old.reached.items edge.to j → distance + edge.cost < j }
    // It is below the limit.
    requires near { distance + edge.cost < 2 ^ 63 }
    requires places { HasPlaces found.old }
    // Then its end is found over it, and no longer over others.
    ensures improves { OnOk result (ImprovesIn edge distance found.old found.new) }
    ensures places { OnOk result (HasPlaces found.new) }
{
    reset_at(found, to, distance + edge.cost as u64);
    bring(alloc, &mut found.reached, &found.places, edge, to)?;
    Ok(())
}

// Puts the vertex at this place nearer, with no start.
fn reset_at(found: &mut FoundPaths, place: usize, way: u64)
    // A vertex is found at this place.
    requires place { place < length found.old.reached.items }
    requires places { HasPlaces found.old }
    // It is at the new distance, without starts, and all others are as they were.
    ensures reset { ResetsAt place way found.old found.new }
    ensures same { found.new.places ≡ found.old.places }
    ensures places { HasPlaces found.new }
{
    reset(&mut found.reached[place], way);
}

// Puts a vertex nearer, with no start.
fn reset(one: &mut Reached, way: u64)
    ensures vertex { one.new.vertex ≡ one.old.vertex }
    ensures distance { one.new.distance ≡ way }
    ensures starts { one.new.starts.items ≡ [] }
{
    one.distance = way;
    one.starts.clear();
    one.in_order = 0;
}

// Takes an edge that leads to its end as near as it is reached. Whether it brings a start.
fn relax_level(
    alloc: Global,
    edge: Edge,
    distance: u64,
    to: usize,
    found: &mut FoundPaths,
) -> Result<bool, AllocError>
    // Both ends are found, and the way over the edge is as long as the shortest.
    requires place { found_place found.old edge.to ≡ Some to }
    requires at { IsAt found.old.reached.items edge.from distance }
    requires level { IsAt found.old.reached.items edge.to (distance + edge.cost) }
    requires places { HasPlaces found.old }
    // Its end gets the starts that it lacked; else nothing changes, and it is relaxed.
    ensures improves { OnOkTrue result (ImprovesIn edge distance found.old found.new) }
    ensures same { OnOkFalse result (found.new ≡ found.old) }
    ensures relaxed { OnOkFalse result (IsRelaxedIn found.old edge distance) }
    // What is found stays in its places.
    ensures places { OnOk result (HasPlaces found.new) }
{
    if brings_nothing(found, edge, to) {
        return Ok(false);
    }
    bring(alloc, &mut found.reached, &found.places, edge, to)?;
    Ok(true)
}

// Whether an edge brings no start that its end has not.
fn brings_nothing(found: &FoundPaths, edge: Edge, to: usize) -> bool
    requires place { found_place found.now edge.to ≡ Some to }
    requires places { HasPlaces found.now }
    ensures { IsTrue result → BringsNothing found.now edge }
{
    let Some(from) = place_of(&found.places, edge.from) else {
        return true;
    };
    are_there(&found.reached[from].starts, edge, &found.reached[to].starts)
}

// Whether each start, one edge further, is among others.
fn are_there(starts: &[Start], edge: Edge, there: &[Start]) -> bool
    ensures { IsTrue result → AreThere edge starts.now there.now }
{
    starts.iter().all(|start| has_extended(there, *start, edge))
}

// Whether a start, one edge further, is among these.
fn has_extended(there: &[Start], start: Start, edge: Edge) -> bool
    ensures { IsTrue result ↔ Contains there.now (extend start edge.to edge.link_data) }
{
    there.contains(&extended(start, edge.to, edge.link_data))
}
