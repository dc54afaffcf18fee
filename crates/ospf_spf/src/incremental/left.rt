//! What is left of shortest paths when edges are removed, without changing the stored paths: what a
//! least path reached over one of them is searched for again, and all else is as before.

ghost use Rattle.std.specs.Prelude.{◌≡◌, ◌↔◌, ◌<◌, ◌^◌, ℕ, Contains, IfOk, IfSome, IsTrue, OnOk, Some};
ghost use Rattle.ospf_graph.specs.Search.{AreEdgesInOrder, AtIn, StartsIn};
ghost use Rattle.ospf_graph.specs.declared.graph.Start.{Start};
ghost use Rattle.ospf_graph.specs.declared.graph.Vertex.{Vertex};
ghost use Rattle.ospf_spf.specs.IncrementalSpf.Growth.{AreNear, HasPlaces};
ghost use Rattle.ospf_spf.specs.IncrementalSpf.Kept.{KeptTree};
ghost use Rattle.ospf_spf.specs.IncrementalSpf.Left.{AddsEdgesTo, AreBeside, AreCopies, AreEdgesTo, AreFarEnds, Copies, IsLeftKept, IsRegrown, LeadBack, is_anew};
ghost use Rattle.ospf_spf.specs.IncrementalSpf.Shrinking.{AreVerticesInOrder};

use crate::incremental::grow::{FoundPaths, distance_of, offer_all, settle, starts_of};
use crate::incremental::kept::KeptPaths;
use crate::incremental::shrink::is_among;
use ospf_graph::{Candidates, Edge, Reached, Start, Vertex, edges_from, place_of, vertex_order};
use std::alloc::{AllocError, Global};
use std::collections::HashMap;
use std::marker::Model;

/// Shortest paths from a root, however they are held.
pub trait Paths {
    // Their root and edges, and what is reached over these.
    ghost kept: { Self → KeptTree };

    /// The distance of a vertex from the root, if some path reaches it.
    fn distance(&self, vertex: Vertex) -> Option<u64>
        ensures distance { (d : ℕ) → (result ≡ Some d) ↔ AtIn (kept self.now).settled vertex d }
        ensures near { IfSome result (λ d. d < 2 ^ 63) };

    /// The starts of the least paths to a vertex, some perhaps more than once.
    fn starts(&self, vertex: Vertex) -> &[Start]
        ensures { (x : Start) → Contains result.now x
            ↔ StartsIn (kept self.now).starts vertex x };
}

impl Paths for KeptPaths {
    ghost kept = { λ k. k };

    fn distance(&self, vertex: Vertex) -> Option<u64> {
        self.distance_of(vertex)
    }

    fn starts(&self, vertex: Vertex) -> &[Start] {
        self.starts_of(vertex)
    }
}

/// The shortest paths without some edges, alongside those with them.
#[derive(Drop)]
pub struct LeftPaths<'a> {
    pub(crate) whole: &'a KeptPaths,
    pub(crate) less: &'a [Edge],
    // What is searched for again: all, or these vertices, in order.
    pub(crate) is_all: bool,
    pub(crate) gone: Vec<Vertex>,
    // It also holds others, from which the search started.
    pub(crate) own: FoundPaths,
}

impl<'a> Model for LeftPaths<'a> {
    ghost use Rattle.ospf_spf.specs.IncrementalSpf.Kept.{KeptTree};
    ghost use Rattle.ospf_spf.specs.IncrementalSpf.Left.{IsLeftKept, left_kept};

    ghost Value = { KeptTree };

    ghost view = { λ p. left_kept p.whole.now p.less.now p.is_all p.gone.items
        p.own.reached.items };

    ghost invariant = { λ p. IsLeftKept p.gone.items p.own };
}

impl<'a> Paths for LeftPaths<'a> {
    ghost kept = { λ p. p };

    fn distance(&self, vertex: Vertex) -> Option<u64> {
        if is_anew(self.is_all, &self.gone, vertex) {
            distance_of(&self.own, vertex)
        } else {
            self.whole.distance_of(vertex)
        }
    }

    fn starts(&self, vertex: Vertex) -> &[Start] {
        if is_anew(self.is_all, &self.gone, vertex) {
            starts_of(&self.own, vertex)
        } else {
            self.whole.starts_of(vertex)
        }
    }
}

// Whether a vertex was searched for again: because all were, or as one of these.
fn is_anew(is_all: bool, gone: &[Vertex], vertex: Vertex) -> bool
    requires { AreVerticesInOrder gone.now }
    ensures { result ≡ is_anew is_all gone.now vertex }
{
    is_all || is_among(gone, vertex)
}

/// The paths to vertices that are gone, over edges that are left, and to the other ends of these;
/// nothing where that takes too long.
pub(crate) fn regrown(
    alloc: Global,
    edges: &[Edge],
    found: &FoundPaths,
    root: Vertex,
    less: &[Edge],
    gone: &[Vertex],
) -> Result<Option<FoundPaths>, AllocError>
    requires in_order { AreEdgesInOrder edges.now }
    requires both_ways { LeadBack edges.now }
    requires places { HasPlaces found.now }
    requires near { AreNear found.now.reached.items }
    requires gone { AreVerticesInOrder gone.now }
    // Of a tree that is closed at the vertices it is a tree of what is left, in its places.
    ensures regrown { IfOk result (λ o. IfSome o
        (IsRegrown edges.now less.now root gone.now found.now)) }
    ensures kept { IfOk result (λ o. IfSome o (IsLeftKept gone.now)) }
{
    let inner = edges_to(alloc, edges, less, gone)?;
    let mut own = beside(alloc, found, root, &inner, gone)?;
    let mut waits = Candidates::new(alloc);
    offer_all(&inner, &own, &mut waits)?;
    // As many as there are edges, and the look that finds none waiting.
    let most = edges.len() as u64 + 1;
    let mut touched = Vec::new(alloc);
    if settle(alloc, &inner, most, &mut own, &mut waits, &mut touched)?
        && are_among(gone, &touched)
    {
        Ok(Some(own))
    } else {
        Ok(None)
    }
}

// The edges that are left and end at vertices that are gone, in order: each begins where an edge
// from one of these ends, and the edges from there are gone through once.
fn edges_to(
    alloc: Global,
    edges: &[Edge],
    less: &[Edge],
    gone: &[Vertex],
) -> Result<Vec<Edge>, AllocError>
    requires in_order { AreEdgesInOrder edges.now }
    requires both_ways { LeadBack edges.now }
    requires gone { AreVerticesInOrder gone.now }
    // They are these exactly.
    ensures in_order { IfOk result (λ ends. AreEdgesInOrder ends.items) }
    ensures members { IfOk result (λ ends. AreEdgesTo edges.now less.now gone.now ends.items) }
{
    let far = far_ends(alloc, edges, gone)?;
    let mut ends = Vec::new(alloc);
    for vertex in &far {
        add_edges_to(edges_from(edges, *vertex), less, gone, &mut ends)?;
    }
    ends.sort_unstable_by_key(|e| vertex_order(e.from));
    Ok(ends)
}

// The other ends of the edges that leave these vertices, each once.
fn far_ends(alloc: Global, edges: &[Edge], gone: &[Vertex]) -> Result<Vec<Vertex>, AllocError>
    requires { AreEdgesInOrder edges.now }
    ensures { IfOk result (λ far. AreFarEnds edges.now gone.now far.items) }
{
    let mut far = Vec::new(alloc);
    for vertex in gone {
        add_far_ends(edges_from(edges, *vertex), &mut far)?;
    }
    far.sort_unstable_by_key(|vertex| vertex_order(*vertex));
    far.dedup();
    Ok(far)
}

// Adds the other ends of some edges.
fn add_far_ends(some: &[Edge], far: &mut Vec<Vertex>) -> Result<(), AllocError>
    ensures kept { OnOk result ((v : Vertex) → Contains far.old.items v →
        Contains far.new.items v) }
    ensures added { OnOk result ((e : Edge) → Contains some.now e → Contains far.new.items e.to) }
{
    for edge in some {
        far.push(edge.to)?;
    }
    Ok(())
}

// Adds those of some edges that are left and end at vertices that are gone.
fn add_edges_to(
    some: &[Edge],
    less: &[Edge],
    gone: &[Vertex],
    ends: &mut Vec<Edge>,
) -> Result<(), AllocError>
    requires { AreVerticesInOrder gone.now }
    ensures { OnOk result (AddsEdgesTo some.now less.now gone.now ends.old.items
        ends.new.items) }
{
    for edge in some {
        if is_among(gone, edge.to) && !less.contains(edge) {
            ends.push(*edge)?;
        }
    }
    Ok(())
}

// What is found of the root and of where some edges begin, but for vertices that are gone.
fn beside(
    alloc: Global,
    found: &FoundPaths,
    root: Vertex,
    some: &[Edge],
    gone: &[Vertex],
) -> Result<FoundPaths, AllocError>
    requires places { HasPlaces found.now }
    requires near { AreNear found.now.reached.items }
    requires gone { AreVerticesInOrder gone.now }
    // Copies of them, and of no vertex that is gone, in their places.
    ensures beside { IfOk result (λ own. AreBeside found.now.reached.items root some.now gone.now
        own.reached.items) }
    ensures places { IfOk result (λ own. HasPlaces own) }
    ensures near { IfOk result (λ own. AreNear own.reached.items) }
{
    let mut own = FoundPaths {
        reached: Vec::new(alloc),
        places: HashMap::new(alloc),
    };
    copy_to(alloc, found, root, &mut own)?;
    for edge in some {
        if !is_among(gone, edge.from) {
            copy_to(alloc, found, edge.from, &mut own)?;
        }
    }
    Ok(own)
}

// Copies what is found of a vertex, unless it is there.
fn copy_to(
    alloc: Global,
    found: &FoundPaths,
    vertex: Vertex,
    own: &mut FoundPaths,
) -> Result<(), AllocError>
    requires places { HasPlaces found.now }
    requires near { AreNear found.now.reached.items }
    requires copies { AreCopies found.now.reached.items own.old.reached.items }
    requires own_places { HasPlaces own.old }
    requires own_near { AreNear own.old.reached.items }
    // It is found so here too, and the others as they were.
    ensures copies { OnOk result (Copies vertex found.now.reached.items own.old.reached.items
        own.new.reached.items) }
    ensures places { OnOk result (HasPlaces own.new) }
    ensures near { OnOk result (AreNear own.new.reached.items) }
{
    let Some(place) = place_of(&found.places, vertex) else {
        return Ok(());
    };
    if place_of(&own.places, vertex).is_some() {
        return Ok(());
    }
    let one = &found.reached[place];
    let starts = Vec::from_slice(alloc, &one.starts)?;
    own.places.insert(vertex_order(vertex), own.reached.len())?;
    own.reached.push(Reached {
        vertex: one.vertex,
        distance: one.distance,
        starts,
        in_order: one.in_order,
    })?;
    Ok(())
}

// Whether vertices are all among others.
fn are_among(gone: &[Vertex], some: &[Vertex]) -> bool
    requires { AreVerticesInOrder gone.now }
    ensures { IsTrue result → (v : Vertex) → Contains some.now v → Contains gone.now v }
{
    some.iter().all(|vertex| is_among(gone, *vertex))
}
