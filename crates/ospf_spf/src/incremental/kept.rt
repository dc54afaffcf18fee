//! The shortest paths from a vertex, stored with their edges, so that edges can be added and
//! removed.

ghost use Rattle.std.specs.Prelude.{◌≡◌, ◌++◌, ◌<◌, ◌↔◌, ◌^◌, ℕ, All, Contains, IsPermutation, IfOk, IfSome, OnOk, Some};
ghost use Rattle.ospf_spf.specs.IncrementalSpf.Growth.{Extends};
ghost use Rattle.ospf_graph.specs.Paths.{AreLeastOver, AreSettledInOrder, AreStartsInOrder, IsTreeOver};
ghost use Rattle.ospf_graph.specs.Adds.{Adds};
ghost use Rattle.ospf_spf.specs.IncrementalSpf.Kept.{AddsEdge, ChangesEdges, IsKeptTree, IsSameBut, vertices_of};
ghost use Rattle.ospf_graph.specs.Search.{AreEdgesInOrder, AtIn, AreFitEdges, StartsIn, vertex_id};
ghost use Rattle.ospf_spf.specs.IncrementalSpf.Left.{LeadBack};
ghost use Rattle.ospf_spf.specs.IncrementalSpf.Shrinking.{TakesEdges};
ghost use Rattle.ospf_graph.specs.declared.graph.Start.{Start};

use crate::incremental::grow::{FoundPaths, distance_of, offer_all, settle, starts_of};
use crate::incremental::left::{LeftPaths, regrown};
use crate::incremental::shrink::{behind, has_in_order, is_closed, leave, left_of, offer_to};
use ospf_graph::{
    Candidates, Edge, Reached, ShortestPaths, Start, Vertex, listed, search, sorted_edges,
    vertex_order,
};
use std::alloc::{AllocError, Global};
use std::marker::Model;

/// The shortest paths from a root over a list of edges, stored so that edges can be added
/// and removed (RFC 2328, section 16.1).
#[derive(Drop)]
pub struct KeptPaths {
    root: Vertex,
    edges: Vec<Edge>,
    found: FoundPaths,
}

impl Model for KeptPaths {
    ghost use Rattle.ospf_spf.specs.IncrementalSpf.Kept.{AreKeptPaths, KeptTree};
    ghost use Rattle.ospf_graph.specs.Reached.{settled_of, starts_of};

    ghost Value = { KeptTree };

    ghost view = { λ k. record {
      root = k.root;
      edges = k.edges.items;
      settled = settled_of k.found.reached.items;
      starts = starts_of k.found.reached.items;
    } };

    ghost invariant = { λ k. AreKeptPaths k.root k.edges.items k.found };
}

impl KeptPaths {
    /// The shortest paths from a root over a list of edges (RFC 2328, section 16.1).
    ///
    /// `AllocError` where memory runs out.
    pub fn of(alloc: Global, edges: &[Edge], root: Vertex) -> Result<KeptPaths, AllocError>
        // The edges and the root are those of an area.
        requires fit { AreFitEdges edges.now }
        requires root_fits { vertex_id root < 2 ^ 32 }
        // The result is the tree of shortest paths from this root over exactly these edges.
        ensures root { IfOk result (λ k. k.root ≡ root) }
        ensures edges { IfOk result (λ k. IsPermutation edges.now k.edges) }
        ensures tree { IfOk result (λ k. IsKeptTree k) }
    {
        let sorted = sorted_edges(alloc, edges)?;
        anew(alloc, sorted, root)
    }

    /// The distance of a vertex from the root, if some path reaches it.
    pub fn distance_of(&self, vertex: Vertex) -> Option<u64>
        ensures distance { (d : ℕ) → (result ≡ Some d) ↔ AtIn self.now.settled vertex d }
        ensures near { IfSome result (λ d. d < 2 ^ 63) }
        ensures tree { IsKeptTree self.now }
    {
        distance_of(&self.found, vertex)
    }

    /// The starts of the least paths to a vertex, some perhaps more than once.
    pub fn starts_of(&self, vertex: Vertex) -> &[Start]
        ensures starts { (x : Start) → Contains result.now x ↔ StartsIn self.now.starts vertex x }
        ensures tree { IsKeptTree self.now }
    {
        starts_of(&self.found, vertex)
    }

    /// What `shortest_paths` finds over the edges, in the order of vertices, without a
    /// search: no candidate was looked at.
    ///
    /// `AllocError` where memory runs out.
    pub fn shortest(&self, alloc: Global) -> Result<ShortestPaths, AllocError>
        // The result is the tree of shortest paths, and so all that is reached, at least cost.
        ensures tree { IfOk result (IsTreeOver self.now.edges self.now.root) }
        ensures least { IfOk result (AreLeastOver self.now.edges self.now.root) }
        // No distance is past the limit, and all that is stored is listed, in the order of
        // vertices.
        ensures near { IfOk result (λ t. All (λ s. s.distance < 2 ^ 63) t.settled.items) }
        ensures settled { IfOk result (λ t. IsPermutation self.now.settled t.settled.items) }
        ensures starts { IfOk result (λ t. IsPermutation self.now.starts t.starts.items) }
        ensures settled_in_order { IfOk result (λ t. AreSettledInOrder t.settled.items) }
        ensures starts_in_order { IfOk result (λ t. AreStartsInOrder t.starts.items) }
        // No candidate was looked at.
        ensures looks { IfOk result (λ t. t.looks ≡ 0) }
    {
        let paths = listed(alloc, &self.found.reached, 0)?;
        Ok(paths)
    }

    /// The shortest paths with more edges. It starts from the stored paths, and visits only
    /// vertices that the new edges bring nearer or give more starts. Those vertices are appended to
    /// `changed`, some perhaps more than once. If this takes as many steps as there are edges, or a
    /// path is too long, the search starts from scratch, and all vertices that are reached are
    /// appended.
    ///
    /// `AllocError` when memory runs out: the paths are lost then, and
    /// `changed` may have got some vertices.
    pub fn grow(
        self,
        alloc: Global,
        more: &[Edge],
        changed: &mut Vec<Vertex>,
    ) -> Result<KeptPaths, AllocError>
        requires fit { AreFitEdges more.now }
        // The result is the tree of shortest paths from the same root, over the added edges too.
        ensures root { IfOk result (λ k. k.root ≡ self.root) }
        ensures edges { IfOk result (λ k. Adds (Contains more.now) self.edges k.edges) }
        ensures tree { IfOk result (λ k. IsKeptTree k) }
        // Only vertices that are appended to `changed` are reached differently than before.
        ensures same { IfOk result (λ k. IsSameBut changed.new.items self k) }
        ensures changed { Extends changed.old.items changed.new.items }
    {
        let root = self.root;
        let mut edges = self.edges;
        let mut found = self.found;
        insert_all(&mut edges, more)?;
        let mut waits = Candidates::new(alloc);
        offer_all(more, &found, &mut waits)?;
        // As many as there are edges, and the look that finds none waiting.
        let most = edges.len() as u64 + 1;
        if settle(alloc, &edges, most, &mut found, &mut waits, changed)? {
            return Ok(KeptPaths { root, edges, found });
        }
        let paths = anew(alloc, edges, root)?;
        push_vertices(&paths.found.reached, changed)?;
        Ok(paths)
    }

    /// The shortest paths without some edges. Only vertices that some least path reached over one
    /// of them are removed, and then searched for again from what is left. They are appended to
    /// `changed`, some perhaps more than once, and some perhaps with the same distance and starts
    /// as before. If this takes as many steps as there are edges, or a path is too long, the search
    /// starts from scratch, and all vertices that were reached are appended.
    ///
    /// `AllocError` when memory runs out: the paths are lost then, and
    /// `changed` may have got some vertices.
    pub fn shrink(
        self,
        alloc: Global,
        less: &[Edge],
        changed: &mut Vec<Vertex>,
    ) -> Result<KeptPaths, AllocError>
        // The result is the tree of shortest paths from the same root, over the edges left.
        ensures root { IfOk result (λ k. k.root ≡ self.root) }
        ensures edges { IfOk result (λ k. TakesEdges less.now self.edges k.edges) }
        ensures tree { IfOk result (λ k. IsKeptTree k) }
        // Only vertices that are appended to `changed` are reached differently than before.
        ensures same { IfOk result (λ k. IsSameBut changed.new.items self k) }
        ensures changed { Extends changed.old.items changed.new.items }
    {
        let root = self.root;
        let whole = self.edges;
        let mut found = self.found;
        let gone = behind(alloc, &whole, less, &found)?;
        let edges = left_of(alloc, &whole, less)?;
        if !is_closed(&found, &whole, less, &gone, root) {
            push_vertices(&found.reached, changed)?;
            let paths = anew(alloc, edges, root)?;
            return Ok(paths);
        }
        leave(&gone, &mut found, changed)?;
        let mut waits = Candidates::new(alloc);
        offer_to(&gone, &edges, &found, &mut waits)?;
        // As many as there are edges, and the look that finds none waiting.
        let most = edges.len() as u64 + 1;
        if settle(alloc, &edges, most, &mut found, &mut waits, changed)? {
            return Ok(KeptPaths { root, edges, found });
        }
        push_vertices(&found.reached, changed)?;
        let paths = anew(alloc, edges, root)?;
        Ok(paths)
    }

    /// The shortest paths without some edges; these paths stay unchanged. As `shrink`, but of the
    /// vertices that stay it copies only the root and those at the other ends of edges to removed
    /// vertices, and it looks only at edges of these and of the removed vertices. If a test at run
    /// time does not show that nothing else was reached, or it takes too many steps, the search
    /// starts from scratch. For each stored edge there must be one that leads back.
    ///
    /// `AllocError` when memory runs out; `changed` may have got some vertices then.
    pub fn without<'a>(
        &'a self,
        alloc: Global,
        less: &'a [Edge],
        changed: &mut Vec<Vertex>,
    ) -> Result<LeftPaths<'a>, AllocError>
        requires both_ways { LeadBack self.now.edges }
        // The result is the tree of shortest paths from the same root, over the edges left.
        ensures root { IfOk result (λ k. k.root ≡ self.now.root) }
        ensures edges { IfOk result (λ k. TakesEdges less.now self.now.edges k.edges) }
        ensures tree { IfOk result (λ k. IsKeptTree k) }
        // Only vertices that are appended to `changed` are reached differently than before.
        ensures same { IfOk result (λ k. IsSameBut changed.new.items self.now k) }
        ensures changed { Extends changed.old.items changed.new.items }
    {
        let gone = behind(alloc, &self.edges, less, &self.found)?;
        if is_closed(&self.found, &self.edges, less, &gone, self.root) {
            let grown = regrown(alloc, &self.edges, &self.found, self.root, less, &gone)?;
            if let Some(own) = grown {
                changed.extend_from_slice(&gone)?;
                return Ok(LeftPaths {
                    whole: self,
                    less,
                    is_all: false,
                    gone,
                    own,
                });
            }
        }
        push_vertices(&self.found.reached, changed)?;
        let edges = left_of(alloc, &self.edges, less)?;
        let paths = anew(alloc, edges, self.root)?;
        Ok(LeftPaths {
            whole: self,
            less,
            is_all: true,
            gone: Vec::new(alloc),
            own: paths.found,
        })
    }

    /// The shortest paths without some edges and with others: `shrink`, if there
    /// are edges that go, and `grow`.
    ///
    /// `AllocError` where memory runs out: the paths are gone then, and
    /// `changed` may have got some vertices.
    pub fn change(
        self,
        alloc: Global,
        less: &[Edge],
        more: &[Edge],
        changed: &mut Vec<Vertex>,
    ) -> Result<KeptPaths, AllocError>
        requires fit { AreFitEdges more.now }
        // The result is the tree of shortest paths from the same root, over the changed edges.
        ensures root { IfOk result (λ k. k.root ≡ self.root) }
        ensures edges { IfOk result (λ k. ChangesEdges less.now more.now self.edges k.edges) }
        ensures tree { IfOk result (λ k. IsKeptTree k) }
        // Only vertices that are appended to `changed` are reached differently than before.
        ensures same { IfOk result (λ k. IsSameBut changed.new.items self k) }
        ensures changed { Extends changed.old.items changed.new.items }
    {
        if less.is_empty() {
            let paths = self.grow(alloc, more, changed)?;
            return Ok(paths);
        }
        let left = self.shrink(alloc, less, changed)?;
        let paths = left.grow(alloc, more, changed)?;
        Ok(paths)
    }
}

// The shortest paths, by a search.
fn anew(alloc: Global, edges: Vec<Edge>, root: Vertex) -> Result<KeptPaths, AllocError>
    // The edges and the root are those of an area, in order.
    requires fit { AreFitEdges edges.items }
    requires root_fits { vertex_id root < 2 ^ 32 }
    requires in_order { AreEdgesInOrder edges.items }
    // What is kept is the tree of shortest paths from this root over just these edges.
    ensures root { IfOk result (λ k. k.root ≡ root) }
    ensures edges { IfOk result (λ k. k.edges ≡ edges.items) }
    ensures tree { IfOk result (λ k. IsKeptTree k) }
{
    let found = search(alloc, &edges, root)?;
    Ok(KeptPaths {
        root,
        edges,
        found: FoundPaths {
            reached: found.reached,
            places: found.places,
        },
    })
}

// Puts edges where they belong, each once.
fn insert_all(edges: &mut Vec<Edge>, more: &[Edge]) -> Result<(), AllocError>
    requires { AreEdgesInOrder edges.old.items }
    ensures in_order { OnOk result (AreEdgesInOrder edges.new.items) }
    ensures members { OnOk result (Adds (Contains more.now) edges.old.items edges.new.items) }
{
    for edge in more {
        insert_edge(edges, *edge)?;
    }
    Ok(())
}

// Puts an edge where it belongs, unless it is there.
fn insert_edge(edges: &mut Vec<Edge>, edge: Edge) -> Result<(), AllocError>
    requires { AreEdgesInOrder edges.old.items }
    ensures in_order { OnOk result (AreEdgesInOrder edges.new.items) }
    ensures members { OnOk result (AddsEdge edge edges.old.items edges.new.items) }
{
    if has_in_order(edges, edge) {
        return Ok(());
    }
    let order = vertex_order(edge.from);
    let place = edges.partition_point(|e| vertex_order(e.from) <= order);
    edges.insert(place, edge)?;
    Ok(())
}

// Appends the vertices that are reached to others.
fn push_vertices(reached: &[Reached], vertices: &mut Vec<Vertex>) -> Result<(), AllocError>
    ensures all { OnOk result (vertices.new.items ≡ vertices.old.items ++ vertices_of reached.now) }
    ensures behind { Extends vertices.old.items vertices.new.items }
{
    for one in reached {
        vertices.push(one.vertex)?;
    }
    Ok(())
}
