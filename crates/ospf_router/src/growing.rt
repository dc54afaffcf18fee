//! The tree of shortest paths that grows with its listing.

ghost use Rattle.std.specs.Prelude.{◌≡◌, ◌⊎◌, ℕ, List, Contains, Err, IfErr, IfOk, IfSome, IsTrue, OnOk};
ghost use Rattle.ospf_base.specs.Constants.{max_age};
ghost use Rattle.ospf_base.specs.declared.prefix.Prefix.{Prefix};
ghost use Rattle.ospf_graph.specs.EdgeLists.Listed.{advertisement_of, advertisements_of};
ghost use Rattle.ospf_graph.specs.Elsewhere.{vertex_of};
ghost use Rattle.ospf_graph.specs.Routes.{IsEnd, IsTable};
ghost use Rattle.ospf_graph.specs.Search.{AtIn};
ghost use Rattle.ospf_graph.specs.declared.graph.Edge.{Edge};
ghost use Rattle.ospf_lsa.specs.Header.{header_of};
ghost use Rattle.ospf_lsa.specs.Listing.{IsPut};
ghost use Rattle.ospf_lsa.specs.declared.listing.ListingFault.TheVariants as fault;
ghost use Rattle.ospf_spf.specs.Changes.{PutsHops, prefix_of};
ghost use Rattle.ospf_router.specs.Ends.{HoldsPrefixes};
ghost use Rattle.ospf_spf.specs.Spared.{IsRight, SparesBut};
ghost use Rattle.ospf_graph.specs.declared.graph.Vertex.{Vertex};
ghost use Rattle.ospf_router.specs.Growing.{AreGone, HasEndOf, HasSameEnds, IsAround, IsTurn, IsUntouched};

use crate::ends::replace_ends;
use ospf_base::{Kind, Prefix, RouterId};
use ospf_graph::edges::{End, edges_at, edges_of, ends_at, is_listed};
use ospf_graph::{Edge, Vertex};
use ospf_lsa::{Listing, ListingFault, Lsa};
use ospf_spf::incremental::KeptPaths;
use ospf_spf::{Change, RouteTable, ends_in_order, ends_to, route_by, table_of};
use std::alloc::{AllocError, Global};
use std::marker::Model;

/// A listing with the shortest paths from a router over its graph, stored so that LSAs can
/// be added (RFC 2328, section 16.1).
#[derive(Drop)]
pub(crate) struct GrowingTree {
    root: RouterId,
    listing: Listing,
    paths: KeptPaths,
    // Those of the listing, in the order of their prefixes.
    ends: Vec<End>,
}

impl Model for GrowingTree {
    ghost use Rattle.ospf_router.specs.Growing.{GrowingValue, IsGrownOver};

    ghost Value = { GrowingValue };

    ghost view = { λ t. record { root = t.root; listing = t.listing } };

    ghost invariant = { λ t. IsGrownOver t.root t.listing t.paths t.ends.items };
}

impl GrowingTree {
    /// The tree of a listing at a root.
    ///
    /// `AllocError` where memory runs out.
    pub(crate) fn of(
        alloc: Global,
        listing: Listing,
        root: RouterId,
    ) -> Result<GrowingTree, AllocError>
        ensures root { IfOk result (λ t. t.root ≡ root) }
        ensures listing { IfOk result (λ t. t.listing ≡ listing) }
    {
        let edges = edges_of(alloc, &listing)?;
        let paths = KeptPaths::of(alloc, &edges, Vertex::Router(root))?;
        let ends = ends_in_order(alloc, &listing)?;
        Ok(GrowingTree {
            root,
            listing,
            paths,
            ends,
        })
    }

    /// The listing.
    pub(crate) fn listing(&self) -> &Listing
        ensures { result.now ≡ self.now.listing }
    {
        &self.listing
    }

    /// The routing table of the listing at the tree's root (RFC 2328, sections 16.1 and 16.1.1). A
    /// root whose router-LSA is not listed reaches nothing.
    ///
    /// `AllocError` where memory runs out.
    pub(crate) fn routes(&self, alloc: Global) -> Result<RouteTable, AllocError>
        ensures { IfOk result (IsTable (advertisements_of self.now.listing) self.now.root) }
    {
        if !is_listed(&self.listing, self.root) {
            return Ok(RouteTable::empty(alloc));
        }
        let paths = self.paths.shortest(alloc)?;
        let routes = table_of(alloc, &paths, &self.ends)?;
        Ok(RouteTable::of_routes(routes))
    }

    /// The change that makes a table that table at a prefix: its route, or that there is none.
    ///
    /// `AllocError` where memory runs out.
    pub(crate) fn change_to(&self, alloc: Global, prefix: Prefix) -> Result<Change, AllocError>
        ensures prefix { IfOk result (λ change. prefix_of change ≡ prefix) }
        ensures right { IfOk result
            (IsRight (advertisements_of self.now.listing) self.now.root) }
        ensures hops { IfOk result (λ change. PutsHops change) }
    {
        if !is_listed(&self.listing, self.root) {
            return Ok(Change::Gone(prefix));
        }
        let found = route_by(alloc, prefix, ends_to(&self.ends, prefix), &self.paths)?;
        match found {
            Some(route) => Ok(Change::Put(route)),
            None => Ok(Change::Gone(prefix)),
        }
    }

    /// The tree once an LSA is put into its listing, in the place of the one of its key if
    /// one is listed. The paths grow from the existing ones, except for what depended on
    /// edges that are gone. The prefixes to which routes may have changed are appended to
    /// `touched`, some perhaps more than once.
    ///
    /// `MaxAge` where the age of the LSA is `MAX_AGE`, `Memory` where memory
    /// runs out; then the tree is gone.
    pub(crate) fn grow(
        self,
        alloc: Global,
        lsa: Lsa,
        touched: &mut Vec<Prefix>,
    ) -> Result<GrowingTree, ListingFault>
        // The root is unchanged, the LSA is in the listing, and routes change only at
        // prefixes that are touched.
        ensures root { IfOk result (λ t. t.root ≡ self.root) }
        ensures listing { IfOk result (λ t. IsPut lsa self.listing t.listing) }
        ensures spares { IfOk result (λ t. SparesBut touched.new.items
            (advertisements_of self.listing) (advertisements_of t.listing) self.root) }
        ensures touched { OnOk result (HoldsPrefixes touched.old.items touched.new.items) }
        // It fails when memory runs out, or for an LSA at the greatest age.
        ensures faults { IfErr result (λ f. (f ≡ fault.MaxAge) ⊎ (f ≡ fault.Memory)) }
        ensures max_age { result ≡ Err fault.MaxAge → (header_of lsa).age ≡ max_age }
    {
        let root = self.root;
        let vertex = vertex_of(&lsa);
        let Ok(before) = said_of(alloc, &self.listing, vertex, root) else {
            return Err(ListingFault::Memory);
        };
        let mut listing = self.listing;
        listing.put(lsa)?;
        let Ok(after) = said_of(alloc, &listing, vertex, root) else {
            return Err(ListingFault::Memory);
        };
        let turn = Turn {
            vertex,
            before,
            after,
        };
        match turned(alloc, root, listing, self.paths, self.ends, turn, touched) {
            Ok(grown) => Ok(grown),
            Err(AllocError) => Err(ListingFault::Memory),
        }
    }
}

// An LSA that is put: its vertex, and what the listings without it and with it say of that.
#[derive(Drop)]
struct Turn {
    vertex: Vertex,
    before: Around,
    after: Around,
}

// What a listing says of a vertex: the edges that touch it, the ends at it,
// and whether the root is listed.
#[derive(Drop)]
struct Around {
    edges: Vec<Edge>,
    ends: Vec<End>,
    has_root: bool,
}

// The vertex that an LSA is of.
fn vertex_of(lsa: &Lsa) -> Vertex
    ensures { result ≡ vertex_of (advertisement_of lsa.now) }
{
    let view = lsa.view();
    let key = view.key();
    match view.kind() {
        Kind::Router => Vertex::Router(key.router),
        Kind::Network => Vertex::Network(key.id),
    }
}

// What a listing says of a vertex, and whether it lists the root.
fn said_of(
    alloc: Global,
    listing: &Listing,
    vertex: Vertex,
    root: RouterId,
) -> Result<Around, AllocError>
    ensures { IfOk result (IsAround (advertisements_of listing.now) vertex root) }
{
    let edges = edges_at(alloc, listing, vertex)?;
    let ends = ends_at(alloc, listing, vertex)?;
    let has_root = is_listed(listing, root);
    Ok(Around {
        edges,
        ends,
        has_root,
    })
}

// The tree of the listing, by the paths and the ends of the listing before it.
fn turned(
    alloc: Global,
    root: RouterId,
    listing: Listing,
    paths: KeptPaths,
    ends: Vec<End>,
    turn: Turn,
    touched: &mut Vec<Prefix>,
) -> Result<GrowingTree, AllocError>
    requires { (old : List (List ℕ)) × IsTurn old listing root paths ends.items turn }
    ensures root { IfOk result (λ t. t.root ≡ root) }
    ensures listing { IfOk result (λ t. t.listing ≡ listing) }
    // Routes to prefixes that are not touched are those of before.
    ensures spares { (old : List (List ℕ)) → IsTurn old listing root paths ends.items turn →
        OnOk result (SparesBut touched.new.items (advertisements_of old) (advertisements_of listing)
        root) }
    ensures touched { OnOk result (HoldsPrefixes touched.old.items touched.new.items) }
{
    let gone = gone_of(alloc, &turn.before.edges, &turn.after.edges)?;
    let mut changed = Vec::new(alloc);
    let paths = paths.change(alloc, &gone, &turn.after.edges, &mut changed)?;
    let mut ends = ends;
    if is_same_answer(turn.before.has_root, turn.after.has_root) {
        touch_turn(alloc, &listing, &changed, &turn, &paths, touched)?;
    } else {
        touch(&ends, touched)?;
        touch(&turn.after.ends, touched)?;
    }
    if !are_same_ends(&turn.before.ends, &turn.after.ends) {
        replace_ends(&mut ends, turn.vertex, &turn.before.ends, &turn.after.ends)?;
    }
    Ok(GrowingTree {
        root,
        listing,
        paths,
        ends,
    })
}

// Appends the prefixes of ends to others.
fn touch(ends: &[End], touched: &mut Vec<Prefix>) -> Result<(), AllocError>
    ensures kept { OnOk result (HoldsPrefixes touched.old.items touched.new.items) }
    ensures ends { OnOk result ((p : Prefix) → HasEndOf ends.now p → Contains touched.new.items p) }
{
    for end in ends {
        touched.push(end.prefix)?;
    }
    Ok(())
}

// Appends the prefixes whose ends or vertices changed to others.
fn touch_turn(
    alloc: Global,
    listing: &Listing,
    changed: &[Vertex],
    turn: &Turn,
    paths: &KeptPaths,
    touched: &mut Vec<Prefix>,
) -> Result<(), AllocError>
    ensures kept { OnOk result (HoldsPrefixes touched.old.items touched.new.items) }
    ensures rest { OnOk result ((p : Prefix) → (Contains touched.new.items p → ⊥) →
        IsUntouched (advertisements_of listing.now) changed.now paths.now.settled turn.now p) }
{
    if changed.is_empty() && is_unreached(paths, turn.vertex) {
        return Ok(());
    }
    touch_own(turn, touched)?;
    touch_changed(alloc, listing, changed, touched)?;
    Ok(())
}

// Appends the prefixes of the vertex's ends to others, unless it has the same ends as before.
fn touch_own(turn: &Turn, touched: &mut Vec<Prefix>) -> Result<(), AllocError>
    ensures kept { OnOk result (HoldsPrefixes touched.old.items touched.new.items) }
    ensures own { OnOk result ((p : Prefix) → (Contains touched.new.items p → ⊥) →
        HasSameEnds turn.now p) }
{
    if are_same_ends(&turn.before.ends, &turn.after.ends) {
        return Ok(());
    }
    touch(&turn.before.ends, touched)?;
    touch(&turn.after.ends, touched)?;
    Ok(())
}

// Appends the prefixes of the ends at some vertices to others.
fn touch_changed(
    alloc: Global,
    listing: &Listing,
    changed: &[Vertex],
    touched: &mut Vec<Prefix>,
) -> Result<(), AllocError>
    ensures kept { OnOk result (HoldsPrefixes touched.old.items touched.new.items) }
    ensures changed { OnOk result ((p : Prefix) (v : Vertex) (c : ℕ) → Contains changed.now v →
        IsEnd (advertisements_of listing.now) p v c → Contains touched.new.items p) }
{
    for vertex in changed {
        let ends = ends_at(alloc, listing, *vertex)?;
        touch(&ends, touched)?;
    }
    Ok(())
}

// The edges that are not found among others in their order: those that are gone, and
// perhaps others that are elsewhere.
fn gone_of(alloc: Global, before: &[Edge], after: &[Edge]) -> Result<Vec<Edge>, AllocError>
    ensures { IfOk result (λ gone. AreGone before.now after.now gone.items) }
{
    let mut gone = Vec::new(alloc);
    let mut place = 0;
    for edge in before {
        match place_from(after, place, edge) {
            Some(at) => place = at,
            None => gone.push(*edge)?,
        }
    }
    Ok(gone)
}

// Where the edge is, from a place on.
fn place_from(edges: &[Edge], place: usize, edge: &Edge) -> Option<usize>
    ensures { IfSome result (λ _. Contains edges.now edge.now) }
{
    for at in place..edges.len() {
        if edges[at] == *edge {
            return Some(at);
        }
    }
    None
}

// Whether both say the same of the root.
fn is_same_answer(before: bool, after: bool) -> bool
    ensures { IsTrue result → before ≡ after }
{
    before == after
}

// Whether these are the same ends, in the same order.
fn are_same_ends(before: &[End], after: &[End]) -> bool
    ensures { IsTrue result → before.now ≡ after.now }
{
    before == after
}

// Whether no path reaches a vertex.
fn is_unreached(paths: &KeptPaths, vertex: Vertex) -> bool
    ensures { IsTrue result → (d : ℕ) → AtIn paths.now.settled vertex d → ⊥ }
{
    match paths.distance_of(vertex) {
        Some(_) => false,
        None => true,
    }
}
