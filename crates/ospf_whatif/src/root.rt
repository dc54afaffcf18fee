//! What a failure changes in the table of a router whose shortest paths are kept.

ghost use Rattle.std.specs.Prelude.{◌≡◌, ◌↔◌, ◌<◌, ℕ, List, All, AllPairs, Contains, IfOk, IsFalse, IsTrue, OnOk, length, slice_index_or};
ghost use Rattle.std.specs.List.Sorted.{IsNonDecreasing};
ghost use Rattle.ospf_base.specs.declared.ids.RouterId.{RouterId};
ghost use Rattle.ospf_graph.specs.EdgeLists.Listed.{advertisements_of};
ghost use Rattle.ospf_graph.specs.declared.edges.end.End.{End};
ghost use Rattle.ospf_graph.specs.Advertisements.{Advertisement};
ghost use Rattle.ospf_graph.specs.Routes.{IsRoute, IsRouteBefore, IsTable};
ghost use Rattle.ospf_graph.specs.Search.{AreEdgesInOrder, AtIn};
ghost use Rattle.ospf_graph.specs.declared.graph.Edge.{Edge};
ghost use Rattle.ospf_graph.specs.declared.route.Route.{Route};
ghost use Rattle.ospf_spf.specs.IncrementalSpf.Kept.{KeptTree};
ghost use Rattle.ospf_spf.specs.Spared.{AreEndsInOrder};
ghost use Rattle.ospf_whatif.specs.Effect.{IsEffectIn};
ghost use Rattle.ospf_whatif.specs.Laws.{IsOffLeastPaths};
ghost use Rattle.ospf_whatif.specs.Outage.{AddsLoss, AreChangesTo, AreMissing, AreOverLeft, HasOtherFrom, IsAreaGraph, IsLeftOver, IsLossBy, IsOutage, IsToldBy, MayChange, StaysOr, left_of_area};
ghost use Rattle.ospf_whatif.specs.Told.{IsLive};

use crate::effect::{Loss, RouteChange, place_to};
use crate::outage::{AreaGraph, Outage, ends_left};
use ospf_base::{Prefix, RouterId};
use ospf_graph::edges::{End, ends_at};
use ospf_graph::{Edge, Route, Vertex, edges_from, is_same};
use ospf_lsa::Listing;
use ospf_spf::incremental::{KeptPaths, Paths};
use ospf_spf::{RouteTable, ends_to, is_same_prefix, is_same_route, route_by};
use std::alloc::{AllocError, Global};

/// A router of an area with its shortest paths.
#[derive(Drop)]
pub struct KeptRoot {
    root: RouterId,
    paths: KeptPaths,
}

impl KeptRoot {
    ghost use Rattle.std.specs.Prelude.{◌≡◌, List, IfOk};
    ghost use Rattle.ospf_graph.specs.EdgeLists.Listed.{advertisements_of};
    ghost use Rattle.ospf_graph.specs.Advertisements.{Advertisement};
    ghost use Rattle.ospf_graph.specs.Routes.{IsTable};
    ghost use Rattle.ospf_whatif.specs.Effect.{IsEffectIn};
    ghost use Rattle.ospf_whatif.specs.Failure.{without_all};
    ghost use Rattle.ospf_whatif.specs.Outage.{IsAreaGraph, IsKeptRoot, IsOutage};

    /// A router of the area of this graph.
    ///
    /// `AllocError` where memory runs out.
    pub fn of(alloc: Global, area: &AreaGraph, root: RouterId) -> Result<KeptRoot, AllocError>
        requires { (adverts : List Advertisement) × IsAreaGraph adverts area.now }
        ensures root { IfOk result (λ kept. kept.root ≡ root) }
        ensures kept { IfOk result (λ kept. (adverts : List Advertisement) →
            IsAreaGraph adverts area.now → IsKeptRoot adverts kept) }
    {
        let paths = KeptPaths::of(alloc, &area.edges, Vertex::Router(root))?;
        Ok(KeptRoot { root, paths })
    }

    /// What happens to the routes of the router's table when failures take this from the area of a
    /// listing: each route that the table of the area after the failure does not have, once, in
    /// the order of prefixes. A failure makes no other prefix reachable, and none at a lower cost
    /// (`failures_take_away`). If no shortest path uses an edge that the failures take, there is no
    /// search, and only routes whose prefix loses an end are checked. Otherwise what was reached
    /// over such an edge is computed again, with copies of the root and of the vertices next to
    /// what is taken; if it takes too long to continue from these, all is computed from scratch.
    ///
    /// `AllocError` if memory runs out.
    pub fn effect(
        &self,
        alloc: Global,
        listing: &Listing,
        area: &AreaGraph,
        outage: &Outage,
        table: &RouteTable,
    ) -> Result<Vec<RouteChange>, AllocError>
        // The graph, what goes from it, the paths and the table are those of the listing's area.
        requires graph { IsAreaGraph (advertisements_of listing.now) area.now }
        requires outage { IsOutage (advertisements_of listing.now) outage.now }
        requires kept { IsKeptRoot (advertisements_of listing.now) self.now }
        requires table { IsTable (advertisements_of listing.now) self.now.root table.now }
        ensures { IfOk result (λ changes. IsEffectIn
            (without_all outage.now.failures.items (advertisements_of listing.now)) self.now.root
            table.now changes.items) }
    {
        if !is_used(&self.paths, &outage.edges) {
            return changes_over(alloc, listing, area, outage, &self.paths, &[], table);
        }
        let mut changed = Vec::new(alloc);
        let left = self.paths.without(alloc, &outage.edges, &mut changed)?;
        changes_over(alloc, listing, area, outage, &left, &changed, table)
    }
}

// Whether one of some edges is the last one of a least path.
fn is_used(paths: &KeptPaths, edges: &[Edge]) -> bool
    ensures { IsFalse result → (e : Edge) → Contains edges.now e →
        IsOffLeastPaths (AtIn paths.now.settled) e }
{
    for edge in edges {
        if is_last(paths, edge) {
            return true;
        }
    }
    false
}

// Whether an edge is the last one of a least path.
fn is_last(paths: &KeptPaths, edge: &Edge) -> bool
    ensures { IsFalse result → IsOffLeastPaths (AtIn paths.now.settled) edge.now }
{
    let Some(from) = paths.distance_of(edge.from) else {
        return false;
    };
    let Some(to) = paths.distance_of(edge.to) else {
        return false;
    };
    from + edge.cost as u64 == to
}

// What becomes of the routes of a table, by the paths over what is left, which reach no vertex
// otherwise than before but these.
fn changes_over<P: Paths>(
    alloc: Global,
    listing: &Listing,
    area: &AreaGraph,
    outage: &Outage,
    paths: &P,
    changed: &[Vertex],
    table: &RouteTable,
) -> Result<Vec<RouteChange>, AllocError>
    requires graph { IsAreaGraph (advertisements_of listing.now) area.now }
    requires outage { IsOutage (advertisements_of listing.now) outage.now }
    ensures { IfOk result (λ changes. (root : RouterId) (before : KeptTree) →
        IsLeftOver (advertisements_of listing.now) outage.now root changed.now before
        (P.kept paths.now) →
        IsTable (advertisements_of listing.now) root table.now →
        IsEffectIn (left_of_area (advertisements_of listing.now) outage.now) root table.now
        changes.items) }
{
    let routes = table.routes();
    let places = places_of(alloc, listing, &outage.ends, changed, routes)?;
    let changes = changes_at(alloc, area, outage, paths, routes, &places)?;
    Ok(changes)
}

// The places of the routes that may change, in order.
fn places_of(
    alloc: Global,
    listing: &Listing,
    gone: &[End],
    changed: &[Vertex],
    routes: &[Route],
) -> Result<Vec<usize>, AllocError>
    requires { AllPairs IsRouteBefore routes.now }
    ensures within { IfOk result (λ places. All (λ k. k < length routes.now) places.items) }
    ensures in_order { IfOk result (λ places. IsNonDecreasing places.items) }
    ensures all { IfOk result (λ places. (k : ℕ) (r : Route) → k < length routes.now →
        r ≡ slice_index_or routes.now k r →
        MayChange (advertisements_of listing.now) gone.now changed.now r.prefix →
        Contains places.items k) }
{
    let mut places = Vec::new(alloc);
    add_places(gone, routes, &mut places)?;
    for vertex in changed {
        let ends = ends_at(alloc, listing, *vertex)?;
        add_places(&ends, routes, &mut places)?;
    }
    places.sort_unstable();
    Ok(places)
}

// Adds the places of the routes to the prefixes of ends.
fn add_places(ends: &[End], routes: &[Route], places: &mut Vec<usize>) -> Result<(), AllocError>
    requires { AllPairs IsRouteBefore routes.now }
    ensures kept { OnOk result ((k : ℕ) → Contains places.old.items k →
        Contains places.new.items k) }
    ensures within { OnOk result (All (λ k. k < length routes.now) places.old.items →
        All (λ k. k < length routes.now) places.new.items) }
    ensures ends { OnOk result ((k : ℕ) (r : Route) (e : End) → k < length routes.now →
        r ≡ slice_index_or routes.now k r → Contains ends.now e → e.prefix ≡ r.prefix →
        Contains places.new.items k) }
{
    for end in ends {
        match place_to(routes, end.prefix) {
            Some(place) => places.push(place)?,
            None => {}
        }
    }
    Ok(())
}

// What becomes of the routes at places in order, of those that do not stay.
fn changes_at<P: Paths>(
    alloc: Global,
    area: &AreaGraph,
    outage: &Outage,
    paths: &P,
    routes: &[Route],
    places: &[usize],
) -> Result<Vec<RouteChange>, AllocError>
    requires edges { AreEdgesInOrder area.now.edges.items }
    requires ends { AreEndsInOrder area.now.ends.items }
    requires less { AreEndsInOrder outage.now.ends.items }
    requires routes { AllPairs IsRouteBefore routes.now }
    requires within { All (λ k. k < length routes.now) places.now }
    requires in_order { IsNonDecreasing places.now }
    // Of any listing whose graph, ends and routes these are: what the outage does at these routes.
    ensures { IfOk result (λ changes. (adverts : List Advertisement) (root : RouterId) →
        AreOverLeft adverts root area.now outage.now (P.kept paths.now) →
        All (IsRoute adverts root) routes.now →
        AreChangesTo (left_of_area adverts outage.now) root routes.now places.now
        (length routes.now) changes.items) }
{
    let mut changes = Vec::new(alloc);
    let mut next = 0;
    for place in places {
        let at = *place;
        if next <= at {
            add_change(alloc, area, outage, paths, &routes[at], &mut changes)?;
            next = at + 1;
        }
    }
    Ok(changes)
}

// Adds what becomes of a route, unless it stays.
fn add_change<P: Paths>(
    alloc: Global,
    area: &AreaGraph,
    outage: &Outage,
    paths: &P,
    route: &Route,
    changes: &mut Vec<RouteChange>,
) -> Result<(), AllocError>
    requires edges { AreEdgesInOrder area.now.edges.items }
    requires ends { AreEndsInOrder area.now.ends.items }
    requires less { AreEndsInOrder outage.now.ends.items }
    ensures { OnOk result ((adverts : List Advertisement) (root : RouterId) →
        AreOverLeft adverts root area.now outage.now (P.kept paths.now) →
        IsRoute adverts root route.now →
        AddsLoss (left_of_area adverts outage.now) root route.now changes.old.items
        changes.new.items) }
{
    let loss = loss_of(alloc, area, outage, paths, route)?;
    match loss {
        Some(loss) => {
            let before = route.copy(alloc)?;
            changes.push(RouteChange { before, loss })?;
            Ok(())
        }
        None => Ok(()),
    }
}

// What becomes of a route, unless it stays.
fn loss_of<P: Paths>(
    alloc: Global,
    area: &AreaGraph,
    outage: &Outage,
    paths: &P,
    route: &Route,
) -> Result<Option<Loss>, AllocError>
    requires edges { AreEdgesInOrder area.now.edges.items }
    requires ends { AreEndsInOrder area.now.ends.items }
    requires less { AreEndsInOrder outage.now.ends.items }
    ensures { IfOk result (λ loss. (adverts : List Advertisement) (root : RouterId) →
        AreOverLeft adverts root area.now outage.now (P.kept paths.now) →
        IsRoute adverts root route.now →
        StaysOr (left_of_area adverts outage.now) root route.now loss) }
{
    let ends = ends_left(alloc, ends_to(&area.ends, route.prefix), &outage.ends)?;
    let after = route_by(alloc, route.prefix, &ends, paths)?;
    match after {
        Some(after) => Ok(loss_by(route, after)),
        None => {
            if is_told(area, outage, &ends, route.prefix) {
                Ok(Some(Loss::Cut))
            } else {
                Ok(Some(Loss::Gone))
            }
        }
    }
}

// What becomes of a route in the place of which this one comes, unless it is the same.
fn loss_by(before: &Route, after: Route) -> Option<Loss>
    requires { before.now.prefix ≡ after.prefix }
    ensures { IsLossBy before.now after result }
{
    if is_same_route(before, &after) {
        None
    } else if before.cost < after.cost {
        Some(Loss::Dearer(after))
    } else {
        Some(Loss::Moved(after))
    }
}

// Whether a prefix, of which these ends are left, is still advertised.
fn is_told(area: &AreaGraph, outage: &Outage, ends: &[End], prefix: Prefix) -> bool
    requires { AreEdgesInOrder area.now.edges.items }
    ensures { (adverts : List Advertisement) → IsAreaGraph adverts area.now →
        IsOutage adverts outage.now →
        IsTrue result ↔ IsToldBy (left_of_area adverts outage.now) ends.now prefix }
{
    for end in ends {
        if tells(area, outage, end, prefix) {
            return true;
        }
    }
    false
}

// Whether an end is of a prefix, at a router or at a network with a router on it.
fn tells(area: &AreaGraph, outage: &Outage, end: &End, prefix: Prefix) -> bool
    requires { AreEdgesInOrder area.now.edges.items }
    ensures { (adverts : List Advertisement) → IsAreaGraph adverts area.now →
        IsOutage adverts outage.now → IsTrue result
        ↔ ((end.now.prefix ≡ prefix) × IsLive (left_of_area adverts outage.now) end.now.vertex) }
{
    is_same_prefix(end.prefix, prefix) && is_live(area, outage, end.vertex)
}

// Whether a vertex is a router, or a network that an edge leaves which does not go.
fn is_live(area: &AreaGraph, outage: &Outage, vertex: Vertex) -> bool
    requires { AreEdgesInOrder area.now.edges.items }
    ensures { (adverts : List Advertisement) → IsAreaGraph adverts area.now →
        IsOutage adverts outage.now →
        IsTrue result ↔ IsLive (left_of_area adverts outage.now) vertex }
{
    match vertex {
        Vertex::Router(_) => true,
        Vertex::Network(_) => has_left(edges_from(&area.edges, vertex), vertex, &outage.edges),
    }
}

// Whether one of some edges leaves a vertex and is not among others.
fn has_left(edges: &[Edge], vertex: Vertex, less: &[Edge]) -> bool
    ensures { IsTrue result ↔ HasOtherFrom edges.now less.now vertex }
{
    edges.iter().any(|edge| is_other_from(*edge, less, vertex))
}

// Whether an edge leaves a vertex and is not among others.
fn is_other_from(edge: Edge, less: &[Edge], vertex: Vertex) -> bool
    ensures { IsTrue result ↔ ((edge.from ≡ vertex) × (Contains less.now edge → ⊥)) }
{
    is_same(edge.from, vertex) && !less.contains(&edge)
}
