//! Routes, from what the shortest paths reach.

ghost use Rattle.std.specs.Prelude.{◌≡◌, ◌≤◌, ◌<◌, ◌↔◌, ◌⊎◌, ◌^◌, [], ℕ, List, All, AllPairs, Contains, IsTrue, IfOk, OnOk, MatchOption, IfNone, IfSome, IsPermutation, ◌-◌, false, length, slice_index_or};
ghost use Rattle.ospf_base.specs.declared.prefix.Prefix.{Prefix};
ghost use Rattle.ospf_base.specs.Prefixes.{IsPrefixBefore};
ghost use Rattle.ospf_graph.specs.declared.graph.Vertex.{Vertex};
ghost use Rattle.ospf_graph.specs.declared.hop.NextHop.{NextHop};
ghost use Rattle.ospf_graph.specs.declared.route.Route.{Route};
ghost use Rattle.ospf_graph.specs.Advertisements.{Advertisement, IsListed};
ghost use Rattle.ospf_graph.specs.Routes.{IsTable};
ghost use Rattle.ospf_graph.specs.Paths.{AreStartsInOrder};
ghost use Rattle.ospf_graph.specs.Search.{AtIn, vertex_code};
ghost use Rattle.ospf_graph.specs.Tree.{hop_of_start};
ghost use Rattle.ospf_spf.specs.Reach.{IsRouteBy};
ghost use Rattle.ospf_spf.specs.Kept.{AreWellFormed, IsTreeOf};
ghost use Rattle.ospf_spf.specs.declared.routes.Reach.{Reach};
ghost use Rattle.ospf_base.specs.declared.ids.RouterId.{RouterId};
ghost use Rattle.ospf_spf.specs.Reach.{AddsHops, AreEndsWithin, GathersHops, HasHop, HasHopOf, IsLargestOf, IsLeastReach, IsReachOf, IsRouteOf, IsRouterOr, IsGroup, AreReachesInOrder, network_reach, prefix_code};
ghost use Rattle.std.specs.List.Sorted.{IsNonDecreasingBy};

use crate::incremental::Paths;
use ospf_base::Prefix;
use ospf_graph::edges::End;
use ospf_graph::{
    Hops, NextHop, Route, Settled, ShortestPaths, Start, Vertex, VertexStart, distance_at,
    starts_at,
};
use std::alloc::{AllocError, Global};

// Up to twice as many hops are gathered before doubles are looked for.
const FEW_HOPS: usize = 16;

// Room in the order for the prefixes of one address, whose lengths are 0 to 32.
const LENGTHS: u64 = 64;

/// An end of a prefix that the shortest paths reach, at this cost from the root.
#[derive(Clone, Copy, Debug, PartialEq, Eq)]
pub struct Reach {
    pub prefix: Prefix,
    pub vertex: Vertex,
    pub cost: u64,
}

/// The routes over a tree, from all ends that it reaches of a listing that has the root's LSA (RFC
/// 2328, section 16.1): to each prefix that the root has a way to, in the order of the prefixes.
///
/// `AllocError` where memory runs out.
pub fn table_of(
    alloc: Global,
    paths: &ShortestPaths,
    ends: &[End],
) -> Result<Vec<Route>, AllocError>
    requires told { AreWellFormed paths.now }
    ensures { IfOk result (λ routes. (adverts : List Advertisement) (root : RouterId) →
        IsListed adverts root → IsTreeOf adverts root paths.now →
        AreEndsWithin adverts paths.now.settled.items ends.now →
        IsTable adverts root routes.items) }
{
    let mut reaches = reaches_of(alloc, ends, &paths.settled)?;
    sort_reaches(&mut reaches);
    let routes = routes_of(alloc, &reaches, &paths.starts)?;
    Ok(routes)
}

/// The route to a prefix over stored paths, from ends that have all of the prefix;
/// nothing where the paths reach none.
///
/// `AllocError` where memory runs out.
pub fn route_by<P: Paths>(
    alloc: Global,
    prefix: Prefix,
    ends: &[End],
    paths: &P,
) -> Result<Option<Route>, AllocError>
    ensures none { IfOk result (λ o. IfNone o ((r : Reach) →
        IsReachOf ends.now (P.kept paths.now).settled r → r.prefix ≡ prefix → ⊥)) }
    ensures prefix { IfOk result (λ o. IfSome o (λ route. route.prefix ≡ prefix)) }
    ensures route { IfOk result (λ o. IfSome o
        (IsRouteBy ends.now (P.kept paths.now).settled (P.kept paths.now).starts)) }
{
    let reaches = reaches_by(alloc, ends, paths)?;
    let Some(cost) = least_cost(prefix, &reaches) else {
        return Ok(None);
    };
    let hops = hops_by(alloc, prefix, cost, &reaches, paths)?;
    Ok(Some(Route { prefix, cost, hops }))
}

// The ends that are reached.
fn reaches_of(alloc: Global, ends: &[End], settled: &[Settled]) -> Result<Vec<Reach>, AllocError>
    requires near { All (λ s. s.distance < 2 ^ 63) settled.now }
    requires one { (v : Vertex) (d k : ℕ) → AtIn settled.now v d → AtIn settled.now v k → d ≡ k }
    requires in_order { IsNonDecreasingBy (λ s. vertex_code s.vertex) settled.now }
    ensures { IfOk result (λ reaches. (r : Reach) →
        Contains reaches.items r ↔ IsReachOf ends.now settled.now r) }
{
    let mut reaches = Vec::new(alloc);
    for end in ends {
        if let Some(distance) = distance_at(settled, end.vertex) {
            reaches.push(Reach {
                prefix: end.prefix,
                vertex: end.vertex,
                cost: distance + end.cost as u64,
            })?;
        }
    }
    Ok(reaches)
}

// The ends that stored paths reach.
fn reaches_by<P: Paths>(alloc: Global, ends: &[End], paths: &P) -> Result<Vec<Reach>, AllocError>
    ensures { IfOk result (λ reaches. (r : Reach) →
        Contains reaches.items r ↔ IsReachOf ends.now (P.kept paths.now).settled r) }
{
    let mut reaches = Vec::new(alloc);
    for end in ends {
        if let Some(distance) = paths.distance(end.vertex) {
            reaches.push(Reach {
                prefix: end.prefix,
                vertex: end.vertex,
                cost: distance + end.cost as u64,
            })?;
        }
    }
    Ok(reaches)
}

// Puts reaches into the order of their prefixes.
fn sort_reaches(reaches: &mut Vec<Reach>)
    ensures same { IsPermutation reaches.old.items reaches.new.items }
    ensures in_order { AreReachesInOrder reaches.new.items }
{
    reaches.sort_unstable_by_key(|r| prefix_order(r.prefix));
}

/// The place of a prefix in the order of prefixes.
pub fn prefix_order(prefix: Prefix) -> u64
    ensures { result ≡ prefix_code prefix }
{
    prefix.address.0 as u64 * LENGTHS + prefix.length as u64
}

// The routes to all prefixes that are reached, in order.
fn routes_of(
    alloc: Global,
    reaches: &[Reach],
    starts: &[VertexStart],
) -> Result<Vec<Route>, AllocError>
    // The reaches are in order, and so are the starts.
    requires reaches_in_order { AreReachesInOrder reaches.now }
    requires starts_in_order { AreStartsInOrder starts.now }
    // A route to each prefix that is reached, in order, each at its best cost and with its hops.
    ensures in_order { IfOk result (λ routes. AllPairs (λ p q. IsPrefixBefore p.prefix q.prefix)
        routes.items) }
    ensures complete { IfOk result (λ routes. (r : Reach) → Contains reaches.now r →
        (route : Route) × Contains routes.items route × (route.prefix ≡ r.prefix)) }
    ensures sound { IfOk result (λ routes. All (IsRouteOf reaches.now starts.now) routes.items) }
{
    let mut routes = Vec::new(alloc);
    for place in 0..reaches.len() {
        if is_first(reaches, place) {
            routes.push(route_at(alloc, reaches, place, starts)?)?;
        }
    }
    Ok(routes)
}

// Whether the reach at this place is the first of its prefix.
fn is_first(reaches: &[Reach], place: usize) -> bool
    requires { place < length reaches.now }
    ensures first { IsTrue result → (d : Reach) → 0 < place →
        (slice_index_or reaches.now (place - 1) d).prefix
        ≡ (slice_index_or reaches.now place d).prefix → ⊥ }
    ensures later { result ≡ false → (0 < place)
        × ((d : Reach) → (slice_index_or reaches.now (place - 1) d).prefix
        ≡ (slice_index_or reaches.now place d).prefix) }
{
    place == 0 || !is_same_prefix(reaches[place - 1].prefix, reaches[place].prefix)
}

/// Whether two prefixes are the same.
pub fn is_same_prefix(a: Prefix, b: Prefix) -> bool
    ensures { IsTrue result ↔ (a ≡ b) }
{
    a == b
}

// The route to the prefix whose reaches begin at this place.
fn route_at(
    alloc: Global,
    reaches: &[Reach],
    place: usize,
    starts: &[VertexStart],
) -> Result<Route, AllocError>
    // The reaches of a prefix begin at the place, and reaches and starts are in order.
    requires within { place < length reaches.now }
    requires first { (d : Reach) → 0 < place →
        (slice_index_or reaches.now (place - 1) d).prefix
        ≡ (slice_index_or reaches.now place d).prefix → ⊥ }
    requires reaches_in_order { AreReachesInOrder reaches.now }
    requires starts_in_order { AreStartsInOrder starts.now }
    // The route is to that prefix, at its best cost and with its hops.
    ensures prefix { IfOk result (λ route. (d : Reach) →
        route.prefix ≡ (slice_index_or reaches.now place d).prefix) }
    ensures route { IfOk result (λ route. IsRouteOf reaches.now starts.now route) }
{
    let end = group_end(reaches, place);
    let route = route_to(alloc, reaches[place].prefix, &reaches[place..end], starts)?;
    Ok(route)
}

// Where the reaches of the prefix at this place end.
fn group_end(reaches: &[Reach], place: usize) -> usize
    requires { place < length reaches.now }
    ensures { IsGroup reaches.now place result }
{
    for end in place + 1..reaches.len() {
        if !is_same_prefix(reaches[place].prefix, reaches[end].prefix) {
            return end;
        }
    }
    reaches.len()
}

// The route to a prefix that is reached.
fn route_to(
    alloc: Global,
    prefix: Prefix,
    reaches: &[Reach],
    starts: &[VertexStart],
) -> Result<Route, AllocError>
    requires reached { (r : Reach) × Contains reaches.now r × (r.prefix ≡ prefix) }
    requires in_order { AreStartsInOrder starts.now }
    ensures { IfOk result (λ route. (route.prefix ≡ prefix)
        × IsRouteOf reaches.now starts.now route) }
{
    let cost = match least_cost(prefix, reaches) {
        Some(cost) => cost,
        None => unreachable!(),
    };
    let hops = hops_of(alloc, prefix, cost, reaches, starts)?;
    Ok(Route { prefix, cost, hops })
}

// The least cost of the reaches of a prefix.
fn least_cost(prefix: Prefix, reaches: &[Reach]) -> Option<u64>
    ensures { IsLeastReach reaches.now prefix result }
{
    let mut best = None;
    for reach in reaches {
        if is_same_prefix(reach.prefix, prefix) {
            best = Some(lesser(best, reach.cost));
        }
    }
    best
}

// The lesser of two costs, where there is one already.
fn lesser(best: Option<u64>, cost: u64) -> u64
    ensures { MatchOption best (result ≡ cost)
        (λ b. ((result ≡ b) × (b ≤ cost)) ⊎ ((result ≡ cost) × (cost ≤ b))) }
{
    best.map_or(cost, |b| b.min(cost))
}

// The hops of a prefix at its least cost.
fn hops_of(
    alloc: Global,
    prefix: Prefix,
    cost: u64,
    reaches: &[Reach],
    starts: &[VertexStart],
) -> Result<Hops, AllocError>
    requires { AreStartsInOrder starts.now }
    ensures { IfOk result (λ hops. AddsHops (HasHopOf reaches.now starts.now prefix cost) [] hops) }
{
    let network = chosen_network(prefix, cost, reaches);
    let mut hops = Vec::new(alloc);
    let mut left = FEW_HOPS;
    for reach in reaches {
        if counts(*reach, prefix, cost, network) {
            add_hops_at(starts, reach.vertex, &mut hops)?;
            left = leave_once(&mut hops, left);
        }
    }
    Ok(Hops::of(hops))
}

// The hops of a prefix at its least cost, over stored paths.
fn hops_by<P: Paths>(
    alloc: Global,
    prefix: Prefix,
    cost: u64,
    reaches: &[Reach],
    paths: &P,
) -> Result<Hops, AllocError>
    ensures { IfOk result (λ hops. AddsHops
        (HasHopOf reaches.now (P.kept paths.now).starts prefix cost) [] hops) }
{
    let network = chosen_network(prefix, cost, reaches);
    let mut hops = Vec::new(alloc);
    let mut left = FEW_HOPS;
    for reach in reaches {
        if counts(*reach, prefix, cost, network) {
            add_hops_by(paths, reach.vertex, &mut hops)?;
            left = leave_once(&mut hops, left);
        }
    }
    Ok(Hops::of(hops))
}

// (16.1, step 4) The network that counts at a prefix and cost: the one of the largest Link State
// ID.
fn chosen_network(prefix: Prefix, cost: u64, reaches: &[Reach]) -> Option<u32>
    ensures { IsLargestOf reaches.now prefix cost result }
{
    let mut largest = None;
    for reach in reaches {
        if let Some(id) = network_at(*reach, prefix, cost) {
            largest = Some(larger(largest, id));
        }
    }
    largest
}

// The Link State ID of the network that is reached, if it is one of the prefix at this cost.
fn network_at(reach: Reach, prefix: Prefix, cost: u64) -> Option<u32>
    ensures { MatchOption result ((n : ℕ) → reach ≡ network_reach prefix n cost → ⊥)
        (λ n. reach ≡ network_reach prefix n cost) }
{
    match reach.vertex {
        Vertex::Network(id) => {
            if is_same_prefix(reach.prefix, prefix) && reach.cost == cost {
                Some(id)
            } else {
                None
            }
        }
        Vertex::Router(_) => None,
    }
}

// The larger of two Link State IDs, where there is one already.
fn larger(largest: Option<u32>, id: u32) -> u32
    ensures { MatchOption largest (result ≡ id)
        (λ n. ((result ≡ n) × (id ≤ n)) ⊎ ((result ≡ id) × (n ≤ id))) }
{
    largest.map_or(id, |n| n.max(id))
}

// Whether this is an end of the prefix at this cost, and a router or the network.
fn counts(end: Reach, prefix: Prefix, cost: u64, network: Option<u32>) -> bool
    ensures { IsTrue result ↔ ((end.prefix ≡ prefix) × (end.cost ≡ cost)
        × IsRouterOr network end.vertex) }
{
    is_same_prefix(end.prefix, prefix) && end.cost == cost && is_router_or(network, end.vertex)
}

// Whether this is a router or the network.
fn is_router_or(network: Option<u32>, vertex: Vertex) -> bool
    ensures { IsTrue result ↔ IsRouterOr network vertex }
{
    match vertex {
        Vertex::Router(_) => true,
        Vertex::Network(id) => network == Some(id),
    }
}

// Gathers the hops of all starts of a vertex, of starts in the order of vertices.
fn add_hops_at(
    starts: &[VertexStart],
    vertex: Vertex,
    hops: &mut Vec<NextHop>,
) -> Result<(), AllocError>
    requires { AreStartsInOrder starts.now }
    ensures { OnOk result (GathersHops (HasHop starts.now vertex) hops.old.items hops.new.items) }
{
    for begun in starts_at(starts, vertex) {
        hops.push(hop_from(begun.start))?;
    }
    Ok(())
}

// Gathers the hops of all starts of a vertex, over stored paths.
fn add_hops_by<P: Paths>(
    paths: &P,
    vertex: Vertex,
    hops: &mut Vec<NextHop>,
) -> Result<(), AllocError>
    ensures { OnOk result (GathersHops (HasHop (P.kept paths.now).starts vertex) hops.old.items
        hops.new.items) }
{
    for start in paths.starts(vertex) {
        hops.push(hop_from(*start))?;
    }
    Ok(())
}

// The next hop that a start makes where its path ends.
fn hop_from(start: Start) -> NextHop
    ensures { result ≡ hop_of_start start }
{
    match start {
        Start::Here => NextHop::Attached,
        Start::OnNetwork(_) => NextHop::Attached,
        Start::Hop(hop) => hop,
    }
}

// Removes duplicate hops when there are twice as many as were left the last time, so that they
// never take up more room than the hops themselves. Returns how many the last removal left, or
// `FEW_HOPS` if that is more.
fn leave_once(hops: &mut Vec<NextHop>, left: usize) -> usize
    ensures { (hop : NextHop) → Contains hops.new.items hop ↔ Contains hops.old.items hop }
{
    if hops.len() / 2 < left {
        return left;
    }
    hops.sort_unstable();
    hops.dedup();
    hops.len().max(FEW_HOPS)
}
