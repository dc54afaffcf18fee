//! What is expected of a router.

ghost use Rattle.std.specs.Prelude.{◌≡◌, ◌↔◌, [], Any, IfErr, IfOk, IsTrue, OnErr, OnOk, string_bytes, unwrap_or};
ghost use Rattle.std.specs.List.{list_any};
ghost use Rattle.std.specs.Io.KnownBytes.{Appends};
ghost use Rattle.ospf_files.specs.Streams.{IsBegun, IsOutputCut};
ghost use Rattle.ospf_commands.specs.Expectations.{AreAmong, HasElected, HasElectedAt, HasHops, HasNoNeighbour, IsAmong, IsLonely, IsMet, IsRouteAt, has_in_state, is_at_state, is_in_state, is_kept_by, is_route_to, is_state_down, is_with_id, keeps_router, some_has_in_state, standing_lines, unmet_line, unmet_lines, wanted_line};
ghost use Rattle.ospf_views.specs.Waits.{interface_of};

use ospf_area::AreaLink;
use ospf_base::{Addr, Prefix, RouterId};
use ospf_files::{FailedStreams, Failure};
use ospf_graph::{NextHop, Route};
use ospf_journal::state_place;
use ospf_neighbour::iface::Iface;
use ospf_neighbour::{Neighbour, NeighbourState};
use ospf_router::Router;
use ospf_script::{Expected, View, Wanted, WantedShown};
use ospf_views::{interface_line, write_view};
use std::alloc::{AllocError, Global};
use std::io::Write;

/// Whether a router meets an expectation.
pub fn is_met(wanted: &Wanted, router: &Router) -> bool
    ensures { IsTrue result ↔ IsMet wanted.now router.now }
{
    match wanted {
        Wanted::Neighbour { other, state } => is_at_state(router, *other, *state),
        Wanted::NoNeighbour { link } => has_no_neighbour(router, *link),
        Wanted::Dr { link, dr, backup } => has_elected_at(router, *link, *dr, *backup),
        Wanted::Route { prefix, cost, hops } => {
            has_route(router.table().routes(), *prefix, *cost, hops)
        }
        Wanted::NoRoute { prefix } => !has_prefix(router.table().routes(), *prefix),
    }
}

/// The line of an expectation that is not met.
///
/// `AllocError` if memory runs out.
pub fn unmet_line(alloc: Global, expected: &Expected) -> Result<String, AllocError>
    ensures { IfOk result (λ line. string_bytes line ≡ unmet_line expected.now) }
{
    format!(in alloc; "not met: {expected}\n")
}

/// Reports that an expectation is not met by a router, and what it has: its neighbours, its table,
/// or the interface of the link, if there is one.
///
/// `Failure` if memory runs out or the stream fails: then a beginning of it was printed.
pub fn write_unmet<O: Write>(
    alloc: Global,
    id: RouterId,
    wanted: &Wanted,
    router: &Router,
    out: &mut O,
    streams: &mut FailedStreams,
) -> Result<(), Failure>
    ensures written { OnOk result (Appends (O.contents out.old) (O.contents out.new)
        (unmet_lines id wanted.now router.now)) }
    ensures begun { OnErr result (IsBegun (O.contents out.old) (O.contents out.new)
        (unmet_lines id wanted.now router.now)) }
    ensures cut { IfErr result (IsOutputCut streams.new) }
{
    write_line(alloc, id, wanted, out, streams)?;
    write_standing(alloc, wanted, router, out, streams)
}

// Whether the other router is in this state, on any link: one that is Down is not stored.
fn is_at_state(router: &Router, other: RouterId, state: NeighbourState) -> bool
    ensures { result ≡ is_at_state other state router.now.area }
{
    if is_down(state) {
        !is_kept_by(router, other)
    } else {
        some_has_in_state(router, other, state)
    }
}

// Whether it is a neighbour, in any state.
fn is_kept_by(router: &Router, other: RouterId) -> bool
    ensures { result ≡ is_kept_by other router.now.area }
{
    match router.area() {
        Some(area) => is_kept_on_some(&area.links, other),
        None => false,
    }
}

// Whether it is a neighbour on one of these links.
fn is_kept_on_some(links: &[AreaLink], other: RouterId) -> bool
    ensures { result ≡ list_any (keeps_router other) links.now }
{
    links.iter().any(|link| keeps_router(link, other))
}

fn keeps_router(link: &AreaLink, other: RouterId) -> bool
    ensures { result ≡ keeps_router other link.now }
{
    link.neighbours.all().iter().any(|n| is_with_id(n, other))
}

// Whether the other router is a neighbour in this state, on any link.
fn some_has_in_state(router: &Router, other: RouterId, state: NeighbourState) -> bool
    ensures { result ≡ some_has_in_state other state router.now.area }
{
    match router.area() {
        Some(area) => is_on_some(&area.links, other, state),
        None => false,
    }
}

// Whether it is one on some of these links.
fn is_on_some(links: &[AreaLink], other: RouterId, state: NeighbourState) -> bool
    ensures { result ≡ list_any (has_in_state other state) links.now }
{
    links.iter().any(|link| has_in_state(link, other, state))
}

// Whether a link has it as a neighbour in this state.
fn has_in_state(link: &AreaLink, other: RouterId, state: NeighbourState) -> bool
    ensures { result ≡ has_in_state other state link.now }
{
    link.neighbours
        .all()
        .iter()
        .any(|n| is_in_state(n, other, state))
}

fn is_in_state(neighbour: &Neighbour, other: RouterId, state: NeighbourState) -> bool
    ensures { result ≡ is_in_state other state neighbour.now }
{
    is_with_id(neighbour, other) && state_place(neighbour.state()) == state_place(state)
}

fn is_with_id(neighbour: &Neighbour, other: RouterId) -> bool
    ensures { result ≡ is_with_id other neighbour.now }
{
    neighbour.router().0 == other.0
}

fn is_down(state: NeighbourState) -> bool
    ensures { result ≡ is_state_down state }
{
    match state {
        NeighbourState::Down => true,
        _ => false,
    }
}

// Whether there is a link with this number, and it has no neighbour.
fn has_no_neighbour(router: &Router, link: usize) -> bool
    ensures { IsTrue result ↔ HasNoNeighbour link router.now.area }
{
    let Some(area) = router.area() else {
        return false;
    };
    match area.links.get(link) {
        Some(there) => is_lonely(there),
        None => false,
    }
}

#[tactic(auto, unfolding(crate::specs::Expectations::IsLonely))]
fn is_lonely(link: &AreaLink) -> bool
    ensures { IsTrue result ↔ IsLonely link.now }
{
    link.neighbours.all().is_empty()
}

// Whether a link has this Designated Router, and this Backup, if one is given.
fn has_elected_at(router: &Router, link: usize, dr: Addr, backup: Option<Addr>) -> bool
    ensures { IsTrue result ↔ HasElectedAt link dr backup router.now.area }
{
    let Some(area) = router.area() else {
        return false;
    };
    match area.links.get(link) {
        Some(there) => has_elected(&there.iface, dr, backup),
        None => false,
    }
}

// Whether an interface has them.
fn has_elected(iface: &Iface, dr: Addr, backup: Option<Addr>) -> bool
    ensures { IsTrue result ↔ HasElected dr backup iface.now }
{
    match backup {
        Some(backup) => iface.dr == dr && iface.backup == backup,
        None => iface.dr == dr,
    }
}

// Whether there is a route to a prefix with this cost and these hops.
fn has_route(routes: &[Route], prefix: Prefix, cost: u64, hops: &[NextHop]) -> bool
    ensures { IsTrue result ↔ Any (IsRouteAt prefix cost hops.now) routes.now }
{
    let mut rest = routes;
    while let Some((route, behind)) = rest.split_first() {
        if is_route_at(route, prefix, cost, hops) {
            return true;
        }
        rest = behind;
    }
    false
}

// Whether there is any route to it.
fn has_prefix(routes: &[Route], prefix: Prefix) -> bool
    ensures { result ≡ list_any (is_route_to prefix) routes.now }
{
    routes.iter().any(|route| is_route_to(route, prefix))
}

#[tactic(auto, unfolding(crate::specs::Expectations::IsRouteAt))]
fn is_route_at(route: &Route, prefix: Prefix, cost: u64, hops: &[NextHop]) -> bool
    ensures { IsTrue result ↔ IsRouteAt prefix cost hops.now route.now }
{
    is_route_to(route, prefix) && route.cost == cost && has_hops(route.hops.as_slice(), hops)
}

// Whether the hops are exactly those that are wanted, if any are.
#[tactic(auto, unfolding(crate::specs::Expectations::HasHops))]
fn has_hops(hops: &[NextHop], wanted: &[NextHop]) -> bool
    ensures { IsTrue result ↔ HasHops wanted.now hops.now }
{
    wanted.is_empty() || (are_among(hops, wanted) && are_among(wanted, hops))
}

// Whether each of these hops is one of the others.
fn are_among(hops: &[NextHop], others: &[NextHop]) -> bool
    ensures { IsTrue result ↔ AreAmong others.now hops.now }
{
    hops.iter().all(|hop| is_among(hop, others))
}

// Whether a hop is one of these.
fn is_among(hop: &NextHop, hops: &[NextHop]) -> bool
    ensures { IsTrue result ↔ IsAmong hops.now hop.now }
{
    hops.contains(hop)
}

fn is_route_to(route: &Route, prefix: Prefix) -> bool
    ensures { result ≡ is_route_to prefix route.now }
{
    route.prefix.address.0 == prefix.address.0 && route.prefix.length == prefix.length
}

// Writes what the router has instead. If that fails, a beginning of it was written.
fn write_standing<O: Write>(
    alloc: Global,
    wanted: &Wanted,
    router: &Router,
    out: &mut O,
    streams: &mut FailedStreams,
) -> Result<(), Failure>
    ensures written { OnOk result (Appends (O.contents out.old) (O.contents out.new)
        (standing_lines wanted.now router.now)) }
    ensures begun { OnErr result (IsBegun (O.contents out.old) (O.contents out.new)
        (standing_lines wanted.now router.now)) }
    ensures cut { IfErr result (IsOutputCut streams.new) }
{
    match wanted {
        Wanted::Neighbour { .. } | Wanted::NoNeighbour { .. } => {
            write_view(alloc, View::Neighbours, router, out, streams)
        }
        Wanted::Dr { link, .. } => write_interface(alloc, *link, router, out, streams),
        Wanted::Route { .. } | Wanted::NoRoute { .. } => {
            write_view(alloc, View::Table, router, out, streams)
        }
    }
}

// Writes the interface of a link, if there is one.
fn write_interface<O: Write>(
    alloc: Global,
    link: usize,
    router: &Router,
    out: &mut O,
    streams: &mut FailedStreams,
) -> Result<(), Failure>
    ensures written { OnOk result (Appends (O.contents out.old) (O.contents out.new)
        (unwrap_or (interface_of router.now.area link) [])) }
    ensures begun { OnErr result (IsBegun (O.contents out.old) (O.contents out.new)
        (unwrap_or (interface_of router.now.area link) [])) }
    ensures cut { IfErr result (IsOutputCut streams.new) }
{
    let line = line_of_interface(alloc, link, router)?;
    streams.write(out, &line)
}

// Formats its line, or nothing.
fn line_of_interface(alloc: Global, link: usize, router: &Router) -> Result<String, AllocError>
    ensures { IfOk result (λ line. string_bytes line
        ≡ unwrap_or (interface_of router.now.area link) []) }
{
    match interface_line(router, link, alloc)? {
        Some(line) => Ok(line),
        None => Ok(String::new(alloc)),
    }
}

// Writes the line of an expectation. If that fails, a beginning of it was written.
fn write_line<O: Write>(
    alloc: Global,
    router: RouterId,
    wanted: &Wanted,
    out: &mut O,
    streams: &mut FailedStreams,
) -> Result<(), Failure>
    ensures written { OnOk result
        (Appends (O.contents out.old) (O.contents out.new) (wanted_line router wanted.now)) }
    ensures begun { OnErr result
        (IsBegun (O.contents out.old) (O.contents out.new) (wanted_line router wanted.now)) }
    ensures cut { IfErr result (IsOutputCut streams.new) }
{
    let line = wanted_line(alloc, router, wanted)?;
    streams.write(out, &line)
}

fn wanted_line(alloc: Global, router: RouterId, wanted: &Wanted) -> Result<String, AllocError>
    ensures { IfOk result (λ line. string_bytes line ≡ wanted_line router wanted.now) }
{
    let shown = WantedShown { router, wanted };
    format!(in alloc; "not met: {shown}\n")
}
