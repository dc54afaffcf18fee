//! The way from a router to an address, by the tables of all routers on it.

ghost use Rattle.std.specs.Prelude.{◌≡◌, ◌≢◌, ◌+◌, ◌*◌, ◌%◌, ◌<◌, ◌^◌, ◌++◌, ℕ, List, Some, IfNone, IfOk, IfSome, OnOk, length, slice_get, string_bytes};
ghost use Rattle.ospf_graph.specs.EdgeLists.Listed.{advertisements_of};
ghost use Rattle.ospf_graph.specs.Walk.{HasLinkFor, IsLinkCost, IsNext};
ghost use Rattle.ospf_graph.specs.declared.hop.NextHop.TheVariants as hops;
ghost use Rattle.ospf_inspect.specs.Path.{SaysLeg, SaysPath, SaysWay, arrived_line, first_choice, later_choices, leg_line, leg_of, no_route_line, turns_line};

use ospf_base::{Addr, Prefix, RouterId};
use ospf_graph::edges::link_cost;
use ospf_graph::{NextHop, Route};
use ospf_lsa::Listing;
use ospf_spf::RouteTable;
use std::alloc::{AllocError, Global};
use std::fmt::{self, Display, Formatter, Write};

/// The way from a router to an address, where each router sends by the table that it makes of the
/// listing (RFC 2328, section 11.1): a line a router, with the hop at the choice modulo the number
/// of hops, the first where choices are missing, and the cost of its link; then the prefix and what
/// all of it cost. A router without a route ends it.
///
/// `AllocError` where memory runs out.
pub fn path_text(
    alloc: Global,
    listing: &Listing,
    from: RouterId,
    address: Addr,
    choices: &[u32],
) -> Result<String, AllocError>
    ensures { IfOk result (λ text. SaysPath (advertisements_of listing.now) from address.0
        choices.now (length listing.now) (string_bytes text)) }
{
    let mut text = String::new(alloc);
    let way = PathState {
        at: from,
        paid: 0,
        choices,
        most: listing.lsas().len(),
    };
    add_way(alloc, listing, address, way, &mut text)?;
    Ok(text)
}

// Where a way stands: at which router, what it has paid, the choices that are left, and how
// many more routers it may meet.
#[derive(Clone, Copy)]
struct PathState<'a> {
    at: RouterId,
    paid: u128,
    choices: &'a [u32],
    most: usize,
}

// Says what a way goes on with, router by router.
fn add_way(
    alloc: Global,
    listing: &Listing,
    address: Addr,
    way: PathState<'_>,
    text: &mut String,
) -> Result<(), AllocError>
    requires { way.paid + 65536 * way.most < 2 ^ 127 }
    ensures { OnOk result ((rest : List ℕ)
        × SaysWay (advertisements_of listing.now) address.0 way.entry.most way.entry.choices.now
        way.entry.at way.entry.paid rest
        × (string_bytes text.new ≡ string_bytes text.old ++ rest)) }
{
    let mut next = Some(way);
    while let Some(here) = next {
        next = add_leg(alloc, listing, address, here, text)?;
    }
    Ok(())
}

// Says what a router does on a way. Where the way goes on from there, if it does.
fn add_leg<'a>(
    alloc: Global,
    listing: &Listing,
    address: Addr,
    way: PathState<'a>,
    text: &mut String,
) -> Result<Option<PathState<'a>>, AllocError>
    requires { way.paid + 65536 * way.most < 2 ^ 127 }
    ensures { IfOk result (λ next. (said : List ℕ)
        × SaysLeg (advertisements_of listing.now) address.0 way.entry said next
        × (string_bytes text.new ≡ string_bytes text.old ++ said)) }
{
    let table = RouteTable::of(alloc, listing, way.at)?;
    let Some(route) = table.lookup(address) else {
        text.push_str(&no_route_line(alloc, way.at)?)?;
        return Ok(None);
    };
    let (choice, later) = first_of(way.choices);
    let hop = hop_at(route, choice);
    let Some(next) = next_of(&hop) else {
        text.push_str(&leg_line(alloc, leg_of(way.at, route, choice, hop, route.cost))?)?;
        let arrival = PathEnd {
            prefix: route.prefix,
            paid: way.paid + route.cost as u128,
        };
        text.push_str(&arrived_line(alloc, arrival)?)?;
        return Ok(None);
    };
    if way.most == 0 {
        text.push_str(&turns_line(alloc, way.at)?)?;
        return Ok(None);
    }
    let cost = cost_of(listing, way.at, &hop);
    text.push_str(&leg_line(alloc, leg_of(way.at, route, choice, hop, cost as u64))?)?;
    Ok(Some(PathState {
        at: next,
        paid: way.paid + cost as u128,
        choices: later,
        most: way.most - 1,
    }))
}

// The line of a router without a route.
fn no_route_line(alloc: Global, at: RouterId) -> Result<String, AllocError>
    ensures { IfOk result (λ line. string_bytes line ≡ no_route_line at) }
{
    let line = format!(in alloc; "{at} no route\n")?;
    Ok(line)
}

// The first choice, which is 0 where there is none, and the later ones.
fn first_of(choices: &[u32]) -> (u32, &[u32])
    ensures first { result.0 ≡ first_choice choices.now }
    ensures later { result.1.now ≡ later_choices choices.now }
{
    match choices {
        [first, later @ ..] => (*first, later),
        [] => (0, choices),
    }
}

// The hop of a route that a choice takes.
fn hop_at(route: &Route, choice: u32) -> NextHop
    requires { 0 < length route.now.hops }
    ensures { slice_get route.now.hops (choice % length route.now.hops) ≡ Some result }
{
    let hops = route.hops.as_slice();
    hops[choice as usize % hops.len()]
}

// The router that a hop names.
fn next_of(hop: &NextHop) -> Option<RouterId>
    ensures found { IfSome result (IsNext hop.now) }
    ensures none { IfNone result (hop.now ≡ hops.Attached) }
    ensures other { IfSome result (λ next. hop.now ≢ hops.Attached) }
{
    match hop {
        NextHop::Attached => None,
        NextHop::PointToPoint { router, .. } => Some(*router),
        NextHop::Lan { router, .. } => Some(*router),
    }
}

// A router on a way: the hop that it takes, what that costs, and which
// of how many hops it is, from 0.
#[derive(Clone, Copy)]
pub(crate) struct PathLeg {
    at: RouterId,
    hop: NextHop,
    cost: u64,
    place: usize,
    count: usize,
}

/// As `1.1.1.1 10.0.0.1>2.2.2.2 cost 10 hop 0 of 2`.
impl Display for PathLeg {
    ghost use Rattle.std.specs.Prelude.{Some};
    ghost use Rattle.ospf_inspect.specs.Path.{leg_text};

    ghost output = { λ leg. Some (leg_text leg) };

    fn fmt<W: Write>(&self, f: &mut Formatter<W>) -> fmt::Result {
        write!(f, "{} {} cost {} ", self.at, self.hop, self.cost)?;
        write!(f, "hop {} of {}", self.place, self.count)
    }
}

// What a router does on a way, by the hop that a choice takes.
fn leg_of(at: RouterId, route: &Route, choice: u32, hop: NextHop, cost: u64) -> PathLeg
    requires { 0 < length route.now.hops }
    ensures { result ≡ leg_of at choice route.now hop cost }
{
    let count = route.hops.as_slice().len();
    PathLeg {
        at,
        hop,
        cost,
        place: choice as usize % count,
        count,
    }
}

// The line of a router on a way.
fn leg_line(alloc: Global, leg: PathLeg) -> Result<String, AllocError>
    ensures { IfOk result (λ line. string_bytes line ≡ leg_line leg) }
{
    let line = format!(in alloc; "{leg}\n")?;
    Ok(line)
}

// The line of the end of a way.
fn arrived_line(alloc: Global, arrival: PathEnd) -> Result<String, AllocError>
    ensures { IfOk result (λ line. string_bytes line ≡ arrived_line arrival.prefix arrival.paid) }
{
    let line = format!(in alloc; "{arrival}\n")?;
    Ok(line)
}

// The end of a way: the prefix that was reached, and what all of it cost.
#[derive(Clone, Copy)]
struct PathEnd {
    prefix: Prefix,
    paid: u128,
}

/// As `10.0.0.0/30 cost 10 arrived`.
impl Display for PathEnd {
    ghost use Rattle.std.specs.Prelude.{Some};
    ghost use Rattle.ospf_inspect.specs.Path.{arrived_text};

    ghost output = { λ arrival. Some (arrived_text arrival.prefix arrival.paid) };

    fn fmt<W: Write>(&self, f: &mut Formatter<W>) -> fmt::Result {
        write!(f, "{} cost {} arrived", self.prefix, self.paid)
    }
}

// The line of a router that is one too many.
fn turns_line(alloc: Global, at: RouterId) -> Result<String, AllocError>
    ensures { IfOk result (λ line. string_bytes line ≡ turns_line at) }
{
    let line = format!(in alloc; "{at} turns\n")?;
    Ok(line)
}

// What the link of a hop costs, for which there is one.
fn cost_of(listing: &Listing, at: RouterId, hop: &NextHop) -> u16
    requires { (metric : ℕ) × HasLinkFor (advertisements_of listing.now) at hop.now metric }
    ensures { IsLinkCost (advertisements_of listing.now) at hop.now result }
{
    let Some(cost) = link_cost(listing, at, hop) else {
        unreachable!()
    };
    cost
}
