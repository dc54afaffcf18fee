//! The interfaces whose costs differ between two areas.

ghost use Rattle.std.specs.Prelude.{◌≡◌, IfOk, OnOk, filter_map, flat_map, string_bytes};
ghost use Rattle.std.specs.BTreeMap.{IsOrdered, get};
ghost use Rattle.ospf_graph.specs.EdgeLists.Costs.{lesser_of};
ghost use Rattle.ospf_graph.specs.EdgeLists.Listed.{advertisements_of};
ghost use Rattle.ospf_change.specs.Diff.Costs.{AddsCost, AreCostChanges, AreInterfaceCosts, PutsLeast, change_in, cost_line, interface_cmp};

use ospf_base::{Addr, RouterId};
use ospf_graph::edges::edges_of;
use ospf_graph::{Edge, Vertex};
use ospf_lsa::Listing;
use std::alloc::{AllocError, Global};
use std::collections::BTreeMap;
use std::fmt::{self, Display, Formatter, Write};

/// An interface: its router, the router or the transit network that it leads to, and its Link Data
/// (RFC 2328, section 12.4.1).
///
/// Interfaces are in the order of these fields.
#[derive(Clone, Copy, Debug, PartialEq, Eq, PartialOrd, Ord)]
pub struct Interface {
    pub router: RouterId,
    pub to: Vertex,
    pub link_data: u32,
}

/// An interface of two areas that costs this much in the first and that much in the second.
#[derive(Clone, Copy, Debug, PartialEq, Eq)]
pub struct CostChange {
    pub interface: Interface,
    pub before: u16,
    pub after: u16,
}

/// As `cost 1.1.1.1 10.0.12.1 to 2.2.2.2: 10 -> 20`, or `to @10.1.0.3` a transit network.
impl Display for CostChange {
    ghost use Rattle.std.specs.Prelude.{Some};
    ghost use Rattle.ospf_change.specs.Diff.Costs.{cost_change_text};

    ghost output = { λ change. Some (cost_change_text change) };

    fn fmt<W: Write>(&self, f: &mut Formatter<W>) -> fmt::Result {
        let at = self.interface;
        write!(f, "cost {} {} to ", at.router, Addr(at.link_data))?;
        match at.to {
            Vertex::Router(router) => write!(f, "{router}")?,
            Vertex::Network(network) => write!(f, "@{}", Addr(network))?,
        }
        write!(f, ": {} -> {}", self.before, self.after)
    }
}

/// The interfaces that two areas have at different costs, in their order. Of several links that one
/// interface has to one end, the cheapest counts.
///
/// `AllocError` where memory runs out.
pub fn cost_changes(
    alloc: Global,
    before: &Listing,
    after: &Listing,
) -> Result<Vec<CostChange>, AllocError>
    ensures { IfOk result (λ found. AreCostChanges (advertisements_of before.now)
        (advertisements_of after.now) found.items) }
{
    let old = costs_of(alloc, before)?;
    let new = costs_of(alloc, after)?;
    changes_between(alloc, &old, &new)
}

// The interfaces of two maps at different costs.
fn changes_between(
    alloc: Global,
    old: &BTreeMap<Interface, u16>,
    new: &BTreeMap<Interface, u16>,
) -> Result<Vec<CostChange>, AllocError>
    ensures changes { IfOk result (λ found. found.items
        ≡ filter_map (change_in (get interface_cmp new.now)) old.now.entries) }
    ensures ordered { IsOrdered interface_cmp old.now }
{
    let mut found = Vec::new(alloc);
    for (interface, before) in old {
        if let Some(change) = change_of(*interface, *before, new) {
            found.push(change)?;
        }
    }
    Ok(found)
}

// The change of an interface, if the other map has it at another cost.
fn change_of(
    interface: Interface,
    before: u16,
    new: &BTreeMap<Interface, u16>,
) -> Option<CostChange>
    ensures { result ≡ change_in (get interface_cmp new.now) (interface, before) }
{
    let after = *new.get(&interface)?;
    if before == after {
        return None;
    }
    Some(CostChange {
        interface,
        before,
        after,
    })
}

// What each interface of an area costs.
fn costs_of(alloc: Global, listing: &Listing) -> Result<BTreeMap<Interface, u16>, AllocError>
    ensures { IfOk result (λ costs. AreInterfaceCosts (advertisements_of listing.now)
        (get interface_cmp costs)) }
{
    let edges = edges_of(alloc, listing)?;
    let mut costs = BTreeMap::new(alloc);
    for edge in &edges {
        add_edge(edge, &mut costs)?;
    }
    Ok(costs)
}

// Notes what the interface of an edge costs, where a router has it.
fn add_edge(edge: &Edge, costs: &mut BTreeMap<Interface, u16>) -> Result<(), AllocError>
    ensures { OnOk result (AddsCost edge.now (get interface_cmp costs.old)
        (get interface_cmp costs.new)) }
{
    match edge.from {
        Vertex::Router(router) => {
            let interface = Interface {
                router,
                to: edge.to,
                link_data: edge.link_data,
            };
            put_least(interface, edge.cost, costs)
        }
        Vertex::Network(_) => Ok(()),
    }
}

// Notes what an interface costs, where it is not known to cost less.
fn put_least(
    interface: Interface,
    cost: u16,
    costs: &mut BTreeMap<Interface, u16>,
) -> Result<(), AllocError>
    ensures { OnOk result (PutsLeast interface cost (get interface_cmp costs.old)
        (get interface_cmp costs.new)) }
{
    let least = lesser(costs.get(&interface).copied(), cost);
    costs.insert(interface, least)?;
    Ok(())
}

// The lesser of a cost and the least so far.
fn lesser(least: Option<u16>, cost: u16) -> u16
    ensures { result ≡ lesser_of least cost }
{
    least.map_or(cost, |least| least.min(cost))
}

// A line for each change.
pub(crate) fn changes_text(alloc: Global, changes: &[CostChange]) -> Result<String, AllocError>
    ensures { IfOk result (λ text. string_bytes text ≡ flat_map cost_line changes.now) }
{
    let mut text = String::new(alloc);
    for change in changes {
        writeln!(text, "{change}")?;
    }
    Ok(text)
}
