//! Costs that no LSA contains, and that a failure brings about.

ghost use Rattle.std.specs.Prelude.{◌≡◌, ◌↔◌, All, IfOk, IsTrue, OnOk};
ghost use Rattle.ospf_graph.specs.EdgeLists.Listed.{advertisements_of};
ghost use Rattle.ospf_graph.specs.Adds.{Adds};
ghost use Rattle.ospf_harm.specs.Hidden.{AreHidden, HiddenGiven, IsOfTwo, OtherGiven};
ghost use Rattle.ospf_whatif.specs.Single.{GivenBy};

use ospf_base::RouterId;
use ospf_graph::edges::edges_at;
use ospf_graph::{Edge, Vertex, is_same};
use ospf_lsa::Listing;
use ospf_whatif::edges_in_order;
use std::alloc::{AllocError, Global};

// The metric of a stub router's links (RFC 6987).
const LARGEST_METRIC: u16 = 0xffff;

/// A stub router on a network with one other router (RFC 6987). When the other fails, the network
/// becomes a stub network at the cost of the router's interface, which no LSA contains.
#[derive(Clone, Copy, Debug, PartialEq, Eq)]
pub struct HiddenCost {
    pub router: RouterId,
    /// The network, by its Link State ID.
    pub network: u32,
    /// The router that leaves it alone there.
    pub other: RouterId,
}

/// The stub routers that the failure of one other router, or of its interface, leaves alone on a
/// network, each with the network and that router.
///
/// `AllocError` where memory runs out.
pub fn hidden_costs(alloc: Global, listing: &Listing) -> Result<Vec<HiddenCost>, AllocError>
    ensures { IfOk result (λ hidden. AreHidden (advertisements_of listing.now) hidden.items) }
{
    let edges = edges_in_order(alloc, listing)?;
    let mut hidden = Vec::new(alloc);
    for edge in &edges {
        add_hidden(alloc, listing, edge, &mut hidden)?;
    }
    Ok(hidden)
}

// Adds what an edge from a stub router to a network gives.
fn add_hidden(
    alloc: Global,
    listing: &Listing,
    edge: &Edge,
    hidden: &mut Vec<HiddenCost>,
) -> Result<(), AllocError>
    ensures { OnOk result (Adds (HiddenGiven (advertisements_of listing.now) edge.now)
        hidden.old.items hidden.new.items) }
{
    match (edge.from, edge.to) {
        (Vertex::Router(router), Vertex::Network(network)) => {
            if edge.cost == LARGEST_METRIC {
                let near = edges_at(alloc, listing, Vertex::Network(network))?;
                add_others(&near, router, network, hidden)?;
            }
            Ok(())
        }
        (Vertex::Router(_), Vertex::Router(_)) => Ok(()),
        (Vertex::Network(_), Vertex::Router(_)) => Ok(()),
        (Vertex::Network(_), Vertex::Network(_)) => Ok(()),
    }
}

// Adds a cost for each other router on the stub router's network, if there are only these two.
fn add_others(
    near: &[Edge],
    router: RouterId,
    network: u32,
    hidden: &mut Vec<HiddenCost>,
) -> Result<(), AllocError>
    ensures { OnOk result (Adds (GivenBy (OtherGiven near.now router network) near.now)
        hidden.old.items hidden.new.items) }
{
    for edge in near {
        add_other(near, router, network, edge, hidden)?;
    }
    Ok(())
}

// Adds what one of them gives.
fn add_other(
    near: &[Edge],
    router: RouterId,
    network: u32,
    edge: &Edge,
    hidden: &mut Vec<HiddenCost>,
) -> Result<(), AllocError>
    ensures { OnOk result (Adds (OtherGiven near.now router network edge.now)
        hidden.old.items hidden.new.items) }
{
    match (edge.from, edge.to) {
        (Vertex::Router(other), Vertex::Network(id)) => {
            if id == network && other.0 != router.0 && are_two(near, router, other, network) {
                let cost = HiddenCost {
                    router,
                    network,
                    other,
                };
                add_cost(hidden, cost)?;
            }
            Ok(())
        }
        (Vertex::Router(_), Vertex::Router(_)) => Ok(()),
        (Vertex::Network(_), Vertex::Router(_)) => Ok(()),
        (Vertex::Network(_), Vertex::Network(_)) => Ok(()),
    }
}

// Adds one.
fn add_cost(hidden: &mut Vec<HiddenCost>, cost: HiddenCost) -> Result<(), AllocError>
    ensures { OnOk result (Adds (λ h. h ≡ cost) hidden.old.items hidden.new.items) }
{
    hidden.push(cost)?;
    Ok(())
}

// Whether the edges to a network come from two routers alone.
fn are_two(near: &[Edge], router: RouterId, other: RouterId, network: u32) -> bool
    ensures { IsTrue result ↔ All (IsOfTwo router other network) near.now }
{
    near.iter()
        .all(|edge| is_of_two(edge, router, other, network))
}

// Whether an edge to a network comes from one of two routers.
fn is_of_two(edge: &Edge, router: RouterId, other: RouterId, network: u32) -> bool
    ensures { IsTrue result ↔ IsOfTwo router other network edge.now }
{
    !is_same(edge.to, Vertex::Network(network))
        || is_same(edge.from, Vertex::Router(router))
        || is_same(edge.from, Vertex::Router(other))
}
