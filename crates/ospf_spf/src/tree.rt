//! The tree of shortest paths, stored for listings of one graph.

ghost use Rattle.std.specs.Prelude.{◌≡◌, ◌+◌, ◌*◌, ◌≤◌, ◌↔◌, IfOk, IsTrue, map};
ghost use Rattle.ospf_graph.specs.Routes.{IsTable};
ghost use Rattle.ospf_graph.specs.SameGraph.{graph_part};
ghost use Rattle.ospf_graph.specs.EdgeLists.Given.{link_count};
ghost use Rattle.ospf_graph.specs.EdgeLists.Listed.{advertisements_of};

use crate::routes::table_of;
use crate::table::RouteTable;
use ospf_base::RouterId;
use ospf_graph::edges::{GraphItem, are_items_of, edges_of, ends_of, is_listed, items_in};
use ospf_graph::{ShortestPaths, Vertex, shortest_paths};
use ospf_lsa::Listing;
use std::alloc::{AllocError, Global};
use std::marker::Model;

/// The shortest paths from a router over a listing's graph, for this listing and all others of the
/// same graph: of the same keys, and key by key the same links of types 1 and 2 in order, or the
/// same mask and attached routers in order (RFC 2328, section 16.1). Ages, numbers, options, flags
/// and links of types 3 and 4 are free.
#[derive(Drop)]
pub struct Tree {
    root: RouterId,
    items: Vec<GraphItem>,
    paths: ShortestPaths,
}

impl Model for Tree {
    ghost use Rattle.ospf_graph.specs.EdgeLists.Items.{graph_in};
    ghost use Rattle.ospf_spf.specs.Kept.{IsKeptFor, KeptSearch};

    ghost Value = { KeptSearch };

    ghost view = { λ t. record {
      graph = graph_in t.items.items;
      root = t.root;
      looks = t.paths.looks;
    } };

    ghost invariant = { λ t. IsKeptFor t.items.items t.root t.paths };
}

impl Tree {
    /// The tree of a listing's graph at a root.
    ///
    /// `AllocError` where memory runs out.
    pub fn of(alloc: Global, listing: &Listing, root: RouterId) -> Result<Tree, AllocError>
        ensures root { IfOk result (λ tree. tree.root ≡ root) }
        ensures graph { IfOk result (λ tree. map graph_part (advertisements_of listing.now)
            ≡ tree.graph) }
        ensures looks { IfOk result (λ tree. tree.looks
            ≤ 2 * link_count (advertisements_of listing.now) + 1) }
    {
        let items = items_in(alloc, listing)?;
        let edges = edges_of(alloc, listing)?;
        let paths = shortest_paths(alloc, &edges, Vertex::Router(root))?;
        Ok(Tree { root, items, paths })
    }

    /// Whether the tree is that of another listing too: whether its graph is the same.
    pub fn holds_for(&self, listing: &Listing) -> bool
        ensures { IsTrue result ↔ (map graph_part (advertisements_of listing.now)
            ≡ self.now.graph) }
    {
        are_items_of(&self.items, listing)
    }

    /// The routing table of a listing that the tree holds for, at the tree's root (RFC 2328,
    /// sections 16.1 and 16.1.1). A root whose router-LSA is not listed reaches nothing.
    ///
    /// `AllocError` where memory runs out.
    pub fn routes(&self, alloc: Global, listing: &Listing) -> Result<RouteTable, AllocError>
        requires holds { map graph_part (advertisements_of listing.now) ≡ self.now.graph }
        ensures { IfOk result (λ table. IsTable (advertisements_of listing.now) self.now.root
            table) }
    {
        if !is_listed(listing, self.root) {
            return Ok(RouteTable::empty(alloc));
        }
        let ends = ends_of(alloc, listing)?;
        let routes = table_of(alloc, &self.paths, &ends)?;
        Ok(RouteTable::of_routes(routes))
    }

    /// How often the search looked at its candidates, as far as a `u64` goes: each time one was put
    /// among those that wait, and each time the next was asked for.
    pub fn looks(&self) -> u64
        ensures { result ≡ self.now.looks }
    {
        self.paths.looks
    }
}
