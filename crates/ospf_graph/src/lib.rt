//! The graph of a listing, the shortest paths through it, and where walks along next hops arrive
//! (RFC 2328, section 16.1).
//!
//! `edges` holds the edges and the prefixes that a listing gives, with an index by vertex.
#![tactic(auto)]

mod candidates;
pub mod edges;
mod graph;
mod hop;
mod laws;
mod lookups;
mod pairs;
mod paths;
mod reached;
mod route;
mod show;

pub use crate::candidates::{Candidates, SpfCandidate};
pub use crate::graph::{Edge, Start, Vertex, vertex_order};
pub use crate::hop::NextHop;
pub use crate::laws::{edges_elsewhere_stay, one_table, walk_law};
pub use crate::lookups::{distance_at, starts_at};
pub use crate::pairs::{Pairs, pair_order};
pub use crate::paths::{
    Searched, Settled, ShortestPaths, VertexStart, edges_from, extended, is_same, listed, search,
    shortest_paths, sorted_edges,
};
pub use crate::reached::{Reached, bring, place_of, reach};
pub use crate::route::{Hops, Route};
