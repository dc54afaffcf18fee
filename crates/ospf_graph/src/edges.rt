//! A listing as the graph of an area (RFC 2328, section 16.1): its edges, where its prefixes are,
//! what of it the graph depends on, and what a next hop costs.
//!
//! `edges_of` and `ends_of` return all edges of a listing and all ends of its prefixes, `edges_at`
//! and `ends_at` those at one vertex. `items_in` returns what the graph depends on, and
//! `are_items_of` compares it with another listing. `link_cost` is the least metric of the links
//! that lead where a hop does. `specs/EdgeLists/Given` defines which edges each LSA gives.

mod addresses;
mod cost;
mod edges;
mod end;
mod ends;
mod index;
mod items;
mod listed;
mod lookups;
mod near;

pub use crate::edges::cost::link_cost;
pub use crate::edges::edges::edges_of;
pub use crate::edges::end::End;
pub use crate::edges::ends::{ends_at, ends_of};
pub use crate::edges::items::{GraphItem, are_items_of, items_in};
pub use crate::edges::listed::is_listed;
pub use crate::edges::near::edges_at;
