//! Shortest paths that are stored, and updated when edges are added or removed
//! (incremental SPF; RFC 2328, section 16.1).
//!
//! `KeptPaths` holds the result of a search. `grow` adds edges, `shrink` removes edges, and
//! `change` does both; `without` gives the paths without some edges and leaves the stored ones
//! unchanged. Each searches again only for what the edges affect, or for all from scratch.

mod grow;
mod kept;
mod left;
mod shrink;

pub use crate::incremental::kept::KeptPaths;
pub use crate::incremental::left::{LeftPaths, Paths};
