//! A drawing of what a router lists, in the language of Graphviz's `dot`.
//!
//! A `Graph` is a listing, with routers that have stopped and a walk, and prints the drawing
//! (`specs/AreaDrawing/Graph`). `Under` writes a prefix under the name of a node.

mod arrows;
mod boxes;
mod edges;
mod ends;
mod graph;
mod graph_laws;
mod nodes;

pub use crate::drawing::graph::Graph;
pub use crate::drawing::graph_laws::{names_tell_apart, prefixes_are_drawn};
pub use crate::drawing::nodes::Under;
