//! Where prefixes are attached to the graph.

use crate::Vertex;
use ospf_base::Prefix;

/// An end of a prefix, at this cost: a transit network or a router with a stub network (RFC 2328,
/// section 16.1).
#[derive(Clone, Copy, Debug, PartialEq, Eq)]
pub struct End {
    pub prefix: Prefix,
    pub vertex: Vertex,
    pub cost: u16,
}
