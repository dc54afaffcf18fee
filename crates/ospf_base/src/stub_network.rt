//! Stub networks that a router lists behind its interfaces' links.

use crate::prefix::Prefix;

/// A stub network that a router lists in its router-LSA behind its interfaces' links (RFC 2328,
/// section 12.4.1): a host that it reaches directly or an address of its own, such as that of a
/// loopback (appendix C.7), or the network of a passive interface.
#[derive(Clone, Copy, Debug, PartialEq, Eq)]
pub struct StubNetwork {
    /// The network's prefix; a host's has 32 bits.
    pub prefix: Prefix,
    /// The cost of the router's link to it.
    pub cost: u16,
}
