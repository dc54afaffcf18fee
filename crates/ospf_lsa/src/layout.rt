//! Where the fields of an LSA are in its bytes, and sizes in bytes (RFC 2328, appendix A.4).

/// Where the Options are in the header (A.4.1).
pub const OPTIONS_AT: usize = 2;

/// Where the LS type is.
pub const TYPE_AT: usize = 3;

// Where the Link State ID begins.
pub(crate) const ID_AT: usize = 4;

// Where the Advertising Router begins.
pub(crate) const ROUTER_AT: usize = 8;

/// Where the LS sequence number begins.
pub const NUMBER_AT: usize = 12;

// Where the LS checksum begins.
pub(crate) const SUM_AT: usize = 16;

/// Where the length begins, the last field of the header.
pub const LENGTH_AT: usize = 18;

// Where the number of links of a router-LSA begins (A.4.2).
pub(crate) const COUNT_AT: usize = 22;

/// Where the links of a router-LSA begin, or the routers of a network-LSA.
pub const ENTRIES_AT: usize = 24;

/// The size of a link without TOS metrics.
pub const LINK_SIZE: usize = 12;

// The size of a TOS metric.
pub(crate) const TOS_SIZE: usize = 4;

// The size of a Router ID.
pub(crate) const ROUTER_SIZE: usize = 4;
