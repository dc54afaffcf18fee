//! Offsets of the fields of a packet's header, packet types, and sizes in bytes (RFC 2328,
//! appendix A.3).

// OSPF version 2.
pub(crate) const VERSION: u8 = 2;

// The offset of the version in the header (A.3.1).
pub(crate) const VERSION_AT: usize = 0;

// The offset of the packet type.
pub(crate) const TYPE_AT: usize = 1;

// The offset of the packet length.
pub(crate) const LENGTH_AT: usize = 2;

// The offset of the Router ID.
pub(crate) const ROUTER_AT: usize = 4;

// The offset of the Area ID.
pub(crate) const AREA_AT: usize = 8;

// The offset of the checksum.
pub(crate) const SUM_AT: usize = 12;

// The offset of its lower byte.
pub(crate) const SUM_LOW_AT: usize = 13;

// The offset of the AuType.
pub(crate) const AUTH_AT: usize = 14;

// The type of a Hello (A.3.2).
pub(crate) const HELLO: u8 = 1;

// The type of a Database Description (A.3.3).
pub(crate) const DESCRIPTION: u8 = 2;

// The type of a Link State Request (A.3.4).
pub(crate) const REQUEST: u8 = 3;

// The type of a Link State Update (A.3.5).
pub(crate) const UPDATE: u8 = 4;

// The type of a Link State Acknowledgment (A.3.6).
pub(crate) const ACKNOWLEDGMENT: u8 = 5;

/// The size of the fields of a Hello.
pub const HELLO_FIELDS: usize = 20;

/// The size of the fields of a Database Description.
pub const DESCRIPTION_FIELDS: usize = 8;

/// The size of an entry of a Link State Request.
pub const REQUEST_SIZE: usize = 12;

/// The size of the number of LSAs of an Update.
pub const COUNT_SIZE: usize = 4;

// The size of a Router ID.
pub(crate) const ROUTER_SIZE: usize = 4;
