//! The five packets of OSPF version 2 (RFC 2328, appendix A.3): reading them
//! in place, and writing them.
//!
//! `Packet::read` checks a datagram and lends its lists as iterators. `write_packet`
//! appends what a `PacketValue` says. `specs/Packet` defines which bytes are a packet,
//! `specs/Meaning` how a packet is encoded.
#![tactic(auto)]

mod body;
mod entry;
mod fault;
mod headers;
mod laws;
mod layout;
mod lsas;
mod packet;
mod requests;
mod value;
mod write;

pub use crate::body::{Body, Description, Hello};
pub use crate::entry::RequestEntry;
pub use crate::fault::{PacketFault, WriteFault};
pub use crate::headers::Headers;
pub use crate::laws::{age_changes_no_verdict, reads_what_is_spelled, reads_what_was_written};
pub use crate::layout::{COUNT_SIZE, DESCRIPTION_FIELDS, HELLO_FIELDS, REQUEST_SIZE};
pub use crate::lsas::Lsas;
pub use crate::packet::Packet;
pub use crate::requests::Requests;
pub use crate::value::{BodyValue, PacketValue};
pub use crate::write::write_packet;
pub use ospf_base::LARGEST_PACKET;
pub use ospf_lsa::Attached as Neighbours;
