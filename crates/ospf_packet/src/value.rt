//! Packets that own what they say.

use crate::body::{Description, Hello};
use crate::entry::RequestEntry;
use ospf_base::{AreaId, RouterId};
use ospf_lsa::{Lsa, LsaHeader};

/// A packet to be written: what its header says, and its body (RFC 2328, appendix A.3).
#[derive(Drop)]
pub struct PacketValue {
    /// The router that sends it.
    pub router: RouterId,
    pub area: AreaId,
    pub body: BodyValue,
}

/// The body of a packet: its fields, and the list after them.
#[derive(Drop)]
pub enum BodyValue {
    /// With the Router IDs of the neighbours that were heard.
    Hello(Hello, Vec<RouterId>),
    /// With the headers of LSAs in the sender's database.
    Description(Description, Vec<LsaHeader>),
    Request(Vec<RequestEntry>),
    Update(Vec<Lsa>),
    /// The headers of the LSAs that were received.
    Acknowledgment(Vec<LsaHeader>),
}
