//! Ids, keys, prefixes, ages and checksums of OSPF version 2 (RFC 2328).
#![tactic(auto)]

mod age;
mod bytes;
mod constants;
pub mod event;
mod ids;
mod interface;
mod laws;
mod parse;
mod prefix;
mod show;
mod stub_network;
mod sums;
mod ticks;

pub use crate::age::{Age, MAX_AGE, MAX_AGE_DIFF};
pub use crate::bytes::{i32_at, u16_at, u32_at};
pub use crate::constants::{
    ALL_D_ROUTERS, ALL_SPF_ROUTERS, AS_EXTERNAL_LSA, ASBR_SUMMARY_LSA, INITIAL_SEQUENCE_NUMBER,
    IP_HEADER, LARGEST_LSA, LARGEST_PACKET, LSA_HEADER, MAX_SEQUENCE_NUMBER, MOST_INTERFACES,
    NETWORK_LSA, NO_FLOOR, OPTIONS, PACKET_HEADER, RESERVED_SEQUENCE_NUMBER, ROUTER_LSA,
    SUMMARY_LSA,
};
pub use crate::ids::{Addr, AreaId, Instance, Kind, LsaKey, RouterId};
pub use crate::interface::InterfaceKind;
pub use crate::laws::{same_instances_are_equal, same_keys_are_equal};
pub use crate::prefix::{Prefix, is_mask, mask_length, mask_of};
pub use crate::stub_network::StubNetwork;
pub use crate::sums::{lsa_sum, lsa_sum_holds, packet_sum};
pub use crate::ticks::{have_passed, ticks_since};
