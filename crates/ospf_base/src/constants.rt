//! Constants of the protocol (RFC 2328, appendices A.1 to A.4), and sizes in bytes.

use crate::ids::Addr;

/// AllSPFRouters, 224.0.0.5: all OSPF routers of a link.
pub const ALL_SPF_ROUTERS: Addr = Addr(0xe000_0005);

/// AllDRouters, 224.0.0.6: the Designated Router and the Backup of a link.
pub const ALL_D_ROUTERS: Addr = Addr(0xe000_0006);

/// The Options that this router sends: only the E-bit, for ExternalRoutingCapability (A.2).
pub const OPTIONS: u8 = 0x02;

/// The LS type of a router-LSA (A.4.1).
pub const ROUTER_LSA: u8 = 1;

/// The LS type of a network-LSA.
pub const NETWORK_LSA: u8 = 2;

/// The LS type of a summary-LSA of a network.
pub const SUMMARY_LSA: u8 = 3;

/// The LS type of a summary-LSA of an AS boundary router.
pub const ASBR_SUMMARY_LSA: u8 = 4;

/// The LS type of an AS-external-LSA.
pub const AS_EXTERNAL_LSA: u8 = 5;

/// The LS sequence number that no LSA has (12.1.6).
pub const RESERVED_SEQUENCE_NUMBER: i32 = -0x8000_0000;

/// InitialSequenceNumber, that of the first instance of an LSA (12.1.6 and appendix B).
pub const INITIAL_SEQUENCE_NUMBER: i32 = -0x7fff_ffff;

/// MaxSequenceNumber, the greatest; its LSA is flushed before there is another (12.1.6).
pub const MAX_SEQUENCE_NUMBER: i32 = 0x7fff_ffff;

/// The floor of a router that remembers no LSA of its own: below all LS sequence numbers.
pub const NO_FLOOR: i32 = RESERVED_SEQUENCE_NUMBER;

/// The header of an IP packet without options.
pub const IP_HEADER: usize = 20;

/// The header of an OSPF packet (A.3.1).
pub const PACKET_HEADER: usize = 24;

/// The header of an LSA (A.4.1).
pub const LSA_HEADER: usize = 20;

/// The most interfaces of a router.
pub const MOST_INTERFACES: usize = 32;

/// The longest packet that is read or written.
pub const LARGEST_PACKET: usize = 16384;

/// The longest LSA that is made: an Update that carries only this LSA is a longest packet.
pub const LARGEST_LSA: usize = 16356;
