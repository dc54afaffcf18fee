//! Interfaces.

ghost use Rattle.std.specs.Prelude.{◌<◌, ◌≤◌, vec_len};
ghost use Rattle.ospf_base.specs.Constants.{max_age};

use crate::address::InterfaceAddress;
use ospf_base::InterfaceKind;

// The least port that needs no privilege.
pub(crate) const LEAST_PORT: u16 = 1024;

/// A UDP port that represents an interface: 1024 to 65535.
#[derive(Clone, Copy, Debug, PartialEq, Eq)]
pub struct Port {
    pub number: u16,
    ghost unprivileged: { 1024 ≤ number },
    ghost fits: { number ≤ 65535 },
}

/// An interface (RFC 2328, appendix C.3) that is not passive. Times are in ticks.
#[derive(Debug, Drop)]
pub struct Interface {
    pub kind: InterfaceKind,
    pub address: InterfaceAddress,
    /// The interface output cost, 1 to 65535.
    pub cost: u16,
    /// The Router Priority, 0 to 255.
    pub priority: u8,
    /// HelloInterval, 1 to 65535.
    pub hello: u16,
    /// RouterDeadInterval, above `hello`.
    pub dead: u16,
    /// RxmtInterval, 1 to 65535.
    pub retransmit: u16,
    /// InfTransDelay, 1 to 3600.
    pub transmit_delay: u16,
    /// The largest IP datagram, 576 to 9000 bytes.
    pub mtu: u16,
    /// The UDP port of the interface.
    pub port: Option<Port>,
    /// The ports that datagrams are sent to, at most 32.
    pub peers: Vec<Port>,
    /// Whether the prefix of the interface's link is not advertised (RFC 6860).
    pub prefix_suppression: bool,
    ghost cost_not_zero: { 0 < cost },
    ghost hello_not_zero: { 0 < hello },
    ghost dead_over_hello: { hello < dead },
    ghost retransmit_not_zero: { 0 < retransmit },
    ghost transmit_delay_not_zero: { 0 < transmit_delay },
    ghost transmit_delay_at_most: { transmit_delay ≤ max_age },
    ghost mtu_at_least: { 576 ≤ mtu },
    ghost mtu_at_most: { mtu ≤ 9000 },
    ghost few_peers: { vec_len peers ≤ 32 },
}
