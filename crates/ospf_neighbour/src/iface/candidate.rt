//! Who takes part in an election, and who is elected.

use ospf_base::{Addr, RouterId};

/// A router that takes part in an election, with what its last Hello declares.
#[derive(Clone, Copy, Debug, PartialEq, Eq)]
pub struct Candidate {
    pub id: RouterId,
    /// The address of its interface.
    pub address: Addr,
    /// The Router Priority; 0 is never elected.
    pub priority: u8,
    /// The address that it declares as the Designated Router, 0.0.0.0 for none.
    pub dr: Addr,
    /// The address that it declares as the Backup, 0.0.0.0 for none.
    pub backup: Addr,
}

/// The interface addresses of the Designated Router and the Backup; 0.0.0.0 where there is none.
#[derive(Clone, Copy, Debug, PartialEq, Eq)]
pub struct Elected {
    pub dr: Addr,
    pub backup: Addr,
}
