//! What never changes of an interface.

use crate::iface::candidate::Elected;
use crate::iface::machine::IfaceState;
use ospf_base::{Addr, InterfaceKind, RouterId};

/// What never changes of an interface (RFC 2328, appendix C.3).
#[derive(Clone, Copy, Debug, PartialEq, Eq)]
pub struct IfaceSettings {
    /// The router's own ID.
    pub router: RouterId,
    pub kind: InterfaceKind,
    pub address: Addr,
    pub mask: u32,
    /// The Router Priority; with 0 it is never Designated Router or Backup.
    pub priority: u8,
    /// HelloInterval, in ticks.
    pub hello: u16,
    /// RouterDeadInterval, in ticks.
    pub dead: u32,
}

impl IfaceSettings {
    ghost use Rattle.std.specs.Prelude.{◌≡◌, ◌↔◌, IsTrue};
    ghost use Rattle.ospf_neighbour.specs.Interface.Machine.{first_state, elected_state};

    /// Whether the link has two ends and no Designated Router.
    pub fn is_point_to_point(&self) -> bool
        ensures { IsTrue result ↔ (self.now.kind ≡ InterfaceKind.PointToPoint) }
    {
        match self.kind {
            InterfaceKind::PointToPoint => true,
            InterfaceKind::Broadcast => false,
        }
    }

    /// The state in which the interface starts (RFC 2328, section 9.3).
    pub fn first_state(&self) -> IfaceState
        ensures { result ≡ first_state self.now }
    {
        match self.kind {
            InterfaceKind::PointToPoint => IfaceState::PointToPoint,
            InterfaceKind::Broadcast => {
                if self.priority == 0 {
                    IfaceState::DrOther
                } else {
                    IfaceState::Waiting
                }
            }
        }
    }

    // The state in which an election leaves the interface.
    pub(crate) fn elected_state(&self, e: Elected) -> IfaceState
        ensures { result ≡ elected_state self.now.address e }
    {
        if e.dr.0 == self.address.0 {
            IfaceState::Dr
        } else if e.backup.0 == self.address.0 {
            IfaceState::Backup
        } else {
            IfaceState::DrOther
        }
    }
}
