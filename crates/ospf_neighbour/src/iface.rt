//! An interface: its state machine, the election of the network's Designated Router and Backup, and
//! the Hellos that it sends and agrees with (RFC 2328, section 9).

mod candidate;
mod election;
mod hello;
mod laws;
mod machine;
mod settings;

pub use crate::iface::candidate::{Candidate, Elected};
pub use crate::iface::election::elect;
pub use crate::iface::laws::{
    has_one_result, order_does_not_matter, own_may_be_elected, own_stands_beside_others,
};
pub use crate::iface::machine::{Iface, IfaceChange, IfaceEvent, IfaceState};
pub use crate::iface::settings::IfaceSettings;
pub use ospf_base::OPTIONS;
