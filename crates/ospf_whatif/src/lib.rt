//! An area without one of its links, attachments, networks or routers: the LSAs that its routers
//! would have after the failure, and what changes in a routing table (RFC 2328, sections 12.4.1
//! and 16.1).
//!
//! It is a law that the links left here are those that the routers then want to advertise
//! (`links_go_down`, `interfaces_go_down`, `routers_stop`; through switches `ends_go_down`,
//! `far_ends_stay_up`; for failures that happen together `failures_come_together`). Routers on a
//! network with another DR list it under another name (`designated_routers_change`), which changes
//! no routing table (`networks_are_but_names`, `only_links_back_count`).
#![tactic(auto)]

mod area;
mod effect;
mod failure;
mod failures;
mod laws;
mod name;
mod outage;
mod root;
mod router_laws;
mod stubs;
mod subnets;

pub use crate::area::{WithoutFault, without, without_all};
pub use crate::effect::{Loss, RouteChange};
pub use crate::failure::AreaFailure;
pub use crate::failures::{put_in_order, single_failures};
pub use crate::laws::{
    all_names_tell_apart, failure_names_tell_apart, failures_make_no_edge, failures_take_away,
    links_fail_apart, networks_are_but_names, no_stub_is_forgotten, only_links_back_count,
    stubs_fail_alone, trees_stay,
};
pub use crate::outage::{AreaGraph, Outage, edges_in_order};
pub use crate::root::KeptRoot;
pub use crate::router_laws::{
    designated_routers_change, ends_go_down, failures_come_together, far_ends_stay_up,
    interfaces_go_down, links_go_down, routers_stop,
};
pub use crate::stubs::all_failures;
