//! A router (RFC 2328): its part of an area and its routing table, stepped by datagrams, ticks,
//! and links that go up and down.
//!
//! `Router::start` starts one from its configuration, and `Router::step` takes an event (sections
//! 8.2 and 16.1). Its table is a `KeptRoutes`: the routes of what its database lists, with the
//! listing and the shortest paths that they were made from, which grow when a new or changed LSA is
//! listed. What a step does is in `specs/Steps`, and what routes are in `specs/Routes`.
//!
//! `step` steps the router's area: drops, packets, ticks, elections and own LSAs, and the laws that
//! each step keeps (`specs/AreaStep`). `laws` has what each step keeps in nine sentences
//! (`specs/Laws`).
#![tactic(auto)]

mod ends;
mod fault;
mod followed;
mod growing;
pub mod laws;
mod listed;
mod router;
mod routes;
mod start;
pub mod step;
mod turned;

pub use crate::fault::{StartFault, Stopped};
pub use crate::router::{Router, Step};
pub use crate::routes::KeptRoutes;
pub use crate::step::{Dropped, Event};
pub use ospf_area::{Outputs, Sent};
