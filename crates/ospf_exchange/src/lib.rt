//! The exchange of databases with one neighbour (RFC 2328, sections 10.6 to 10.9).
//!
//! `begin` enters ExStart, `on_dd` processes a Database Description, `next_request` asks for LSAs
//! and `on_request` answers what a neighbour asks. `specs/Rules` defines which rule a Database
//! Description meets, `specs/Exchange` what it does.
#![tactic(auto)]

mod description;
mod fault;
mod headers;
mod laws;
mod request;
mod rule;
mod timers;

pub use crate::description::{DdAnswer, is_not_taken, on_dd};
pub use crate::fault::ExchangeFault;
pub use crate::laws::{
    descriptions_keep_routers, headers_are_of_copies, instances_are_of_copies, listed_stay,
    lists_are_copies, not_taken_is_unchanged, requests_are_told,
};
pub use crate::request::{is_request_due, next_request, on_request};
pub use crate::rule::{Local, is_other};
pub use crate::timers::{begin, beginning, dd_sent, is_dd_due, is_request_repeat_due};
