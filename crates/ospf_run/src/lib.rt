//! Routers that run in threads of their own, over UDP on this machine.
//!
//! `run_routers` does the whole, by the rules of OSPF routers, and `run_text` for any `Machine`: it
//! reads configurations, opens sockets, drives the routers, looks an address up while they run,
//! prints their tables, and reports to a `Tap` what happens meanwhile. The outcome of each router
//! is in `specs/Runs`, and what is written if a failure cuts a run short in `specs/Cut`. `prepare`
//! of `ospf_drive` finds what is refused before a socket is opened. All output is in
//! `specs/Printed`: `print_at_tick` prints a table while routers run, and `report` prints their
//! outcomes and returns the status to end with.
#![tactic(auto)]

mod at_tick;
mod begin;
mod extras;
mod finish;
mod look;
mod lsdb;
mod outcome;
mod over;
mod print;
mod routers;
mod run;
mod settings;
mod status;
mod tap;
mod wires;

pub use crate::at_tick::print_at_tick;
pub use crate::outcome::{Drops, Extras, Looked, Outcome, RouterShown};
pub use crate::print::report;
pub use crate::routers::run_routers;
pub use crate::run::run_text;
pub use crate::settings::Settings;
pub use crate::tap::Tap;
pub use ospf_config::Config;
pub use ospf_drive::Machine;
pub use ospf_drive::udp::Ending;
pub use ospf_router::{Router, Sent, Step};
