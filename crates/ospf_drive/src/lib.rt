//! The driver of one router: arrivals of a wire are steps, what they send goes out,
//! and a changed table is published. It is proved for whatever is a router (`Machine`), by rules
//! of its own.
//!
//! `udp` is the wire that carries OSPF in UDP on loopback.
#![tactic(auto)]

mod all;
mod driver;
mod fault;
mod laws;
mod machine;
mod memory;
mod span;
mod turn;
pub mod udp;
mod wire;

pub use crate::all::{Driven, DriverJob, drive_all};
pub use crate::driver::drive;
pub use crate::fault::DriveFault;
pub use crate::laws::{
    all_ticks_are_taken, chains_are_lawful, drives_are_whole, routers_go_by_their_steps,
};
pub use crate::machine::Machine;
pub use crate::memory::{MemoryWire, Scripted};
pub use crate::span::Span;
pub use crate::wire::{Arrival, LONGEST, Wire, WireFault};
pub use ospf_router::{Router, Sent, Step};
