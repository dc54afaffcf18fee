//! What the commands of a script do in a network of routers, and what they print.
//!
//! `run_command` runs one on a `Simulation` (`specs/Commands`, `specs/Shown`, `specs/Judged`);
//! `is_met` judges an expectation of a router (`specs/Expectations`), and `agreement_law` and
//! `headline_law` are the laws of `specs/Agreement` and `specs/Headlines`.
//!
//! `delivery` delivers what is sent in rounds and batches, and loses some of it at random.
#![tactic(auto)]

mod agreement;
mod asked;
mod commands;
pub mod delivery;
mod expectations;
mod judge;
mod laws;
mod premise;
mod rounds;
mod settle;
mod show;
mod simulation;

pub use crate::commands::run_command;
pub use crate::delivery::Watch;
pub use crate::expectations::{is_met, unmet_line, write_unmet};
pub use crate::laws::{agreement_law, headline_law};
pub use crate::premise::{any_disagreement, disagreement};
pub use crate::simulation::Simulation;
