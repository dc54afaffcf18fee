//! What is recorded and shown of routers while they run.
//!
//! `Notes` is a tap of `ospf_run`: it writes what the routers send into a capture, whose packets
//! are those of `ospf_views`; prints their tables from time to time, each as `ospf_run` prints
//! it; and counts what they drop. On standard error it shows the progress of the run, if that is a
//! terminal, and reports packets that are dropped because of how their sender or the router is
//! configured (`Misfits`, `specs/Misfits`), and neighbours with LSAs that their router refuses, for
//! their LS type (`Others`, `specs/Others`) or for their contents (`Faulty`, `specs/Faulty`).
//! A journal of LSAs tells what became of each LSA that a router lists: `KnownLsas` finds exactly
//! the difference between what it lists and what it listed before (`specs/LsaChanges`), and
//! `LsaLog` writes it to a file (`specs/LsaLines`). Contracts cover what is appended to the files
//! of the tables, the capture and the journal of LSAs (`specs/Tables`, `specs/Capturing`,
//! `specs/LsaLogs`). The routers of a run share these under one lock, and no contract covers what
//! is under it; that it returns everything to the run, and that nothing wraps, is proved.
#![tactic(auto)]

mod capture;
mod dropped;
mod faulty;
mod line;
mod lsa_changes;
mod lsa_line;
mod lsa_log;
mod misfits;
mod notes;
mod others;
mod refused;
mod tables;

pub use crate::line::StatusLine;
pub use crate::lsa_changes::{KnownLsas, LsaChange, LsaEvent};
pub use crate::lsa_log::LsaLog;
pub use crate::notes::{Noted, Notes};
pub use crate::tables::Tables;
