//! Changes of an area: its LSAs after a change, and the differences between two LSDBs.
//!
//! `edit` changes the LSAs of an area, as `ospfd edit` does. `diff` compares two databases and the
//! routing tables that they lead to, as `ospfd diff` does. Together they say whether a change is
//! safe.
#![tactic(auto)]

pub mod diff;
pub mod edit;
