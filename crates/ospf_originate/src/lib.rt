//! A router's own LSAs (RFC 2328, section 12.4): when they are issued and
//! flushed, and with which numbers.
//!
//! `contents` is the part that says which LSAs a router wants, and compares a copy with them.
#![tactic(auto)]

mod action;
pub mod contents;
mod idle;
mod laws;
mod numbers;
mod own;
mod step;

pub use crate::action::{DueAction, OwnAction, own_action};
pub use crate::contents::{
    OwnLsa, wanted, wanted_are_of_their_keys, wanted_are_own, wanted_can_be_made,
};
pub use crate::laws::{
    area_stays_sound, issue_is_next, issued_is_kept, issued_waits, next_is_newer, own_stay_short,
    own_stay_sound, parts_stay_sound, starts_sound,
};
pub use crate::numbers::MIN_LS_INTERVAL;
pub use crate::own::own_lsas;
pub use crate::step::issue;
