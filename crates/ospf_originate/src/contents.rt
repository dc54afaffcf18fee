//! The LSAs of its own that a router wants (RFC 2328, section 12.4): what they say, how they are
//! made, and whether a copy says the same.

mod laws;
mod made;
mod said;
mod wants;

pub use crate::contents::laws::{wanted_are_of_their_keys, wanted_are_own, wanted_can_be_made};
pub use crate::contents::said::{says_network, says_router};
pub use crate::contents::wants::{OwnLsa, is_dr_of, wanted};
