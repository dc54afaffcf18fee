//! Flooding (RFC 2328, section 13): which rule an LSA of an Update meets, and what it
//! does to one neighbour or one link.
//!
//! `lsa_rule` says which rule an LSA meets, `flood_to` offers it to a neighbour, `is_flooded_out`
//! says whether a link sends it, and `acknowledge` how it is acknowledged.
#![tactic(auto)]

mod acknowledgement;
mod due;
mod laws;
mod link;
mod offer;
mod rule;

pub use crate::acknowledgement::{Acknowledgement, AcknowledgementCase, Sender, acknowledge};
pub use crate::due::is_due;
pub use crate::laws::{flood_takes_its_key, flooded_waits};
pub use crate::link::{case_of_newer, case_of_same, flooding_address, is_flooded_out, sender_at};
pub use crate::offer::{Offer, flood_to};
pub use crate::rule::{LsaRule, is_sent_back, lsa_rule};
