//! A router's part of an area (RFC 2328, sections 8, 12 and 13): its links and their
//! neighbours, its database, and what goes out: flooding over all links, acknowledgements that
//! wait, and the Requests that follow.
//!
//! `update` is the flooding procedure for LSAs received (section 13), the acknowledgements, and how
//! LSAs grow old and leave the database (section 14).
#![tactic(auto)]

mod asking;
mod changes;
mod flooding;
mod laws;
mod lists;
mod numbers;
mod outbox;
mod outputs;
mod packets;
mod sending;
mod standing;
mod state;
pub mod update;

pub use crate::asking::{advance_requests, request_turn};
pub use crate::changes::{AdjacencyChange, change_at, delay_at};
pub use crate::flooding::{Flooded, PacketSource, flood};
pub use crate::laws::{
    changes_one, delayed_neighbours, flood_reaches, flood_takes_its_key, flooded_neighbours,
    keeps_greatest, lsas_are_sent, marks_one, release_takes_its_key, released_neighbours,
    requests_are_filled, short_are_sent, stay_short, turned_neighbours, turns_take_nothing,
};
pub use crate::lists::release;
pub use crate::numbers::{count_number, is_numbered, is_own, is_self_originated, mark, was_sent};
pub use crate::outbox::{LinkContext, Outbox, local_by, local_of};
pub use crate::outputs::{Outputs, Sent};
pub use crate::packets::{description_body, send_dd, send_lsa, send_request};
pub use crate::sending::{RouterContext, Way, context_of, sent_lsa, to_address};
pub use crate::standing::{
    acknowledge_by, answer_at, is_awaited, is_requested, is_taken, some_link_loading, source_of,
};
pub use crate::state::{Area, AreaLink, LinkSettings, Numbering};
