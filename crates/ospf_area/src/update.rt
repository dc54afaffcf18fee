//! What Updates and the clock do to one router's area (RFC 2328, sections 13 and 14): what each LSA
//! of an Update meets, how LSAs are acknowledged, how they age, are flushed, and leave.

mod acks;
mod aging;
mod laws;
mod meeting;
mod removal;
mod updates;

pub use crate::update::acks::{send_acks, send_delayed, send_direct};
pub use crate::update::aging::{age, flush, send_copy, turn_in};
pub use crate::update::laws::{
    acknowledgements_are_ordered, acknowledgements_are_packed, area_stays_short, copies_reach,
    copies_stay, numbers_are_kept, removed_entries, stored_entry, stored_neighbours,
    stored_numbers, stored_reaches, stored_stays, updates_bring_short,
};
pub use crate::update::meeting::{on_header, on_lsa, rule_met, store};
pub use crate::update::removal::{remove, some_awaits};
pub use crate::update::updates::on_update;
