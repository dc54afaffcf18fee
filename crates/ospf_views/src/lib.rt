//! Lines that show a router: neighbours, listing, routes, floor, and why it stands as it does.
//! `write_view` writes what `ospfd sim` and `run` print, `why` what a link or neighbour waits for,
//! `drop_reason` why a datagram is dropped, and `sight_of` gives what is seen of all routers.
//!
//! `records` writes files: captures for Wireshark, drawings, and journals.
#![tactic(auto)]

mod datagrams;
mod detail;
mod disagreement;
mod drops;
mod headed;
mod misfit;
mod offered;
pub mod records;
mod shown;
mod sight;
mod views;
mod waits;

pub use crate::datagrams::datagram_lines;
pub use crate::detail::{Detail, detail_of};
pub use crate::disagreement::{Disagreement, from_line, why_headline_line};
pub use crate::drops::{drop_reason, dropped_detail};
pub use crate::headed::write_shown;
pub use crate::offered::why_lines;
pub use crate::shown::{ListedShown, NeighbourShown, RefusalShown, WalkShown};
pub use crate::sight::{listed_by, sight_of};
pub use crate::views::{add_view, heading, write_view};
pub use crate::waits::{WhyLink, WhyRouter, interface_line, why};
