//! The table that threads share: a routing table with the index that lookups go through, the ranges
//! of addresses that one route answers for (RFC 2328, section 11.1), and the list of the tables
//! that one forwarding table has published, as each thread knows it.

mod counts;
mod entries;
mod gate;
mod index;
mod known;
mod numbering;
mod ranges;
mod replace;
mod rule;
mod sets;
mod sweep;
mod table;

pub use crate::index::entries::FoundRoute;
pub use crate::index::gate::{ClosedList, Opened};
pub use crate::index::known::Published;
pub use crate::index::replace::{can_replace, put_routes};
pub use crate::index::rule::{
    AddsTable, Closes, Counter, CountsEvents, ListEvent, NoGain, Opens, Proves,
};
pub use crate::index::table::IndexedTable;
