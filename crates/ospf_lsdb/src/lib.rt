//! The link state database of OSPF version 2 (RFC 2328, sections 12.2 and 14).
#![tactic(auto)]

mod ageless;
mod dated;
mod entries;
mod entry;
mod expired;
mod laws;
mod lsdb;
mod moments;

pub use crate::entries::Entries;
pub use crate::entry::EntryView;
pub use crate::laws::{installs_one, one_database_of_a_map, tick_ages_all};
pub use crate::lsdb::Lsdb;
pub use crate::moments::AgesReached;

/// LSRefreshTime in ticks: the age at which a router issues its own LSA again (RFC 2328,
/// appendix B).
pub const LS_REFRESH_TIME: u16 = 1800;
