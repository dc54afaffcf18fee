//! The library that C, Python and a web page call: routing tables, paths, LSAs in words, changed
//! areas, differences, failures, checks of configurations, and simulations.
//!
//! Each call takes bytes, writes an answer into the caller's memory, and says in an `Answer` how
//! long it is and with which status the program `ospfd` would end. A call keeps nothing for the
//! next one, so threads may call at the same time.
#![tactic(auto)]

mod answer;
mod area;
mod failures;
mod files;
mod simulate;
mod table;
mod words;

pub use crate::answer::Answer;
pub use crate::area::{ospf_diff, ospf_diff_at, ospf_dot, ospf_edit, ospf_lsas, ospf_path};
pub use crate::failures::{How, ospf_failures_at};
pub use crate::files::{File, ospf_check, ospf_check_area};
pub use crate::simulate::ospf_sim;
pub use crate::table::{ospf_table, ospf_table_json, ospf_tables};
