//! What each failure of an area changes in its routers' tables, and tables without parts of it.
//!
//! `failures_text` is the whole: it reads, calculates and prints.
#![tactic(auto)]

mod answer;
mod overall;
mod progress;
mod report;
mod roots;
mod shown;
mod without;

pub use crate::answer::{FailuresJob, failures_text};
pub use crate::overall::{
    Overall, RouteDetail, cuts_somewhere, overalls, overalls_harm_text, overalls_json,
    overalls_lines, overalls_text, sort_overalls_by_harm,
};
pub use crate::progress::Progress;
pub use crate::report::reports_in_threads;
pub use ospf_harm::{Carrier, FailuresForm, FailuresStatus, Harm, Report, RouterFailures};
pub use ospf_table::Sums;
