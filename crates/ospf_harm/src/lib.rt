//! What each failure of an area changes at a router, and how much that harms: what fails together
//! for what carries the links, the routes that are lost with what fails, and apart from them all
//! others, in lines of text and in JSON.
//!
//! `failures_report` is the whole: it reads, calculates and reports. It is a law that names tell
//! apart what may fail, whatever carries the links (`carried_names_tell_apart`).
#![tactic(auto)]

mod asked;
mod carrier;
mod cases;
mod element;
mod harm;
mod harmed;
mod hidden;
mod input;
mod report;
mod router;
mod said;
mod warnings;

pub use crate::asked::{FailuresForm, FailuresStatus, RouterFailures, end_of};
pub use crate::carrier::{
    Breakdown, Carrier, breakdowns, carried_names_tell_apart, failures_by, hidden_costs_by,
};
pub use crate::cases::{
    Before, FailureCases, before_of, cases_of, is_of, report_of, reports_in_turn,
};
pub use crate::element::{put_element, put_harm};
pub use crate::harm::{Harm, harm_line};
pub use crate::harmed::put_harmed;
pub use crate::hidden::{HiddenCost, hidden_costs};
pub use crate::input::{Unread, read_area};
pub use crate::report::{
    Report, has_cut, place_of, reports_harm_text, reports_json, reports_lines, reports_text,
    sort_reports, sort_reports_by_harm,
};
pub use crate::router::failures_report;
pub use crate::said::{PrintedText, changes_said, form_head};
pub use crate::warnings::{area_warnings, put_hidden, root_warning, router_warnings};
