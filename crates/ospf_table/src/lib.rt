//! Routing tables of LSAs read as lines of text, lookups in them, and what failures change there.
//!
//! `table_text` is the whole: it reads, calculates, publishes, writes and looks up.
#![tactic(auto)]

mod apart;
mod changes;
mod entries;
mod head;
mod line;
mod lookup;
mod named;
mod objects;
mod output;
mod outside;
mod report;
mod sums;
mod table;
mod totals;
mod values;

pub use crate::apart::apart_text;
pub use crate::changes::{change_line, change_lines, failure_lines};
pub use crate::head::head_line;
pub use crate::line::{LineFault, lsa_line};
pub use crate::named::find_failure;
pub use crate::objects::{add_changes, count_value, counted_members, data_line, objects_line};
pub use crate::output::output_text;
pub use crate::outside::{Outside, is_nowhere, outside_of, outside_text, reasons_text};
pub use crate::report::{line_refused, refusal};
pub use crate::sums::{Sums, sums_line};
pub use crate::table::{
    CountedListing, EntryFault, TableFault, TableJob, left_out_text, read_counted, read_listing,
    table_text, unlisted_text, warning_text,
};
pub use crate::totals::Totals;
pub use crate::values::table_line;
