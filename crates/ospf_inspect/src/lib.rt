//! What the LSAs of an area say, as text: each LSA in words, a drawing of them, the routing tables
//! of all routers, and the way from one to an address.
//!
//! `inspect_text` is the whole: it reads lines of LSAs, and prints. `lsas_text`, `tables_text` and
//! `path_text` are what it prints of a listing, `lsas_json`, `tables_json` and `table_json` the
//! same as values of JSON, `tables_lines` and `table_lines` as JSON of version 2, and a drawing is
//! what a `Graph` of `drawing` prints.
#![tactic(auto)]

mod answer;
pub mod drawing;
mod json;
mod laws;
mod lsas;
mod path;
mod tables;
mod values;

pub use crate::answer::{Form, InspectJob, inspect_text};
pub use crate::laws::ways_arrive;
pub use crate::lsas::lsas_text;
pub use crate::path::path_text;
pub use crate::tables::{table_json, table_lines, tables_json, tables_lines, tables_text};
pub use crate::values::lsas_json;
