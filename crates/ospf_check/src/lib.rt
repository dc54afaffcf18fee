//! Checks of router configurations (RFC 2328, appendix C): each by itself, and those of one area
//! together.
//!
//! `check_text` reports for each file that it is accepted, or its fault with the lowest number, and
//! on request what to do about that fault, or about all faults. `check_area_text` reports each file
//! as `check_text` does, and then what is wrong between them; `check_area_json` prints that as
//! JSON, and `check_lines` all of it in lines of JSON. The text about a file is defined in
//! `specs/Checked`, and about what is between files in `specs/Area` and `specs/Json`; the lines of
//! JSON are in `specs/Lines`. `ospf_files` says where the faults of a file are.
#![tactic(auto)]

mod area;
mod check;
mod json;
mod lines;
mod warning;

pub use crate::area::check_area_text;
pub use crate::check::check_text;
pub use crate::json::check_area_json;
pub use crate::lines::check_lines;
