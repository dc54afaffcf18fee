//! What the programs have in common: named files, the configurations in them and what is wrong with
//! one, lines of texts and of routes, and how a program ends.
//!
//! `read_files` and `write_file` read and write whole files, and `config_in` finds the
//! configuration in a file's bytes; `first_twins` finds two files that configure one router
//! (`specs/Twins`). `explain` lists the places of the fault of least number in a text that holds no
//! configuration, and `explain_all` those of each of its faults (`specs/Explained`,
//! `specs/AllFaults`). `lines` gives the lines of a text, with their numbers and without comments.
//! `print_routes` and `print_lookup` print a table and the result of a lookup (RFC 2328, section
//! 11), as `specs/Shown` defines. `print_report` prints what a command has computed
//! (`specs/Report`). `FailedStreams` notes which stream failed, and `Failure::tell` prints why a
//! program ends early (`specs/Status`).
#![tactic(auto)]

mod all;
mod byte;
mod configs;
mod disk;
mod explained;
mod files;
mod line;
mod places;
mod report;
mod rows;
mod shown;
mod status;
mod streams;
mod telling;
mod told;
mod twins;

pub use crate::all::{FaultExplained, explain_all};
pub use crate::byte::place_of;
pub use crate::configs::first_unread;
pub use crate::disk::{read_file, read_files, tell_unwritten, write_file};
pub use crate::explained::{Explained, KeyExplained, Section, explain};
pub use crate::files::{NamedFile, config_in};
pub use crate::line::{Line, first_line, lines};
pub use crate::report::{Report, print_report};
pub use crate::shown::{print_lookup, print_routes};
pub use crate::status::{Failure, Status};
pub use crate::streams::{FailedStreams, write_line, write_text};
pub use crate::telling::Telling;
pub use crate::told::{tell_refused, tell_unread};
pub use crate::twins::{Twins, first_twins, same_router_lines};
