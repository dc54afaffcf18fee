//! An area after changes: failures, new interface costs and drained routers.
//!
//! `apply` returns the LSAs of the area after changes (`specs/Change`), and laws prove that the
//! routers originate exactly these (`specs/Wanted`). `edit_report` is the command: it reads LSAs,
//! applies the changes that its words name (`specs/Words`), and prints LSAs (`specs/Answer`).

mod answer;
mod applied;
mod change;
mod large;
mod laws;
mod near;
mod words;

pub use crate::edit::answer::{edit_report, edit_text};
pub use crate::edit::applied::apply;
pub use crate::edit::change::Change;
pub use crate::edit::laws::{costs_are_wanted, drains_are_wanted, listings_are_read_again};
pub use crate::edit::words::EditJob;
