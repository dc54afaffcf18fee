//! What changed between two link-state databases of an area, and what that did to routing.
//!
//! `differences` compares two routing tables, `missing_elements` the elements of two areas, and
//! `cost_changes` the costs of interfaces. `diff_report` reads two databases and says all of it.

mod costs;
mod difference;
mod elements;
mod report;
mod roots;
mod sights;
mod sums;

pub use crate::diff::costs::{CostChange, Interface, cost_changes};
pub use crate::diff::difference::{RouteDifference, differences};
pub use crate::diff::elements::missing_elements;
pub use crate::diff::report::{DiffJob, DiffNames, diff_report, diff_text};
pub use crate::diff::sums::DifferenceSums;
