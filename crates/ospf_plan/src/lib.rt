//! What is wrong between the configurations of one area, before anything runs.
#![tactic(auto)]

mod ends;
mod fault;
mod finding;
mod index;
mod joins;
mod laws;
mod maps;
mod parts;
mod told;
mod unheard;
mod wires;

pub use crate::ends::{LinkEnd, is_slow};
pub use crate::fault::AreaFault;
pub use crate::finding::{Finding, findings};
pub use crate::laws::{
    found_are_dropped, further_faults_keep_apart, others_are_taken, others_take,
    routers_stay_configured, slow_ones_are_not_acknowledged, steps_drop_found, steps_take_others,
    tells_exactly, tells_in_order, tells_parts_in_order, tells_unheard, tells_wires_in_order,
    told_refuse,
};
pub use crate::told::NamedFinding;
