//! A journal of routers: what changes of one in a step, one line per change.
//!
//! A `Seen` is what is remembered of a router from step to step. `Seen::follow` receives what a
//! step reports (`Reported`): the datagram that it dropped and the LSAs that it issued. It returns
//! what changed of the router (`RouterChange`), in the order that `specs/Changes` states.
//! `JournalLine` and `Object` write a change as a line of text and as a JSON object (`specs/Lines`,
//! `specs/Objects`); it is a law that the object is JSON (`objects_are_json`). `dropped_of` returns
//! why a router drops a datagram that it receives, and `drop_lines` how many it dropped, as lines
//! (`specs/Counted`). `difference_between` returns what one listing has that another has not.
#![tactic(auto)]

mod cause;
mod change;
mod counted;
mod differs;
mod laws;
mod line;
mod object;
mod reported;
mod seen;
mod told;

pub use crate::cause::dropped_of;
pub use crate::change::{DroppedAt, RouterChange};
pub use crate::counted::drop_lines;
pub use crate::differs::{Difference, difference_between};
pub use crate::laws::objects_are_json;
pub use crate::line::{JournalLine, iface_text};
pub use crate::object::Object;
pub use crate::reported::Reported;
pub use crate::seen::{Seen, SeenCopy, SeenIface, SeenNeighbour, SeenOwn};
pub use crate::told::state_place;
pub use ospf_router::step::Dropped;
