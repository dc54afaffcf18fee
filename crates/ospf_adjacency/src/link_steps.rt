//! The parts of a step on the links of a router (RFC 2328, sections 9.3 to 9.5, 10.2, 10.5 and
//! 10.6): received packets, links that go up and down, ticks, and the elections that end the step.
//!
//! What a part does to a link is a function of the link; `specs/LinkSteps/Works` says what that
//! does to the router, and what is sent.

mod changes;
mod descriptions;
mod elections;
mod hellos;
mod link;
mod marks;
mod repeats;
mod requests;
mod ticks;

pub use crate::link_steps::changes::{take_down, take_up};
pub use crate::link_steps::descriptions::take_description;
pub use crate::link_steps::elections::elect;
pub use crate::link_steps::hellos::take_hello;
pub use crate::link_steps::repeats::repeat_all;
pub use crate::link_steps::requests::take_request;
pub use crate::link_steps::ticks::{count_timers, send_hellos};
