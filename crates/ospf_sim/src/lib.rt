//! The simulator of an area: scripts that start and stop routers, let time pass, pass on datagrams,
//! and print what the routers know.
//!
//! `sim_text` runs a script in a network of routers that files configure (`specs/Simulations`), and
//! `console_text` the lines that are given at a console (`specs/Consoles`). The exit status is a
//! clause of both (`specs/Ends`). What each command does is in `specs/Commands` of `ospf_commands`.
//! `Events` and `Recording` write the journal and the capture of a simulation as it goes; what an
//! event adds to the journal is in `specs/Followed`, and that it has each LSA that a step issues is
//! a law (`journals_have_issues`).
#![tactic(auto)]

mod configs;
mod console;
mod end;
mod events;
mod hint;
mod laws;
mod recording;
mod script;
mod text;

pub use crate::console::{Console, console_text};
pub use crate::end::SimStatus;
pub use crate::events::Events;
pub use crate::hint::Hint;
pub use crate::laws::journals_have_issues;
pub use crate::recording::Recording;
pub use crate::text::{Simulated, sim_text};
pub use ospf_commands::{Simulation, Watch};
pub use ospf_world::{EventWatch, World, WorldEvent, WorldFault};
