//! Reads the lines of a script of the simulator.
//!
//! `Command::read` reads a line; `specs/Commands` defines which words spell which command. Words
//! are separated by spaces (`specs/Words`); `router_of`, `number_of` and others return the value
//! that a word spells (`specs/Values`), or `None` if it spells none.
#![tactic(auto)]

mod command;
mod events;
mod expect;
mod expected;
mod fault;
mod laws;
mod name;
mod read;
mod say;
mod several;
mod shapes;
mod show;
mod spelled;
mod values;
mod walk;
mod words;

pub use crate::command::{Command, Many, View};
pub use crate::expected::{Expected, Wanted};
pub use crate::fault::CommandFault;
pub use crate::laws::{printed_is_spelled, words_spell_one_command};
pub use crate::name::Name;
pub use crate::show::{FloorShown, WantedShown};
pub use crate::spelled::Spelled;
pub use crate::values::{
    address_of, floor_of, number_of, number_up_to, parts_at, percent_of, prefix_of, router_of,
    text_of,
};
pub use crate::words::{first_word, is_alone, one_word, three_words, two_words};
pub use ospf_base::event::WorldEvent;
