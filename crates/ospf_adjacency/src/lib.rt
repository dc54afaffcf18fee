//! One link and its neighbours (RFC 2328, sections 9.2 to 9.5, 10.2 to 10.9 and 13.6):
//! Hellos and timers, adjacencies, Database Descriptions, Requests and their answers,
//! repeats, and the link's election.
//!
//! `receive_hello` takes a Hello, `go_up` and `go_down` bring the link up and down, `tick_timers`
//! counts its timers, and `send_due_hello` sends its Hello. `take_event` takes an event of the
//! neighbour machine, `take_description` a Database Description, and `take_request` a Request;
//! `repeat` sends again what is due in a tick. `elect_on` ends a step on the link with its election
//! and AdjOK?. What goes out is put into an `Outbox`, and sent at the end of a part.
//!
//! `link_steps` runs these parts of a step on the links of a router, one after the other.
#![tactic(auto)]

mod adjacency;
mod answering;
mod descriptions;
mod elections;
mod heard;
mod hello_laws;
mod laws;
pub mod link_steps;
mod links;
mod packing;
mod repeating;
mod resend_laws;
mod sent;

pub use crate::adjacency::{is_broadcast, take_event, wants_adjacency};
pub use crate::answering::take_request;
pub use crate::descriptions::{is_dropped, take_description};
pub use crate::elections::elect_on;
pub use crate::heard::{is_at, is_named, is_settled, receive_hello};
pub use crate::hello_laws::{
    adj_ok_goes, elections_come_about, hello_goes, neighbours_stay_of_link, puts_one, timers_go,
};
pub use crate::laws::{
    description_goes_on, description_keeps_router, description_says_only, descriptions_are_filled,
    dropped_is_unchanged, events_keep_lists, events_keep_routers, events_say_only, kept_goes_on,
    only_negotiation_enters, requests_keep_lists, requests_never_enter, requests_say_only,
};
pub use crate::links::{go_down, go_up, tick_neighbours, tick_timers};
pub use crate::packing::send_copies;
pub use crate::repeating::repeat;
pub use crate::resend_laws::{
    answers_are_quiet, keys_go_in_order, repeats_are_quiet, updates_are_packed,
};
pub use crate::sent::{send_due_hello, send_hello};
