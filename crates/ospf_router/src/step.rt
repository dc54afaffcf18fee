//! One step of a router's area (RFC 2328, sections 8.2, 9, 10, 12.4, 13 and 14): what an event
//! does, from the bytes of a datagram to the bytes that go out.
//!
//! `step` takes an event. A datagram that is dropped, for the first cause that `receive` finds,
//! does nothing; after any other event come the elections that are due, the router's own LSAs, and
//! the LSAs that leave the database. The causes are in `specs/AreaStep/Receipt`, what an event does
//! in `specs/AreaStep/Takes`, and how a step ends in `specs/AreaStep/Ends`.
//!
//! The laws say that this is the chain of a step's parts (`datagrams_are_chains`,
//! `link_changes_are_chains`, `ticks_are_chains`, `ends_are_chains`), what each part accounts
//! for to other routers (`specs/AreaStep/Accounts`), and that it adds up over a step
//! (`accounts_add_up`, `steps_account`, `steps_are_lawful`).

mod account_laws;
mod counts;
mod datagrams;
mod dropped;
mod drops;
mod each_link_laws;
mod end_laws;
mod ends;
mod event;
mod event_laws;
mod link_laws;
mod outputs_laws;
mod part_laws;
mod senders;
mod steps;
mod tick_laws;
mod ticks;

pub use crate::step::account_laws::{
    accounts_add_up, quiet_parts_account, some_state_ticks, steps_account, steps_are_lawful,
    steps_stay_kept,
};
pub use crate::step::counts::{DropCounts, count_dropped, none_dropped_on};
pub use crate::step::dropped::Dropped;
pub use crate::step::drops::receive;
pub use crate::step::each_link_laws::{links_go, one_link_goes};
pub use crate::step::end_laws::{elections_put_out, ends_are_chains, own_lsas_put_out};
pub use crate::step::event::Event;
pub use crate::step::event_laws::{datagrams_are_chains, link_changes_are_chains};
pub use crate::step::link_laws::{
    descriptions_put_out, hellos_put_out, links_down_put_out, links_up_put_out, requests_put_out,
};
pub use crate::step::outputs_laws::{database_is_one, none_waits_below};
pub use crate::step::part_laws::{
    acknowledgements_put_out, ages_put_out, chains_put_out, flushes_put_out, headers_are_chains,
    next_requests_put_out, own_steps_put_out, removals_put_out, steps_are_chains,
    updates_are_chains,
};
pub use crate::step::senders::{not_dropped_is_taken, senders_are_neighbours};
pub use crate::step::steps::{StepResult, step};
pub use crate::step::tick_laws::{
    due_hellos_put_out, outputs_before_are_read, repeats_put_out, ticks_are_chains, timers_put_out,
};
