//! Worlds: many routers, started, stopped and stepped by events, the logs of all that they sent,
//! issued and held, and the ticks that they took.
//!
//! The theorem is `headline`: what holds in each world that events lead to (`specs/Headline`). The
//! other laws of `laws.rt` are its parts. A `Slot` is a router's place in a world: its
//! configuration, the router where it runs, and its numbering runs; `Logs` are all that was sent,
//! issued and held.
//!
//! `World::step` applies an event, `World::run` a list of them. `World::round` is a tick of each
//! router that runs, and then offers what was sent (RFC 2328, section 8.1), `World::random` draws
//! random events, and `World::walk` follows next hops. An `EventWatch` is notified of each event.
//! What an event does is in `specs/Does`, whom a datagram is offered to in `specs/Offers`, what a
//! watch sees in `specs/Watching`, and what is drawn at random in `specs/Draws`.
//!
//! Two more laws are here. `worlds_keep_laws` says that each step on the way to a world keeps the
//! nine laws of a step (`ospf_router::laws`), as the calls that step routers promise of theirs. And
//! `some_router_works` says that there are networks to which the laws apply: it needs whole
//! routers, and shows one network event by event.
#![tactic(auto)]

mod chance;
mod drops;
mod laws;
mod logs;
mod networks;
mod offers;
mod parts;
mod random;
mod rounds;
mod running;
mod slot;
mod ticks;
mod walk;
mod watch;
mod watched;
mod work_laws;
mod world;
mod worlds;

pub use crate::chance::{Words, chosen, draw, drawn_at};
pub use crate::laws::{
    acknowledgement_is_sound, bases_are_floors, chosen_walks_arrive, headline, held_lsas_agree,
    held_lsas_were_issued, high_floors_exclude_collisions, runs_lead_on, some_world_ticks,
    soundness, tables_are_exact, walks_arrive,
};
pub use crate::logs::{Datagram, Holding, Issued, Logs, Run};
pub use crate::networks::network_of;
pub use crate::rounds::{MOST_OFFERS, ticks_of};
pub use crate::slot::Slot;
pub use crate::ticks::Ticked;
pub use crate::walk::{Walk, WalkEnd};
pub use crate::watch::{EventWatch, Unwatched};
pub use crate::work_laws::some_router_works;
pub use crate::world::World;
pub use crate::worlds::worlds_keep_laws;
pub use ospf_base::event::{WorldEvent, WorldFault};
