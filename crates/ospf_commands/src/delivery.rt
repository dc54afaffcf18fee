//! Many events of a world at once: batches, rounds with losses, and events at many routers.
//!
//! `batch` is a tick of each running router, and then, wave after wave, the waiting datagrams,
//! router by router (`specs/Deliveries/Batches`). A round of `ospf_world` delivers datagrams in the
//! order in which they were sent, each to another router; here a router processes all waiting
//! datagrams at once, so that its memory is at hand. `Losses` draws which deliveries are lost, and
//! `round_losing` is a round without these (`specs/Deliveries/Losses`). `run_many` makes events
//! happen at all routers, or at all interfaces of a network (`specs/Deliveries/Many`). A `Watch`
//! receives each event, and how far a line of a script has come (`specs/Deliveries/Progress`).

mod batches;
mod losing;
mod losses;
mod many;
mod queues;
mod watch;

pub use crate::delivery::batches::{MOST_WAVES, batch};
pub use crate::delivery::losing::round_losing;
pub use crate::delivery::losses::{Losses, is_network_of, lose_somewhere};
pub use crate::delivery::many::run_many;
pub use crate::delivery::watch::Watch;
pub use ospf_base::event::{WorldEvent, WorldFault};
pub use ospf_script::Many;
pub use ospf_world::{EventWatch, World};
