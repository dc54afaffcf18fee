//! What changes of a router.

use crate::seen::SeenIface;
use ospf_base::{Addr, LsaKey, Prefix, RouterId};
use ospf_graph::Route;
use ospf_neighbour::NeighbourState;
use ospf_neighbour::iface::IfaceState;
use ospf_router::step::Dropped;

/// A datagram that a router dropped: the link that it came on, where from, and why.
#[derive(Clone, Copy, Debug, PartialEq, Eq)]
pub struct DroppedAt {
    pub link: usize,
    pub source: Addr,
    pub cause: Dropped,
}

/// One change of a router.
#[derive(Debug, Drop)]
pub enum RouterChange {
    /// The router runs from now on.
    Started,
    /// It runs no more.
    Stopped,
    /// A datagram was dropped.
    Dropped(DroppedAt),
    /// The state of a neighbour on a link is another one; one that is not there is Down.
    Neighbour {
        link: usize,
        router: RouterId,
        before: NeighbourState,
        now: NeighbourState,
    },
    /// The state of the interface of a link, its Designated Router or its Backup is another one.
    Interface {
        link: usize,
        before: IfaceState,
        now: SeenIface,
    },
    /// The step issued an LSA of the router's own, with this number.
    Issued {
        key: LsaKey,
        number: i32,
    },
    /// This number of an LSA of the router's own came to `MAX_AGE`.
    Flushed {
        key: LsaKey,
        number: i32,
    },
    /// An LSA of the router's own left the database.
    Removed {
        key: LsaKey,
    },
    /// This is the route to its prefix from now on.
    Route(Route),
    /// There is no route to this prefix any more.
    NoRoute(Prefix),
}
