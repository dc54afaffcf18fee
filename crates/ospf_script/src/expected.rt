//! What a script may expect.

use ospf_base::{Addr, Prefix, RouterId};
use ospf_graph::NextHop;
use ospf_neighbour::NeighbourState;

/// What is expected, of one router or of all.
#[derive(Debug, PartialEq, Eq, Drop)]
pub enum Expected {
    /// That a router has what is wanted of it.
    Router {
        router: RouterId,
        wanted: Wanted,
    },
    /// `walk R ADDRESS arrived [COST]`: the walk from the router arrives,
    /// at this cost where one is given.
    Walk {
        from: RouterId,
        address: Addr,
        cost: Option<u64>,
    },
    /// `agree`: all routers that run list the same.
    Agree,
    /// `headline [R]`: every router that the router reaches in what it lists runs, and lists the
    /// same LSAs; where no router is given, so it is for every router that runs.
    Headline {
        router: Option<RouterId>,
    },
    /// `settled`: the last `settle` ended because nothing changed any more,
    /// and nothing has happened since.
    Settled,
}

/// What is wanted of a router.
#[derive(Debug, PartialEq, Eq, Drop)]
pub enum Wanted {
    /// `neighbour R S STATE`, or `full R S` of Full: it has the other one as a neighbour in
    /// exactly this state, on whichever link (RFC 2328, section 10.1).
    Neighbour {
        other: RouterId,
        state: NeighbourState,
    },
    /// `no neighbour R LINK`: it has no neighbour on the link.
    NoNeighbour {
        link: usize,
    },
    /// `dr R LINK ADDRESS [BACKUP]`: the interface of the link has this Designated Router, by its
    /// address, 0.0.0.0 for none, and this Backup, where one is given (section 9).
    Dr {
        link: usize,
        dr: Addr,
        backup: Option<Addr>,
    },
    /// `route R PREFIX COST [HOP..]`: it has a route of this cost to the prefix; where hops
    /// are given, by these and no other.
    Route {
        prefix: Prefix,
        cost: u64,
        hops: Vec<NextHop>,
    },
    /// `no route R PREFIX`: it has no route to the prefix.
    NoRoute {
        prefix: Prefix,
    },
}
