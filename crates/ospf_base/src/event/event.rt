//! What may happen in a world, and why it may be refused.

use crate::RouterId;
use std::fmt::{self, Display, Formatter, Write};
use thiserror::Error;

/// What may happen in a world.
#[derive(Clone, Copy, Debug, PartialEq, Eq)]
pub enum WorldEvent {
    /// The router starts, with nothing remembered.
    Start {
        router: RouterId,
        /// Its first DD sequence number (RFC 2328, section 10.3).
        dd_start: u32,
        /// Its numbers begin above this one (section 12.1.6).
        floor: i32,
    },
    /// The router stops, and forgets all.
    Stop {
        router: RouterId,
    },
    /// A second passes at the router.
    Tick {
        router: RouterId,
    },
    /// A link of the router comes up.
    LinkUp {
        router: RouterId,
        link: usize,
    },
    /// A link of the router goes down.
    LinkDown {
        router: RouterId,
        link: usize,
    },
    /// A datagram that was sent comes in on a link of the router.
    Deliver {
        datagram: usize,
        router: RouterId,
        link: usize,
    },
}

impl WorldEvent {
    ghost use Rattle.ospf_base.specs.Events.Events.{router_in};
    ghost use Rattle.std.specs.Prelude.{◌≡◌};

    /// The router that it happens at.
    pub fn router(&self) -> RouterId
        ensures { result ≡ router_in self.now }
    {
        match self {
            WorldEvent::Start { router, .. } => *router,
            WorldEvent::Stop { router } => *router,
            WorldEvent::Tick { router } => *router,
            WorldEvent::LinkUp { router, .. } => *router,
            WorldEvent::LinkDown { router, .. } => *router,
            WorldEvent::Deliver { router, .. } => *router,
        }
    }
}

/// Why an event, or a world, is refused.
#[derive(Clone, Copy, Debug, PartialEq, Eq, Error)]
pub enum WorldFault {
    /// The world has no such router.
    NoRouter,
    /// No such datagram was sent.
    NoDatagram,
    /// The router has no such link.
    NoLink,
    /// The router runs.
    Running,
    /// The router does not run.
    NotRunning,
    /// Memory ran out: nothing is changed, or else the router is stopped.
    Memory { stopped: bool },
    /// Two routers have one Router ID.
    SameRouter,
    /// No number is above the floor.
    Floor,
}

impl WorldFault {
    ghost use Rattle.ospf_base.specs.Events.Text.{world_fault_text};
    ghost use Rattle.std.specs.Prelude.{◌≡◌};

    /// The fault's number and name, as it is printed.
    pub fn text(self) -> &'static str
        ensures { result.now ≡ world_fault_text self }
    {
        match self {
            WorldFault::NoRouter => "W1 NoRouter",
            WorldFault::NoDatagram => "W2 NoDatagram",
            WorldFault::NoLink => "W3 NoLink",
            WorldFault::Running => "W4 Running",
            WorldFault::NotRunning => "W5 NotRunning",
            WorldFault::Memory { .. } => "W6 Memory",
            WorldFault::SameRouter => "W7 SameRouter",
            WorldFault::Floor => "W8 Floor",
        }
    }
}

/// The number and the name, as `W5 NotRunning`.
impl Display for WorldFault {
    ghost use Rattle.std.specs.Prelude.{Some};
    ghost use Rattle.ospf_base.specs.Events.Text.{world_fault_text};

    ghost output = { λ fault. Some (world_fault_text fault) };

    fn fmt<W: Write>(&self, f: &mut Formatter<W>) -> fmt::Result {
        f.write_str(self.text())
    }
}
