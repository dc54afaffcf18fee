//! Why a datagram is dropped.

use std::fmt::{self, Display, Formatter, Write};
use thiserror::Error;

/// Why a datagram was dropped. It changes nothing.
#[derive(Clone, Copy, Debug, PartialEq, Eq, Error)]
pub enum Dropped {
    /// It is no packet, or the link is Down or does not exist.
    Packet,
    /// It carries another Area ID.
    Area,
    /// It carries the router's own Router ID.
    OwnPacket,
    /// It is for other routers.
    Destination,
    /// It comes from another network.
    Subnet,
    /// A Hello that does not agree with the interface.
    HelloMismatch,
    /// It is no Hello, and its sender is no neighbour.
    NoNeighbour,
    /// Its Router ID and its source are not those of one neighbour.
    WrongRouter,
    /// It is not accepted in the state of the neighbour; a Database Description with too large an
    /// MTU, or a Hello of one neighbour more than a link may have.
    State,
}

impl Dropped {
    ghost use Rattle.std.specs.Prelude.{◌≡◌};
    ghost use Rattle.ospf_router.specs.AreaStep.Text.{dropped_text};

    /// The number and the name, as they are printed.
    pub fn text(self) -> &'static str
        ensures { result.now ≡ dropped_text self }
    {
        match self {
            Dropped::Packet => "R1 Packet",
            Dropped::Area => "R2 Area",
            Dropped::OwnPacket => "R3 OwnPacket",
            Dropped::Destination => "R4 Destination",
            Dropped::Subnet => "R5 Subnet",
            Dropped::HelloMismatch => "R6 HelloMismatch",
            Dropped::NoNeighbour => "R7 NoNeighbour",
            Dropped::WrongRouter => "R8 WrongRouter",
            Dropped::State => "R9 State",
        }
    }
}

/// The number and the name, as `R9 State`.
impl Display for Dropped {
    ghost use Rattle.std.specs.Prelude.{Some};
    ghost use Rattle.ospf_router.specs.AreaStep.Text.{dropped_text};

    ghost output = { λ fault. Some (dropped_text fault) };

    fn fmt<W: Write>(&self, f: &mut Formatter<W>) -> fmt::Result {
        f.write_str(self.text())
    }
}
