//! Why a driver ended.

use std::fmt::{self, Display, Formatter, Write};
use thiserror::Error;

/// Why a driver ended before the end of what its wire delivers.
#[derive(Clone, Copy, Debug, PartialEq, Eq, Error)]
pub enum DriveFault {
    /// The wire failed to deliver an arrival.
    Recv,
    /// The wire failed to send a datagram.
    Send,
    /// The router ran out of memory, and has stopped.
    Stopped,
    /// Memory ran out when a changed table was to be published.
    Publish,
    /// The driver's thread did not start.
    Thread,
}

impl DriveFault {
    ghost use Rattle.std.specs.Prelude.{◌≡◌};
    ghost use Rattle.ospf_drive.specs.Faults.{drive_fault_text};

    /// The fault's number and name, as it is printed.
    pub fn text(self) -> &'static str
        ensures { result.now ≡ drive_fault_text self }
    {
        match self {
            DriveFault::Recv => "U1 Recv",
            DriveFault::Send => "U2 Send",
            DriveFault::Stopped => "U3 Stopped",
            DriveFault::Publish => "U4 Publish",
            DriveFault::Thread => "U5 Thread",
        }
    }
}

/// The number and the name, as `U2 Send`.
impl Display for DriveFault {
    ghost use Rattle.std.specs.Prelude.{Some};
    ghost use Rattle.ospf_drive.specs.Faults.{drive_fault_text};

    ghost output = { λ fault. Some (drive_fault_text fault) };

    fn fmt<W: Write>(&self, f: &mut Formatter<W>) -> fmt::Result {
        f.write_str(self.text())
    }
}
