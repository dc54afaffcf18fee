//! Why a wire is not opened.

use ospf_config::Port;
use std::alloc::AllocError;
use std::fmt::{self, Display, Formatter, Write};
use std::io::{self, ErrorKind};
use thiserror::Error;

/// Why a wire is not opened.
#[derive(Clone, Copy, Debug, PartialEq, Eq, Error)]
pub enum OpenFault {
    /// An interface has no port.
    #[error("no port")]
    NoPort,
    /// A socket could not be made.
    #[error("{0}")]
    Socket(NoSocket),
    /// Memory ran out.
    #[error("out of memory")]
    Memory,
}

/// A socket that could not be made: of which port, and why.
#[derive(Clone, Copy, Debug, PartialEq, Eq)]
pub struct NoSocket {
    /// `None` where the system watches no sockets at all.
    pub port: Option<Port>,
    pub cause: SocketCause,
}

/// Why the system makes no socket.
#[derive(Clone, Copy, Debug, PartialEq, Eq)]
pub enum SocketCause {
    /// Another socket has the port.
    InUse,
    /// The program may not use the port.
    NotPermitted,
    /// The machine has no 127.0.0.1.
    NotAvailable,
    /// The program, or the machine, has too many files open.
    TooMany,
    /// Any other error of the system.
    Refused,
}

// What Linux says of too many open files, in the machine and in the program.
const TOO_MANY_IN_ALL: i32 = 23;

const TOO_MANY: i32 = 24;

impl SocketCause {
    ghost use Rattle.std.specs.Prelude.{◌≡◌};
    ghost use Rattle.ospf_drive.specs.UdpWire.Faults.{cause_text};

    /// The text after the port where it is printed.
    pub fn text(self) -> &'static str
        ensures { result.now ≡ cause_text self }
    {
        match self {
            SocketCause::InUse => " is in use",
            SocketCause::NotPermitted => ": permission denied",
            SocketCause::NotAvailable => ": address not available",
            SocketCause::TooMany => ": too many open files",
            SocketCause::Refused => ": refused by the system",
        }
    }

    // The cause that an error of the system means.
    pub(crate) fn of(error: &io::Error) -> SocketCause {
        match (error.kind(), error.raw_os_error()) {
            (ErrorKind::AddrInUse, _) => SocketCause::InUse,
            (ErrorKind::PermissionDenied, _) => SocketCause::NotPermitted,
            (ErrorKind::AddrNotAvailable, _) => SocketCause::NotAvailable,
            (_, Some(TOO_MANY_IN_ALL | TOO_MANY)) => SocketCause::TooMany,
            _ => SocketCause::Refused,
        }
    }
}

/// As `port 17001 is in use`.
impl Display for NoSocket {
    ghost use Rattle.std.specs.Prelude.{Some};
    ghost use Rattle.ospf_drive.specs.UdpWire.Faults.{no_socket_text};

    ghost output = { λ fault. Some (no_socket_text fault) };

    fn fmt<W: Write>(&self, f: &mut Formatter<W>) -> fmt::Result {
        match self.port {
            Some(port) => write!(f, "port {}{}", port.number, self.cause.text()),
            None => write!(f, "sockets{}", self.cause.text()),
        }
    }
}

impl From<AllocError> for OpenFault {
    ghost use Rattle.std.specs.Prelude.{◌≡◌};
    ghost use Rattle.ospf_drive.specs.declared.udp.fault.OpenFault.TheVariants.{Memory};

    ghost from_gives = { λ _ fault. fault ≡ Memory };

    fn from(_error: AllocError) -> OpenFault {
        OpenFault::Memory
    }
}
