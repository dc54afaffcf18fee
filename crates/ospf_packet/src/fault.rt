//! Why bytes are no packet, or a packet was not written.

use std::fmt::{self, Display, Formatter, Write};
use thiserror::Error;

/// The first fault of the bytes: `TooLong` is looked at first, then the others in the order of
/// their numbers (RFC 2328, section 8.2).
#[derive(Clone, Copy, Debug, PartialEq, Eq, Error)]
pub enum PacketFault {
    /// Fewer than the 24 bytes of the header.
    Short,
    /// The version is not 2.
    Version,
    /// The type is not 1 to 5.
    Kind,
    /// The length field is not the number of bytes.
    Length,
    /// The checksum is wrong.
    Sum,
    /// The AuType is not 0.
    Auth,
    /// A body that does not end with its last entry, or is shorter than its fields.
    Body,
    /// More than 16,384 bytes.
    TooLong,
}

impl PacketFault {
    ghost use Rattle.std.specs.Prelude.{◌≡◌};
    ghost use Rattle.ospf_packet.specs.Text.{packet_fault_text};

    /// The fault's number and name, as it is printed.
    pub fn text(self) -> &'static str
        ensures { result.now ≡ packet_fault_text self }
    {
        match self {
            PacketFault::Short => "P1 Short",
            PacketFault::Version => "P2 Version",
            PacketFault::Kind => "P3 Kind",
            PacketFault::Length => "P4 Length",
            PacketFault::Sum => "P5 Sum",
            PacketFault::Auth => "P6 Auth",
            PacketFault::Body => "P7 Body",
            PacketFault::TooLong => "P8 TooLong",
        }
    }
}

/// The number and the name, as `P5 Sum`.
impl Display for PacketFault {
    ghost use Rattle.std.specs.Prelude.{Some};
    ghost use Rattle.ospf_packet.specs.Text.{packet_fault_text};

    ghost output = { λ fault. Some (packet_fault_text fault) };

    fn fmt<W: Write>(&self, f: &mut Formatter<W>) -> fmt::Result {
        f.write_str(self.text())
    }
}

/// Why a packet was not written.
#[derive(Clone, Copy, Debug, PartialEq, Eq, Error)]
pub enum WriteFault {
    /// More than 16,384 bytes.
    TooLong,
    /// Memory ran out.
    Memory,
}

impl WriteFault {
    ghost use Rattle.std.specs.Prelude.{◌≡◌};
    ghost use Rattle.ospf_packet.specs.Text.{write_fault_text};

    /// The fault as it is printed: a packet that is too long as by
    /// `PacketFault`, or that memory ran out.
    pub fn text(self) -> &'static str
        ensures { result.now ≡ write_fault_text self }
    {
        match self {
            WriteFault::TooLong => "P8 TooLong",
            WriteFault::Memory => "Memory",
        }
    }
}

/// As `PacketFault` prints it, or `Memory`.
impl Display for WriteFault {
    ghost use Rattle.std.specs.Prelude.{Some};
    ghost use Rattle.ospf_packet.specs.Text.{write_fault_text};

    ghost output = { λ fault. Some (write_fault_text fault) };

    fn fmt<W: Write>(&self, f: &mut Formatter<W>) -> fmt::Result {
        let text = self.text();
        f.write_str(text)
    }
}
