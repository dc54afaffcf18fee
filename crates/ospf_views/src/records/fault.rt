//! Why a packet was not written to a capture.

use std::fmt::{self, Display, Formatter, Write};
use thiserror::Error;

/// Why a packet was not written to a capture.
#[derive(Clone, Copy, Debug, PartialEq, Eq, Error)]
pub enum CaptureFault {
    /// The IP packet would be longer than 65,535 bytes.
    TooLong,
    /// Memory ran out.
    Memory,
}

impl CaptureFault {
    ghost use Rattle.std.specs.Prelude.{◌≡◌};
    ghost use Rattle.ospf_views.specs.RecordFiles.Text.{capture_fault_text};

    /// The fault's name, as it is printed.
    pub fn text(self) -> &'static str
        ensures { result.now ≡ capture_fault_text self }
    {
        match self {
            CaptureFault::TooLong => "TooLong",
            CaptureFault::Memory => "Memory",
        }
    }
}

/// The name, as `TooLong`.
impl Display for CaptureFault {
    ghost use Rattle.std.specs.Prelude.{Some};
    ghost use Rattle.ospf_views.specs.RecordFiles.Text.{capture_fault_text};

    ghost output = { λ fault. Some (capture_fault_text fault) };

    fn fmt<W: Write>(&self, f: &mut Formatter<W>) -> fmt::Result {
        f.write_str(self.text())
    }
}
