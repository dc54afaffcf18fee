//! Why a router does not start, or no longer takes a step.

use std::fmt::{self, Display, Formatter, Write};
use thiserror::Error;

/// Why a router does not start.
#[derive(Clone, Copy, Debug, PartialEq, Eq, Error)]
pub enum StartFault {
    /// The floor is the greatest number that there is: no number is above it.
    Floor,
    /// Memory ran out.
    Memory,
}

impl StartFault {
    ghost use Rattle.std.specs.Prelude.{◌≡◌};
    ghost use Rattle.ospf_router.specs.Text.{start_fault_text};

    /// The fault's number and name, as it is printed.
    pub fn text(self) -> &'static str
        ensures { result.now ≡ start_fault_text self }
    {
        match self {
            StartFault::Floor => "S2 Floor",
            StartFault::Memory => "S3 Memory",
        }
    }
}

/// The number and the name, as `S2 Floor`.
impl Display for StartFault {
    ghost use Rattle.std.specs.Prelude.{Some};
    ghost use Rattle.ospf_router.specs.Text.{start_fault_text};

    ghost output = { λ fault. Some (start_fault_text fault) };

    fn fmt<W: Write>(&self, f: &mut Formatter<W>) -> fmt::Result {
        f.write_str(self.text())
    }
}

/// The router ran out of memory, and has stopped.
#[derive(Clone, Copy, Debug, PartialEq, Eq, Error)]
pub struct Stopped;

impl Stopped {
    ghost use Rattle.std.specs.Prelude.{◌≡◌};
    ghost use Rattle.ospf_router.specs.Text.{stopped_text};

    /// The fault's number and name, as it is printed.
    pub fn text(self) -> &'static str
        ensures { result.now ≡ stopped_text }
    {
        "S1 Stopped"
    }
}

/// The number and the name: `S1 Stopped`.
impl Display for Stopped {
    ghost use Rattle.std.specs.Prelude.{Some};
    ghost use Rattle.ospf_router.specs.Text.{stopped_text};

    ghost output = { λ _. Some stopped_text };

    fn fmt<W: Write>(&self, f: &mut Formatter<W>) -> fmt::Result {
        f.write_str(self.text())
    }
}
