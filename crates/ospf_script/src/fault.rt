//! Why a line was not read.

use std::alloc::AllocError;
use std::fmt::{self, Display, Formatter, Write};
use thiserror::Error;

/// Why a line was not read.
#[derive(Clone, Copy, Debug, PartialEq, Eq, Error)]
pub enum CommandFault {
    /// The line is not blank, and its words spell no command.
    NotACommand,
    /// Memory ran out.
    Memory,
}

impl CommandFault {
    ghost use Rattle.std.specs.Prelude.{◌≡◌};
    ghost use Rattle.ospf_script.specs.Faults.{command_fault_text};

    /// The fault as it is printed.
    pub fn text(self) -> &'static str
        ensures { result.now ≡ command_fault_text self }
    {
        match self {
            CommandFault::NotACommand => "not a command",
            CommandFault::Memory => "Memory",
        }
    }
}

/// As in `not a command`.
impl Display for CommandFault {
    ghost use Rattle.std.specs.Prelude.{Some};
    ghost use Rattle.ospf_script.specs.Faults.{command_fault_text};

    ghost output = { λ fault. Some (command_fault_text fault) };

    fn fmt<W: Write>(&self, f: &mut Formatter<W>) -> fmt::Result {
        f.write_str(self.text())
    }
}

impl From<AllocError> for CommandFault {
    ghost use Rattle.std.specs.Prelude.{◌≡◌};
    ghost use Rattle.ospf_script.specs.declared.fault.CommandFault.TheVariants.{Memory};

    ghost from_gives = { λ _ fault. fault ≡ Memory };

    fn from(_error: AllocError) -> CommandFault {
        CommandFault::Memory
    }
}
