//! Why a text is no configuration.

ghost use Rattle.std.specs.Prelude.{◌≡◌};
ghost use Rattle.ospf_config.specs.Fault.{earlier_of};

use std::alloc::{AllocError, AllocFailed};
use std::fmt::{self, Display, Formatter, Write};
use thiserror::Error;

/// The least fault of a text, or that memory ran out.
#[derive(Clone, Copy, Debug, PartialEq, Eq, Error)]
pub enum ConfigFault {
    /// The text is no TOML.
    NotToml,
    /// A key that has no default is not there.
    Missing,
    /// The value of a key has another type.
    Type,
    /// A value of the right type is out of its range, or a text is none that can be read.
    Range,
    /// The cost of an interface is zero.
    ZeroCost,
    /// Two interfaces have one prefix or one address.
    SamePrefix,
    /// RouterDeadInterval is not greater than HelloInterval.
    DeadNotOverHello,
    /// A key that the configuration does not know.
    Unknown,
    /// Memory ran out.
    Memory,
}

impl ConfigFault {
    ghost use Rattle.std.specs.Prelude.{◌≡◌};
    ghost use Rattle.ospf_config.specs.Fault.{config_fault_number, config_fault_text};

    /// The fault's number and name, as it is printed.
    pub fn text(self) -> &'static str
        ensures { result.now ≡ config_fault_text self }
    {
        match self {
            ConfigFault::NotToml => "C1 NotToml",
            ConfigFault::Missing => "C2 Missing",
            ConfigFault::Type => "C3 Type",
            ConfigFault::Range => "C4 Range",
            ConfigFault::ZeroCost => "C5 ZeroCost",
            ConfigFault::SamePrefix => "C6 SamePrefix",
            ConfigFault::DeadNotOverHello => "C7 DeadNotOverHello",
            ConfigFault::Unknown => "C8 Unknown",
            ConfigFault::Memory => "C9 Memory",
        }
    }

    // The number of a fault; the fault with the least one is reported.
    fn number(self) -> u8
        ensures { result ≡ config_fault_number self }
    {
        match self {
            ConfigFault::NotToml => 1,
            ConfigFault::Missing => 2,
            ConfigFault::Type => 3,
            ConfigFault::Range => 4,
            ConfigFault::ZeroCost => 5,
            ConfigFault::SamePrefix => 6,
            ConfigFault::DeadNotOverHello => 7,
            ConfigFault::Unknown => 8,
            ConfigFault::Memory => 9,
        }
    }
}

/// The number and the name, as `C4 Range`.
impl Display for ConfigFault {
    ghost use Rattle.std.specs.Prelude.{Some};
    ghost use Rattle.ospf_config.specs.Fault.{config_fault_text};

    ghost output = { λ fault. Some (config_fault_text fault) };

    fn fmt<W: Write>(&self, f: &mut Formatter<W>) -> fmt::Result {
        f.write_str(self.text())
    }
}

impl From<AllocError> for ConfigFault {
    ghost use Rattle.std.specs.Prelude.{◌≡◌};
    ghost use Rattle.ospf_config.specs.declared.fault.ConfigFault.TheVariants.{Memory};

    ghost from_gives = { λ _ fault. fault ≡ Memory };

    fn from(_error: AllocError) -> ConfigFault {
        ConfigFault::Memory
    }
}

impl<T: Drop> From<AllocFailed<T>> for ConfigFault {
    ghost use Rattle.std.specs.Prelude.{◌≡◌};
    ghost use Rattle.ospf_config.specs.declared.fault.ConfigFault.TheVariants.{Memory};

    ghost from_gives = { λ _ fault. fault ≡ Memory };

    fn from(_failed: AllocFailed<T>) -> ConfigFault {
        ConfigFault::Memory
    }
}

// The fault of the lesser number, where there is one.
pub(crate) fn earlier(a: Option<ConfigFault>, b: Option<ConfigFault>) -> Option<ConfigFault>
    ensures { result ≡ earlier_of a b }
{
    match (a, b) {
        (Some(first), Some(second)) => {
            if second.number() < first.number() {
                Some(second)
            } else {
                Some(first)
            }
        }
        (first, None) => first,
        (None, second) => second,
    }
}
