//! How much is reported about a configuration.

/// How much is reported about a configuration that is checked.
#[derive(Clone, Copy, Debug, PartialEq, Eq)]
pub enum Telling {
    /// That it is accepted, or its fault of least number.
    Verdict,
    /// Also the places of that fault; for an accepted configuration, its warnings.
    Explained,
    /// As `Explained`, with the places of each of its faults.
    AllExplained,
}

impl Telling {
    ghost use Rattle.std.specs.Prelude.{◌≡◌};
    ghost use Rattle.ospf_files.specs.AllFaults.{explains};

    /// Whether more than a verdict is printed.
    pub fn explains(self) -> bool
        ensures { result ≡ explains self }
    {
        match self {
            Telling::Verdict => false,
            Telling::Explained | Telling::AllExplained => true,
        }
    }
}
