//! What is requested of a run, besides its configurations.

ghost use Rattle.std.specs.Prelude.{◌≡◌, [], false};
ghost use Rattle.ospf_run.specs.Runs.{AreExtras, asked_of, span_of};

use crate::outcome::{Drops, Extras};
use ospf_base::Addr;
use ospf_drive::Span;
use ospf_drive::udp::Ending;

/// What is requested of a run, besides its configurations.
#[derive(Drop)]
pub struct Settings {
    /// How many ticks there are, 1 to 1,000,000; `None` if no tick is the last.
    pub ticks: Option<u64>,
    /// What can ask the run to end before the last tick.
    pub ending: Option<Ending>,
    /// The milliseconds of a tick, 1 to 1,000.
    pub milliseconds: u64,
    /// The address that is looked up in the table of each router.
    pub lookup: Option<Addr>,
    /// The text of the floor of the LS sequence numbers of each router's own LSAs.
    pub floor: Option<String>,
    /// Whether the neighbours of each router are printed.
    pub neighbours: bool,
    /// Whether the LSAs that each router lists are printed.
    pub listing: bool,
    /// Whether all LSAs of each router's LSDB are printed, in hexadecimal.
    pub lsdb: bool,
    /// Whether to print how many packets each router dropped.
    pub drops: bool,
}

impl Settings {
    /// When the run ends.
    pub(crate) fn span(&self) -> Span
        ensures { result ≡ span_of self.now }
    {
        Span {
            ticks: self.ticks,
            may_be_told: self.ending.is_some(),
        }
    }

    /// What is printed besides tables and lookups. There are no drops if they are not requested.
    pub(crate) fn extras(&self, drops: Vec<Drops>) -> Extras
        requires { self.now.drops ≡ false → drops.items ≡ [] }
        ensures { AreExtras (asked_of self.now) result }
    {
        Extras {
            neighbours: self.neighbours,
            listing: self.listing,
            lsdb: self.lsdb,
            drops,
            floor: self.floor.is_some(),
        }
    }
}
