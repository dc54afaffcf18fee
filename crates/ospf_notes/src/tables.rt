//! Tables that are printed while routers run.

use ospf_base::RouterId;
use ospf_files::{FailedStreams, Failure};
use ospf_run::{Router, print_at_tick};
use std::alloc::Global;
use std::io::Write;
use std::marker::Model;

/// Prints the tables of routers, each after a number of its ticks.
#[derive(Drop)]
pub struct Tables<O: Write + Drop> {
    every: u64,
    out: O,
    streams: FailedStreams,
}

impl<O: Write + Drop> Model for Tables<O> {
    ghost use Rattle.ospf_notes.specs.Tables.{TablesValue};

    ghost Value = { TablesValue };

    ghost view = { λ t. record { every = t.every; contents = O.contents t.out } };
}

impl<O: Write + Drop> Tables<O> {
    ghost use Rattle.std.specs.Prelude.{◌≡◌, OnErr, OnOk};
    ghost use Rattle.std.specs.Io.KnownBytes.{Appends};
    ghost use Rattle.ospf_files.specs.Streams.{IsBegun};
    ghost use Rattle.ospf_run.specs.Printed.{at_tick_lines};

    /// No table yet. `every` is a number of ticks.
    pub fn new(every: u64, out: O) -> Tables<O>
        ensures { result ≡ record { every = every; contents = O.contents out } }
    {
        Tables {
            every,
            out,
            streams: FailedStreams::none(),
        }
    }

    // After how many ticks each table is printed.
    pub(crate) fn every(&self) -> u64
        ensures { result ≡ self.now.every }
    {
        self.every
    }

    // Prints the table of a router that has taken this many ticks; if that fails, a beginning of
    // it.
    pub(crate) fn print(
        &mut self,
        alloc: Global,
        id: RouterId,
        ticks: u64,
        router: &Router,
    ) -> Result<(), Failure>
        ensures printed { OnOk result (Appends self.old.contents self.new.contents
            (at_tick_lines id ticks router.now)) }
        ensures begun { OnErr result (IsBegun self.old.contents self.new.contents
            (at_tick_lines id ticks router.now)) }
        ensures every { self.new.every ≡ self.old.every }
    {
        print_at_tick(alloc, id, ticks, router, &mut self.out, &mut self.streams)
    }
}
