//! Captures that go on as more is sent.

ghost use Rattle.std.specs.Prelude.{◌≡◌, ◌++◌, OnOk, flat_map};
ghost use Rattle.ospf_views.specs.RecordFiles.Captures.{captured_at};
ghost use Rattle.ospf_views.specs.RecordFiles.Pcap.{record_bytes};
ghost use Rattle.ospf_views.specs.RecordFiles.Recorder.{StillBegins};

use crate::records::counts::{count, count_one};
use crate::records::fault::CaptureFault;
use crate::records::moment::Moment;
use crate::records::stamps::{moment_of, read_ticks};
use crate::records::write::write_datagram;
use ospf_world::{Datagram, Ticked, World};
use std::alloc::{AllocError, Global};
use std::collections::BTreeMap;

/// How much of a world is in its capture. The capture grows with the world: what was sent since is
/// appended, and the whole is the capture of all that was sent (`captures_go_on`).
#[derive(Drop)]
pub struct Recorder {
    // So many ticks and datagrams of the world's logs are in the capture.
    pub(crate) ticks: usize,
    pub(crate) datagrams: usize,
    // How many ticks each router had taken, and how many datagrams each second has.
    pub(crate) clocks: BTreeMap<u32, u32>,
    pub(crate) stamped: BTreeMap<u32, u32>,
}

impl Recorder {
    ghost use Rattle.std.specs.Prelude.{◌≡◌, ◌<◌, ◌+◌, ◌^◌, ◌++◌, [], List, OnOk, length};
    ghost use Rattle.ospf_world.specs.declared.logs.Datagram.{Datagram};
    ghost use Rattle.ospf_views.specs.RecordFiles.Recorder.{AddsTo, GoOn, IsNextOf, IsRecorded, IsRecordedTo, StillBegins, records_since};
    ghost use Rattle.ospf_world.specs.declared.ticks.Ticked.{Ticked};

    /// Nothing of a world in which nothing was sent.
    pub fn new(alloc: Global) -> Recorder
        ensures { IsRecorded [] [] result }
    {
        Recorder {
            ticks: 0,
            datagrams: 0,
            clocks: BTreeMap::new(alloc),
            stamped: BTreeMap::new(alloc),
        }
    }

    /// How many datagrams of the world's log are in the capture.
    pub fn datagrams(&self) -> usize
        ensures { (ticks : List Ticked) (datagrams : List Datagram) →
            IsRecorded ticks datagrams self.now → result ≡ length datagrams }
    {
        self.datagrams
    }

    /// Adds what a world has sent since to the end of a capture, each datagram at the moment that
    /// `capture` gives it. One that fits into no IP packet is left out. The header of the file is
    /// not written.
    ///
    /// `AllocError` where memory runs out; then the capture may have got some of it, behind what
    /// stood there, and the recorder is of no more use.
    pub fn add_sent(&mut self, out: &mut Vec<u8>, world: &World) -> Result<(), AllocError>
        // Of a world that has gone on since: what was sent behind what is in the capture.
        ensures sent { (ticks : List Ticked) (datagrams : List Datagram) →
            IsRecorded ticks datagrams self.old →
            GoOn ticks datagrams world.now.ticks world.now.logs.datagrams → OnOk result
            (out.new.items ≡ out.old.items
            ++ records_since (length datagrams) world.now.ticks world.now.logs.datagrams) }
        ensures recorded { (ticks : List Ticked) (datagrams : List Datagram) →
            IsRecorded ticks datagrams self.old →
            GoOn ticks datagrams world.now.ticks world.now.logs.datagrams → OnOk result
            (IsRecorded world.now.ticks world.now.logs.datagrams self.new) }
        // In any case the capture still begins with its old contents.
        ensures behind { StillBegins out.old.items out.new.items }
    {
        self.add_all(out, world.ticks(), world.datagrams())
    }

    // Adds the datagrams that are not in the capture.
    fn add_all(
        &mut self,
        out: &mut Vec<u8>,
        ticks: &[Ticked],
        datagrams: &[Datagram],
    ) -> Result<(), AllocError>
        ensures behind { StillBegins out.old.items out.new.items }
        ensures added { IsRecordedTo ticks.now datagrams.now self.old → OnOk result
            (AddsTo (length datagrams.now) ticks.now datagrams.now self.old out.old.items self.new
            out.new.items) }
    {
        while self.datagrams < datagrams.len() {
            self.add(out, ticks, &datagrams[self.datagrams])?;
        }
        Ok(())
    }

    // Adds a datagram, which is the next one of the log.
    fn add(
        &mut self,
        out: &mut Vec<u8>,
        ticks: &[Ticked],
        datagram: &Datagram,
    ) -> Result<(), AllocError>
        requires { self.old.datagrams + 1 < 2 ^ 64 }
        ensures behind { StillBegins out.old.items out.new.items }
        ensures next { OnOk result (self.new.datagrams ≡ self.old.datagrams + 1) }
        ensures added { (datagrams : List Datagram) → IsRecordedTo ticks.now datagrams self.old →
            IsNextOf datagrams self.old datagram.now → OnOk result
            (AddsTo (self.old.datagrams + 1) ticks.now datagrams self.old out.old.items self.new
            out.new.items) }
    {
        self.ticks = read_ticks(&mut self.clocks, ticks, self.ticks, self.datagrams)?;
        let second = count(&self.clocks, datagram.router.0);
        let at = moment_of(second, count(&self.stamped, second));
        add_datagram(out, at, datagram)?;
        count_one(&mut self.stamped, second)?;
        self.datagrams += 1;
        Ok(())
    }
}

// Adds a datagram to a capture. One that fits into no IP packet is left out.
fn add_datagram(out: &mut Vec<u8>, at: Moment, datagram: &Datagram) -> Result<(), AllocError>
    ensures behind { StillBegins out.old.items out.new.items }
    ensures added { OnOk result (out.new.items ≡ out.old.items
        ++ flat_map record_bytes (captured_at at.seconds at.microseconds datagram.now)) }
{
    let sent = &datagram.sent;
    match write_datagram(out, at, sent.source, sent.destination, &sent.bytes) {
        Ok(()) => Ok(()),
        Err(CaptureFault::TooLong) => Ok(()),
        Err(CaptureFault::Memory) => Err(AllocError),
    }
}
