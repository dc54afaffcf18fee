//! What is reported of routers while they run.

ghost use Rattle.std.specs.Prelude.{◌≡◌, IfOk, length};
ghost use Rattle.std.specs.List.{AllZip};

use crate::outcome::Drops;
use ospf_base::Addr;
use ospf_config::Config;
use ospf_drive::udp::put;
use ospf_drive::{Arrival, LONGEST, Wire, WireFault};
use ospf_files::NamedFile;
use ospf_router::{Router, Sent, Step};
use std::alloc::{AllocError, Global};

/// Receives what happens to the routers while they run, for each router in its own thread. What a
/// tap does with it does not affect any router.
pub trait Tap {
    /// A tap for the router of a file, with the configuration that the file holds.
    ///
    /// `AllocError` if memory runs out.
    fn another(&self, file: &NamedFile, config: &Config) -> Result<Self, AllocError>;

    /// A tick of the router has happened.
    fn ticks(&mut self);

    /// A packet has arrived on a link of the router from this source, which the router accepts or
    /// not.
    fn hears(&mut self, link: usize, source: Addr, packet: &[u8]);

    /// The router after a step, and what the step gave.
    fn sees(&mut self, router: &Router, step: &Step);

    /// The router's datagram was sent.
    fn sends(&mut self, sent: &Sent);

    /// The router's wire has reached its end, or failed: its driver ends.
    fn ends(&mut self);

    /// How many packets each router dropped, as far as they were reported to this tap and to those
    /// made from it, if they are counted. What was returned once is not returned again.
    ///
    /// `AllocError` if memory runs out.
    fn drops(&self, alloc: Global) -> Result<Vec<Drops>, AllocError>;
}

/// A wire whose events are reported to a tap.
#[derive(Drop)]
pub(crate) struct TappedWire<W: Wire + Drop, T: Tap + Drop> {
    wire: W,
    tap: T,
}

impl<W: Wire + Drop, T: Tap + Drop> Wire for TappedWire<W, T> {
    ghost traffic = { λ w. W.traffic w.wire };

    ghost failed = { λ w. W.failed w.wire };

    fn recv(&mut self, buffer: &mut [u8; LONGEST]) -> Result<Arrival, WireFault> {
        let received = self.wire.recv(buffer);
        match received {
            Ok(
                Arrival::Datagram {
                    link,
                    source,
                    length,
                    ..
                },
            ) if length <= LONGEST => {
                self.tap.hears(link, source, &buffer[..length]);
            }
            Ok(Arrival::Tick) => self.tap.ticks(),
            Ok(Arrival::End) | Err(WireFault) => self.tap.ends(),
            Ok(_) => {}
        }
        received
    }

    fn sees(&mut self, router: &Router, step: &Step) {
        self.wire.sees(router, step);
        self.tap.sees(router, step);
    }

    fn send(&mut self, sent: &Sent) -> Result<(), WireFault> {
        let done = self.wire.send(sent);
        match done {
            Ok(()) => self.tap.sends(sent),
            Err(WireFault) => self.tap.ends(),
        }
        done
    }

    fn failures(&self) -> u64 {
        self.wire.failures()
    }
}

/// The same wires, in the same order, each with its own tap: that of the file and the configuration
/// at the same place.
///
/// `AllocError` if memory runs out.
pub(crate) fn tap_all<W: Wire + Drop, T: Tap + Drop>(
    alloc: Global,
    files: &[NamedFile],
    configs: &[Config],
    wires: Vec<W>,
    tap: &T,
) -> Result<Vec<TappedWire<W, T>>, AllocError>
    requires files { length files.now ≡ length configs.now }
    requires wires { length wires.items ≡ length configs.now }
    ensures { IfOk result (λ all. AllZip (λ wire it. it.wire ≡ wire) wires.items all.items) }
{
    let mut all = Vec::with_capacity(alloc, wires.len())?;
    let mut wires = wires.into_iter();
    for (place, config) in configs.iter().enumerate() {
        let Some(wire) = wires.next() else {
            unreachable!()
        };
        put(&mut all, tapped(wire, tap, &files[place], config)?)?;
    }
    Ok(all)
}

// A wire with its own tap.
fn tapped<W: Wire + Drop, T: Tap + Drop>(
    wire: W,
    tap: &T,
    file: &NamedFile,
    config: &Config,
) -> Result<TappedWire<W, T>, AllocError>
    ensures { IfOk result (λ it. it.wire ≡ wire) }
{
    let tap = tap.another(file, config)?;
    Ok(TappedWire { wire, tap })
}
