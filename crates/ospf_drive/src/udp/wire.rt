//! The wire.

ghost use Rattle.std.specs.Prelude.{◌≡◌, IfErr, IfOk, is_some};
ghost use Rattle.ospf_drive.specs.UdpWire.Faults.{IsUnopened};

use crate::udp::ending::Ending;
use crate::udp::fault::OpenFault;
use crate::udp::sockets::Sockets;
use crate::udp::ticks::Ticks;
use crate::{Arrival, LONGEST, Sent, Wire, WireFault};
use ospf_config::Config;
use std::alloc::Global;
use std::marker::Model;
use std::net::Net;
use std::time::{Clock, Duration};

/// A wire with one socket for each link, on 127.0.0.1. A datagram is the source address, the
/// destination address and the packet; one that is shorter than the addresses, or longer than any
/// packet, is ignored. First the links come up; a tick comes each period, and none is lost
/// if a step was slow; the end comes after the last tick, or within a tick after it is signalled.
///
/// It waits in the system, and uses no processor time while nothing comes. It reports how many
/// ticks it has delivered, and when the end comes, and nothing else about its traffic: nobody
/// can say what a socket carries.
#[derive(Drop)]
pub struct UdpWire<C: Clock + Drop> {
    sockets: Sockets<C>,
    failed: u64,
}

impl<C: Clock + Drop> Model for UdpWire<C> {
    ghost use Rattle.std.specs.Prelude.{is_some};
    ghost use Rattle.ospf_drive.specs.UdpWire.Wires.{UdpValue};

    ghost Value = { UdpValue };

    ghost view = { λ w. record {
      failed = w.failed;
      handed = w.sockets.ticks.taken;
      span =
          record { ticks = w.sockets.ticks.most; may_be_told = is_some w.sockets.ticks.ending };
    } };
}

impl<C: Clock + Drop> UdpWire<C> {
    /// Makes a socket for each interface of a configuration. `ticks` ticks will come, one a period,
    /// or ticks without a last one if it is `None`; the end comes earlier if it is signalled by
    /// `ending`, if there is one.
    ///
    /// `Socket` without a port where the system cannot watch sockets; else, of the interfaces in
    /// their order, the first that has no port (`NoPort`), or for whose port no socket was made
    /// (`Socket`); `Memory` where memory ran out.
    pub fn open<N: Net>(
        net: &N,
        alloc: Global,
        clock: C,
        config: &Config,
        period: Duration,
        ticks: Option<u64>,
        ending: Option<Ending>,
    ) -> Result<UdpWire<C>, OpenFault>
        ensures opened { IfOk result (λ wire. wire ≡ record {
          failed = 0;
          handed = 0;
          span = record { ticks = ticks; may_be_told = is_some ending };
        }) }
        ensures fault { IfErr result (IsUnopened config.now.interfaces.items) }
    {
        let ticks = Ticks::new(clock, period, ticks, ending);
        let sockets = Sockets::open(net, alloc, config, ticks)?;
        Ok(UdpWire { sockets, failed: 0 })
    }
}

impl<C: Clock + Drop> Wire for UdpWire<C> {
    ghost use Rattle.ospf_drive.specs.Traffic.Carried.{Ticks};

    ghost traffic = { λ wire. Ticks wire.handed wire.span };

    ghost failed = { λ wire. wire.failed };

    fn recv(&mut self, buffer: &mut [u8; LONGEST]) -> Result<Arrival, WireFault> {
        match self.sockets.next_arrival(buffer) {
            Ok(arrival) => Ok(arrival),
            Err(_) => {
                self.failed += 1;
                Err(WireFault)
            }
        }
    }

    fn send(&mut self, sent: &Sent) -> Result<(), WireFault> {
        match self.sockets.send_to_peers(sent) {
            Ok(()) => Ok(()),
            Err(_) => {
                self.failed += 1;
                Err(WireFault)
            }
        }
    }

    fn failures(&self) -> u64 {
        self.failed
    }
}
