//! The sockets of routers.

ghost use Rattle.std.specs.Prelude.{◌≡◌, All, IfErr, IfOk, length};
ghost use Rattle.ospf_run.specs.Cut.{IsStopOfPlan};
ghost use Rattle.ospf_drive.specs.UdpWire.Plans.{HasPorts};
ghost use Rattle.ospf_run.specs.Runs.{span_of};
ghost use Rattle.ospf_run.specs.Wires.{AreWires, IsFresh};
ghost use Rattle.ospf_drive.specs.UdpWire.Faults.{IsPortIn};

use crate::settings::Settings;
use ospf_config::Config;
use ospf_drive::udp::{NoSocket, Obstacle, OpenFault, Stop, UdpWire, put};
use ospf_files::NamedFile;
use std::alloc::{AllocError, Global};
use std::net::Net;
use std::time::{Clock, Duration};

/// Opens the wires of routers whose interfaces have ports; stops at the first file whose router
/// cannot have a socket.
pub(crate) fn open_wires<'a, N: Net, C: Clock + Copy + Drop>(
    net: &N,
    clock: C,
    alloc: Global,
    settings: &Settings,
    files: &'a [NamedFile],
    configs: &[Config],
) -> Result<Vec<UdpWire<C>>, Stop<'a>>
    requires files { length files.now ≡ length configs.now }
    requires ports { All HasPorts configs.now }
    ensures wires { IfOk result (λ w. AreWires (span_of settings.now) (length configs.now)
        w.items) }
    ensures stop { IfErr result (IsStopOfPlan files.now configs.now) }
{
    let mut wires = Vec::with_capacity(alloc, configs.len())?;
    for (place, config) in configs.iter().enumerate() {
        match open_wire(net, clock, alloc, settings, config)? {
            Ok(wire) => put(&mut wires, wire)?,
            Err(no_socket) => {
                return Err(Stop::Obstacle(Obstacle::NoSocket(&files[place], no_socket)));
            }
        }
    }
    Ok(wires)
}

// Opens the wire of a router whose interfaces have ports, or returns the socket that could not be
// opened.
fn open_wire<N: Net, C: Clock + Drop>(
    net: &N,
    clock: C,
    alloc: Global,
    settings: &Settings,
    config: &Config,
) -> Result<Result<UdpWire<C>, NoSocket>, AllocError>
    requires { HasPorts config.now }
    ensures opened { IfOk result (λ found. IfOk found (IsFresh (span_of settings.now))) }
    ensures not_opened { IfOk result (λ found. IfErr found
        (λ no_socket. IsPortIn config.now.interfaces.items no_socket.port)) }
{
    let period = Duration::from_millis(settings.milliseconds);
    let ending = match &settings.ending {
        Some(ending) => Some(ending.another()?),
        None => None,
    };
    match UdpWire::open(net, alloc, clock, config, period, settings.ticks, ending) {
        Ok(wire) => Ok(Ok(wire)),
        Err(OpenFault::Memory) => Err(AllocError),
        Err(OpenFault::Socket(no_socket)) => Ok(Err(no_socket)),
        Err(OpenFault::NoPort) => unreachable!(),
    }
}
