//! The sockets of the links.

ghost use Rattle.std.specs.Prelude.{◌≡◌, ◌+◌, IfErr, IfOk, IfSome, IsSome, OnErr, OnOk, Some, is_some};
ghost use Rattle.ospf_drive.specs.Traffic.{MayEndAfter};
ghost use Rattle.ospf_drive.specs.declared.wire.Arrival.TheVariants as arrivals;
ghost use Rattle.ospf_drive.specs.UdpWire.Faults.{IsRefusedAt, IsUnopened, IsUnopenedAt};
ghost use Rattle.ospf_drive.specs.UdpWire.Handed.{AreFromOutside, IsFromOutside, tick_next, arrival_ticks};

use crate::udp::fault::{NoSocket, OpenFault, SocketCause};
use crate::udp::frame::{Frame, read_frame, write_frame};
use crate::udp::ticks::{Beat, Ticks};
use crate::{Arrival, LONGEST, Sent};
use mio::net::UdpSocket;
use mio::{Events, Interest, Poll, Token};
use ospf_config::{Config, Interface, Port};
use std::alloc::{AllocError, Global};
use std::io::{self, ErrorKind};
use std::net::{Ipv4Addr, Net, SocketAddr};
use std::time::Clock;

/// The sockets of a router's links, in the order of its interfaces, and its ticks.
#[derive(Drop)]
pub(crate) struct Sockets<C: Clock + Drop> {
    poll: Poll,
    events: Events,
    outlets: Vec<Outlet>,
    pub(crate) ticks: Ticks<C>,
    // How many links have come up.
    up: usize,
    // The link that is read first.
    first: usize,
    // Whether a tick was the last to come: then the sockets are next, so that
    // neither keeps the other waiting.
    ticked: bool,
    // What is sent.
    datagram: Vec<u8>,
}

impl<C: Clock + Drop> Sockets<C> {
    /// Makes a socket for each interface.
    pub(crate) fn open<N: Net>(
        net: &N,
        alloc: Global,
        config: &Config,
        ticks: Ticks<C>,
    ) -> Result<Sockets<C>, OpenFault>
        ensures ticks { IfOk result (λ sockets. sockets.ticks ≡ ticks) }
        ensures fault { IfErr result (IsUnopened config.now.interfaces.items) }
    {
        let poll = match Poll::new(net) {
            Ok(poll) => poll,
            Err(error) => return Err(socket_fault(&error, None)),
        };
        let mut outlets = Vec::with_capacity(alloc, config.interfaces.len())?;
        for interface in &config.interfaces {
            let outlet = open_outlet(net, alloc, &poll, interface, outlets.len())?;
            outlets.push(outlet).map_err(AllocError::from)?;
        }
        Ok(Sockets {
            poll,
            events: Events::with_capacity(alloc, 16)?,
            outlets,
            ticks,
            up: 0,
            first: 0,
            ticked: false,
            datagram: Vec::new(alloc),
        })
    }

    /// Waits for what comes next: first the links come up, then come ticks and datagrams, and the
    /// end after the last tick, or once the end is signalled.
    pub(crate) fn next_arrival(&mut self, buffer: &mut [u8; LONGEST]) -> io::Result<Arrival>
        ensures handed { IfOk result (λ arrival. self.new.ticks.taken
            ≡ self.old.ticks.taken + arrival_ticks arrival) }
        ensures over { IfOk result (λ arrival. arrival ≡ arrivals.End →
            MayEndAfter self.new.ticks.most (is_some self.new.ticks.ending) self.new.ticks.taken) }
        // The limit of ticks and the ending, if there is one, stay as they were.
        ensures most { self.new.ticks.most ≡ self.old.ticks.most }
        ensures ending { self.new.ticks.ending ≡ self.old.ticks.ending }
        ensures none { OnErr result (self.new.ticks.taken ≡ self.old.ticks.taken) }
    {
        if let Some(arrival) = self.next_up() {
            return Ok(arrival);
        }
        for _ in 0..u64::MAX {
            if let Some(arrival) = self.try_next(buffer)? {
                return Ok(arrival);
            }
        }
        Err(io::Error::from(ErrorKind::TimedOut))
    }

    /// Sends to each peer of the link. What finds no room or no
    /// listener is lost, as on any network.
    pub(crate) fn send_to_peers(&mut self, sent: &Sent) -> io::Result<()>
        ensures { self.new.ticks ≡ self.old.ticks }
    {
        write_frame(&mut self.datagram, sent)?;
        let Some(outlet) = self.outlets.get(sent.link) else {
            return Ok(());
        };
        for peer in &outlet.peers {
            if let Err(error) = outlet.socket.send_to(&self.datagram, local(*peer)) {
                match error.kind() {
                    ErrorKind::WouldBlock | ErrorKind::ConnectionRefused => {}
                    _ => return Err(error),
                }
            }
        }
        Ok(())
    }

    // The next link that comes up, if one does.
    fn next_up(&mut self) -> Option<Arrival>
        ensures ticks { self.new.ticks ≡ self.old.ticks }
        ensures outside { IfSome result IsFromOutside }
    {
        let link = self.up;
        if link < self.outlets.len() {
            self.up = link + 1;
            Some(Arrival::LinkUp { link })
        } else {
            None
        }
    }

    // The next tick, or what the sockets have; `None` if all must be checked again.
    fn try_next(&mut self, buffer: &mut [u8; LONGEST]) -> io::Result<Option<Arrival>>
        ensures handed { IfOk result (λ next. self.new.ticks.taken
            ≡ self.old.ticks.taken + tick_next next) }
        ensures over { IfOk result (λ next. next ≡ Some arrivals.End →
            MayEndAfter self.new.ticks.most (is_some self.new.ticks.ending) self.new.ticks.taken) }
        // The limit of ticks and the ending, if there is one, stay as they were.
        ensures most { self.new.ticks.most ≡ self.old.ticks.most }
        ensures ending { self.new.ticks.ending ≡ self.old.ticks.ending }
        ensures none { OnErr result (self.new.ticks.taken ≡ self.old.ticks.taken) }
    {
        let wait = match self.ticks.beat()? {
            Beat::Over => return Ok(Some(Arrival::End)),
            Beat::Due if !self.ticked => {
                self.ticks.take()?;
                self.ticked = true;
                return Ok(Some(Arrival::Tick));
            }
            Beat::Due => None,
            Beat::In(wait) => Some(wait),
        };
        self.ticked = false;
        match (self.look(buffer)?, wait) {
            (Polled::Arrived(arrival), _) => Ok(Some(arrival)),
            (Polled::Nothing, Some(_)) => {
                self.poll.poll(&mut self.events, wait)?;
                Ok(None)
            }
            (Polled::Nothing, None) | (Polled::Useless, _) => Ok(None),
        }
    }

    // Looks at each socket once, from the one that is first.
    fn look(&mut self, buffer: &mut [u8; LONGEST]) -> io::Result<Polled>
        ensures ticks { self.new.ticks ≡ self.old.ticks }
        ensures outside { IfOk result AreFromOutside }
    {
        let count = self.outlets.len();
        for step in 0..count {
            let link = self.first.wrapping_add(step) % count;
            match receive(&self.outlets[link].socket, buffer)? {
                SocketGave::Nothing => {}
                SocketGave::Useless => {
                    self.first = link.wrapping_add(1) % count;
                    return Ok(Polled::Useless);
                }
                SocketGave::Packet(
                    Frame {
                        source,
                        destination,
                        length,
                    },
                ) => {
                    self.first = link.wrapping_add(1) % count;
                    return Ok(Polled::Arrived(Arrival::Datagram {
                        link,
                        source,
                        destination,
                        length,
                    }));
                }
            }
        }
        Ok(Polled::Nothing)
    }
}

// An interface that listens, and where what it sends goes to.
#[derive(Drop)]
struct Outlet {
    socket: UdpSocket,
    peers: Vec<Port>,
}

// What a socket gave.
#[derive(Drop)]
enum SocketGave {
    Nothing,
    // A datagram that is passed over, or an interrupted call: there may be more.
    Useless,
    Packet(Frame),
}

// What the sockets gave.
#[derive(Drop)]
enum Polled {
    Nothing,
    Useless,
    Arrived(Arrival),
}

// Why the socket of a port could not be made, or no socket at all.
fn socket_fault(error: &io::Error, port: Option<Port>) -> OpenFault
    ensures { IsRefusedAt port result }
{
    match error.kind() {
        ErrorKind::OutOfMemory => OpenFault::Memory,
        _ => OpenFault::Socket(NoSocket {
            port,
            cause: SocketCause::of(error),
        }),
    }
}

// An interface that listens.
fn open_outlet<N: Net>(
    net: &N,
    alloc: Global,
    poll: &Poll,
    interface: &Interface,
    token: usize,
) -> Result<Outlet, OpenFault>
    ensures port { OnOk result (IsSome interface.now.port) }
    ensures fault { IfErr result (IsUnopenedAt interface.now.port) }
{
    let Some(port) = interface.port else {
        return Err(OpenFault::NoPort);
    };
    let peers = copy_ports(alloc, &interface.peers)?;
    match bind(net, poll, port, token) {
        Ok(socket) => Ok(Outlet { socket, peers }),
        Err(error) => Err(socket_fault(&error, Some(port))),
    }
}

// The same ports, in memory of their own.
fn copy_ports(alloc: Global, ports: &[Port]) -> Result<Vec<Port>, AllocError> {
    ports.to_vec(alloc)
}

// The socket of a port, which the poll looks at.
fn bind<N: Net>(net: &N, poll: &Poll, port: Port, token: usize) -> io::Result<UdpSocket> {
    let mut socket = UdpSocket::bind(net, local(port))?;
    poll.registry()
        .register(&mut socket, Token(token), Interest::READABLE)?;
    Ok(socket)
}

// The address of a port on this machine.
fn local(port: Port) -> SocketAddr {
    SocketAddr::from((Ipv4Addr::LOCALHOST, port.number))
}

// The next datagram of a socket.
fn receive(socket: &UdpSocket, buffer: &mut [u8; LONGEST]) -> io::Result<SocketGave> {
    match socket.recv_from(buffer) {
        Ok((count, _)) => match read_frame(buffer, count) {
            Some(frame) => Ok(SocketGave::Packet(frame)),
            None => Ok(SocketGave::Useless),
        },
        Err(error) => match error.kind() {
            ErrorKind::WouldBlock => Ok(SocketGave::Nothing),
            ErrorKind::Interrupted | ErrorKind::ConnectionRefused => Ok(SocketGave::Useless),
            _ => Err(error),
        },
    }
}
