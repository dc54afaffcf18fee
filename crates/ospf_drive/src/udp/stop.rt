//! Why the routers of files do not run to their end.

ghost use Rattle.std.specs.Prelude.{◌≡◌, ◌++◌, ◌⊎◌, codes, decimal, IfErr, IfOk, OnErr, OnOk, string_bytes};
ghost use Rattle.std.specs.Io.KnownBytes.{Appends};
ghost use Rattle.ospf_files.specs.Streams.{IsBegun, IsErrorCut, with_error};
ghost use Rattle.ospf_drive.specs.UdpWire.Faults.{no_socket_text};
ghost use Rattle.ospf_drive.specs.UdpWire.Obstacles.{line_about, obstacle_line, obstacle_status};

use crate::udp::fault::NoSocket;
use ospf_config::ConfigFault;
use ospf_files::{FailedStreams, Failure, NamedFile, Status, Twins, same_router_lines};
use std::alloc::{AllocError, Global};
use std::io::Write;

/// What keeps the routers from running.
#[derive(Clone, Copy)]
pub enum Obstacle<'a> {
    /// The floor is no number.
    NoNumber,
    /// No number is above the floor.
    GreatestFloor,
    /// The file could not be read.
    Unread(&'a NamedFile),
    /// The file holds no configuration.
    NoConfig(&'a NamedFile, ConfigFault),
    /// Two configurations are of one Router ID.
    SameRouter(Twins<'a>),
    /// The interface of this number, from 0, in the file has no port.
    NoPort(&'a NamedFile, usize),
    /// A socket of the file's router could not be made.
    NoSocket(&'a NamedFile, NoSocket),
}

/// Why the routers did not run to their end.
#[derive(Clone, Copy)]
pub enum Stop<'a> {
    /// This must be printed.
    Obstacle(Obstacle<'a>),
    /// What the program cannot go on without.
    Failure(Failure),
}

impl<'a> From<AllocError> for Stop<'a> {
    ghost use Rattle.std.specs.Prelude.{◌≡◌};
    ghost use Rattle.ospf_files.specs.declared.status.Failure.TheVariants as failure;
    ghost use Rattle.ospf_drive.specs.declared.udp.stop.Stop.TheVariants as stop;

    ghost from_gives = { λ _ s. s ≡ stop.Failure failure.Memory };

    fn from(_error: AllocError) -> Stop<'a> {
        Stop::Failure(Failure::Memory)
    }
}

impl<'a> From<Failure> for Stop<'a> {
    ghost use Rattle.std.specs.Prelude.{◌≡◌};
    ghost use Rattle.ospf_drive.specs.declared.udp.stop.Stop.TheVariants as stop;

    ghost from_gives = { λ failure s. s ≡ stop.Failure failure };

    fn from(failure: Failure) -> Stop<'a> {
        Stop::Failure(failure)
    }
}

/// A line about a file.
///
/// `AllocError` where memory runs out.
pub fn line_about(alloc: Global, file: &NamedFile, text: &str) -> Result<String, AllocError>
    ensures { IfOk result (λ line. string_bytes line ≡ line_about file.now text.now) }
{
    let line = format!(in alloc; "{}: {text}\n", file.name)?;
    Ok(line)
}

/// The status that an obstacle ends with.
pub fn status_of(obstacle: Obstacle<'_>) -> Status
    ensures { result ≡ obstacle_status obstacle.entry }
{
    match obstacle {
        Obstacle::Unread(_) | Obstacle::NoSocket(..) => Status::Stream,
        Obstacle::NoNumber
        | Obstacle::GreatestFloor
        | Obstacle::NoConfig(..)
        | Obstacle::SameRouter(_)
        | Obstacle::NoPort(..) => Status::Refused,
    }
}

/// Reports an obstacle on standard error.
///
/// `Failure` if memory runs out or the stream fails: then a beginning of the lines was written.
pub fn tell_obstacle<E: Write>(
    alloc: Global,
    obstacle: Obstacle<'_>,
    err: &mut E,
    streams: &mut FailedStreams,
) -> Result<(), Failure>
    // The lines are written, and no stream has failed by them.
    ensures same { OnOk result (streams.new ≡ streams.old) }
    ensures told { OnOk result
        (Appends (E.contents err.old) (E.contents err.new) (obstacle_line obstacle.entry)) }
    // Else a beginning of them was written, and standard error has failed, or memory ran out.
    ensures begun { OnErr result
        (IsBegun (E.contents err.old) (E.contents err.new) (obstacle_line obstacle.entry)) }
    ensures failed { OnErr result ((streams.new ≡ streams.old)
        ⊎ (streams.new ≡ with_error streams.old)) }
    ensures cut { IfErr result (IsErrorCut streams.new) }
{
    let line = line_of(alloc, obstacle)?;
    streams.tell(err, &line)
}

// The lines that report an obstacle.
fn line_of(alloc: Global, obstacle: Obstacle<'_>) -> Result<String, AllocError>
    ensures { IfOk result (λ line. string_bytes line ≡ obstacle_line obstacle.entry) }
{
    match obstacle {
        Obstacle::NoNumber => String::from_str(
            alloc,
            "floor: not a number\n  eight hexadecimal digits wanted\n",
        ),
        Obstacle::GreatestFloor => {
            String::from_str(alloc, "floor: S2 Floor\n  no number is above 7fffffff\n")
        }
        Obstacle::Unread(file) => line_about(alloc, file, "not read"),
        Obstacle::NoConfig(file, fault) => line_about(alloc, file, fault.text()),
        Obstacle::SameRouter(twins) => same_router_lines(alloc, twins),
        Obstacle::NoPort(file, number) => no_port_lines(alloc, file, number),
        Obstacle::NoSocket(file, no_socket) => no_socket_lines(alloc, file, no_socket),
    }
}

// The line of a file with an interface that has no port, and one of that interface.
fn no_port_lines(alloc: Global, file: &NamedFile, number: usize) -> Result<String, AllocError>
    ensures { IfOk result (λ lines. string_bytes lines ≡ line_about file.now
        (codes "no port\n  interface " ++ decimal number
        ++ codes ": port: 1024 to 65535 wanted")) }
{
    let text = format!(in alloc; "no port\n  interface {number}: port: 1024 to 65535 wanted")?;
    line_about(alloc, file, &text)
}

// The line of a file of whose router a socket could not be made, and one of the port and why.
fn no_socket_lines(
    alloc: Global,
    file: &NamedFile,
    no_socket: NoSocket,
) -> Result<String, AllocError>
    ensures { IfOk result (λ lines. string_bytes lines ≡ line_about file.now
        (codes "socket\n  " ++ no_socket_text no_socket)) }
{
    let text = format!(in alloc; "socket\n  {no_socket}")?;
    line_about(alloc, file, &text)
}
