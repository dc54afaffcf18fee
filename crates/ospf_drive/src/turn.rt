//! One turn of a driver: one arrival, and all that follows from it.

ghost use Rattle.std.specs.Prelude.{◌≡◌, ◌+◌, ◌<◌, ◌^◌, ℕ, IfOk, IfErr, OnOk, OnErr, IfSome, IfNone, Some, None, take, length};
ghost use Rattle.ospf_router.specs.Steps.{happening};
ghost use Rattle.ospf_drive.specs.Traffic.{heard_from, and_sent};
ghost use Rattle.ospf_drive.specs.Moments.{at, event_of};
ghost use Rattle.ospf_drive.specs.Drives.{Fails};
ghost use Rattle.ospf_drive.specs.Turns.{Turns};

use crate::fault::DriveFault;
use crate::machine::Machine;
use crate::wire::{Arrival, LONGEST, Wire, WireFault};
use ospf_fib::{Told, Writer};
use ospf_router::{Event, Router, Sent, Step};
use std::alloc::Global;
use std::sync::Wait;

/// The outcome of a turn.
#[derive(Drop)]
pub(crate) enum Course {
    /// The driver goes on, with the message of a publish if a table was published.
    On(Option<Told>),
    /// The end came.
    Over,
}

// Waits for an arrival, has the machine make a step of it, shows it to the wire, sends what it puts
// out, and publishes the table where it changed.
pub(crate) fn turn<M: Machine, W: Wire, R: Wait + Drop>(
    alloc: Global,
    machine: &mut M,
    wire: &mut W,
    writer: &mut Writer<R>,
    buffer: &mut [u8; LONGEST],
) -> Result<Course, DriveFault>
    requires { W.failed wire.old + 1 < 2 ^ 64 }
    ensures ok { IfOk result (Turns M.rules
        (at (M.value machine.old) (W.traffic wire.old) (W.failed wire.old) writer.old)
        (at (M.value machine.new) (W.traffic wire.new) (W.failed wire.new) writer.new)) }
    ensures err { IfErr result (Fails M.rules
        (at (M.value machine.old) (W.traffic wire.old) (W.failed wire.old) writer.old)
        (at (M.value machine.new) (W.traffic wire.new) (W.failed wire.new) writer.new)) }
{
    let Ok(arrival) = wire.recv(buffer) else {
        return Err(DriveFault::Recv);
    };
    if let Arrival::End = arrival {
        return Ok(Course::Over);
    }
    let Some(event) = event_at(machine.router(), arrival, buffer) else {
        return Ok(Course::On(None));
    };
    let Ok(step) = machine.step(event, alloc) else {
        return Err(DriveFault::Stopped);
    };
    let Ok(()) = show_and_send(wire, machine.router(), &step) else {
        return Err(DriveFault::Send);
    };
    if !step.table_changed {
        return Ok(Course::On(None));
    }
    match writer.publish(machine.router().table()) {
        Ok(told) => Ok(Course::On(Some(told))),
        Err(_) => Err(DriveFault::Publish),
    }
}

// The event that an arrival is, unless the arrival is ignored.
fn event_at<'a>(router: &Router, arrival: Arrival, buffer: &'a [u8; LONGEST]) -> Option<Event<'a>>
    ensures some { IfSome result (λ event. event_of router.now.links (heard_from arrival buffer.now)
        ≡ Some (happening event)) }
    ensures none { IfNone result (event_of router.now.links (heard_from arrival buffer.now)
        ≡ None) }
{
    match arrival {
        Arrival::Datagram {
            link,
            source,
            destination,
            length,
        } => {
            if router.has_link(link) && length <= LONGEST {
                Some(Event::Datagram {
                    link,
                    source,
                    destination,
                    bytes: &buffer[..length],
                })
            } else {
                None
            }
        }
        Arrival::Tick => Some(Event::Tick),
        Arrival::LinkUp { link } => {
            if router.has_link(link) {
                Some(Event::LinkUp { link })
            } else {
                None
            }
        }
        Arrival::LinkDown { link } => {
            if router.has_link(link) {
                Some(Event::LinkDown { link })
            } else {
                None
            }
        }
        Arrival::End => None,
    }
}

// Shows the wire the router after a step, and sends what the step sends.
fn show_and_send<W: Wire>(wire: &mut W, router: &Router, step: &Step) -> Result<(), WireFault>
    requires { W.failed wire.old + 1 < 2 ^ 64 }
    // On success all of it has gone out, and no failure is counted.
    ensures out { OnOk result (W.traffic wire.new
        ≡ and_sent step.now.out.sent (W.traffic wire.old)) }
    ensures out_failures { OnOk result (W.failed wire.new ≡ W.failed wire.old) }
    // On a failure some of it has gone out, but not all, and one failure more is counted.
    ensures some_out { OnErr result ((count : ℕ) × (count < length step.now.out.sent)
        × (W.traffic wire.new ≡ and_sent (take count step.now.out.sent) (W.traffic wire.old))) }
    ensures some_failures { OnErr result (W.failed wire.new ≡ W.failed wire.old + 1) }
{
    wire.sees(router, step);
    send_all(wire, step.out.sent())
}

// Sends them in order, up to a failure.
fn send_all<W: Wire>(wire: &mut W, sent: &[Sent]) -> Result<(), WireFault>
    requires { W.failed wire.old + 1 < 2 ^ 64 }
    // On success all of it has gone out, and no failure is counted.
    ensures out { OnOk result (W.traffic wire.new ≡ and_sent sent.now (W.traffic wire.old)) }
    ensures out_failures { OnOk result (W.failed wire.new ≡ W.failed wire.old) }
    // On a failure some of it has gone out, but not all, and one failure more is counted.
    ensures some_out { OnErr result ((count : ℕ) × (count < length sent.now)
        × (W.traffic wire.new ≡ and_sent (take count sent.now) (W.traffic wire.old))) }
    ensures some_failures { OnErr result (W.failed wire.new ≡ W.failed wire.old + 1) }
{
    for one in sent {
        wire.send(one)?;
    }
    Ok(())
}
