//! The driver of one router.

ghost use Rattle.std.specs.Prelude.{◌+◌, ◌<◌, ◌^◌};
ghost use Rattle.ospf_drive.specs.Chains.{ChainsFrom, KeepsThroughout};
ghost use Rattle.ospf_drive.specs.Moments.{at};
ghost use Rattle.ospf_drive.specs.Drives.{Drives};
ghost use Rattle.ospf_drive.specs.Whole.{Whole};

use crate::fault::DriveFault;
use crate::laws::{chains_are_lawful, drives_are_whole};
use crate::machine::Machine;
use crate::turn::{Course, turn};
use crate::wire::{LONGEST, Wire};
use ospf_fib::{Told, Writer};
use ospf_router::laws::steps_keep_laws;
use std::alloc::Global;
use std::sync::Wait;

/// Drives a machine, which is a router, until the end of what the wire delivers: each arrival is
/// a step, what it sends goes out in order, and then a changed table is published. An arrival on a
/// link that does not exist, or one longer than the buffer, is ignored. At the end it returns the
/// message of the last publish, if there was any.
///
/// `Recv` and `Send` if the wire fails, `Stopped` if the machine stops, which a router does when
/// it runs out of memory, and `Publish` if a changed table could not be published. At `Stopped` the
/// router has stopped, and what is published is as before the arrival; else the router is as the
/// last step left it. At `Send` some of what that step sent has not gone out, and at `Send` and
/// `Publish` its table is not published.
pub fn drive<M: Machine, W: Wire, R: Wait + Drop, S: Wait>(
    rt: &S,
    alloc: Global,
    machine: &mut M,
    wire: &mut W,
    writer: &mut Writer<R>,
) -> Result<Option<Told>, DriveFault>
    requires { W.failed wire.old + 1 < 2 ^ 64 }
    ensures turns { Drives M.rules
        (at (M.value machine.old) (W.traffic wire.old) (W.failed wire.old) writer.old)
        (at (M.value machine.new) (W.traffic wire.new) (W.failed wire.new) writer.new) result }
    ensures whole { Whole M.rules
        (at (M.value machine.old) (W.traffic wire.old) (W.failed wire.old) writer.old)
        (at (M.value machine.new) (W.traffic wire.new) (W.failed wire.new) writer.new) result }
    // And where its steps are those of a router, each of them keeps the laws of a step.
    ensures lawful { ChainsFrom (M.value machine.old) }
    // And so each step that it makes keeps the nine laws of a step.
    ensures laws { KeepsThroughout M.rules
        (at (M.value machine.old) (W.traffic wire.old) (W.failed wire.old) writer.old)
        (at (M.value machine.new) (W.traffic wire.new) (W.failed wire.new) writer.new) result }
{
    // For the proof.
    drives_are_whole::<M>();
    chains_are_lawful();
    steps_keep_laws();
    machine.router().keeps();
    take_turns(rt, alloc, machine, wire, writer)
}

// Turn after turn, until one is the last.
fn take_turns<M: Machine, W: Wire, R: Wait + Drop, S: Wait>(
    rt: &S,
    alloc: Global,
    machine: &mut M,
    wire: &mut W,
    writer: &mut Writer<R>,
) -> Result<Option<Told>, DriveFault>
    requires { W.failed wire.old + 1 < 2 ^ 64 }
    ensures { Drives M.rules
        (at (M.value machine.old) (W.traffic wire.old) (W.failed wire.old) writer.old)
        (at (M.value machine.new) (W.traffic wire.new) (W.failed wire.new) writer.new) result }
{
    let mut buffer = [0; LONGEST];
    let mut told = None;
    for _ in rt.forever() {
        match turn(alloc, machine, wire, writer, &mut buffer)? {
            Course::On(None) => {}
            Course::On(Some(last)) => told = Some(last),
            Course::Over => return Ok(told),
        }
    }
    unreachable!()
}
