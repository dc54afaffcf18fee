//! Starting routers: each with a writer of its table, and a seat at the table.

ghost use Rattle.std.specs.Prelude.{◌≡◌, ◌≢◌, ◌+◌, ◌<◌, ◌^◌, All, IfOk, length, map};
ghost use Rattle.std.specs.List.{AllZip};
ghost use Rattle.ospf_flood.specs.Rules.{max_sequence_number};
ghost use Rattle.ospf_fib.specs.PrefixIndex.Known.{opening};
ghost use Rattle.ospf_router.specs.Starts.{IsStarted};
ghost use Rattle.ospf_run.specs.Runs.{BeginsRun};

use ospf_config::Config;
use ospf_drive::udp::put;
use ospf_drive::{DriverJob, Machine, Wire};
use ospf_fib::{Fib, OpenRefused, Seat, Writer};
use ospf_router::StartFault;
use std::alloc::{AllocError, Global};
use std::sync::Wait;

// The first DD sequence number of each router (RFC 2328, section 10.3).
const DD_START: u32 = 1;

/// Starts a machine for each configuration, over the wire at the same place. The floor of their
/// numbers is below the greatest number.
///
/// `AllocError` if memory runs out, or there is no room for a seat.
pub(crate) fn begin_all<M: Machine + Drop, W: Wire + Drop, R: Wait + Copy + Drop>(
    rt: R,
    alloc: Global,
    configs: &[Config],
    floor: i32,
    wires: Vec<W>,
) -> Result<(Vec<DriverJob<M, W, R>>, Vec<Seat>), AllocError>
    requires floor { floor ≢ max_sequence_number }
    requires wires { length wires.items ≡ length configs.now }
    requires fresh { All (λ wire. W.failed wire + 1 < 2 ^ 64) wires.items }
    // Each configuration has its job and its seat, in order, over its own wire.
    ensures begins { IfOk result (λ begun. AllZip
        (λ config job. BeginsRun floor config (M.value job.0) job.2) configs.now begun.0.items) }
    ensures over { IfOk result (λ begun. map (λ job. job.1) begun.0.items ≡ wires.items) }
    ensures fresh { IfOk result (λ begun. All (λ job. W.failed job.1 + 1 < 2 ^ 64) begun.0.items) }
    ensures seats { IfOk result (λ begun. AllZip (λ job seat. seat ≡ job.2) begun.0.items
        begun.1.items) }
{
    let mut jobs = Vec::with_capacity(alloc, configs.len())?;
    let mut seats = Vec::with_capacity(alloc, configs.len())?;
    let mut wires = wires.into_iter();
    for config in configs {
        let Some(wire) = wires.next() else {
            unreachable!()
        };
        let (job, seat) = begin(rt, alloc, config, floor, wire)?;
        put(&mut jobs, job)?;
        put(&mut seats, seat)?;
    }
    Ok((jobs, seats))
}

// Starts a machine with a configuration, the writer of its table, and a seat at the table.
fn begin<M: Machine + Drop, W: Wire + Drop, R: Wait + Drop>(
    rt: R,
    alloc: Global,
    config: &Config,
    floor: i32,
    wire: W,
) -> Result<(DriverJob<M, W, R>, Seat), AllocError>
    requires { floor ≢ max_sequence_number }
    ensures begins { IfOk result (λ begun. BeginsRun floor config.now (M.value begun.0.0)
        begun.0.2) }
    ensures wire { IfOk result (λ begun. begun.0.1 ≡ wire) }
    ensures seat { IfOk result (λ begun. begun.1 ≡ begun.0.2) }
{
    let machine = start_machine(alloc, config, floor)?;
    match open_table(rt, alloc) {
        Ok((writer, seat)) => Ok(((machine, wire, writer), seat)),
        Err(OpenRefused) => Err(AllocError),
    }
}

// Starts a machine with a configuration.
fn start_machine<M: Machine>(alloc: Global, config: &Config, floor: i32) -> Result<M, AllocError>
    requires { floor ≢ max_sequence_number }
    ensures { IfOk result (λ m. IsStarted config.now 1 floor (M.value m)) }
{
    match M::start(config, DD_START, floor, alloc) {
        Ok(machine) => Ok(machine),
        Err(StartFault::Memory) => Err(AllocError),
        Err(StartFault::Floor) => unreachable!(),
    }
}

// Opens an empty published table with one seat.
fn open_table<R: Wait + Drop>(rt: R, alloc: Global) -> Result<(Writer<R>, Seat), OpenRefused>
    ensures tables { IfOk result (λ opened. opened.0.tables ≡ opening) }
    ensures seat { IfOk result (λ opened. opened.1 ≡ opened.0) }
{
    let (writer, mut seats) = Fib::open(alloc, rt, 1)?;
    match seats.pop() {
        Some(seat) => Ok((writer, seat)),
        None => Err(OpenRefused),
    }
}
