//! Running a plan over wires.

ghost use Rattle.std.specs.Prelude.{◌≡◌, ◌≢◌, ◌+◌, ◌<◌, ◌≤◌, ◌^◌, [], List, All, IfErr, IfOk, length, vec_capacity, vec_len};
ghost use Rattle.std.specs.List.{AllZip};
ghost use Rattle.ospf_config.specs.declared.config.Config.{Config};
ghost use Rattle.ospf_flood.specs.Rules.{max_sequence_number};
ghost use Rattle.ospf_run.specs.Lookups.{IsFrom};
ghost use Rattle.ospf_run.specs.Cut.{FailsPlan};
ghost use Rattle.ospf_run.specs.Runs.{BeginsRun, ComeOf, RoutersRan, Terms, span_of};
ghost use Rattle.ospf_drive.specs.Traffic.Carried.{Ticks};

use crate::begin::begin_all;
use crate::finish::finish_all;
use crate::look::{Done, RouterSeat, start_lookup};
use crate::outcome::Outcome;
use crate::settings::Settings;
use ospf_base::Addr;
use ospf_drive::udp::Plan;
use ospf_drive::{Driven, DriverJob, Machine, Wire, drive_all};
use ospf_fib::Seat;
use ospf_files::{Failure, NamedFile};
use std::alloc::{AllocError, Global};
use std::sync::atomic::{AtomicBool, Ordering};
use std::sync::{Arc, Wait};
use std::thread::Threads;
use std::time::Clock;

/// Runs a plan over wires, one for each configuration. Returns the outcomes of its routers, in
/// order.
pub(crate) fn run_over<
    'a,
    M: Machine + Send + Drop + 'static,
    W: Wire + Send + Drop + 'static,
    R: Threads + Wait + Clock + Copy + Send + Drop + 'static,
>(
    rt: &R,
    alloc: Global,
    settings: &Settings,
    files: &'a [NamedFile],
    plan: &Plan,
    wires: Vec<W>,
) -> Result<Vec<Outcome<'a>>, Failure>
    requires floor { plan.now.floor ≢ max_sequence_number }
    requires files { length files.now ≡ length plan.now.configs.items }
    requires wires { length wires.items ≡ length plan.now.configs.items }
    requires fresh { All (λ wire. W.failed wire + 1 < 2 ^ 64) wires.items }
    requires counted { All (λ wire. W.traffic wire ≡ Ticks 0 (span_of settings.now)) wires.items }
    // The outcome of each router, or what failed before anything was written.
    ensures outcomes { IfOk result
        (λ all. ComeOf M.rules settings.now plan.now files.now all.items) }
    ensures early { IfErr result (FailsPlan settings.now.lookup files.now) }
{
    let (jobs, seats) = begin_all::<M, W, R>(*rt, alloc, &plan.configs, plan.floor, wires)?;
    let (driven, router_seats) = drive_and_look(rt, alloc, jobs, seats, settings.lookup)?;
    finish_all::<M, R, R>(
        rt,
        alloc,
        files,
        &plan.configs,
        driven,
        router_seats,
        settings.lookup,
    )
}

// Drives the routers, and looks up the address while they run.
fn drive_and_look<
    M: Machine + Send + Drop + 'static,
    W: Wire + Send + Drop + 'static,
    R: Threads + Wait + Clock + Copy + Send + Drop + 'static,
>(
    rt: &R,
    alloc: Global,
    jobs: Vec<DriverJob<M, W, R>>,
    seats: Vec<Seat>,
    lookup: Option<Addr>,
) -> Result<(Vec<Driven<R>>, Vec<RouterSeat>), AllocError>
    requires { All (λ job. W.failed job.1 + 1 < 2 ^ 64) jobs.items }
    ensures { (terms : Terms) (configs : List Config) →
        AllZip (λ config job. BeginsRun terms.floor config (M.value job.0) job.2)
        configs jobs.items →
        All (λ job. W.traffic job.1 ≡ Ticks 0 terms.span) jobs.items →
        AllZip (λ job seat. seat ≡ job.2) jobs.items seats.items →
        IfOk result (λ ended. RoutersRan M.rules terms configs ended.0.items ended.1.items) }
{
    let done = Arc::new(alloc, AtomicBool::new(false)).map_err(AllocError::from)?;
    let mut router_seats = Vec::with_capacity(alloc, seats.len())?;
    start_lookups(*rt, seats, lookup, &done, &mut router_seats);
    let ended = drive_all(rt, alloc, jobs);
    // Signals the lookup threads to stop.
    done.store(true, Ordering::SeqCst);
    let driven = ended?;
    Ok((driven, router_seats))
}

// Starts to look up the address from the seats, in order.
fn start_lookups<S: Threads + Wait + Clock + Copy + Send + 'static>(
    rt: S,
    seats: Vec<Seat>,
    lookup: Option<Addr>,
    done: &Done,
    router_seats: &mut Vec<RouterSeat>,
)
    requires none { router_seats.old.items ≡ [] }
    requires room { vec_len seats ≤ vec_capacity router_seats.old }
    ensures { AllZip IsFrom seats.items router_seats.new.items }
{
    for seat in seats {
        let router_seat = start_lookup(rt, seat, lookup, done);
        let Ok(()) = router_seats.push(router_seat) else {
            unreachable!()
        };
    }
}
