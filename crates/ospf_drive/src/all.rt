//! The drivers of several routers, each in a thread of its own.

ghost use Rattle.std.specs.Prelude.{◌≡◌, ◌+◌, ◌<◌, ◌≤◌, ◌^◌, [], All, IfOk, vec_len, vec_capacity};
ghost use Rattle.std.specs.List.{AllZip};
ghost use Rattle.ospf_drive.specs.Driven.{IsDriven, IsThreadJoined, IsDriverStarted};
ghost use Rattle.ospf_drive.specs.Moments.{at};

use crate::driver::drive;
use crate::fault::DriveFault;
use crate::machine::Machine;
use crate::wire::Wire;
use ospf_fib::{Told, Writer};
use ospf_router::Router;
use std::alloc::{AllocError, Global};
use std::marker::Model;
use std::snapshot::Snapshot;
use std::sync::Wait;
use std::thread;
use std::thread::{Promise, PromisedHandle, Threads};

/// What a driver of `drive_all` is given: a machine, its wire, and the writer of its table.
pub type DriverJob<M, W, R> = (M, W, Writer<R>);

/// What a driver in `drive_all` returns: the router, the writer, the message of the last publish.
pub type Driven<R> = Result<(Router, Writer<R>, Option<Told>), DriveFault>;

/// Drives each machine in a thread of its own, and waits for all of them. The results are in
/// the order of the jobs: what `drive` returns, or `Thread` if a thread did not
/// start. A driver that fails does not end the others.
///
/// `AllocError` if memory runs out; then none of them ran.
pub fn drive_all<
    M: Machine + Send + Drop + 'static,
    W: Wire + Send + Drop + 'static,
    R: Wait + Send + Drop + 'static,
    S: Threads + Wait + Copy + Send + 'static,
>(rt: &S, alloc: Global, jobs: Vec<DriverJob<M, W, R>>) -> Result<Vec<Driven<R>>, AllocError>
    requires { All (λ job. W.failed job.1 + 1 < 2 ^ 64) jobs.items }
    ensures { IfOk result (λ all. AllZip (λ job driven. IsDriven M.rules
        (at (M.value job.0) (W.traffic job.1) (W.failed job.1) job.2) driven)
        jobs.items all.items) }
{
    let mut results = Vec::with_capacity(alloc, jobs.len())?;
    let mut threads = Vec::with_capacity(alloc, jobs.len())?;
    start_all(*rt, alloc, jobs, &mut threads);
    join_all(rt, threads, &mut results);
    Ok(results)
}

// What a thread will give back: what comes of its job.
#[derive(Drop)]
struct DriveOf<M: Machine + Drop, W: Wire + Drop, R: Wait + Drop>(Snapshot<DriverJob<M, W, R>>);

impl<M: Machine + Drop, W: Wire + Drop, R: Wait + Drop> Promise<Driven<R>> for DriveOf<M, W, R> {
    ghost kept_by = { λ p r. IsDriven M.rules
        (at (M.value p.0.value.0) (W.traffic p.0.value.1) (W.failed p.0.value.1) p.0.value.2) r };
}

// A driver that runs in its thread. Proofs see where it began.
#[derive(Drop)]
struct Running<M: Machine + Drop, W: Wire + Drop, R: Wait + Send + Drop + 'static> {
    handle: PromisedHandle<Driven<R>, DriveOf<M, W, R>>,
}

impl<M: Machine + Drop, W: Wire + Drop, R: Wait + Send + Drop + 'static> Model
    for Running<M, W, R> {
    ghost use Rattle.ospf_drive.specs.Moments.{Moment, at as moment};

    ghost Value = { Moment };

    ghost view = { λ r. moment (M.value r.handle.promise.0.value.0)
        (W.traffic r.handle.promise.0.value.1) (W.failed r.handle.promise.0.value.1)
        r.handle.promise.0.value.2 };
}

// Starts a driver's thread for each job, in order.
fn start_all<
    M: Machine + Send + Drop + 'static,
    W: Wire + Send + Drop + 'static,
    R: Wait + Send + Drop + 'static,
    S: Threads + Wait + Copy + Send + 'static,
>(
    rt: S,
    alloc: Global,
    jobs: Vec<DriverJob<M, W, R>>,
    threads: &mut Vec<Result<Running<M, W, R>, DriveFault>>,
)
    requires fresh { All (λ job. W.failed job.1 + 1 < 2 ^ 64) jobs.items }
    requires none { threads.old.items ≡ [] }
    requires room { vec_len jobs ≤ vec_capacity threads.old }
    ensures { AllZip (λ job thread. IsDriverStarted
        (at (M.value job.0) (W.traffic job.1) (W.failed job.1) job.2) thread)
        jobs.items threads.new.items }
{
    for job in jobs {
        let Ok(()) = threads.push(start(rt, alloc, job)) else {
            unreachable!()
        };
    }
}

// Starts a driver's thread.
fn start<
    M: Machine + Send + Drop + 'static,
    W: Wire + Send + Drop + 'static,
    R: Wait + Send + Drop + 'static,
    S: Threads + Wait + Copy + Send + 'static,
>(rt: S, alloc: Global, job: DriverJob<M, W, R>) -> Result<Running<M, W, R>, DriveFault>
    requires { W.failed job.1 + 1 < 2 ^ 64 }
    ensures { IsDriverStarted (at (M.value job.0) (W.traffic job.1) (W.failed job.1) job.2)
        result }
{
    let promise = DriveOf(Snapshot::of(&job));
    let thread = thread::spawn_with(
        &rt,
        promise,
        move || -> Driven<R>
            requires { W.failed job.1 + 1 < 2 ^ 64 }
        { drive_one(&rt, alloc, job) },
    );
    match thread {
        Ok(handle) => Ok(Running { handle }),
        Err(_) => Err(DriveFault::Thread),
    }
}

// Drives one machine.
fn drive_one<M: Machine + Drop, W: Wire + Drop, R: Wait + Drop, S: Wait>(
    rt: &S,
    alloc: Global,
    job: DriverJob<M, W, R>,
) -> Driven<R>
    requires { W.failed job.1 + 1 < 2 ^ 64 }
    ensures { IsDriven M.rules (at (M.value job.0) (W.traffic job.1) (W.failed job.1) job.2)
        result }
{
    let (mut machine, mut wire, mut writer) = job;
    let told = drive(rt, alloc, &mut machine, &mut wire, &mut writer)?;
    Ok((machine.into_router(), writer, told))
}

// Waits for each of the threads, in order.
fn join_all<M: Machine + Drop, W: Wire + Drop, R: Wait + Send + Drop + 'static, S: Threads + Wait>(
    rt: &S,
    threads: Vec<Result<Running<M, W, R>, DriveFault>>,
    results: &mut Vec<Driven<R>>,
)
    requires none { results.old.items ≡ [] }
    requires room { vec_len threads ≤ vec_capacity results.old }
    ensures { AllZip (IsThreadJoined M.rules) threads.items results.new.items }
{
    for running in threads {
        let Ok(()) = results.push(join(rt, running)) else {
            unreachable!()
        };
    }
}

// Waits for a thread's end, if it was started.
fn join<M: Machine + Drop, W: Wire + Drop, R: Wait + Send + Drop + 'static, S: Threads + Wait>(
    rt: &S,
    running: Result<Running<M, W, R>, DriveFault>,
) -> Driven<R>
    ensures { IsThreadJoined M.rules running result }
{
    match running {
        Ok(Running { handle }) => handle.join(rt),
        Err(fault) => Err(fault),
    }
}
