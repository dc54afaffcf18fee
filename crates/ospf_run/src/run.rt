//! Running routers, from files to output.

ghost use Rattle.std.specs.Prelude.{◌≡◌, ◌≢◌, [], ℕ, List, Option, IfErr, IfOk, OnOk, false};
ghost use Rattle.ospf_files.specs.Status.{failure_line};
ghost use Rattle.ospf_files.specs.Streams.{IsTold, written_on};
ghost use Rattle.ospf_run.specs.Cut.{EndsBy, EndsRun, IsStop, last_status};
ghost use Rattle.ospf_drive.specs.UdpWire.Plans.{IsPlanAt};
ghost use Rattle.ospf_run.specs.Runs.{ComeOf, IsHindered, IsPlanRun, RunsTo, asked_of, floor_of};

use crate::outcome::{Drops, Extras, Outcome};
use crate::over::run_over;
use crate::print::report;
use crate::settings::Settings;
use crate::tap::{Tap, tap_all};
use crate::wires::open_wires;
use ospf_drive::Machine;
use ospf_drive::udp::{Plan, Stop, prepare, status_of, tell_obstacle};
use ospf_files::{FailedStreams, Failure, NamedFile, Status};
use std::alloc::{AllocError, Global};
use std::io::Write;
use std::net::Net;
use std::sync::Wait;
use std::thread::Threads;
use std::time::Clock;

/// Runs a machine (a `Router`, or what is one by rules of its own) for each configuration that
/// files hold, in a thread of its own, over UDP on this computer.
///
/// Each starts with DD sequence number 1 and the floor. All sockets are opened before any link goes
/// up. The run ends after the last tick, if there is a last one, or when it is asked to end. Then
/// each router whose driver reached the end is written to `out`, in the order of the files:
/// `router` and its Router ID, its routing table, the result of a lookup in it, if an address is
/// given, its neighbours, its listing, its LSDB and what it dropped, if requested, and the floor of
/// its numbers, if one is given. Why another driver ended is reported on `err`. Meanwhile the tap
/// receives what happens to each router, each time from the router's thread.
///
/// These end the run before a socket is opened, the first that holds, each with a report on `err`:
/// a floor that is none, with status `Refused`; a file that could not be read, with status
/// `Stream`; the first file that holds no configuration, two configurations with one Router ID, and
/// the first file with an interface that has no port, with status `Refused`. Status `Stream` also
/// means that a socket could not be opened, that a wire or a thread failed a router, that a table
/// was closed or that a write failed; `Memory` that memory ran out, for all or for one router.
///
/// A failure of the whole run is reported last on `err`, as far as that can be written. Before it,
/// there is nothing new on either stream, if memory ran out, or a table was closed in which an
/// address is looked up, before anything was written; or only a beginning of the report on what
/// ended the run before it began, on `err`; or a beginning of the output for the routers on `out`
/// and, if that is whole, a beginning of the reports on them on `err`.
pub fn run_text<
    M: Machine + Send + Drop + 'static,
    R: Net + Threads + Wait + Clock + Copy + Send + Drop + 'static,
    T: Tap + Send + Drop + 'static,
    O: Write,
    E: Write,
>(
    rt: &R,
    alloc: Global,
    settings: &Settings,
    files: &[NamedFile],
    tap: &T,
    out: &mut O,
    err: &mut E,
) -> Status
    ensures done { let old = written_on (O.contents out.old) (E.contents err.old) in
        let new = written_on (O.contents out.new) (E.contents err.new) in
        result ≡ Status.Done →
        IsPlanRun M.rules (asked_of settings.now) files.now Status.Done old new }
    ensures refused { let old = written_on (O.contents out.old) (E.contents err.old) in
        let new = written_on (O.contents out.new) (E.contents err.new) in
        result ≡ Status.Refused →
        IsHindered (asked_of settings.now) files.now Status.Refused old new }
    // However it ends, the run has reached its end, or a failure has cut it short.
    ensures ended { let old = written_on (O.contents out.old) (E.contents err.old) in
        let new = written_on (O.contents out.new) (E.contents err.new) in
        EndsRun M.rules (asked_of settings.now) files.now result old new }
    ensures not_words { result ≢ Status.Words }
{
    let ran = run::<M, R, T>(rt, alloc, settings, files, tap);
    let mut streams = FailedStreams::none();
    let said = say::<M, O, E>(alloc, settings, files, ran, out, err, &mut streams);
    end(said, err, &mut streams)
}

// Runs routers of the configurations in files, if they can run. Returns their outcomes, in order,
// and the extras to print.
fn run<
    'a,
    M: Machine + Send + Drop + 'static,
    R: Net + Threads + Wait + Clock + Copy + Send + Drop + 'static,
    T: Tap + Send + Drop + 'static,
>(
    rt: &R,
    alloc: Global,
    settings: &Settings,
    files: &'a [NamedFile],
    tap: &T,
) -> Result<(Vec<Outcome<'a>>, Extras), Stop<'a>>
    ensures ran { IfOk result (λ ran. RunsTo M.rules settings.now files.now ran.0.items ran.1) }
    ensures stop { IfErr result (IsStop (asked_of settings.now) files.now) }
{
    let plan = prepare(alloc, &settings.floor, files)?;
    let outcomes = run_plan::<M, R, T>(rt, alloc, settings, files, &plan, tap)?;
    let drops = drops_of(alloc, settings, tap)?;
    Ok((outcomes, settings.extras(drops)))
}

// Runs a plan over sockets of this computer, and reports to a tap. Returns the outcomes of its
// routers, in order.
fn run_plan<
    'a,
    M: Machine + Send + Drop + 'static,
    R: Net + Threads + Wait + Clock + Copy + Send + Drop + 'static,
    T: Tap + Send + Drop + 'static,
>(
    rt: &R,
    alloc: Global,
    settings: &Settings,
    files: &'a [NamedFile],
    plan: &Plan,
    tap: &T,
) -> Result<Vec<Outcome<'a>>, Stop<'a>>
    requires { IsPlanAt (floor_of settings.now) files.now plan.now }
    ensures outcomes { IfOk result
        (λ all. ComeOf M.rules settings.now plan.now files.now all.items) }
    ensures stop { IfErr result (IsStop (asked_of settings.now) files.now) }
{
    let sockets = open_wires(rt, *rt, alloc, settings, files, &plan.configs)?;
    let wires = tap_all(alloc, files, &plan.configs, sockets, tap)?;
    let outcomes = run_over::<M, _, _>(rt, alloc, settings, files, plan, wires)?;
    Ok(outcomes)
}

// Collects what the routers dropped, if that is requested.
fn drops_of<T: Tap + Drop>(
    alloc: Global,
    settings: &Settings,
    tap: &T,
) -> Result<Vec<Drops>, AllocError>
    ensures { IfOk result (λ drops. settings.now.drops ≡ false → drops.items ≡ []) }
{
    if settings.drops {
        tap.drops(alloc)
    } else {
        Ok(Vec::new(alloc))
    }
}

// Writes the outcomes of the routers that settings and files request, or reports why they did not
// run to their end. Returns the status to end with.
fn say<M: Machine, O: Write, E: Write>(
    alloc: Global,
    settings: &Settings,
    files: &[NamedFile],
    ran: Result<(Vec<Outcome<'_>>, Extras), Stop<'_>>,
    out: &mut O,
    err: &mut E,
    streams: &mut FailedStreams,
) -> Result<Status, Failure>
    requires ran { IfOk ran (λ all. RunsTo M.rules settings.now files.now all.0.items all.1) }
    requires stop { IfErr ran (IsStop (asked_of settings.now) files.now) }
    ensures { let old = written_on (O.contents out.old) (E.contents err.old) in
        let new = written_on (O.contents out.new) (E.contents err.new) in
        EndsBy M.rules settings.now files.now streams.new old new result }
{
    match ran {
        Ok((outcomes, extras)) => report(alloc, &outcomes, &extras, out, err, streams),
        Err(stop) => tell_stop::<M, E>(alloc, settings, files, stop, err, streams),
    }
}

// Reports why the routers that settings and files request did not run to their end. Returns the
// status to end with.
fn tell_stop<M: Machine, E: Write>(
    alloc: Global,
    settings: &Settings,
    files: &[NamedFile],
    stop: Stop<'_>,
    err: &mut E,
    streams: &mut FailedStreams,
) -> Result<Status, Failure>
    requires { IsStop (asked_of settings.now) files.now stop }
    ensures { (out : Option (List ℕ)) → let old = written_on out (E.contents err.old) in
        let new = written_on out (E.contents err.new) in
        EndsBy M.rules settings.now files.now streams.new old new result }
{
    match stop {
        Stop::Obstacle(obstacle) => {
            tell_obstacle(alloc, obstacle, err, streams)?;
            Ok(status_of(obstacle))
        }
        Stop::Failure(failure) => Err(failure),
    }
}

// Reports last what failed, if anything did. Returns the status to end with.
fn end<E: Write>(said: Result<Status, Failure>, err: &mut E, streams: &mut FailedStreams) -> Status
    ensures status { result ≡ last_status said }
    ensures quiet { OnOk said (E.contents err.new ≡ E.contents err.old) }
    ensures told { IfErr said (λ failure. IsTold streams.old streams.new (E.contents err.old)
        (E.contents err.new) (failure_line failure)) }
{
    match said {
        Ok(status) => status,
        Err(failure) => failure.tell(err, streams),
    }
}
