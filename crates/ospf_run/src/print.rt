//! What is printed of routers whose drivers have ended.

ghost use Rattle.std.specs.Prelude.{◌≡◌, IfErr, IfOk, OnErr, OnOk, string_bytes};
ghost use Rattle.std.specs.Io.KnownBytes.{Appends};
ghost use Rattle.ospf_files.specs.Streams.{IsBegun, IsErrorCut, IsOutputCut, written_on};
ghost use Rattle.ospf_drive.specs.Faults.{drive_fault_text};
ghost use Rattle.ospf_drive.specs.UdpWire.Obstacles.{line_about};
ghost use Rattle.ospf_run.specs.Printed.{IsReportCut, AreOutcomesReported, looked_lines, outcome_lines, outcome_told, report_lines, report_told, router_id_line, router_lines, table_lines};

use crate::extras::print_extras;
use crate::outcome::{Extras, Looked, Outcome, RouterShown};
use crate::status::status_of;
use ospf_base::RouterId;
use ospf_drive::DriveFault;
use ospf_drive::udp::line_about;
use ospf_files::{FailedStreams, Failure, NamedFile, Status, print_lookup, print_routes};
use std::alloc::{AllocError, Global};
use std::io::Write;

/// Writes each router whose driver reached the end to `out`, in their order: its Router ID, its
/// routes, a lookup if there was one, and the extras; then reports on `err` why the other drivers
/// ended. Returns the status to end with.
///
/// `Failure` if memory runs out or a stream fails: then a beginning of the output is on `out`, or
/// all of it, and a beginning of the reports on `err`.
pub fn report<O: Write, E: Write>(
    alloc: Global,
    outcomes: &[Outcome<'_>],
    extras: &Extras,
    out: &mut O,
    err: &mut E,
    streams: &mut FailedStreams,
) -> Result<Status, Failure>
    ensures reported { let old = written_on (O.contents out.old) (E.contents err.old) in
        let new = written_on (O.contents out.new) (E.contents err.new) in
        IfOk result (λ status. AreOutcomesReported extras.now outcomes.now status old new) }
    ensures cut { let old = written_on (O.contents out.old) (E.contents err.old) in
        let new = written_on (O.contents out.new) (E.contents err.new) in
        IfErr result (IsReportCut extras.now outcomes.now streams.new old new) }
{
    print_outcomes(alloc, outcomes, extras, out, streams)?;
    streams.flush(out)?;
    tell_outcomes(alloc, outcomes, err, streams)?;
    Ok(status_of(outcomes))
}

// Prints the outcomes of routers to standard output, which may buffer them until it is flushed.
fn print_outcomes<O: Write>(
    alloc: Global,
    outcomes: &[Outcome<'_>],
    extras: &Extras,
    out: &mut O,
    streams: &mut FailedStreams,
) -> Result<(), Failure>
    ensures printed { OnOk result
        (Appends (O.contents out.old) (O.contents out.new) (report_lines extras.now outcomes.now)) }
    ensures begun { OnErr result
        (IsBegun (O.contents out.old) (O.contents out.new) (report_lines extras.now outcomes.now)) }
    ensures cut { IfErr result (IsOutputCut streams.new) }
{
    for outcome in outcomes {
        print_outcome(alloc, outcome, extras, out, streams)?;
    }
    Ok(())
}

// Prints the outcome of a router to standard output, if its driver reached the end.
fn print_outcome<O: Write>(
    alloc: Global,
    outcome: &Outcome<'_>,
    extras: &Extras,
    out: &mut O,
    streams: &mut FailedStreams,
) -> Result<(), Failure>
    ensures printed { OnOk result
        (Appends (O.contents out.old) (O.contents out.new) (outcome_lines extras.now outcome.now)) }
    ensures begun { OnErr result
        (IsBegun (O.contents out.old) (O.contents out.new) (outcome_lines extras.now outcome.now)) }
    ensures cut { IfErr result (IsOutputCut streams.new) }
{
    match &outcome.came {
        Ok(shown) => print_router(alloc, outcome.router, shown, extras, out, streams),
        Err(_) => Ok(()),
    }
}

// Prints a router: its table, a lookup if there was one, and the extras.
fn print_router<O: Write>(
    alloc: Global,
    router: RouterId,
    shown: &RouterShown,
    extras: &Extras,
    out: &mut O,
    streams: &mut FailedStreams,
) -> Result<(), Failure>
    ensures printed { OnOk result
        (Appends (O.contents out.old) (O.contents out.new) (router_lines extras.now router
        shown.now)) }
    ensures begun { OnErr result
        (IsBegun (O.contents out.old) (O.contents out.new) (router_lines extras.now router
        shown.now)) }
    ensures cut { IfErr result (IsOutputCut streams.new) }
{
    print_table(alloc, router, shown, out, streams)?;
    print_looked(alloc, &shown.looked, out, streams)?;
    print_extras(alloc, router, &shown.router, extras, out, streams)
}

// Prints the line of a router, and its routes.
fn print_table<O: Write>(
    alloc: Global,
    router: RouterId,
    shown: &RouterShown,
    out: &mut O,
    streams: &mut FailedStreams,
) -> Result<(), Failure>
    ensures printed { OnOk result
        (Appends (O.contents out.old) (O.contents out.new) (table_lines router shown.now)) }
    ensures begun { OnErr result
        (IsBegun (O.contents out.old) (O.contents out.new) (table_lines router shown.now)) }
    ensures cut { IfErr result (IsOutputCut streams.new) }
{
    let line = router_line(alloc, router)?;
    streams.write(out, &line)?;
    print_routes(alloc, shown.router.table().routes(), out, streams)
}

// Formats the line of a router.
fn router_line(alloc: Global, router: RouterId) -> Result<String, AllocError>
    ensures { IfOk result (λ line. string_bytes line ≡ router_id_line router) }
{
    let line = format!(in alloc; "router {router}\n")?;
    Ok(line)
}

// Prints what a lookup found, if an address was given.
fn print_looked<O: Write>(
    alloc: Global,
    looked: &Option<Looked>,
    out: &mut O,
    streams: &mut FailedStreams,
) -> Result<(), Failure>
    ensures printed { OnOk result
        (Appends (O.contents out.old) (O.contents out.new) (looked_lines looked.now)) }
    ensures begun { OnErr result
        (IsBegun (O.contents out.old) (O.contents out.new) (looked_lines looked.now)) }
    ensures cut { IfErr result (IsOutputCut streams.new) }
{
    match looked {
        Some(looked) => print_lookup(alloc, looked.address, looked.answer, out, streams),
        None => Ok(()),
    }
}

// Reports why drivers ended.
fn tell_outcomes<E: Write>(
    alloc: Global,
    outcomes: &[Outcome<'_>],
    err: &mut E,
    streams: &mut FailedStreams,
) -> Result<(), Failure>
    ensures told { OnOk result
        (Appends (E.contents err.old) (E.contents err.new) (report_told outcomes.now)) }
    ensures begun { OnErr result
        (IsBegun (E.contents err.old) (E.contents err.new) (report_told outcomes.now)) }
    ensures cut { IfErr result (IsErrorCut streams.new) }
{
    for outcome in outcomes {
        tell_outcome(alloc, outcome, err, streams)?;
    }
    Ok(())
}

// Reports why the driver of a router ended, if it did not reach the end.
fn tell_outcome<E: Write>(
    alloc: Global,
    outcome: &Outcome<'_>,
    err: &mut E,
    streams: &mut FailedStreams,
) -> Result<(), Failure>
    ensures told { OnOk result
        (Appends (E.contents err.old) (E.contents err.new) (outcome_told outcome.now)) }
    ensures begun { OnErr result
        (IsBegun (E.contents err.old) (E.contents err.new) (outcome_told outcome.now)) }
    ensures cut { IfErr result (IsErrorCut streams.new) }
{
    match outcome.came {
        Ok(_) => Ok(()),
        Err(fault) => tell_fault(alloc, outcome.file, fault, err, streams),
    }
}

// Reports why a driver ended.
fn tell_fault<E: Write>(
    alloc: Global,
    file: &NamedFile,
    fault: DriveFault,
    err: &mut E,
    streams: &mut FailedStreams,
) -> Result<(), Failure>
    ensures told { OnOk result
        (Appends (E.contents err.old) (E.contents err.new) (line_about file.now
        (drive_fault_text fault))) }
    ensures begun { OnErr result
        (IsBegun (E.contents err.old) (E.contents err.new) (line_about file.now
        (drive_fault_text fault))) }
    ensures cut { IfErr result (IsErrorCut streams.new) }
{
    let line = line_about(alloc, file, fault.text())?;
    streams.tell(err, &line)
}
