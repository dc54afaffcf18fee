//! Simulations.

ghost use Rattle.std.specs.Prelude.{◌≡◌, ◌≢◌, ◌⊎◌, ◌∷◌, IfErr, IfOk, IfSome, IfNone, None, OnErr, OnOk, length};
ghost use Rattle.std.specs.Io.KnownBytes.{Appends};
ghost use Rattle.ospf_files.specs.Files.{unread_line};
ghost use Rattle.ospf_files.specs.declared.files.NamedFile.{NamedFile};
ghost use Rattle.ospf_files.specs.declared.streams.FailedStreams.{FailedStreams};
ghost use Rattle.ospf_files.specs.Listed.{AreFilesRead, IsFirstUnread};
ghost use Rattle.ospf_files.specs.Status.{failure_line, failure_status};
ghost use Rattle.ospf_files.specs.Streams.{IsBegun, IsErrorCut, IsTold, written_on};
ghost use Rattle.ospf_sim.specs.Begun.{IsSimulationCut, IsOpeningCut, IsWorldCut};
ghost use Rattle.ospf_sim.specs.Ends.{sim_end_by};
ghost use Rattle.ospf_sim.specs.Simulations.{ComesOfScript, IsScriptRefused, IsSimulated, IsToldFrom, OpensWorld, WorldComes, status_of_script};
ghost use Rattle.ospf_sim.specs.Stopped.{IsStopped, IsScriptUnreadTold};
ghost use Rattle.ospf_files.specs.Twins.{AreFirstTwins};
ghost use Rattle.ospf_sim.specs.Twins.{AreTwinsTold};

use crate::configs::read_configs;
use crate::end::{SimStatus, end_by};
use crate::script::run_script;
use ospf_commands::{Simulation, Watch};
use ospf_config::Config;
use ospf_files::{
    FailedStreams, Failure, NamedFile, Status, Twins, first_twins, first_unread, same_router_lines,
    tell_unread,
};
use ospf_world::World;
use std::alloc::Global;
use std::io::Write;

/// The result of a simulation.
#[derive(Drop)]
pub struct Simulated {
    /// How far it came: `Done` if all lines have run.
    pub status: Status,
    /// How it ends: as its status says, or, if all lines have run, whether their expectations are
    /// met.
    pub end: SimStatus,
    /// What the script left, if it has run.
    pub left: Option<Simulation>,
}

impl Simulated {
    ghost use Rattle.std.specs.Prelude.{◌≡◌, None};
    ghost use Rattle.ospf_sim.specs.Ends.{sim_end_by};

    // No line has run, or it is not known what state the lines left.
    pub(crate) fn without(status: Status) -> Simulated
        ensures status { result.status ≡ status }
        ensures left { result.left ≡ None }
    {
        Simulated {
            status,
            end: SimStatus::Ended(status),
            left: None,
        }
    }

    // Decides how it ends, strictly or not.
    pub(crate) fn judged(self, strict: bool) -> Simulated
        ensures status { result.status ≡ self.status }
        ensures left { result.left ≡ self.left }
        ensures ends { result.end ≡ sim_end_by strict self.status self.left }
    {
        let Simulated { status, left, .. } = self;
        let end = end_by(strict, status, &left);
        Simulated { status, end, left }
    }
}

/// Runs the lines of a script, in order, in a world of the configurations that files hold. In a
/// strict simulation, a line that is refused counts as an expectation that is not met.
///
/// Printed output goes to `out`. A line that is refused is reported on `err`, and the script
/// continues; the first line that cannot be read is reported on `err` and ends the script, with
/// status `Refused`. Before the first line runs, these end the simulation, each with a report on
/// `err`: a file that could not be read, with status `Stream`; the first file that holds no
/// configuration, with status `Refused`; and two configurations with one Router ID, with status
/// `Refused`. Status `Memory` means that memory ran out, and `Stream` that a write failed; a report
/// on `err` says which, as far as it can be written. Before that report, if no line has run, at
/// most a beginning of the report on one of the files, or on the Router ID, is written. Otherwise
/// the output and the reports of the lines before one are written, and of that line a beginning of
/// its output, or all its output and a beginning of its report; or all output and reports of all
/// lines, if only the last flush failed. Meanwhile the watch is informed how far the rounds of a
/// line have come.
pub fn sim_text<O: Write, E: Write, V: Watch>(
    alloc: Global,
    script: &NamedFile,
    files: &[NamedFile],
    strict: bool,
    out: &mut O,
    err: &mut E,
    watch: &mut V,
) -> Simulated
    // The whole script has run; or the refusal is reported.
    ensures done { let old = written_on (O.contents out.old) (E.contents err.old) in
        let new = written_on (O.contents out.new) (E.contents err.new) in
        result.status ≡ Status.Done → IsSimulated script.now files.now result.left old new }
    ensures refused { let old = written_on (O.contents out.old) (E.contents err.old) in
        let new = written_on (O.contents out.new) (E.contents err.new) in
        result.status ≡ Status.Refused → IsScriptRefused script.now files.now result.left old
        new }
    // If a file could not be read, that or memory ends the simulation, and nothing is printed.
    ensures unread { (file : NamedFile) → IsFirstUnread file (script.now ∷ files.now) →
        (result.status ≡ Status.Stream) ⊎ (result.status ≡ Status.Memory) }
    ensures unwritten { (file : NamedFile) → IsFirstUnread file (script.now ∷ files.now) →
        O.contents out.new ≡ O.contents out.old }
    // The simulation stops at such a file or at a failure; there is no other end.
    ensures stopped { let old = written_on (O.contents out.old) (E.contents err.old) in
        let new = written_on (O.contents out.new) (E.contents err.new) in
        (result.status ≡ Status.Memory) ⊎ (result.status ≡ Status.Stream) →
        (failed : FailedStreams)
        × IsStopped script.now files.now result.left failed result.status old new }
    ensures not_words { result.status ≢ Status.Words }
    // The exit code follows the status, or says that an expectation of the script is not met.
    ensures ends { result.end ≡ sim_end_by strict result.status result.left }
    // All events and all progress up to the final simulation were reported to the watch.
    ensures told { IfSome result.left (λ end. IsToldFrom V.comes_gives V.came_gives V.goes_on_gives
        files.now watch.old end watch.new) }
{
    let mut streams = FailedStreams::none();
    match simulate(alloc, script, files, out, err, watch, &mut streams) {
        Ok(simulated) => simulated.judged(strict),
        Err(failure) => end_failed(failure, err, &mut streams).judged(strict),
    }
}

// Runs a script in a world of the configurations in files, if all files could be read.
fn simulate<O: Write, E: Write, V: Watch>(
    alloc: Global,
    script: &NamedFile,
    files: &[NamedFile],
    out: &mut O,
    err: &mut E,
    watch: &mut V,
    streams: &mut FailedStreams,
) -> Result<Simulated, Failure>
    // The whole script has run, or the refusal is reported; no status says that memory ran out.
    ensures comes { let old = written_on (O.contents out.old) (E.contents err.old) in
        let new = written_on (O.contents out.new) (E.contents err.new) in
        IfOk result (λ s. ComesOfScript s.status script.now files.now s.left old new) }
    ensures not_words { IfOk result (λ s. s.status ≢ Status.Words) }
    ensures not_memory { IfOk result (λ s. s.status ≢ Status.Memory) }
    // If a file could not be read, the first such file is reported, and nothing is printed.
    ensures stream { let old = written_on (O.contents out.old) (E.contents err.old) in
        let new = written_on (O.contents out.new) (E.contents err.new) in
        IfOk result (λ s. s.status ≡ Status.Stream →
        IsScriptUnreadTold script.now files.now s.left old new) }
    ensures unread { (file : NamedFile) → IsFirstUnread file (script.now ∷ files.now) →
        IfOk result (λ s. s.status ≡ Status.Stream) }
    ensures unwritten { (file : NamedFile) → IsFirstUnread file (script.now ∷ files.now) →
        O.contents out.new ≡ O.contents out.old }
    // All events and all progress up to the final simulation were reported to the watch.
    ensures told { IfOk result (λ s. IfSome s.left (λ end. IsToldFrom V.comes_gives V.came_gives
        V.goes_on_gives files.now watch.old end watch.new)) }
    // A failure cuts it, and a beginning of the output is written.
    ensures cut { let old = written_on (O.contents out.old) (E.contents err.old) in
        let new = written_on (O.contents out.new) (E.contents err.new) in
        IfErr result (IsSimulationCut script.now files.now streams.new old new) }
{
    if let Some(file) = unread_of(script, files) {
        return end_unread(alloc, file, err, streams);
    }
    match new_world(alloc, files, err, streams)? {
        Some(world) => {
            let mut started = Simulation::new(world);
            let whole = run_script(&mut started, script.text(), out, err, alloc, watch, streams)?;
            Ok(left_of(started, whole))
        }
        None => Ok(Simulated::without(Status::Refused)),
    }
}

// The first file that could not be read, the script before the configurations.
fn unread_of<'a>(script: &'a NamedFile, files: &'a [NamedFile]) -> Option<&'a NamedFile>
    ensures some { IfSome result (λ file. IsFirstUnread file.now (script.now ∷ files.now)) }
    ensures none { IfNone result (AreFilesRead (script.now ∷ files.now)) }
{
    if !script.is_read() {
        return Some(script);
    }
    first_unread(files)
}

// Reports that a file could not be read. If that fails, a beginning of the report was written.
pub(crate) fn end_unread<E: Write>(
    alloc: Global,
    file: &NamedFile,
    err: &mut E,
    streams: &mut FailedStreams,
) -> Result<Simulated, Failure>
    // The file is reported, nothing is left, and the status is that of a failed stream.
    ensures status { IfOk result (λ s. s.status ≡ Status.Stream) }
    ensures left { IfOk result (λ s. s.left ≡ None) }
    ensures told { OnOk result (Appends (E.contents err.old) (E.contents err.new)
        (unread_line file.now)) }
    // Or a beginning of the report is written, and it is known why no more is.
    ensures begun { OnErr result
        (IsBegun (E.contents err.old) (E.contents err.new) (unread_line file.now)) }
    ensures cut { IfErr result (IsErrorCut streams.new) }
{
    match tell_unread(alloc, file, err, streams) {
        Ok(()) => Ok(Simulated::without(Status::Stream)),
        Err(failure) => Err(failure),
    }
}

// Makes the world of the configurations in files, in which nothing runs; reports why if there is
// none.
pub(crate) fn new_world<E: Write>(
    alloc: Global,
    files: &[NamedFile],
    err: &mut E,
    streams: &mut FailedStreams,
) -> Result<Option<World>, Failure>
    ensures comes { IfOk result (λ world. WorldComes files.now world (E.contents err.old)
        (E.contents err.new)) }
    ensures cut { IfErr result
        (IsWorldCut files.now streams.new (E.contents err.old) (E.contents err.new)) }
{
    match read_configs(alloc, files, err, streams)? {
        Some(configs) => open_world(alloc, files, configs, err, streams),
        None => Ok(None),
    }
}

// Makes the world of configurations, in which nothing runs; reports if two have one Router ID.
fn open_world<E: Write>(
    alloc: Global,
    files: &[NamedFile],
    configs: Vec<Config>,
    err: &mut E,
    streams: &mut FailedStreams,
) -> Result<Option<World>, Failure>
    requires { length files.now ≡ length configs.items }
    ensures opens { IfOk result (λ world. OpensWorld files.now configs.items world
        (E.contents err.old) (E.contents err.new)) }
    ensures cut { IfErr result (IsOpeningCut files.now configs.items streams.new
        (E.contents err.old) (E.contents err.new)) }
{
    if let Some(twins) = first_twins(files, &configs) {
        tell_twins(alloc, files, &configs, twins, err, streams)?;
        return Ok(None);
    }
    match World::new(configs, alloc) {
        Ok(world) => Ok(Some(world)),
        Err(_) => Err(Failure::Memory),
    }
}

// Reports that two routers have one Router ID. If that fails, a beginning of the report was
// written.
fn tell_twins<E: Write>(
    alloc: Global,
    files: &[NamedFile],
    configs: &[Config],
    twins: Twins<'_>,
    err: &mut E,
    streams: &mut FailedStreams,
) -> Result<(), Failure>
    requires { AreFirstTwins files.now configs.now twins }
    ensures told { OnOk result
        (AreTwinsTold files.now configs.now (E.contents err.old) (E.contents err.new)) }
    ensures cut { IfErr result (IsOpeningCut files.now configs.now streams.new
        (E.contents err.old) (E.contents err.new)) }
{
    let lines = same_router_lines(alloc, twins)?;
    streams.tell(err, &lines)
}

// What a simulation leaves, by whether all its lines could be read.
pub(crate) fn left_of(simulation: Simulation, whole: bool) -> Simulated
    ensures left { result.left ≡ Some simulation }
    ensures status { result.status ≡ status_of_script whole }
{
    let status = if whole { Status::Done } else { Status::Refused };
    Simulated {
        status,
        end: SimStatus::Ended(status),
        left: Some(simulation),
    }
}

// Reports a failure last, as far as that can be written.
pub(crate) fn end_failed<E: Write>(
    failure: Failure,
    err: &mut E,
    streams: &mut FailedStreams,
) -> Simulated
    ensures status { result.status ≡ failure_status failure }
    ensures left { result.left ≡ None }
    ensures told { IsTold streams.old streams.new
        (E.contents err.old) (E.contents err.new) (failure_line failure) }
{
    let status = failure.tell(err, streams);
    Simulated::without(status)
}
