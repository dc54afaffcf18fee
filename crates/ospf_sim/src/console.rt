//! A console: lines that are answered one by one, as they are given.

ghost use Rattle.std.specs.Prelude.{◌≡◌, ◌≢◌, ◌⊎◌, IfErr, IfOk, IfSome, OnOk};
ghost use Rattle.std.specs.Io.BufRead.{ends_with_byte};
ghost use Rattle.ospf_files.specs.declared.files.NamedFile.{NamedFile};
ghost use Rattle.ospf_files.specs.declared.streams.FailedStreams.{FailedStreams};
ghost use Rattle.ospf_files.specs.Listed.{IsFirstUnread};
ghost use Rattle.ospf_files.specs.Streams.{IsOfInput, written_on};
ghost use Rattle.ospf_commands.specs.Deliveries.Progress.{ToldOn};
ghost use Rattle.ospf_sim.specs.Begun.{IsLineCut};
ghost use Rattle.ospf_sim.specs.Consoles.{ConsoleComes, IsLineAnswered, IsConsoleCut, IsConsoleStopped, IsConsoled, IsNoConsole, IsPiece, IsAllAnswered, IsSessionCut, IsUnreadOf};
ghost use Rattle.ospf_sim.specs.Ends.{sim_end_by};
ghost use Rattle.ospf_sim.specs.Simulations.{IsToldFrom};

use crate::script::{run_line, tell_unreadable};
use crate::text::{Simulated, end_failed, end_unread, left_of, new_world};
use ospf_commands::{Simulation, Watch};
use ospf_files::{FailedStreams, Failure, Line, NamedFile, Status, first_unread, lines};
use std::alloc::Global;
use std::io::{BufRead, Write};

/// The input and the prompt of a console.
#[derive(Drop)]
pub struct Console<'a, R: BufRead + Drop> {
    /// The lines.
    pub input: R,
    /// What is printed before each line, and before the end.
    pub prompt: &'a str,
}

/// Runs the lines of an input, each as soon as it is read, in a world of the configurations that
/// files hold. In a strict simulation, a line that is refused or cannot be read counts as an
/// expectation that is not met.
///
/// The prompt is printed before each line is read, and again before the end; by then the output and
/// the reports of all lines before it are written and flushed. A line ends with a line feed, which
/// a carriage return may precede, or with the input. Printed output goes to `out`. A line that is
/// refused or cannot be read is reported on `err`, and the next line is read. Before the first line
/// is read, these end the simulation, each with a report on `err`: a file that could not be read,
/// with status `Stream`; the first file that holds no configuration, with status `Refused`; and two
/// configurations with one Router ID, with status `Refused`. Status `Memory` means that memory ran
/// out, and `Stream` that a write failed or that the input was not read to its end; a report on
/// `err` says which, as far as it can be written. In that case the output and the reports of the
/// earlier lines are written, and a beginning of those of the last line, as in `sim_text`, or all
/// of them and a beginning of the prompt. Meanwhile the watch is informed how far the rounds of a
/// line have come.
pub fn console_text<R: BufRead + Drop, O: Write, E: Write, V: Watch>(
    alloc: Global,
    console: Console<'_, R>,
    files: &[NamedFile],
    strict: bool,
    out: &mut O,
    err: &mut E,
    watch: &mut V,
) -> Simulated
    // All lines of the input are answered; or the refusal is reported, and no line is answered.
    ensures done { let old = written_on (O.contents out.old) (E.contents err.old) in
        let new = written_on (O.contents out.new) (E.contents err.new) in
        result.status ≡ Status.Done → IsConsoled (R.remaining console.entry.input)
        console.entry.prompt.now files.now result.left old new }
    ensures refused { let old = written_on (O.contents out.old) (E.contents err.old) in
        let new = written_on (O.contents out.new) (E.contents err.new) in
        result.status ≡ Status.Refused → IsNoConsole files.now result.left old new }
    // If a file could not be read, that or memory ends the console, and nothing is printed.
    ensures unread { (file : NamedFile) → IsFirstUnread file files.now →
        (result.status ≡ Status.Stream) ⊎ (result.status ≡ Status.Memory) }
    ensures unwritten { (file : NamedFile) → IsFirstUnread file files.now →
        O.contents out.new ≡ O.contents out.old }
    // The console stops at such a file or at a failure; there is no other end.
    ensures stopped { let old = written_on (O.contents out.old) (E.contents err.old) in
        let new = written_on (O.contents out.new) (E.contents err.new) in
        (result.status ≡ Status.Memory) ⊎ (result.status ≡ Status.Stream) →
        (failed : FailedStreams) × IsConsoleStopped (R.remaining console.entry.input)
        console.entry.prompt.now files.now result.left failed result.status old new }
    ensures not_words { result.status ≢ Status.Words }
    // The exit code follows the status, or says that an expectation of the lines is not met.
    ensures ends { result.end ≡ sim_end_by strict result.status result.left }
    // All events and all progress up to the final simulation were reported to the watch.
    ensures told { IfSome result.left (λ end. IsToldFrom V.comes_gives V.came_gives V.goes_on_gives
        files.now watch.old end watch.new) }
{
    let mut streams = FailedStreams::none();
    match converse(alloc, console, files, out, err, watch, &mut streams) {
        Ok(simulated) => simulated.judged(strict),
        Err(failure) => end_failed(failure, err, &mut streams).judged(strict),
    }
}

// Runs the lines of an input in a world of the configurations in files, if all files could be read.
fn converse<R: BufRead + Drop, O: Write, E: Write, V: Watch>(
    alloc: Global,
    console: Console<'_, R>,
    files: &[NamedFile],
    out: &mut O,
    err: &mut E,
    watch: &mut V,
    streams: &mut FailedStreams,
) -> Result<Simulated, Failure>
    // All lines are answered, or the refusal is reported; no status says that memory ran out.
    ensures comes { let old = written_on (O.contents out.old) (E.contents err.old) in
        let new = written_on (O.contents out.new) (E.contents err.new) in
        IfOk result (λ s. ConsoleComes s.status (R.remaining console.entry.input)
        console.entry.prompt.now files.now s.left old new) }
    ensures not_words { IfOk result (λ s. s.status ≢ Status.Words) }
    ensures not_memory { IfOk result (λ s. s.status ≢ Status.Memory) }
    // If a file could not be read, the first such file is reported, and nothing is printed.
    ensures stream { let old = written_on (O.contents out.old) (E.contents err.old) in
        let new = written_on (O.contents out.new) (E.contents err.new) in
        IfOk result (λ s. s.status ≡ Status.Stream → IsUnreadOf files.now s.left old new) }
    ensures unread { (file : NamedFile) → IsFirstUnread file files.now →
        IfOk result (λ s. s.status ≡ Status.Stream) }
    ensures unwritten { (file : NamedFile) → IsFirstUnread file files.now →
        O.contents out.new ≡ O.contents out.old }
    // All events and all progress up to the final simulation were reported to the watch.
    ensures told { IfOk result (λ s. IfSome s.left (λ end. IsToldFrom V.comes_gives V.came_gives
        V.goes_on_gives files.now watch.old end watch.new)) }
    // A failure cuts it, and a beginning of the output is written.
    ensures cut { let old = written_on (O.contents out.old) (E.contents err.old) in
        let new = written_on (O.contents out.new) (E.contents err.new) in
        IfErr result (IsConsoleCut (R.remaining console.entry.input)
        console.entry.prompt.now files.now streams.new old new) }
{
    if let Some(file) = first_unread(files) {
        return end_unread(alloc, file, err, streams);
    }
    match new_world(alloc, files, err, streams)? {
        Some(world) => {
            let mut started = Simulation::new(world);
            answer_lines(&mut started, console, out, err, alloc, watch, streams)?;
            Ok(left_of(started, true))
        }
        None => Ok(Simulated::without(Status::Refused)),
    }
}

// Answers the lines of an input, up to its end. If it fails at a line, the earlier lines are
// answered.
fn answer_lines<R: BufRead + Drop, O: Write, E: Write, V: Watch>(
    simulation: &mut Simulation,
    console: Console<'_, R>,
    out: &mut O,
    err: &mut E,
    alloc: Global,
    watch: &mut V,
    streams: &mut FailedStreams,
) -> Result<(), Failure>
    ensures answered { let old = written_on (O.contents out.old) (E.contents err.old) in
        let new = written_on (O.contents out.new) (E.contents err.new) in
        OnOk result (IsAllAnswered (R.remaining console.entry.input)
        console.entry.prompt.now simulation.old simulation.new old new) }
    ensures cut { let old = written_on (O.contents out.old) (E.contents err.old) in
        let new = written_on (O.contents out.new) (E.contents err.new) in
        IfErr result (IsSessionCut (R.remaining console.entry.input)
        console.entry.prompt.now simulation.old streams.new old new) }
    ensures told { ToldOn V.comes_gives V.came_gives V.goes_on_gives
        (simulation.old.world, watch.old) (simulation.new.world, watch.new) }
{
    let Console { mut input, prompt } = console;
    let mut piece = Vec::new(alloc);
    streams.print(out, prompt)?;
    for number in 1..u64::MAX {
        if !read_piece(&mut input, &mut piece)? {
            return Ok(());
        }
        let lines = lines(alloc, &piece)?;
        let line = Line {
            number,
            text: lines[0].text,
        };
        answer_line(simulation, &line, out, err, alloc, watch, streams)?;
        streams.print(out, prompt)?;
        if !is_ended(&piece) {
            return Ok(());
        }
    }
    Err(Failure::Input)
}

// Reads the next piece of an input, up to a line feed or to the end, and replaces the old one.
// Returns whether there is one.
fn read_piece<R: BufRead>(input: &mut R, piece: &mut Vec<u8>) -> Result<bool, Failure>
    ensures read { IfOk result (λ more. IsPiece more piece.new.items (R.remaining input.old)
        (R.remaining input.new)) }
    ensures unread { IfErr result IsOfInput }
{
    piece.clear();
    match input.read_until(b'\n', piece) {
        Ok(0) => Ok(false),
        Ok(_) => Ok(true),
        Err(error) => Err(Failure::of(&error, Failure::Input)),
    }
}

// Whether a piece ends with a line feed.
fn is_ended(piece: &[u8]) -> bool
    ensures { result ≡ ends_with_byte 10 piece.now }
{
    matches!(piece, [.., b'\n'])
}

// Answers a line: runs it, or reports that it cannot be read. If that fails, at most a beginning of
// what it writes was written.
fn answer_line<O: Write, E: Write, V: Watch>(
    simulation: &mut Simulation,
    line: &Line<'_>,
    out: &mut O,
    err: &mut E,
    alloc: Global,
    watch: &mut V,
    streams: &mut FailedStreams,
) -> Result<(), Failure>
    ensures answered { let old = written_on (O.contents out.old) (E.contents err.old) in
        let new = written_on (O.contents out.new) (E.contents err.new) in
        OnOk result (IsLineAnswered line.now.number line.now.text.now
        simulation.old simulation.new old new) }
    ensures cut { let old = written_on (O.contents out.old) (E.contents err.old) in
        let new = written_on (O.contents out.new) (E.contents err.new) in
        IfErr result (IsLineCut line.now.number line.now.text.now
        simulation.old streams.new old new) }
    ensures told { ToldOn V.comes_gives V.came_gives V.goes_on_gives
        (simulation.old.world, watch.old) (simulation.new.world, watch.new) }
{
    if run_line(simulation, line, out, err, alloc, watch, streams)? {
        Ok(())
    } else {
        simulation.is_refused = true;
        tell_unreadable(alloc, line, out, err, streams)
    }
}
