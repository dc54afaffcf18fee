//! Running scripts.

ghost use Rattle.std.specs.Prelude.{◌≡◌, [], IfErr, IfOk, OnOk, string_bytes};
ghost use Rattle.std.specs.Io.KnownBytes.{Appends};
ghost use Rattle.ospf_files.specs.Streams.{written_on};
ghost use Rattle.ospf_commands.specs.Deliveries.Progress.{ToldOn};
ghost use Rattle.ospf_sim.specs.Begun.{IsEventAnswerCut, IsLineCut, IsScriptCut, IsTellingCut};
ghost use Rattle.ospf_sim.specs.Scripts.{LineComes, ScriptComes, answered, hint_line, not_a_command_line, world_refusal_line, told_of, unreadable_line};

use crate::hint::Hint;
use ospf_commands::{Simulation, Watch, run_command};
use ospf_files::{FailedStreams, Failure, Line, lines};
use ospf_script::{Command, CommandFault};
use ospf_views::RefusalShown;
use ospf_world::WorldFault;
use std::alloc::{AllocError, Global};
use std::io::Write;

/// Runs the lines of a script, up to the first that cannot be read, and reports that one. Returns
/// whether all could be read. If it fails at a line, the earlier lines have run.
pub(crate) fn run_script<O: Write, E: Write, V: Watch>(
    simulation: &mut Simulation,
    script: &[u8],
    out: &mut O,
    err: &mut E,
    alloc: Global,
    watch: &mut V,
    streams: &mut FailedStreams,
) -> Result<bool, Failure>
    ensures comes { let old = written_on (O.contents out.old) (E.contents err.old) in
        let new = written_on (O.contents out.new) (E.contents err.new) in
        IfOk result (λ whole. ScriptComes whole script.now simulation.old simulation.new old new) }
    ensures cut { let old = written_on (O.contents out.old) (E.contents err.old) in
        let new = written_on (O.contents out.new) (E.contents err.new) in
        IfErr result (IsScriptCut script.now simulation.old streams.new old new) }
    ensures told { ToldOn V.comes_gives V.came_gives V.goes_on_gives
        (simulation.old.world, watch.old) (simulation.new.world, watch.new) }
{
    let lines = lines(alloc, script)?;
    for line in &lines {
        let is_read = run_line(simulation, line, out, err, alloc, watch, streams)?;
        if !is_read {
            tell_unreadable(alloc, line, out, err, streams)?;
            return Ok(false);
        }
    }
    streams.flush(out)?;
    Ok(true)
}

// Runs a line and returns whether it can be read. If that fails, at most a beginning of what it
// writes was written.
pub(crate) fn run_line<O: Write, E: Write, V: Watch>(
    simulation: &mut Simulation,
    line: &Line<'_>,
    out: &mut O,
    err: &mut E,
    alloc: Global,
    watch: &mut V,
    streams: &mut FailedStreams,
) -> Result<bool, Failure>
    ensures comes { let old = written_on (O.contents out.old) (E.contents err.old) in
        let new = written_on (O.contents out.new) (E.contents err.new) in
        IfOk result (λ read. LineComes read line.now simulation.old simulation.new old new) }
    ensures cut { let old = written_on (O.contents out.old) (E.contents err.old) in
        let new = written_on (O.contents out.new) (E.contents err.new) in
        IfErr result (IsLineCut line.now.number line.now.text.now
        simulation.old streams.new old new) }
    ensures told { ToldOn V.comes_gives V.came_gives V.goes_on_gives
        (simulation.old.world, watch.old) (simulation.new.world, watch.new) }
{
    match Command::read(alloc, line.text) {
        Ok(None) => Ok(true),
        Ok(Some(command)) => {
            let answer = run_command(simulation, &command, out, alloc, watch, streams)?;
            watch.ends_line();
            note_answer(simulation, &answer);
            tell_answer(alloc, line.number, answer, out, err, streams)?;
            Ok(true)
        }
        Err(CommandFault::NotACommand) => Ok(false),
        Err(CommandFault::Memory) => Err(Failure::Memory),
    }
}

// Notes whether a line was refused.
fn note_answer(simulation: &mut Simulation, answer: &Result<(), WorldFault>)
    ensures noted { simulation.new ≡ answered answer.now simulation.old }
    ensures world { simulation.new.world ≡ simulation.old.world }
{
    if answer.is_err() {
        simulation.is_refused = true;
    }
}

// Reports the answer to a line if it is a refusal, after all output so far.
fn tell_answer<O: Write, E: Write>(
    alloc: Global,
    number: u64,
    answer: Result<(), WorldFault>,
    out: &mut O,
    err: &mut E,
    streams: &mut FailedStreams,
) -> Result<(), Failure>
    ensures out { OnOk result (Appends (O.contents out.old) (O.contents out.new) []) }
    ensures err { OnOk result (Appends (E.contents err.old) (E.contents err.new)
        (told_of number answer)) }
    ensures cut { let old = written_on (O.contents out.old) (E.contents err.old) in
        let new = written_on (O.contents out.new) (E.contents err.new) in
        IfErr result (IsEventAnswerCut number answer streams.new old new) }
{
    match answer {
        Ok(()) => Ok(()),
        Err(fault) => tell_refusal(alloc, number, fault, out, err, streams),
    }
}

// Reports why a line is refused.
fn tell_refusal<O: Write, E: Write>(
    alloc: Global,
    number: u64,
    fault: WorldFault,
    out: &mut O,
    err: &mut E,
    streams: &mut FailedStreams,
) -> Result<(), Failure>
    ensures out { OnOk result (Appends (O.contents out.old) (O.contents out.new) []) }
    ensures err { OnOk result
        (Appends (E.contents err.old) (E.contents err.new) (world_refusal_line number fault)) }
    ensures cut { let old = written_on (O.contents out.old) (E.contents err.old) in
        let new = written_on (O.contents out.new) (E.contents err.new) in
        IfErr result (IsTellingCut (world_refusal_line number fault) streams.new old new) }
{
    let line = refusal_line(alloc, number, fault)?;
    tell_behind(&line, out, err, streams)
}

// Formats the report of a refusal.
fn refusal_line(alloc: Global, number: u64, fault: WorldFault) -> Result<String, AllocError>
    ensures { IfOk result (λ line. string_bytes line ≡ world_refusal_line number fault) }
{
    let shown = RefusalShown {
        number,
        fault: fault.text(),
    };
    format!(in alloc; "{shown}\n")
}

// Reports a line, after all output so far.
fn tell_behind<O: Write, E: Write>(
    line: &str,
    out: &mut O,
    err: &mut E,
    streams: &mut FailedStreams,
) -> Result<(), Failure>
    ensures out { OnOk result (Appends (O.contents out.old) (O.contents out.new) []) }
    ensures err { OnOk result (Appends (E.contents err.old) (E.contents err.new) line.now) }
    ensures cut { let old = written_on (O.contents out.old) (E.contents err.old) in
        let new = written_on (O.contents out.new) (E.contents err.new) in
        IfErr result (IsTellingCut line.now streams.new old new) }
{
    streams.flush(out)?;
    streams.tell(err, line)
}

// Reports that a line cannot be read, and a hint after it.
pub(crate) fn tell_unreadable<O: Write, E: Write>(
    alloc: Global,
    line: &Line<'_>,
    out: &mut O,
    err: &mut E,
    streams: &mut FailedStreams,
) -> Result<(), Failure>
    ensures out { OnOk result (Appends (O.contents out.old) (O.contents out.new) []) }
    ensures err { OnOk result (Appends (E.contents err.old) (E.contents err.new)
        (unreadable_line line.now.number line.now.text.now)) }
    ensures cut { let old = written_on (O.contents out.old) (E.contents err.old) in
        let new = written_on (O.contents out.new) (E.contents err.new) in
        IfErr result (IsTellingCut (unreadable_line line.now.number line.now.text.now)
        streams.new old new) }
{
    let told = unreadable_line(alloc, line.number, line.text)?;
    tell_behind(&told, out, err, streams)
}

// Formats the report on a line that cannot be read.
fn unreadable_line(alloc: Global, number: u64, text: &[u8]) -> Result<String, AllocError>
    ensures { IfOk result (λ line. string_bytes line ≡ unreadable_line number text.now) }
{
    let mut lines = not_a_command_line(alloc, number)?;
    let hint = hint_line(alloc, text)?;
    lines.push_str(&hint)?;
    Ok(lines)
}

// Formats its first line.
fn not_a_command_line(alloc: Global, number: u64) -> Result<String, AllocError>
    ensures { IfOk result (λ line. string_bytes line ≡ not_a_command_line number) }
{
    format!(in alloc; "line {number}: {}\n", CommandFault::NotACommand)
}

// Formats the hint for the line.
fn hint_line(alloc: Global, text: &[u8]) -> Result<String, AllocError>
    ensures { IfOk result (λ line. string_bytes line ≡ hint_line text.now) }
{
    let hint = Hint(text);
    format!(in alloc; "  {hint}\n")
}
