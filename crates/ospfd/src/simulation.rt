//! Runs of the simulator.

use crate::names::tell_overwritten;
use crate::outputs::open_journal;
use crate::screen::Screen;
use ospf_files::{
    FailedStreams, Failure, NamedFile, Status, read_file, read_files, tell_unwritten,
};
use ospf_notes::StatusLine;
use ospf_sim::{Console, Events, Recording, Simulated, Watch, console_text, sim_text};
use ospf_views::records::write_records;
use ospf_words::SimJob;
use std::alloc::Global;
use std::io::{self, BufReader, Write};
use std::process::ExitCode;
use std::rt::Runtime;
use std::time::Clock;

// The word for standard input, in place of a script's name.
const STANDARD_INPUT: &str = "-";

// What stands before a line that is typed.
const PROMPT: &str = "> ";

/// Runs a simulation over the files of these names, and writes what is wanted of the world that it
/// leaves. Whether its lines are typed, where they come from standard input, is given.
pub(crate) fn run_sim<
    R: Runtime + AllocGlobal + Clock + Copy + Drop,
    O: Write,
    E: Write,
    T: Write + Drop,
>(
    rt: &R,
    job: SimJob,
    out: &mut O,
    err: &mut E,
    line: StatusLine<T>,
    is_typed: bool,
) -> io::Result<ExitCode> {
    let SimJob {
        script,
        files,
        dot,
        pcap,
        log,
        json,
        strict,
    } = job;
    let written = [dot.as_deref(), pcap.as_deref(), log.as_deref()];
    if tell_overwritten(file_of(script.as_str()), &files, &written, err) {
        return Ok(ExitCode::from(Status::Words));
    }
    let script = script_of(rt, script)?;
    let files = read_files(rt, files)?;
    let Some(journal) = open_journal(rt, log.as_deref(), json, err)? else {
        return Ok(ExitCode::from(Status::Stream));
    };
    let events = Events::new(rt.alloc(), journal);
    let recording = Recording::new(*rt, rt.alloc(), name_of(rt.alloc(), pcap.as_deref())?);
    let mut screen = Screen::new(*rt, line, events, recording);
    let Simulated { status, end, left } = match script {
        Some(script) => sim_text(rt.alloc(), &script, &files, strict, out, err, &mut screen),
        None => {
            let typed = Typed { is_typed, strict };
            run_console(rt, &files, typed, out, err, &mut screen)?
        }
    };
    let journal = screen.journal_failure();
    // One line says that memory ran out.
    if journal != Some(Failure::Memory) || status != Status::Memory {
        report_journal(log.as_deref(), journal, err);
    }
    let (dot, pcap) = (dot.as_deref(), pcap.as_deref());
    let is_recorded = match &left {
        Some(left) => write_records(rt, &left.world, left.walk.as_ref(), dot, pcap, err)?,
        None => true,
    };
    Ok(ExitCode::from(end.with_files(journal, is_recorded)))
}

// Reports why the journal of this name is incomplete, if it is.
fn report_journal<E: Write>(name: Option<&str>, failure: Option<Failure>, err: &mut E) {
    match (name, failure) {
        (_, None) | (None, _) => {}
        (_, Some(Failure::Memory)) => {
            Failure::Memory.tell(err, &mut FailedStreams::none());
        }
        (Some(name), Some(_)) => {
            let _ = tell_unwritten(name, err);
        }
    }
}

// How the lines of standard input run: whether somebody types them, and whether the simulation is
// strict.
#[derive(Clone, Copy)]
struct Typed {
    is_typed: bool,
    strict: bool,
}

// The name of the file that a script is in, if it is in one.
fn file_of(script: &str) -> Option<&str> {
    if script == STANDARD_INPUT {
        None
    } else {
        Some(script)
    }
}

// The name of a file, once more.
fn name_of(alloc: Global, name: Option<&str>) -> io::Result<Option<String>> {
    match name {
        Some(name) => Ok(Some(String::from_str(alloc, name)?)),
        None => Ok(None),
    }
}

// The script in the file of this name; `None` for standard input.
fn script_of<R: Runtime + AllocGlobal>(rt: &R, name: String) -> io::Result<Option<NamedFile>> {
    if file_of(name.as_str()).is_some() {
        Ok(Some(read_file(rt, name)?))
    } else {
        Ok(None)
    }
}

// Answers the lines of standard input, each before it reads the next. Where they are typed, a
// line feed ends the last prompt.
fn run_console<R: Runtime + AllocGlobal, O: Write, E: Write, V: Watch>(
    rt: &R,
    files: &[NamedFile],
    typed: Typed,
    out: &mut O,
    err: &mut E,
    watch: &mut V,
) -> io::Result<Simulated> {
    let Typed { is_typed, strict } = typed;
    let console = Console {
        input: BufReader::new(rt.alloc(), rt.reader())?,
        prompt: if is_typed { PROMPT } else { "" },
    };
    let simulated = console_text(rt.alloc(), console, files, strict, out, err, watch);
    if is_typed && simulated.status == Status::Done {
        let _ = writeln!(out).and_then(|_| out.flush());
    }
    Ok(simulated)
}
