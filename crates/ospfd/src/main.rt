//! A routing daemon of OSPF version 2 (RFC 2328), and the tables that it computes.
#![tactic(auto)]

mod areas;
mod names;
mod outputs;
mod routers;
mod screen;
mod simulation;

use crate::areas::{run_diff, run_edit};
use crate::routers::run_routers;
use crate::screen::FailuresLine;
use crate::simulation::run_sim;
use ospf_check::{check_area_json, check_area_text, check_lines, check_text};
use ospf_failures::failures_text;
use ospf_files::{FailedStreams, Failure, Status, read_files};
use ospf_inspect::inspect_text;
use ospf_notes::StatusLine;
use ospf_table::table_text;
use ospf_words::{CheckJob, Job, JobFault, job, not_text};
use std::env;
use std::io::{self, BufReader, BufWriter, ErrorKind, IsTerminal, Read, Write};
use std::net::Net;
use std::process::ExitCode;
use std::rt::Runtime;
use std::sync::Wait;
use std::thread::Threads;
use std::time::Clock;

fn main(rt: HostRuntime) -> ExitCode {
    let err = rt.stderr();
    let is_terminal = err.is_terminal();
    match run(
        &rt,
        &mut rt.stderr(),
        StatusLine::new(err, is_terminal),
        (rt.stdout(), rt.stdin()),
    ) {
        Ok(code) => code,
        Err(error) => ExitCode::from(failure_of(&error).tell(
            &mut rt.stderr(),
            &mut FailedStreams::none(),
        )),
    }
}

// What the program cannot go on without: memory, or else a thread that waits for the end of input.
fn failure_of(error: &io::Error) -> Failure {
    if error.kind() == ErrorKind::OutOfMemory {
        Failure::Memory
    } else {
        Failure::Input
    }
}

// Does what the program's words ask for, and shows the progress on the line, if standard error is a
// terminal. The console is standard output, for what is printed during a run, and standard input,
// for what a run waits for. It fails if memory ran out, or if no thread could be started to wait
// for the end of input.
fn run<
    R: Runtime + AllocGlobal + Net + Threads + Wait + Clock + Copy + Send + Sync + Drop + 'static,
    E: Write,
    T: Write + Send + Drop + 'static,
    P: Write + Send + Drop + 'static,
    I: Read + IsTerminal + Send + Drop + 'static,
>(rt: &R, err: &mut E, line: StatusLine<T>, console: (P, I)) -> io::Result<ExitCode>
where
    R::File: Send + 'static,
{
    let alloc = rt.alloc();
    let mut out = BufWriter::new(alloc, io::writer(rt))?;
    let status = match job_of(rt)? {
        Ok(Job::Table(table)) => {
            let input = BufReader::new(alloc, rt.reader())?;
            table_text(alloc, rt, &table, input, &mut out, err)
        }
        Ok(Job::Failures(failures)) => {
            let input = BufReader::new(alloc, rt.reader())?;
            let mut progress = FailuresLine::new(*rt, line);
            let status = failures_text(rt, &failures, input, &mut out, err, &mut progress);
            return Ok(ExitCode::from(status));
        }
        Ok(Job::Inspect(inspect)) => {
            let input = BufReader::new(alloc, rt.reader())?;
            let status = inspect_text(alloc, &inspect, input, &mut out, err);
            return Ok(ExitCode::from(status));
        }
        Ok(Job::Edit(edit)) => return run_edit(rt, edit, &mut out, err),
        Ok(Job::Diff(diff)) => return run_diff(rt, diff, &mut out, err),
        Ok(Job::Check(check)) => run_check(rt, check, &mut out, err)?,
        Ok(Job::Sim(sim)) => {
            let is_typed = console.1.is_terminal();
            return run_sim(rt, sim, &mut out, err, line, is_typed);
        }
        Ok(Job::Run(routers)) => run_routers(rt, routers, &mut out, err, line, console)?,
        Err(fault) => fault.tell(&mut out, err),
    };
    Ok(ExitCode::from(status))
}

// The program's words without its own name; `None` where one is not UTF-8.
fn words_of<R: Runtime + AllocGlobal>(rt: &R) -> io::Result<Option<Vec<String>>> {
    match env::args(rt) {
        Ok(words) => Ok(Some(words.skip(1).collect(rt.alloc())?)),
        Err(error) if error.kind() == ErrorKind::InvalidData => Ok(None),
        Err(error) => Err(error),
    }
}

// What the program's words ask for.
fn job_of<R: Runtime + AllocGlobal>(rt: &R) -> io::Result<Result<Job, JobFault>> {
    let alloc = rt.alloc();
    let Some(words) = words_of(rt)? else {
        return Ok(Err(not_text(alloc)));
    };
    let words: Vec<&str> = words
        .iter()
        .map(|word| plain_word(word.as_str()))
        .collect(alloc)?;
    Ok(job(alloc, &words))
}

// The flag of one word that `--json=2` means, and any other word as it is.
fn plain_word(word: &str) -> &str {
    if word == "--json=2" { "--json2" } else { word }
}

// Checks the configurations in the files of these names, together if they are of one area.
fn run_check<R: Runtime + AllocGlobal, O: Write, E: Write>(
    rt: &R,
    job: CheckJob,
    out: &mut O,
    err: &mut E,
) -> io::Result<Status> {
    let CheckJob {
        files,
        how,
        area,
        json,
        lines,
    } = job;
    let files = read_files(rt, files)?;
    if lines {
        Ok(check_lines(rt.alloc(), &files, how, area, out, err))
    } else if json {
        Ok(check_area_json(rt.alloc(), &files, out, err))
    } else if area {
        Ok(check_area_text(rt.alloc(), &files, how, out, err))
    } else {
        Ok(check_text(rt.alloc(), &files, how, out, err))
    }
}
