//! Runs of routers over UDP.

use crate::names::tell_overwritten;
use crate::outputs::{Written, open_written};
use ospf_drive::udp::{Stop, prepare};
use ospf_files::{FailedStreams, Failure, NamedFile, Status, read_files};
use ospf_notes::{Noted, Notes, StatusLine, Tables};
use ospf_run::{Ending, Settings};
use ospf_words::RunJob;
use std::alloc::Global;
use std::io::{self, BufWriter, ErrorKind, Read, Write};
use std::net::Net;
use std::rt::Runtime;
use std::sync::Wait;
use std::thread::{self, Threads};
use std::time::Clock;

// How many bytes of the input that is passed over are read at once.
const READ_AT_ONCE: usize = 4096;

/// Runs routers of the configurations in the files of these names. The files that it writes are
/// opened where these are judged well: else they stay as they were.
pub(crate) fn run_routers<
    R: Runtime + AllocGlobal + Net + Threads + Wait + Clock + Copy + Send + Drop + 'static,
    O: Write,
    E: Write,
    T: Write + Send + Drop + 'static,
    P: Write + Send + Drop + 'static,
    I: Read + Send + Drop + 'static,
>(
    rt: &R,
    mut job: RunJob,
    out: &mut O,
    err: &mut E,
    line: StatusLine<T>,
    console: (P, I),
) -> io::Result<Status>
where
    R::File: Send + 'static,
{
    let (printer, input) = console;
    let (pcap, log, log_lsas) = (job.pcap.take(), job.log.take(), job.log_lsas.take());
    let (json, every) = (job.json, job.every);
    let names = [pcap.as_deref(), log.as_deref(), log_lsas.as_deref()];
    if tell_overwritten(None, &job.files, &names, err) {
        return Ok(Status::Words);
    }
    let (settings, files) = settings_of(rt, job, input)?;
    let files = read_files(rt, files)?;
    let written = match prepare(rt.alloc(), &settings.floor, &files) {
        Ok(_) => Written {
            pcap: pcap.as_deref(),
            log: log.as_deref(),
            log_lsas: log_lsas.as_deref(),
        },
        Err(Stop::Obstacle(_)) => Written::NONE,
        Err(Stop::Failure(_)) => return Err(io::Error::from(ErrorKind::OutOfMemory)),
    };
    let Some(opened) = open_written(rt, written, json, err)? else {
        return Ok(Status::Stream);
    };
    let noted = Noted {
        of: settings.ticks,
        capture: opened.capture,
        pcap,
        line,
        tables: tables_of(rt, every, printer)?,
        ending: another(&settings.ending)?,
        drops: settings.drops,
        journal: opened.journal,
        log,
        lsas: opened.lsas,
        lsas_name: log_lsas,
    };
    run_noted(rt, &settings, &files, noted, out, err)
}

// Where tables are printed while routers run, if they are.
fn tables_of<R: Runtime + AllocGlobal, P: Write + Drop>(
    rt: &R,
    every: Option<u64>,
    printer: P,
) -> io::Result<Option<Tables<BufWriter<P>>>> {
    match every {
        Some(every) => Ok(Some(Tables::new(every, BufWriter::new(rt.alloc(), printer)?))),
        None => Ok(None),
    }
}

// Runs routers of the configurations in files, and notes what is wanted of them.
fn run_noted<
    R: Runtime + AllocGlobal + Net + Threads + Wait + Clock + Copy + Send + Drop + 'static,
    O: Write,
    E: Write,
    F: Write + Send + Drop + 'static,
    T: Write + Send + Drop + 'static,
    P: Write + Send + Drop + 'static,
>(
    rt: &R,
    settings: &Settings,
    files: &[NamedFile],
    noted: Noted<F, T, P>,
    out: &mut O,
    err: &mut E,
) -> io::Result<Status> {
    let alloc = rt.alloc();
    let notes = Notes::new(*rt, alloc, noted)?;
    let status = ospf_run::run_routers(rt, alloc, settings, files, &notes, out, err);
    if !notes.is_written() || !notes.is_logged() || !notes.are_lsas_logged() {
        return Ok(Status::Stream);
    }
    Ok(status_after(status, notes.failure(), err))
}

// The status of a run whose notes met this failure, which is reported if the run ended with `Done`.
fn status_after<E: Write>(status: Status, failure: Option<Failure>, err: &mut E) -> Status {
    match failure {
        Some(failure) => {
            if status == Status::Done {
                failure.tell(err, &mut FailedStreams::none())
            } else {
                status
            }
        }
        None => status,
    }
}

// Signals the ending when the input ends, or cannot be read any more.
fn await_end<I: Read + Drop>(mut input: I, ending: &Ending) {
    let mut buffer = [0; READ_AT_ONCE];
    for _ in 0..u64::MAX {
        match input.read(&mut buffer) {
            Ok(0) => break,
            Ok(_) => {}
            Err(error) if error.kind() == ErrorKind::Interrupted => {}
            Err(_) => break,
        }
    }
    ending.tell();
}

// The ending that a thread signals at the end of input. No one waits for the thread: if the run
// ends first, the thread ends with the program. An error other than out of memory means that there
// is no thread.
fn end_of_input<R: Threads, I: Read + Send + Drop + 'static>(
    rt: &R,
    alloc: Global,
    input: I,
) -> io::Result<Ending> {
    let ending = Ending::new(alloc)?;
    let told = ending.another()?;
    match thread::spawn(rt, move || await_end(input, &told)) {
        Ok(_thread) => Ok(ending),
        Err(_) => Err(io::Error::from(ErrorKind::Other)),
    }
}

// What ends a run before its last tick: the end of the input where that is asked for, or else,
// where tables are printed, that they cannot be any more.
fn ending_of<R: AllocGlobal + Threads, I: Read + Send + Drop + 'static>(
    rt: &R,
    job: &RunJob,
    input: I,
) -> io::Result<Option<Ending>> {
    if job.until_eof {
        return Ok(Some(end_of_input(rt, rt.alloc(), input)?));
    }
    if job.every.is_some() {
        return Ok(Some(Ending::new(rt.alloc())?));
    }
    Ok(None)
}

// Another one of an ending, if there is one.
fn another(ending: &Option<Ending>) -> io::Result<Option<Ending>> {
    match ending {
        Some(ending) => Ok(Some(ending.another()?)),
        None => Ok(None),
    }
}

// What is asked for of a run.
fn settings_of<R: AllocGlobal + Threads, I: Read + Send + Drop + 'static>(
    rt: &R,
    job: RunJob,
    input: I,
) -> io::Result<(Settings, Vec<String>)> {
    let ending = ending_of(rt, &job, input)?;
    Ok((
        Settings {
            ticks: job.ticks,
            ending,
            milliseconds: job.milliseconds,
            lookup: job.lookup,
            floor: job.floor,
            neighbours: job.neighbours,
            listing: job.listing,
            lsdb: job.lsdb,
            drops: job.drops,
        },
        job.files,
    ))
}
