//! Areas before and after changes.

use ospf_change::diff::{DiffJob, DiffNames, diff_text};
use ospf_change::edit::{EditJob, edit_text};
use ospf_files::{FailedStreams, NamedFile, Status, read_file, tell_unread};
use ospf_words::{DiffWords, EditWords};
use std::alloc::Global;
use std::io::{self, BufReader, ErrorKind, Read, Write};
use std::process::ExitCode;
use std::rt::Runtime;

// The word for standard input, in place of a file's name.
const STANDARD_INPUT: &str = "-";

/// Prints the LSAs on standard input after changes.
pub(crate) fn run_edit<R: Runtime + AllocGlobal, O: Write, E: Write>(
    rt: &R,
    words: EditWords,
    out: &mut O,
    err: &mut E,
) -> io::Result<ExitCode> {
    let EditWords {
        down,
        costs,
        drains,
    } = words;
    let job = EditJob {
        down,
        costs,
        drains,
    };
    let input = BufReader::new(rt.alloc(), rt.reader())?;
    Ok(ExitCode::from(edit_text(rt.alloc(), &job, input, out, err)))
}

/// Compares two files of LSAs. The first that cannot be read is reported, and nothing is compared.
pub(crate) fn run_diff<R: Runtime + AllocGlobal, O: Write, E: Write>(
    rt: &R,
    words: DiffWords,
    out: &mut O,
    err: &mut E,
) -> io::Result<ExitCode> {
    let DiffWords {
        before,
        after,
        root,
    } = words;
    let (before, after) = (read_area(rt, before)?, read_area(rt, after)?);
    for file in [&before, &after] {
        if !file.is_read() {
            return Ok(ExitCode::from(report_unread(rt.alloc(), file, err)));
        }
    }
    let names = DiffNames {
        before: before.name.as_str(),
        after: after.name.as_str(),
    };
    Ok(ExitCode::from(diff_text(
        rt.alloc(),
        &DiffJob { root },
        names,
        before.text(),
        after.text(),
        out,
        err,
    )))
}

// The file of this name, or standard input where the name means that. What cannot be read has no
// bytes.
fn read_area<R: Runtime + AllocGlobal>(rt: &R, name: String) -> io::Result<NamedFile> {
    if name.as_str() != STANDARD_INPUT {
        return read_file(rt, name);
    }
    let mut bytes = Vec::new(rt.alloc());
    let bytes = match rt.reader().read_to_end(&mut bytes) {
        Ok(_) => Some(bytes),
        Err(error) if error.kind() == ErrorKind::OutOfMemory => return Err(error),
        Err(_) => None,
    };
    let name = String::from_str(rt.alloc(), "standard input")?;
    Ok(NamedFile { name, bytes })
}

// Reports that a file was not read. Returns the status to end with.
fn report_unread<E: Write>(alloc: Global, file: &NamedFile, err: &mut E) -> Status {
    let mut streams = FailedStreams::none();
    match tell_unread(alloc, file, err, &mut streams) {
        Ok(()) => Status::Stream,
        Err(failure) => failure.tell(err, &mut streams),
    }
}
