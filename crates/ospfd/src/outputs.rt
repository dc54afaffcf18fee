//! The files that are written besides standard output.

use ospf_files::tell_unwritten;
use ospf_notes::LsaLog;
use ospf_views::records::Journal;
use std::fs;
use std::io::{self, ErrorKind, Write};
use std::rt::Runtime;

/// The names of the files that a run writes, of those that are wanted.
#[derive(Clone, Copy)]
pub(crate) struct Written<'a> {
    pub(crate) pcap: Option<&'a str>,
    pub(crate) log: Option<&'a str>,
    pub(crate) log_lsas: Option<&'a str>,
}

impl Written<'_> {
    /// Those of a run that is refused: none.
    pub(crate) const NONE: Written<'static> = Written {
        pcap: None,
        log: None,
        log_lsas: None,
    };
}

/// The files that a run writes.
#[derive(Drop)]
pub(crate) struct OutputFiles<F: Write + Drop> {
    pub(crate) capture: Option<F>,
    pub(crate) journal: Option<Journal<F>>,
    pub(crate) lsas: Option<LsaLog<F>>,
}

/// The files of these names, emptied. If one cannot be written, this is reported, and the result is
/// `None`.
pub(crate) fn open_written<R: Runtime, E: Write>(
    rt: &R,
    written: Written<'_>,
    json: bool,
    err: &mut E,
) -> io::Result<Option<OutputFiles<R::File>>> {
    let capture = match written.pcap {
        Some(name) => match create_file(rt, name, err)? {
            Some(file) => Some(file),
            None => return Ok(None),
        },
        None => None,
    };
    let Some(journal) = open_journal(rt, written.log, json, err)? else {
        return Ok(None);
    };
    let lsas = match written.log_lsas {
        Some(name) => match create_file(rt, name, err)? {
            Some(file) => Some(LsaLog::new(file, json)),
            None => return Ok(None),
        },
        None => None,
    };
    Ok(Some(OutputFiles {
        capture,
        journal,
        lsas,
    }))
}

/// A journal in the file of this name, emptied, if one is wanted. If it cannot be written, this is
/// reported, and the result is `None`.
pub(crate) fn open_journal<R: Runtime, E: Write>(
    rt: &R,
    name: Option<&str>,
    json: bool,
    err: &mut E,
) -> io::Result<Option<Option<Journal<R::File>>>> {
    match name {
        None => Ok(Some(None)),
        Some(name) => match create_file(rt, name, err)? {
            Some(file) => Ok(Some(Some(Journal::new(file, json)))),
            None => Ok(None),
        },
    }
}

// A file of this name, emptied. If it cannot be written, this is reported, and there is none.
fn create_file<R: Runtime, E: Write>(
    rt: &R,
    name: &str,
    err: &mut E,
) -> io::Result<Option<R::File>> {
    match fs::File::create(rt, name) {
        Ok(file) => Ok(Some(file)),
        Err(error) if error.kind() == ErrorKind::OutOfMemory => Err(error),
        Err(_) => {
            let _ = tell_unwritten(name, err);
            Ok(None)
        }
    }
}
