//! Journals of LSAs in files.

ghost use Rattle.std.specs.Prelude.{IfErr, OnErr, OnOk};
ghost use Rattle.std.specs.Io.KnownBytes.{Appends};
ghost use Rattle.ospf_files.specs.Streams.{IsBegun, IsOutputCut};
ghost use Rattle.ospf_notes.specs.LsaLines.{lsa_entries, lsa_entry};

use crate::lsa_changes::LsaChange;
use crate::lsa_line::entry_text;
use ospf_base::RouterId;
use ospf_files::{FailedStreams, Failure};
use std::alloc::{AllocError, Global};
use std::io::Write;
use std::marker::Model;

/// A journal of LSAs that is written to a file, a line for each change.
#[derive(Drop)]
pub struct LsaLog<F: Write + Drop> {
    file: F,
    is_json: bool,
    streams: FailedStreams,
    // Why it is written no more.
    failure: Option<Failure>,
}

impl<F: Write + Drop> Model for LsaLog<F> {
    ghost use Rattle.ospf_notes.specs.LsaLogs.{LsaLogValue};

    ghost Value = { LsaLogValue };

    ghost view = { λ l. record {
      contents = F.contents l.file;
      is_json = l.is_json;
      streams = l.streams;
      failure = l.failure;
    } };
}

impl<F: Write + Drop> LsaLog<F> {
    ghost use Rattle.std.specs.Prelude.{◌≡◌, IfOk, IfSome, IsErr, IsSome, None, is_none};
    ghost use Rattle.std.specs.Io.KnownBytes.{Appends};
    ghost use Rattle.ospf_files.specs.Streams.{IsBegun, IsOutputCut, IsOutputFailed};
    ghost use Rattle.ospf_notes.specs.LsaLines.{lsa_entries};
    ghost use Rattle.ospf_notes.specs.LsaLogs.{unknown_lsas};

    /// No line yet. The lines will be JSON objects, or text.
    pub fn new(file: F, is_json: bool) -> LsaLog<F>
        ensures contents { result.contents ≡ F.contents file }
        ensures is_json { result.is_json ≡ is_json }
        ensures streams { IsOutputFailed result.streams → ⊥ }
        ensures failure { result.failure ≡ None }
    {
        LsaLog {
            file,
            is_json,
            streams: FailedStreams::none(),
            failure: None,
        }
    }

    /// Whether all could be written so far.
    pub fn is_written(&self) -> bool
        ensures { result ≡ is_none self.now.failure }
    {
        self.failure.is_none()
    }

    /// Writes what became of LSAs of a router that has taken so many ticks, up to the first line
    /// that fails; none if memory ran out before that is known, and none after one that failed.
    pub fn write(
        &mut self,
        alloc: Global,
        tick: u64,
        router: RouterId,
        changes: Result<Vec<LsaChange>, AllocError>,
    )
        ensures settings { self.new.is_json ≡ self.old.is_json }
        // All lines are in the file, or a beginning of them, and there is a failure.
        ensures written { IfOk changes (λ changes. self.new.failure ≡ None →
            Appends self.old.contents self.new.contents
            (lsa_entries self.old.is_json tick router changes.items)) }
        ensures begun { IfOk changes (λ changes. IsBegun self.old.contents self.new.contents
            (lsa_entries self.old.is_json tick router changes.items)) }
        // A new failure is that memory ran out, or that a write or a flush of the file failed.
        ensures cut { self.old.failure ≡ None →
            IfSome self.new.failure (IsOutputCut self.new.streams) }
        ensures unknown { IsErr changes → self.new ≡ unknown_lsas self.old }
        ensures ended { IsSome self.old.failure → self.new ≡ self.old }
    {
        let Ok(changes) = changes else {
            self.failure = Some(self.failure.unwrap_or(Failure::Memory));
            return;
        };
        if self.failure.is_none() {
            let (file, streams) = (&mut self.file, &mut self.streams);
            let written = write_all(file, streams, self.is_json, alloc, tick, router, &changes);
            self.failure = written.err();
        }
    }
}

// Writes what became of LSAs, up to the first that fails.
fn write_all<F: Write>(
    file: &mut F,
    streams: &mut FailedStreams,
    is_json: bool,
    alloc: Global,
    tick: u64,
    router: RouterId,
    changes: &[LsaChange],
) -> Result<(), Failure>
    ensures written { OnOk result (Appends (F.contents file.old) (F.contents file.new)
        (lsa_entries is_json tick router changes.now)) }
    ensures begun { IsBegun (F.contents file.old) (F.contents file.new)
        (lsa_entries is_json tick router changes.now) }
    ensures cut { IfErr result (IsOutputCut streams.new) }
{
    for change in changes {
        write_one(file, streams, is_json, alloc, tick, router, change)?;
    }
    Ok(())
}

// Writes what became of an LSA.
fn write_one<F: Write>(
    file: &mut F,
    streams: &mut FailedStreams,
    is_json: bool,
    alloc: Global,
    tick: u64,
    router: RouterId,
    change: &LsaChange,
) -> Result<(), Failure>
    ensures written { OnOk result (Appends (F.contents file.old) (F.contents file.new)
        (lsa_entry is_json tick router change.now)) }
    ensures begun { OnErr result (IsBegun (F.contents file.old) (F.contents file.new)
        (lsa_entry is_json tick router change.now)) }
    ensures cut { IfErr result (IsOutputCut streams.new) }
{
    let text = entry_text(alloc, is_json, tick, router, change)?;
    streams.print(file, &text)
}
