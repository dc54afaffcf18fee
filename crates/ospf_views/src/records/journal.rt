//! Journals in files.

ghost use Rattle.std.specs.Prelude.{◌≡◌, IfErr, IfOk, OnErr, OnOk, string_bytes};
ghost use Rattle.std.specs.Io.KnownBytes.{Appends};
ghost use Rattle.ospf_files.specs.Streams.{IsBegun, IsOutputCut};
ghost use Rattle.ospf_views.specs.RecordFiles.Journals.{entries_text, entry_text};

use ospf_base::RouterId;
use ospf_files::{FailedStreams, Failure};
use ospf_journal::{JournalLine, Object, RouterChange};
use std::alloc::{AllocError, Global};
use std::io::Write;
use std::marker::Model;

/// A journal that is written to a file, a line a change, each as `ospf_journal` has it.
#[derive(Drop)]
pub struct Journal<F: Write + Drop> {
    file: F,
    is_json: bool,
    streams: FailedStreams,
    // Why it is written no more.
    failure: Option<Failure>,
}

impl<F: Write + Drop> Model for Journal<F> {
    ghost use Rattle.ospf_views.specs.RecordFiles.Journals.{JournalValue};

    ghost Value = { JournalValue };

    ghost view = { λ j. record {
      contents = F.contents j.file;
      is_json = j.is_json;
      streams = j.streams;
      failure = j.failure;
    } };
}

impl<F: Write + Drop> Journal<F> {
    ghost use Rattle.std.specs.Prelude.{◌≡◌, IfOk, IfSome, IsErr, IsSome, None, is_none};
    ghost use Rattle.std.specs.Io.KnownBytes.{Appends};
    ghost use Rattle.ospf_files.specs.Streams.{IsBegun, IsOutputCut, IsOutputFailed};
    ghost use Rattle.ospf_views.specs.RecordFiles.Journals.{entries_text, without_memory};

    /// No line yet. The lines will be JSON objects, or text.
    pub fn new(file: F, is_json: bool) -> Journal<F>
        ensures contents { result.contents ≡ F.contents file }
        ensures is_json { result.is_json ≡ is_json }
        ensures streams { IsOutputFailed result.streams → ⊥ }
        ensures failure { result.failure ≡ None }
    {
        Journal {
            file,
            is_json,
            streams: FailedStreams::none(),
            failure: None,
        }
    }

    /// Whether all could be written so far.
    pub fn is_written(&self) -> bool
        ensures { result ≡ is_none self.now.failure }
    {
        self.failure.is_none()
    }

    /// Why not all could be written, if that is so: memory ran out, or else `Failure::Output`: the
    /// file could not be written.
    pub fn failure(&self) -> Option<Failure>
        ensures { result ≡ self.now.failure }
    {
        self.failure
    }

    /// Writes what changed of a router that has taken so many ticks, up to the first line that
    /// fails; none where memory ran out before that is known, and none after one that failed.
    pub fn write(
        &mut self,
        alloc: Global,
        tick: u64,
        router: RouterId,
        changes: Result<Vec<RouterChange>, AllocError>,
    )
        ensures settings { self.new.is_json ≡ self.old.is_json }
        // All lines are in the file, or a beginning of them, and there is a failure.
        ensures written { IfOk changes (λ changes. self.new.failure ≡ None →
            Appends self.old.contents self.new.contents
            (entries_text self.old.is_json tick router changes.items)) }
        ensures begun { IfOk changes (λ changes. IsBegun self.old.contents self.new.contents
            (entries_text self.old.is_json tick router changes.items)) }
        // A new failure is that memory ran out, or that a write or a flush of the file failed.
        ensures cut { self.old.failure ≡ None →
            IfSome self.new.failure (IsOutputCut self.new.streams) }
        ensures unknown { IsErr changes → self.new ≡ without_memory self.old }
        ensures ended { IsSome self.old.failure → self.new ≡ self.old }
    {
        let Ok(changes) = changes else {
            self.failure = Some(self.failure.unwrap_or(Failure::Memory));
            return;
        };
        if self.failure.is_none() {
            let (file, streams) = (&mut self.file, &mut self.streams);
            let written = write_all(file, streams, self.is_json, alloc, tick, router, &changes);
            self.failure = written.err();
        }
    }
}

// Writes changes of a router, up to the first that fails.
fn write_all<F: Write>(
    file: &mut F,
    streams: &mut FailedStreams,
    is_json: bool,
    alloc: Global,
    tick: u64,
    router: RouterId,
    changes: &[RouterChange],
) -> Result<(), Failure>
    ensures written { OnOk result (Appends (F.contents file.old) (F.contents file.new)
        (entries_text is_json tick router changes.now)) }
    ensures begun { IsBegun (F.contents file.old) (F.contents file.new)
        (entries_text is_json tick router changes.now) }
    ensures cut { IfErr result (IsOutputCut streams.new) }
{
    for change in changes {
        write_one(file, streams, is_json, alloc, tick, router, change)?;
    }
    Ok(())
}

// Writes a change of a router.
fn write_one<F: Write>(
    file: &mut F,
    streams: &mut FailedStreams,
    is_json: bool,
    alloc: Global,
    tick: u64,
    router: RouterId,
    change: &RouterChange,
) -> Result<(), Failure>
    ensures written { OnOk result (Appends (F.contents file.old) (F.contents file.new)
        (entry_text is_json tick router change.now)) }
    ensures begun { OnErr result (IsBegun (F.contents file.old) (F.contents file.new)
        (entry_text is_json tick router change.now)) }
    ensures cut { IfErr result (IsOutputCut streams.new) }
{
    let text = entry_text(alloc, is_json, tick, router, change)?;
    streams.print(file, &text)
}

// A change of a router as the journal has it.
fn entry_text(
    alloc: Global,
    is_json: bool,
    tick: u64,
    router: RouterId,
    change: &RouterChange,
) -> Result<String, AllocError>
    ensures { IfOk result (λ text. string_bytes text ≡ entry_text is_json tick router change.now) }
{
    if is_json {
        let object = Object {
            tick,
            router,
            change,
        };
        format!(in alloc; "{object}\n")
    } else {
        let line = JournalLine {
            tick,
            router,
            change,
        };
        format!(in alloc; "{line}\n")
    }
}
