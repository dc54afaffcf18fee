//! The configurations of one area, checked together.

ghost use Rattle.std.specs.Prelude.{◌≡◌, ◌≢◌, ◌⊎◌, true, false, IfOk, IfErr, OnOk, string_bytes};
ghost use Rattle.std.specs.Io.KnownBytes.{Appends};
ghost use Rattle.ospf_files.specs.Listed.{AreConfigs};
ghost use Rattle.ospf_files.specs.Streams.{written_on};
ghost use Rattle.ospf_files.specs.declared.status.Status.{Status};
ghost use Rattle.ospf_files.specs.declared.streams.FailedStreams.{FailedStreams};
ghost use Rattle.ospf_check.specs.Area.{EndsAtFinding, IsAreaCut, IsAreaCutShort, IsAreaTold, IsCheckCut, IsChecked, IsCutAtFinding, IsFindingsWritten, fault_lines, finding_lines, line_of, name_at, note_lines};

use crate::check::{check_files, tell_last};
use ospf_config::Config;
use ospf_files::{FailedStreams, Failure, NamedFile, Status, Telling};
use ospf_plan::{Finding, NamedFinding, findings};
use std::alloc::{AllocError, Global};
use std::io::Write;

/// Checks the configurations of one area: each as `check_text` does and, if all are accepted, what
/// is wrong between them. Faults go to `err`. If more than a verdict is asked for, notes go to
/// `out`, and each fault and note is followed by a line with its consequences.
///
/// The status is `Refused` if a file was refused or a fault was found, and `Done` if there are only
/// notes or nothing. The check ends early as `check_text` does, with status `Stream` or `Memory`.
/// Then the files before are reported in full; if it ended after the files, so are the findings
/// before. Of the file or finding where it ended, no more than a beginning is written.
pub fn check_area_text<O: Write, E: Write>(
    alloc: Global,
    files: &[NamedFile],
    how: Telling,
    out: &mut O,
    err: &mut E,
) -> Status
    ensures done { let old = written_on (O.contents out.old) (E.contents err.old) in
        let new = written_on (O.contents out.new) (E.contents err.new) in
        result ≡ Status.Done → IsChecked how files.now true old new }
    ensures refused { let old = written_on (O.contents out.old) (E.contents err.old) in
        let new = written_on (O.contents out.new) (E.contents err.new) in
        result ≡ Status.Refused → IsChecked how files.now false old new }
    ensures cut { let old = written_on (O.contents out.old) (E.contents err.old) in
        let new = written_on (O.contents out.new) (E.contents err.new) in
        (result ≡ Status.Memory) ⊎ (result ≡ Status.Stream) →
        (failed : FailedStreams) × IsCheckCut how files.now failed old new result }
    ensures not_words { result ≢ Status.Words }
{
    check_area_noted(alloc, files, how, out, err, &mut FailedStreams::none())
}

// Checks the configurations of one area, as `check_area_text`, and notes which streams fail.
fn check_area_noted<O: Write, E: Write>(
    alloc: Global,
    files: &[NamedFile],
    how: Telling,
    out: &mut O,
    err: &mut E,
    streams: &mut FailedStreams,
) -> Status
    ensures done { let old = written_on (O.contents out.old) (E.contents err.old) in
        let new = written_on (O.contents out.new) (E.contents err.new) in
        result ≡ Status.Done → IsChecked how files.now true old new }
    ensures refused { let old = written_on (O.contents out.old) (E.contents err.old) in
        let new = written_on (O.contents out.new) (E.contents err.new) in
        result ≡ Status.Refused → IsChecked how files.now false old new }
    ensures cut { let old = written_on (O.contents out.old) (E.contents err.old) in
        let new = written_on (O.contents out.new) (E.contents err.new) in
        (result ≡ Status.Memory) ⊎ (result ≡ Status.Stream) →
        IsCheckCut how files.now streams.new old new result }
    ensures not_words { result ≢ Status.Words }
{
    match check_files(alloc, files, how, out, err, streams) {
        Ok(Some(configs)) => check_together(
            alloc,
            files,
            &configs,
            how.explains(),
            out,
            err,
            streams,
        ),
        Ok(None) => Status::Refused,
        Err(cause) => tell_last(cause, err, streams),
    }
}

// Reports what is wrong between the configurations in files. Returns the status to end with.
fn check_together<O: Write, E: Write>(
    alloc: Global,
    files: &[NamedFile],
    configs: &[Config],
    explain: bool,
    out: &mut O,
    err: &mut E,
    streams: &mut FailedStreams,
) -> Status
    ensures done { let old = written_on (O.contents out.old) (E.contents err.old) in
        let new = written_on (O.contents out.new) (E.contents err.new) in
        AreConfigs files.now configs.now → result ≡ Status.Done →
        IsAreaTold explain files.now true old new }
    ensures refused { let old = written_on (O.contents out.old) (E.contents err.old) in
        let new = written_on (O.contents out.new) (E.contents err.new) in
        AreConfigs files.now configs.now → result ≡ Status.Refused →
        IsAreaTold explain files.now false old new }
    ensures cut { let old = written_on (O.contents out.old) (E.contents err.old) in
        let new = written_on (O.contents out.new) (E.contents err.new) in
        (result ≡ Status.Memory) ⊎ (result ≡ Status.Stream) →
        IsAreaCutShort explain files.now configs.now streams.new old new result }
    ensures not_words { result ≢ Status.Words }
{
    match tell_area(alloc, files, configs, explain, out, err, streams) {
        Ok(true) => Status::Done,
        Ok(false) => Status::Refused,
        Err(failure) => failure.tell(err, streams),
    }
}

// Reports what is wrong between configurations. Returns whether there are only notes.
fn tell_area<O: Write, E: Write>(
    alloc: Global,
    files: &[NamedFile],
    configs: &[Config],
    explain: bool,
    out: &mut O,
    err: &mut E,
    streams: &mut FailedStreams,
) -> Result<bool, Failure>
    ensures told { let old = written_on (O.contents out.old) (E.contents err.old) in
        let new = written_on (O.contents out.new) (E.contents err.new) in
        AreConfigs files.now configs.now →
        IfOk result (λ sound. IsAreaTold explain files.now sound old new) }
    ensures cut { let old = written_on (O.contents out.old) (E.contents err.old) in
        let new = written_on (O.contents out.new) (E.contents err.new) in
        IfErr result (IsAreaCut explain files.now configs.now streams.new old new) }
{
    match findings(alloc, configs) {
        Ok(found) => tell_findings(alloc, files, &found, explain, out, err, streams),
        Err(AllocError) => Err(Failure::Memory),
    }
}

// Reports findings in order. Returns whether all are notes.
fn tell_findings<O: Write, E: Write>(
    alloc: Global,
    files: &[NamedFile],
    findings: &[Finding],
    explain: bool,
    out: &mut O,
    err: &mut E,
    streams: &mut FailedStreams,
) -> Result<bool, Failure>
    ensures told { let old = written_on (O.contents out.old) (E.contents err.old) in
        let new = written_on (O.contents out.new) (E.contents err.new) in
        IfOk result (λ sound. IsFindingsWritten explain files.now findings.now sound old new) }
    ensures cut { let old = written_on (O.contents out.old) (E.contents err.old) in
        let new = written_on (O.contents out.new) (E.contents err.new) in
        IfErr result (IsCutAtFinding explain files.now findings.now streams.new old new) }
{
    let mut sound = true;
    for finding in findings {
        match tell_finding(alloc, files, finding, explain, out, err, streams) {
            Ok(()) => sound &= finding.fault.is_note(),
            Err(failure) => return Err(failure),
        }
    }
    Ok(sound)
}

// Reports a finding: a note on `out`, if explanations are wanted, and a fault on `err`.
fn tell_finding<O: Write, E: Write>(
    alloc: Global,
    files: &[NamedFile],
    finding: &Finding,
    explain: bool,
    out: &mut O,
    err: &mut E,
    streams: &mut FailedStreams,
) -> Result<(), Failure>
    ensures same { OnOk result (streams.new ≡ streams.old) }
    ensures out { OnOk result (Appends (O.contents out.old) (O.contents out.new)
        (note_lines explain files.now finding.now)) }
    ensures err { OnOk result (Appends (E.contents err.old) (E.contents err.new)
        (fault_lines explain files.now finding.now)) }
    ensures ended { let old = written_on (O.contents out.old) (E.contents err.old) in
        let new = written_on (O.contents out.new) (E.contents err.new) in
        IfErr result (EndsAtFinding explain files.now streams.new finding.now old new) }
{
    let is_note = finding.fault.is_note();
    if is_note && !explain {
        return Ok(());
    }
    match finding_lines(alloc, files, finding, explain) {
        Err(AllocError) => Err(Failure::Memory),
        Ok(lines) => {
            if is_note {
                streams.print(out, &lines)
            } else {
                streams.tell(err, &lines)
            }
        }
    }
}

// A finding in words, and what follows from it where that is wanted, in lines.
fn finding_lines(
    alloc: Global,
    files: &[NamedFile],
    finding: &Finding,
    explain: bool,
) -> Result<String, AllocError>
    ensures { IfOk result (λ lines. string_bytes lines
        ≡ finding_lines explain files.now finding.now) }
{
    let text = line_of(alloc, files, finding)?;
    let mut lines = format!(in alloc; "{text}\n")?;
    if explain {
        lines.push_str(&format!(in alloc; "  {}\n", finding.fault.meaning())?)?;
    }
    Ok(lines)
}

// A finding in words.
fn line_of(alloc: Global, files: &[NamedFile], finding: &Finding) -> Result<String, AllocError>
    ensures { IfOk result (λ text. string_bytes text ≡ line_of files.now finding.now) }
{
    let shown = NamedFinding {
        finding: *finding,
        here: name_at(files, finding.here.file),
        other: name_at(files, finding.other.file),
    };
    format!(in alloc; "{shown}")
}

// The name of a file.
pub(crate) fn name_at(files: &[NamedFile], number: usize) -> &str
    ensures { result.now ≡ name_at files.now number }
{
    match files.get(number) {
        None => "",
        Some(file) => file.name.as_str(),
    }
}
