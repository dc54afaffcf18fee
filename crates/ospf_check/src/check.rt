//! Configurations that are checked.

ghost use Rattle.std.specs.Prelude.{◌≡◌, ◌≢◌, ◌⊎◌, ◌++◌, ℕ, List, Option, Some, None, true, false, flat_map, is_some, option_map, IfOk, IfErr, OnOk, string_bytes};
ghost use Rattle.ospf_config.specs.declared.fault.ConfigFault.{ConfigFault};
ghost use Rattle.ospf_files.specs.Files.{IsRefusedFor, bytes_of, refused_line};
ghost use Rattle.ospf_files.specs.Streams.{written_on};
ghost use Rattle.ospf_files.specs.declared.streams.FailedStreams.{FailedStreams};
ghost use Rattle.ospf_files.specs.declared.telling.Telling.{Telling};
ghost use Rattle.ospf_check.specs.Checked.{AreFaultsSaid, EndsIn, HoldConfigs, IsCutIn, IsCheckCutShort, IsExplanation, IsLastTold, IsFaultSaid, IsVerdict, IsWritten, IsWrittenOf, KeepsBy, KeepsIf, accepted_line, can_lead, delay_line, fault_told, faulty_place_line, leaf_line, place_line, status_of, warning_line, warnings};

use crate::warning::{DelayShown, LeafShown};
use ospf_base::InterfaceKind;
use ospf_config::{Config, ConfigFault, Interface};
use ospf_files::{
    Explained, FailedStreams, Failure, FaultExplained, NamedFile, Status, Telling, config_in,
    explain, explain_all,
};
use ospf_plan::is_slow;
use std::alloc::{AllocError, Global};
use std::io::Write;

// Why a check ends early.
#[derive(Drop)]
pub(crate) enum CheckFault {
    NotRead,
    Failure(Failure),
}

/// Checks configurations, and reports each file in order. On `out` it prints that the file is
/// accepted, or on `err` its fault with the lowest number. After that, in lines indented by two
/// spaces, comes what `how` asks for: nothing more, or what to do about that fault, or about each
/// fault of the file; and for an accepted file its warnings.
///
/// A file that is not UTF-8 is not TOML. The status is `Refused` if a file was refused. The check
/// ends at a file that could not be read, which is reported on `err`, or when a write fails, with
/// status `Stream`; and with status `Memory` when memory ran out. What failed is reported on `err`,
/// as far as that can be written. Then the files before are reported in full, and of that one no
/// more than a beginning is written.
pub fn check_text<O: Write, E: Write>(
    alloc: Global,
    files: &[NamedFile],
    how: Telling,
    out: &mut O,
    err: &mut E,
) -> Status
    ensures done { let old = written_on (O.contents out.old) (E.contents err.old) in
        let new = written_on (O.contents out.new) (E.contents err.new) in
        result ≡ Status.Done → IsWritten how files.now true old new }
    ensures refused { let old = written_on (O.contents out.old) (E.contents err.old) in
        let new = written_on (O.contents out.new) (E.contents err.new) in
        result ≡ Status.Refused → IsWritten how files.now false old new }
    ensures cut { let old = written_on (O.contents out.old) (E.contents err.old) in
        let new = written_on (O.contents out.new) (E.contents err.new) in
        (result ≡ Status.Memory) ⊎ (result ≡ Status.Stream) →
        (failed : FailedStreams) × IsCheckCutShort how files.now failed old new result }
    ensures not_words { result ≢ Status.Words }
{
    check_noted(alloc, files, how, out, err, &mut FailedStreams::none())
}

// Reports files in order. Returns the configurations in them, if all are accepted.
pub(crate) fn check_files<O: Write, E: Write>(
    alloc: Global,
    files: &[NamedFile],
    how: Telling,
    out: &mut O,
    err: &mut E,
    streams: &mut FailedStreams,
) -> Result<Option<Vec<Config>>, CheckFault>
    ensures told { let old = written_on (O.contents out.old) (E.contents err.old) in
        let new = written_on (O.contents out.new) (E.contents err.new) in
        IfOk result (λ found. IsWritten how files.now (is_some found) old new) }
    ensures configs { IfOk result (λ found. HoldConfigs files.now
        (option_map (λ configs. configs.items) found)) }
    ensures cut { let old = written_on (O.contents out.old) (E.contents err.old) in
        let new = written_on (O.contents out.new) (E.contents err.new) in
        IfErr result (IsCutIn how files.now streams.new old new) }
{
    let mut configs = Vec::new(alloc);
    let mut all = true;
    for file in files {
        match check_file(alloc, file, how, &mut configs, out, err, streams) {
            Ok(accepted) => all &= accepted,
            Err(cause) => return Err(cause),
        }
    }
    if all { Ok(Some(configs)) } else { Ok(None) }
}

// Reports why a check ended early, if that is not reported yet. Returns the status to end with.
pub(crate) fn tell_last<E: Write>(
    cause: CheckFault,
    err: &mut E,
    streams: &mut FailedStreams,
) -> Status
    ensures status { result ≡ status_of cause }
    ensures last { IsLastTold streams.old streams.new (E.contents err.old) (E.contents err.new)
        cause }
{
    match cause {
        CheckFault::NotRead => Status::Stream,
        CheckFault::Failure(failure) => failure.tell(err, streams),
    }
}

// Whether a file is accepted, and the lines that say so.
#[derive(Drop)]
enum Verdict {
    Accepted(String),
    Refused(String),
}

// Checks configurations, as `check_text`, and notes which streams fail.
fn check_noted<O: Write, E: Write>(
    alloc: Global,
    files: &[NamedFile],
    how: Telling,
    out: &mut O,
    err: &mut E,
    streams: &mut FailedStreams,
) -> Status
    ensures done { let old = written_on (O.contents out.old) (E.contents err.old) in
        let new = written_on (O.contents out.new) (E.contents err.new) in
        result ≡ Status.Done → IsWritten how files.now true old new }
    ensures refused { let old = written_on (O.contents out.old) (E.contents err.old) in
        let new = written_on (O.contents out.new) (E.contents err.new) in
        result ≡ Status.Refused → IsWritten how files.now false old new }
    ensures cut { let old = written_on (O.contents out.old) (E.contents err.old) in
        let new = written_on (O.contents out.new) (E.contents err.new) in
        (result ≡ Status.Memory) ⊎ (result ≡ Status.Stream) →
        IsCheckCutShort how files.now streams.new old new result }
    ensures not_words { result ≢ Status.Words }
{
    match check_files(alloc, files, how, out, err, streams) {
        Ok(Some(_)) => Status::Done,
        Ok(None) => Status::Refused,
        Err(cause) => tell_last(cause, err, streams),
    }
}

// Reports one file, and stores its configuration. Returns whether it is accepted.
fn check_file<O: Write, E: Write>(
    alloc: Global,
    file: &NamedFile,
    how: Telling,
    configs: &mut Vec<Config>,
    out: &mut O,
    err: &mut E,
    streams: &mut FailedStreams,
) -> Result<bool, CheckFault>
    ensures told { let old = written_on (O.contents out.old) (E.contents err.old) in
        let new = written_on (O.contents out.new) (E.contents err.new) in
        IfOk result (λ accepted. (streams.new ≡ streams.old)
        × IsWrittenOf how file.now accepted old new) }
    ensures kept { IfOk result (λ accepted. KeepsIf accepted file.now configs.old.items
        configs.new.items) }
    ensures ended { let old = written_on (O.contents out.old) (E.contents err.old) in
        let new = written_on (O.contents out.new) (E.contents err.new) in
        IfErr result (EndsIn how file.now streams.new old new) }
{
    let Some(bytes) = &file.bytes else {
        return Err(tell_unread(alloc, file, err, streams));
    };
    match judge(alloc, file, bytes, how, configs) {
        Ok(Verdict::Accepted(lines)) => match streams.print(out, &lines) {
            Ok(()) => Ok(true),
            Err(failure) => Err(CheckFault::Failure(failure)),
        },
        Ok(Verdict::Refused(lines)) => match streams.tell(err, &lines) {
            Ok(()) => Ok(false),
            Err(failure) => Err(CheckFault::Failure(failure)),
        },
        Err(AllocError) => Err(CheckFault::Failure(Failure::Memory)),
    }
}

// Reports a file that was not read. Returns why the check ends.
fn tell_unread<E: Write>(
    alloc: Global,
    file: &NamedFile,
    err: &mut E,
    streams: &mut FailedStreams,
) -> CheckFault
    ensures { (how : Telling) (out : Option (List ℕ)) → bytes_of file.now ≡ None →
        EndsIn how file.now streams.new (written_on out (E.contents err.old))
        (written_on out (E.contents err.new)) result }
{
    let Ok(line) = format!(in alloc; "{}: not read\n", file.name) else {
        return CheckFault::Failure(Failure::Memory);
    };
    match streams.tell(err, &line) {
        Ok(()) => CheckFault::NotRead,
        Err(failure) => CheckFault::Failure(failure),
    }
}

// The verdict on a file that holds these bytes. The configuration in them is kept.
fn judge(
    alloc: Global,
    file: &NamedFile,
    bytes: &[u8],
    how: Telling,
    configs: &mut Vec<Config>,
) -> Result<Verdict, AllocError>
    ensures verdict { bytes_of file.now ≡ Some bytes.now →
        IfOk result (IsVerdict how file.now) }
    ensures kept { bytes_of file.now ≡ Some bytes.now →
        IfOk result (λ verdict. KeepsBy verdict file.now configs.old.items configs.new.items) }
{
    match config_in(alloc, bytes) {
        Ok(config) => {
            let lines = acceptance(alloc, file, &config, how.explains())?;
            configs.push(config).map_err(AllocError::from)?;
            Ok(Verdict::Accepted(lines))
        }
        Err(ConfigFault::Memory) => Err(AllocError),
        Err(fault) => {
            let lines = refusal(alloc, file, bytes, fault, how)?;
            Ok(Verdict::Refused(lines))
        }
    }
}

// The lines of a file that is accepted, with what it is warned of where that is wanted.
fn acceptance(
    alloc: Global,
    file: &NamedFile,
    config: &Config,
    explain: bool,
) -> Result<String, AllocError>
    ensures { IfOk result (λ lines. string_bytes lines ≡ accepted_line file.now
        ++ warnings explain config.now) }
{
    let mut lines = format!(in alloc; "{}: ok\n", file.name)?;
    if !explain {
        return Ok(lines);
    }
    let more = warnings(alloc, config)?;
    lines.push_str(&more)?;
    Ok(lines)
}

// What the interfaces of a configuration are warned of, in lines.
fn warnings(alloc: Global, config: &Config) -> Result<String, AllocError>
    ensures { IfOk result (λ lines. string_bytes lines ≡ warnings true config.now) }
{
    let mut lines = String::new(alloc);
    for (link, interface) in config.interfaces.iter().enumerate() {
        push_warning(alloc, &mut lines, config.passes_over, link, interface)?;
    }
    Ok(lines)
}

// Adds what an interface is warned of.
fn push_warning(
    alloc: Global,
    lines: &mut String,
    passes_over: bool,
    link: usize,
    interface: &Interface,
) -> Result<(), AllocError>
    ensures { OnOk result (string_bytes lines.new ≡ string_bytes lines.old
        ++ warning_line passes_over (link, interface.now)) }
{
    push_delay(alloc, lines, link, interface)?;
    push_leaf(alloc, lines, passes_over, link, interface)
}

// Adds the warning of an InfTransDelay, where there is cause.
fn push_delay(
    alloc: Global,
    lines: &mut String,
    link: usize,
    interface: &Interface,
) -> Result<(), AllocError>
    ensures { OnOk result (string_bytes lines.new ≡ string_bytes lines.old
        ++ delay_line (link, interface.now)) }
{
    if is_slow(interface.transmit_delay) {
        let shown = DelayShown {
            link,
            delay: interface.transmit_delay,
        };
        lines.push_str(&format!(in alloc; "  {shown}\n")?)?;
    }
    Ok(())
}

// Adds the warning of a router priority, where there is cause.
fn push_leaf(
    alloc: Global,
    lines: &mut String,
    passes_over: bool,
    link: usize,
    interface: &Interface,
) -> Result<(), AllocError>
    ensures { OnOk result (string_bytes lines.new ≡ string_bytes lines.old
        ++ leaf_line passes_over (link, interface.now)) }
{
    if can_lead(passes_over, interface) {
        let shown = LeafShown {
            link,
            priority: interface.priority,
        };
        lines.push_str(&format!(in alloc; "  {shown}\n")?)?;
    }
    Ok(())
}

// Whether a router that passes LSAs over can become Designated Router at an interface.
pub(crate) fn can_lead(passes_over: bool, interface: &Interface) -> bool
    ensures { result ≡ can_lead passes_over interface.now }
{
    let is_broadcast = match interface.kind {
        InterfaceKind::Broadcast => true,
        InterfaceKind::PointToPoint => false,
    };
    passes_over && is_broadcast && interface.priority > 0
}

// The lines of a file that is refused: the fault, and what to do about it as far as that is wanted.
fn refusal(
    alloc: Global,
    file: &NamedFile,
    bytes: &[u8],
    fault: ConfigFault,
    how: Telling,
) -> Result<String, AllocError>
    ensures { IsRefusedFor bytes.now fault →
        IfOk result (λ lines. (more : List ℕ) × IsExplanation how bytes.now fault more
        × (string_bytes lines ≡ refused_line file.now fault ++ more)) }
{
    let mut lines = format!(in alloc; "{}: {}\n", file.name, fault.text())?;
    let more = explanation(alloc, bytes, how)?;
    lines.push_str(&more)?;
    Ok(lines)
}

// What to do about bytes that are refused, in lines, as far as that is wanted.
fn explanation(alloc: Global, bytes: &[u8], how: Telling) -> Result<String, AllocError>
    ensures { (fault : ConfigFault) → IsRefusedFor bytes.now fault →
        IfOk result (λ lines. IsExplanation how bytes.now fault (string_bytes lines)) }
{
    match how {
        Telling::Verdict => Ok(String::new(alloc)),
        Telling::Explained => fault_said(alloc, bytes),
        Telling::AllExplained => faults_said(alloc, bytes),
    }
}

// What to do about the fault of least number of bytes that are refused, in lines.
fn fault_said(alloc: Global, bytes: &[u8]) -> Result<String, AllocError>
    ensures { (fault : ConfigFault) → IsRefusedFor bytes.now fault →
        IfOk result (λ lines. IsFaultSaid bytes.now fault (string_bytes lines)) }
{
    match str::from_utf8(bytes) {
        Ok(text) => {
            let places = explain(alloc, text)?;
            lines_of(alloc, &places)
        }
        Err(_) => String::from_str(alloc, "  the file is not UTF-8\n"),
    }
}

// What to do about all faults of bytes, in lines.
fn faults_said(alloc: Global, bytes: &[u8]) -> Result<String, AllocError>
    ensures { IfOk result (λ lines. AreFaultsSaid bytes.now (string_bytes lines)) }
{
    match str::from_utf8(bytes) {
        Ok(text) => {
            let faults = explain_all(alloc, text)?;
            lines_of_all(alloc, &faults)
        }
        Err(_) => String::from_str(alloc, "  C1 NotToml: the file is not UTF-8\n"),
    }
}

// What to do about the places that are wrong, in lines.
fn lines_of(alloc: Global, places: &[Explained]) -> Result<String, AllocError>
    ensures { IfOk result (λ lines. string_bytes lines ≡ flat_map place_line places.now) }
{
    let mut lines = String::new(alloc);
    for place in places {
        lines.push_str(&format!(in alloc; "  {place}\n")?)?;
    }
    Ok(lines)
}

// What to do about all faults, in lines.
fn lines_of_all(alloc: Global, faults: &[FaultExplained]) -> Result<String, AllocError>
    ensures { IfOk result (λ lines. string_bytes lines ≡ flat_map fault_told faults.now) }
{
    let mut lines = String::new(alloc);
    for told in faults {
        push_fault(alloc, &mut lines, told.fault, &told.places)?;
    }
    Ok(lines)
}

// Adds a line for each place of a fault.
fn push_fault(
    alloc: Global,
    lines: &mut String,
    fault: ConfigFault,
    places: &[Explained],
) -> Result<(), AllocError>
    ensures { OnOk result (string_bytes lines.new ≡ string_bytes lines.old
        ++ flat_map (faulty_place_line fault) places.now) }
{
    for place in places {
        lines.push_str(&format!(in alloc; "  {fault}: {place}\n")?)?;
    }
    Ok(())
}
