//! The configurations of one area, checked together, as a value of JSON.

ghost use Rattle.std.specs.Prelude.{◌≡◌, ◌≢◌, ◌⊎◌, ◌++◌, codes, true, false, not, IfOk, IfErr, OnErr, OnOk, string_bytes};
ghost use Rattle.std.specs.List.{list_any};
ghost use Rattle.std.specs.Io.KnownBytes.{Appends};
ghost use Rattle.serde_json.specs.Data.{string};
ghost use Rattle.serde_json.specs.View.{view};
ghost use Rattle.serde_json.specs.Written.{compact_text, has_float};
ghost use Rattle.ospf_base.specs.Text.{number_text};
ghost use Rattle.ospf_config.specs.Texts.{kind_text};
ghost use Rattle.ospf_files.specs.Listed.{AreConfigs};
ghost use Rattle.ospf_files.specs.Streams.{IsBegun, IsOutputCut, written_on};
ghost use Rattle.ospf_files.specs.declared.status.Status.{Status};
ghost use Rattle.ospf_files.specs.declared.streams.FailedStreams.{FailedStreams};
ghost use Rattle.ospf_check.specs.Area.{is_fault};
ghost use Rattle.ospf_check.specs.Json.{IsAreaPrinted, IsJson, IsJsonCut, IsPrintCut, IsPrintCutShort, finding_data, findings_data, findings_line, key_text, other_data, place_data, port_data, prefix_data, side_data, told_data, value_data};

use crate::area::name_at;
use crate::check::{check_files, tell_last};
use ospf_base::{Addr, InterfaceKind};
use ospf_config::{Config, Port};
use ospf_files::{FailedStreams, Failure, NamedFile, Status, Telling};
use ospf_plan::{AreaFault, Finding, LinkEnd, findings};
use serde_json::{Value, json};
use std::alloc::{AllocError, Global};
use std::io::{self, Write};

/// Checks the configurations of one area as `check_area_text` does, and if all are accepted prints
/// what is wrong between them, notes too, as one JSON value on a line. It is an array with one
/// object per finding: the `code` of the fault, its `meaning`, whether it is a `note`, and the
/// interfaces `here` and `other`, each with the name of its `file`, its number as `interface`, and
/// the `value` at a `key`. Files that are refused are reported on `err`, and nothing is printed.
///
/// The statuses are those of `check_area_text`. If it ends early, no more than a beginning is
/// printed.
pub fn check_area_json<O: Write, E: Write>(
    alloc: Global,
    files: &[NamedFile],
    out: &mut O,
    err: &mut E,
) -> Status
    ensures done { let old = written_on (O.contents out.old) (E.contents err.old) in
        let new = written_on (O.contents out.new) (E.contents err.new) in
        result ≡ Status.Done → IsJson files.now true old new }
    ensures refused { let old = written_on (O.contents out.old) (E.contents err.old) in
        let new = written_on (O.contents out.new) (E.contents err.new) in
        result ≡ Status.Refused → IsJson files.now false old new }
    ensures cut { let old = written_on (O.contents out.old) (E.contents err.old) in
        let new = written_on (O.contents out.new) (E.contents err.new) in
        (result ≡ Status.Memory) ⊎ (result ≡ Status.Stream) →
        (failed : FailedStreams) × IsJsonCut files.now failed old new result }
    ensures not_words { result ≢ Status.Words }
{
    check_json_noted(alloc, files, out, err, &mut FailedStreams::none())
}

// Checks the configurations of one area, as `check_area_json`, and notes which streams fail.
fn check_json_noted<O: Write, E: Write>(
    alloc: Global,
    files: &[NamedFile],
    out: &mut O,
    err: &mut E,
    streams: &mut FailedStreams,
) -> Status
    ensures done { let old = written_on (O.contents out.old) (E.contents err.old) in
        let new = written_on (O.contents out.new) (E.contents err.new) in
        result ≡ Status.Done → IsJson files.now true old new }
    ensures refused { let old = written_on (O.contents out.old) (E.contents err.old) in
        let new = written_on (O.contents out.new) (E.contents err.new) in
        result ≡ Status.Refused → IsJson files.now false old new }
    ensures cut { let old = written_on (O.contents out.old) (E.contents err.old) in
        let new = written_on (O.contents out.new) (E.contents err.new) in
        (result ≡ Status.Memory) ⊎ (result ≡ Status.Stream) →
        IsJsonCut files.now streams.new old new result }
    ensures not_words { result ≢ Status.Words }
{
    match check_files(
        alloc,
        files,
        Telling::Verdict,
        &mut io::sink(),
        err,
        streams,
    ) {
        Ok(Some(configs)) => print_together(alloc, files, &configs, out, err, streams),
        Ok(None) => Status::Refused,
        Err(cause) => tell_last(cause, err, streams),
    }
}

// Prints what is wrong between the configurations in files. The answer is the status to end with.
fn print_together<O: Write, E: Write>(
    alloc: Global,
    files: &[NamedFile],
    configs: &[Config],
    out: &mut O,
    err: &mut E,
    streams: &mut FailedStreams,
) -> Status
    ensures done { AreConfigs files.now configs.now → result ≡ Status.Done →
        IsAreaPrinted files.now true (O.contents out.old) (O.contents out.new)
        × (E.contents err.new ≡ E.contents err.old) }
    ensures refused { AreConfigs files.now configs.now → result ≡ Status.Refused →
        IsAreaPrinted files.now false (O.contents out.old) (O.contents out.new)
        × (E.contents err.new ≡ E.contents err.old) }
    ensures cut { let old = written_on (O.contents out.old) (E.contents err.old) in
        let new = written_on (O.contents out.new) (E.contents err.new) in
        (result ≡ Status.Memory) ⊎ (result ≡ Status.Stream) →
        IsPrintCutShort files.now configs.now streams.new old new result }
    ensures not_words { result ≢ Status.Words }
{
    match print_area(alloc, files, configs, out, streams) {
        Ok(true) => Status::Done,
        Ok(false) => Status::Refused,
        Err(failure) => failure.tell(err, streams),
    }
}

// Prints what is wrong between configurations. The answer is whether nothing is but notes.
fn print_area<O: Write>(
    alloc: Global,
    files: &[NamedFile],
    configs: &[Config],
    out: &mut O,
    streams: &mut FailedStreams,
) -> Result<bool, Failure>
    ensures printed { AreConfigs files.now configs.now →
        IfOk result (λ sound. IsAreaPrinted files.now sound (O.contents out.old)
        (O.contents out.new)) }
    ensures cut { IfErr result (IsPrintCut files.now configs.now streams.new
        (O.contents out.old) (O.contents out.new)) }
{
    match findings(alloc, configs) {
        Ok(found) => print_findings(alloc, files, &found, out, streams),
        Err(AllocError) => Err(Failure::Memory),
    }
}

// Prints findings. The answer is whether all are notes.
fn print_findings<O: Write>(
    alloc: Global,
    files: &[NamedFile],
    findings: &[Finding],
    out: &mut O,
    streams: &mut FailedStreams,
) -> Result<bool, Failure>
    ensures sound { IfOk result (λ sound. sound ≡ not (list_any is_fault findings.now)) }
    ensures printed { OnOk result (Appends (O.contents out.old) (O.contents out.new)
        (findings_line files.now findings.now)) }
    ensures begun { OnErr result (IsBegun (O.contents out.old) (O.contents out.new)
        (findings_line files.now findings.now)) }
    ensures cut { IfErr result (IsOutputCut streams.new) }
{
    match findings_line(alloc, files, findings) {
        Ok(line) => print_line(&line, findings, out, streams),
        Err(AllocError) => Err(Failure::Memory),
    }
}

// Prints the line of findings. The answer is whether all are notes.
fn print_line<O: Write>(
    line: &str,
    findings: &[Finding],
    out: &mut O,
    streams: &mut FailedStreams,
) -> Result<bool, Failure>
    ensures sound { IfOk result (λ sound. sound ≡ not (list_any is_fault findings.now)) }
    ensures printed { OnOk result (Appends (O.contents out.old) (O.contents out.new) line.now) }
    ensures begun { OnErr result (IsBegun (O.contents out.old) (O.contents out.new) line.now) }
    ensures cut { IfErr result (IsOutputCut streams.new) }
{
    match streams.print(out, line) {
        Ok(()) => Ok(are_notes(findings)),
        Err(failure) => Err(failure),
    }
}

// Whether all findings are notes.
pub(crate) fn are_notes(findings: &[Finding]) -> bool
    ensures { result ≡ not (list_any is_fault findings.now) }
{
    let mut sound = true;
    for finding in findings {
        sound &= finding.fault.is_note();
    }
    sound
}

// Findings as a line.
fn findings_line(
    alloc: Global,
    files: &[NamedFile],
    findings: &[Finding],
) -> Result<String, AllocError>
    ensures { IfOk result (λ line. string_bytes line ≡ findings_line files.now findings.now) }
{
    let value = findings_value(alloc, files, findings)?;
    line_of(alloc, &value)
}

// A value on a line.
pub(crate) fn line_of(alloc: Global, value: &Value) -> Result<String, AllocError>
    requires { has_float (view value.now) ≡ false }
    ensures { IfOk result (λ line. string_bytes line
        ≡ compact_text (view value.now) ++ codes "\n") }
{
    let mut line = value.to_string(alloc)?;
    line.push_str("\n")?;
    Ok(line)
}

// Findings as an array.
fn findings_value(
    alloc: Global,
    files: &[NamedFile],
    findings: &[Finding],
) -> Result<Value, AllocError>
    ensures { IfOk result (λ value. view value ≡ findings_data files.now findings.now) }
{
    let mut items = Vec::new(alloc);
    for finding in findings {
        items.push(finding_value(alloc, files, finding)?)?;
    }
    Ok(Value::Array(items))
}

// A finding as an object.
pub(crate) fn finding_value(
    alloc: Global,
    files: &[NamedFile],
    found: &Finding,
) -> Result<Value, AllocError>
    ensures { IfOk result (λ value. view value ≡ finding_data files.now found.now) }
{
    let Finding { fault, here, other } = *found;
    let at_here = side_value(alloc, fault, &here, name_at(files, here.file))?;
    let at_other = other_value(alloc, fault, &other, name_at(files, other.file))?;
    told_value(alloc, fault, at_here, at_other)
}

// A fault between these sides as an object.
fn told_value(
    alloc: Global,
    fault: AreaFault,
    here: Value,
    other: Value,
) -> Result<Value, AllocError>
    ensures { IfOk result (λ value. view value ≡ told_data fault (view here) (view other)) }
{
    let (code, meaning, note) = (fault.text(), fault.meaning(), fault.is_note());
    json!(in alloc; {"code": code, "meaning": meaning, "note": note, "here": here, "other": other})
}

// What the other interface has, if there is one.
fn other_value(
    alloc: Global,
    fault: AreaFault,
    end: &LinkEnd,
    name: &str,
) -> Result<Value, AllocError>
    ensures { IfOk result (λ value. view value ≡ other_data fault end.now name.now) }
{
    match fault {
        AreaFault::NoNeighbor | AreaFault::UnknownPeer(_) | AreaFault::LoneDr => Ok(Value::Null),
        fault => side_value(alloc, fault, end, name),
    }
}

// What an interface has, and where, as an object.
fn side_value(
    alloc: Global,
    fault: AreaFault,
    end: &LinkEnd,
    name: &str,
) -> Result<Value, AllocError>
    ensures { IfOk result (λ value. view value ≡ side_data fault end.now name.now) }
{
    let (interface, key) = (place_value(fault, end), key_text(fault));
    let value = value_at(alloc, fault, end)?;
    json!(in alloc; {"file": name, "interface": interface, "key": key, "value": value})
}

// The number of the interface that has the value.
fn place_value(fault: AreaFault, end: &LinkEnd) -> Value
    ensures { view result ≡ place_data fault end.now }
{
    match fault {
        AreaFault::SameRouter | AreaFault::Partitioned => Value::Null,
        _ => Value::from(end.link),
    }
}

// The key that a fault is about.
fn key_text(fault: AreaFault) -> &'static str
    ensures { result.now ≡ key_text fault }
{
    match fault {
        AreaFault::SameRouter | AreaFault::Partitioned => "router_id",
        AreaFault::Area => "area",
        AreaFault::Kind => "kind",
        AreaFault::Hello => "hello",
        AreaFault::Dead => "dead",
        AreaFault::Mtu => "mtu",
        AreaFault::NoDr | AreaFault::LoneDr => "priority",
        AreaFault::OneSided | AreaFault::SamePort => "port",
        AreaFault::WrongSubnetPeer | AreaFault::Unheard => "port",
        AreaFault::Cost => "cost",
        AreaFault::Delay => "transmit_delay",
        AreaFault::UnknownPeer(_) => "peers",
        _ => "address",
    }
}

// What an interface has at this key.
fn value_at(alloc: Global, fault: AreaFault, end: &LinkEnd) -> Result<Value, AllocError>
    ensures { IfOk result (λ value. view value ≡ value_data fault end.now) }
{
    match fault {
        AreaFault::SameRouter | AreaFault::Partitioned => dotted_value(alloc, end.router.0),
        AreaFault::Area => dotted_value(alloc, end.area.0),
        AreaFault::Kind => Value::try_from_str(alloc, kind_text(end.kind)),
        AreaFault::Hello => Ok(Value::from(end.hello)),
        AreaFault::Dead => Ok(Value::from(end.dead)),
        AreaFault::Mtu => Ok(Value::from(end.mtu)),
        AreaFault::NoDr | AreaFault::LoneDr => Ok(Value::from(end.priority)),
        AreaFault::OneSided | AreaFault::SamePort => Ok(port_value(end.port)),
        AreaFault::WrongSubnetPeer | AreaFault::Unheard => Ok(port_value(end.port)),
        AreaFault::Cost => Ok(Value::from(end.cost)),
        AreaFault::Delay => Ok(Value::from(end.transmit_delay)),
        AreaFault::UnknownPeer(peer) => Ok(Value::from(peer)),
        _ => prefix_value(alloc, end),
    }
}

// A number as it is written with dots.
fn dotted_value(alloc: Global, number: u32) -> Result<Value, AllocError>
    ensures { IfOk result (λ value. view value ≡ string (number_text number)) }
{
    let text = format!(in alloc; "{}", Addr(number))?;
    Ok(Value::String(text))
}

// The address of an interface, and the length of its prefix.
fn prefix_value(alloc: Global, end: &LinkEnd) -> Result<Value, AllocError>
    ensures { IfOk result (λ value. view value ≡ prefix_data end.now) }
{
    let text = format!(in alloc; "{}/{}", end.address.address, end.address.length)?;
    Ok(Value::String(text))
}

// The port of an interface, if it has one.
fn port_value(port: Option<Port>) -> Value
    ensures { view result ≡ port_data port }
{
    match port {
        None => Value::Null,
        Some(port) => Value::from(port.number),
    }
}

// A kind as it is written.
fn kind_text(kind: InterfaceKind) -> &'static str
    ensures { result.now ≡ kind_text kind }
{
    match kind {
        InterfaceKind::PointToPoint => "point-to-point",
        InterfaceKind::Broadcast => "broadcast",
    }
}
