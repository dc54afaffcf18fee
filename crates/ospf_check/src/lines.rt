//! Checks as JSON of version 2, an object on each line.

ghost use Rattle.std.specs.Prelude.{◌≡◌, ◌≢◌, ◌⊎◌, ◌++◌, ◌∷◌, [], true, false, flat_map, map, option_map, IfOk, IfErr, OnErr, OnOk, string_bytes};
ghost use Rattle.std.specs.Io.KnownBytes.{Appends};
ghost use Rattle.serde_json.specs.View.{view};
ghost use Rattle.ospf_files.specs.Streams.{IsBegun, IsOutputCut, written_on};
ghost use Rattle.ospf_files.specs.declared.status.Status.{Status};
ghost use Rattle.ospf_files.specs.declared.streams.FailedStreams.{FailedStreams};
ghost use Rattle.ospf_check.specs.Lines.{AreCheckLines, AreFaultItems, AreFileLines, AreTogether, IsFileData, IsFileLine, IsLinesCut, IsLinesCutShort, IsLinesPrinted, IsTextCut, IsTextPrinted, config_warnings, delay_items, fault_data, fault_items, file_line_data, finding_line, check_head_data, host_data, place_host, interface_data, place_interface, place_key, leaf_items, toml_line, no_text_data, fault_place_data, value_line, warning_data};

use crate::check::{can_lead, check_files, tell_last};
use crate::json::{are_notes, finding_value, line_of};
use crate::warning::{DelayShown, LeafShown};
use ospf_config::{Config, ConfigFault, Interface};
use ospf_files::{
    Explained, FailedStreams, Failure, FaultExplained, NamedFile, Section, Status, Telling,
    config_in, explain_all,
};
use ospf_plan::{Finding, findings, is_slow};
use serde_json::{Value, json};
use std::alloc::{AllocError, Global};
use std::io::{self, Write};

// The version of the JSON.
const VERSION: u64 = 2;

/// Checks configurations as `check_text` does, and if `area` is true those of one area together as
/// `check_area_text` does. On `out` it prints JSON of version 2 instead, in lines. The first is an
/// object with the `version`, the number of `files` as `input`, and `warnings`, which is empty.
///
/// For each file follows an object: its name as `file`, its `faults` and its `warnings`. A fault is
/// an object with its `code`, as `check_text` prints it, the `key`, the number of the `interface`
/// or `host` that has the key, or the `line` if the file is not TOML, and a `text` that says what
/// is wrong. A file that is accepted has no faults, but it can have warnings.
///
/// If all files are accepted and `area` is true, an object follows for each fault or note between
/// them, as `check_area_json` prints it.
///
/// Refused files are also reported on `err`, as `how` asks. The statuses are those of `check_text`
/// and `check_area_text`. If a file could not be read, or memory ran out, nothing is printed; if
/// `out` fails, no more than a beginning is.
pub fn check_lines<O: Write, E: Write>(
    alloc: Global,
    files: &[NamedFile],
    how: Telling,
    area: bool,
    out: &mut O,
    err: &mut E,
) -> Status
    ensures done { let old = written_on (O.contents out.old) (E.contents err.old) in
        let new = written_on (O.contents out.new) (E.contents err.new) in
        result ≡ Status.Done → IsLinesPrinted how area files.now true old new }
    ensures refused { let old = written_on (O.contents out.old) (E.contents err.old) in
        let new = written_on (O.contents out.new) (E.contents err.new) in
        result ≡ Status.Refused → IsLinesPrinted how area files.now false old new }
    ensures cut { let old = written_on (O.contents out.old) (E.contents err.old) in
        let new = written_on (O.contents out.new) (E.contents err.new) in
        (result ≡ Status.Memory) ⊎ (result ≡ Status.Stream) →
        (failed : FailedStreams) × IsLinesCut how area files.now failed old new result }
    ensures not_words { result ≢ Status.Words }
{
    check_lines_noted(
        alloc,
        files,
        how,
        area,
        out,
        err,
        &mut FailedStreams::none(),
    )
}

// Checks configurations, as `check_lines`, and notes which streams fail.
fn check_lines_noted<O: Write, E: Write>(
    alloc: Global,
    files: &[NamedFile],
    how: Telling,
    area: bool,
    out: &mut O,
    err: &mut E,
    streams: &mut FailedStreams,
) -> Status
    ensures done { let old = written_on (O.contents out.old) (E.contents err.old) in
        let new = written_on (O.contents out.new) (E.contents err.new) in
        result ≡ Status.Done → IsLinesPrinted how area files.now true old new }
    ensures refused { let old = written_on (O.contents out.old) (E.contents err.old) in
        let new = written_on (O.contents out.new) (E.contents err.new) in
        result ≡ Status.Refused → IsLinesPrinted how area files.now false old new }
    ensures cut { let old = written_on (O.contents out.old) (E.contents err.old) in
        let new = written_on (O.contents out.new) (E.contents err.new) in
        (result ≡ Status.Memory) ⊎ (result ≡ Status.Stream) →
        IsLinesCut how area files.now streams.new old new result }
    ensures not_words { result ≢ Status.Words }
{
    match check_files(alloc, files, how, &mut io::sink(), err, streams) {
        Ok(configs) => print_checked(alloc, files, area, &configs, out, err, streams),
        Err(cause) => tell_last(cause, err, streams),
    }
}

// Prints the lines of files, which hold these configurations if all are accepted. Returns the
// status to end with.
fn print_checked<O: Write, E: Write>(
    alloc: Global,
    files: &[NamedFile],
    area: bool,
    configs: &Option<Vec<Config>>,
    out: &mut O,
    err: &mut E,
    streams: &mut FailedStreams,
) -> Status
    ensures done { let held = option_map (λ c. c.items) configs.now in result ≡ Status.Done →
        IsTextPrinted area files.now held true (O.contents out.old) (O.contents out.new)
        × (E.contents err.new ≡ E.contents err.old) }
    ensures refused { let held = option_map (λ c. c.items) configs.now in result ≡ Status.Refused →
        IsTextPrinted area files.now held false (O.contents out.old) (O.contents out.new)
        × (E.contents err.new ≡ E.contents err.old) }
    ensures cut { let held = option_map (λ c. c.items) configs.now in
        let old = written_on (O.contents out.old) (E.contents err.old) in
        let new = written_on (O.contents out.new) (E.contents err.new) in
        (result ≡ Status.Memory) ⊎ (result ≡ Status.Stream) →
        IsLinesCutShort area files.now held streams.new old new result }
    ensures not_words { result ≢ Status.Words }
{
    match print_lines(alloc, files, area, configs, out, streams) {
        Ok(true) => Status::Done,
        Ok(false) => Status::Refused,
        Err(failure) => failure.tell(err, streams),
    }
}

// Prints the lines of files. Returns whether all are accepted, and nothing is wrong between them.
fn print_lines<O: Write>(
    alloc: Global,
    files: &[NamedFile],
    area: bool,
    configs: &Option<Vec<Config>>,
    out: &mut O,
    streams: &mut FailedStreams,
) -> Result<bool, Failure>
    ensures printed { let held = option_map (λ c. c.items) configs.now in
        IfOk result (λ sound. IsTextPrinted area files.now held sound (O.contents out.old)
        (O.contents out.new)) }
    ensures cut { let held = option_map (λ c. c.items) configs.now in
        IfErr result (IsTextCut area files.now held streams.new (O.contents out.old)
        (O.contents out.new)) }
{
    match checked_of(alloc, files, area, configs) {
        Ok(checked) => print_text(&checked, out, streams),
        Err(AllocError) => Err(Failure::Memory),
    }
}

// Prints lines. Returns whether nothing is wrong by them.
fn print_text<O: Write>(
    checked: &Checked,
    out: &mut O,
    streams: &mut FailedStreams,
) -> Result<bool, Failure>
    ensures sound { IfOk result (λ sound. sound ≡ checked.now.sound) }
    ensures printed { OnOk result (Appends (O.contents out.old) (O.contents out.new)
        (string_bytes checked.now.text)) }
    ensures begun { OnErr result (IsBegun (O.contents out.old) (O.contents out.new)
        (string_bytes checked.now.text)) }
    ensures cut { IfErr result (IsOutputCut streams.new) }
{
    match streams.print(out, &checked.text) {
        Ok(()) => Ok(checked.sound),
        Err(failure) => Err(failure),
    }
}

// Lines, and whether nothing is wrong by them.
#[derive(Drop)]
struct Checked {
    text: String,
    sound: bool,
}

// The lines of files, which hold these configurations if all are accepted.
fn checked_of(
    alloc: Global,
    files: &[NamedFile],
    area: bool,
    configs: &Option<Vec<Config>>,
) -> Result<Checked, AllocError>
    ensures { let held = option_map (λ c. c.items) configs.now in
        IfOk result (λ checked. AreCheckLines area files.now held checked.sound
        (string_bytes checked.text)) }
{
    let mut text = head_line(alloc, files.len())?;
    let of_files = files_lines(alloc, files)?;
    let together = together_of(alloc, files, area, configs)?;
    text.push_str(&of_files)?;
    text.push_str(&together.text)?;
    Ok(Checked {
        text,
        sound: together.sound,
    })
}

// What is wrong between the configurations in files, if they are of one area.
fn together_of(
    alloc: Global,
    files: &[NamedFile],
    area: bool,
    configs: &Option<Vec<Config>>,
) -> Result<Checked, AllocError>
    ensures { let held = option_map (λ c. c.items) configs.now in
        IfOk result (λ checked. AreTogether area files.now held checked.sound
        (string_bytes checked.text)) }
{
    match configs {
        None => Ok(nothing(alloc, false)),
        Some(configs) if area => findings_of(alloc, files, configs),
        Some(_) => Ok(nothing(alloc, true)),
    }
}

// No lines.
fn nothing(alloc: Global, sound: bool) -> Checked
    ensures text { string_bytes result.text ≡ [] }
    ensures sound { result.sound ≡ sound }
{
    Checked {
        text: String::new(alloc),
        sound,
    }
}

// What is wrong between configurations in files.
fn findings_of(
    alloc: Global,
    files: &[NamedFile],
    configs: &[Config],
) -> Result<Checked, AllocError>
    ensures { IfOk result (λ checked. AreTogether true files.now (Some configs.now) checked.sound
        (string_bytes checked.text)) }
{
    let found = findings(alloc, configs)?;
    let text = findings_lines(alloc, files, &found)?;
    Ok(Checked {
        text,
        sound: are_notes(&found),
    })
}

// Findings, each on a line.
fn findings_lines(
    alloc: Global,
    files: &[NamedFile],
    findings: &[Finding],
) -> Result<String, AllocError>
    ensures { IfOk result (λ text. string_bytes text
        ≡ flat_map (finding_line files.now) findings.now) }
{
    let mut text = String::new(alloc);
    for finding in findings {
        let value = finding_value(alloc, files, finding)?;
        text.push_str(&line_of(alloc, &value)?)?;
    }
    Ok(text)
}

// The line about the input.
fn head_line(alloc: Global, count: usize) -> Result<String, AllocError>
    ensures { IfOk result (λ line. string_bytes line ≡ value_line (check_head_data count)) }
{
    let value = head_value(alloc, count)?;
    line_of(alloc, &value)
}

// How many files there are, and the version.
fn head_value(alloc: Global, count: usize) -> Result<Value, AllocError>
    ensures { IfOk result (λ value. view value ≡ check_head_data count) }
{
    let warnings = Value::Array(Vec::new(alloc));
    json!(in alloc; {"input": {"files": count}, "version": VERSION, "warnings": warnings})
}

// The lines of files.
fn files_lines(alloc: Global, files: &[NamedFile]) -> Result<String, AllocError>
    ensures { IfOk result (λ text. AreFileLines files.now (string_bytes text)) }
{
    let mut text = String::new(alloc);
    for file in files {
        text.push_str(&file_line(alloc, file)?)?;
    }
    Ok(text)
}

// The line of a file.
fn file_line(alloc: Global, file: &NamedFile) -> Result<String, AllocError>
    ensures { IfOk result (λ line. IsFileLine file.now (string_bytes line)) }
{
    let value = file_value(alloc, file)?;
    line_of(alloc, &value)
}

// A file, with its faults or its warnings.
fn file_value(alloc: Global, file: &NamedFile) -> Result<Value, AllocError>
    ensures { IfOk result (λ value. IsFileData file.now (view value)) }
{
    match config_in(alloc, file.text()) {
        Ok(config) => {
            let warnings = warnings_of(alloc, &config)?;
            object_of(alloc, &file.name, Vec::new(alloc), warnings)
        }
        Err(ConfigFault::Memory) => Err(AllocError),
        Err(_) => {
            let faults = faults_of(alloc, file.text())?;
            object_of(alloc, &file.name, faults, Vec::new(alloc))
        }
    }
}

// The faults of a file, its name, and its warnings.
fn object_of(
    alloc: Global,
    name: &str,
    faults: Vec<Value>,
    warnings: Vec<Value>,
) -> Result<Value, AllocError>
    ensures { IfOk result (λ value. view value
        ≡ file_line_data (map view faults.items) name.now (map view warnings.items)) }
{
    let (faults, warnings) = (Value::Array(faults), Value::Array(warnings));
    json!(in alloc; {"faults": faults, "file": name, "warnings": warnings})
}

// All faults of bytes that are refused.
fn faults_of(alloc: Global, bytes: &[u8]) -> Result<Vec<Value>, AllocError>
    ensures { IfOk result (λ values. AreFaultItems bytes.now (map view values.items)) }
{
    match str::from_utf8(bytes) {
        Ok(text) => {
            let faults = explain_all(alloc, text)?;
            places_of(alloc, &faults)
        }
        Err(_) => no_text(alloc),
    }
}

// That bytes are no text.
fn no_text(alloc: Global) -> Result<Vec<Value>, AllocError>
    ensures { IfOk result (λ values. map view values.items ≡ no_text_data ∷ []) }
{
    let mut values = Vec::new(alloc);
    values.push(no_text_value(alloc)?)?;
    Ok(values)
}

// That a file is no text, as a fault.
fn no_text_value(alloc: Global) -> Result<Value, AllocError>
    ensures { IfOk result (λ value. view value ≡ no_text_data) }
{
    let place = Place {
        host: Value::Null,
        interface: Value::Null,
        key: Value::Null,
        line: Value::Null,
    };
    fault_value(alloc, ConfigFault::NotToml, place, "the file is not UTF-8")
}

// Faults, once for each of their places.
fn places_of(alloc: Global, faults: &[FaultExplained]) -> Result<Vec<Value>, AllocError>
    ensures { IfOk result (λ values. map view values.items ≡ flat_map fault_items faults.now) }
{
    let mut values = Vec::new(alloc);
    for told in faults {
        push_places(alloc, &mut values, told)?;
    }
    Ok(values)
}

// Adds a fault, once for each of its places.
fn push_places(
    alloc: Global,
    values: &mut Vec<Value>,
    told: &FaultExplained,
) -> Result<(), AllocError>
    ensures { OnOk result (map view values.new.items ≡ map view values.old.items
        ++ fault_items told.now) }
{
    for place in &told.places {
        values.push(place_value(alloc, told.fault, place)?)?;
    }
    Ok(())
}

// A place that has a fault.
fn place_value(alloc: Global, fault: ConfigFault, place: &Explained) -> Result<Value, AllocError>
    ensures { IfOk result (λ value. view value ≡ fault_place_data fault place.now) }
{
    let text = format!(in alloc; "{place}")?;
    let at = place_of(alloc, place)?;
    fault_value(alloc, fault, at, &text)
}

// Where a fault is: the number of the host or of the interface, the key, and the line.
#[derive(Drop)]
struct Place {
    host: Value,
    interface: Value,
    key: Value,
    line: Value,
}

// Where a place is.
fn place_of(alloc: Global, place: &Explained) -> Result<Place, AllocError>
    ensures host { IfOk result (λ at. view at.host ≡ place_host place.now) }
    ensures interface { IfOk result (λ at. view at.interface ≡ place_interface place.now) }
    ensures key { IfOk result (λ at. view at.key ≡ place_key place.now) }
    ensures line { IfOk result (λ at. view at.line ≡ toml_line place.now) }
{
    match place {
        Explained::Line(line) => Ok(Place {
            host: Value::Null,
            interface: Value::Null,
            key: Value::Null,
            line: Value::from(*line),
        }),
        Explained::Key(place) => Ok(Place {
            host: host_value(place.section),
            interface: interface_value(place.section),
            key: Value::try_from_str(alloc, &place.key)?,
            line: Value::Null,
        }),
    }
}

// A fault at a place.
fn fault_value(
    alloc: Global,
    fault: ConfigFault,
    at: Place,
    text: &str,
) -> Result<Value, AllocError>
    ensures { IfOk result (λ value. view value ≡ fault_data fault (view at.host)
        (view at.interface) (view at.key) (view at.line) text.now) }
{
    let code = fault.text();
    let Place {
        host,
        interface,
        key,
        line,
    } = at;
    json!(in alloc;
        {"code": code, "host": host, "interface": interface, "key": key, "line": line,
            "text": text}
    )
}

// The number of the host that has a key.
fn host_value(section: Section) -> Value
    ensures { view result ≡ host_data section }
{
    match section {
        Section::Host(number) => Value::from(number),
        Section::Top | Section::Interface(_) => Value::Null,
    }
}

// The number of the interface that has a key.
fn interface_value(section: Section) -> Value
    ensures { view result ≡ interface_data section }
{
    match section {
        Section::Interface(number) => Value::from(number),
        Section::Top | Section::Host(_) => Value::Null,
    }
}

// What the interfaces of a configuration are warned of.
fn warnings_of(alloc: Global, config: &Config) -> Result<Vec<Value>, AllocError>
    ensures { IfOk result (λ values. map view values.items ≡ config_warnings config.now) }
{
    let mut values = Vec::new(alloc);
    for (link, interface) in config.interfaces.iter().enumerate() {
        push_delay(alloc, &mut values, link, interface)?;
        push_leaf(alloc, &mut values, config.passes_over, link, interface)?;
    }
    Ok(values)
}

// Adds the warning of an InfTransDelay, where there is cause.
fn push_delay(
    alloc: Global,
    values: &mut Vec<Value>,
    link: usize,
    interface: &Interface,
) -> Result<(), AllocError>
    ensures { OnOk result (map view values.new.items ≡ map view values.old.items
        ++ delay_items (link, interface.now)) }
{
    let delay = interface.transmit_delay;
    if is_slow(delay) {
        let text = format!(in alloc; "{}", DelayShown { link, delay })?;
        values.push(warning_value(alloc, link, "transmit_delay", &text, delay)?)?;
    }
    Ok(())
}

// Adds the warning of a router priority, where there is cause.
fn push_leaf(
    alloc: Global,
    values: &mut Vec<Value>,
    passes_over: bool,
    link: usize,
    interface: &Interface,
) -> Result<(), AllocError>
    ensures { OnOk result (map view values.new.items ≡ map view values.old.items
        ++ leaf_items passes_over (link, interface.now)) }
{
    let priority = interface.priority;
    if can_lead(passes_over, interface) {
        let text = format!(in alloc; "{}", LeafShown { link, priority })?;
        values.push(warning_value(alloc, link, "priority", &text, u16::from(priority))?)?;
    }
    Ok(())
}

// A warning of an interface.
fn warning_value(
    alloc: Global,
    link: usize,
    key: &str,
    text: &str,
    value: u16,
) -> Result<Value, AllocError>
    ensures { IfOk result (λ warning. view warning ≡ warning_data link key.now text.now value) }
{
    json!(in alloc; {"interface": link, "key": key, "text": text, "value": value})
}
