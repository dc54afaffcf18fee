//! The words of the command line.

ghost use Rattle.clap.specs.Faults.{fault_of};
ghost use Rattle.std.specs.Prelude.{OnOk, true, false, [], ◌≡◌, ◌≢◌, ◌&&◌, ◌||◌, map, option_map, unwrap_or, codes, string_bytes, Ok, Err, Some, Any, IsTrue, ◌↔◌, ◌⊎◌, IfNone, IfOk, IfErr, IfSome};
ghost use Rattle.clap.specs.Words.{all_of, first_of, found_of, one_of, rows_of, subcommand_rows_of, subcommand_of};
ghost use Rattle.ospf_words.specs.Job.{IsFaultOfNoValue, IsFaultOfValue, IsHelp};
ghost use Rattle.ospf_words.specs.Unasked.{IsFirstWrong, IsJobIfAny, IsNoAddress, IsNoCarrier, IsNoRouter, IsUnasked, HasNoChoice, IsWrongValue, IsForeverIn, IsNoneUnending, IsUncounted, IsUnending, LacksInRun};
ghost use Rattle.ospf_words.specs.Words.{AreChoices, IsAddressIfAny, IsAsked, IsCarrier, IsFlag, IsRouterIfAny, Spell, command_app, failures_form, lsas_asked, telling_of, HasTicks, IsEndless, IsJobOf, IsRunWith, endless_app};

use crate::commands::{any_ticks_arg, command, ticks_arg};
use crate::jobs::{CheckJob, DiffWords, EditWords, Job, JobFault, RunJob, SimJob};
use clap::error::ErrorKind;
use clap::{ArgMatches, Command};
use ospf_base::{Addr, RouterId};
use ospf_failures::{Carrier, FailuresForm, FailuresJob, RouterFailures};
use ospf_files::Telling;
use ospf_inspect::{Form, InspectJob};
use ospf_table::TableJob;
use std::alloc::{AllocError, Global};
use std::str::FromStr;

// The word that means all roots.
const ALL: &str = "all";

// The word for standard input, in place of a file's name.
const STANDARD_INPUT: &str = "-";

// The word in place of the ticks of a run without a last one.
const FOREVER: &str = "forever";

/// The fault of words of which one is not UTF-8: `Words`, or `Memory` where memory ran out.
pub fn not_text(alloc: Global) -> JobFault
    ensures fault { IsFaultOfNoValue result }
    ensures not_help { IsHelp result → ⊥ }
{
    let told = match command(alloc, ticks_arg(alloc)) {
        Ok(mut command) => command.error(ErrorKind::InvalidValue, "an argument is not UTF-8"),
        Err(error) => Err(error),
    };
    match told {
        Ok(error) => JobFault::from(error),
        Err(_) => JobFault::Memory,
    }
}

/// Reads the program's words, without its own name. The ticks of a run are a number or the word
/// `forever`.
///
/// The error is `Words` if they fit no command, or ask for help or the version, `Address` with the
/// first word that must be an address and is not one, and `Memory` if memory ran out.
pub fn job(alloc: Global, words: &[&str]) -> Result<Job, JobFault>
    ensures ok { IfOk result (IsAsked (map (λ w. w.now) words.now)) }
    ensures fault { IfErr result (IsUnasked (map (λ w. w.now) words.now)) }
{
    match counted_job(alloc, words) {
        Ok(job) => Ok(job),
        Err(JobFault::Words(error)) => match endless_job(alloc, words)? {
            Some(job) => Ok(job),
            None => Err(JobFault::Words(error)),
        },
        Err(JobFault::Address(word)) => Err(JobFault::Address(word)),
        Err(JobFault::Memory) => Err(JobFault::Memory),
    }
}

// Reads words where the ticks of a run are a number.
fn counted_job(alloc: Global, words: &[&str]) -> Result<Job, JobFault>
    ensures ok { IfOk result (IsJobOf (subcommand_of command_app (map (λ w. w.now) words.now))) }
    ensures accepted { OnOk result (fault_of command_app (map (λ w. w.now) words.now) ≡ []) }
    ensures fault { IfErr result (IsUncounted (map (λ w. w.now) words.now)) }
{
    let mut command = command(alloc, ticks_arg(alloc))?;
    let matches = command.try_get_matches_from_mut(words)?;
    match entered_job(alloc, &matches)? {
        Some(job) => Ok(job),
        None => Err(no_job(&mut command, &matches)),
    }
}

// Reads words with any word allowed as the ticks of a run. The job is that of a run without a last
// tick, if they ask for one. If the words are refused here too, this is reported only if `forever`
// is among them.
fn endless_job(alloc: Global, words: &[&str]) -> Result<Option<Job>, JobFault>
    ensures ok { IfOk result (λ found. IfSome found (IsEndless (map (λ w. w.now) words.now))) }
    ensures accepted { IfOk result (λ found. IfSome found
        (λ _. fault_of endless_app (map (λ w. w.now) words.now) ≡ [])) }
    ensures none { IfOk result (λ found. IfNone found
        (IsNoneUnending (map (λ w. w.now) words.now))) }
    ensures fault { IfErr result (IsUnending (map (λ w. w.now) words.now)) }
{
    let mut command = command(alloc, any_ticks_arg(alloc))?;
    let matches = match command.try_get_matches_from_mut(words) {
        Ok(matches) => matches,
        Err(error) if error.kind() == ErrorKind::OutOfMemory => return Err(JobFault::Memory),
        Err(error) if has_forever(words) => return Err(JobFault::from(error)),
        Err(_) => return Ok(None),
    };
    let Some(values) = endless_values(&matches) else {
        return Ok(None);
    };
    match run_with(alloc, values, None)? {
        Some(job) => Ok(Some(job)),
        None => Err(no_job(&mut command, &matches)),
    }
}

// Whether `forever` is among the words.
fn has_forever(words: &[&str]) -> bool
    ensures { IsTrue result ↔ Any (λ w. w.now ≡ codes "forever") words.now }
{
    words.iter().any(|word| *word == FOREVER)
}

// The job of the command that the words entered, if its values make one.
fn entered_job(alloc: Global, matches: &ArgMatches<'_>) -> Result<Option<Job>, JobFault>
    ensures ok { IfOk result (IsJobIfAny (subcommand_rows_of matches.now)) }
    ensures fault { IfErr result (IsFaultOfValue (IsWrongValue (subcommand_rows_of matches.now))) }
{
    if let Some(values) = matches.subcommand_matches("table") {
        return table_job(alloc, values);
    }
    if let Some(values) = matches.subcommand_matches("failures") {
        return failures_job(alloc, values);
    }
    if let Some(values) = matches.subcommand_matches("lsas") {
        return Ok(lsas_job(values));
    }
    if let Some(values) = matches.subcommand_matches("path") {
        return path_job(alloc, values);
    }
    if let Some(values) = matches.subcommand_matches("edit") {
        return Ok(edit_job(alloc, values)?);
    }
    if let Some(values) = matches.subcommand_matches("diff") {
        return diff_job(alloc, values);
    }
    if let Some(values) = matches.subcommand_matches("check") {
        return Ok(check_job(alloc, values)?);
    }
    if let Some(values) = matches.subcommand_matches("sim") {
        return Ok(sim_job(alloc, values)?);
    }
    if let Some(values) = matches.subcommand_matches("run") {
        return run_job(alloc, values);
    }
    Ok(None)
}

// The values of `run`, if the words entered that with `forever` in place of its ticks.
fn endless_values<'m, 'a>(matches: &'m ArgMatches<'a>) -> Option<&'m ArgMatches<'a>>
    ensures run { IfSome result (λ values. subcommand_rows_of matches.now
        ≡ Some (codes "run", rows_of (found_of values.now))) }
    ensures ticks { IfSome result (λ values. HasTicks (rows_of (found_of values.now)) None) }
    ensures none { IfNone result (IsForeverIn (subcommand_rows_of matches.now) → ⊥) }
{
    let Some(values) = matches.subcommand_matches("run") else {
        return None;
    };
    match word_of(values, "ticks") {
        Some(word) if word == FOREVER => Some(values),
        _ => None,
    }
}

// Whether a flag is given.
fn has_flag(values: &ArgMatches<'_>, name: &str) -> bool
    ensures { IsFlag (one_of name.now (rows_of (found_of values.now))) result }
{
    values.get_flag(name)
}

// The word of an option or an argument, if it has one.
fn word_of<'a>(values: &ArgMatches<'a>, name: &str) -> Option<&'a str>
    ensures { option_map (λ w. w.now) result ≡ first_of name.now (rows_of (found_of values.now)) }
{
    values.get_str(name)
}

// The words of an option or an argument, of all its uses, if it has any.
fn all_of<'m, 'a>(values: &'m ArgMatches<'a>, name: &str) -> Option<&'m [&'a str]>
    ensures { option_map (λ words. map (λ w. w.now) words.now) result
        ≡ all_of name.now (rows_of (found_of values.now)) }
{
    values.get_strs(name)
}

// The values of `table`: its job, if they have a root.
fn table_job(alloc: Global, values: &ArgMatches<'_>) -> Result<Option<Job>, JobFault>
    ensures ok { IfOk result (IsJobIfAny (Some (codes "table", rows_of (found_of values.now)))) }
    ensures fault { IfErr result (IsFaultOfValue
        (IsWrongValue (Some (codes "table", rows_of (found_of values.now))))) }
{
    if has_flag(values, "json2") {
        return lines_job(alloc, values);
    }
    if has_flag(values, "json") {
        return json_job(alloc, values);
    }
    let names = all_of(values, "without").unwrap_or(&[]);
    if names.is_empty() {
        whole_job(alloc, values)
    } else {
        without_job(alloc, values, names)
    }
}

// The values of `table` where nothing is left out: its job, if they have a root, which is
// not all roots where there are addresses.
fn whole_job(alloc: Global, values: &ArgMatches<'_>) -> Result<Option<Job>, JobFault>
    requires whole { unwrap_or (all_of (codes "without") (rows_of (found_of values.now))) [] ≡ [] }
    requires plain { IsFlag (one_of (codes "json") (rows_of (found_of values.now))) false }
    requires json2 { IsFlag (one_of (codes "json2") (rows_of (found_of values.now))) false }
    // the job of the words that were found
    ensures ok { IfOk result (IsJobIfAny (Some (codes "table", rows_of (found_of values.now)))) }
    ensures fault { IfErr result (IsFaultOfValue
        (IsWrongValue (Some (codes "table", rows_of (found_of values.now))))) }
{
    let Some(root) = word_of(values, "root") else {
        return Ok(None);
    };
    let addresses = all_of(values, "addresses").unwrap_or(&[]);
    if root == ALL {
        if !addresses.is_empty() {
            return Ok(None);
        }
        return Ok(Some(Job::Inspect(InspectJob::Tables(Form::Text))));
    }
    Ok(Some(Job::Table(TableJob {
        root: parsed(alloc, root)?,
        addresses: parsed_addresses(alloc, addresses)?,
    })))
}

// The values of `table` where parts of these names are left out: its job, if they have a root,
// which is not all roots.
fn without_job(
    alloc: Global,
    values: &ArgMatches<'_>,
    names: &[&str],
) -> Result<Option<Job>, JobFault>
    requires names { map (λ w. w.now) names.now
        ≡ unwrap_or (all_of (codes "without") (rows_of (found_of values.now))) [] }
    requires some { names.now ≢ [] }
    requires plain { IsFlag (one_of (codes "json") (rows_of (found_of values.now))) false }
    requires json2 { IsFlag (one_of (codes "json2") (rows_of (found_of values.now))) false }
    // The job of `table` with these names, if there is a root; else which value is wrong.
    ensures ok { IfOk result (IsJobIfAny (Some (codes "table", rows_of (found_of values.now)))) }
    ensures fault { IfErr result (IsFaultOfValue
        (IsWrongValue (Some (codes "table", rows_of (found_of values.now))))) }
{
    let Some(root) = word_of(values, "root") else {
        return Ok(None);
    };
    if root == ALL {
        return Ok(None);
    }
    let addresses = all_of(values, "addresses").unwrap_or(&[]);
    let root = parsed(alloc, root)?;
    let addresses = parsed_addresses(alloc, addresses)?;
    let names = owned(alloc, names)?;
    Ok(Some(Job::Failures(FailuresJob::Without {
        root,
        names,
        addresses,
    })))
}

// The values of `table` that ask for JSON: its job, if they have a root, and
// nothing is looked up or left out.
fn json_job(alloc: Global, values: &ArgMatches<'_>) -> Result<Option<Job>, JobFault>
    requires json { IsFlag (one_of (codes "json") (rows_of (found_of values.now))) true }
    requires json2 { IsFlag (one_of (codes "json2") (rows_of (found_of values.now))) false }
    ensures ok { IfOk result (IsJobIfAny (Some (codes "table", rows_of (found_of values.now)))) }
    ensures fault { IfErr result (IsFaultOfValue
        (IsWrongValue (Some (codes "table", rows_of (found_of values.now))))) }
{
    let Some(root) = word_of(values, "root") else {
        return Ok(None);
    };
    let addresses = all_of(values, "addresses").unwrap_or(&[]);
    if !addresses.is_empty() {
        return Ok(None);
    }
    let names = all_of(values, "without").unwrap_or(&[]);
    if !names.is_empty() {
        return Ok(None);
    }
    if root == ALL {
        return Ok(Some(Job::Inspect(InspectJob::Tables(Form::Json))));
    }
    let root = parsed(alloc, root)?;
    Ok(Some(Job::Inspect(InspectJob::Table(root))))
}

// The values of `table` that ask for JSON of version 2: its job, if they have a root, which is not
// all roots where there are addresses, and neither version 1 nor parts to leave out.
fn lines_job(alloc: Global, values: &ArgMatches<'_>) -> Result<Option<Job>, JobFault>
    requires { IsFlag (one_of (codes "json2") (rows_of (found_of values.now))) true }
    ensures ok { IfOk result (IsJobIfAny (Some (codes "table", rows_of (found_of values.now)))) }
    ensures fault { IfErr result (IsFaultOfValue
        (IsWrongValue (Some (codes "table", rows_of (found_of values.now))))) }
{
    if has_flag(values, "json") {
        return Ok(None);
    }
    let parts = all_of(values, "without").unwrap_or(&[]);
    if !parts.is_empty() {
        return Ok(None);
    }
    let Some(root) = word_of(values, "root") else {
        return Ok(None);
    };
    let texts = all_of(values, "addresses").unwrap_or(&[]);
    if root == ALL {
        if !texts.is_empty() {
            return Ok(None);
        }
        return Ok(Some(Job::Inspect(InspectJob::TablesLines)));
    }
    let root = parsed(alloc, root)?;
    let addresses = parsed_addresses(alloc, texts)?;
    Ok(Some(Job::Inspect(InspectJob::TableLines { root, addresses })))
}

// The value that a word spells.
fn parsed<T: FromStr>(alloc: Global, word: &str) -> Result<T, JobFault>
where
    T::Err: Drop,
    ensures value { IfOk result (λ value. T.from_str_gives word.now (Ok value)) }
    ensures fault { IfErr result (IsFaultOfValue
        (λ w. (w ≡ word.now) × (e : T.Err) × T.from_str_gives word.now (Err e))) }
{
    match word.parse::<T>() {
        Ok(value) => Ok(value),
        Err(_) => Err(JobFault::Address(String::from_str(alloc, word)?)),
    }
}

// The addresses that words spell.
fn parsed_addresses(alloc: Global, words: &[&str]) -> Result<Vec<Addr>, JobFault>
    ensures spelled { IfOk result (λ addresses. Spell (map (λ w. w.now) words.now)
        addresses.items) }
    ensures fault { IfErr result (IsFaultOfValue (IsFirstWrong (map (λ w. w.now) words.now))) }
{
    let mut addresses = Vec::with_capacity(alloc, words.len())?;
    for word in words {
        addresses
            .push(parsed(alloc, word)?)
            .map_err(AllocError::from)?;
    }
    Ok(addresses)
}

// The values of `failures`: its job, if they have a root, one form at most, and no word but that
// of a carrier.
fn failures_job(alloc: Global, values: &ArgMatches<'_>) -> Result<Option<Job>, JobFault>
    ensures ok { IfOk result (IsJobIfAny (Some (codes "failures", rows_of (found_of values.now)))) }
    ensures fault { IfErr result (IsFaultOfValue
        (IsWrongValue (Some (codes "failures", rows_of (found_of values.now))))) }
{
    let Some(word) = word_of(values, "root") else {
        return Ok(None);
    };
    let each = has_flag(values, "each");
    let strict = has_flag(values, "strict");
    let json = has_flag(values, "json");
    let json2 = has_flag(values, "json2");
    let harm = has_flag(values, "harm");
    let Some(form) = failures_form(json, json2, harm) else {
        return Ok(None);
    };
    let Some(carrier) = carrier_of(word_of(values, "carrier")) else {
        return Ok(None);
    };
    if word == ALL {
        return Ok(Some(Job::Failures(FailuresJob::All {
            each,
            strict,
            form,
            carrier,
        })));
    }
    let root = parsed(alloc, word)?;
    Ok(Some(Job::Failures(FailuresJob::Root(RouterFailures {
        root,
        each,
        strict,
        form,
        carrier,
    }))))
}

// What carries the links, by its word, if that is one.
fn carrier_of(word: Option<&str>) -> Option<Carrier>
    ensures some { IfSome result (IsCarrier (option_map (λ w. w.now) word.entry)) }
    ensures none { IfNone result (IsNoCarrier (option_map (λ w. w.now) word.entry)) }
{
    let Some(name) = word else {
        return Some(Carrier::Process);
    };
    if name == "direct" {
        return Some(Carrier::Direct);
    }
    if name == "switch" {
        return Some(Carrier::Switch);
    }
    if name == "process" {
        return Some(Carrier::Process);
    }
    None
}

// In which form failures are printed, by the flags, of which at most one is given.
fn failures_form(json: bool, json2: bool, harm: bool) -> Option<FailuresForm>
    ensures { result ≡ failures_form json json2 harm }
{
    match (json, json2, harm) {
        (false, false, false) => Some(FailuresForm::Text),
        (true, false, false) => Some(FailuresForm::Json),
        (false, true, false) => Some(FailuresForm::JsonLines),
        (false, false, true) => Some(FailuresForm::Harm),
        (true, true, _) => None,
        (true, false, true) => None,
        (false, true, true) => None,
    }
}

// The values of `path`: its job, if they have both ends, and all choices are read.
fn path_job(alloc: Global, values: &ArgMatches<'_>) -> Result<Option<Job>, JobFault>
    ensures ok { IfOk result (IsJobIfAny (Some (codes "path", rows_of (found_of values.now)))) }
    ensures fault { IfErr result (IsFaultOfValue
        (IsWrongValue (Some (codes "path", rows_of (found_of values.now))))) }
{
    let Some(from) = word_of(values, "from") else {
        return Ok(None);
    };
    let Some(address) = word_of(values, "address") else {
        return Ok(None);
    };
    let words = all_of(values, "choices").unwrap_or(&[]);
    let Some(choices) = choices_of(alloc, words)? else {
        return Ok(None);
    };
    let from = parsed(alloc, from)?;
    let address = parsed(alloc, address)?;
    Ok(Some(Job::Inspect(InspectJob::Path {
        from,
        address,
        choices,
    })))
}

// The choices that words spell, if each spells one.
fn choices_of(alloc: Global, words: &[&str]) -> Result<Option<Vec<u32>>, AllocError>
    ensures some { IfOk result (λ choices. IfSome choices
        (λ c. AreChoices (map (λ w. w.now) words.now) c.items)) }
    ensures none { IfOk result (λ choices. IfNone choices
        (HasNoChoice (map (λ w. w.now) words.now))) }
{
    let mut choices = Vec::with_capacity(alloc, words.len())?;
    for word in words {
        let Ok(choice) = word.parse::<u32>() else {
            return Ok(None);
        };
        choices.push(choice)?;
    }
    Ok(Some(choices))
}

// The values of `lsas`: its job, by its flags, if not both are given.
fn lsas_job(values: &ArgMatches<'_>) -> Option<Job>
    ensures { IsJobIfAny (Some (codes "lsas", rows_of (found_of values.now))) result }
{
    let drawn = has_flag(values, "dot");
    let json = has_flag(values, "json");
    match lsas_asked(drawn, json) {
        Some(asked) => Some(Job::Inspect(asked)),
        None => None,
    }
}

// What the flags of `lsas` ask for.
fn lsas_asked(drawn: bool, json: bool) -> Option<InspectJob>
    ensures { result ≡ lsas_asked drawn json }
{
    match (drawn, json) {
        (true, true) => None,
        (true, false) => Some(InspectJob::Drawing),
        (false, true) => Some(InspectJob::Lsas(Form::Json)),
        (false, false) => Some(InspectJob::Lsas(Form::Text)),
    }
}

// The values of `edit`: its job, if they have a change.
fn edit_job(alloc: Global, values: &ArgMatches<'_>) -> Result<Option<Job>, AllocError>
    ensures { IfOk result (IsJobIfAny (Some (codes "edit", rows_of (found_of values.now)))) }
{
    let down = all_of(values, "down").unwrap_or(&[]);
    let costs = all_of(values, "cost").unwrap_or(&[]);
    let drains = all_of(values, "drain").unwrap_or(&[]);
    if !has_change(down, costs, drains) {
        return Ok(None);
    }
    let down = owned(alloc, down)?;
    let costs = owned(alloc, costs)?;
    let drains = owned(alloc, drains)?;
    Ok(Some(Job::Edit(EditWords {
        down,
        costs,
        drains,
    })))
}

// Whether anything goes down, gets another cost or is drained.
fn has_change(down: &[&str], costs: &[&str], drains: &[&str]) -> bool
    ensures { IsTrue result ↔ ((down.now ≢ []) ⊎ (costs.now ≢ []) ⊎ (drains.now ≢ [])) }
{
    !down.is_empty() || !costs.is_empty() || !drains.is_empty()
}

// The values of `diff`: its job, if they have both files, which are not both standard input.
fn diff_job(alloc: Global, values: &ArgMatches<'_>) -> Result<Option<Job>, JobFault>
    ensures ok { IfOk result (IsJobIfAny (Some (codes "diff", rows_of (found_of values.now)))) }
    ensures fault { IfErr result (IsFaultOfValue
        (IsWrongValue (Some (codes "diff", rows_of (found_of values.now))))) }
{
    let Some(before) = word_of(values, "before") else {
        return Ok(None);
    };
    let Some(after) = word_of(values, "after") else {
        return Ok(None);
    };
    if are_both_input(before, after) {
        return Ok(None);
    }
    let root = router_if_any(alloc, word_of(values, "root"))?;
    let before = String::from_str(alloc, before)?;
    let after = String::from_str(alloc, after)?;
    Ok(Some(Job::Diff(DiffWords {
        before,
        after,
        root,
    })))
}

// Whether both names mean standard input.
fn are_both_input(before: &str, after: &str) -> bool
    ensures { IsTrue result ↔ ((before.now ≡ codes "-") × (after.now ≡ codes "-")) }
{
    before == STANDARD_INPUT && after == STANDARD_INPUT
}

// The router that a word spells, if there is one.
fn router_if_any(alloc: Global, word: Option<&str>) -> Result<Option<RouterId>, JobFault>
    ensures value { IfOk result (IsRouterIfAny (option_map (λ w. w.now) word.entry)) }
    ensures fault { IfErr result (IsFaultOfValue
        (λ w. (option_map (λ t. t.now) word.entry ≡ Some w) × IsNoRouter w)) }
{
    match word {
        Some(text) => Ok(Some(parsed(alloc, text)?)),
        None => Ok(None),
    }
}

// The values of `check`: its job, if they have files and no flags that do not go together.
fn check_job(alloc: Global, values: &ArgMatches<'_>) -> Result<Option<Job>, AllocError>
    ensures { IfOk result (IsJobIfAny (Some (codes "check", rows_of (found_of values.now)))) }
{
    let Some(files) = all_of(values, "files") else {
        return Ok(None);
    };
    let all = has_flag(values, "all");
    let json = has_flag(values, "json");
    let lines = has_flag(values, "json2");
    if are_apart(all, json, lines) {
        return Ok(None);
    }
    let files = owned(alloc, files)?;
    let explain = has_flag(values, "explain");
    let area = has_flag(values, "area");
    let how = telling_of(explain, all);
    Ok(Some(Job::Check(CheckJob {
        files,
        how,
        area,
        json,
        lines,
    })))
}

// Whether flags of `check` do not go together: JSON of version 1 has neither all faults of files
// nor what version 2 has.
fn are_apart(all: bool, json: bool, lines: bool) -> bool
    ensures { result ≡ (json && (all || lines)) }
{
    json && (all || lines)
}

// How much the flags of `check` ask for.
fn telling_of(explain: bool, all: bool) -> Telling
    ensures { result ≡ telling_of explain all }
{
    if all {
        return Telling::AllExplained;
    }
    if explain {
        Telling::Explained
    } else {
        Telling::Verdict
    }
}

// The texts of words.
fn owned(alloc: Global, words: &[&str]) -> Result<Vec<String>, AllocError>
    ensures { IfOk result (λ texts. map string_bytes texts.items ≡ map (λ w. w.now) words.now) }
{
    let mut texts = Vec::with_capacity(alloc, words.len())?;
    for word in words {
        texts.push(String::from_str(alloc, word)?)?;
    }
    Ok(texts)
}

// The values of `sim`: its job, if they have a script and files, and no JSON without a log.
fn sim_job(alloc: Global, values: &ArgMatches<'_>) -> Result<Option<Job>, AllocError>
    ensures { IfOk result (IsJobIfAny (Some (codes "sim", rows_of (found_of values.now)))) }
{
    let Some(script) = word_of(values, "script") else {
        return Ok(None);
    };
    let Some(files) = all_of(values, "files") else {
        return Ok(None);
    };
    let script = String::from_str(alloc, script)?;
    let files = owned(alloc, files)?;
    let dot = owned_if_any(alloc, word_of(values, "dot"))?;
    let pcap = owned_if_any(alloc, word_of(values, "pcap"))?;
    let log = owned_if_any(alloc, word_of(values, "log"))?;
    let json = has_flag(values, "json");
    if json && log.is_none() {
        return Ok(None);
    }
    Ok(Some(Job::Sim(SimJob {
        script,
        files,
        dot,
        pcap,
        log,
        json,
        strict: has_flag(values, "strict"),
    })))
}

// The text of a word, if there is one.
fn owned_if_any(alloc: Global, word: Option<&str>) -> Result<Option<String>, AllocError>
    ensures { IfOk result (λ text. option_map string_bytes text
        ≡ option_map (λ w. w.now) word.entry) }
{
    match word {
        Some(word) => Ok(Some(String::from_str(alloc, word)?)),
        None => Ok(None),
    }
}

// The values of `run`: its job, if they have the ticks and files.
fn run_job(alloc: Global, values: &ArgMatches<'_>) -> Result<Option<Job>, JobFault>
    ensures ok { IfOk result (IsJobIfAny (Some (codes "run", rows_of (found_of values.now)))) }
    ensures fault { IfErr result (IsFaultOfValue
        (IsWrongValue (Some (codes "run", rows_of (found_of values.now))))) }
{
    let Some(ticks) = values.get_one::<u64>("ticks") else {
        return Ok(None);
    };
    run_with(alloc, values, Some(ticks))
}

// The values of `run`: its job with these ticks, if they have files, and no JSON without a log.
fn run_with(
    alloc: Global,
    values: &ArgMatches<'_>,
    ticks: Option<u64>,
) -> Result<Option<Job>, JobFault>
    requires { HasTicks (rows_of (found_of values.now)) ticks }
    ensures some { IfOk result (λ found. IfSome found
        (IsRunWith (rows_of (found_of values.now)) ticks)) }
    ensures none { IfOk result (λ found. IfNone found
        (LacksInRun (rows_of (found_of values.now)))) }
    ensures fault { IfErr result (IsFaultOfValue
        (IsWrongValue (Some (codes "run", rows_of (found_of values.now))))) }
{
    let Some(milliseconds) = values.get_one::<u64>("tick") else {
        return Ok(None);
    };
    let Some(files) = all_of(values, "files") else {
        return Ok(None);
    };
    let files = owned(alloc, files)?;
    let lookup = parsed_if_any(alloc, word_of(values, "lookup"))?;
    let floor = owned_if_any(alloc, word_of(values, "floor"))?;
    let pcap = owned_if_any(alloc, word_of(values, "pcap"))?;
    let log = owned_if_any(alloc, word_of(values, "log"))?;
    let log_lsas = owned_if_any(alloc, word_of(values, "log-lsas"))?;
    let every = values.get_one::<u64>("every");
    let until_eof = has_flag(values, "until-eof");
    let neighbours = has_flag(values, "neighbours");
    let listing = has_flag(values, "listing");
    let lsdb = has_flag(values, "lsdb");
    let drops = has_flag(values, "drops");
    let json = has_flag(values, "json");
    if is_json_alone(json, &log, &log_lsas) {
        return Ok(None);
    }
    Ok(Some(Job::Run(RunJob {
        ticks,
        until_eof,
        milliseconds,
        lookup,
        floor,
        neighbours,
        listing,
        lsdb,
        drops,
        every,
        pcap,
        log,
        log_lsas,
        json,
        files,
    })))
}

// Whether JSON is wanted, and neither of two journals.
fn is_json_alone(json: bool, log: &Option<String>, log_lsas: &Option<String>) -> bool
    ensures { IsTrue result ↔ ((json ≡ true) × (log.now ≡ None) × (log_lsas.now ≡ None)) }
{
    json && log.is_none() && log_lsas.is_none()
}

// The address that a word spells, if there is one.
fn parsed_if_any(alloc: Global, word: Option<&str>) -> Result<Option<Addr>, JobFault>
    ensures value { IfOk result (IsAddressIfAny (option_map (λ w. w.now) word.entry)) }
    ensures fault { IfErr result (IsFaultOfValue
        (λ w. (option_map (λ t. t.now) word.entry ≡ Some w) × IsNoAddress w)) }
{
    match word {
        Some(word) => Ok(Some(parsed(alloc, word)?)),
        None => Ok(None),
    }
}

// The fault of words in which `clap` reads no job.
fn no_job(command: &mut Command<'_>, matches: &ArgMatches<'_>) -> JobFault
    ensures { IsFaultOfNoValue result }
{
    match command.error(ErrorKind::ArgumentConflict, apart(matches)) {
        Ok(error) => JobFault::from(error),
        Err(_) => JobFault::Memory,
    }
}

// Which words of the command that was entered do not go together.
fn apart(matches: &ArgMatches<'_>) -> &'static str {
    match matches.subcommand_name() {
        Some("table") => apart_in_table(matches),
        Some("failures") => apart_in_failures(matches),
        Some("lsas") => "--json cannot be combined with --dot",
        Some("edit") => "at least one of --down, --cost and --drain is needed",
        Some("diff") => "only one of BEFORE and AFTER can be `-`",
        Some("check") => "--json cannot be combined with --all or --json=2",
        Some("sim") => "--json needs --log",
        Some("run") => "--json needs --log or --log-lsas",
        _ => "these arguments cannot be combined",
    }
}

// The same for `table`, of which the versions of JSON are read first.
fn apart_in_table(matches: &ArgMatches<'_>) -> &'static str {
    match matches.subcommand_matches("table") {
        Some(values) if has_flag(values, "json2") => {
            "--json=2 cannot be combined with --json or --without, nor `all` with ADDRESS"
        }
        _ => "neither `all` nor --json can be combined with ADDRESS or --without",
    }
}

// The same for `failures`, which reads its forms before its carrier.
fn apart_in_failures(matches: &ArgMatches<'_>) -> &'static str {
    match matches.subcommand_matches("failures") {
        Some(values) if carrier_of(word_of(values, "carrier")).is_some() => {
            "only one of --json, --json=2 and --harm can be given"
        }
        _ => "CARRIER is `direct`, `switch` or `process`",
    }
}
