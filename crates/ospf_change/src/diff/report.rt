//! What changed between two databases that are read as lines of text.

ghost use Rattle.std.specs.Prelude.{◌≡◌, [], AllPairs, IfErr, IfOk, IfSome, string_bytes};
ghost use Rattle.ospf_graph.specs.EdgeLists.Listed.{advertisements_of};
ghost use Rattle.ospf_files.specs.Streams.{IsOfInput, written_on};
ghost use Rattle.ospf_table.specs.Line.{LeavesOut, Reads};
ghost use Rattle.ospf_whatif.specs.Single.{IsFailureBefore};
ghost use Rattle.ospf_change.specs.Diff.Elements.{AreElementsChanged};
ghost use Rattle.ospf_change.specs.Diff.Sights.{AreRootsAmong};
ghost use Rattle.ospf_change.specs.Diff.Report.{IsComparison, IsDiffPrinted, IsDiffResult, AreBothCompared, IsRefused, IsUncompared, IsUnread, WarnsOfDatabase, WarnsOfRoot, WarnsOfRouter, named_text};

use crate::diff::costs::{changes_text, cost_changes};
use crate::diff::elements::{elements_text, missing_elements};
use crate::diff::roots::all_routers;
use crate::diff::sights::sights_of;
use ospf_base::RouterId;
use ospf_files::{Failure, Report, Status, print_report};
use ospf_graph::edges::is_listed;
use ospf_lsa::Listing;
use ospf_table::{CountedListing, EntryFault, TableFault, left_out_text, read_counted};
use ospf_whatif::{AreaFailure, single_failures};
use std::alloc::{AllocError, Global};
use std::io::{BufRead, Write};

/// What is asked of two databases.
#[derive(Clone, Copy, Debug, PartialEq, Eq)]
pub struct DiffJob {
    /// The router whose tables are compared; `None` for each router that either database lists.
    pub root: Option<RouterId>,
}

/// What the two databases are called in warnings and refusals: the names of their files.
#[derive(Clone, Copy, Debug, PartialEq, Eq)]
pub struct DiffNames<'a> {
    pub before: &'a str,
    pub after: &'a str,
}

// Why there is no comparison.
#[derive(Drop)]
pub(crate) enum Unread {
    // A line is refused, with this message.
    Refused(String),
    // Memory ran out, or a database was not read.
    Failure(Failure),
}

impl From<AllocError> for Unread {
    ghost use Rattle.std.specs.Prelude.{◌≡◌};
    ghost use Rattle.ospf_files.specs.declared.status.Failure.TheVariants as failure;
    ghost use Rattle.ospf_change.specs.declared.diff.report.Unread.TheVariants as fault;

    ghost from_gives = { λ _ f. f ≡ fault.Failure failure.Memory };

    fn from(_error: AllocError) -> Unread {
        Unread::Failure(Failure::Memory)
    }
}

/// Compares two databases of an area, each a text of LSAs, one a line in hexadecimal as
/// `ospf_table::table_text` reads them.
///
/// The text is lines: `- NAME` for each link, attachment, network and router that went and `+ NAME`
/// for each that came, by the names of `ospf_whatif::AreaFailure`; `cost R ADDRESS to R: N -> N`
/// for each interface that stayed at another cost; `R lost|gained|longer|shorter|rerouted PREFIX
/// ..` for each route that differs in the tables of the router that is asked for, or of all; and
/// how many these are.
///
/// The status is 1 where a route is lost, and else 0. The warnings say for each database how many
/// LSAs were left out at MaxAge, and that the router that is asked for has no router-LSA there.
/// Where a line is refused the report is its refusal, with status 3. Warnings and refusals begin
/// with the name of the database.
///
/// The error is that memory ran out, or that a database was not read to its end.
pub fn diff_report<B: BufRead + Drop, A: BufRead + Drop>(
    alloc: Global,
    job: &DiffJob,
    names: DiffNames,
    before: B,
    after: A,
) -> Result<Report, Failure>
    ensures { IsDiffResult job.now names.entry (B.remaining before) (A.remaining after) result }
{
    match compared(alloc, job, names, before, after) {
        Ok(report) => Ok(report),
        Err(Unread::Refused(warnings)) => Ok(refusal(alloc, warnings)),
        Err(Unread::Failure(failure)) => Err(failure),
    }
}

/// Compares two databases, as `diff_report`, and prints the report, as `ospf_files::print_report`.
/// The result is the exit status.
pub fn diff_text<B: BufRead + Drop, A: BufRead + Drop, O: Write, E: Write>(
    alloc: Global,
    job: &DiffJob,
    names: DiffNames,
    before: B,
    after: A,
    out: &mut O,
    err: &mut E,
) -> u8
    ensures { IsDiffPrinted job.now names.entry (B.remaining before) (A.remaining after)
        (written_on (O.contents out.old) (E.contents err.old))
        (written_on (O.contents out.new) (E.contents err.new)) result }
{
    print_report(diff_report(alloc, job, names, before, after), out, err)
}

// The report of a refusal.
fn refusal(alloc: Global, warnings: String) -> Report
    ensures warnings { string_bytes result.warnings ≡ string_bytes warnings }
    ensures text { string_bytes result.text ≡ [] }
    ensures status { result.status ≡ 3 }
{
    Report {
        warnings,
        text: String::new(alloc),
        status: Status::Refused.code(),
    }
}

// The report of two databases that are read.
fn compared<B: BufRead + Drop, A: BufRead + Drop>(
    alloc: Global,
    job: &DiffJob,
    names: DiffNames,
    before: B,
    after: A,
) -> Result<Report, Unread>
    ensures report { IfOk result (λ report. IfSome (B.remaining before) (λ old.
        IfSome (A.remaining after) (λ new. AreBothCompared job.now names.entry old new report))) }
    ensures fault { IfErr result
        (IsUncompared names.entry (B.remaining before) (A.remaining after)) }
{
    let old = area_of(alloc, names.before, before)?;
    let new = area_of(alloc, names.after, after)?;
    let mut warnings = warnings_of(alloc, names.before, &old, job.root)?;
    warnings.push_str(&warnings_of(alloc, names.after, &new, job.root)?)?;
    let compared = compare(alloc, job.root, &old.listing, &new.listing)?;
    Ok(Report {
        warnings,
        text: compared.text,
        status: compared.status,
    })
}

// The LSAs of a database.
fn area_of<R: BufRead + Drop>(alloc: Global, name: &str, input: R) -> Result<CountedListing, Unread>
    ensures whole { IfOk result (λ read. IfSome (R.remaining input)
        (λ bytes. Reads bytes [] read.listing)) }
    ensures counted { IfOk result (λ read. IfSome (R.remaining input)
        (λ bytes. LeavesOut bytes read.left_out)) }
    ensures fault { IfErr result (IsUnread name.now (R.remaining input)) }
{
    match read_counted(alloc, input) {
        Ok(read) => Ok(read),
        Err(TableFault::Entry { number, fault }) => Err(line_refused(alloc, name, number, fault)),
        Err(TableFault::Failure(failure)) => Err(Unread::Failure(failure)),
    }
}

// The refusal of a line.
fn line_refused(alloc: Global, name: &str, number: u64, fault: EntryFault) -> Unread
    ensures { IsRefused name.now number fault result }
{
    match format!(in alloc; "{name}: line {number}: {}\n", fault.text()) {
        Ok(text) => Unread::Refused(text),
        Err(error) => Unread::from(error),
    }
}

// The warnings about a database: how many LSAs were left out, and that the root is not listed.
fn warnings_of(
    alloc: Global,
    name: &str,
    read: &CountedListing,
    root: Option<RouterId>,
) -> Result<String, AllocError>
    ensures { IfOk result (λ text. WarnsOfDatabase name.now read.now.left_out
        (advertisements_of read.now.listing) root (string_bytes text)) }
{
    let left_out = left_out_text(alloc, read.left_out)?;
    let mut text = named(alloc, name, &left_out)?;
    let unlisted = root_text(alloc, &read.listing, root)?;
    text.push_str(&named(alloc, name, &unlisted)?)?;
    Ok(text)
}

// The warning about the root that is asked for: that its router-LSA is not listed.
fn root_text(alloc: Global, listing: &Listing, root: Option<RouterId>) -> Result<String, AllocError>
    ensures { IfOk result (λ text. WarnsOfRoot (advertisements_of listing.now) root
        (string_bytes text)) }
{
    match root {
        Some(router) => unlisted_text(alloc, listing, router),
        None => Ok(String::new(alloc)),
    }
}

// A line after the name of a database; nothing if there is no line.
fn named(alloc: Global, name: &str, line: &str) -> Result<String, AllocError>
    ensures { IfOk result (λ text. string_bytes text ≡ named_text name.now line.now) }
{
    if line.is_empty() {
        Ok(String::new(alloc))
    } else {
        Ok(format!(in alloc; "{name}: {line}")?)
    }
}

// That a router has no router-LSA, where none is listed.
fn unlisted_text(alloc: Global, listing: &Listing, router: RouterId) -> Result<String, AllocError>
    ensures { IfOk result (λ text. WarnsOfRouter (advertisements_of listing.now) router
        (string_bytes text)) }
{
    if is_listed(listing, router) {
        return Ok(String::new(alloc));
    }
    let text = format!(in alloc; "{router}: no router-LSA of this router\n")?;
    Ok(text)
}

// What differs between two areas, and the status to end with.
#[derive(Drop)]
pub(crate) struct Comparison {
    text: String,
    status: u8,
}

// Compares two areas.
fn compare(
    alloc: Global,
    root: Option<RouterId>,
    before: &Listing,
    after: &Listing,
) -> Result<Comparison, AllocError>
    ensures { IfOk result (λ compared. IsComparison (advertisements_of before.now)
        (advertisements_of after.now) root (string_bytes compared.text) compared.status) }
{
    let old = single_failures(alloc, before)?;
    let new = single_failures(alloc, after)?;
    let mut text = elements_changed(alloc, &old, &new)?;
    let costs = cost_changes(alloc, before, after)?;
    text.push_str(&changes_text(alloc, &costs)?)?;
    let routers = roots_of(alloc, root, &old, &new)?;
    let sights = sights_of(alloc, before, after, &routers)?;
    text.push_str(&sights.text(alloc)?)?;
    let status = sights.status();
    Ok(Comparison { text, status })
}

// The lines of the elements that went and of those that came.
fn elements_changed(
    alloc: Global,
    before: &[AreaFailure],
    after: &[AreaFailure],
) -> Result<String, AllocError>
    requires before { AllPairs IsFailureBefore before.now }
    requires after { AllPairs IsFailureBefore after.now }
    ensures { IfOk result (λ text. AreElementsChanged before.now after.now (string_bytes text)) }
{
    let went = missing_elements(alloc, before, after)?;
    let came = missing_elements(alloc, after, before)?;
    let mut text = elements_text(alloc, "-", &went)?;
    text.push_str(&elements_text(alloc, "+", &came)?)?;
    Ok(text)
}

// The router that is asked for, or all routers among the elements.
fn roots_of(
    alloc: Global,
    root: Option<RouterId>,
    before: &[AreaFailure],
    after: &[AreaFailure],
) -> Result<Vec<RouterId>, AllocError>
    ensures { IfOk result (λ routers. AreRootsAmong before.now after.now root routers.items) }
{
    match root {
        Some(router) => Ok(vec![in alloc; router]?),
        None => all_routers(alloc, before, after),
    }
}
