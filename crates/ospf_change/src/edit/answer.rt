//! The command that changes LSAs, which are read and printed as lines of text.

ghost use Rattle.std.specs.Prelude.{◌≡◌, ◌≢◌, [], All, IfNone, IfOk, IfSome, string_bytes};
ghost use Rattle.ospf_graph.specs.EdgeLists.Listed.{advertisements_of};
ghost use Rattle.ospf_files.specs.Status.{code_of};
ghost use Rattle.ospf_files.specs.Streams.{written_on};
ghost use Rattle.ospf_whatif.specs.Failure.{HasLarge};
ghost use Rattle.ospf_change.specs.Edit.Answer.{HasWords, IsChangedReport, IsEditPrinted, IsEditResult, IsEditReportOf, ReportSays};
ghost use Rattle.ospf_change.specs.Edit.Change.{AreChangedBy, HasRightCost};
ghost use Rattle.ospf_change.specs.Edit.Large.{IsFirstTooLarge, too_large_line};
ghost use Rattle.ospf_change.specs.Edit.Lines.{hex_lines, lsa_line};
ghost use Rattle.hex.specs.Hex.{IsBytes};
ghost use Rattle.ospf_table.specs.Refusal.{refusal_line};

use crate::edit::applied::apply;
use crate::edit::change::Change;
use crate::edit::large::first_large;
use crate::edit::words::{EditJob, WordFault, changes_of};
use ospf_base::RouterId;
use ospf_files::{Failure, Report, Status, print_report};
use ospf_lsa::{Listing, Lsa};
use ospf_table::{CountedListing, EntryFault, TableFault, left_out_text, read_counted};
use ospf_whatif::WithoutFault;
use std::alloc::{AllocError, Global};
use std::io::{BufRead, Write};

/// Reads LSAs, one a line in hexadecimal as `ospf_table::table_text` does, and prints those of
/// their area after changes (`apply`), in the same form: what goes down, then new costs, then
/// drained routers, each in the order of its words. The result is the exit status.
///
/// `err` reports how many LSAs were left out at `MAX_AGE`, if any were. It names the first refused
/// line or, if the job changes something, the first router with more than 1,361 links; the status
/// is 3 then. Otherwise it names the first word that names nothing in the area, with status 2. In
/// these cases nothing is printed. Status 4 means that memory ran out, and 5 that a read or a write
/// failed, as in `ospf_files::print_report`.
pub fn edit_text<R: BufRead + Drop, O: Write, E: Write>(
    alloc: Global,
    job: &EditJob,
    input: R,
    out: &mut O,
    err: &mut E,
) -> u8
    ensures { IsEditPrinted job.now (R.remaining input)
        (written_on (O.contents out.old) (E.contents err.old))
        (written_on (O.contents out.new) (E.contents err.new)) result }
{
    print_report(edit_report(alloc, job, input), out, err)
}

/// What `edit_text` prints, and the status that it ends with.
///
/// The error is `Memory` where memory ran out, or `Input` where a read failed.
pub fn edit_report<R: BufRead + Drop>(
    alloc: Global,
    job: &EditJob,
    input: R,
) -> Result<Report, Failure>
    ensures { IsEditResult job.now (R.remaining input) result }
{
    match read_counted(alloc, input) {
        Ok(read) => {
            let report = report_of(alloc, job, read)?;
            Ok(report)
        }
        Err(TableFault::Entry { number, fault }) => {
            let report = line_refused(alloc, number, fault)?;
            Ok(report)
        }
        Err(TableFault::Failure(failure)) => Err(failure),
    }
}

// The refusal of a line.
fn line_refused(alloc: Global, number: u64, fault: EntryFault) -> Result<Report, AllocError>
    ensures { IfOk result (λ report. ReportSays report (refusal_line number fault) [] 3) }
{
    let line = format!(in alloc; "line {number}: {}\n", fault.text())?;
    Ok(refusal(alloc, line, Status::Refused))
}

// The refusal of a router with too many links.
fn router_refused(alloc: Global, router: RouterId) -> Result<Report, AllocError>
    ensures { IfOk result (λ report. ReportSays report (too_large_line router) [] 3) }
{
    let line = format!(in alloc; "{router}: more than 1361 links\n")?;
    Ok(refusal(alloc, line, Status::Refused))
}

// A report of a line on standard error alone.
fn refusal(alloc: Global, line: String, status: Status) -> Report
    ensures { ReportSays result (string_bytes line) [] (code_of status) }
{
    Report {
        warnings: line,
        text: String::new(alloc),
        status: status.code(),
    }
}

// The report of a listing.
fn report_of(alloc: Global, job: &EditJob, read: CountedListing) -> Result<Report, AllocError>
    ensures { IfOk result (IsEditReportOf job.now read.listing read.left_out) }
{
    if let Some(router) = large_router(job, &read.listing) {
        return router_refused(alloc, router);
    }
    match changes_of(alloc, &read.listing, job) {
        Ok(changes) => edited(alloc, read, &changes),
        Err(WordFault::Word(line)) => Ok(refusal(alloc, line, Status::Words)),
        Err(WordFault::Memory) => Err(AllocError),
    }
}

// The first router with too many links, if the job changes something.
fn large_router(job: &EditJob, listing: &Listing) -> Option<RouterId>
    ensures some { IfSome result (λ router. HasWords job.now × IsFirstTooLarge listing.now router) }
    ensures none { IfNone result (HasWords job.now →
        HasLarge (advertisements_of listing.now) → ⊥) }
{
    if job.has_words() {
        first_large(listing)
    } else {
        None
    }
}

// The report of a listing after changes.
fn edited(alloc: Global, read: CountedListing, changes: &[Change]) -> Result<Report, AllocError>
    requires costs { All HasRightCost changes.now }
    requires small { changes.now ≢ [] → HasLarge (advertisements_of read.listing) → ⊥ }
    ensures { IfOk result (IsChangedReport changes.now read.listing read.left_out) }
{
    let warnings = left_out_text(alloc, read.left_out)?;
    let after = applied(alloc, read.listing, changes)?;
    let text = hex_lines(alloc, &after)?;
    Ok(Report {
        warnings,
        text,
        status: Status::Done.code(),
    })
}

// A listing without large router-LSAs after changes.
fn applied(alloc: Global, listing: Listing, changes: &[Change]) -> Result<Listing, AllocError>
    requires costs { All HasRightCost changes.now }
    requires small { changes.now ≢ [] → HasLarge (advertisements_of listing) → ⊥ }
    ensures { IfOk result (AreChangedBy changes.now listing) }
{
    match apply(alloc, listing, changes) {
        Ok(after) => Ok(after),
        Err(WithoutFault::Memory) => Err(AllocError),
        Err(WithoutFault::Links) => unreachable!(),
    }
}

// The LSAs of a listing as lines.
fn hex_lines(alloc: Global, listing: &Listing) -> Result<String, AllocError>
    ensures text { IfOk result (λ text. string_bytes text ≡ hex_lines listing.now) }
    ensures bytes { IfOk result (λ text. All IsBytes listing.now) }
{
    let mut text = String::new(alloc);
    for lsa in listing.lsas() {
        let line = lsa_line(alloc, lsa)?;
        text.push_str(&line)?;
    }
    Ok(text)
}

// An LSA as a line.
fn lsa_line(alloc: Global, lsa: &Lsa) -> Result<String, AllocError>
    ensures text { IfOk result (λ text. string_bytes text ≡ lsa_line lsa.now) }
    ensures bytes { IsBytes lsa.now }
{
    let view = lsa.view();
    hex_line(alloc, view.as_bytes())
}

// Bytes as a line of hexadecimal digits.
fn hex_line(alloc: Global, bytes: &[u8]) -> Result<String, AllocError>
    ensures text { IfOk result (λ text. string_bytes text ≡ lsa_line bytes.now) }
    ensures bytes { IsBytes bytes.now }
{
    let mut line = hex::encode(alloc, bytes)?;
    line.push_str("\n")?;
    Ok(line)
}
