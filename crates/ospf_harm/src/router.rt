//! The failures of an area at one router, as a command answers it without threads.

ghost use Rattle.std.specs.Prelude.{IfOk, List, ℕ, string_bytes, []};
ghost use Rattle.ospf_graph.specs.EdgeLists.Listed.{advertisements_of};
ghost use Rattle.ospf_table.specs.Line.{LeavesOut, Reads};
ghost use Rattle.ospf_whatif.specs.Failure.{HasLarge};
ghost use Rattle.ospf_harm.specs.Asked.{IsAllPrinted, IsRebuiltFor};
ghost use Rattle.ospf_harm.specs.Router.{IsRouterReport, IsRouterResult};
ghost use Rattle.ospf_harm.specs.Said.{SaysChanges};

use crate::asked::RouterFailures;
use crate::cases::{cases_of, reports_in_turn};
use crate::input::{Unread, read_area};
use crate::said::{PrintedText, changes_said, form_head};
use crate::warnings::router_warnings;
use ospf_files::{Failure, Report, Status};
use ospf_lsa::Listing;
use ospf_table::{CountedListing, refusal};
use std::alloc::{AllocError, Global};
use std::io::BufRead;

/// Reads LSAs, one per line in hexadecimal as `ospf_table::table_text` does, and reports what each
/// single failure but the root's own changes in the root's routing table. It is the report of
/// `ospfd failures ROOT`, calculated one failure after the other.
///
/// The failures that cut off the most prefixes come first. With `each` there is one line per
/// changed prefix, then a line with the counts. As JSON (RFC 8259) it is one array, or in version 2
/// an object on each line.
///
/// If the root's router-LSA is not listed, the warnings say so. They also name the stub routers
/// that a failure leaves as the only router on a network, at a cost that no LSA contains, and say
/// why routes may be missing (`ospf_table::reasons_text`).
///
/// The status is 0. With `strict` it is 1 if some failure cuts a prefix off, or if the root's
/// router-LSA is not listed. The first line that is refused, or with the carrier `Direct` the first
/// router whose router-LSA has more than 1,361 links, is reported in the warnings, with status 3
/// and no text.
///
/// The error says that memory ran out, or that a read failed.
pub fn failures_report<R: BufRead + Drop>(
    alloc: Global,
    asked: &RouterFailures,
    input: R,
) -> Result<Report, Failure>
    ensures { IsRouterResult asked.now (R.remaining input) result }
{
    match read_area(alloc, asked.is_rebuilding(), input) {
        Ok(read) => {
            let report = report_at(alloc, asked, &read)?;
            Ok(report)
        }
        Err(Unread::Refused(text)) => Ok(refusal(alloc, text, Status::Refused)),
        Err(Unread::Failure(failure)) => Err(failure),
    }
}

// The report for LSAs that are read.
fn report_at(
    alloc: Global,
    asked: &RouterFailures,
    read: &CountedListing,
) -> Result<Report, AllocError>
    requires { IsRebuiltFor asked.now → HasLarge (advertisements_of read.now.listing) → ⊥ }
    ensures { (bytes : List ℕ) → Reads bytes [] read.now.listing →
        LeavesOut bytes read.now.left_out → IfOk result (IsRouterReport asked.now bytes) }
{
    let warnings = router_warnings(alloc, &read.listing, asked.root, asked.carrier)?;
    let head = form_head(alloc, asked.form, read, &warnings)?;
    let body = changes_in_turn(alloc, &read.listing, asked)?;
    let said = body.below(head)?;
    Ok(Report {
        warnings,
        text: said.text,
        status: said.end.code(),
    })
}

// What each failure changes at the root, one after the other.
fn changes_in_turn(
    alloc: Global,
    listing: &Listing,
    asked: &RouterFailures,
) -> Result<PrintedText, AllocError>
    requires { IsRebuiltFor asked.now → HasLarge (advertisements_of listing.now) → ⊥ }
    ensures said { IfOk result (λ said. SaysChanges asked.now (advertisements_of listing.now)
        (string_bytes said.text) said.end) }
    ensures whole { IfOk result (λ said. IsAllPrinted said.end) }
{
    let cases = cases_of(alloc, listing, asked.carrier, asked.root)?;
    let reports = reports_in_turn(alloc, listing, &cases)?;
    changes_said(alloc, listing, asked, &cases, reports)
}
