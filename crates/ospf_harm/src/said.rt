//! What is printed of the failures of an area at a router.

ghost use Rattle.std.specs.Prelude.{◌≡◌, IfOk, IsPermutation, string_bytes};
ghost use Rattle.std.specs.List.Sorted.{IsSorted};
ghost use Rattle.ospf_graph.specs.EdgeLists.Listed.{advertisements_of};
ghost use Rattle.ospf_harm.specs.Asked.{IsAllPrinted};
ghost use Rattle.ospf_harm.specs.Cases.{AreCases};
ghost use Rattle.ospf_harm.specs.HarmLines.{report_harm_cmp};
ghost use Rattle.ospf_harm.specs.Reports.{AreReportsFound};
ghost use Rattle.ospf_harm.specs.Said.{AreShownReports, SaysChanges, changes_text, form_head};

use crate::asked::{FailuresForm, FailuresStatus, RouterFailures, end_of};
use crate::carrier::hidden_costs_by;
use crate::cases::FailureCases;
use crate::hidden::HiddenCost;
use crate::report::{
    Report, has_cut, reports_harm_text, reports_json, reports_lines, reports_text, sort_reports,
    sort_reports_by_harm,
};
use ospf_graph::edges::is_listed;
use ospf_lsa::Listing;
use ospf_table::{CountedListing, head_line};
use std::alloc::{AllocError, Global};

/// What is printed on standard output, and the status to end with.
#[derive(Drop)]
pub struct PrintedText {
    pub text: String,
    pub end: FailuresStatus,
}

impl PrintedText {
    ghost use Rattle.std.specs.Prelude.{◌≡◌, ◌++◌, IfOk, string_bytes};

    /// The same below another text.
    ///
    /// `AllocError` where memory runs out.
    pub fn below(self, head: String) -> Result<PrintedText, AllocError>
        ensures text { IfOk result (λ said. string_bytes said.text
            ≡ string_bytes head ++ string_bytes self.text) }
        ensures end { IfOk result (λ said. said.end ≡ self.end) }
    {
        let mut text = head;
        text.push_str(&self.text)?;
        Ok(PrintedText {
            text,
            end: self.end,
        })
    }
}

/// What is printed of the failures of an area at a router, by what each of them changes there.
///
/// `AllocError` where memory runs out.
pub fn changes_said(
    alloc: Global,
    listing: &Listing,
    asked: &RouterFailures,
    cases: &FailureCases,
    reports: Vec<Report>,
) -> Result<PrintedText, AllocError>
    requires cases { AreCases asked.now.carrier (advertisements_of listing.now) asked.now.root
        cases.now }
    requires found { AreReportsFound (advertisements_of listing.now) cases.now reports.items }
    ensures said { IfOk result (λ said. SaysChanges asked.now (advertisements_of listing.now)
        (string_bytes said.text) said.end) }
    ensures whole { IfOk result (λ said. IsAllPrinted said.end) }
{
    // For the proof.
    let _cases = cases;
    let mut printed = reports;
    sort_reports(&mut printed);
    let hidden = hidden_costs_by(alloc, asked.carrier, listing)?;
    let end = end_of(
        asked.strict,
        has_cut(&printed),
        is_listed(listing, asked.root),
    );
    let shown = shown_reports(asked.form, printed);
    let text = changes_text(alloc, &shown, asked, &hidden)?;
    Ok(PrintedText { text, end })
}

/// The line before those of failures in a form: in version 2 of the JSON what was read, and the
/// warnings.
///
/// `AllocError` where memory runs out.
pub fn form_head(
    alloc: Global,
    form: FailuresForm,
    read: &CountedListing,
    warning: &str,
) -> Result<String, AllocError>
    ensures { IfOk result (λ text. string_bytes text
        ≡ form_head form read.now.listing read.now.left_out warning.now) }
{
    match form {
        FailuresForm::JsonLines => head_line(alloc, &read.listing, read.left_out, warning),
        FailuresForm::Text => Ok(String::new(alloc)),
        FailuresForm::Json => Ok(String::new(alloc)),
        FailuresForm::Harm => Ok(String::new(alloc)),
    }
}

// Reports in the order of a form.
fn shown_reports(form: FailuresForm, reports: Vec<Report>) -> Vec<Report>
    ensures { AreShownReports form reports.items result.items }
{
    match form {
        FailuresForm::Text => reports,
        FailuresForm::Json => reports,
        FailuresForm::JsonLines => reports_by_harm(reports),
        FailuresForm::Harm => reports_by_harm(reports),
    }
}

// Reports by harm.
fn reports_by_harm(reports: Vec<Report>) -> Vec<Report>
    ensures same { IsPermutation reports.items result.items }
    ensures in_order { IsSorted report_harm_cmp result.items }
{
    let mut shown = reports;
    sort_reports_by_harm(&mut shown);
    shown
}

// Reports in a form.
fn changes_text(
    alloc: Global,
    printed: &[Report],
    asked: &RouterFailures,
    hidden: &[HiddenCost],
) -> Result<String, AllocError>
    ensures { IfOk result (λ text. string_bytes text
        ≡ changes_text asked.now hidden.now printed.now) }
{
    let (root, each) = (asked.root, asked.each);
    match asked.form {
        FailuresForm::Text => reports_text(alloc, printed, each),
        FailuresForm::Json => reports_json(alloc, printed, root, each, hidden),
        FailuresForm::JsonLines => reports_lines(alloc, printed, root, each, hidden),
        FailuresForm::Harm => reports_harm_text(alloc, printed, each),
    }
}
