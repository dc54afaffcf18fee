//! What fails in an area but a router, and what each of these failures changes in its table.

ghost use Rattle.std.specs.Prelude.{◌≡◌, ◌↔◌, All, AllPairs, Contains, IfOk, List};
ghost use Rattle.ospf_graph.specs.Advertisements.{Advertisement};
ghost use Rattle.ospf_graph.specs.EdgeLists.Listed.{advertisements_of};
ghost use Rattle.ospf_whatif.specs.Failure.{HasLarge};
ghost use Rattle.ospf_whatif.specs.Outage.{IsAreaGraph};
ghost use Rattle.ospf_whatif.specs.Single.{AreFailures, IsFailureBefore};
ghost use Rattle.ospf_whatif.specs.declared.failure.AreaFailure.{AreaFailure};
ghost use Rattle.ospf_harm.specs.Cases.{AreCases, IsAreaBefore, IsTableBefore};
ghost use Rattle.ospf_harm.specs.Reports.{AreReportsFound, IsOtherFailure, IsReportOf, is_of};
ghost use Rattle.ospf_harm.specs.Together.{IsComputable};

use crate::carrier::{Breakdown, Carrier, breakdowns, failures_by};
use crate::report::Report;
use ospf_base::RouterId;
use ospf_lsa::Listing;
use ospf_spf::RouteTable;
use ospf_whatif::{AreaFailure, AreaGraph, KeptRoot, Outage, single_failures};
use std::alloc::{AllocError, Global};

/// A router, its table and its shortest paths before anything fails.
#[derive(Drop)]
pub struct Before {
    pub root: RouterId,
    pub table: RouteTable,
    pub kept: KeptRoot,
}

/// The failures that are looked at from a router, each with all that happens together with it.
#[derive(Drop)]
pub struct FailureCases {
    /// The graph of the area before anything fails.
    pub area: AreaGraph,
    pub before: Before,
    pub breakdowns: Vec<Breakdown>,
}

/// The failures of an area but that of the root. The carrier decides which there are and what fails
/// together. With `Direct` no router-LSA may have more than 1,361 links.
///
/// `AllocError` where memory runs out.
pub fn cases_of(
    alloc: Global,
    listing: &Listing,
    carrier: Carrier,
    root: RouterId,
) -> Result<FailureCases, AllocError>
    requires { carrier ≡ Carrier.Direct → HasLarge (advertisements_of listing.now) → ⊥ }
    ensures { IfOk result (AreCases carrier (advertisements_of listing.now) root) }
{
    let single = single_failures(alloc, listing)?;
    let failures = other_failures(alloc, carrier, &single, root)?;
    let breakdowns = breakdowns(alloc, carrier, &single, &failures)?;
    let area = AreaGraph::of(alloc, listing)?;
    let before = before_of(alloc, listing, &area, root)?;
    Ok(FailureCases {
        area,
        before,
        breakdowns,
    })
}

/// What each of these failures changes in the root's table, one after the other.
///
/// `AllocError` where memory runs out.
pub fn reports_in_turn(
    alloc: Global,
    listing: &Listing,
    cases: &FailureCases,
) -> Result<Vec<Report>, AllocError>
    requires ready { IsAreaBefore (advertisements_of listing.now) cases.now }
    requires small { All (IsComputable (advertisements_of listing.now))
        cases.now.breakdowns.items }
    // One report a failure, in their order.
    ensures { IfOk result (λ reports. AreReportsFound (advertisements_of listing.now) cases.now
        reports.items) }
{
    let mut reports = Vec::new(alloc);
    for breakdown in &cases.breakdowns {
        reports.push(report_of(alloc, listing, cases, breakdown)?)?;
    }
    Ok(reports)
}

/// What a failure changes in the root's table, with all that fails together with it.
///
/// `AllocError` where memory runs out.
pub fn report_of(
    alloc: Global,
    listing: &Listing,
    cases: &FailureCases,
    breakdown: &Breakdown,
) -> Result<Report, AllocError>
    requires ready { IsAreaBefore (advertisements_of listing.now) cases.now }
    requires small { IsComputable (advertisements_of listing.now) breakdown.now }
    // The report names the failure, and has what all its parts change in the table.
    ensures { IfOk result (IsReportOf (advertisements_of listing.now) cases.now.before.root
        cases.now.before.table breakdown.now) }
{
    let (area, before) = (&cases.area, &cases.before);
    let outage = Outage::of_all(alloc, listing, area, &breakdown.parts)?;
    let changes = before
        .kept
        .effect(alloc, listing, area, &outage, &before.table)?;
    Ok(Report::of(breakdown.failure, changes))
}

/// A router, its table and its shortest paths.
///
/// `AllocError` where memory runs out.
pub fn before_of(
    alloc: Global,
    listing: &Listing,
    area: &AreaGraph,
    root: RouterId,
) -> Result<Before, AllocError>
    requires { IsAreaGraph (advertisements_of listing.now) area.now }
    ensures root { IfOk result (λ before. before.root ≡ root) }
    ensures before { IfOk result (IsTableBefore (advertisements_of listing.now)) }
{
    let table = RouteTable::of(alloc, listing, root)?;
    let kept = KeptRoot::of(alloc, area, root)?;
    Ok(Before { root, table, kept })
}

// The failures of an area except that of the root, from all that may fail in it.
fn other_failures(
    alloc: Global,
    carrier: Carrier,
    single: &[AreaFailure],
    root: RouterId,
) -> Result<Vec<AreaFailure>, AllocError>
    requires { AllPairs IsFailureBefore single.now }
    ensures all { IfOk result (λ failures. (adverts : List Advertisement) →
        AreFailures adverts single.now → (f : AreaFailure) →
        Contains failures.items f ↔ IsOtherFailure carrier adverts root f) }
    ensures rising { IfOk result (λ failures. AllPairs IsFailureBefore failures.items) }
{
    let mut failures = failures_by(alloc, carrier, single)?;
    failures.retain(|failure| !is_of(failure, root));
    Ok(failures)
}

/// Whether a failure is that of a router.
pub fn is_of(failure: &AreaFailure, router: RouterId) -> bool
    ensures { result ≡ is_of router failure.now }
{
    match *failure {
        AreaFailure::Router(gone) => gone.0 == router.0,
        AreaFailure::Link { .. } => false,
        AreaFailure::End { .. } => false,
        AreaFailure::Links { .. } => false,
        AreaFailure::Attachment { .. } => false,
        AreaFailure::Network(_) => false,
        AreaFailure::Stub { .. } => false,
    }
}
