//! What each failure of an area changes in a router's table, in several threads.

ghost use Rattle.std.specs.Prelude.{All, IfOk};
ghost use Rattle.ospf_graph.specs.EdgeLists.Listed.{advertisements_of};
ghost use Rattle.ospf_harm.specs.Cases.{IsAreaBefore};
ghost use Rattle.ospf_harm.specs.Reports.{AreReportsFound, IsReportOf};
ghost use Rattle.ospf_harm.specs.Together.{IsComputable};

use ospf_harm::{Breakdown, FailureCases, Report, report_of};
use ospf_lsa::Listing;
use rayon::prelude::*;
use std::alloc::{AllocError, Global};
use std::thread::Threads;

/// What each of these failures changes in the root's table, as `ospf_harm::reports_in_turn`.
///
/// `AllocError` where memory runs out.
pub fn reports_in_threads(
    alloc: Global,
    rt: &(impl Threads + Sync),
    listing: &Listing,
    cases: &FailureCases,
) -> Result<Vec<Report>, AllocError>
    requires ready { IsAreaBefore (advertisements_of listing.now) cases.now }
    requires small { All (IsComputable (advertisements_of listing.now))
        cases.now.breakdowns.items }
    // One report a failure, in their order.
    ensures { IfOk result (λ reports. AreReportsFound (advertisements_of listing.now) cases.now
        reports.items) }
{
    let breakdowns: &[Breakdown] = &cases.breakdowns;
    breakdowns
        .par_iter()
        .with_min_len(1)
        .map(
            |breakdown: &Breakdown| -> Result<Report, AllocError>
                requires ready { IsAreaBefore (advertisements_of listing.now) cases.now }
                requires small { IsComputable (advertisements_of listing.now) breakdown.now }
                ensures { IfOk result (IsReportOf (advertisements_of listing.entry.now)
                    cases.entry.now.before.root cases.entry.now.before.table breakdown.now) }
            { report_of(alloc, listing, cases, breakdown) },
        )
        .collect::<Result<Vec<Report>, AllocError>>(rt, alloc)?
}
