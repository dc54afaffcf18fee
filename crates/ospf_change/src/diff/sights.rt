//! What differs in the tables of routers between two areas.

ghost use Rattle.std.specs.Prelude.{◌≡◌, ◌++◌, [], IfOk, OnOk, flat_map, string_bytes};
ghost use Rattle.ospf_graph.specs.EdgeLists.Listed.{advertisements_of};
ghost use Rattle.ospf_change.specs.Diff.Sights.{AreSeen, IsRouterDifference, SeesOneMore};
ghost use Rattle.ospf_change.specs.Diff.Sums.{HasDifferenceRoom, status_by, difference_sums_line, difference_sums_of};
ghost use Rattle.ospf_change.specs.Diff.Text.{difference_line};

use crate::diff::difference::{RouteDifference, differences};
use crate::diff::sums::DifferenceSums;
use ospf_base::RouterId;
use ospf_lsa::Listing;
use ospf_spf::RouteTable;
use std::alloc::{AllocError, Global};
use std::fmt::Write;

// What differs in the tables of some routers: a line for each route, and the sums.
#[derive(Drop)]
pub(crate) struct Sights {
    lines: String,
    sums: DifferenceSums,
}

// What differs between two areas in the tables of these routers.
pub(crate) fn sights_of(
    alloc: Global,
    before: &Listing,
    after: &Listing,
    routers: &[RouterId],
) -> Result<Sights, AllocError>
    ensures { IfOk result (AreSeen (advertisements_of before.now) (advertisements_of after.now)
        routers.now) }
{
    let mut sights = Sights::none(alloc);
    for router in routers {
        sights.see(alloc, before, after, *router)?;
    }
    Ok(sights)
}

// What differs between the tables that a router has in two areas.
fn differences_at(
    alloc: Global,
    before: &Listing,
    after: &Listing,
    router: RouterId,
) -> Result<Vec<RouteDifference>, AllocError>
    ensures { IfOk result (λ found. IsRouterDifference (advertisements_of before.now)
        (advertisements_of after.now) (router, found.items)) }
{
    let old = RouteTable::of(alloc, before, router)?;
    let new = RouteTable::of(alloc, after, router)?;
    differences(alloc, &old, &new)
}

impl Sights {
    // Nothing is seen yet.
    fn none(alloc: Global) -> Sights
        ensures lines { string_bytes result.lines ≡ [] }
        ensures sums { result.sums ≡ difference_sums_of [] }
    {
        Sights {
            lines: String::new(alloc),
            sums: DifferenceSums::none(),
        }
    }

    // Adds what differs between the tables of a router.
    fn see(
        &mut self,
        alloc: Global,
        before: &Listing,
        after: &Listing,
        router: RouterId,
    ) -> Result<(), AllocError>
        requires { HasDifferenceRoom 1 self.old.sums }
        ensures { OnOk result (SeesOneMore (advertisements_of before.now)
            (advertisements_of after.now) router self.old self.new) }
    {
        let found = differences_at(alloc, before, after, router)?;
        let lines = difference_lines(alloc, router, &found)?;
        self.lines.push_str(&lines)?;
        self.sums = self.sums.plus(&found);
        Ok(())
    }

    // The lines, and a line of the sums.
    pub(crate) fn text(&self, alloc: Global) -> Result<String, AllocError>
        ensures { IfOk result (λ text. string_bytes text
            ≡ string_bytes self.now.lines ++ difference_sums_line self.now.sums) }
    {
        format!(in alloc; "{}{}\n", self.lines, self.sums)
    }

    // The exit status: 1 where a route is lost, else 0.
    pub(crate) fn status(&self) -> u8
        ensures { result ≡ status_by self.now.sums }
    {
        if self.sums.lost == 0 { 0 } else { 1 }
    }
}

// A line for each route that differs at a router.
fn difference_lines(
    alloc: Global,
    router: RouterId,
    found: &[RouteDifference],
) -> Result<String, AllocError>
    ensures { IfOk result (λ lines. string_bytes lines
        ≡ flat_map (difference_line router) found.now) }
{
    let mut lines = String::new(alloc);
    for difference in found {
        writeln!(lines, "{router} {difference}")?;
    }
    Ok(lines)
}
