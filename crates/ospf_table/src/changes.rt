//! Lines of what a failure changes in a table.

ghost use Rattle.std.specs.Prelude.{◌≡◌, ◌++◌, IfOk, flat_map, string_bytes};
ghost use Rattle.ospf_whatif.specs.Name.{area_failure_text};
ghost use Rattle.ospf_whatif.specs.declared.effect.Loss.{Loss};
ghost use Rattle.ospf_table.specs.Changes.{change_line, failure_lines, loss_line, totals_of};

use crate::totals::{Totals, totals_line};
use ospf_graph::Route;
use ospf_whatif::{AreaFailure, Loss, RouteChange};
use std::alloc::{AllocError, Global};
use std::fmt::{self, Display, Formatter, Write};

/// What is printed of a failure that makes these changes: with `each`, a line for each of them,
/// such as `3.3.3.3 gone 172.16.0.3/32`, `2.2.2.2 cut 172.16.0.2/32`, `1.1.1.1@10.1.0.3 cost
/// 10.0.0.12/30 17>22 10.0.0.1>2.2.2.2` or `@10.1.0.3 hops 10.2.0.0/24 15 10.0.0.1>2.2.2.2`; then
/// how many there are, as `2.2.2.2 cut 1 gone 0 cost 0 hops 0`.
///
/// `AllocError` where memory runs out.
pub fn failure_lines(
    alloc: Global,
    failure: &AreaFailure,
    changes: &[RouteChange],
    totals: Totals,
    each: bool,
) -> Result<String, AllocError>
    requires { totals ≡ totals_of changes.now }
    ensures { IfOk result (λ lines. string_bytes lines
        ≡ failure_lines each failure.now changes.now) }
{
    let mut lines = if each {
        change_lines(alloc, failure, changes)?
    } else {
        String::new(alloc)
    };
    lines.push_str(&totals_line(alloc, failure, totals)?)?;
    Ok(lines)
}

// The costs of a prefix before a failure and after it.
#[derive(Clone, Copy)]
struct Costs {
    before: u64,
    after: u64,
}

impl Display for Costs {
    ghost use Rattle.std.specs.Prelude.{Some};
    ghost use Rattle.ospf_table.specs.Changes.{costs_text};

    ghost output = { λ costs. Some (costs_text costs.before costs.after) };

    fn fmt<W: Write>(&self, f: &mut Formatter<W>) -> fmt::Result {
        write!(f, "{}>{}", self.before, self.after)
    }
}

/// A line for each route that a failure changes, as `failure_lines` has them.
///
/// `AllocError` where memory runs out.
pub fn change_lines(
    alloc: Global,
    failure: &AreaFailure,
    changes: &[RouteChange],
) -> Result<String, AllocError>
    ensures { IfOk result (λ lines. string_bytes lines
        ≡ flat_map (change_line failure.now) changes.now) }
{
    let mut lines = String::new(alloc);
    for change in changes {
        lines.push_str(&change_line(alloc, failure, change)?)?;
    }
    Ok(lines)
}

/// The line of a route that a failure changes, as `failure_lines` has it.
///
/// `AllocError` where memory runs out.
pub fn change_line(
    alloc: Global,
    failure: &AreaFailure,
    change: &RouteChange,
) -> Result<String, AllocError>
    ensures { IfOk result (λ line. string_bytes line ≡ change_line failure.now change.now) }
{
    let before = &change.before;
    match &change.loss {
        Loss::Gone => gone_line(alloc, failure, before),
        Loss::Cut => cut_line(alloc, failure, before),
        Loss::Dearer(after) => dearer_line(alloc, failure, before, after),
        Loss::Moved(after) => moved_line(alloc, failure, before, after),
    }
}

// The line of a prefix that is gone.
fn gone_line(alloc: Global, failure: &AreaFailure, before: &Route) -> Result<String, AllocError>
    ensures { IfOk result (λ line. string_bytes line ≡ area_failure_text failure.now
        ++ loss_line before.now Loss.Gone) }
{
    format!(in alloc; "{failure} gone {}\n", before.prefix)
}

// The line of a prefix that is cut off.
fn cut_line(alloc: Global, failure: &AreaFailure, before: &Route) -> Result<String, AllocError>
    ensures { IfOk result (λ line. string_bytes line ≡ area_failure_text failure.now
        ++ loss_line before.now Loss.Cut) }
{
    format!(in alloc; "{failure} cut {}\n", before.prefix)
}

// The line of a prefix that costs more.
fn dearer_line(
    alloc: Global,
    failure: &AreaFailure,
    before: &Route,
    after: &Route,
) -> Result<String, AllocError>
    ensures { IfOk result (λ line. string_bytes line ≡ area_failure_text failure.now
        ++ loss_line before.now (Loss.Dearer after.now)) }
{
    let costs = Costs {
        before: before.cost,
        after: after.cost,
    };
    let line = format!(in alloc; "{failure} cost {} {costs} {}\n", before.prefix, after.hops)?;
    Ok(line)
}

// The line of a prefix that is reached over other hops.
fn moved_line(
    alloc: Global,
    failure: &AreaFailure,
    before: &Route,
    after: &Route,
) -> Result<String, AllocError>
    ensures { IfOk result (λ line. string_bytes line ≡ area_failure_text failure.now
        ++ loss_line before.now (Loss.Moved after.now)) }
{
    let line = format!(in alloc;
        "{failure} hops {} {} {}\n",
        before.prefix, after.cost, after.hops
    )?;
    Ok(line)
}
