//! What the failures of an area change in a router's table.

ghost use Rattle.std.specs.Prelude.{◌≡◌, ◌↔◌, IfOk, IsPermutation, IsTrue, string_bytes};
ghost use Rattle.std.specs.List.Sorted.{IsSorted};
ghost use Rattle.ospf_whatif.specs.declared.failure.AreaFailure.{AreaFailure};
ghost use Rattle.ospf_harm.specs.HarmLines.{report_harm_cmp, reports_harm_text, reports_lines};
ghost use Rattle.ospf_harm.specs.Json.{reports_json};
ghost use Rattle.ospf_harm.specs.Reports.{HasCut, failure_place, report_cmp, reports_text};

use crate::harm::{Harm, harm_line};
use crate::harmed::put_harmed;
use crate::hidden::HiddenCost;
use crate::warnings::put_hidden;
use ospf_base::RouterId;
use ospf_table::{
    Totals, add_changes, change_lines, counted_members, data_line, failure_lines, objects_line,
};
use ospf_whatif::{AreaFailure, RouteChange};
use serde_json::{Map, Value, put};
use std::alloc::{AllocError, Global};
use std::cmp::Reverse;
use std::marker::Model;

/// A failure, and what it changes in a router's table.
#[derive(Debug, Drop)]
pub struct Report {
    failure: AreaFailure,
    changes: Vec<RouteChange>,
    totals: Totals,
}

impl Model for Report {
    ghost use Rattle.std.specs.Prelude.{◌≡◌};
    ghost use Rattle.ospf_table.specs.Changes.{totals_of};
    ghost use Rattle.ospf_harm.specs.Reports.{ReportValue};

    ghost Value = { ReportValue };

    ghost view = { λ r. (r.failure, r.changes.items) };

    ghost invariant = { λ r. r.totals ≡ totals_of r.changes.items };
}

impl Report {
    ghost use Rattle.std.specs.Prelude.{◌≡◌, IfOk, string_bytes};
    ghost use Rattle.ospf_whatif.specs.declared.failure.AreaFailure.{AreaFailure};
    ghost use Rattle.ospf_table.specs.Changes.{failure_lines, totals_of};
    ghost use Rattle.serde_json.specs.Data.{no_members};
    ghost use Rattle.serde_json.specs.View.{members_view, view};
    ghost use Rattle.ospf_harm.specs.HarmLines.{report_harm, report_harm_lines, report_harm_rank, report_line_data};
    ghost use Rattle.ospf_harm.specs.Json.{report_data, report_members, totals_members};
    ghost use Rattle.ospf_harm.specs.Reports.{rank_of};

    /// The report of a failure that makes these changes.
    pub fn of(failure: AreaFailure, changes: Vec<RouteChange>) -> Report
        ensures { result ≡ (failure, changes.items) }
    {
        let totals = Totals::of(&changes);
        Report {
            failure,
            changes,
            totals,
        }
    }

    /// How many prefixes it changes.
    pub fn totals(&self) -> Totals
        ensures { result ≡ totals_of self.now.1 }
    {
        self.totals
    }

    /// What is printed of it.
    ///
    /// `AllocError` where memory runs out.
    pub fn lines(&self, alloc: Global, each: bool) -> Result<String, AllocError>
        ensures { IfOk result (λ lines. string_bytes lines
            ≡ failure_lines each self.now.0 self.now.1) }
    {
        failure_lines(alloc, &self.failure, &self.changes, self.totals, each)
    }

    // It as a JSON object, at a root.
    fn value(
        &self,
        alloc: Global,
        root: RouterId,
        each: bool,
        hidden: &[HiddenCost],
    ) -> Result<Value, AllocError>
        ensures { IfOk result (λ value. view value ≡ report_data each root hidden.now self.now) }
    {
        let mut members = self.members(alloc, root, each)?;
        put_hidden(alloc, &mut members, &self.failure, hidden)?;
        Ok(Value::Object(members))
    }

    // How many prefixes it changes, and with `each` these.
    fn members(
        &self,
        alloc: Global,
        root: RouterId,
        each: bool,
    ) -> Result<Map<String, Value>, AllocError>
        ensures { IfOk result (λ members. members_view members.entries
            ≡ report_members each root self.now no_members) }
    {
        let mut members = self.counted(alloc)?;
        if !each {
            return Ok(members);
        }
        let mut routes = Vec::new(alloc);
        add_changes(alloc, root, &self.changes, &mut routes)?;
        put(&mut members, alloc, "routes", Value::Array(routes))?;
        Ok(members)
    }

    // How many prefixes it changes.
    fn counted(&self, alloc: Global) -> Result<Map<String, Value>, AllocError>
        ensures { IfOk result (λ members. members_view members.entries
            ≡ totals_members self.now.0 (totals_of self.now.1) no_members) }
    {
        let t = self.totals;
        counted_members(
            alloc,
            &self.failure,
            t.cut as u128,
            t.gone as u128,
            t.cost as u128,
            t.hops as u128,
        )
    }

    // It as a JSON object of version 2, at a root.
    fn line_value(
        &self,
        alloc: Global,
        root: RouterId,
        each: bool,
        hidden: &[HiddenCost],
    ) -> Result<Value, AllocError>
        ensures { IfOk result (λ value. view value
            ≡ report_line_data each root hidden.now self.now) }
    {
        let mut object = self.counted(alloc)?;
        put_harmed(alloc, &mut object, &self.failure, self.harm(), hidden)?;
        if !each {
            return Ok(Value::Object(object));
        }
        let mut routes = Vec::new(alloc);
        add_changes(alloc, root, &self.changes, &mut routes)?;
        put(&mut object, alloc, "routes", Value::Array(routes))?;
        Ok(Value::Object(object))
    }

    // How much it harms.
    fn harm(&self) -> Harm
        ensures { result ≡ report_harm self.now }
    {
        Harm::of(&self.failure, &self.changes)
    }

    // What is printed of it with how much it harms.
    fn harm_lines(&self, alloc: Global, each: bool) -> Result<String, AllocError>
        ensures { IfOk result (λ lines. string_bytes lines ≡ report_harm_lines each self.now) }
    {
        let mut lines = if each {
            change_lines(alloc, &self.failure, &self.changes)?
        } else {
            String::new(alloc)
        };
        lines.push_str(&harm_line(alloc, &self.failure, self.harm())?)?;
        Ok(lines)
    }

    // What it is ordered by, where the worst harm comes first.
    fn harm_rank(&self) -> HarmRank
        ensures { result ≡ report_harm_rank self.now }
    {
        let h = self.harm();
        let numbers = [h.lost, h.rerouted, h.rise as u128, h.own];
        (Reverse(numbers), place_of(self.failure))
    }

    // What it is ordered by.
    fn rank(&self) -> Rank
        ensures { result ≡ rank_of self.now }
    {
        let t = self.totals;
        let numbers = [t.cut, t.gone, t.cost, t.hops];
        (Reverse(numbers), place_of(self.failure))
    }
}

/// The lines of reports, in their order.
///
/// `AllocError` where memory runs out.
pub fn reports_text(alloc: Global, reports: &[Report], each: bool) -> Result<String, AllocError>
    ensures { IfOk result (λ text. string_bytes text ≡ reports_text each reports.now) }
{
    let mut text = String::new(alloc);
    for report in reports {
        text.push_str(&report.lines(alloc, each)?)?;
    }
    Ok(text)
}

/// Reports for a root as one value of JSON on a line: an array, in their order, of an object each,
/// with the name of the `failure`, its `kind`, and how many prefixes it changes, as `cut`, `gone`,
/// `cost` and `hops`. With `each` it has `routes`, an array of an object a route that changes: the
/// `router` in whose table it is, its `prefix`, the `loss` by one of these four words, and its cost
/// and hops `before` and, where there are any, `after`. A failure after which costs are in no LSA
/// has `unknown_costs`, an array of the interfaces, each by its router and network.
///
/// `AllocError` where memory runs out.
pub fn reports_json(
    alloc: Global,
    reports: &[Report],
    root: RouterId,
    each: bool,
    hidden: &[HiddenCost],
) -> Result<String, AllocError>
    ensures { IfOk result (λ text. string_bytes text
        ≡ reports_json each root hidden.now reports.now) }
{
    let mut objects = Vec::new(alloc);
    for report in reports {
        objects.push(report.value(alloc, root, each, hidden)?)?;
    }
    objects_line(alloc, objects)
}

/// The lines of reports, in their order, with how much each failure harms.
///
/// `AllocError` where memory runs out.
pub fn reports_harm_text(
    alloc: Global,
    reports: &[Report],
    each: bool,
) -> Result<String, AllocError>
    ensures { IfOk result (λ text. string_bytes text ≡ reports_harm_text each reports.now) }
{
    let mut text = String::new(alloc);
    for report in reports {
        text.push_str(&report.harm_lines(alloc, each)?)?;
    }
    Ok(text)
}

/// Reports for a root as JSON of version 2, an object on each line, in their order. To the members
/// of `reports_json` it adds what fails, as `routers`, `subnet` and `network`, and how much it
/// harms, as `lost`, `own`, `rerouted` and `worst_rise`.
///
/// `AllocError` where memory runs out.
pub fn reports_lines(
    alloc: Global,
    reports: &[Report],
    root: RouterId,
    each: bool,
    hidden: &[HiddenCost],
) -> Result<String, AllocError>
    ensures { IfOk result (λ text. string_bytes text
        ≡ reports_lines each root hidden.now reports.now) }
{
    let mut text = String::new(alloc);
    for report in reports {
        let value = report.line_value(alloc, root, each, hidden)?;
        text.push_str(&data_line(alloc, &value)?)?;
    }
    Ok(text)
}

/// Puts reports into the order of their harm: those come first that lose most routes.
pub fn sort_reports_by_harm(reports: &mut Vec<Report>)
    ensures same { IsPermutation reports.old.items reports.new.items }
    ensures in_order { IsSorted report_harm_cmp reports.new.items }
{
    reports.sort_unstable_by_key(|report| report.harm_rank());
}

/// Whether some failure cuts a prefix off.
pub fn has_cut(reports: &[Report]) -> bool
    ensures { IsTrue result ↔ HasCut reports.now }
{
    reports.iter().any(|report| report.totals.cut > 0)
}

// What comes first of numbers that a report is ordered by, and what decides where these are equal.
type Rank = (Reverse<[usize; 4]>, [u32; 5]);

// The same, for the numbers of harm.
type HarmRank = (Reverse<[u128; 4]>, [u32; 5]);

/// What decides the order of failures that change equally many routes.
pub fn place_of(failure: AreaFailure) -> [u32; 5]
    ensures { result ≡ failure_place failure }
{
    match failure {
        AreaFailure::Link { a, b, subnet } => {
            [0, a.0, b.0, subnet.address.0, u32::from(subnet.length)]
        }
        AreaFailure::End {
            router,
            other,
            subnet,
        } => [
            1,
            router.0,
            other.0,
            subnet.address.0,
            u32::from(subnet.length),
        ],
        AreaFailure::Links { a, b } => [2, a.0, b.0, 0, 0],
        AreaFailure::Attachment { router, network } => [3, router.0, network, 0, 0],
        AreaFailure::Network(network) => [4, network, 0, 0, 0],
        AreaFailure::Router(router) => [5, router.0, 0, 0, 0],
        AreaFailure::Stub { router, prefix } => {
            [6, router.0, prefix.address.0, u32::from(prefix.length), 0]
        }
    }
}

/// Puts reports into the order in which they are printed: first what cuts off most, then what takes
/// most with it, then what makes most dearer, then what moves most. Equal ones are in the order of
/// their kinds (links in subnets, ends of links, other links, attachments, networks, routers,
/// interfaces to stub networks), and in a kind of Router IDs and addresses.
pub fn sort_reports(reports: &mut Vec<Report>)
    ensures same { IsPermutation reports.old.items reports.new.items }
    ensures in_order { IsSorted report_cmp reports.new.items }
{
    reports.sort_unstable_by_key(|report| report.rank());
}
