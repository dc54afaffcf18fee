//! What each failure of an area changes in the tables of all its routers.

ghost use Rattle.std.specs.Prelude.{◌≡◌, ◌↔◌, ◌++◌, [], IfOk, IsPermutation, IsTrue, OnOk, codes, flat_map, string_bytes};
ghost use Rattle.std.specs.List.Sorted.{IsSorted};
ghost use Rattle.ospf_base.specs.Text.{number_text};
ghost use Rattle.ospf_graph.specs.EdgeLists.Listed.{advertisements_of};
ghost use Rattle.ospf_whatif.specs.Effect.{IsEffectIn};
ghost use Rattle.ospf_whatif.specs.Failure.{HasLarge, without_all};
ghost use Rattle.ospf_whatif.specs.Outage.{IsAreaGraph, IsOutage};
ghost use Rattle.ospf_harm.specs.declared.carrier.Carrier.{Carrier};
ghost use Rattle.ospf_table.specs.Changes.{change_line};
ghost use Rattle.serde_json.specs.Data.{array, no_members};
ghost use Rattle.serde_json.specs.View.{items_of, members_view, view};
ghost use Rattle.ospf_harm.specs.Harm.{no_harm};
ghost use Rattle.ospf_failures.specs.HarmLines.{overall_harm_cmp, overall_harm_line, overall_harm_rank, overall_line_data, overalls_harm_text, overalls_lines, summed_members};
ghost use Rattle.ospf_failures.specs.Json.{overall_data, overall_members, overalls_json, sight_data};
ghost use Rattle.ospf_failures.specs.Overall.{AreOveralls, CutsSomewhere, FitTogether, HasRoomForOne, IsSumOfBoth, KeepsMore, Sees, overall_cmp, overall_rank, overalls_text, sight_lines, sums_of};
ghost use Rattle.ospf_harm.specs.Cases.{IsTableBefore};

use crate::progress::Progress;
use crate::roots::{outages_of, overalls_at, roots_of};
use ospf_base::RouterId;
use ospf_harm::{
    Before, Carrier, Harm, HiddenCost, breakdowns, failures_by, is_of, place_of, put_harmed,
    put_hidden,
};
use ospf_lsa::Listing;
use ospf_table::{
    Sums, add_changes, change_line, counted_members, data_line, objects_line, sums_line,
};
use ospf_whatif::{AreaFailure, AreaGraph, Outage, RouteChange, single_failures};
use serde_json::{Map, Value, put};
use std::alloc::{AllocError, Global};
use std::cmp::Reverse;
use std::marker::Model;
use std::thread::Threads;

/// What is stored about the routes that a failure changes, besides their number.
#[derive(Clone, Copy, Debug, PartialEq, Eq)]
pub enum RouteDetail {
    /// Nothing.
    Sums,
    /// A line for each.
    Lines,
    /// Each, with its router.
    Routes,
}

// A router, and what a failure changes in its table.
#[derive(Drop)]
pub(crate) struct Sight {
    root: RouterId,
    changes: Vec<RouteChange>,
}

impl Model for Sight {
    ghost use Rattle.ospf_failures.specs.Sights.{SightValue};

    ghost Value = { SightValue };

    ghost view = { λ s. (s.root, s.changes.items) };
}

/// A failure, and what it changes in the tables of all routers.
#[derive(Drop)]
pub struct Overall {
    failure: AreaFailure,
    sums: Sums,
    harm: Harm,
    lines: String,
    sights: Vec<Sight>,
}

/// What each failure of an area changes in the tables of all its routers but the one that fails, in
/// the order in which it is printed. As `reports` does for one root, with sums over the routers and
/// with the routes that `detail` asks for. `progress` receives how many routers are done. With
/// `Direct` no router-LSA may have more than 1,361 links.
///
/// `AllocError` where memory runs out.
pub fn overalls<P: Progress>(
    alloc: Global,
    rt: &(impl Threads + Sync),
    listing: &Listing,
    carrier: Carrier,
    detail: RouteDetail,
    progress: &mut P,
) -> Result<Vec<Overall>, AllocError>
    requires { carrier ≡ Carrier.Direct → HasLarge (advertisements_of listing.now) → ⊥ }
    ensures { IfOk result (λ printed. AreOveralls carrier (advertisements_of listing.now) detail
        printed.items) }
{
    let single = single_failures(alloc, listing)?;
    let failures = failures_by(alloc, carrier, &single)?;
    let breakdowns = breakdowns(alloc, carrier, &single, &failures)?;
    let area = AreaGraph::of(alloc, listing)?;
    let outages = outages_of(alloc, rt, listing, &area, &breakdowns)?;
    let roots = roots_of(alloc, &single)?;
    let at = (listing, &area);
    let mut overalls = overalls_at(alloc, rt, at, &outages, &roots, detail, progress)?;
    sort(&mut overalls);
    Ok(overalls)
}

/// The lines of all failures, in their order.
///
/// `AllocError` where memory runs out.
pub fn overalls_text(alloc: Global, overalls: &[Overall]) -> Result<String, AllocError>
    ensures { IfOk result (λ text. string_bytes text ≡ overalls_text overalls.now) }
{
    let mut text = String::new(alloc);
    for overall in overalls {
        text.push_str(&overall.lines)?;
        text.push_str(&sums_line(alloc, &overall.failure, overall.sums)?)?;
    }
    Ok(text)
}

/// All failures as one JSON value on a line, as in `reports_json`, added up: `routers` counts the
/// routers where anything changes, and with `each`, `routes` holds the routes that were stored.
///
/// `AllocError` where memory runs out.
pub fn overalls_json(
    alloc: Global,
    overalls: &[Overall],
    each: bool,
    hidden: &[HiddenCost],
) -> Result<String, AllocError>
    ensures { IfOk result (λ text. string_bytes text
        ≡ overalls_json each hidden.now overalls.now) }
{
    let mut objects = Vec::new(alloc);
    for overall in overalls {
        objects.push(overall.value(alloc, each, hidden)?)?;
    }
    objects_line(alloc, objects)
}

/// The lines of all failures, in their order, with how much each harms.
///
/// `AllocError` where memory runs out.
pub fn overalls_harm_text(alloc: Global, overalls: &[Overall]) -> Result<String, AllocError>
    ensures { IfOk result (λ text. string_bytes text ≡ overalls_harm_text overalls.now) }
{
    let mut text = String::new(alloc);
    for overall in overalls {
        text.push_str(&overall.lines)?;
        text.push_str(&overall.harm_line(alloc)?)?;
    }
    Ok(text)
}

/// All failures as JSON of version 2, an object on each line, in their order.
///
/// `AllocError` where memory runs out.
pub fn overalls_lines(
    alloc: Global,
    overalls: &[Overall],
    each: bool,
    hidden: &[HiddenCost],
) -> Result<String, AllocError>
    ensures { IfOk result (λ text. string_bytes text
        ≡ overalls_lines each hidden.now overalls.now) }
{
    let mut text = String::new(alloc);
    for overall in overalls {
        let value = overall.line_value(alloc, each, hidden)?;
        text.push_str(&data_line(alloc, &value)?)?;
    }
    Ok(text)
}

/// Puts failures into the order of their harm: those come first that lose most routes.
pub fn sort_overalls_by_harm(overalls: &mut Vec<Overall>)
    ensures same { IsPermutation overalls.old.items overalls.new.items }
    ensures in_order { IsSorted overall_harm_cmp overalls.new.items }
{
    overalls.sort_unstable_by_key(|overall| overall.harm_rank());
}

/// Whether some failure cuts a prefix off, at some router.
pub fn cuts_somewhere(overalls: &[Overall]) -> bool
    ensures { IsTrue result ↔ CutsSomewhere overalls.now }
{
    overalls.iter().any(|overall| overall.sums.cut > 0)
}

impl Overall {
    /// A failure with nothing counted yet.
    pub(crate) fn none(alloc: Global, failure: AreaFailure) -> Overall
        // Nothing counted, and nothing kept.
        ensures failure { result.failure ≡ failure }
        ensures sums { result.sums ≡ sums_of [] }
        ensures harm { result.harm ≡ no_harm }
        ensures lines { string_bytes result.lines ≡ [] }
        ensures sights { result.sights.items ≡ [] }
    {
        let sums = Sums {
            cut: 0,
            gone: 0,
            cost: 0,
            hops: 0,
            routers: 0,
        };
        Overall {
            failure,
            sums,
            harm: Harm::none(),
            lines: String::new(alloc),
            sights: Vec::new(alloc),
        }
    }

    /// Adds what the failure changes in the table of a router, unless that is what fails.
    pub(crate) fn see(
        &mut self,
        alloc: Global,
        listing: &Listing,
        area: &AreaGraph,
        outage: &Outage,
        before: &Before,
        detail: RouteDetail,
    ) -> Result<(), AllocError>
        requires graph { IsAreaGraph (advertisements_of listing.now) area.now }
        requires outage { IsOutage (advertisements_of listing.now) outage.now }
        requires before { IsTableBefore (advertisements_of listing.now) before.now }
        requires room { HasRoomForOne self.old }
        // One table more is seen, and added to those before.
        ensures { OnOk result (Sees
            (without_all outage.now.failures.items (advertisements_of listing.now)) before.now
            detail self.old self.new) }
    {
        if is_of(&self.failure, before.root) {
            return Ok(());
        }
        let changes = effect_at(alloc, listing, area, outage, before)?;
        self.sums = self.sums.plus(&changes);
        self.harm = self.harm.plus(&self.failure, &changes);
        self.keep(alloc, before.root, changes, detail)
    }

    /// Adds what was found of the same failure at other routers, which come behind.
    pub(crate) fn add(&mut self, more: Overall) -> Result<(), AllocError>
        requires { FitTogether self.old more }
        ensures { OnOk result (IsSumOfBoth self.old more self.new) }
    {
        let mut sights = more.sights;
        self.sums = Sums {
            cut: self.sums.cut + more.sums.cut,
            gone: self.sums.gone + more.sums.gone,
            cost: self.sums.cost + more.sums.cost,
            hops: self.sums.hops + more.sums.hops,
            routers: self.sums.routers + more.sums.routers,
        };
        self.harm = Harm {
            lost: self.harm.lost + more.harm.lost,
            rerouted: self.harm.rerouted + more.harm.rerouted,
            rise: self.harm.rise.max(more.harm.rise),
            own: self.harm.own + more.harm.own,
        };
        self.lines.push_str(&more.lines)?;
        self.sights.append(&mut sights)?;
        Ok(())
    }

    // Keeps what is wanted of the routes that change at a router.
    fn keep(
        &mut self,
        alloc: Global,
        root: RouterId,
        changes: Vec<RouteChange>,
        detail: RouteDetail,
    ) -> Result<(), AllocError>
        ensures { OnOk result (KeepsMore detail (root, changes.items) self.old self.new) }
    {
        match detail {
            RouteDetail::Sums => Ok(()),
            RouteDetail::Lines => {
                let lines = sight_lines(alloc, &self.failure, root, &changes)?;
                self.lines.push_str(&lines)?;
                Ok(())
            }
            RouteDetail::Routes => {
                self.sights.push(Sight { root, changes })?;
                Ok(())
            }
        }
    }

    // It as a JSON object.
    fn value(&self, alloc: Global, each: bool, hidden: &[HiddenCost]) -> Result<Value, AllocError>
        ensures { IfOk result (λ value. view value ≡ overall_data each hidden.now self.now) }
    {
        let mut members = self.members(alloc, each)?;
        put_hidden(alloc, &mut members, &self.failure, hidden)?;
        Ok(Value::Object(members))
    }

    // The sums, and with `each` the routes.
    fn members(&self, alloc: Global, each: bool) -> Result<Map<String, Value>, AllocError>
        ensures { IfOk result (λ members. members_view members.entries
            ≡ overall_members each self.now no_members) }
    {
        let mut members = self.counted(alloc)?;
        put(
            &mut members,
            alloc,
            "routers",
            Value::from(self.sums.routers),
        )?;
        if !each {
            return Ok(members);
        }
        let routes = routes_value(alloc, &self.sights)?;
        put(&mut members, alloc, "routes", routes)?;
        Ok(members)
    }

    // How many routes it changes.
    fn counted(&self, alloc: Global) -> Result<Map<String, Value>, AllocError>
        ensures { IfOk result (λ members. members_view members.entries
            ≡ summed_members self.now.failure self.now.sums) }
    {
        let s = self.sums;
        counted_members(alloc, &self.failure, s.cut, s.gone, s.cost, s.hops)
    }

    // It as a JSON object of version 2.
    fn line_value(
        &self,
        alloc: Global,
        each: bool,
        hidden: &[HiddenCost],
    ) -> Result<Value, AllocError>
        ensures { IfOk result (λ value. view value
            ≡ overall_line_data each hidden.now self.now) }
    {
        let mut members = self.counted(alloc)?;
        put_harmed(alloc, &mut members, &self.failure, self.harm, hidden)?;
        put(
            &mut members,
            alloc,
            "routers_affected",
            Value::from(self.sums.routers),
        )?;
        if !each {
            return Ok(Value::Object(members));
        }
        let routes = routes_value(alloc, &self.sights)?;
        put(&mut members, alloc, "routes", routes)?;
        Ok(Value::Object(members))
    }

    // Its line, with how much it harms.
    fn harm_line(&self, alloc: Global) -> Result<String, AllocError>
        ensures { IfOk result (λ line. string_bytes line ≡ overall_harm_line self.now) }
    {
        let (failure, harm, routers) = (self.failure, self.harm, self.sums.routers);
        let line = format!(in alloc; "{failure} {harm} routers {routers}\n")?;
        Ok(line)
    }

    // What it is ordered by, where the worst harm comes first.
    fn harm_rank(&self) -> Rank
        ensures { result ≡ overall_harm_rank self.now }
    {
        let h = self.harm;
        let numbers = [h.lost, h.rerouted, h.rise as u128, h.own];
        (Reverse(numbers), place_of(self.failure))
    }

    // What it is ordered by.
    fn rank(&self) -> Rank
        ensures { result ≡ overall_rank self.now }
    {
        let s = self.sums;
        let numbers = [s.cut, s.gone, s.cost, s.hops];
        (Reverse(numbers), place_of(self.failure))
    }
}

// What a failure that takes this changes in the table of a router.
fn effect_at(
    alloc: Global,
    listing: &Listing,
    area: &AreaGraph,
    outage: &Outage,
    before: &Before,
) -> Result<Vec<RouteChange>, AllocError>
    requires graph { IsAreaGraph (advertisements_of listing.now) area.now }
    requires outage { IsOutage (advertisements_of listing.now) outage.now }
    requires before { IsTableBefore (advertisements_of listing.now) before.now }
    ensures { IfOk result (λ changes. IsEffectIn
        (without_all outage.now.failures.items (advertisements_of listing.now)) before.now.root
        before.now.table changes.items) }
{
    before
        .kept
        .effect(alloc, listing, area, outage, &before.table)
}

// What comes first of numbers that a failure is ordered by, and what decides where these are equal.
type Rank = (Reverse<[u128; 4]>, [u32; 5]);

// A line for each route that changes at a router.
fn sight_lines(
    alloc: Global,
    failure: &AreaFailure,
    root: RouterId,
    changes: &[RouteChange],
) -> Result<String, AllocError>
    ensures { IfOk result (λ lines. string_bytes lines
        ≡ sight_lines failure.now (root, changes.now)) }
{
    let mut lines = String::new(alloc);
    for change in changes {
        let line = sight_line(alloc, failure, root, change)?;
        lines.push_str(&line)?;
    }
    Ok(lines)
}

// The line of a route that changes at a router.
fn sight_line(
    alloc: Global,
    failure: &AreaFailure,
    root: RouterId,
    change: &RouteChange,
) -> Result<String, AllocError>
    ensures { IfOk result (λ line. string_bytes line
        ≡ number_text root.0 ++ codes " " ++ change_line failure.now change.now) }
{
    let mut line = format!(in alloc; "{root} ")?;
    line.push_str(&change_line(alloc, failure, change)?)?;
    Ok(line)
}

// The routes that change at routers as an array.
fn routes_value(alloc: Global, sights: &[Sight]) -> Result<Value, AllocError>
    ensures { IfOk result (λ value. view value
        ≡ array (items_of (flat_map sight_data sights.now))) }
{
    let mut routes = Vec::new(alloc);
    for sight in sights {
        add_changes(alloc, sight.root, &sight.changes, &mut routes)?;
    }
    Ok(Value::Array(routes))
}

// Puts them into order.
fn sort(overalls: &mut Vec<Overall>)
    ensures same { IsPermutation overalls.old.items overalls.new.items }
    ensures in_order { IsSorted overall_cmp overalls.new.items }
{
    overalls.sort_unstable_by_key(|overall| overall.rank());
}
