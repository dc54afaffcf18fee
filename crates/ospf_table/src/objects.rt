//! What a failure changes as values of JSON.

ghost use Rattle.std.specs.Prelude.{◌≡◌, ◌++◌, ℕ, IfOk, OnErr, OnOk, false, map, string_bytes, take};
ghost use Rattle.serde_json.specs.Data.{no_members};
ghost use Rattle.serde_json.specs.View.{items_of, members_view, view};
ghost use Rattle.serde_json.specs.Written.{has_float, items_have_float};
ghost use Rattle.ospf_table.specs.Objects.{change_data, count_data, counted_members, data_line, failure_kind, hop_names, lost_data, objects_line, reach_data, turned_data};

use ospf_base::RouterId;
use ospf_graph::{NextHop, Route};
use ospf_whatif::{AreaFailure, Loss, RouteChange};
use serde_json::{Map, Value, json, put};
use std::alloc::{AllocError, Global};

/// A value without floats as JSON on a line, without spaces, the members of each object in the
/// order of their names.
///
/// `AllocError` where memory runs out.
pub fn data_line(alloc: Global, value: &Value) -> Result<String, AllocError>
    requires { has_float (view value.now) ≡ false }
    ensures { IfOk result (λ line. string_bytes line ≡ data_line (view value.now)) }
{
    let mut line = value.to_string(alloc)?;
    line.push_str("\n")?;
    Ok(line)
}

/// Values without floats as an array of JSON on a line, the members of objects by their names.
///
/// `AllocError` where memory runs out.
pub fn objects_line(alloc: Global, objects: Vec<Value>) -> Result<String, AllocError>
    requires { items_have_float (items_of (map view objects.items)) ≡ false }
    ensures { IfOk result (λ line. string_bytes line ≡ objects_line (map view objects.items)) }
{
    data_line(alloc, &Value::Array(objects))
}

/// The members of an object about a failure: its name as `failure`, its `kind`, and
/// how many routes it changes, as `cut`, `gone`, `cost` and `hops`. A number of more than 64
/// bits is a string of its digits.
///
/// `AllocError` where memory runs out.
pub fn counted_members(
    alloc: Global,
    failure: &AreaFailure,
    cut: u128,
    gone: u128,
    cost: u128,
    hops: u128,
) -> Result<Map<String, Value>, AllocError>
    ensures { IfOk result (λ members. members_view members.entries
        ≡ counted_members failure.now cut gone cost hops no_members) }
{
    let name = format!(in alloc; "{failure}")?;
    let kind = Value::try_from_str(alloc, kind_of(failure))?;
    let mut members = Map::new(alloc);
    put(&mut members, alloc, "failure", Value::String(name))?;
    put(&mut members, alloc, "kind", kind)?;
    put(&mut members, alloc, "cut", count_value(alloc, cut)?)?;
    put(&mut members, alloc, "gone", count_value(alloc, gone)?)?;
    put(&mut members, alloc, "cost", count_value(alloc, cost)?)?;
    put(&mut members, alloc, "hops", count_value(alloc, hops)?)?;
    Ok(members)
}

// What a failure is of.
fn kind_of(failure: &AreaFailure) -> &'static str
    ensures { result.now ≡ failure_kind failure.now }
{
    match failure {
        AreaFailure::Link { .. } => "link",
        AreaFailure::End { .. } => "end",
        AreaFailure::Links { .. } => "links",
        AreaFailure::Attachment { .. } => "attachment",
        AreaFailure::Network(_) => "network",
        AreaFailure::Router(_) => "router",
        AreaFailure::Stub { .. } => "stub",
    }
}

/// How many as a number, or as a string of its digits where it has more than 64 bits.
///
/// `AllocError` where memory runs out.
pub fn count_value(alloc: Global, count: u128) -> Result<Value, AllocError>
    ensures { IfOk result (λ value. view value ≡ count_data count) }
{
    match u64::try_from(count) {
        Ok(count) => Ok(Value::from(count)),
        Err(_) => Ok(Value::String(format!(in alloc; "{count}")?)),
    }
}

/// Adds an object for each route that changes at a router: the `router`, the `prefix`, the `loss`
/// by one of the words `cut`, `gone`, `cost` and `hops`, and the cost and hops of the route
/// `before`, and of that in its place, if there is one, `after`.
///
/// `AllocError` where memory runs out: then those of the first changes were added.
pub fn add_changes(
    alloc: Global,
    router: RouterId,
    changes: &[RouteChange],
    items: &mut Vec<Value>,
) -> Result<(), AllocError>
    ensures ok { OnOk result (map view items.new.items
        ≡ map view items.old.items ++ map (change_data router) changes.now) }
    ensures err { OnErr result ((n : ℕ) × (map view items.new.items
        ≡ map view items.old.items ++ map (change_data router) (take n changes.now))) }
{
    for change in changes {
        items.push(change_value(alloc, router, change)?)?;
    }
    Ok(())
}

// A route that changes at a router as an object.
fn change_value(alloc: Global, router: RouterId, change: &RouteChange) -> Result<Value, AllocError>
    ensures { IfOk result (λ value. view value ≡ change_data router change.now) }
{
    let before = &change.before;
    match &change.loss {
        Loss::Gone => lost_value(alloc, router, before, "gone"),
        Loss::Cut => lost_value(alloc, router, before, "cut"),
        Loss::Dearer(after) => turned_value(alloc, router, before, after, "cost"),
        Loss::Moved(after) => turned_value(alloc, router, before, after, "hops"),
    }
}

// A route that is lost as an object.
fn lost_value(
    alloc: Global,
    router: RouterId,
    before: &Route,
    loss: &str,
) -> Result<Value, AllocError>
    ensures { IfOk result (λ value. view value ≡ lost_data router before.now loss.now) }
{
    let router = format!(in alloc; "{router}")?;
    let prefix = format!(in alloc; "{}", before.prefix)?;
    let before = reach_value(alloc, before)?;
    json!(in alloc; {"router": router, "prefix": prefix, "loss": loss, "before": before})
}

// A route that another takes the place of as an object.
fn turned_value(
    alloc: Global,
    router: RouterId,
    before: &Route,
    after: &Route,
    loss: &str,
) -> Result<Value, AllocError>
    ensures { IfOk result (λ value. view value
        ≡ turned_data router before.now after.now loss.now) }
{
    let router = format!(in alloc; "{router}")?;
    let prefix = format!(in alloc; "{}", before.prefix)?;
    let before = reach_value(alloc, before)?;
    let after = reach_value(alloc, after)?;
    json!(in alloc;
        {"router": router, "prefix": prefix, "loss": loss, "before": before, "after": after}
    )
}

// What a route costs, and its hops, as an object.
fn reach_value(alloc: Global, route: &Route) -> Result<Value, AllocError>
    ensures { IfOk result (λ value. view value ≡ reach_data route.now) }
{
    let hops = hops_value(alloc, route.hops.as_slice())?;
    json!(in alloc; {"cost": route.cost, "hops": hops})
}

// Hops as an array.
fn hops_value(alloc: Global, hops: &[NextHop]) -> Result<Value, AllocError>
    ensures { IfOk result (λ value. view value ≡ hop_names hops.now) }
{
    let mut items = Vec::new(alloc);
    for hop in hops {
        items.push(Value::String(format!(in alloc; "{hop}")?))?;
    }
    Ok(Value::Array(items))
}
