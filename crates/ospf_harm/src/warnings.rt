//! What is warned of about failures: the root, costs that no LSA contains, and missing routes.

ghost use Rattle.std.specs.Prelude.{◌≡◌, ◌++◌, ◌∷◌, [], IfOk, OnOk, map, string_bytes};
ghost use Rattle.serde_json.specs.View.{members_view, view};
ghost use Rattle.ospf_harm.specs.Json.{with_hidden};
ghost use Rattle.ospf_graph.specs.EdgeLists.Listed.{advertisements_of};
ghost use Rattle.ospf_harm.specs.Warnings.{TellsOfRoot, WarnsAt, WarnsOfArea, hidden_line, hidden_names, hidden_text, is_cause};

use crate::carrier::{Carrier, hidden_costs_by};
use crate::hidden::HiddenCost;
use ospf_base::{Addr, RouterId};
use ospf_graph::edges::is_listed;
use ospf_lsa::Listing;
use ospf_table::reasons_text;
use ospf_whatif::AreaFailure;
use serde_json::{Map, Value, put};
use std::alloc::{AllocError, Global};

/// What is warned of about the failures of an area at a router: that its router-LSA is not listed,
/// and then as `area_warnings`.
///
/// `AllocError` where memory runs out.
pub fn router_warnings(
    alloc: Global,
    listing: &Listing,
    root: RouterId,
    carrier: Carrier,
) -> Result<String, AllocError>
    ensures { IfOk result (λ text. WarnsAt root carrier listing.now (string_bytes text)) }
{
    let mut text = root_warning(alloc, listing, root)?;
    text.push_str(&area_warnings(alloc, listing, carrier)?)?;
    Ok(text)
}

/// What is warned of about the failures of an area: costs after them that no LSA contains, a line
/// each, and why routes may be missing (`ospf_table::reasons_text`).
///
/// `AllocError` where memory runs out.
pub fn area_warnings(
    alloc: Global,
    listing: &Listing,
    carrier: Carrier,
) -> Result<String, AllocError>
    ensures { IfOk result (λ text. WarnsOfArea carrier listing.now (string_bytes text)) }
{
    let hidden = hidden_costs_by(alloc, carrier, listing)?;
    let mut text = hidden_text(alloc, &hidden)?;
    text.push_str(&reasons_text(alloc, listing)?)?;
    Ok(text)
}

/// The warning about a root: that its router-LSA is not listed.
///
/// `AllocError` where memory runs out.
pub fn root_warning(alloc: Global, listing: &Listing, root: RouterId) -> Result<String, AllocError>
    ensures { IfOk result (λ text. TellsOfRoot (advertisements_of listing.now) root
        (string_bytes text)) }
{
    if is_listed(listing, root) {
        return Ok(String::new(alloc));
    }
    let text = format!(in alloc; "{root}: no router-LSA of this router\n")?;
    Ok(text)
}

// A line each.
fn hidden_text(alloc: Global, hidden: &[HiddenCost]) -> Result<String, AllocError>
    ensures { IfOk result (λ text. string_bytes text ≡ hidden_text hidden.now) }
{
    let mut text = String::new(alloc);
    for cost in hidden {
        text.push_str(&hidden_line(alloc, cost)?)?;
    }
    Ok(text)
}

// The line of one.
fn hidden_line(alloc: Global, hidden: &HiddenCost) -> Result<String, AllocError>
    ensures { IfOk result (λ line. string_bytes line ≡ hidden_line hidden.now) }
{
    let (router, network, other) = (hidden.router, Addr(hidden.network), hidden.other);
    let line = format!(in alloc;
        "{router}@{network}: its cost after a failure of {other} is not in the LSAs\n"
    )?;
    Ok(line)
}

/// Adds the names of those that a failure causes to the members of its object.
///
/// `AllocError` where memory runs out.
pub fn put_hidden(
    alloc: Global,
    members: &mut Map<String, Value>,
    failure: &AreaFailure,
    hidden: &[HiddenCost],
) -> Result<(), AllocError>
    ensures { OnOk result (members_view members.new.entries
        ≡ with_hidden (hidden_names hidden.now failure.now) (members_view members.old.entries)) }
{
    let names = hidden_values(alloc, hidden, failure)?;
    if !names.is_empty() {
        put(members, alloc, "unknown_costs", Value::Array(names))?;
    }
    Ok(())
}

// The names of those that a failure brings about.
pub(crate) fn hidden_values(
    alloc: Global,
    hidden: &[HiddenCost],
    failure: &AreaFailure,
) -> Result<Vec<Value>, AllocError>
    ensures { IfOk result (λ names. map view names.items
        ≡ hidden_names hidden.now failure.now) }
{
    let mut names = Vec::new(alloc);
    for cost in hidden {
        push_hidden(alloc, cost, failure, &mut names)?;
    }
    Ok(names)
}

// Adds the name of one, if the failure brings it about.
fn push_hidden(
    alloc: Global,
    hidden: &HiddenCost,
    failure: &AreaFailure,
    names: &mut Vec<Value>,
) -> Result<(), AllocError>
    ensures { OnOk result (map view names.new.items
        ≡ map view names.old.items ++ hidden_names (hidden.now ∷ []) failure.now) }
{
    if is_cause(failure, hidden) {
        let name = format!(in alloc; "{}@{}", hidden.router, Addr(hidden.network))?;
        names.push(Value::String(name))?;
    }
    Ok(())
}

// Whether a failure is that of the stub router's neighbor, or of its interface to the network.
fn is_cause(failure: &AreaFailure, hidden: &HiddenCost) -> bool
    ensures { result ≡ is_cause failure.now hidden.now }
{
    match *failure {
        AreaFailure::Router(gone) => gone.0 == hidden.other.0,
        AreaFailure::Attachment { router, network } => {
            router.0 == hidden.other.0 && network == hidden.network
        }
        AreaFailure::Link { .. } => false,
        AreaFailure::End { .. } => false,
        AreaFailure::Links { .. } => false,
        AreaFailure::Network(_) => false,
        AreaFailure::Stub { .. } => false,
    }
}
