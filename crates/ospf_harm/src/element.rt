//! What fails, and how much it harms, as members of an object in JSON.

ghost use Rattle.std.specs.Prelude.{◌≡◌, IfOk, OnOk};
ghost use Rattle.serde_json.specs.Data.{string};
ghost use Rattle.serde_json.specs.View.{members_view, view};
ghost use Rattle.ospf_base.specs.Text.{number_text, prefix_text};
ghost use Rattle.ospf_harm.specs.Element.{ids_data, link_state_data, routers_data, subnet_data, with_element, with_harm};

use crate::harm::Harm;
use ospf_base::{Addr, Prefix, RouterId};
use ospf_table::count_value;
use ospf_whatif::AreaFailure;
use serde_json::{Map, Value, put};
use std::alloc::{AllocError, Global};

/// Adds what fails to the members of its object: the `network` by its Link State ID, the `routers`
/// that its name has, and the `subnet` of a link; null where there is none.
///
/// `AllocError` where memory runs out: then some may have been added.
pub fn put_element(
    alloc: Global,
    members: &mut Map<String, Value>,
    failure: &AreaFailure,
) -> Result<(), AllocError>
    ensures { OnOk result (members_view members.new.entries
        ≡ with_element failure.now (members_view members.old.entries)) }
{
    let network = network_value(alloc, failure)?;
    let routers = routers_value(alloc, failure)?;
    let subnet = subnet_value(alloc, failure)?;
    put(members, alloc, "network", network)?;
    put(members, alloc, "routers", routers)?;
    put(members, alloc, "subnet", subnet)?;
    Ok(())
}

/// Adds how much a failure harms to the members of its object: `lost`, `rerouted`, `own` and
/// `worst_rise`. A number of more than 64 bits is a string of its digits.
///
/// `AllocError` where memory runs out: then some may have been added.
pub fn put_harm(
    alloc: Global,
    members: &mut Map<String, Value>,
    harm: Harm,
) -> Result<(), AllocError>
    ensures { OnOk result (members_view members.new.entries
        ≡ with_harm harm (members_view members.old.entries)) }
{
    let lost = count_value(alloc, harm.lost)?;
    let rerouted = count_value(alloc, harm.rerouted)?;
    let own = count_value(alloc, harm.own)?;
    put(members, alloc, "lost", lost)?;
    put(members, alloc, "rerouted", rerouted)?;
    put(members, alloc, "own", own)?;
    put(members, alloc, "worst_rise", Value::from(harm.rise))?;
    Ok(())
}

// The Link State ID of the network.
fn network_value(alloc: Global, failure: &AreaFailure) -> Result<Value, AllocError>
    ensures { IfOk result (λ value. view value ≡ link_state_data failure.now) }
{
    match *failure {
        AreaFailure::Attachment { network, .. } => address_value(alloc, network),
        AreaFailure::Network(network) => address_value(alloc, network),
        AreaFailure::Link { .. } => Ok(Value::Null),
        AreaFailure::End { .. } => Ok(Value::Null),
        AreaFailure::Links { .. } => Ok(Value::Null),
        AreaFailure::Router(_) => Ok(Value::Null),
        AreaFailure::Stub { .. } => Ok(Value::Null),
    }
}

fn address_value(alloc: Global, address: u32) -> Result<Value, AllocError>
    ensures { IfOk result (λ value. view value ≡ string (number_text address)) }
{
    let text = format!(in alloc; "{}", Addr(address))?;
    Ok(Value::String(text))
}

// The subnet of the link, or the prefix of the stub network.
fn subnet_value(alloc: Global, failure: &AreaFailure) -> Result<Value, AllocError>
    ensures { IfOk result (λ value. view value ≡ subnet_data failure.now) }
{
    match *failure {
        AreaFailure::Link { subnet, .. } => prefix_value(alloc, subnet),
        AreaFailure::End { subnet, .. } => prefix_value(alloc, subnet),
        AreaFailure::Stub { prefix, .. } => prefix_value(alloc, prefix),
        AreaFailure::Links { .. } => Ok(Value::Null),
        AreaFailure::Attachment { .. } => Ok(Value::Null),
        AreaFailure::Network(_) => Ok(Value::Null),
        AreaFailure::Router(_) => Ok(Value::Null),
    }
}

fn prefix_value(alloc: Global, prefix: Prefix) -> Result<Value, AllocError>
    ensures { IfOk result (λ value. view value ≡ string (prefix_text prefix)) }
{
    let text = format!(in alloc; "{prefix}")?;
    Ok(Value::String(text))
}

// The routers that a failure's name has.
fn routers_value(alloc: Global, failure: &AreaFailure) -> Result<Value, AllocError>
    ensures { IfOk result (λ value. view value ≡ routers_data failure.now) }
{
    match *failure {
        AreaFailure::Link { a, b, .. } => ids_value(alloc, &[a, b]),
        AreaFailure::End { router, other, .. } => ids_value(alloc, &[router, other]),
        AreaFailure::Links { a, b } => ids_value(alloc, &[a, b]),
        AreaFailure::Attachment { router, .. } => ids_value(alloc, &[router]),
        AreaFailure::Network(_) => ids_value(alloc, &[]),
        AreaFailure::Router(router) => ids_value(alloc, &[router]),
        AreaFailure::Stub { router, .. } => ids_value(alloc, &[router]),
    }
}

// Router IDs as an array.
fn ids_value(alloc: Global, routers: &[RouterId]) -> Result<Value, AllocError>
    ensures { IfOk result (λ value. view value ≡ ids_data routers.now) }
{
    let mut items = Vec::new(alloc);
    for router in routers {
        items.push(Value::String(format!(in alloc; "{router}")?))?;
    }
    Ok(Value::Array(items))
}
