//! A routing table, and addresses that are looked up in it, as an object of JSON.

ghost use Rattle.std.specs.Prelude.{◌≡◌, IfOk, map, string_bytes};
ghost use Rattle.serde_json.specs.View.{view};
ghost use Rattle.ospf_table.specs.Values.{AreFound, IsFoundBy, IsTableData, IsTableLine, found_data, hop_object, hop_object_of, hop_objects, id_data, route_object, route_objects, table_data};

use crate::objects::data_line;
use ospf_base::{Addr, RouterId};
use ospf_graph::{NextHop, Route};
use ospf_spf::RouteTable;
use serde_json::{Value, json};
use std::alloc::{AllocError, Global};

/// The routing table of a router as an object of JSON on a line: the router as `root`, its `routes`
/// in the order of the table, and the `lookups` of addresses in their order.
///
/// A route has its `prefix`, its `cost` and its `hops`. A hop has the address of the router's own
/// `interface`, the `router` that it leads to, and the `address` of this router on a network, each
/// null where there is none. A lookup has its `address` and the `route` of longest prefix, or null
/// where there is none.
///
/// `AllocError` where memory runs out.
pub fn table_line(
    alloc: Global,
    root: RouterId,
    table: &RouteTable,
    addresses: &[Addr],
) -> Result<String, AllocError>
    ensures { IfOk result (λ line. IsTableLine table.now root addresses.now (string_bytes line)) }
{
    let value = table_value(alloc, root, table, addresses)?;
    data_line(alloc, &value)
}

// The same as a value.
fn table_value(
    alloc: Global,
    root: RouterId,
    table: &RouteTable,
    addresses: &[Addr],
) -> Result<Value, AllocError>
    ensures { IfOk result (λ value. IsTableData table.now root addresses.now (view value)) }
{
    let lookups = lookups_of(alloc, table, addresses)?;
    table_object(alloc, lookups, root, table.routes())
}

// A table as an object, with these lookups.
fn table_object(
    alloc: Global,
    lookups: Vec<Value>,
    root: RouterId,
    routes: &[Route],
) -> Result<Value, AllocError>
    ensures { IfOk result (λ value. view value
        ≡ table_data (map view lookups.items) root routes.now) }
{
    let lookups = Value::Array(lookups);
    let root = id_value(alloc, root.0)?;
    let routes = routes_value(alloc, routes)?;
    json!(in alloc; {"lookups": lookups, "root": root, "routes": routes})
}

// What a table says of addresses.
fn lookups_of(
    alloc: Global,
    table: &RouteTable,
    addresses: &[Addr],
) -> Result<Vec<Value>, AllocError>
    ensures { IfOk result (λ values. AreFound table.now addresses.now (map view values.items)) }
{
    let mut values = Vec::new(alloc);
    for address in addresses {
        values.push(lookup_value(alloc, table, *address)?)?;
    }
    Ok(values)
}

// What a table says of an address.
fn lookup_value(alloc: Global, table: &RouteTable, address: Addr) -> Result<Value, AllocError>
    ensures { IfOk result (λ value. IsFoundBy table.now address (view value)) }
{
    match table.lookup(address) {
        Some(route) => best_value(alloc, address, route),
        None => found_value(alloc, address, Value::Null),
    }
}

// An address, and the route that leads to it.
fn best_value(alloc: Global, address: Addr, route: &Route) -> Result<Value, AllocError>
    ensures { IfOk result (λ value. view value ≡ found_data address.0 (route_object route.now)) }
{
    let route = route_value(alloc, route)?;
    found_value(alloc, address, route)
}

// An address, and what leads to it.
fn found_value(alloc: Global, address: Addr, route: Value) -> Result<Value, AllocError>
    ensures { IfOk result (λ value. view value ≡ found_data address.0 (view route)) }
{
    let address = id_value(alloc, address.0)?;
    json!(in alloc; {"address": address, "route": route})
}

// Routes as an array.
fn routes_value(alloc: Global, routes: &[Route]) -> Result<Value, AllocError>
    ensures { IfOk result (λ value. view value ≡ route_objects routes.now) }
{
    let mut items = Vec::new(alloc);
    for route in routes {
        items.push(route_value(alloc, route)?)?;
    }
    Ok(Value::Array(items))
}

// A route as an object.
fn route_value(alloc: Global, route: &Route) -> Result<Value, AllocError>
    ensures { IfOk result (λ value. view value ≡ route_object route.now) }
{
    let prefix = format!(in alloc; "{}", route.prefix)?;
    let hops = hops_value(alloc, route.hops.as_slice())?;
    json!(in alloc; {"cost": route.cost, "hops": hops, "prefix": prefix})
}

// Hops as an array.
fn hops_value(alloc: Global, hops: &[NextHop]) -> Result<Value, AllocError>
    ensures { IfOk result (λ value. view value ≡ hop_objects hops.now) }
{
    let mut items = Vec::new(alloc);
    for hop in hops {
        items.push(hop_value(alloc, hop)?)?;
    }
    Ok(Value::Array(items))
}

// A hop as an object.
fn hop_value(alloc: Global, hop: &NextHop) -> Result<Value, AllocError>
    ensures { IfOk result (λ value. view value ≡ hop_object hop.now) }
{
    match *hop {
        NextHop::Attached => hop_by(alloc, Value::Null, Value::Null, Value::Null),
        NextHop::PointToPoint { local, router } => {
            let interface = id_value(alloc, local.0)?;
            let router = id_value(alloc, router.0)?;
            hop_by(alloc, Value::Null, interface, router)
        }
        NextHop::Lan {
            local,
            router,
            address,
        } => {
            let address = id_value(alloc, address.0)?;
            let interface = id_value(alloc, local.0)?;
            let router = id_value(alloc, router.0)?;
            hop_by(alloc, address, interface, router)
        }
    }
}

// A hop as an object of its parts.
fn hop_by(
    alloc: Global,
    address: Value,
    interface: Value,
    router: Value,
) -> Result<Value, AllocError>
    ensures { IfOk result (λ value. view value
        ≡ hop_object_of (view address) (view interface) (view router)) }
{
    json!(in alloc; {"address": address, "interface": interface, "router": router})
}

// An address or a Router ID as its text.
fn id_value(alloc: Global, id: u32) -> Result<Value, AllocError>
    ensures { IfOk result (λ value. view value ≡ id_data id) }
{
    let text = format!(in alloc; "{}", Addr(id))?;
    Ok(Value::String(text))
}
