//! A routing table, and what it says of addresses, as text.

ghost use Rattle.std.specs.Prelude.{◌≡◌, ◌<◌, IfOk, Some, length, slice_get, string_bytes};
ghost use Rattle.ospf_graph.specs.Walk.{IsBest};
ghost use Rattle.ospf_files.specs.Shown.{lookup_none_line, routes_text};
ghost use Rattle.ospf_table.specs.Output.{AreLookups, IsBestLine, IsLookupLine, IsOutput};

use ospf_base::{Addr, Prefix};
use ospf_graph::{NextHop, Route};
use ospf_spf::RouteTable;
use std::alloc::{AllocError, Global};
use std::fmt::{self, Display, Formatter, Write};

/// What is printed of a table and of addresses that are looked up in it, as `table_text` prints it.
///
/// `AllocError` where memory runs out.
pub fn output_text(
    alloc: Global,
    table: &RouteTable,
    addresses: &[Addr],
) -> Result<String, AllocError>
    ensures { IfOk result (λ text. IsOutput table.now addresses.now (string_bytes text)) }
{
    let mut text = routes_text(alloc, table.routes())?;
    let lookups = lookups_text(alloc, table, addresses)?;
    text.push_str(&lookups)?;
    Ok(text)
}

// The lines of routes.
fn routes_text(alloc: Global, routes: &[Route]) -> Result<String, AllocError>
    ensures { IfOk result (λ text. string_bytes text ≡ routes_text routes.now) }
{
    let mut text = String::new(alloc);
    for route in routes {
        writeln!(text, "{route}")?;
    }
    Ok(text)
}

// The lines of addresses.
fn lookups_text(alloc: Global, table: &RouteTable, addresses: &[Addr]) -> Result<String, AllocError>
    ensures { IfOk result (λ text. AreLookups table.now addresses.now (string_bytes text)) }
{
    let mut text = String::new(alloc);
    for address in addresses {
        let line = lookup_line(alloc, table, *address)?;
        text.push_str(&line)?;
    }
    Ok(text)
}

// The line of an address.
fn lookup_line(alloc: Global, table: &RouteTable, address: Addr) -> Result<String, AllocError>
    ensures { IfOk result (λ line. IsLookupLine table.now address.0 (string_bytes line)) }
{
    match table.lookup(address) {
        Some(route) => found_line(alloc, table, address, route),
        None => none_line(alloc, address),
    }
}

// The line of an address that a route leads to.
fn found_line(
    alloc: Global,
    table: &RouteTable,
    address: Addr,
    route: &Route,
) -> Result<String, AllocError>
    requires best { IsBest table.now address.0 route.now }
    requires hop { 0 < length route.now.hops }
    ensures { IfOk result (λ line. IsBestLine table.now address.0 (string_bytes line)) }
{
    let taken = LookupLine {
        address,
        prefix: route.prefix,
        cost: route.cost,
        hop: first_hop(route),
    };
    let line = format!(in alloc; "{taken}\n")?;
    Ok(line)
}

// An address, with the prefix and the cost of the route that it takes, and the first of its hops.
#[derive(Clone, Copy)]
struct LookupLine {
    address: Addr,
    prefix: Prefix,
    cost: u64,
    hop: NextHop,
}

impl Display for LookupLine {
    ghost use Rattle.std.specs.Prelude.{Some};
    ghost use Rattle.ospf_fib.specs.Found.{found_text};

    ghost output = { λ t. Some (found_text t.address.0 t.prefix t.cost t.hop) };

    fn fmt<W: Write>(&self, f: &mut Formatter<W>) -> fmt::Result {
        write!(
            f,
            "lookup {} {} {} {}",
            self.address, self.prefix, self.cost, self.hop
        )
    }
}

// The first hop of a route.
fn first_hop(route: &Route) -> NextHop
    requires { 0 < length route.now.hops }
    ensures { slice_get route.now.hops 0 ≡ Some result }
{
    route.hops.as_slice()[0]
}

// The line of an address that no route leads to.
fn none_line(alloc: Global, address: Addr) -> Result<String, AllocError>
    ensures { IfOk result (λ line. string_bytes line ≡ lookup_none_line address.0) }
{
    format!(in alloc; "lookup {address} none\n")
}
