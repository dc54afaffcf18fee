//! Rules on several keys.

ghost use Rattle.std.specs.Prelude.{◌≡◌, ◌⊎◌, ◌↔◌, IsTrue, IsSome, IfOk, IfErr, Some, Ok, All, Any, map, string_bytes};
ghost use Rattle.std.specs.BTreeMap.{keys};
ghost use Rattle.std.specs.List.{AllZip};
ghost use Rattle.toml.specs.Data.{as_table};
ghost use Rattle.toml.specs.View.{view, table_view, items_view};
ghost use Rattle.ospf_config.specs.declared.fault.ConfigFault.TheVariants as fault;
ghost use Rattle.ospf_config.specs.Conflicts.{Conflict, HasConflict};
ghost use Rattle.ospf_config.specs.Keys.{ReadsInterfaceAddress};
ghost use Rattle.ospf_config.specs.Tables.{HasInterfaceFault, HasKeyFault, HasSameAddress, IsOtherKey, HasOtherBelow, HasOtherKey, IsDeadNotOverHello, IsTableWith, interface_tables, tables_among, top_keys, interface_keys};

use crate::address::InterfaceAddress;
use crate::fault::ConfigFault;
use crate::faults::interface_values;
use crate::hosts::{host_names, host_values, is_any_taken};
use crate::keys::{address_at, dead_integer, hello_integer};
use crate::top::asks_rfc3021;
use std::alloc::Global;
use toml::{Table, Value};

/// The table that a value is.
pub fn table_in(value: &Value) -> &Table
    requires { IsSome (as_table (view value.now)) }
    ensures { as_table (view value.now) ≡ Some (table_view result.now) }
{
    match value.as_table() {
        Some(table) => table,
        None => unreachable!(),
    }
}

/// Whether the interface would be dead no later than its next Hello, by the
/// integers at its keys or their defaults: also where one is out of its range.
pub fn is_dead_not_over_hello(table: &Table) -> bool
    ensures { IsTrue result ↔ IsDeadNotOverHello (table_view table.now) }
{
    match (hello_integer(table), dead_integer(table)) {
        (Some(hello), Some(dead)) => dead <= hello,
        _ => false,
    }
}

/// Whether a key is none of these.
pub fn is_other(key: &str, known: &[&str]) -> bool
    ensures { IsTrue result ↔ IsOtherKey (map (λ k. k.now) known.now) key.now }
{
    !is_among(key, known)
}

/// The keys of an interface.
pub fn interface_names() -> [&'static str; 13]
    ensures { map (λ k. k.now) result ≡ interface_keys }
{
    [
        "kind",
        "address",
        "cost",
        "priority",
        "hello",
        "dead",
        "retransmit",
        "transmit_delay",
        "mtu",
        "port",
        "peers",
        "passive",
        "prefix_suppression",
    ]
}

/// The keys at the top.
pub fn top_names() -> [&'static str; 7]
    ensures { map (λ k. k.now) result ≡ top_keys }
{
    [
        "router_id",
        "area",
        "stub_router",
        "other_lsas",
        "rfc3021",
        "interface",
        "host",
    ]
}

// Whether interfaces are in one prefix, or an address is that of two interfaces, of two hosts or of
// both.
pub(crate) fn has_same_address(alloc: Global, table: &Table) -> Result<bool, ConfigFault>
    requires { (f : ConfigFault) → HasKeyFault (table_view table.now) f → ⊥ }
    ensures ok { IfOk result (λ has. IsTrue has ↔ HasSameAddress (table_view table.now)) }
    ensures fault { IfErr result (λ f. f ≡ fault.Memory) }
{
    let interfaces = interface_values(table);
    let rfc3021 = asks_rfc3021(table);
    let addresses = addresses_of(alloc, interfaces, rfc3021)?;
    if has_conflict(&addresses) {
        return Ok(true);
    }
    let taken = is_any_taken(interfaces, host_values(table), rfc3021);
    Ok(taken)
}

// Whether one of the interfaces would be dead no later than its next Hello.
pub(crate) fn is_any_dead(table: &Table) -> bool
    ensures { IsTrue result ↔ Any IsDeadNotOverHello (interface_tables (table_view table.now)) }
{
    is_any_value_dead(interface_values(table))
}

// Whether a key is not known.
pub(crate) fn is_any_unknown(table: &Table) -> bool
    ensures { IsTrue result ↔ (HasOtherKey top_keys (table_view table.now)
        ⊎ HasOtherBelow (table_view table.now)) }
{
    has_other_key(table, &top_names()) || is_any_unknown_below(table)
}

// The addresses of the interfaces.
fn addresses_of(
    alloc: Global,
    values: &[Value],
    rfc3021: bool,
) -> Result<Vec<InterfaceAddress>, ConfigFault>
    requires { All (λ v. IsSome (as_table (view v))) values.now }
    ensures ok { IfOk result (λ addresses. AllZip (λ t a. ReadsInterfaceAddress rfc3021 t (Ok a))
        (tables_among (items_view values.now)) addresses.items) }
    ensures fault { IfErr result (λ f. (f ≡ fault.Memory)
        ⊎ Any (λ t. HasInterfaceFault rfc3021 t f) (tables_among (items_view values.now))) }
{
    let mut addresses = Vec::with_capacity(alloc, values.len())?;
    for value in values {
        addresses.push(address_at(table_in(value), rfc3021)?)?;
    }
    Ok(addresses)
}

// Whether two of the addresses are in conflict.
fn has_conflict(addresses: &[InterfaceAddress]) -> bool
    ensures { IsTrue result ↔ HasConflict addresses.now }
{
    let mut rest = addresses;
    while let Some((first, after)) = rest.split_first() {
        if conflicts_with_any(first, after) {
            return true;
        }
        rest = after;
    }
    false
}

// Whether one of the interfaces would be dead no later than its next Hello, by their values.
fn is_any_value_dead(values: &[Value]) -> bool
    ensures { IsTrue result ↔ Any (λ v. IsTableWith IsDeadNotOverHello (view v)) values.now }
{
    values.iter().any(|value| is_value_dead(value))
}

// Whether a key of an interface or of a host is not known.
fn is_any_unknown_below(table: &Table) -> bool
    ensures { IsTrue result ↔ HasOtherBelow (table_view table.now) }
{
    has_any_unknown_key(interface_values(table), &interface_names())
        || has_any_unknown_key(host_values(table), &host_names())
}

// Whether a key is one of these.
fn is_among(key: &str, known: &[&str]) -> bool
    ensures { IsTrue result ↔ Any (λ k. k.now ≡ key.now) known.now }
{
    known.iter().any(|name| *name == key)
}

// Whether an address is in conflict with one of these.
fn conflicts_with_any(address: &InterfaceAddress, others: &[InterfaceAddress]) -> bool
    ensures { IsTrue result ↔ Any (Conflict address.now) others.now }
{
    others.iter().any(|other| address.conflicts_with(other))
}

// Whether a value is the table of an interface whose RouterDeadInterval
// is not over its HelloInterval.
fn is_value_dead(value: &Value) -> bool
    ensures { IsTrue result ↔ IsTableWith IsDeadNotOverHello (view value.now) }
{
    match value.as_table() {
        None => false,
        Some(table) => is_dead_not_over_hello(table),
    }
}

// Whether a table has a key other than these.
fn has_other_key(table: &Table, known: &[&str]) -> bool
    ensures { IsTrue result ↔ HasOtherKey (map (λ k. k.now) known.now) (table_view table.now) }
{
    is_any_other(table, known)
}

// Whether one of the keys of a table is none of these.
fn is_any_other(table: &Table, known: &[&str]) -> bool
    ensures { IsTrue result ↔ Any (λ k. IsOtherKey (map (λ n. n.now) known.now) (string_bytes k))
        (keys table.now) }
{
    table.keys().any(|key| is_other(key.as_str(), known))
}

// Whether one of the values is a table with a key other than these.
fn has_any_unknown_key(values: &[Value], known: &[&str]) -> bool
    ensures { IsTrue result ↔ Any (λ v. IsTableWith (HasOtherKey (map (λ k. k.now) known.now))
        (view v)) values.now }
{
    values.iter().any(|value| has_unknown_key(value, known))
}

// Whether a value is a table with a key other than these.
fn has_unknown_key(value: &Value, known: &[&str]) -> bool
    ensures { IsTrue result ↔ IsTableWith (HasOtherKey (map (λ k. k.now) known.now))
        (view value.now) }
{
    match value.as_table() {
        None => false,
        Some(table) => has_other_key(table, known),
    }
}
