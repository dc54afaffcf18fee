//! The hosts behind a router.

ghost use Rattle.std.specs.Prelude.{◌≡◌, ◌⊎◌, ◌↔◌, IsTrue, IsSome, IfOk, IfErr, All, Any, map, option_copied};
ghost use Rattle.std.specs.List.{AllZip};
ghost use Rattle.toml.specs.Data.{as_table};
ghost use Rattle.toml.specs.View.{view, table_view, items_view};
ghost use Rattle.ospf_config.specs.declared.fault.ConfigFault.TheVariants as fault;
ghost use Rattle.ospf_config.specs.Fault.{IsLeastIfAny, IsFaultIfAny};
ghost use Rattle.ospf_config.specs.Interfaces.{IsHostOf};
ghost use Rattle.ospf_config.specs.Keys.{ReadsHostAddress, ReadsHostCost};
ghost use Rattle.ospf_config.specs.Reading.{ReadsValue};
ghost use Rattle.ospf_config.specs.Tables.{HasHostFault, IsAtHost, IsAtInterface, IsAnyTaken, IsTableWith, HasTakenAddress, ReadsHosts, host_keys, host_tables, tables_among};
ghost use Rattle.ospf_config.specs.Texts.{IsHostText};

use crate::address::{dotted_number, is_unicast};
use crate::fault::{ConfigFault, earlier};
use crate::faults::{are_all_tables, tables_at};
use crate::keys::{address_at, number_in, value_at};
use crate::rules::table_in;
use ospf_base::{Addr, Prefix, StubNetwork};
use std::alloc::Global;
use toml::{Table, Value};

// The most hosts of a router.
const MOST_HOSTS: usize = 32;

/// The address at the key `address` of a host, or the fault of the key.
pub fn host_address_at(table: &Table) -> Result<Addr, ConfigFault>
    ensures { ReadsHostAddress (table_view table.now) result }
{
    match value_at(table, "address") {
        None => Err(ConfigFault::Missing),
        Some(value) => host_address_of(value.as_str()),
    }
}

/// The cost of the link to a host at the key `cost`, which may be 0, or the fault of the key.
pub fn host_cost_at(table: &Table) -> Result<u16, ConfigFault>
    ensures { ReadsHostCost (table_view table.now) result }
{
    match value_at(table, "cost") {
        None => Err(ConfigFault::Missing),
        Some(value) => number_in(value.as_integer(), 0, 65535),
    }
}

/// The fault of the key `host`, if it has one.
pub fn host_list_fault(table: &Table) -> Option<ConfigFault>
    ensures { IsFaultIfAny (ReadsHosts (table_view table.now)) result }
{
    let Some(value) = value_at(table, "host") else {
        return None;
    };
    match value.as_array() {
        None => Some(ConfigFault::Type),
        Some(values) => {
            if !are_all_tables(values) {
                return Some(ConfigFault::Type);
            }
            if values.len() > MOST_HOSTS {
                return Some(ConfigFault::Range);
            }
            None
        }
    }
}

/// The tables of the hosts, or none where the key `host` is no list of tables.
pub fn host_values(table: &Table) -> &[Value]
    ensures tables { tables_among (items_view result.now) ≡ host_tables (table_view table.now) }
    ensures all { All (λ v. IsSome (as_table (view v))) result.now }
{
    tables_at(table, "host")
}

/// The keys of a host.
pub fn host_names() -> [&'static str; 2]
    ensures { map (λ k. k.now) result ≡ host_keys }
{
    ["address", "cost"]
}

/// Whether the host of a table has the address of one of the interfaces, or of one of the hosts
/// before it.
pub fn is_taken(interfaces: &[Value], before: &[Value], host: &Table, rfc3021: bool) -> bool
    ensures { IsTrue result ↔ HasTakenAddress rfc3021 (tables_among (items_view interfaces.now))
        (tables_among (items_view before.now)) (table_view host.now) }
{
    is_at_any_interface(host, interfaces, rfc3021) || is_at_any_host(host, before)
}

// Whether one of the hosts has the address of an interface or of a host before it.
pub(crate) fn is_any_taken(interfaces: &[Value], hosts: &[Value], rfc3021: bool) -> bool
    requires { All (λ v. IsSome (as_table (view v))) hosts.now }
    ensures { IsTrue result ↔ IsAnyTaken rfc3021 (tables_among (items_view interfaces.now))
        (tables_among (items_view hosts.now)) }
{
    for (place, value) in hosts.iter().enumerate() {
        let before = &hosts[..place];
        if is_taken(interfaces, before, table_in(value), rfc3021) {
            return true;
        }
    }
    false
}

// The least fault of the keys of hosts.
pub(crate) fn hosts_fault(values: &[Value]) -> Option<ConfigFault>
    ensures { IsLeastIfAny (λ f. Any (λ v. IsTableWith (λ t. HasHostFault t f) (view v)) values.now)
        result }
{
    let mut least = None;
    for value in values {
        least = earlier(least, value_fault(value));
    }
    least
}

// The hosts that tables describe, in order.
pub(crate) fn hosts_of(alloc: Global, values: &[Value]) -> Result<Vec<StubNetwork>, ConfigFault>
    requires { All (λ v. IsSome (as_table (view v))) values.now }
    ensures ok { IfOk result (λ hosts. AllZip IsHostOf (tables_among (items_view values.now))
        hosts.items) }
    ensures fault { IfErr result (λ f. (f ≡ fault.Memory)
        ⊎ Any (λ t. HasHostFault t f) (tables_among (items_view values.now))) }
{
    let mut hosts = Vec::with_capacity(alloc, values.len())?;
    for value in values {
        hosts.push(host_at(table_in(value))?)?;
    }
    Ok(hosts)
}

// The host that a table describes.
fn host_at(table: &Table) -> Result<StubNetwork, ConfigFault>
    ensures ok { IfOk result (IsHostOf (table_view table.now)) }
    ensures fault { IfErr result (HasHostFault (table_view table.now)) }
{
    let address = host_address_at(table)?;
    let cost = host_cost_at(table)?;
    let length = 32;
    let prefix = Prefix { address, length };
    Ok(StubNetwork { prefix, cost })
}

// The least fault of a value that should be a host; one that is no table has none of these.
fn value_fault(value: &Value) -> Option<ConfigFault>
    ensures { IsLeastIfAny (λ f. IsTableWith (λ t. HasHostFault t f) (view value.now)) result }
{
    match value.as_table() {
        None => None,
        Some(table) => host_fault(table),
    }
}

// The least fault of the keys of a host.
fn host_fault(table: &Table) -> Option<ConfigFault>
    ensures { IsLeastIfAny (HasHostFault (table_view table.now)) result }
{
    earlier(host_address_at(table).err(), host_cost_at(table).err())
}

// The address of a host that a text spells.
fn host_address_of(text: Option<&str>) -> Result<Addr, ConfigFault>
    ensures { ReadsValue IsHostText (option_copied text.entry) result }
{
    let Some(text) = text else {
        return Err(ConfigFault::Type);
    };
    match dotted_number(text) {
        Some(number) => {
            if is_unicast(number) {
                Ok(Addr(number))
            } else {
                Err(ConfigFault::Range)
            }
        }
        None => Err(ConfigFault::Range),
    }
}

// Whether the host has the address of one of the interfaces.
fn is_at_any_interface(host: &Table, interfaces: &[Value], rfc3021: bool) -> bool
    ensures { IsTrue result ↔ Any (λ v. IsTableWith (IsAtInterface rfc3021 (table_view host.now))
        (view v)) interfaces.now }
{
    interfaces
        .iter()
        .any(|value| is_at_interface_value(host, value, rfc3021))
}

// Whether the host has the address of one of the hosts.
fn is_at_any_host(host: &Table, others: &[Value]) -> bool
    ensures { IsTrue result ↔ Any (λ v. IsTableWith (IsAtHost (table_view host.now)) (view v))
        others.now }
{
    others.iter().any(|value| is_at_host_value(host, value))
}

// Whether a value is the table of an interface that has the address of the host.
fn is_at_interface_value(host: &Table, value: &Value, rfc3021: bool) -> bool
    ensures { IsTrue result ↔ IsTableWith (IsAtInterface rfc3021 (table_view host.now))
        (view value.now) }
{
    match value.as_table() {
        None => false,
        Some(interface) => is_at_interface(host, interface, rfc3021),
    }
}

// Whether a value is the table of a host that has the address of the host.
fn is_at_host_value(host: &Table, value: &Value) -> bool
    ensures { IsTrue result ↔ IsTableWith (IsAtHost (table_view host.now)) (view value.now) }
{
    match value.as_table() {
        None => false,
        Some(other) => is_at_host(host, other),
    }
}

// Whether a host has the address of an interface.
fn is_at_interface(host: &Table, interface: &Table, rfc3021: bool) -> bool
    ensures { IsTrue result ↔ IsAtInterface rfc3021 (table_view host.now)
        (table_view interface.now) }
{
    match host_address_at(host) {
        Err(_) => false,
        Ok(here) => match address_at(interface, rfc3021) {
            Err(_) => false,
            Ok(there) => here.0 == there.address.0,
        },
    }
}

// Whether a host has the address of another.
fn is_at_host(host: &Table, other: &Table) -> bool
    ensures { IsTrue result ↔ IsAtHost (table_view host.now) (table_view other.now) }
{
    match (host_address_at(host), host_address_at(other)) {
        (Ok(here), Ok(there)) => here.0 == there.0,
        _ => false,
    }
}
