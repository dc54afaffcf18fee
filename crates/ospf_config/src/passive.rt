//! Passive interfaces, whose networks are stub networks of the router.

ghost use Rattle.std.specs.Prelude.{◌≡◌, ◌⊎◌, ◌↔◌, IsTrue, IsSome, IfOk, IfErr, All, Any};
ghost use Rattle.std.specs.List.{AllZip};
ghost use Rattle.toml.specs.Data.{as_table};
ghost use Rattle.toml.specs.View.{view, table_view, items_view};
ghost use Rattle.ospf_config.specs.declared.fault.ConfigFault.TheVariants as fault;
ghost use Rattle.ospf_config.specs.Interfaces.{AreStubNetworksOf, IsStubNetworkOf};
ghost use Rattle.ospf_config.specs.Keys.{IsActive};
ghost use Rattle.ospf_config.specs.Tables.{HasHostFault, HasInterfaceFault, IsTableWith, passive_among, tables_among};

use crate::fault::ConfigFault;
use crate::hosts::hosts_of;
use crate::keys::{address_at, cost_at, is_passive};
use crate::rules::table_in;
use ospf_base::StubNetwork;
use std::alloc::Global;
use toml::{Table, Value};

// Whether one of the interfaces is not passive.
pub(crate) fn is_any_active(values: &[Value]) -> bool
    ensures { IsTrue result ↔ Any (λ v. IsTableWith IsActive (view v)) values.now }
{
    values.iter().any(|value| is_active(value))
}

// The stub networks of a router: those of its passive interfaces in order, then its hosts in order.
pub(crate) fn stubs_of(
    alloc: Global,
    interfaces: &[Value],
    hosts: &[Value],
    rfc3021: bool,
) -> Result<Vec<StubNetwork>, ConfigFault>
    requires tables { All (λ v. IsSome (as_table (view v))) interfaces.now }
    requires host_tables { All (λ v. IsSome (as_table (view v))) hosts.now }
    ensures ok { IfOk result (λ stubs. AreStubNetworksOf rfc3021
        (passive_among (tables_among (items_view interfaces.now)))
        (tables_among (items_view hosts.now)) stubs.items) }
    ensures fault { IfErr result (λ f. (f ≡ fault.Memory)
        ⊎ (Any (λ t. HasInterfaceFault rfc3021 t f) (tables_among (items_view interfaces.now))
        ⊎ Any (λ t. HasHostFault t f) (tables_among (items_view hosts.now)))) }
{
    let mut stubs = networks_of(alloc, interfaces, rfc3021)?;
    let behind = hosts_of(alloc, hosts)?;
    stubs.extend_from_slice(&behind)?;
    Ok(stubs)
}

// The stub networks of the passive interfaces among tables, in order.
fn networks_of(
    alloc: Global,
    values: &[Value],
    rfc3021: bool,
) -> Result<Vec<StubNetwork>, ConfigFault>
    requires { All (λ v. IsSome (as_table (view v))) values.now }
    ensures ok { IfOk result (λ networks. AllZip (IsStubNetworkOf rfc3021)
        (passive_among (tables_among (items_view values.now))) networks.items) }
    ensures fault { IfErr result (λ f. (f ≡ fault.Memory)
        ⊎ Any (λ t. HasInterfaceFault rfc3021 t f) (tables_among (items_view values.now))) }
{
    let mut networks = Vec::new(alloc);
    for value in values {
        let table = table_in(value);
        if is_passive(table) {
            networks.push(network_at(table, rfc3021)?)?;
        }
    }
    Ok(networks)
}

// The stub network of a passive interface: the prefix of its address, at its cost.
fn network_at(table: &Table, rfc3021: bool) -> Result<StubNetwork, ConfigFault>
    ensures ok { IfOk result (IsStubNetworkOf rfc3021 (table_view table.now)) }
    ensures fault { IfErr result (HasInterfaceFault rfc3021 (table_view table.now)) }
{
    let address = address_at(table, rfc3021)?;
    let cost = cost_at(table)?;
    let prefix = address.prefix();
    Ok(StubNetwork { prefix, cost })
}

// Whether a value is the table of an interface that is not passive.
fn is_active(value: &Value) -> bool
    ensures { IsTrue result ↔ IsTableWith IsActive (view value.now) }
{
    match value.as_table() {
        None => false,
        Some(table) => !is_passive(table),
    }
}
