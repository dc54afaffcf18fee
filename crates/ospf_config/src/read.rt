//! Configurations from TOML.

ghost use Rattle.std.specs.Prelude.{◌≡◌, ◌⊎◌, IsSome, IfOk, IfErr, OnOk, All, Any};
ghost use Rattle.std.specs.List.{AllZip};
ghost use Rattle.toml.specs.Data.{as_table};
ghost use Rattle.toml.specs.View.{view, table_view, items_view};
ghost use Rattle.ospf_config.specs.declared.fault.ConfigFault.{ConfigFault};
ghost use Rattle.ospf_config.specs.declared.fault.ConfigFault.TheVariants as fault;
ghost use Rattle.ospf_config.specs.Fault.{IsLeastFault};
ghost use Rattle.ospf_config.specs.Tables.{HasInterfaceFault, HasKeyFault, HasConfigFault, IsDeadNotOverHello, IsTableWith, active_among, tables_among};
ghost use Rattle.ospf_config.specs.Interfaces.{IsInterfaceOf};
ghost use Rattle.ospf_config.specs.Configs.{IsConfigOf, IsReading, TextHasFault};

use crate::config::Config;
use crate::fault::ConfigFault;
use crate::faults::{interface_values, key_fault};
use crate::hosts::host_values;
use crate::interface::Interface;
use crate::keys::{
    address_at, cost_at, dead_at, hello_at, is_passive, kind_at, mtu_at, port_at,
    prefix_suppression_at, priority_at, retransmit_at, transmit_delay_at,
};
use crate::passive::stubs_of;
use crate::peers::peers_at;
use crate::rules::{has_same_address, is_any_dead, is_any_unknown, table_in};
use crate::top::{area_at, asks_rfc3021, other_lsas_at, router_id_at, stub_router_at};
use std::alloc::Global;
use toml::{Table, Value};

impl Config {
    /// Reads a configuration from TOML.
    ///
    /// The error is the fault of least number that the text has, or `Memory` where memory ran out.
    pub fn from_text(alloc: Global, text: &str) -> Result<Config, ConfigFault>
        ensures ok { IfOk result (IsReading text.now) }
        ensures free { OnOk result ((f : ConfigFault) → TextHasFault text.now f → ⊥) }
        ensures fault { IfErr result (λ f. (f ≡ fault.Memory)
            ⊎ IsLeastFault (TextHasFault text.now) f) }
    {
        match toml::table_from_str(alloc, text) {
            Ok(table) => {
                let config = config_of(alloc, &table)?;
                Ok(config)
            }
            Err(error) if error.is_memory() => Err(ConfigFault::Memory),
            Err(_) => Err(ConfigFault::NotToml),
        }
    }
}

// The configuration of a table, or its least fault.
fn config_of(alloc: Global, table: &Table) -> Result<Config, ConfigFault>
    ensures ok { IfOk result (IsConfigOf (table_view table.now)) }
    ensures free { OnOk result ((f : ConfigFault) → HasConfigFault (table_view table.now) f → ⊥) }
    ensures fault { IfErr result (λ f. (f ≡ fault.Memory)
        ⊎ IsLeastFault (HasConfigFault (table_view table.now)) f) }
{
    match key_fault(table) {
        Some(fault) => Err(fault),
        None => config_by_rules(alloc, table),
    }
}

// The configuration of a table whose keys have no fault, or the least
// fault of the rules on several.
fn config_by_rules(alloc: Global, table: &Table) -> Result<Config, ConfigFault>
    requires { (f : ConfigFault) → HasKeyFault (table_view table.now) f → ⊥ }
    ensures ok { IfOk result (IsConfigOf (table_view table.now)) }
    ensures free { OnOk result ((f : ConfigFault) → HasConfigFault (table_view table.now) f → ⊥) }
    ensures fault { IfErr result (λ f. (f ≡ fault.Memory)
        ⊎ IsLeastFault (HasConfigFault (table_view table.now)) f) }
{
    let same = has_same_address(alloc, table)?;
    if same {
        return Err(ConfigFault::SamePrefix);
    }
    if is_any_dead(table) {
        return Err(ConfigFault::DeadNotOverHello);
    }
    if is_any_unknown(table) {
        return Err(ConfigFault::Unknown);
    }
    let config = config_at(alloc, table)?;
    Ok(config)
}

// The configuration that a table without faults describes: only memory can run out.
fn config_at(alloc: Global, table: &Table) -> Result<Config, ConfigFault>
    requires { (f : ConfigFault) → HasConfigFault (table_view table.now) f → ⊥ }
    ensures ok { IfOk result (IsConfigOf (table_view table.now)) }
    ensures fault { IfErr result (λ f. f ≡ fault.Memory) }
{
    let router_id = router_id_at(table)?;
    let area = area_at(table)?;
    let stub_router = stub_router_at(table)?;
    let passes_over = other_lsas_at(table)?;
    let values = interface_values(table);
    let rfc3021 = asks_rfc3021(table);
    let interfaces = interfaces_of(alloc, values, rfc3021)?;
    let stubs = stubs_of(alloc, values, host_values(table), rfc3021)?;
    Ok(Config {
        router_id,
        area,
        stub_router,
        passes_over,
        interfaces,
        stubs,
    })
}

// The interfaces that tables describe, in order, but for the passive ones.
fn interfaces_of(
    alloc: Global,
    values: &[Value],
    rfc3021: bool,
) -> Result<Vec<Interface>, ConfigFault>
    requires tables { All (λ v. IsSome (as_table (view v))) values.now }
    requires hellos { Any (λ v. IsTableWith IsDeadNotOverHello (view v)) values.now → ⊥ }
    ensures ok { IfOk result (λ interfaces. AllZip (IsInterfaceOf rfc3021)
        (active_among (tables_among (items_view values.now))) interfaces.items) }
    ensures fault { IfErr result (λ f. (f ≡ fault.Memory)
        ⊎ Any (λ t. HasInterfaceFault rfc3021 t f) (tables_among (items_view values.now))) }
{
    let mut interfaces = Vec::with_capacity(alloc, values.len())?;
    for value in values {
        let table = table_in(value);
        if !is_passive(table) {
            interfaces.push(interface_at(alloc, table, rfc3021)?)?;
        }
    }
    Ok(interfaces)
}

// The interface that a table describes.
fn interface_at(alloc: Global, table: &Table, rfc3021: bool) -> Result<Interface, ConfigFault>
    requires { IsDeadNotOverHello (table_view table.now) → ⊥ }
    ensures ok { IfOk result (IsInterfaceOf rfc3021 (table_view table.now)) }
    ensures fault { IfErr result (λ f. (f ≡ fault.Memory)
        ⊎ HasInterfaceFault rfc3021 (table_view table.now) f) }
{
    let kind = kind_at(table)?;
    let address = address_at(table, rfc3021)?;
    let cost = cost_at(table)?;
    let priority = priority_at(table)?;
    let hello = hello_at(table)?;
    let dead = dead_at(table)?;
    let retransmit = retransmit_at(table)?;
    let transmit_delay = transmit_delay_at(table)?;
    let mtu = mtu_at(table)?;
    let port = port_at(table)?;
    let peers = peers_at(alloc, table)?;
    let prefix_suppression = prefix_suppression_at(table)?;
    Ok(Interface {
        kind,
        address,
        cost,
        priority,
        hello,
        dead,
        retransmit,
        transmit_delay,
        mtu,
        port,
        peers,
        prefix_suppression,
    })
}
