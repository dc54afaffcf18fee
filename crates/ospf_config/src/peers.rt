//! The ports of an interface's peers.

ghost use Rattle.std.specs.Prelude.{◌≡◌, ◌≤◌, ◌⊎◌, ◌↔◌, pos, map, Some, Ok, Err, IfOk, IfErr, OnOk, IsTrue, vec_len, is_some, length, All};
ghost use Rattle.std.specs.List.{list_all};
ghost use Rattle.toml.specs.Data.{as_integer};
ghost use Rattle.toml.specs.View.{view, table_view, items_view};
ghost use Rattle.ospf_config.specs.declared.fault.ConfigFault.TheVariants as fault;
ghost use Rattle.ospf_config.specs.Fault.{IsFaultIfAny};
ghost use Rattle.ospf_config.specs.Reading.{ReadsValue, integers_of};
ghost use Rattle.ospf_config.specs.Keys.{IsPort, ArePortNumbers, ReadsPeers};

use crate::fault::ConfigFault;
use crate::interface::{LEAST_PORT, Port};
use crate::keys::{number_in, value_at};
use std::alloc::{AllocError, Global};
use toml::{Table, Value};

// The most peers of an interface.
const MOST_PEERS: usize = 32;

/// The fault of the key `peers`, if it has one.
pub fn peers_fault(table: &Table) -> Option<ConfigFault>
    ensures { IsFaultIfAny (ReadsPeers (table_view table.now)) result }
{
    match value_at(table, "peers") {
        None => None,
        Some(value) => match value.as_array() {
            None => Some(ConfigFault::Type),
            Some(values) => match check(values) {
                Ok(()) => None,
                Err(fault) => Some(fault),
            },
        },
    }
}

// The ports at the key `peers`.
pub(crate) fn peers_at(alloc: Global, table: &Table) -> Result<Vec<Port>, ConfigFault>
    ensures reads { IfOk result (λ ports. ReadsPeers (table_view table.now) (Ok ports.items)) }
    ensures few { IfOk result (λ ports. vec_len ports ≤ 32) }
    ensures fault { IfErr result (λ f. (f ≡ fault.Memory)
        ⊎ ReadsPeers (table_view table.now) (Err f)) }
{
    match value_at(table, "peers") {
        None => Ok(Vec::new(alloc)),
        Some(value) => match value.as_array() {
            None => Err(ConfigFault::Type),
            Some(values) => read_ports(alloc, values),
        },
    }
}

// Whether values are at most 32 ports, or their fault.
fn check(values: &[Value]) -> Result<(), ConfigFault>
    ensures ports { OnOk result (All (λ v. IsPort (view v)) values.now) }
    ensures few { OnOk result (length values.now ≤ 32) }
    ensures fault { IfErr result (λ f. ReadsValue ArePortNumbers
        (integers_of (items_view values.now)) (Err f)) }
{
    if !are_integers(values) {
        return Err(ConfigFault::Type);
    }
    if values.len() > MOST_PEERS || !are_ports(values) {
        return Err(ConfigFault::Range);
    }
    Ok(())
}

// Whether each value is an integer.
fn are_integers(values: &[Value]) -> bool
    ensures { result ≡ list_all (λ v. is_some (as_integer (view v))) values.now }
{
    values.iter().all(|value| value.is_integer())
}

// Whether each value is a port.
fn are_ports(values: &[Value]) -> bool
    ensures { IsTrue result ↔ All (λ v. IsPort (view v)) values.now }
{
    values.iter().all(|value| is_port(value))
}

// Whether a value is a port.
fn is_port(value: &Value) -> bool
    ensures { IsTrue result ↔ IsPort (view value.now) }
{
    match port_in(value) {
        Ok(_) => true,
        Err(_) => false,
    }
}

// The port that a value is.
fn port_in(value: &Value) -> Result<Port, ConfigFault>
    ensures { ReadsValue (λ z p. z ≡ pos p.number) (as_integer (view value.now)) result }
{
    let number = number_in(value.as_integer(), LEAST_PORT, 65535)?;
    Ok(Port { number })
}

// The ports of a list of at most 32.
fn read_ports(alloc: Global, values: &[Value]) -> Result<Vec<Port>, ConfigFault>
    ensures reads { IfOk result (λ ports. ReadsValue ArePortNumbers
        (integers_of (items_view values.now)) (Ok ports.items)) }
    ensures few { IfOk result (λ ports. vec_len ports ≤ 32) }
    ensures fault { IfErr result (λ f. (f ≡ fault.Memory)
        ⊎ ReadsValue ArePortNumbers (integers_of (items_view values.now)) (Err f)) }
{
    check(values)?;
    let ports = ports_of(alloc, values)?;
    Ok(ports)
}

// The ports that values are.
fn ports_of(alloc: Global, values: &[Value]) -> Result<Vec<Port>, AllocError>
    requires { All (λ v. IsPort (view v)) values.now }
    ensures { IfOk result (λ ports. integers_of (items_view values.now)
        ≡ Some (map (λ p. pos p.number) ports.items)) }
{
    let mut ports = Vec::with_capacity(alloc, values.len())?;
    for value in values {
        match port_in(value) {
            Ok(port) => ports.push(port)?,
            Err(_) => unreachable!(),
        }
    }
    Ok(ports)
}
