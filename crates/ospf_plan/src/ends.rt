//! The interfaces of an area's configurations.

ghost use Rattle.std.specs.Prelude.{◌≡◌, ◌++◌, IfOk, OnOk, filter};
ghost use Rattle.ospf_plan.specs.Ends.{can_be_elected, link_end_of, ends_at, ends_of, is_slow, is_slow_end, port_of};

use ospf_base::{AreaId, InterfaceKind, MAX_AGE_DIFF, RouterId};
use ospf_config::{Config, Interface, InterfaceAddress, Port};
use std::alloc::{AllocError, Global};

/// An interface of one of the configurations, as the others of its network see it.
#[derive(Clone, Copy, Debug, PartialEq, Eq)]
pub struct LinkEnd {
    /// The number of the configuration, from 0.
    pub file: usize,
    /// The number of the interface in it, from 0.
    pub link: usize,
    pub router: RouterId,
    pub area: AreaId,
    pub kind: InterfaceKind,
    pub address: InterfaceAddress,
    pub cost: u16,
    pub priority: u8,
    /// HelloInterval, in ticks.
    pub hello: u16,
    /// RouterDeadInterval, in ticks.
    pub dead: u16,
    /// In bytes.
    pub mtu: u16,
    /// InfTransDelay, in ticks.
    pub transmit_delay: u16,
    pub port: Option<Port>,
}

/// Whether an InfTransDelay, in ticks, is over MaxAgeDiff: an LSA that is sent is then so much
/// older that it is no longer taken for the same instance (RFC 2328, sections 13.1 and 13.3).
pub fn is_slow(transmit_delay: u16) -> bool
    ensures { result ≡ is_slow transmit_delay }
{
    transmit_delay > MAX_AGE_DIFF
}

// An interface of a configuration, with their numbers.
pub(crate) fn end_of(file: usize, config: &Config, link: usize, interface: &Interface) -> LinkEnd
    ensures { result ≡ link_end_of (file, config.now) (link, interface.now) }
{
    LinkEnd {
        file,
        link,
        router: config.router_id,
        area: config.area,
        kind: interface.kind,
        address: interface.address,
        cost: interface.cost,
        priority: interface.priority,
        hello: interface.hello,
        dead: interface.dead,
        mtu: interface.mtu,
        transmit_delay: interface.transmit_delay,
        port: interface.port,
    }
}

// The interfaces of configurations, in order.
pub(crate) fn ends_of(alloc: Global, configs: &[Config]) -> Result<Vec<LinkEnd>, AllocError>
    ensures { IfOk result (λ ends. ends.items ≡ ends_of configs.now) }
{
    let mut ends = Vec::new(alloc);
    for (file, config) in configs.iter().enumerate() {
        push_ends(&mut ends, file, config)?;
    }
    Ok(ends)
}

/// The ends that can be elected as Designated Router.
pub(crate) fn electors(alloc: Global, ends: &[LinkEnd]) -> Result<Vec<LinkEnd>, AllocError>
    ensures { IfOk result (λ some. some.items ≡ filter can_be_elected ends.now) }
{
    let mut some = Vec::from_slice(alloc, ends)?;
    some.retain(|end| end.priority > 0);
    Ok(some)
}

// The port of an interface; 0 where it has none.
pub(crate) fn port_of(end: &LinkEnd) -> u16
    ensures { result ≡ port_of end.now }
{
    match end.port {
        None => 0,
        Some(port) => port.number,
    }
}

/// The ends whose InfTransDelay makes them slow.
pub(crate) fn slow_ends(alloc: Global, ends: &[LinkEnd]) -> Result<Vec<LinkEnd>, AllocError>
    ensures { IfOk result (λ some. some.items ≡ filter is_slow_end ends.now) }
{
    let mut some = Vec::from_slice(alloc, ends)?;
    some.retain(|end| is_slow(end.transmit_delay));
    Ok(some)
}

// Adds the interfaces of a configuration.
fn push_ends(ends: &mut Vec<LinkEnd>, file: usize, config: &Config) -> Result<(), AllocError>
    ensures { OnOk result (ends.new.items ≡ ends.old.items ++ ends_at (file, config.now)) }
{
    for (link, interface) in config.interfaces.iter().enumerate() {
        ends.push(end_of(file, config, link, interface))?;
    }
    Ok(())
}
