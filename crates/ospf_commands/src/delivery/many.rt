//! Events at many routers.

ghost use Rattle.std.specs.Prelude.{◌≡◌, ◌++◌, IfOk, OnOk, flat_map};
ghost use Rattle.std.specs.List.{enumerate_from};
ghost use Rattle.ospf_commands.specs.Deliveries.Many.{ComesAbout, config_events, events_on, is_meant, link_event, many_of};
ghost use Rattle.ospf_world.specs.Watching.{Told};

use crate::delivery::losses::is_network_of;
use ospf_base::{NO_FLOOR, RouterId};
use ospf_config::{Config, Interface, InterfaceAddress};
use ospf_script::Many;
use ospf_world::{EventWatch, Slot, World, WorldEvent, WorldFault};
use std::alloc::{AllocError, Global};

// The first DD sequence number of each router in `start all`.
const DD_START: u32 = 1;

/// Makes these events happen at each router, in the order of the configurations. Refusals are
/// passed over. Each event is reported to a watch.
///
/// `NoLink` if no link is selected, `Memory` if memory runs out, which ends it.
pub fn run_many<V: EventWatch>(
    world: &mut World,
    many: Many,
    watch: &mut V,
    alloc: Global,
) -> Result<(), WorldFault>
    ensures comes { ComesAbout many world.old result world.new }
    ensures told { Told V.comes_gives V.came_gives (world.old, watch.old) (world.new, watch.new) }
{
    let Ok(events) = events_of(many, world.slots(), alloc) else {
        return Err(WorldFault::Memory { stopped: false });
    };
    if events.is_empty() {
        return Err(WorldFault::NoLink);
    }
    match world.run_watched(&events, watch, alloc) {
        Ok(_refused) => Ok(()),
        Err(fault) => Err(fault),
    }
}

// Lists its events.
fn events_of(many: Many, slots: &[Slot], alloc: Global) -> Result<Vec<WorldEvent>, AllocError>
    ensures { IfOk result (λ events. events.items ≡ flat_map (many_of many) slots.now) }
{
    let mut events = Vec::new(alloc);
    for slot in slots {
        push_events(&mut events, many, slot.config())?;
    }
    Ok(events)
}

// Adds the events at a router.
fn push_events(events: &mut Vec<WorldEvent>, many: Many, config: &Config) -> Result<(), AllocError>
    ensures { OnOk result (events.new.items ≡ events.old.items ++ config_events many config.now) }
{
    match many {
        Many::Start => {
            events.push(WorldEvent::Start {
                router: config.router_id,
                dd_start: DD_START,
                floor: NO_FLOOR,
            })?;
            Ok(())
        }
        _ => push_links(events, many, config),
    }
}

// Adds the events at its links.
fn push_links(events: &mut Vec<WorldEvent>, many: Many, config: &Config) -> Result<(), AllocError>
    ensures { OnOk result (events.new.items ≡ events.old.items
        ++ flat_map (events_on many config.now.router_id) (enumerate_from 0
        config.now.interfaces.items)) }
{
    for (link, interface) in config.interfaces.iter().enumerate() {
        push_link(events, many, config.router_id, link, interface)?;
    }
    Ok(())
}

// Adds the event at a link, if it is selected.
fn push_link(
    events: &mut Vec<WorldEvent>,
    many: Many,
    router: RouterId,
    link: usize,
    interface: &Interface,
) -> Result<(), AllocError>
    ensures { OnOk result (events.new.items ≡ events.old.items
        ++ events_on many router (link, interface.now)) }
{
    if is_meant(many, interface.address) {
        events.push(link_event(many, router, link))?;
    }
    Ok(())
}

// Whether the link of an interface with this address is selected.
fn is_meant(many: Many, address: InterfaceAddress) -> bool
    ensures { result ≡ is_meant many address }
{
    match many {
        Many::Cut { network } | Many::Mend { network } => is_network_of(network, Some(address)),
        _ => true,
    }
}

// The event at a link.
fn link_event(many: Many, router: RouterId, link: usize) -> WorldEvent
    ensures { result ≡ link_event many router link }
{
    match many {
        Many::Down | Many::Cut { .. } => WorldEvent::LinkDown { router, link },
        _ => WorldEvent::LinkUp { router, link },
    }
}
