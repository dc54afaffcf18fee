//! Many routers and their logs, without a claim about the events that led there.

ghost use Rattle.std.specs.Prelude.{◌≡◌, ◌<◌, ◌+◌, IfOk, IfSome, None, Some, find, length};
ghost use Rattle.ospf_world.specs.Does.{Does};
ghost use Rattle.ospf_world.specs.Rounds.{offers_of, sending_address};
ghost use Rattle.ospf_world.specs.Worlds.{AddsConfig, Lends, LendsSlot, Opens, is_slot_of, place_in, place_of, world_of};

use crate::logs::{Datagram, Logs};
use crate::networks::{Networks, links_at, network_of, networks_of};
use crate::offers::{address_of, offers_at};
use crate::slot::Slot;
use crate::ticks::{Ticked, step_slot};
use ospf_base::RouterId;
use ospf_base::event::{WorldEvent, WorldFault};
use ospf_config::{Config, InterfaceAddress};
use ospf_router::Router;
use std::alloc::{AllocError, Global};
use std::collections::BTreeMap;
use std::marker::Model;

/// Many routers, the logs of all that they sent, issued and held, and the ticks that they took.
#[derive(Drop)]
pub(crate) struct Parts {
    pub(crate) slots: Vec<Slot>,
    // Where the router of a Router ID is among the slots.
    places: BTreeMap<u32, usize>,
    // Where the interfaces on each network are.
    networks: Networks,
    pub(crate) logs: Logs,
    pub(crate) ticks: Vec<Ticked>,
    // How many datagrams the rounds have offered.
    pub(crate) offered: usize,
}

impl Model for Parts {
    ghost use Rattle.std.specs.Prelude.{map};
    ghost use Rattle.ospf_world.specs.Networks.{AreNetworks};
    ghost use Rattle.ospf_world.specs.Worlds.{AreSlotPlaces, WorldValue, config_of};

    ghost Value = { WorldValue };

    ghost view = { λ w. record {
      slots = w.slots.items;
      logs = w.logs;
      ticks = w.ticks.items;
      offered = w.offered;
    } };

    ghost invariant = { λ w. AreSlotPlaces w.places w.slots.items
        × AreNetworks w.networks (map config_of w.slots.items) };
}

impl Parts {
    /// Routers with these configurations, of which none runs.
    ///
    /// `WorldFault::SameRouter` where two share a Router ID;
    /// `WorldFault::Memory` where memory runs out.
    pub(crate) fn new(configs: Vec<Config>, alloc: Global) -> Result<Parts, WorldFault>
        ensures { Opens configs.items result }
    {
        let mut slots = Vec::new(alloc);
        let mut places = BTreeMap::new(alloc);
        for config in configs {
            add(&mut slots, &mut places, config)?;
        }
        let Ok(networks) = networks_of(&slots, alloc) else {
            return Err(WorldFault::Memory { stopped: false });
        };
        Ok(Parts {
            slots,
            places,
            networks,
            logs: Logs::new(alloc),
            ticks: Vec::new(alloc),
            offered: 0,
        })
    }

    /// The router, where it runs.
    pub(crate) fn router(&self, router: RouterId) -> Result<&Router, WorldFault>
        ensures { Lends (world_of self.now) router result }
    {
        match place(&self.places, router) {
            Some(place) => running(&self.slots[place]),
            None => Err(WorldFault::NoRouter),
        }
    }

    /// The slot of a router.
    pub(crate) fn slot(&self, router: RouterId) -> Option<&Slot>
        ensures some { IfSome result (λ s. find (is_slot_of router.0) self.now.slots ≡ Some s.now) }
        ensures none { result ≡ None → find (is_slot_of router.0) self.now.slots ≡ None }
    {
        match place(&self.places, router) {
            Some(place) => Some(&self.slots[place]),
            None => None,
        }
    }

    /// Applies an event.
    pub(crate) fn step(&mut self, event: &WorldEvent, alloc: Global) -> Result<(), WorldFault>
        ensures { Does event.now self.old result self.new }
    {
        match place(&self.places, event.router()) {
            Some(place) => {
                let slot = &mut self.slots[place];
                step_slot(slot, event, &mut self.logs, &mut self.ticks, alloc)
            }
            None => Err(WorldFault::NoRouter),
        }
    }

    /// The offers of a datagram, which is at this place of the log: to the interfaces on
    /// the network that it went out to.
    ///
    /// `AllocError` where memory runs out.
    pub(crate) fn offers_of(
        &self,
        place: usize,
        sent: &Datagram,
        alloc: Global,
    ) -> Result<Vec<WorldEvent>, AllocError>
        ensures { IfOk result (λ events. events.items ≡ offers_of self.now.slots place sent.now) }
    {
        match self.source_of(sent) {
            Some(from) => {
                let links = links_at(&self.networks, network_of(&from));
                offers_at(&self.slots, links, place, &from, sent, alloc)
            }
            None => Ok(Vec::new(alloc)),
        }
    }

    /// The address of the interface that a datagram went out of.
    pub(crate) fn source_of(&self, sent: &Datagram) -> Option<InterfaceAddress>
        ensures { result ≡ sending_address self.now.slots sent.now }
    {
        let place = place(&self.places, sent.router)?;
        address_of(self.slots[place].config(), sent.sent.link)
    }

    /// Where the router of a Router ID is.
    pub(crate) fn place(&self, router: RouterId) -> Option<usize>
        ensures { result ≡ place_of self.now.slots router.0 }
    {
        place(&self.places, router)
    }

    /// All datagrams count as offered.
    pub(crate) fn pass_all(&mut self)
        ensures { self.new ≡ record self.old { offered = length self.old.logs.datagrams } }
    {
        self.offered = self.logs.datagrams().len();
    }

    /// One more datagram counts as offered.
    pub(crate) fn pass_one(&mut self)
        requires { self.old.offered < length self.old.logs.datagrams }
        ensures { self.new ≡ record self.old { offered = self.old.offered + 1 } }
    {
        // For the proof.
        let _sent = self.logs.datagrams().len();
        self.offered += 1;
    }
}

// A slot for a further router.
fn add(
    slots: &mut Vec<Slot>,
    places: &mut BTreeMap<u32, usize>,
    config: Config,
) -> Result<(), WorldFault>
    ensures { AddsConfig config slots.old.items places.old result slots.new.items places.new }
{
    let router = config.router_id;
    if place(places, router).is_some() {
        return Err(WorldFault::SameRouter);
    }
    if places.insert(router.0, slots.len()).is_err() {
        return Err(WorldFault::Memory { stopped: false });
    }
    if slots.push(Slot::new(config)).is_err() {
        return Err(WorldFault::Memory { stopped: false });
    }
    Ok(())
}

// Where the router is.
fn place(places: &BTreeMap<u32, usize>, router: RouterId) -> Option<usize>
    ensures { result ≡ place_in places.now router.0 }
{
    match places.get(&router.0) {
        Some(place) => Some(*place),
        None => None,
    }
}

// The router of a slot, where it runs.
fn running(slot: &Slot) -> Result<&Router, WorldFault>
    ensures { LendsSlot slot.now result }
{
    match slot.router() {
        Some(router) => Ok(router),
        None => Err(WorldFault::NotRunning),
    }
}
