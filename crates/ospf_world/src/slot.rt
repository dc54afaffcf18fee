//! A router's place in a world.

ghost use Rattle.std.specs.Prelude.{◌≡◌, ◌<◌, [], None, Some, Ok, Err, IfSome, false, is_some, length, slice_get, true};
ghost use Rattle.ospf_base.specs.declared.ids.RouterId.{RouterId};
ghost use Rattle.ospf_base.specs.declared.event.event.WorldEvent.TheVariants.{Tick};
ghost use Rattle.ospf_base.specs.declared.event.event.WorldFault.TheVariants as fault;
ghost use Rattle.ospf_world.specs.Running.{delivery};
ghost use Rattle.ospf_world.specs.Slots.{DeliversOn, Feeds, FeedsOn, IsLent, SlotSteps, StartsSlot, StopsSlot};
ghost use Rattle.ospf_router.specs.Steps.{happening};

use crate::logs::Logs;
use crate::running::RunningRouter;
use ospf_base::event::{WorldEvent, WorldFault};
use ospf_config::Config;
use ospf_router::step::DropCounts;
use ospf_router::{Event, Router, StartFault, Stopped};
use std::alloc::Global;
use std::marker::Model;

/// How a router of a world is configured, and the router, where it runs.
#[derive(Drop)]
pub struct Slot {
    config: Config,
    running: Option<RunningRouter>,
}

impl Model for Slot {
    ghost use Rattle.ospf_world.specs.Slots.{IsSlot, SlotValue, slot_of};

    ghost Value = { SlotValue };

    ghost view = { λ s. slot_of s.config s.running };

    ghost invariant = { λ s. IsSlot s.running };
}

impl Slot {
    /// A router that does not run.
    pub fn new(config: Config) -> Slot
        ensures { result ≡ record { config = config; running = None; drops = [] } }
    {
        Slot {
            config,
            running: None,
        }
    }

    /// How the router is configured.
    pub fn config(&self) -> &Config
        ensures { result.now ≡ self.now.config }
    {
        &self.config
    }

    /// Whether the router runs.
    pub fn runs(&self) -> bool
        ensures { result ≡ is_some self.now.running }
    {
        self.running.is_some()
    }

    /// The router, where it runs.
    pub fn router(&self) -> Option<&Router>
        ensures lent { IfSome result (λ r. IsLent self.now.running r.now) }
        ensures none { result ≡ None → self.now.running ≡ None }
    {
        match &self.running {
            Some(running) => Some(running.router()),
            None => None,
        }
    }

    /// What the router dropped since it started, by links; nothing where it does not run.
    pub fn drops(&self) -> &[DropCounts]
        ensures { result.now ≡ self.now.drops }
    {
        match &self.running {
            Some(running) => running.drops(),
            None => &[],
        }
    }

    /// Applies an event at this router; the logs grow by its outputs.
    ///
    /// The first fault that holds, of `NoLink`, `NoDatagram`, `Running` and `NotRunning`, and
    /// `Floor`: then nothing is changed. `Memory` where memory runs out, which it does at a start
    /// and at an event that is not dropped: a router that had begun the step is stopped, and no log
    /// has grown.
    pub fn step(
        &mut self,
        event: &WorldEvent,
        logs: &mut Logs,
        alloc: Global,
    ) -> Result<(), WorldFault>
        ensures steps { SlotSteps event.now self.old logs.old result self.new logs.new }
        // Before anything is done memory runs out only at a start.
        ensures begun { (r : RouterId) → event.now ≡ Tick r →
            result ≡ Err (fault.Memory false) → ⊥ }
    {
        match event {
            WorldEvent::Start {
                dd_start,
                floor,
                ..
            } => self.start(*dd_start, floor, logs, alloc),
            WorldEvent::Stop { .. } => self.stop(),
            WorldEvent::Tick { .. } => self.feed(Event::Tick, logs, alloc),
            WorldEvent::LinkUp { link, .. } => {
                self.feed_on(*link, Event::LinkUp { link: *link }, logs, alloc)
            }
            WorldEvent::LinkDown { link, .. } => {
                self.feed_on(*link, Event::LinkDown { link: *link }, logs, alloc)
            }
            WorldEvent::Deliver { datagram, link, .. } => {
                self.deliver(*datagram, *link, logs, alloc)
            }
        }
    }

    // The router starts, if it does not run.
    fn start(
        &mut self,
        dd_start: u32,
        floor: &i32,
        logs: &Logs,
        alloc: Global,
    ) -> Result<(), WorldFault>
        ensures { StartsSlot logs.now.issued dd_start floor.now self.old result self.new }
    {
        if self.runs() {
            return Err(WorldFault::Running);
        }
        match RunningRouter::start(&self.config, logs.issued().len(), dd_start, floor, alloc) {
            Ok(running) => {
                self.running = Some(running);
                Ok(())
            }
            Err(StartFault::Floor) => Err(WorldFault::Floor),
            Err(StartFault::Memory) => Err(WorldFault::Memory { stopped: false }),
        }
    }

    // The router stops, if it runs.
    fn stop(&mut self) -> Result<(), WorldFault>
        ensures { StopsSlot self.old result self.new }
    {
        if !self.runs() {
            return Err(WorldFault::NotRunning);
        }
        self.running = None;
        Ok(())
    }

    // The router is stepped, if it runs, in place: it is large, and moving it
    // would take a good part of the step.
    fn feed(&mut self, event: Event<'_>, logs: &mut Logs, alloc: Global) -> Result<(), WorldFault>
        ensures { Feeds (happening event.entry) self.old logs.old result self.new logs.new }
    {
        let router = self.config.router_id;
        let Some(running) = &mut self.running else {
            return Err(WorldFault::NotRunning);
        };
        match running.feed(event, logs, router, alloc) {
            Ok(()) => Ok(()),
            Err(Stopped) => end(&mut self.running),
        }
    }

    // The router is stepped, if it has the link and runs.
    fn feed_on(
        &mut self,
        link: usize,
        event: Event<'_>,
        logs: &mut Logs,
        alloc: Global,
    ) -> Result<(), WorldFault>
        ensures { FeedsOn link (happening event.entry) self.old logs.old result self.new logs.new }
    {
        if link < self.config.interfaces.len() {
            self.feed(event, logs, alloc)
        } else {
            Err(WorldFault::NoLink)
        }
    }

    // A datagram comes in on a link, if there is the link, the datagram
    // was sent, and the router runs.
    fn deliver(
        &mut self,
        place: usize,
        link: usize,
        logs: &mut Logs,
        alloc: Global,
    ) -> Result<(), WorldFault>
        ensures { DeliversOn link (slice_get logs.old.datagrams place) self.old logs.old result
            self.new logs.new }
    {
        if link >= self.config.interfaces.len() {
            return Err(WorldFault::NoLink);
        }
        if place >= logs.datagrams().len() {
            return Err(WorldFault::NoDatagram);
        }
        self.hand(place, link, logs, alloc)
    }

    // A datagram that was sent comes in on a link, if the router runs.
    fn hand(
        &mut self,
        place: usize,
        link: usize,
        logs: &mut Logs,
        alloc: Global,
    ) -> Result<(), WorldFault>
        requires { place < length logs.old.datagrams }
        ensures { IfSome (slice_get logs.old.datagrams place)
            (λ g. Feeds (delivery link g) self.old logs.old result self.new logs.new) }
    {
        let router = self.config.router_id;
        let Some(running) = &mut self.running else {
            return Err(WorldFault::NotRunning);
        };
        match running.deliver(place, link, logs, router, alloc) {
            Ok(()) => Ok(()),
            Err(Stopped) => end(&mut self.running),
        }
    }
}

// Memory ran out for a router while it was stepped: it no longer runs.
fn end(running: &mut Option<RunningRouter>) -> Result<(), WorldFault>
    ensures ended { running.new ≡ None }
    ensures fault { result ≡ Err (fault.Memory true) }
{
    *running = None;
    Err(WorldFault::Memory { stopped: true })
}
