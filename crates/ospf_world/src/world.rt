//! Worlds.

ghost use Rattle.std.specs.Prelude.{◌≡◌, ◌<◌, ◌+◌, ◌++◌, IfOk, IfSome, None, Some, find, length};
ghost use Rattle.ospf_world.specs.Headline.{Headline, IsReached};
ghost use Rattle.ospf_world.specs.Runs.{IsRun, is_memory};
ghost use Rattle.ospf_world.specs.Sound.{IsSoundAcknowledgement};
ghost use Rattle.ospf_world.specs.World.{Comes};
ghost use Rattle.ospf_router.specs.Steps.{is_dropped};
ghost use Rattle.ospf_world.specs.Does.{Does};
ghost use Rattle.ospf_world.specs.Exact.{IsReachedExactly};
ghost use Rattle.ospf_world.specs.OnTheWay.{DoesAndKeeps};
ghost use Rattle.ospf_world.specs.Rounds.{offers_of, sending_address};
ghost use Rattle.ospf_world.specs.Sounds.{IsSoundBetween};
ghost use Rattle.ospf_world.specs.Ticks.{TicksGoOn, ticked_by};
ghost use Rattle.ospf_world.specs.Worlds.{Lends, Opens, SameSettings, is_slot_of, place_of, world_of};

use crate::laws::{headline, soundness};
use crate::logs::{Datagram, Holding, Issued};
use crate::parts::Parts;
use crate::slot::Slot;
use crate::ticks::Ticked;
use crate::watch::Unwatched;
use ospf_base::RouterId;
use ospf_base::event::{WorldEvent, WorldFault};
use ospf_config::{Config, InterfaceAddress};
use ospf_router::Router;
use std::alloc::{AllocError, Global};
use std::marker::Model;

/// Many routers, started, stopped and stepped by events, and the logs of all
/// that they sent, issued and held.
///
/// Every world results from one in which nothing ran and nothing had
/// happened, by some list of events, each of which did exactly what `Does` says.
#[derive(Drop)]
pub struct World {
    parts: Parts,
}

impl Model for World {
    ghost use Rattle.ospf_world.specs.Exact.{IsReachedExactly};
    ghost use Rattle.ospf_world.specs.Worlds.{WorldValue};

    ghost Value = { WorldValue };

    ghost view = { λ w. w.parts };

    ghost invariant = { λ w. IsReachedExactly w.parts };
}

impl World {
    /// A world of routers with these configurations. None of them runs.
    ///
    /// `WorldFault::SameRouter` where two share a Router ID;
    /// `WorldFault::Memory` where memory runs out.
    pub fn new(configs: Vec<Config>, alloc: Global) -> Result<World, WorldFault>
        ensures { Opens configs.items result }
    {
        let parts = Parts::new(configs, alloc)?;
        Ok(World { parts })
    }

    /// Applies an event to the router that it names.
    ///
    /// The first fault that holds: `NoRouter`, `NoLink`, `NoDatagram`, `Running` for the start
    /// of a running router, `NotRunning` for any other event of one that does not run, and
    /// `Floor` for a start where no number is above the floor; then nothing is changed.
    /// `Memory` where memory runs out: before a start or a tick, and nothing is changed; or else,
    /// if `stopped`, at an event that the router does not drop: then it is stopped and no log has
    /// grown.
    pub fn step(&mut self, event: WorldEvent, alloc: Global) -> Result<(), WorldFault>
        // What happens, and what is unchanged.
        ensures does { Does event self.old result self.new }
        ensures comes { Comes is_dropped event (world_of self.old) result (world_of self.new) }
        ensures same { SameSettings self.old self.new }
        // What holds for every network still holds for this one, and its log of ticks continues.
        ensures reached { IsReached is_dropped (world_of self.new) }
        ensures exact { IsReachedExactly self.new }
        ensures headline { Headline (world_of self.old) (world_of self.new) }
        ensures sound { IsSoundAcknowledgement event (world_of self.old) (world_of self.new) }
        ensures ticks { self.new.ticks ≡ self.old.ticks
            ++ ticked_by event result (length self.old.logs.datagrams) }
        // The step that a router takes keeps the nine laws of a step.
        ensures lawful { DoesAndKeeps event self.old result self.new }
    {
        // For the proof.
        headline();
        soundness();
        self.parts.step(&event, alloc)
    }

    /// Applies the events in their order, each like `step`: it continues after a refused one, and
    /// returns how many were refused.
    ///
    /// `WorldFault::Memory` where memory runs out for one: that is the last.
    pub fn run(&mut self, events: &[WorldEvent], alloc: Global) -> Result<usize, WorldFault>
        // What happens, and what is unchanged.
        ensures run { IsRun Does events.now self.old result self.new }
        ensures same { SameSettings self.old self.new }
        // What holds for every network still holds for this one, and its log of ticks continues.
        ensures reached { IsReached is_dropped (world_of self.new) }
        ensures exact { IsReachedExactly self.new }
        ensures headline { Headline (world_of self.old) (world_of self.new) }
        ensures sound { IsSoundBetween (world_of self.old) (world_of self.new) }
        ensures ticks { TicksGoOn self.old self.new }
        // Each step that a router takes on the way keeps the nine laws of a step.
        ensures lawful { IsRun DoesAndKeeps events.now self.old result self.new }
    {
        self.run_watched(events, &mut Unwatched, alloc)
    }

    /// The router, where it runs. No memory is allocated.
    ///
    /// `WorldFault::NoRouter` where there is none of the Router ID,
    /// `WorldFault::NotRunning` where it does not run.
    pub fn router(&self, router: RouterId) -> Result<&Router, WorldFault>
        ensures { Lends (world_of self.now) router result }
    {
        self.parts.router(router)
    }

    /// The router of a Router ID, running or not, if there is one. No memory is allocated.
    pub fn slot(&self, router: RouterId) -> Option<&Slot>
        ensures some { IfSome result (λ s. find (is_slot_of router.0) self.now.slots ≡ Some s.now) }
        ensures none { result ≡ None → find (is_slot_of router.0) self.now.slots ≡ None }
    {
        self.parts.slot(router)
    }

    /// The routers, running or not, in the order of their configurations. No memory is allocated.
    pub fn slots(&self) -> &[Slot]
        ensures { result.now ≡ self.now.slots }
    {
        &self.parts.slots
    }

    /// All datagrams ever sent, in their order. No memory is allocated.
    pub fn datagrams(&self) -> &[Datagram]
        ensures { result.now ≡ self.now.logs.datagrams }
    {
        self.parts.logs.datagrams()
    }

    /// All LSAs ever issued, in their order. No memory is allocated.
    pub fn issued(&self) -> &[Issued]
        ensures { result.now ≡ self.now.logs.issued }
    {
        self.parts.logs.issued()
    }

    /// Who ever installed, issued or acknowledged which instance. No memory is allocated.
    pub fn held(&self) -> &[Holding]
        ensures { result.now ≡ self.now.logs.held }
    {
        self.parts.logs.held()
    }

    /// All ticks that routers took, in their order. No memory is allocated.
    pub fn ticks(&self) -> &[Ticked]
        ensures { result.now ≡ self.now.ticks }
    {
        &self.parts.ticks
    }

    /// What the type guarantees: some list of events led here.
    pub fn reached(&self)
        ensures { IsReached is_dropped (world_of self.now) }
    {
        let _ = &self.parts;
    }

    /// What the type guarantees: some events led here, and each of them did exactly what `Does`
    /// says, so that each step of a router on the way keeps the nine laws (`worlds_keep_laws`).
    pub fn reached_exactly(&self)
        ensures { IsReachedExactly self.now }
    {
        let _ = &self.parts;
    }

    /// How many datagrams the rounds have offered.
    pub fn offered(&self) -> usize
        ensures { result ≡ self.now.offered }
    {
        self.parts.offered
    }

    /// The offers of a datagram, which is at this place of the log, in
    /// the order of the configurations.
    ///
    /// `AllocError` where memory runs out.
    pub fn offers_of(
        &self,
        place: usize,
        sent: &Datagram,
        alloc: Global,
    ) -> Result<Vec<WorldEvent>, AllocError>
        ensures { IfOk result (λ events. events.items ≡ offers_of self.now.slots place sent.now) }
    {
        self.parts.offers_of(place, sent, alloc)
    }

    /// The address of the interface that a datagram went out of.
    pub fn source_of(&self, sent: &Datagram) -> Option<InterfaceAddress>
        ensures { result ≡ sending_address self.now.slots sent.now }
    {
        self.parts.source_of(sent)
    }

    /// Where the router of a Router ID is among the slots, if there is one. No memory is allocated.
    pub fn place(&self, router: RouterId) -> Option<usize>
        ensures { result ≡ place_of self.now.slots router.0 }
    {
        self.parts.place(router)
    }

    /// All datagrams that were sent so far count as offered: no later round offers one of them.
    pub fn pass_all(&mut self)
        ensures { self.new ≡ record self.old { offered = length self.old.logs.datagrams } }
    {
        self.parts.pass_all();
    }

    /// One more datagram counts as offered: no later round offers it.
    pub fn pass_one(&mut self)
        requires { self.old.offered < length self.old.logs.datagrams }
        ensures { self.new ≡ record self.old { offered = self.old.offered + 1 } }
    {
        self.parts.pass_one();
    }
}

/// Whether memory ran out.
pub(crate) fn is_memory(fault: &WorldFault) -> bool
    ensures { result ≡ is_memory fault.now }
{
    matches!(fault, WorldFault::Memory { .. })
}
