//! Rounds: a tick of each router that runs, and then the datagrams that no round has offered.

ghost use Rattle.std.specs.Prelude.{◌≡◌, ◌≢◌, ◌++◌, [], IfOk, OnErr, OnOk, option_map};
ghost use Rattle.ospf_world.specs.Headline.{Headline, IsReached};
ghost use Rattle.ospf_router.specs.Steps.{is_dropped};
ghost use Rattle.ospf_world.specs.Exact.{IsReachedExactly};
ghost use Rattle.ospf_world.specs.OnTheWay.{KeepsBetween};
ghost use Rattle.ospf_world.specs.Rounds.{AreNextOffers, AreOffered, HasNext, IsRound, IsRoundOf, OffersNext, slot_ticks, ticks};
ghost use Rattle.ospf_world.specs.Sounds.{IsSoundBetween};
ghost use Rattle.ospf_world.specs.Ticks.{TicksGoOn};
ghost use Rattle.ospf_world.specs.Watching.{Told};
ghost use Rattle.ospf_world.specs.Worlds.{world_of};

use crate::laws::{headline, runs_lead_on, soundness};
use crate::slot::Slot;
use crate::watch::{EventWatch, Unwatched};
use crate::world::World;
use ospf_base::event::{WorldEvent, WorldFault};
use std::alloc::{AllocError, Global};

/// How many datagrams a round offers at most, where nothing else is asked for.
pub const MOST_OFFERS: u64 = 10_000;

impl World {
    /// A round: a tick of each router that runs, in the order of the configurations, and then, in
    /// the order in which they were sent, the datagrams that no round has offered, with those that
    /// are sent meanwhile, 10,000 at most. One is offered to each interface of the other routers
    /// that run whose prefix is the sending interface's and that listens to the destination: it is
    /// 224.0.0.5, 224.0.0.6 or its own address. An offer that is refused is skipped.
    ///
    /// `Memory` where memory runs out, which ends it.
    pub fn round(&mut self, alloc: Global) -> Result<(), WorldFault>
        // What happens in a round.
        ensures round { IsRound self.old result self.new }
        // What holds for every network still holds for this one, and its log of ticks continues.
        ensures reached { IsReached is_dropped (world_of self.new) }
        ensures exact { IsReachedExactly self.new }
        ensures headline { Headline (world_of self.old) (world_of self.new) }
        ensures sound { IsSoundBetween (world_of self.old) (world_of self.new) }
        ensures ticks { TicksGoOn self.old self.new }
        // Each step that a router takes on the way keeps the nine laws of a step.
        ensures lawful { KeepsBetween self.old self.new }
    {
        self.round_of(MOST_OFFERS, alloc)
    }

    /// A round, like `round`, that offers at most this many datagrams. If a round offers fewer than
    /// routers send in it, more and more datagrams wait, and what is repeated meanwhile adds to
    /// them: then an area may never agree.
    ///
    /// `Memory` where memory runs out, which ends it.
    pub fn round_of(&mut self, most: u64, alloc: Global) -> Result<(), WorldFault>
        // What happens in a round.
        ensures round { IsRoundOf most self.old result self.new }
        // What holds for every network still holds for this one, and its log of ticks continues.
        ensures reached { IsReached is_dropped (world_of self.new) }
        ensures exact { IsReachedExactly self.new }
        ensures headline { Headline (world_of self.old) (world_of self.new) }
        ensures sound { IsSoundBetween (world_of self.old) (world_of self.new) }
        ensures ticks { TicksGoOn self.old self.new }
        // Each step that a router takes on the way keeps the nine laws of a step.
        ensures lawful { KeepsBetween self.old self.new }
    {
        self.round_watched(most, &mut Unwatched, alloc)
    }

    /// A round, like `round_of`. A watch is notified of each event.
    ///
    /// `Memory` where memory runs out, which ends it.
    pub fn round_watched<W: EventWatch>(
        &mut self,
        most: u64,
        watch: &mut W,
        alloc: Global,
    ) -> Result<(), WorldFault>
        // What happens in a round, and what the watch sees.
        ensures round { IsRoundOf most self.old result self.new }
        ensures told { Told W.comes_gives W.came_gives (self.old, watch.old) (self.new, watch.new) }
        // What holds for every network still holds for this one, and its log of ticks continues.
        ensures reached { IsReached is_dropped (world_of self.new) }
        ensures exact { IsReachedExactly self.new }
        ensures headline { Headline (world_of self.old) (world_of self.new) }
        ensures sound { IsSoundBetween (world_of self.old) (world_of self.new) }
        ensures ticks { TicksGoOn self.old self.new }
        // Each step that a router takes on the way keeps the nine laws of a step.
        ensures lawful { KeepsBetween self.old self.new }
    {
        // For the proof.
        headline();
        soundness();
        runs_lead_on();
        self.reached();
        self.reached_exactly();
        let Ok(ticks) = ticks_of(self.slots(), alloc) else {
            return Err(WorldFault::Memory { stopped: false });
        };
        match self.run_watched(&ticks, watch, alloc) {
            Ok(_refused) => self.offer(most, watch, alloc),
            Err(fault) => Err(fault),
        }
    }

    // Offers at most this many datagrams.
    fn offer<W: EventWatch>(
        &mut self,
        most: u64,
        watch: &mut W,
        alloc: Global,
    ) -> Result<(), WorldFault>
        ensures offered { AreOffered most self.old result self.new }
        ensures told { Told W.comes_gives W.came_gives (self.old, watch.old) (self.new, watch.new) }
        ensures ticks { TicksGoOn self.old self.new }
    {
        for i in 0..most {
            match self.offer_next(watch, alloc) {
                Ok(true) => {}
                Ok(false) => return Ok(()),
                Err(fault) => return Err(fault),
            }
        }
        Ok(())
    }

    // Offers the next datagram, if there is one.
    fn offer_next<W: EventWatch>(
        &mut self,
        watch: &mut W,
        alloc: Global,
    ) -> Result<bool, WorldFault>
        ensures offers { OffersNext self.old result self.new }
        ensures told { Told W.comes_gives W.came_gives (self.old, watch.old) (self.new, watch.new) }
        ensures ticks { TicksGoOn self.old self.new }
    {
        match self.next_offers(alloc) {
            Ok(Some(offers)) => {
                self.pass_one();
                match self.run_watched(&offers, watch, alloc) {
                    Ok(_refused) => Ok(true),
                    Err(fault) => Err(fault),
                }
            }
            Ok(None) => Ok(false),
            Err(AllocError) => Err(WorldFault::Memory { stopped: false }),
        }
    }

    // The offers of the next datagram, if there is one.
    fn next_offers(&self, alloc: Global) -> Result<Option<Vec<WorldEvent>>, AllocError>
        ensures next { IfOk result (λ next. AreNextOffers self.now
            (option_map (λ v. v.items) next)) }
        ensures room { OnErr result (HasNext self.now) }
    {
        let place = self.offered();
        match self.datagrams().get(place) {
            Some(sent) => Ok(Some(self.offers_of(place, sent, alloc)?)),
            None => Ok(None),
        }
    }
}

/// The ticks of a round.
///
/// `AllocError` where memory runs out, which it takes where a router runs.
pub fn ticks_of(slots: &[Slot], alloc: Global) -> Result<Vec<WorldEvent>, AllocError>
    ensures ticks { IfOk result (λ events. events.items ≡ ticks slots.now) }
    ensures room { OnErr result (ticks slots.now ≢ []) }
{
    let mut events = Vec::new(alloc);
    for slot in slots {
        push_tick(&mut events, slot)?;
    }
    Ok(events)
}

// Adds the tick of a router that runs.
#[tactic(auto, unfolding(crate::specs::Rounds::slot_ticks))]
fn push_tick(events: &mut Vec<WorldEvent>, slot: &Slot) -> Result<(), AllocError>
    ensures added { OnOk result (events.new.items ≡ events.old.items ++ slot_ticks slot.now) }
    ensures room { OnErr result (slot_ticks slot.now ≢ []) }
{
    if slot.runs() {
        let router = slot.config().router_id;
        events.push(WorldEvent::Tick { router })?;
    }
    Ok(())
}
