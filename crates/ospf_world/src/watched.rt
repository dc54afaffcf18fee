//! Runs and rounds that are watched.

ghost use Rattle.std.specs.Prelude.{◌≡◌, ◌++◌, length};
ghost use Rattle.ospf_world.specs.Headline.{Headline, IsReached};
ghost use Rattle.ospf_world.specs.Runs.{IsRun};
ghost use Rattle.ospf_world.specs.Sound.{IsSoundAcknowledgement};
ghost use Rattle.ospf_world.specs.World.{Comes};
ghost use Rattle.ospf_router.specs.Steps.{is_dropped};
ghost use Rattle.ospf_world.specs.Does.{Does};
ghost use Rattle.ospf_world.specs.Exact.{IsReachedExactly};
ghost use Rattle.ospf_world.specs.OnTheWay.{DoesAndKeeps};
ghost use Rattle.ospf_world.specs.Sounds.{IsSoundBetween};
ghost use Rattle.ospf_world.specs.Ticks.{TicksGoOn, ticked_by};
ghost use Rattle.ospf_world.specs.Watching.{DoesTold};
ghost use Rattle.ospf_world.specs.Worlds.{SameSettings, world_of};

use crate::laws::{headline, runs_lead_on, soundness};
use crate::watch::EventWatch;
use crate::world::{World, is_memory};
use ospf_base::event::{WorldEvent, WorldFault};
use std::alloc::Global;

impl World {
    /// Applies an event to the router that it names, like `step`. A watch is notified before and
    /// after it.
    ///
    /// The faults are those of `step`.
    pub fn step_watched<W: EventWatch>(
        &mut self,
        event: WorldEvent,
        watch: &mut W,
        alloc: Global,
    ) -> Result<(), WorldFault>
        // What happens, what the watch sees, and what is unchanged.
        ensures does { Does event self.old result self.new }
        ensures told { DoesTold W.comes_gives W.came_gives event (self.old, watch.old) result
            (self.new, watch.new) }
        ensures comes { Comes is_dropped event (world_of self.old) result (world_of self.new) }
        ensures same { SameSettings self.old self.new }
        // What holds for every network still holds for this one, and its log of ticks continues.
        ensures reached { IsReached is_dropped (world_of self.new) }
        ensures exact { IsReachedExactly self.new }
        ensures headline { Headline (world_of self.old) (world_of self.new) }
        ensures sound { IsSoundAcknowledgement event (world_of self.old) (world_of self.new) }
        ensures ticks { self.new.ticks ≡ self.old.ticks
            ++ ticked_by event result (length self.old.logs.datagrams) }
        // The step that a router takes keeps the nine laws of a step.
        ensures lawful { DoesAndKeeps event self.old result self.new }
    {
        watch.comes(self, &event);
        let result = self.step(event, alloc);
        watch.came(self, &event, &result);
        result
    }

    /// Applies the events in their order, like `run`. A watch is notified of each.
    ///
    /// `WorldFault::Memory` where memory runs out for one: that is the last.
    pub fn run_watched<W: EventWatch>(
        &mut self,
        events: &[WorldEvent],
        watch: &mut W,
        alloc: Global,
    ) -> Result<usize, WorldFault>
        // What happens, what the watch sees, and what is unchanged.
        ensures run { IsRun Does events.now self.old result self.new }
        ensures told { IsRun (DoesTold W.comes_gives W.came_gives) events.now
            (self.old, watch.old) result (self.new, watch.new) }
        ensures same { SameSettings self.old self.new }
        // What holds for every network still holds for this one, and its log of ticks continues.
        ensures reached { IsReached is_dropped (world_of self.new) }
        ensures exact { IsReachedExactly self.new }
        ensures headline { Headline (world_of self.old) (world_of self.new) }
        ensures sound { IsSoundBetween (world_of self.old) (world_of self.new) }
        ensures ticks { TicksGoOn self.old self.new }
        // Each step that a router takes on the way keeps the nine laws of a step.
        ensures lawful { IsRun DoesAndKeeps events.now self.old result self.new }
    {
        // For the proof.
        headline();
        soundness();
        runs_lead_on();
        self.reached();
        self.reached_exactly();
        let mut refused = 0;
        for event in events {
            match self.step_watched(*event, watch, alloc) {
                Ok(()) => {}
                Err(fault) => {
                    if is_memory(&fault) {
                        return Err(fault);
                    }
                    refused += 1;
                }
            }
        }
        Ok(refused)
    }
}
