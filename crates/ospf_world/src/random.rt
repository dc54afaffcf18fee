//! What random events do to a world.

ghost use Rattle.std.specs.Prelude.{◌≡◌, ◌≤◌, ℕ, OnErr, OnOk, Some};
ghost use Rattle.ospf_world.specs.Draws.{drawn, drawn_past};
ghost use Rattle.ospf_world.specs.Headline.{Headline, IsReached};
ghost use Rattle.ospf_router.specs.Steps.{is_dropped};
ghost use Rattle.ospf_world.specs.Exact.{IsReachedExactly};
ghost use Rattle.ospf_world.specs.OnTheWay.{KeepsBetween};
ghost use Rattle.ospf_world.specs.Random.{IsRandom, Meets};
ghost use Rattle.ospf_world.specs.Sounds.{IsSoundBetween};
ghost use Rattle.ospf_world.specs.Ticks.{TicksGoOn};
ghost use Rattle.ospf_world.specs.Watching.{Told};
ghost use Rattle.ospf_world.specs.Worlds.{SameSettings, world_of};
ghost use Rattle.rand_pcg.specs.Lcg.{increment_of, started};
ghost use Rattle.rand_pcg.specs.Pcg.{multiplier_64};

use crate::chance::{Words, chosen, draw, drawn_at};
use crate::laws::{headline, soundness};
use crate::watch::{EventWatch, Unwatched};
use crate::world::{World, is_memory};
use ospf_base::event::{WorldEvent, WorldFault};
use rand_pcg::Lcg64Xsh32;
use std::alloc::Global;

impl World {
    /// Applies this many random events, one after another: each is drawn by four words of the
    /// generator, in the world as it then is. An event that is refused is skipped.
    ///
    /// `Memory` where memory runs out, which ends it: the generator is then past the words of the
    /// events so far.
    pub fn draw_events(
        &mut self,
        generator: &mut Lcg64Xsh32,
        count: u64,
        alloc: Global,
    ) -> Result<(), WorldFault>
        // Which random events happen, how far the generator is, and what is unchanged.
        ensures random { IsRandom count generator.old self.old result self.new }
        ensures drawn { OnOk result (generator.new ≡ drawn_past count generator.old) }
        ensures stopped { OnErr result ((n : ℕ) × (n ≤ count)
            × (generator.new ≡ drawn_past n generator.old)) }
        ensures same { SameSettings self.old self.new }
        // What holds for every network still holds for this one, and its log of ticks continues.
        ensures reached { IsReached is_dropped (world_of self.new) }
        ensures exact { IsReachedExactly self.new }
        ensures headline { Headline (world_of self.old) (world_of self.new) }
        ensures sound { IsSoundBetween (world_of self.old) (world_of self.new) }
        ensures ticks { TicksGoOn self.old self.new }
        // Each step that a router takes on the way keeps the nine laws of a step.
        ensures lawful { KeepsBetween self.old self.new }
    {
        self.draw_events_watched(generator, count, &mut Unwatched, alloc)
    }

    /// Applies this many random events, like `draw_events`. A watch is notified of each.
    ///
    /// `Memory` where memory runs out, which ends it.
    pub fn draw_events_watched<W: EventWatch>(
        &mut self,
        generator: &mut Lcg64Xsh32,
        count: u64,
        watch: &mut W,
        alloc: Global,
    ) -> Result<(), WorldFault>
        // What happens, what the watch sees, how far the generator is, and what is unchanged.
        ensures random { IsRandom count generator.old self.old result self.new }
        ensures told { Told W.comes_gives W.came_gives (self.old, watch.old) (self.new, watch.new) }
        ensures drawn { OnOk result (generator.new ≡ drawn_past count generator.old) }
        ensures stopped { OnErr result ((n : ℕ) × (n ≤ count)
            × (generator.new ≡ drawn_past n generator.old)) }
        ensures same { SameSettings self.old self.new }
        // What holds for every network still holds for this one, and its log of ticks continues.
        ensures reached { IsReached is_dropped (world_of self.new) }
        ensures exact { IsReachedExactly self.new }
        ensures headline { Headline (world_of self.old) (world_of self.new) }
        ensures sound { IsSoundBetween (world_of self.old) (world_of self.new) }
        ensures ticks { TicksGoOn self.old self.new }
        // Each step that a router takes on the way keeps the nine laws of a step.
        ensures lawful { KeepsBetween self.old self.new }
    {
        // For the proof.
        headline();
        soundness();
        self.reached();
        self.reached_exactly();
        for i in 0..count {
            let words = draw(generator);
            let event = self.draw_event(&words);
            match self.meet(event, watch, alloc) {
                Ok(()) => {}
                Err(fault) => return Err(fault),
            }
        }
        Ok(())
    }

    /// Applies this many random events, like `draw_events`, drawn by the generator of this number.
    ///
    /// `Memory` where memory runs out, which ends it.
    pub fn random(&mut self, number: u64, count: u64, alloc: Global) -> Result<(), WorldFault>
        // Which random events happen, and what is unchanged.
        ensures random { IsRandom count (started 64 multiplier_64 number (increment_of 64 0))
            self.old result self.new }
        ensures same { SameSettings self.old self.new }
        // What holds for every network still holds for this one, and its log of ticks continues.
        ensures reached { IsReached is_dropped (world_of self.new) }
        ensures exact { IsReachedExactly self.new }
        ensures headline { Headline (world_of self.old) (world_of self.new) }
        ensures sound { IsSoundBetween (world_of self.old) (world_of self.new) }
        ensures ticks { TicksGoOn self.old self.new }
        // Each step that a router takes on the way keeps the nine laws of a step.
        ensures lawful { KeepsBetween self.old self.new }
    {
        let mut generator = Lcg64Xsh32::new(number, 0);
        self.draw_events(&mut generator, count, alloc)
    }

    // The event that these words draw, if they draw one.
    fn draw_event(&self, words: &Words) -> Option<WorldEvent>
        ensures { result ≡ drawn words.now (world_of self.now) }
    {
        let slots = self.slots();
        let place = chosen(words.router, slots.len())?;
        let slot = &slots[place];
        let config = slot.config();
        drawn_at(
            words,
            config.router_id,
            config.interfaces.len(),
            slot.runs(),
            self.datagrams().len(),
        )
    }

    // Meets an event, if there is one: skips a refused event, unless memory ran out.
    fn meet<W: EventWatch>(
        &mut self,
        event: Option<WorldEvent>,
        watch: &mut W,
        alloc: Global,
    ) -> Result<(), WorldFault>
        ensures meets { Meets event self.old result self.new }
        ensures told { Told W.comes_gives W.came_gives (self.old, watch.old) (self.new, watch.new) }
        ensures same { SameSettings self.old self.new }
        ensures ticks { TicksGoOn self.old self.new }
    {
        let Some(event) = event else {
            return Ok(());
        };
        match self.step_watched(event, watch, alloc) {
            Err(fault) if is_memory(&fault) => Err(fault),
            _ => Ok(()),
        }
    }
}
