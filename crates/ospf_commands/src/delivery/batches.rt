//! Batches: a tick of each running router, and then what waits, router by router.

ghost use Rattle.std.specs.Prelude.{◌≡◌, ◌<◌, IfOk, OnErr, length, option_map};
ghost use Rattle.ospf_world.specs.Headline.{Headline, IsReached};
ghost use Rattle.ospf_router.specs.Steps.{is_dropped};
ghost use Rattle.ospf_commands.specs.Deliveries.Batches.{AreTaken, IsBatch, IsBatchOf, IsNextWave, TakesWave, waiting_offers};
ghost use Rattle.ospf_world.specs.Exact.{IsReachedExactly};
ghost use Rattle.ospf_world.specs.Sounds.{IsSoundBetween};
ghost use Rattle.ospf_world.specs.Ticks.{TicksGoOn};
ghost use Rattle.ospf_world.specs.Watching.{Told};
ghost use Rattle.ospf_world.specs.Worlds.{world_of};

use crate::delivery::queues::by_router;
use ospf_world::{EventWatch, World, WorldEvent, WorldFault, headline, runs_lead_on, soundness};
use std::alloc::{AllocError, Global};

/// How many waves a batch has at most.
pub const MOST_WAVES: u64 = 10_000;

/// Runs a batch: a tick of each running router, in the order of the configurations, and then wave
/// after wave of the datagrams that no round has offered, as long as there are some, at most 10,000
/// waves. In a wave each router, in the order of the configurations, processes all datagrams that
/// are offered to it, in the order in which they were sent; what is sent meanwhile waits for the
/// next wave. Datagrams are offered as in a round, and refusals are passed over. Batches are for
/// areas of many routers: a router that processes all waiting packets at once has its memory at
/// hand. Each event is reported to a watch.
///
/// `Memory` if memory runs out, which ends the batch.
pub fn batch<W: EventWatch>(
    world: &mut World,
    watch: &mut W,
    alloc: Global,
) -> Result<(), WorldFault>
    // What happens in a batch, and what is reported to the watch.
    ensures batch { IsBatch world.old result world.new }
    ensures told { Told W.comes_gives W.came_gives (world.old, watch.old) (world.new, watch.new) }
    // What holds of every network holds of this one again, and its log of ticks continues.
    ensures reached { IsReached is_dropped (world_of world.new) }
    ensures exact { IsReachedExactly world.new }
    ensures headline { Headline (world_of world.old) (world_of world.new) }
    ensures sound { IsSoundBetween (world_of world.old) (world_of world.new) }
    ensures ticks { TicksGoOn world.old world.new }
{
    // For the proof.
    world.reached_exactly();
    batch_of(world, MOST_WAVES, watch, alloc)
}

// Runs a batch of at most this many waves.
fn batch_of<W: EventWatch>(
    world: &mut World,
    most: u64,
    watch: &mut W,
    alloc: Global,
) -> Result<(), WorldFault>
    // What happens in a batch, and what is reported to the watch.
    ensures batch { IsBatchOf most world.old result world.new }
    ensures told { Told W.comes_gives W.came_gives (world.old, watch.old) (world.new, watch.new) }
    // What holds of every network holds of this one again, and its log of ticks continues.
    ensures reached { IsReached is_dropped (world_of world.new) }
    ensures headline { Headline (world_of world.old) (world_of world.new) }
    ensures sound { IsSoundBetween (world_of world.old) (world_of world.new) }
    ensures ticks { TicksGoOn world.old world.new }
{
    // For the proof.
    headline();
    soundness();
    runs_lead_on();
    world.reached();
    let Ok(ticks) = ospf_world::ticks_of(world.slots(), alloc) else {
        return Err(WorldFault::Memory { stopped: false });
    };
    match world.run_watched(&ticks, watch, alloc) {
        Ok(_refused) => take_waves(world, most, watch, alloc),
        Err(fault) => Err(fault),
    }
}

// Delivers at most this many waves.
fn take_waves<W: EventWatch>(
    world: &mut World,
    most: u64,
    watch: &mut W,
    alloc: Global,
) -> Result<(), WorldFault>
    ensures taken { AreTaken most world.old result world.new }
    ensures told { Told W.comes_gives W.came_gives (world.old, watch.old) (world.new, watch.new) }
    ensures ticks { TicksGoOn world.old world.new }
{
    for i in 0..most {
        match take_wave(world, watch, alloc) {
            Ok(true) => {}
            Ok(false) => return Ok(()),
            Err(fault) => return Err(fault),
        }
    }
    Ok(())
}

// Delivers the next wave, if datagrams wait.
fn take_wave<W: EventWatch>(
    world: &mut World,
    watch: &mut W,
    alloc: Global,
) -> Result<bool, WorldFault>
    ensures takes { TakesWave world.old result world.new }
    ensures told { Told W.comes_gives W.came_gives (world.old, watch.old) (world.new, watch.new) }
    ensures ticks { TicksGoOn world.old world.new }
{
    match next_wave(world, alloc) {
        Ok(Some(wave)) => {
            world.pass_all();
            match world.run_watched(&wave, watch, alloc) {
                Ok(_refused) => Ok(true),
                Err(fault) => Err(fault),
            }
        }
        Ok(None) => Ok(false),
        Err(AllocError) => Err(WorldFault::Memory { stopped: false }),
    }
}

// The offers of all waiting datagrams, router by router, if any wait.
fn next_wave(world: &World, alloc: Global) -> Result<Option<Vec<WorldEvent>>, AllocError>
    ensures next { IfOk result (λ next. IsNextWave world.now (option_map (λ v. v.items) next)) }
    ensures room { OnErr result (world.now.offered < length world.now.logs.datagrams) }
{
    if world.offered() >= world.datagrams().len() {
        return Ok(None);
    }
    let offers = waiting_offers(world, alloc)?;
    let wave = by_router(world, &offers, alloc)?;
    Ok(Some(wave))
}

// The offers of all waiting datagrams.
fn waiting_offers(world: &World, alloc: Global) -> Result<Vec<WorldEvent>, AllocError>
    ensures { IfOk result (λ events. events.items ≡ waiting_offers world.now) }
{
    let datagrams = world.datagrams();
    let mut events = Vec::new(alloc);
    for place in world.offered()..datagrams.len() {
        let offers = world.offers_of(place, &datagrams[place], alloc)?;
        events.extend_from_slice(&offers)?;
    }
    Ok(events)
}
