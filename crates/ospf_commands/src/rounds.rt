//! Rounds, and random events.

ghost use Rattle.std.specs.Prelude.{◌≡◌};
ghost use Rattle.ospf_commands.specs.Commands.{SomeHappen};
ghost use Rattle.ospf_commands.specs.Rounds.{AreBatches, AreRounds, IsOneRound, most_of};
ghost use Rattle.ospf_commands.specs.Simulations.{unsettled};
ghost use Rattle.ospf_commands.specs.Worlds.{IsRandomRun};
ghost use Rattle.ospf_commands.specs.Deliveries.Progress.{ToldOn};
ghost use Rattle.ospf_world.specs.Watching.{Told};

use crate::delivery::{Watch, batch, round_losing};
use crate::simulation::Simulation;
use ospf_world::{MOST_OFFERS, World, WorldFault};
use rand_pcg::Lcg64Xsh32;
use std::alloc::Global;

// How many random events happen between two reports to the watch.
const EVENTS_AT_ONCE: u64 = 10_000;

// Runs this many rounds, up to the first that is refused.
pub(crate) fn run_rounds<V: Watch>(
    simulation: &mut Simulation,
    count: u64,
    most: Option<u64>,
    alloc: Global,
    watch: &mut V,
) -> Result<(), WorldFault>
    ensures rounds { AreRounds (most_of most) count (unsettled simulation.old) result
        simulation.new }
    ensures told { ToldOn V.comes_gives V.came_gives V.goes_on_gives
        (simulation.old.world, watch.old) (simulation.new.world, watch.new) }
{
    simulation.is_settled = false;
    let most = most_of(most);
    for done in 0..count {
        watch.begins_round(done, count);
        match run_round(simulation, most, alloc, watch) {
            Ok(()) => {}
            Err(fault) => return Err(fault),
        }
    }
    Ok(())
}

// Runs a round, with losses if there are any.
pub(crate) fn run_round<V: Watch>(
    simulation: &mut Simulation,
    most: u64,
    alloc: Global,
    watch: &mut V,
) -> Result<(), WorldFault>
    ensures round { IsOneRound most simulation.old result simulation.new }
    ensures told { Told V.comes_gives V.came_gives (simulation.old.world, watch.old)
        (simulation.new.world, watch.new) }
{
    simulation.is_settled = false;
    let world = &mut simulation.world;
    match &mut simulation.losses {
        Some(losses) => round_losing(world, most, losses, watch, alloc),
        None => world.round_watched(most, watch, alloc),
    }
}

// Runs this many batches, up to the first that is refused. Nothing is lost in them.
pub(crate) fn run_batches<V: Watch>(
    simulation: &mut Simulation,
    count: u64,
    alloc: Global,
    watch: &mut V,
) -> Result<(), WorldFault>
    ensures batches { AreBatches count (unsettled simulation.old) result simulation.new }
    ensures told { ToldOn V.comes_gives V.came_gives V.goes_on_gives
        (simulation.old.world, watch.old) (simulation.new.world, watch.new) }
{
    simulation.is_settled = false;
    for done in 0..count {
        watch.begins_round(done, count);
        simulation.is_settled = false;
        match batch(&mut simulation.world, watch, alloc) {
            Ok(()) => {}
            Err(fault) => return Err(fault),
        }
    }
    Ok(())
}

// Runs this many random events, some at a time, until memory runs out.
pub(crate) fn run_events<V: Watch>(
    simulation: &mut Simulation,
    number: u64,
    count: u64,
    alloc: Global,
    watch: &mut V,
) -> Result<(), WorldFault>
    ensures happen { SomeHappen number count simulation.old result simulation.new }
    ensures told { ToldOn V.comes_gives V.came_gives V.goes_on_gives
        (simulation.old.world, watch.old) (simulation.new.world, watch.new) }
{
    simulation.is_settled = false;
    draw(&mut simulation.world, number, count, alloc, watch)
}

// The most datagrams that a round offers.
#[tactic(auto, unfolding(ospf_world::specs::Rounds::most_offers))]
fn most_of(most: Option<u64>) -> u64
    ensures { result ≡ most_of most }
{
    most.unwrap_or(MOST_OFFERS)
}

// Draws this many events, and makes them happen.
fn draw<V: Watch>(
    world: &mut World,
    number: u64,
    count: u64,
    alloc: Global,
    watch: &mut V,
) -> Result<(), WorldFault>
    ensures random { IsRandomRun number count world.old result world.new }
    ensures told { ToldOn V.comes_gives V.came_gives V.goes_on_gives
        (world.old, watch.old) (world.new, watch.new) }
{
    let mut generator = Lcg64Xsh32::new(number, 0);
    let mut done = 0;
    while done < count {
        watch.draws_events(done, count);
        let part = (count - done).min(EVENTS_AT_ONCE);
        match world.draw_events_watched(&mut generator, part, watch, alloc) {
            Ok(()) => done += part,
            Err(fault) => return Err(fault),
        }
    }
    Ok(())
}
