//! Rounds with losses.

ghost use Rattle.std.specs.Prelude.{◌≡◌, IfOk, OnErr, option_map};
ghost use Rattle.ospf_world.specs.Headline.{Headline, IsReached};
ghost use Rattle.ospf_router.specs.Steps.{is_dropped};
ghost use Rattle.ospf_commands.specs.Deliveries.Losses.{AreNextKept, AreOfferedBut, IsLosingRound, LosesNext};
ghost use Rattle.ospf_world.specs.Exact.{IsReachedExactly};
ghost use Rattle.ospf_world.specs.Rounds.{HasNext};
ghost use Rattle.ospf_world.specs.Sounds.{IsSoundBetween};
ghost use Rattle.ospf_world.specs.Ticks.{TicksOn};
ghost use Rattle.ospf_world.specs.Watching.{Told};
ghost use Rattle.ospf_world.specs.Worlds.{world_of};

use crate::delivery::losses::Losses;
use ospf_world::{EventWatch, World, WorldEvent, WorldFault, headline, runs_lead_on, soundness};
use std::alloc::{AllocError, Global};

/// Runs a round, like `World::round_of`, in which deliveries are lost: what is lost is not
/// delivered, and nothing else changes. Each event is reported to a watch.
///
/// `Memory` if memory runs out, which ends the round.
pub fn round_losing<W: EventWatch>(
    world: &mut World,
    most: u64,
    losses: &mut Losses,
    watch: &mut W,
    alloc: Global,
) -> Result<(), WorldFault>
    // What happens in a round with losses, how far these have come, and what is reported to the
    // watch.
    ensures round { IsLosingRound most losses.old world.old result world.new losses.new }
    ensures told { Told W.comes_gives W.came_gives (world.old, watch.old) (world.new, watch.new) }
    // What holds of every network holds of this one again, and its log of ticks continues.
    ensures reached { IsReached is_dropped (world_of world.new) }
    ensures exact { IsReachedExactly world.new }
    ensures headline { Headline (world_of world.old) (world_of world.new) }
    ensures sound { IsSoundBetween (world_of world.old) (world_of world.new) }
    ensures ticks { TicksOn (world_of world.old) world.old.ticks (world_of world.new)
        world.new.ticks }
{
    // For the proof.
    headline();
    soundness();
    runs_lead_on();
    world.reached();
    world.reached_exactly();
    let Ok(ticks) = ospf_world::ticks_of(world.slots(), alloc) else {
        return Err(WorldFault::Memory { stopped: false });
    };
    match world.run_watched(&ticks, watch, alloc) {
        Ok(_refused) => offer_but(world, most, losses, watch, alloc),
        Err(fault) => Err(fault),
    }
}

// Offers at most this many datagrams, except for what is lost.
fn offer_but<W: EventWatch>(
    world: &mut World,
    most: u64,
    losses: &mut Losses,
    watch: &mut W,
    alloc: Global,
) -> Result<(), WorldFault>
    ensures offered { AreOfferedBut most world.old losses.old result world.new losses.new }
    ensures told { Told W.comes_gives W.came_gives (world.old, watch.old) (world.new, watch.new) }
    ensures ticks { TicksOn (world_of world.old) world.old.ticks (world_of world.new)
        world.new.ticks }
{
    for i in 0..most {
        match offer_kept(world, losses, watch, alloc) {
            Ok(true) => {}
            Ok(false) => return Ok(()),
            Err(fault) => return Err(fault),
        }
    }
    Ok(())
}

// Offers the next datagram, if there is one, except for what is lost.
fn offer_kept<W: EventWatch>(
    world: &mut World,
    losses: &mut Losses,
    watch: &mut W,
    alloc: Global,
) -> Result<bool, WorldFault>
    ensures offers { LosesNext losses.old world.old result world.new losses.new }
    ensures told { Told W.comes_gives W.came_gives (world.old, watch.old) (world.new, watch.new) }
    ensures ticks { TicksOn (world_of world.old) world.old.ticks (world_of world.new)
        world.new.ticks }
{
    match next_kept(world, losses, alloc) {
        Ok(Some(offers)) => {
            world.pass_one();
            match world.run_watched(&offers, watch, alloc) {
                Ok(_refused) => Ok(true),
                Err(fault) => Err(fault),
            }
        }
        Ok(None) => Ok(false),
        Err(AllocError) => Err(WorldFault::Memory { stopped: false }),
    }
}

// The offers of the next datagram, if there is one, except for what is lost.
fn next_kept(
    world: &World,
    losses: &mut Losses,
    alloc: Global,
) -> Result<Option<Vec<WorldEvent>>, AllocError>
    ensures next { IfOk result (λ next. AreNextKept world.now losses.old
        (option_map (λ v. v.items) next) losses.new) }
    ensures err { OnErr result (losses.new ≡ losses.old) }
    ensures room { OnErr result (HasNext world.now) }
{
    let place = world.offered();
    match world.datagrams().get(place) {
        Some(sent) => {
            let offers = world.offers_of(place, sent, alloc)?;
            let kept = losses.kept_from(world.source_of(sent), offers, alloc)?;
            Ok(Some(kept))
        }
        None => Ok(None),
    }
}
