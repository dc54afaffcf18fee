//! Events in queues, one for each router.

ghost use Rattle.std.specs.Prelude.{◌≡◌, ◌<◌, ℕ, IfOk, None, OnOk, Some, length};
ghost use Rattle.ospf_base.specs.Events.Events.{router_in};
ghost use Rattle.ospf_commands.specs.Deliveries.Batches.{by_router, put_at, queued, queues_of};
ghost use Rattle.ospf_world.specs.Worlds.{place_of};

use ospf_world::{World, WorldEvent};
use std::alloc::{AllocError, Global};

/// The events for each router, in the order of the configurations, each router's in order.
///
/// `AllocError` if memory runs out.
pub(crate) fn by_router(
    world: &World,
    events: &[WorldEvent],
    alloc: Global,
) -> Result<Vec<WorldEvent>, AllocError>
    ensures { IfOk result (λ sorted. sorted.items ≡ by_router world.now.slots events.now) }
{
    let queues = queues_of(world, events, alloc)?;
    let mut sorted = Vec::new(alloc);
    for queue in &queues {
        sorted.extend_from_slice(queue)?;
    }
    Ok(sorted)
}

// The events for each router, in its own queue.
fn queues_of(
    world: &World,
    events: &[WorldEvent],
    alloc: Global,
) -> Result<Vec<Vec<WorldEvent>>, AllocError>
    ensures { IfOk result (λ queues. queued queues.items ≡ queues_of world.now.slots events.now) }
{
    let count = world.slots().len();
    let mut queues = Vec::with_capacity(alloc, count)?;
    for _ in 0..count {
        queues.push(Vec::new(alloc))?;
    }
    for event in events {
        put_in_queue(&mut queues, world, event)?;
    }
    Ok(queues)
}

// Puts an event after those for its router, if there is one.
fn put_in_queue(
    queues: &mut Vec<Vec<WorldEvent>>,
    world: &World,
    event: &WorldEvent,
) -> Result<(), AllocError>
    requires within { (place : ℕ) → place_of world.now.slots (router_in event.now).0 ≡ Some place →
        place < length queues.old.items }
    ensures some { (place : ℕ) → place_of world.now.slots (router_in event.now).0 ≡ Some place →
        OnOk result (queued queues.new.items ≡ put_at place event.now (queued queues.old.items)) }
    ensures none { place_of world.now.slots (router_in event.now).0 ≡ None →
        queued queues.new.items ≡ queued queues.old.items }
{
    match world.place(event.router()) {
        Some(place) => {
            queues[place].push(*event)?;
            Ok(())
        }
        None => Ok(()),
    }
}
