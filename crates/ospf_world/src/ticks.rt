//! The ticks that routers took.

ghost use Rattle.std.specs.Prelude.{◌≡◌, ◌++◌, IfNone, IfSome, false, is_some, length, true};
ghost use Rattle.ospf_base.specs.declared.ids.RouterId.{RouterId};
ghost use Rattle.ospf_base.specs.declared.event.event.WorldEvent.TheVariants.{Tick};
ghost use Rattle.ospf_world.specs.Slots.{SlotSteps};
ghost use Rattle.ospf_world.specs.Ticks.{ticked_by};

use crate::logs::Logs;
use crate::slot::Slot;
use ospf_base::RouterId;
use ospf_base::event::{WorldEvent, WorldFault};
use std::alloc::Global;

/// A tick that a router took, and how many datagrams had been sent before it.
#[derive(Clone, Copy, Debug, PartialEq, Eq)]
pub struct Ticked {
    pub router: RouterId,
    pub sent: usize,
}

/// What an event does at a slot. A tick that its router takes is logged.
pub(crate) fn step_slot(
    slot: &mut Slot,
    event: &WorldEvent,
    logs: &mut Logs,
    ticks: &mut Vec<Ticked>,
    alloc: Global,
) -> Result<(), WorldFault>
    ensures steps { SlotSteps event.now slot.old logs.old result slot.new logs.new }
    ensures ticks { ticks.new.items ≡ ticks.old.items
        ++ ticked_by event.now result (length logs.old.datagrams) }
{
    let Some(tick) = tick_at(slot, event, logs.datagrams().len()) else {
        return slot.step(event, logs, alloc);
    };
    let count = ticks.len();
    if ticks.push(tick).is_err() {
        return Err(WorldFault::Memory { stopped: false });
    }
    match slot.step(event, logs, alloc) {
        Ok(()) => Ok(()),
        Err(fault) => {
            ticks.truncate(count);
            Err(fault)
        }
    }
}

// The tick that an event is at a router that runs.
fn tick_at(slot: &Slot, event: &WorldEvent, sent: usize) -> Option<Ticked>
    ensures some { IfSome result (λ t. (event.now ≡ Tick t.router) × (t.sent ≡ sent)
        × (is_some slot.now.running ≡ true)) }
    ensures none { IfNone result ((r : RouterId) → event.now ≡ Tick r →
        is_some slot.now.running ≡ false) }
{
    match event {
        WorldEvent::Tick { router } if slot.runs() => Some(Ticked {
            router: *router,
            sent,
        }),
        _ => None,
    }
}
