//! Who is notified of each event.

ghost use Rattle.std.specs.Prelude.{⊤};
ghost use Rattle.ospf_world.specs.Watching.{CameRule, ComesRule};

use crate::world::World;
use ospf_base::event::{WorldEvent, WorldFault};

/// Is notified of each event of a run, a round or a draw. What it does then is its own affair:
/// it returns nothing to the world.
pub trait EventWatch {
    // How it changes when it is notified which event comes next; it may promise nothing.
    ghost comes_gives: { ComesRule Self } = { λ _ _ _ _. ⊤ };

    // How it changes when it is notified of the result of that event.
    ghost came_gives: { CameRule Self } = { λ _ _ _ _ _. ⊤ };

    /// This event comes next. This is the world before it.
    fn comes(&mut self, world: &World, event: &WorldEvent)
        ensures { comes_gives world.now event.now self.old self.new };

    /// That event had this result. This is the world after it.
    fn came(&mut self, world: &World, event: &WorldEvent, answer: &Result<(), WorldFault>)
        ensures { came_gives world.now event.now answer.now self.old self.new };
}

/// Nobody is notified.
#[derive(Clone, Copy, Debug, PartialEq, Eq)]
pub struct Unwatched;

impl EventWatch for Unwatched {
    fn comes(&mut self, _world: &World, _event: &WorldEvent) {}

    fn came(&mut self, _world: &World, _event: &WorldEvent, _answer: &Result<(), WorldFault>) {}
}
