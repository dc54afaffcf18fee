//! What the lines of a script work on.

ghost use Rattle.std.specs.Prelude.{◌≡◌};
ghost use Rattle.ospf_commands.specs.Simulations.{begun_in};

use crate::delivery::Losses;
use ospf_world::{Walk, World};

/// A world, and what earlier lines requested or found.
#[derive(Drop)]
pub struct Simulation {
    pub world: World,
    /// The losses in rounds from now on, if there are any.
    pub losses: Option<Losses>,
    /// The last walk that a line requested, if one did.
    pub walk: Option<Walk>,
    /// Whether output has a heading.
    pub is_labelled: bool,
    /// Whether the last settling rounds succeeded, and nothing can have happened since.
    pub is_settled: bool,
    /// Whether an expectation was not met.
    pub is_unmet: bool,
    /// Whether a line was refused.
    pub is_refused: bool,
}

impl Simulation {
    /// No line has run.
    pub fn new(world: World) -> Simulation
        ensures { result ≡ begun_in world }
    {
        Simulation {
            world,
            losses: None,
            walk: None,
            is_labelled: false,
            is_settled: false,
            is_unmet: false,
            is_refused: false,
        }
    }
}
