//! What a driver steps.

ghost use Rattle.std.specs.Prelude.{◌≡◌, ◌≢◌, ◌↔◌, IfErr, IfOk, None, OnErr, OnOk};
ghost use Rattle.ospf_flood.specs.Rules.{max_sequence_number};
ghost use Rattle.ospf_router.specs.Routers.{RouterValue, stopped};
ghost use Rattle.ospf_router.specs.Starts.{IsStarted};
ghost use Rattle.ospf_router.specs.Steps.{happening};
ghost use Rattle.ospf_drive.specs.Machines.{Rules};

use ospf_config::Config;
use ospf_router::{Event, Router, StartFault, Step, Stopped};
use std::alloc::Global;

/// What a driver steps: a router, which goes on by rules of its own. The program drives a `Router`;
/// what is proved of drivers is proved of them all.
pub trait Machine {
    // The router that it is.
    ghost value: { Self → RouterValue };

    // Which steps it makes, and at which events it may stop.
    ghost rules: { Rules };

    /// One that starts with this configuration, as `Router::start` does.
    ///
    /// `StartFault::Floor` where the floor is the greatest number, else
    /// `StartFault::Memory` where memory runs out.
    fn start(config: &Config, dd_start: u32, floor: i32, alloc: Global) -> Result<Self, StartFault>
        ensures started { IfOk result (λ m. IsStarted config.now dd_start floor (value m)) }
        ensures above { OnOk result (floor ≢ max_sequence_number) }
        ensures refused { IfErr result (λ f. (f ≡ StartFault.Floor)
            ↔ (floor ≡ max_sequence_number)) };

    /// Takes an event, by its rules.
    ///
    /// `Stopped` where memory runs out, and from then on.
    fn step(&mut self, event: Event<'_>, alloc: Global) -> Result<Step, Stopped>
        // It makes one of its steps, and has its links.
        ensures taken { IfOk result (λ t. rules.steps (happening event.entry) (value self.old) t
            (value self.new)) }
        ensures links { OnOk result ((value self.new).links ≡ (value self.old).links) }
        // It stops where it may, and is a router that has stopped then.
        ensures may_stop { OnErr result (rules.stops (happening event.entry) (value self.old)) }
        ensures stopped { OnErr result (value self.new ≡ stopped (value self.old)) }
        // And from then on.
        ensures stands_still { (value self.old).area ≡ None → OnOk result ⊥ };

    /// The router that it is.
    fn router(&self) -> &Router
        ensures { result.now ≡ value self.now };

    /// The router that it is, of which it lets go.
    fn into_router(self) -> Router
        ensures { result ≡ value self };
}

impl Machine for Router {
    ghost use Rattle.ospf_drive.specs.Machines.{router_rules};

    ghost value = { λ r. r };

    ghost rules = { router_rules };

    fn start(
        config: &Config,
        dd_start: u32,
        floor: i32,
        alloc: Global,
    ) -> Result<Router, StartFault> {
        Router::start(config, dd_start, floor, alloc)
    }

    fn step(&mut self, event: Event<'_>, alloc: Global) -> Result<Step, Stopped> {
        Router::step(self, event, alloc)
    }

    fn router(&self) -> &Router {
        self
    }

    fn into_router(self) -> Router {
        self
    }
}
