//! A running router and its numbering runs.

ghost use Rattle.std.specs.Prelude.{◌≡◌, ◌≢◌, ◌<◌, ◌↔◌, IfErr, IfOk, IfSome, OnErr, OnOk, length, slice_get};
ghost use Rattle.ospf_flood.specs.Rules.{max_sequence_number};
ghost use Rattle.ospf_router.specs.declared.fault.StartFault.TheVariants as fault;
ghost use Rattle.ospf_world.specs.Running.{Begins, Fed, NeedsMemory, SettlesLogs, delivery};
ghost use Rattle.ospf_router.specs.Steps.{happening};

use crate::drops::RouterDrops;
use crate::logs::{Datagram, Logs, Run};
use ospf_area::Outputs;
use ospf_base::{LsaKey, RouterId};
use ospf_config::Config;
use ospf_router::step::{DropCounts, steps_are_lawful};
use ospf_router::{Event, Router, StartFault, Step, Stopped};
use std::alloc::Global;
use std::marker::Model;

/// A running router, the run of its keys since its start, the later runs of single keys, and what
/// it dropped since its start, by links.
#[derive(Drop)]
pub(crate) struct RunningRouter {
    router: Router,
    first: Run,
    later: Vec<(LsaKey, Run)>,
    drops: RouterDrops,
}

impl Model for RunningRouter {
    ghost use Rattle.ospf_world.specs.Running.{RunningValue};

    ghost Value = { RunningValue };

    ghost view = { λ x. record {
      router = x.router;
      first = x.first;
      later = x.later.items;
      drops = x.drops;
    } };
}

impl RunningRouter {
    /// A router that starts, when this many LSAs were issued before.
    ///
    /// `StartFault::Floor` where no number is above the floor, else
    /// `StartFault::Memory` where memory runs out.
    pub(crate) fn start(
        config: &Config,
        issued: usize,
        dd_start: u32,
        floor: &i32,
        alloc: Global,
    ) -> Result<RunningRouter, StartFault>
        ensures begins { IfOk result (λ x. Begins config.now dd_start issued floor.now x) }
        ensures above { OnOk result (floor.now ≢ max_sequence_number) }
        ensures refused { IfErr result (λ f. (f ≡ fault.Floor)
            ↔ (floor.now ≡ max_sequence_number)) }
    {
        let base = *floor;
        let router = Router::start(config, dd_start, base, alloc)?;
        let Ok(drops) = RouterDrops::none(config, alloc) else {
            return Err(StartFault::Memory);
        };
        Ok(RunningRouter {
            router,
            first: Run { name: issued, base },
            later: Vec::new(alloc),
            drops,
        })
    }

    /// The router.
    pub(crate) fn router(&self) -> &Router
        ensures { result.now ≡ self.now.router }
    {
        &self.router
    }

    /// What it dropped since its start, by links.
    pub(crate) fn drops(&self) -> &[DropCounts]
        ensures { result.now ≡ self.now.drops }
    {
        self.drops.links()
    }

    /// A step of the router, by which the logs grow.
    ///
    /// `Stopped` where memory runs out, which it does at no event that is dropped: then no log has
    /// grown.
    pub(crate) fn feed(
        &mut self,
        event: Event<'_>,
        logs: &mut Logs,
        router: RouterId,
        alloc: Global,
    ) -> Result<(), Stopped>
        ensures fed { OnOk result (Fed router (happening event.entry) self.old logs.old self.new
            logs.new) }
        ensures none { OnErr result (logs.new ≡ logs.old) }
        ensures memory { OnErr result (NeedsMemory (happening event.entry) self.old) }
    {
        // For the proof.
        steps_are_lawful();
        self.router.keeps();
        let link = event.comes_on();
        let Step { out, dropped, .. } = self.router.step(event, alloc)?;
        self.drops.count(link, dropped);
        if dropped.is_some() {
            // A dropped event has no outputs.
            return Ok(());
        }
        self.settle(out, logs, router)
    }

    /// A datagram that was sent comes in on a link of the router.
    ///
    /// `Stopped` where memory runs out: then no log has grown.
    pub(crate) fn deliver(
        &mut self,
        place: usize,
        link: usize,
        logs: &mut Logs,
        router: RouterId,
        alloc: Global,
    ) -> Result<(), Stopped>
        requires { place < length logs.old.datagrams }
        ensures fed { OnOk result (IfSome (slice_get logs.old.datagrams place)
            (λ g. Fed router (delivery link g) self.old logs.old self.new logs.new)) }
        ensures none { OnErr result (logs.new ≡ logs.old) }
        ensures memory { OnErr result (IfSome (slice_get logs.old.datagrams place)
            (λ g. NeedsMemory (delivery link g) self.old)) }
    {
        // For the proof.
        steps_are_lawful();
        self.router.keeps();
        let event = arrival(&logs.datagrams()[place], link);
        let link = event.comes_on();
        let Step {
            out: outputs,
            dropped,
            ..
        } = self.router.step(event, alloc)?;
        self.drops.count(link, dropped);
        if dropped.is_some() {
            // A dropped event has no outputs.
            return Ok(());
        }
        self.settle(outputs, logs, router)
    }

    // The logs grow by the outputs of a step of the router, and its runs continue.
    fn settle(&mut self, outputs: Outputs, logs: &mut Logs, router: RouterId) -> Result<(), Stopped>
        ensures settles { OnOk result (SettlesLogs router self.old outputs logs.old self.new
            logs.new) }
        ensures none { OnErr result (logs.new ≡ logs.old) }
    {
        match logs.take(router, self.first, &mut self.later, outputs) {
            Ok(()) => Ok(()),
            Err(_) => Err(Stopped),
        }
    }
}

// A datagram that was sent, as it comes in on a link.
fn arrival(datagram: &Datagram, link: usize) -> Event<'_>
    ensures { happening result ≡ delivery link datagram.now }
{
    Event::Datagram {
        link,
        source: datagram.sent.source,
        destination: datagram.sent.destination,
        bytes: &datagram.sent.bytes,
    }
}
