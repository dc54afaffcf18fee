//! What a running router dropped.

ghost use Rattle.std.specs.Prelude.{◌≡◌, IfOk};
ghost use Rattle.ospf_router.specs.AreaStep.Counts.{none_dropped_on, with_dropped_on};

use ospf_config::Config;
use ospf_router::step::{DropCounts, Dropped, count_dropped, none_dropped_on};
use std::alloc::{AllocError, Global};
use std::marker::Model;

/// How many datagrams a router dropped since it started, by link and cause.
#[derive(Drop)]
pub(crate) struct RouterDrops {
    links: Vec<DropCounts>,
}

impl Model for RouterDrops {
    ghost use Rattle.std.specs.Prelude.{List};
    ghost use Rattle.ospf_router.specs.declared.step.counts.DropCounts.{DropCounts};

    ghost Value = { List DropCounts };

    ghost view = { λ d. d.links.items };
}

impl RouterDrops {
    /// None yet, on the links of a configuration.
    ///
    /// `AllocError` where memory runs out.
    pub(crate) fn none(config: &Config, alloc: Global) -> Result<RouterDrops, AllocError>
        ensures { IfOk result (λ d. d ≡ none_dropped_on config.now.interfaces.items) }
    {
        let links = none_dropped_on(&config.interfaces, alloc)?;
        Ok(RouterDrops { links })
    }

    /// By links.
    pub(crate) fn links(&self) -> &[DropCounts]
        ensures { result.now ≡ self.now }
    {
        &self.links
    }

    /// Counts what came in on a link and was dropped, if anything did and was.
    pub(crate) fn count(&mut self, link: Option<usize>, dropped: Option<Dropped>)
        ensures { self.new ≡ with_dropped_on link dropped self.old }
    {
        count_dropped(&mut self.links, link, dropped);
    }
}
