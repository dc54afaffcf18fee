//! The rule that ties the list of published tables to the word that counts
//! them, and to the one that may add.

use logbook::{Gain, Plain, Play, Rule, Word};
use ospf_spf::RouteTable;

/// What happened to the list: it was opened for one table, a table was added, or it was closed.
pub enum ListEvent {
    Opened,
    Added(RouteTable),
    Closed,
}

/// The word is the number of events. While the list is closed, one pen is out.
pub struct CountsEvents;

impl Rule<ListEvent, u64> for CountsEvents {
    ghost use Rattle.std.specs.Prelude.{[]};
    ghost use base.Fml.{ftrue};
    ghost use Rattle.ospf_fib.specs.PrefixIndex.Rule.{IsCounted, first_log};

    ghost holds = { λ cells log. IsCounted cells log };

    ghost first = { first_log };

    ghost hinted = { λ n log. Unit {0} };

    ghost shows = { λ log. [] };

    ghost keeps = { λ names log. ftrue };

    ghost moves = { λ ask before after answer. Unit {0} };
}

/// Whoever makes a step has nothing else of it.
pub struct NoGain;

impl Gain<ListEvent, u64> for NoGain {
    ghost use base.Fml.{ftrue};

    ghost after = { λ names about answer. ftrue };
}

/// The step that adds a table.
pub struct AddsTable;

impl Play<ListEvent, u64> for AddsTable {
    ghost use Rattle.ospf_fib.specs.PrefixIndex.Rule.{AddsWhereCounted};

    ghost then = { AddsWhereCounted };
}

impl Plain<RouteTable, ListEvent, u64> for AddsTable {
    ghost use Rattle.std.specs.Prelude.{None};
    ghost use Rattle.ospf_fib.specs.declared.index.rule.ListEvent.TheVariants.{Added};

    ghost ask = { λ x. Added x };

    ghost state = { λ x. None };
}

/// The step that closes the list.
pub struct Closes;

impl Play<ListEvent, u64> for Closes {
    ghost use Rattle.ospf_fib.specs.PrefixIndex.Rule.{ClosesWhereCounted};

    ghost then = { ClosesWhereCounted };
}

impl Plain<u64, ListEvent, u64> for Closes {
    ghost use Rattle.std.specs.Prelude.{None};
    ghost use Rattle.ospf_fib.specs.declared.index.rule.ListEvent.TheVariants.{Closed};

    ghost ask = { λ x. Closed };

    ghost state = { λ x. None };
}

/// The step that opens the list.
pub struct Opens;

impl Play<ListEvent, u64> for Opens {
    ghost use Rattle.ospf_fib.specs.PrefixIndex.Rule.{OpensAlways};

    ghost then = { OpensAlways };
}

impl Plain<u64, ListEvent, u64> for Opens {
    ghost use Rattle.std.specs.Prelude.{None};
    ghost use Rattle.ospf_fib.specs.declared.index.rule.ListEvent.TheVariants.{Opened};

    ghost ask = { λ x. Opened };

    ghost state = { λ x. None };
}

/// The step that changes nothing, and shows that the pen's list is the whole.
pub struct Proves;

impl Play<ListEvent, u64> for Proves {
    ghost use Rattle.ospf_fib.specs.PrefixIndex.Rule.{ProvesWhole};

    ghost then = { ProvesWhole };
}

impl Plain<u64, ListEvent, u64> for Proves {
    ghost use Rattle.std.specs.Prelude.{None};
    ghost use Rattle.ospf_fib.specs.declared.index.rule.ListEvent.TheVariants.{Closed};

    ghost ask = { λ x. Closed };

    ghost state = { λ x. None };
}

/// The word that threads share: how many events there were.
pub type Counter = Word<ListEvent, u64, CountsEvents>;
