//! The one that may add to the list.

ghost use Rattle.std.specs.Prelude.{◌≡◌, ◌-◌, ◌^◌, ◌≤◌, ◌∷◌, ◌++◌, [], length, IfSome, IfOk, IfErr, OnErr};
ghost use mathlib.Core.List.{IsPrefix};
ghost use Rattle.ospf_fib.specs.PrefixIndex.Known.{opening};
ghost use Rattle.ospf_fib.specs.PrefixIndex.Rule.{counter_of};

use crate::index::known::Published;
use crate::index::rule::{
    AddsTable, Closes, Counter, CountsEvents, ListEvent, NoGain, Opens, Proves,
};
use logbook::{Offer, Pen, Seen, Start, Word};
use ospf_spf::RouteTable;
use std::marker::Model;

// The last count of steps at which a list is opened: opening, a table and closing still fit.
const LAST_OPENING: u64 = u64::MAX - 3;

/// The whole list at some time while it was open. Whoever has this may add a
/// table, unless another was faster.
#[derive(Drop)]
pub struct Opened {
    count: u64,
    events: u64,
    seen: Seen<ListEvent, u64, CountsEvents>,
}

impl Model for Opened {
    ghost use Rattle.std.specs.Prelude.{◌≡◌, length, false};
    ghost use Rattle.ospf_fib.specs.PrefixIndex.Known.{Known};
    ghost use Rattle.ospf_fib.specs.PrefixIndex.Rule.{tables_of, closed};

    ghost Value = { Known };

    ghost view = { λ p. record { fib = p.seen.book; tables = tables_of p.seen.log } };

    ghost invariant = { λ p. (p.count ≡ length (tables_of p.seen.log))
        × (p.events ≡ length p.seen.log) × (closed false p.seen.log ≡ false) };
}

impl Opened {
    /// The list of a new forwarding table, with its counter: the empty opening table.
    pub fn new() -> (Counter, Opened)
        ensures counter { result.0 ≡ counter_of result.1.fib }
        ensures opening { result.1.tables ≡ opening }
    {
        let (seen, mut pen, _) = Seen::open(Start::alone(), 1, 0);
        let counter = Word::tracked(1, &mut pen);
        let opened = Opened {
            count: 1,
            events: 1,
            seen,
        };
        (counter, opened)
    }

    /// The same, for another holder.
    pub fn copy(&self) -> Opened
        ensures { result ≡ self.now }
    {
        Opened {
            count: self.count,
            events: self.events,
            seen: self.seen.again(),
        }
    }

    /// How many tables it has.
    pub fn count(&self) -> u64
        ensures { result ≡ length self.now.tables }
    {
        self.count
    }

    /// What is known of it.
    pub fn known(&self) -> Published
        ensures { result ≡ self.now }
    {
        Published {
            count: self.count,
            seen: self.seen.again(),
        }
    }

    /// Adds a table: in one step it is appended to the list. `None` where another was faster, or
    /// the list has 2^64 - 1 tables or steps; that it is returned for nothing else is not proved.
    pub fn added(&self, counter: &Counter, table: &RouteTable) -> Option<Opened>
        requires { counter.now ≡ counter_of self.now.fib }
        ensures fib { IfSome result (λ after. after.fib ≡ self.now.fib) }
        ensures tables { IfSome result (λ after. after.tables ≡ self.now.tables ++ table.now ∷ []) }
    {
        if self.events == u64::MAX || self.count == u64::MAX {
            return None;
        }
        let mut seen = self.seen.again();
        let mut offer: Asked = seen.plain::<NoGain, RouteTable, AddsTable>(table);
        let mut pen = seen.no_pen();
        let (events, next) = (self.events, self.events + 1);
        let found = counter.compare_exchange::<AddsTable, NoGain>(
            events, next, &mut seen, &mut offer, &mut pen,
        );
        if found == events {
            let count = self.count + 1;
            Some(Opened {
                count,
                events: next,
                seen,
            })
        } else {
            None
        }
    }
}

impl Opened {
    /// Closes the list in one step: nobody else adds a table from here on. `None` where something
    /// was added meanwhile, or at 2^64 - 1 steps; that it comes for nothing else is not proved.
    pub fn close(&self, counter: &Counter) -> Option<ClosedList>
        requires { counter.now ≡ counter_of self.now.fib }
        ensures { IfSome result (λ list. list.known ≡ self.now) }
    {
        if self.events == u64::MAX {
            return None;
        }
        let mut seen = self.seen.again();
        let mut offer: Asked = seen.plain::<NoGain, u64, Closes>(&0);
        let mut pen = seen.no_pen();
        let (events, next) = (self.events, self.events + 1);
        let found = counter.compare_exchange::<Closes, NoGain>(
            events, next, &mut seen, &mut offer, &mut pen,
        );
        if found != events {
            return None;
        }
        let _word: Counter = Word::tracked(0, &mut pen);
        Some(ClosedList {
            count: self.count,
            events: next,
            seen,
            pen,
        })
    }
}

/// The whole list, while it is closed: there is one of it, and nobody else adds a table.
#[derive(Drop)]
pub struct ClosedList {
    count: u64,
    events: u64,
    seen: Seen<ListEvent, u64, CountsEvents>,
    pen: Pen,
}

impl Model for ClosedList {
    ghost use Rattle.std.specs.Prelude.{◌≡◌, length, true, false, suc};
    ghost use Rattle.logbook.specs.Pages.{nib, may_write};
    ghost use Rattle.ospf_fib.specs.PrefixIndex.Known.{WholeList};
    ghost use Rattle.ospf_fib.specs.PrefixIndex.Rule.{tables_of, closed, opens};

    ghost Value = { WholeList };

    ghost view = { λ p. record {
      known = record { fib = p.seen.book; tables = tables_of p.seen.log };
      steps = p.events;
    } };

    ghost invariant = { λ p. (p.count ≡ length (tables_of p.seen.log))
        × (p.events ≡ length p.seen.log) × (closed false p.seen.log ≡ true)
        × (p.pen.book ≡ p.seen.book)
        × (p.pen.nib ≡ (nib may_write (suc (suc (opens p.seen.log))) 0)) };
}

impl ClosedList {
    /// Opens the list. The list is whole, so nobody was faster. It comes back where there is no
    /// room for three steps more among the 2^64 that the list counts.
    pub fn open(self, counter: &Counter) -> Result<Opened, ClosedList>
        requires { counter.now ≡ counter_of self.known.fib }
        ensures opened { IfOk result (λ opened. opened ≡ self.known) }
        ensures same { IfErr result (λ list. list ≡ self) }
        ensures full { OnErr result (2 ^ 64 - 3 ≤ self.steps) }
    {
        if self.events > LAST_OPENING {
            return Err(self);
        }
        let ClosedList {
            count,
            events,
            mut seen,
            mut pen,
        } = self;
        let mut offer: Asked = seen.plain::<NoGain, u64, Opens>(&0);
        let next = events + 1;
        counter.compare_exchange::<Opens, NoGain>(events, next, &mut seen, &mut offer, &mut pen);
        Ok(Opened {
            count,
            events: next,
            seen,
        })
    }

    /// All that is known of this list anywhere is a beginning of it.
    pub fn covers(&mut self, counter: &Counter, other: &Published)
        requires counter { counter.now ≡ counter_of self.old.known.fib }
        requires same { other.now.fib ≡ self.old.known.fib }
        ensures same { self.new ≡ self.old }
        ensures covers { IsPrefix other.now.tables self.new.known.tables }
    {
        let mut seen = self.seen.again();
        seen.learn(&other.seen);
        let mut offer: Asked = seen.plain::<NoGain, u64, Proves>(&0);
        let events = self.events;
        counter.compare_exchange::<Proves, NoGain>(
            events,
            events,
            &mut seen,
            &mut offer,
            &mut self.pen,
        );
    }

    /// What is known of it.
    pub fn known(&self) -> Published
        ensures { result ≡ self.now.known }
    {
        Published {
            count: self.count,
            seen: self.seen.again(),
        }
    }
}

type Asked = Offer<ListEvent, u64, CountsEvents, NoGain>;
