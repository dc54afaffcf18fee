//! What a thread knows to be published.

ghost use Rattle.std.specs.Prelude.{◌≡◌, ◌⊎◌, ◌↔◌, IsTrue, length};
ghost use Rattle.std.specs.Bool.{OnFalse};
ghost use mathlib.Core.List.{IsPrefix};

use crate::index::rule::{CountsEvents, ListEvent};
use logbook::Seen;
use std::marker::Model;

/// The tables published up to some version, from the opening table on. Proofs see their list; the
/// code has only its length.
#[derive(Drop)]
pub struct Published {
    pub(crate) count: u64,
    pub(crate) seen: Seen<ListEvent, u64, CountsEvents>,
}

impl Model for Published {
    ghost use Rattle.std.specs.Prelude.{◌≡◌, length};
    ghost use Rattle.ospf_fib.specs.PrefixIndex.Known.{Known};
    ghost use Rattle.ospf_fib.specs.PrefixIndex.Rule.{tables_of};

    ghost Value = { Known };

    ghost view = { λ p. record { fib = p.seen.book; tables = tables_of p.seen.log } };

    ghost invariant = { λ p. p.count ≡ length (tables_of p.seen.log) };
}

impl Published {
    /// The same knowledge, for another thread.
    pub fn copy(&self) -> Published
        ensures { result ≡ self.now }
    {
        Published {
            count: self.count,
            seen: self.seen.again(),
        }
    }

    /// How many tables it has.
    pub fn count(&self) -> u64
        ensures { result ≡ length self.now.tables }
    {
        self.count
    }

    /// Whether its list is a beginning of the other's, which belongs to the same forwarding table.
    pub fn begins(&self, other: &Published) -> bool
        requires { other.now.fib ≡ self.now.fib }
        ensures begins { IsTrue result ↔ IsPrefix self.now.tables other.now.tables }
        ensures longer { OnFalse result (IsPrefix other.now.tables self.now.tables) }
    {
        let mut both = self.seen.again();
        both.learn(&other.seen);
        other.count >= self.count
    }

    /// Keeps the longer list of its own and the other's, which belongs to the same forwarding
    /// table.
    pub fn take_later(&mut self, other: &Published)
        requires { other.now.fib ≡ self.old.fib }
        // It is a list of the same forwarding table, and one of the two.
        ensures fib { self.new.fib ≡ self.old.fib }
        ensures one { (self.new.tables ≡ self.old.tables) ⊎ (self.new.tables ≡ other.now.tables) }
        // It begins with each of them.
        ensures own { IsPrefix self.old.tables self.new.tables }
        ensures others { IsPrefix other.now.tables self.new.tables }
    {
        if !other.begins(self) {
            *self = other.copy();
        }
    }
}
