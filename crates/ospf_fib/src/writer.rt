//! The writer, which publishes tables by their changes.

ghost use Rattle.std.specs.Prelude.{◌≡◌, ◌∷◌, ◌++◌, [], All, AllPairs, IfOk, OnErr};
ghost use mathlib.Core.List.{IsPrefix};
ghost use Rattle.ospf_fib.specs.Versions.{AddsEdited, EndsWith};
ghost use Rattle.ospf_spf.specs.Changes.{IsChangeBefore, PutsHops};

use crate::changes::Changes;
use crate::index::IndexedTable;
use crate::publisher::Publisher;
use crate::seat::{Seat, Told};
use core::mem::replace_with;
use ospf_spf::{Change, RouteTable, copy_changes};
use std::alloc::AllocError;
use std::marker::Model;
use std::sync::Wait;

/// The one that publishes tables. Proofs see the list of those that it has published: while no
/// publish runs, readers find the last of them. Its end closes the forwarding table, and waits
/// for lookups that are under way.
pub struct Writer<R: Wait + Drop> {
    pub(crate) publisher: Publisher,
    pub(crate) rt: R,
}

impl<R: Wait + Drop> Model for Writer<R> {
    ghost use Rattle.ospf_fib.specs.PrefixIndex.Known.{Known};

    ghost Value = { Known };

    ghost view = { λ w. w.publisher };
}

impl<R: Wait + Drop> Drop for Writer<R> {
    fn drop(self) {
        let Self { publisher, rt } = self;
        let Publisher {
            copies,
            list: _,
            handed: _,
            tries: _,
            alloc: _,
        } = publisher;
        drop(copies.take(&rt));
    }
}

impl<R: Wait + Drop> Writer<R> {
    /// Publishes the table as the next version, all of it at once: each lookup answers from it or
    /// from what was published before. It may wait for lookups that are under way.
    ///
    /// `AllocError` where memory runs out, or the steps that the list counts, three a publish, are
    /// within three of 2^64; then what is published is unchanged.
    pub fn publish(&mut self, table: &RouteTable) -> Result<Told, AllocError>
        ensures fib { self.new.fib ≡ self.old.fib }
        ensures published { IfOk result (λ _. self.new.tables ≡ self.old.tables ++ table.now ∷ []) }
        ensures told { IfOk result (λ told. told ≡ self.new) }
        ensures refused { OnErr result (self.new.tables ≡ self.old.tables) }
    {
        replace_with(&mut self.publisher, (&self.rt, table), |publisher, asked| {
            publisher.publish(asked.0, asked.1)
        })
    }

    /// Publishes the table that was published last with these changes, which are in the
    /// order of tables, as the next version. If they are few, and each replaces a route to
    /// the same prefix, mostly no other route is looked at. It may wait
    /// for lookups that are under way.
    ///
    /// `AllocError` where memory runs out, or the steps that the list counts, three a publish, are
    /// within three of 2^64; then what is published is unchanged.
    pub fn publish_changes(&mut self, changes: &[Change]) -> Result<Told, AllocError>
        requires in_order { AllPairs IsChangeBefore changes.now }
        requires have_hops { All PutsHops changes.now }
        ensures fib { self.new.fib ≡ self.old.fib }
        // One table more, which is the last one with the changes, or none.
        ensures published { IfOk result (λ _. AddsEdited self.old.tables changes.now
            self.new.tables) }
        ensures told { IfOk result (λ told. told ≡ self.new) }
        ensures refused { OnErr result (self.new.tables ≡ self.old.tables) }
    {
        let changes = Changes::of(copy_changes(self.publisher.alloc, changes)?);
        replace_with(
            &mut self.publisher,
            (&self.rt, changes),
            |publisher, asked| { publisher.publish_changes(asked.0, asked.1) },
        )
    }

    /// The table that readers find while no publish runs: the one that was published last.
    pub fn shown(&self) -> &IndexedTable
        ensures { EndsWith self.now.tables result.now }
    {
        self.publisher.shown()
    }

    /// All that a seat knows to be published was published by this writer. The
    /// seat is of the same `Fib::open`.
    pub fn covers(&mut self, seat: &Seat)
        requires { seat.now.fib ≡ self.old.fib }
        ensures same { self.new ≡ self.old }
        ensures covers { IsPrefix seat.now.tables self.new.tables }
    {
        self.publisher
            .list
            .covers(&self.publisher.tries.counter, &seat.known);
    }
}
