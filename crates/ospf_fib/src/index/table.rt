//! A routing table with its index.

ghost use Rattle.std.specs.Prelude.{◌≡◌, ◌<◌, [], All, AllPairs, Contains, IfNone, IfOk, IfSome, OnErr, OnOk, length};
ghost use Rattle.ospf_base.specs.Prefixes.{Holds};
ghost use Rattle.ospf_graph.specs.declared.route.Route.{Route};
ghost use Rattle.ospf_graph.specs.Routes.{IsRouteBefore};
ghost use Rattle.ospf_graph.specs.Walk.{IsBest};
ghost use Rattle.ospf_fib.specs.PrefixIndex.Entries.{route_of};
ghost use Rattle.ospf_spf.specs.Changes.{edited, IsChangeBefore, PutsHops};

use crate::index::counts::most_hops;
use crate::index::entries::FoundRoute;
use crate::index::index::{Index, IndexRoom};
use crate::index::replace::{can_replace, put_routes};
use ospf_base::Addr;
use ospf_graph::Route;
use ospf_spf::{Change, Edit, RouteTable, copy_changes};
use std::alloc::{AllocError, Global};
use std::marker::Model;

/// A routing table that is looked up through its index. Proofs see it as its routes.
#[derive(Drop)]
pub struct IndexedTable {
    table: RouteTable,
    index: Index,
}

impl Model for IndexedTable {
    ghost use Rattle.std.specs.Prelude.{List};
    ghost use Rattle.ospf_graph.specs.declared.route.Route.{Route};
    ghost use Rattle.ospf_fib.specs.PrefixIndex.Indexes.{IsIndexOf};

    ghost Value = { List Route };

    ghost view = { λ t. t.table };

    ghost invariant = { λ t. IsIndexOf t.table t.index };
}

impl IndexedTable {
    /// A table of no routes, with its index.
    ///
    /// `AllocError` where memory runs out.
    pub fn empty(alloc: Global) -> Result<IndexedTable, AllocError>
        ensures { IfOk result (λ table. table ≡ []) }
    {
        let room = IndexRoom::new(alloc, 0, 0)?;
        let table = RouteTable::empty(alloc);
        let index = Index::of(table.routes(), room);
        Ok(IndexedTable { table, index })
    }

    /// The table.
    pub fn table(&self) -> &RouteTable
        ensures { result.now ≡ self.now }
    {
        &self.table
    }

    /// The routes, in the order of their prefixes.
    pub fn routes(&self) -> &[Route]
        ensures routes { result.now ≡ self.now }
        ensures in_order { AllPairs IsRouteBefore self.now }
        ensures have_hops { All (λ r. 0 < length r.hops) self.now }
    {
        self.table.routes()
    }

    /// Takes all routes out. It takes no memory but that of the index.
    ///
    /// `AllocError` where memory runs out; then the table is as it was.
    pub fn clear(&mut self, alloc: Global) -> Result<(), AllocError>
        ensures done { OnOk result (self.new ≡ []) }
        ensures refused { OnErr result (self.new ≡ self.old) }
    {
        let empty = IndexedTable::empty(alloc)?;
        *self = empty;
        Ok(())
    }

    /// Makes changes, which are in the order of tables. Where they are few, and each puts a route
    /// in the place of one to the same prefix, mostly no other route is looked at; otherwise it
    /// takes one pass over the table, and a new index.
    ///
    /// `AllocError` where memory runs out; then the table is as it was.
    pub fn edit(&mut self, alloc: Global, changes: &[Change]) -> Result<(), AllocError>
        requires in_order { AllPairs IsChangeBefore changes.now }
        requires have_hops { All PutsHops changes.now }
        ensures done { OnOk result (self.new ≡ edited self.old changes.now) }
        ensures refused { OnErr result (self.new ≡ self.old) }
    {
        let IndexedTable { table, index } = self;
        if can_replace(table.routes(), changes) && index.has_set_room(changes) {
            let copies = copy_changes(alloc, changes)?;
            index.replace(table.routes(), changes);
            put_routes(table, alloc, copies);
            return Ok(());
        }
        let edit = Edit::new(alloc, table, changes)?;
        let hops = most_hops(table.routes(), changes)?;
        let room = IndexRoom::new(alloc, edit.room(), hops)?;
        table.make(edit);
        *index = Index::of(table.routes(), room);
        Ok(())
    }

    /// The route of longest prefix that holds an address (RFC 2328, section 11.1);
    /// `None` where no route's prefix does.
    pub fn lookup(&self, address: Addr) -> Option<FoundRoute<'_>>
        ensures found { IfSome result (λ r. IsBest self.now address.0 (route_of r)) }
        ensures hop { IfSome result (λ r. 0 < length r.hops.now) }
        ensures none { IfNone result ((r : Route) → Contains self.now r → Holds r.prefix address.0 →
            ⊥) }
    {
        let entry = self.index.entry(self.table.routes(), address.0);
        let hops = self.index.sets.get(entry.set);
        if hops.is_empty() {
            return None;
        }
        Some(FoundRoute {
            prefix: entry.prefix,
            cost: entry.cost,
            hops,
        })
    }
}
