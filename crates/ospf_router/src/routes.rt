//! The routing table of a database, with the listing and the tree that it was made of.

ghost use Rattle.std.specs.Prelude.{◌≡◌, ◌≢◌, ◌↔◌, List, [], IsTrue, IfOk, IfNone, IfSome, None, OnErr, OnOk};
ghost use Rattle.ospf_graph.specs.EdgeLists.Listed.{advertisements_of};
ghost use Rattle.ospf_graph.specs.Advertisements.{Advertisement};
ghost use Rattle.ospf_graph.specs.Routes.{IsTable};
ghost use Rattle.ospf_lsa.specs.Listing.{IsListing};
ghost use Rattle.ospf_lsdb.specs.Database.{IsDatabase, listed};
ghost use Rattle.ospf_router.specs.Listings.{ListsAs, ListsBut};
ghost use Rattle.ospf_router.specs.Routes.{AreRoutes};
ghost use Rattle.ospf_spf.specs.Spared.{SparesBut};

use crate::followed::{Grown, followed, lists_as_many};
use crate::growing::GrowingTree;
use crate::listed::lists_as;
use crate::turned::turn_table;
use ospf_area::Outputs;
use ospf_base::RouterId;
use ospf_lsa::Listing;
use ospf_lsdb::Lsdb;
use ospf_spf::RouteTable;
use std::alloc::{AllocError, Global};
use std::marker::Model;

/// The routing table of a router over what its database lists (RFC 2328, section 16.1), stored
/// with its listing and the shortest paths over it. When the database lists a new or changed LSA,
/// the paths grow from there, and the table is calculated again only if they or the ends that they
/// lead to changed.
#[derive(Drop)]
pub struct KeptRoutes {
    router: RouterId,
    table: RouteTable,
    tree: Option<GrowingTree>,
}

impl Model for KeptRoutes {
    ghost use Rattle.ospf_router.specs.Kept.{IsServed, kept_lsas_in};
    ghost use Rattle.ospf_router.specs.Routes.{RoutesValue};

    ghost Value = { RoutesValue };

    ghost view = { λ r. record {
      router = r.router;
      table = r.table;
      listing = kept_lsas_in r.tree;
    } };

    ghost invariant = { λ r. IsServed r.router r.table r.tree };
}

impl KeptRoutes {
    /// No routes yet, of this router.
    pub fn new(router: RouterId, alloc: Global) -> KeptRoutes
        ensures { result ≡ record { router = router; table = []; listing = [] } }
    {
        KeptRoutes {
            router,
            table: RouteTable::empty(alloc),
            tree: None,
        }
    }

    /// The routing table. No memory is allocated.
    pub fn table(&self) -> &RouteTable
        ensures { result.now ≡ self.now.table }
    {
        &self.table
    }

    /// The listing that the routes were made from, if there is one; its ages are those at which
    /// each LSA was put into it. No memory is allocated.
    pub fn listing(&self) -> Option<&Listing>
        ensures some { IfSome result (λ l. l.now ≡ self.now.listing) }
        ensures none { result ≡ None → self.now.listing ≡ [] }
    {
        match &self.tree {
            Some(tree) => Some(tree.listing()),
            None => None,
        }
    }

    /// Makes the routing table that of what the database lists, and returns whether it changed. If
    /// the database lists the LSAs that it listed the last time, at whatever ages, no memory is
    /// allocated.
    ///
    /// `AllocError` where memory runs out; then the table and the listing are unchanged.
    pub fn refresh(&mut self, database: &Lsdb, alloc: Global) -> Result<bool, AllocError>
        // The table is that of what the database lists, and the result says whether it changed.
        ensures table { OnOk result (AreRoutes self.old.router database.now self.new.table) }
        ensures listing { OnOk result (ListsAs database.now self.new.listing) }
        ensures changed { IfOk result (λ b. IsTrue b ↔ (self.new.table ≢ self.old.table)) }
        // The router is unchanged, and if memory runs out all else too.
        ensures router { self.new.router ≡ self.old.router }
        ensures kept { OnErr result (self.new ≡ self.old) }
    {
        if self.is_current(database) {
            Ok(false)
        } else {
            self.renew(database, alloc)
        }
    }

    /// Like `refresh`, after a step with these outputs. It looks up in the database only
    /// the keys that were taken and issued, and the paths grow from there,
    /// as long as no LSA leaves what is listed. If nothing was taken or issued and
    /// none leaves, no memory is allocated.
    ///
    /// `AllocError` where memory runs out; then there are no routes, as at first.
    pub fn follow(
        &mut self,
        out: &Outputs,
        database: &Lsdb,
        alloc: Global,
    ) -> Result<bool, AllocError>
        requires { ListsBut out.now database.now self.old.listing }
        // The table is that of what the database lists, and the result says whether it changed.
        ensures table { OnOk result (AreRoutes self.old.router database.now self.new.table) }
        ensures listing { OnOk result (ListsAs database.now self.new.listing) }
        ensures changed { IfOk result (λ b. IsTrue b ↔ (self.new.table ≢ self.old.table)) }
        // The router is unchanged; if memory runs out, there is no table and no listing.
        ensures router { self.new.router ≡ self.old.router }
        ensures cleared { OnErr result
            (self.new ≡ record self.old { table = []; listing = [] }) }
    {
        if self.is_still(out, database) {
            return Ok(false);
        }
        let followed = self.go_on(out, database, alloc);
        // The table may be half changed then, and the tree is gone.
        if followed.is_err() {
            self.clear(alloc);
        }
        followed
    }

    /// No routes, as at first.
    pub fn clear(&mut self, alloc: Global)
        ensures { self.new ≡ record self.old { table = []; listing = [] } }
    {
        self.table = RouteTable::empty(alloc);
        self.tree = None;
    }

    // Whether the routes are those of a listing as the database has it. No memory is allocated.
    fn is_current(&self, database: &Lsdb) -> bool
        ensures routes { IsTrue result → AreRoutes self.now.router database.now self.now.table }
        ensures listing { IsTrue result → ListsAs database.now self.now.listing }
    {
        match &self.tree {
            Some(tree) => lists_as(database, tree.listing()),
            None => false,
        }
    }

    // Whether nothing was taken or issued, and as many LSAs are listed as the database has below
    // `MAX_AGE`. No memory is allocated.
    fn is_still(&self, out: &Outputs, database: &Lsdb) -> bool
        requires { ListsBut out.now database.now self.now.listing }
        ensures routes { IsTrue result → AreRoutes self.now.router database.now self.now.table }
        ensures listing { IsTrue result → ListsAs database.now self.now.listing }
    {
        let Some(tree) = &self.tree else {
            return false;
        };
        brings_none(out) && lists_as_many(database, tree)
    }

    // Grows the stored tree, or makes the routes of what the database lists; returns whether
    // the table changed.
    fn go_on(&mut self, out: &Outputs, database: &Lsdb, alloc: Global) -> Result<bool, AllocError>
        requires { ListsBut out.now database.now self.old.listing }
        // The table is that of what the database lists, and the result says whether it changed.
        ensures table { OnOk result (AreRoutes self.old.router database.now self.new.table) }
        ensures listing { OnOk result (ListsAs database.now self.new.listing) }
        ensures changed { IfOk result (λ b. IsTrue b ↔ (self.new.table ≢ self.old.table)) }
        // The router is unchanged.
        ensures router { self.new.router ≡ self.old.router }
    {
        match self.grow(out, database, alloc)? {
            Some(changed) => Ok(changed),
            None => self.refresh(database, alloc),
        }
    }

    // Grows the stored tree by the LSAs that came: whether the table changed, or
    // nothing if that does not lead to what the database lists.
    fn grow(
        &mut self,
        out: &Outputs,
        database: &Lsdb,
        alloc: Global,
    ) -> Result<Option<bool>, AllocError>
        requires { ListsBut out.now database.now self.old.listing }
        // If the tree grows, the table is that of what the database lists, and a change is
        // reported.
        ensures table { IfOk result (λ o. IfSome o
            (λ _. AreRoutes self.old.router database.now self.new.table)) }
        ensures listing { IfOk result (λ o. IfSome o (λ _. ListsAs database.now self.new.listing)) }
        ensures changed { IfOk result (λ o. IfSome o
            (λ b. IsTrue b ↔ (self.new.table ≢ self.old.table))) }
        // The router is unchanged, and if the tree does not grow the table too.
        ensures router { self.new.router ≡ self.old.router }
        ensures kept { IfOk result (λ o. IfNone o (self.new.table ≡ self.old.table)) }
    {
        let Some(tree) = self.tree.take() else {
            return Ok(None);
        };
        let Some(grown) = followed(tree, out, database, alloc)? else {
            return Ok(None);
        };
        let changed = self.turn(grown, alloc)?;
        Ok(Some(changed))
    }

    // Stores a tree that has grown, and makes the table that of
    // it; returns whether the table changed.
    fn turn(&mut self, grown: Grown, alloc: Global) -> Result<bool, AllocError>
        requires root { grown.tree.root ≡ self.old.router }
        requires turned { (A : List Advertisement) × IsTable A self.old.router self.old.table
            × SparesBut grown.touched.items A (advertisements_of grown.tree.listing)
            self.old.router }
        // The table is that of the tree's listing, which is stored, and a change of it is reported.
        ensures table { OnOk result (IsTable (advertisements_of grown.tree.listing) self.old.router
            self.new.table) }
        ensures listing { OnOk result (self.new.listing ≡ grown.tree.listing) }
        ensures changed { IfOk result (λ b. IsTrue b ↔ (self.new.table ≢ self.old.table)) }
        ensures router { self.new.router ≡ self.old.router }
    {
        self.tree = None;
        let Grown { tree, touched } = grown;
        // Where more prefixes are touched than there are LSAs, all routes are made at once.
        let all = tree.listing().lsas().len();
        if touched.len() > all {
            return self.put(tree, alloc);
        }
        let changed = turn_table(&mut self.table, &tree, &touched, alloc)?;
        self.tree = Some(tree);
        Ok(changed)
    }

    // Stores a tree and its routes; returns whether the routes changed.
    fn put(&mut self, tree: GrowingTree, alloc: Global) -> Result<bool, AllocError>
        requires { tree.root ≡ self.old.router }
        // The table is that of the tree's listing, which is stored, and a change of it is reported.
        ensures table { OnOk result (IsTable (advertisements_of tree.listing) self.old.router
            self.new.table) }
        ensures listing { OnOk result (self.new.listing ≡ tree.listing) }
        ensures changed { IfOk result (λ b. IsTrue b ↔ (self.new.table ≢ self.old.table)) }
        // The router is unchanged, and if memory runs out all else too.
        ensures router { self.new.router ≡ self.old.router }
        ensures kept { OnErr result (self.new ≡ self.old) }
    {
        let table = tree.routes(alloc)?;
        let same = is_same(&self.table, &table, alloc)?;
        self.table = table;
        self.tree = Some(tree);
        Ok(!same)
    }

    // Makes the routes of what the database lists; returns whether they changed.
    fn renew(&mut self, database: &Lsdb, alloc: Global) -> Result<bool, AllocError>
        // The table is that of what the database lists, and the result says whether it changed.
        ensures table { OnOk result (AreRoutes self.old.router database.now self.new.table) }
        ensures listing { OnOk result (self.new.listing ≡ listed database.now) }
        ensures changed { IfOk result (λ b. IsTrue b ↔ (self.new.table ≢ self.old.table)) }
        // The router is unchanged, and if memory runs out all else too.
        ensures router { self.new.router ≡ self.old.router }
        ensures kept { OnErr result (self.new ≡ self.old) }
    {
        let listing = database.listing(alloc)?;
        database_is_one(database);
        listing_is_one(&listing);
        let tree = GrowingTree::of(alloc, listing, self.router)?;
        self.put(tree, alloc)
    }
}

// Whether nothing was installed from an Update or issued.
fn brings_none(out: &Outputs) -> bool
    ensures { IsTrue result → (out.now.taken ≡ []) × (out.now.issued ≡ []) }
{
    out.taken.is_empty() && out.issued.is_empty()
}

// Whether two tables are the same.
fn is_same(old: &RouteTable, new: &RouteTable, alloc: Global) -> Result<bool, AllocError>
    ensures { IfOk result (λ b. IsTrue b ↔ (new.now ≡ old.now)) }
{
    let changes = old.changes(alloc, new)?;
    Ok(changes.as_slice().is_empty())
}

// The database is one.
fn database_is_one(database: &Lsdb)
    ensures { IsDatabase database.now }
{
    // For the proof.
    let _entries = database.entries();
}

// A listing is one.
fn listing_is_one(listing: &Listing)
    ensures { IsListing listing.now }
{
    // For the proof.
    let _lsas = listing.lsas();
}
