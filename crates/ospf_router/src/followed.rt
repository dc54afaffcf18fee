//! A tree that follows what a step of a router brings into its database.

ghost use Rattle.std.specs.Prelude.{◌≡◌, [], All, IfOk, IfSome, IsTrue, filter, length};
ghost use Rattle.ospf_lsa.specs.Listing.{IsListing, IsPut};
ghost use Rattle.ospf_lsa.specs.Lsa.{key_of};
ghost use Rattle.ospf_lsdb.specs.Database.{IsDatabase, is_fresh, lsa_of, listed};
ghost use Rattle.ospf_router.specs.Kept.{IsGrownFrom};
ghost use Rattle.ospf_router.specs.Listings.{AreListedAt, ListsAs, ListsBut, StayListed};

use crate::growing::GrowingTree;
use ospf_area::Outputs;
use ospf_base::{Instance, LsaKey, MAX_AGE, Prefix};
use ospf_lsa::{ListingFault, Lsa};
use ospf_lsdb::{EntryView, Lsdb};
use std::alloc::{AllocError, Global};

/// A tree that has grown, with the prefixes to which routes may have changed,
/// some perhaps more than once.
#[derive(Drop)]
pub(crate) struct Grown {
    pub(crate) tree: GrowingTree,
    pub(crate) touched: Vec<Prefix>,
}

/// The tree once each LSA that a step took or issued is listed as the database has it, if its
/// listing is then what the database lists; otherwise nothing.
pub(crate) fn followed(
    tree: GrowingTree,
    out: &Outputs,
    database: &Lsdb,
    alloc: Global,
) -> Result<Option<Grown>, AllocError>
    requires { ListsBut out.now database.now tree.listing }
    // A resulting tree grows from the given one.
    ensures grown { IfOk result (λ o. IfSome o (IsGrownFrom tree [])) }
    // The database then lists what that tree does, at whatever ages, and is in order.
    ensures lists { IfOk result (λ o. IfSome o (λ g. ListsAs database.now g.tree.listing)) }
    ensures database { IfOk result (λ o. IfSome o (λ _. IsDatabase database.now)) }
    ensures listing { IfOk result (λ o. IfSome o (λ _. IsListing (listed database.now))) }
{
    let grown = Grown {
        tree,
        touched: Vec::new(alloc),
    };
    let Some(taken) = with_taken(grown, &out.taken, database, alloc)? else {
        return Ok(None);
    };
    let Some(grown) = with_issued(taken, &out.issued, database, alloc)? else {
        return Ok(None);
    };
    if lists_as_many(database, &grown.tree) {
        Ok(Some(grown))
    } else {
        Ok(None)
    }
}

/// Whether as many LSAs are listed as the database has below `MAX_AGE`. No memory is allocated.
pub(crate) fn lists_as_many(database: &Lsdb, tree: &GrowingTree) -> bool
    ensures many { IsTrue result → length (filter (λ h. is_fresh h.entry) database.now)
        ≡ length tree.now.listing }
    ensures database { IsDatabase database.now }
    ensures listing { IsListing tree.now.listing }
{
    // Its contract says that it is a database.
    let _entries = database.entries();
    tree.listing().lsas().len() == database.fresh()
}

// The tree with the LSAs of some instances as the database has them.
fn with_taken(
    grown: Grown,
    taken: &[Instance],
    database: &Lsdb,
    alloc: Global,
) -> Result<Option<Grown>, AllocError>
    ensures grown { IfOk result (λ o. IfSome o (IsGrownFrom grown.tree grown.touched.items)) }
    ensures listed { IfOk result (λ o. IfSome o
        (λ g. All (λ i. AreListedAt database.now i.key g.tree.listing) taken.now)) }
    ensures stay { IfOk result (λ o. IfSome o
        (λ g. StayListed database.now grown.tree.listing g.tree.listing)) }
{
    let mut next = grown;
    for instance in taken {
        match with_key(next, &instance.key, database, alloc)? {
            Some(more) => next = more,
            None => return Ok(None),
        }
    }
    Ok(Some(next))
}

// The tree with LSAs as the database has those of their keys.
fn with_issued(
    grown: Grown,
    issued: &[Lsa],
    database: &Lsdb,
    alloc: Global,
) -> Result<Option<Grown>, AllocError>
    ensures grown { IfOk result (λ o. IfSome o (IsGrownFrom grown.tree grown.touched.items)) }
    ensures listed { IfOk result (λ o. IfSome o
        (λ g. All (λ lsa. AreListedAt database.now (key_of lsa) g.tree.listing) issued.now)) }
    ensures stay { IfOk result (λ o. IfSome o
        (λ g. StayListed database.now grown.tree.listing g.tree.listing)) }
{
    let mut next = grown;
    for lsa in issued {
        match with_key(next, &lsa.view().key(), database, alloc)? {
            Some(more) => next = more,
            None => return Ok(None),
        }
    }
    Ok(Some(next))
}

// The tree with the LSA of a key as the database has it below `MAX_AGE`, if it does.
fn with_key(
    grown: Grown,
    key: &LsaKey,
    database: &Lsdb,
    alloc: Global,
) -> Result<Option<Grown>, AllocError>
    ensures grown { IfOk result (λ o. IfSome o (IsGrownFrom grown.tree grown.touched.items)) }
    ensures listed { IfOk result (λ o. IfSome o
        (λ g. AreListedAt database.now key.now g.tree.listing)) }
    ensures stay { IfOk result (λ o. IfSome o
        (λ g. StayListed database.now grown.tree.listing g.tree.listing)) }
{
    let Some(entry) = database.get(key) else {
        return Ok(Some(grown));
    };
    if entry.age().ticks() == MAX_AGE {
        return Ok(Some(grown));
    }
    with_entry(grown, &entry, alloc)
}

// The tree with the LSA of an entry put, or nothing where that is at `MAX_AGE`.
fn with_entry(
    grown: Grown,
    entry: &EntryView<'_>,
    alloc: Global,
) -> Result<Option<Grown>, AllocError>
    ensures grown { IfOk result (λ o. IfSome o (IsGrownFrom grown.tree grown.touched.items)) }
    ensures put { IfOk result (λ o. IfSome o
        (λ g. IsPut (lsa_of entry.now) grown.tree.listing g.tree.listing)) }
{
    let Grown { tree, mut touched } = grown;
    let Ok(lsa) = entry.copy(alloc) else {
        return Err(AllocError);
    };
    match tree.grow(alloc, lsa, &mut touched) {
        Ok(tree) => Ok(Some(Grown { tree, touched })),
        Err(ListingFault::Memory) => Err(AllocError),
        Err(ListingFault::MaxAge | ListingFault::Twice) => Ok(None),
    }
}
