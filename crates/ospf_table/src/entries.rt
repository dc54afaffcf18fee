//! The LSAs of lines, of which a listing is made.

ghost use Rattle.std.specs.Prelude.{◌≡◌, ◌↔◌, List, ℕ, [], Err, IsTrue, IfOk, OnOk, OnErr};
ghost use Rattle.std.specs.BTreeMap.{IsOrdered, insert_entry};
ghost use Rattle.ospf_base.specs.Constants.{max_age};
ghost use Rattle.ospf_base.specs.Keys.{key_cmp};
ghost use Rattle.ospf_lsa.specs.Header.{header_of};
ghost use Rattle.ospf_lsa.specs.Lsa.{key_of};
ghost use Rattle.ospf_lsa.specs.Listing.{HasKey, IsInserted};
ghost use Rattle.ospf_lsa.specs.declared.listing.ListingFault.TheVariants as fault;

use ospf_base::{LsaKey, MAX_AGE};
use ospf_lsa::{Listing, ListingFault, Lsa};
use std::alloc::{AllocError, Global};
use std::collections::BTreeMap;
use std::marker::Model;

// LSAs below age `MAX_AGE` that came in any order, at most one a key. A listing moves all LSAs
// after one that is inserted; a map does not.
#[derive(Drop)]
pub(crate) struct LineEntries {
    lsas: BTreeMap<LsaKey, Lsa>,
}

impl Model for LineEntries {
    ghost use Rattle.std.specs.Prelude.{ℕ, List};
    ghost use Rattle.std.specs.BTreeMap.{values};
    ghost use Rattle.ospf_table.specs.Entries.{IsGathered};

    ghost Value = { List (List ℕ) };

    ghost view = { λ e. values e.lsas };

    ghost invariant = { λ e. IsGathered e.lsas };
}

impl LineEntries {
    pub(crate) fn new(alloc: Global) -> LineEntries
        ensures { result ≡ [] }
    {
        LineEntries {
            lsas: BTreeMap::new(alloc),
        }
    }

    // Puts an LSA in where its key belongs: `Twice` where there is one of its key, else `MaxAge` at
    // that age, else `Memory` where memory runs out.
    pub(crate) fn add(&mut self, lsa: Lsa) -> Result<(), ListingFault>
        ensures ok { OnOk result (IsInserted lsa self.old self.new) }
        ensures err { OnErr result (self.new ≡ self.old) }
        ensures twice { (result ≡ Err fault.Twice) ↔ HasKey self.old (key_of lsa) }
        ensures max_age { (result ≡ Err fault.MaxAge)
            ↔ (((header_of lsa).age ≡ max_age) × (HasKey self.old (key_of lsa) → ⊥)) }
    {
        let key = lsa.view().key();
        if self.has(&key) {
            return Err(ListingFault::Twice);
        }
        if lsa.view().header().age.ticks() == MAX_AGE {
            return Err(ListingFault::MaxAge);
        }
        let Ok(_put) = put(&mut self.lsas, key, lsa) else {
            return Err(ListingFault::Memory);
        };
        Ok(())
    }

    // The listing of the LSAs.
    pub(crate) fn listing(self, alloc: Global) -> Result<Listing, AllocError>
        ensures { IfOk result (λ listing. listing ≡ self) }
    {
        let mut listing = Listing::new(alloc);
        for lsa in self.lsas.into_values() {
            listing.append(lsa)?;
        }
        Ok(listing)
    }

    // Whether there is an LSA of a key.
    fn has(&self, key: &LsaKey) -> bool
        ensures { IsTrue result ↔ HasKey self.now key.now }
    {
        self.lsas.contains_key(key)
    }
}

// Puts an LSA in a map.
fn put(lsas: &mut BTreeMap<LsaKey, Lsa>, key: LsaKey, lsa: Lsa) -> Result<(), AllocError>
    ensures ok { OnOk result (lsas.new.entries ≡ insert_entry key_cmp lsas.old.entries key lsa) }
    ensures err { OnErr result (lsas.new.entries ≡ lsas.old.entries) }
    ensures ordered { IsOrdered key_cmp lsas.new }
{
    if lsas.insert(key, lsa).is_err() {
        return Err(AllocError);
    }
    Ok(())
}
