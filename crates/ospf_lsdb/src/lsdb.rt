//! The database, with the keys of its entries at `MAX_AGE`.

ghost use Rattle.std.specs.Prelude.{◌≡◌, ◌⊎◌, ◌<◌, [], filter, length, map, OnOk, OnErr, IfOk, option_map};
ghost use Rattle.ospf_base.specs.Constants.{max_age};
ghost use Rattle.ospf_lsdb.specs.Database.{Ages, Installs, IsDatabase, Puts, entry_from, entry_of, expired, held_of, is_expired, is_fresh, is_some_and, key_at, listed, ls_refresh_time, reached_at, removed};

use crate::dated::Dated;
use crate::entries::Entries;
use crate::entry::EntryView;
use crate::expired::ExpiredKeys;
use crate::moments::AgesReached;
use ospf_base::{LsaKey, MAX_AGE};
use ospf_lsa::{Listing, Lsa};
use std::alloc::{AllocError, Global};
use std::marker::Model;

/// The link state database (RFC 2328, sections 12.2 and 14).
///
/// A tick looks only at the entries that reach `MAX_AGE` in it: the ages of the others follow
/// from the moments at which they began.
#[derive(Drop)]
pub struct Lsdb {
    dated: Dated,
    // The keys of the entries at `MAX_AGE`, with room for those of all: a tick allocates no memory.
    expired: ExpiredKeys,
}

impl Model for Lsdb {
    ghost use Rattle.std.specs.Prelude.{List};
    ghost use Rattle.ospf_lsdb.specs.Database.{Held};
    ghost use Rattle.ospf_lsdb.specs.Expired.{IsIndex};

    ghost Value = { List Held };

    ghost view = { λ d. d.dated };

    ghost invariant = { λ d. IsIndex d.dated d.expired };
}

impl Lsdb {
    /// A database with no entry.
    pub fn new(alloc: Global) -> Lsdb
        ensures { result ≡ [] }
    {
        Lsdb {
            dated: Dated::new(alloc),
            expired: ExpiredKeys::new(alloc),
        }
    }

    /// The entry of a key, at its present age.
    pub fn get(&self, key: &LsaKey) -> Option<EntryView<'_>>
        ensures entry { result ≡ entry_of self.now key.now }
        ensures database { IsDatabase self.now }
    {
        self.dated.get(key)
    }

    /// The entries in the order of their keys, each at its present age.
    pub fn entries(&self) -> Entries<'_>
        ensures entries { result ≡ map (λ h. h.entry) self.now }
        ensures database { IsDatabase self.now }
    {
        self.dated.entries()
    }

    /// How many entries are below `MAX_AGE`. It is known without a look at them.
    pub fn fresh(&self) -> usize
        ensures { result ≡ length (filter (λ h. is_fresh h.entry) self.now) }
    {
        self.dated.len() - self.expired.len()
    }

    /// How many entries are at `MAX_AGE`. It is known without a look at them.
    pub fn expired(&self) -> usize
        ensures { result ≡ length (filter is_expired self.now) }
    {
        self.expired.len()
    }

    /// The keys of the entries at `MAX_AGE`, in order. They are known
    /// without a look at the entries.
    pub fn expired_keys(&self) -> &[LsaKey]
        ensures keys { result.now ≡ map key_at (filter is_expired self.now) }
        ensures database { IsDatabase self.now }
    {
        is_database(&self.dated);
        self.expired.keys()
    }

    /// Installs an LSA in place of the one of its key (RFC 2328, section 13.2), with the number of
    /// the present tick, as the caller counts, and whether it came by flooding.
    ///
    /// `AllocError` where memory runs out; then the database is unchanged.
    pub fn install(&mut self, lsa: Lsa, tick: u64, by_flooding: bool) -> Result<(), AllocError>
        ensures ok { OnOk result (Installs (entry_from lsa tick by_flooding) self.old self.new) }
        ensures err { OnErr result (self.new ≡ self.old) }
    {
        let key = lsa.view().key();
        let is_expired = lsa.view().header().age.ticks() == MAX_AGE;
        // All growths come first.
        self.expired.make_room(self.dated.len() + 1)?;
        self.dated.install(lsa, tick, by_flooding)?;
        is_database(&self.dated);
        if is_expired {
            self.expired.put(key);
        } else {
            self.expired.remove(&key);
        }
        Ok(())
    }

    /// A tick passes: each age below `MAX_AGE` is one more (RFC 2328, section 14).
    ///
    /// Returns how many entries it looked at: those that reached `MAX_AGE`. It also
    /// drops the moments that the last tick reported, each once; that looks at no
    /// entry, and is not counted.
    pub fn tick(&mut self) -> u64
        ensures ages { Ages self.old self.new }
        ensures looks { result ≡ length (reached_at max_age self.new) }
    {
        is_database(&self.dated);
        let looks = self.dated.tick();
        is_database(&self.dated);
        // Mostly no entry reaches `MAX_AGE`: then this does not search the set of moments.
        if looks == 0 {
            return 0;
        }
        self.expired.put_all(self.dated.reached(MAX_AGE));
        looks
    }

    /// Brings the age of a key's entry to `MAX_AGE` and changes nothing else of it, so that it can
    /// be flushed (RFC 2328, section 14.1). Returns whether there was one below that age.
    pub fn expire(&mut self, key: &LsaKey) -> bool
        ensures entry { Puts key.now (option_map expired (held_of self.old key.now)) self.old
            self.new }
        ensures was_fresh { result ≡ is_some_and (λ h. is_fresh h.entry)
            (held_of self.old key.now) }
    {
        is_database(&self.dated);
        let was_fresh = self.dated.expire(key);
        is_database(&self.dated);
        if was_fresh {
            self.expired.put(*key);
        }
        was_fresh
    }

    /// Takes the entry of a key out if its age is `MAX_AGE`, and returns whether it did.
    pub fn remove_expired(&mut self, key: &LsaKey) -> bool
        ensures entry { Puts key.now (removed (held_of self.old key.now)) self.old self.new }
        ensures was_expired { result ≡ is_some_and is_expired (held_of self.old key.now) }
    {
        is_database(&self.dated);
        let was_expired = self.dated.remove_expired(key);
        is_database(&self.dated);
        self.expired.remove(key);
        was_expired
    }

    /// The keys whose age became this one, `LS_REFRESH_TIME` or `MAX_AGE`, at the last tick, in
    /// order. An entry that was installed since, or brought to `MAX_AGE`, is none of them.
    pub fn reached(&self, age: u16) -> AgesReached<'_>
        requires told { (age ≡ ls_refresh_time) ⊎ (age ≡ max_age) }
        ensures keys { result ≡ reached_at age self.now }
    {
        self.dated.reached(age)
    }

    /// The LSAs below `MAX_AGE`, at their present ages.
    ///
    /// `AllocError` where memory runs out.
    pub fn listing(&self, alloc: Global) -> Result<Listing, AllocError>
        ensures ok { IfOk result (λ l. l ≡ listed self.now) }
    {
        self.dated.listing(alloc)
    }
}

// What is dated is a database.
fn is_database(dated: &Dated)
    ensures { IsDatabase dated.now }
{
    // For the proof.
    let _all = dated.len();
}
