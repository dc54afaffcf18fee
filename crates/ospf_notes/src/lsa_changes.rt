//! What changes of the LSAs that a router lists.

ghost use Rattle.std.specs.Prelude.{◌≡◌, ◌++◌, [], IfOk, IsTrue, OnOk, bytes_eq, drop, filter, flat_map, length};
ghost use Rattle.std.specs.Option.{option_copied};
ghost use Rattle.ospf_base.specs.Constants.{max_age};
ghost use Rattle.ospf_lsa.specs.Listing.{IsListing};
ghost use Rattle.ospf_lsa.specs.Lsa.{key_of, with_age};
ghost use Rattle.ospf_lsdb.specs.Database.{IsDatabase, is_fresh};
ghost use Rattle.ospf_notes.specs.LsaChanges.{is_same_but_age, is_taken, left_change, left_event, lsa_at, put_change, put_event, put_from, says_the_same, was_listed};

use ospf_area::Outputs;
use ospf_base::{Age, Instance, LsaKey, MAX_AGE, RouterId};
use ospf_lsa::{LENGTH_AT, Listing, Lsa, LsaView, OPTIONS_AT};
use ospf_lsdb::Lsdb;
use std::alloc::{AllocError, Global};
use std::marker::Model;

// Where the bytes begin that stand behind the age (RFC 2328, appendix A.4.1).
const BEHIND_AGE: usize = 2;

/// What becomes of an LSA.
#[derive(Clone, Copy, Debug, PartialEq, Eq)]
pub enum LsaEvent {
    /// It is new, or says something else than the instance before (RFC 2328, section 13.2).
    Installed,
    /// It is a newer instance that says the same (section 12.4).
    Refreshed,
    /// Its age came to `MAX_AGE`, as no newer instance came (section 14).
    AgedOut,
    /// Its router flushed it (section 14.1).
    Flushed,
}

/// What became of an LSA. One that was aged out or flushed is at `MAX_AGE`.
#[derive(Drop)]
pub struct LsaChange {
    pub event: LsaEvent,
    pub lsa: Lsa,
}

/// The LSAs that a router listed when its changes were asked for the last time.
#[derive(Drop)]
pub struct KnownLsas {
    listing: Listing,
}

impl Model for KnownLsas {
    ghost use Rattle.std.specs.Prelude.{ℕ, List};

    ghost Value = { List (List ℕ) };

    ghost view = { λ k. k.listing };
}

impl KnownLsas {
    ghost use Rattle.std.specs.Prelude.{◌≡◌, [], IfOk, IsTrue, OnErr, OnOk};
    ghost use Rattle.ospf_base.specs.declared.ids.RouterId.{RouterId};
    ghost use Rattle.ospf_lsdb.specs.Database.{listed};
    ghost use Rattle.ospf_notes.specs.LsaChanges.{lsa_changes};
    ghost use Rattle.ospf_router.specs.Listings.{ListsBut};

    /// None yet.
    pub fn none(alloc: Global) -> KnownLsas
        ensures { result ≡ [] }
    {
        KnownLsas {
            listing: Listing::new(alloc),
        }
    }

    /// Whether a step of a router, which has these outputs, changed nothing, as far as can be known
    /// without a look at its LSAs: it took and issued none, and as many are listed as before. What
    /// a router lists after a step it listed before, but for what the step took or issued
    /// (`ListsBut`), so in that case nothing changed. No memory is allocated.
    pub fn is_still(&self, out: &Outputs, database: &Lsdb) -> bool
        ensures { IsTrue result → ListsBut out.now database.now self.now → (own : RouterId) →
            lsa_changes own out.now.taken self.now (listed database.now) ≡ [] }
    {
        brings_none(out) && lists_as_many(database, &self.listing)
    }

    /// What changed since, by a step of the router that took these instances from its neighbors:
    /// exactly the difference between the two listings, with each LSA as it is listed now, and
    /// those that are no more at `MAX_AGE`. From now on, this listing is known.
    ///
    /// `AllocError` if memory runs out; then those are known that were before.
    pub fn follow(
        &mut self,
        own: RouterId,
        taken: &[Instance],
        now: Listing,
        alloc: Global,
    ) -> Result<Vec<LsaChange>, AllocError>
        ensures changes { IfOk result (λ changes. changes.items
            ≡ lsa_changes own taken.now self.old now) }
        ensures known { OnOk result (self.new ≡ now) }
        ensures err { OnErr result (self.new ≡ self.old) }
    {
        let mut changes = Vec::new(alloc);
        push_put(&mut changes, &self.listing, now.lsas(), alloc)?;
        push_left(&mut changes, own, taken, &now, self.listing.lsas(), alloc)?;
        self.listing = now;
        Ok(changes)
    }
}

// Whether nothing was installed from an Update or issued.
fn brings_none(out: &Outputs) -> bool
    ensures { IsTrue result → (out.now.taken ≡ []) × (out.now.issued ≡ []) }
{
    out.taken.is_empty() && out.issued.is_empty()
}

// Whether as many LSAs are listed as the database has below `MAX_AGE`.
fn lists_as_many(database: &Lsdb, listing: &Listing) -> bool
    ensures many { IsTrue result → length (filter (λ h. is_fresh h.entry) database.now)
        ≡ length listing.now }
    ensures database { IsDatabase database.now }
    ensures listing { IsListing listing.now }
{
    // Its contract says that it is a database.
    let _entries = database.entries();
    listing.lsas().len() == database.fresh()
}

// Adds what becomes of the LSAs that are listed now.
fn push_put(
    changes: &mut Vec<LsaChange>,
    before: &Listing,
    now: &[Lsa],
    alloc: Global,
) -> Result<(), AllocError>
    ensures { OnOk result (changes.new.items ≡ changes.old.items
        ++ flat_map (put_change before.now) now.now) }
{
    for lsa in now {
        push_one_put(changes, before, lsa, alloc)?;
    }
    Ok(())
}

// Adds what becomes of an LSA that is listed now.
fn push_one_put(
    changes: &mut Vec<LsaChange>,
    before: &Listing,
    lsa: &Lsa,
    alloc: Global,
) -> Result<(), AllocError>
    ensures { OnOk result (changes.new.items ≡ changes.old.items ++ put_change before.now lsa.now) }
{
    let old = lsa_at(before, &lsa.view().key());
    push_from(changes, old, lsa, alloc)
}

// Adds what becomes of an LSA that is listed, where this was listed of its key before.
fn push_from(
    changes: &mut Vec<LsaChange>,
    before: Option<&Lsa>,
    lsa: &Lsa,
    alloc: Global,
) -> Result<(), AllocError>
    ensures { OnOk result (changes.new.items ≡ changes.old.items
        ++ put_from (option_copied before.entry) lsa.now) }
{
    if was_listed(before, lsa) {
        return Ok(());
    }
    let event = put_event(before, lsa);
    let lsa = copy_of(lsa, alloc)?;
    changes.push(LsaChange { event, lsa })?;
    Ok(())
}

// Whether the LSA was listed before, at whatever age.
fn was_listed(before: Option<&Lsa>, lsa: &Lsa) -> bool
    ensures { result ≡ was_listed (option_copied before.entry) lsa.now }
{
    match before {
        Some(old) => is_same_but_age(&old.view(), &lsa.view()),
        None => false,
    }
}

// Whether an LSA refreshes the one that was listed of its key before, or is installed.
fn put_event(before: Option<&Lsa>, lsa: &Lsa) -> LsaEvent
    ensures { result ≡ put_event (option_copied before.entry) lsa.now }
{
    match before {
        Some(old) if says_the_same(&old.view(), &lsa.view()) => LsaEvent::Refreshed,
        _ => LsaEvent::Installed,
    }
}

// Whether two LSAs have the same bytes but for the age.
fn is_same_but_age(a: &LsaView, b: &LsaView) -> bool
    ensures { result ≡ is_same_but_age a.now b.now }
{
    a.as_bytes()[BEHIND_AGE..] == b.as_bytes()[BEHIND_AGE..]
}

// Whether two LSAs say the same.
fn says_the_same(a: &LsaView, b: &LsaView) -> bool
    ensures { result ≡ says_the_same a.now b.now }
{
    a.as_bytes()[OPTIONS_AT] == b.as_bytes()[OPTIONS_AT] && has_same_rest(a, b)
}

// Whether the length and all behind the headers of two LSAs are the same.
fn has_same_rest(a: &LsaView, b: &LsaView) -> bool
    ensures { result ≡ bytes_eq (drop 18 a.now) (drop 18 b.now) }
{
    a.as_bytes()[LENGTH_AT..] == b.as_bytes()[LENGTH_AT..]
}

// Adds what becomes of LSAs that were listed, by a step of this router that took these instances.
fn push_left(
    changes: &mut Vec<LsaChange>,
    own: RouterId,
    taken: &[Instance],
    now: &Listing,
    before: &[Lsa],
    alloc: Global,
) -> Result<(), AllocError>
    ensures { OnOk result (changes.new.items ≡ changes.old.items
        ++ flat_map (left_change own taken.now now.now) before.now) }
{
    for lsa in before {
        push_one_left(changes, own, taken, now, lsa, alloc)?;
    }
    Ok(())
}

// Adds what becomes of an LSA that was listed.
fn push_one_left(
    changes: &mut Vec<LsaChange>,
    own: RouterId,
    taken: &[Instance],
    now: &Listing,
    lsa: &Lsa,
    alloc: Global,
) -> Result<(), AllocError>
    ensures { OnOk result (changes.new.items ≡ changes.old.items
        ++ left_change own taken.now now.now lsa.now) }
{
    let key = lsa.view().key();
    if lsa_at(now, &key).is_some() {
        return Ok(());
    }
    let event = left_event(own, taken, &key);
    let lsa = expired_copy(lsa, alloc)?;
    changes.push(LsaChange { event, lsa })?;
    Ok(())
}

// Whether an LSA that left was flushed or aged out.
fn left_event(own: RouterId, taken: &[Instance], key: &LsaKey) -> LsaEvent
    ensures { result ≡ left_event own taken.now key.now }
{
    if key.router.0 == own.0 || is_taken(taken, key) {
        LsaEvent::Flushed
    } else {
        LsaEvent::AgedOut
    }
}

// Whether one of these instances is of the key.
fn is_taken(taken: &[Instance], key: &LsaKey) -> bool
    ensures { result ≡ is_taken taken.now key.now }
{
    taken.iter().any(|i| i.key.is_same(key))
}

// The LSA of a key, if it is listed.
fn lsa_at<'a>(listing: &'a Listing, key: &LsaKey) -> Option<&'a Lsa>
    ensures { option_copied result ≡ lsa_at listing.now key.now }
{
    listing.get(key)
}

// An LSA in memory of its own.
fn copy_of(lsa: &Lsa, alloc: Global) -> Result<Lsa, AllocError>
    ensures { IfOk result (λ copy. copy ≡ lsa.now) }
{
    match Lsa::copy(alloc, &lsa.view()) {
        Ok(copy) => Ok(copy),
        Err(_) => Err(AllocError),
    }
}

// The same at `MAX_AGE`.
fn expired_copy(lsa: &Lsa, alloc: Global) -> Result<Lsa, AllocError>
    ensures { IfOk result (λ copy. copy ≡ with_age max_age lsa.now) }
{
    let mut copy = copy_of(lsa, alloc)?;
    copy.set_age(Age::new(MAX_AGE));
    Ok(copy)
}
