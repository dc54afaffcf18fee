//! The LSAs that a database lists.

ghost use Rattle.std.specs.Prelude.{◌≡◌, ◌<◌, ◌↔◌, ◌⊎◌, ◌∷◌, ◌++◌, ◌≤◌, ℕ, List, [], IsTrue, OnOk, OnErr, Err, IfOk, IfErr, IfSome, IfNone, Contains, length, slice_index_or};
ghost use Rattle.std.specs.List.{AllByRecursion, insert};
ghost use Rattle.ospf_base.specs.Rising.{IsRisingBy};
ghost use Rattle.ospf_base.specs.Constants.{max_age};
ghost use Rattle.ospf_base.specs.Keys.{Precedes};
ghost use Rattle.ospf_base.specs.declared.ids.Kind.TheVariants.{Router};
ghost use Rattle.ospf_lsa.specs.Header.{header_of};
ghost use Rattle.ospf_lsa.specs.Lsa.{key_of};
ghost use Rattle.ospf_lsa.specs.Listing.{AreKeysOf, IsKeyed, IsListing, IsListable, HasKey, IsPlace, IsInserted, IsPut, IsCount, IsNetworkOf, IsOfNetwork};
ghost use Rattle.ospf_lsa.specs.declared.listing.ListingFault.TheVariants as fault;

use crate::lsa::Lsa;
use ospf_base::{Kind, LsaKey, MAX_AGE, RouterId};
use std::alloc::{AllocError, Global};
use std::fmt::{self, Display, Formatter, Write};
use std::marker::Model;
use thiserror::Error;

/// Why an LSA was not added to a listing.
#[derive(Clone, Copy, Debug, PartialEq, Eq, Error)]
pub enum ListingFault {
    /// An LSA of this key is listed.
    Twice,
    /// The LSA has the age at which it leaves the routing domain.
    MaxAge,
    /// Memory ran out.
    Memory,
}

impl ListingFault {
    ghost use Rattle.std.specs.Prelude.{◌≡◌};
    ghost use Rattle.ospf_lsa.specs.Text.{listing_fault_text};

    /// The fault's number and name, as it is printed.
    pub fn text(self) -> &'static str
        ensures { result.now ≡ listing_fault_text self }
    {
        match self {
            ListingFault::Twice => "K1 Twice",
            ListingFault::MaxAge => "K2 MaxAge",
            ListingFault::Memory => "K3 Memory",
        }
    }
}

/// The number and the name, as `K1 Twice`.
impl Display for ListingFault {
    ghost use Rattle.std.specs.Prelude.{Some};
    ghost use Rattle.ospf_lsa.specs.Text.{listing_fault_text};

    ghost output = { λ fault. Some (listing_fault_text fault) };

    fn fmt<W: Write>(&self, f: &mut Formatter<W>) -> fmt::Result {
        f.write_str(self.text())
    }
}

/// LSAs below age `MAX_AGE`, at most one per key, in the order of their keys.
///
/// Their keys are stored next to them, so that a search reads no LSA.
#[derive(Drop)]
pub struct Listing {
    keys: Vec<LsaKey>,
    lsas: Vec<Lsa>,
}

impl Model for Listing {
    ghost use Rattle.std.specs.Prelude.{ℕ, List};

    ghost Value = { List (List ℕ) };

    ghost use Rattle.ospf_lsa.specs.Listing.{IsKeyed};

    ghost view = { λ l. l.lsas.items };

    ghost invariant = { λ l. IsKeyed l.keys.items l.lsas.items };
}

impl Listing {
    /// A listing of no LSA.
    pub fn new(alloc: Global) -> Listing
        ensures { result ≡ [] }
    {
        Listing {
            keys: Vec::new(alloc),
            lsas: Vec::new(alloc),
        }
    }

    /// The LSAs, in the order of their keys.
    pub fn lsas(&self) -> &[Lsa]
        ensures lsas { result.now ≡ self.now }
        ensures listing { IsListing self.now }
    {
        &self.lsas
    }

    /// The LSA of a key, if it is listed.
    pub fn get(&self, key: &LsaKey) -> Option<&Lsa>
        ensures found { IfSome result (λ lsa. Contains self.now lsa.now
            × (key_of lsa.now ≡ key.now)) }
        ensures none { IfNone result (HasKey self.now key.now → ⊥) }
        ensures listing { IsListing self.now }
    {
        match search(&self.keys, &self.lsas, key) {
            Ok(at) => Some(&self.lsas[at]),
            Err(_) => None,
        }
    }

    /// The router-LSA of a router, if it is listed.
    pub fn router(&self, router: RouterId) -> Option<&Lsa>
        ensures found { IfSome result (λ lsa. Contains self.now lsa.now
            × (key_of lsa.now ≡ record { kind = Router; id = router.0; router = router })) }
        ensures none { IfNone result
            (HasKey self.now (record { kind = Router; id = router.0; router = router }) → ⊥) }
        ensures listing { IsListing self.now }
    {
        self.get(&LsaKey::of_router(router))
    }

    /// The network-LSA of a Link State ID; of several the one of the largest Advertising Router.
    pub fn network(&self, id: u32) -> Option<&Lsa>
        ensures found { IfSome result (λ lsa. IsNetworkOf self.now id lsa.now) }
        ensures none { IfNone result ((lsa : List ℕ) → Contains self.now lsa → IsOfNetwork id lsa →
            ⊥) }
        ensures listing { IsListing self.now }
    {
        last_network(&self.keys, &self.lsas, id)
    }

    /// Puts an LSA in where its key belongs (RFC 2328, section 12.2).
    ///
    /// `Twice` where an LSA of its key is listed, else `MaxAge` where its age is `MAX_AGE`, else
    /// `Memory` where memory runs out. The listing is unchanged by each.
    pub fn add(&mut self, lsa: Lsa) -> Result<(), ListingFault>
        ensures ok { OnOk result (IsInserted lsa self.old self.new) }
        ensures err { OnErr result (self.new ≡ self.old) }
        ensures twice { (result ≡ Err fault.Twice) ↔ HasKey self.old (key_of lsa) }
        ensures max_age { (result ≡ Err fault.MaxAge)
            ↔ (((header_of lsa).age ≡ max_age) × (HasKey self.old (key_of lsa) → ⊥)) }
    {
        let key = lsa.view().key();
        let Some(at) = place_of(&self.keys, &self.lsas, &key) else {
            return Err(ListingFault::Twice);
        };
        if lsa.view().header().age.ticks() == MAX_AGE {
            return Err(ListingFault::MaxAge);
        }
        if insert_at(&mut self.keys, &mut self.lsas, at, lsa).is_err() {
            return Err(ListingFault::Memory);
        }
        Ok(())
    }

    /// Puts an LSA behind all others.
    ///
    /// `AllocError` where memory runs out: then the listing is unchanged.
    pub fn append(&mut self, lsa: Lsa) -> Result<(), AllocError>
        // Its key comes after the others, and its age is below `MAX_AGE`.
        requires last { AllByRecursion (λ other. Precedes (key_of other) (key_of lsa)) self.old }
        requires young { (header_of lsa).age < max_age }
        // It is added at the end; if it is refused, the listing is unchanged.
        ensures ok { OnOk result (self.new ≡ self.old ++ lsa ∷ []) }
        ensures err { OnErr result (self.new ≡ self.old) }
    {
        // For the proof: the bytes are an LSA, and the header fits.
        let view = lsa.view();
        let (_lsa, _fits) = (view.as_bytes(), view.header());
        let end = self.lsas.len();
        insert_at(&mut self.keys, &mut self.lsas, end, lsa)
    }

    /// Replaces the LSA of the same key, or inserts the LSA where its key belongs if none is
    /// listed (RFC 2328, section 12.2).
    ///
    /// `MaxAge` where its age is `MAX_AGE`, else `Memory` where none of its key is listed and
    /// memory runs out. The listing is unchanged by each.
    pub fn put(&mut self, lsa: Lsa) -> Result<(), ListingFault>
        // The LSA is in its place; if it is refused, the listing is unchanged.
        ensures ok { OnOk result (IsPut lsa self.old self.new) }
        ensures err { OnErr result (self.new ≡ self.old) }
        // `MaxAge` exactly if it is that old, and `Memory` only if its key was not listed.
        ensures faults { IfErr result (λ f. (f ≡ fault.MaxAge) ⊎ (f ≡ fault.Memory)) }
        ensures max_age { (result ≡ Err fault.MaxAge) ↔ ((header_of lsa).age ≡ max_age) }
        ensures memory { result ≡ Err fault.Memory → HasKey self.old (key_of lsa) → ⊥ }
    {
        let age = lsa.view().header().age;
        if age.ticks() == MAX_AGE {
            return Err(ListingFault::MaxAge);
        }
        if put_in(&mut self.keys, &mut self.lsas, lsa).is_err() {
            return Err(ListingFault::Memory);
        }
        Ok(())
    }
}

// The place of the LSA of a key, or else where one belongs.
fn search(keys: &[LsaKey], lsas: &[Lsa], key: &LsaKey) -> Result<usize, usize>
    requires rising { IsRisingBy (λ a b. Precedes (key_of a) (key_of b)) lsas.now }
    requires keys { AreKeysOf keys.now lsas.now }
    ensures found { IfOk result (λ at. (at < length lsas.now)
        × ((d : List ℕ) → key_of (slice_index_or lsas.now at d) ≡ key.now)) }
    ensures place { IfErr result (λ at. IsPlace lsas.now key.now at) }
{
    let at = count_through(keys, lsas, key);
    if at == 0 {
        return Err(0);
    }
    // A key that is neither after the key nor before it is the key.
    if keys[at - 1].precedes(key) {
        return Err(at);
    }
    Ok(at - 1)
}

// How many LSAs have keys that do not come after this one.
fn count_through(keys: &[LsaKey], lsas: &[Lsa], key: &LsaKey) -> usize
    requires rising { IsRisingBy (λ a b. Precedes (key_of a) (key_of b)) lsas.now }
    requires keys { AreKeysOf keys.now lsas.now }
    ensures { IsCount lsas.now key.now result }
{
    let mut low = 0;
    let mut high = lsas.len();
    while low < high {
        let middle = low + (high - low) / 2;
        if key.precedes(&keys[middle]) {
            high = middle;
        } else {
            low = middle + 1;
        }
    }
    low
}

// The last network-LSA of a Link State ID.
fn last_network<'a>(keys: &[LsaKey], lsas: &'a [Lsa], id: u32) -> Option<&'a Lsa>
    requires { IsKeyed keys.now lsas.now }
    ensures found { IfSome result (λ lsa. IsNetworkOf lsas.now id lsa.now) }
    ensures none { IfNone result ((lsa : List ℕ) → Contains lsas.now lsa → IsOfNetwork id lsa → ⊥) }
{
    let greatest = LsaKey {
        kind: Kind::Network,
        id,
        router: RouterId(u32::MAX),
    };
    let at = count_through(keys, lsas, &greatest);
    if at == 0 {
        return None;
    }
    let last = &lsas[at - 1];
    if is_of_network(last, id) {
        Some(last)
    } else {
        None
    }
}

// Whether this is a network-LSA of a Link State ID.
fn is_of_network(lsa: &Lsa, id: u32) -> bool
    ensures { IsTrue result ↔ IsOfNetwork id lsa.now }
{
    match lsa.view().kind() {
        Kind::Router => false,
        Kind::Network => lsa.view().key().id == id,
    }
}

// Where an LSA of this key belongs, unless one is there.
fn place_of(keys: &[LsaKey], lsas: &[Lsa], key: &LsaKey) -> Option<usize>
    requires rising { IsRisingBy (λ a b. Precedes (key_of a) (key_of b)) lsas.now }
    requires keys { AreKeysOf keys.now lsas.now }
    ensures place { IfSome result (λ at. IsPlace lsas.now key.now at) }
    ensures taken { IfNone result (HasKey lsas.now key.now) }
{
    match search(keys, lsas, key) {
        Ok(_) => None,
        Err(at) => Some(at),
    }
}

// Replaces the LSA of the same key, or inserts the LSA where its key belongs.
fn put_in(keys: &mut Vec<LsaKey>, lsas: &mut Vec<Lsa>, lsa: Lsa) -> Result<(), AllocError>
    requires listing { IsKeyed keys.old.items lsas.old.items }
    requires listed { IsListable lsa }
    // The LSA is in its place.
    ensures ok { OnOk result (IsPut lsa lsas.old.items lsas.new.items) }
    // It runs out of memory only where its key was not listed, and then changes nothing.
    ensures err { OnErr result (lsas.new.items ≡ lsas.old.items) }
    ensures none { OnErr result (HasKey lsas.old.items (key_of lsa) → ⊥) }
    // The listing remains a listing, with its keys.
    ensures listing { IsKeyed keys.new.items lsas.new.items }
{
    match search(keys, lsas, &lsa.view().key()) {
        Ok(at) => {
            lsas[at] = lsa;
            Ok(())
        }
        Err(at) => insert_at(keys, lsas, at, lsa),
    }
}

// Inserts an LSA at a place, and its key at the same place.
fn insert_at(
    keys: &mut Vec<LsaKey>,
    lsas: &mut Vec<Lsa>,
    at: usize,
    lsa: Lsa,
) -> Result<(), AllocError>
    requires within { at ≤ length lsas.old.items }
    requires keys { AreKeysOf keys.old.items lsas.old.items }
    // It is at that place; if there is no memory, nothing has changed.
    ensures ok { OnOk result (lsas.new.items ≡ insert lsas.old.items at lsa) }
    ensures err { OnErr result (lsas.new.items ≡ lsas.old.items) }
    ensures keys { AreKeysOf keys.new.items lsas.new.items }
{
    let key = lsa.view().key();
    keys.insert(at, key)?;
    if lsas.insert(at, lsa).is_err() {
        keys.remove(at);
        return Err(AllocError);
    }
    Ok(())
}
