//! Entries, as a database lends them.

ghost use Rattle.std.specs.Prelude.{◌≡◌, ◌≤◌, ◌++◌, ◌∷◌, IfOk, IfErr, OnOk};
ghost use Rattle.std.specs.List.{AllByRecursion};
ghost use Rattle.ospf_base.specs.Constants.{max_age};
ghost use Rattle.ospf_base.specs.Keys.{Precedes};
ghost use Rattle.ospf_base.specs.Sums.{contents};
ghost use Rattle.ospf_lsa.specs.Header.{header_of};
ghost use Rattle.ospf_lsa.specs.Lsa.{key_of};
ghost use Rattle.ospf_lsa.specs.declared.fault.LsaFault.TheVariants as fault;
ghost use Rattle.ospf_lsdb.specs.Database.{header_at, instance_at, lsa_of, key_in, listed_of};

use crate::ageless::Ageless;
use ospf_base::{Age, Instance, LsaKey, MAX_AGE};
use ospf_lsa::{Listing, Lsa, LsaFault, LsaHeader, LsaView};
use std::alloc::{AllocError, Global};
use std::marker::Model;

/// An entry of a database, with its LSA at the present age.
#[derive(Drop)]
pub struct EntryView<'a> {
    lsa: &'a Ageless,
    age: u16,
    tick: u64,
    by_flooding: bool,
}

impl<'a> Model for EntryView<'a> {
    ghost use Rattle.std.specs.Prelude.{◌≤◌};
    ghost use Rattle.ospf_base.specs.Constants.{max_age};
    ghost use Rattle.ospf_lsdb.specs.Database.{Entry};

    ghost Value = { Entry };

    ghost view = { λ e. record {
      age = e.age;
      contents = e.lsa.now;
      tick = e.tick;
      by_flooding = e.by_flooding;
    } };

    ghost invariant = { λ e. e.age ≤ max_age };
}

impl<'a> EntryView<'a> {
    /// The LSA as it was installed, with an age field of 0: `age` and `header` give the present
    /// age, and `copy` has it in its bytes.
    pub fn lsa(&self) -> LsaView<'a>
        ensures bytes { result ≡ 0 ∷ 0 ∷ self.now.contents }
        ensures contents { contents result ≡ self.now.contents }
        ensures key { key_of result ≡ key_in self.now.contents }
        ensures all_but_age { header_at self.now
            ≡ record (header_of result) { age = self.now.age } }
    {
        self.lsa.view()
    }

    /// The key.
    pub fn key(&self) -> LsaKey
        ensures { result ≡ key_in self.now.contents }
    {
        self.lsa().key()
    }

    /// The instance (RFC 2328, section 12.1).
    pub fn instance(&self) -> Instance
        ensures { result ≡ instance_at self.now }
    {
        let header = self.header();
        Instance {
            key: self.lsa().key(),
            number: header.number,
            sum: header.sum,
        }
    }

    /// The present age.
    pub fn age(&self) -> Age
        ensures { result ≡ self.now.age }
    {
        Age::new(self.age)
    }

    /// The tick in which the LSA was installed, as the installer counts.
    pub fn tick(&self) -> u64
        ensures { result ≡ self.now.tick }
    {
        self.tick
    }

    /// Whether the LSA came by flooding.
    pub fn by_flooding(&self) -> bool
        ensures { result ≡ self.now.by_flooding }
    {
        self.by_flooding
    }

    /// The header, with the present age.
    pub fn header(&self) -> LsaHeader
        ensures { result ≡ header_at self.now }
    {
        let mut header = self.lsa.view().header();
        header.age = self.age();
        header
    }

    /// The LSA with its present age, in memory of its own.
    ///
    /// `Memory` where memory runs out.
    pub fn copy(&self, alloc: Global) -> Result<Lsa, LsaFault>
        ensures ok { IfOk result (λ lsa. lsa ≡ lsa_of self.now) }
        ensures err { IfErr result (λ f. f ≡ fault.Memory) }
    {
        let mut lsa = Lsa::copy(alloc, &self.lsa.view())?;
        lsa.set_age(self.age());
        Ok(lsa)
    }

    // An entry whose LSA is stored without its age.
    pub(crate) fn new(lsa: &'a Ageless, age: u16, tick: u64, by_flooding: bool) -> EntryView<'a>
        requires { age ≤ max_age }
        ensures { result ≡ record {
          age = age;
          contents = lsa.now;
          tick = tick;
          by_flooding =
              by_flooding;
        } }
    {
        EntryView {
            lsa,
            age,
            tick,
            by_flooding,
        }
    }
}

// Adds the LSA of an entry below `MAX_AGE`, whose key comes after those of a listing.
pub(crate) fn add_fresh(
    listing: &mut Listing,
    entry: &EntryView,
    alloc: Global,
) -> Result<(), AllocError>
    requires last { AllByRecursion (λ lsa. Precedes (key_of lsa) (key_in entry.now.contents))
        listing.old }
    ensures ok { OnOk result (listing.new ≡ listing.old ++ listed_of entry.now) }
{
    let is_expired = entry.age().ticks() == MAX_AGE;
    if is_expired {
        return Ok(());
    }
    let Ok(lsa) = entry.copy(alloc) else {
        return Err(AllocError);
    };
    listing.append(lsa)?;
    Ok(())
}
