//! The neighbours of an interface.

ghost use Rattle.std.specs.Prelude.{◌≡◌, ◌↔◌, [], OnOk, OnErr, Err, IfNone, length, map};
ghost use Rattle.std.specs.Option.{option_copied};
ghost use Rattle.ospf_neighbour.specs.Lists.{key_unlisted};
ghost use Rattle.ospf_neighbour.specs.Neighbours.{AreNeighbours, HasNeighbour, IsAdded, AreNeighboursRising, at_address, max_neighbours, neighbour_of, neighbour_place, place_for, some_lists, some_loading, without_router};
ghost use Rattle.ospf_neighbour.specs.declared.neighbours.NeighbourFault.TheVariants as fault;

use crate::neighbour::Neighbour;
use ospf_base::{Addr, LsaKey, RouterId};
use std::alloc::Global;
use std::fmt::{self, Display, Formatter, Write};
use std::marker::Model;
use thiserror::Error;

/// The most neighbours that an interface has.
pub const MAX_NEIGHBOURS: usize = 255;

/// Why a neighbour was not added.
#[derive(Clone, Copy, Debug, PartialEq, Eq, Error)]
pub enum NeighbourFault {
    /// The interface has `MAX_NEIGHBOURS`.
    Full,
    /// Memory ran out.
    Memory,
}

impl NeighbourFault {
    ghost use Rattle.std.specs.Prelude.{◌≡◌};
    ghost use Rattle.ospf_neighbour.specs.Text.{neighbour_fault_text};

    /// The fault's number and name, as it is printed.
    pub fn text(self) -> &'static str
        ensures { result.now ≡ neighbour_fault_text self }
    {
        match self {
            NeighbourFault::Full => "N1 Full",
            NeighbourFault::Memory => "N2 Memory",
        }
    }
}

/// The number and the name, as `N1 Full`.
impl Display for NeighbourFault {
    ghost use Rattle.std.specs.Prelude.{Some};
    ghost use Rattle.ospf_neighbour.specs.Text.{neighbour_fault_text};

    ghost output = { λ fault. Some (neighbour_fault_text fault) };

    fn fmt<W: Write>(&self, f: &mut Formatter<W>) -> fmt::Result {
        f.write_str(self.text())
    }
}

/// The neighbours of an interface, at most `MAX_NEIGHBOURS`, in rising Router ID.
#[derive(Drop)]
pub struct Neighbours {
    /// All of them, to be changed in place: a function that leaves them out of rising Router ID,
    /// or more than `MAX_NEIGHBOURS`, is not proved.
    pub all: Vec<Neighbour>,
}

impl Model for Neighbours {
    ghost use Rattle.std.specs.Prelude.{List};
    ghost use Rattle.ospf_neighbour.specs.Neighbour.{NeighbourValue};
    ghost use Rattle.ospf_neighbour.specs.Neighbours.{AreNeighbours};

    ghost Value = { List NeighbourValue };

    ghost view = { λ n. n.all.items };

    ghost invariant = { λ n. AreNeighbours n.all.items };
}

impl Neighbours {
    /// No neighbours.
    pub fn new(alloc: Global) -> Neighbours
        ensures { result ≡ [] }
    {
        Neighbours {
            all: Vec::new(alloc),
        }
    }

    /// All of them.
    pub fn all(&self) -> &[Neighbour]
        ensures all { result.now ≡ self.now }
        ensures neighbours { AreNeighbours self.now }
    {
        &self.all
    }

    /// The place of the neighbour of a Router ID among `all`.
    pub fn position(&self, router: RouterId) -> Option<usize>
        ensures { result ≡ neighbour_place self.now router }
    {
        let at = place_for(&self.all, router);
        if at < self.all.len() && self.all[at].router().0 == router.0 {
            Some(at)
        } else {
            None
        }
    }

    /// The first neighbour, by Router ID, of an address.
    pub fn at_address(&self, address: Addr) -> Option<&Neighbour>
        ensures { option_copied result ≡ at_address self.now address }
    {
        self.all.iter().find(|n| n.address().0 == address.0)
    }

    /// Whether some neighbour is in Exchange or Loading.
    pub fn is_loading(&self) -> bool
        ensures { result ≡ some_loading self.now }
    {
        self.all.iter().any(|n| n.state().is_loading())
    }

    /// Whether some instance of a key is on some neighbour's retransmission list.
    pub fn is_key_listed(&self, key: &LsaKey) -> bool
        ensures { result ≡ some_lists key.now self.now }
    {
        self.all.iter().any(|n| n.is_key_listed(key))
    }

    /// Removes all instances of a key from the retransmission lists of all neighbours (RFC 2328,
    /// section 13, step 5). No memory is taken.
    pub fn unlist_key(&mut self, key: &LsaKey)
        ensures { self.new ≡ map (key_unlisted key.now) self.old }
    {
        unlist_key_of(key, &mut self.all);
    }

    /// Removes the neighbour with a Router ID, if there is one. No memory is taken.
    pub fn remove(&mut self, router: RouterId)
        ensures { self.new ≡ without_router router self.old }
    {
        if let Some(at) = self.position(router) {
            self.all.remove(at);
        }
    }

    /// Removes all of them. No memory is taken.
    pub fn clear(&mut self)
        ensures { self.new ≡ [] }
    {
        self.all.clear();
    }

    /// The neighbour of a Router ID.
    #[tactic(auto, using(crate::proofs::NeighbourLemmas::none_there, crate::proofs::NeighbourLemmas::one_there))]
    pub fn get(&self, router: RouterId) -> Option<&Neighbour>
        ensures found { option_copied result ≡ neighbour_of self.now router }
        ensures none { IfNone result (HasNeighbour self.now router → ⊥) }
    {
        let at = self.position(router)?;
        Some(&self.all[at])
    }

    /// Inserts a neighbour where its Router ID, which none of them has, belongs.
    ///
    /// `Full` where there are `MAX_NEIGHBOURS`, else `Memory` where memory runs out. The
    /// neighbours are as they were after each.
    pub fn add(&mut self, neighbour: Neighbour) -> Result<(), NeighbourFault>
        requires { HasNeighbour self.old neighbour.router → ⊥ }
        ensures ok { OnOk result (IsAdded neighbour self.old self.new) }
        ensures err { OnErr result (self.new ≡ self.old) }
        ensures full { (result ≡ Err fault.Full) ↔ (length self.old ≡ max_neighbours) }
    {
        if self.all.len() >= MAX_NEIGHBOURS {
            return Err(NeighbourFault::Full);
        }
        let at = place_for(&self.all, neighbour.router());
        if self.all.insert(at, neighbour).is_err() {
            return Err(NeighbourFault::Memory);
        }
        Ok(())
    }
}

/// Where a neighbour with a Router ID is, or is inserted, among neighbours in rising Router ID.
pub fn place_for(all: &[Neighbour], router: RouterId) -> usize
    requires { AreNeighboursRising all.now }
    ensures { result ≡ place_for all.now router.0 }
{
    all.partition_point(|n| n.router().0 < router.0)
}

// Removes all instances of a key from the retransmission lists of these neighbours.
fn unlist_key_of(key: &LsaKey, all: &mut [Neighbour])
    ensures { all.new ≡ map (key_unlisted key.now) all.old }
{
    for neighbour in all.iter_mut() {
        neighbour.unlist_key(key);
    }
}
