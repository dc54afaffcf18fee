//! The candidates of the search.

ghost use Rattle.std.specs.Prelude.{◌≡◌, ◌≤◌, ◌∷◌, [], All, IfSome, IfNone, OnErr, OnOk, IsPermutation};
ghost use Rattle.ospf_graph.specs.Search.{candidate_rank};
ghost use Rattle.ospf_graph.specs.Waiting.{one_more};

use crate::graph::Edge;
use std::alloc::{AllocError, Global};
use std::cmp::Reverse;
use std::collections::BinaryHeap;
use std::marker::Model;

/// An edge from a vertex that is reached, with the distance of its end along it.
///
/// Candidates are in the order in which they are taken: by distance, networks before routers.
#[derive(Clone, Copy, Debug, PartialEq, Eq, PartialOrd, Ord)]
pub struct SpfCandidate {
    pub distance: u64,
    pub edge: Edge,
}

/// The candidates that wait, and how often they were looked at.
#[derive(Drop)]
pub struct Candidates {
    heap: BinaryHeap<Reverse<SpfCandidate>>,
    looks: u64,
}

impl Model for Candidates {
    ghost use Rattle.std.specs.Prelude.{map};
    ghost use Rattle.std.specs.BinaryHeap.{IsHeap, heap_items};
    ghost use Rattle.ospf_graph.specs.Waiting.{Waiting};
    ghost use Rattle.ospf_graph.specs.contracts.candidates.SpfCandidateOrd.TheImpl.{ghosts};

    ghost Value = { Waiting };

    ghost view = { λ c. record { list = map (λ r. r.0) (heap_items c.heap); looks = c.looks } };

    ghost invariant = { λ c. IsHeap (λ x y. ghosts.cmp y.0 x.0) (heap_items c.heap) };
}

impl Candidates {
    /// No candidates, never looked at.
    pub fn new(alloc: Global) -> Candidates
        ensures { result ≡ record { list = []; looks = 0 } }
    {
        Candidates {
            heap: BinaryHeap::new(alloc),
            looks: 0,
        }
    }

    /// How often the candidates were looked at.
    pub(crate) fn looks(&self) -> u64
        ensures { result ≡ self.now.looks }
    {
        self.looks
    }

    /// Adds a candidate. `AllocError` where memory runs out: then those that wait are as before.
    pub fn push(&mut self, candidate: SpfCandidate) -> Result<(), AllocError>
        ensures added { OnOk result (IsPermutation (candidate ∷ self.old.list) self.new.list) }
        ensures refused { OnErr result (self.new.list ≡ self.old.list) }
        ensures looks { self.new.looks ≡ one_more self.old.looks }
    {
        self.look();
        self.heap.push(Reverse(candidate))?;
        Ok(())
    }

    /// Takes a candidate of least rank.
    pub fn take_least(&mut self) -> Option<SpfCandidate>
        ensures none { IfNone result ((self.old.list ≡ []) × (self.new.list ≡ [])) }
        ensures taken { IfSome result (λ c. IsPermutation self.old.list (c ∷ self.new.list)) }
        ensures least { IfSome result (λ c. All (λ d. candidate_rank c ≤ candidate_rank d)
            self.new.list) }
        ensures looks { self.new.looks ≡ one_more self.old.looks }
    {
        self.look();
        match self.heap.pop() {
            Some(least) => Some(least.0),
            None => None,
        }
    }

    // Counts a look at the candidates, as far as the number goes. Each push and each take is one.
    fn look(&mut self)
        ensures { self.new ≡ record { list = self.old.list; looks = one_more self.old.looks } }
    {
        self.looks = self.looks.saturating_add(1);
    }
}
