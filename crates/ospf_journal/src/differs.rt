//! What one listing has that another has not.

ghost use Rattle.std.specs.Prelude.{◌≡◌};
ghost use Rattle.ospf_journal.specs.Differences.{difference_between, first_extra, lists_instance};

use ospf_base::Instance;
use ospf_lsa::{Listing, Lsa};

/// How a router differs from another one.
#[derive(Clone, Copy, Debug, PartialEq, Eq)]
pub enum Difference {
    /// It does not run.
    Stopped,
    /// It does not list this LSA, which the other one lists.
    Lacks(Instance),
    /// It lists this LSA, which the other one does not list.
    Lists(Instance),
}

/// How a router that lists `theirs` differs from one that lists `mine`: the first LSA of mine, in
/// the order of keys, whose instance it does not list; else the first of theirs that is not among
/// mine; `None` if both list the same instances.
pub fn difference_between(mine: &Listing, theirs: &Listing) -> Option<Difference>
    ensures { result ≡ difference_between mine.now theirs.now }
{
    match (
        first_extra(mine.lsas(), theirs),
        first_extra(theirs.lsas(), mine),
    ) {
        (Some(missing), _) => Some(Difference::Lacks(missing)),
        (None, Some(more)) => Some(Difference::Lists(more)),
        (None, None) => None,
    }
}

// The first instance that one of these LSAs has, and none of the others.
fn first_extra(lsas: &[Lsa], others: &Listing) -> Option<Instance>
    ensures { result ≡ first_extra lsas.now others.now }
{
    let lsa = lsas
        .iter()
        .find(|lsa| !lists(others, &lsa.view().instance()))?;
    Some(lsa.view().instance())
}

// Whether an LSA of an instance is listed.
fn lists(lsas: &Listing, instance: &Instance) -> bool
    ensures { result ≡ lists_instance lsas.now instance.now }
{
    match lsas.get(&instance.key) {
        Some(lsa) => lsa.view().instance().is_same(instance),
        None => false,
    }
}
