//! The changes that lead from one table to another.

ghost use Rattle.std.specs.Prelude.{◌≡◌, ◌≤◌, ◌+◌, ◌↔◌, All, AllPairs, Contains, IsTrue, IfOk, MatchOption, length};
ghost use Rattle.ospf_base.specs.declared.prefix.Prefix.{Prefix};
ghost use Rattle.ospf_base.specs.Prefixes.{IsPrefixBefore};
ghost use Rattle.ospf_graph.specs.declared.route.Route.{Route};
ghost use Rattle.ospf_graph.specs.Routes.{IsRouteBefore};
ghost use Rattle.ospf_spf.specs.Changes.{prefix_of, edited, IsChangeBefore, IsGone, IsNewRoute, IsMergeStep, StandsFirst, PutsHops};

use crate::table::RouteTable;
use ospf_base::Prefix;
use ospf_graph::Route;
use std::alloc::{AllocError, Global};

/// What differs at one prefix between two tables.
#[derive(Debug, Drop)]
pub enum Change {
    /// This is the route to its prefix from now on.
    Put(Route),
    /// There is no route to this prefix any more.
    Gone(Prefix),
}

impl Change {
    ghost use Rattle.std.specs.Prelude.{◌≡◌, IfOk};
    ghost use Rattle.ospf_spf.specs.Changes.{prefix_of};

    /// The prefix that it is about.
    pub fn prefix(&self) -> Prefix
        ensures { result ≡ prefix_of self.now }
    {
        match self {
            Change::Put(route) => route.prefix,
            Change::Gone(prefix) => *prefix,
        }
    }

    /// The same change, in memory of its own.
    ///
    /// `AllocError` where memory runs out.
    pub fn copy(&self, alloc: Global) -> Result<Change, AllocError>
        ensures { IfOk result (λ change. change ≡ self.now) }
    {
        match self {
            Change::Put(route) => Ok(Change::Put(route.copy(alloc)?)),
            Change::Gone(prefix) => Ok(Change::Gone(*prefix)),
        }
    }
}

/// Which of two tables comes next: the old one, the new one, or both with routes to the same
/// prefix.
#[derive(Clone, Copy, Debug, PartialEq, Eq)]
pub enum MergeStep {
    Old,
    Both,
    New,
}

impl RouteTable {
    ghost use Rattle.std.specs.Prelude.{◌≡◌, ◌↔◌, All, AllPairs, Contains, IfOk};
    ghost use Rattle.ospf_base.specs.declared.prefix.Prefix.{Prefix};
    ghost use Rattle.ospf_graph.specs.declared.route.Route.{Route};
    ghost use Rattle.ospf_spf.specs.Changes.{edited, IsChangeBefore, IsGone, IsNewRoute, PutsHops};

    /// The changes that lead to another table, in the order of tables: one for each
    /// prefix at which the two differ, in cost or in hops, and no other. It takes as
    /// many steps as both have routes.
    ///
    /// `AllocError` where memory runs out.
    pub fn changes(&self, alloc: Global, to: &RouteTable) -> Result<Vec<Change>, AllocError>
        // The changes, in the order of their prefixes, turn this table into the other one.
        ensures applied { IfOk result (λ changes. edited self.now changes.items ≡ to.now) }
        ensures in_order { IfOk result (λ changes. AllPairs IsChangeBefore changes.items) }
        // They put exactly the new routes, each with a hop, and take away what is gone and no more.
        ensures puts { IfOk result (λ changes. (route : Route) →
            Contains changes.items (Change.Put route) ↔ IsNewRoute self.now to.now route) }
        ensures gone { IfOk result (λ changes. (prefix : Prefix) →
            Contains changes.items (Change.Gone prefix) ↔ IsGone self.now to.now prefix) }
        ensures have_hops { IfOk result (λ changes. All PutsHops changes.items) }
    {
        let changes = changes_of(alloc, self.routes(), to.routes())?;
        Ok(changes)
    }
}

// Whether the first prefix is before the second.
pub(crate) fn is_before(a: Prefix, b: Prefix) -> bool
    ensures { IsTrue result ↔ IsPrefixBefore a b }
{
    a.address.0 < b.address.0 || (a.address.0 == b.address.0 && a.length < b.length)
}

// The changes that lead from one list of routes to the other.
fn changes_of(alloc: Global, old: &[Route], new: &[Route]) -> Result<Vec<Change>, AllocError>
    requires { AllPairs IsRouteBefore old.now × AllPairs IsRouteBefore new.now }
    // The changes, in the order of their prefixes, make the second list of the first.
    ensures applied { IfOk result (λ changes. edited old.now changes.items ≡ new.now) }
    ensures in_order { IfOk result (λ changes. AllPairs IsChangeBefore changes.items) }
    // They put exactly the routes that are new, and take exactly the prefixes that are gone.
    ensures puts { IfOk result (λ changes. (route : Route) →
        Contains changes.items (Change.Put route) ↔ IsNewRoute old.now new.now route) }
    ensures gone { IfOk result (λ changes. (prefix : Prefix) →
        Contains changes.items (Change.Gone prefix) ↔ IsGone old.now new.now prefix) }
{
    let mut changes = Vec::new(alloc);
    let (mut i, mut j) = (0, 0);
    while let Some(step) = next_step(old, i, new, j) {
        match step {
            MergeStep::Old => {
                changes.push(Change::Gone(old[i].prefix))?;
                i += 1;
            }
            MergeStep::New => {
                changes.push(Change::Put(new[j].copy(alloc)?))?;
                j += 1;
            }
            MergeStep::Both => {
                if !is_same_route(&old[i], &new[j]) {
                    changes.push(Change::Put(new[j].copy(alloc)?))?;
                }
                i += 1;
                j += 1;
            }
        }
    }
    Ok(changes)
}

// Which of two tables comes next, from these places on; `None` at the end of both.
fn next_step(old: &[Route], i: usize, new: &[Route], j: usize) -> Option<MergeStep>
    requires { (i ≤ length old.now) × (j ≤ length new.now) }
    ensures { MatchOption result ((i ≡ length old.now) × (j ≡ length new.now))
        (IsMergeStep old.now i new.now j) }
{
    match (old.get(i), new.get(j)) {
        (None, None) => None,
        (Some(_), None) => Some(MergeStep::Old),
        (None, Some(_)) => Some(MergeStep::New),
        (Some(a), Some(b)) => Some(step_at(a.prefix, b.prefix)),
    }
}

// Which of two prefixes is first.
fn step_at(old: Prefix, new: Prefix) -> MergeStep
    ensures { StandsFirst old new result }
{
    if is_before(old, new) {
        MergeStep::Old
    } else if is_before(new, old) {
        MergeStep::New
    } else {
        MergeStep::Both
    }
}

/// The same changes, in memory of their own.
///
/// `AllocError` where memory runs out.
pub fn copy_changes(alloc: Global, changes: &[Change]) -> Result<Vec<Change>, AllocError>
    ensures { IfOk result (λ copies. copies.items ≡ changes.now) }
{
    let mut copies = Vec::with_capacity(alloc, changes.len())?;
    for change in changes {
        copies.push(change.copy(alloc)?)?;
    }
    Ok(copies)
}

/// Whether two routes to one prefix are the same.
pub fn is_same_route(a: &Route, b: &Route) -> bool
    requires { a.now.prefix ≡ b.now.prefix }
    ensures { IsTrue result ↔ (a.now ≡ b.now) }
{
    a.cost == b.cost && a.hops.as_slice() == b.hops.as_slice()
}
