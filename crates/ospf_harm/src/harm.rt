//! How much a failure harms.

ghost use Rattle.std.specs.Prelude.{◌≡◌, ◌==◌, ◌&&◌, ◌-◌, IfOk, count_by, max, string_bytes};
ghost use Rattle.ospf_harm.specs.Harm.{harm_line, is_link_subnet, loses_other, loses_own, is_rerouted, rise_of, worst_rise};

use ospf_base::Prefix;
use ospf_graph::Route;
use ospf_whatif::{AreaFailure, Loss, RouteChange};
use std::alloc::{AllocError, Global};
use std::fmt::{self, Display, Formatter, Write};

/// How many routes a failure takes or changes, at a router or at all of them, and by how much a
/// cost rises at the most. A route that is lost with what fails counts apart from all others that
/// are lost.
#[derive(Clone, Copy, Debug, PartialEq, Eq)]
pub struct Harm {
    /// Routes that are lost, though their prefixes are still advertised. The subnet of a link that
    /// fails does not count.
    pub lost: u128,
    /// Routes at a higher cost, or by other hops at the same cost.
    pub rerouted: u128,
    /// The most by which the cost of a route rises.
    pub rise: u64,
    /// Routes that are lost with what fails: nothing advertises their prefixes any more, or the
    /// prefix is the subnet of the link that fails.
    pub own: u128,
}

impl Harm {
    ghost use Rattle.std.specs.Prelude.{◌≡◌};
    ghost use Rattle.ospf_harm.specs.Harm.{HasHarmRoom, harm_at, harm_plus, no_harm};

    /// None yet.
    pub fn none() -> Harm
        ensures { result ≡ no_harm }
    {
        Harm {
            lost: 0,
            rerouted: 0,
            rise: 0,
            own: 0,
        }
    }

    /// What these changes of a table are to a failure.
    pub fn of(failure: &AreaFailure, changes: &[RouteChange]) -> Harm
        ensures { result ≡ harm_at failure.now changes.now }
    {
        Harm {
            lost: count_lost(failure, changes) as u128,
            rerouted: count_rerouted(changes) as u128,
            rise: worst_rise(changes),
            own: count_own(failure, changes) as u128,
        }
    }

    /// With what changes at one router more.
    pub fn plus(self, failure: &AreaFailure, changes: &[RouteChange]) -> Harm
        requires { HasHarmRoom 1 self }
        ensures { result ≡ harm_plus self (harm_at failure.now changes.now) }
    {
        let lost = count_lost(failure, changes);
        let rerouted = count_rerouted(changes);
        let own = count_own(failure, changes);
        Harm {
            lost: self.lost + lost as u128,
            rerouted: self.rerouted + rerouted as u128,
            rise: worse(self.rise, worst_rise(changes)),
            own: self.own + own as u128,
        }
    }
}

/// As `lost 22 rerouted 4 rise 15 own 5`.
impl Display for Harm {
    ghost use Rattle.std.specs.Prelude.{Some};
    ghost use Rattle.ospf_harm.specs.Harm.{harm_text};

    ghost output = { λ harm. Some (harm_text harm) };

    fn fmt<W: Write>(&self, f: &mut Formatter<W>) -> fmt::Result {
        write!(f, "lost {} rerouted {} ", self.lost, self.rerouted)?;
        write!(f, "rise {} own {}", self.rise, self.own)
    }
}

/// The line of a failure with how much it harms, as `2.2.2.2 lost 0 rerouted 4 rise 15 own 1`.
///
/// `AllocError` where memory runs out.
pub fn harm_line(alloc: Global, failure: &AreaFailure, harm: Harm) -> Result<String, AllocError>
    ensures { IfOk result (λ line. string_bytes line ≡ harm_line failure.now harm) }
{
    let line = format!(in alloc; "{failure} {harm}\n")?;
    Ok(line)
}

// How many routes are lost to anything else than what fails.
fn count_lost(failure: &AreaFailure, changes: &[RouteChange]) -> usize
    ensures { result ≡ count_by (loses_other failure.now) changes.now }
{
    changes.iter().filter(|it| loses_other(failure, it)).count()
}

// How many routes are lost with what fails.
fn count_own(failure: &AreaFailure, changes: &[RouteChange]) -> usize
    ensures { result ≡ count_by (loses_own failure.now) changes.now }
{
    changes.iter().filter(|it| loses_own(failure, it)).count()
}

// How many routes others take the place of.
fn count_rerouted(changes: &[RouteChange]) -> usize
    ensures { result ≡ count_by is_rerouted changes.now }
{
    changes.iter().filter(|it| is_rerouted(it)).count()
}

fn loses_other(failure: &AreaFailure, change: &RouteChange) -> bool
    ensures { result ≡ loses_other failure.now change.now }
{
    match change.loss {
        Loss::Cut => !is_link_subnet(failure, change.before.prefix),
        Loss::Gone => false,
        Loss::Dearer(_) => false,
        Loss::Moved(_) => false,
    }
}

fn loses_own(failure: &AreaFailure, change: &RouteChange) -> bool
    ensures { result ≡ loses_own failure.now change.now }
{
    match change.loss {
        Loss::Cut => is_link_subnet(failure, change.before.prefix),
        Loss::Gone => true,
        Loss::Dearer(_) => false,
        Loss::Moved(_) => false,
    }
}

// Whether a prefix is the subnet of the link that fails, or of which an end fails.
fn is_link_subnet(failure: &AreaFailure, prefix: Prefix) -> bool
    ensures { result ≡ is_link_subnet failure.now prefix }
{
    match *failure {
        AreaFailure::Link { subnet, .. } => is_same(prefix, subnet),
        AreaFailure::End { subnet, .. } => is_same(prefix, subnet),
        AreaFailure::Links { .. } => false,
        AreaFailure::Attachment { .. } => false,
        AreaFailure::Network(_) => false,
        AreaFailure::Router(_) => false,
        AreaFailure::Stub { .. } => false,
    }
}

fn is_same(a: Prefix, b: Prefix) -> bool
    ensures { result ≡ ((a.address.0 == b.address.0) && (a.length == b.length)) }
{
    a.address.0 == b.address.0 && a.length == b.length
}

fn is_rerouted(change: &RouteChange) -> bool
    ensures { result ≡ is_rerouted change.now }
{
    match change.loss {
        Loss::Gone => false,
        Loss::Cut => false,
        Loss::Dearer(_) => true,
        Loss::Moved(_) => true,
    }
}

// The most by which the cost of a route rises.
fn worst_rise(changes: &[RouteChange]) -> u64
    ensures { result ≡ worst_rise changes.now }
{
    let mut worst = 0;
    for change in changes {
        worst = worse(worst, rise_of(change));
    }
    worst
}

// By how much the cost of a route rises.
fn rise_of(change: &RouteChange) -> u64
    ensures { result ≡ rise_of change.now }
{
    match &change.loss {
        Loss::Dearer(after) => rise_between(&change.before, after),
        Loss::Gone => 0,
        Loss::Cut => 0,
        Loss::Moved(_) => 0,
    }
}

fn rise_between(before: &Route, after: &Route) -> u64
    ensures { result ≡ after.now.cost - before.now.cost }
{
    after.cost.saturating_sub(before.cost)
}

fn worse(a: u64, b: u64) -> u64
    ensures { result ≡ max a b }
{
    if a < b { b } else { a }
}
