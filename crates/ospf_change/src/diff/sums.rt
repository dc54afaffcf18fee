//! How many routes differ, and how.

ghost use Rattle.std.specs.Prelude.{◌≡◌};
ghost use Rattle.std.specs.Fmt.{WritesOnOk};
ghost use Rattle.ospf_change.specs.Diff.Sums.{count_of_kind, is_difference_of, reach_text, ways_text};

use crate::diff::difference::RouteDifference;
use std::fmt::{self, Display, Formatter, Write};

/// How many pairs of a router and a prefix differ, and how; and at how many routers.
#[derive(Clone, Copy, Debug, PartialEq, Eq)]
pub struct DifferenceSums {
    /// Reached no more.
    pub lost: u128,
    /// Not reached before.
    pub gained: u128,
    /// Reached at a higher cost.
    pub longer: u128,
    /// Reached at a lower cost.
    pub shorter: u128,
    /// Reached at the same cost over other hops.
    pub rerouted: u128,
    /// The routers in whose tables anything differs.
    pub routers: usize,
}

impl DifferenceSums {
    ghost use Rattle.std.specs.Prelude.{◌≡◌, []};
    ghost use Rattle.ospf_change.specs.Diff.Sums.{HasDifferenceRoom, difference_sums_of, difference_sums_plus};

    /// Nothing differs.
    pub fn none() -> DifferenceSums
        ensures { result ≡ difference_sums_of [] }
    {
        DifferenceSums {
            lost: 0,
            gained: 0,
            longer: 0,
            shorter: 0,
            rerouted: 0,
            routers: 0,
        }
    }

    /// With what differs at one router more.
    pub fn plus(self, found: &[RouteDifference]) -> DifferenceSums
        requires { HasDifferenceRoom 1 self }
        ensures { result ≡ difference_sums_plus self found.now }
    {
        let routers = if found.is_empty() { 0 } else { 1 };
        DifferenceSums {
            lost: self.lost + count_of_kind(DifferenceKind::Lost, found) as u128,
            gained: self.gained + count_of_kind(DifferenceKind::Gained, found) as u128,
            longer: self.longer + count_of_kind(DifferenceKind::Longer, found) as u128,
            shorter: self.shorter + count_of_kind(DifferenceKind::Shorter, found) as u128,
            rerouted: self.rerouted + count_of_kind(DifferenceKind::Rerouted, found) as u128,
            routers: self.routers + routers,
        }
    }
}

/// As `routes: 2 lost, 1 gained, 1 longer, 0 shorter, 3 rerouted, at 2 routers`.
impl Display for DifferenceSums {
    ghost use Rattle.std.specs.Prelude.{Some};
    ghost use Rattle.ospf_change.specs.Diff.Sums.{difference_sums_text};

    ghost output = { λ sums. Some (difference_sums_text sums) };

    fn fmt<W: Write>(&self, f: &mut Formatter<W>) -> fmt::Result {
        write_reach(f, self)?;
        write_ways(f, self)?;
        write!(f, ", at {} routers", self.routers)
    }
}

// How many prefixes are reached no more, and how many were not.
#[tactic(auto, unfolding(crate::specs::Diff::Sums::reach_text))]
fn write_reach<W: Write>(f: &mut Formatter<W>, sums: &DifferenceSums) -> fmt::Result
    ensures { WritesOnOk W.Write.write_str_gives f.old result (reach_text sums.now) f.new }
{
    write!(f, "routes: {} lost, {} gained", sums.lost, sums.gained)
}

// How many are reached another way.
#[tactic(auto, unfolding(crate::specs::Diff::Sums::ways_text))]
fn write_ways<W: Write>(f: &mut Formatter<W>, sums: &DifferenceSums) -> fmt::Result
    ensures { WritesOnOk W.Write.write_str_gives f.old result (ways_text sums.now) f.new }
{
    let (longer, shorter) = (sums.longer, sums.shorter);
    write!(
        f,
        ", {longer} longer, {shorter} shorter, {} rerouted",
        sums.rerouted
    )
}

// How a route differs.
#[derive(Clone, Copy, Debug, PartialEq, Eq)]
pub(crate) enum DifferenceKind {
    Lost,
    Gained,
    Longer,
    Shorter,
    Rerouted,
}

// How many differences are of a kind.
fn count_of_kind(kind: DifferenceKind, found: &[RouteDifference]) -> usize
    ensures { result ≡ count_of_kind kind found.now }
{
    let mut count = 0;
    for difference in found {
        if is_difference_of(kind, difference) {
            count += 1;
        }
    }
    count
}

// Whether a difference is of a kind.
#[tactic(auto, unfolding(crate::specs::Diff::Sums::is_difference_of))]
fn is_difference_of(kind: DifferenceKind, difference: &RouteDifference) -> bool
    ensures { result ≡ is_difference_of kind difference.now }
{
    match kind {
        DifferenceKind::Lost => matches!(difference, RouteDifference::Lost(_)),
        DifferenceKind::Gained => matches!(difference, RouteDifference::Gained(_)),
        DifferenceKind::Longer => matches!(difference, RouteDifference::Longer { .. }),
        DifferenceKind::Shorter => matches!(difference, RouteDifference::Shorter { .. }),
        DifferenceKind::Rerouted => matches!(difference, RouteDifference::Rerouted { .. }),
    }
}
