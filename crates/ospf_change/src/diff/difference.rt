//! What differs between two routing tables.

ghost use Rattle.std.specs.Prelude.{◌≡◌, AllPairs, Contains, IfNone, IfOk, IfSome};
ghost use Rattle.ospf_graph.specs.Routes.{IsRouteBefore};
ghost use Rattle.ospf_spf.specs.Changes.{Reaches};
ghost use Rattle.ospf_change.specs.Diff.Difference.{AreDifferences, IsDifferenceBy, IsOfTable, IsRouteTurn};

use ospf_base::Prefix;
use ospf_graph::Route;
use ospf_spf::{Change, RouteTable};
use std::alloc::{AllocError, Global};
use std::fmt::{self, Display, Formatter, Write};

/// What differs at one prefix between two routing tables.
#[derive(Debug, Drop)]
pub enum RouteDifference {
    /// The second table has no route to the prefix of this route of the first.
    Lost(Route),
    /// The first table has no route to the prefix of this route of the second.
    Gained(Route),
    /// The prefix costs more in the second table.
    Longer { before: Route, after: Route },
    /// The prefix costs less in the second table.
    Shorter { before: Route, after: Route },
    /// The prefix costs the same, over other next hops.
    Rerouted { before: Route, after: Route },
}

/// As `lost 10.0.34.0/24 cost 30 via 10.0.12.1>2.2.2.2`, `gained` likewise, `longer 10.0.3.0/24
/// cost 10 via 10.0.12.1>2.2.2.2 -> cost 20 via 10.0.13.1>3.3.3.3`, `shorter` likewise, or
/// `rerouted 10.0.3.0/24 cost 10 via 10.0.12.1>2.2.2.2 -> via 10.0.13.1>3.3.3.3`.
impl Display for RouteDifference {
    ghost use Rattle.std.specs.Prelude.{Some};
    ghost use Rattle.ospf_change.specs.Diff.Text.{difference_text};

    ghost output = { λ difference. Some (difference_text difference) };

    fn fmt<W: Write>(&self, f: &mut Formatter<W>) -> fmt::Result {
        match self {
            RouteDifference::Lost(old) => write!(f, "lost {} {}", old.prefix, Way(old)),
            RouteDifference::Gained(new) => write!(f, "gained {} {}", new.prefix, Way(new)),
            RouteDifference::Longer { before, after } => {
                let (old, new) = (Way(before), Way(after));
                write!(f, "longer {} {old} -> {new}", before.prefix)
            }
            RouteDifference::Shorter { before, after } => {
                let (old, new) = (Way(before), Way(after));
                write!(f, "shorter {} {old} -> {new}", before.prefix)
            }
            RouteDifference::Rerouted { before, after } => {
                let (old, hops) = (Way(before), &after.hops);
                write!(f, "rerouted {} {old} -> via {hops}", before.prefix)
            }
        }
    }
}

// What a route costs, and where it leads next.
#[derive(Clone, Copy)]
struct Way<'a>(&'a Route);

impl Display for Way<'_> {
    ghost use Rattle.std.specs.Prelude.{Some};
    ghost use Rattle.ospf_change.specs.Diff.Text.{price_text};

    ghost output = { λ way. Some (price_text way.0.now) };

    fn fmt<W: Write>(&self, f: &mut Formatter<W>) -> fmt::Result {
        write!(f, "cost {} via {}", self.0.cost, self.0.hops)
    }
}

/// What differs between two routing tables, in the order of prefixes: one difference for each
/// prefix that one of them alone reaches, or that they reach at different costs or over different
/// next hops. It takes about as many steps as both have routes.
///
/// `AllocError` where memory runs out.
pub fn differences(
    alloc: Global,
    before: &RouteTable,
    after: &RouteTable,
) -> Result<Vec<RouteDifference>, AllocError>
    ensures { IfOk result (λ found. AreDifferences before.now after.now found.items) }
{
    let changes = before.changes(alloc, after)?;
    let mut found = Vec::with_capacity(alloc, changes.len())?;
    for change in &changes {
        found.push(difference_by(alloc, before.routes(), change)?)?;
    }
    Ok(found)
}

// What a change of a table makes of the route to its prefix.
fn difference_by(
    alloc: Global,
    before: &[Route],
    change: &Change,
) -> Result<RouteDifference, AllocError>
    requires in_order { AllPairs IsRouteBefore before.now }
    requires gone { IsOfTable before.now change.now }
    ensures { IfOk result (IsDifferenceBy before.now change.now) }
{
    match change {
        Change::Gone(prefix) => match route_to(before, *prefix) {
            Some(old) => Ok(RouteDifference::Lost(old.copy(alloc)?)),
            None => unreachable!(),
        },
        Change::Put(route) => {
            let after = route.copy(alloc)?;
            match route_to(before, after.prefix) {
                Some(old) => Ok(turned(old.copy(alloc)?, after)),
                None => Ok(RouteDifference::Gained(after)),
            }
        }
    }
}

// The route to a prefix, of routes in the order of tables.
fn route_to(routes: &[Route], prefix: Prefix) -> Option<&Route>
    requires { AllPairs IsRouteBefore routes.now }
    ensures some { IfSome result (λ route. Contains routes.now route.now
        × (route.now.prefix ≡ prefix)) }
    ensures none { IfNone result (Reaches routes.now prefix → ⊥) }
{
    match routes.binary_search_by_key(&prefix, |route| route.prefix) {
        Ok(place) => Some(&routes[place]),
        Err(_) => None,
    }
}

// What differs between two routes to one prefix.
fn turned(before: Route, after: Route) -> RouteDifference
    ensures { IsRouteTurn before after result }
{
    if before.cost < after.cost {
        RouteDifference::Longer { before, after }
    } else if after.cost < before.cost {
        RouteDifference::Shorter { before, after }
    } else {
        RouteDifference::Rerouted { before, after }
    }
}
