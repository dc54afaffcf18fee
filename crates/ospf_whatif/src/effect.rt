//! What a failure changes in a routing table.

ghost use Rattle.std.specs.Prelude.{◌≡◌, ◌<◌, AllPairs, IfNone, IfSome, length, slice_index_or};
ghost use Rattle.ospf_graph.specs.Routes.{IsRouteBefore};
ghost use Rattle.ospf_graph.specs.declared.route.Route.{Route};
ghost use Rattle.ospf_spf.specs.Changes.{Reaches};

use ospf_base::Prefix;
use ospf_graph::Route;

/// What becomes of a route.
#[derive(Debug, Drop)]
pub enum Loss {
    /// Its prefix is no longer reached, and no longer advertised in the area.
    Gone,
    /// Its prefix is no longer reached, though it is still advertised
    /// in the area: the area is partitioned.
    Cut,
    /// Its prefix costs more, by this route.
    Dearer(Route),
    /// Its prefix costs the same over other next hops, by this route.
    Moved(Route),
}

/// A route of a table, and what becomes of it.
#[derive(Debug, Drop)]
pub struct RouteChange {
    pub before: Route,
    pub loss: Loss,
}

/// The place of the route to a prefix, of routes in the order of tables.
pub(crate) fn place_to(routes: &[Route], prefix: Prefix) -> Option<usize>
    requires { AllPairs IsRouteBefore routes.now }
    ensures some { IfSome result (λ place. (place < length routes.now)
        × ((d : Route) → (slice_index_or routes.now place d).prefix ≡ prefix)) }
    ensures none { IfNone result (Reaches routes.now prefix → ⊥) }
{
    match routes.binary_search_by_key(&prefix, |route| route.prefix) {
        Ok(place) => Some(place),
        Err(_) => None,
    }
}
