//! The cost of a next hop.

ghost use Rattle.std.specs.Prelude.{◌≡◌, ◌↔◌, ℕ, IsTrue, IfSome, IfNone};
ghost use Rattle.ospf_graph.specs.Walk.{HasLinkFor, IsLinkCost};
ghost use Rattle.ospf_graph.specs.EdgeLists.Listed.{advertisements_of};
ghost use Rattle.ospf_graph.specs.EdgeLists.Costs.{IsLeastOf, Leads, lesser_of};

use crate::NextHop;
use crate::edges::lookups::{is_attached, links_by, links_to};
use ospf_base::RouterId;
use ospf_lsa::{Link, LinkKind, Links, Listing};

/// What a next hop costs a router: the least metric of its listed links from the hop's address to
/// the hop's router, or to a network that this router is on. No link leads over `Attached`.
///
/// It looks at the router's own links, and looks up the LSAs they point to by their keys.
pub fn link_cost(listing: &Listing, router: RouterId, hop: &NextHop) -> Option<u16>
    ensures cost { IfSome result (λ cost. IsLinkCost (advertisements_of listing.now) router hop.now
        cost) }
    ensures none { IfNone result ((metric : ℕ) →
        HasLinkFor (advertisements_of listing.now) router hop.now metric → ⊥) }
{
    let links = links_by(listing, router)?;
    least_of(links, listing, router, hop)
}

// The least metric of the links that lead where a next hop does.
fn least_of(links: Links, listing: &Listing, router: RouterId, hop: &NextHop) -> Option<u16>
    ensures { IsLeastOf (Leads (advertisements_of listing.now) router hop.now) links.entry result }
{
    let mut least = None;
    for link in links {
        if leads(listing, router, hop, &link) {
            least = Some(lesser(least, link.metric));
        }
    }
    least
}

// Whether a link of a router leads where a next hop does: from the hop's address to its router, or
// to a network that its router is on.
fn leads(listing: &Listing, router: RouterId, hop: &NextHop, link: &Link) -> bool
    ensures { IsTrue result ↔ Leads (advertisements_of listing.now) router hop.now link.now }
{
    match hop {
        NextHop::Attached => false,
        NextHop::PointToPoint {
            local,
            router: next,
        } => {
            link.kind == LinkKind::PointToPoint
                && link.id == next.0
                && link.link_data == local.0
                && links_to(listing, *next, LinkKind::PointToPoint, router.0)
        }
        NextHop::Lan {
            local,
            router: next,
            ..
        } => {
            link.kind == LinkKind::Transit
                && link.link_data == local.0
                && is_attached(listing, link.id, router)
                && is_attached(listing, link.id, *next)
                && links_to(listing, *next, LinkKind::Transit, link.id)
        }
    }
}

// The lesser of a metric and the least so far.
fn lesser(least: Option<u16>, metric: u16) -> u16
    ensures { result ≡ lesser_of least metric }
{
    least.map_or(metric, |least| least.min(metric))
}
