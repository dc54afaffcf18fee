//! What a listing says of routers and networks.

ghost use Rattle.std.specs.Prelude.{◌↔◌, IsTrue};
ghost use Rattle.ospf_graph.specs.Advertisements.{IsListed};
ghost use Rattle.ospf_graph.specs.EdgeLists.Listed.{advertisements_of};
ghost use Rattle.ospf_graph.specs.EdgeLists.Given.{StandsFor};

use ospf_base::RouterId;
use ospf_lsa::Listing;

/// Whether the router-LSA of a router is listed.
pub fn is_listed(listing: &Listing, router: RouterId) -> bool
    ensures { IsTrue result ↔ IsListed (advertisements_of listing.now) router }
{
    match listing.router(router) {
        Some(_) => true,
        None => false,
    }
}

// Whether the network-LSA of a router is the one used for its Link State ID.
pub(crate) fn stands_for(listing: &Listing, id: u32, router: RouterId) -> bool
    ensures { IsTrue result ↔ StandsFor (advertisements_of listing.now) id router }
{
    match listing.network(id) {
        Some(lsa) => lsa.view().key().router.0 <= router.0,
        None => true,
    }
}
