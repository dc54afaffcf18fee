//! Router-LSAs with too many links to be rebuilt.

ghost use Rattle.std.specs.Prelude.{◌↔◌, ◌<◌, IfNone, IfSome, IsTrue, length};
ghost use Rattle.ospf_graph.specs.EdgeLists.Listed.{advertisement_of, advertisements_of};
ghost use Rattle.ospf_whatif.specs.Failure.{HasLarge, IsLarge};
ghost use Rattle.ospf_change.specs.Edit.Large.{IsFirstTooLarge};

use ospf_base::{Kind, RouterId};
use ospf_lsa::{Links, Listing, LsaView};

// The most links of a router-LSA of `ospf_base::LARGEST_LSA` bytes.
const MOST_LINKS: usize = 1361;

// The first router of a listing whose router-LSA has too many links.
pub(crate) fn first_large(listing: &Listing) -> Option<RouterId>
    ensures some { IfSome result (IsFirstTooLarge listing.now) }
    ensures none { IfNone result (HasLarge (advertisements_of listing.now) → ⊥) }
{
    for lsa in listing.lsas() {
        let view = lsa.view();
        if is_large(&view) {
            return Some(view.key().router);
        }
    }
    None
}

// Whether an LSA is a router-LSA of too many links.
fn is_large(lsa: &LsaView) -> bool
    ensures { IsTrue result ↔ IsLarge (advertisement_of lsa.now) }
{
    match lsa.kind() {
        Kind::Router => are_more(lsa.links(), MOST_LINKS),
        Kind::Network => false,
    }
}

// Whether there are more links than so many.
fn are_more(links: Links, most: usize) -> bool
    ensures { IsTrue result ↔ (most < length links.entry) }
{
    let mut left = most;
    for link in links {
        // For the proof.
        let _counted = link;
        if left == 0 {
            return true;
        }
        left -= 1;
    }
    false
}
