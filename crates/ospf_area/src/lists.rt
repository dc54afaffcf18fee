//! What leaves the retransmission lists of all neighbours.

ghost use Rattle.std.specs.Prelude.{◌≡◌, map};
ghost use Rattle.ospf_neighbour.specs.Lists.{key_unlisted};
ghost use Rattle.ospf_area.specs.Flooding.{released};

use crate::state::AreaLink;
use ospf_base::LsaKey;

/// Takes all instances of a key off the retransmission lists of all neighbours (RFC 2328, section
/// 13, step 5c). No memory is allocated.
pub fn release(links: &mut [AreaLink], key: &LsaKey)
    ensures { links.new ≡ released key.now links.old }
{
    for link in links.iter_mut() {
        release_link(link, key);
    }
}

fn release_link(link: &mut AreaLink, key: &LsaKey)
    ensures { link.new ≡ record link.old {
      neighbours = map (key_unlisted key.now) link.old.neighbours;
    } }
{
    link.neighbours.unlist_key(key);
}
