//! Whether a database lists what a listing has.

ghost use Rattle.std.specs.Prelude.{◌≡◌, IsTrue};
ghost use Rattle.ospf_base.specs.Sums.{contents};
ghost use Rattle.ospf_lsa.specs.Listing.{IsListing};
ghost use Rattle.ospf_lsdb.specs.Database.{IsDatabase, listed};
ghost use Rattle.ospf_router.specs.Listings.{ListsAs};

use ospf_base::MAX_AGE;
use ospf_lsa::{Listing, Lsa};
use ospf_lsdb::{EntryView, Lsdb};

// The bytes of the age, the one field in which copies of one LSA differ (RFC 2328, section 12.1.1).
const AGE_BYTES: usize = 2;

/// Whether the database lists the very LSAs of the listing, at whatever ages. No memory is
/// allocated.
pub(crate) fn lists_as(database: &Lsdb, listing: &Listing) -> bool
    ensures same { IsTrue result → ListsAs database.now listing.now }
    ensures database { IsDatabase database.now }
    ensures listing { IsTrue result → IsListing (listed database.now) }
{
    let mut left = listing.lsas().iter();
    for entry in database.entries() {
        if entry.age().ticks() < MAX_AGE {
            let Some(lsa) = left.next() else {
                return false;
            };
            if !is_entry_of(&entry, lsa) {
                return false;
            }
        }
    }
    left.next().is_none()
}

// Whether an entry is this LSA, at whatever age.
fn is_entry_of(entry: &EntryView, lsa: &Lsa) -> bool
    ensures { IsTrue result → contents lsa.now ≡ entry.now.contents }
{
    let view = lsa.view();
    let stored = entry.lsa();
    view.as_bytes()[AGE_BYTES..] == stored.as_bytes()[AGE_BYTES..]
}
