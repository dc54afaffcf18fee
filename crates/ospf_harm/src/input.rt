//! The LSAs of an area, as far as its failures can be computed.

ghost use Rattle.std.specs.Prelude.{◌↔◌, ◌<◌, ⊤, [], IfErr, IfNone, IfOk, IfSome, IsTrue, List, ℕ, Option, length};
ghost use Rattle.ospf_graph.specs.EdgeLists.Listed.{advertisement_of, advertisements_of};
ghost use Rattle.ospf_table.specs.Line.{LeavesOut, Reads, Refuses};
ghost use Rattle.ospf_whatif.specs.Failure.{HasLarge, IsLarge};
ghost use Rattle.ospf_harm.specs.Input.{IsFirstLarge, IsAreaUnread};

use ospf_base::{Kind, RouterId};
use ospf_files::Failure;
use ospf_lsa::{Links, Listing, LsaView};
use ospf_table::{CountedListing, EntryFault, TableFault, read_counted};
use std::alloc::{AllocError, Global};
use std::io::BufRead;

// The most links of a router-LSA that can be rebuilt: one of `ospf_base::LARGEST_LSA` bytes.
const MOST_LINKS: usize = 1361;

/// Why there are no LSAs: the input is refused, with this text; or something failed.
#[derive(Drop)]
pub enum Unread {
    Refused(String),
    Failure(Failure),
}

impl From<AllocError> for Unread {
    ghost use Rattle.std.specs.Prelude.{◌≡◌};
    ghost use Rattle.ospf_files.specs.declared.status.Failure.TheVariants as failure;
    ghost use Rattle.ospf_harm.specs.declared.input.Unread.TheVariants as fault;

    ghost from_gives = { λ _ f. f ≡ fault.Failure failure.Memory };

    fn from(_error: AllocError) -> Unread {
        Unread::Failure(Failure::Memory)
    }
}

/// Reads LSAs, one per line in hexadecimal as `ospf_table::read_counted` does. The first line that
/// is refused refuses the input. Where router-LSAs are rebuilt, so does the first router whose
/// router-LSA has more than 1,361 links.
///
/// The error has the text of the refusal, or says that memory ran out or that a read failed.
pub fn read_area<R: BufRead + Drop>(
    alloc: Global,
    is_rebuilding: bool,
    input: R,
) -> Result<CountedListing, Unread>
    ensures whole { IfOk result (λ read. IfSome (R.remaining input)
        (λ bytes. Reads bytes [] read.listing)) }
    ensures counted { IfOk result (λ read. IfSome (R.remaining input)
        (λ bytes. LeavesOut bytes read.left_out)) }
    ensures small { IfOk result (λ read. IsTrue is_rebuilding →
        HasLarge (advertisements_of read.listing) → ⊥) }
    ensures fault { IfErr result (IsAreaUnread (IsTrue is_rebuilding) (R.remaining input)) }
{
    let read = match read_counted(alloc, input) {
        Ok(read) => read,
        Err(TableFault::Entry { number, fault }) => {
            return Err(line_refused(alloc, number, fault));
        }
        Err(TableFault::Failure(failure)) => return Err(Unread::Failure(failure)),
    };
    if !is_rebuilding {
        return Ok(read);
    }
    match first_large(&read.listing) {
        Some(router) => Err(router_refused(alloc, router)),
        None => Ok(read),
    }
}

// The refusal of a line.
fn line_refused(alloc: Global, number: u64, fault: EntryFault) -> Unread
    ensures { (input : Option (List ℕ)) → IfSome input (λ bytes. Refuses bytes [] number fault) →
        IsAreaUnread ⊥ input result }
{
    match format!(in alloc; "line {number}: {}\n", fault.text()) {
        Ok(text) => Unread::Refused(text),
        Err(error) => Unread::from(error),
    }
}

// The refusal of a router of too many links.
fn router_refused(alloc: Global, router: RouterId) -> Unread
    ensures { (input : Option (List ℕ)) (listing : List (List ℕ)) →
        IfSome input (λ bytes. Reads bytes [] listing) → IsFirstLarge listing router →
        IsAreaUnread ⊤ input result }
{
    match format!(in alloc; "{router}: more than 1361 links\n") {
        Ok(text) => Unread::Refused(text),
        Err(error) => Unread::from(error),
    }
}

// The first router of a listing whose router-LSA has too many links.
fn first_large(listing: &Listing) -> Option<RouterId>
    ensures some { IfSome result (IsFirstLarge listing.now) }
    ensures none { IfNone result (HasLarge (advertisements_of listing.now) → ⊥) }
{
    for lsa in listing.lsas() {
        let view = lsa.view();
        if is_large(&view) {
            return Some(view.key().router);
        }
    }
    None
}

// Whether an LSA is a router-LSA of too many links.
fn is_large(lsa: &LsaView) -> bool
    ensures { IsTrue result ↔ IsLarge (advertisement_of lsa.now) }
{
    match lsa.kind() {
        Kind::Router => are_more(lsa.links(), MOST_LINKS),
        Kind::Network => false,
    }
}

// Whether there are more links than so many.
fn are_more(links: Links, most: usize) -> bool
    ensures { IsTrue result ↔ (most < length links.entry) }
{
    let mut left = most;
    for link in links {
        // For the proof.
        let _counted = link;
        if left == 0 {
            return true;
        }
        left -= 1;
    }
    false
}
