//! How far the numbers of a router's own LSAs have come, and when each was last issued.

ghost use Rattle.std.specs.Prelude.{◌≡◌, None, Some, if◌then◌else◌, option_and_then};
ghost use Rattle.ospf_area.specs.State.{numbering_of};
ghost use Rattle.ospf_originate.specs.Numbers.{waits, issued};
ghost use Rattle.ospf_base.specs.Keys.{same_key};

use ospf_area::Numbering;
use ospf_base::{LsaKey, have_passed};

/// MinLSInterval: the fewest ticks between two issues of an LSA (RFC 2328, appendix B).
pub const MIN_LS_INTERVAL: u16 = 5;

/// The number recorded for a key: the greatest of its numbering run, or the floor.
pub(crate) fn kept_number(all: &[Numbering], floor: i32, key: &LsaKey) -> i32
    ensures { result ≡ (elim (numbering_of all.now key.now) [ None ↦ floor | Some n ↦ n.kept ]) }
{
    match numbering_of(all, key) {
        Some(numbering) => numbering.kept,
        None => floor,
    }
}

/// Whether a key was issued less than MinLSInterval ago (RFC 2328, section 12.4).
pub(crate) fn waits(all: &[Numbering], key: &LsaKey, tick: u64) -> bool
    ensures { result ≡ waits tick all.now key.now }
{
    match issued_at(all, key) {
        Some(issued) => !have_passed(MIN_LS_INTERVAL, issued, tick),
        None => false,
    }
}

/// An LSA of a key was issued in this tick.
pub(crate) fn note_issue(all: &mut [Numbering], key: &LsaKey, tick: u64)
    ensures { all.new ≡ issued key.now tick all.old }
{
    for numbering in all.iter_mut() {
        note_one(numbering, key, tick);
    }
}

// How far the numbers of a key have come, if it was numbered.
fn numbering_of(all: &[Numbering], key: &LsaKey) -> Option<Numbering>
    ensures { result ≡ numbering_of all.now key.now }
{
    all.iter().copied().find(|n| n.key.is_same(key))
}

// When a key was last issued.
fn issued_at(all: &[Numbering], key: &LsaKey) -> Option<u64>
    ensures { result ≡ option_and_then (λ n. n.issued_at) (numbering_of all.now key.now) }
{
    match numbering_of(all, key) {
        Some(numbering) => numbering.issued_at,
        None => None,
    }
}

fn note_one(numbering: &mut Numbering, key: &LsaKey, tick: u64)
    ensures { numbering.new ≡ (if same_key numbering.old.key key.now
        then record numbering.old { issued_at = Some tick } else numbering.old) }
{
    if numbering.key.is_same(key) {
        numbering.issued_at = Some(tick);
    }
}
