//! How far the numbers of the router's own keys have advanced.

ghost use Rattle.std.specs.Prelude.{◌≡◌, ◌==◌, ◌++◌, ◌∷◌, [], None, OnOk, filter, if◌then◌else◌, map, not};
ghost use Rattle.std.specs.Int.{int_max};
ghost use Rattle.std.specs.List.{list_any};
ghost use Rattle.ospf_area.specs.Numbers.{is_own, counts, is_self_originated, marked};
ghost use Rattle.ospf_area.specs.State.{LinkValue};
ghost use Rattle.ospf_area.specs.declared.state.Numbering.{Numbering};
ghost use Rattle.ospf_base.specs.Keys.{same_key};
ghost use Rattle.ospf_lsdb.specs.Moments.{among};

use crate::state::{Area, AreaLink, Numbering};
use ospf_base::{Kind, LsaKey, RouterId};
use ospf_lsa::LsaHeader;
use std::alloc::AllocError;
use std::collections::BTreeSet;

/// Whether the router has numbered the key.
pub fn is_numbered(all: &[Numbering], key: &LsaKey) -> bool
    ensures { result ≡ list_any (λ n. same_key n.key key.now) all.now }
{
    all.iter().any(|numbering| numbering.key.is_same(key))
}

/// Whether the router numbers the key.
pub fn is_own(router: RouterId, key: &LsaKey) -> bool
    ensures { result ≡ is_own router key.now }
{
    key.router.0 == router.0
}

/// An LSA of a key was installed with this header's number.
///
/// `AllocError` where memory runs out; then the router must be stopped.
pub fn count_number(area: &mut Area, key: LsaKey, header: &LsaHeader) -> Result<(), AllocError>
    ensures { OnOk result (area.new ≡ record area.old {
      numbering = counts key header.now.number area.old;
      max_seq = if is_own area.old.router key then int_max area.old.max_seq header.now.number
          else area.old.max_seq;
    }) }
{
    let number = header.number;
    if !is_own(area.router, &key) {
        return Ok(());
    }
    let floor = area.floor;
    count(&mut area.numbering, key, number, floor)?;
    area.max_seq = larger(area.max_seq, number);
    Ok(())
}

/// Whether an LSA is self-originated (section 13.4).
pub fn is_self_originated(router: RouterId, links: &[AreaLink], key: &LsaKey) -> bool
    ensures { result ≡ is_self_originated router links.now key.now }
{
    if is_own(router, key) {
        return true;
    }
    matches!(key.kind, Kind::Network) && has_address(links, key.id)
}

/// Whether the copy of a key was sent in an Update in this tick (section 13, step 8).
pub fn was_sent(sent: &BTreeSet<LsaKey>, key: &LsaKey) -> bool
    ensures { result ≡ among sent.now.keys key.now }
{
    sent.contains(key)
}

/// The copy of a key has just been installed, and was sent in an Update or was not. A key that was
/// not marked needs memory.
///
/// `AllocError` where memory runs out; then the router must be stopped.
pub fn mark(sent: &mut BTreeSet<LsaKey>, key: LsaKey, went: bool) -> Result<(), AllocError>
    ensures { OnOk result (sent.new.keys ≡ marked key went sent.old.keys) }
{
    if went {
        sent.insert(key)?;
    } else {
        unmark(sent, &key);
    }
    Ok(())
}

// A number of a key was issued or installed.
fn count(all: &mut Vec<Numbering>, key: LsaKey, number: i32, floor: i32) -> Result<(), AllocError>
    ensures { OnOk result (all.new.items
        ≡ (if list_any (λ n. same_key n.key key) all.old.items
        then map (λ (n : Numbering).
        if same_key n.key key then record n { kept = int_max n.kept number } else n)
        all.old.items
        else all.old.items
        ++ record { key = key; kept = int_max floor number; issued_at = None } ∷ [])) }
{
    if is_numbered(all, &key) {
        count_all(all, &key, number);
        return Ok(());
    }
    all.push(Numbering {
        key,
        kept: larger(floor, number),
        issued_at: None,
    })?;
    Ok(())
}

fn count_all(all: &mut [Numbering], key: &LsaKey, number: i32)
    ensures { all.new
        ≡ map (λ (n : Numbering).
        if same_key n.key key.now then record n { kept = int_max n.kept number } else n)
        all.old }
{
    for numbering in all.iter_mut() {
        count_one(numbering, key, number);
    }
}

fn count_one(numbering: &mut Numbering, key: &LsaKey, number: i32)
    ensures { numbering.new
        ≡ (if same_key numbering.old.key key.now
        then record numbering.old { kept = int_max numbering.old.kept number }
        else numbering.old) }
{
    if numbering.key.is_same(key) {
        numbering.kept = larger(numbering.kept, number);
    }
}

fn larger(a: i32, b: i32) -> i32
    ensures { result ≡ int_max a b }
{
    if b < a { a } else { b }
}

// Whether an interface has this address.
fn has_address(links: &[AreaLink], address: u32) -> bool
    ensures { result ≡ list_any (λ (link : LinkValue). link.iface.settings.address.0 == address)
        links.now }
{
    links
        .iter()
        .any(|link| link.iface.settings.address.0 == address)
}

fn unmark(sent: &mut BTreeSet<LsaKey>, key: &LsaKey)
    ensures { sent.new.keys ≡ filter (λ k. not (same_key k key.now)) sent.old.keys }
{
    sent.remove(key);
}
