//! LSAs that leave the database.

ghost use Rattle.std.specs.Prelude.{◌≡◌, ◌++◌, ◌∷◌, [], false, IfOk, None, OnOk, Some, map, filter, if◌then◌else◌};
ghost use Rattle.std.specs.List.{list_any};
ghost use Rattle.std.specs.Ordering.{int_eq};
ghost use Rattle.ospf_flood.specs.Rules.{max_sequence_number};
ghost use Rattle.ospf_lsdb.specs.Database.{entries, header_at, held_of, is_some_and, key_in};
ghost use Rattle.ospf_area.specs.Acting.{InTurn};
ghost use Rattle.ospf_area.specs.State.{LinkValue};
ghost use Rattle.ospf_area.specs.declared.state.Numbering.{Numbering};
ghost use Rattle.ospf_neighbour.specs.Lists.{is_listed};
ghost use Rattle.ospf_neighbour.specs.Neighbour.{NeighbourValue};
ghost use Rattle.ospf_area.specs.Updates.Removal.{is_leaving, leaving, ends_run, lowest_number, reset, RemovesOne};
ghost use Rattle.ospf_base.specs.Keys.{same_key};

use crate::{Area, AreaLink, Numbering, Outputs, is_numbered, is_own, some_link_loading};
use ospf_base::{Instance, LsaKey, MAX_AGE, MAX_SEQUENCE_NUMBER, NO_FLOOR};
use ospf_lsdb::{EntryView, Lsdb};
use std::alloc::{AllocError, Global};

/// Whether some neighbour has yet to acknowledge an instance.
pub fn some_awaits(instance: &Instance, links: &[AreaLink]) -> bool
    ensures { result ≡ list_any (λ (link : LinkValue). list_any
        (λ (n : NeighbourValue). is_listed instance.now n.retransmission) link.neighbours)
        links.now }
{
    links.iter().any(|link| some_awaits_on(instance, link))
}

/// Removes the LSAs from the database that are at `MAX_AGE` and on no retransmission list, while no
/// neighbour is in Exchange or Loading (section 14): at the end of a step. With the last number of
/// a key of the router's own its numbering run ends.
///
/// `AllocError` when memory runs out; then the router must be stopped.
pub fn remove(area: &mut Area, out: &mut Outputs, alloc: Global) -> Result<(), AllocError>
    ensures { OnOk result (InTurn RemovesOne (leaving area.old) area.old out.old out.new
        area.new) }
{
    let keys = leaving(area, alloc)?;
    remove_all(area, &keys, out)
}

fn some_awaits_on(instance: &Instance, link: &AreaLink) -> bool
    ensures { result ≡ list_any (λ (n : NeighbourValue). is_listed instance.now n.retransmission)
        link.now.neighbours }
{
    let all = link.neighbours.all();
    all.iter().any(|neighbour| neighbour.is_listed(instance))
}

// The keys of the LSAs that leave.
fn leaving(area: &Area, alloc: Global) -> Result<Vec<LsaKey>, AllocError>
    ensures { IfOk result (λ keys. keys.items ≡ leaving area.now) }
{
    if area.database.expired() == 0 {
        return Ok(Vec::new(alloc));
    }
    if some_link_loading(&area.links) {
        return Ok(Vec::new(alloc));
    }
    leaving_of(&area.links, &area.database, alloc)
}

// Only the keys at `MAX_AGE` are visited: each step ends with this, and a walk over
// all entries would take too long.
fn leaving_of(links: &[AreaLink], database: &Lsdb, alloc: Global) -> Result<Vec<LsaKey>, AllocError>
    ensures { IfOk result (λ keys. keys.items
        ≡ map (λ e. key_in e.contents)
        (filter (is_leaving links.now) (entries database.now))) }
{
    let mut keys = Vec::new(alloc);
    for key in database.expired_keys() {
        if leaves(links, database, key) {
            keys.push(*key)?;
        }
    }
    Ok(keys)
}

// Whether the LSA of a key leaves.
fn leaves(links: &[AreaLink], database: &Lsdb, key: &LsaKey) -> bool
    ensures { result ≡ is_some_and (λ h. is_leaving links.now h.entry)
        (held_of database.now key.now) }
{
    match database.get(key) {
        Some(copy) => is_leaving(links, &copy),
        None => false,
    }
}

fn is_leaving(links: &[AreaLink], copy: &EntryView<'_>) -> bool
    ensures { result ≡ is_leaving links.now copy.now }
{
    copy.age().ticks() == MAX_AGE && !some_awaits(&copy.instance(), links)
}

fn remove_all(area: &mut Area, keys: &[LsaKey], out: &mut Outputs) -> Result<(), AllocError>
    ensures { OnOk result (InTurn RemovesOne keys.now area.old out.old out.new area.new) }
{
    for key in keys {
        remove_one(area, *key, out)?;
    }
    Ok(())
}

fn remove_one(area: &mut Area, key: LsaKey, out: &mut Outputs) -> Result<(), AllocError>
    ensures { OnOk result (RemovesOne key area.old out.old out.new area.new) }
{
    if ends_run(area, &key) {
        reset(&mut area.numbering, key)?;
        end_run(out, key)?;
    }
    let _ = area.database.remove_expired(&key);
    Ok(())
}

fn ends_run(area: &Area, key: &LsaKey) -> bool
    ensures { result ≡ ends_run area.now key.now }
{
    is_own(area.router, key) && is_last(area.database.get(key))
}

fn is_last(copy: Option<EntryView<'_>>) -> bool
    ensures { result ≡ (elim copy.entry [
      | None ↦ false
      | Some e ↦ int_eq (header_at e).number max_sequence_number
    ]) }
{
    match copy {
        Some(copy) => copy.header().number == MAX_SEQUENCE_NUMBER,
        None => false,
    }
}

// The numbers of a key begin again.
fn reset(all: &mut Vec<Numbering>, key: LsaKey) -> Result<(), AllocError>
    ensures { OnOk result (all.new.items ≡ reset key all.old.items) }
{
    if is_numbered(all, &key) {
        reset_all(all, &key);
        return Ok(());
    }
    all.push(Numbering {
        key,
        kept: NO_FLOOR,
        issued_at: None,
    })?;
    Ok(())
}

fn reset_all(all: &mut [Numbering], key: &LsaKey)
    ensures { all.new ≡ map (λ (n : Numbering). if same_key n.key key.now
        then record n { kept = lowest_number } else n) all.old }
{
    for numbering in all.iter_mut() {
        reset_one(numbering, key);
    }
}

fn reset_one(numbering: &mut Numbering, key: &LsaKey)
    ensures { numbering.new ≡ (if same_key numbering.old.key key.now
        then record numbering.old { kept = lowest_number } else numbering.old) }
{
    if numbering.key.is_same(key) {
        numbering.kept = NO_FLOOR;
    }
}

fn end_run(out: &mut Outputs, key: LsaKey) -> Result<(), AllocError>
    ensures { OnOk result (out.new ≡ record out.old { ended = out.old.ended ++ key ∷ [] }) }
{
    out.ended.push(key)?;
    Ok(())
}
