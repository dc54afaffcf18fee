//! LSAs at MaxAge: ages that rise, copies that are flooded to all, and flushes.

ghost use Rattle.std.specs.Prelude.{◌≡◌, ◌+◌, ◌%◌, ◌^◌, [], true, None, Some, OnOk, IfOk, length, option_map, if◌then◌else◌};
ghost use Rattle.ospf_base.specs.Constants.{max_age};
ghost use Rattle.ospf_lsdb.specs.Database.{Ages, Puts, expired, held_of, lsa_of, reached_at};
ghost use Rattle.ospf_area.specs.Acting.{InTurn};
ghost use Rattle.ospf_area.specs.Updates.Aging.{turned_area, turn_out, copy_flooded, Flushes, SendsCopy, TickAges};
ghost use Rattle.ospf_area.specs.Flooding.{flooded_links, flooding_updates, goes_anywhere};
ghost use Rattle.ospf_area.specs.Numbers.{marked};
ghost use Rattle.ospf_area.specs.Sending.{and_sends, context_of};
ghost use Rattle.ospf_area.specs.State.{copy_of, database_entry};
ghost use Rattle.ospf_lsa.specs.Header.{header_of};
ghost use Rattle.ospf_lsa.specs.Lsa.{key_of};

use crate::{Area, Outputs, advance_requests, context_of, flood, mark};
use ospf_base::{LsaKey, MAX_AGE};
use ospf_lsa::{Lsa, LsaView};
use std::alloc::{AllocError, Global};

/// LoadingDone and the next Requests of all neighbours, where they are due (RFC 2328, sections
/// 10.3 and 10.9): after each flood.
///
/// `AllocError` when memory runs out; then the router must be stopped.
pub fn turn_in(area: &mut Area, out: &mut Outputs, alloc: Global) -> Result<(), AllocError>
    ensures after { OnOk result (area.new ≡ turned_area area.old) }
    ensures sent { OnOk result (out.new ≡ and_sends out.old (turn_out area.old)) }
{
    let own = context_of(area);
    advance_requests(&mut area.links, own, out, alloc)
}

/// Floods the copy of a key to all, and sends the Requests that follow from it.
///
/// `AllocError` when memory runs out; then the router must be stopped.
pub fn send_copy(
    area: &mut Area,
    key: LsaKey,
    out: &mut Outputs,
    alloc: Global,
) -> Result<(), AllocError>
    ensures { OnOk result (SendsCopy key area.old out.old out.new area.new) }
{
    flood_copy(area, key, out, alloc)?;
    turn_in(area, out, alloc)
}

/// A tick passes (section 14): all ages rise, and the copies that reach `MAX_AGE` are
/// flooded to all, in order of key.
///
/// `AllocError` when memory runs out; then the router must be stopped.
#[tactic(auto, using(crate::proofs::Updates::AgeLemmas::none_expire))]
pub fn age(area: &mut Area, out: &mut Outputs, alloc: Global) -> Result<(), AllocError>
    ensures { OnOk result (TickAges area.old out.old out.new area.new) }
{
    let expired = rise(area);
    // Mostly none reaches `MAX_AGE`: then the ordered set of moments is not searched.
    if expired == 0 {
        return Ok(());
    }
    let keys = expired_keys(area, alloc)?;
    send_copies(area, &keys, out, alloc)
}

/// Flushes the copy of a key (section 14.1): its age becomes `MAX_AGE`, and it is flooded to all.
///
/// `AllocError` when memory runs out; then the router must be stopped.
pub fn flush(
    area: &mut Area,
    key: LsaKey,
    out: &mut Outputs,
    alloc: Global,
) -> Result<(), AllocError>
    ensures { OnOk result (Flushes key area.old out.old out.new area.new) }
{
    expire(area, &key);
    send_copy(area, key, out, alloc)
}

// Floods the copy of a key to all.
fn flood_copy(
    area: &mut Area,
    key: LsaKey,
    out: &mut Outputs,
    alloc: Global,
) -> Result<(), AllocError>
    ensures after { OnOk result (area.new ≡ copy_flooded key area.old) }
    ensures sent { OnOk result (out.new ≡ and_sends out.old
        (elim (database_entry area.old key) [
          | None ↦ []
          | Some e ↦ flooding_updates (context_of area.old) (lsa_of e) None area.old.links
        ])) }
{
    let Some(copy) = copy_of(area, &key, alloc)? else {
        return Ok(());
    };
    let went = flood_to_all(area, &copy.view(), out, alloc)?;
    note(area, key, went)
}

// Floods an LSA to all neighbours. Returns whether it was sent.
fn flood_to_all(
    area: &mut Area,
    lsa: &LsaView,
    out: &mut Outputs,
    alloc: Global,
) -> Result<bool, AllocError>
    ensures after { OnOk result (area.new ≡ record area.old {
      links = flooded_links (key_of lsa.now) (header_of lsa.now) None area.old.tick
          area.old.links;
    }) }
    ensures went { IfOk result (λ went. went
        ≡ goes_anywhere (key_of lsa.now) (header_of lsa.now) None area.old.links) }
    ensures sent { OnOk result (out.new ≡ and_sends out.old
        (flooding_updates (context_of area.old) lsa.now None area.old.links)) }
{
    let own = context_of(area);
    let flooded = flood(&mut area.links, lsa, None, own, out, alloc)?;
    Ok(flooded.anywhere)
}

fn copy_of(area: &Area, key: &LsaKey, alloc: Global) -> Result<Option<Lsa>, AllocError>
    ensures { IfOk result (λ copy. copy ≡ copy_of area.now key.now) }
{
    let Some(copy) = area.database.get(key) else {
        return Ok(None);
    };
    match copy.copy(alloc) {
        Ok(lsa) => Ok(Some(lsa)),
        Err(_) => Err(AllocError),
    }
}

fn note(area: &mut Area, key: LsaKey, went: bool) -> Result<(), AllocError>
    ensures { OnOk result (area.new
        ≡ (if went then record area.old { sent = marked key true area.old.sent }
        else area.old)) }
{
    if went {
        mark(&mut area.sent, key, true)?;
    }
    Ok(())
}

// Returns how many copies reach `MAX_AGE`.
fn rise(area: &mut Area) -> u64
    ensures database { Ages area.old.database area.new.database }
    ensures rest { area.new ≡ record area.old {
      database = area.new.database;
      tick = (area.old.tick + 1) % 2 ^ 64;
      sent = [];
    } }
    ensures expired { result ≡ length (reached_at max_age area.new.database) }
{
    area.tick = area.tick.wrapping_add(1);
    area.sent.clear();
    area.database.tick()
}

fn expired_keys(area: &Area, alloc: Global) -> Result<Vec<LsaKey>, AllocError>
    ensures { IfOk result (λ keys. keys.items ≡ reached_at max_age area.now.database) }
{
    area.database.reached(MAX_AGE).collect(alloc)
}

fn send_copies(
    area: &mut Area,
    keys: &[LsaKey],
    out: &mut Outputs,
    alloc: Global,
) -> Result<(), AllocError>
    ensures { OnOk result (InTurn SendsCopy keys.now area.old out.old out.new area.new) }
{
    for key in keys {
        send_copy(area, *key, out, alloc)?;
    }
    Ok(())
}

fn expire(area: &mut Area, key: &LsaKey)
    ensures database { Puts key.now (option_map expired (held_of area.old.database key.now))
        area.old.database area.new.database }
    ensures rest { area.new ≡ record area.old { database = area.new.database } }
{
    let _ = area.database.expire(key);
}
