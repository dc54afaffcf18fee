//! The own LSAs that end a step.

ghost use Rattle.std.specs.Prelude.{◌≡◌, ◌++◌, ◌∷◌, [], false, IfOk, None, OnErr, OnOk, Some, find, map, option_copied, option_map};
ghost use Rattle.std.specs.BTreeSet.{IsOrdered};
ghost use Rattle.std.specs.List.{AllByRecursion, flat_map, list_any};
ghost use Rattle.ospf_base.specs.Rising.{IsRisingBy};
ghost use Rattle.ospf_base.specs.Keys.{same_key, key_cmp, Precedes};
ghost use Rattle.ospf_base.specs.declared.ids.LsaKey.{LsaKey};
ghost use Rattle.ospf_lsa.specs.Value.{HasAll};
ghost use Rattle.ospf_lsdb.specs.Moments.{among};
ghost use Rattle.ospf_originate.specs.Actions.{IsUsed};
ghost use Rattle.ospf_originate.specs.Wants.Made.{CanBeMade, CanBeMadeIf, Needs};
ghost use Rattle.ospf_originate.specs.Idle.{IsIdle};
ghost use Rattle.ospf_originate.specs.Wants.Own.{wanted_value};
ghost use Rattle.ospf_originate.specs.Sound.{AreNumbered, IsSound};
ghost use Rattle.ospf_area.specs.Acting.{Becomes, InTurn};
ghost use Rattle.ospf_area.specs.Updates.Aging.{Flushes};
ghost use Rattle.ospf_originate.specs.Steps.{wants, action_of, Acts, HasUsedNumber, IssuesAndTurns, candidates, IsDue, OwnLsas};
ghost use Rattle.ospf_originate.specs.Wants.Wanted.{wanted_of, wanted_key};

use crate::action::{DueAction, OwnAction, own_action};
use crate::contents::{OwnLsa, wanted};
use crate::idle::is_idle;
use crate::numbers::{kept_number, waits};
use crate::step::{issue, want_of_memory};
use ospf_area::update::{flush, turn_in};
use ospf_area::{Area, Numbering, Outputs, is_own};
use ospf_base::LsaKey;
use std::alloc::{AllocError, Global};
use std::collections::BTreeSet;

/// Issues and flushes the own LSAs that are due in this state (RFC 2328, sections 12.4, 13.4
/// and 14.1), in the order of their keys, at the end of a step. Where nothing is due and none
/// was heard, no memory is taken.
///
/// `AllocError` when memory runs out; then the router must be stopped.
pub fn own_lsas(area: &mut Area, out: &mut Outputs, alloc: Global) -> Result<(), AllocError>
    requires { IsSound area.old }
    ensures own { OnOk result (OwnLsas area.old out.old out.new area.new) }
    ensures sound { OnOk result (IsSound area.new) }
    ensures idle { OnErr result (IsIdle area.old → ⊥) }
{
    if is_idle(area) {
        return Ok(());
    }
    issue_and_flush(area, out, alloc)
}

// Issues and flushes what is due.
fn issue_and_flush(area: &mut Area, out: &mut Outputs, alloc: Global) -> Result<(), AllocError>
    requires { IsSound area.old }
    ensures own { OnOk result (OwnLsas area.old out.old out.new area.new) }
    ensures sound { OnOk result (IsSound area.new) }
{
    let all = wanted_by(area, alloc)?;
    let due = due_now(area, &all, alloc)?;
    act_in_turn(area, &all, &due, out, alloc)?;
    forget_heard(area);
    Ok(())
}

// What the router wants.
fn wanted_by(area: &Area, alloc: Global) -> Result<Vec<OwnLsa>, AllocError>
    ensures { IfOk result (λ v. map wanted_value v.items ≡ wants area.now) }
{
    wanted(
        area.stub_router,
        area.router,
        &area.links,
        &area.stubs,
        alloc,
    )
}

// All that is due.
fn due_now(area: &Area, all: &[OwnLsa], alloc: Global) -> Result<Vec<DueAction>, AllocError>
    // These are the LSAs that are wanted, their numbers are recorded, and each can be made.
    requires wants { map wanted_value all.now ≡ wants area.now }
    requires numbered { AreNumbered area.now }
    requires made { AllByRecursion CanBeMade (wants area.now) }
    // Then exactly what is due is returned, each with a number that is used.
    ensures is { IfOk result (λ v. IsDue area.now v.items) }
    ensures used { IfOk result (λ v. AllByRecursion HasUsedNumber v.items) }
{
    let keys = due_keys(area, all, alloc)?;
    let due = due_of(area, all, &keys, alloc)?;
    Ok(due)
}

// The keys of which something may be due, in their order.
fn due_keys(area: &Area, all: &[OwnLsa], alloc: Global) -> Result<Vec<LsaKey>, AllocError>
    requires wants { map wanted_value all.now ≡ wants area.now }
    requires numbered { AreNumbered area.now }
    ensures rising { IfOk result (λ v. IsRisingBy Precedes v.items) }
    ensures whole { IfOk result (λ v. (key : LsaKey) → among v.items key ≡ false →
        action_of area.now key ≡ OwnAction.Leave) }
{
    let keys = candidates(all, &area.numbering, &area.heard, alloc)?;
    let rising = sorted(&keys, alloc)?;
    Ok(rising)
}

// The keys of which something may be due: those that are wanted, those that are numbered, and
// those that were heard in this step.
fn candidates(
    wanted: &[OwnLsa],
    numbering: &[Numbering],
    heard: &[LsaKey],
    alloc: Global,
) -> Result<Vec<LsaKey>, AllocError>
    ensures { IfOk result (λ v. v.items
        ≡ candidates (map wanted_value wanted.now) numbering.now heard.now) }
{
    let mut keys = wanted_keys(wanted, alloc)?;
    let numbered = numbered_keys(numbering, alloc)?;
    keys.extend_from_slice(&numbered)?;
    keys.extend_from_slice(heard)?;
    Ok(keys)
}

fn wanted_keys(wanted: &[OwnLsa], alloc: Global) -> Result<Vec<LsaKey>, AllocError>
    ensures { IfOk result (λ v. v.items ≡ map (λ w. wanted_key (wanted_value w)) wanted.now) }
{
    wanted.iter().map(|w| w.key()).collect(alloc)
}

fn numbered_keys(numbering: &[Numbering], alloc: Global) -> Result<Vec<LsaKey>, AllocError>
    ensures { IfOk result (λ v. v.items ≡ map (λ n. n.key) numbering.now) }
{
    numbering.iter().map(|n| n.key).collect(alloc)
}

// The keys, each once, in their order.
fn sorted(keys: &[LsaKey], alloc: Global) -> Result<Vec<LsaKey>, AllocError>
    ensures rising { IfOk result (λ v. IsRisingBy Precedes v.items) }
    ensures whole { IfOk result (λ v. (q : LsaKey) → among v.items q ≡ among keys.now q) }
{
    let set = set_of(keys, alloc)?;
    let all = keys_in(&set, alloc)?;
    Ok(all)
}

// The keys as a set.
fn set_of(keys: &[LsaKey], alloc: Global) -> Result<BTreeSet<LsaKey>, AllocError>
    ensures ordered { IfOk result (λ set. IsOrdered key_cmp set) }
    ensures whole { IfOk result (λ set. (q : LsaKey) → among set.keys q ≡ among keys.now q) }
{
    let mut set = BTreeSet::new(alloc);
    for key in keys {
        set.insert(*key)?;
    }
    Ok(set)
}

// The keys of a set, in their order.
fn keys_in(set: &BTreeSet<LsaKey>, alloc: Global) -> Result<Vec<LsaKey>, AllocError>
    ensures { IfOk result (λ v. v.items ≡ set.now.keys) }
{
    set.iter().copied().collect(alloc)
}

// What is due of keys.
fn due_of(
    area: &Area,
    all: &[OwnLsa],
    keys: &[LsaKey],
    alloc: Global,
) -> Result<Vec<DueAction>, AllocError>
    requires wants { map wanted_value all.now ≡ wants area.now }
    requires made { AllByRecursion CanBeMade (wants area.now) }
    ensures is { IfOk result (λ v. v.items
        ≡ flat_map (λ key. elim (action_of area.now key) [
          | OwnAction.Leave ↦ []
          | OwnAction.Flush ↦ record { key = key; action = OwnAction.Flush } ∷ []
          | OwnAction.Issue number ↦ record { key = key; action = OwnAction.Issue number } ∷ []
        ]) keys.now) }
    ensures used { IfOk result (λ v. AllByRecursion HasUsedNumber v.items) }
{
    let mut out = Vec::new(alloc);
    for key in keys {
        let action = action_of(area, all, key, alloc)?;
        push_due(&mut out, *key, action)?;
    }
    Ok(out)
}

// What happens to a key.
#[tactic(auto, unfolding(crate::specs::Steps::action_of))]
fn action_of(
    area: &Area,
    all: &[OwnLsa],
    key: &LsaKey,
    alloc: Global,
) -> Result<OwnAction, AllocError>
    requires wants { map wanted_value all.now ≡ wants area.now }
    requires made { AllByRecursion CanBeMade (wants area.now) }
    ensures is { IfOk result (λ action. action ≡ action_of area.now key.now) }
    ensures used { IfOk result IsUsed }
{
    let wanted = wanted_of(all, key);
    let copy = area.database.get(key);
    let heard = is_heard(&area.heard, key);
    let own = is_own(area.router, key);
    let waits = waits(&area.numbering, key, area.tick);
    let kept = kept_number(&area.numbering, area.floor, key);
    match own_action(wanted, copy, heard, own, waits, kept, alloc) {
        Ok(action) => Ok(action),
        Err(fault) => Err(want_of_memory(fault)),
    }
}

// The wanted LSA of a key.
fn wanted_of<'a>(all: &'a [OwnLsa], key: &LsaKey) -> Option<&'a OwnLsa>
    ensures { option_map (λ w. wanted_value w.now) result
        ≡ wanted_of (map wanted_value all.now) key.now }
{
    first_of(all, key)
}

// The first wanted LSA of a key.
fn first_of<'a>(all: &'a [OwnLsa], key: &LsaKey) -> Option<&'a OwnLsa>
    ensures { option_copied result ≡ find (λ w. same_key (wanted_key (wanted_value w)) key.now)
        all.now }
{
    all.iter().find(|w| w.key().is_same(key))
}

// Whether a self-originated LSA of a key was installed in this step.
fn is_heard(heard: &[LsaKey], key: &LsaKey) -> bool
    ensures { result ≡ list_any (λ k. same_key k key.now) heard.now }
{
    heard.iter().any(|k| k.is_same(key))
}

// Puts what is due of a key at the end.
fn push_due(out: &mut Vec<DueAction>, key: LsaKey, action: OwnAction) -> Result<(), AllocError>
    ensures { OnOk result (out.new.items ≡ out.old.items ++ (elim action [
      | OwnAction.Leave ↦ []
      | OwnAction.Flush ↦ record { key = key; action = OwnAction.Flush } ∷ []
      | OwnAction.Issue number ↦ record { key = key; action = OwnAction.Issue number } ∷ []
    ])) }
{
    match action {
        OwnAction::Leave => {}
        OwnAction::Flush => out.push(DueAction { key, action })?,
        OwnAction::Issue(_) => out.push(DueAction { key, action })?,
    }
    Ok(())
}

// Does all that is due, in its order.
fn act_in_turn(
    area: &mut Area,
    all: &[OwnLsa],
    due: &[DueAction],
    out: &mut Outputs,
    alloc: Global,
) -> Result<(), AllocError>
    requires made { AllByRecursion CanBeMade (map wanted_value all.now) }
    requires used { AllByRecursion HasUsedNumber due.now }
    ensures { OnOk result
        (InTurn (λ (d : DueAction). Acts d.action (map wanted_value all.now) d.key) due.now
        area.old out.old out.new area.new) }
{
    for d in due {
        act(area, all, d, out, alloc)?;
    }
    Ok(())
}

// Does what is due of a key.
fn act(
    area: &mut Area,
    all: &[OwnLsa],
    due: &DueAction,
    out: &mut Outputs,
    alloc: Global,
) -> Result<(), AllocError>
    requires made { AllByRecursion CanBeMade (map wanted_value all.now) }
    requires used { IsUsed due.now.action }
    ensures { OnOk result (Acts due.now.action (map wanted_value all.now) due.now.key area.old
        out.old
        out.new area.new) }
{
    match due.action {
        OwnAction::Leave => Ok(()),
        OwnAction::Flush => flush_key(area, due.key, out, alloc),
        OwnAction::Issue(number) => {
            issue_key(area, wanted_of(all, &due.key), number, out, alloc)
        }
    }
}

// Flushes the copy of a key, and turns to the Requests.
fn flush_key(
    area: &mut Area,
    key: LsaKey,
    out: &mut Outputs,
    alloc: Global,
) -> Result<(), AllocError>
    ensures { OnOk result (Flushes key area.old out.old out.new area.new) }
{
    flush(area, key, out, alloc)
}

// Issues an LSA with a number, if it is wanted, and turns to the Requests.
fn issue_key(
    area: &mut Area,
    wanted: Option<&OwnLsa>,
    number: i32,
    out: &mut Outputs,
    alloc: Global,
) -> Result<(), AllocError>
    requires { CanBeMadeIf number (option_map (λ w. wanted_value w.now) wanted) }
    ensures { OnOk result (elim (option_map (λ w. wanted_value w.now) wanted.entry) [
      | None ↦ Becomes area.old out.old out.new area.new
      | Some w ↦ IssuesAndTurns w number area.old out.old out.new area.new
    ]) }
{
    match wanted {
        Some(wanted) => issue_one(area, wanted, number, out, alloc),
        None => Ok(()),
    }
}

// Issues a wanted LSA with a number, and turns to the Requests.
fn issue_one(
    area: &mut Area,
    wanted: &OwnLsa,
    number: i32,
    out: &mut Outputs,
    alloc: Global,
) -> Result<(), AllocError>
    requires { HasAll (Needs number (wanted_value wanted.now)) }
    ensures { OnOk result (IssuesAndTurns (wanted_value wanted.now) number area.old out.old out.new
        area.new) }
{
    issue(area, wanted, number, out, alloc)?;
    turn_in(area, out, alloc)?;
    Ok(())
}

// What was heard is answered.
fn forget_heard(area: &mut Area)
    ensures { area.new ≡ record area.old { heard = [] } }
{
    area.heard.clear();
}
