//! What happens to an own LSA.

ghost use Rattle.std.specs.Prelude.{◌≡◌, IfErr, IfOk, None, OnErr, Some, false, if◌then◌else◌, option_map, option_copied};
ghost use Rattle.ospf_lsa.specs.Value.{IsUnmade};
ghost use Rattle.ospf_lsdb.specs.Database.{is_fresh};
ghost use Rattle.ospf_originate.specs.Actions.{next_action, is_due, wanted_action, unwanted_action, own_action, IsCompared, IsUsed};
ghost use Rattle.ospf_originate.specs.Wants.Made.{IsUnmadeIf, Needs, first_number};
ghost use Rattle.ospf_originate.specs.Wants.Own.{wanted_value};

use crate::contents::OwnLsa;
use ospf_base::{LsaKey, MAX_AGE, MAX_SEQUENCE_NUMBER};
use ospf_lsa::LsaFault;
use ospf_lsdb::{EntryView, LS_REFRESH_TIME};
use std::alloc::Global;

/// What happens to an own LSA.
#[derive(Clone, Copy, Debug, PartialEq, Eq)]
pub enum OwnAction {
    /// Nothing.
    Leave,
    /// Its age becomes `MAX_AGE`.
    Flush,
    /// It is issued with this number.
    Issue(i32),
}

/// What is due of a key.
#[derive(Clone, Copy, Debug, PartialEq, Eq)]
pub struct DueAction {
    pub key: LsaKey,
    pub action: OwnAction,
}

/// What happens to the LSA of a key (RFC 2328, sections 12.4, 13.4 and 14.1), by what is wanted of
/// it, if anything, and its copy in the database. `heard` says whether a self-originated one was
/// installed in this step, `own` whether its Advertising Router is this one, `waits` whether it was
/// issued less than MinLSInterval ago; `kept` is the greatest number of its numbering run.
///
/// A fault is that of the wanted LSA, if it cannot be made where a copy is compared with it.
#[tactic(auto, unfolding(crate::specs::Actions::own_action))]
pub fn own_action(
    wanted: Option<&OwnLsa>,
    copy: Option<EntryView<'_>>,
    heard: bool,
    own: bool,
    waits: bool,
    kept: i32,
    alloc: Global,
) -> Result<OwnAction, LsaFault>
    ensures is { IfOk result (λ action. action
        ≡ own_action (option_map (λ w. wanted_value w.now) wanted.entry) copy.entry heard own waits
        kept) }
    ensures used { IfOk result IsUsed }
    ensures fault { IfErr result (IsUnmadeIf (option_map (λ w. wanted_value w.now) wanted.entry)) }
    ensures compared { OnErr result (IsCompared copy.entry heard waits) }
{
    match wanted {
        Some(wanted) => wanted_action(wanted, copy, heard, waits, kept, alloc),
        None => Ok(unwanted_action(copy, heard, own)),
    }
}

pub(crate) fn is_fresh(copy: &EntryView<'_>) -> bool
    ensures { result ≡ is_fresh copy.now }
{
    copy.age().ticks() < MAX_AGE
}

// What happens to an LSA that must be issued.
pub(crate) fn next_action(copy: Option<EntryView<'_>>, kept: i32) -> OwnAction
    ensures is { result ≡ next_action copy.entry kept }
    ensures used { IsUsed result }
{
    if kept == MAX_SEQUENCE_NUMBER {
        makes_room(copy)
    } else {
        OwnAction::Issue(kept + 1)
    }
}

// What happens to a wanted LSA.
fn wanted_action(
    wanted: &OwnLsa,
    copy: Option<EntryView<'_>>,
    heard: bool,
    waits: bool,
    kept: i32,
    alloc: Global,
) -> Result<OwnAction, LsaFault>
    ensures is { IfOk result (λ action. action
        ≡ wanted_action (wanted_value wanted.now) copy.entry heard waits kept) }
    ensures used { IfOk result IsUsed }
    ensures fault { IfErr result (λ f. IsUnmade (Needs first_number (wanted_value wanted.now)) f) }
    ensures compared { OnErr result (IsCompared copy.entry heard waits) }
{
    if heard {
        return Ok(next_action(copy, kept));
    }
    if waits || !is_due(wanted, copy.as_ref(), alloc)? {
        return Ok(OwnAction::Leave);
    }
    Ok(next_action(copy, kept))
}

// Whether a wanted LSA is due.
fn is_due(wanted: &OwnLsa, copy: Option<&EntryView<'_>>, alloc: Global) -> Result<bool, LsaFault>
    ensures is { IfOk result (λ due. due
        ≡ is_due (wanted_value wanted.now) (option_copied copy.entry)) }
    ensures fault { IfErr result (λ f. IsUnmade (Needs first_number (wanted_value wanted.now)) f) }
    ensures compared { OnErr result (IsCompared (option_copied copy.entry) false false) }
{
    match copy {
        Some(copy) => {
            let old = LS_REFRESH_TIME <= copy.age().ticks();
            Ok(old || !wanted.is_said_by(&copy.lsa(), alloc)?)
        }
        None => Ok(true),
    }
}

// What happens to one that is not wanted.
fn unwanted_action(copy: Option<EntryView<'_>>, heard: bool, own: bool) -> OwnAction
    ensures is { result ≡ unwanted_action copy.entry heard own }
    ensures used { IsUsed result }
{
    match copy {
        Some(copy) if heard || own && is_fresh(&copy) => OwnAction::Flush,
        _ => OwnAction::Leave,
    }
}

// What happens to an LSA without a next number.
fn makes_room(copy: Option<EntryView<'_>>) -> OwnAction
    ensures is { result ≡ (elim copy.entry [
      | None ↦ OwnAction.Leave
      | Some e ↦ (if is_fresh e then OwnAction.Flush else OwnAction.Leave)
    ]) }
    ensures used { IsUsed result }
{
    match copy {
        Some(copy) if is_fresh(&copy) => OwnAction::Flush,
        _ => OwnAction::Leave,
    }
}
