//! What changed between two moments of a router, part by part.

ghost use Rattle.ospf_spf.specs.Changes.{IsChangeBefore, PutsHops, edited};
ghost use Rattle.std.specs.Prelude.{◌≡◌, ◌++◌, All, AllPairs, IfOk, OnErr, OnOk, flat_map, length, map, max};
ghost use Rattle.std.specs.Option.{option_copied};
ghost use Rattle.ospf_journal.specs.Changes.{LeadsAlong, copy_changes, copy_in, drop_change, flush_change, gone_change, iface_change, iface_on, iface_place, ifaces_changes, is_same_iface, issue_change, leave_changes, link_changes, links_changes, own_as, own_changes, route_change, run_change, runs_with, seen_as, seen_on, seen_state, standing_change, state_change, state_place, was_flushed};

use crate::change::{DroppedAt, RouterChange};
use crate::seen::{SeenCopy, SeenIface, SeenLink, SeenNeighbour, SeenOwn};
use ospf_base::{Addr, Instance, LsaKey, RouterId};
use ospf_neighbour::NeighbourState;
use ospf_neighbour::iface::IfaceState;
use ospf_spf::{self as spf, RouteTable};
use std::alloc::{AllocError, Global};

/// The place of a state among those of a neighbour, in their order, from 0 (RFC 2328, section
/// 10.1).
pub fn state_place(state: NeighbourState) -> u8
    ensures { result ≡ state_place state }
{
    match state {
        NeighbourState::Down => 0,
        NeighbourState::Init => 1,
        NeighbourState::TwoWay => 2,
        NeighbourState::ExStart => 3,
        NeighbourState::Exchange => 4,
        NeighbourState::Loading => 5,
        NeighbourState::Full => 6,
    }
}

/// Adds that the router has started or stopped, if it has.
pub(crate) fn push_run(
    changes: &mut Vec<RouterChange>,
    before: &[SeenLink],
    now: &[SeenLink],
) -> Result<(), AllocError>
    ensures { OnOk result (changes.new.items ≡ changes.old.items ++ run_change before.now now.now) }
{
    match (runs(before), runs(now)) {
        (false, true) => changes.push(RouterChange::Started)?,
        (true, false) => changes.push(RouterChange::Stopped)?,
        _ => {}
    }
    Ok(())
}

// Whether a router of these links runs: of one that does not none is seen.
fn runs(links: &[SeenLink]) -> bool
    ensures { result ≡ runs_with links.now }
{
    !links.is_empty()
}

/// Adds the datagram that was dropped, if one was.
pub(crate) fn push_drop(
    changes: &mut Vec<RouterChange>,
    dropped: Option<DroppedAt>,
) -> Result<(), AllocError>
    ensures { OnOk result (changes.new.items ≡ changes.old.items ++ drop_change dropped) }
{
    if let Some(dropped) = dropped {
        changes.push(RouterChange::Dropped(dropped))?;
    }
    Ok(())
}

/// Adds the neighbours of all links whose state is another one.
pub(crate) fn push_neighbours(
    changes: &mut Vec<RouterChange>,
    before: &[SeenLink],
    now: &[SeenLink],
) -> Result<(), AllocError>
    ensures { OnOk result (changes.new.items ≡ changes.old.items
        ++ links_changes before.now now.now (max (length before.now) (length now.now))) }
{
    for link in 0..before.len().max(now.len()) {
        push_of_link(changes, link, seen_on(before, link), seen_on(now, link))?;
    }
    Ok(())
}

/// Adds the interfaces of all links that are others.
pub(crate) fn push_ifaces(
    changes: &mut Vec<RouterChange>,
    before: &[SeenLink],
    now: &[SeenLink],
) -> Result<(), AllocError>
    ensures { OnOk result (changes.new.items ≡ changes.old.items
        ++ ifaces_changes before.now now.now (max (length before.now) (length now.now))) }
{
    for link in 0..before.len().max(now.len()) {
        push_iface(changes, link, iface_on(before, link), iface_on(now, link))?;
    }
    Ok(())
}

/// Adds the own LSAs that were issued.
pub(crate) fn push_issues(
    changes: &mut Vec<RouterChange>,
    issued: &[Instance],
) -> Result<(), AllocError>
    ensures { OnOk result (changes.new.items ≡ changes.old.items ++ map issue_change issued.now) }
{
    for instance in issued {
        let Instance { key, number, .. } = *instance;
        changes.push(RouterChange::Issued { key, number })?;
    }
    Ok(())
}

/// Adds what became of the database's copies of the router's own LSAs.
pub(crate) fn push_own(
    changes: &mut Vec<RouterChange>,
    before: &[SeenOwn],
    now: &[SeenOwn],
) -> Result<(), AllocError>
    ensures { OnOk result (changes.new.items ≡ changes.old.items
        ++ own_changes before.now now.now) }
{
    for own in now {
        let was = copy_in(own_as(before, &own.key));
        push_copy(changes, own.key, was, own.copy)?;
    }
    Ok(())
}

/// Makes the one table of the other, and adds the changes that lead there.
///
/// `AllocError` where memory runs out; then the table is as before.
pub(crate) fn lead(
    table: &mut RouteTable,
    to: &RouteTable,
    changes: &mut Vec<RouterChange>,
    alloc: Global,
) -> Result<(), AllocError>
    ensures along { OnOk result (LeadsAlong table.old to.now changes.old.items changes.new.items) }
    ensures table { OnOk result (table.new ≡ to.now) }
    ensures err { OnErr result (table.new ≡ table.old) }
{
    let routes = table.changes(alloc, to)?;
    push_routes(changes, &routes, alloc)?;
    edit(table, &routes, alloc)?;
    Ok(())
}

// Adds the changes of a table.
fn push_routes(
    changes: &mut Vec<RouterChange>,
    routes: &[spf::Change],
    alloc: Global,
) -> Result<(), AllocError>
    ensures { OnOk result (changes.new.items ≡ changes.old.items ++ map route_change routes.now) }
{
    for route in routes {
        changes.push(route_change(route, alloc)?)?;
    }
    Ok(())
}

// Makes changes of a table, if there are any.
#[tactic(auto, unfolding(ospf_spf::specs::Changes::edited))]
fn edit(table: &mut RouteTable, routes: &[spf::Change], alloc: Global) -> Result<(), AllocError>
    requires in_order { AllPairs IsChangeBefore routes.now }
    requires have_hops { All PutsHops routes.now }
    ensures done { OnOk result (table.new ≡ edited table.old routes.now) }
    ensures err { OnErr result (table.new ≡ table.old) }
{
    if routes.is_empty() {
        return Ok(());
    }
    table.edit(alloc, routes)
}

// Adds the neighbours of a link whose state is another one.
fn push_of_link(
    changes: &mut Vec<RouterChange>,
    link: usize,
    before: &[SeenNeighbour],
    now: &[SeenNeighbour],
) -> Result<(), AllocError>
    ensures { OnOk result (changes.new.items ≡ changes.old.items
        ++ link_changes link before.now now.now) }
{
    push_standing(changes, link, before, now)?;
    push_gone(changes, link, now, before)
}

// Adds those that are there.
fn push_standing(
    changes: &mut Vec<RouterChange>,
    link: usize,
    before: &[SeenNeighbour],
    now: &[SeenNeighbour],
) -> Result<(), AllocError>
    ensures { OnOk result (changes.new.items ≡ changes.old.items
        ++ flat_map (standing_change link before.now) now.now) }
{
    for neighbour in now {
        let was = seen_state(seen_as(before, neighbour.router));
        push_state(changes, link, neighbour.router, was, neighbour.state)?;
    }
    Ok(())
}

// Adds those that are gone.
fn push_gone(
    changes: &mut Vec<RouterChange>,
    link: usize,
    now: &[SeenNeighbour],
    before: &[SeenNeighbour],
) -> Result<(), AllocError>
    ensures { OnOk result (changes.new.items ≡ changes.old.items
        ++ flat_map (gone_change link now.now) before.now) }
{
    for neighbour in before {
        push_gone_one(changes, link, now, neighbour)?;
    }
    Ok(())
}

// Adds one that is gone.
fn push_gone_one(
    changes: &mut Vec<RouterChange>,
    link: usize,
    now: &[SeenNeighbour],
    neighbour: &SeenNeighbour,
) -> Result<(), AllocError>
    ensures { OnOk result (changes.new.items ≡ changes.old.items
        ++ gone_change link now.now neighbour.now) }
{
    if seen_as(now, neighbour.router).is_some() {
        return Ok(());
    }
    let down = NeighbourState::Down;
    push_state(changes, link, neighbour.router, neighbour.state, down)
}

// Adds a state that is another one.
fn push_state(
    changes: &mut Vec<RouterChange>,
    link: usize,
    router: RouterId,
    before: NeighbourState,
    now: NeighbourState,
) -> Result<(), AllocError>
    ensures { OnOk result (changes.new.items ≡ changes.old.items
        ++ state_change link router before now) }
{
    if state_place(before) != state_place(now) {
        changes.push(RouterChange::Neighbour {
            link,
            router,
            before,
            now,
        })?;
    }
    Ok(())
}

// The neighbours of a link; none where there is no link.
fn seen_on(links: &[SeenLink], link: usize) -> &[SeenNeighbour]
    ensures { result.now ≡ seen_on links.now link }
{
    match links.get(link) {
        Some(link) => &link.neighbours,
        None => &[],
    }
}

// The neighbour of a Router ID.
fn seen_as(neighbours: &[SeenNeighbour], router: RouterId) -> Option<&SeenNeighbour>
    ensures { option_copied result ≡ seen_as neighbours.now router }
{
    neighbours.iter().find(|n| n.router.0 == router.0)
}

// Its state.
fn seen_state(neighbour: Option<&SeenNeighbour>) -> NeighbourState
    ensures { result ≡ seen_state (option_copied neighbour.entry) }
{
    match neighbour {
        Some(neighbour) => neighbour.state,
        None => NeighbourState::Down,
    }
}

// Adds an interface that is another one.
fn push_iface(
    changes: &mut Vec<RouterChange>,
    link: usize,
    before: SeenIface,
    now: SeenIface,
) -> Result<(), AllocError>
    ensures { OnOk result (changes.new.items ≡ changes.old.items ++ iface_change link before now) }
{
    if !is_same_iface(before, now) {
        changes.push(RouterChange::Interface {
            link,
            before: before.state,
            now,
        })?;
    }
    Ok(())
}

// Whether an interface is as before.
fn is_same_iface(before: SeenIface, now: SeenIface) -> bool
    ensures { result ≡ is_same_iface before now }
{
    iface_place(before.state) == iface_place(now.state)
        && before.dr.0 == now.dr.0
        && before.backup.0 == now.backup.0
}

// The place of a state among the states of an interface.
fn iface_place(state: IfaceState) -> u8
    ensures { result ≡ iface_place state }
{
    match state {
        IfaceState::Down => 0,
        IfaceState::Waiting => 1,
        IfaceState::PointToPoint => 2,
        IfaceState::DrOther => 3,
        IfaceState::Backup => 4,
        IfaceState::Dr => 5,
    }
}

// The interface of a link; one that is down where there is no link.
fn iface_on(links: &[SeenLink], link: usize) -> SeenIface
    ensures { result ≡ iface_on links.now link }
{
    match links.get(link) {
        Some(link) => link.iface,
        None => SeenIface {
            state: IfaceState::Down,
            dr: Addr::NOWHERE,
            backup: Addr::NOWHERE,
        },
    }
}

// What was seen of the own LSA of a key.
fn own_as<'a>(own: &'a [SeenOwn], key: &LsaKey) -> Option<&'a SeenOwn>
    ensures { option_copied result ≡ own_as own.now key.now }
{
    own.iter().find(|o| o.key.is_same(key))
}

// The copy of an LSA of which this was seen.
fn copy_in(own: Option<&SeenOwn>) -> Option<SeenCopy>
    ensures { result ≡ copy_in (option_copied own.entry) }
{
    match own {
        Some(own) => own.copy,
        None => None,
    }
}

// Adds what became of the database's copy of an own LSA.
fn push_copy(
    changes: &mut Vec<RouterChange>,
    key: LsaKey,
    before: Option<SeenCopy>,
    now: Option<SeenCopy>,
) -> Result<(), AllocError>
    ensures { OnOk result (changes.new.items ≡ changes.old.items ++ copy_changes key before now) }
{
    match now {
        Some(copy) => push_flush(changes, key, before, copy),
        None => push_leaving(changes, key, before),
    }
}

// Adds that a copy came to `MAX_AGE`, if it did.
fn push_flush(
    changes: &mut Vec<RouterChange>,
    key: LsaKey,
    before: Option<SeenCopy>,
    copy: SeenCopy,
) -> Result<(), AllocError>
    ensures { OnOk result (changes.new.items ≡ changes.old.items ++ flush_change key before copy) }
{
    let number = copy.number;
    if copy.is_flushed && !was_flushed(before, number) {
        changes.push(RouterChange::Flushed { key, number })?;
    }
    Ok(())
}

// Adds that a copy left the database, if there was one.
fn push_leaving(
    changes: &mut Vec<RouterChange>,
    key: LsaKey,
    before: Option<SeenCopy>,
) -> Result<(), AllocError>
    ensures { OnOk result (changes.new.items ≡ changes.old.items ++ leave_changes key before) }
{
    let Some(copy) = before else {
        return Ok(());
    };
    let number = copy.number;
    if !copy.is_flushed {
        changes.push(RouterChange::Flushed { key, number })?;
    }
    changes.push(RouterChange::Removed { key })?;
    Ok(())
}

// Whether the database had this number of an LSA at `MAX_AGE`.
fn was_flushed(before: Option<SeenCopy>, number: i32) -> bool
    ensures { result ≡ was_flushed before number }
{
    match before {
        Some(copy) => copy.is_flushed && copy.number == number,
        None => false,
    }
}

// A change of a table, as a journal reports it.
fn route_change(change: &spf::Change, alloc: Global) -> Result<RouterChange, AllocError>
    ensures { IfOk result (λ told. told ≡ route_change change.now) }
{
    match change {
        spf::Change::Put(route) => Ok(RouterChange::Route(route.copy(alloc)?)),
        spf::Change::Gone(prefix) => Ok(RouterChange::NoRoute(*prefix)),
    }
}
