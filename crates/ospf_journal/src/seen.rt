//! What is kept of a router from step to step.

ghost use Rattle.std.specs.Prelude.{◌≡◌, IfOk, map, option_map};
ghost use Rattle.std.specs.Option.{option_copied};
ghost use Rattle.ospf_journal.specs.Seen.{seen_copy, seen_iface, seen_link, seen_links, seen_neighbour, seen_own, seen_owns};

use crate::change::RouterChange;
use crate::reported::Reported;
use crate::told::{lead, push_drop, push_ifaces, push_issues, push_neighbours, push_own, push_run};
use ospf_area::{Area, AreaLink, Numbering};
use ospf_base::{Addr, LsaKey, MAX_AGE, RouterId};
use ospf_lsdb::{EntryView, Lsdb};
use ospf_neighbour::iface::{Iface, IfaceState};
use ospf_neighbour::{Neighbour, NeighbourState};
use ospf_router::Router;
use ospf_spf::RouteTable;
use std::alloc::{AllocError, Global};
use std::marker::Model;

/// What is kept of a neighbour.
#[derive(Clone, Copy, Debug, PartialEq, Eq)]
pub struct SeenNeighbour {
    pub router: RouterId,
    pub state: NeighbourState,
}

/// What is kept of an interface. The Designated Router and the Backup are
/// addresses, 0.0.0.0 where there is none.
#[derive(Clone, Copy, Debug, PartialEq, Eq)]
pub struct SeenIface {
    pub state: IfaceState,
    pub dr: Addr,
    pub backup: Addr,
}

/// What is kept of the database's copy of an LSA of the router's own: its number, and whether it is
/// at `MAX_AGE`.
#[derive(Clone, Copy, Debug, PartialEq, Eq)]
pub struct SeenCopy {
    pub number: i32,
    pub is_flushed: bool,
}

/// What is kept of an LSA of the router's own: its copy in the database, if there is one.
#[derive(Clone, Copy, Debug, PartialEq, Eq)]
pub struct SeenOwn {
    pub key: LsaKey,
    pub copy: Option<SeenCopy>,
}

/// What is kept of a link.
#[derive(Drop)]
pub(crate) struct SeenLink {
    pub(crate) iface: SeenIface,
    pub(crate) neighbours: Vec<SeenNeighbour>,
}

impl Model for SeenLink {
    ghost use Rattle.ospf_journal.specs.Seen.{SeenLinkValue};

    ghost Value = { SeenLinkValue };

    ghost view = { λ l. record { iface = l.iface; neighbours = l.neighbours.items } };
}

/// What a journal keeps of a router.
#[derive(Drop)]
pub struct Seen {
    links: Vec<SeenLink>,
    own: Vec<SeenOwn>,
    table: RouteTable,
}

impl Model for Seen {
    ghost use Rattle.ospf_journal.specs.Seen.{SeenValue};

    ghost Value = { SeenValue };

    ghost view = { λ s. record { links = s.links.items; own = s.own.items; table = s.table } };
}

impl Seen {
    ghost use Rattle.std.specs.Prelude.{◌≡◌, IfOk, OnErr, OnOk};
    ghost use Rattle.ospf_journal.specs.Changes.{AreChanges};
    ghost use Rattle.ospf_journal.specs.Reports.{nothing_reported};
    ghost use Rattle.ospf_journal.specs.Seen.{nothing_seen, seen_of};

    /// Nothing is seen yet: the router does not run. No memory is taken.
    pub fn nothing(alloc: Global) -> Seen
        ensures { result ≡ nothing_seen }
    {
        Seen {
            links: Vec::new(alloc),
            own: Vec::new(alloc),
            table: RouteTable::empty(alloc),
        }
    }

    /// The router, as it is, with no word of what changed.
    ///
    /// `AllocError` where memory runs out.
    pub fn of(router: &Router, alloc: Global) -> Result<Seen, AllocError>
        ensures { IfOk result (λ seen. seen ≡ seen_of router.now) }
    {
        let links = links_in(router.area(), alloc)?;
        let own = own_in(router.area(), alloc)?;
        let table = router.table().copy(alloc)?;
        Ok(Seen { links, own, table })
    }

    /// What changed of the router by the step since it was seen, which reported this; it is seen as
    /// it is from now on.
    ///
    /// `AllocError` where memory runs out; then it is seen as before.
    pub fn follow(
        &mut self,
        router: &Router,
        reported: Reported,
        alloc: Global,
    ) -> Result<Vec<RouterChange>, AllocError>
        ensures changes { IfOk result (λ changes. AreChanges self.old (seen_of router.now) reported
            changes.items) }
        ensures seen { OnOk result (self.new ≡ seen_of router.now) }
        ensures err { OnErr result (self.new ≡ self.old) }
    {
        let links = links_in(router.area(), alloc)?;
        let own = own_in(router.area(), alloc)?;
        self.go_to(SeenState { links, own }, router.table(), reported, alloc)
    }

    /// What changed as the router stopped; nothing is seen of it from now on.
    ///
    /// `AllocError` where memory runs out; then it is seen as before.
    pub fn end(&mut self, alloc: Global) -> Result<Vec<RouterChange>, AllocError>
        ensures changes { IfOk result (λ changes. AreChanges self.old nothing_seen
            nothing_reported changes.items) }
        ensures seen { OnOk result (self.new ≡ nothing_seen) }
        ensures err { OnErr result (self.new ≡ self.old) }
    {
        let standing = SeenState {
            links: Vec::new(alloc),
            own: Vec::new(alloc),
        };
        let table = RouteTable::empty(alloc);
        self.go_to(standing, &table, Reported::nothing(alloc), alloc)
    }

    // What changes to these links, these own LSAs and this table, which are seen from now on.
    fn go_to(
        &mut self,
        standing: SeenState,
        table: &RouteTable,
        reported: Reported,
        alloc: Global,
    ) -> Result<Vec<RouterChange>, AllocError>
        ensures changes { IfOk result (λ changes. AreChanges self.old
            (record { links = standing.links.items; own = standing.own.items; table = table.now })
            reported changes.items) }
        ensures seen { OnOk result (self.new ≡ record {
          links = standing.links.items;
          own = standing.own.items;
          table = table.now;
        }) }
        ensures err { OnErr result (self.new ≡ self.old) }
    {
        let mut changes = Vec::new(alloc);
        push_run(&mut changes, &self.links, &standing.links)?;
        push_drop(&mut changes, reported.dropped)?;
        push_neighbours(&mut changes, &self.links, &standing.links)?;
        push_ifaces(&mut changes, &self.links, &standing.links)?;
        push_issues(&mut changes, &reported.issued)?;
        push_own(&mut changes, &self.own, &standing.own)?;
        lead(&mut self.table, table, &mut changes, alloc)?;
        let SeenState { links, own } = standing;
        self.links = links;
        self.own = own;
        Ok(changes)
    }
}

// All that is kept of a router but its table.
#[derive(Drop)]
struct SeenState {
    links: Vec<SeenLink>,
    own: Vec<SeenOwn>,
}

// What is kept of the links of a router that may have stopped.
fn links_in(area: Option<&Area>, alloc: Global) -> Result<Vec<SeenLink>, AllocError>
    ensures { IfOk result (λ links. links.items ≡ seen_links (option_copied area.entry)) }
{
    match area {
        Some(area) => links_of(&area.links, alloc),
        None => Ok(Vec::new(alloc)),
    }
}

// What is kept of links.
fn links_of(links: &[AreaLink], alloc: Global) -> Result<Vec<SeenLink>, AllocError>
    ensures { IfOk result (λ seen. seen.items ≡ map seen_link links.now) }
{
    let mut seen = Vec::with_capacity(alloc, links.len())?;
    for link in links {
        seen.push(link_of(link, alloc)?)?;
    }
    Ok(seen)
}

// What is kept of a link.
fn link_of(link: &AreaLink, alloc: Global) -> Result<SeenLink, AllocError>
    ensures { IfOk result (λ seen. seen ≡ seen_link link.now) }
{
    Ok(SeenLink {
        iface: iface_of(&link.iface),
        neighbours: neighbours_of(link.neighbours.all(), alloc)?,
    })
}

// What is kept of an interface.
fn iface_of(iface: &Iface) -> SeenIface
    ensures { result ≡ seen_iface iface.now }
{
    SeenIface {
        state: iface.state,
        dr: iface.dr,
        backup: iface.backup,
    }
}

// What is kept of neighbours.
fn neighbours_of(neighbours: &[Neighbour], alloc: Global) -> Result<Vec<SeenNeighbour>, AllocError>
    ensures { IfOk result (λ seen. seen.items ≡ map seen_neighbour neighbours.now) }
{
    let mut seen = Vec::new(alloc);
    for neighbour in neighbours {
        seen.push(neighbour_of(neighbour))?;
    }
    Ok(seen)
}

// What is kept of a neighbour.
fn neighbour_of(neighbour: &Neighbour) -> SeenNeighbour
    ensures { result ≡ seen_neighbour neighbour.now }
{
    SeenNeighbour {
        router: neighbour.router(),
        state: neighbour.state(),
    }
}

// What is kept of the own LSAs of a router that may have stopped.
fn own_in(area: Option<&Area>, alloc: Global) -> Result<Vec<SeenOwn>, AllocError>
    ensures { IfOk result (λ own. own.items ≡ seen_owns (option_copied area.entry)) }
{
    match area {
        Some(area) => own_of(&area.database, &area.numbering, alloc),
        None => Ok(Vec::new(alloc)),
    }
}

// What is kept of the LSAs that were numbered.
fn own_of(
    database: &Lsdb,
    numbering: &[Numbering],
    alloc: Global,
) -> Result<Vec<SeenOwn>, AllocError>
    ensures { IfOk result (λ own. own.items ≡ map (seen_own database.now) numbering.now) }
{
    let mut own = Vec::new(alloc);
    for numbered in numbering {
        own.push(own_at(database, numbered))?;
    }
    Ok(own)
}

// What is kept of an LSA that was numbered.
fn own_at(database: &Lsdb, numbered: &Numbering) -> SeenOwn
    ensures { result ≡ seen_own database.now numbered.now }
{
    SeenOwn {
        key: numbered.key,
        copy: copy_of(database.get(&numbered.key)),
    }
}

// What is kept of an entry, if there is one.
fn copy_of(entry: Option<EntryView<'_>>) -> Option<SeenCopy>
    ensures { result ≡ option_map seen_copy entry.entry }
{
    let entry = entry?;
    Some(SeenCopy {
        number: entry.header().number,
        is_flushed: entry.age().ticks() >= MAX_AGE,
    })
}
