//! The parts that an area falls into.

ghost use Rattle.std.specs.Prelude.{◌≡◌, ◌++◌, ℕ, Bool, IfOk, OnOk, Some, None, cond};
ghost use Rattle.std.specs.Option.{option_or, option_to_list};
ghost use Rattle.std.specs.List.{filter_map};
ghost use Rattle.ospf_plan.specs.Ends.{AreFirsts, end_in, others};
ghost use Rattle.ospf_plan.specs.Joins.{set_has};
ghost use Rattle.ospf_plan.specs.Parts.{AreFirstLinks, AreReached, LinkKey, adjacent_ends, apart, apart_in, can_be_adjacent, first_of_all, is_apart, join_at, joins_of, kind_number, link_of, linked_in, same_link};
ghost use Rattle.ospf_plan.specs.declared.ends.LinkEnd.{LinkEnd};
ghost use Rattle.ospf_plan.specs.declared.joins.Join.{Join};

use crate::ends::{LinkEnd, electors};
use crate::fault::AreaFault;
use crate::finding::{Finding, push_one};
use crate::index::{Network, end_in, network_of};
use crate::joins::{Join, joined_with};
use ospf_base::InterfaceKind;
use std::alloc::{AllocError, Global};
use std::collections::{BTreeMap, BTreeSet};

// Adds the files that are not reached from the first.
pub(crate) fn push_apart(
    alloc: Global,
    findings: &mut Vec<Finding>,
    ends: &[LinkEnd],
    thirds: &BTreeMap<Network, LinkEnd>,
) -> Result<(), AllocError>
    requires { AreFirsts thirds.now (others (others ends.now)) }
    ensures { OnOk result ((reached : ℕ → Bool) × AreReached ends.now reached
        × (findings.new.items ≡ findings.old.items ++ apart_in reached ends.now)) }
{
    let reached = reached_of(alloc, ends, thirds)?;
    push_each(findings, &reached, first_of_all(ends), ends)
}

// What the interfaces of a link have in common: their network, area, kind, intervals and MTU.
type SharedSettings = (u8, u32, u32, u8, u16, u16, u16);

// The files that are reached from the first, over interfaces that can become adjacent.
fn reached_of(
    alloc: Global,
    ends: &[LinkEnd],
    thirds: &BTreeMap<Network, LinkEnd>,
) -> Result<BTreeSet<usize>, AllocError>
    requires { AreFirsts thirds.now (others (others ends.now)) }
    ensures { IfOk result (λ reached. AreReached ends.now (set_has reached)) }
{
    let some = adjacent_ends(alloc, ends, thirds)?;
    let joins = joins_of(alloc, &some)?;
    joined_with(alloc, 0, &joins)
}

// The interfaces that can become adjacent, by the third end of each network.
fn adjacent_ends(
    alloc: Global,
    ends: &[LinkEnd],
    thirds: &BTreeMap<Network, LinkEnd>,
) -> Result<Vec<LinkEnd>, AllocError>
    requires { AreFirsts thirds.now (others (others ends.now)) }
    ensures { IfOk result (λ some. some.items ≡ adjacent_ends ends.now) }
{
    let led = links_of(alloc, &electors(alloc, ends)?)?;
    let mut some = Vec::from_slice(alloc, ends)?;
    some.retain(|end| can_be_adjacent(thirds, &led, end));
    Ok(some)
}

// Whether an interface can become adjacent with the others of its link: a point-to-point network
// has no third end, and of a broadcast link one can be elected.
fn can_be_adjacent(
    thirds: &BTreeMap<Network, LinkEnd>,
    led: &BTreeMap<SharedSettings, LinkEnd>,
    end: &LinkEnd,
) -> bool
    ensures { result ≡ can_be_adjacent (end_in thirds.now) (linked_in led.now) end.now }
{
    match end.kind {
        InterfaceKind::PointToPoint => end_in(thirds, network_of(&end.address)).is_none(),
        InterfaceKind::Broadcast => led.contains_key(&link_of(end)),
    }
}

// The joins of all interfaces.
fn joins_of(alloc: Global, ends: &[LinkEnd]) -> Result<Vec<Join>, AllocError>
    ensures { IfOk result (λ joins. joins.items ≡ joins_of ends.now) }
{
    let links = links_of(alloc, ends)?;
    let mut joins = Vec::new(alloc);
    push_joins(&mut joins, &links, ends)?;
    Ok(joins)
}

// The first interface of each link.
fn links_of(
    alloc: Global,
    ends: &[LinkEnd],
) -> Result<BTreeMap<SharedSettings, LinkEnd>, AllocError>
    ensures { IfOk result (λ links. AreFirstLinks links ends.now) }
{
    let mut links = BTreeMap::new(alloc);
    for end in ends {
        add_linked(&mut links, link_of(end), *end)?;
    }
    Ok(links)
}

// Keeps an interface as the first of a link, unless there is one.
fn add_linked(
    links: &mut BTreeMap<SharedSettings, LinkEnd>,
    link: SharedSettings,
    end: LinkEnd,
) -> Result<(), AllocError>
    ensures { OnOk result ((k : LinkKey) →
        linked_in links.new k ≡ option_or (linked_in links.old k)
        (cond (same_link link k) (Some end) None)) }
{
    if links.contains_key(&link) {
        return Ok(());
    }
    match links.insert(link, end) {
        Ok(_) => Ok(()),
        Err(_) => Err(AllocError),
    }
}

// What an interface has in common with the others of its link.
fn link_of(end: &LinkEnd) -> SharedSettings
    ensures { result ≡ link_of end.now }
{
    let (length, network) = network_of(&end.address);
    let kind = kind_number(end.kind);
    (
        length, network, end.area.0, kind, end.hello, end.dead, end.mtu,
    )
}

// A number of a kind, for keys.
fn kind_number(kind: InterfaceKind) -> u8
    ensures { result ≡ kind_number kind }
{
    match kind {
        InterfaceKind::PointToPoint => 0,
        InterfaceKind::Broadcast => 1,
    }
}

// Adds the joins of some interfaces.
fn push_joins(
    joins: &mut Vec<Join>,
    links: &BTreeMap<SharedSettings, LinkEnd>,
    ends: &[LinkEnd],
) -> Result<(), AllocError>
    ensures { OnOk result (joins.new.items ≡ joins.old.items
        ++ filter_map (join_at (linked_in links.now)) ends.now) }
{
    for end in ends {
        push_join(joins, join_at(links, end))?;
    }
    Ok(())
}

// Adds a join, if there is one.
fn push_join(joins: &mut Vec<Join>, join: Option<Join>) -> Result<(), AllocError>
    ensures { OnOk result (joins.new.items ≡ joins.old.items ++ option_to_list join) }
{
    if let Some(join) = join {
        joins.push(join)?;
    }
    Ok(())
}

// The join of an interface's file with that of the first of its link.
fn join_at(links: &BTreeMap<SharedSettings, LinkEnd>, end: &LinkEnd) -> Option<Join>
    ensures { result ≡ join_at (linked_in links.now) end.now }
{
    let first = links.get(&link_of(end)).copied()?;
    Some(Join {
        one: first.file,
        other: end.file,
    })
}

// Adds those of some interfaces.
fn push_each(
    findings: &mut Vec<Finding>,
    reached: &BTreeSet<usize>,
    first: Option<LinkEnd>,
    ends: &[LinkEnd],
) -> Result<(), AllocError>
    ensures { OnOk result (findings.new.items ≡ findings.old.items
        ++ filter_map (apart (set_has reached.now) first) ends.now) }
{
    for end in ends {
        push_one(findings, apart(reached, first, end))?;
    }
    Ok(())
}

// The finding that it is.
fn apart(reached: &BTreeSet<usize>, first: Option<LinkEnd>, here: &LinkEnd) -> Option<Finding>
    ensures { result ≡ apart (set_has reached.now) first here.now }
{
    let other = first?;
    if !is_apart(reached, here) {
        return None;
    }
    let here = *here;
    let fault = AreaFault::Partitioned;
    Some(Finding { fault, other, here })
}

// Whether an interface is the first of a file that is not reached.
fn is_apart(reached: &BTreeSet<usize>, end: &LinkEnd) -> bool
    ensures { result ≡ is_apart (set_has reached.now) end.now }
{
    end.link == 0 && !reached.contains(&end.file)
}

// The first interface of all.
fn first_of_all(ends: &[LinkEnd]) -> Option<LinkEnd>
    ensures { result ≡ first_of_all ends.now }
{
    match ends.first() {
        None => None,
        Some(first) => Some(*first),
    }
}
