//! Whether anything is due of the router's own LSAs, found without building any of them.

ghost use Rattle.std.specs.Prelude.{◌≡◌, ◌&&◌, ◌||◌, ◌↔◌, IsTrue, [], is_some, not, option_copied};
ghost use Rattle.std.specs.List.{list_all, list_any};
ghost use Rattle.ospf_base.specs.Keys.{same_key};
ghost use Rattle.ospf_base.specs.Sums.{contents};
ghost use Rattle.ospf_base.specs.declared.ids.LsaKey.{LsaKey};
ghost use Rattle.ospf_area.specs.State.{kept_number};
ghost use Rattle.ospf_originate.specs.Actions.{is_due, next_action};
ghost use Rattle.ospf_originate.specs.Idle.{IsIdle, is_left, is_quiet, key_left, none_heard, network_left, own_router, unwanted_left, wanted_left};
ghost use Rattle.ospf_originate.specs.Numbers.{waits};
ghost use Rattle.ospf_originate.specs.Sound.{IsSound};
ghost use Rattle.ospf_originate.specs.Steps.{wants};
ghost use Rattle.ospf_originate.specs.Wants.Made.{says};
ghost use Rattle.ospf_originate.specs.Wants.Wanted.{is_dr_of, network_of, wanted_key, wanted_of};
ghost use Rattle.ospf_originate.specs.Wants.Wanted.WantedValue.{RouterLsa};

use crate::action::{OwnAction, is_fresh, next_action};
use crate::contents::{is_dr_of, says_network, says_router};
use crate::numbers::{kept_number, waits};
use ospf_area::{Area, AreaLink, Numbering, is_own};
use ospf_base::{Kind, LsaKey, RouterId};
use ospf_lsa::LsaView;
use ospf_lsdb::{EntryView, LS_REFRESH_TIME};

/// Whether no self-originated LSA was heard in this step, and nothing is due of any key
/// (RFC 2328, sections 12.4, 13.4 and 14.1). What is wanted is compared with its copies
/// as they are: nothing is built.
pub(crate) fn is_idle(area: &Area) -> bool
    requires { IsSound area.now }
    ensures { IsTrue result ↔ IsIdle area.now }
{
    is_quiet(area)
}

// Whether nothing is due of the keys that are wanted or numbered, and none was heard.
#[tactic(auto, unfolding(crate::specs::Idle::is_quiet))]
fn is_quiet(area: &Area) -> bool
    ensures { result ≡ is_quiet area.now }
{
    none_heard(&area.heard)
        && router_is_left(area)
        && networks_are_left(area, &area.links)
        && numbered_are_left(area, &area.numbering)
}

#[tactic(auto, unfolding(crate::specs::Idle::none_heard))]
fn none_heard(heard: &[LsaKey]) -> bool
    ensures { result ≡ none_heard heard.now }
{
    matches!(heard, [])
}

// Whether nothing is due of the router-LSA.
fn router_is_left(area: &Area) -> bool
    ensures { result ≡ wanted_left area.now (own_router area.now) }
{
    let key = router_key(area.router);
    let copy = area.database.get(&key);
    let due = router_is_due(area, copy.as_ref());
    stays(area, &key, copy, due)
}

// The key of the router-LSA.
fn router_key(router: RouterId) -> LsaKey
    ensures { result ≡ wanted_key (RouterLsa router []) }
{
    LsaKey::of_router(router)
}

// Whether the router-LSA is due.
fn router_is_due(area: &Area, copy: Option<&EntryView<'_>>) -> bool
    ensures { result ≡ is_due (own_router area.now) (option_copied copy.entry) }
{
    match copy {
        Some(copy) => {
            let old = LS_REFRESH_TIME <= copy.age().ticks();
            old || !says_own_router(&copy.lsa(), area)
        }
        None => true,
    }
}

// Whether a copy is the router-LSA that is wanted, number and checksum aside.
fn says_own_router(copy: &LsaView<'_>, area: &Area) -> bool
    ensures { result ≡ says (contents copy.now) (own_router area.now) }
{
    says_router(
        copy,
        area.stub_router,
        area.router,
        &area.links,
        &area.stubs,
    )
}

// Whether a wanted LSA is left as it is, given whether it is due.
fn stays(area: &Area, key: &LsaKey, copy: Option<EntryView<'_>>, due: bool) -> bool
    ensures { result ≡ ((waits area.now.tick area.now.numbering key.now || not due)
        || is_left (next_action copy.entry (kept_number area.now key.now))) }
{
    let waiting = waits(&area.numbering, key, area.tick);
    let kept = kept_number(&area.numbering, area.floor, key);
    let left = is_left(next_action(copy, kept));
    waiting || !due || left
}

fn is_left(action: OwnAction) -> bool
    ensures { result ≡ is_left action }
{
    matches!(action, OwnAction::Leave)
}

// Whether nothing is due of the network-LSAs of links.
fn networks_are_left(area: &Area, links: &[AreaLink]) -> bool
    ensures { result ≡ list_all (network_left area.now) links.now }
{
    links.iter().all(|link| network_is_left(area, link))
}

// Whether nothing is due of the network-LSA of a link, if one is wanted.
fn network_is_left(area: &Area, link: &AreaLink) -> bool
    ensures { result ≡ network_left area.now link.now }
{
    !is_dr_of(link) || network_stays(area, link)
}

// Whether nothing is due of the network-LSA of a link of which the router is the Designated Router.
fn network_stays(area: &Area, link: &AreaLink) -> bool
    ensures { result ≡ wanted_left area.now (network_of area.now.router link.now) }
{
    let key = network_key(area.router, link);
    let copy = area.database.get(&key);
    let due = network_is_due(area.router, link, copy.as_ref());
    stays(area, &key, copy, due)
}

// The key of the network-LSA of a link.
#[tactic(auto, unfolding(crate::specs::Wants::Wanted::network_of))]
fn network_key(router: RouterId, link: &AreaLink) -> LsaKey
    ensures { result ≡ wanted_key (network_of router link.now) }
{
    LsaKey {
        kind: Kind::Network,
        id: link.iface.settings.address.0,
        router,
    }
}

// Whether the network-LSA of a link is due.
#[tactic(auto, unfolding(crate::specs::Wants::Wanted::network_of))]
fn network_is_due(router: RouterId, link: &AreaLink, copy: Option<&EntryView<'_>>) -> bool
    ensures { result ≡ is_due (network_of router link.now) (option_copied copy.entry) }
{
    match copy {
        Some(copy) => {
            let old = LS_REFRESH_TIME <= copy.age().ticks();
            old || !says_network(&copy.lsa(), router, link)
        }
        None => true,
    }
}

// Whether nothing is due of keys that are numbered, unless they are wanted.
fn numbered_are_left(area: &Area, numbering: &[Numbering]) -> bool
    ensures { result ≡ list_all (λ n. key_left area.now n.key) numbering.now }
{
    numbering.iter().all(|n| key_is_left(area, &n.key))
}

// Whether nothing is due of a key, unless it is wanted: this is asked first, since it
// needs no search in the database.
#[tactic(auto, unfolding(crate::specs::Idle::key_left), using(crate::proofs::IdleLemmas::either))]
fn key_is_left(area: &Area, key: &LsaKey) -> bool
    ensures { result ≡ key_left area.now key.now }
{
    is_wanted(area, key) || unwanted_is_left(area, key)
}

// Whether an LSA of a key is wanted.
fn is_wanted(area: &Area, key: &LsaKey) -> bool
    ensures { result ≡ is_some (wanted_of (wants area.now) key.now) }
{
    router_key(area.router).is_same(key) || some_network(area.router, &area.links, key)
}

// Whether a key is that of the network-LSA of one of these links.
fn some_network(router: RouterId, links: &[AreaLink], key: &LsaKey) -> bool
    ensures { result ≡ list_any
        (λ link. is_dr_of link && same_key (wanted_key (network_of router link)) key.now)
        links.now }
{
    links.iter().any(|link| wants_network(router, link, key))
}

// Whether a key is that of a link's network-LSA, and this is wanted.
fn wants_network(router: RouterId, link: &AreaLink, key: &LsaKey) -> bool
    ensures { result ≡ (is_dr_of link.now
        && same_key (wanted_key (network_of router link.now)) key.now) }
{
    is_dr_of(link) && network_key(router, link).is_same(key)
}

// Whether nothing is due of a key of which none is wanted.
#[tactic(auto, unfolding(crate::specs::Idle::unwanted_left))]
fn unwanted_is_left(area: &Area, key: &LsaKey) -> bool
    ensures { result ≡ unwanted_left area.now key.now }
{
    match area.database.get(key) {
        Some(copy) => !is_own(area.router, key) || !is_fresh(&copy),
        None => true,
    }
}
