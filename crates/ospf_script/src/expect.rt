//! The words behind `expect`.

ghost use Rattle.std.specs.Prelude.{◌≡◌, ◌∷◌, ℕ, List, codes, IfErr, IfNone, IfOk, IfSome};
ghost use Rattle.ospf_base.specs.declared.ids.RouterId.{RouterId};
ghost use Rattle.ospf_base.specs.declared.prefix.Prefix.{Prefix};
ghost use Rattle.ospf_script.specs.Expected.{AreElected, BeginsLink, BeginsRoute, IsExpected, IsLongRoute, IsNeighbour, IsOfRoute, IsStateWord, SpellsArrival};
ghost use Rattle.ospf_script.specs.Words.{Finds, Text, line_words};
ghost use Rattle.ospf_script.specs.declared.expected.Expected.{Expected};

use crate::expected::{Expected, Wanted};
use crate::fault::CommandFault;
use crate::several::values_in;
use crate::shapes::router_in;
use crate::values::{address_of, number_of, prefix_of, router_of, text_of};
use crate::walk::ends_in;
use crate::words::{first_word, is_alone, one_word, three_words, two_words};
use ospf_base::{Addr, Prefix, RouterId};
use ospf_neighbour::NeighbourState;
use std::alloc::Global;

// What the words of a text expect. `Memory` is returned only if they spell a route with next
// hops.
pub(crate) fn expected_in(alloc: Global, text: &[u8]) -> Result<Expected, CommandFault>
    ensures ok { IfOk result (IsExpected (line_words text.now)) }
    ensures not_expected { IfErr result (λ e. e ≡ CommandFault.NotACommand → (expected : Expected) →
        IsExpected (line_words text.now) expected → ⊥) }
    ensures memory { IfErr result (λ e. e ≡ CommandFault.Memory →
        IsLongRoute (line_words text.now)) }
{
    match first_word(text) {
        Some((word, rest)) if word == b"route".as_slice() => route_in(alloc, rest),
        _ => plain_in(text).ok_or(CommandFault::NotACommand),
    }
}

// What the words of a text expect that is no route of a router.
fn plain_in(text: &[u8]) -> Option<Expected>
    ensures some { IfSome result (IsExpected (line_words text.now)) }
    ensures none { IfNone result ((expected : Expected) →
        IsExpected (line_words text.now) expected →
        IsOfRoute (line_words text.now)) }
{
    if is_alone(text, "agree") {
        return Some(Expected::Agree);
    }
    if is_alone(text, "settled") {
        return Some(Expected::Settled);
    }
    let (word, rest) = first_word(text)?;
    match text_of(word)? {
        "full" => full_in(rest),
        "neighbour" | "neighbor" => neighbour_in(rest),
        "dr" => dr_in(rest),
        "no" => absent_in(rest),
        "walk" => arrival_in(rest),
        "headline" => headline_in(rest),
        _ => None,
    }
}

// What `full` and the words after it expect.
fn full_in(text: &[u8]) -> Option<Expected>
    ensures { Finds result (IsExpected (codes "full" ∷ line_words text.now)) }
{
    let (router, other) = two_words(text)?;
    let (router, other) = (router_of(router)?, router_of(other)?);
    let state = NeighbourState::Full;
    let wanted = Wanted::Neighbour { other, state };
    Some(Expected::Router { router, wanted })
}

// What `neighbour`, in either spelling, and the words after it expect.
fn neighbour_in(text: &[u8]) -> Option<Expected>
    ensures some { IfSome result (λ expected. (word : Text) → IsNeighbour word →
        IsExpected (word ∷ line_words text.now) expected) }
    ensures none { IfNone result ((word : Text) (expected : Expected) → IsNeighbour word →
        IsExpected (word ∷ line_words text.now) expected → ⊥) }
{
    let (router, other, state) = three_words(text)?;
    let (router, other) = (router_of(router)?, router_of(other)?);
    let state = state_of(state)?;
    let wanted = Wanted::Neighbour { other, state };
    Some(Expected::Router { router, wanted })
}

// The state of a neighbour that a word is.
fn state_of(word: &[u8]) -> Option<NeighbourState>
    ensures { Finds result (IsStateWord word.now) }
{
    let state = match text_of(word)? {
        "Down" => NeighbourState::Down,
        "Init" => NeighbourState::Init,
        "2-Way" => NeighbourState::TwoWay,
        "ExStart" => NeighbourState::ExStart,
        "Exchange" => NeighbourState::Exchange,
        "Loading" => NeighbourState::Loading,
        "Full" => NeighbourState::Full,
        _ => return None,
    };
    Some(state)
}

// What `dr` and the words after it expect.
fn dr_in(text: &[u8]) -> Option<Expected>
    ensures { Finds result (IsExpected (codes "dr" ∷ line_words text.now)) }
{
    let (router, link, rest) = link_in(text)?;
    let (dr, backup) = elected_in(rest)?;
    let wanted = Wanted::Dr { link, dr, backup };
    Some(Expected::Router { router, wanted })
}

// A Router ID and a link, and the text after them.
fn link_in(text: &[u8]) -> Option<(RouterId, usize, &[u8])>
    ensures some { IfSome result (λ found. BeginsLink (line_words text.now) found.0 found.1
        (line_words found.2.now)) }
    ensures none { IfNone result ((router : RouterId) (link : ℕ) (rest : List Text) →
        BeginsLink (line_words text.now) router link rest → ⊥) }
{
    let (router, rest) = first_word(text)?;
    let (link, rest) = first_word(rest)?;
    Some((router_of(router)?, number_of(link)? as usize, rest))
}

// The address of a Designated Router, and of a Backup, where one is given.
fn elected_in(text: &[u8]) -> Option<(Addr, Option<Addr>)>
    ensures { Finds result (λ found. AreElected (line_words text.now) found.0 found.1) }
{
    if let Some(dr) = one_word(text) {
        return Some((address_of(dr)?, None));
    }
    let (dr, backup) = two_words(text)?;
    let dr = address_of(dr)?;
    Some((dr, Some(address_of(backup)?)))
}

// What `route` and the words after it expect.
fn route_in(alloc: Global, text: &[u8]) -> Result<Expected, CommandFault>
    ensures ok { IfOk result (IsExpected (codes "route" ∷ line_words text.now)) }
    ensures not_expected { IfErr result (λ e. e ≡ CommandFault.NotACommand → (expected : Expected) →
        IsExpected (codes "route" ∷ line_words text.now) expected → ⊥) }
    ensures memory { IfErr result (λ e. e ≡ CommandFault.Memory →
        IsLongRoute (codes "route" ∷ line_words text.now)) }
{
    let (router, prefix, cost, rest) = cost_of_route_in(text).ok_or(CommandFault::NotACommand)?;
    let hops = values_in(alloc, rest)?;
    let wanted = Wanted::Route { prefix, cost, hops };
    Ok(Expected::Router { router, wanted })
}

// A Router ID, a prefix and a cost, and the text after them.
fn cost_of_route_in(text: &[u8]) -> Option<(RouterId, Prefix, u64, &[u8])>
    ensures some { IfSome result (λ found. BeginsRoute (line_words text.now) found.0 found.1 found.2
        (line_words found.3.now)) }
    ensures none { IfNone result ((router : RouterId) (prefix : Prefix) (cost : ℕ)
        (rest : List Text) → BeginsRoute (line_words text.now) router prefix cost rest → ⊥) }
{
    let (router, rest) = first_word(text)?;
    let (prefix, rest) = first_word(rest)?;
    let (cost, rest) = first_word(rest)?;
    let (router, prefix) = (router_of(router)?, prefix_of(prefix)?);
    Some((router, prefix, number_of(cost)?, rest))
}

// What `no` and the words after it expect.
fn absent_in(text: &[u8]) -> Option<Expected>
    ensures { Finds result (IsExpected (codes "no" ∷ line_words text.now)) }
{
    let (word, router, other) = three_words(text)?;
    let router = router_of(router)?;
    if word == b"route".as_slice() {
        let prefix = prefix_of(other)?;
        let wanted = Wanted::NoRoute { prefix };
        return Some(Expected::Router { router, wanted });
    }
    if word != b"neighbour".as_slice() && word != b"neighbor".as_slice() {
        return None;
    }
    let link = number_of(other)? as usize;
    let wanted = Wanted::NoNeighbour { link };
    Some(Expected::Router { router, wanted })
}

// What `walk` and the words after it expect.
fn arrival_in(text: &[u8]) -> Option<Expected>
    ensures { Finds result (IsExpected (codes "walk" ∷ line_words text.now)) }
{
    let (from, address, rest) = ends_in(text)?;
    let cost = cost_in(rest)?;
    Some(Expected::Walk {
        from,
        address,
        cost,
    })
}

// What `headline` and the words after it expect.
fn headline_in(text: &[u8]) -> Option<Expected>
    ensures { Finds result (IsExpected (codes "headline" ∷ line_words text.now)) }
{
    let Some((_word, _rest)) = first_word(text) else {
        return Some(Expected::Headline { router: None });
    };
    let router = Some(router_in(text)?);
    Some(Expected::Headline { router })
}

// The word `arrived`, and a cost where one is given.
fn cost_in(text: &[u8]) -> Option<Option<u64>>
    ensures { Finds result (SpellsArrival (line_words text.now)) }
{
    if is_alone(text, "arrived") {
        return Some(None);
    }
    let (word, cost) = two_words(text)?;
    if word != b"arrived".as_slice() {
        return None;
    }
    Some(Some(number_of(cost)?))
}
