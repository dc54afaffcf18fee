//! The words after the names of commands.

ghost use Rattle.ospf_script.specs.Commands.{AreDatagramWords, AreNumbers, AreRoundWords, IsAddressAlone, IsLossWords, IsRouterAlone, IsRouterAndLink, IsSwitch, IsWhy, IsWhyHeadline};
ghost use Rattle.ospf_script.specs.Words.{Finds, line_words};

use crate::values::{address_of, number_of, percent_of, router_of};
use crate::words::{is_alone, one_word, three_words, two_words};
use ospf_base::{Addr, RouterId};

// A Router ID alone.
pub(crate) fn router_in(text: &[u8]) -> Option<RouterId>
    ensures { Finds result (IsRouterAlone (line_words text.now)) }
{
    router_of(one_word(text)?)
}

// An address alone.
pub(crate) fn address_in(text: &[u8]) -> Option<Addr>
    ensures { Finds result (IsAddressAlone (line_words text.now)) }
{
    address_of(one_word(text)?)
}

// A count, and how many datagrams at most, where that is given.
pub(crate) fn rounds_in(text: &[u8]) -> Option<(u64, Option<u64>)>
    ensures { Finds result (λ found. AreRoundWords (line_words text.now) found.0 found.1) }
{
    if let Some(count) = one_word(text) {
        return Some((number_of(count)?, None));
    }
    let (count, most) = numbers_in(text)?;
    Some((count, Some(most)))
}

// A Router ID and a link.
pub(crate) fn router_and_link_in(text: &[u8]) -> Option<(RouterId, usize)>
    ensures { Finds result (λ found. IsRouterAndLink (line_words text.now) found.0 found.1) }
{
    let (router, link) = two_words(text)?;
    Some((router_of(router)?, number_of(link)? as usize))
}

// Two numbers.
pub(crate) fn numbers_in(text: &[u8]) -> Option<(u64, u64)>
    ensures { Finds result (λ found. AreNumbers (line_words text.now) found.0 found.1) }
{
    let (number, count) = two_words(text)?;
    Some((number_of(number)?, number_of(count)?))
}

// A Router ID and a link, and a neighbour where one is given.
pub(crate) fn why_in(text: &[u8]) -> Option<(RouterId, usize, Option<RouterId>)>
    ensures { Finds result (λ found. IsWhy (line_words text.now) found.0 found.1 found.2) }
{
    if let Some((router, link)) = router_and_link_in(text) {
        return Some((router, link, None));
    }
    let (router, link, neighbour) = three_words(text)?;
    let router = router_of(router)?;
    let link = number_of(link)? as usize;
    Some((router, link, Some(router_of(neighbour)?)))
}

// The word `headline` and a Router ID.
pub(crate) fn why_headline_in(text: &[u8]) -> Option<RouterId>
    ensures { Finds result (IsWhyHeadline (line_words text.now)) }
{
    let (word, router) = two_words(text)?;
    if word != b"headline".as_slice() {
        return None;
    }
    router_of(router)
}

// A Router ID, and how many datagrams at most, where that is given.
pub(crate) fn datagrams_in(text: &[u8]) -> Option<(RouterId, Option<u64>)>
    ensures { Finds result (λ found. AreDatagramWords (line_words text.now) found.0 found.1) }
{
    if let Some(router) = one_word(text) {
        return Some((router_of(router)?, None));
    }
    let (router, most) = two_words(text)?;
    let router = router_of(router)?;
    Some((router, Some(number_of(most)?)))
}

// A percentage and a number, and an address where one is given.
pub(crate) fn loss_in(text: &[u8]) -> Option<(u8, u64, Option<Addr>)>
    ensures { Finds result (λ found. IsLossWords (line_words text.now) found.0 found.1 found.2) }
{
    if let Some((percent, number)) = two_words(text) {
        return Some((percent_of(percent)?, number_of(number)?, None));
    }
    let (percent, number, network) = three_words(text)?;
    let percent = percent_of(percent)?;
    Some((percent, number_of(number)?, Some(address_of(network)?)))
}

// Whether the only word is `on`, rather than `off`; `None` if it is neither.
pub(crate) fn switch_in(text: &[u8]) -> Option<bool>
    ensures { Finds result (IsSwitch (line_words text.now)) }
{
    if is_alone(text, "on") {
        return Some(true);
    }
    is_alone(text, "off").then_some(false)
}
