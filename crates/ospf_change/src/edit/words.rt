//! Words that name changes of an area.

ghost use Rattle.std.specs.Prelude.{◌≡◌, ◌↔◌, ◌++◌, ◌∷◌, ℕ, [], IfErr, IfNone, IfOk, IfSome, IsTrue, decimal, map, string_bytes};
ghost use Rattle.std.specs.List.{AllZip};
ghost use Rattle.ospf_base.specs.Text.{number_text};
ghost use Rattle.ospf_graph.specs.EdgeLists.Listed.{advertisement_of, advertisements_of};
ghost use Rattle.ospf_base.specs.declared.ids.RouterId as ids;
ghost use Rattle.ospf_whatif.specs.declared.failure.AreaFailure as failure;
ghost use Rattle.ospf_whatif.specs.declared.failure.AreaFailure.TheVariants as stops;
ghost use Rattle.ospf_change.specs.Edit.Change.{IsCost};
ghost use Rattle.ospf_change.specs.Edit.Words.{AreJobChanges, IsCostWord, IsCostWordAt, IsCostWordOf, IsDownWord, IsDrainWord, IsFaultOfEditWords, IsFirstUnknownAmong, IsFirstUnknown, IsHintOf, IsMessage, IsWordFor, IsUnknownHere, Names, interface_front, mirrored, pair_front};
ghost use Rattle.ospf_change.specs.declared.edit.change.Change as change;
ghost use Rattle.ospf_change.specs.declared.edit.change.Change.TheVariants as variant;

use crate::edit::change::{Change, is_interface_link};
use crate::edit::near::hint;
use ospf_base::{Addr, Kind, RouterId};
use ospf_lsa::{Link, LinkKind, Links, Listing, LsaView};
use ospf_table::find_failure;
use ospf_whatif::{AreaFailure, all_failures};
use std::alloc::{AllocError, Global};

/// The changes of an area, as words. Each word names something in the area as it is read, before
/// any of the changes.
#[derive(Debug, Drop)]
pub struct EditJob {
    /// The failures, which come first: names as in `ospf_table::find_failure`, with the two routers
    /// of a link in either order.
    pub down: Vec<String>,
    /// Then the new costs: `ROUTER@ADDRESS=COST` for the router's interface with this address, or
    /// `ROUTER-ROUTER=COST` for the first router's interfaces to the second. A cost is a number
    /// from 1 to 65535.
    pub costs: Vec<String>,
    /// Then the drained routers, by Router ID.
    pub drains: Vec<String>,
}

impl EditJob {
    ghost use Rattle.std.specs.Prelude.{◌↔◌, IsTrue};
    ghost use Rattle.ospf_change.specs.Edit.Answer.{HasWords};

    // Whether the job changes anything.
    pub(crate) fn has_words(&self) -> bool
        ensures { IsTrue result ↔ HasWords self.now }
    {
        !self.down.is_empty() || !self.costs.is_empty() || !self.drains.is_empty()
    }
}

// What a word names.
#[derive(Clone, Copy)]
pub(crate) enum WordKind {
    Down,
    Cost,
    Drain,
}

// Why words name no changes: the message for the first that names nothing, or memory ran out.
#[derive(Drop)]
pub(crate) enum WordFault {
    Word(String),
    Memory,
}

impl From<AllocError> for WordFault {
    ghost use Rattle.std.specs.Prelude.{◌≡◌};
    ghost use Rattle.ospf_change.specs.declared.edit.words.WordFault.TheVariants as fault;

    ghost from_gives = { λ _ f. f ≡ fault.Memory };

    fn from(_error: AllocError) -> WordFault {
        WordFault::Memory
    }
}

// The changes that the words of a job name.
pub(crate) fn changes_of(
    alloc: Global,
    listing: &Listing,
    job: &EditJob,
) -> Result<Vec<Change>, WordFault>
    ensures named { IfOk result (λ changes. AreJobChanges (advertisements_of listing.now) job.now
        changes.items) }
    ensures fault { IfErr result (IsFaultOfEditWords
        (IsFirstUnknown (advertisements_of listing.now) job.now)) }
{
    let single = all_failures(alloc, listing)?;
    let mut changes = named_among(alloc, listing, &single, WordKind::Down, &job.down)?;
    let costs = named_among(alloc, listing, &single, WordKind::Cost, &job.costs)?;
    let drains = named_among(alloc, listing, &single, WordKind::Drain, &job.drains)?;
    changes.extend_from_slice(&costs)?;
    changes.extend_from_slice(&drains)?;
    Ok(changes)
}

// The changes that words of one kind name.
fn named_among(
    alloc: Global,
    listing: &Listing,
    single: &[AreaFailure],
    kind: WordKind,
    words: &[String],
) -> Result<Vec<Change>, WordFault>
    ensures named { IfOk result (λ changes. AllZip
        (IsWordFor (advertisements_of listing.now) single.now kind) words.now changes.items) }
    ensures fault { IfErr result (IsFaultOfEditWords
        (IsFirstUnknownAmong (advertisements_of listing.now) single.now kind words.now)) }
{
    let mut changes = Vec::new(alloc);
    for word in words {
        match named_one(alloc, listing, single, kind, word) {
            Ok(change) => changes.push(change).map_err(AllocError::from)?,
            Err(fault) => return Err(fault),
        }
    }
    Ok(changes)
}

// The change that a word names.
fn named_one(
    alloc: Global,
    listing: &Listing,
    single: &[AreaFailure],
    kind: WordKind,
    word: &String,
) -> Result<Change, WordFault>
    ensures named { IfOk result (IsWordFor (advertisements_of listing.now) single.now kind
        word.now) }
    ensures fault { IfErr result (IsFaultOfEditWords
        (IsUnknownHere (advertisements_of listing.now) single.now kind word.now)) }
{
    match find_change(alloc, listing, single, kind, word)? {
        Some(change) => Ok(change),
        None => Err(unnamed(alloc, single, kind, word)),
    }
}

// The message for a word that names nothing.
fn unnamed(alloc: Global, single: &[AreaFailure], kind: WordKind, word: &String) -> WordFault
    ensures { IsFaultOfEditWords (IsMessage single.now kind word.now) result }
{
    match message(alloc, single, kind, word) {
        Ok(text) => WordFault::Word(text),
        Err(error) => WordFault::from(error),
    }
}

// The text of it, with a name that may be meant.
fn message(
    alloc: Global,
    single: &[AreaFailure],
    kind: WordKind,
    word: &String,
) -> Result<String, AllocError>
    ensures { IfOk result (λ text. IsMessage single.now kind word.now (string_bytes text)) }
{
    let hint = hint_of(alloc, single, kind, word)?;
    Ok(format!(in alloc; "{word}: not in this area\n{hint}")?)
}

// The hint for a word of a kind.
fn hint_of(
    alloc: Global,
    single: &[AreaFailure],
    kind: WordKind,
    word: &str,
) -> Result<String, AllocError>
    ensures { IfOk result (λ text. IsHintOf single.now kind word.now (string_bytes text)) }
{
    match kind {
        WordKind::Down => hint(alloc, single, word),
        WordKind::Cost | WordKind::Drain => Ok(String::new(alloc)),
    }
}

// The change that a word of a kind names.
fn find_change(
    alloc: Global,
    listing: &Listing,
    single: &[AreaFailure],
    kind: WordKind,
    word: &str,
) -> Result<Option<Change>, AllocError>
    ensures some { IfOk result (λ found. IfSome found
        (Names (advertisements_of listing.now) single.now kind word.now)) }
    ensures none { IfOk result (λ found. IfNone found ((c : change.Change) →
        Names (advertisements_of listing.now) single.now kind word.now c → ⊥)) }
{
    match kind {
        WordKind::Down => match find_down(alloc, single, word)? {
            Some(failure) => Ok(Some(Change::Down(failure))),
            None => Ok(None),
        },
        WordKind::Cost => find_cost(alloc, listing, word),
        WordKind::Drain => match find_router(alloc, single, word)? {
            Some(router) => Ok(Some(Change::Drain(router))),
            None => Ok(None),
        },
    }
}

// ---- what goes down

// What may fail that a word names, the routers of a link in either order.
fn find_down(
    alloc: Global,
    single: &[AreaFailure],
    word: &str,
) -> Result<Option<AreaFailure>, AllocError>
    ensures some { IfOk result (λ found. IfSome found (IsDownWord single.now word.now)) }
    ensures none { IfOk result (λ found. IfNone found
        ((f : failure.AreaFailure) → IsDownWord single.now word.now f → ⊥)) }
{
    if let Some(failure) = find_failure(alloc, single, word)? {
        return Ok(Some(failure));
    }
    let others = all_mirrored(alloc, single)?;
    match find_failure(alloc, &others, word)? {
        Some(other) => Ok(Some(mirrored(other))),
        None => Ok(None),
    }
}

// All that may fail, the routers of links in the other order.
fn all_mirrored(alloc: Global, single: &[AreaFailure]) -> Result<Vec<AreaFailure>, AllocError>
    ensures { IfOk result (λ others. others.items ≡ map mirrored single.now) }
{
    let mut others = Vec::new(alloc);
    for failure in single {
        others.push(mirrored(*failure))?;
    }
    Ok(others)
}

// The routers of a link in the other order.
fn mirrored(failure: AreaFailure) -> AreaFailure
    ensures { result ≡ mirrored failure }
{
    match failure {
        AreaFailure::Link { a, b, subnet } => AreaFailure::Link { a: b, b: a, subnet },
        AreaFailure::Links { a, b } => AreaFailure::Links { a: b, b: a },
        AreaFailure::End { .. }
        | AreaFailure::Attachment { .. }
        | AreaFailure::Network(_)
        | AreaFailure::Router(_)
        | AreaFailure::Stub { .. } => failure,
    }
}

// ---- costs

// The new cost that a word names.
fn find_cost(alloc: Global, listing: &Listing, word: &str) -> Result<Option<Change>, AllocError>
    ensures some { IfOk result (λ found. IfSome found
        (IsCostWord (advertisements_of listing.now) word.now)) }
    ensures none { IfOk result (λ found. IfNone found ((c : change.Change) →
        IsCostWord (advertisements_of listing.now) word.now c → ⊥)) }
{
    for lsa in listing.lsas() {
        if let Some(change) = cost_in(alloc, &lsa.view(), word)? {
            return Ok(Some(change));
        }
    }
    Ok(None)
}

// The new cost of an interface of an LSA that a word names.
fn cost_in(alloc: Global, lsa: &LsaView, word: &str) -> Result<Option<Change>, AllocError>
    ensures some { IfOk result (λ found. IfSome found
        (IsCostWord (advertisement_of lsa.now ∷ []) word.now)) }
    ensures none { IfOk result (λ found. IfNone found ((c : change.Change) →
        IsCostWord (advertisement_of lsa.now ∷ []) word.now c → ⊥)) }
{
    match lsa.kind() {
        Kind::Router => cost_among(alloc, lsa.key().router, lsa.links(), word),
        Kind::Network => Ok(None),
    }
}

// The new cost of one of a router's links that a word names.
fn cost_among(
    alloc: Global,
    router: RouterId,
    links: Links,
    word: &str,
) -> Result<Option<Change>, AllocError>
    ensures some { IfOk result (λ found. IfSome found
        (IsCostWordOf router links.entry word.now)) }
    ensures none { IfOk result (λ found. IfNone found ((c : change.Change) →
        IsCostWordOf router links.entry word.now c → ⊥)) }
{
    for link in links {
        if let Some(change) = cost_at(alloc, router, link, word)? {
            return Ok(Some(change));
        }
    }
    Ok(None)
}

// The new cost of a link that a word names.
fn cost_at(
    alloc: Global,
    router: RouterId,
    link: Link,
    word: &str,
) -> Result<Option<Change>, AllocError>
    ensures some { IfOk result (λ found. IfSome found (IsCostWordAt router link word.now)) }
    ensures none { IfOk result (λ found. IfNone found ((c : change.Change) →
        IsCostWordAt router link word.now c → ⊥)) }
{
    if !is_interface_link(link) {
        return Ok(None);
    }
    let address = Addr(link.link_data);
    match cost_of_interface(alloc, router, address, word)? {
        Some(cost) => Ok(Some(Change::Cost {
            router,
            address,
            cost,
        })),
        None => cost_over(alloc, router, link, word),
    }
}

// The new cost of a link to a router that a word names by that router.
fn cost_over(
    alloc: Global,
    router: RouterId,
    link: Link,
    word: &str,
) -> Result<Option<Change>, AllocError>
    ensures some { IfOk result (λ found. IfSome found (IsCostWordAt router link word.now)) }
    ensures none { IfOk result (λ found. IfNone found ((other : ids.RouterId) (cost : ℕ) →
        IsCostWordAt router link word.now (variant.CostTo router other cost) → ⊥)) }
{
    match link.kind {
        LinkKind::PointToPoint => {
            let other = RouterId(link.id);
            match cost_of_pair(alloc, router, other, word)? {
                Some(cost) => Ok(Some(Change::CostTo {
                    router,
                    other,
                    cost,
                })),
                None => Ok(None),
            }
        }
        LinkKind::Transit | LinkKind::Stub | LinkKind::Virtual => Ok(None),
    }
}

// The new cost of a router's interface with an address that a word names.
fn cost_of_interface(
    alloc: Global,
    router: RouterId,
    address: Addr,
    word: &str,
) -> Result<Option<u16>, AllocError>
    ensures some { IfOk result (λ found. IfSome found
        (λ n. IsCost n × (word.now ≡ interface_front router address ++ decimal n))) }
    ensures none { IfOk result (λ found. IfNone found ((n : ℕ) →
        IsCost n → word.now ≡ interface_front router address ++ decimal n → ⊥)) }
{
    let front = format!(in alloc; "{router}@{address}=")?;
    cost_behind(alloc, &front, word)
}

// The new cost of a router's interfaces to another one that a word names.
fn cost_of_pair(
    alloc: Global,
    router: RouterId,
    other: RouterId,
    word: &str,
) -> Result<Option<u16>, AllocError>
    ensures some { IfOk result (λ found. IfSome found
        (λ n. IsCost n × (word.now ≡ pair_front router other ++ decimal n))) }
    ensures none { IfOk result (λ found. IfNone found ((n : ℕ) →
        IsCost n → word.now ≡ pair_front router other ++ decimal n → ⊥)) }
{
    let front = format!(in alloc; "{router}-{other}=")?;
    cost_behind(alloc, &front, word)
}

// The cost after the front of a word.
fn cost_behind(alloc: Global, front: &str, word: &str) -> Result<Option<u16>, AllocError>
    ensures some { IfOk result (λ found. IfSome found
        (λ n. IsCost n × (word.now ≡ front.now ++ decimal n))) }
    ensures none { IfOk result (λ found. IfNone found ((n : ℕ) →
        IsCost n → word.now ≡ front.now ++ decimal n → ⊥)) }
{
    match word.strip_prefix(front) {
        Some(digits) => cost_of(alloc, digits),
        None => Ok(None),
    }
}

// The cost that a text is.
fn cost_of(alloc: Global, digits: &str) -> Result<Option<u16>, AllocError>
    ensures some { IfOk result (λ found. IfSome found
        (λ n. IsCost n × (digits.now ≡ decimal n))) }
    ensures none { IfOk result (λ found. IfNone found ((n : ℕ) →
        IsCost n → digits.now ≡ decimal n → ⊥)) }
{
    let Ok(cost) = digits.parse::<u16>() else {
        return Ok(None);
    };
    if cost > 0 && is_decimal(alloc, cost, digits)? {
        Ok(Some(cost))
    } else {
        Ok(None)
    }
}

// Whether a text is a number without a sign and leading zeros.
fn is_decimal(alloc: Global, number: u16, digits: &str) -> Result<bool, AllocError>
    ensures { IfOk result (λ is. IsTrue is ↔ (digits.now ≡ decimal number)) }
{
    let text = format!(in alloc; "{number}")?;
    Ok(text.as_str() == digits)
}

// ---- drained routers

// The router whose Router ID a word is.
fn find_router(
    alloc: Global,
    single: &[AreaFailure],
    word: &str,
) -> Result<Option<RouterId>, AllocError>
    ensures some { IfOk result (λ found. IfSome found (IsDrainWord single.now word.now)) }
    ensures none { IfOk result (λ found. IfNone found ((router : ids.RouterId) →
        IsDrainWord single.now word.now router → ⊥)) }
{
    for failure in single {
        if let Some(router) = router_named(alloc, *failure, word)? {
            return Ok(Some(router));
        }
    }
    Ok(None)
}

// The router that stops by a failure, if a word is its Router ID.
fn router_named(
    alloc: Global,
    failure: AreaFailure,
    word: &str,
) -> Result<Option<RouterId>, AllocError>
    ensures some { IfOk result (λ found. IfSome found (λ router.
        (failure ≡ stops.Router router) × (number_text router.0 ≡ word.now))) }
    ensures none { IfOk result (λ found. IfNone found ((router : ids.RouterId) →
        failure ≡ stops.Router router → number_text router.0 ≡ word.now → ⊥)) }
{
    match failure {
        AreaFailure::Router(router) => {
            if is_id(alloc, router, word)? {
                Ok(Some(router))
            } else {
                Ok(None)
            }
        }
        AreaFailure::Link { .. }
        | AreaFailure::End { .. }
        | AreaFailure::Links { .. }
        | AreaFailure::Attachment { .. }
        | AreaFailure::Network(_)
        | AreaFailure::Stub { .. } => Ok(None),
    }
}

// Whether a word is a Router ID.
fn is_id(alloc: Global, router: RouterId, word: &str) -> Result<bool, AllocError>
    ensures { IfOk result (λ is. IsTrue is ↔ (number_text router.0 ≡ word.now)) }
{
    let text = format!(in alloc; "{router}")?;
    Ok(text.as_str() == word)
}
