//! Names that may be meant by a word that names nothing.

ghost use Rattle.std.specs.Prelude.{◌≡◌, ◌↔◌, false, Contains, IfNone, IfOk, IfSome, IsTrue, string_bytes};
ghost use Rattle.ospf_whatif.specs.declared.failure.AreaFailure.{AreaFailure};
ghost use Rattle.ospf_change.specs.Edit.Words.{HasOtherPair, IsHint, IsOnlyPair, IsPairWord, pair_text};

use ospf_base::RouterId;
use ospf_whatif::AreaFailure;
use std::alloc::{AllocError, Global};

// The name of the only link that a word may mean, which lacks the subnet, or of the only interface
// to a stub network, which lacks the router, as a line.
pub(crate) fn hint(alloc: Global, single: &[AreaFailure], word: &str) -> Result<String, AllocError>
    ensures { IfOk result (λ text. IsHint single.now word.now (string_bytes text)) }
{
    match only_pair(alloc, single, word)? {
        Some(failure) => Ok(format!(in alloc; "  did you mean {failure}?\n")?),
        None => Ok(String::new(alloc)),
    }
}

// The only link of the two routers that a word is.
fn only_pair(
    alloc: Global,
    single: &[AreaFailure],
    word: &str,
) -> Result<Option<AreaFailure>, AllocError>
    ensures some { IfOk result (λ found. IfSome found (IsOnlyPair single.now word.now)) }
    ensures none { IfOk result (λ found. IfNone found
        ((f : AreaFailure) → IsOnlyPair single.now word.now f → ⊥)) }
{
    let Some(first) = first_pair(alloc, single, word)? else {
        return Ok(None);
    };
    if is_alone(alloc, single, word, &first)? {
        Ok(Some(first))
    } else {
        Ok(None)
    }
}

// The first link of the two routers that a word is.
fn first_pair(
    alloc: Global,
    single: &[AreaFailure],
    word: &str,
) -> Result<Option<AreaFailure>, AllocError>
    ensures some { IfOk result (λ found. IfSome found
        (λ f. Contains single.now f × IsPairWord word.now f)) }
    ensures none { IfOk result (λ found. IfNone found
        ((f : AreaFailure) → Contains single.now f → IsPairWord word.now f → ⊥)) }
{
    for failure in single {
        if is_pair(alloc, failure, word)? {
            return Ok(Some(*failure));
        }
    }
    Ok(None)
}

// Whether a word is the two routers of a link, or the prefix of an interface to a stub network.
fn is_pair(alloc: Global, failure: &AreaFailure, word: &str) -> Result<bool, AllocError>
    ensures { IfOk result (λ is. IsTrue is ↔ IsPairWord word.now failure.now) }
{
    match *failure {
        AreaFailure::Link { a, b, .. } => {
            Ok(is_pair_of(alloc, a, b, word)? || is_pair_of(alloc, b, a, word)?)
        }
        AreaFailure::Stub { prefix, .. } => {
            let text = format!(in alloc; "{prefix}")?;
            Ok(text.as_str() == word)
        }
        AreaFailure::End { .. }
        | AreaFailure::Links { .. }
        | AreaFailure::Attachment { .. }
        | AreaFailure::Network(_)
        | AreaFailure::Router(_) => Ok(false),
    }
}

// Whether a word is two routers in this order.
fn is_pair_of(alloc: Global, a: RouterId, b: RouterId, word: &str) -> Result<bool, AllocError>
    ensures { IfOk result (λ is. IsTrue is ↔ (pair_text a b ≡ word.now)) }
{
    let text = format!(in alloc; "{a}-{b}")?;
    Ok(text.as_str() == word)
}

// Whether there is no other link of the two routers that a word is.
fn is_alone(
    alloc: Global,
    single: &[AreaFailure],
    word: &str,
    first: &AreaFailure,
) -> Result<bool, AllocError>
    ensures alone { IfOk result (λ alone. IsTrue alone → (other : AreaFailure) →
        Contains single.now other → IsPairWord word.now other → other ≡ first.now) }
    ensures other { IfOk result (λ alone. alone ≡ false →
        HasOtherPair single.now word.now first.now) }
{
    for failure in single {
        if is_pair(alloc, failure, word)? && !is_same(failure, first) {
            return Ok(false);
        }
    }
    Ok(true)
}

// Whether two failures are one.
fn is_same(a: &AreaFailure, b: &AreaFailure) -> bool
    ensures { IsTrue result ↔ (a.now ≡ b.now) }
{
    a == b
}
