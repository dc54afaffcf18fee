//! Failures that are named.

ghost use Rattle.std.specs.Prelude.{◌≡◌, ◌↔◌, false, Contains, IsTrue, IfOk, IfSome, IfNone};
ghost use Rattle.ospf_whatif.specs.Name.{area_failure_text};
ghost use Rattle.ospf_whatif.specs.declared.failure.AreaFailure.{AreaFailure};
ghost use Rattle.ospf_table.specs.Named.{HasName, HasOther, IsLinkInSubnet, IsNamed, IsOnlyIn};

use ospf_whatif::AreaFailure;
use std::alloc::{AllocError, Global};

/// The failure of a list that a word names: by its name, or where no failure has it as its name,
/// the link in the subnet that the word is, where no other link of the list is in that subnet.
/// `None` where the word names none.
///
/// `AllocError` where memory runs out.
pub fn find_failure(
    alloc: Global,
    failures: &[AreaFailure],
    word: &str,
) -> Result<Option<AreaFailure>, AllocError>
    ensures some { IfOk result (λ found. IfSome found (IsNamed failures.now word.now)) }
    ensures none { IfOk result (λ found. IfNone found
        ((failure : AreaFailure) → IsNamed failures.now word.now failure → ⊥)) }
{
    match by_name(alloc, failures, word)? {
        Some(failure) => Ok(Some(failure)),
        None => by_subnet(alloc, failures, word),
    }
}

// The failure whose name a word is.
fn by_name(
    alloc: Global,
    failures: &[AreaFailure],
    word: &str,
) -> Result<Option<AreaFailure>, AllocError>
    ensures some { IfOk result (λ found. IfSome found (HasName failures.now word.now)) }
    ensures none { IfOk result (λ found. IfNone found
        ((failure : AreaFailure) → HasName failures.now word.now failure → ⊥)) }
{
    for failure in failures {
        if has_name(alloc, failure, word)? {
            return Ok(Some(*failure));
        }
    }
    Ok(None)
}

// Whether a word is the name of a failure.
fn has_name(alloc: Global, failure: &AreaFailure, word: &str) -> Result<bool, AllocError>
    ensures { IfOk result (λ has. IsTrue has ↔ (area_failure_text failure.now ≡ word.now)) }
{
    let name = format!(in alloc; "{failure}")?;
    Ok(name.as_str() == word)
}

// The only link in the subnet that a word is.
fn by_subnet(
    alloc: Global,
    failures: &[AreaFailure],
    word: &str,
) -> Result<Option<AreaFailure>, AllocError>
    ensures some { IfOk result (λ found. IfSome found (IsOnlyIn failures.now word.now)) }
    ensures none { IfOk result (λ found. IfNone found
        ((failure : AreaFailure) → IsOnlyIn failures.now word.now failure → ⊥)) }
{
    let Some(first) = first_in(alloc, failures, word)? else {
        return Ok(None);
    };
    if is_alone(alloc, failures, word, &first)? {
        Ok(Some(first))
    } else {
        Ok(None)
    }
}

// The first link in the subnet that a word is.
fn first_in(
    alloc: Global,
    failures: &[AreaFailure],
    word: &str,
) -> Result<Option<AreaFailure>, AllocError>
    ensures some { IfOk result (λ found. IfSome found
        (λ failure. Contains failures.now failure × IsLinkInSubnet word.now failure)) }
    ensures none { IfOk result (λ found. IfNone found
        ((failure : AreaFailure) → Contains failures.now failure → IsLinkInSubnet word.now failure →
        ⊥)) }
{
    for failure in failures {
        if is_in(alloc, failure, word)? {
            return Ok(Some(*failure));
        }
    }
    Ok(None)
}

// Whether a failure is a link in the subnet that a word is.
fn is_in(alloc: Global, failure: &AreaFailure, word: &str) -> Result<bool, AllocError>
    ensures { IfOk result (λ is. IsTrue is ↔ IsLinkInSubnet word.now failure.now) }
{
    match failure {
        AreaFailure::Link { subnet, .. } => {
            let text = format!(in alloc; "{subnet}")?;
            Ok(text.as_str() == word)
        }
        AreaFailure::End { .. }
        | AreaFailure::Links { .. }
        | AreaFailure::Attachment { .. }
        | AreaFailure::Network(_)
        | AreaFailure::Router(_)
        | AreaFailure::Stub { .. } => Ok(false),
    }
}

// Whether there is no other link in the subnet that a word is.
fn is_alone(
    alloc: Global,
    failures: &[AreaFailure],
    word: &str,
    first: &AreaFailure,
) -> Result<bool, AllocError>
    ensures alone { IfOk result (λ alone. IsTrue alone → (other : AreaFailure) →
        Contains failures.now other → IsLinkInSubnet word.now other → other ≡ first.now) }
    ensures other { IfOk result (λ alone. alone ≡ false →
        HasOther failures.now word.now first.now) }
{
    for failure in failures {
        if is_in(alloc, failure, word)? && !is_same(failure, first) {
            return Ok(false);
        }
    }
    Ok(true)
}

// Whether two failures are one.
fn is_same(a: &AreaFailure, b: &AreaFailure) -> bool
    ensures { IsTrue result ↔ (a.now ≡ b.now) }
{
    a == b
}
