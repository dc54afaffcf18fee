//! The links, attachments, networks and routers that an area has and another has not.

ghost use Rattle.std.specs.Prelude.{◌≡◌, ◌↔◌, AllPairs, Contains, IfOk, IsTrue, string_bytes};
ghost use Rattle.ospf_whatif.specs.Single.{IsFailureBefore};
ghost use Rattle.ospf_change.specs.Diff.Elements.{AreElementsMissing, elements_text};

use ospf_whatif::AreaFailure;
use std::alloc::{AllocError, Global};
use std::fmt::Write;

/// The elements of an area that another area has not, in their order: what may fail in the first,
/// as `ospf_whatif::single_failures` gives it, and not in the second.
///
/// `AllocError` where memory runs out.
pub fn missing_elements(
    alloc: Global,
    elements: &[AreaFailure],
    others: &[AreaFailure],
) -> Result<Vec<AreaFailure>, AllocError>
    requires elements { AllPairs IsFailureBefore elements.now }
    requires others { AllPairs IsFailureBefore others.now }
    ensures { IfOk result (λ missing. AreElementsMissing elements.now others.now missing.items) }
{
    let mut missing = Vec::new(alloc);
    for element in elements {
        if !is_among(others, element) {
            missing.push(*element)?;
        }
    }
    Ok(missing)
}

// Whether an element is among some in order.
fn is_among(elements: &[AreaFailure], element: &AreaFailure) -> bool
    requires { AllPairs IsFailureBefore elements.now }
    ensures { IsTrue result ↔ Contains elements.now element.now }
{
    elements.binary_search(element).is_ok()
}

// A line for each element, which a sign begins.
pub(crate) fn elements_text(
    alloc: Global,
    sign: &str,
    elements: &[AreaFailure],
) -> Result<String, AllocError>
    ensures { IfOk result (λ text. string_bytes text ≡ elements_text sign.now elements.now) }
{
    let mut text = String::new(alloc);
    for element in elements {
        writeln!(text, "{sign} {element}")?;
    }
    Ok(text)
}
