//! What carries the links of an area, and what fails together for that.

ghost use Rattle.std.specs.Prelude.{◌≡◌, ◌↔◌, ◌++◌, ◌∷◌, [], All, AllPairs, Contains, IfOk, OnOk, List, flat_map, if◌then◌else◌, map};
ghost use Rattle.ospf_graph.specs.EdgeLists.Listed.{advertisements_of};
ghost use Rattle.ospf_graph.specs.Adds.{Adds};
ghost use Rattle.ospf_graph.specs.Advertisements.{Advertisement};
ghost use Rattle.ospf_harm.specs.Carrier.{AreHiddenBy, CarriedNamesTellApart, EndGiven, IsFailureBy, is_attached_to, is_cable, leaving_network, powered, together, together_direct};
ghost use Rattle.ospf_whatif.specs.Single.{AreFailures, GivenBy, IsFailureBefore};
ghost use Rattle.ospf_whatif.specs.declared.failure.AreaFailure.{AreaFailure};

use crate::hidden::{HiddenCost, hidden_costs};
use ospf_base::{Prefix, RouterId};
use ospf_lsa::Listing;
use ospf_whatif::{AreaFailure, put_in_order};
use std::alloc::{AllocError, Global};

/// What carries the links of an area.
#[derive(Clone, Copy, Debug, PartialEq, Eq)]
pub enum Carrier {
    /// Cables from router to router: a router without power takes the subnets of its point-to-point
    /// links at their other ends too, and a network of two routers is one cable, which goes whole
    /// with either of them.
    Direct,
    /// A switch in each link: the two ends of a link fail apart.
    Switch,
    /// Any: of a router only the process dies, and its cables stay lit.
    Process,
}

/// A failure, and those that happen with it, it among them.
#[derive(Debug, Drop)]
pub struct Breakdown {
    pub failure: AreaFailure,
    pub parts: Vec<AreaFailure>,
}

/// What may fail in an area whose links are carried so, each once, in the order of `AreaFailure`;
/// by all that may fail in it (`single_failures`).
///
/// `AllocError` where memory runs out.
pub fn failures_by(
    alloc: Global,
    carrier: Carrier,
    single: &[AreaFailure],
) -> Result<Vec<AreaFailure>, AllocError>
    requires { AllPairs IsFailureBefore single.now }
    // Of any area of which these are all that may fail.
    ensures all { IfOk result (λ all. (adverts : List Advertisement) →
        AreFailures adverts single.now → (f : AreaFailure) →
        Contains all.items f ↔ IsFailureBy carrier adverts f) }
    ensures in_order { IfOk result (λ all. AllPairs IsFailureBefore all.items) }
{
    match carrier {
        Carrier::Switch => ends_of(alloc, single),
        Carrier::Direct => Vec::from_slice(alloc, single),
        Carrier::Process => Vec::from_slice(alloc, single),
    }
}

/// What happens together with each of some failures, of all that may fail in an area.
///
/// `AllocError` where memory runs out.
pub fn breakdowns(
    alloc: Global,
    carrier: Carrier,
    single: &[AreaFailure],
    failures: &[AreaFailure],
) -> Result<Vec<Breakdown>, AllocError>
    ensures failures { IfOk result (λ all. map (λ b. b.failure) all.items ≡ failures.now) }
    ensures together { IfOk result (λ all.
        All (λ b. b.parts.items ≡ together carrier single.now b.failure) all.items) }
{
    let mut all = Vec::new(alloc);
    for failure in failures {
        let parts = together(alloc, carrier, single, *failure)?;
        all.push(Breakdown {
            failure: *failure,
            parts,
        })?;
    }
    Ok(all)
}

/// No two of the failures of an area whose links are carried so have one name.
pub fn carried_names_tell_apart()
    ensures { CarriedNamesTellApart }
{}

/// The stub routers that a failure leaves alone on a network, where links are carried so.
///
/// `AllocError` where memory runs out.
pub fn hidden_costs_by(
    alloc: Global,
    carrier: Carrier,
    listing: &Listing,
) -> Result<Vec<HiddenCost>, AllocError>
    ensures { IfOk result (λ hidden. AreHiddenBy carrier (advertisements_of listing.now)
        hidden.items) }
{
    match carrier {
        Carrier::Direct => Ok(Vec::new(alloc)),
        Carrier::Switch => hidden_costs(alloc, listing),
        Carrier::Process => hidden_costs(alloc, listing),
    }
}

// The ends of links, and all else that may fail.
fn ends_of(alloc: Global, single: &[AreaFailure]) -> Result<Vec<AreaFailure>, AllocError>
    ensures all { IfOk result (λ all. Adds (GivenBy EndGiven single.now) [] all.items) }
    ensures in_order { IfOk result (λ all. AllPairs IsFailureBefore all.items) }
{
    let mut failures = Vec::new(alloc);
    for failure in single {
        add_ends(*failure, &mut failures)?;
    }
    put_in_order(&mut failures);
    Ok(failures)
}

// Adds the ends of a link, or a failure that is none.
fn add_ends(failure: AreaFailure, failures: &mut Vec<AreaFailure>) -> Result<(), AllocError>
    ensures { OnOk result (Adds (EndGiven failure) failures.old.items failures.new.items) }
{
    match failure {
        AreaFailure::Link { a, b, subnet } => {
            add_failure(failures, end(a, b, subnet))?;
            add_failure(failures, end(b, a, subnet))?;
            Ok(())
        }
        AreaFailure::End { .. } => add_failure(failures, failure),
        AreaFailure::Links { .. } => add_failure(failures, failure),
        AreaFailure::Attachment { .. } => add_failure(failures, failure),
        AreaFailure::Network(_) => add_failure(failures, failure),
        AreaFailure::Router(_) => add_failure(failures, failure),
        AreaFailure::Stub { .. } => add_failure(failures, failure),
    }
}

// Adds a failure.
fn add_failure(failures: &mut Vec<AreaFailure>, failure: AreaFailure) -> Result<(), AllocError>
    ensures { OnOk result (Adds (λ f. f ≡ failure) failures.old.items failures.new.items) }
{
    failures.push(failure)?;
    Ok(())
}

// The end of a link at a router.
fn end(router: RouterId, other: RouterId, subnet: Prefix) -> AreaFailure
    ensures { result ≡ AreaFailure.End router other subnet }
{
    AreaFailure::End {
        router,
        other,
        subnet,
    }
}

// What happens together with a failure.
fn together(
    alloc: Global,
    carrier: Carrier,
    single: &[AreaFailure],
    failure: AreaFailure,
) -> Result<Vec<AreaFailure>, AllocError>
    ensures { IfOk result (λ parts. parts.items ≡ together carrier single.now failure) }
{
    match carrier {
        Carrier::Direct => together_direct(alloc, single, failure),
        Carrier::Switch => Vec::from_slice(alloc, &[failure]),
        Carrier::Process => Vec::from_slice(alloc, &[failure]),
    }
}

// What happens together with a failure on direct cables.
fn together_direct(
    alloc: Global,
    single: &[AreaFailure],
    failure: AreaFailure,
) -> Result<Vec<AreaFailure>, AllocError>
    ensures { IfOk result (λ parts. parts.items ≡ together_direct single.now failure) }
{
    match failure {
        AreaFailure::Router(gone) => all_powered(alloc, single, gone),
        AreaFailure::Attachment { router, network } => {
            Vec::from_slice(alloc, &[leaving_network(single, router, network)])
        }
        AreaFailure::Link { .. } => Vec::from_slice(alloc, &[failure]),
        AreaFailure::End { .. } => Vec::from_slice(alloc, &[failure]),
        AreaFailure::Links { .. } => Vec::from_slice(alloc, &[failure]),
        AreaFailure::Network(_) => Vec::from_slice(alloc, &[failure]),
        AreaFailure::Stub { .. } => Vec::from_slice(alloc, &[failure]),
    }
}

// What goes with the power of a router.
fn all_powered(
    alloc: Global,
    single: &[AreaFailure],
    gone: RouterId,
) -> Result<Vec<AreaFailure>, AllocError>
    ensures { IfOk result (λ parts. parts.items ≡ flat_map (powered single.now gone) single.now) }
{
    let mut parts = Vec::new(alloc);
    for failure in single {
        push_powered(single, gone, *failure, &mut parts)?;
    }
    Ok(parts)
}

// Adds what of something goes with the power of a router.
fn push_powered(
    single: &[AreaFailure],
    gone: RouterId,
    failure: AreaFailure,
    parts: &mut Vec<AreaFailure>,
) -> Result<(), AllocError>
    ensures { OnOk result (parts.new.items
        ≡ parts.old.items ++ powered single.now gone failure) }
{
    match failure {
        AreaFailure::Link { a, b, .. } => push_if(a.0 == gone.0 || b.0 == gone.0, failure, parts),
        AreaFailure::Attachment { router, network } => push_if(
            router.0 == gone.0 && is_cable(single, network),
            AreaFailure::Network(network),
            parts,
        ),
        AreaFailure::Router(router) => push_if(router.0 == gone.0, failure, parts),
        AreaFailure::End { .. } => Ok(()),
        AreaFailure::Links { .. } => Ok(()),
        AreaFailure::Network(_) => Ok(()),
        AreaFailure::Stub { .. } => Ok(()),
    }
}

// Adds a failure, or not.
fn push_if(is: bool, failure: AreaFailure, parts: &mut Vec<AreaFailure>) -> Result<(), AllocError>
    ensures { OnOk result (parts.new.items
        ≡ parts.old.items ++ (if is then failure ∷ [] else [])) }
{
    if is {
        parts.push(failure)?;
    }
    Ok(())
}

// What fails where a router leaves a network.
fn leaving_network(single: &[AreaFailure], router: RouterId, network: u32) -> AreaFailure
    ensures { result ≡ leaving_network single.now router network }
{
    if is_cable(single, network) {
        AreaFailure::Network(network)
    } else {
        AreaFailure::Attachment { router, network }
    }
}

// Whether two routers are attached to a network.
fn is_cable(single: &[AreaFailure], network: u32) -> bool
    ensures { result ≡ is_cable single.now network }
{
    single
        .iter()
        .filter(|failure| is_attached_to(network, failure))
        .count()
        == 2
}

// Whether it is the attachment of a router to a network.
fn is_attached_to(network: u32, failure: &AreaFailure) -> bool
    ensures { result ≡ is_attached_to network failure.now }
{
    match *failure {
        AreaFailure::Attachment { network: other, .. } => other == network,
        AreaFailure::Link { .. } => false,
        AreaFailure::End { .. } => false,
        AreaFailure::Links { .. } => false,
        AreaFailure::Network(_) => false,
        AreaFailure::Router(_) => false,
        AreaFailure::Stub { .. } => false,
    }
}
