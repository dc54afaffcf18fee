//! The routing table of a router in an area without some of its parts.

ghost use Rattle.std.specs.Prelude.{◌≡◌, ◌≢◌, [], IfErr, IfOk, string_bytes};
ghost use Rattle.std.specs.List.{AllZip};
ghost use Rattle.ospf_graph.specs.EdgeLists.Listed.{advertisements_of};
ghost use Rattle.ospf_whatif.specs.Failure.{HasLarge, without_all};
ghost use Rattle.ospf_failures.specs.Without.{AreNamed, IsFaultOfNames, IsFirstAmong, IsFirstUnnamed, IsNamedBy, IsTableWithout, IsUnnamedHere, SaysTableOfLeft};

use crate::answer::Unreported;
use ospf_base::{Addr, RouterId};
use ospf_lsa::Listing;
use ospf_spf::RouteTable;
use ospf_table::{find_failure, output_text};
use ospf_whatif::{AreaFailure, all_failures, without_all};
use std::alloc::{AllocError, Global};

// What is printed of a router's table without the parts that are named, and of lookups in it.
pub(crate) fn text_without(
    alloc: Global,
    listing: Listing,
    root: RouterId,
    names: &[String],
    addresses: &[Addr],
) -> Result<String, Unreported>
    requires { names.now ≢ [] → HasLarge (advertisements_of listing) → ⊥ }
    ensures text { IfOk result (λ text. IsTableWithout (advertisements_of listing) names.now root
        addresses.now (string_bytes text)) }
    ensures fault { IfErr result (IsFaultOfNames
        (IsFirstUnnamed (advertisements_of listing) names.now)) }
{
    match failures_of(alloc, &listing, names) {
        Ok(failures) => {
            let text = table_without(alloc, listing, root, &failures, addresses)?;
            Ok(text)
        }
        Err(fault) => Err(fault),
    }
}

// The parts of an area that are named.
fn failures_of(
    alloc: Global,
    listing: &Listing,
    names: &[String],
) -> Result<Vec<AreaFailure>, Unreported>
    ensures named { IfOk result (λ failures. AreNamed (advertisements_of listing.now) names.now
        failures.items) }
    ensures fault { IfErr result (IsFaultOfNames
        (IsFirstUnnamed (advertisements_of listing.now) names.now)) }
{
    let single = all_failures(alloc, listing)?;
    match named_among(alloc, &single, names) {
        Ok(failures) => Ok(failures),
        Err(fault) => Err(fault),
    }
}

// Those of some that are named.
fn named_among(
    alloc: Global,
    single: &[AreaFailure],
    names: &[String],
) -> Result<Vec<AreaFailure>, Unreported>
    ensures named { IfOk result (λ failures. AllZip (IsNamedBy single.now) names.now
        failures.items) }
    ensures fault { IfErr result (IsFaultOfNames (IsFirstAmong single.now names.now)) }
{
    let mut failures = Vec::new(alloc);
    for name in names {
        match named_one(alloc, single, name) {
            Ok(failure) => failures.push(failure).map_err(AllocError::from)?,
            Err(fault) => return Err(fault),
        }
    }
    Ok(failures)
}

// That of some which is named.
fn named_one(
    alloc: Global,
    single: &[AreaFailure],
    name: &String,
) -> Result<AreaFailure, Unreported>
    ensures named { IfOk result (IsNamedBy single.now name.now) }
    ensures fault { IfErr result (IsFaultOfNames (IsUnnamedHere single.now name.now)) }
{
    match find_failure(alloc, single, name)? {
        Some(failure) => Ok(failure),
        None => Err(unnamed(alloc, name)),
    }
}

// The line about a name that is not in the area.
fn unnamed(alloc: Global, name: &String) -> Unreported
    ensures { IsFaultOfNames (λ n. n ≡ name.now) result }
{
    match format!(in alloc; "{name}: not in this area\n") {
        Ok(text) => Unreported::Unnamed(text),
        Err(error) => Unreported::from(error),
    }
}

// What is printed of a router's table in the area without these parts, and of lookups in it.
fn table_without(
    alloc: Global,
    listing: Listing,
    root: RouterId,
    failures: &[AreaFailure],
    addresses: &[Addr],
) -> Result<String, AllocError>
    requires { failures.now ≢ [] → HasLarge (advertisements_of listing) → ⊥ }
    ensures { IfOk result (λ text. SaysTableOfLeft
        (without_all failures.now (advertisements_of listing)) root addresses.now
        (string_bytes text)) }
{
    let left = without_all(alloc, listing, failures)?;
    let table = RouteTable::of(alloc, &left, root)?;
    let text = output_text(alloc, &table, addresses)?;
    Ok(text)
}
