//! Routers at the border of an area: routes outside it are not computed, and that is said.

ghost use Rattle.std.specs.Fmt.{WritesOnOk};
ghost use Rattle.std.specs.Prelude.{◌≡◌, ◌↔◌, IfOk, IsTrue, slice_index, string_bytes};
ghost use Rattle.ospf_lsa.specs.Lsa.{IsRouterLsa};
ghost use Rattle.ospf_table.specs.Outside.{IsMissing, IsOutsideWarning, MissesOne, border_words, both_words, boundary_words, first_with, has_flag, has_flag_by, is_nowhere, other_words, outside_of, outside_text, reasons_text};

use crate::apart::apart_text;
use ospf_base::{Addr, Kind, RouterId};
use ospf_lsa::{Listing, Lsa, LsaView};
use ospf_spf::RouteTable;
use std::alloc::{AllocError, Global};
use std::fmt::{self, Display, Formatter, Write};

// Where the flags of a router-LSA stand, and those of area border and AS boundary routers (RFC
// 2328, appendix A.4.2).
const FLAGS_AT: usize = 20;

const B_FLAG: u8 = 1;

const E_FLAG: u8 = 2;

/// Routers of an area by which others of its routes lead out of it.
#[derive(Clone, Copy, Debug, PartialEq, Eq)]
pub struct Outside {
    /// The first AS boundary router, if there is one.
    pub boundary: Option<RouterId>,
    /// The first area border router, if there is one.
    pub border: Option<RouterId>,
}

/// As `1.1.1.1: AS boundary router: external routes are not computed`; nothing where there is none.
impl Display for Outside {
    ghost use Rattle.std.specs.Prelude.{Some};
    ghost use Rattle.ospf_table.specs.Outside.{outside_words};

    ghost output = { λ outside. Some (outside_words outside) };

    fn fmt<W: Write>(&self, f: &mut Formatter<W>) -> fmt::Result {
        match self.boundary {
            None => write_border(f, self.border),
            Some(boundary) => write_both(f, boundary, self.border),
        }
    }
}

// An area border router, if there is one.
fn write_border<W: Write>(f: &mut Formatter<W>, border: Option<RouterId>) -> fmt::Result
    ensures { WritesOnOk W.Write.write_str_gives f.old result (border_words border) f.new }
{
    match border {
        None => Ok(()),
        Some(border) => write!(
            f,
            "{border}: border router: routes to and through other areas are not computed"
        ),
    }
}

// An AS boundary router, and an area border router, if there is one.
fn write_both<W: Write>(
    f: &mut Formatter<W>,
    boundary: RouterId,
    border: Option<RouterId>,
) -> fmt::Result
    ensures { WritesOnOk W.Write.write_str_gives f.old result (both_words boundary border) f.new }
{
    match border {
        None => write!(
            f,
            "{boundary}: AS boundary router: external routes are not computed"
        ),
        Some(border) => {
            write_boundary(f, boundary)?;
            write_other(f, border)
        }
    }
}

// An AS boundary router, which another follows.
fn write_boundary<W: Write>(f: &mut Formatter<W>, boundary: RouterId) -> fmt::Result
    ensures { WritesOnOk W.Write.write_str_gives f.old result (boundary_words boundary) f.new }
{
    write!(f, "{boundary}: AS boundary router, ")
}

// An area border router, where there is an AS boundary router, too.
fn write_other<W: Write>(f: &mut Formatter<W>, border: RouterId) -> fmt::Result
    ensures { WritesOnOk W.Write.write_str_gives f.old result (other_words border) f.new }
{
    write!(
        f,
        "{border}: border router: routes outside the area are not computed"
    )
}

/// The first AS boundary router and the first area border router that are listed, by the flags of
/// their router-LSAs (RFC 2328, appendix A.4.2).
pub fn outside_of(listing: &Listing) -> Outside
    ensures { result ≡ outside_of listing.now }
{
    Outside {
        boundary: first_with(listing, E_FLAG),
        border: first_with(listing, B_FLAG),
    }
}

fn first_with(listing: &Listing, flag: u8) -> Option<RouterId>
    ensures { result ≡ first_with flag listing.now }
{
    let lsa = listing.lsas().iter().find(|it| has_flag(it, flag))?;
    Some(lsa.view().key().router)
}

fn has_flag(lsa: &Lsa, flag: u8) -> bool
    ensures { result ≡ has_flag flag lsa.now }
{
    let view = lsa.view();
    match view.kind() {
        Kind::Router => flags_of(&view) & flag != 0,
        Kind::Network => false,
    }
}

fn flags_of(lsa: &LsaView) -> u8
    requires { IsRouterLsa lsa.now }
    ensures { result ≡ slice_index lsa.now 20 }
{
    lsa.as_bytes()[FLAGS_AT]
}

/// The line of them, which ends in a line feed; nothing where none is listed.
///
/// `AllocError` where memory runs out.
pub fn outside_text(alloc: Global, outside: Outside) -> Result<String, AllocError>
    ensures { IfOk result (λ text. string_bytes text ≡ outside_text outside) }
{
    if is_nowhere(outside) {
        Ok(String::new(alloc))
    } else {
        Ok(format!(in alloc; "{outside}\n")?)
    }
}

/// Whether there is neither.
pub fn is_nowhere(outside: Outside) -> bool
    ensures { result ≡ is_nowhere outside }
{
    outside.boundary.is_none() && outside.border.is_none()
}

// What is said where a table has no route for one of these addresses.
pub(crate) fn missing_text(
    alloc: Global,
    listing: &Listing,
    table: &RouteTable,
    addresses: &[Addr],
) -> Result<String, AllocError>
    ensures { IfOk result (λ text. IsOutsideWarning listing.now table.now addresses.now
        (string_bytes text)) }
{
    if misses_one(table, addresses) {
        reasons_text(alloc, listing)
    } else {
        Ok(String::new(alloc))
    }
}

/// Why an address may have no route, as far as the LSAs show: routes outside the area are not
/// computed (`outside_text`), or a part of the area is not reached (`apart_text`).
///
/// `AllocError` where memory runs out.
pub fn reasons_text(alloc: Global, listing: &Listing) -> Result<String, AllocError>
    ensures { IfOk result (λ text. string_bytes text ≡ reasons_text listing.now) }
{
    let mut text = outside_text(alloc, outside_of(listing))?;
    let more = apart_text(alloc, listing)?;
    text.push_str(more.as_str())?;
    Ok(text)
}

fn misses_one(table: &RouteTable, addresses: &[Addr]) -> bool
    ensures { IsTrue result ↔ MissesOne table.now addresses.now }
{
    addresses.iter().any(|it| is_missing(table, *it))
}

fn is_missing(table: &RouteTable, address: Addr) -> bool
    ensures { IsTrue result ↔ IsMissing table.now address.0 }
{
    table.lookup(address).is_none()
}
