//! Own LSAs as they are made, and what a copy says.

ghost use Rattle.std.specs.Prelude.{◌≡◌, ◌≤◌, IfOk, IfErr, OnOk, length, take, drop, ◌++◌};
ghost use Rattle.std.specs.Str.{bytes_eq};
ghost use Rattle.ospf_base.specs.Sums.{contents};
ghost use Rattle.ospf_lsa.specs.Value.{HasAll, IsMade, IsUnmade};
ghost use Rattle.ospf_originate.specs.Wants.Made.{lsa_value, Needs, first_number, says};
ghost use Rattle.ospf_originate.specs.Wants.Own.{wanted_value};

use crate::contents::wants::OwnLsa;
use ospf_base::INITIAL_SEQUENCE_NUMBER;
use ospf_lsa::{LENGTH_AT, Lsa, LsaFault, LsaView, NUMBER_AT, OPTIONS_AT};
use std::alloc::Global;

impl OwnLsa {
    /// The LSA with a number, at age 0.
    ///
    /// A fault is the first need that is not met; `Memory` where all others are met.
    pub fn make(&self, number: i32, alloc: Global) -> Result<Lsa, LsaFault>
        ensures ok { IfOk result (λ lsa. IsMade (lsa_value number (wanted_value self.now)) lsa) }
        ensures needs { OnOk result (HasAll (Needs number (wanted_value self.now))) }
        ensures fault { IfErr result (λ f. IsUnmade (Needs number (wanted_value self.now)) f) }
    {
        match self {
            OwnLsa::Router { router, links } => Lsa::router(alloc, *router, number, links),
            OwnLsa::Network {
                id,
                router,
                mask,
                routers,
            } => Lsa::network(alloc, *id, *router, number, *mask, routers),
        }
    }

    /// Whether an LSA is the wanted one, apart from number and checksum (RFC 2328, section 12.4).
    ///
    /// A fault is that of the wanted LSA, if it cannot be made.
    pub fn is_said_by(&self, copy: &LsaView<'_>, alloc: Global) -> Result<bool, LsaFault>
        ensures ok { IfOk result (λ said. said ≡ says (contents copy.now) (wanted_value self.now)) }
        ensures needs { OnOk result (HasAll (Needs first_number (wanted_value self.now))) }
        ensures fault { IfErr result (λ f. IsUnmade (Needs first_number (wanted_value self.now))
            f) }
    {
        let lsa = self.make(INITIAL_SEQUENCE_NUMBER, alloc)?;
        Ok(same_aside(copy, &lsa.view()))
    }
}

// Whether two LSAs say the same, numbers and checksums aside.
fn same_aside(a: &LsaView<'_>, b: &LsaView<'_>) -> bool
    ensures { result ≡ bytes_eq (take 10 (contents a.now) ++ drop 16 (contents a.now))
        (take 10 (contents b.now) ++ drop 16 (contents b.now)) }
{
    let (a, b) = (a.as_bytes(), b.as_bytes());
    let front = same_front(a, b);
    let rest = same_rest(a, b);
    front && rest
}

// Whether two LSAs have the same Options, kind, Link State ID and Advertising Router.
fn same_front(a: &[u8], b: &[u8]) -> bool
    requires first { 20 ≤ length a.now }
    requires second { 20 ≤ length b.now }
    ensures { result ≡ bytes_eq (take 10 (drop 2 a.now)) (take 10 (drop 2 b.now)) }
{
    a[OPTIONS_AT..NUMBER_AT] == b[OPTIONS_AT..NUMBER_AT]
}

// Whether they have the same length and body.
fn same_rest(a: &[u8], b: &[u8]) -> bool
    requires first { 20 ≤ length a.now }
    requires second { 20 ≤ length b.now }
    ensures { result ≡ bytes_eq (drop 18 a.now) (drop 18 b.now) }
{
    a[LENGTH_AT..] == b[LENGTH_AT..]
}
