//! The LSAs of a Link State Update.

ghost use Rattle.std.specs.Prelude.{◌≡◌, ◌↔◌, IsTrue, IfSome, IfNone};
ghost use Rattle.ospf_packet.specs.Slices.{IsFirstSlice, IsSplit};

use ospf_base::{LSA_HEADER, u16_at};
use ospf_lsa::LENGTH_AT;
use std::marker::Model;

/// An iterator over the LSAs in a Link State Update (RFC 2328, appendix A.3.5), each the slice of
/// the packet that its length field delimits.
///
/// `LsaView::read` checks whether a slice is a valid LSA.
#[derive(Drop)]
pub struct Lsas<'a> {
    left: u32,
    rest: &'a [u8],
}

impl<'a> Model for Lsas<'a> {
    ghost use Rattle.std.specs.Prelude.{ℕ, List};

    ghost Value = { List (List ℕ) };

    ghost use Rattle.ospf_packet.specs.Slices.{slices_in, AreSlices};

    ghost view = { λ w. slices_in w.left w.rest.now };

    ghost invariant = { λ w. AreSlices w.left w.rest.now };
}

impl<'a> Iterator for Lsas<'a> {
    type Item = &'a [u8];

    ghost use Rattle.std.specs.Iterator.{YieldsFirstRef, item_count};

    ghost next_gives = { YieldsFirstRef (λ s. s) };

    ghost remaining = { item_count (λ s. s) };

    fn next(&mut self) -> Option<&'a [u8]> {
        if self.left == 0 {
            return None;
        }
        let (lsa, rest) = first(self.rest)?;
        self.rest = rest;
        self.left -= 1;
        Some(lsa)
    }
}

impl<'a> Lsas<'a> {
    ghost use Rattle.ospf_packet.specs.Slices.{slices_in, AreSlices};

    // The walk over this many LSAs, which are all of the bytes.
    pub(crate) fn new(count: u32, bytes: &'a [u8]) -> Lsas<'a>
        requires { AreSlices count bytes.now }
        ensures { result ≡ slices_in count bytes.now }
    {
        Lsas {
            left: count,
            rest: bytes,
        }
    }

    // Whether the bytes are exactly this many LSAs.
    pub(crate) fn are_all(count: u32, bytes: &[u8]) -> bool
        ensures { IsTrue result ↔ AreSlices count bytes.now }
    {
        let mut rest = bytes;
        for _ in 0..count {
            match first(rest) {
                Some((_, after)) => rest = after,
                None => return false,
            }
        }
        rest.is_empty()
    }
}

// The LSA at the front and the bytes after it, if there is one.
fn first(bytes: &[u8]) -> Option<(&[u8], &[u8])>
    ensures found { IfSome result (λ f. IsSplit bytes.now f.0.now f.1.now) }
    ensures none { IfNone result (IsFirstSlice bytes.now → ⊥) }
{
    if bytes.len() < LSA_HEADER {
        return None;
    }
    let length = usize::from(u16_at(bytes, LENGTH_AT));
    if length < LSA_HEADER || length > bytes.len() {
        return None;
    }
    Some(bytes.split_at(length))
}
