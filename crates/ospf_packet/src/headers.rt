//! The LSA headers of a packet.

use ospf_base::LSA_HEADER;
use ospf_lsa::LsaHeader;
use std::marker::Model;

/// A walk over the LSA headers in a Database Description or a Link State Acknowledgment (RFC
/// 2328, appendices A.3.3 and A.3.6).
#[derive(Drop)]
pub struct Headers<'a> {
    left: usize,
    rest: &'a [u8],
}

impl<'a> Model for Headers<'a> {
    ghost use Rattle.std.specs.Prelude.{List, ◌*◌, ◌≤◌, length};
    ghost use Rattle.ospf_lsa.specs.declared.header.LsaHeader.{LsaHeader};

    ghost Value = { List LsaHeader };

    ghost use Rattle.ospf_base.specs.Constants.{lsa_header};
    ghost use Rattle.ospf_packet.specs.Headers.{headers_in};

    ghost view = { λ w. headers_in w.left w.rest.now };

    ghost invariant = { λ w. w.left * lsa_header ≤ length w.rest.now };
}

impl<'a> Iterator for Headers<'a> {
    type Item = LsaHeader;

    ghost use Rattle.std.specs.Iterator.{YieldsFirst, item_count};

    ghost next_gives = { YieldsFirst (λ s. s) };

    ghost remaining = { item_count (λ s. s) };

    fn next(&mut self) -> Option<LsaHeader> {
        if self.left == 0 {
            return None;
        }
        let header = LsaHeader::read(self.rest);
        self.rest = &self.rest[LSA_HEADER..];
        self.left -= 1;
        Some(header)
    }
}

impl<'a> Headers<'a> {
    ghost use Rattle.std.specs.Prelude.{◌≡◌, ◌==◌, ◌/◌, length};
    ghost use Rattle.ospf_base.specs.Constants.{lsa_header};
    ghost use Rattle.ospf_packet.specs.Headers.{headers_in};

    /// The same walk, from where it is.
    pub fn copy(&self) -> Headers<'a>
        ensures { result ≡ self.now }
    {
        Headers {
            left: self.left,
            rest: self.rest,
        }
    }

    /// Whether no header is left. It goes no step.
    #[tactic(auto, using(crate::proofs::HeaderLists::count_left))]
    pub fn is_empty(&self) -> bool
        ensures { result ≡ (length self.now == 0) }
    {
        self.left == 0
    }

    // The walk over the headers that fill the bytes.
    pub(crate) fn new(bytes: &'a [u8]) -> Headers<'a>
        ensures { result ≡ headers_in (length bytes.now / lsa_header) bytes.now }
    {
        Headers {
            left: bytes.len() / LSA_HEADER,
            rest: bytes,
        }
    }
}
