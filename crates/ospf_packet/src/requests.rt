//! The entries of a Link State Request.

use crate::entry::RequestEntry;
use crate::layout::REQUEST_SIZE;
use std::marker::Model;

/// A walk over the entries of a Link State Request (RFC 2328, appendix A.3.4).
#[derive(Drop)]
pub struct Requests<'a> {
    left: usize,
    rest: &'a [u8],
}

impl<'a> Model for Requests<'a> {
    ghost use Rattle.std.specs.Prelude.{List, ◌*◌, ◌≤◌, length};
    ghost use Rattle.ospf_packet.specs.declared.entry.RequestEntry.{RequestEntry};

    ghost Value = { List RequestEntry };

    ghost use Rattle.ospf_packet.specs.Requests.{request_size, requests_in};

    ghost view = { λ w. requests_in w.left w.rest.now };

    ghost invariant = { λ w. w.left * request_size ≤ length w.rest.now };
}

impl<'a> Iterator for Requests<'a> {
    type Item = RequestEntry;

    ghost use Rattle.std.specs.Iterator.{YieldsFirst, item_count};

    ghost next_gives = { YieldsFirst (λ s. s) };

    ghost remaining = { item_count (λ s. s) };

    fn next(&mut self) -> Option<RequestEntry> {
        if self.left == 0 {
            return None;
        }
        let entry = RequestEntry::read(self.rest);
        self.rest = &self.rest[REQUEST_SIZE..];
        self.left -= 1;
        Some(entry)
    }
}

impl<'a> Requests<'a> {
    ghost use Rattle.std.specs.Prelude.{◌≡◌, ◌/◌, length};
    ghost use Rattle.ospf_packet.specs.Requests.{request_size, requests_in};

    /// The same walk, from where it is.
    pub fn copy(&self) -> Requests<'a>
        ensures { result ≡ self.now }
    {
        Requests {
            left: self.left,
            rest: self.rest,
        }
    }

    // The walk over the entries that fill the bytes.
    pub(crate) fn new(bytes: &'a [u8]) -> Requests<'a>
        ensures { result ≡ requests_in (length bytes.now / request_size) bytes.now }
    {
        Requests {
            left: bytes.len() / REQUEST_SIZE,
            rest: bytes,
        }
    }
}
