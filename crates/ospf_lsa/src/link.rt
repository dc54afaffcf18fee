//! The links of a router-LSA.

ghost use Rattle.std.specs.Prelude.{◌≡◌, ◌≤◌, ◌↔◌, IsTrue, IfSome, IfNone, length};

use crate::layout::{LINK_SIZE, TOS_SIZE};
use ospf_base::{is_mask, u16_at, u32_at};
use std::marker::Model;

/// The types of links.
#[derive(Clone, Copy, Debug, PartialEq, Eq)]
pub enum LinkKind {
    PointToPoint,
    Transit,
    Stub,
    Virtual,
}

impl LinkKind {
    ghost use Rattle.std.specs.Prelude.{◌≡◌};
    ghost use Rattle.ospf_lsa.specs.Link.{kind_byte};

    /// The number of the type (RFC 2328, appendix A.4.2).
    pub fn byte(self) -> u8
        ensures { result ≡ kind_byte self }
    {
        match self {
            LinkKind::PointToPoint => 1,
            LinkKind::Transit => 2,
            LinkKind::Stub => 3,
            LinkKind::Virtual => 4,
        }
    }
}

/// A link of a router-LSA, its numbers in host order (RFC 2328, appendix A.4.2).
#[derive(Clone, Copy, Debug, PartialEq, Eq)]
pub struct Link {
    /// The Link ID.
    pub id: u32,
    pub link_data: u32,
    pub kind: LinkKind,
    /// The TOS 0 metric.
    pub metric: u16,
}

impl Link {
    ghost use Rattle.ospf_lsa.specs.Link.{link_at, link_bytes, IsLink, IsFirstLink, LinkFits};
    ghost use Rattle.ospf_lsa.specs.Lsa.{HasMask, HasCost};

    // Whether the Link Data of a link of type 3 is a mask without a hole.
    pub(crate) fn has_mask(&self) -> bool
        ensures { IsTrue result ↔ HasMask self.now }
    {
        self.kind != LinkKind::Stub || is_mask(self.link_data)
    }

    // Whether a link to a router or a transit network costs something.
    pub(crate) fn has_cost(&self) -> bool
        ensures { IsTrue result ↔ HasCost self.now }
    {
        match self.kind {
            LinkKind::PointToPoint | LinkKind::Transit => self.metric > 0,
            LinkKind::Stub | LinkKind::Virtual => true,
        }
    }

    // The 12 bytes of the link, without TOS metrics.
    pub(crate) fn to_bytes(&self) -> [u8; 12]
        ensures bytes { result ≡ link_bytes self.now }
        ensures fits { LinkFits self.now }
    {
        let (id, link_data, metric) = (self.id, self.link_data, self.metric);
        let [a, b, c, d] = id.to_be_bytes();
        let [e, f, g, h] = link_data.to_be_bytes();
        let [i, j] = metric.to_be_bytes();
        [a, b, c, d, e, f, g, h, self.kind.byte(), 0, i, j]
    }

    // The link in the first 12 bytes.
    fn read(bytes: &[u8]) -> Link
        requires { 12 ≤ length bytes.now }
        ensures { result ≡ link_at bytes.now }
    {
        let kind = match bytes[8] {
            1 => LinkKind::PointToPoint,
            2 => LinkKind::Transit,
            3 => LinkKind::Stub,
            _ => LinkKind::Virtual,
        };
        Link {
            id: u32_at(bytes, 0),
            link_data: u32_at(bytes, 4),
            kind,
            metric: u16_at(bytes, 10),
        }
    }

    // The link at the front and the bytes after it, if there is a link at the front.
    fn first(bytes: &[u8]) -> Option<(Link, &[u8])>
        ensures found { IfSome result (λ f. IsFirstLink bytes.now f.0 f.1.now) }
        ensures none { IfNone result (IsLink bytes.now → ⊥) }
    {
        if bytes.len() < LINK_SIZE || bytes[8] < 1 || bytes[8] > 4 {
            return None;
        }
        let size = LINK_SIZE + TOS_SIZE * usize::from(bytes[9]);
        if size > bytes.len() {
            return None;
        }
        Some((Link::read(bytes), &bytes[size..]))
    }
}

/// A walk over links, one after the other.
#[derive(Drop)]
pub struct Links<'a> {
    left: u16,
    rest: &'a [u8],
}

impl<'a> Model for Links<'a> {
    ghost use Rattle.std.specs.Prelude.{List};
    ghost use Rattle.ospf_lsa.specs.declared.link.Link.{Link};

    ghost Value = { List Link };

    ghost use Rattle.ospf_lsa.specs.Link.{links_in, AreLinks};

    ghost view = { λ w. links_in w.left w.rest.now };

    ghost invariant = { λ w. AreLinks w.left w.rest.now };
}

impl<'a> Iterator for Links<'a> {
    type Item = Link;

    ghost use Rattle.std.specs.Iterator.{YieldsFirst, item_count};

    ghost next_gives = { YieldsFirst (λ s. s) };

    ghost remaining = { item_count (λ s. s) };

    fn next(&mut self) -> Option<Link> {
        if self.left == 0 {
            return None;
        }
        let (link, rest) = Link::first(self.rest)?;
        self.rest = rest;
        self.left -= 1;
        Some(link)
    }
}

impl<'a> Links<'a> {
    ghost use Rattle.ospf_lsa.specs.Link.{links_in, AreLinks};

    // The walk over this many links, which are all of the bytes.
    pub(crate) fn new(count: u16, bytes: &'a [u8]) -> Links<'a>
        requires { AreLinks count bytes.now }
        ensures { result ≡ links_in count bytes.now }
    {
        Links {
            left: count,
            rest: bytes,
        }
    }

    // Whether the bytes are this many links.
    pub(crate) fn are_all(count: u16, bytes: &[u8]) -> bool
        ensures { IsTrue result ↔ AreLinks count bytes.now }
    {
        let mut rest = bytes;
        for _ in 0..count {
            match Link::first(rest) {
                Some((_, after)) => rest = after,
                None => return false,
            }
        }
        rest.is_empty()
    }
}
