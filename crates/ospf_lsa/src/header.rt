//! The header of an LSA.

ghost use Rattle.std.specs.Prelude.{◌≡◌, ◌≤◌, ◌++◌, length};
ghost use Rattle.ospf_base.specs.Bytes.{number_bytes};
ghost use Rattle.ospf_lsa.specs.Header.{header_of, header_bytes, key_of_header, HeaderFits};

use crate::layout::{ID_AT, LENGTH_AT, NUMBER_AT, OPTIONS_AT, ROUTER_AT, SUM_AT, TYPE_AT};
use ospf_base::{Age, LsaKey, RouterId, i32_at, u16_at, u32_at};

/// The header of an LSA, its numbers in host order (RFC 2328, appendix A.4.1).
#[derive(Clone, Copy, Debug, PartialEq, Eq)]
pub struct LsaHeader {
    pub age: Age,
    pub options: u8,
    /// The LS type.
    pub kind: u8,
    /// The Link State ID.
    pub id: u32,
    /// The Advertising Router.
    pub router: RouterId,
    /// The LS sequence number.
    pub number: i32,
    /// The LS checksum.
    pub sum: u16,
    /// In bytes, with the header.
    pub length: u16,
}

impl LsaHeader {
    /// The header that the bytes begin with. An age field above `MAX_AGE` is read as that.
    pub fn read(bytes: &[u8]) -> LsaHeader
        requires { 20 ≤ length bytes.now }
        ensures value { result ≡ header_of bytes.now }
        ensures fits { HeaderFits (header_of bytes.now) }
    {
        LsaHeader {
            age: Age::new(u16_at(bytes, 0)),
            options: bytes[OPTIONS_AT],
            kind: bytes[TYPE_AT],
            id: u32_at(bytes, ID_AT),
            router: RouterId(u32_at(bytes, ROUTER_AT)),
            number: i32_at(bytes, NUMBER_AT),
            sum: u16_at(bytes, SUM_AT),
            length: u16_at(bytes, LENGTH_AT),
        }
    }

    /// What names the LSA (RFC 2328, section 12.1); `None` of other LS types than 1 and 2.
    pub fn key(&self) -> Option<LsaKey>
        ensures { result ≡ key_of_header self.now }
    {
        LsaKey::from_type(u32::from(self.kind), self.id, self.router)
    }

    /// The 20 bytes of the header.
    pub fn to_bytes(&self) -> [u8; 20]
        ensures bytes { result ≡ number_bytes 2 self.now.age ++ header_bytes self.now }
        ensures fits { HeaderFits self.now }
    {
        let (options, kind, id, router) = (self.options, self.kind, self.id, self.router.0);
        let (number, sum, length) = (self.number, self.sum, self.length);
        let [a, b] = self.age.ticks().to_be_bytes();
        let [c, d, e, f] = id.to_be_bytes();
        let [g, h, i, j] = router.to_be_bytes();
        let [k, l, m, n] = number.to_be_bytes();
        let [o, p] = sum.to_be_bytes();
        let [q, r] = length.to_be_bytes();
        [
            a, b, options, kind, c, d, e, f, g, h, i, j, k, l, m, n, o, p, q, r,
        ]
    }
}
