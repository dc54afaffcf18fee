//! What the five packets say.

ghost use Rattle.std.specs.Prelude.{◌≡◌, ◌≤◌, length};

use crate::headers::Headers;
use crate::lsas::Lsas;
use crate::requests::Requests;
use ospf_base::{Addr, u16_at, u32_at};
use ospf_lsa::Attached;

/// The fields of a Hello (RFC 2328, appendix A.3.2).
#[derive(Clone, Copy, Debug, PartialEq, Eq)]
pub struct Hello {
    /// That of the sender's network.
    pub mask: u32,
    /// In ticks.
    pub hello_interval: u16,
    pub options: u8,
    /// The sender's Router Priority; 0 where it is never to be Designated Router or Backup.
    pub priority: u8,
    /// In ticks.
    pub dead_interval: u32,
    /// The Designated Router's interface address, 0.0.0.0 where there is none.
    pub designated: Addr,
    /// The Backup Designated Router's interface address, 0.0.0.0 where there is none.
    pub backup: Addr,
}

impl Hello {
    ghost use Rattle.ospf_packet.specs.Fields.{hello_at, hello_bytes, hello_fields, HelloFits};

    // The fields in the first 20 bytes of a body.
    pub(crate) fn read(body: &[u8]) -> Hello
        requires { hello_fields ≤ length body.now }
        ensures { result ≡ hello_at body.now }
    {
        Hello {
            mask: u32_at(body, 0),
            hello_interval: u16_at(body, 4),
            options: body[6],
            priority: body[7],
            dead_interval: u32_at(body, 8),
            designated: Addr(u32_at(body, 12)),
            backup: Addr(u32_at(body, 16)),
        }
    }

    // The 20 bytes of the fields.
    pub(crate) fn to_bytes(self) -> [u8; 20]
        ensures bytes { result ≡ hello_bytes self }
        ensures fits { HelloFits self }
    {
        let [a, b, c, d] = self.mask.to_be_bytes();
        let [e, f] = self.hello_interval.to_be_bytes();
        let [g, h, i, j] = self.dead_interval.to_be_bytes();
        let [k, l, m, n] = self.designated.0.to_be_bytes();
        let [o, p, q, r] = self.backup.0.to_be_bytes();
        let (options, priority) = (self.options, self.priority);
        [
            a, b, c, d, e, f, options, priority, g, h, i, j, k, l, m, n, o, p, q, r,
        ]
    }
}

/// The fields of a Database Description (RFC 2328, appendix A.3.3).
#[derive(Clone, Copy, Debug, PartialEq, Eq)]
pub struct Description {
    /// The longest IP datagram, in bytes, that the sender's interface sends whole.
    pub mtu: u16,
    pub options: u8,
    /// I is 4, M is 2, MS is 1; the other bits are carried and not examined.
    pub flags: u8,
    /// The DD sequence number.
    pub number: u32,
}

impl Description {
    ghost use Rattle.ospf_packet.specs.Fields.{description_at, description_bytes, description_fields, DescriptionFits};

    // The fields in the first 8 bytes of a body.
    pub(crate) fn read(body: &[u8]) -> Description
        requires { description_fields ≤ length body.now }
        ensures { result ≡ description_at body.now }
    {
        Description {
            mtu: u16_at(body, 0),
            options: body[2],
            flags: body[3],
            number: u32_at(body, 4),
        }
    }

    // The 8 bytes of the fields.
    pub(crate) fn to_bytes(self) -> [u8; 8]
        ensures bytes { result ≡ description_bytes self }
        ensures fits { DescriptionFits self }
    {
        let [a, b] = self.mtu.to_be_bytes();
        let [c, d, e, f] = self.number.to_be_bytes();
        [a, b, self.options, self.flags, c, d, e, f]
    }
}

/// The body of a packet, read in place: its fields, and an iterator
/// over the list after them.
#[derive(Drop)]
pub enum Body<'a> {
    /// With the Router IDs of the neighbours that were heard.
    Hello(Hello, Attached<'a>),
    /// With the headers of LSAs in the sender's database.
    Description(Description, Headers<'a>),
    Request(Requests<'a>),
    Update(Lsas<'a>),
    /// The headers of the LSAs that were received.
    Acknowledgment(Headers<'a>),
}
