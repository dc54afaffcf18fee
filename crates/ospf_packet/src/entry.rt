//! The entries of a Link State Request.

ghost use Rattle.std.specs.Prelude.{◌≡◌, ◌≤◌, length};

use ospf_base::{RouterId, u32_at};

/// What a router asks for: an LSA by LS type, Link State ID and Advertising
/// Router (RFC 2328, appendix A.3.4).
///
/// The LS type is the number in the packet, of any kind.
#[derive(Clone, Copy, Debug, PartialEq, Eq)]
pub struct RequestEntry {
    pub kind: u32,
    pub id: u32,
    pub router: RouterId,
}

impl RequestEntry {
    ghost use Rattle.ospf_packet.specs.Requests.{request_entry_at, request_entry_bytes, request_size, RequestEntryFits};

    // The entry in the first 12 bytes.
    pub(crate) fn read(bytes: &[u8]) -> RequestEntry
        requires { request_size ≤ length bytes.now }
        ensures { result ≡ request_entry_at bytes.now }
    {
        RequestEntry {
            kind: u32_at(bytes, 0),
            id: u32_at(bytes, 4),
            router: RouterId(u32_at(bytes, 8)),
        }
    }

    // The 12 bytes of the entry.
    pub(crate) fn to_bytes(self) -> [u8; 12]
        ensures bytes { result ≡ request_entry_bytes self }
        ensures fits { RequestEntryFits self }
    {
        let [a, b, c, d] = self.kind.to_be_bytes();
        let [e, f, g, h] = self.id.to_be_bytes();
        let [i, j, k, l] = self.router.0.to_be_bytes();
        [a, b, c, d, e, f, g, h, i, j, k, l]
    }
}
