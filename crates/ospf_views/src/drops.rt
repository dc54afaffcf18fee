//! Why a router drops what it receives.

ghost use Rattle.std.specs.Fmt.{WritesOnOk};
ghost use Rattle.std.specs.Prelude.{◌≡◌, IfOk, string_bytes};
ghost use Rattle.ospf_packet.specs.PacketOf.{packet_of};
ghost use Rattle.ospf_views.specs.Drops.{detail_for, detail_words, drop_reason, dropped_detail, reason_line};

use crate::detail::{Detail, detail_of};
use ospf_area::Sent;
use ospf_base::Addr;
use ospf_journal::dropped_of;
use ospf_router::Router;
use ospf_router::step::Dropped;
use std::alloc::{AllocError, Global};
use std::fmt::{self, Display, Formatter, Write};

// A datagram that is dropped: where it came from, why, and which field of it does not fit.
#[derive(Clone, Copy)]
struct DropShown {
    source: Addr,
    cause: Dropped,
    detail: Option<Detail>,
}

/// As ` would drop the last datagram of 10.0.0.2: R9 State`, with a field that does not fit.
impl Display for DropShown {
    ghost use Rattle.std.specs.Prelude.{Some};
    ghost use Rattle.ospf_views.specs.Drops.{reason_line};

    ghost output = { λ d. Some (reason_line d.source d.cause d.detail) };

    fn fmt<W: Write>(&self, f: &mut Formatter<W>) -> fmt::Result {
        write!(f, "  would drop the last packet from {}: ", self.source)?;
        write!(f, "{}", self.cause)?;
        write_detail(f, self.detail)?;
        f.write_str("\n")
    }
}

/// Why a router would drop a datagram that comes on a link now, with the field that does not fit.
///
/// `AllocError` where memory runs out.
pub fn drop_reason(
    router: &Router,
    link: usize,
    sent: &Sent,
    alloc: Global,
) -> Result<String, AllocError>
    ensures { IfOk result (λ line. string_bytes line ≡ drop_reason router.now.area link sent.now) }
{
    match dropped_of(router, link, sent.source, sent.destination, &sent.bytes) {
        Some(cause) => {
            let detail = dropped_detail(router, link, cause, &sent.bytes);
            reason_line(alloc, sent.source, cause, detail)
        }
        None => Ok(String::new(alloc)),
    }
}

/// The field for which a router dropped a datagram that came on a link, where the cause is one that
/// a field explains. It takes no memory.
pub fn dropped_detail(router: &Router, link: usize, cause: Dropped, bytes: &[u8]) -> Option<Detail>
    ensures { result ≡ dropped_detail router.now.area link cause (packet_of bytes.now) }
{
    detail_for(cause, detail_of(router, link, bytes))
}

// The field, where the cause is one that it may explain.
fn detail_for(cause: Dropped, detail: Option<Detail>) -> Option<Detail>
    ensures { result ≡ detail_for cause detail }
{
    match cause {
        Dropped::Area | Dropped::HelloMismatch | Dropped::State => detail,
        _ => None,
    }
}

fn reason_line(
    alloc: Global,
    source: Addr,
    cause: Dropped,
    detail: Option<Detail>,
) -> Result<String, AllocError>
    ensures { IfOk result (λ line. string_bytes line ≡ reason_line source cause detail) }
{
    let shown = DropShown {
        source,
        cause,
        detail,
    };
    format!(in alloc; "{shown}")
}

// The field, if there is one.
fn write_detail<W: Write>(f: &mut Formatter<W>, detail: Option<Detail>) -> fmt::Result
    ensures { WritesOnOk W.Write.write_str_gives f.old result (detail_words detail) f.new }
{
    match detail {
        Some(detail) => write!(f, ": {detail}"),
        None => Ok(()),
    }
}
