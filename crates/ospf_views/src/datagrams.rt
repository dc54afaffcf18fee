//! The datagrams that a round offers to a router, as lines of a script that deliver them.

ghost use Rattle.std.specs.Fmt.{WritesOnOk};
ghost use Rattle.std.specs.Prelude.{◌≡◌, IfOk, flat_map, string_bytes};
ghost use Rattle.std.specs.List.{list_any};
ghost use Rattle.ospf_views.specs.Datagrams.{cause_words, datagram_lines, is_offer_to, kind_words, offer_line, offer_lines};

use ospf_base::RouterId;
use ospf_journal::dropped_of;
use ospf_router::Router;
use ospf_router::step::Dropped;
use ospf_world::{Datagram, World, WorldEvent};
use std::alloc::{AllocError, Global};
use std::fmt::{self, Display, Formatter, Write};

/// The last deliveries of a round to a router, at most so many, the newest first: lines of a script
/// that say what each is and why it would be dropped. `AllocError` where memory runs out.
pub fn datagram_lines(
    world: &World,
    router: &Router,
    to: RouterId,
    most: u64,
    alloc: Global,
) -> Result<String, AllocError>
    ensures { IfOk result (λ text. string_bytes text
        ≡ datagram_lines world.now to most router.now.area) }
{
    let mut lines = String::new(alloc);
    let mut left = most;
    let mut rest = world.datagrams();
    while let Some((datagram, before)) = rest.split_last() {
        if left == 0 {
            return Ok(lines);
        }
        let offers = world.offers_of(before.len(), datagram, alloc)?;
        if has_offer(&offers, to) {
            let more = offer_lines(router, to, datagram, &offers, alloc)?;
            lines.push_str(&more)?;
            left -= 1;
        }
        rest = before;
    }
    Ok(lines)
}

// Whether one of these events is a delivery to a router.
fn has_offer(events: &[WorldEvent], to: RouterId) -> bool
    ensures { result ≡ list_any (is_offer_to to) events.now }
{
    events.iter().any(|event| is_offer_to(to, event))
}

// Whether an event is a delivery to a router.
fn is_offer_to(to: RouterId, event: &WorldEvent) -> bool
    ensures { result ≡ is_offer_to to event.now }
{
    match event {
        WorldEvent::Deliver { router, .. } => router.0 == to.0,
        _ => false,
    }
}

// A line for each delivery to a router.
fn offer_lines(
    router: &Router,
    to: RouterId,
    datagram: &Datagram,
    offers: &[WorldEvent],
    alloc: Global,
) -> Result<String, AllocError>
    ensures { IfOk result (λ lines. string_bytes lines
        ≡ flat_map (offer_line router.now.area to datagram.now) offers.now) }
{
    let mut lines = String::new(alloc);
    for offer in offers {
        let line = offer_line(router, to, datagram, offer, alloc)?;
        lines.push_str(&line)?;
    }
    Ok(lines)
}

// The line of a delivery to a router; nothing of one to another.
fn offer_line(
    router: &Router,
    to: RouterId,
    datagram: &Datagram,
    offer: &WorldEvent,
    alloc: Global,
) -> Result<String, AllocError>
    ensures { IfOk result (λ line. string_bytes line
        ≡ offer_line router.now.area to datagram.now offer.now) }
{
    match offer {
        WorldEvent::Deliver {
            datagram: number,
            router: at,
            link,
        } if at.0 == to.0 => {
            let sent = &datagram.sent;
            let shown = OfferShown {
                number: *number,
                router: *at,
                link: *link,
                kind: kind_words(sent.bytes.get(1).copied()),
                from: datagram.router,
                cause: dropped_of(router, *link, sent.source, sent.destination, &sent.bytes),
            };
            format!(in alloc; "{shown}")
        }
        _ => Ok(String::new(alloc)),
    }
}

// A datagram offered to a link: its number, what it is, of whom, and why it would be dropped.
#[derive(Clone, Copy)]
struct OfferShown {
    number: usize,
    router: RouterId,
    link: usize,
    kind: &'static str,
    from: RouterId,
    cause: Option<Dropped>,
}

/// As `deliver 17 1.1.1.1 0 # Hello of 2.2.2.2, would be dropped: R6 HelloMismatch`.
impl Display for OfferShown {
    ghost use Rattle.std.specs.Prelude.{Some};
    ghost use Rattle.ospf_views.specs.Datagrams.{offer_text};

    ghost output = { λ o. Some (offer_text o.number o.router o.link o.kind.now o.from o.cause) };

    fn fmt<W: Write>(&self, f: &mut Formatter<W>) -> fmt::Result {
        write!(f, "deliver {} {} {}", self.number, self.router, self.link)?;
        write!(f, " # {} of {}", self.kind, self.from)?;
        write_cause(f, self.cause)
    }
}

// Why it would be dropped, if it would, and the end of the line.
fn write_cause<W: Write>(f: &mut Formatter<W>, cause: Option<Dropped>) -> fmt::Result
    ensures { WritesOnOk W.Write.write_str_gives f.old result (cause_words cause) f.new }
{
    match cause {
        Some(cause) => write!(f, ", would be dropped: {cause}\n"),
        None => f.write_str("\n"),
    }
}

// The name of a packet's type (RFC 2328, appendix A.3.1).
fn kind_words(kind: Option<u8>) -> &'static str
    ensures { result.now ≡ kind_words kind }
{
    match kind {
        Some(1) => "Hello",
        Some(2) => "Database Description",
        Some(3) => "Link State Request",
        Some(4) => "Link State Update",
        Some(5) => "Link State Acknowledgment",
        _ => "packet",
    }
}
