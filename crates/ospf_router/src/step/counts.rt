//! How many datagrams a router dropped, by link and cause.

ghost use Rattle.std.specs.Prelude.{◌≡◌, IfOk};
ghost use Rattle.ospf_router.specs.AreaStep.Counts.{drops_for, with_dropped_on, no_drops, none_dropped_on, one_drop_more, with_drop, with_drop_on};

use crate::step::dropped::Dropped;
use std::alloc::{AllocError, Global};

/// How many of the datagrams that came in on a link were dropped, by cause.
#[derive(Clone, Copy, Debug, PartialEq, Eq)]
pub struct DropCounts {
    pub packet: u64,
    pub area: u64,
    pub own_packet: u64,
    pub destination: u64,
    pub subnet: u64,
    pub hello_mismatch: u64,
    pub no_neighbour: u64,
    pub wrong_router: u64,
    pub state: u64,
}

impl DropCounts {
    /// None was dropped yet.
    pub fn none() -> DropCounts
        ensures { result ≡ no_drops }
    {
        DropCounts {
            packet: 0,
            area: 0,
            own_packet: 0,
            destination: 0,
            subnet: 0,
            hello_mismatch: 0,
            no_neighbour: 0,
            wrong_router: 0,
            state: 0,
        }
    }

    /// How many were dropped for a cause.
    pub fn of(&self, cause: Dropped) -> u64
        ensures { result ≡ drops_for cause self.now }
    {
        match cause {
            Dropped::Packet => self.packet,
            Dropped::Area => self.area,
            Dropped::OwnPacket => self.own_packet,
            Dropped::Destination => self.destination,
            Dropped::Subnet => self.subnet,
            Dropped::HelloMismatch => self.hello_mismatch,
            Dropped::NoNeighbour => self.no_neighbour,
            Dropped::WrongRouter => self.wrong_router,
            Dropped::State => self.state,
        }
    }

    /// Counts one more that is dropped for a cause. The greatest number is not exceeded.
    pub fn count(&mut self, cause: Dropped)
        ensures { self.new ≡ with_drop cause self.old }
    {
        match cause {
            Dropped::Packet => self.packet = one_drop_more(self.packet),
            Dropped::Area => self.area = one_drop_more(self.area),
            Dropped::OwnPacket => self.own_packet = one_drop_more(self.own_packet),
            Dropped::Destination => self.destination = one_drop_more(self.destination),
            Dropped::Subnet => self.subnet = one_drop_more(self.subnet),
            Dropped::HelloMismatch => self.hello_mismatch = one_drop_more(self.hello_mismatch),
            Dropped::NoNeighbour => self.no_neighbour = one_drop_more(self.no_neighbour),
            Dropped::WrongRouter => self.wrong_router = one_drop_more(self.wrong_router),
            Dropped::State => self.state = one_drop_more(self.state),
        }
    }
}

/// The counts of as many links as there are of these, on which nothing was dropped yet.
///
/// `AllocError` where memory runs out.
pub fn none_dropped_on<T>(links: &[T], alloc: Global) -> Result<Vec<DropCounts>, AllocError>
    ensures { IfOk result (λ counts. counts.items ≡ none_dropped_on links.now) }
{
    let mut counts = Vec::new(alloc);
    for _link in links {
        counts.push(DropCounts::none())?;
    }
    Ok(counts)
}

/// Counts what came in on a link and was dropped, if anything did and was, in the counts of all
/// links. On a link that does not exist nothing is counted.
pub fn count_dropped(counts: &mut [DropCounts], link: Option<usize>, dropped: Option<Dropped>)
    ensures { counts.new ≡ with_dropped_on link dropped counts.old }
{
    if let (Some(link), Some(cause)) = (link, dropped) {
        count_on(counts, link, cause);
    }
}

// Counts one more on a link.
fn count_on(counts: &mut [DropCounts], link: usize, cause: Dropped)
    ensures { counts.new ≡ with_drop_on link cause counts.old }
{
    if link < counts.len() {
        counts[link].count(cause);
    }
}

// One more, up to the greatest number.
fn one_drop_more(count: u64) -> u64
    ensures { result ≡ one_drop_more count }
{
    if count == u64::MAX { count } else { count + 1 }
}
