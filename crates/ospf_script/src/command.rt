//! The commands of a script.

use crate::expected::Expected;
use ospf_base::event::WorldEvent;
use ospf_base::{Addr, RouterId};

/// What a line of a script asks for: an event, several events, or a line to be printed.
#[derive(Debug, PartialEq, Eq, Drop)]
pub enum Command {
    /// `start R DD [FLOOR]`, `stop R`, `tick R`, `up R LINK`, `down R LINK` or `deliver N R
    /// LINK`: an event. A start has the first DD sequence number that the router sends, and the
    /// floor of its LS sequence numbers.
    Event {
        event: WorldEvent,
    },
    /// `start all`, `up all`, `down all`, `cut ADDRESS` or `mend ADDRESS`: events at many routers.
    Many {
        many: Many,
    },
    /// `round COUNT [MOST]`: so many rounds, and how many datagrams each
    /// offers at most where that is given.
    Round {
        count: u64,
        most: Option<u64>,
    },
    /// `batch COUNT`: this many batches: rounds that deliver what waits, router by router.
    Batch {
        count: u64,
    },
    /// `random NUMBER COUNT`: this many random events, with the number as seed.
    Random {
        number: u64,
        count: u64,
    },
    /// `settle MAX`: rounds until nothing changes any more, at most this many.
    Settle {
        most: u64,
    },
    /// `neighbours R`, `listing R`, `table R` or `floor R`: this is printed of the router.
    Show {
        view: View,
        router: RouterId,
    },
    /// `walk R ADDRESS [CHOICE..]`: the walk from a router towards an address is printed, with the
    /// choice of a hop at each router that it meets.
    Walk {
        from: RouterId,
        address: Addr,
        choices: Vec<u32>,
    },
    /// `say WORD..`: the words are printed, with a space between two.
    Say {
        text: String,
    },
    /// `why R LINK [NEIGHBOUR]`: what a link of the router waits for is printed, or of
    /// a neighbour where one is given.
    Why {
        router: RouterId,
        link: usize,
        neighbour: Option<RouterId>,
    },
    /// `why headline R`: whether every router that this one reaches runs and lists the same LSAs
    /// as it is printed; and if not, which one does not.
    WhyHeadline {
        router: RouterId,
    },
    /// `datagrams R [MOST]`: the last datagrams that a round offers to the router are printed, at
    /// most so many where that is given, each as the line that delivers it.
    Datagrams {
        router: RouterId,
        most: Option<u64>,
    },
    /// `drops R`: how many datagrams the router dropped since it started
    /// is printed, by link and cause.
    Drops {
        router: RouterId,
    },
    /// `lsas R`: the LSAs that the router lists are printed, with what each says.
    Lsas {
        router: RouterId,
    },
    /// `loss PERCENT NUMBER [ADDRESS]`: from here on this many of a hundred deliveries are
    /// lost at random, by the generator of this number; only on the network that holds the
    /// address, if one is given.
    Loss {
        percent: u8,
        number: u64,
        network: Option<Addr>,
    },
    /// `expect WHAT ..`: if something is not as expected, that is printed, with what was
    /// found instead.
    Expect {
        expected: Expected,
    },
    /// `label on` or `label off`: whether what is shown from here on is headed by a line.
    Label {
        is_on: bool,
    },
}

/// Events at many routers.
#[derive(Clone, Copy, Debug, PartialEq, Eq)]
pub enum Many {
    /// Each router starts, with 1 as the first DD sequence number that it sends, and above no
    /// floor.
    Start,
    /// Each link of each router comes up.
    Up,
    /// Each link of each router goes down.
    Down,
    /// Each link to the network that holds the address goes down.
    Cut { network: Addr },
    /// Each link to the network that holds the address comes up.
    Mend { network: Addr },
}

/// What is shown of a router.
#[derive(Clone, Copy, Debug, PartialEq, Eq)]
pub enum View {
    /// Its neighbours, by link and Router ID: the number of the link, the Router ID, the state.
    Neighbours,
    /// The LSAs that it lists: kind, Link State ID, Advertising Router, sequence number, checksum.
    Listing,
    /// Its routing table, a line a route.
    Table,
    /// The greatest of the floor of the start and the numbers of its own LSAs since.
    Floor,
}
