//! What a router is stepped with.

use ospf_base::Addr;

/// What a router is stepped with. Links are named by their numbers.
#[derive(Clone, Copy, Debug)]
pub enum Event<'a> {
    /// A datagram comes in on a link.
    Datagram {
        link: usize,
        source: Addr,
        destination: Addr,
        bytes: &'a [u8],
    },
    /// A second passes.
    Tick,
    /// A link goes up (RFC 2328, section 9.2, InterfaceUp).
    LinkUp {
        link: usize,
    },
    /// A link goes down (section 9.2, InterfaceDown).
    LinkDown {
        link: usize,
    },
}

impl Event<'_> {
    ghost use Rattle.std.specs.Prelude.{◌≡◌};
    ghost use Rattle.ospf_router.specs.AreaStep.Counts.{comes_on};
    ghost use Rattle.ospf_router.specs.AreaStep.Events.{happening};

    /// The link that a datagram comes in on; nothing if the event is none.
    pub fn comes_on(self) -> Option<usize>
        ensures { result ≡ comes_on (happening self.entry) }
    {
        match self {
            Event::Datagram { link, .. } => Some(link),
            Event::Tick => None,
            Event::LinkUp { .. } => None,
            Event::LinkDown { .. } => None,
        }
    }
}
