//! The events of scripts.

ghost use Rattle.ospf_script.specs.Commands.{AreEventsOf, IsEventOf, IsStart};
ghost use Rattle.ospf_script.specs.Words.{Finds, line_words};

use crate::command::Many;
use crate::name::Name;
use crate::shapes::{address_in, router_and_link_in, router_in};
use crate::spelled::Spelled;
use crate::values::{floor_of, number_of, router_of};
use crate::words::{is_alone, three_words, two_words};
use ospf_base::event::WorldEvent;
use ospf_base::{NO_FLOOR, RouterId};

// The event of a name, and of the words after it.
pub(crate) fn event_in(name: Name, text: &[u8]) -> Option<WorldEvent>
    ensures { Finds result (IsEventOf name (line_words text.now)) }
{
    match name {
        Name::Start => {
            let (router, dd_start, floor) = start_in(text)?;
            Some(WorldEvent::Start {
                router,
                dd_start,
                floor,
            })
        }
        Name::Stop => Some(WorldEvent::Stop {
            router: router_in(text)?,
        }),
        Name::Tick => Some(WorldEvent::Tick {
            router: router_in(text)?,
        }),
        Name::Up => {
            let (router, link) = router_and_link_in(text)?;
            Some(WorldEvent::LinkUp { router, link })
        }
        Name::Down => {
            let (router, link) = router_and_link_in(text)?;
            Some(WorldEvent::LinkDown { router, link })
        }
        Name::Deliver => {
            let (datagram, router, link) = three_words(text)?;
            Some(WorldEvent::Deliver {
                datagram: number_of(datagram)? as usize,
                router: router_of(router)?,
                link: number_of(link)? as usize,
            })
        }
        _ => None,
    }
}

// The events at many routers of a name, and of the words after it.
pub(crate) fn many_in(name: Name, text: &[u8]) -> Option<Many>
    ensures { Finds result (AreEventsOf name (line_words text.now)) }
{
    match name {
        Name::Start if is_alone(text, "all") => Some(Many::Start),
        Name::Up if is_alone(text, "all") => Some(Many::Up),
        Name::Down if is_alone(text, "all") => Some(Many::Down),
        Name::Cut => Some(Many::Cut {
            network: address_in(text)?,
        }),
        Name::Mend => Some(Many::Mend {
            network: address_in(text)?,
        }),
        _ => None,
    }
}

// A Router ID, a first DD sequence number and a floor, or no floor.
fn start_in(text: &[u8]) -> Option<(RouterId, u32, i32)>
    ensures { Finds result (λ found. IsStart (line_words text.now) found.0 found.1 found.2) }
{
    if let Some((router, dd_start)) = two_words(text) {
        return Some((router_of(router)?, u32::of_word(dd_start)?, NO_FLOOR));
    }
    let (router, dd_start, floor) = three_words(text)?;
    let router = router_of(router)?;
    Some((router, u32::of_word(dd_start)?, floor_of(floor)?))
}
