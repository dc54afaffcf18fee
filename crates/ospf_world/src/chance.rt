//! What is drawn at random.

ghost use Rattle.std.specs.Prelude.{◌≡◌, ◌<◌, ◌==◌, IfSome};
ghost use Rattle.ospf_world.specs.Draws.{chosen_of, drawn_delivery, drawn_for, drawn_link_down, drawn_link_up, drawn_turn, words_from};

use ospf_base::event::WorldEvent;
use ospf_base::{NO_FLOOR, RouterId};
use rand_core::utils::NextWord;
use rand_pcg::Lcg64Xsh32;

/// The words that an event is drawn from.
#[derive(Clone, Copy, Debug, PartialEq, Eq)]
pub struct Words {
    /// What happens.
    pub kind: u32,
    /// At which router.
    pub router: u32,
    /// On which of its links.
    pub link: u32,
    /// With which datagram, or which first DD sequence number.
    pub number: u32,
}

/// The next four words of a generator.
#[tactic(auto, unfolding(crate::specs::Draws::words_from))]
pub fn draw(generator: &mut Lcg64Xsh32) -> Words
    ensures { (result, generator.new) ≡ words_from generator.old }
{
    let kind = generator.next_word();
    let router = generator.next_word();
    let link = generator.next_word();
    let number = generator.next_word();
    Words {
        kind,
        router,
        link,
        number,
    }
}

/// Which of this many things a word chooses; none where there are none.
#[tactic(auto, unfolding(crate::specs::Draws::chosen_of))]
pub fn chosen(word: u32, count: usize) -> Option<usize>
    ensures chosen { result ≡ chosen_of word count }
    ensures within { IfSome result (λ place. place < count) }
{
    if count == 0 {
        None
    } else {
        Some(word as usize % count)
    }
}

/// What is drawn at a router: of sixteen parts six are ticks, seven are deliveries, one is a link
/// that comes up, one a link that goes down, and one a stop where the router runs, else a start
/// without a floor. Where there is no link, or no datagram to deliver, nothing happens.
#[tactic(auto, unfolding(crate::specs::Draws::drawn_for))]
pub fn drawn_at(
    words: &Words,
    router: RouterId,
    links: usize,
    is_running: bool,
    datagrams: usize,
) -> Option<WorldEvent>
    ensures { result ≡ drawn_for words.now router links is_running datagrams }
{
    match words.kind % 16 {
        0..=5 => Some(WorldEvent::Tick { router }),
        6..=12 => delivery(words, router, links, datagrams),
        13 => link_up(words, router, links),
        14 => link_down(words, router, links),
        _ => Some(turn(words, router, is_running)),
    }
}

// A delivery of a datagram on a link, where there is one of each.
#[tactic(auto, unfolding(crate::specs::Draws::drawn_delivery))]
fn delivery(words: &Words, router: RouterId, links: usize, datagrams: usize) -> Option<WorldEvent>
    ensures { result ≡ drawn_delivery words.now router links datagrams }
{
    let link = chosen(words.link, links)?;
    let datagram = chosen(words.number, datagrams)?;
    Some(WorldEvent::Deliver {
        datagram,
        router,
        link,
    })
}

// A link comes up, where there is one.
#[tactic(auto, unfolding(crate::specs::Draws::drawn_link_up))]
fn link_up(words: &Words, router: RouterId, links: usize) -> Option<WorldEvent>
    ensures { result ≡ drawn_link_up words.now router links }
{
    let link = chosen(words.link, links)?;
    Some(WorldEvent::LinkUp { router, link })
}

// A link goes down, where there is one.
#[tactic(auto, unfolding(crate::specs::Draws::drawn_link_down))]
fn link_down(words: &Words, router: RouterId, links: usize) -> Option<WorldEvent>
    ensures { result ≡ drawn_link_down words.now router links }
{
    let link = chosen(words.link, links)?;
    Some(WorldEvent::LinkDown { router, link })
}

// A stop of a router that runs, or the start of one that does not.
fn turn(words: &Words, router: RouterId, is_running: bool) -> WorldEvent
    ensures { result ≡ drawn_turn words.now router is_running }
{
    if is_running {
        WorldEvent::Stop { router }
    } else {
        WorldEvent::Start {
            router,
            dd_start: words.number,
            floor: NO_FLOOR,
        }
    }
}
