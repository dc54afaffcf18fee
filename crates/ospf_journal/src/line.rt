//! The lines of a journal.

ghost use Rattle.std.specs.Fmt.{WritesOnOk};
ghost use Rattle.std.specs.Prelude.{◌≡◌};
ghost use Rattle.ospf_journal.specs.Lines.{elected_text, iface_states_text, iface_text, neighbour_on, own_text, states_text};

use crate::change::RouterChange;
use crate::seen::SeenIface;
use ospf_base::{Kind, LsaKey, RouterId};
use ospf_neighbour::NeighbourState;
use ospf_neighbour::iface::IfaceState;
use ospf_script::FloorShown;
use std::fmt::{self, Display, Formatter, Write};

/// A line of a journal: the tick, the router, and what changed of it.
#[derive(Clone, Copy, Debug)]
pub struct JournalLine<'a> {
    pub tick: u64,
    pub router: RouterId,
    pub change: &'a RouterChange,
}

/// As `1204 1.1.1.1 link 0 neighbour 2.2.2.2 Exchange Loading`.
impl Display for JournalLine<'_> {
    ghost use Rattle.std.specs.Prelude.{Some};
    ghost use Rattle.ospf_journal.specs.Lines.{line_text};

    ghost output = { λ line. Some (line_text line) };

    fn fmt<W: Write>(&self, f: &mut Formatter<W>) -> fmt::Result {
        write!(f, "{} {} {}", self.tick, self.router, self.change)
    }
}

/// As `link 0 neighbour 2.2.2.2 Exchange Loading`.
impl Display for RouterChange {
    ghost use Rattle.std.specs.Prelude.{Some};
    ghost use Rattle.ospf_journal.specs.Lines.{change_text};

    ghost output = { λ change. Some (change_text change) };

    fn fmt<W: Write>(&self, f: &mut Formatter<W>) -> fmt::Result {
        match self {
            RouterChange::Started => f.write_str("started"),
            RouterChange::Stopped => f.write_str("stopped"),
            RouterChange::Dropped(d) => write!(
                f,
                "link {} dropped {} {}",
                d.link, d.cause, d.source
            ),
            RouterChange::Neighbour {
                link,
                router,
                before,
                now,
            } => {
                write_neighbour_on(f, *link, *router)?;
                write_states(f, *before, *now)
            }
            RouterChange::Interface { link, before, now } => {
                write!(f, "link {link} interface ")?;
                write_iface_states(f, *before, now.state)?;
                write_elected(f, now)
            }
            RouterChange::Issued { key, number } => {
                f.write_str("issued ")?;
                write_own(f, key)?;
                write!(f, " {}", FloorShown(*number))
            }
            RouterChange::Flushed { key, number } => {
                f.write_str("flushed ")?;
                write_own(f, key)?;
                write!(f, " {}", FloorShown(*number))
            }
            RouterChange::Removed { key } => {
                f.write_str("removed ")?;
                write_own(f, key)
            }
            RouterChange::Route(route) => write!(f, "route {route}"),
            RouterChange::NoRoute(prefix) => write!(f, "no route {prefix}"),
        }
    }
}

// A neighbour of a link.
#[tactic(auto, unfolding(crate::specs::Lines::neighbour_on))]
fn write_neighbour_on<W: Write>(f: &mut Formatter<W>, link: usize, router: RouterId) -> fmt::Result
    ensures { WritesOnOk W.Write.write_str_gives f.old result (neighbour_on link router) f.new }
{
    write!(f, "link {link} neighbour {router} ")
}

// A state that was, and one that is.
#[tactic(auto, unfolding(crate::specs::Lines::states_text))]
fn write_states<W: Write>(
    f: &mut Formatter<W>,
    before: NeighbourState,
    now: NeighbourState,
) -> fmt::Result
    ensures { WritesOnOk W.Write.write_str_gives f.old result (states_text before now) f.new }
{
    write!(f, "{before} {now}")
}

// The same of an interface.
#[tactic(auto, unfolding(crate::specs::Lines::iface_states_text))]
fn write_iface_states<W: Write>(
    f: &mut Formatter<W>,
    before: IfaceState,
    now: IfaceState,
) -> fmt::Result
    ensures { WritesOnOk W.Write.write_str_gives f.old result (iface_states_text before now) f.new }
{
    let (before, now) = (iface_text(before), iface_text(now));
    write!(f, "{before} {now}")
}

// The Designated Router and the Backup.
#[tactic(auto, unfolding(crate::specs::Lines::elected_text))]
fn write_elected<W: Write>(f: &mut Formatter<W>, iface: &SeenIface) -> fmt::Result
    ensures { WritesOnOk W.Write.write_str_gives f.old result (elected_text iface.now) f.new }
{
    write!(f, " dr {} backup {}", iface.dr, iface.backup)
}

// The kind and the Link State ID of an own LSA.
#[tactic(auto, unfolding(crate::specs::Lines::own_text))]
fn write_own<W: Write>(f: &mut Formatter<W>, key: &LsaKey) -> fmt::Result
    ensures { WritesOnOk W.Write.write_str_gives f.old result (own_text key.now) f.new }
{
    let id = RouterId(key.id);
    match key.kind {
        Kind::Router => write!(f, "router {id}"),
        Kind::Network => write!(f, "network {id}"),
    }
}

/// The name of an interface's state (RFC 2328, section 9.1).
pub fn iface_text(state: IfaceState) -> &'static str
    ensures { result.now ≡ iface_text state }
{
    match state {
        IfaceState::Down => "Down",
        IfaceState::Waiting => "Waiting",
        IfaceState::PointToPoint => "Point-to-point",
        IfaceState::DrOther => "DROther",
        IfaceState::Backup => "Backup",
        IfaceState::Dr => "DR",
    }
}
