//! Commands, and floors, as text.

ghost use Rattle.std.specs.Fmt.{WritesOnOk};
ghost use Rattle.std.specs.Prelude.{◌≡◌};
ghost use Rattle.ospf_script.specs.Texts.{choices_text, event_text, spaced_hops_text, many_text, view_text};

use crate::command::{Command, Many, View};
use crate::expected::{Expected, Wanted};
use ospf_base::RouterId;
use ospf_base::event::WorldEvent;
use ospf_graph::NextHop;
use ospf_neighbour::NeighbourState;
use std::fmt::{self, Display, Formatter, Write};

/// A number as a floor is printed: eight hexadecimal digits, in two's complement.
#[derive(Clone, Copy, Debug, PartialEq, Eq)]
pub struct FloorShown(pub i32);

/// As `7ffffffe`.
impl Display for FloorShown {
    ghost use Rattle.std.specs.Prelude.{Some};
    ghost use Rattle.ospf_script.specs.Texts.{floor_text};

    ghost output = { λ floor. Some (floor_text floor.0) };

    fn fmt<W: Write>(&self, f: &mut Formatter<W>) -> fmt::Result {
        let bits = self.0.cast_unsigned();
        write!(f, "{bits:08x}")
    }
}

/// As a line of a script, with the floor of a start, which is read as the same command.
impl Display for Command {
    ghost use Rattle.std.specs.Prelude.{Some};
    ghost use Rattle.ospf_script.specs.Texts.{command_text};

    ghost output = { λ command. Some (command_text command) };

    fn fmt<W: Write>(&self, f: &mut Formatter<W>) -> fmt::Result {
        match self {
            Command::Event { event } => write_event(f, event),
            Command::Many { many } => write_many(f, many),
            Command::Round { count, most } => write!(f, "round {count}{}", Given(*most)),
            Command::Batch { count } => write!(f, "batch {count}"),
            Command::Random { number, count } => write!(f, "random {number} {count}"),
            Command::Settle { most } => write!(f, "settle {most}"),
            Command::Show { view, router } => write!(f, "{} {router}", view_of(*view)),
            Command::Walk {
                from,
                address,
                choices,
            } => {
                write!(f, "walk {from} {address}")?;
                write_choices(f, choices)
            }
            Command::Say { text } => write!(f, "say {text}"),
            Command::Why {
                router,
                link,
                neighbour,
            } => write!(f, "why {router} {link}{}", Given(*neighbour)),
            Command::WhyHeadline { router } => write!(f, "why headline {router}"),
            Command::Datagrams { router, most } => {
                write!(f, "datagrams {router}{}", Given(*most))
            }
            Command::Drops { router } => write!(f, "drops {router}"),
            Command::Lsas { router } => write!(f, "lsas {router}"),
            Command::Loss {
                percent,
                number,
                network,
            } => write!(f, "loss {percent} {number}{}", Given(*network)),
            Command::Expect { expected } => write!(f, "{expected}"),
            Command::Label { is_on: true } => f.write_str("label on"),
            Command::Label { is_on: false } => f.write_str("label off"),
        }
    }
}

/// As the line of a script that expects it.
impl Display for Expected {
    ghost use Rattle.std.specs.Prelude.{Some};
    ghost use Rattle.ospf_script.specs.Texts.{expected_text};

    ghost output = { λ expected. Some (expected_text expected) };

    fn fmt<W: Write>(&self, f: &mut Formatter<W>) -> fmt::Result {
        match self {
            Expected::Router { router, wanted } => {
                let router = *router;
                write!(f, "{}", WantedShown { router, wanted })
            }
            Expected::Walk {
                from,
                address,
                cost,
            } => write!(f, "expect walk {from} {address} arrived{}", Given(*cost)),
            Expected::Agree => f.write_str("expect agree"),
            Expected::Headline { router } => write!(f, "expect headline{}", Given(*router)),
            Expected::Settled => f.write_str("expect settled"),
        }
    }
}

/// What is wanted of a router.
#[derive(Clone, Copy)]
pub struct WantedShown<'a> {
    pub router: RouterId,
    pub wanted: &'a Wanted,
}

/// As the line of a script that expects it.
impl Display for WantedShown<'_> {
    ghost use Rattle.std.specs.Prelude.{Some};
    ghost use Rattle.ospf_script.specs.Texts.{wanted_text};

    ghost output = { λ shown. Some (wanted_text shown.router shown.wanted.now) };

    fn fmt<W: Write>(&self, f: &mut Formatter<W>) -> fmt::Result {
        let router = self.router;
        match self.wanted {
            Wanted::Neighbour {
                other,
                state: NeighbourState::Full,
            } => write!(f, "expect full {router} {other}"),
            Wanted::Neighbour { other, state } => {
                write!(f, "expect neighbour {router} {other} {state}")
            }
            Wanted::NoNeighbour { link } => write!(f, "expect no neighbour {router} {link}"),
            Wanted::Dr { link, dr, backup } => {
                write!(f, "expect dr {router} {link} {dr}{}", Given(*backup))
            }
            Wanted::Route { prefix, cost, hops } => {
                write!(f, "expect route {router} {prefix} {cost}")?;
                write_hops(f, hops)
            }
            Wanted::NoRoute { prefix } => write!(f, "expect no route {router} {prefix}"),
        }
    }
}

// A value after a space, if one is given.
#[derive(Clone, Copy)]
struct Given<D>(Option<D>);

impl<D: Display> Display for Given<D> {
    ghost use Rattle.std.specs.Prelude.{[], ◌++◌, Some, codes, option_map, unwrap_or};

    ghost output = { λ given. unwrap_or (option_map (λ value. option_map (λ text. codes " " ++ text)
        (D.output value)) given.0) (Some []) };

    fn fmt<W: Write>(&self, f: &mut Formatter<W>) -> fmt::Result {
        match &self.0 {
            Some(value) => write!(f, " {value}"),
            None => Ok(()),
        }
    }
}

// An event, as a line of a script.
fn write_event<W: Write>(f: &mut Formatter<W>, event: &WorldEvent) -> fmt::Result
    ensures { WritesOnOk W.Write.write_str_gives f.old result (event_text event.now) f.new }
{
    match event {
        WorldEvent::Start {
            router,
            dd_start,
            floor,
        } => write!(f, "start {router} {dd_start} {}", FloorShown(*floor)),
        WorldEvent::Stop { router } => write!(f, "stop {router}"),
        WorldEvent::Tick { router } => write!(f, "tick {router}"),
        WorldEvent::LinkUp { router, link } => write!(f, "up {router} {link}"),
        WorldEvent::LinkDown { router, link } => write!(f, "down {router} {link}"),
        WorldEvent::Deliver {
            datagram,
            router,
            link,
        } => write!(f, "deliver {datagram} {router} {link}"),
    }
}

// Events at many routers, as a line of a script.
fn write_many<W: Write>(f: &mut Formatter<W>, many: &Many) -> fmt::Result
    ensures { WritesOnOk W.Write.write_str_gives f.old result (many_text many.now) f.new }
{
    match many {
        Many::Start => f.write_str("start all"),
        Many::Up => f.write_str("up all"),
        Many::Down => f.write_str("down all"),
        Many::Cut { network } => write!(f, "cut {network}"),
        Many::Mend { network } => write!(f, "mend {network}"),
    }
}

// The word of a view.
fn view_of(view: View) -> &'static str
    ensures { result.now ≡ view_text view }
{
    match view {
        View::Neighbours => "neighbours",
        View::Listing => "listing",
        View::Table => "table",
        View::Floor => "floor",
    }
}

// Next hops, each after a space.
fn write_hops<W: Write>(f: &mut Formatter<W>, hops: &[NextHop]) -> fmt::Result
    ensures { WritesOnOk W.Write.write_str_gives f.old result (spaced_hops_text hops.now) f.new }
{
    for hop in hops {
        write!(f, " {hop}")?;
    }
    Ok(())
}

// Choices, each after a space.
fn write_choices<W: Write>(f: &mut Formatter<W>, choices: &[u32]) -> fmt::Result
    ensures { WritesOnOk W.Write.write_str_gives f.old result (choices_text choices.now) f.new }
{
    for choice in choices {
        write!(f, " {choice}")?;
    }
    Ok(())
}
