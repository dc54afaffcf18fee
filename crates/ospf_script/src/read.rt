//! The lines of a script.

ghost use Rattle.std.specs.Prelude.{◌≡◌, ◌≢◌, ◌⊎◌, IfOk, IfErr, IfSome, IfNone};
ghost use Rattle.ospf_script.specs.Commands.{HasForms, IsLongWalk, IsNamedCommand};
ghost use Rattle.ospf_script.specs.Expected.{IsLongRoute};
ghost use Rattle.ospf_script.specs.Words.{line_words};
ghost use Rattle.ospf_script.specs.declared.command.Command.{Command};
ghost use Rattle.ospf_script.specs.declared.name.Name.TheVariants as names;

use crate::command::Command;
use crate::events::{event_in, many_in};
use crate::expect::expected_in;
use crate::fault::CommandFault;
use crate::name::Name;
use crate::say::text_in;
use crate::shapes::{
    datagrams_in, loss_in, numbers_in, rounds_in, router_in, switch_in, why_headline_in, why_in,
};
use crate::values::number_of;
use crate::walk::walk_in;
use crate::words::{first_word, one_word};
use std::alloc::Global;

impl Command {
    ghost use Rattle.std.specs.Prelude.{◌≡◌, ◌↔◌, IfOk, IfErr, IfSome, IsNone};
    ghost use Rattle.ospf_script.specs.Commands.{IsUnreadable, NeedsRoom, SpellsCommand};
    ghost use Rattle.ospf_base.specs.Text.{IsBlank};
    ghost use Rattle.ospf_script.specs.Words.{line_words};

    /// Reads a line of a script, without its end: the command that its words
    /// spell, or `None` of a blank line.
    ///
    /// Words stand between spaces, and nothing else ends one. Numbers are decimal digits, of 32
    /// bits where they are a first DD sequence number or a choice, at most 100 as a percentage,
    /// else of 64; a floor is eight hexadecimal digits of either case, and 80000000 where it is
    /// left out; a prefix is an address, a slash and how many of its bits count, behind which none
    /// is set. The error is `NotACommand` where the words of a line that is not blank spell none.
    /// `Memory` comes only where there was no room for the choices of a walk, for a text to be
    /// printed, or for the next hops of a route that is expected.
    pub fn read(alloc: Global, line: &[u8]) -> Result<Option<Command>, CommandFault>
        ensures command { IfOk result (λ read. IfSome read (SpellsCommand (line_words line.now))) }
        ensures blank { IfOk result (λ read. IsNone read ↔ IsBlank line.now) }
        ensures not_a_command { IfErr result (λ e. e ≡ CommandFault.NotACommand →
            IsUnreadable line.now) }
        ensures memory { IfErr result (λ e. e ≡ CommandFault.Memory →
            NeedsRoom (line_words line.now)) }
    {
        let Some((word, rest)) = first_word(line) else {
            return Ok(None);
        };
        let Some(name) = Name::read(word) else {
            return Err(CommandFault::NotACommand);
        };
        Ok(Some(of_words(alloc, name, rest)?))
    }
}

// The command of a name, and of the words after it.
fn of_words(alloc: Global, name: Name, text: &[u8]) -> Result<Command, CommandFault>
    ensures ok { IfOk result (IsNamedCommand name (line_words text.now)) }
    ensures not_a_command { IfErr result (λ e. e ≡ CommandFault.NotACommand → (command : Command) →
        IsNamedCommand name (line_words text.now) command → ⊥) }
    ensures memory { IfErr result (λ e. e ≡ CommandFault.Memory →
        ((name ≡ names.Walk) × IsLongWalk (line_words text.now)) ⊎ (name ≡ names.Say)
        ⊎ ((name ≡ names.Expect) × IsLongRoute (line_words text.now))) }
{
    match name {
        Name::Walk => {
            let (from, address, choices) = walk_in(alloc, text)?;
            Ok(Command::Walk {
                from,
                address,
                choices,
            })
        }
        Name::Say => Ok(Command::Say {
            text: text_in(alloc, text)?,
        }),
        Name::Expect => Ok(Command::Expect {
            expected: expected_in(alloc, text)?,
        }),
        _ => of_name(name, text).ok_or(CommandFault::NotACommand),
    }
}

// The command of a name that is none of `walk`, `say` and `expect`, and of the words after it.
fn of_name(name: Name, text: &[u8]) -> Option<Command>
    ensures some { IfSome result (IsNamedCommand name (line_words text.now)) }
    ensures none { IfNone result (name ≢ names.Walk → name ≢ names.Say → name ≢ names.Expect →
        (command : Command) → IsNamedCommand name (line_words text.now) command → ⊥) }
{
    if let Some(event) = event_in(name, text) {
        return Some(Command::Event { event });
    }
    if let Some(many) = many_in(name, text) {
        return Some(Command::Many { many });
    }
    match name {
        Name::Batch => Some(Command::Batch {
            count: number_of(one_word(text)?)?,
        }),
        Name::Random => {
            let (number, count) = numbers_in(text)?;
            Some(Command::Random { number, count })
        }
        Name::Settle => Some(Command::Settle {
            most: number_of(one_word(text)?)?,
        }),
        Name::Show(view) => {
            let router = router_in(text)?;
            Some(Command::Show { view, router })
        }
        Name::Drops => Some(Command::Drops {
            router: router_in(text)?,
        }),
        Name::Lsas => Some(Command::Lsas {
            router: router_in(text)?,
        }),
        Name::Label => Some(Command::Label {
            is_on: switch_in(text)?,
        }),
        _ => of_forms(name, text),
    }
}

// The command of a name with several forms, and of the words after it.
fn of_forms(name: Name, text: &[u8]) -> Option<Command>
    ensures some { IfSome result (IsNamedCommand name (line_words text.now)) }
    ensures none { IfNone result (HasForms name → (command : Command) →
        IsNamedCommand name (line_words text.now) command → ⊥) }
{
    match name {
        Name::Round => {
            let (count, most) = rounds_in(text)?;
            Some(Command::Round { count, most })
        }
        Name::Why => {
            if let Some(router) = why_headline_in(text) {
                return Some(Command::WhyHeadline { router });
            }
            let (router, link, neighbour) = why_in(text)?;
            Some(Command::Why {
                router,
                link,
                neighbour,
            })
        }
        Name::Datagrams => {
            let (router, most) = datagrams_in(text)?;
            Some(Command::Datagrams { router, most })
        }
        Name::Loss => {
            let (percent, number, network) = loss_in(text)?;
            Some(Command::Loss {
                percent,
                number,
                network,
            })
        }
        _ => None,
    }
}
