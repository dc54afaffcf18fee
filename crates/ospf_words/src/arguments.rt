//! The words of a command, as a table has them.

ghost use Rattle.std.specs.Prelude.{◌≡◌, false, IfOk};
ghost use Rattle.clap.specs.Words.{app_of, rule_of};
ghost use Rattle.ospf_words.specs.Words.{any_rule, flag_rule, one_rule, option_rule, several_rule};
ghost use Rattle.ospf_words.specs.Arguments.{rule_by, rule_for, with_arguments};

use clap::builder::ValueParser;
use clap::{Arg, ArgAction, Command};
use std::alloc::{AllocError, Global};

/// A word of a command: an option, a flag, or an argument by its place.
#[derive(Drop)]
pub(crate) struct Argument {
    /// Its name; that of an option or a flag follows two dashes.
    pub(crate) name: &'static str,
    /// What it takes.
    pub(crate) kind: Kind,
    /// What it is for.
    pub(crate) help: &'static str,
}

/// What a word of a command takes. Each text is the name of a value, as usage prints it.
#[derive(Drop)]
pub(crate) enum Kind {
    /// A flag takes nothing.
    Flag,
    /// An argument that must be given.
    Required(&'static str),
    /// Any number of arguments.
    Any(&'static str),
    /// One argument or more.
    Several(&'static str),
    /// Any number of arguments, each a number up to this.
    Numbers(&'static str, u64),
    /// An option with a value.
    Value(&'static str),
    /// An option that may be given more than once, with a value each time.
    Repeated(&'static str),
    /// An option with a number between these.
    Number(&'static str, u64, u64),
    /// The same, with the number where it is not given.
    Default(&'static str, u64, u64, &'static str),
}

/// Adds arguments to a command.
pub(crate) fn with_arguments<'a>(
    command: Command<'a>,
    arguments: &[Argument],
    alloc: Global,
) -> Result<Command<'a>, AllocError>
    ensures { IfOk result (λ c. app_of c ≡ with_arguments (app_of command.entry) arguments.now) }
{
    let mut command = command;
    for argument in arguments {
        command = command.arg(arg_of(argument, alloc))?;
    }
    Ok(command)
}

// An argument for `clap`.
fn arg_of<'a>(argument: &Argument, alloc: Global) -> Arg<'a>
    ensures rule { rule_of result ≡ rule_for argument.now }
    ensures local { result.global ≡ false }
{
    arg_by(argument.name, &argument.kind, alloc).help(argument.help)
}

// An argument of this name and kind.
fn arg_by<'a>(name: &'static str, kind: &Kind, alloc: Global) -> Arg<'a>
    ensures rule { rule_of result ≡ rule_by name.now kind.now }
    ensures local { result.global ≡ false }
{
    match *kind {
        Kind::Flag => flag(name, alloc),
        Kind::Required(value) => required(name, value, alloc),
        Kind::Any(value) => any(name, value, alloc),
        Kind::Several(value) => several(name, value, alloc),
        Kind::Numbers(value, most) => {
            any(name, value, alloc).value_parser(ValueParser::unsigned(0, most))
        }
        Kind::Value(value) => option(name, value, alloc),
        Kind::Repeated(value) => option(name, value, alloc).action(ArgAction::Append),
        Kind::Number(value, least, most) => {
            option(name, value, alloc).value_parser(ValueParser::unsigned(least, most))
        }
        Kind::Default(value, least, most, default) => option(name, value, alloc)
            .default_value(default)
            .value_parser(ValueParser::unsigned(least, most)),
    }
}

// A flag.
fn flag<'a>(name: &'static str, alloc: Global) -> Arg<'a>
    ensures rule { rule_of result ≡ flag_rule name.now }
    ensures local { result.global ≡ false }
{
    Arg::new(alloc, name).long(name).action(ArgAction::SetTrue)
}

// An argument that must be given.
fn required<'a>(name: &'static str, value: &'static str, alloc: Global) -> Arg<'a>
    ensures rule { rule_of result ≡ one_rule name.now }
    ensures local { result.global ≡ false }
{
    Arg::new(alloc, name).value_name(value).required(true)
}

// Any number of arguments.
fn any<'a>(name: &'static str, value: &'static str, alloc: Global) -> Arg<'a>
    ensures rule { rule_of result ≡ any_rule name.now }
    ensures local { result.global ≡ false }
{
    Arg::new(alloc, name)
        .value_name(value)
        .num_args(0..)
        .action(ArgAction::Append)
}

// One argument or more.
fn several<'a>(name: &'static str, value: &'static str, alloc: Global) -> Arg<'a>
    ensures rule { rule_of result ≡ several_rule name.now }
    ensures local { result.global ≡ false }
{
    required(name, value, alloc)
        .num_args(1..)
        .action(ArgAction::Append)
}

// An option with a value.
fn option<'a>(name: &'static str, value: &'static str, alloc: Global) -> Arg<'a>
    ensures rule { rule_of result ≡ option_rule name.now }
    ensures local { result.global ≡ false }
{
    Arg::new(alloc, name).long(name).value_name(value)
}
