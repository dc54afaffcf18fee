//! The commands that the program knows, and the words of each.

ghost use Rattle.std.specs.Prelude.{◌≡◌, true, false, codes, Ok, IfOk};
ghost use Rattle.clap.specs.Words.{app_of, new_app, rule_of, with_subcommand};
ghost use Rattle.ospf_words.specs.Words.{app_with, one_rule, ospfd_app, ticks_rule};
ghost use Rattle.ospf_words.specs.Arguments.{with_arguments};
ghost use Rattle.ospf_words.specs.Commands.{app_of_words, with_commands};

use crate::arguments::{Argument, Kind, with_arguments};
use crate::build::VERSION;
use crate::help::{
    CHECK_HELP, DIFF_HELP, EDIT_HELP, FAILURES_HELP, HELP, LSAS_HELP, PATH_HELP, RUN_HELP,
    SIM_HELP, TABLE_HELP,
};
use clap::builder::ValueParser;
use clap::{Arg, Command};
use std::alloc::{AllocError, Global};

// The commands, except `run`, which has ticks of two kinds.
const COMMANDS: [CommandWords; 8] = [TABLE, FAILURES, LSAS, PATH, EDIT, DIFF, CHECK, SIM];

// A command: its name, what help says of it, and its arguments.
#[derive(Drop)]
struct CommandWords {
    name: &'static str,
    about: &'static str,
    help: &'static str,
    arguments: &'static [Argument],
}

// The words that the program knows, where a run has these ticks.
pub(crate) fn command<'a>(alloc: Global, ticks: Arg<'a>) -> Result<Command<'a>, AllocError>
    requires { ticks.global ≡ false }
    ensures { IfOk result (λ c. app_of c ≡ app_with (rule_of ticks.entry)) }
{
    program_with(&COMMANDS, &RUN, ticks, alloc)
}

// The program with these commands, and with a last one that has these ticks first.
fn program_with<'a>(
    commands: &[CommandWords],
    last: &CommandWords,
    ticks: Arg<'a>,
    alloc: Global,
) -> Result<Command<'a>, AllocError>
    requires { ticks.global ≡ false }
    ensures { IfOk result (λ c. app_of c
        ≡ app_of_words commands.now last.now (rule_of ticks.entry)) }
{
    let program = with_commands(program(alloc)?, commands, alloc)?;
    let start = named(last, alloc).arg(ticks)?;
    with_command(program, start, last.arguments, alloc)
}

// The program, before its commands.
fn program<'a>(alloc: Global) -> Result<Command<'a>, AllocError>
    ensures { IfOk result (λ c. app_of c ≡ ospfd_app) }
{
    let program = Command::new(alloc, "ospfd")
        .bin_name("ospfd")?
        .version(VERSION)
        .about("OSPF version 2 for one area")
        .after_help(HELP)
        .no_binary_name(true)
        .subcommand_required(true);
    Ok(program)
}

// Adds commands to the program.
fn with_commands<'a>(
    program: Command<'a>,
    commands: &[CommandWords],
    alloc: Global,
) -> Result<Command<'a>, AllocError>
    ensures { IfOk result (λ c. app_of c ≡ with_commands (app_of program.entry) commands.now) }
{
    let mut program = program;
    for words in commands {
        program = with_command(program, named(words, alloc), words.arguments, alloc)?;
    }
    Ok(program)
}

// A command without its arguments.
fn named<'a>(words: &CommandWords, alloc: Global) -> Command<'a>
    ensures { app_of result ≡ new_app words.now.name.now }
{
    Command::new(alloc, words.name)
        .about(words.about)
        .after_help(words.help)
}

// Adds a command to the program, with these arguments after those that it has.
fn with_command<'a>(
    program: Command<'a>,
    command: Command<'a>,
    arguments: &[Argument],
    alloc: Global,
) -> Result<Command<'a>, AllocError>
    requires { (app_of command).top.is_plain ≡ true }
    ensures { IfOk result (λ c. app_of c ≡ with_subcommand (app_of program.entry)
        (with_arguments (app_of command.entry) arguments.now).top) }
{
    let command = with_arguments(command, arguments, alloc)?;
    program.subcommand(command)
}

// How many ticks there are.
pub(crate) fn ticks_arg<'a>(alloc: Global) -> Arg<'a>
    ensures rule { rule_of result ≡ ticks_rule }
    ensures local { result.global ≡ false }
{
    any_ticks_arg(alloc).value_parser(ValueParser::unsigned(1, MOST_TICKS))
}

// The word in place of the ticks.
pub(crate) fn any_ticks_arg<'a>(alloc: Global) -> Arg<'a>
    ensures rule { rule_of result ≡ one_rule (codes "ticks") }
    ensures local { result.global ≡ false }
{
    Arg::new(alloc, "ticks")
        .value_name("TICKS")
        .help("How many ticks the routers run, 1 to 1000000, or forever")
        .required(true)
}

// The most ticks of a run.
const MOST_TICKS: u64 = 1_000_000;

// The greatest choice of a hop.
const MOST_CHOICE: u64 = 4_294_967_295;

// The most milliseconds of a tick, and those of one where nothing is said.
const MOST_MILLISECONDS: u64 = 1000;

const MILLISECONDS: &str = "1000";

// The router whose table is computed.
const ROOT: Argument = Argument {
    name: "root",
    kind: Kind::Required("ROOT"),
    help: "The Router ID of the router whose table is computed, or all",
};

// Whether JSON is printed.
const JSON: Argument = Argument {
    name: "json",
    kind: Kind::Flag,
    help: "Prints JSON instead, on one line",
};

// The files of configurations.
const FILES: Argument = Argument {
    name: "files",
    kind: Kind::Several("CONFIG"),
    help: "Configuration files, one for each router",
};

// The file into which all packets are written.
const PCAP: Argument = Argument {
    name: "pcap",
    kind: Kind::Value("FILE"),
    help: "Writes all packets that were sent, for Wireshark and tcpdump",
};

// The file into which a journal is written.
const LOG: Argument = Argument {
    name: "log",
    kind: Kind::Value("FILE"),
    help: "Writes a line for each change of a router, as it happens",
};

// The command `table`.
const TABLE: CommandWords = CommandWords {
    name: "table",
    about: "Computes a routing table from LSAs in hexadecimal, one a line, on standard input",
    help: TABLE_HELP,
    arguments: &[
        ROOT,
        Argument {
            name: "addresses",
            kind: Kind::Any("ADDRESS"),
            help: "Addresses to look up in the table",
        },
        Argument {
            name: "without",
            kind: Kind::Repeated("NAME"),
            help: "Removes a part of the area, by its name in `failures`",
        },
        JSON,
        Argument {
            name: "json2",
            kind: Kind::Flag,
            help: "Prints JSON of version 2, an object a line; also written `--json=2`",
        },
    ],
};

// The command `failures`.
const FAILURES: CommandWords = CommandWords {
    name: "failures",
    about: "Shows what each single failure does to a routing table",
    help: FAILURES_HELP,
    arguments: &[
        ROOT,
        Argument {
            name: "each",
            kind: Kind::Flag,
            help: "Prints each route that a failure changes",
        },
        Argument {
            name: "strict",
            kind: Kind::Flag,
            help: "Exits with status 1 if a failure cuts off a prefix, or ROOT has no router-LSA",
        },
        JSON,
        Argument {
            name: "carrier",
            kind: Kind::Value("CARRIER"),
            help: "What carries the links, as `direct`; also `switch`, or `process` if not given",
        },
        Argument {
            name: "json2",
            kind: Kind::Flag,
            help: "Prints JSON of version 2, an object a line, by harm; also written `--json=2`",
        },
        Argument {
            name: "harm",
            kind: Kind::Flag,
            help: "Prints what is lost apart from what fails itself, the worst harm first",
        },
    ],
};

// The command `lsas`.
const LSAS: CommandWords = CommandWords {
    name: "lsas",
    about: "Prints LSAs from standard input, in hexadecimal, one a line, in readable form",
    help: LSAS_HELP,
    arguments: &[
        Argument {
            name: "dot",
            kind: Kind::Flag,
            help: "Prints a drawing for Graphviz's dot instead",
        },
        JSON,
    ],
};

// The command `path`.
const PATH: CommandWords = CommandWords {
    name: "path",
    about: "Traces a packet hop by hop from a router to an address",
    help: PATH_HELP,
    arguments: &[
        Argument {
            name: "from",
            kind: Kind::Required("FROM"),
            help: "The Router ID of the router where the path begins",
        },
        Argument {
            name: "address",
            kind: Kind::Required("ADDRESS"),
            help: "The destination address",
        },
        Argument {
            name: "choices",
            kind: Kind::Numbers("CHOICE", MOST_CHOICE),
            help: "Which next hop each router takes, 0 to 4294967295, modulo their number",
        },
    ],
};

// The command `edit`.
const EDIT: CommandWords = CommandWords {
    name: "edit",
    about: "Changes the LSAs of an area on standard input, and prints them as LSAs again",
    help: EDIT_HELP,
    arguments: &[
        Argument {
            name: "down",
            kind: Kind::Repeated("NAME"),
            help: "Takes a part of the area down, by its name in `failures`, as 10.0.0.0/30",
        },
        Argument {
            name: "cost",
            kind: Kind::Repeated("CHANGE"),
            help: "Sets the cost of an interface, as 1.1.1.1@10.0.0.1=20 or 1.1.1.1-2.2.2.2=20",
        },
        Argument {
            name: "drain",
            kind: Kind::Repeated("ROUTER"),
            help: "Drains a router: its links to routers and networks cost 65535, as 2.2.2.2",
        },
    ],
};

// The command `diff`.
const DIFF: CommandWords = CommandWords {
    name: "diff",
    about: "Compares two files of LSAs: links, costs and the routes of all routers",
    help: DIFF_HELP,
    arguments: &[
        Argument {
            name: "before",
            kind: Kind::Required("BEFORE"),
            help: "The file of LSAs before, or `-` for standard input",
        },
        Argument {
            name: "after",
            kind: Kind::Required("AFTER"),
            help: "The file of LSAs after, or `-` for standard input",
        },
        Argument {
            name: "root",
            kind: Kind::Value("ROUTER"),
            help: "Compares the routing tables of this router only, as 1.1.1.1",
        },
    ],
};

// The command `check`.
const CHECK: CommandWords = CommandWords {
    name: "check",
    about: "Checks configurations in TOML",
    help: CHECK_HELP,
    arguments: &[
        Argument {
            name: "explain",
            kind: Kind::Flag,
            help: "Says which key of a refused file is wrong, and what belongs there",
        },
        Argument {
            name: "all",
            kind: Kind::Flag,
            help: "Says so for every fault of a file, not only the first; not with --json",
        },
        Argument {
            name: "area",
            kind: Kind::Flag,
            help: "Checks the files against each other, as the routers of one area",
        },
        JSON,
        Argument {
            name: "json2",
            kind: Kind::Flag,
            help: "Prints JSON of version 2, an object a file; also written `--json=2`",
        },
        FILES,
    ],
};

// The command `sim`.
const SIM: CommandWords = CommandWords {
    name: "sim",
    about: "Simulates an area: runs a script, with a router for each configuration",
    help: SIM_HELP,
    arguments: &[
        Argument {
            name: "script",
            kind: Kind::Required("SCRIPT"),
            help: "The file of the script, or `-` for standard input",
        },
        FILES,
        Argument {
            name: "dot",
            kind: Kind::Value("FILE"),
            help: "Draws the LSDB of the first running router at the end, for Graphviz's dot",
        },
        PCAP,
        LOG,
        Argument {
            name: "json",
            kind: Kind::Flag,
            help: "Writes the lines of the log as JSON objects; only with --log",
        },
        Argument {
            name: "strict",
            kind: Kind::Flag,
            help: "Ends with status 1 also where a line of the script is refused",
        },
    ],
};

// The command `run`, but for its ticks, which come first.
const RUN: CommandWords = CommandWords {
    name: "run",
    about: "Runs a router for each configuration, each in a thread, over UDP on this machine",
    help: RUN_HELP,
    arguments: &[
        FILES,
        Argument {
            name: "tick",
            kind: Kind::Default("MS", 1, MOST_MILLISECONDS, MILLISECONDS),
            help: "The milliseconds of a tick, 1 to 1000",
        },
        Argument {
            name: "lookup",
            kind: Kind::Value("ADDRESS"),
            help: "An address to look up in each table, while the routers run and at the end",
        },
        Argument {
            name: "floor",
            kind: Kind::Value("NUMBER"),
            help: "LS sequence numbers of own LSAs begin above this, eight hexadecimal digits",
        },
        PCAP,
        Argument {
            name: "neighbours",
            kind: Kind::Flag,
            help: "Prints the neighbours of each router at the end, as `sim` does",
        },
        Argument {
            name: "listing",
            kind: Kind::Flag,
            help: "Prints the LSDB of each router at the end, as `sim` does",
        },
        Argument {
            name: "lsdb",
            kind: Kind::Flag,
            help: "Prints all LSAs of each LSDB at the end, in hexadecimal, as `table` reads them",
        },
        Argument {
            name: "drops",
            kind: Kind::Flag,
            help: "Prints how many packets each router dropped, by link and cause, at the end",
        },
        Argument {
            name: "every",
            kind: Kind::Number("N", 1, MOST_TICKS),
            help: "Prints the table of each router every N ticks, 1 to 1000000",
        },
        Argument {
            name: "until-eof",
            kind: Kind::Flag,
            help: "Ends the run cleanly, within a tick, when standard input ends",
        },
        LOG,
        Argument {
            name: "log-lsas",
            kind: Kind::Value("FILE"),
            help: "Writes a line for each LSA installed, refreshed, aged out or flushed, in full",
        },
        Argument {
            name: "json",
            kind: Kind::Flag,
            help: "Writes the lines of logs as JSON objects; only with --log or --log-lsas",
        },
    ],
};
