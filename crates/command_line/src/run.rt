//! The words of `run` and `tcp`: their options, and the files of both disks.
use blocks::{MAX_BLOCKS, Protocol, Settings};
use clap::builder::ValueParser;
use clap::{Arg, ArgAction, ArgMatches, Command, Error, value_parser};
use program_values::{Images, LiveOutput, Path, RunOptions};
use std::alloc::Global;

const RUN_ABOUT: &str = "Runs a session of writer threads, and prints what it came to";

const TCP_ABOUT: &str = "Runs a session whose nodes are connected by sockets on 127.0.0.1";

/// The values of `--protocol`.
const PROTOCOLS: [&str; 3] = ["A", "B", "C"];

/// Creates the command `run`, with this help below its usage.
pub(crate) fn run<'a>(alloc: Global, help: &'a str) -> Result<Command<'a>, Error> {
    let cuts = number(
        alloc,
        "cuts",
        "C",
        "How many times the link is cut and reconnected while writers write",
        0,
        100,
    )
    .default_value("0");
    let command = Command::new(alloc, "run").about(RUN_ABOUT).after_help(help);
    with_options(alloc, command.arg(cuts)?)
}

/// Creates the command `tcp`, with this help below its usage. It takes the options of `run` except `--cuts`.
pub(crate) fn tcp<'a>(alloc: Global, help: &'a str) -> Result<Command<'a>, Error> {
    with_options(
        alloc,
        Command::new(alloc, "tcp").about(TCP_ABOUT).after_help(help),
    )
}

// Adds the options that `run` and `tcp` share to a command.
fn with_options<'a>(alloc: Global, command: Command<'a>) -> Result<Command<'a>, Error> {
    let status = Arg::new(alloc, "status")
        .long("status")
        .action(ArgAction::SetTrue)
        .help(
            "Shows the status lines of both nodes on standard error, once a second and at the end",
        );
    let blocks = number(
        alloc,
        "blocks",
        "N",
        "Blocks of the device, of 4 KiB",
        1,
        i64::from(MAX_BLOCKS),
    );
    Ok(
        command
            .arg(blocks.default_value("8"))?
            .arg(protocol_option(alloc))?
            .arg(number(alloc, "writers", "W", "Threads that write", 1, 16).default_value("2"))?
            .arg(number(alloc, "writes", "K", "Writes of each writer", 1, 10_000).default_value(
                "10",
            ))?
            .arg(option(alloc, "local", "FILE", "The image of the local disk"))?
            .arg(option(alloc, "peer", "FILE", "The image of the peer's disk"))?
            .arg(status)?,
    )
}

/// Returns the options of a run whose frames take this path. `progress` says whether a long run is to show its
/// progress.
pub(crate) fn options(words: &ArgMatches<'_>, path: Path, progress: bool) -> RunOptions {
    let cuts = match path {
        Path::Link => words.get_one("cuts").unwrap_or(0),
        Path::Sockets => 0,
    };
    RunOptions {
        protocol: protocol(words),
        blocks: words.get_one("blocks").unwrap_or(Settings::STANDARD.blocks),
        writers: words.get_one("writers").unwrap_or(2),
        writes: words.get_one("writes").unwrap_or(10),
        cuts,
        path,
        live: LiveOutput {
            status: words.get_flag("status"),
            progress,
        },
    }
}

/// Returns the files of both disks.
pub(crate) fn images<'a>(words: &ArgMatches<'a>) -> Images<'a> {
    Images {
        local: words.get_str("local"),
        peer: words.get_str("peer"),
    }
}

/// Creates the option that says when a write is completed.
pub(crate) fn protocol_option<'a>(alloc: Global) -> Arg<'a> {
    option(
        alloc,
        "protocol",
        "P",
        "When a write is completed: A in the local image and sent, B there and the peer has it, C in both images",
    )
    .value_parser(ValueParser::Names(&PROTOCOLS))
    .default_value("C")
}

/// Returns the protocol that was asked for.
pub(crate) fn protocol(words: &ArgMatches<'_>) -> Protocol {
    match words.get_str("protocol") {
        Some("A") => Protocol::A,
        Some("B") => Protocol::B,
        _ => Protocol::C,
    }
}

/// Creates an option with a value.
pub(crate) fn option<'a>(alloc: Global, name: &'a str, value: &'a str, help: &'a str) -> Arg<'a> {
    Arg::new(alloc, name)
        .long(name)
        .value_name(value)
        .help(help)
}

/// Creates an option whose value is a number in this range.
pub(crate) fn number<'a>(
    alloc: Global,
    name: &'a str,
    value: &'a str,
    help: &'a str,
    least: i64,
    most: i64,
) -> Arg<'a> {
    option(alloc, name, value, help).value_parser(value_parser!(u32).range(least..=most))
}
