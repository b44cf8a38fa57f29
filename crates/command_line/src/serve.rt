//! The words of `serve`.
use crate::fault::UsageFault;
use crate::run::{number, option, protocol, protocol_option};
use blocks::MAX_DEVICE_BLOCKS;
use clap::builder::ValueParser;
use clap::{Arg, ArgAction, ArgMatches, Command, Error};
use program_values::{FirstStart, ListenAt, MetadataFiles, ServeOptions, ServerName, decimal};
use std::alloc::{AllocError, Global};
use std::net::{Ipv4Addr, SocketAddr};

/// The values of `--metadata`.
const METADATA: [&str; 2] = ["beside", "none"];

/// The values of `--first`.
const FIRSTS: [&str; 3] = ["compare", "copy", "assume-equal"];

const ABOUT: &str = "Serves two mirrored images to clients of the network block device protocol";

/// Creates the command `serve`, with this help below its usage.
pub(crate) fn serve<'a>(alloc: Global, help: &'a str) -> Result<Command<'a>, Error> {
    let command = Command::new(alloc, "serve").about(ABOUT).after_help(help);
    let command = with_device(alloc, command)?;
    let command = with_metadata(alloc, command)?;
    let command = with_link(alloc, command)?;
    with_start_and_end(alloc, command)
}

// Adds the options of the images, and of how they are served.
fn with_device<'a>(alloc: Global, command: Command<'a>) -> Result<Command<'a>, Error> {
    let command = command
        .arg(option(alloc, "local", "FILE", "The image of the local disk").required(true))?
        .arg(option(alloc, "peer", "FILE", "The image of the peer's disk").required(true))?
        .arg(
            option(
                alloc,
                "listen",
                "ADDRESS",
                "Where clients connect: ADDR:PORT or unix:PATH; may be given more than once",
            )
            .action(ArgAction::Append)
            .default_value("127.0.0.1:10809"),
        )?
        .arg(protocol_option(alloc))?
        .arg(number(
            alloc,
            "blocks",
            "N",
            "Blocks of the device, of 4 KiB; the local image's if none are given",
            1,
            i64::from(MAX_DEVICE_BLOCKS),
        ))?;
    Ok(command)
}

// Adds the options of the metadata.
fn with_metadata<'a>(alloc: Global, command: Command<'a>) -> Result<Command<'a>, Error> {
    let command = command
        .arg(
            option(
                alloc,
                "metadata",
                "WHERE",
                "Metadata beside each image, or none",
            )
            .value_parser(ValueParser::Names(&METADATA))
            .default_value("beside"),
        )?
        .arg(option(
            alloc,
            "local-metadata",
            "FILE",
            "The metadata of the local image, if not beside it as IMAGE.metadata",
        ))?
        .arg(option(
            alloc,
            "peer-metadata",
            "FILE",
            "The metadata of the peer's image, if not beside it",
        ))?;
    Ok(command)
}

// Adds the options of the page, and of the link that it tells of.
fn with_link<'a>(alloc: Global, command: Command<'a>) -> Result<Command<'a>, Error> {
    let command = command
        .arg(option(
            alloc,
            "status",
            "ADDRESS",
            "Where a status page is: a port of 127.0.0.1 or unix:PATH; may be given more than once",
        )
        .action(ArgAction::Append))?
        .arg(option(
            alloc,
            "name",
            "NAME",
            "The server's name: it puts a status socket into the folder of that name",
        ))?
        .arg(run_folder_option(alloc))?
        .arg(number(
            alloc,
            "cut-every",
            "SECONDS",
            "Cuts the link every SECONDS seconds and reconnects it, to try that",
            1,
            3600,
        ))?;
    Ok(command)
}

// Adds the options of what is done with the images before and after.
fn with_start_and_end<'a>(alloc: Global, command: Command<'a>) -> Result<Command<'a>, Error> {
    let command = command
        .arg(
            option(
                alloc,
                "first",
                "HOW",
                "Where there is no metadata: compare the images, copy all of the local one, or assume-equal",
            )
            .value_parser(ValueParser::Names(&FIRSTS))
            .default_value("compare"),
        )?
        .arg(
            Arg::new(alloc, "compare")
                .long("compare")
                .action(ArgAction::SetTrue)
                .help("Compares the images at the end, which is done anyway up to 1 GiB"),
        )?
        .arg(
            Arg::new(alloc, "dry-run")
                .long("dry-run")
                .action(ArgAction::SetTrue)
                .help("Says what a start would copy or why it is refused, and writes nothing"),
        )?;
    Ok(command)
}

/// Creates the option for the folder in which named servers have one each.
pub(crate) fn run_folder_option<'a>(alloc: Global) -> Arg<'a> {
    option(
        alloc,
        "run-dir",
        "FOLDER",
        "Where named servers have a folder each",
    )
    .default_value("/run/drbdpair")
}

/// Returns what the server is to do. The faults are those of `parse`, and of memory.
pub(crate) fn options<'a>(
    alloc: Global,
    words: &ArgMatches<'a>,
) -> Result<ServeOptions<'a>, UsageFault<'a>> {
    Ok(ServeOptions {
        local: words.get_str("local").unwrap_or(""),
        peer: words.get_str("peer").unwrap_or(""),
        blocks: words.get_one("blocks"),
        metadata: metadata(words),
        protocol: protocol(words),
        listen: listen(alloc, words)?,
        pages: pages(alloc, words)?,
        name: name(words)?,
        cut_every: words.get_one("cut-every"),
        first: first(words),
        compare: words.get_flag("compare"),
    })
}

// Returns where clients are to connect.
fn listen<'a>(alloc: Global, words: &ArgMatches<'a>) -> Result<Vec<ListenAt<'a>>, UsageFault<'a>> {
    let mut places = Vec::new(alloc);
    for word in words.get_strs("listen").unwrap_or(&[]) {
        match listen_at(*word) {
            Some(place) => append(&mut places, place)?,
            None => return Err(UsageFault::Address(*word)),
        }
    }
    Ok(places)
}

// Returns where clients of the status page are to connect.
fn pages<'a>(alloc: Global, words: &ArgMatches<'a>) -> Result<Vec<ListenAt<'a>>, UsageFault<'a>> {
    let mut places = Vec::new(alloc);
    for word in words.get_strs("status").unwrap_or(&[]) {
        match page_at(*word) {
            Some(place) => append(&mut places, place)?,
            None => return Err(UsageFault::Page(*word)),
        }
    }
    Ok(places)
}

// Appends a place to those before it.
fn append<'a>(places: &mut Vec<ListenAt<'a>>, place: ListenAt<'a>) -> Result<(), AllocError> {
    places.push(place)?;
    Ok(())
}

// Returns the place that a word names: an IP address and a port, or the path of a socket.
fn listen_at<'a>(word: &'a str) -> Option<ListenAt<'a>> {
    if let Some(path) = word.strip_prefix("unix:") {
        return unix_at(path);
    }
    match SocketAddr::parse_ascii(word.as_bytes()) {
        Ok(address) => Some(ListenAt::Ip(address)),
        Err(_) => None,
    }
}

// Returns the place that a word names: a port of this machine, or the path of a socket.
fn page_at<'a>(word: &'a str) -> Option<ListenAt<'a>> {
    if let Some(path) = word.strip_prefix("unix:") {
        return unix_at(path);
    }
    let port = u16::try_from(decimal(word)?).ok()?;
    if port == 0 {
        return None;
    }
    Some(ListenAt::Ip(SocketAddr::from((Ipv4Addr::LOCALHOST, port))))
}

// Returns the place of a socket's path; none if that is empty.
fn unix_at<'a>(path: &'a str) -> Option<ListenAt<'a>> {
    if path.is_empty() {
        return None;
    }
    Some(ListenAt::Unix(path))
}

// Returns the server's name, if it has one.
fn name<'a>(words: &ArgMatches<'a>) -> Result<Option<ServerName<'a>>, UsageFault<'a>> {
    let Some(name) = words.get_str("name") else {
        return Ok(None);
    };
    if !ServerName::is_name(name) {
        return Err(UsageFault::Name(name));
    }
    let run_folder = words.get_str("run-dir").unwrap_or("");
    Ok(Some(ServerName { name, run_folder }))
}

// Returns where the metadata of both images is.
fn metadata<'a>(words: &ArgMatches<'a>) -> MetadataFiles<'a> {
    match words.get_str("metadata") {
        Some("none") => MetadataFiles::Unkept,
        _ => MetadataFiles::Kept {
            local: words.get_str("local-metadata"),
            peer: words.get_str("peer-metadata"),
        },
    }
}

// Returns what is to be done with the images at the start.
fn first(words: &ArgMatches<'_>) -> FirstStart {
    match words.get_str("first") {
        Some("copy") => FirstStart::Copy,
        Some("assume-equal") => FirstStart::AssumeEqual,
        _ => FirstStart::Compare,
    }
}
