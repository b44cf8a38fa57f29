//! The order that a command line gives.
use crate::fault::UsageFault;
use crate::help::{RunHelp, ScriptHelp, ServeHelp, TcpHelp};
use crate::image_help::ImageHelpTexts;
use crate::{images, queries, run, serve};
use clap::error::ErrorKind;
use clap::{Arg, ArgMatches, Command, Error};
use program_values::{
    Asked, Awaited, DumpFormat, ImageOptions, Images, Path, Question, RunOptions, ServeOptions,
    VERSION, VerifyOptions, WaitOptions,
};
use std::alloc::{AllocError, Global};
use std::convert::AsStr;

const ABOUT: &str =
    "Mirrors two disks after DRBD 8.4: serves them to NBD clients (serve), tests them (run, tcp), or steps them by a script (the default).";

/// What the program is to do.
#[derive(Drop)]
pub enum Order<'a> {
    /// To print its version.
    Version,
    /// To run the script of this file, `-` being the standard input.
    Script(&'a str),
    /// To run a session over these images.
    Run(RunOptions, Images<'a>),
    /// To serve two images to block clients.
    Serve(ServeOptions<'a>),
    /// To say what such a server would begin with.
    DryRun(ServeOptions<'a>),
    /// To make the metadata of an image, anew if that is forced.
    CreateMd(ImageOptions<'a>, bool),
    /// To show the metadata of an image.
    DumpMd(ImageOptions<'a>, DumpFormat),
    /// To print the generation identifiers of an image.
    GetGi(ImageOptions<'a>),
    /// To print and explain them.
    ShowGi(ImageOptions<'a>),
    /// To compare both images of a mirror.
    Verify(VerifyOptions<'a>),
    /// To ask these servers for something.
    Ask(Asked<'a>, Question),
    /// To wait for a server.
    Wait(WaitOptions<'a>),
}

/// The texts below the usages.
#[derive(Drop)]
pub struct HelpTexts {
    script: String,
    run: String,
    tcp: String,
    serve: String,
    images: ImageHelpTexts,
}

impl HelpTexts {
    /// Writes the texts. `AllocError` if there is no memory for them.
    pub fn new(alloc: Global) -> Result<HelpTexts, AllocError> {
        Ok(HelpTexts {
            script: format!(in alloc; "{ScriptHelp}")?,
            run: format!(in alloc; "{RunHelp}")?,
            tcp: format!(in alloc; "{TcpHelp}")?,
            serve: format!(in alloc; "{ServeHelp}")?,
            images: ImageHelpTexts::new(alloc)?,
        })
    }
}

/// Reads the program's words; the first one is its name. `progress` says whether a long run shows its progress.
///
/// `UsageFault::Words` if they ask for help, or are wrong, `UsageFault::SharedImage` if both disks are to have the same image,
/// `UsageFault::Address` if a server is to listen at no numeric address with a port and no path, `UsageFault::Page` if its page is to be at
/// no port and no path, `UsageFault::Name` for a word that is no name of a server.
pub fn parse<'a, S: AsStr>(
    alloc: Global,
    helps: &'a HelpTexts,
    words: &'a [S],
    progress: bool,
) -> Result<Order<'a>, UsageFault<'a>> {
    match matches_of(alloc, helps, words) {
        Ok(matches) => order_of(alloc, &matches, progress),
        Err(error) if error.kind() == ErrorKind::DisplayVersion => Ok(Order::Version),
        Err(error) => Err(UsageFault::Words(error)),
    }
}

// Matches the words against the commands.
fn matches_of<'a, S: AsStr>(
    alloc: Global,
    helps: &'a HelpTexts,
    words: &'a [S],
) -> Result<ArgMatches<'a>, Error> {
    let file = Arg::new(alloc, "FILE")
        .required(true)
        .help("The script; - is the standard input");
    let script = Command::new(alloc, "script")
        .about("Runs a script, and prints what each command did")
        .after_help(helps.script.as_str())
        .arg(file)?;
    let command = Command::new(alloc, "drbdpair")
        .bin_name("drbdpair")?
        .version(VERSION)
        .about(ABOUT)
        .after_help(helps.script.as_str())
        .subcommand_required(true)
        .subcommand(script)?
        .subcommand(run::run(alloc, helps.run.as_str())?)?
        .subcommand(run::tcp(alloc, helps.tcp.as_str())?)?
        .subcommand(serve::serve(alloc, helps.serve.as_str())?)?;
    let command = with_images(alloc, &helps.images, command)?;
    with_queries(alloc, command)?.try_get_matches_from(words)
}

// Adds the commands over images that no server uses.
fn with_images<'a>(
    alloc: Global,
    helps: &'a ImageHelpTexts,
    command: Command<'a>,
) -> Result<Command<'a>, Error> {
    let command = command
        .subcommand(images::create_md(alloc, helps.create_md.as_str())?)?
        .subcommand(images::dump_md(alloc, helps.dump_md.as_str())?)?
        .subcommand(images::get_gi(alloc, helps.get_gi.as_str())?)?
        .subcommand(images::show_gi(alloc, helps.show_gi.as_str())?)?
        .subcommand(images::verify(alloc, helps.verify.as_str())?)?;
    Ok(command)
}

// Adds the commands that ask running servers.
fn with_queries<'a>(alloc: Global, command: Command<'a>) -> Result<Command<'a>, Error> {
    let command = command
        .subcommand(queries::status(alloc)?)?
        .subcommand(queries::cstate(alloc)?)?
        .subcommand(queries::dstate(alloc)?)?
        .subcommand(queries::wait_sync(alloc)?)?
        .subcommand(queries::wait_connect(alloc)?)?;
    Ok(command)
}

fn order_of<'a>(
    alloc: Global,
    matches: &ArgMatches<'a>,
    progress: bool,
) -> Result<Order<'a>, UsageFault<'a>> {
    match matches.subcommand() {
        Some(("run", words)) => run_of(words, Path::Link, progress),
        Some(("tcp", words)) => run_of(words, Path::Sockets, progress),
        Some(("serve", words)) => serve_of(alloc, words),
        Some(("create-md", words)) => Ok(Order::CreateMd(
            images::image_options(words),
            words.get_flag("force"),
        )),
        Some(("dump-md", words)) => Ok(Order::DumpMd(
            images::image_options(words),
            images::format(words),
        )),
        Some(("get-gi", words)) => Ok(Order::GetGi(images::image_options(words))),
        Some(("show-gi", words)) => Ok(Order::ShowGi(images::image_options(words))),
        Some(("verify", words)) => verify_of(words),
        Some((name, words)) => match query_of(name, words)? {
            Some(order) => Ok(order),
            None => Ok(Order::Script(words.get_str("FILE").unwrap_or("-"))),
        },
        None => Ok(Order::Script("-")),
    }
}

// Returns the order for a command that asks running servers, or `None` if it is another one.
fn query_of<'a>(name: &str, words: &ArgMatches<'a>) -> Result<Option<Order<'a>>, UsageFault<'a>> {
    let question = match name {
        "status" => queries::status_question(words),
        "cstate" => Question::Connection,
        "dstate" => Question::Disks,
        "wait-sync" => return Ok(Some(Order::Wait(queries::wait(words, Awaited::Sync)?))),
        "wait-connect" => return Ok(Some(Order::Wait(queries::wait(words, Awaited::Connection)?))),
        _ => return Ok(None),
    };
    Ok(Some(Order::Ask(queries::asked(words)?, question)))
}

// Returns the order for a run whose frames take this path.
fn run_of<'a>(
    words: &ArgMatches<'a>,
    path: Path,
    progress: bool,
) -> Result<Order<'a>, UsageFault<'a>> {
    match shared_image(words) {
        Some(image) => Err(UsageFault::SharedImage(image)),
        None => Ok(Order::Run(run::options(words, path, progress), run::images(words))),
    }
}

// Returns the order for a server, or for a dry run of one.
fn serve_of<'a>(alloc: Global, words: &ArgMatches<'a>) -> Result<Order<'a>, UsageFault<'a>> {
    if let Some(image) = shared_image(words) {
        return Err(UsageFault::SharedImage(image));
    }
    let options = serve::options(alloc, words)?;
    if words.get_flag("dry-run") {
        return Ok(Order::DryRun(options));
    }
    Ok(Order::Serve(options))
}

// Returns the order for a comparison.
fn verify_of<'a>(words: &ArgMatches<'a>) -> Result<Order<'a>, UsageFault<'a>> {
    let options = images::verify_options(words);
    if options.local.image == options.peer {
        return Err(UsageFault::SharedImage(options.peer));
    }
    Ok(Order::Verify(options))
}

// Returns the image that is named for both disks, if there is one.
fn shared_image<'a>(words: &ArgMatches<'a>) -> Option<&'a str> {
    let local = words.get_str("local")?;
    let peer = words.get_str("peer")?;
    if local == peer { Some(local) } else { None }
}
