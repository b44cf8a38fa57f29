//! The words of the commands over images that no server uses.
use crate::run::option;
use clap::{Arg, ArgAction, ArgMatches, Command, Error};
use program_values::{DumpFormat, ImageOptions, VerifyOptions};
use std::alloc::Global;

/// Creates the command `create-md`, with this help below its usage.
pub(crate) fn create_md<'a>(alloc: Global, help: &'a str) -> Result<Command<'a>, Error> {
    let command = Command::new(alloc, "create-md")
        .about("Makes the metadata of an image")
        .after_help(help);
    let command = with_image(alloc, command)?.arg(
        Arg::new(alloc, "force")
            .long("force")
            .action(ArgAction::SetTrue)
            .help("Makes it anew if there is some"),
    )?;
    Ok(command)
}

/// Creates the command `dump-md`, with this help below its usage.
pub(crate) fn dump_md<'a>(alloc: Global, help: &'a str) -> Result<Command<'a>, Error> {
    let command = Command::new(alloc, "dump-md")
        .about("Shows the metadata of an image")
        .after_help(help);
    let command = with_image(alloc, command)?.arg(
        Arg::new(alloc, "json")
            .long("json")
            .action(ArgAction::SetTrue)
            .help("Shows it as a JSON object"),
    )?;
    Ok(command)
}

/// Creates the command `get-gi`, with this help below its usage.
pub(crate) fn get_gi<'a>(alloc: Global, help: &'a str) -> Result<Command<'a>, Error> {
    let command = Command::new(alloc, "get-gi")
        .about("Prints the generation identifiers of an image")
        .after_help(help);
    with_image(alloc, command)
}

/// Creates the command `show-gi`, with this help below its usage.
pub(crate) fn show_gi<'a>(alloc: Global, help: &'a str) -> Result<Command<'a>, Error> {
    let command = Command::new(alloc, "show-gi")
        .about("Prints the generation identifiers of an image, and explains them")
        .after_help(help);
    with_image(alloc, command)
}

/// Creates the command `verify`, with this help below its usage.
pub(crate) fn verify<'a>(alloc: Global, help: &'a str) -> Result<Command<'a>, Error> {
    let command = Command::new(alloc, "verify")
        .about("Compares both images of a mirror")
        .after_help(help)
        .arg(
            Arg::new(alloc, "LOCAL")
                .required(true)
                .help("The image of the local disk"),
        )?
        .arg(
            Arg::new(alloc, "PEER")
                .required(true)
                .help("The image of the peer's disk"),
        )?
        .arg(option(
            alloc,
            "metadata",
            "FILE",
            "The metadata of the local image, if not beside it as IMAGE.metadata",
        ))?;
    Ok(command)
}

// Adds the image and its metadata file.
fn with_image<'a>(alloc: Global, command: Command<'a>) -> Result<Command<'a>, Error> {
    let command = command
        .arg(Arg::new(alloc, "IMAGE").required(true).help("The image"))?
        .arg(option(
            alloc,
            "metadata",
            "FILE",
            "Its metadata, if not beside it as IMAGE.metadata",
        ))?;
    Ok(command)
}

/// Returns the image that is named, and its metadata file.
pub(crate) fn image_options<'a>(words: &ArgMatches<'a>) -> ImageOptions<'a> {
    ImageOptions {
        image: words.get_str("IMAGE").unwrap_or(""),
        metadata: words.get_str("metadata"),
    }
}

/// Returns how metadata is to be shown.
pub(crate) fn format(words: &ArgMatches<'_>) -> DumpFormat {
    if words.get_flag("json") {
        DumpFormat::Json
    } else {
        DumpFormat::Text
    }
}

/// Returns the images that are to be compared.
pub(crate) fn verify_options<'a>(words: &ArgMatches<'a>) -> VerifyOptions<'a> {
    VerifyOptions {
        local: ImageOptions {
            image: words.get_str("LOCAL").unwrap_or(""),
            metadata: words.get_str("metadata"),
        },
        peer: words.get_str("PEER").unwrap_or(""),
    }
}
