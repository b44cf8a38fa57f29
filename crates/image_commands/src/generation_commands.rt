//! `get-gi` and `show-gi`: the generation identifiers of an image, as DRBD's tools print them.
ghost use Rattle.std.specs.Prelude.{◌≡◌, ◌++◌, codes, OnOk};
ghost use Rattle.std.specs.Io.KnownBytes.{Appends};
ghost use Rattle.program_values.specs.declared.status.SessionStatus.TheVariants as status;
ghost use Rattle.image_commands.specs.GenerationText.{HasExplained, HasPrinted, generation_text, line_of};

use crate::command_fault::CommandFault;
use crate::generation_line::GenerationLine;
use crate::held_image::{hold, saved_metadata};
use image_metadata::{Identifiers, Saved};
use program_values::{ImageOptions, SessionStatus};
use std::alloc::{AllocError, Global};
use std::fs::File;
use std::io;
use std::io::Write;
use std::rt::Files;

/// What stands above the identifiers.
const ABOVE: &str = "
       +--<  Current data generation UUID  >-
       |               +--<  Bitmap's base data generation UUID  >-
       |               |                 +--<  younger history UUID  >-
       |               |                 |         +-<  older history  >-
       V               V                 V         V
";

/// What stands below them.
const BELOW: &str = "
                                                                    ^ ^ ^ ^ ^ ^ ^
                                      -<  Data consistency flag  >--+ | | | | | |
                             -<  Data was/is currently up-to-date  >--+ | | | | |
                                  -<  Node was/is currently primary  >--+ | | | |
                                  -<  Node was/is currently connected  >--+ | | |
         -<  Node was in the progress of setting all bits in the bitmap  >--+ | |
                        -<  The peer's disk was out-dated or inconsistent  >--+ |
      -<  This node was a crashed primary, and has not seen its peer since   >--+

";

/// KiB in a block.
const BLOCK_KIB: u64 = 4;

/// Sectors in a KiB.
const KIB_SECTORS: u64 = 2;

/// Prints the generation identifiers of an image and its flags in one line on `out`, as `drbdmeta get-gi` does. The image is locked
/// meanwhile. Returns `Done`, or `Failed` with a line on `err` that says why.
pub fn get_gi<H: Files<File = File> + AllocGlobal, W: Write, E: Write>(
    rt: &H,
    options: &ImageOptions<'_>,
    out: &mut W,
    err: &mut E,
) -> SessionStatus
    ensures { result ≡ status.Done → HasPrinted (W.contents out.old) (W.contents out.new) }
{
    match get(rt, options, out) {
        Ok(()) => SessionStatus::Done,
        Err(fault) => {
            let _ = writeln!(err, "{fault}");
            SessionStatus::Failed
        }
    }
}

/// Prints the same as `get_gi`, and what each number is, as `drbdmeta show-gi` does.
pub fn show_gi<H: Files<File = File> + AllocGlobal, W: Write, E: Write>(
    rt: &H,
    options: &ImageOptions<'_>,
    out: &mut W,
    err: &mut E,
) -> SessionStatus
    ensures { result ≡ status.Done → HasExplained (W.contents out.old) (W.contents out.new) }
{
    match show(rt, options, out) {
        Ok(()) => SessionStatus::Done,
        Err(fault) => {
            let _ = writeln!(err, "{fault}");
            SessionStatus::Failed
        }
    }
}

// Prints the line.
fn get<'a, H: Files<File = File> + AllocGlobal, W: Write>(
    rt: &H,
    options: &ImageOptions<'a>,
    out: &mut W,
) -> Result<(), CommandFault<'a>>
    ensures { OnOk result (HasPrinted (W.contents out.old) (W.contents out.new)) }
{
    let saved = saved_of(rt, options)?;
    match print(&saved.identifiers, out) {
        Ok(()) => Ok(()),
        Err(error) => Err(CommandFault::Unwritten(error)),
    }
}

// Prints the line with its explanation.
fn show<'a, H: Files<File = File> + AllocGlobal, W: Write>(
    rt: &H,
    options: &ImageOptions<'a>,
    out: &mut W,
) -> Result<(), CommandFault<'a>>
    ensures { OnOk result (HasExplained (W.contents out.old) (W.contents out.new)) }
{
    let saved = saved_of(rt, options)?;
    let Ok(below) = below_of(rt.alloc(), &saved) else {
        return Err(CommandFault::NoMemory);
    };
    match print_between(ABOVE, &saved.identifiers, &below, out) {
        Ok(()) => Ok(()),
        Err(error) => Err(CommandFault::Unwritten(error)),
    }
}

// Reads what the metadata of an image says. The image is locked meanwhile.
fn saved_of<'a, H: Files<File = File> + AllocGlobal>(
    rt: &H,
    options: &ImageOptions<'a>,
) -> Result<Saved, CommandFault<'a>> {
    let held = hold(rt, options.image)?;
    let (saved, _) = saved_metadata(rt, options, &held)?;
    Ok(saved)
}

// Prints the line of these identifiers.
fn print<W: Write>(identifiers: &Identifiers, out: &mut W) -> io::Result<()>
    ensures { OnOk result (Appends (W.contents out.old) (W.contents out.new) (generation_text (line_of identifiers.now) ++ codes "\n")) }
{
    let line = GenerationLine::of(identifiers);
    writeln!(out, "{line}")
}

// Prints the line of these identifiers between two texts.
fn print_between<W: Write>(
    above: &str,
    identifiers: &Identifiers,
    below: &str,
    out: &mut W,
) -> io::Result<()>
    ensures { OnOk result (Appends (W.contents out.old) (W.contents out.new) (above.now ++ (generation_text (line_of identifiers.now) ++ below.now))) }
{
    let line = GenerationLine::of(identifiers);
    write!(out, "{above}{line}{below}")
}

// Returns what stands below the line of what was saved: what each part is, and what the flags and the header say in words.
fn below_of(alloc: Global, saved: &Saved) -> Result<String, AllocError> {
    let line = GenerationLine::of(&saved.identifiers);
    let role = role_of(&line);
    let data = data_of(&line);
    let activity = if saved.identifiers.clean_end.is_some() {
        "clean"
    } else {
        "need apply-al"
    };
    let kib = saved.header.blocks.saturating_mul(BLOCK_KIB);
    let (size, unit) = size_and_unit(kib);
    let sectors = kib.saturating_mul(KIB_SECTORS);
    format!(in alloc;
        "{BELOW}flags: {role}, StandAlone, {data}\nmeta-data: {activity}\nlast agreed size: {size} {unit} ({sectors} sectors)\nlast agreed max bio size: 0 Byte\n"
    )
}

// Returns the role as DRBD has it.
fn role_of(line: &GenerationLine) -> &'static str {
    if line.is_primary {
        "Primary"
    } else {
        "Secondary"
    }
}

// Returns the state of the data as DRBD has it. What is consistent, and not known to be up to date, is outdated.
fn data_of(line: &GenerationLine) -> &'static str {
    if !line.is_consistent {
        "Inconsistent"
    } else if line.was_up_to_date {
        "UpToDate"
    } else {
        "Outdated"
    }
}

// Returns a size in KiB in at most four digits, rounded where a larger unit begins, and its unit.
fn size_and_unit(kib: u64) -> (u64, &'static str) {
    let mut size = kib;
    for unit in ["KB", "MB", "GB"] {
        if size < 10_000 {
            return (size, unit);
        }
        size = (size / 1024).saturating_add(size / 512 % 2);
    }
    (size, "TB")
}
