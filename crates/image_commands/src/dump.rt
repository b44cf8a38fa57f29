//! `dump-md`: showing the metadata of an image.
use crate::command_fault::CommandFault;
use crate::held_image::{hold, saved_metadata};
use blocks::BLOCK_BYTES;
use image_metadata::{Header, Identifiers};
use kept_nodes::known_marks;
use metadata::{Metadata, StableFile};
use program_values::{DumpFormat, ImageOptions, SessionStatus};
use std::fs::File;
use std::io;
use std::io::Write;
use std::rt::Files;

/// Shows the metadata of an image on `out`. The image is locked meanwhile. Returns `Done`, or `Failed` with a line on `err` that says why.
pub fn dump_md<H: Files<File = File> + AllocGlobal, W: Write, E: Write>(
    rt: &H,
    options: &ImageOptions<'_>,
    format: DumpFormat,
    out: &mut W,
    err: &mut E,
) -> SessionStatus {
    match dump(rt, options, format, out) {
        Ok(()) => SessionStatus::Done,
        Err(fault) => {
            let _ = writeln!(err, "{fault}");
            SessionStatus::Failed
        }
    }
}

/// What is shown of metadata.
#[derive(Drop)]
struct Facts {
    header: Header,
    identifiers: Identifiers,
    is_image_unchanged: bool,
    active_extents: u64,
    to_copy_kib: u64,
}

fn dump<'a, H: Files<File = File> + AllocGlobal, W: Write>(
    rt: &H,
    options: &ImageOptions<'a>,
    format: DumpFormat,
    out: &mut W,
) -> Result<(), CommandFault<'a>> {
    let image = options.image;
    let facts = facts_of(rt, options)?;
    let shown = match format {
        DumpFormat::Text => facts.text(image, out),
        DumpFormat::Json => facts.json(image, out),
    };
    match shown {
        Ok(()) => Ok(()),
        Err(error) => Err(CommandFault::Unwritten(error)),
    }
}

// Reads what is shown.
fn facts_of<'a, H: Files<File = File> + AllocGlobal>(
    rt: &H,
    options: &ImageOptions<'a>,
) -> Result<Facts, CommandFault<'a>> {
    let held = hold(rt, options.image)?;
    let (saved, mut metadata) = saved_metadata(rt, options, &held)?;
    let active_extents = entered(&metadata);
    match known_marks(rt.alloc(), &mut metadata) {
        Ok(marks) => Ok(Facts {
            header: saved.header,
            identifiers: saved.identifiers,
            is_image_unchanged: saved.is_image_unchanged,
            active_extents,
            to_copy_kib: u64::from(marks.count()) * (BLOCK_BYTES as u64 / 1024),
        }),
        Err(fault) => Err(CommandFault::Unusable(options.image, fault)),
    }
}

// Returns how many extents are entered.
fn entered<F: StableFile>(metadata: &Metadata<F>) -> u64 {
    let mut count = 0u64;
    for number in 0..metadata.extents() {
        if metadata.is_entered(blocks::Extent(number)) {
            count = count.saturating_add(1);
        }
    }
    count
}

impl Facts {
    // Writes a line for each fact.
    fn text<W: Write>(&self, image: &str, out: &mut W) -> io::Result<()> {
        let tuple = &self.identifiers.tuple;
        writeln!(out, "image           {image}")?;
        writeln!(out, "blocks          {}", self.header.blocks)?;
        writeln!(out, "pair            {:016X}", self.header.pair)?;
        writeln!(out, "node            {:016X}", self.header.node)?;
        writeln!(
            out,
            "identifiers     {:016X}:{:016X}:{:016X}:{:016X}",
            tuple.current, tuple.bitmap, tuple.first_historical, tuple.second_historical
        )?;
        writeln!(out, "role            {}", self.role())?;
        writeln!(
            out,
            "secondary of    {:016X}",
            self.identifiers.secondary_of
        )?;
        writeln!(
            out,
            "consistent      {}",
            yes_or_no(self.identifiers.is_consistent)
        )?;
        writeln!(
            out,
            "clean end       {}",
            yes_or_no(self.identifiers.clean_end.is_some())
        )?;
        writeln!(
            out,
            "image unchanged {}",
            yes_or_no(self.is_image_unchanged)
        )?;
        writeln!(out, "active extents  {}", self.active_extents)?;
        writeln!(out, "to be copied    {} KiB", self.to_copy_kib)
    }

    // Writes a JSON object.
    fn json<W: Write>(&self, image: &str, out: &mut W) -> io::Result<()> {
        let tuple = &self.identifiers.tuple;
        write!(out, "{{\"image\":\"")?;
        write_escaped(image, out)?;
        write!(
            out,
            "\",\"blocks\":{},\"pair\":\"{:016X}\",\"node\":\"{:016X}\"",
            self.header.blocks, self.header.pair, self.header.node
        )?;
        write!(
            out,
            ",\"identifiers\":[\"{:016X}\",\"{:016X}\",\"{:016X}\",\"{:016X}\"]",
            tuple.current, tuple.bitmap, tuple.first_historical, tuple.second_historical
        )?;
        write!(
            out,
            ",\"role\":\"{}\",\"secondary-of\":\"{:016X}\"",
            self.role(),
            self.identifiers.secondary_of
        )?;
        writeln!(
            out,
            ",\"consistent\":{},\"clean-end\":{},\"image-unchanged\":{},\"active-extents\":{},\"to-be-copied-kib\":{}}}",
            self.identifiers.is_consistent,
            self.identifiers.clean_end.is_some(),
            self.is_image_unchanged,
            self.active_extents,
            self.to_copy_kib
        )
    }

    fn role(&self) -> &'static str {
        if self.identifiers.is_primary {
            "Primary"
        } else {
            "Secondary"
        }
    }
}

fn yes_or_no(is_so: bool) -> &'static str {
    if is_so { "yes" } else { "no" }
}

// Writes a text as JSON has it between quotation marks.
fn write_escaped<W: Write>(text: &str, out: &mut W) -> io::Result<()> {
    for letter in text.chars() {
        match letter {
            '"' => write!(out, "\\\"")?,
            '\\' => write!(out, "\\\\")?,
            letter if (letter as u32) < 32 => write!(out, "\\u{:04x}", letter as u32)?,
            letter => write!(out, "{letter}")?,
        }
    }
    Ok(())
}
