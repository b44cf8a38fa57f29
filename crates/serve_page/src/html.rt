//! A report as a page for people: one document, which needs no other file.
use crate::document::{HEAD, STYLES, TAIL};
use crate::map::DeviceMap;
use crate::map_html::add_map;
use crate::meanings::{
    AFTER, DISK, Meaning, PRIMARY_LINK, PROTOCOL, ROLE, SECONDARY_LINK, STATES, USABLE,
};
use crate::{Resync, ServerStart, StatusReport};
use status_lines::{LinkState, PrimaryLine, SecondaryLine, protocol_name};
use std::alloc::{AllocError, Global};
use std::{fmt, io};

impl StatusReport {
    /// Returns the report as a document of HTML: the name of the server, if it has one, what the mirror is in, the words and numbers of both nodes
    /// with what they mean, the progress of a resync, the clients, how the server began, and a map of the device. A script in it follows `/status.json`
    /// and `/map.json`; without one the words stand all the same.
    pub(crate) fn html(
        &self,
        alloc: Global,
        name: Option<&str>,
        map: &Option<io::Result<DeviceMap>>,
    ) -> Result<String, AllocError> {
        let mut page = String::from_str(alloc, HEAD)?;
        add_heading(&mut page, name.unwrap_or(""))?;
        add_state(&mut page, state_of(self))?;
        add_resync(&mut page, self.resync)?;
        page.push_str("<div class=\"nodes\">\n")?;
        add_primary(&mut page, self)?;
        add_secondary(&mut page, self)?;
        add_clients(&mut page, self)?;
        add_start(&mut page, self.start)?;
        page.push_str("</div>\n")?;
        add_map(&mut page, map)?;
        page.push_str(TAIL)?;
        Ok(page)
    }
}

/// A text as HTML has it.
#[derive(Clone, Copy)]
struct Escaped<'a>(&'a str);

impl fmt::Display for Escaped<'_> {
    fn fmt<W: fmt::Write>(&self, f: &mut fmt::Formatter<W>) -> fmt::Result {
        for letter in self.0.chars() {
            match letter {
                '&' => f.write_str("&amp;")?,
                '<' => f.write_str("&lt;")?,
                '>' => f.write_str("&gt;")?,
                '"' => f.write_str("&quot;")?,
                '\'' => f.write_str("&#39;")?,
                letter => f.write_char(letter)?,
            }
        }
        Ok(())
    }
}

// Adds the title, the styles and the heading, for a server of this name or of an empty one.
fn add_heading(page: &mut String, name: &str) -> Result<(), AllocError> {
    let space = if name.is_empty() { "" } else { " " };
    let name = Escaped(name);
    write!(page, "<title>drbdpair{space}{name}</title>\n")?;
    page.push_str(STYLES)?;
    write!(
        page,
        "<header><h1>drbdpair{space}{name}</h1></header>\n<main>\n"
    )
}

// Returns the name of what the mirror is in.
fn state_of(report: &StatusReport) -> &'static str {
    if report.is_peer_failed {
        return "left-out";
    }
    if report.primary.is_metadata_broken || report.secondary.is_metadata_broken {
        return "metadata-failed";
    }
    match report.primary.line.words.link {
        LinkState::SyncSource => "copying",
        LinkState::WFReportParams => "greeting",
        LinkState::Connected if report.primary.line.oos == 0 => "alike",
        LinkState::Connected => "marked",
        _ => "alone",
    }
}

// Adds a sentence for each state, all hidden but the present one, and a line for the script.
fn add_state(page: &mut String, state: &str) -> Result<(), AllocError> {
    for (name, look, sentence) in STATES {
        let hidden = hidden_unless(name == state);
        write!(
            page,
            "<p class=\"now {look}\" data-state=\"{name}\"{hidden}>{sentence}</p>\n"
        )?;
    }
    page.push_str("<p id=\"silent\" class=\"now bad\" hidden></p>\n")
}

// Adds the progress of a resync, hidden if none runs.
fn add_resync(page: &mut String, resync: Option<Resync>) -> Result<(), AllocError> {
    let hidden = hidden_unless(resync.is_some());
    let percent = resync.map_or(0, |resync| resync.percent());
    let left = resync.map_or(0, |resync| resync.left_kib());
    write!(
        page,
        "<section id=\"resync\"{hidden}>\n<h2>Resync</h2>\n<progress id=\"progress\" max=\"100\" value=\"{percent}\"></progress>\n<p><span data-key=\"resync.percent\">{percent}</span>% are copied, <span data-key=\"resync.left_kib\">{left}</span> KiB are left"
    )?;
    page.push_str("; KiB in a second: ")?;
    add_known(
        page,
        "resync.kib_per_second",
        resync.and_then(|resync| resync.kib_per_second()),
    )?;
    page.push_str("; seconds to go: ")?;
    add_known(
        page,
        "resync.seconds_left",
        resync.and_then(|resync| resync.seconds_left()),
    )?;
    page.push_str("</p>\n</section>\n")
}

// Adds a number that may not be known.
fn add_known(page: &mut String, key: &str, number: Option<u64>) -> Result<(), AllocError> {
    match number {
        Some(number) => write!(page, "<span data-key=\"{key}\">{number}</span>"),
        None => write!(page, "<span data-key=\"{key}\">not known yet</span>"),
    }
}

// Adds the table of the primary.
fn add_primary(page: &mut String, report: &StatusReport) -> Result<(), AllocError> {
    page.push_str("<section>\n<h2>Primary, with the local image</h2>\n<table>\n")?;
    add_primary_words(page, &report.primary.line)?;
    add_primary_numbers(page, &report.primary.line)?;
    add_number(
        page,
        "Writes",
        "primary.accepted_writes",
        report.primary.accepted,
        "Ranges that clients wrote since the session began.",
    )?;
    add_number(
        page,
        "Size",
        "size_kib",
        report.size_kib(),
        "KiB of the device.",
    )?;
    page.push_str("</table>\n</section>\n")
}

// Adds the words of the primary's line.
fn add_primary_words(page: &mut String, line: &PrimaryLine) -> Result<(), AllocError> {
    let PrimaryLine {
        words,
        protocol,
        ..
    } = *line;
    add_word(
        page,
        "Link",
        "primary.connection",
        words.link.name(),
        &PRIMARY_LINK,
    )?;
    add_word(page, "Role", "primary.role", words.own_role.name(), &ROLE)?;
    add_word(page, "Disk", "primary.disk", words.own_disk.name(), &DISK)?;
    add_word(
        page,
        "Protocol",
        "primary.protocol",
        protocol_name(protocol),
        &PROTOCOL,
    )
}

// Adds the numbers of the primary's line.
fn add_primary_numbers(page: &mut String, line: &PrimaryLine) -> Result<(), AllocError> {
    add_number(
        page,
        "Out of sync <small>oos</small>",
        "primary.out_of_sync_kib",
        line.oos,
        "KiB that the peer's image may lack.",
    )?;
    add_number(
        page,
        "Open writes <small>ap</small>",
        "primary.open_writes",
        line.ap,
        "Writes that clients wait for.",
    )?;
    add_number(
        page,
        "Unanswered <small>pe</small>",
        "primary.unanswered_writes",
        line.pe,
        "Writes that the peer has not answered.",
    )?;
    add_number(
        page,
        "Epochs <small>ep</small>",
        "primary.open_epochs",
        line.ep,
        "Groups of writes that the peer has not acknowledged.",
    )
}

// Adds the table of the block clients.
fn add_clients(page: &mut String, report: &StatusReport) -> Result<(), AllocError> {
    page.push_str("<section>\n<h2>Clients</h2>\n<table>\n")?;
    add_number(
        page,
        "Connected",
        "clients",
        u64::from(report.clients),
        "Block clients.",
    )?;
    add_number(
        page,
        "Mirrored",
        "receipts_linked",
        report.receipts.linked,
        "Ranges that they wrote and that the peer has, as the protocol asks, since the server began.",
    )?;
    add_number(
        page,
        "Alone",
        "receipts_alone",
        report.receipts.alone,
        "Ranges that they wrote and that the local image alone had.",
    )?;
    page.push_str("</table>\n</section>\n")
}

// Adds the table of the secondary, and that its words are to be doubted if a sync of its image has failed.
fn add_secondary(page: &mut String, report: &StatusReport) -> Result<(), AllocError> {
    let SecondaryLine {
        words,
        protocol: _,
        pending,
        usable,
        whole,
    } = report.secondary.line;
    let usable = if usable { "Yes" } else { "No" };
    page.push_str("<section>\n<h2>Secondary, with the peer's image</h2>\n")?;
    let hidden = hidden_unless(report.is_peer_failed);
    write!(
        page,
        "<p id=\"doubted\" class=\"now bad\"{hidden}>A sync of this image has failed: it may lack what its words tell.</p>\n<table>\n"
    )?;
    add_word(
        page,
        "Link",
        "secondary.connection",
        words.link.name(),
        &SECONDARY_LINK,
    )?;
    add_word(page, "Role", "secondary.role", words.own_role.name(), &ROLE)?;
    add_word(page, "Disk", "secondary.disk", words.own_disk.name(), &DISK)?;
    add_word(page, "Use", "secondary.is_consistent", usable, &USABLE)?;
    add_number(
        page,
        "Pending",
        "secondary.pending_items",
        pending,
        "Items that wait for its disk.",
    )?;
    add_number(
        page,
        "Whole epoch",
        "secondary.whole_epoch",
        whole,
        "The last group of writes of this connection that it has completely.",
    )?;
    page.push_str("</table>\n</section>\n")
}

// Adds how the server began.
fn add_start(page: &mut String, start: ServerStart) -> Result<(), AllocError> {
    page.push_str("<section>\n<h2>Start</h2>\n<table>\n")?;
    add_word(page, "After", "start.after", start.after.name(), &AFTER)?;
    add_number(
        page,
        "To copy",
        "start.to_copy_kib",
        start.kib(),
        "KiB that the server had to copy when it began.",
    )?;
    page.push_str("</table>\n</section>\n")
}

// Adds a row with a word, and what it means. The meanings of the other words that may stand there are hidden.
fn add_word(
    page: &mut String,
    title: &str,
    key: &str,
    word: &str,
    meanings: &[Meaning],
) -> Result<(), AllocError> {
    write!(
        page,
        "<tr><th scope=\"row\">{title}</th><td class=\"value\" data-key=\"{key}\">{}</td><td class=\"meaning\">",
        Escaped(word)
    )?;
    for (other, meaning) in meanings {
        let hidden = hidden_unless(*other == word);
        write!(
            page,
            "<span data-of=\"{key}\" data-word=\"{other}\"{hidden}>{}</span>",
            Escaped(meaning)
        )?;
    }
    page.push_str("</td></tr>\n")
}

// Adds a row with a number, and what it means. The title is HTML.
fn add_number(
    page: &mut String,
    title: &str,
    key: &str,
    number: u64,
    meaning: &str,
) -> Result<(), AllocError> {
    write!(
        page,
        "<tr><th scope=\"row\">{title}</th><td class=\"value\" data-key=\"{key}\">{number}</td><td class=\"meaning\">{}</td></tr>\n",
        Escaped(meaning)
    )
}

// Returns the attribute of what is hidden, or nothing for what is shown.
fn hidden_unless(is_shown: bool) -> &'static str {
    if is_shown { "" } else { " hidden" }
}
