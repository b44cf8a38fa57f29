//! The answer of a status page as it comes over HTTP.
use program_values::decimal;
use std::str;

/// The head of an answer that has a status.
const OK: &str = "HTTP/1.1 200 ";

/// The head of one that has none now.
const UNAVAILABLE: &str = "HTTP/1.1 503 ";

/// The name of the header with the length of the text, as the page writes it.
const LENGTH: &str = "content-length: ";

/// An answer of a status page.
#[derive(Clone, Copy)]
pub(crate) enum PageAnswer<'a> {
    /// The text of the page.
    Text(&'a str),
    /// The server has no status now.
    Unavailable,
    /// It is not the whole answer of a status page.
    Strange,
}

/// Reads the answer of a status page to a question for its lines: all that came until the server closed the connection.
pub(crate) fn read_answer(bytes: &[u8]) -> PageAnswer<'_> {
    let Ok(text) = str::from_utf8(bytes) else {
        return PageAnswer::Strange;
    };
    if text.starts_with(UNAVAILABLE) {
        return PageAnswer::Unavailable;
    }
    let Some((head, body)) = text.split_once("\r\n\r\n") else {
        return PageAnswer::Strange;
    };
    if head.starts_with(OK) && length_of(head) == Some(body.len() as u64) {
        PageAnswer::Text(body)
    } else {
        PageAnswer::Strange
    }
}

// Returns the length of the text that a head names.
fn length_of(head: &str) -> Option<u64> {
    for line in head.split("\r\n") {
        if let Some(length) = line.strip_prefix(LENGTH) {
            return decimal(length);
        }
    }
    None
}
