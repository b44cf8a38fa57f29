//! The first line in which two texts differ.
use std::fmt;

/// The first line in which a text differs from the one that is wanted. A line includes its newline.
#[derive(Clone, Copy)]
pub(crate) struct Difference<'a> {
    /// The line's number, from 1.
    number: usize,
    wanted: Line<'a>,
    got: Line<'a>,
}

/// A line of a text, or none if the text ends before it.
#[derive(Clone, Copy)]
struct Line<'a>(Option<&'a [u8]>);

impl<'a> Difference<'a> {
    /// Returns the first difference; none if the texts are equal to the byte.
    pub(crate) fn first(wanted: &'a [u8], got: &'a [u8]) -> Option<Difference<'a>> {
        if wanted == got {
            return None;
        }
        let alike = wanted
            .iter()
            .zip(got)
            .take_while(|(wanted, got)| **wanted == **got)
            .count();
        let before = wanted
            .iter()
            .take(alike)
            .filter(|byte| **byte == b'\n')
            .count();
        Some(Difference {
            number: before.saturating_add(1),
            wanted: Line::after(wanted, before),
            got: Line::after(got, before),
        })
    }
}

impl<'a> Line<'a> {
    /// Returns the line of a text after its first `before` lines.
    fn after(text: &'a [u8], before: usize) -> Line<'a> {
        Line(text.split_inclusive(|byte| *byte == b'\n').nth(before))
    }
}

impl fmt::Display for Difference<'_> {
    fn fmt<W: fmt::Write>(&self, f: &mut fmt::Formatter<W>) -> fmt::Result {
        write!(
            f,
            "line {}: wanted {}, got {}",
            self.number, self.wanted, self.got
        )
    }
}

impl fmt::Display for Line<'_> {
    fn fmt<W: fmt::Write>(&self, f: &mut fmt::Formatter<W>) -> fmt::Result {
        let Some(bytes) = self.0 else {
            return write!(f, "nothing");
        };
        match std::str::from_utf8(bytes) {
            Ok(text) => write!(f, "{text:?}"),
            Err(_) => write!(f, "{bytes:?}"),
        }
    }
}
