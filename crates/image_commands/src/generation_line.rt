//! The generation identifiers of a disk in one line, as DRBD's tools print them.
ghost use Rattle.std.specs.Prelude.{◌≡◌, Some};
ghost use Rattle.image_commands.specs.GenerationText.{flag_text, generation_text, line_of, tuple_text};

use blocks::Tuple;
use image_metadata::Identifiers;
use std::fmt;

/// What DRBD's tools print of a disk's metadata in one line: its identifiers, and its flags.
#[derive(Clone, Copy, Debug, PartialEq, Eq)]
pub(crate) struct GenerationLine {
    pub(crate) tuple: Tuple,
    /// The disk holds what some disk of the pair held at one moment.
    pub(crate) is_consistent: bool,
    /// It was a primary's, which has all that clients wrote.
    pub(crate) was_up_to_date: bool,
    /// It was a primary's whose server has not ended as it was told to.
    pub(crate) is_primary: bool,
}

impl GenerationLine {
    /// Returns what is printed of metadata that says this.
    pub(crate) fn of(identifiers: &Identifiers) -> GenerationLine
        ensures { result ≡ line_of identifiers.now }
    {
        GenerationLine {
            tuple: identifiers.tuple,
            is_consistent: identifiers.is_consistent,
            was_up_to_date: identifiers.is_primary && identifiers.is_consistent,
            is_primary: identifiers.is_primary && !identifiers.clean_end.is_some(),
        }
    }
}

impl fmt::Display for GenerationLine {
    ghost output = { λ line. Some (generation_text line) };

    fn fmt<W: fmt::Write>(&self, f: &mut fmt::Formatter<W>) -> fmt::Result {
        let identifiers = FourIdentifiers(*self);
        let consistent = flag(self.is_consistent);
        let up_to_date = flag(self.was_up_to_date);
        let primary = flag(self.is_primary);
        write!(
            f,
            "{identifiers}:{consistent}:{up_to_date}:{primary}:0:0:0:0"
        )
    }
}

/// The identifiers of a line: the current one, that of the bitmap, and two historical ones.
#[derive(Clone, Copy)]
struct FourIdentifiers(GenerationLine);

impl fmt::Display for FourIdentifiers {
    ghost output = { λ four. Some (tuple_text four.0) };

    fn fmt<W: fmt::Write>(&self, f: &mut fmt::Formatter<W>) -> fmt::Result {
        let Tuple {
            current,
            bitmap,
            first_historical,
            second_historical,
        } = self.0.tuple;
        write!(
            f,
            "{current:016X}:{bitmap:016X}:{first_historical:016X}:{second_historical:016X}"
        )
    }
}

// Returns a flag as it is printed.
fn flag(is_set: bool) -> &'static str
    ensures { result.now ≡ flag_text is_set }
{
    if is_set { "1" } else { "0" }
}
