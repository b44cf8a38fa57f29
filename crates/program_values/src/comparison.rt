//! What a comparison of the disks found.
ghost use Rattle.std.specs.Prelude.{Some};
ghost use Rattle.program_values.specs.Text.{unmarked_text};

use std::fmt;

/// On how many blocks the disks differ without a mark, if they were compared.
#[derive(Clone, Copy, Debug, PartialEq, Eq)]
pub struct Comparison {
    pub unmarked: Option<u32>,
}

impl fmt::Display for Comparison {
    ghost output = { λ comparison. Some (unmarked_text comparison.unmarked) };

    fn fmt<W: fmt::Write>(&self, f: &mut fmt::Formatter<W>) -> fmt::Result {
        match self.unmarked {
            Some(unmarked) => write!(f, "{unmarked}"),
            None => f.write_str("not compared"),
        }
    }
}
