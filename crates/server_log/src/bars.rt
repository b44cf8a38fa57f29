//! The progress of a copy as a bar.
ghost use Rattle.std.specs.Prelude.{◌≡◌, string_bytes, IfOk};
ghost use Rattle.server_log.specs.Bars.{bar_text, cells_text};

use crate::event::Copied;
use std::alloc::{AllocError, Global};

/// Returns how far a copy has come, as a bar for a terminal: it goes from the start of the line on, and over an earlier bar there. It ends no
/// line.
pub fn bar(alloc: Global, copied: Copied) -> Result<String, AllocError>
    ensures { IfOk result (λ text. string_bytes text ≡ bar_text copied) }
{
    let Copied {
        percent,
        left_kib,
        kib_per_second,
        seconds_left,
    } = copied;
    let cells = cells(percent / 10);
    format!(in alloc;
        "\r[{cells}] {percent}% done, {left_kib} KiB left, {kib_per_second} KiB/s, {seconds_left} s to go        "
    )
}

// Returns the ten cells of a bar, of which so many are filled.
fn cells(filled: u64) -> &'static str
    ensures { result.now ≡ cells_text filled }
{
    match filled {
        0 => "..........",
        1 => "#.........",
        2 => "##........",
        3 => "###.......",
        4 => "####......",
        5 => "#####.....",
        6 => "######....",
        7 => "#######...",
        8 => "########..",
        9 => "#########.",
        _ => "##########",
    }
}
