//! The identifiers of a first session over images that get metadata.
ghost use Rattle.std.specs.Prelude.{◌≡◌, ◌<◌, true};
ghost use Rattle.program_values.specs.declared.serve_options.FirstStart.TheVariants.{Compare, Copy};
ghost use Rattle.settlement.specs.Next.{unknown};

use blocks::Tuple;
use program_values::FirstStart;

/// Returns the identifiers of both disks in a first session: alike, but for a primary whose disk has blocks that the peer's lacks, and for
/// a peer over which all is copied. No identifier of data is 0.
pub fn first_identifiers(
    how: FirstStart,
    has_marks: bool,
    identifier: u64,
    word: u64,
) -> (Tuple, Tuple)
    ensures own { 0 < result.0.current }
    ensures bitmap { (how ≡ Compare → ⊥) → result.0.bitmap ≡ 0 }
    ensures parted { how ≡ Compare → has_marks ≡ true → result.0.bitmap ≡ result.1.current }
    ensures copied { how ≡ Copy → result.1 ≡ unknown }
{
    let before = Tuple::new(identifier.max(1), 0, 0, 0);
    match how {
        FirstStart::Compare if has_marks => {
            (Tuple::new(word.max(1), identifier.max(1), 0, 0), before)
        }
        FirstStart::Copy => (before, Tuple::new(0, 0, 0, 0)),
        _ => (before, before),
    }
}
