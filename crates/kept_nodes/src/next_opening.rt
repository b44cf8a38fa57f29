//! What the next session opens with.
ghost use Rattle.kept_nodes.specs.Again.{BrokenFilesCover, FilesLeaveASoundOpening, PrimariesSaySo, SecondariesSaySo};

use metadata::StableFile;

/// States laws by its contract, and does nothing. Two joined nodes stop at any moment, a primary whose metadata is on a file of type
/// `F` and a secondary with its own on one of type `G`. Whatever is left of both files opens, and the next session in the same roles
/// has a sound opening with what they say: the marks are those that `known_marks` returns of the primary's file, and a secondary that
/// is not consistent has no identifiers (`opening`). If a call of the primary's file has failed, its identifiers may be old ones; the
/// marks still have every block that was marked or under an unreleased write, so after a grounded history the opening is sound with
/// any identifiers (`broken`). What the first law asks of each file is what a `KeptPrimary` (`primary`) and a `KeptSecondary`
/// (`secondary`) have, of some history that they refine.
pub fn next_opening_of_files<F: StableFile, G: StableFile>()
    ensures opening { FilesLeaveASoundOpening F.seen F.may_leave F.faithful G.seen G.may_leave }
    ensures broken { BrokenFilesCover F.seen F.may_leave F.faithful }
    ensures primary { PrimariesSaySo F.seen F.may_leave F.faithful }
    ensures secondary { SecondariesSaySo G.seen G.may_leave }
{}
