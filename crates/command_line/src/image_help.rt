//! The texts of `--help` below the usages of the commands over images that no server uses.
use std::alloc::{AllocError, Global};
use std::fmt;

/// The texts below the usages of these commands.
#[derive(Drop)]
pub(crate) struct ImageHelpTexts {
    pub(crate) create_md: String,
    pub(crate) dump_md: String,
    pub(crate) get_gi: String,
    pub(crate) show_gi: String,
    pub(crate) verify: String,
}

impl ImageHelpTexts {
    /// Writes the texts. `AllocError` if there is no memory for them.
    pub(crate) fn new(alloc: Global) -> Result<ImageHelpTexts, AllocError> {
        Ok(ImageHelpTexts {
            create_md: format!(in alloc; "{CreateMdHelp}")?,
            dump_md: format!(in alloc; "{DumpMdHelp}")?,
            get_gi: format!(in alloc; "{GetGiHelp}")?,
            show_gi: format!(in alloc; "{ShowGiHelp}")?,
            verify: format!(in alloc; "{VerifyHelp}")?,
        })
    }
}

/// What `create-md` does.
pub(crate) struct CreateMdHelp;

impl fmt::Display for CreateMdHelp {
    fn fmt<W: fmt::Write>(&self, f: &mut fmt::Formatter<W>) -> fmt::Result {
        f.write_str(
            "\
Makes the metadata of an image, in IMAGE.metadata or the file that is named. The
next server over it takes nothing for granted: it copies all of its local image
over the peer's. Metadata that is there stays, unless --force is given. A server
makes metadata by itself, so this is for beginning anew.

Exit statuses: 0 done; 1 there is metadata already, the image is in use or could
not be opened, or a file or memory failed; 2 wrong usage.
",
        )
    }
}

/// What `dump-md` does.
pub(crate) struct DumpMdHelp;

impl fmt::Display for DumpMdHelp {
    fn fmt<W: fmt::Write>(&self, f: &mut fmt::Formatter<W>) -> fmt::Result {
        f.write_str(
            "\
Shows what the metadata of an image says: the ids of its pair and its node, its
generation identifiers in hexadecimal (current, bitmap, two historical), its
role, whose secondary it is, whether it is consistent, whether its last server
ended as it was told to and the image is unchanged since, how many extents of
4 MiB are active, and how much the next server copies: what is marked, and all
of the active extents.

Exit statuses: 0 done; 1 there is no metadata or it is damaged, the image is in
use or could not be opened, or a file or memory failed; 2 wrong usage.
",
        )
    }
}

/// What `verify` does.
pub(crate) struct VerifyHelp;

impl fmt::Display for VerifyHelp {
    fn fmt<W: fmt::Write>(&self, f: &mut fmt::Formatter<W>) -> fmt::Result {
        f.write_str(
            "\
Compares both images of a mirror while no server uses them, and writes to
neither. It prints how many blocks differ, and how many of these the local
image's metadata does not cover, so that a server would not copy them.

Exit statuses: 0 each block that differs is covered; 1 one is not, an image is
in use or could not be read, or memory failed; 2 wrong usage.
",
        )
    }
}

/// What `get-gi` does.
pub(crate) struct GetGiHelp;

impl fmt::Display for GetGiHelp {
    fn fmt<W: fmt::Write>(&self, f: &mut fmt::Formatter<W>) -> fmt::Result {
        f.write_str(
            "\
Prints the generation identifiers of an image in one line, as drbdadm get-gi does:
CURRENT:BITMAP:HISTORY:OLDER in 16 hexadecimal digits each, then seven flags, each
0 or 1:
  1  consistent        the image holds what some disk of the pair held at one moment
  2  was up-to-date    it was the primary's, which has all that clients wrote
  3  was primary       it was the primary's, and its server was not told to end
  4  was connected     0: no metadata says it
  5  setting all bits  0: a copy of all blocks is told by the identifiers
  6  peer outdated     0: no metadata says it
  7  crashed primary   0: the next start learns of a kill from the third flag

Exit statuses: 0 done; 1 there is no metadata or it is damaged, the image is in
use or could not be opened, or a file or memory failed; 2 wrong usage.
",
        )
    }
}

/// What `show-gi` does.
pub(crate) struct ShowGiHelp;

impl fmt::Display for ShowGiHelp {
    fn fmt<W: fmt::Write>(&self, f: &mut fmt::Formatter<W>) -> fmt::Result {
        f.write_str(
            "\
Prints what get-gi does, and what each part of it is, as drbdadm show-gi does of a
node that is not connected. Below the line come the flags in words, where a
consistent image that was a secondary's is Outdated, since its metadata does not
say whether it was up to date; whether the activity log has to be applied, as after
a kill, which the next start does by itself; the size of the device; and the size
of a request that the peers agreed on, which is always 0 here.

Exit statuses: 0 done; 1 there is no metadata or it is damaged, the image is in
use or could not be opened, or a file or memory failed; 2 wrong usage.
",
        )
    }
}
