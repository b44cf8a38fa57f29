//! Whether the peer's disk is taken as alike before a first session.
ghost use Rattle.std.specs.Prelude.{◌≡◌, false, true, IfOk, IsTrue};
ghost use Rattle.disk_pair.specs.Disks.{AreFaithful, WereRead};
ghost use Rattle.program_values.specs.declared.serve_options.FirstStart.TheVariants.{AssumeEqual, Compare, Copy};

use crate::Disks;
use crate::compare::are_alike;
use blocks::{Refusal, Store};
use program_values::FirstStart;
use std::io::Write;

/// Returns whether the peer's disk is known to be like the local one, as a comparison finds or as it is taken. `ReadFault` (14) if a
/// disk fails a read.
pub fn is_peer_known<D: Store, E: Write>(
    how: FirstStart,
    disks: &mut Disks<D>,
    err: &mut E,
) -> Result<bool, Refusal>
    ensures same { IfOk result (λ known. how ≡ Compare → AreFaithful disks.new → disks.old.local ≡ disks.old.peer → IsTrue known) }
    ensures copied { IfOk result (λ known. how ≡ Copy → known ≡ false) }
    ensures assumed { IfOk result (λ known. how ≡ AssumeEqual → known ≡ true) }
    ensures known { IfOk result (λ known. IsTrue known → AreFaithful disks.new → (how ≡ AssumeEqual → disks.old.local ≡ disks.old.peer)
        → disks.old.local ≡ disks.old.peer) }
    ensures read { WereRead disks.old disks.new }
{
    match how {
        FirstStart::Compare => {
            let is_alike = are_alike(disks, err)?;
            if !is_alike {
                let _ = writeln!(
                    err,
                    "the images differ: all of the local one is copied over the peer's"
                );
            }
            Ok(is_alike)
        }
        FirstStart::Copy => Ok(false),
        FirstStart::AssumeEqual => Ok(true),
    }
}
