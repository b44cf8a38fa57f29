//! The length of an image.
ghost use Rattle.std.specs.Prelude.{◌≡◌, ◌*◌, ◌↔◌, IsOk, IfErr};
ghost use Rattle.image_store.specs.declared.open_fault.OpenFault.TheVariants.{WrongLength};

use crate::OpenFault;
use blocks::BLOCK_BYTES;

/// Checks that an image of `found` bytes has exactly as many as a device of `blocks` blocks. `WrongLength` if it does not.
pub fn check_length(found: u64, blocks: u32) -> Result<(), OpenFault>
    ensures accepted { IsOk result ↔ (found ≡ blocks * 4096) }
    ensures refused { IfErr result (λ fault. fault ≡ WrongLength found (blocks * 4096)) }
{
    let wanted = u64::from(blocks) * BLOCK_BYTES as u64;
    if found != wanted {
        return Err(OpenFault::WrongLength { found, wanted });
    }
    Ok(())
}
