//! How each kind of thing is added to what was told.
use crate::Told;
use bytes::Bytes;
use ghost_log::Adds;
use primary::Receipt;

/// Nothing.
pub(crate) struct TellsNothing;

impl Adds<(), (), Told> for TellsNothing {
    ghost use Rattle.std.specs.Prelude.{◌≡◌, []};

    ghost adds = { λ one other log more. more ≡ [] };
}

/// That a write was accepted, by its number and its first block, and its bytes.
pub(crate) struct TellsAccepted;

impl Adds<(u64, u64), Bytes, Told> for TellsAccepted {
    ghost use Rattle.std.specs.Prelude.{◌≡◌, [], ◌∷◌};
    ghost use Rattle.told.specs.declared.entry.Told.TheVariants.{Accepted};

    ghost adds = { λ at bytes log more. more ≡ Accepted at.0 at.1 bytes ∷ [] };
}

/// That a write within a block was accepted, by its number, its block and the byte of that with which it begins, and its bytes.
pub(crate) struct TellsPatched;

impl Adds<(u64, u64, u32), Bytes, Told> for TellsPatched {
    ghost use Rattle.std.specs.Prelude.{◌≡◌, [], ◌∷◌};
    ghost use Rattle.told.specs.declared.entry.Told.TheVariants.{Patched};

    ghost adds = { λ at bytes log more. more ≡ Patched at.0 at.1 at.2 bytes ∷ [] };
}

/// That a receipt was given.
pub(crate) struct TellsGiven;

impl Adds<Receipt, (), Told> for TellsGiven {
    ghost use Rattle.std.specs.Prelude.{◌≡◌, [], ◌∷◌};
    ghost use Rattle.told.specs.declared.entry.Told.TheVariants.{Given};

    ghost adds = { λ receipt nothing log more. more ≡ Given receipt ∷ [] };
}

/// What the disk held, by the first block and the number of blocks, and the bytes.
pub(crate) struct TellsHeld;

impl Adds<(u64, u64), Vec<u8>, Told> for TellsHeld {
    ghost use Rattle.std.specs.Prelude.{◌≡◌, [], ◌∷◌};
    ghost use Rattle.told.specs.declared.entry.Told.TheVariants.{Held};

    ghost adds = { λ at bytes log more. more ≡ Held at.0 at.1 bytes.items ∷ [] };
}
