//! What the program says of its version.
ghost use Rattle.std.specs.Prelude.{◌≡◌, string_bytes, IfOk};
ghost use Rattle.program_values.specs.Version.{version_text};

use std::alloc::{AllocError, Global};

/// The version, as in the file `VERSION` at the top of the repository: `checks/version` compares them.
pub const VERSION: &str = "0.1.0";

/// The id of the logic in which the kit proves the program, as `rt version` prints it: `checks/version` compares them.
const LOGIC: &str = "dac8208d650f15bf";

/// What stands in the place of a commit that is not known: a program cannot name its own, but a package can.
pub const NO_COMMIT: &str = "not known (not from a package)";

/// Returns what `--version` prints of a program that was built from this commit: three lines, each ended by a newline. `AllocError` if there
/// is no memory for them.
pub fn version_text(alloc: Global, commit: &str) -> Result<String, AllocError>
    ensures { IfOk result (λ text. string_bytes text ≡ version_text commit.now) }
{
    format!(in alloc; "drbdpair {VERSION}\ncommit: {commit}\nlogic: {LOGIC}\n")
}
