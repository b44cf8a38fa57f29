//! A test for zeros.
ghost use Rattle.std.specs.Prelude.{◌≡◌, ◌↔◌, ◌==◌, true, length, replicate};
ghost use Rattle.std.specs.List.{list_all};

/// Bytes between two branches of the test.
const RUN: usize = 256;

/// Returns whether all of these bytes are zeros.
///
/// A branch behind each byte would cost a cycle for each. Here one stands behind each run, of a length that the compiler knows: so the
/// program looks at many bytes at a time.
pub fn are_zeros(bytes: &[u8]) -> bool
    ensures { result ≡ true ↔ bytes.now ≡ replicate (length bytes.now) 0 }
{
    let mut rest = bytes;
    while let Some((run, after)) = rest.split_first_chunk::<RUN>() {
        if !is_run_of_zeros(run) {
            return false;
        }
        rest = after;
    }
    is_run_of_zeros(rest)
}

// Returns the same, with no branch between the bytes.
#[inline(always)]
fn is_run_of_zeros(run: &[u8]) -> bool
    ensures { result ≡ list_all (λ byte. byte == 0) run.now }
{
    let mut zeros = true;
    for byte in run {
        zeros &= *byte == 0;
    }
    zeros
}
