//! The id that a system has from one start to the next.
use metadata::BootId;
use std::fs;
use std::rt::Files;

/// Where Linux tells it, as text in the form of a UUID.
const BOOT_ID_FILE: &str = "/proc/sys/kernel/random/boot_id";

/// Hexadecimal digits of 64 bits.
const HALF_DIGITS: usize = 16;

/// Returns the id of this system since its last start; `None` if it does not tell it.
pub fn boot_id<H: Files + AllocGlobal>(rt: &H) -> Option<BootId> {
    let text = fs::read_to_string(rt, BOOT_ID_FILE).ok()?;
    let mut halves = [0u64; 2];
    let mut digits = 0usize;
    for letter in text.chars() {
        if let Some(digit) = letter.to_digit(16) {
            let half = halves.get_mut(digits / HALF_DIGITS)?;
            *half = *half << 4 | u64::from(digit);
            digits += 1;
        }
    }
    (digits == 2 * HALF_DIGITS).then_some(BootId {
        high: halves[0],
        low: halves[1],
    })
}
