//! Numbers that a script spells.
ghost use Rattle.std.specs.Prelude.{◌≡◌, ◌<◌, ◌^◌, ℕ, IfSome, IfNone};
ghost use Rattle.program_values.specs.Numbers.{decimal_digit, hexadecimal_digit, hexadecimal_byte, IsDecimal};

/// Returns the number that decimal digits spell, without a sign, up to 18,446,744,073,709,551,615; none if the word
/// is empty, has another character, or spells a larger number. It may begin with zeros. This project's rule.
pub fn decimal(word: &str) -> Option<u64>
    ensures value { IfSome result (IsDecimal word.now) }
    ensures none { IfNone result ((n : ℕ) → n < 2 ^ 64 → IsDecimal word.now n → ⊥) }
{
    let mut value = 0u64;
    for digit in word.as_bytes() {
        let units = u64::from(decimal_digit(*digit)?);
        value = value.checked_mul(10)?.checked_add(units)?;
    }
    if word.is_empty() { None } else { Some(value) }
}

/// Returns the byte that two hexadecimal digits of either case spell; none for any other word. This project's rule.
pub fn byte(word: &str) -> Option<u8>
    ensures { result ≡ hexadecimal_byte word.now }
{
    let [high, low] = word.as_bytes() else {
        return None;
    };
    Some(16 * hexadecimal_digit(*high)? + hexadecimal_digit(*low)?)
}

fn decimal_digit(digit: u8) -> Option<u8>
    ensures { result ≡ decimal_digit digit }
{
    match digit {
        b'0'..=b'9' => Some(digit - b'0'),
        _ => None,
    }
}

fn hexadecimal_digit(digit: u8) -> Option<u8>
    ensures value { result ≡ hexadecimal_digit digit }
    ensures small { IfSome result (λ n. n < 16) }
{
    match digit {
        b'0'..=b'9' => Some(digit - b'0'),
        b'a'..=b'f' => Some(digit - b'a' + 10),
        b'A'..=b'F' => Some(digit - b'A' + 10),
        _ => None,
    }
}
