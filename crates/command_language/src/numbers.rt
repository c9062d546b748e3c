ghost use Rattle.std.specs.Prelude.{◌≡◌, ◌≤◌, ◌↔◌, ℕ, IsTrue, MatchOption, All, length};
ghost use Rattle.command_language.specs.Command.{IsDigit, value_of, IsNumber};

/// The number that a word of 1 to `width` digits spells, where it is from `low` to `high`.
pub fn parse_number(word: &str, width: usize, low: u32, high: u32) -> Option<u32>
    requires few { width ≤ 10 }
    ensures { MatchOption result
        ((number : ℕ) → IsNumber width low high word.now number → ⊥)
        (λ number. IsNumber width low high word.now number) }
{
    let digits = word.as_bytes();
    if digits.is_empty() || digits.len() > width || !are_digits(digits) {
        return None;
    }
    let value = digits_value(digits);
    if u64::from(low) <= value && value <= u64::from(high) {
        Some(value as u32)
    } else {
        None
    }
}

/// Whether each byte is an ASCII digit.
pub fn are_digits(bytes: &[u8]) -> bool
    ensures { IsTrue result ↔ All IsDigit bytes.now }
{
    bytes.iter().all(|byte| is_digit(*byte))
}

fn is_digit(byte: u8) -> bool
    ensures { IsTrue result ↔ IsDigit byte }
{
    b'0' <= byte && byte <= b'9'
}

/// The number that at most ten digits spell.
pub fn digits_value(digits: &[u8]) -> u64
    requires digits { All IsDigit digits.now }
    requires few { length digits.now ≤ 10 }
    ensures { result ≡ value_of digits.now }
{
    let mut value: u64 = 0;
    for digit in digits {
        value = 10 * value + u64::from(*digit - b'0');
    }
    value
}
