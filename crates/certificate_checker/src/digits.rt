ghost use Rattle.std.specs.Prelude.{◌≡◌, ◌+◌, ◌*◌, ◌^◌, ◌<◌, ◌==◌, nat_le, ◌||◌, if◌then◌else◌, Some, None};
ghost use Rattle.certificate_checker.specs.Digits.{GivesNumber, digits_at, number_at};

/// Why bytes spell no number.
#[derive(Drop)]
pub(crate) enum NumberFault {
    /// They end within it.
    Cut,
    /// It isn't in its shortest form, or 2^64 or more.
    Bad,
}

/// A number by its low seven bits and what is above them.
fn joined(low: u8, high: u64) -> Option<u64>
    requires { low < 128 }
    ensures { result ≡ (if (high == 0) || nat_le (2 ^ 64) (low + 128 * high) then None else Some (low + 128 * high)) }
{
    if high == 0 || high >= 1 << 57 {
        None
    } else {
        Some(u64::from(low) + 128 * high)
    }
}

/// Reads a number of at most `more` bytes behind the first.
fn digits(bytes: &[u8], more: u32) -> Result<(u64, &[u8]), NumberFault>
    ensures { GivesNumber (λ x. (x.0, x.1.now)) result (digits_at more bytes.now) }
{
    match bytes {
        [] => Err(NumberFault::Cut),
        [first, rest @ ..] => {
            if *first < 128 {
                return Ok((u64::from(*first), rest));
            }
            if more == 0 {
                return Err(NumberFault::Bad);
            }
            match digits(rest, more - 1) {
                Err(fault) => Err(fault),
                Ok((high, rest)) => match joined(*first - 128, high) {
                    None => Err(NumberFault::Bad),
                    Some(number) => Ok((number, rest)),
                },
            }
        }
    }
}

/// Reads a number in unsigned LEB128.
#[tactic(auto, unfolding(crate::specs::Digits::number_at))]
pub(crate) fn number(bytes: &[u8]) -> Result<(u64, &[u8]), NumberFault>
    ensures { GivesNumber (λ x. (x.0, x.1.now)) result (number_at bytes.now) }
{
    digits(bytes, 9)
}
