ghost use Rattle.std.specs.Prelude.{◌≡◌, ◌<◌, ◌^◌};
ghost use Rattle.sr_literal.specs.Literals as literals;

/// The greatest number of a literal: the greatest that an `int` holds.
const GREATEST: u64 = 2_147_483_647;

/// The number that decimal digits stand for; `None` where there is none, a byte is no digit, or an `int` can't hold it.
pub fn number_of(digits: &[u8]) -> Option<u32>
    ensures { result ≡ literals.number_of digits.now }
{
    if digits.is_empty() {
        return None;
    }
    let mut number = 0u32;
    for byte in digits {
        number = with_digit(number, *byte)?;
    }
    Some(number)
}

/// The number with one digit more.
fn with_digit(number: u32, byte: u8) -> Option<u32>
    requires { number < 2 ^ 31 }
    ensures { result ≡ literals.with_digit number byte }
{
    if !byte.is_ascii_digit() {
        return None;
    }
    let number = u64::from(number) * 10 + u64::from(byte - b'0');
    if number > GREATEST {
        return None;
    }
    Some(number as u32)
}
