ghost use Rattle.std.specs.Prelude.{◌≡◌, ◌<◌, ◌≤◌, length};
ghost use Rattle.sr_words.specs.Numbers as numbers;

/// The most digits of a number.
const MOST_DIGITS: usize = 10;

/// The number that a word is, where it is one from `least` to `most`.
pub fn number_within(least: u32, most: u32, word: &[u8]) -> Option<u32>
    ensures { result ≡ numbers.number_within least most word.now }
{
    if word.is_empty() || word.len() > MOST_DIGITS {
        return None;
    }
    let number = number_of(word)?;
    if u64::from(least) <= number && number <= u64::from(most) {
        Some(number as u32)
    } else {
        None
    }
}

/// What up to ten digits stand for; `None` where a byte is no digit.
fn number_of(word: &[u8]) -> Option<u64>
    requires { length word.now ≤ 10 }
    ensures { result ≡ numbers.number_of_digits word.now }
{
    let mut number = 0u64;
    for byte in word {
        if !byte.is_ascii_digit() {
            return None;
        }
        number = number * 10 + u64::from(*byte - b'0');
    }
    Some(number)
}
