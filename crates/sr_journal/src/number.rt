ghost use Rattle.std.specs.Prelude.{◌≤◌, Some, IfOk};
ghost use Rattle.sr_journal.specs.Reading.{Tells, with_capped, limit_of, word_at, digits_at, number_at};

use crate::fail::JournalFail;

/// In place of the greatest number that may stand at a place: any may.
pub const NO_LIMIT: usize = usize::MAX;

/// Reads fixed bytes, and hands out those after them.
pub fn word<'a>(bytes: &'a [u8], word: &[u8]) -> Result<&'a [u8], JournalFail>
    ensures { Tells (λ rest. rest.now) result (word_at word.now bytes.now) }
{
    match bytes.strip_prefix(word) {
        Some(rest) => Ok(rest),
        None => {
            if word.starts_with(bytes) {
                Err(JournalFail::Truncated)
            } else {
                Err(JournalFail::NotJournal)
            }
        }
    }
}

/// Reads digits and the byte that ends them. More than a `usize` can hold is its greatest number.
fn digits(bytes: &[u8], most: usize, end: u8) -> Result<(usize, &[u8]), JournalFail>
    ensures { Tells (λ x. (x.0, x.1.now)) result (with_capped (digits_at (limit_of most) end 0 bytes.now)) }
{
    let mut number: usize = 0;
    for (at, byte) in bytes.iter().enumerate() {
        if *byte == end {
            return Ok((number, &bytes[at + 1..]));
        }
        if !byte.is_ascii_digit() {
            return Err(JournalFail::NotJournal);
        }
        number = number
            .saturating_mul(10)
            .saturating_add((*byte - b'0') as usize);
        if number > most {
            return Err(JournalFail::NotJournal);
        }
    }
    Err(JournalFail::Truncated)
}

/// Reads a number without leading zeros, and the byte that ends it. More than a `usize` can hold is its
/// greatest number.
#[tactic(auto, unfolding(crate::specs::Reading::number_at))]
pub fn number(
    bytes: &[u8],
    may_be_zero: bool,
    most: usize,
    end: u8,
) -> Result<(usize, &[u8]), JournalFail>
    ensures { Tells (λ x. (x.0, x.1.now)) result (with_capped (number_at may_be_zero (limit_of most) end bytes.now)) }
{
    match bytes {
        [] => Err(JournalFail::Truncated),
        [b'0', rest @ ..] => {
            if !may_be_zero {
                return Err(JournalFail::NotJournal);
            }
            let rest = word(rest, &[end])?;
            Ok((0, rest))
        }
        [first, ..] => {
            if !first.is_ascii_digit() {
                return Err(JournalFail::NotJournal);
            }
            digits(bytes, most, end)
        }
    }
}

/// Reads a number up to a limit.
pub fn limited(
    bytes: &[u8],
    may_be_zero: bool,
    most: u32,
    end: u8,
) -> Result<(u32, &[u8]), JournalFail>
    ensures read { Tells (λ x. (x.0, x.1.now)) result (number_at may_be_zero (Some most) end bytes.now) }
    ensures within { IfOk result (λ x. x.0 ≤ most) }
{
    let (number, rest) = number(bytes, may_be_zero, most as usize, end)?;
    Ok((number as u32, rest))
}
