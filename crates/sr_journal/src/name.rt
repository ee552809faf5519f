ghost use Rattle.std.specs.Prelude.{◌≡◌, ℕ};
ghost use Rattle.std.specs.Str.{is_utf8};
ghost use Rattle.sr_journal.specs.Reading.{Gives, capped, char_len, can_begin_text, name_at};

use crate::fail::JournalFail;
use crate::number::word;
use sr_value::Text;
use std::alloc::Global;
use std::str;

/// How many bytes a character has that begins with this byte and has more than one.
fn char_len(first: u8) -> usize
    ensures { result ≡ char_len first }
{
    if first < 0xE0 {
        2
    } else if first < 0xF0 {
        3
    } else {
        4
    }
}

/// Whether some text of `length` bytes begins with these, which are no more than that.
fn can_begin_text(bytes: &[u8], length: usize) -> bool
    ensures { result ≡ can_begin_text length bytes.now }
{
    match str::from_utf8(bytes) {
        Ok(_) => true,
        Err(fault) => {
            if fault.error_len().is_some() {
                return false;
            }
            let valid = fault.valid_up_to();
            valid + char_len(bytes[valid]) <= length
        }
    }
}

fn is_text(bytes: &[u8]) -> bool
    ensures { result ≡ is_utf8 bytes.now }
{
    match str::from_utf8(bytes) {
        Ok(_) => true,
        Err(_) => false,
    }
}

/// Reads a name of so many bytes, and the end of its line.
pub fn name(alloc: Global, bytes: &[u8], length: usize) -> Result<(Text, &[u8]), JournalFail>
    ensures { (n : ℕ) → length ≡ capped n → Gives (λ x. (x.0, x.1.now)) result (name_at n bytes.now) }
{
    if length >= bytes.len() {
        return Err(if can_begin_text(bytes, length) {
            JournalFail::Truncated
        } else {
            JournalFail::NotJournal
        });
    }
    let (name, rest) = bytes.split_at(length);
    if !is_text(name) {
        return Err(JournalFail::NotJournal);
    }
    let rest = word(rest, b"\n")?;
    Ok((Text::from_slice(alloc, name)?, rest))
}
