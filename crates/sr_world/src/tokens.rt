ghost use Rattle.std.specs.Prelude.{◌≡◌, ◌≤◌, IfOk, length, take_while};
ghost use Rattle.sr_world.specs.Inputs.{is_blank as blank, is_part as part, token_value as value_of};

use sr_ask::ReadKind;
use sr_value::{NoMemory, Text, Value, parse_int};
use std::alloc::Global;

/// Whether a byte is a tab, a newline, a carriage return or a space.
fn is_blank(byte: u8) -> bool
    ensures { result ≡ blank byte }
{
    byte == b'\t' || byte == b'\n' || byte == b'\r' || byte == b' '
}

/// How many blanks stand first.
pub fn blank_count(bytes: &[u8]) -> usize
    ensures count { result ≡ length (take_while blank bytes.now) }
    ensures within { result ≤ length bytes.now }
{
    bytes.iter().take_while(|byte| is_blank(**byte)).count()
}

/// How many bytes stand before the first blank.
pub fn token_len(bytes: &[u8]) -> usize
    ensures count { result ≡ length (take_while part bytes.now) }
    ensures within { result ≤ length bytes.now }
{
    bytes.iter().take_while(|byte| !is_blank(**byte)).count()
}

/// What a token is as this kind, where it fits.
pub fn token_value(alloc: Global, kind: ReadKind, token: &[u8]) -> Result<Option<Value>, NoMemory>
    ensures { IfOk result (λ value. value ≡ value_of kind token.now) }
{
    match kind {
        ReadKind::Int => Ok(int_value(token)),
        ReadKind::Bool => Ok(bool_value(token)),
        ReadKind::Char => Ok(None),
        ReadKind::Str => Ok(Some(Value::Str(Text::from_slice(alloc, token)?))),
    }
}

fn int_value(token: &[u8]) -> Option<Value>
    ensures { result ≡ value_of ReadKind.Int token.now }
{
    match parse_int(token) {
        Some(number) => Some(Value::Int(number)),
        None => None,
    }
}

fn bool_value(token: &[u8]) -> Option<Value>
    ensures { result ≡ value_of ReadKind.Bool token.now }
{
    if token == b"true".as_slice() {
        Some(Value::Bool(true))
    } else if token == b"false".as_slice() {
        Some(Value::Bool(false))
    } else {
        None
    }
}
