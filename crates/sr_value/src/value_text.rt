ghost use Rattle.std.specs.Prelude.{◌≡◌, IsSome, IfOk};
ghost use Rattle.std.specs.Fmt.{signed_decimal};
ghost use Rattle.sr_value.specs.Texts.{value_text, literal_name, bool_name, cap_name};

use crate::capability::Cap;
use crate::copies::Duplicate;
use crate::memory::NoMemory;
use crate::row::Row;
use crate::text::Text;
use crate::value::Value;
use std::alloc::Global;

/// The names of the literals of each enumeration, by its number.
pub type EnumNames = Row<Row<Text>>;

/// The text of a value, as `write` and `string` give it. Records and arrays have none. The text of a
/// literal that `names` hasn't is empty.
pub fn text_of(alloc: Global, value: &Value, names: &EnumNames) -> Result<Text, NoMemory>
    requires { IsSome (value_text names.now value.now) }
    ensures { IfOk result (λ text. Some text ≡ value_text names.now value.now) }
{
    match value {
        Value::Int(number) => int_text(alloc, *number),
        Value::Bool(truth) => Text::from_slice(alloc, bool_text(*truth)),
        Value::Char(byte) => Text::from_slice(alloc, &[*byte]),
        Value::Enum { ty, at } => literal_text(alloc, names, *ty, *at),
        Value::Str(text) => text.copy(alloc),
        Value::Capa(cap) => Text::from_slice(alloc, cap_text(*cap)),
        Value::Rec(_) => unreachable!(),
        Value::Arr { .. } => unreachable!(),
    }
}

/// A number in decimal, with no leading zeros.
fn int_text(alloc: Global, number: i32) -> Result<Text, NoMemory>
    ensures { IfOk result (λ text. text ≡ signed_decimal number) }
{
    let decimal = format!(in alloc; "{number}")?;
    Text::from_slice(alloc, decimal.as_bytes())
}

fn bool_text(truth: bool) -> &'static [u8]
    ensures { result.now ≡ bool_name truth }
{
    if truth { b"true" } else { b"false" }
}

fn cap_text(cap: Cap) -> &'static [u8]
    ensures { result.now ≡ cap_name cap }
{
    match cap {
        Cap::Null => b"null",
        Cap::Noop => b"noop",
        _ => b"cap",
    }
}

/// The name of a literal, or nothing where `names` hasn't got it.
fn literal_text(alloc: Global, names: &EnumNames, ty: u32, at: u32) -> Result<Text, NoMemory>
    ensures { IfOk result (λ text. text ≡ literal_name names.now ty at) }
{
    match names.get(ty as usize) {
        None => Ok(Text::new(alloc)),
        Some(literals) => match literals.get(at as usize) {
            None => Ok(Text::new(alloc)),
            Some(name) => name.copy(alloc),
        },
    }
}
