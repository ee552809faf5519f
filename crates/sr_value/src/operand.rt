ghost use Rattle.std.specs.Prelude.{◌≡◌, option_copied};
ghost use Rattle.sr_value.specs.Operands.{int_in, bool_in, char_in, literal_in, text_in, cap_in};

use crate::capability::Cap;
use crate::value::Value;

impl Value {
    /// The number, where this is an `int`.
    pub fn as_int(&self) -> Option<i32>
        ensures { result ≡ int_in self.now }
    {
        match self {
            Value::Int(number) => Some(*number),
            _ => None,
        }
    }

    /// The truth, where this is a `bool`.
    pub fn as_bool(&self) -> Option<bool>
        ensures { result ≡ bool_in self.now }
    {
        match self {
            Value::Bool(truth) => Some(*truth),
            _ => None,
        }
    }

    /// The byte, where this is a `char`.
    pub fn as_char(&self) -> Option<u8>
        ensures { result ≡ char_in self.now }
    {
        match self {
            Value::Char(byte) => Some(*byte),
            _ => None,
        }
    }

    /// The place of the literal, where this is a literal of the enumeration `of`.
    pub fn as_literal(&self, of: u32) -> Option<u32>
        ensures { result ≡ literal_in of self.now }
    {
        match self {
            Value::Enum { ty, at } => { if *ty == of { Some(*at) } else { None } }
            _ => None,
        }
    }

    /// The bytes, where this is a string.
    pub fn as_text(&self) -> Option<&[u8]>
        ensures { option_copied result ≡ text_in self.now }
    {
        match self {
            Value::Str(text) => Some(text.as_bytes()),
            _ => None,
        }
    }

    /// The capability, where this is one.
    pub fn as_cap(&self) -> Option<Cap>
        ensures { result ≡ cap_in self.now }
    {
        match self {
            Value::Capa(cap) => Some(*cap),
            _ => None,
        }
    }
}
