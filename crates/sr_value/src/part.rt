ghost use Rattle.std.specs.Prelude.{◌≡◌, ◌+◌, [], ◌∷◌, drop, MatchOption, OnSome, option_map, length, ◌<◌, slice_get};
ghost use Rattle.sr_value.specs.declared.value.Value.{out-Value};
ghost use Rattle.std.specs.Option.{option_and_then};
ghost use Rattle.sr_value.specs.Parts.{layer_part, byte_place};
ghost use Rattle.sr_value.specs.Selected.{part_value};

use crate::index::{byte_place, field_place, item_place};
use crate::shape::Sel;
use crate::value::Value;

/// A part of a value.
pub(crate) enum Part<'a> {
    /// An item of an array or a field of a record.
    Whole(&'a Value),
    /// A byte of a string.
    Byte(u8),
}

/// The part that a step selects, where there is one.
pub(crate) fn selected(value: &Value, step: Sel) -> Option<Part<'_>>
    ensures { option_map part_value result ≡ layer_part (out-Value value.now) step }
{
    match value {
        Value::Str(text) => match byte_at(text.as_bytes(), step) {
            Some(byte) => Some(Part::Byte(byte)),
            None => None,
        },
        Value::Rec(fields) => match fields.get(field_place(step)?) {
            Some(field) => Some(Part::Whole(field)),
            None => None,
        },
        Value::Arr { dims, items } => match items.get(item_place(*dims, step)?) {
            Some(item) => Some(Part::Whole(item)),
            None => None,
        },
        _ => None,
    }
}

/// The byte of a string that a step selects, where there is one.
fn byte_at(bytes: &[u8], step: Sel) -> Option<u8>
    ensures { result ≡ option_and_then (slice_get bytes.now) (byte_place bytes.now step) }
{
    match byte_place(bytes, step) {
        Some(place) => bytes.get(place).copied(),
        None => None,
    }
}

/// The step of a path at a place in it, where there is one.
pub fn step_at(path: &[Sel], at: usize) -> Option<Sel>
    ensures next { MatchOption result (drop at path.now ≡ []) (λ step. drop at path.now ≡ step ∷ drop (at + 1) path.now) }
    ensures within { OnSome result (at < length path.now) }
{
    path.get(at).copied()
}
