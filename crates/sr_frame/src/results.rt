ghost use Rattle.std.specs.Prelude.{◌≡◌, ◌∷◌, [], MatchOption};
ghost use Rattle.sr_ask.specs.Invocations.{instance_in, value_after};

use sr_value::{Cap, Row, Value};

/// Takes the first item of a row.
pub fn take_first<T: Drop>(row: &mut Row<T>) -> Option<T>
    ensures { MatchOption result ((row.old ≡ []) × (row.new ≡ [])) (λ item. row.old ≡ item ∷ row.new) }
{
    if row.is_empty() {
        return None;
    }
    // The only item moves no other.
    if row.len() == 1 {
        return row.pop();
    }
    Some(row.remove(0))
}

/// The value of a call, whose other results were stored.
#[inline(always)]
pub fn value_after(values: Row<Value>) -> Value
    ensures { result ≡ value_after values }
{
    let mut values = values;
    match take_first(&mut values) {
        Some(value) => value,
        None => Value::Bool(false),
    }
}

/// The capability of a new instance, by the reply of its making.
pub fn instance_in(results: Option<Row<Value>>) -> Value
    ensures { result ≡ instance_in results }
{
    match results {
        Some(values) => first_of(values),
        None => Value::Capa(Cap::Null),
    }
}

fn first_of(values: Row<Value>) -> Value
    ensures { result ≡ instance_in (Some values) }
{
    let mut values = values;
    match take_first(&mut values) {
        Some(value) => value,
        None => Value::Capa(Cap::Null),
    }
}
