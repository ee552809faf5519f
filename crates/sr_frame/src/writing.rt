ghost use Rattle.std.specs.Prelude.{◌≡◌, ◌++◌, IfOk, OnOk};
ghost use Rattle.sr_core.specs.Values.{flat, spaced, texts_of, written};
ghost use Rattle.sr_value.specs.Operators.{Answers};
ghost use Rattle.sr_value.specs.Parts.{or_fault};
ghost use Rattle.sr_value.specs.Texts.{value_text};

use sr_value::{EnumNames, Fault, NoMemory, Row, Text, Value, ValueFail, text_of};
use std::alloc::Global;

/// The text of a value; E6 where it has none.
fn text_in(alloc: Global, names: &EnumNames, value: &Value) -> Result<Text, ValueFail>
    ensures { Answers result (or_fault Fault.Range (value_text names.now value.now)) }
{
    match value {
        Value::Rec(_) => Err(ValueFail::Fault(Fault::Range)),
        Value::Arr { .. } => Err(ValueFail::Fault(Fault::Range)),
        _ => Ok(text_of(alloc, value, names)?),
    }
}

/// The texts of values; E6 where one has none.
pub fn texts_in(alloc: Global, names: &EnumNames, values: &[Value]) -> Result<Row<Text>, ValueFail>
    ensures { Answers result (texts_of names.now values.now) }
{
    let mut texts = Row::new(alloc);
    for value in values {
        match text_in(alloc, names, value) {
            Ok(text) => texts.push(text)?,
            Err(fail) => return Err(fail),
        }
    }
    Ok(texts)
}

/// Appends texts to others, with a space between two.
fn put_spaced(bytes: &mut Text, texts: &[Text]) -> Result<(), NoMemory>
    ensures { OnOk result (bytes.new ≡ bytes.old ++ spaced texts.now) }
{
    let [first, others @ ..] = texts else {
        return Ok(());
    };
    bytes.push_all(first.as_bytes())?;
    for text in others {
        bytes.push(b' ')?;
        bytes.push_all(text.as_bytes())?;
    }
    Ok(())
}

/// Appends texts to others, with nothing between them.
fn put_flat(bytes: &mut Text, texts: &[Text]) -> Result<(), NoMemory>
    ensures { OnOk result (bytes.new ≡ bytes.old ++ flat texts.now) }
{
    for text in texts {
        bytes.push_all(text.as_bytes())?;
    }
    Ok(())
}

/// What a `write` of these texts writes, or a `writes` where it isn't a line.
pub fn joined(alloc: Global, texts: &[Text], line: bool) -> Result<Text, NoMemory>
    ensures { IfOk result (λ bytes. bytes ≡ written line texts.now) }
{
    let mut bytes = Text::new(alloc);
    if line {
        put_spaced(&mut bytes, texts)?;
        bytes.push(b'\n')?;
    } else {
        put_flat(&mut bytes, texts)?;
    }
    Ok(bytes)
}
