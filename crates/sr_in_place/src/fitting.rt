ghost use Rattle.std.specs.Prelude.{map};
ghost use Rattle.sr_value.specs.Parts.{all_fit, each_fits, fitted_in};
ghost use Rattle.sr_in_place.specs.Puts.{Fitted};

use crate::extents::check_extents;
use sr_value::{Fault, Row, Shape, Value};

/// Gives a value the bounds of its place. E5 where a string is too long, E4 where arrays have other
/// lengths, E3 where the value is of another kind. It takes no memory.
#[cycle(fitting)]
pub fn fit(shape: &Shape, value: &mut Value) -> Result<(), Fault>
    ensures { Fitted result value.new (fitted_in shape.now value.old) }
{
    match shape {
        Shape::Int => match value {
            Value::Int(_) => Ok(()),
            _ => Err(Fault::Index),
        },
        Shape::Bool => match value {
            Value::Bool(_) => Ok(()),
            _ => Err(Fault::Index),
        },
        Shape::Char => match value {
            Value::Char(_) => Ok(()),
            _ => Err(Fault::Index),
        },
        Shape::Enum { ty, count } => match value {
            Value::Enum { ty: of, at } => {
                if *ty == *of && *at < *count {
                    Ok(())
                } else {
                    Err(Fault::Index)
                }
            }
            _ => Err(Fault::Index),
        },
        Shape::Str { most } => match value {
            Value::Str(text) => {
                if text.len() <= *most as usize {
                    Ok(())
                } else {
                    Err(Fault::StringLength)
                }
            }
            _ => Err(Fault::Index),
        },
        Shape::Rec(shapes) => match value {
            Value::Rec(fields) => fit_each(shapes.as_slice(), fields),
            _ => Err(Fault::Index),
        },
        Shape::Arr { dims, item } => match value {
            Value::Arr { dims: sent, items } => {
                check_extents(*dims, *sent)?;
                *sent = *dims;
                fit_all(item.get(), items)
            }
            _ => Err(Fault::Index),
        },
        Shape::Capa => match value {
            Value::Capa(_) => Ok(()),
            _ => Err(Fault::Index),
        },
    }
}

#[cycle(fitting)]
fn fit_all(shape: &Shape, values: &mut Row<Value>) -> Result<(), Fault>
    ensures { Fitted result values.new (all_fit (fitted_in shape.now) values.old) }
{
    for at in 0..values.len() {
        fit(shape, values.at_mut(at))?;
    }
    Ok(())
}

#[cycle(fitting)]
fn fit_each(shapes: &[Shape], values: &mut Row<Value>) -> Result<(), Fault>
    ensures { Fitted result values.new (each_fits (map fitted_in shapes.now) values.old) }
{
    for (at, shape) in shapes.iter().enumerate() {
        if at >= values.len() {
            return Err(Fault::Index);
        }
        fit(shape, values.at_mut(at))?;
    }
    if values.len() > shapes.len() {
        return Err(Fault::Index);
    }
    Ok(())
}
