ghost use Rattle.std.specs.Prelude.{◌≡◌, option_copied, option_map};
ghost use Rattle.sr_value.specs.Operators.{Answers};
ghost use Rattle.sr_value.specs.Parts.{loaded_at, or_fault, with_ok};
ghost use Rattle.sr_value.specs.Shapes.{default_value};
ghost use Rattle.sr_select.specs.Guards.{as_sent, counted_in, formal_named, formal_seen, named_seen, own_seen, returned_named};
ghost use Rattle.sr_select.specs.Sights.{formal_and_sent};

use crate::counted::counted;
use crate::letting_go::let_go;
use crate::names::own_in;
use crate::sight::Sight;
use sr_core::{Formal, FormalShape, Returned, formal_shape, sent_after, sent_to};
use sr_value::{Fault, Sel, Shape, Value, ValueFail, default_of, loaded, shape_fault};
use std::alloc::Global;

/// A formal, and what it was sent.
#[derive(Clone, Copy)]
pub struct SentFormal<'a> {
    formal: &'a Formal,
    sent: Option<&'a Value>,
}

/// The formal of a name.
fn formal_in<'a>(formals: &'a [Formal], args: &'a [Value], var: u32) -> Option<SentFormal<'a>>
    ensures { option_map formal_and_sent result ≡ formal_named formals.now args.now var }
{
    let mut rest = args;
    for formal in formals {
        if formal.var == var {
            return Some(SentFormal {
                formal,
                sent: sent_to(formal.mode, rest),
            });
        }
        rest = sent_after(formal.mode, rest);
    }
    None
}

/// The type of the returned name, where this is its name.
fn returned_in(returned: &Option<Returned>, var: u32) -> Option<&Shape>
    ensures { option_copied result ≡ returned_named returned.now var }
{
    match returned {
        Some(name) => {
            if name.var == var {
                Some(&name.shape)
            } else {
                None
            }
        }
        None => None,
    }
}

/// A part of a value as it was sent, each array in it counted from the lower bounds of its place.
fn load_counted(
    alloc: Global,
    shape: &Shape,
    value: &Value,
    path: &[Sel],
) -> Result<Value, ValueFail>
    ensures { Answers result (with_ok (counted_in shape.now value.now) (λ seen. loaded_at seen path.now)) }
{
    match shape {
        Shape::Rec(_) => load_copied(alloc, shape, value, path),
        Shape::Arr { .. } => load_copied(alloc, shape, value, path),
        _ => loaded(alloc, value, path),
    }
}

/// A part of a record or an array as it was sent.
fn load_copied(
    alloc: Global,
    shape: &Shape,
    value: &Value,
    path: &[Sel],
) -> Result<Value, ValueFail>
    ensures { Answers result (with_ok (counted_in shape.now value.now) (λ seen. loaded_at seen path.now)) }
{
    let value = counted(alloc, shape, value)?;
    let found = loaded(alloc, &value, path);
    let_go(value);
    found
}

/// A part of the default of a type.
fn load_default(alloc: Global, shape: &Shape, path: &[Sel]) -> Result<Value, ValueFail>
    ensures { Answers result (with_ok (default_value shape.now) (λ seen. loaded_at seen path.now)) }
{
    let value = default_of(alloc, shape)?;
    let found = loaded(alloc, &value, path);
    let_go(value);
    found
}

/// A part of what a place of this type was sent, or of its default.
fn load_sent(
    alloc: Global,
    shape: &Shape,
    sent: Option<&Value>,
    path: &[Sel],
) -> Result<Value, ValueFail>
    ensures { Answers result (with_ok (as_sent shape.now (option_copied sent.entry)) (λ seen. loaded_at seen path.now)) }
{
    match sent {
        None => load_default(alloc, shape, path),
        Some(value) => match shape_fault(shape) {
            Some(fault) => Err(ValueFail::Fault(fault)),
            None => load_counted(alloc, shape, value, path),
        },
    }
}

/// A part of a formal as a guard sees it.
fn load_formal(
    alloc: Global,
    formal: &Formal,
    sent: Option<&Value>,
    path: &[Sel],
) -> Result<Value, ValueFail>
    ensures { Answers result (with_ok (formal_seen formal.now (option_copied sent.entry)) (λ seen. loaded_at seen path.now)) }
{
    match &formal.shape {
        FormalShape::Fixed(shape) => load_sent(alloc, shape, sent, path),
        _ => {
            let shape = formal_shape(alloc, &formal.shape, sent)?;
            let found = load_sent(alloc, &shape, sent, path);
            let_go(shape);
            found
        }
    }
}

/// A part of an own variable that went with the `Select`.
fn load_named(sight: &Sight, var: u32, path: &[Sel]) -> Result<Value, ValueFail>
    ensures { Answers result (with_ok (or_fault Fault.Range (named_seen sight.now.scene.names.now sight.now.scene.env.now var)) (λ seen. loaded_at seen path.now)) }
{
    match own_in(sight.scene.names, sight.scene.env, var) {
        Some(value) => loaded(sight.scene.alloc, value, path),
        None => Err(ValueFail::Fault(Fault::Range)),
    }
}

/// A part of an own variable, or of a formal or the returned name, which hide those.
pub fn load_own(sight: &Sight, var: u32, path: &[Sel]) -> Result<Value, ValueFail>
    ensures { Answers result (with_ok (own_seen sight.now.arm.now sight.now.args.now sight.now.scene.names.now sight.now.scene.env.now var) (λ seen. loaded_at seen path.now)) }
{
    let alloc = sight.scene.alloc;
    match formal_in(sight.arm.formals.as_slice(), sight.args, var) {
        Some(found) => load_formal(alloc, found.formal, found.sent, path),
        None => match returned_in(&sight.arm.returned, var) {
            Some(shape) => load_default(alloc, shape, path),
            None => load_named(sight, var, path),
        },
    }
}
