ghost use Rattle.std.specs.Prelude.{◌≡◌, ◌≤◌};
ghost use Rattle.std.specs.Option.{option_copied};
ghost use Rattle.sr_value.specs.Operators.{Answers};
ghost use Rattle.sr_value.specs.Shapes.{extent};
ghost use Rattle.sr_core.specs.Values.{formal_shape, high_bound, sent_extent};
ghost use Rattle.sr_core.specs.Formals.{after_first, sent_after, sent_to};

use crate::{FormalShape, Mode};
use sr_value::{Dims, Duplicate, Fault, Shape, Shared, Value, ValueFail, indices};
use std::alloc::Global;

/// How many rows an argument has; none where it is no array.
fn rows_sent(sent: Option<&Value>) -> u64
    ensures value { result ≡ (sent_extent (option_copied sent.entry)).0 }
    ensures bound { result ≤ 4294967296 }
{
    match sent {
        Some(Value::Arr { dims, items: _ }) => match *dims {
            Dims::One { lo, hi } => indices(lo, hi),
            Dims::Two {
                lo,
                hi,
                lo2: _,
                hi2: _,
            } => indices(lo, hi),
        },
        _ => 0,
    }
}

/// How many columns an argument has; none where it is no array of two dimensions.
fn columns_sent(sent: Option<&Value>) -> u64
    ensures value { result ≡ (sent_extent (option_copied sent.entry)).1 }
    ensures bound { result ≤ 4294967296 }
{
    match sent {
        Some(Value::Arr { dims, items: _ }) => match *dims {
            Dims::One { .. } => 0,
            Dims::Two {
                lo: _,
                hi: _,
                lo2,
                hi2,
            } => indices(lo2, hi2),
        },
        _ => 0,
    }
}

/// The highest index of a dimension, which follows the length that was sent where it is `*`.
pub fn high_bound(lo: i32, hi: Option<i32>, sent: u64) -> Result<i32, Fault>
    requires { sent ≤ 4294967296 }
    ensures { result ≡ high_bound lo hi sent }
{
    match hi {
        Some(hi) => Ok(hi),
        None => match i32::try_from(i64::from(lo) + sent as i64 - 1) {
            Ok(hi) => Ok(hi),
            Err(_) => Err(Fault::Range),
        },
    }
}

/// The type of a formal. Each `*` in it takes the length of the argument.
pub fn formal_shape(
    alloc: Global,
    shape: &FormalShape,
    sent: Option<&Value>,
) -> Result<Shape, ValueFail>
    ensures { Answers result (formal_shape shape.now (option_copied sent.entry)) }
{
    match shape {
        FormalShape::Fixed(shape) => Ok(shape.copy(alloc)?),
        FormalShape::Open { lo, item } => match high_bound(*lo, None, rows_sent(sent)) {
            Ok(hi) => Ok(Shape::Arr {
                dims: Dims::One { lo: *lo, hi },
                item: Shared::new(alloc, item.copy(alloc)?)?,
            }),
            Err(fault) => Err(ValueFail::Fault(fault)),
        },
        FormalShape::Open2 {
            lo,
            hi,
            lo2,
            hi2,
            item,
        } => match high_bound(*lo, *hi, rows_sent(sent)) {
            Ok(hi) => match high_bound(*lo2, *hi2, columns_sent(sent)) {
                Ok(hi2) => Ok(Shape::Arr {
                    dims: Dims::Two {
                        lo: *lo,
                        hi,
                        lo2: *lo2,
                        hi2,
                    },
                    item: Shared::new(alloc, item.copy(alloc)?)?,
                }),
                Err(fault) => Err(ValueFail::Fault(fault)),
            },
            Err(fault) => Err(ValueFail::Fault(fault)),
        },
    }
}

fn after_first(args: &[Value]) -> &[Value]
    ensures { result.now ≡ after_first args.now }
{
    match args {
        [] => args,
        [_, rest @ ..] => rest,
    }
}

/// What a formal is sent.
pub fn sent_to(mode: Mode, args: &[Value]) -> Option<&Value>
    ensures { option_copied result ≡ sent_to mode args.now }
{
    match mode {
        Mode::Val => args.first(),
        Mode::Var => args.first(),
        Mode::Res => None,
    }
}

/// What the formals after a formal are sent.
pub fn sent_after(mode: Mode, args: &[Value]) -> &[Value]
    ensures { result.now ≡ sent_after mode args.now }
{
    match mode {
        Mode::Val => after_first(args),
        Mode::Var => after_first(args),
        Mode::Res => args,
    }
}
