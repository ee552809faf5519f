ghost use Rattle.std.specs.Prelude.{◌≡◌, [], IfOk, None as none, Some, false, map, option_map, replicate, slice_set, true};
ghost use Rattle.sr_ask.specs.Places.{number_held, own_at, own_or_nothing};
ghost use Rattle.sr_frame.specs.Variables.{number_own, own_stored, own_value, vars_set};
ghost use Rattle.sr_in_place.specs.Puts.{Wrote};
ghost use Rattle.sr_value.specs.Operators.{Answers};

use sr_ask::Own;
use sr_in_place::put;
use sr_value::{Duplicate, Fault, NoMemory, Row, Sel, Shape, Value, ValueFail, loaded};
use std::alloc::Global;

/// So many own variables, none of which is declared.
pub fn undeclared(alloc: Global, count: u32) -> Result<Row<Option<Own>>, NoMemory>
    ensures { IfOk result (λ own. own ≡ replicate count none) }
{
    let mut own = Vec::with_capacity(alloc, count as usize)?;
    for _ in 0..count {
        own.push(None)?;
    }
    Ok(Row::from_vec(own))
}

/// What a part of an own variable holds. E11 where it hasn't been declared.
pub fn own_value(
    alloc: Global,
    own: &Row<Option<Own>>,
    var: u32,
    path: &Row<Sel>,
) -> Result<Value, ValueFail>
    ensures { Answers result (own_value own.now var path.now) }
{
    match own.get(var as usize) {
        Some(Some(held)) => loaded(alloc, &held.value, path.as_slice()),
        _ => Err(ValueFail::Fault(Fault::Early)),
    }
}

/// A copy of the value of an own variable. Where there is no such variable, a value that nobody uses.
pub fn own_copy(alloc: Global, own: &Row<Option<Own>>, var: u32) -> Result<Value, NoMemory>
    ensures { IfOk result (λ value. value ≡ own_or_nothing (own_at own.now var)) }
{
    match own.get(var as usize) {
        Some(Some(held)) => held.value.copy(alloc),
        _ => Ok(Value::Bool(false)),
    }
}

/// Copies of the values of own variables.
pub fn own_copies(
    alloc: Global,
    own: &Row<Option<Own>>,
    vars: &[u32],
) -> Result<Row<Value>, NoMemory>
    ensures { IfOk result (λ values. values ≡ map (λ var. own_or_nothing (own_at own.now var)) vars.now) }
{
    let mut values = Row::new(alloc);
    for var in vars {
        values.push(own_copy(alloc, own, *var)?)?;
    }
    Ok(values)
}

/// Replaces an own variable.
pub fn set_own(own: &mut Row<Option<Own>>, var: u32, held: Own)
    ensures { own.new ≡ slice_set own.old var (Some held) }
{
    if (var as usize) < own.len() {
        let _ = own.replace(var as usize, Some(held));
    }
}

/// An own variable holds a number from now on.
pub fn set_number(own: &mut Row<Option<Own>>, var: u32, number: i32)
    ensures { own.new ≡ slice_set own.old var (Some (number_own number)) }
{
    if own.len() <= var as usize {
        return;
    }
    if put_number(own.at_mut(var as usize), number) {
        return;
    }
    set_own(own, var, number_own(number));
}

/// Writes a number in a variable of numbers, where it stands, and whether it is one.
fn put_number(held: &mut Option<Own>, number: i32) -> bool
    ensures numbers { result ≡ true → option_map (λ own. own.shape) held.old ≡ Some Shape.Int }
    ensures put { result ≡ true → held.new ≡ Some (number_own number) }
    ensures left { result ≡ false → held.new ≡ held.old }
{
    match held {
        Some(
            Own {
                shape: Shape::Int,
                value: Value::Int(old),
            },
        ) => {
            *old = number;
            true
        }
        _ => false,
    }
}

/// Stores in a part of an own variable. After a fault all is as before. It takes no memory.
#[inline(always)]
pub fn own_stored(
    own: &mut Row<Option<Own>>,
    var: u32,
    path: &[Sel],
    value: Value,
) -> Result<(), Fault>
    ensures { Wrote result own.old own.new (own_stored own.old var path.now value) }
{
    match path {
        [] => match value {
            Value::Int(number) => number_stored(own, var, number),
            _ => part_stored(own, var, &[], value),
        },
        _ => part_stored(own, var, path, value),
    }
}

/// Stores a number in a whole variable.
fn number_stored(own: &mut Row<Option<Own>>, var: u32, number: i32) -> Result<(), Fault>
    ensures { Wrote result own.old own.new (own_stored own.old var [] (Value.Int number)) }
{
    if own.len() <= var as usize {
        return Err(Fault::Early);
    }
    if put_number(own.at_mut(var as usize), number) {
        return Ok(());
    }
    part_stored(own, var, &[], Value::Int(number))
}

/// Stores any value in a part of an own variable.
#[inline(never)]
fn part_stored(
    own: &mut Row<Option<Own>>,
    var: u32,
    path: &[Sel],
    value: Value,
) -> Result<(), Fault>
    ensures { Wrote result own.old own.new (own_stored own.old var path.now value) }
{
    if own.len() <= var as usize {
        return Err(Fault::Early);
    }
    match own.at_mut(var as usize) {
        Some(held) => put(&held.shape, &mut held.value, path, value),
        None => Err(Fault::Early),
    }
}

/// A variable that holds a number.
pub fn number_own(number: i32) -> Own
    ensures { result ≡ number_own number }
{
    Own {
        shape: Shape::Int,
        value: Value::Int(number),
    }
}

/// The number that a variable holds.
pub fn number_held(own: &Row<Option<Own>>, var: u32) -> i32
    ensures { result ≡ number_held own.now var }
{
    match own.get(var as usize) {
        Some(Some(held)) => held.value.as_int().unwrap_or(0),
        _ => 0,
    }
}

/// The present values of quantifiers' variables.
pub fn turn_held(alloc: Global, own: &Row<Option<Own>>, vars: &[u32]) -> Result<Row<i32>, NoMemory>
    ensures { IfOk result (λ turn. turn ≡ map (λ var. number_held own.now var) vars.now) }
{
    let mut turn = Row::new(alloc);
    for var in vars {
        turn.push(number_held(own, *var))?;
    }
    Ok(turn)
}

/// Own variables get numbers.
pub fn set_vars(own: &mut Row<Option<Own>>, vars: &[u32], turn: &[i32])
    ensures { own.new ≡ vars_set vars.now turn.now own.old }
{
    let mut rest = turn;
    for var in vars {
        let [number, others @ ..] = rest else {
            return;
        };
        set_own(own, *var, number_own(*number));
        rest = others;
    }
}
