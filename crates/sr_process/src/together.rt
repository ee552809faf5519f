ghost use Rattle.std.specs.Prelude.{◌≡◌, ◌∷◌, ◌+ℤ◌, ◌-ℤ◌, ℤ, [], IfSome, List, Ok, OnErr, OnOk, Option, Some, option_copied};
ghost use Rattle.std.specs.Ordering.{int_cmp};
ghost use Rattle.sr_value.specs.Operators.{int_result, value_of};
ghost use Rattle.sr_value.specs.Parts.{loaded_at, place_of};
ghost use Rattle.sr_code.specs.Operands.{put_place};
ghost use Rattle.sr_frame.specs.Variables.{own_stored, own_value};
ghost use Rattle.sr_process.specs.Processes.{coded_at};
ghost use Rattle.sr_process.specs.Together.{Decides, Does, Follows, Indexes, Jumps, Loads, Puts, Replaces, path_of, place_in, whole_of};
ghost use Rattle.sr_ask.specs.declared.environment.Own.{Own as an_own};

use sr_ask::Own;
use sr_code::{Code, Coded, Instruction};
use sr_core::Root;
use sr_frame::own_stored;
use sr_value::{Dims, Fault, Operator, Row, Sel, Value};
use std::cmp::Ordering;

/// A number that instructions put, and the address after them.
#[derive(Clone, Copy)]
pub struct Found {
    pub number: i32,
    pub after: usize,
}

impl Found {
    fn new(number: i32, after: usize) -> Found
        ensures { result ≡ record { number = number; after = after } }
    {
        Found { number, after }
    }
}

/// An own variable, or its item at an index.
#[derive(Clone, Copy)]
pub struct Part {
    pub var: u32,
    pub index: Option<i32>,
}

/// A number that instructions store in an own variable or an item of one, and the address after them.
#[derive(Clone, Copy)]
pub struct Assigned {
    pub part: Part,
    pub found: Found,
}

/// What instructions on numbers do together.
#[derive(Clone, Copy)]
pub enum Stretch {
    Puts(Found),
    Stores(Assigned),
}

/// The instruction at an address.
pub fn instruction_at(code: &Code, address: usize) -> Option<&Coded>
    ensures { option_copied result ≡ coded_at code.now.items address }
{
    match address.checked_sub(1) {
        Some(at) => code.items.get(at),
        None => None,
    }
}

/// The number that a value is, where it is one.
fn number_of(value: &Value) -> Option<i32>
    ensures { IfSome result (λ number. value.now ≡ Value.Int number) }
{
    match *value {
        Value::Int(number) => Some(number),
        _ => None,
    }
}

/// Where the item at an index stands among those from `lo` to `hi`.
fn place_among(lo: i32, hi: i32, index: i32) -> Option<usize>
    ensures { result ≡ place_of lo hi index }
{
    if lo <= index && index <= hi {
        Some(index.abs_diff(lo) as usize)
    } else {
        None
    }
}

/// The number that an item of an array is, where it is one.
fn number_of_item(value: &Value, index: i32) -> Option<i32>
    ensures { IfSome result (λ number. loaded_at value.now (Sel.At index ∷ []) ≡ Ok (Value.Int number)) }
{
    match value {
        Value::Arr {
            dims: Dims::One { lo, hi },
            items,
        } => number_of(items.get(place_among(*lo, *hi, index)?)?),
        _ => None,
    }
}

/// The number that a value is or that its item is, where it is one.
fn number_of_part(value: &Value, index: Option<i32>) -> Option<i32>
    ensures { IfSome result (λ number. loaded_at value.now (path_of index) ≡ Ok (Value.Int number)) }
{
    match index {
        None => number_of(value),
        Some(index) => number_of_item(value, index),
    }
}

/// The number that an own variable or an item of one holds, where it holds one.
fn number_in(own: &Row<Option<Own>>, part: Part) -> Option<i32>
    ensures { IfSome result (λ number. own_value own.now part.var (path_of part.index) ≡ Ok (Value.Int number)) }
{
    match own.get(part.var as usize) {
        Some(Some(held)) => number_of_part(&held.value, part.index),
        _ => None,
    }
}

/// Stores a number in an own variable or in an item of one. After a fault all is as before.
pub fn store_number(own: &mut Row<Option<Own>>, part: Part, number: i32) -> Result<(), Fault>
    ensures stored { OnOk result (own_stored own.old part.var (path_of part.index) (Value.Int number) ≡ Ok own.new) }
    ensures same { OnErr result (own.new ≡ own.old) }
{
    match part.index {
        None => own_stored(own, part.var, &[], Value::Int(number)),
        Some(index) => own_stored(own, part.var, &[Sel::At(index)], Value::Int(number)),
    }
}

/// The own variable of a place, where it is one.
fn own_of(root: Root) -> Option<u32>
    ensures { IfSome result (λ var. root ≡ Root.Own var) }
{
    match root {
        Root::Own(var) => Some(var),
        Root::Shared { .. } => None,
    }
}

/// Whether a comparison of numbers in this order holds.
fn ordered(op: Operator, order: Ordering) -> Option<bool>
    ensures { IfSome result (λ truth. (x : ℤ) → (y : ℤ) → order ≡ int_cmp x y → value_of op (Value.Int x) (Value.Int y) ≡ Ok (Value.Bool truth)) }
{
    match op {
        Operator::Lt => Some(order.is_lt()),
        Operator::Le => Some(order.is_le()),
        Operator::Gt => Some(order.is_gt()),
        Operator::Ge => Some(order.is_ge()),
        _ => None,
    }
}

/// The truth of a comparison of two numbers.
fn compared(op: Operator, x: i32, y: i32) -> Option<bool>
    ensures { IfSome result (λ truth. value_of op (Value.Int x) (Value.Int y) ≡ Ok (Value.Bool truth)) }
{
    ordered(op, x.cmp(&y))
}

/// A whole number, where it is an `int`.
fn as_int(exact: i64) -> Option<i32>
    ensures { IfSome result (λ number. int_result exact ≡ Ok (Value.Int number)) }
{
    match i32::try_from(exact) {
        Ok(number) => Some(number),
        Err(_) => None,
    }
}

fn sum(x: i32, y: i32) -> Option<i32>
    ensures { IfSome result (λ number. int_result (x +ℤ y) ≡ Ok (Value.Int number)) }
{
    as_int(i64::from(x) + i64::from(y))
}

fn difference(x: i32, y: i32) -> Option<i32>
    ensures { IfSome result (λ number. int_result (x -ℤ y) ≡ Ok (Value.Int number)) }
{
    as_int(i64::from(x) - i64::from(y))
}

/// The sum or difference of two numbers, where it is an `int`.
fn computed(op: Operator, x: i32, y: i32) -> Option<i32>
    ensures { IfSome result (λ number. value_of op (Value.Int x) (Value.Int y) ≡ Ok (Value.Int number)) }
{
    match op {
        Operator::Add => sum(x, y),
        Operator::Sub => difference(x, y),
        _ => None,
    }
}

/// The number of the part on top, where it is loaded next.
fn loaded(code: &Code, own: &Row<Option<Own>>, part: Part, address: usize) -> Option<Found>
    ensures { IfSome result (λ found. Loads code.now own.now part address found) }
{
    match instruction_at(code, address)?.instruction {
        Instruction::Load => Some(Found::new(number_in(own, part)?, address - 1)),
        _ => None,
    }
}

/// The number that the instructions at an address put: a constant, or what an own variable holds.
fn whole_number_at(code: &Code, own: &Row<Option<Own>>, address: usize) -> Option<Found>
    ensures { IfSome result (λ found. Puts code.now own.now address found) }
{
    match &instruction_at(code, address)?.instruction {
        Instruction::Constant(value) => Some(Found::new(number_of(value)?, address - 1)),
        Instruction::Spot(root) => {
            let var = own_of(*root)?;
            loaded(code, own, Part { var, index: None }, address - 1)
        }
        _ => None,
    }
}

/// The index that a number becomes after the place of an own variable.
fn indexed(code: &Code, first: Found) -> Option<Found>
    ensures { IfSome result (λ index. Indexes code.now first index) }
{
    let Instruction::ToNumber = instruction_at(code, first.after)?.instruction else {
        return None;
    };
    let after = first.after - 1;
    match instruction_at(code, after)?.instruction {
        Instruction::At => Some(Found::new(first.number, after - 1)),
        _ => None,
    }
}

/// The number of an item of the own variable on top, where it is loaded next.
fn item_loaded(code: &Code, own: &Row<Option<Own>>, var: u32, address: usize) -> Option<Found>
    ensures { IfSome result (λ found. Loads code.now own.now (whole_of var) address found) }
{
    let first = whole_number_at(code, own, address)?;
    let index = indexed(code, first)?;
    let item = Part {
        var,
        index: Some(index.number),
    };
    loaded(code, own, item, index.after)
}

/// The number of the own variable on top or of an item of it, where it is loaded next.
#[inline(always)]
fn part_loaded(code: &Code, own: &Row<Option<Own>>, var: u32, address: usize) -> Option<Found>
    ensures { IfSome result (λ found. Loads code.now own.now (whole_of var) address found) }
{
    match loaded(code, own, Part { var, index: None }, address) {
        Some(found) => Some(found),
        None => item_loaded(code, own, var, address),
    }
}

/// The number that the instructions at an address put: a constant, or what an own variable or an item of one holds.
#[inline(always)]
fn number_at(code: &Code, own: &Row<Option<Own>>, address: usize) -> Option<Found>
    ensures { IfSome result (λ found. Puts code.now own.now address found) }
{
    match &instruction_at(code, address)?.instruction {
        Instruction::Constant(value) => Some(Found::new(number_of(value)?, address - 1)),
        Instruction::Spot(root) => part_loaded(code, own, own_of(*root)?, address - 1),
        _ => None,
    }
}

/// The sum or difference of a number and the one that is put next.
fn computed_after(code: &Code, own: &Row<Option<Own>>, first: Found) -> Option<Found>
    ensures { IfSome result (λ found. Replaces code.now own.now first found) }
{
    let second = number_at(code, own, first.after)?;
    match instruction_at(code, second.after)?.instruction {
        Instruction::Operate(op) => Some(Found::new(
            computed(op, first.number, second.number)?,
            second.after - 1,
        )),
        _ => None,
    }
}

/// Where a jump leads by a truth.
fn jumped(code: &Code, truth: bool, address: usize) -> Option<usize>
    ensures { IfSome result (λ to. (own : List (Option an_own)) → Jumps code.now own truth address to) }
{
    match instruction_at(code, address)?.instruction {
        Instruction::JumpUnless { to } => {
            if truth {
                Some(address - 1)
            } else {
                Some(to.min(address - 1))
            }
        }
        _ => None,
    }
}

/// Where a condition leads: a number is compared with the one that is put next.
pub fn decided(code: &Code, own: &Row<Option<Own>>, first: Found) -> Option<usize>
    ensures { IfSome result (λ to. Decides code.now own.now first to) }
{
    let second = number_at(code, own, first.after)?;
    match instruction_at(code, second.after)?.instruction {
        Instruction::Operate(op) => jumped(
            code,
            compared(op, first.number, second.number)?,
            second.after - 1,
        ),
        _ => None,
    }
}

/// The number that comes first after the place of a part: the part's own, or another.
fn first_after(code: &Code, own: &Row<Option<Own>>, part: Part, address: usize) -> Option<Found>
    ensures { IfSome result (λ found. Follows code.now own.now part address found) }
{
    match instruction_at(code, address)?.instruction {
        Instruction::LoadAgain => Some(Found::new(number_in(own, part)?, address - 1)),
        _ => number_at(code, own, address),
    }
}

/// The number that is there after the place of a part, with what is computed of it at once.
fn number_after(code: &Code, own: &Row<Option<Own>>, part: Part, address: usize) -> Option<Found>
    ensures { IfSome result (λ found. Follows code.now own.now part address found) }
{
    let first = first_after(code, own, part, address)?;
    match computed_after(code, own, first) {
        Some(found) => Some(found),
        None => Some(first),
    }
}

/// A number that is stored next in the part on top.
fn stored_next(
    code: &Code,
    own: &Row<Option<Own>>,
    part: Part,
    address: usize,
    number: Found,
) -> Option<Stretch>
    requires { Follows code.now own.now part address number }
    ensures { IfSome result (λ stretch. Does code.now own.now (put_place (place_in part)) address stretch) }
{
    match instruction_at(code, number.after)?.instruction {
        Instruction::Store => Some(Stretch::Stores(Assigned {
            part,
            found: Found::new(number.number, number.after - 1),
        })),
        _ => None,
    }
}

/// What instructions do after the place of an item.
fn stretch_of_item(
    code: &Code,
    own: &Row<Option<Own>>,
    part: Part,
    address: usize,
) -> Option<Stretch>
    ensures { IfSome result (λ stretch. Does code.now own.now (put_place (place_in part)) address stretch) }
{
    match loaded(code, own, part, address) {
        Some(found) => Some(Stretch::Puts(found)),
        None => {
            let number = number_after(code, own, part, address)?;
            stored_next(code, own, part, address, number)
        }
    }
}

/// What instructions do after a number that follows the place of an own variable: an index, or one that is stored.
fn stretch_of_number(
    code: &Code,
    own: &Row<Option<Own>>,
    var: u32,
    address: usize,
    number: Found,
) -> Option<Stretch>
    requires { Follows code.now own.now (whole_of var) address number }
    ensures { IfSome result (λ stretch. Does code.now own.now (put_place (place_in (whole_of var))) address stretch) }
{
    match indexed(code, number) {
        Some(index) => {
            let item = Part {
                var,
                index: Some(index.number),
            };
            stretch_of_item(code, own, item, index.after)
        }
        None => stored_next(code, own, Part { var, index: None }, address, number),
    }
}

/// What instructions do after the place of an own variable.
fn stretch_of_variable(
    code: &Code,
    own: &Row<Option<Own>>,
    var: u32,
    address: usize,
) -> Option<Stretch>
    ensures { IfSome result (λ stretch. Does code.now own.now (put_place (place_in (whole_of var))) address stretch) }
{
    let part = Part { var, index: None };
    match loaded(code, own, part, address) {
        Some(found) => Some(Stretch::Puts(found)),
        None => {
            let number = number_after(code, own, part, address)?;
            stretch_of_number(code, own, var, address, number)
        }
    }
}

/// What the instructions at an address do together, where they are on numbers.
pub fn stretch_at(code: &Code, own: &Row<Option<Own>>, address: usize) -> Option<Stretch>
    ensures { IfSome result (λ stretch. Does code.now own.now (λ on. on) address stretch) }
{
    match &instruction_at(code, address)?.instruction {
        Instruction::Constant(value) => Some(Stretch::Puts(Found::new(
            number_of(value)?,
            address - 1,
        ))),
        Instruction::Spot(root) => stretch_of_variable(code, own, own_of(*root)?, address - 1),
        _ => None,
    }
}
