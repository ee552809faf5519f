ghost use Rattle.std.specs.Prelude.{◌≡◌, IfOk, OnOk, option_copied};
ghost use Rattle.sr_names.specs.Diagnostics.{all_noted};
ghost use Rattle.sr_check_expr.specs.PredefinedCalls.{ends_shape, info_shape, low_outcome, high_outcome, dimension_numbered, dimension_of, only, bound_outcome, dimension_outcome, two_numbers_outcome, one_outcome, none_outcome, function_outcome, places_found, guard_found, function_found, function_typing};

use crate::arguments::note_values;
use crate::facts::{Facts, Here};
use crate::info::Info;
use crate::infos::{Infos, name_spot, type_spot};
use crate::marks::{note_unless, settle};
use crate::typed_expr::{Named, TypedExpr};
use crate::uses::may_be_input;
use sr_names::{Decl, Diagnostics, Predefined, Rule, Sort};
use sr_types::{
    Outcome, Ty, absolute, array_bound, end_of_file, high, least_or_greatest, low, neighbour,
    own_instance, own_machine, refused, string_length,
};
use sr_value::{Dimension, NoMemory, Shape, Span};
use std::alloc::Global;

/// The shape of places of a type that has a least and a greatest value.
fn ends_shape(infos: &Infos, ty: &Ty) -> Shape
    ensures { result ≡ ends_shape infos.now ty.now }
{
    match ty {
        Ty::Bool => Shape::Bool,
        Ty::Char => Shape::Char,
        Ty::Enum(spot) => info_shape(infos.get(name_spot(*spot))),
        _ => Shape::Int,
    }
}

fn info_shape(info: Option<&Info>) -> Shape
    ensures { result ≡ info_shape (option_copied info.entry) }
{
    match info {
        Some(Info::Enumeration { number, literals }) => Shape::Enum {
            ty: *number,
            count: *literals,
        },
        _ => Shape::Int,
    }
}

/// `low(T)`, by what the argument names.
fn low_of(alloc: Global, infos: &Infos, named: &Named) -> Result<Outcome, NoMemory>
    ensures { IfOk result (λ outcome. outcome ≡ low_outcome infos.now named.now) }
{
    match named {
        Named::Type(ty) => {
            if ty.is_untyped() {
                return Ok(Outcome::Met(refused()));
            }
            low(alloc, ty, &ends_shape(infos, ty))
        }
        _ => Ok(Outcome::Broken),
    }
}

/// `high(T)`, by what the argument names.
fn high_of(alloc: Global, infos: &Infos, named: &Named) -> Result<Outcome, NoMemory>
    ensures { IfOk result (λ outcome. outcome ≡ high_outcome infos.now named.now) }
{
    match named {
        Named::Type(ty) => {
            if ty.is_untyped() {
                return Ok(Outcome::Met(refused()));
            }
            high(alloc, ty, &ends_shape(infos, ty))
        }
        _ => Ok(Outcome::Broken),
    }
}

/// The dimension with this number.
fn dimension_numbered(number: u32) -> Option<Dimension>
    ensures { result ≡ dimension_numbered number }
{
    if number == 1 {
        return Some(Dimension::First);
    }
    if number == 2 {
        Some(Dimension::Second)
    } else {
        None
    }
}

/// The dimension that an argument is the number of: it is the literal 1 or 2.
fn dimension_of(named: &Named) -> Option<Dimension>
    ensures { result ≡ dimension_of named.now }
{
    match named {
        Named::Number(number) => dimension_numbered(*number),
        _ => None,
    }
}

/// The only argument, where there is one.
fn only(arguments: &[TypedExpr]) -> Option<&TypedExpr>
    ensures { option_copied result ≡ only arguments.now }
{
    match arguments {
        [] => None,
        [argument] => Some(argument),
        [_, _, ..] => None,
    }
}

/// `lb` and `ub`: without a number the first dimension is meant.
fn bound_of(arguments: &[TypedExpr]) -> Outcome
    ensures { result ≡ bound_outcome arguments.now }
{
    match arguments {
        [] => Outcome::Broken,
        [array] => array_bound(&array.typed, Dimension::First),
        [array, number] => dimension_bound(array, dimension_of(&number.named)),
        [_, _, _, ..] => Outcome::Broken,
    }
}

fn dimension_bound(array: &TypedExpr, dimension: Option<Dimension>) -> Outcome
    ensures { result ≡ dimension_outcome array.now dimension }
{
    match dimension {
        Some(dimension) => array_bound(&array.typed, dimension),
        None => Outcome::Broken,
    }
}

/// `min` and `max`.
fn greater_or_less(arguments: &[TypedExpr]) -> Outcome
    ensures { result ≡ two_numbers_outcome arguments.now }
{
    match arguments {
        [] | [_] => Outcome::Broken,
        [a, b] => least_or_greatest(&a.typed, &b.typed),
        [_, _, _, ..] => Outcome::Broken,
    }
}

/// What a call of a function of one argument is.
fn of_one(
    alloc: Global,
    infos: &Infos,
    name: Predefined,
    argument: &TypedExpr,
) -> Result<Outcome, NoMemory>
    ensures { IfOk result (λ outcome. outcome ≡ one_outcome infos.now name argument.now) }
{
    match name {
        Predefined::Abs => Ok(absolute(&argument.typed)),
        Predefined::Low => low_of(alloc, infos, &argument.named),
        Predefined::High => high_of(alloc, infos, &argument.named),
        Predefined::Length => Ok(string_length(&argument.typed)),
        Predefined::Pred | Predefined::Succ => neighbour(alloc, &argument.typed),
        _ => Ok(Outcome::Broken),
    }
}

/// What a call of a function without arguments is.
fn of_none(component: Decl, name: Predefined) -> Outcome
    ensures { result ≡ none_outcome component name }
{
    match name {
        Predefined::MyResource => Outcome::Met(own_instance(type_spot(component.spot))),
        Predefined::MyVm => Outcome::Met(own_machine()),
        _ => Outcome::Broken,
    }
}

/// What a call of a predefined function is.
fn function_outcome(
    alloc: Global,
    facts: &Facts,
    name: Predefined,
    arguments: &[TypedExpr],
) -> Result<Outcome, NoMemory>
    ensures { IfOk result (λ outcome. outcome ≡ function_outcome facts.now name arguments.now) }
{
    match name {
        Predefined::Read => Ok(Outcome::Met(end_of_file())),
        Predefined::Min | Predefined::Max => Ok(greater_or_less(arguments)),
        Predefined::Lb | Predefined::Ub => Ok(bound_of(arguments)),
        Predefined::MyResource | Predefined::MyVm => {
            if arguments.is_empty() {
                Ok(of_none(facts.here.component, name))
            } else {
                Ok(Outcome::Broken)
            }
        }
        _ => match only(arguments) {
            Some(argument) => of_one(alloc, &facts.infos, name, argument),
            None => Ok(Outcome::Broken),
        },
    }
}

/// Notes the arguments that `read` can't read to.
fn note_places(diagnostics: &mut Diagnostics, arguments: &[TypedExpr]) -> Result<(), NoMemory>
    ensures { OnOk result (diagnostics.new ≡ all_noted diagnostics.old (places_found arguments.now)) }
{
    for argument in arguments {
        note_unless(
            diagnostics,
            may_be_input(&argument.typed),
            Rule::BadType,
            argument.span,
        )?;
    }
    Ok(())
}

/// Notes an invocation, `read` or `create` that stands in what an arm says after `and`, `st` or `by`.
pub fn note_guard(diagnostics: &mut Diagnostics, here: Here, span: Span) -> Result<(), NoMemory>
    ensures { OnOk result (diagnostics.new ≡ all_noted diagnostics.old (guard_found here span)) }
{
    note_unless(diagnostics, !here.in_guard, Rule::Guard, span)
}

/// Notes what else is found at a call of a predefined function.
fn note_function(
    facts: &Facts,
    diagnostics: &mut Diagnostics,
    span: Span,
    name: Predefined,
    arguments: &[TypedExpr],
) -> Result<(), NoMemory>
    ensures { OnOk result (diagnostics.new ≡ all_noted diagnostics.old (function_found facts.now span name arguments.now)) }
{
    match name {
        Predefined::Low | Predefined::High => Ok(()),
        Predefined::Read => {
            note_values(diagnostics, arguments)?;
            note_places(diagnostics, arguments)?;
            note_guard(diagnostics, facts.here, span)
        }
        Predefined::MyResource => {
            note_values(diagnostics, arguments)?;
            let is_resource = matches!(facts.here.component.sort, Sort::Resource);
            note_unless(diagnostics, is_resource, Rule::BadUse, span)
        }
        _ => note_values(diagnostics, arguments),
    }
}

/// Notes what is found at a call of a predefined function, and answers what it is.
pub fn function(
    alloc: Global,
    facts: &Facts,
    diagnostics: &mut Diagnostics,
    span: Span,
    name: Predefined,
    arguments: &[TypedExpr],
) -> Result<TypedExpr, NoMemory>
    ensures value { IfOk result (λ typed_expr. typed_expr ≡ (function_typing facts.now span name arguments.now).typed_expr) }
    ensures noted { OnOk result (diagnostics.new ≡ all_noted diagnostics.old (function_typing facts.now span name arguments.now).found) }
{
    note_function(facts, diagnostics, span, name, arguments)?;
    settle(
        diagnostics,
        span,
        function_outcome(alloc, facts, name, arguments)?,
    )
}
