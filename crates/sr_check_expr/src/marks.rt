ghost use Rattle.std.specs.Prelude.{◌≡◌, IfOk, OnOk};
ghost use Rattle.sr_names.specs.Diagnostics.{all_noted};
ghost use Rattle.sr_check_expr.specs.Typings.{broken_unless, value_at, name_at, is_value_name, value_found, settled_typed, is_met, refused_at};

use crate::typed_expr::{Named, TypedExpr};
use sr_names::{Diagnostic, Diagnostics, Finding, Rule};
use sr_types::{Outcome, Typed, refused};
use sr_value::{NoMemory, Span};

/// Notes that a rule is broken at a span, unless it is met.
pub fn note_unless(
    diagnostics: &mut Diagnostics,
    met: bool,
    rule: Rule,
    span: Span,
) -> Result<(), NoMemory>
    ensures { OnOk result (diagnostics.new ≡ all_noted diagnostics.old (broken_unless met rule span)) }
{
    if met {
        return Ok(());
    }
    diagnostics.note(Finding::Broken(Diagnostic { rule, span }))
}

/// An expression that is nothing but a value.
pub fn value_at(span: Span, typed: Typed) -> TypedExpr
    ensures { result ≡ value_at span typed }
{
    TypedExpr {
        span,
        typed,
        named: Named::Nothing,
    }
}

/// An expression that has no value, but names something.
pub fn name_at(span: Span, named: Named) -> TypedExpr
    ensures { result ≡ name_at span named }
{
    TypedExpr {
        span,
        typed: refused(),
        named,
    }
}

/// Notes where an expression that stands for a value is the wrong sort of name.
pub fn note_value(diagnostics: &mut Diagnostics, typed_expr: &TypedExpr) -> Result<(), NoMemory>
    ensures { OnOk result (diagnostics.new ≡ all_noted diagnostics.old (value_found typed_expr.now)) }
{
    note_unless(
        diagnostics,
        typed_expr.named.is_value(),
        Rule::BadType,
        typed_expr.span,
    )
}

impl Named {
    /// Whether what is named so is a value.
    fn is_value(&self) -> bool
        ensures { result ≡ is_value_name self.now }
    {
        matches!(
            self,
            Named::Nothing | Named::Number(_) | Named::Operation(_)
        )
    }
}

/// What a construct is by the outcome of its rule, and notes where that is broken.
pub fn settle(
    diagnostics: &mut Diagnostics,
    span: Span,
    outcome: Outcome,
) -> Result<TypedExpr, NoMemory>
    ensures value { IfOk result (λ typed_expr. typed_expr ≡ value_at span (settled_typed outcome)) }
    ensures noted { OnOk result (diagnostics.new ≡ all_noted diagnostics.old (broken_unless (is_met outcome) Rule.BadType span)) }
{
    match outcome {
        Outcome::Met(whole) => Ok(value_at(span, whole)),
        Outcome::Broken => refuse(diagnostics, span),
    }
}

/// Notes that an expression is refused, and is what it is then.
pub fn refuse(diagnostics: &mut Diagnostics, span: Span) -> Result<TypedExpr, NoMemory>
    ensures value { IfOk result (λ typed_expr. typed_expr ≡ (refused_at span).typed_expr) }
    ensures noted { OnOk result (diagnostics.new ≡ all_noted diagnostics.old (refused_at span).found) }
{
    note_unless(diagnostics, false, Rule::BadType, span)?;
    Ok(value_at(span, refused()))
}
