ghost use Rattle.std.specs.Prelude.{◌≡◌};
ghost use Rattle.sr_check.specs.Uses.{condition_rule, number_rule, choice_rule, written_rule, destroyed_rule};

use sr_types::{Ty, Typed, may_be_bool, may_be_int, may_be_written, may_have_neighbours};

/// Whether an expression may be a guard, or stand after `st` or `and`: a `bool`.
pub(crate) fn may_be_condition(guard: &Typed) -> bool
    ensures { result ≡ condition_rule guard.now }
{
    may_be_bool(&guard.ty)
}

/// Whether an expression may be a bound or step of a quantifier, or a status: an `int`.
pub(crate) fn may_be_number(step: &Typed) -> bool
    ensures { result ≡ number_rule step.now }
{
    may_be_int(&step.ty)
}

/// Whether an expression may stand after `by`: an `int`, a `char` or a literal of an enumeration.
pub(crate) fn may_choose(choice: &Typed) -> bool
    ensures { result ≡ choice_rule choice.now }
{
    may_have_neighbours(&choice.ty)
}

/// Whether `write` takes the argument: it has a text.
pub(crate) fn may_be_output(argument: &Typed) -> bool
    ensures { result ≡ written_rule argument.now }
{
    may_be_written(&argument.ty)
}

/// Whether `destroy` takes the argument: a `cap R`, `null` or `noop`.
pub(crate) fn may_be_destroyed(argument: &Typed) -> bool
    ensures { result ≡ destroyed_rule argument.now }
{
    matches!(&argument.ty, Ty::Resource(_) | Ty::NullCap | Ty::Untyped)
}
