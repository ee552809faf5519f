ghost use Rattle.std.specs.Prelude.{◌≡◌};
ghost use Rattle.sr_check_expr.specs.Uses.{read_rule, machine_rule};

use sr_types::{Ty, Typed};

/// Whether `read` takes the argument: a place of `int`, `bool`, `char` or a string.
pub fn may_be_input(argument: &Typed) -> bool
    ensures { result ≡ read_rule argument.now }
{
    argument.is_place
        && matches!(
            &argument.ty,
            Ty::Int | Ty::Bool | Ty::Char | Ty::Str | Ty::Untyped
        )
}

/// Whether an expression may stand after `on`: a `cap vm`, `null` or `noop`.
pub fn may_be_machine(machine: &Typed) -> bool
    ensures { result ≡ machine_rule machine.now }
{
    matches!(&machine.ty, Ty::Vm | Ty::NullCap | Ty::Untyped)
}
