//! Whether the guard of an arm names what an invocation brings.

ghost use Rattle.std.specs.Prelude.{◌≡◌};
ghost use Rattle.sr_select.specs.Closing.{guard_names_none, is_formal};

use crate::allowed::{Allowed, maybe_allowed};
use sr_core::{Arm, Formal, Leaf, Root};

/// Whether a formal has this name.
fn is_formal(formals: &[Formal], var: u32) -> bool
    ensures { result ≡ is_formal formals.now var }
{
    formals.iter().any(|formal| formal.var == var)
}

/// All that is no formal.
#[derive(Clone, Copy)]
pub struct NoFormals<'a> {
    formals: &'a [Formal],
}

impl<'a> Allowed for NoFormals<'a> {
    ghost use Rattle.std.specs.Prelude.{true};
    ghost use Rattle.sr_select.specs.Closing.{is_outside};

    ghost leaves = { λ outside leaf. true };

    ghost roots = { λ outside. is_outside outside.formals.now };

    fn has_leaf(&self, _leaf: &Leaf) -> bool {
        true
    }

    fn has_root(&self, root: Root) -> bool {
        match root {
            Root::Own(var) => !is_formal(self.formals, var),
            Root::Shared { .. } => true,
        }
    }
}

/// Whether the `and` of an arm names no formal, so that it has one value for all invocations.
pub fn guard_names_none(arm: &Arm) -> bool
    ensures { result ≡ guard_names_none arm.now }
{
    let allowed = NoFormals {
        formals: arm.formals.as_slice(),
    };
    maybe_allowed(&allowed, &arm.guard)
}
