//! Equality and hashes of types and signatures, as tables of signatures need them.
ghost use Rattle.std.specs.Prelude.{◌≡◌, fold};
ghost use Rattle.std.specs.Cmp.{partial_equiv_from_equiv, decided};
ghost use Rattle.std.specs.Hash.{same_Alike};
ghost use Rattle.sr_types.specs.Equality.{same_type, same_param, equal_signatures};
ghost use Rattle.sr_types.specs.Hashes.{spot_writes, head_writes, type_writes, mode_writes, forms_writes, param_writes, signature_writes};
ghost use Rattle.sr_types.specs.Decided.{type_decides, param_decides, signature_decides};

use crate::signature::{Forms, Mode, Param, Signature};
use crate::spot::Spot;
use crate::ty::{Ty, same};
use sr_value::Compare;
use std::hash::{Hash, Hasher};

impl PartialEq for Ty {
    ghost eq = { same_type };

    ghost laws = { partial_equiv_from_equiv (decided same_type type_decides) };

    fn eq(&self, other: &Ty) -> bool {
        same(self, other)
    }
}

impl Eq for Ty {
    ghost laws = { decided same_type type_decides };
}

impl PartialEq for Param {
    ghost eq = { same_param };

    ghost laws = { partial_equiv_from_equiv (decided same_param param_decides) };

    fn eq(&self, other: &Param) -> bool {
        self.mode.same(&other.mode) && same(&self.ty, &other.ty)
    }
}

impl Eq for Param {
    ghost laws = { decided same_param param_decides };
}

impl PartialEq for Signature {
    ghost eq = { equal_signatures };

    ghost laws = { partial_equiv_from_equiv (decided equal_signatures signature_decides) };

    fn eq(&self, other: &Signature) -> bool {
        self.forms.same(&other.forms)
            && self.params.as_slice() == other.params.as_slice()
            && self.returns == other.returns
    }
}

impl Eq for Signature {
    ghost laws = { decided equal_signatures signature_decides };
}

impl Hash for Ty {
    ghost hash_input = { type_writes };

    ghost respects_eq = { (same_Alike type_writes type_decides).fed };

    fn hash<H: Hasher>(&self, state: &mut H) {
        hash_head(self, state);
        match self {
            Ty::Vector(item) | Ty::Matrix(item) => hash_head(item.get(), state),
            _ => {}
        }
    }
}

impl Hash for Param {
    ghost hash_input = { param_writes };

    ghost respects_eq = { (same_Alike param_writes param_decides).fed };

    fn hash<H: Hasher>(&self, state: &mut H) {
        hash_mode(self.mode, state);
        self.ty.hash(state);
    }
}

impl Hash for Signature {
    ghost hash_input = { signature_writes };

    ghost respects_eq = { (same_Alike signature_writes signature_decides).fed };

    fn hash<H: Hasher>(&self, state: &mut H) {
        hash_forms(self.forms, state);
        self.params.as_slice().hash(state);
        self.returns.hash(state);
    }
}

fn hash_spot<H: Hasher>(spot: Spot, state: &mut H)
    ensures { state.new ≡ fold H.write state.old (spot_writes spot) }
{
    state.write_u32(spot.file);
    state.write_u32(spot.byte);
}

/// Hashes a type apart from the type of its items.
fn hash_head<H: Hasher>(ty: &Ty, state: &mut H)
    ensures { state.new ≡ fold H.write state.old (head_writes ty.now) }
{
    match ty {
        Ty::Int => state.write_u8(0),
        Ty::Bool => state.write_u8(1),
        Ty::Char => state.write_u8(2),
        Ty::Str => state.write_u8(3),
        Ty::Enum(spot) => {
            state.write_u8(4);
            hash_spot(*spot, state);
        }
        Ty::Rec(spot) => {
            state.write_u8(5);
            hash_spot(*spot, state);
        }
        Ty::Vector(_) => state.write_u8(6),
        Ty::Matrix(_) => state.write_u8(7),
        Ty::Resource(spot) => {
            state.write_u8(8);
            hash_spot(*spot, state);
        }
        Ty::Op(number) => {
            state.write_u8(9);
            state.write_usize(*number);
        }
        Ty::Vm => state.write_u8(10),
        Ty::NullCap => state.write_u8(11),
        Ty::Untyped => state.write_u8(12),
    }
}

fn hash_mode<H: Hasher>(mode: Mode, state: &mut H)
    ensures { state.new ≡ fold H.write state.old (mode_writes mode) }
{
    match mode {
        Mode::Val => state.write_u8(0),
        Mode::Var => state.write_u8(1),
        Mode::Res => state.write_u8(2),
    }
}

fn hash_forms<H: Hasher>(forms: Forms, state: &mut H)
    ensures { state.new ≡ fold H.write state.old (forms_writes forms) }
{
    match forms {
        Forms::Both => state.write_u8(0),
        Forms::Call => state.write_u8(1),
        Forms::Send => state.write_u8(2),
    }
}
