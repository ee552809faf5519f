ghost use Rattle.std.specs.Prelude.{◌≡◌, ◌↔◌, IsTrue};
ghost use Rattle.sr_types.specs.Equality.{same_mode, same_forms};

use crate::ty::Ty;
use sr_value::{Compare, Duplicate, NoMemory, Row};
use std::alloc::Global;

/// How a formal is passed.
#[derive(Clone, Copy, PartialEq, Eq)]
pub enum Mode {
    /// Copied in. It is the mode where none is written.
    Val,
    /// Copied in and back.
    Var,
    /// Copied back.
    Res,
}

/// The forms of invocation that an operation allows.
#[derive(Clone, Copy, PartialEq, Eq)]
pub enum Forms {
    /// `call` and `send`, as where nothing is written.
    Both,
    /// `call` alone.
    Call,
    /// `send` alone, as of a semaphore.
    Send,
}

/// What a signature says of one of its formals.
#[derive(Drop)]
pub struct Param {
    pub mode: Mode,
    pub ty: Ty,
}

/// A signature: what the types of operations say of them.
#[derive(Drop)]
pub struct Signature {
    pub params: Row<Param>,
    /// The type of what it returns, where it returns something.
    pub returns: Option<Ty>,
    pub forms: Forms,
}

impl Compare for Mode {
    fn same(&self, other: &Self) -> bool
        ensures exact { IsTrue result ↔ (self.now ≡ other.now) }
        ensures value { result ≡ same_mode self.now other.now }
    {
        match self {
            Mode::Val => matches!(other, Mode::Val),
            Mode::Var => matches!(other, Mode::Var),
            Mode::Res => matches!(other, Mode::Res),
        }
    }
}

impl Compare for Forms {
    fn same(&self, other: &Self) -> bool
        ensures exact { IsTrue result ↔ (self.now ≡ other.now) }
        ensures value { result ≡ same_forms self.now other.now }
    {
        match self {
            Forms::Both => matches!(other, Forms::Both),
            Forms::Call => matches!(other, Forms::Call),
            Forms::Send => matches!(other, Forms::Send),
        }
    }
}

impl Duplicate for Param {
    fn copy(&self, alloc: Global) -> Result<Param, NoMemory> {
        Ok(Param {
            mode: self.mode,
            ty: self.ty.copy(alloc)?,
        })
    }
}
