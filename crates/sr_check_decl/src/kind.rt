use sr_names::Spot;
use sr_types::{Forms, Mode, Ty};
use sr_value::{Row, Span, Text};

/// What the bounds and lengths in a type may be.
#[derive(Clone, Copy)]
pub struct BoundPolicy {
    /// Whether its bounds and lengths have to be static.
    pub fixed: bool,
    /// Whether `*` may stand for one.
    pub takes_star: bool,
}

/// A type as it is written.
#[derive(Drop)]
pub struct Kind {
    /// Its first token.
    pub span: Span,
    pub ty: Ty,
}

/// A formal, a field, or what an operation returns, which is passed like a `res` formal.
#[derive(Drop)]
pub struct NamedParam {
    pub name: Text,
    /// Where the name stands.
    pub spot: Spot,
    pub mode: Mode,
    pub ty: Ty,
}

/// A signature: its formals, what it returns, and the forms that it allows.
#[derive(Drop)]
pub struct Signed {
    pub params: Row<NamedParam>,
    pub returned: Option<NamedParam>,
    pub forms: Forms,
}
