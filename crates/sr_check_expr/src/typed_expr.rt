use sr_names::{Decl, Predefined, Spot};
use sr_types::{Ty, Typed};
use sr_value::Span;

/// What an expression names besides values.
#[derive(Drop)]
pub enum Named {
    /// Nothing: it is a value.
    Nothing,
    /// A number: it is its literal.
    Number(u32),
    /// An operation, by its declaration.
    Operation(Spot),
    /// A type.
    Type(Ty),
    /// The type of an operation.
    OpType,
    Component(Decl),
    Predefined(Predefined),
}

/// An expression with its type.
#[derive(Drop)]
pub struct TypedExpr {
    /// Its first token.
    pub span: Span,
    pub typed: Typed,
    pub named: Named,
}
