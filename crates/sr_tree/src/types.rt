use crate::expr::Expr;
use crate::name::{Name, QualifiedName};
use sr_value::{Boxed, Row, Span};

/// The bounds of one dimension.
#[derive(Drop)]
pub enum RangeTree {
    /// `[length]`, from 1.
    Length { span: Span, length: Expr },
    /// `[low:high]`
    Bounds { span: Span, low: Expr, high: Expr },
    /// `[low:*]`
    From { span: Span, low: Expr },
    /// `[*]`
    Any { span: Span },
}

/// The dimensions of an array: `[first]` or `[first, second]`.
#[derive(Drop)]
pub struct DimsTree {
    pub span: Span,
    pub first: RangeTree,
    pub second: Option<RangeTree>,
}

/// A name that is declared, with its dimensions where it has some.
#[derive(Drop)]
pub struct Decl {
    pub span: Span,
    pub name: Name,
    pub dims: Option<DimsTree>,
}

/// How an argument is passed, where the word is written.
#[derive(Clone, Copy, PartialEq, Eq)]
pub enum PassMode {
    Val,
    Var,
    Res,
}

/// How an operation may be invoked.
#[derive(Clone, Copy, PartialEq, Eq)]
pub enum InvocationKind {
    Call,
    Send,
}

/// Where a type stands: within the declaration of a type, which may declare enumerations and records, or elsewhere.
#[derive(Clone, Copy)]
pub enum TypePlace {
    Declaration,
    Elsewhere,
}

/// A type. Each `span` is the span of the first token.
#[derive(Drop)]
#[cycle(types)]
pub enum TypeTree {
    Int {
        span: Span,
    },
    Bool {
        span: Span,
    },
    Char {
        span: Span,
    },
    /// `string[length]`, or `string[*]` where `length` is `None`.
    Str {
        span: Span,
        length: Option<Expr>,
    },
    /// `enum(a, b)`
    Enum {
        span: Span,
        literals: Row<Name>,
    },
    /// `rec(a : int; b : bool)`
    Rec {
        span: Span,
        fields: Row<Formal>,
    },
    /// `cap name`, of a resource or an operation type.
    CapOf {
        span: Span,
        name: QualifiedName,
    },
    /// `cap vm`
    CapMachine {
        span: Span,
    },
    /// `cap (a : int) returns r : int`
    CapOperation {
        span: Span,
        signature: Signature,
    },
    /// `[1:n] int`
    Array {
        span: Span,
        dims: DimsTree,
        item: Boxed<TypeTree>,
    },
    Named {
        span: Span,
        name: QualifiedName,
    },
}

/// Formals of one type, or fields of a record: `var a, b[1:n] : int`.
#[derive(Drop)]
#[cycle(types)]
pub struct Formal {
    pub span: Span,
    pub mode: Option<PassMode>,
    pub decls: Row<Decl>,
    pub ty: TypeTree,
}

/// What an operation returns: `returns decl : ty`. The span is the span of `returns`.
#[derive(Drop)]
#[cycle(types)]
pub struct Returned {
    pub span: Span,
    pub decl: Decl,
    pub ty: Boxed<TypeTree>,
}

/// The parameters of an operation, what it returns and how it may be invoked.
#[derive(Drop)]
#[cycle(types)]
pub struct Signature {
    pub span: Span,
    pub formals: Row<Formal>,
    pub returned: Option<Returned>,
    /// What stands in `{..}`; one or two kinds, or none where no braces are written.
    pub kinds: Row<InvocationKind>,
}
