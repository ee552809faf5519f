use crate::name::{Name, QualifiedName};
use sr_value::{Boxed, Row, Span, Text};

/// A literal. Numbers, characters and strings keep the bytes of their token.
#[derive(Drop)]
pub enum Literal {
    Number(Text),
    Char(Text),
    Str(Text),
    True,
    False,
    Null,
    Noop,
}

/// The words for types that may stand as an expression, as the operand of `low` and `high`.
#[derive(Clone, Copy, PartialEq, Eq)]
pub enum BasicType {
    Int,
    Bool,
    Char,
}

/// The type that a conversion gives.
#[derive(Clone, Copy, PartialEq, Eq)]
pub enum Conversion {
    Int,
    Char,
    Str,
}

/// The operators before an operand.
#[derive(Clone, Copy, PartialEq, Eq)]
pub enum UnaryOperator {
    Minus,
    Plus,
    Not,
}

/// The operators between two operands, from the loosest to the tightest.
#[derive(Clone, Copy, PartialEq, Eq)]
pub enum BinaryOperator {
    Or,
    Xor,
    And,
    Equal,
    NotEqual,
    Less,
    LessEqual,
    Greater,
    GreaterEqual,
    Plus,
    Minus,
    /// `||`
    Join,
    Times,
    Divide,
    /// `%`
    Remainder,
    /// `mod`
    Modulo,
}

/// An expression. Each `span` is the span of the first token.
#[derive(Drop)]
#[cycle(expressions)]
pub enum Expr {
    Literal {
        span: Span,
        literal: Literal,
    },
    Name(Name),
    BasicType {
        span: Span,
        basic: BasicType,
    },
    /// `int(value)`, `char(value)` or `string(value)`
    Conversion {
        span: Span,
        conversion: Conversion,
        value: Boxed<Expr>,
    },
    /// `(inner)`
    Group {
        span: Span,
        inner: Boxed<Expr>,
    },
    /// `(a, b, [count] c)`: an array of its parts.
    Parts {
        span: Span,
        parts: Row<Part>,
    },
    /// `record.field`
    Field {
        span: Span,
        record: Boxed<Expr>,
        field: Name,
    },
    /// `array[first]` or `array[first, second]`
    Index {
        span: Span,
        array: Boxed<Expr>,
        first: Boxed<Expr>,
        second: Option<Boxed<Expr>>,
    },
    Call(Invocation),
    Create(Create),
    Unary {
        span: Span,
        operator: UnaryOperator,
        operand: Boxed<Expr>,
    },
    /// `?operation`, the number of its pending invocations.
    Pending {
        span: Span,
        operation: Name,
    },
    Binary {
        span: Span,
        left: Boxed<Expr>,
        operator: BinaryOperator,
        right: Boxed<Expr>,
    },
}

/// A part of an array in brackets, which may be repeated: `value` or `[count] value`.
#[derive(Drop)]
#[cycle(expressions)]
pub struct Part {
    pub span: Span,
    pub count: Option<Boxed<Expr>>,
    pub value: Boxed<Expr>,
}

/// `callee(arguments)`
#[derive(Drop)]
#[cycle(expressions)]
pub struct Invocation {
    pub span: Span,
    pub callee: Boxed<Expr>,
    pub arguments: Row<Expr>,
}

/// The making of an instance or of a machine.
#[derive(Drop)]
#[cycle(expressions)]
pub enum Create {
    /// `create resource(arguments) on machine`
    Resource {
        span: Span,
        resource: QualifiedName,
        arguments: Row<Expr>,
        machine: Option<Boxed<Expr>>,
    },
    /// `create vm()`
    Machine {
        span: Span,
    },
}

impl Expr {
    ghost use Rattle.std.specs.Prelude.{◌≡◌};
    ghost use Rattle.sr_tree.specs.Expressions.{expr_span};

    /// The span of the first token.
    pub fn span(&self) -> Span
        ensures { result ≡ expr_span self.now }
    {
        match self {
            Expr::Literal { span, .. }
            | Expr::BasicType { span, .. }
            | Expr::Conversion { span, .. }
            | Expr::Group { span, .. }
            | Expr::Parts { span, .. }
            | Expr::Field { span, .. }
            | Expr::Index { span, .. }
            | Expr::Unary { span, .. }
            | Expr::Pending { span, .. }
            | Expr::Binary { span, .. } => *span,
            Expr::Name(name) => name.span,
            Expr::Call(invocation) => invocation.span,
            Expr::Create(create) => create.span(),
        }
    }
}

impl Create {
    ghost use Rattle.std.specs.Prelude.{◌≡◌};
    ghost use Rattle.sr_tree.specs.Expressions.{create_span};

    /// The span of the word `create`.
    pub fn span(&self) -> Span
        ensures { result ≡ create_span self.now }
    {
        match self {
            Create::Resource { span, .. } => *span,
            Create::Machine { span } => *span,
        }
    }
}
