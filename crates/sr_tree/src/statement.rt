use crate::declaration::{ConstDecl, VarDecl};
use crate::expr::{Create, Expr, Invocation};
use crate::name::Name;
use sr_value::{Row, Span};

/// Whether a quantifier counts up or down.
#[derive(Clone, Copy, PartialEq, Eq)]
pub enum Direction {
    To,
    Downto,
}

/// `name := first to last by step st such_that`
#[derive(Drop)]
pub struct Quantifier {
    pub span: Span,
    pub name: Name,
    pub first: Expr,
    pub direction: Direction,
    pub last: Expr,
    pub step: Option<Expr>,
    pub such_that: Option<Expr>,
}

/// The word before the condition of an arm; both mean the same.
#[derive(Clone, Copy, PartialEq, Eq)]
pub enum ConditionWord {
    And,
    St,
}

/// The condition of an arm: `and condition` or `st condition`.
#[derive(Drop)]
pub struct ArmCondition {
    pub span: Span,
    pub word: ConditionWord,
    pub condition: Expr,
}

/// A statement. Each `span` is the span of the first token.
#[derive(Drop)]
#[cycle(statements)]
pub enum Statement {
    Skip {
        span: Span,
    },
    Exit {
        span: Span,
    },
    Next {
        span: Span,
    },
    Return {
        span: Span,
    },
    Reply {
        span: Span,
    },
    /// `stop` or `stop(status)`
    Stop {
        span: Span,
        status: Option<Expr>,
    },
    /// An invocation, with the word `call` before it where `with_call` holds.
    Call {
        span: Span,
        with_call: bool,
        invocation: Invocation,
    },
    Send {
        span: Span,
        invocation: Invocation,
    },
    Forward {
        span: Span,
        invocation: Invocation,
    },
    /// `receive operation(places)`
    Receive {
        span: Span,
        operation: Name,
        places: Row<Expr>,
    },
    /// `place := value`
    Assign {
        span: Span,
        place: Expr,
        value: Expr,
    },
    /// `left :=: right`
    Exchange {
        span: Span,
        left: Expr,
        right: Expr,
    },
    /// `place++`
    Increment {
        span: Span,
        place: Expr,
    },
    /// `place--`
    Decrement {
        span: Span,
        place: Expr,
    },
    /// `if branches fi`, with what stands after `else`.
    If {
        span: Span,
        branches: Row<Branch>,
        otherwise: Option<Row<BlockItem>>,
    },
    /// `do branches od`, with what stands after `else`.
    Do {
        span: Span,
        branches: Row<Branch>,
        otherwise: Option<Row<BlockItem>>,
    },
    /// `fa quantifiers -> block af`
    ForAll {
        span: Span,
        quantifiers: Row<Quantifier>,
        block: Row<BlockItem>,
    },
    /// `in arms ni`, with what stands after `else`.
    In {
        span: Span,
        arms: Row<Arm>,
        otherwise: Option<Row<BlockItem>>,
    },
    /// `co arms oc`
    Co {
        span: Span,
        arms: Row<CoArm>,
    },
    Destroy {
        span: Span,
        target: Expr,
    },
    Create {
        span: Span,
        create: Create,
    },
}

/// What may stand in a block.
#[derive(Drop)]
#[cycle(statements)]
pub enum BlockItem {
    Const(ConstDecl),
    Var(VarDecl),
    Statement(Statement),
}

/// A branch of `if` or `do`: `guard -> block`.
#[derive(Drop)]
#[cycle(statements)]
pub struct Branch {
    pub span: Span,
    pub guard: Expr,
    pub block: Row<BlockItem>,
}

/// An arm of `in`: `operation(formals) returns returned and condition by order -> block`.
#[derive(Drop)]
#[cycle(statements)]
pub struct Arm {
    pub span: Span,
    pub operation: Name,
    pub formals: Row<Name>,
    pub returned: Option<Name>,
    pub condition: Option<ArmCondition>,
    pub order: Option<Expr>,
    pub block: Row<BlockItem>,
}

/// An arm of `co`: `(quantifiers) target := call invocation -> block`.
#[derive(Drop)]
#[cycle(statements)]
pub struct CoArm {
    pub span: Span,
    /// None where no parentheses are written.
    pub quantifiers: Row<Quantifier>,
    pub target: Option<Expr>,
    pub with_call: bool,
    pub invocation: Invocation,
    pub block: Option<Row<BlockItem>>,
}
