use crate::owner::{OperationOwner, Root};
use sr_value::{Boxed, Operator, Row, Shape, Value};

/// An expression without operands.
#[derive(Debug, Drop)]
pub enum Leaf {
    /// A literal or a static constant.
    Constant(Value),
    /// The capability of an operation.
    Operation { whose: OperationOwner, op: u32 },
    /// `myresource()`.
    MyResource,
    /// `myvm()`.
    MyMachine,
    /// `?op`.
    Count { op: u32 },
    /// `create vm()`.
    MakeMachine,
    /// The moment of the machine.
    Moment,
}

/// A predefined function of values.
#[derive(Clone, Copy, Debug, PartialEq, Eq)]
pub enum Function {
    Abs,
    Min,
    Max,
    /// `lb(a)`, `lb(a, 2)`.
    LowBound,
    LowBound2,
    /// `ub(a)`, `ub(a, 2)`.
    HighBound,
    HighBound2,
    Length,
    Pred,
    /// `succ(x)`; an enumeration has so many literals.
    Succ { literals: u32 },
    /// `int(x)`.
    ToInt,
    /// `char(i)`.
    ToChar,
    /// `string(x)`.
    ToText,
    /// `T(a, b)` with a rec type: a record of the arguments.
    Record,
}

/// What an item that `read` takes is read as.
#[derive(Clone, Copy, Debug, PartialEq, Eq)]
pub enum Readable {
    Int,
    Bool,
    Char,
    Str,
}

/// An expression. Its place in the program is the place of the statement, declaration or arm around it.
#[cycle(expression)]
#[derive(Debug, Drop)]
pub enum Expr {
    Leaf(Leaf),
    /// The value at a place.
    Load(PlaceExpr),
    Unary {
        op: Operator,
        operand: Boxed<Expr>,
    },
    /// Both operands are evaluated.
    Binary {
        op: Operator,
        left: Boxed<Expr>,
        right: Boxed<Expr>,
    },
    And {
        left: Boxed<Expr>,
        right: Boxed<Expr>,
    },
    Or {
        left: Boxed<Expr>,
        right: Boxed<Expr>,
    },
    Apply {
        function: Function,
        args: Row<Expr>,
    },
    /// Bracketed parts: an array.
    Array(Row<Part>),
    /// A part of a value that stands at no place.
    Of {
        whole: Boxed<Expr>,
        step: Boxed<Step>,
    },
    /// `r.f`: the capability of an operation of the resource that `of` gives.
    Member {
        of: Boxed<Expr>,
        op: u32,
    },
    /// A call. Where the operation returns, `returns` is the type of its value.
    Call {
        target: Boxed<Expr>,
        args: Row<Argument>,
        returns: Option<Shape>,
    },
    /// `create R(args) on machine`.
    Create {
        resource: u32,
        args: Row<Expr>,
        machine: Boxed<Expr>,
    },
    Read(Row<Reading>),
}

/// A place: a variable and the way from it to a part of it.
#[cycle(expression)]
#[derive(Debug, Drop)]
pub struct PlaceExpr {
    pub root: Root,
    pub path: Row<Step>,
}

/// A step from a place to a part of it.
#[cycle(expression)]
#[derive(Debug, Drop)]
pub enum Step {
    At(Expr),
    At2(Expr, Expr),
    Field(u32),
}

/// One part of a bracketed list, or one that is repeated.
#[cycle(expression)]
#[derive(Debug, Drop)]
pub enum Part {
    One(Expr),
    /// `[count] value`.
    Repeated { count: Expr, value: Expr },
}

/// An argument of an invocation, by the mode of its formal.
#[cycle(expression)]
#[derive(Debug, Drop)]
pub enum Argument {
    Val(Expr),
    Var(PlaceExpr),
    Res(PlaceExpr),
}

/// A place that `read` reads into.
#[cycle(expression)]
#[derive(Debug, Drop)]
pub struct Reading {
    pub kind: Readable,
    pub place: PlaceExpr,
}
