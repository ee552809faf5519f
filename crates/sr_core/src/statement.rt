use crate::expression::{Argument, Expr, PlaceExpr};
use sr_value::{Place, Row, Shape};

/// The indices of one dimension of an array, from the lowest to the highest.
#[derive(Debug, Drop)]
pub struct Range {
    pub lo: Expr,
    pub hi: Expr,
}

/// The dimensions that a declaration writes.
#[derive(Debug, Drop)]
pub enum DimsExpr {
    /// None: the variable is of the item type.
    None,
    One(Range),
    Two(Range, Range),
}

/// The type that a declaration writes after the dimensions.
#[derive(Debug, Drop)]
pub enum ItemShape {
    Fixed(Shape),
    /// `string[most]`, whose length is found when the declaration is reached.
    Str { most: Expr },
}

/// The type of a variable, whose bounds and lengths are found when its declaration is reached.
#[derive(Debug, Drop)]
pub struct ShapeExpr {
    pub dims: DimsExpr,
    pub item: ItemShape,
}

/// Whose variable a declaration makes.
#[derive(Clone, Copy, Debug, PartialEq, Eq)]
pub enum Scope {
    /// The process's own.
    Own,
    /// The instance's.
    Shared,
}

/// How a variable, or a constant that isn't static, is set up.
#[derive(Debug, Drop)]
pub enum Setup {
    /// It has a type, and a value of its own or the default.
    Typed {
        shape: ShapeExpr,
        value: Option<Expr>,
    },
    /// It has the type and the bounds of its value. `shape` is that type; the bounds in it don't count.
    Untyped {
        shape: Shape,
        value: Expr,
    },
}

/// The declaration of one name.
#[derive(Debug, Drop)]
pub struct Declaration {
    pub scope: Scope,
    pub var: u32,
    pub setup: Setup,
}

/// Which way a quantifier goes.
#[derive(Clone, Copy, Debug, PartialEq, Eq)]
pub enum Direction {
    Up,
    Down,
}

/// `var := from to to by by st condition`.
#[derive(Debug, Drop)]
pub struct Quantifier {
    /// The own variable that goes through the values.
    pub var: u32,
    pub from: Expr,
    pub direction: Direction,
    pub to: Expr,
    /// The step; 1 where none is written.
    pub by: Expr,
    pub condition: Option<Expr>,
}

/// What a bump does to a number.
#[derive(Clone, Copy, Debug, PartialEq, Eq)]
pub enum Bump {
    Increase,
    Decrease,
}

/// A statement without blocks.
#[derive(Debug, Drop)]
pub enum Action {
    Skip,
    /// A call, `create` or `read` whose value isn't used.
    Evaluate(Expr),
    Send { target: Expr, args: Row<Argument> },
    Forward { target: Expr, args: Row<Argument> },
    Assign { place: PlaceExpr, value: Expr },
    Swap { left: PlaceExpr, right: PlaceExpr },
    Bump { place: PlaceExpr, bump: Bump },
    /// `write`, or `writes` where it isn't a `line`.
    Write { args: Row<Expr>, line: bool },
    Stop { status: Option<Expr> },
    Destroy { target: Expr },
    /// Waits until as many milliseconds have gone by.
    Until { time: Expr },
    Exit,
    Next,
    Return,
    Reply,
}

/// An invocation of a `co`, and where its value goes.
#[derive(Debug, Drop)]
pub struct CoCall {
    pub place: Option<PlaceExpr>,
    pub target: Expr,
    pub args: Row<Argument>,
    /// The type of the value, where the operation returns.
    pub returns: Option<Shape>,
}

/// A statement, with the line of its first token.
#[cycle(statement)]
#[derive(Debug, Drop)]
pub enum Statement {
    Declare {
        place: Place,
        declaration: Declaration,
    },
    Act {
        place: Place,
        action: Action,
    },
    If {
        place: Place,
        guards: Row<Guarded>,
        otherwise: Row<Statement>,
    },
    Do {
        place: Place,
        guards: Row<Guarded>,
        otherwise: Option<Row<Statement>>,
    },
    Fa {
        place: Place,
        quantifiers: Row<Quantifier>,
        body: Row<Statement>,
    },
    /// An `in` statement: the number of its site, and the block of each arm.
    In {
        place: Place,
        site: u32,
        arms: Row<Row<Statement>>,
        otherwise: Row<Statement>,
    },
    Co {
        place: Place,
        arms: Row<CoArm>,
    },
    /// The sends of a `sem`: `count` times a `send` without arguments to `target`, each a statement of its own.
    Sends {
        place: Place,
        target: Expr,
        count: Expr,
    },
}

/// A block, and the condition under which it runs.
#[cycle(statement)]
#[derive(Debug, Drop)]
pub struct Guarded {
    pub condition: Expr,
    pub body: Row<Statement>,
}

/// An arm of a `co`.
#[cycle(statement)]
#[derive(Debug, Drop)]
pub struct CoArm {
    pub quantifiers: Row<Quantifier>,
    pub call: CoCall,
    /// What runs after the reply.
    pub body: Row<Statement>,
}
