use crate::compare::Compare;

/// An operator of SR's expressions.
#[derive(Clone, Copy, Debug, PartialEq, Eq)]
pub enum Operator {
    /// `or`
    Or,
    /// `xor`
    Xor,
    /// `and`
    And,
    /// `=`
    Eq,
    /// `!=`
    Ne,
    /// `<`
    Lt,
    /// `<=`
    Le,
    /// `>`
    Gt,
    /// `>=`
    Ge,
    /// `+` between two operands
    Add,
    /// `-` between two operands
    Sub,
    /// `||`
    Join,
    /// `*`
    Mul,
    /// `/`
    Div,
    /// `%`
    Rem,
    /// `mod`
    Mod,
    /// `-` before its operand
    Minus,
    /// `+` before its operand
    Plus,
    /// `not`
    Not,
}

impl Compare for Operator {
    fn same(&self, other: &Self) -> bool {
        *self == *other
    }
}
