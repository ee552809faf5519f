//! Reads what stands after a tree, and hands the tree back with it. The type of the tree is left open, so that no
//! failure looks into it. What can't be handed on where nothing is read goes to `let_go`.

ghost use Rattle.std.specs.Prelude.{◌≡◌, ◌<◌, length, [], ◌∷◌, ◌++◌, IfOk};
ghost use Rattle.sr_parse_tokens.specs.Gives.{Gives};
ghost use Rattle.sr_parse_expr.specs.Reads.{ReadsUpTo};
ghost use Rattle.sr_expr_reader.specs.Readers.{operand_at, primary_at};
ghost use Rattle.sr_tree.specs.Tokens.{separator_at, word_at};
ghost use Rattle.sr_program_reader.specs.StatementReaders.{invocation_at};

use crate::parts::invocation;
use sr_parse_expr::expression::{LOOSEST, operand, primary};
use sr_parse_tokens::{ReadFail, separator, word};
use sr_tree::{Expr, Invocation, Token, Word};
use sr_value::{NoMemory, Row, Span};
use std::alloc::Global;

/// Drops a tree.
pub fn let_go<T: Drop>(_tree: T) {}

/// A row of one tree.
pub fn row_of<T: Drop>(alloc: Global, tree: T) -> Result<Row<T>, NoMemory>
    ensures { IfOk result (λ row. row ≡ tree ∷ []) }
{
    let mut row = Row::new(alloc);
    row.push(tree)?;
    Ok(row)
}

/// Trees, and one more after them.
pub fn pushed<T: Drop>(trees: Row<T>, next: T) -> Result<Row<T>, NoMemory>
    ensures { IfOk result (λ row. row ≡ trees ++ next ∷ []) }
{
    let mut trees = trees;
    trees.push(next)?;
    Ok(trees)
}

/// Reads a separator after a tree.
pub fn separator_after<T: Drop>(tree: T, tokens: &[Token]) -> Result<(Span, T, &[Token]), ReadFail>
    ensures reads { Gives (λ x. (x.0, x.2.now)) result (separator_at tokens.now) }
    ensures kept { IfOk result (λ x. x.1 ≡ tree) }
    ensures shorter { IfOk result (λ x. length x.2.now < length tokens.now) }
{
    let (span, rest) = separator(tokens)?;
    Ok((span, tree, rest))
}

/// Reads an expression after a tree.
pub fn expression_after<T: Drop>(
    alloc: Global,
    tree: T,
    tokens: &[Token],
) -> Result<(T, Expr, &[Token]), ReadFail>
    ensures reads { ReadsUpTo (λ x. (x.1, x.2.now)) tokens.now result (λ r. operand_at r 5) }
    ensures kept { IfOk result (λ x. x.0 ≡ tree) }
    ensures shorter { IfOk result (λ x. length x.2.now < length tokens.now) }
{
    let (expr, rest) = operand(alloc, LOOSEST, tokens)?;
    Ok((tree, expr, rest))
}

/// Reads a primary after a tree.
pub fn primary_after<T: Drop>(
    alloc: Global,
    tree: T,
    tokens: &[Token],
) -> Result<(T, Expr, &[Token]), ReadFail>
    ensures reads { ReadsUpTo (λ x. (x.1, x.2.now)) tokens.now result (λ r. primary_at r) }
    ensures kept { IfOk result (λ x. x.0 ≡ tree) }
    ensures shorter { IfOk result (λ x. length x.2.now < length tokens.now) }
{
    let (primary, rest) = primary(alloc, tokens)?;
    Ok((tree, primary, rest))
}

/// Reads this word after a tree, and gives its span too.
pub fn word_after<T: Drop>(
    tree: T,
    tokens: &[Token],
    wanted: Word,
) -> Result<(Span, T, &[Token]), ReadFail>
    ensures reads { Gives (λ x. (x.0, x.2.now)) result (word_at wanted tokens.now) }
    ensures kept { IfOk result (λ x. x.1 ≡ tree) }
    ensures shorter { IfOk result (λ x. length x.2.now < length tokens.now) }
{
    let (span, rest) = word(tokens, wanted)?;
    Ok((span, tree, rest))
}

/// Reads an invocation after a tree.
pub fn invocation_after<T: Drop>(
    alloc: Global,
    tree: T,
    tokens: &[Token],
) -> Result<(T, Invocation, &[Token]), ReadFail>
    ensures reads { ReadsUpTo (λ x. (x.1, x.2.now)) tokens.now result (λ r. invocation_at r) }
    ensures kept { IfOk result (λ x. x.0 ≡ tree) }
    ensures shorter { IfOk result (λ x. length x.2.now < length tokens.now) }
{
    let (invocation, rest) = invocation(alloc, tokens)?;
    Ok((tree, invocation, rest))
}
