ghost use Rattle.std.specs.Prelude.{◌≡◌, ◌<◌, ◌≤◌, length, true, false, is_some, if◌then◌else◌, IfOk};
ghost use Rattle.sr_reader.specs.Reader.{next_is, while};
ghost use Rattle.sr_tree.specs.Tests.{is_sign};
ghost use Rattle.sr_tree.specs.declared.token.Sign.TheVariants as sign;
ghost use Rattle.sr_tree.specs.Tokens.{is_separator};
ghost use Rattle.sr_parser.specs.ArmReaders.{arm_of, co_arm_of, split_arm_at, split_co_arm_at};
ghost use Rattle.sr_parser.specs.Reads.{ReadsStatementBelow, ReadsStatementUpTo};
ghost use Rattle.sr_program_reader.specs.DeclarationReaders.{items_at, next_item_at};
ghost use Rattle.sr_program_reader.specs.StatementReaders.{arm_at, arms_at, arrow_block_at, begins_block_item, block_at, block_item_at, branch_at, branches_at, closed_statement_at, co_arm_at, co_at, co_block_at, do_at, for_all_at, if_at, in_at, is_alternative, more_co_arms_at, next_alternative_at, next_co_arm_at, operating_statement_at, otherwise_at, statement_at, worded_statement_at};

use crate::after::{let_go, pushed, row_of, separator_after, word_after};
use crate::declaration::{const_decl, var_decl};
use crate::heads::{ArmHead, CoHead, arm_head, co_head};
use crate::quantifier::quantifiers;
use crate::simple::{
    call_statement, create_statement, destroy_statement, forward_statement, named_statement,
    receive_statement, send_statement, stop_statement,
};
use crate::words::next_is_block_item;
use sr_parse_expr::expression::{LOOSEST, operand};
use sr_parse_tokens::{
    ReadFail, arm_may_follow, next_is_name, next_is_separator, next_is_sign, next_is_word, sign,
    sign_after, word,
};
use sr_tree::{Arm, BlockItem, Branch, CoArm, Sign, Statement, Token, Word};
use sr_value::Row;
use std::alloc::Global;

/// Reads a block after a token.
#[cycle(statements)]
fn block_after(alloc: Global, tokens: &[Token]) -> Result<(Row<BlockItem>, &[Token]), ReadFail>
    ensures reads { ReadsStatementBelow (λ x. (x.0, x.1.now)) tokens.now result (λ r. r.block) }
    ensures shorter { IfOk result (λ x. length x.1.now ≤ length tokens.now) }
{
    block(alloc, tokens)
}

/// Reads `->` and a block.
#[cycle(statements)]
#[tactic(auto, unfolding(sr_program_reader::specs::StatementReaders::arrow_block_at))]
fn arrow_block(alloc: Global, tokens: &[Token]) -> Result<(Row<BlockItem>, &[Token]), ReadFail>
    ensures reads { ReadsStatementUpTo (λ x. (x.0, x.1.now)) tokens.now result (λ r. arrow_block_at r) }
    ensures shorter { IfOk result (λ x. length x.1.now < length tokens.now) }
{
    let (_, rest) = sign(tokens, Sign::Arrow)?;
    block_after(alloc, rest)
}

/// Reads `else`, `->` and a block.
#[cycle(statements)]
#[tactic(auto, unfolding(sr_program_reader::specs::StatementReaders::otherwise_at))]
fn otherwise(alloc: Global, tokens: &[Token]) -> Result<(Row<BlockItem>, &[Token]), ReadFail>
    ensures reads { ReadsStatementUpTo (λ x. (x.0, x.1.now)) tokens.now result (λ r. otherwise_at r) }
    ensures shorter { IfOk result (λ x. length x.1.now < length tokens.now) }
{
    let (_, rest) = word(tokens, Word::Else)?;
    arrow_block(alloc, rest)
}

/// Reads a branch of `if` or `do`.
#[cycle(statements)]
#[tactic(auto, unfolding(sr_program_reader::specs::StatementReaders::branch_at))]
fn branch(alloc: Global, tokens: &[Token]) -> Result<(Branch, &[Token]), ReadFail>
    ensures reads { ReadsStatementUpTo (λ x. (x.0, x.1.now)) tokens.now result (λ r. branch_at r) }
    ensures shorter { IfOk result (λ x. length x.1.now < length tokens.now) }
{
    let (guard, rest) = operand(alloc, LOOSEST, tokens)?;
    match arrow_block(alloc, rest) {
        Ok((block, rest)) => {
            let span = guard.span();
            Ok((Branch { span, guard, block }, rest))
        }
        Err(fail) => {
            let_go(guard);
            Err(fail)
        }
    }
}

/// Reads branches with `[]` between, and what stands after `else`.
#[cycle(statements)]
#[tactic(auto, unfolding(sr_program_reader::specs::StatementReaders::branches_at, sr_program_reader::specs::StatementReaders::alternatives_at))]
fn branches(
    alloc: Global,
    tokens: &[Token],
) -> Result<((Row<Branch>, Option<Row<BlockItem>>), &[Token]), ReadFail>
    ensures reads { ReadsStatementUpTo (λ x. (x.0, x.1.now)) tokens.now result (λ r. branches_at r) }
    ensures shorter { IfOk result (λ x. length x.1.now < length tokens.now) }
{
    let (first, rest) = branch(alloc, tokens)?;
    let branches = row_of(alloc, first)?;
    more_branches(alloc, (branches, None), rest)
}

/// Reads further branches, each after `[]`, up to what stands after `else`.
#[cycle(statements)]
fn more_branches(
    alloc: Global,
    first: (Row<Branch>, Option<Row<BlockItem>>),
    tokens: &[Token],
) -> Result<((Row<Branch>, Option<Row<BlockItem>>), &[Token]), ReadFail>
    ensures reads { ReadsStatementUpTo (λ x. (x.0, x.1.now)) tokens.now result (λ r. while is_alternative (next_alternative_at r (branch_at r)) r.types.expressions.steps first) }
    ensures shorter { IfOk result (λ x. length x.1.now ≤ length tokens.now) }
{
    let mut state = first;
    let mut rest = tokens;
    'more: while next_is_alternative(&state.1, rest) {
        let (more, after) = next_branch(alloc, state, rest)?;
        state = more;
        rest = after;
    }
    Ok((state, rest))
}

/// Reads `[]` and a branch, or what stands after `else`.
#[cycle(statements)]
#[tactic(auto, unfolding(sr_program_reader::specs::StatementReaders::next_alternative_at))]
fn next_branch(
    alloc: Global,
    state: (Row<Branch>, Option<Row<BlockItem>>),
    tokens: &[Token],
) -> Result<((Row<Branch>, Option<Row<BlockItem>>), &[Token]), ReadFail>
    ensures reads { ReadsStatementUpTo (λ x. (x.0, x.1.now)) tokens.now result (λ r. next_alternative_at r (branch_at r) state) }
    ensures shorter { IfOk result (λ x. length x.1.now < length tokens.now) }
{
    let branches = without_block(state);
    let (_, branches, rest) = sign_after(branches, tokens, Sign::Alternative)?;
    if next_is_word(rest, Word::Else) {
        match otherwise(alloc, rest) {
            Ok((block, rest)) => Ok(((branches, Some(block)), rest)),
            Err(fail) => {
                let_go(branches);
                Err(fail)
            }
        }
    } else {
        match branch(alloc, rest) {
            Ok((next, rest)) => Ok(((pushed(branches, next)?, None), rest)),
            Err(fail) => {
                let_go(branches);
                Err(fail)
            }
        }
    }
}

/// Reads an arm of `in`.
#[cycle(statements)]
fn arm(alloc: Global, tokens: &[Token]) -> Result<(Arm, &[Token]), ReadFail>
    ensures reads { ReadsStatementUpTo (λ x. (x.0, x.1.now)) tokens.now result (λ r. arm_at r) }
    ensures shorter { IfOk result (λ x. length x.1.now < length tokens.now) }
{
    split_arm(alloc, tokens)
}

/// Reads an arm of `in`: its head and its block.
#[cycle(statements)]
#[tactic(auto, unfolding(crate::specs::ArmReaders::split_arm_at))]
fn split_arm(alloc: Global, tokens: &[Token]) -> Result<(Arm, &[Token]), ReadFail>
    ensures reads { ReadsStatementUpTo (λ x. (x.0, x.1.now)) tokens.now result (λ r. split_arm_at r) }
    ensures shorter { IfOk result (λ x. length x.1.now < length tokens.now) }
{
    let (head, rest) = arm_head(alloc, tokens)?;
    match arrow_block(alloc, rest) {
        Ok((block, rest)) => Ok((arm_from(head, block), rest)),
        Err(fail) => {
            let_go(head);
            Err(fail)
        }
    }
}

/// Reads arms of `in` with `[]` between, and what stands after `else`.
#[cycle(statements)]
#[tactic(auto, unfolding(sr_program_reader::specs::StatementReaders::arms_at, sr_program_reader::specs::StatementReaders::alternatives_at))]
fn arms(
    alloc: Global,
    tokens: &[Token],
) -> Result<((Row<Arm>, Option<Row<BlockItem>>), &[Token]), ReadFail>
    ensures reads { ReadsStatementUpTo (λ x. (x.0, x.1.now)) tokens.now result (λ r. arms_at r) }
    ensures shorter { IfOk result (λ x. length x.1.now < length tokens.now) }
{
    let (first, rest) = arm(alloc, tokens)?;
    let arms = row_of(alloc, first)?;
    more_arms(alloc, (arms, None), rest)
}

/// Reads further arms of `in`, each after `[]`, up to what stands after `else`.
#[cycle(statements)]
fn more_arms(
    alloc: Global,
    first: (Row<Arm>, Option<Row<BlockItem>>),
    tokens: &[Token],
) -> Result<((Row<Arm>, Option<Row<BlockItem>>), &[Token]), ReadFail>
    ensures reads { ReadsStatementUpTo (λ x. (x.0, x.1.now)) tokens.now result (λ r. while is_alternative (next_alternative_at r (arm_at r)) r.types.expressions.steps first) }
    ensures shorter { IfOk result (λ x. length x.1.now ≤ length tokens.now) }
{
    let mut state = first;
    let mut rest = tokens;
    'more: while next_is_alternative(&state.1, rest) {
        let (more, after) = next_arm(alloc, state, rest)?;
        state = more;
        rest = after;
    }
    Ok((state, rest))
}

/// Reads `[]` and an arm, or what stands after `else`.
#[cycle(statements)]
#[tactic(auto, unfolding(sr_program_reader::specs::StatementReaders::next_alternative_at))]
fn next_arm(
    alloc: Global,
    state: (Row<Arm>, Option<Row<BlockItem>>),
    tokens: &[Token],
) -> Result<((Row<Arm>, Option<Row<BlockItem>>), &[Token]), ReadFail>
    ensures reads { ReadsStatementUpTo (λ x. (x.0, x.1.now)) tokens.now result (λ r. next_alternative_at r (arm_at r) state) }
    ensures shorter { IfOk result (λ x. length x.1.now < length tokens.now) }
{
    let arms = without_block(state);
    let (_, arms, rest) = sign_after(arms, tokens, Sign::Alternative)?;
    if next_is_word(rest, Word::Else) {
        match otherwise(alloc, rest) {
            Ok((block, rest)) => Ok(((arms, Some(block)), rest)),
            Err(fail) => {
                let_go(arms);
                Err(fail)
            }
        }
    } else {
        match arm(alloc, rest) {
            Ok((next, rest)) => Ok(((pushed(arms, next)?, None), rest)),
            Err(fail) => {
                let_go(arms);
                Err(fail)
            }
        }
    }
}

/// Reads `->` and a block, where they stand.
#[cycle(statements)]
#[tactic(auto, unfolding(sr_program_reader::specs::StatementReaders::co_block_at))]
fn co_block(alloc: Global, tokens: &[Token]) -> Result<(Option<Row<BlockItem>>, &[Token]), ReadFail>
    ensures reads { ReadsStatementUpTo (λ x. (x.0, x.1.now)) tokens.now result (λ r. co_block_at r) }
    ensures shorter { IfOk result (λ x. length x.1.now ≤ length tokens.now) }
{
    if next_is_sign(tokens, Sign::Arrow) {
        let (block, rest) = arrow_block(alloc, tokens)?;
        Ok((Some(block), rest))
    } else {
        Ok((None, tokens))
    }
}

/// Reads an arm of `co`.
#[cycle(statements)]
fn co_arm(alloc: Global, tokens: &[Token]) -> Result<(CoArm, &[Token]), ReadFail>
    ensures reads { ReadsStatementUpTo (λ x. (x.0, x.1.now)) tokens.now result (λ r. co_arm_at r) }
    ensures shorter { IfOk result (λ x. length x.1.now < length tokens.now) }
{
    split_co_arm(alloc, tokens)
}

/// Reads an arm of `co`: its head and its block.
#[cycle(statements)]
#[tactic(auto, unfolding(crate::specs::ArmReaders::split_co_arm_at))]
fn split_co_arm(alloc: Global, tokens: &[Token]) -> Result<(CoArm, &[Token]), ReadFail>
    ensures reads { ReadsStatementUpTo (λ x. (x.0, x.1.now)) tokens.now result (λ r. split_co_arm_at r) }
    ensures shorter { IfOk result (λ x. length x.1.now < length tokens.now) }
{
    let (head, rest) = co_head(alloc, tokens)?;
    match co_block(alloc, rest) {
        Ok((block, rest)) => Ok((co_arm_from(head, block), rest)),
        Err(fail) => {
            let_go(head);
            Err(fail)
        }
    }
}

/// Reads further arms of `co`, each after `//`.
#[cycle(statements)]
#[tactic(auto, unfolding(sr_program_reader::specs::StatementReaders::more_co_arms_at))]
fn more_co_arms(
    alloc: Global,
    first: Row<CoArm>,
    tokens: &[Token],
) -> Result<(Row<CoArm>, &[Token]), ReadFail>
    ensures reads { ReadsStatementUpTo (λ x. (x.0, x.1.now)) tokens.now result (λ r. more_co_arms_at r first) }
    ensures shorter { IfOk result (λ x. length x.1.now ≤ length tokens.now) }
{
    let mut arms = first;
    let mut rest = tokens;
    'more: while next_is_sign(rest, Sign::Parallel) {
        let (more, after) = next_co_arm(alloc, arms, rest)?;
        arms = more;
        rest = after;
    }
    Ok((arms, rest))
}

/// Reads `//` and an arm of `co`, and appends it.
#[cycle(statements)]
#[tactic(auto, unfolding(sr_program_reader::specs::StatementReaders::next_co_arm_at))]
fn next_co_arm(
    alloc: Global,
    arms: Row<CoArm>,
    tokens: &[Token],
) -> Result<(Row<CoArm>, &[Token]), ReadFail>
    ensures reads { ReadsStatementUpTo (λ x. (x.0, x.1.now)) tokens.now result (λ r. next_co_arm_at r arms) }
    ensures shorter { IfOk result (λ x. length x.1.now < length tokens.now) }
{
    let (_, arms, rest) = sign_after(arms, tokens, Sign::Parallel)?;
    match co_arm(alloc, rest) {
        Ok((next, rest)) => Ok((pushed(arms, next)?, rest)),
        Err(fail) => {
            let_go(arms);
            Err(fail)
        }
    }
}

/// Reads `if` and its branches.
#[cycle(statements)]
#[tactic(auto, unfolding(sr_program_reader::specs::StatementReaders::if_at))]
fn if_statement(alloc: Global, tokens: &[Token]) -> Result<(Statement, &[Token]), ReadFail>
    ensures reads { ReadsStatementUpTo (λ x. (x.0, x.1.now)) tokens.now result (λ r. if_at r) }
    ensures shorter { IfOk result (λ x. length x.1.now < length tokens.now) }
{
    let (span, rest) = word(tokens, Word::If)?;
    let (branches, rest) = branches(alloc, rest)?;
    let (_, (branches, otherwise), rest) = word_after(branches, rest, Word::Fi)?;
    Ok((
        Statement::If {
            span,
            branches,
            otherwise,
        },
        rest,
    ))
}

/// Reads `do` and its branches.
#[cycle(statements)]
#[tactic(auto, unfolding(sr_program_reader::specs::StatementReaders::do_at))]
fn do_statement(alloc: Global, tokens: &[Token]) -> Result<(Statement, &[Token]), ReadFail>
    ensures reads { ReadsStatementUpTo (λ x. (x.0, x.1.now)) tokens.now result (λ r. do_at r) }
    ensures shorter { IfOk result (λ x. length x.1.now < length tokens.now) }
{
    let (span, rest) = word(tokens, Word::Do)?;
    let (branches, rest) = branches(alloc, rest)?;
    let (_, (branches, otherwise), rest) = word_after(branches, rest, Word::Od)?;
    Ok((
        Statement::Do {
            span,
            branches,
            otherwise,
        },
        rest,
    ))
}

/// Reads `fa`, its quantifiers and its block.
#[cycle(statements)]
#[tactic(auto, unfolding(sr_program_reader::specs::StatementReaders::for_all_at))]
fn for_all_statement(alloc: Global, tokens: &[Token]) -> Result<(Statement, &[Token]), ReadFail>
    ensures reads { ReadsStatementUpTo (λ x. (x.0, x.1.now)) tokens.now result (λ r. for_all_at r) }
    ensures shorter { IfOk result (λ x. length x.1.now < length tokens.now) }
{
    let (span, rest) = word(tokens, Word::Fa)?;
    let (quantifiers, rest) = quantifiers(alloc, rest)?;
    match arrow_block(alloc, rest) {
        Ok((block, rest)) => {
            let (_, (quantifiers, block), rest) = word_after((quantifiers, block), rest, Word::Af)?;
            Ok((
                Statement::ForAll {
                    span,
                    quantifiers,
                    block,
                },
                rest,
            ))
        }
        Err(fail) => {
            let_go(quantifiers);
            Err(fail)
        }
    }
}

/// Reads `in` and its arms.
#[cycle(statements)]
#[tactic(auto, unfolding(sr_program_reader::specs::StatementReaders::in_at))]
fn in_statement(alloc: Global, tokens: &[Token]) -> Result<(Statement, &[Token]), ReadFail>
    ensures reads { ReadsStatementUpTo (λ x. (x.0, x.1.now)) tokens.now result (λ r. in_at r) }
    ensures shorter { IfOk result (λ x. length x.1.now < length tokens.now) }
{
    let (span, rest) = word(tokens, Word::In)?;
    let (arms, rest) = arms(alloc, rest)?;
    let (_, (arms, otherwise), rest) = word_after(arms, rest, Word::Ni)?;
    Ok((
        Statement::In {
            span,
            arms,
            otherwise,
        },
        rest,
    ))
}

/// Reads `co` and its arms.
#[cycle(statements)]
#[tactic(auto, unfolding(sr_program_reader::specs::StatementReaders::co_at))]
fn co_statement(alloc: Global, tokens: &[Token]) -> Result<(Statement, &[Token]), ReadFail>
    ensures reads { ReadsStatementUpTo (λ x. (x.0, x.1.now)) tokens.now result (λ r. co_at r) }
    ensures shorter { IfOk result (λ x. length x.1.now < length tokens.now) }
{
    let (span, rest) = word(tokens, Word::Co)?;
    let (first, rest) = co_arm(alloc, rest)?;
    let arms = row_of(alloc, first)?;
    let (arms, rest) = more_co_arms(alloc, arms, rest)?;
    let (_, arms, rest) = word_after(arms, rest, Word::Oc)?;
    Ok((Statement::Co { span, arms }, rest))
}

/// Reads a statement that ends in a word of its own.
#[cycle(statements)]
#[tactic(auto, unfolding(sr_program_reader::specs::StatementReaders::closed_statement_at))]
fn closed_statement(alloc: Global, tokens: &[Token]) -> Result<(Statement, &[Token]), ReadFail>
    ensures reads { ReadsStatementUpTo (λ x. (x.0, x.1.now)) tokens.now result (λ r. closed_statement_at r) }
    ensures shorter { IfOk result (λ x. length x.1.now < length tokens.now) }
{
    if next_is_word(tokens, Word::If) {
        if_statement(alloc, tokens)
    } else if next_is_word(tokens, Word::Do) {
        do_statement(alloc, tokens)
    } else if next_is_word(tokens, Word::Fa) {
        for_all_statement(alloc, tokens)
    } else if next_is_word(tokens, Word::In) {
        in_statement(alloc, tokens)
    } else {
        co_statement(alloc, tokens)
    }
}

/// Reads a statement that begins with a word of its own, or one that ends in a word of its own.
#[cycle(statements)]
#[tactic(auto, unfolding(sr_program_reader::specs::StatementReaders::operating_statement_at))]
fn operating_statement(alloc: Global, tokens: &[Token]) -> Result<(Statement, &[Token]), ReadFail>
    ensures reads { ReadsStatementUpTo (λ x. (x.0, x.1.now)) tokens.now result (λ r. operating_statement_at r) }
    ensures shorter { IfOk result (λ x. length x.1.now < length tokens.now) }
{
    if next_is_word(tokens, Word::Call) {
        call_statement(alloc, tokens)
    } else if next_is_word(tokens, Word::Send) {
        send_statement(alloc, tokens)
    } else if next_is_word(tokens, Word::Forward) {
        forward_statement(alloc, tokens)
    } else if next_is_word(tokens, Word::Receive) {
        receive_statement(alloc, tokens)
    } else if next_is_word(tokens, Word::Destroy) {
        destroy_statement(alloc, tokens)
    } else if next_is_word(tokens, Word::Create) {
        create_statement(alloc, tokens)
    } else {
        closed_statement(alloc, tokens)
    }
}

/// Reads a statement that begins with a word.
#[cycle(statements)]
#[tactic(auto, unfolding(sr_program_reader::specs::StatementReaders::worded_statement_at, sr_program_reader::specs::StatementReaders::single_at))]
fn worded_statement(alloc: Global, tokens: &[Token]) -> Result<(Statement, &[Token]), ReadFail>
    ensures reads { ReadsStatementUpTo (λ x. (x.0, x.1.now)) tokens.now result (λ r. worded_statement_at r) }
    ensures shorter { IfOk result (λ x. length x.1.now < length tokens.now) }
{
    if next_is_word(tokens, Word::Skip) {
        let (span, rest) = word(tokens, Word::Skip)?;
        Ok((Statement::Skip { span }, rest))
    } else if next_is_word(tokens, Word::Exit) {
        let (span, rest) = word(tokens, Word::Exit)?;
        Ok((Statement::Exit { span }, rest))
    } else if next_is_word(tokens, Word::Next) {
        let (span, rest) = word(tokens, Word::Next)?;
        Ok((Statement::Next { span }, rest))
    } else if next_is_word(tokens, Word::Return) {
        let (span, rest) = word(tokens, Word::Return)?;
        Ok((Statement::Return { span }, rest))
    } else if next_is_word(tokens, Word::Reply) {
        let (span, rest) = word(tokens, Word::Reply)?;
        Ok((Statement::Reply { span }, rest))
    } else if next_is_word(tokens, Word::Stop) {
        stop_statement(alloc, tokens)
    } else {
        operating_statement(alloc, tokens)
    }
}

/// Reads a statement.
#[cycle(statements)]
#[tactic(auto, unfolding(sr_program_reader::specs::StatementReaders::statement_at))]
pub fn statement(alloc: Global, tokens: &[Token]) -> Result<(Statement, &[Token]), ReadFail>
    ensures reads { ReadsStatementUpTo (λ x. (x.0, x.1.now)) tokens.now result (λ r. statement_at r) }
    ensures shorter { IfOk result (λ x. length x.1.now < length tokens.now) }
{
    if next_is_name(tokens) {
        named_statement(alloc, tokens)
    } else {
        worded_statement(alloc, tokens)
    }
}

/// Reads a constant, variables or a statement.
#[cycle(statements)]
#[tactic(auto, unfolding(sr_program_reader::specs::StatementReaders::block_item_at))]
fn block_item(alloc: Global, tokens: &[Token]) -> Result<(BlockItem, &[Token]), ReadFail>
    ensures reads { ReadsStatementUpTo (λ x. (x.0, x.1.now)) tokens.now result (λ r. block_item_at r) }
    ensures shorter { IfOk result (λ x. length x.1.now < length tokens.now) }
{
    if next_is_word(tokens, Word::Const) {
        let (decl, rest) = const_decl(alloc, tokens)?;
        Ok((BlockItem::Const(decl), rest))
    } else if next_is_word(tokens, Word::Var) {
        let (decl, rest) = var_decl(alloc, tokens)?;
        Ok((BlockItem::Var(decl), rest))
    } else {
        let (statement, rest) = statement(alloc, tokens)?;
        Ok((BlockItem::Statement(statement), rest))
    }
}

/// Reads a block: items with one or more separators between two and any number before and after.
#[cycle(statements)]
#[tactic(auto, unfolding(sr_program_reader::specs::StatementReaders::block_at, sr_program_reader::specs::DeclarationReaders::list_at))]
pub fn block(alloc: Global, tokens: &[Token]) -> Result<(Row<BlockItem>, &[Token]), ReadFail>
    ensures reads { ReadsStatementUpTo (λ x. (x.0, x.1.now)) tokens.now result (λ r. block_at r) }
    ensures shorter { IfOk result (λ x. length x.1.now ≤ length tokens.now) }
{
    let ((block, _), rest) = items(alloc, (Row::new(alloc), true), tokens)?;
    Ok((block, rest))
}

/// Reads items of a block as long as they go on, after others; the flag says whether one may begin here.
#[cycle(statements)]
#[tactic(auto, unfolding(sr_program_reader::specs::DeclarationReaders::items_at))]
fn items(
    alloc: Global,
    first: (Row<BlockItem>, bool),
    tokens: &[Token],
) -> Result<((Row<BlockItem>, bool), &[Token]), ReadFail>
    ensures reads { ReadsStatementUpTo (λ x. (x.0, x.1.now)) tokens.now result (λ r. items_at (λ t. begins_block_item t.kind) (block_item_at r) r.types.expressions.steps first) }
    ensures shorter { IfOk result (λ x. length x.1.now ≤ length tokens.now) }
{
    let mut state = first;
    let mut rest = tokens;
    'more: while next_goes_on(state.1, rest) {
        let (more, after) = next_item(alloc, state, rest)?;
        state = more;
        rest = after;
    }
    Ok((state, rest))
}

/// Reads a separator, after which an item may begin, or an item, after which none may.
#[cycle(statements)]
#[tactic(auto, unfolding(sr_program_reader::specs::DeclarationReaders::next_item_at))]
fn next_item(
    alloc: Global,
    state: (Row<BlockItem>, bool),
    tokens: &[Token],
) -> Result<((Row<BlockItem>, bool), &[Token]), ReadFail>
    ensures reads { ReadsStatementUpTo (λ x. (x.0, x.1.now)) tokens.now result (λ r. next_item_at (block_item_at r) state) }
    ensures shorter { IfOk result (λ x. length x.1.now < length tokens.now) }
{
    let (items, _) = state;
    if next_is_separator(tokens) {
        let (_, items, rest) = separator_after(items, tokens)?;
        Ok(((items, true), rest))
    } else {
        match block_item(alloc, tokens) {
            Ok((item, rest)) => Ok(((pushed(items, item)?, false), rest)),
            Err(fail) => {
                let_go(items);
                Err(fail)
            }
        }
    }
}

/// Whether a separator stands next, or an item of a block where one may begin.
fn next_goes_on(may_begin: bool, tokens: &[Token]) -> bool
    ensures { result ≡ next_is (λ t. if is_separator t.kind then true else if may_begin then begins_block_item t.kind else false) tokens.now }
{
    next_is_separator(tokens) || (may_begin && next_is_block_item(tokens))
}

/// Whether `[]` stands next where nothing has stood after `else` yet.
fn next_is_alternative(otherwise: &Option<Row<BlockItem>>, tokens: &[Token]) -> bool
    ensures { result ≡ next_is (λ t. if is_some otherwise.now then false else is_sign sign.Alternative t.kind) tokens.now }
{
    arm_may_follow(otherwise.is_some(), tokens)
}

/// What has stood between `[]` so far, without what stands after `else`.
fn without_block<A, B: Drop>(state: (A, B)) -> A
    ensures { result ≡ state.0 }
{
    let (so_far, _) = state;
    so_far
}

/// The arm of `in` of a head and a block.
fn arm_from(head: ArmHead, block: Row<BlockItem>) -> Arm
    ensures { result ≡ arm_of head block }
{
    let ArmHead {
        operation,
        formals,
        returned,
        condition,
        order,
    } = head;
    let span = operation.span;
    Arm {
        span,
        operation,
        formals,
        returned,
        condition,
        order,
        block,
    }
}

/// The arm of `co` of a head and a block.
fn co_arm_from(head: CoHead, block: Option<Row<BlockItem>>) -> CoArm
    ensures { result ≡ co_arm_of head block }
{
    let CoHead {
        span,
        quantifiers,
        target,
        with_call,
        invocation,
    } = head;
    CoArm {
        span,
        quantifiers,
        target,
        with_call,
        invocation,
        block,
    }
}
