ghost use Rattle.std.specs.Prelude.{◌≡◌, ◌<◌, ◌≤◌, length, IfOk};
ghost use Rattle.sr_reader.specs.Reader.{next_is};
ghost use Rattle.sr_parser.specs.Reads.{ReadsStatementUpTo};
ghost use Rattle.sr_program_reader.specs.ComponentReaders.{begins_proc_item, final_at, proc_at, proc_block_at, proc_item_at, procedure_at, process_at};

use crate::after::word_after;
use crate::declaration::{const_decl, op_decl, sem_decl, var_decl};
use crate::ends::end_after;
use crate::lists::{Listed, list};
use crate::parts::{enclosed_names, returned_name};
use crate::quantifier::optional_quantifiers;
use crate::statement::statement;
use crate::words::next_is_statement;
use sr_parse_expr::types::signature;
use sr_parse_tokens::{ReadFail, name, next_is_word, word};
use sr_tree::{FinalCode, Proc, ProcItem, Procedure, Process, Token, Word};
use sr_value::Row;
use std::alloc::Global;

/// Whether the next token begins an item of a block.
fn next_is_proc_item(tokens: &[Token]) -> bool
    ensures { result ≡ next_is (λ t. begins_proc_item t.kind) tokens.now }
{
    next_is_word(tokens, Word::Const)
        || next_is_word(tokens, Word::Var)
        || next_is_word(tokens, Word::Op)
        || next_is_word(tokens, Word::Sem)
        || next_is_statement(tokens)
}

/// What may stand in the block of a proc, procedure or process, and in final code.
struct BlockOfProc;

impl Listed<ProcItem> for BlockOfProc {
    ghost use Rattle.sr_expr_reader.proofs.Yields.{steps-readers};
    ghost use Rattle.sr_program_reader.specs.StatementReaders.{statement_readers};

    ghost begins = { λ t. begins_proc_item t.kind };

    ghost reader = { λ k. proc_item_at (statement_readers k) };

    ghost steps = { λ k. (statement_readers k).types.expressions.steps };

    ghost bounded = { steps-readers };

    fn next_begins(tokens: &[Token]) -> bool {
        next_is_proc_item(tokens)
    }

    #[tactic(auto, unfolding(sr_program_reader::specs::ComponentReaders::proc_item_at))]
    fn item(alloc: Global, tokens: &[Token]) -> Result<(ProcItem, &[Token]), ReadFail> {
        if next_is_word(tokens, Word::Const) {
            let (decl, rest) = const_decl(alloc, tokens)?;
            Ok((ProcItem::Const(decl), rest))
        } else if next_is_word(tokens, Word::Var) {
            let (decl, rest) = var_decl(alloc, tokens)?;
            Ok((ProcItem::Var(decl), rest))
        } else if next_is_word(tokens, Word::Op) {
            let (decl, rest) = op_decl(alloc, tokens)?;
            Ok((ProcItem::Op(decl), rest))
        } else if next_is_word(tokens, Word::Sem) {
            let (decl, rest) = sem_decl(alloc, tokens)?;
            Ok((ProcItem::Sem(decl), rest))
        } else {
            let (statement, rest) = statement(alloc, tokens)?;
            Ok((ProcItem::Statement(statement), rest))
        }
    }
}

/// Reads the block of a proc, procedure or process, or of final code, after a tree.
#[tactic(auto, unfolding(sr_program_reader::specs::ComponentReaders::proc_block_at))]
fn proc_block_after<T: Drop>(
    alloc: Global,
    tree: T,
    tokens: &[Token],
) -> Result<(T, Row<ProcItem>, &[Token]), ReadFail>
    ensures reads { ReadsStatementUpTo (λ x. (x.1, x.2.now)) tokens.now result (λ r. proc_block_at r) }
    ensures kept { IfOk result (λ x. x.0 ≡ tree) }
    ensures shorter { IfOk result (λ x. length x.2.now ≤ length tokens.now) }
{
    let (block, rest) = list::<ProcItem, BlockOfProc>(alloc, tokens)?;
    Ok((tree, block, rest))
}

/// Reads a proc.
#[tactic(auto, unfolding(sr_program_reader::specs::ComponentReaders::proc_at))]
pub fn proc_decl(alloc: Global, tokens: &[Token]) -> Result<(Proc, &[Token]), ReadFail>
    ensures reads { ReadsStatementUpTo (λ x. (x.0, x.1.now)) tokens.now result (λ r. proc_at r) }
    ensures shorter { IfOk result (λ x. length x.1.now < length tokens.now) }
{
    let (span, rest) = word(tokens, Word::Proc)?;
    let (name, rest) = name(alloc, rest)?;
    let (formals, rest) = enclosed_names(alloc, rest)?;
    let (returned, rest) = returned_name(alloc, rest)?;
    let (before, block, rest) = proc_block_after(alloc, (formals, returned), rest)?;
    let (_, (before, block), rest) = end_after((before, block), &name, rest)?;
    let (formals, returned) = before;
    Ok((
        Proc {
            span,
            name,
            formals,
            returned,
            block,
        },
        rest,
    ))
}

/// Reads a procedure.
#[tactic(auto, unfolding(sr_program_reader::specs::ComponentReaders::procedure_at))]
pub fn procedure_decl(alloc: Global, tokens: &[Token]) -> Result<(Procedure, &[Token]), ReadFail>
    ensures reads { ReadsStatementUpTo (λ x. (x.0, x.1.now)) tokens.now result (λ r. procedure_at r) }
    ensures shorter { IfOk result (λ x. length x.1.now < length tokens.now) }
{
    let (span, rest) = word(tokens, Word::Procedure)?;
    let (name, rest) = name(alloc, rest)?;
    let (signature, rest) = signature(alloc, rest)?;
    let (signature, block, rest) = proc_block_after(alloc, signature, rest)?;
    let (_, (signature, block), rest) = end_after((signature, block), &name, rest)?;
    Ok((
        Procedure {
            span,
            name,
            signature,
            block,
        },
        rest,
    ))
}

/// Reads a process.
#[tactic(auto, unfolding(sr_program_reader::specs::ComponentReaders::process_at))]
pub fn process_decl(alloc: Global, tokens: &[Token]) -> Result<(Process, &[Token]), ReadFail>
    ensures reads { ReadsStatementUpTo (λ x. (x.0, x.1.now)) tokens.now result (λ r. process_at r) }
    ensures shorter { IfOk result (λ x. length x.1.now < length tokens.now) }
{
    let (span, rest) = word(tokens, Word::Process)?;
    let (name, rest) = name(alloc, rest)?;
    let (quantifiers, rest) = optional_quantifiers(alloc, rest)?;
    let (quantifiers, block, rest) = proc_block_after(alloc, quantifiers, rest)?;
    let (_, (quantifiers, block), rest) = end_after((quantifiers, block), &name, rest)?;
    Ok((
        Process {
            span,
            name,
            quantifiers,
            block,
        },
        rest,
    ))
}

/// Reads final code after a tree.
#[tactic(auto, unfolding(sr_program_reader::specs::ComponentReaders::final_at))]
pub fn final_code_after<T: Drop>(
    alloc: Global,
    tree: T,
    tokens: &[Token],
) -> Result<(T, FinalCode, &[Token]), ReadFail>
    ensures reads { ReadsStatementUpTo (λ x. (x.1, x.2.now)) tokens.now result (λ r. final_at r) }
    ensures kept { IfOk result (λ x. x.0 ≡ tree) }
    ensures shorter { IfOk result (λ x. length x.2.now < length tokens.now) }
{
    let (span, rest) = word(tokens, Word::Final)?;
    let (tree, block, rest) = proc_block_after(alloc, tree, rest)?;
    let (_, (tree, block), rest) = word_after((tree, block), rest, Word::End)?;
    Ok((tree, FinalCode { span, block }, rest))
}
