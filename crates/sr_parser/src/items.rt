ghost use Rattle.std.specs.Prelude.{◌≡◌, ◌<◌, ◌≤◌, length, IfOk};
ghost use Rattle.sr_reader.specs.Reader.{next_is};
ghost use Rattle.sr_parser.specs.Reads.{ReadsStatementUpTo};
ghost use Rattle.sr_program_reader.specs.ComponentReaders.{begins_item, final_and_items_at, is_final_code, item_at, resource_items_at};

use crate::after::pushed;
use crate::block::{final_code_after, proc_decl, procedure_decl, process_decl};
use crate::lists::{Listed, items_after};
use crate::spec::{GlobalSpec, next_is_spec};
use crate::statement::statement;
use crate::words::next_is_statement;
use sr_parse_tokens::{ReadFail, next_is_word};
use sr_tree::{Item, Token, Word};
use sr_value::Row;
use std::alloc::Global;

/// Whether the next token begins an item other than final code.
fn next_is_item(tokens: &[Token]) -> bool
    ensures { result ≡ next_is (λ t. begins_item t.kind) tokens.now }
{
    next_is_spec(tokens)
        || next_is_word(tokens, Word::Proc)
        || next_is_word(tokens, Word::Procedure)
        || next_is_word(tokens, Word::Process)
        || next_is_statement(tokens)
}

/// What may stand in a component outside its spec, other than final code.
pub struct PlainItems;

impl Listed<Item> for PlainItems {
    ghost use Rattle.sr_expr_reader.proofs.Yields.{steps-readers};
    ghost use Rattle.sr_program_reader.specs.StatementReaders.{statement_readers};

    ghost begins = { λ t. begins_item t.kind };

    ghost reader = { λ k. item_at (statement_readers k) };

    ghost steps = { λ k. (statement_readers k).types.expressions.steps };

    ghost bounded = { steps-readers };

    fn next_begins(tokens: &[Token]) -> bool {
        next_is_item(tokens)
    }

    #[tactic(auto, unfolding(sr_program_reader::specs::ComponentReaders::item_at))]
    fn item(alloc: Global, tokens: &[Token]) -> Result<(Item, &[Token]), ReadFail> {
        if next_is_spec(tokens) {
            let (item, rest) = GlobalSpec::item(alloc, tokens)?;
            Ok((Item::Spec(item), rest))
        } else if next_is_word(tokens, Word::Proc) {
            let (proc, rest) = proc_decl(alloc, tokens)?;
            Ok((Item::Proc(proc), rest))
        } else if next_is_word(tokens, Word::Procedure) {
            let (procedure, rest) = procedure_decl(alloc, tokens)?;
            Ok((Item::Procedure(procedure), rest))
        } else if next_is_word(tokens, Word::Process) {
            let (process, rest) = process_decl(alloc, tokens)?;
            Ok((Item::Process(process), rest))
        } else {
            let (statement, rest) = statement(alloc, tokens)?;
            Ok((Item::Statement(statement), rest))
        }
    }
}

/// Whether final code stands next where an item may begin.
fn next_is_final(state: &(Row<Item>, bool), tokens: &[Token]) -> bool
    ensures { result ≡ next_is (is_final_code state.now) tokens.now }
{
    state.1 && next_is_word(tokens, Word::Final)
}

/// Reads final code and the items after it, after others.
#[tactic(auto, unfolding(sr_program_reader::specs::ComponentReaders::final_and_items_at, sr_program_reader::specs::ComponentReaders::plain_items_at))]
fn final_and_items(
    alloc: Global,
    before: Row<Item>,
    tokens: &[Token],
) -> Result<(Row<Item>, &[Token]), ReadFail>
    ensures reads { ReadsStatementUpTo (λ x. (x.0, x.1.now)) tokens.now result (λ r. final_and_items_at r before) }
    ensures shorter { IfOk result (λ x. length x.1.now < length tokens.now) }
{
    let (before, code, rest) = final_code_after(alloc, before, tokens)?;
    let items = pushed(before, Item::Final(code))?;
    let ((items, _), rest) = items_after::<Item, PlainItems>(alloc, (items, false), rest)?;
    Ok((items, rest))
}

/// Reads the items of a resource after a tree.
#[tactic(auto, unfolding(sr_program_reader::specs::ComponentReaders::resource_items_at, sr_program_reader::specs::ComponentReaders::plain_items_at))]
pub fn resource_items_after<T: Drop>(
    alloc: Global,
    tree: T,
    tokens: &[Token],
) -> Result<(T, Row<Item>, &[Token]), ReadFail>
    ensures reads { ReadsStatementUpTo (λ x. (x.1, x.2.now)) tokens.now result (λ r. resource_items_at r) }
    ensures kept { IfOk result (λ x. x.0 ≡ tree) }
    ensures shorter { IfOk result (λ x. length x.2.now ≤ length tokens.now) }
{
    let (state, rest) = items_after::<Item, PlainItems>(alloc, (Row::new(alloc), true), tokens)?;
    if next_is_final(&state, rest) {
        let (items, rest) = final_and_items(alloc, state.0, rest)?;
        Ok((tree, items, rest))
    } else {
        Ok((tree, state.0, rest))
    }
}
