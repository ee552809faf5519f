ghost use Rattle.std.specs.Prelude.{◌≡◌};
ghost use Rattle.sr_reader.specs.Reader.{next_is};
ghost use Rattle.sr_program_reader.specs.ComponentReaders.{begins_resource_spec, begins_spec, resource_spec_item_at, spec_item_at};

use crate::declaration::{
    const_decl, import_decl, op_decl, optype_decl, sem_decl, type_decl, var_decl,
};
use crate::lists::Listed;
use sr_parse_tokens::{ReadFail, next_is_word};
use sr_tree::{SpecItem, Token, Word};
use std::alloc::Global;

/// Whether the next token begins what may stand in the spec of a resource.
pub fn next_is_resource_spec(tokens: &[Token]) -> bool
    ensures { result ≡ next_is (λ t. begins_resource_spec t.kind) tokens.now }
{
    next_is_word(tokens, Word::Import)
        || next_is_word(tokens, Word::Const)
        || next_is_word(tokens, Word::Type)
        || next_is_word(tokens, Word::OpType)
        || next_is_word(tokens, Word::Op)
}

/// Whether the next token begins what may stand in the spec of a global.
pub fn next_is_spec(tokens: &[Token]) -> bool
    ensures { result ≡ next_is (λ t. begins_spec t.kind) tokens.now }
{
    next_is_resource_spec(tokens)
        || next_is_word(tokens, Word::Var)
        || next_is_word(tokens, Word::Sem)
}

/// What may stand in the spec of a resource.
pub struct ResourceSpec;

impl Listed<SpecItem> for ResourceSpec {
    ghost use Rattle.sr_expr_reader.proofs.Yields.{steps-readers};
    ghost use Rattle.sr_expr_reader.specs.TypeReaders.{type_readers};

    ghost begins = { λ t. begins_resource_spec t.kind };

    ghost reader = { λ k. resource_spec_item_at (type_readers k) };

    ghost steps = { λ k. (type_readers k).expressions.steps };

    ghost bounded = { steps-readers };

    fn next_begins(tokens: &[Token]) -> bool {
        next_is_resource_spec(tokens)
    }

    #[tactic(auto, unfolding(sr_program_reader::specs::ComponentReaders::resource_spec_item_at))]
    fn item(alloc: Global, tokens: &[Token]) -> Result<(SpecItem, &[Token]), ReadFail> {
        if next_is_word(tokens, Word::Import) {
            let (decl, rest) = import_decl(alloc, tokens)?;
            Ok((SpecItem::Import(decl), rest))
        } else if next_is_word(tokens, Word::Const) {
            let (decl, rest) = const_decl(alloc, tokens)?;
            Ok((SpecItem::Const(decl), rest))
        } else if next_is_word(tokens, Word::Type) {
            let (decl, rest) = type_decl(alloc, tokens)?;
            Ok((SpecItem::Type(decl), rest))
        } else if next_is_word(tokens, Word::OpType) {
            let (decl, rest) = optype_decl(alloc, tokens)?;
            Ok((SpecItem::OpType(decl), rest))
        } else {
            let (decl, rest) = op_decl(alloc, tokens)?;
            Ok((SpecItem::Op(decl), rest))
        }
    }
}

/// What may stand in the spec of a global.
pub struct GlobalSpec;

impl Listed<SpecItem> for GlobalSpec {
    ghost use Rattle.sr_expr_reader.proofs.Yields.{steps-readers};
    ghost use Rattle.sr_expr_reader.specs.TypeReaders.{type_readers};

    ghost begins = { λ t. begins_spec t.kind };

    ghost reader = { λ k. spec_item_at (type_readers k) };

    ghost steps = { λ k. (type_readers k).expressions.steps };

    ghost bounded = { steps-readers };

    fn next_begins(tokens: &[Token]) -> bool {
        next_is_spec(tokens)
    }

    #[tactic(auto, unfolding(sr_program_reader::specs::ComponentReaders::spec_item_at))]
    fn item(alloc: Global, tokens: &[Token]) -> Result<(SpecItem, &[Token]), ReadFail> {
        if next_is_word(tokens, Word::Var) {
            let (decl, rest) = var_decl(alloc, tokens)?;
            Ok((SpecItem::Var(decl), rest))
        } else if next_is_word(tokens, Word::Sem) {
            let (decl, rest) = sem_decl(alloc, tokens)?;
            Ok((SpecItem::Sem(decl), rest))
        } else {
            ResourceSpec::item(alloc, tokens)
        }
    }
}
