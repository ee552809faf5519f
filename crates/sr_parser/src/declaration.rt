ghost use Rattle.std.specs.Prelude.{◌≡◌, ◌<◌, ◌≤◌, length, IfOk};
ghost use Rattle.sr_parse_expr.specs.Reads.{ReadsTypeUpTo, ReadsUpTo};
ghost use Rattle.sr_program_reader.specs.DeclarationReaders.{const_at, import_at, initial_at, op_at, op_item_at, optional_type_at, optype_at, sem_at, semaphore_at, type_decl_at, values_at, var_at};

use crate::after::{expression_after, row_of};
use crate::commas::{Joined, list_from};
use sr_parse_expr::declared::{decls, names};
use sr_parse_expr::expression::{LOOSEST, more_arguments, operand};
use sr_parse_expr::pieces::qualified_name;
use sr_parse_expr::types::{plain_type, signature, type_tree};
use sr_parse_tokens::{ReadFail, name, next_is_sign, sign, sign_after, word};
use sr_tree::{
    ConstDecl, Expr, Import, OpDecl, OpItem, OpTypeDecl, SemDecl, Semaphore, Sign, Token, TypeDecl,
    TypeTree, VarDecl, Word,
};
use sr_value::Row;
use std::alloc::Global;

/// Reads `:` and a type, where they stand.
#[tactic(auto, unfolding(sr_program_reader::specs::DeclarationReaders::optional_type_at))]
fn optional_type(alloc: Global, tokens: &[Token]) -> Result<(Option<TypeTree>, &[Token]), ReadFail>
    ensures reads { ReadsTypeUpTo (λ x. (x.0, x.1.now)) tokens.now result (λ r. optional_type_at r) }
    ensures shorter { IfOk result (λ x. length x.1.now ≤ length tokens.now) }
{
    if next_is_sign(tokens, Sign::Colon) {
        let (_, rest) = sign(tokens, Sign::Colon)?;
        let (ty, rest) = plain_type(alloc, rest)?;
        Ok((Some(ty), rest))
    } else {
        Ok((None, tokens))
    }
}

/// Reads an import.
#[tactic(auto, unfolding(sr_program_reader::specs::DeclarationReaders::import_at))]
pub fn import_decl(alloc: Global, tokens: &[Token]) -> Result<(Import, &[Token]), ReadFail>
    ensures reads { ReadsUpTo (λ x. (x.0, x.1.now)) tokens.now result (λ r. import_at r) }
    ensures shorter { IfOk result (λ x. length x.1.now < length tokens.now) }
{
    let (span, rest) = word(tokens, Word::Import)?;
    let (names, rest) = names(alloc, rest)?;
    Ok((Import { span, names }, rest))
}

/// Reads a constant.
#[tactic(auto, unfolding(sr_program_reader::specs::DeclarationReaders::const_at))]
pub fn const_decl(alloc: Global, tokens: &[Token]) -> Result<(ConstDecl, &[Token]), ReadFail>
    ensures reads { ReadsTypeUpTo (λ x. (x.0, x.1.now)) tokens.now result (λ r. const_at r) }
    ensures shorter { IfOk result (λ x. length x.1.now < length tokens.now) }
{
    let (span, rest) = word(tokens, Word::Const)?;
    let (name, rest) = name(alloc, rest)?;
    let (ty, rest) = optional_type(alloc, rest)?;
    let (_, ty, rest) = sign_after(ty, rest, Sign::Assign)?;
    let (ty, value, rest) = expression_after(alloc, ty, rest)?;
    Ok((
        ConstDecl {
            span,
            name,
            ty,
            value,
        },
        rest,
    ))
}

/// Reads the declaration of a type.
#[tactic(auto, unfolding(sr_program_reader::specs::DeclarationReaders::type_decl_at))]
pub fn type_decl(alloc: Global, tokens: &[Token]) -> Result<(TypeDecl, &[Token]), ReadFail>
    ensures reads { ReadsTypeUpTo (λ x. (x.0, x.1.now)) tokens.now result (λ r. type_decl_at r) }
    ensures shorter { IfOk result (λ x. length x.1.now < length tokens.now) }
{
    let (span, rest) = word(tokens, Word::Type)?;
    let (name, rest) = name(alloc, rest)?;
    let (_, rest) = sign(rest, Sign::Equal)?;
    let (ty, rest) = type_tree(alloc, rest)?;
    Ok((TypeDecl { span, name, ty }, rest))
}

/// Reads the declaration of an operation type.
#[tactic(auto, unfolding(sr_program_reader::specs::DeclarationReaders::optype_at))]
pub fn optype_decl(alloc: Global, tokens: &[Token]) -> Result<(OpTypeDecl, &[Token]), ReadFail>
    ensures reads { ReadsTypeUpTo (λ x. (x.0, x.1.now)) tokens.now result (λ r. optype_at r) }
    ensures shorter { IfOk result (λ x. length x.1.now < length tokens.now) }
{
    let (span, rest) = word(tokens, Word::OpType)?;
    let (name, rest) = name(alloc, rest)?;
    let (_, rest) = sign(rest, Sign::Equal)?;
    let (signature, rest) = signature(alloc, rest)?;
    Ok((
        OpTypeDecl {
            span,
            name,
            signature,
        },
        rest,
    ))
}

/// Operations with commas between.
struct OpItemList;

impl Joined<OpItem> for OpItemList {
    ghost use Rattle.sr_expr_reader.proofs.Yields.{steps-readers};
    ghost use Rattle.sr_expr_reader.specs.TypeReaders.{type_readers};

    ghost reader = { λ k. op_item_at (type_readers k) };

    ghost steps = { λ k. (type_readers k).expressions.steps };

    ghost bounded = { steps-readers };

    #[tactic(auto, unfolding(sr_program_reader::specs::DeclarationReaders::op_item_at))]
    fn item(alloc: Global, tokens: &[Token]) -> Result<(OpItem, &[Token]), ReadFail> {
        let (name, rest) = name(alloc, tokens)?;
        let span = name.span;
        if next_is_sign(rest, Sign::Colon) {
            let (_, rest) = sign(rest, Sign::Colon)?;
            let (optype, rest) = qualified_name(alloc, rest)?;
            Ok((OpItem::Typed { span, name, optype }, rest))
        } else {
            let (signature, rest) = signature(alloc, rest)?;
            Ok((
                OpItem::Signed {
                    span,
                    name,
                    signature,
                },
                rest,
            ))
        }
    }
}

/// Reads the declaration of operations.
#[tactic(auto, unfolding(sr_program_reader::specs::DeclarationReaders::op_at, sr_program_reader::specs::DeclarationReaders::more_op_items_at, sr_program_reader::specs::DeclarationReaders::next_op_item_at, crate::specs::Commas::more_at, crate::specs::Commas::next_at))]
pub fn op_decl(alloc: Global, tokens: &[Token]) -> Result<(OpDecl, &[Token]), ReadFail>
    ensures reads { ReadsTypeUpTo (λ x. (x.0, x.1.now)) tokens.now result (λ r. op_at r) }
    ensures shorter { IfOk result (λ x. length x.1.now < length tokens.now) }
{
    let (span, rest) = word(tokens, Word::Op)?;
    let (first, rest) = OpItemList::item(alloc, rest)?;
    let (items, rest) = list_from::<OpItem, OpItemList>(alloc, first, rest)?;
    Ok((OpDecl { span, items }, rest))
}

/// Reads `:=` and values after a type, where they stand, and hands the type back.
#[tactic(auto, unfolding(sr_program_reader::specs::DeclarationReaders::values_at))]
fn values<T: Drop>(
    alloc: Global,
    ty: T,
    tokens: &[Token],
) -> Result<(T, Row<Expr>, &[Token]), ReadFail>
    ensures reads { ReadsUpTo (λ x. (x.1, x.2.now)) tokens.now result (λ r. values_at r) }
    ensures kept { IfOk result (λ x. x.0 ≡ ty) }
    ensures shorter { IfOk result (λ x. length x.2.now ≤ length tokens.now) }
{
    if next_is_sign(tokens, Sign::Assign) {
        let (_, rest) = sign(tokens, Sign::Assign)?;
        let (first, rest) = operand(alloc, LOOSEST, rest)?;
        let values = row_of(alloc, first)?;
        let (values, rest) = more_arguments(alloc, values, rest)?;
        Ok((ty, values, rest))
    } else {
        Ok((ty, Row::new(alloc), tokens))
    }
}

/// Reads the declaration of variables.
#[tactic(auto, unfolding(sr_program_reader::specs::DeclarationReaders::var_at))]
pub fn var_decl(alloc: Global, tokens: &[Token]) -> Result<(VarDecl, &[Token]), ReadFail>
    ensures reads { ReadsTypeUpTo (λ x. (x.0, x.1.now)) tokens.now result (λ r. var_at r) }
    ensures shorter { IfOk result (λ x. length x.1.now < length tokens.now) }
{
    let (span, rest) = word(tokens, Word::Var)?;
    let (decls, rest) = decls(alloc, rest)?;
    let (ty, rest) = optional_type(alloc, rest)?;
    let ((decls, ty), values, rest) = values(alloc, (decls, ty), rest)?;
    Ok((
        VarDecl {
            span,
            decls,
            ty,
            values,
        },
        rest,
    ))
}

/// Reads `:=` and the value that a semaphore begins with, where they stand.
#[tactic(auto, unfolding(sr_program_reader::specs::DeclarationReaders::initial_at))]
fn initial(alloc: Global, tokens: &[Token]) -> Result<(Option<Expr>, &[Token]), ReadFail>
    ensures reads { ReadsUpTo (λ x. (x.0, x.1.now)) tokens.now result (λ r. initial_at r) }
    ensures shorter { IfOk result (λ x. length x.1.now ≤ length tokens.now) }
{
    if next_is_sign(tokens, Sign::Assign) {
        let (_, rest) = sign(tokens, Sign::Assign)?;
        let (value, rest) = operand(alloc, LOOSEST, rest)?;
        Ok((Some(value), rest))
    } else {
        Ok((None, tokens))
    }
}

/// Semaphores with commas between.
struct SemaphoreList;

impl Joined<Semaphore> for SemaphoreList {
    ghost use Rattle.sr_expr_reader.proofs.Yields.{steps-readers};
    ghost use Rattle.sr_expr_reader.specs.Readers.{readers};

    ghost reader = { λ k. semaphore_at (readers k) };

    ghost steps = { λ k. (readers k).steps };

    ghost bounded = { steps-readers };

    #[tactic(auto, unfolding(sr_program_reader::specs::DeclarationReaders::semaphore_at))]
    fn item(alloc: Global, tokens: &[Token]) -> Result<(Semaphore, &[Token]), ReadFail> {
        let (name, rest) = name(alloc, tokens)?;
        let span = name.span;
        let (value, rest) = initial(alloc, rest)?;
        Ok((Semaphore { span, name, value }, rest))
    }
}

/// Reads the declaration of semaphores.
#[tactic(auto, unfolding(sr_program_reader::specs::DeclarationReaders::sem_at, sr_program_reader::specs::DeclarationReaders::more_semaphores_at, sr_program_reader::specs::DeclarationReaders::next_semaphore_at, crate::specs::Commas::more_at, crate::specs::Commas::next_at))]
pub fn sem_decl(alloc: Global, tokens: &[Token]) -> Result<(SemDecl, &[Token]), ReadFail>
    ensures reads { ReadsUpTo (λ x. (x.0, x.1.now)) tokens.now result (λ r. sem_at r) }
    ensures shorter { IfOk result (λ x. length x.1.now < length tokens.now) }
{
    let (span, rest) = word(tokens, Word::Sem)?;
    let (first, rest) = SemaphoreList::item(alloc, rest)?;
    let (semaphores, rest) = list_from::<Semaphore, SemaphoreList>(alloc, first, rest)?;
    Ok((SemDecl { span, semaphores }, rest))
}
