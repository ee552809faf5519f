ghost use Rattle.std.specs.Prelude.{◌≡◌, ◌<◌, ◌≤◌, length, None, IfOk, option_map};
ghost use Rattle.sr_tree.specs.declared.types.TypePlace.TheVariants.{Declaration};
ghost use Rattle.sr_parse_expr.specs.Reads.{ReadsTypeBelowIn, ReadsTypeIn, ReadsTypeUpTo, ReadsUpTo};
ghost use Rattle.sr_expr_reader.specs.TypeReaders.{array_type_at, cap_at, enum_at, formal_at, formal_after_at, formal_start, formals_at, formals_after_at, more_fields_at, more_formals_at, next_field_at, next_formal_at, plain_type_at, record_type_at, returned_at, signature_at, string_at, type_at};

use crate::declared::{boxed_decl, boxed_dims, decls, names};
use crate::expression::expression;
use crate::pieces::qualified_name;
use crate::type_words::{mode, next_is_basic, own_kinds, read_basic};
use sr_parse_tokens::{
    ReadFail, next_is_separator, next_is_sign, next_is_word, separator, sign, sign_after, word,
};
use sr_tree::{
    Decl, Formal, PassMode, Returned, Sign, Signature, Token, TypePlace, TypeTree, Word,
};
use sr_value::{Boxed, Row, Span};
use std::alloc::Global;

/// Reads a type after a token.
#[cycle(types)]
fn nested_type(
    alloc: Global,
    place: TypePlace,
    tokens: &[Token],
) -> Result<(TypeTree, &[Token]), ReadFail>
    ensures reads { ReadsTypeBelowIn place (λ x. (x.0, x.1.now)) tokens.now result (λ r. r.nested) }
    ensures shorter { IfOk result (λ x. length x.1.now < length tokens.now) }
{
    match place {
        TypePlace::Declaration => type_tree(alloc, tokens),
        TypePlace::Elsewhere => plain_type_in(alloc, place, tokens),
    }
}

/// Reads a type that declares neither an enumeration nor a record.
pub fn plain_type(alloc: Global, tokens: &[Token]) -> Result<(TypeTree, &[Token]), ReadFail>
    ensures reads { ReadsTypeUpTo (λ x. (x.0, x.1.now)) tokens.now result (λ r. plain_type_at r) }
    ensures shorter { IfOk result (λ x. length x.1.now < length tokens.now) }
{
    plain_type_in(alloc, TypePlace::Elsewhere, tokens)
}

/// Reads a type that is neither an enumeration nor a record. Its parts may be, where that may be declared.
#[cycle(types)]
#[tactic(auto, unfolding(sr_expr_reader::specs::TypeReaders::plain_type_at))]
fn plain_type_in(
    alloc: Global,
    place: TypePlace,
    tokens: &[Token],
) -> Result<(TypeTree, &[Token]), ReadFail>
    ensures reads { ReadsTypeIn place (λ x. (x.0, x.1.now)) tokens.now result (λ r. plain_type_at r) }
    ensures shorter { IfOk result (λ x. length x.1.now < length tokens.now) }
{
    if next_is_basic(tokens) {
        read_basic(tokens)
    } else if next_is_word(tokens, Word::String) {
        string_type(alloc, tokens)
    } else if next_is_word(tokens, Word::Cap) {
        cap_type(alloc, place, tokens)
    } else if next_is_sign(tokens, Sign::OpenBracket) {
        array_type(alloc, place, tokens)
    } else {
        let (name, rest) = qualified_name(alloc, tokens)?;
        let span = name.span;
        Ok((TypeTree::Named { span, name }, rest))
    }
}

/// Reads the type of strings of a length, or of any.
#[tactic(auto, unfolding(sr_expr_reader::specs::TypeReaders::string_at))]
fn string_type(alloc: Global, tokens: &[Token]) -> Result<(TypeTree, &[Token]), ReadFail>
    ensures reads { ReadsUpTo (λ x. (x.0, x.1.now)) tokens.now result (λ r. string_at r) }
    ensures shorter { IfOk result (λ x. length x.1.now < length tokens.now) }
{
    let (span, rest) = word(tokens, Word::String)?;
    let (_, rest) = sign(rest, Sign::OpenBracket)?;
    if next_is_sign(rest, Sign::Star) {
        let (_, rest) = sign(rest, Sign::Star)?;
        let (_, rest) = sign(rest, Sign::CloseBracket)?;
        let length = None;
        Ok((TypeTree::Str { span, length }, rest))
    } else {
        let (length, rest) = expression(alloc, rest)?;
        let (_, length, rest) = sign_after(length, rest, Sign::CloseBracket)?;
        let length = Some(length);
        Ok((TypeTree::Str { span, length }, rest))
    }
}

/// Reads the type of capabilities of a machine, of an operation, or of a named type.
#[cycle(types)]
#[tactic(auto, unfolding(sr_expr_reader::specs::TypeReaders::cap_at))]
fn cap_type(
    alloc: Global,
    place: TypePlace,
    tokens: &[Token],
) -> Result<(TypeTree, &[Token]), ReadFail>
    ensures reads { ReadsTypeIn place (λ x. (x.0, x.1.now)) tokens.now result (λ r. cap_at r) }
    ensures shorter { IfOk result (λ x. length x.1.now < length tokens.now) }
{
    let (span, rest) = word(tokens, Word::Cap)?;
    if next_is_word(rest, Word::Vm) {
        let (_, rest) = word(rest, Word::Vm)?;
        Ok((TypeTree::CapMachine { span }, rest))
    } else if next_is_sign(rest, Sign::OpenParen) {
        let (signature, rest) = signature_in(alloc, place, rest)?;
        Ok((TypeTree::CapOperation { span, signature }, rest))
    } else {
        let (name, rest) = qualified_name(alloc, rest)?;
        Ok((TypeTree::CapOf { span, name }, rest))
    }
}

/// Reads dimensions and the type of the items after them.
#[cycle(types)]
#[tactic(auto, unfolding(sr_expr_reader::specs::TypeReaders::array_type_at))]
fn array_type(
    alloc: Global,
    place: TypePlace,
    tokens: &[Token],
) -> Result<(TypeTree, &[Token]), ReadFail>
    ensures reads { ReadsTypeIn place (λ x. (x.0, x.1.now)) tokens.now result (λ r. array_type_at r) }
    ensures shorter { IfOk result (λ x. length x.1.now < length tokens.now) }
{
    let (dims, rest) = boxed_dims(alloc, tokens)?;
    let (item, rest) = nested_type(alloc, place, rest)?;
    let item = Boxed::new(alloc, item)?;
    let dims = dims.into_inner();
    let span = dims.span;
    Ok((TypeTree::Array { span, dims, item }, rest))
}

/// Reads a signature whose types declare nothing.
pub fn signature(alloc: Global, tokens: &[Token]) -> Result<(Signature, &[Token]), ReadFail>
    ensures reads { ReadsTypeUpTo (λ x. (x.0, x.1.now)) tokens.now result (λ r. signature_at r) }
    ensures shorter { IfOk result (λ x. length x.1.now < length tokens.now) }
{
    signature_in(alloc, TypePlace::Elsewhere, tokens)
}

/// Reads a signature.
#[cycle(types)]
#[tactic(auto, unfolding(sr_expr_reader::specs::TypeReaders::signature_at))]
fn signature_in(
    alloc: Global,
    place: TypePlace,
    tokens: &[Token],
) -> Result<(Signature, &[Token]), ReadFail>
    ensures reads { ReadsTypeIn place (λ x. (x.0, x.1.now)) tokens.now result (λ r. signature_at r) }
    ensures shorter { IfOk result (λ x. length x.1.now < length tokens.now) }
{
    let (span, rest) = sign(tokens, Sign::OpenParen)?;
    let (formals, rest) = formals_after(alloc, place, rest)?;
    let (returned, rest) = returned(alloc, place, rest)?;
    let (returned, kinds, rest) = own_kinds(alloc, returned, rest)?;
    Ok((
        Signature {
            span,
            formals,
            returned,
            kinds,
        },
        rest,
    ))
}

/// Reads formals in parentheses.
#[tactic(auto, unfolding(sr_expr_reader::specs::TypeReaders::formals_at))]
pub fn formals(alloc: Global, tokens: &[Token]) -> Result<(Row<Formal>, &[Token]), ReadFail>
    ensures reads { ReadsTypeUpTo (λ x. (x.0, x.1.now)) tokens.now result (λ r. formals_at r) }
    ensures shorter { IfOk result (λ x. length x.1.now < length tokens.now) }
{
    let (_, rest) = sign(tokens, Sign::OpenParen)?;
    formals_after(alloc, TypePlace::Elsewhere, rest)
}

/// Reads formals and the closing parenthesis, after the opening one.
#[cycle(types)]
#[tactic(auto, unfolding(sr_expr_reader::specs::TypeReaders::formals_after_at))]
fn formals_after(
    alloc: Global,
    place: TypePlace,
    tokens: &[Token],
) -> Result<(Row<Formal>, &[Token]), ReadFail>
    ensures reads { ReadsTypeIn place (λ x. (x.0, x.1.now)) tokens.now result (λ r. formals_after_at r) }
    ensures shorter { IfOk result (λ x. length x.1.now < length tokens.now) }
{
    let mut first = Row::new(alloc);
    if next_is_sign(tokens, Sign::CloseParen) {
        let (_, rest) = sign(tokens, Sign::CloseParen)?;
        return Ok((first, rest));
    }
    let (next, rest) = formal_in(alloc, place, tokens)?;
    first.push(next)?;
    let (formals, rest) = more_formals(alloc, place, first, rest)?;
    let (_, rest) = sign(rest, Sign::CloseParen)?;
    Ok((formals, rest))
}

/// Reads further formals, each after a separator.
#[cycle(types)]
#[tactic(auto, unfolding(sr_expr_reader::specs::TypeReaders::more_formals_at))]
fn more_formals(
    alloc: Global,
    place: TypePlace,
    first: Row<Formal>,
    tokens: &[Token],
) -> Result<(Row<Formal>, &[Token]), ReadFail>
    ensures reads { ReadsTypeIn place (λ x. (x.0, x.1.now)) tokens.now result (λ r. more_formals_at r first) }
    ensures shorter { IfOk result (λ x. length x.1.now ≤ length tokens.now) }
{
    let mut formals = first;
    let mut rest = tokens;
    'more: while next_is_separator(rest) {
        let (more, after) = next_formal(alloc, place, formals, rest)?;
        formals = more;
        rest = after;
    }
    Ok((formals, rest))
}

/// Reads a separator and a formal, and appends it.
#[cycle(types)]
#[tactic(auto, unfolding(sr_expr_reader::specs::TypeReaders::next_formal_at))]
fn next_formal(
    alloc: Global,
    place: TypePlace,
    formals: Row<Formal>,
    tokens: &[Token],
) -> Result<(Row<Formal>, &[Token]), ReadFail>
    ensures reads { ReadsTypeIn place (λ x. (x.0, x.1.now)) tokens.now result (λ r. next_formal_at r formals) }
    ensures shorter { IfOk result (λ x. length x.1.now < length tokens.now) }
{
    let mut formals = formals;
    let (_, rest) = separator(tokens)?;
    let (next, rest) = formal_in(alloc, place, rest)?;
    formals.push(next)?;
    Ok((formals, rest))
}

/// Reads formals of one type that declares nothing.
pub fn formal(alloc: Global, tokens: &[Token]) -> Result<(Formal, &[Token]), ReadFail>
    ensures reads { ReadsTypeUpTo (λ x. (x.0, x.1.now)) tokens.now result (λ r. formal_at r) }
    ensures shorter { IfOk result (λ x. length x.1.now < length tokens.now) }
{
    formal_in(alloc, TypePlace::Elsewhere, tokens)
}

/// Reads formals of one type.
#[cycle(types)]
#[tactic(auto, unfolding(sr_expr_reader::specs::TypeReaders::formal_at))]
fn formal_in(
    alloc: Global,
    place: TypePlace,
    tokens: &[Token],
) -> Result<(Formal, &[Token]), ReadFail>
    ensures reads { ReadsTypeIn place (λ x. (x.0, x.1.now)) tokens.now result (λ r. formal_at r) }
    ensures shorter { IfOk result (λ x. length x.1.now < length tokens.now) }
{
    let (mode, rest) = mode(tokens)?;
    formal_after(alloc, place, mode, rest)
}

/// Reads formals of one type, after the word for how they are passed where one stands.
#[cycle(types)]
#[tactic(auto, unfolding(sr_expr_reader::specs::TypeReaders::formal_after_at))]
fn formal_after(
    alloc: Global,
    place: TypePlace,
    mode: Option<(Span, PassMode)>,
    tokens: &[Token],
) -> Result<(Formal, &[Token]), ReadFail>
    ensures reads { ReadsTypeIn place (λ x. (x.0, x.1.now)) tokens.now result (λ r. formal_after_at r mode) }
    ensures shorter { IfOk result (λ x. length x.1.now < length tokens.now) }
{
    let (decls, rest) = decls(alloc, tokens)?;
    let (_, rest) = sign(rest, Sign::Colon)?;
    let (ty, rest) = nested_type(alloc, place, rest)?;
    let span = formal_span(&mode, decls.as_slice());
    let mode = mode_alone(mode);
    Ok((
        Formal {
            span,
            mode,
            decls,
            ty,
        },
        rest,
    ))
}

/// The span of the first token of formals.
fn formal_span(mode: &Option<(Span, PassMode)>, decls: &[Decl]) -> Span
    ensures { result ≡ formal_start mode.now decls.now }
{
    match mode {
        Some((span, _)) => *span,
        None => match decls {
            [] => Span {
                file: 0,
                from: 0,
                to: 0,
                line: 0,
            },
            [first, ..] => first.span,
        },
    }
}

/// How an argument is passed, without the span of the word.
fn mode_alone(mode: Option<(Span, PassMode)>) -> Option<PassMode>
    ensures { result ≡ option_map (λ x. x.1) mode }
{
    match mode {
        Some((_, mode)) => Some(mode),
        None => None,
    }
}

/// Reads what an operation returns, where it is said.
#[cycle(types)]
#[tactic(auto, unfolding(sr_expr_reader::specs::TypeReaders::returned_at))]
fn returned(
    alloc: Global,
    place: TypePlace,
    tokens: &[Token],
) -> Result<(Option<Returned>, &[Token]), ReadFail>
    ensures reads { ReadsTypeIn place (λ x. (x.0, x.1.now)) tokens.now result (λ r. returned_at r) }
    ensures shorter { IfOk result (λ x. length x.1.now ≤ length tokens.now) }
{
    if next_is_word(tokens, Word::Returns) {
        let (span, rest) = word(tokens, Word::Returns)?;
        let (decl, rest) = boxed_decl(alloc, rest)?;
        let (_, rest) = sign(rest, Sign::Colon)?;
        let (ty, rest) = nested_type(alloc, place, rest)?;
        let ty = Boxed::new(alloc, ty)?;
        let decl = decl.into_inner();
        Ok((Some(Returned { span, decl, ty }), rest))
    } else {
        Ok((None, tokens))
    }
}

/// Reads a type of which each part may declare an enumeration or a record.
#[cycle(types)]
#[tactic(auto, unfolding(sr_expr_reader::specs::TypeReaders::type_at))]
pub fn type_tree(alloc: Global, tokens: &[Token]) -> Result<(TypeTree, &[Token]), ReadFail>
    ensures reads { ReadsTypeUpTo (λ x. (x.0, x.1.now)) tokens.now result (λ r. type_at r) }
    ensures shorter { IfOk result (λ x. length x.1.now < length tokens.now) }
{
    if next_is_word(tokens, Word::Enum) {
        enumeration(alloc, tokens)
    } else if next_is_word(tokens, Word::Rec) {
        record_type(alloc, tokens)
    } else {
        plain_type_in(alloc, TypePlace::Declaration, tokens)
    }
}

/// Reads the literals of an enumeration.
#[tactic(auto, unfolding(sr_expr_reader::specs::TypeReaders::enum_at))]
fn enumeration(alloc: Global, tokens: &[Token]) -> Result<(TypeTree, &[Token]), ReadFail>
    ensures reads { ReadsUpTo (λ x. (x.0, x.1.now)) tokens.now result (λ r. enum_at r) }
    ensures shorter { IfOk result (λ x. length x.1.now < length tokens.now) }
{
    let (span, rest) = word(tokens, Word::Enum)?;
    let (_, rest) = sign(rest, Sign::OpenParen)?;
    let (literals, rest) = names(alloc, rest)?;
    let (_, rest) = sign(rest, Sign::CloseParen)?;
    Ok((TypeTree::Enum { span, literals }, rest))
}

/// Reads the fields of a record.
#[cycle(types)]
#[tactic(auto, unfolding(sr_expr_reader::specs::TypeReaders::record_type_at))]
fn record_type(alloc: Global, tokens: &[Token]) -> Result<(TypeTree, &[Token]), ReadFail>
    ensures reads { ReadsTypeIn Declaration (λ x. (x.0, x.1.now)) tokens.now result (λ r. record_type_at r) }
    ensures shorter { IfOk result (λ x. length x.1.now < length tokens.now) }
{
    let (span, rest) = word(tokens, Word::Rec)?;
    let (_, rest) = sign(rest, Sign::OpenParen)?;
    let (first, rest) = formal_after(alloc, TypePlace::Declaration, None, rest)?;
    let mut fields = Row::new(alloc);
    fields.push(first)?;
    let (fields, rest) = more_fields(alloc, fields, rest)?;
    let (_, rest) = sign(rest, Sign::CloseParen)?;
    Ok((TypeTree::Rec { span, fields }, rest))
}

/// Reads further fields of a record, each after a separator.
#[cycle(types)]
#[tactic(auto, unfolding(sr_expr_reader::specs::TypeReaders::more_fields_at))]
fn more_fields(
    alloc: Global,
    first: Row<Formal>,
    tokens: &[Token],
) -> Result<(Row<Formal>, &[Token]), ReadFail>
    ensures reads { ReadsTypeIn Declaration (λ x. (x.0, x.1.now)) tokens.now result (λ r. more_fields_at r first) }
    ensures shorter { IfOk result (λ x. length x.1.now ≤ length tokens.now) }
{
    let mut fields = first;
    let mut rest = tokens;
    'more: while next_is_separator(rest) {
        let (more, after) = next_field(alloc, fields, rest)?;
        fields = more;
        rest = after;
    }
    Ok((fields, rest))
}

/// Reads a separator and a field, and appends it.
#[cycle(types)]
#[tactic(auto, unfolding(sr_expr_reader::specs::TypeReaders::next_field_at))]
fn next_field(
    alloc: Global,
    fields: Row<Formal>,
    tokens: &[Token],
) -> Result<(Row<Formal>, &[Token]), ReadFail>
    ensures reads { ReadsTypeIn Declaration (λ x. (x.0, x.1.now)) tokens.now result (λ r. next_field_at r fields) }
    ensures shorter { IfOk result (λ x. length x.1.now < length tokens.now) }
{
    let mut fields = fields;
    let (_, rest) = separator(tokens)?;
    let (next, rest) = formal_after(alloc, TypePlace::Declaration, None, rest)?;
    fields.push(next)?;
    Ok((fields, rest))
}
