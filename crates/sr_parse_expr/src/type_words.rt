ghost use Rattle.std.specs.Prelude.{◌≡◌, ◌<◌, ◌≤◌, length, is_some, IfOk};
ghost use Rattle.sr_reader.specs.Reader.{next_is};
ghost use Rattle.sr_tree.specs.Tables.{basic_of};
ghost use Rattle.sr_expr_reader.specs.TypeReaders.{basic_type, basic_type_at, ends_open, invocation_kind_of, kind_at, kinds_at, mode_at, mode_of, mode_word_at, more_kinds_at, own_kinds_at, returns_open};
ghost use Rattle.sr_parse_tokens.specs.Gives.{Gives};

use sr_parse_tokens::{ReadFail, next_is_sign, sign};
use sr_tree::{
    BasicType, InvocationKind, PassMode, Returned, Sign, Token, TokenKind, TypeTree, Word,
};
use sr_value::{Row, Span};
use std::alloc::Global;

/// The type that a word is.
fn basic(kind: TokenKind) -> Option<BasicType>
    ensures { result ≡ basic_of kind }
{
    match kind {
        TokenKind::Word(Word::Int) => Some(BasicType::Int),
        TokenKind::Word(Word::Bool) => Some(BasicType::Bool),
        TokenKind::Word(Word::Char) => Some(BasicType::Char),
        _ => None,
    }
}

/// A type that is a word.
fn basic_tree(span: Span, basic: BasicType) -> TypeTree
    ensures { result ≡ basic_type span basic }
{
    match basic {
        BasicType::Int => TypeTree::Int { span },
        BasicType::Bool => TypeTree::Bool { span },
        BasicType::Char => TypeTree::Char { span },
    }
}

/// Whether the next token is a type.
pub fn next_is_basic(tokens: &[Token]) -> bool
    ensures { result ≡ next_is (λ t. is_some (basic_of t.kind)) tokens.now }
{
    match tokens {
        [] => false,
        [first, ..] => basic(first.kind).is_some(),
    }
}

/// Reads a type that is a word.
#[tactic(auto, unfolding(sr_expr_reader::specs::TypeReaders::basic_type_at))]
pub fn read_basic(tokens: &[Token]) -> Result<(TypeTree, &[Token]), ReadFail>
    ensures reads { Gives (λ x. (x.0, x.1.now)) result (basic_type_at tokens.now) }
    ensures shorter { IfOk result (λ x. length x.1.now < length tokens.now) }
{
    match tokens {
        [] => Err(ReadFail::Unexpected { left: 0 }),
        [first, rest @ ..] => match basic(first.kind) {
            Some(basic) => Ok((basic_tree(first.span, basic), rest)),
            None => Err(ReadFail::Unexpected { left: tokens.len() }),
        },
    }
}

/// How an argument is passed, by the word that a token is.
fn pass_mode(kind: TokenKind) -> Option<PassMode>
    ensures { result ≡ mode_of kind }
{
    match kind {
        TokenKind::Word(Word::Val) => Some(PassMode::Val),
        TokenKind::Word(Word::Var) => Some(PassMode::Var),
        TokenKind::Word(Word::Res) => Some(PassMode::Res),
        _ => None,
    }
}

/// Whether the next token says how an argument is passed.
fn next_is_mode(tokens: &[Token]) -> bool
    ensures { result ≡ next_is (λ t. is_some (mode_of t.kind)) tokens.now }
{
    match tokens {
        [] => false,
        [first, ..] => pass_mode(first.kind).is_some(),
    }
}

/// Reads the word for how an argument is passed, and gives its span too.
#[tactic(auto, unfolding(sr_expr_reader::specs::TypeReaders::mode_word_at))]
fn mode_word(tokens: &[Token]) -> Result<((Span, PassMode), &[Token]), ReadFail>
    ensures reads { Gives (λ x. (x.0, x.1.now)) result (mode_word_at tokens.now) }
    ensures shorter { IfOk result (λ x. length x.1.now < length tokens.now) }
{
    match tokens {
        [] => Err(ReadFail::Unexpected { left: 0 }),
        [first, rest @ ..] => match pass_mode(first.kind) {
            Some(mode) => Ok(((first.span, mode), rest)),
            None => Err(ReadFail::Unexpected { left: tokens.len() }),
        },
    }
}

/// Reads the word for how an argument is passed, where one stands, and gives its span too.
#[tactic(auto, unfolding(sr_expr_reader::specs::TypeReaders::mode_at))]
pub fn mode(tokens: &[Token]) -> Result<(Option<(Span, PassMode)>, &[Token]), ReadFail>
    ensures reads { Gives (λ x. (x.0, x.1.now)) result (mode_at tokens.now) }
    ensures shorter { IfOk result (λ x. length x.1.now ≤ length tokens.now) }
{
    if next_is_mode(tokens) {
        let (mode, rest) = mode_word(tokens)?;
        Ok((Some(mode), rest))
    } else {
        Ok((None, tokens))
    }
}

/// How an operation may be invoked, by the word that a token is.
fn invocation_kind(kind: TokenKind) -> Option<InvocationKind>
    ensures { result ≡ invocation_kind_of kind }
{
    match kind {
        TokenKind::Word(Word::Call) => Some(InvocationKind::Call),
        TokenKind::Word(Word::Send) => Some(InvocationKind::Send),
        _ => None,
    }
}

/// Reads the word for how an operation may be invoked.
#[tactic(auto, unfolding(sr_expr_reader::specs::TypeReaders::kind_at))]
fn kind(tokens: &[Token]) -> Result<(InvocationKind, &[Token]), ReadFail>
    ensures reads { Gives (λ x. (x.0, x.1.now)) result (kind_at tokens.now) }
    ensures shorter { IfOk result (λ x. length x.1.now < length tokens.now) }
{
    match tokens {
        [] => Err(ReadFail::Unexpected { left: 0 }),
        [first, rest @ ..] => match invocation_kind(first.kind) {
            Some(kind) => Ok((kind, rest)),
            None => Err(ReadFail::Unexpected { left: tokens.len() }),
        },
    }
}

/// Reads the rest of the kinds of an operation, after the first one.
#[tactic(auto, unfolding(sr_expr_reader::specs::TypeReaders::more_kinds_at))]
fn more_kinds(alloc: Global, tokens: &[Token]) -> Result<(Row<InvocationKind>, &[Token]), ReadFail>
    ensures reads { Gives (λ x. (x.0, x.1.now)) result (more_kinds_at tokens.now) }
    ensures shorter { IfOk result (λ x. length x.1.now < length tokens.now) }
{
    if next_is_sign(tokens, Sign::Comma) {
        let (_, rest) = sign(tokens, Sign::Comma)?;
        let (second, rest) = kind(rest)?;
        let (_, rest) = sign(rest, Sign::CloseBrace)?;
        let mut kinds = Row::new(alloc);
        kinds.push(second)?;
        Ok((kinds, rest))
    } else {
        let (_, rest) = sign(tokens, Sign::CloseBrace)?;
        Ok((Row::new(alloc), rest))
    }
}

/// Reads how an operation may be invoked, where braces stand after what it returns, and hands that back.
#[tactic(auto, unfolding(sr_expr_reader::specs::TypeReaders::kinds_at))]
fn kinds<T: Drop>(
    alloc: Global,
    returned: T,
    tokens: &[Token],
) -> Result<(T, Row<InvocationKind>, &[Token]), ReadFail>
    ensures reads { Gives (λ x. (x.1, x.2.now)) result (kinds_at tokens.now) }
    ensures kept { IfOk result (λ x. x.0 ≡ returned) }
    ensures shorter { IfOk result (λ x. length x.2.now ≤ length tokens.now) }
{
    if next_is_sign(tokens, Sign::OpenBrace) {
        let (_, rest) = sign(tokens, Sign::OpenBrace)?;
        let (first, rest) = kind(rest)?;
        let (more, rest) = more_kinds(alloc, rest)?;
        let mut kinds = Row::new(alloc);
        kinds.push(first)?;
        kinds.push_all(more)?;
        Ok((returned, kinds, rest))
    } else {
        Ok((returned, Row::new(alloc), tokens))
    }
}

/// Whether braces after a type belong to a signature at its end.
#[cycle(open_types)]
#[tactic(auto, unfolding(sr_expr_reader::specs::TypeReaders::ends_open))]
fn ends_open(ty: &TypeTree) -> bool
    ensures { result ≡ ends_open ty.now }
{
    match ty {
        TypeTree::CapOperation { signature, .. } => signature.kinds.is_empty(),
        TypeTree::Array { item, .. } => ends_open(item.get()),
        _ => false,
    }
}

/// Whether braces after the result of an operation belong to a signature at the end of its type.
fn returns_open(returned: &Option<Returned>) -> bool
    ensures { result ≡ returns_open returned.now }
{
    match returned {
        None => false,
        Some(returned) => ends_open(returned.ty.get()),
    }
}

/// Reads how an operation may be invoked, where braces stand that are its own, and hands what it returns back.
#[tactic(auto, unfolding(sr_expr_reader::specs::TypeReaders::own_kinds_at))]
pub fn own_kinds(
    alloc: Global,
    returned: Option<Returned>,
    tokens: &[Token],
) -> Result<(Option<Returned>, Row<InvocationKind>, &[Token]), ReadFail>
    ensures reads { Gives (λ x. (x.1, x.2.now)) result (own_kinds_at returned tokens.now) }
    ensures kept { IfOk result (λ x. x.0 ≡ returned) }
    ensures shorter { IfOk result (λ x. length x.2.now ≤ length tokens.now) }
{
    if returns_open(&returned) {
        Ok((returned, Row::new(alloc), tokens))
    } else {
        kinds(alloc, returned, tokens)
    }
}
