ghost use Rattle.std.specs.Prelude.{◌≡◌};
ghost use Rattle.sr_fmt.specs.Roles.{opens_level, closes_level, begins_part, stands_out, begins_component, begins_declaration, always_begins_line};

use sr_tree::{Sign, TokenKind, Word};

/// Whether the contents after the token stand one level deeper.
pub(crate) fn is_opening_level(kind: TokenKind) -> bool
    ensures { result ≡ opens_level kind }
{
    matches!(
        kind,
        TokenKind::Word(
            Word::Resource
                | Word::Global
                | Word::Proc
                | Word::Procedure
                | Word::Process
                | Word::Final
                | Word::If
                | Word::Do
                | Word::Fa
                | Word::In
                | Word::Co
        )
    )
}

/// Whether the token ends such contents.
pub(crate) fn is_closing_level(kind: TokenKind) -> bool
    ensures { result ≡ closes_level kind }
{
    matches!(
        kind,
        TokenKind::Word(Word::End | Word::Fi | Word::Od | Word::Af | Word::Ni | Word::Oc)
    )
}

/// Whether the token begins a further part of a component or statement.
fn is_beginning_part(kind: TokenKind) -> bool
    ensures { result ≡ begins_part kind }
{
    matches!(
        kind,
        TokenKind::Word(Word::Body) | TokenKind::Sign(Sign::Alternative | Sign::Parallel)
    )
}

/// Whether the token stands at the level of the head that it belongs to.
pub(crate) fn is_standing_out(kind: TokenKind) -> bool
    ensures { result ≡ stands_out kind }
{
    is_closing_level(kind) || is_beginning_part(kind)
}

/// Whether the token begins a component.
pub(crate) fn is_beginning_component(kind: TokenKind) -> bool
    ensures { result ≡ begins_component kind }
{
    matches!(kind, TokenKind::Word(Word::Resource | Word::Global))
}

/// Whether the token begins a declaration.
fn is_beginning_declaration(kind: TokenKind) -> bool
    ensures { result ≡ begins_declaration kind }
{
    matches!(
        kind,
        TokenKind::Word(
            Word::Import
                | Word::Const
                | Word::Type
                | Word::OpType
                | Word::Op
                | Word::Var
                | Word::Sem
                | Word::Proc
                | Word::Procedure
                | Word::Process
                | Word::Final
        )
    )
}

/// Whether the token begins a line wherever no bracket is open.
pub(crate) fn is_always_beginning(kind: TokenKind) -> bool
    ensures { result ≡ always_begins_line kind }
{
    is_beginning_component(kind) || is_beginning_declaration(kind) || is_standing_out(kind)
}
